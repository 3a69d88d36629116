//! Sets of attributes: equal ones are one set, and the routes' sets are counted.

use super::*;

/// Attributes whose hash is that of all with another `one`: the block of octets that differs ends with eight
/// by which the hash multiplies 0.
fn of_one_hash(rt: &impl Abort, alloc: Global, one: &str) -> Arc<Attrs> {
    let mut text = String::from_str(alloc, "A c00828 0000000000 ").expect(rt, "a text");
    text.push_str(one).expect(rt, "a text");
    text.push_str("00000000000000 157c4a7fb979379e 00000000000000000000000000000000000000")
        .expect(rt, "a text");
    common::shared(rt, alloc, &common::octets(rt, alloc, &text))
}

/// An UPDATE announces a prefix; so many sets there are then. Answers the number of its set.
fn puts(
    rt: &impl Abort,
    ins: &mut AdjIns,
    client: usize,
    of: (u32, u8),
    attrs: &Arc<Attrs>,
    want: usize,
) -> u32 {
    let shared = ins.share(attrs).expect(rt, "a set");
    put_in(rt, ins, client, of, &shared);
    ins.forget(shared.set);
    equals(rt, ins.set_count(), want);
    shared.set
}

/// The same, where it is known which set this is.
fn puts_of(
    rt: &impl Abort,
    ins: &mut AdjIns,
    client: usize,
    of: (u32, u8),
    (attrs, set): (&Arc<Attrs>, u32),
    want: usize,
) {
    equals(rt, puts(rt, ins, client, of, attrs, want), set);
}

/// Withdraws a route, if there is one; so many sets there are then.
fn withdraws(rt: &impl Abort, ins: &mut AdjIns, client: usize, of: (u32, u8), want: usize) {
    withdraw(rt, ins, client, of);
    equals(rt, ins.set_count(), want);
}

/// The number of the set of these attributes is this, whichever prefix one begins at.
fn is_set(rt: &impl Abort, ins: &AdjIns, attrs: &Arc<Attrs>, want: Option<u32>) {
    for of in [WIDE, INNER, OTHER] {
        let number = ins.number(prefix(rt, of)).unwrap_or(u32::MAX);
        equals(rt, ins.set_by(number, attrs).expect(rt, "a search"), want);
    }
}

/// The routes of one UPDATE share a set, as do those of another with equal attributes.
fn put_equal(rt: &impl Abort, alloc: Global, ins: &mut AdjIns) {
    let one = attrs(rt, alloc, 1);
    let again = attrs(rt, alloc, 1);
    let first = puts(rt, ins, 0, WIDE, &one, 1);
    puts_of(rt, ins, 0, INNER, (&one, first), 1);
    puts_of(rt, ins, 1, WIDE, (&again, first), 1);
    // A route that has the attributes already keeps its set.
    puts_of(rt, ins, 1, WIDE, (&again, first), 1);
    let_attrs_go(one);
    let_attrs_go(again);
}

/// Others replace them.
fn replace_both(rt: &impl Abort, alloc: Global, ins: &mut AdjIns) {
    let two = attrs(rt, alloc, 2);
    let second = puts(rt, ins, 0, WIDE, &two, 2);
    puts_of(rt, ins, 0, INNER, (&two, second), 2);
    let_attrs_go(two);
}

#[test]
fn sets_of_routes_are_counted(rt: HostRuntime) {
    let mut ins = tables(&rt, rt.alloc(), 3);
    equals(&rt, ins.set_count(), 0);
    put_equal(&rt, rt.alloc(), &mut ins);
    replace_both(&rt, rt.alloc(), &mut ins);
    for (client, of, sets) in [(0, WIDE, 2), (2, WIDE, 2), (0, INNER, 1)] {
        withdraws(&rt, &mut ins, client, of, sets);
    }
    clear(&rt, &mut ins, 1);
    equals(&rt, ins.set_count(), 0);
    let_go(ins);
}

/// Two routes have these attributes, and others none; the set is there until the last of them goes. Answers its number.
fn come_and_go(rt: &impl Abort, ins: &mut AdjIns, one: &Arc<Attrs>, two: &Arc<Attrs>) -> u32 {
    let first = puts(rt, ins, 0, WIDE, one, 1);
    puts_of(rt, ins, 1, WIDE, (one, first), 1);
    is_set(rt, ins, one, Some(first));
    is_set(rt, ins, two, None);
    withdraws(rt, ins, 0, WIDE, 1);
    is_set(rt, ins, one, Some(first));
    withdraws(rt, ins, 1, WIDE, 0);
    is_set(rt, ins, one, None);
    first
}

/// A number serves other attributes, and those that had it get another.
fn serves_again(
    rt: &impl Abort,
    ins: &mut AdjIns,
    one: &Arc<Attrs>,
    two: &Arc<Attrs>,
    number: u32,
) {
    puts_of(rt, ins, 0, INNER, (two, number), 1);
    is_set(rt, ins, two, Some(number));
    let second = puts(rt, ins, 1, INNER, one, 2);
    is_so(rt, second != number, "two sets of one number");
    is_set(rt, ins, one, Some(second));
}

#[test]
fn the_number_of_a_set_serves_again(rt: HostRuntime) {
    let alloc = rt.alloc();
    let mut ins = tables(&rt, alloc, 2);
    let one = attrs(&rt, alloc, 1);
    let two = attrs(&rt, alloc, 2);
    let first = come_and_go(&rt, &mut ins, &one, &two);
    serves_again(&rt, &mut ins, &one, &two, first);
    let_attrs_go(one);
    let_attrs_go(two);
    let_go(ins);
}

/// Attributes that an UPDATE shared, and no route has, are no set. Answers the number that they had.
fn are_forgotten(rt: &impl Abort, ins: &mut AdjIns, attrs: &Arc<Attrs>) -> u32 {
    let shared = ins.share(attrs).expect(rt, "a set");
    is_set(rt, ins, attrs, Some(shared.set));
    ins.forget(shared.set);
    is_set(rt, ins, attrs, None);
    equals(rt, ins.set_count(), 0);
    shared.set
}

/// The number serves other attributes, and isn't given up while a route has them.
fn is_kept(rt: &impl Abort, ins: &mut AdjIns, attrs: &Arc<Attrs>, number: u32) {
    puts_of(rt, ins, 0, WIDE, (attrs, number), 1);
    ins.forget(number);
    is_set(rt, ins, attrs, Some(number));
}

#[test]
fn an_update_that_changes_nothing_leaves_no_number(rt: HostRuntime) {
    let alloc = rt.alloc();
    let mut ins = tables(&rt, alloc, 2);
    let one = attrs(&rt, alloc, 1);
    let two = attrs(&rt, alloc, 2);
    let number = are_forgotten(&rt, &mut ins, &one);
    is_kept(&rt, &mut ins, &two, number);
    let_attrs_go(one);
    let_attrs_go(two);
    let_go(ins);
}

/// Attributes of one hash have two sets. Answers the number of the second.
fn are_two(rt: &impl Abort, ins: &mut AdjIns, one: &Arc<Attrs>, two: &Arc<Attrs>) -> u32 {
    equals(rt, one.kept_hash(), two.kept_hash());
    let first = puts(rt, ins, 0, WIDE, one, 1);
    is_set(rt, ins, two, None);
    let second = puts(rt, ins, 1, WIDE, two, 2);
    is_set(rt, ins, one, Some(first));
    is_set(rt, ins, two, Some(second));
    second
}

#[test]
fn two_sets_of_one_hash_are_two(rt: HostRuntime) {
    let alloc = rt.alloc();
    let mut ins = tables(&rt, alloc, 2);
    let one = of_one_hash(&rt, alloc, "01");
    let two = of_one_hash(&rt, alloc, "02");
    let second = are_two(&rt, &mut ins, &one, &two);
    withdraws(&rt, &mut ins, 0, WIDE, 1);
    is_set(&rt, &ins, &one, None);
    is_set(&rt, &ins, &two, Some(second));
    let_attrs_go(one);
    let_attrs_go(two);
    let_go(ins);
}
