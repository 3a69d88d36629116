//! Prefixes by their numbers.

use super::*;

/// A prefix has this number, or none.
fn has_number(rt: &impl Abort, ins: &AdjIns, of: (u32, u8), want: Option<u32>) {
    equals(rt, ins.number(prefix(rt, of)), want);
}

/// A number stays until it is given up, which it isn't while a client has a route there, and then
/// serves another prefix.
#[test]
fn numbers_stay_until_given_up(rt: HostRuntime) {
    let mut ins = filled(&rt, rt.alloc());
    let other = (0x0b00_0000, 8);
    equals(&rt, ins.prefix(2), Some(prefix(&rt, INNER)));
    is_so(&rt, !ins.release(2), "a client has a route there");
    clear(&rt, &mut ins, 0);
    has_number(&rt, &ins, INNER, Some(2));
    is_so(&rt, ins.release(2), "nobody has");
    has_number(&rt, &ins, INNER, None);
    put(&rt, rt.alloc(), &mut ins, 1, other, 1);
    has_number(&rt, &ins, other, Some(2));
    equals(&rt, ins.numbers(), 3);
    let_go(ins);
}

/// Client 0 announces so many prefixes from this /24 on and withdraws them, and then the numbers
/// that there are are given up.
fn come_and_go(rt: &impl Abort, ins: &mut AdjIns, attrs: &Arc<Attrs>, first: u32, count: u32) {
    let shared = ins.share(attrs).expect(rt, "a set");
    for n in first..first.saturating_add(count) {
        put_in(rt, ins, 0, (n.wrapping_mul(256), 24), &shared);
    }
    for n in first..first.saturating_add(count) {
        withdraw(rt, ins, 0, (n.wrapping_mul(256), 24));
    }
    for number in 0..count {
        ins.release(number);
    }
}

/// A client that announces and withdraws a million different prefixes, 4,096 at a time, takes no
/// more numbers than it held at once, where those that nobody holds are given up.
#[test]
fn a_million_prefixes_take_few_numbers(rt: HostRuntime) {
    let mut ins = tables(&rt, rt.alloc(), 1);
    let attrs = attrs(&rt, rt.alloc(), 1);
    for round in 0..245 {
        come_and_go(&rt, &mut ins, &attrs, round * 4096, 4096);
        equals(&rt, ins.numbers(), 4096);
    }
    is_so(&rt, ins.iter().next().is_none(), "no prefix is left");
    let_attrs_go(attrs);
    let_go(ins);
}
