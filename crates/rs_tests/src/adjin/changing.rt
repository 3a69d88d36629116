//! Routes that come and go, client by client.

use super::*;

/// What clients hold.
static HELD: [(usize, &[(u32, u8)]); 3] = [(0, &ALL_THREE), (1, &[WIDE, OTHER]), (2, &[WIDE])];

/// Who has a route for which prefix: client, BGP Identifier, last octet of the next hop.
static ROUTES: [((u32, u8), &[(usize, u32, u32)]); 3] = [
    (
        WIDE,
        &[
            (0, 0xc000_020a, 1),
            (1, 0xc000_020b, 1),
            (2, 0xc000_020c, 2),
        ],
    ),
    (INNER, &[(0, 0xc000_020a, 2)]),
    (OTHER, &[(0, 0xc000_020a, 1), (1, 0xc000_020b, 2)]),
];

/// How many hold each prefix.
static BY_ALL: [(u32, u8, usize); 3] = [
    (WIDE.0, WIDE.1, 3),
    (INNER.0, INNER.1, 1),
    (OTHER.0, OTHER.1, 2),
];

#[test]
fn routes_are_listed_in_order(rt: HostRuntime) {
    let alloc = rt.alloc();
    let ins = filled(&rt, alloc);
    for (client, want) in &HELD {
        holds(&rt, alloc, &ins, *client, want);
    }
    for (of, want) in &ROUTES {
        are_candidates(&rt, alloc, &ins, *of, want);
    }
    are_held(&rt, alloc, &ins, &BY_ALL);
    // 10.0.0.0/9 is between 10.0.0.0/8 and 10.0.0.0/16
    let between = prefix(&rt, (0x0a00_0000, 9));
    assert!(&rt; 0 < ins.clients());
    let first = ins.held_from(0, between).next().map(|it| it.0);
    equals(&rt, first, Some(prefix(&rt, INNER)));
    let_go(ins);
}

/// The same after client 1 withdrew 10.0.0.0/8, client 0 was cleared, and client 2 began with another identifier and
/// announced 10.0.0.0/16.
static ROUTES_AFTER: [((u32, u8), &[(usize, u32, u32)]); 3] = [
    (WIDE, &[]),
    (INNER, &[(2, 7, 1)]),
    (OTHER, &[(1, 0xc000_020b, 2)]),
];

#[test]
fn routes_go_with_their_clients(rt: HostRuntime) {
    let alloc = rt.alloc();
    let mut ins = filled(&rt, alloc);
    is_so(&rt, withdraw(&rt, &mut ins, 1, WIDE), "it was there");
    clear(&rt, &mut ins, 0);
    begin(&rt, &mut ins, 2, 7);
    put(&rt, alloc, &mut ins, 2, INNER, 1);
    for (of, want) in &ROUTES_AFTER {
        are_candidates(&rt, alloc, &ins, *of, want);
    }
    assert!(&rt; 2 < ins.clients());
    equals(&rt, ins.identifier(2), 7);
    let_go(ins);
}
