//! How much room attributes take. What counts it stands outside the program: `tools/plays/without_memory.py` runs this
//! test, and wants no more held between two lines that it prints than two blocks of just the size.

use super::put;
use crate::common::{equals, is_of, say};
use rs_attrs::{Mode, read};
use std::alloc::Global;
use std::process::Abort;

/// A thousand attributes of an octet each: 200 types, each five times, with the values 0 to 4.
fn thousand(rt: &impl Abort, alloc: Global) -> Vec<u8> {
    let mut field = Vec::new(alloc);
    for value in 0..5u8 {
        for kind in 33..233u8 {
            put(rt, &mut field, &[0x80, kind, 1, value]);
        }
    }
    field
}

/// The value of each of the 200 is an octet of 0, and there is no other.
#[test]
fn a_thousand_attributes_of_one_octet(rt: HostRuntime) {
    let field = thousand(&rt, rt.alloc());
    equals(&rt, field.len(), 4000);
    say(&rt, "room is counted from here");
    let parsed = read(rt.alloc(), &field, Mode::Four).expect(&rt, "attributes");
    say(&rt, "room is counted to here");
    for kind in 0..=255 {
        let value = parsed.attrs.get(kind).map(|it| it.value);
        let want: &[u8] = &[0];
        let is_there = kind >= 33 && kind < 233;
        is_of(&rt, value, is_there.then_some(want), &("type", kind));
    }
}
