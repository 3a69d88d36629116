//! What `--progress` counts.

use crate::common::{is_of, put};
use rs_trace::progress::Message;
use std::alloc::Global;
use std::process::Abort;

/// The header of a message of this length and type.
fn header(length: u16, kind: u8) -> [u8; 19] {
    let mut octets = [0xff; 19];
    let [high, low] = length.to_be_bytes();
    octets[16] = high;
    octets[17] = low;
    octets[18] = kind;
    octets
}

/// An OPEN without parameters, a KEEPALIVE, the shortest UPDATE, and one of 300 octets that hold what looks like the
/// header of another.
fn session(rt: &impl Abort, alloc: Global) -> Vec<u8> {
    let mut said = Vec::new(alloc);
    put(rt, &mut said, &header(29, 1));
    put(rt, &mut said, &[4, 0, 1, 0, 90, 10, 0, 0, 1, 0]);
    put(rt, &mut said, &header(19, 4));
    put(rt, &mut said, &header(23, 2));
    put(rt, &mut said, &[0; 4]);
    put(rt, &mut said, &header(300, 2));
    for _ in 0..14 {
        put(rt, &mut said, &header(19, 2));
    }
    put(rt, &mut said, &[0; 15]);
    said
}

#[test]
fn updates_in_any_pieces(rt: HostRuntime) {
    let said = session(&rt, rt.alloc());
    for size in [1, 7, 18, 19, 20, 64, 4096] {
        let mut message = Message::new();
        let mut updates: u64 = 0;
        for piece in said.chunks(size) {
            updates = updates.saturating_add(message.take_all(piece));
        }
        // and one more behind them
        let behind = message.take_all(&header(19, 2));
        is_of(&rt, (updates, behind), (2, 1), size as u64);
    }
}
