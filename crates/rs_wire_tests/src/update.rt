//! What UPDATEs do, by tables whose answers are worked out by hand from RFC 4271 and RFC 7606.

mod faults;
mod resets;
mod routes;

use crate::common::{announced, is, octets, put, withdrawn};
use rs_attrs::Mode;
use rs_update::{Outcome, effect};
use std::alloc::Global;
use std::process::Abort;

/// What the row shows, a body in hex and the answer: the bodies of an UPDATE that withdraws and of one
/// that announces the same, or the error code and the subcode of the reset.
type Row = (&'static str, &'static str, &'static str);

/// The octets of an answer.
fn spelt(rt: &impl Abort, alloc: Global, outcome: &Outcome) -> Vec<u8> {
    let mut spelt = Vec::new(alloc);
    match outcome {
        Outcome::Reset(code, subcode) => put(rt, &mut spelt, &[*code, *subcode]),
        Outcome::Change {
            withdrawn: away,
            announced: come,
            attrs,
            ..
        } => {
            let mut out = [0; 4096];
            if let Some(packed) = withdrawn(away, &mut out) {
                put(rt, &mut spelt, out.get(19..packed.octets).unwrap_or(&[]));
            }
            if let Some(attrs) = attrs
                && let Some(packed) = announced(Mode::Four, attrs, come, &mut out)
            {
                put(rt, &mut spelt, out.get(19..packed.octets).unwrap_or(&[]));
            }
        }
    }
    spelt
}

/// Each row holds of a client whose AS numbers are spelt so.
fn hold(rt: &impl Abort, alloc: Global, mode: Mode, rows: &[Row]) {
    for (shows, body, answer) in rows {
        let body = octets(rt, alloc, body);
        let outcome = effect(alloc, &body, mode).expect(rt, "memory");
        let found = spelt(rt, alloc, &outcome);
        let want = octets(rt, alloc, answer);
        is(rt, found.as_slice(), want.as_slice(), shows);
    }
}
