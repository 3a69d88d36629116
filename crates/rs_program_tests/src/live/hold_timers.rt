//! Hold timers where the server was kept from reading.

use crate::common::is_of;
use crate::live::rounds::{CONFIRMS, KEEPALIVE, MEMBER_A, MEMBER_B, TWO_SESSIONS, served};
use crate::live::script::{Member, Said, Script};

/// The OPENs of the two members with a Hold Time of 9 seconds.
const OPEN_A: &[u8] =
    b"\xff\xff\xff\xff\xff\xff\xff\xff\xff\xff\xff\xff\xff\xff\xff\xff\x00\x25\x01\x04\xfb\xf0\x00\x09\xc0\x00\x02\x0b\x08\x02\x06\x41\x04\x00\x00\xfb\xf0";

const OPEN_B: &[u8] =
    b"\xff\xff\xff\xff\xff\xff\xff\xff\xff\xff\xff\xff\xff\xff\xff\xff\x00\x25\x01\x04\xfb\xf1\x00\x09\xc0\x00\x02\x0c\x08\x02\x06\x41\x04\x00\x00\xfb\xf1";

/// Hold Timer Expired.
const EXPIRED: &[u8] =
    b"\xff\xff\xff\xff\xff\xff\xff\xff\xff\xff\xff\xff\xff\xff\xff\xff\x00\x15\x03\x04\x00";

/// The members say nothing more, but for a KEEPALIVE of a's that lies there in the tenth round.
static MEMBERS: [Member; 2] = [
    Member {
        says: &[
            Said {
                octets: OPEN_A,
                behind: 0,
            },
            CONFIRMS,
        ],
        later: Some((10, KEEPALIVE)),
        stays: 30,
        ..MEMBER_A
    },
    Member {
        says: &[
            Said {
                octets: OPEN_B,
                behind: 0,
            },
            CONFIRMS,
        ],
        stays: 30,
        ..MEMBER_B
    },
];

/// For so many seconds the server stands still before the tenth round, and then the hold timer of b expired or not.
static STALLS: [(u64, bool); 4] = [(8, false), (9, true), (12, true), (16, true)];

#[test]
fn a_keepalive_that_lay_there_while_the_server_stood_still_counts(rt: HostRuntime) {
    for (seconds, b_expires) in &STALLS {
        let mut ports = Script::new(rt.alloc());
        for member in &MEMBERS {
            ports.join(&rt, *member);
        }
        ports.stall = Some((10, *seconds));
        served(&rt, rt.alloc(), &mut ports, TWO_SESSIONS);
        let a = ports.heard(0).ends_with(EXPIRED);
        let b = ports.heard(1).ends_with(EXPIRED);
        is_of(&rt, (a, b), (false, *b_expires), *seconds);
        ports.let_go();
    }
}
