//! A member that asks for all its routes in more than one piece within a minute: it is read twenty seconds later.

use crate::common::{config, is_of};
use crate::live::rounds::{A_OPENS, COMING_UP, CONFIRMS, ENDLESS, MEMBER_A, MEMBER_B, UPDATE};
use crate::live::script::{Member, Said, Script};
use rs_control::order::Order;
use rs_live::serve::serve;

/// Two members that may ask for all their routes again.
const TWO: &str = "as = 64500\nidentifier = \"192.0.2.1\"\nrefresh = true\n\
[[client]]\nname = \"a\"\nas = 64496\nlisten = \"127.0.0.1:17901\"\npeer = \"192.0.2.11\"\n\
[[client]]\nname = \"b\"\nas = 64497\nlisten = \"127.0.0.1:17902\"\npeer = \"192.0.2.12\"\n";

/// A ROUTE-REFRESH for IPv4 unicast (RFC 2918, 3): its front, up to the length, and what follows.
const FRONT: Said = Said {
    octets: b"\xff\xff\xff\xff\xff\xff\xff\xff\xff\xff\xff\xff\xff\xff\xff\xff\x00\x17",
    behind: COMING_UP,
};

const BACK: Said = Said {
    octets: b"\x05\x00\x01\x00\x01",
    behind: COMING_UP,
};

/// Three of them in one piece.
const THREE: Said = Said {
    octets: b"\xff\xff\xff\xff\xff\xff\xff\xff\xff\xff\xff\xff\xff\xff\xff\xff\x00\x17\x05\x00\x01\x00\x01\
\xff\xff\xff\xff\xff\xff\xff\xff\xff\xff\xff\xff\xff\xff\xff\xff\x00\x17\x05\x00\x01\x00\x01\
\xff\xff\xff\xff\xff\xff\xff\xff\xff\xff\xff\xff\xff\xff\xff\xff\x00\x17\x05\x00\x01\x00\x01",
    behind: COMING_UP,
};

const ROUTE: Said = Said {
    octets: UPDATE,
    behind: COMING_UP,
};

/// The octets of the server's OPEN, which has two more for ROUTE-REFRESH, its KEEPALIVE, and the NOTIFICATION as it ends;
/// and with a's route.
const UNTOLD: usize = 39 + 19 + 21;

const TOLD: usize = UNTOLD + UPDATE.len();

/// What a says, in which round, and so second, the operator ends the server, and how many octets b is sent until then.
static ROWS: [(&[Said], u64, usize); 6] = [
    (&[A_OPENS, CONFIRMS, ROUTE], 9, TOLD),
    (&[A_OPENS, CONFIRMS, THREE, ROUTE], 9, TOLD),
    (&[A_OPENS, CONFIRMS, THREE, THREE, ROUTE], 9, UNTOLD),
    (&[A_OPENS, CONFIRMS, THREE, THREE, ROUTE], 30, TOLD),
    (&[A_OPENS, CONFIRMS, FRONT, BACK, ROUTE], 9, TOLD),
    (
        &[A_OPENS, CONFIRMS, FRONT, BACK, FRONT, BACK, ROUTE],
        9,
        UNTOLD,
    ),
];

#[test]
fn a_member_that_asks_too_often_rests(rt: HostRuntime) {
    for (number, (says, round, want)) in ROWS.iter().enumerate() {
        let mut ports = Script::new(rt.alloc());
        ports.pace = 1;
        for member in [Member { says, ..MEMBER_A }, MEMBER_B] {
            ports.join(
                &rt,
                Member {
                    until: usize::MAX,
                    ..member
                },
            );
        }
        ports.order(&rt, *round, Order::End);
        let config = config(&rt, rt.alloc(), TWO);
        let _ended = serve(&rt, rt.alloc(), &mut ports, config, ENDLESS);
        is_of(&rt, ports.heard(1).len(), *want, number as u64);
        ports.let_go();
    }
}
