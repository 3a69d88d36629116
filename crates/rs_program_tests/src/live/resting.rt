//! A member that comes back after two connections of less than a minute: it is read two seconds later.

use crate::common::is_of;
use crate::live::rounds::{ENDLESS, KEEPALIVE, MEMBER_A, OPEN_S, served};
use crate::live::script::{Member, Script};
use rs_control::order::Order;

/// How long a's connections before the last one last, when the server ends behind the last one's begin, and whether a
/// was sent a KEEPALIVE on it, which says that its own was read.
static ROWS: [(&[u64], u64, bool); 5] = [
    (&[9], 1, true),
    (&[9, 9], 1, false),
    (&[9, 9], 5, true),
    (&[80, 9], 1, true),
    (&[9, 80], 1, true),
];

#[test]
fn a_member_that_comes_back_soon_again_rests(rt: HostRuntime) {
    for (number, (lasts, rounds, is_read)) in ROWS.iter().enumerate() {
        let mut ports = Script::new(rt.alloc());
        ports.pace = 1;
        let mut member = MEMBER_A;
        for seconds in *lasts {
            member.stays = member.comes.saturating_add(*seconds);
            ports.join(&rt, member);
            member.comes = member.stays.saturating_add(1);
        }
        member.until = usize::MAX;
        ports.join(&rt, member);
        let end = member.comes.saturating_add(*rounds);
        ports.order(&rt, end, Order::End);
        served(&rt, rt.alloc(), &mut ports, ENDLESS);
        let heard = ports.heard(lasts.len());
        let behind = heard.strip_prefix(OPEN_S).expect(&rt, "an OPEN");
        let found = behind.starts_with(KEEPALIVE);
        is_of(&rt, found, *is_read, number as u64);
        ports.let_go();
    }
}
