//! What the operator orders of a server that runs.

use crate::common::is;
use crate::live::reloading::NOTHING_OF_A;
use crate::live::rounds::{
    A, A_OPENS, ANNOUNCING, COMING_UP, CONFIRMS, ENDLESS, KEEPALIVE, MEMBER_B, OPEN_S, UPDATE,
    WITHDRAWAL, served,
};
use crate::live::script::{Member, Said, Script};
use rs_control::order::Order;
use rs_live::ports::Line;
use rs_open::ShutdownText;
use rs_reports::reports::Report;
use std::alloc::Global;
use std::process::Abort;

/// Cease / Administrative Shutdown (RFC 4486, 4) with a text behind its length (RFC 9003, 2), and without one.
const NOTE_TEXT: &[u8] =
    b"\xff\xff\xff\xff\xff\xff\xff\xff\xff\xff\xff\xff\xff\xff\xff\xff\x00\x20\x03\x06\x02\x0aback at 10";

const NOTE: &[u8] =
    b"\xff\xff\xff\xff\xff\xff\xff\xff\xff\xff\xff\xff\xff\xff\xff\xff\x00\x15\x03\x06\x02";

/// a announces a route to b; both stay.
fn two_members(rt: &impl Abort, alloc: Global) -> Script {
    let mut ports = Script::new(alloc);
    ports.join(rt, ANNOUNCING);
    ports.join(
        rt,
        Member {
            until: usize::MAX,
            ..MEMBER_B
        },
    );
    ports
}

#[test]
fn a_member_is_kept_down_until_it_is_enabled(rt: HostRuntime) {
    let text = ShutdownText::of(b"back at 10").expect(&rt, "a text");
    let mut ports = two_members(&rt, rt.alloc());
    ports.pace = 1;
    // a connects again, and announces its route again
    for comes in [10, 20] {
        ports.join(
            &rt,
            Member {
                comes,
                ..ANNOUNCING
            },
        );
    }
    ports.order(&rt, 5, Order::Disable(0, text));
    ports.order(&rt, 15, Order::Enable(0));
    ports.order(&rt, 25, Order::End);
    served(&rt, rt.alloc(), &mut ports, ENDLESS);
    ports.hears(&rt, 0, &[OPEN_S, KEEPALIVE, NOTE_TEXT]);
    ports.hears(&rt, 2, &[]);
    ports.hears(&rt, 3, &[OPEN_S, KEEPALIVE, NOTE]);
    let of_b = [OPEN_S, KEEPALIVE, UPDATE, WITHDRAWAL, UPDATE, NOTE];
    ports.hears(&rt, 1, &of_b);
    let lines = [
        Line::Begin(0),
        Line::Begin(1),
        Line::Close(0),
        Line::Disabled(0),
        Line::Begin(0),
        Line::Close(0),
        Line::Close(1),
    ];
    ports.says_first(&rt, &lines);
    is(&rt, ports.said.len(), lines.len(), "lines");
    let kept_out = Report::KeptOut {
        client: 0,
        address: A,
        count: 1,
    };
    is(&rt, ports.reported(&kept_out), 1, "a connection kept out");
    let enabled = Report::Enabled { client: 0 };
    is(&rt, ports.reported(&enabled), 1, "a client enabled");
    ports.are_closed(&rt);
    ports.let_go();
}

#[test]
fn routes_are_told_again_and_rules_read_again(rt: HostRuntime) {
    let mut ports = two_members(&rt, rt.alloc());
    ports.text = NOTHING_OF_A.as_bytes();
    ports.order(&rt, 10, Order::Refresh(1));
    // c has no session: nothing comes of these
    ports.order(&rt, 10, Order::Refresh(2));
    ports.order(&rt, 10, Order::Disable(2, ShutdownText::NONE));
    ports.order(&rt, 20, Order::Reload);
    ports.order(&rt, 30, Order::End);
    served(&rt, rt.alloc(), &mut ports, ENDLESS);
    ports.hears(&rt, 0, &[OPEN_S, KEEPALIVE, NOTE]);
    let of_b = [OPEN_S, KEEPALIVE, UPDATE, UPDATE, WITHDRAWAL, NOTE];
    ports.hears(&rt, 1, &of_b);
    is(&rt, ports.says(Line::Rules(Ok(()))), 1, "readings");
    is(&rt, ports.said.len(), 5, "lines");
    ports.let_go();
}

/// 198.51.100.0/24 with ORIGIN IGP, AS_PATH 64496, NEXT_HOP 192.0.2.11, and 750 times the same community: in three
/// pieces.
static LONG_ROUTE: [Said; 5] = [
    A_OPENS,
    CONFIRMS,
    Said {
        octets: b"\xff\xff\xff\xff\xff\xff\xff\xff\xff\xff\xff\xff\xff\xff\xff\xff\x0b\xeb\x02\x00\x00\x0b\xd0\x40\x01\x01\x00\x40\x02\x06\x02\x01\x00\x00\xfb\xf0\x40\x03\x04\xc0\x00\x02\x0b\xd0\x08\x0b\xb8",
        behind: COMING_UP,
    },
    Said {
        octets: &[42; 3000],
        behind: COMING_UP,
    },
    Said {
        octets: b"\x18\xc6\x33\x64",
        behind: COMING_UP,
    },
];

#[test]
fn a_member_that_takes_nothing_keeps_a_server_for_five_seconds(rt: HostRuntime) {
    let mut ports = Script::new(rt.alloc());
    ports.join(
        &rt,
        Member {
            says: &LONG_ROUTE,
            ..ANNOUNCING
        },
    );
    ports.join(
        &rt,
        Member {
            until: usize::MAX,
            deaf: 5,
            ..MEMBER_B
        },
    );
    ports.pace = 1;
    // What b is told again fills the room for what waits, so that the NOTIFICATION finds none.
    for round in 6..28 {
        ports.order(&rt, round, Order::Refresh(1));
    }
    ports.order(&rt, 28, Order::End);
    served(&rt, rt.alloc(), &mut ports, ENDLESS);
    ports.hears(&rt, 0, &[OPEN_S, KEEPALIVE, NOTE]);
    is(&rt, ports.rounds, 33, "rounds");
    ports.let_go();
}
