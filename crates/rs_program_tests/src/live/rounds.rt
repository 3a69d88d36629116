//! Sessions over ports in memory.

ghost use Rattle.std.specs.Prelude.{◌≡◌};

use crate::common::{config, holds_of, is};
use crate::live::script::{Broken, Member, Said, Script};
use rs_attrs::{AttributeFault, Cause, Faulted};
use rs_core::Ending;
use rs_live::ports::Line;
use rs_live::serve::{Limits, ServeFault, serve};
use rs_octets::Notification;
use rs_open::Short;
use rs_reports::logging::{Level, Log};
use rs_reports::offers::Offered;
use rs_reports::reports::{Holder, Report};
use std::alloc::Global;
use std::process::Abort;
use std::sync::Wait;
use std::thread::Threads;

/// Two members, and a third that is never there.
pub const THREE: &str = "as = 64500\nidentifier = \"192.0.2.1\"\n\
[[client]]\nname = \"a\"\nas = 64496\nlisten = \"127.0.0.1:17901\"\npeer = \"192.0.2.11\"\n\
[[client]]\nname = \"b\"\nas = 64497\nlisten = \"127.0.0.1:17902\"\npeer = \"192.0.2.12\"\n\
[[client]]\nname = \"c\"\nas = 64498\nlisten = \"127.0.0.1:17902\"\npeer = \"192.0.2.13\"\n";

pub const A: u32 = 0xc000_020b;

pub const B: u32 = 0xc000_020c;

/// OPENs of AS 64496, identifier 192.0.2.11, and of AS 64497, identifier 192.0.2.12; Hold Time 90, and the
/// capability for four-octet AS numbers.
const OPEN_A: &[u8] =
    b"\xff\xff\xff\xff\xff\xff\xff\xff\xff\xff\xff\xff\xff\xff\xff\xff\x00\x25\x01\x04\xfb\xf0\x00\x5a\xc0\x00\x02\x0b\x08\x02\x06\x41\x04\x00\x00\xfb\xf0";

const OPEN_B: &[u8] =
    b"\xff\xff\xff\xff\xff\xff\xff\xff\xff\xff\xff\xff\xff\xff\xff\xff\x00\x25\x01\x04\xfb\xf1\x00\x5a\xc0\x00\x02\x0c\x08\x02\x06\x41\x04\x00\x00\xfb\xf1";

/// The first with Hold Time 0, by which there are no timers.
const OPEN_HOLD_0: &[u8] =
    b"\xff\xff\xff\xff\xff\xff\xff\xff\xff\xff\xff\xff\xff\xff\xff\xff\x00\x25\x01\x04\xfb\xf0\x00\x00\xc0\x00\x02\x0b\x08\x02\x06\x41\x04\x00\x00\xfb\xf0";

/// The server's OPEN.
pub const OPEN_S: &[u8] =
    b"\xff\xff\xff\xff\xff\xff\xff\xff\xff\xff\xff\xff\xff\xff\xff\xff\x00\x25\x01\x04\xfb\xf4\x00\x5a\xc0\x00\x02\x01\x08\x02\x06\x41\x04\x00\x00\xfb\xf4";

pub const KEEPALIVE: &[u8] =
    b"\xff\xff\xff\xff\xff\xff\xff\xff\xff\xff\xff\xff\xff\xff\xff\xff\x00\x13\x04";

/// 198.51.100.0/24 with ORIGIN IGP, AS_PATH 64496 and NEXT_HOP 192.0.2.11.
pub const UPDATE: &[u8] =
    b"\xff\xff\xff\xff\xff\xff\xff\xff\xff\xff\xff\xff\xff\xff\xff\xff\x00\x2f\x02\x00\x00\x00\x14\x40\x01\x01\x00\x40\x02\x06\x02\x01\x00\x00\xfb\xf0\x40\x03\x04\xc0\x00\x02\x0b\x18\xc6\x33\x64";

/// 203.0.113.0/24 of AS 64497, with NEXT_HOP 192.0.2.12; and the same withdrawn.
const UPDATE_B: &[u8] =
    b"\xff\xff\xff\xff\xff\xff\xff\xff\xff\xff\xff\xff\xff\xff\xff\xff\x00\x2f\x02\x00\x00\x00\x14\x40\x01\x01\x00\x40\x02\x06\x02\x01\x00\x00\xfb\xf1\x40\x03\x04\xc0\x00\x02\x0c\x18\xcb\x00\x71";

const WITHDRAWAL_B: &[u8] =
    b"\xff\xff\xff\xff\xff\xff\xff\xff\xff\xff\xff\xff\xff\xff\xff\xff\x00\x1b\x02\x00\x04\x18\xcb\x00\x71\x00\x00";

/// 198.51.100.0/24 withdrawn.
pub const WITHDRAWAL: &[u8] =
    b"\xff\xff\xff\xff\xff\xff\xff\xff\xff\xff\xff\xff\xff\xff\xff\xff\x00\x1b\x02\x00\x04\x18\xc6\x33\x64\x00\x00";

/// The octets of the server's OPEN and KEEPALIVE, by which a session comes up.
pub const COMING_UP: usize = 37 + 19;

/// What the members say to come up.
pub const A_OPENS: Said = Said {
    octets: OPEN_A,
    behind: 0,
};

const B_OPENS: Said = Said {
    octets: OPEN_B,
    behind: 0,
};

pub const CONFIRMS: Said = Said {
    octets: KEEPALIVE,
    behind: 37,
};

/// a comes up, and closes.
pub const MEMBER_A: Member = Member {
    listener: 0,
    address: A,
    says: &[A_OPENS, CONFIRMS],
    until: COMING_UP,
    stays: 0,
    comes: 0,
    later: None,
    deaf: u64::MAX,
};

/// b comes up, and closes.
pub const MEMBER_B: Member = Member {
    listener: 1,
    address: B,
    says: &[B_OPENS, CONFIRMS],
    ..MEMBER_A
};

/// a comes up, announces a route and stays.
pub const ANNOUNCING: Member = Member {
    says: &[
        A_OPENS,
        CONFIRMS,
        Said {
            octets: UPDATE,
            behind: COMING_UP,
        },
    ],
    until: usize::MAX,
    ..MEMBER_A
};

/// One worker, and an end by an order alone.
pub const ENDLESS: Limits = Limits {
    workers: 1,
    sessions: None,
    reload: None,
};

/// One worker, and an end after two sessions.
pub const TWO_SESSIONS: Limits = Limits {
    sessions: Some(2),
    ..ENDLESS
};

/// a announces a route once b is there; b closes when it was sent it, and then a does.
pub fn exchange(rt: &impl Abort, alloc: Global) -> Script {
    let mut ports = Script::new(alloc);
    ports.join(
        rt,
        Member {
            until: COMING_UP,
            stays: 20,
            ..ANNOUNCING
        },
    );
    ports.join(
        rt,
        Member {
            until: COMING_UP + UPDATE.len(),
            ..MEMBER_B
        },
    );
    ports
}

/// How the server ends over these ports.
fn ended<R: Abort + Threads + Wait + Sync>(
    rt: &R,
    alloc: Global,
    ports: &mut Script,
    limits: Limits,
) -> Result<(), ServeFault> {
    assert!(rt; 0 < limits.workers && limits.workers <= 16);
    let config = config(rt, alloc, THREE);
    serve(rt, alloc, ports, config, limits)
}

/// The server over these ports ends well.
pub fn served<R: Abort + Threads + Wait + Sync>(
    rt: &R,
    alloc: Global,
    ports: &mut Script,
    limits: Limits,
) {
    is(rt, ended(rt, alloc, ports, limits), Ok(()), "the server");
}

#[test]
fn a_route_goes_by_many_workers(rt: HostRuntime) {
    for workers in [1, 2, 16] {
        let mut ports = exchange(&rt, rt.alloc());
        let limits = Limits {
            workers,
            ..TWO_SESSIONS
        };
        served(&rt, rt.alloc(), &mut ports, limits);
        ports.hears(&rt, 0, &[OPEN_S, KEEPALIVE]);
        ports.hears(&rt, 1, &[OPEN_S, KEEPALIVE, UPDATE]);
        ports.are_closed(&rt);
        ports.let_go();
    }
}

/// a says nothing.
const SILENT: Member = Member {
    says: &[],
    ..MEMBER_A
};

#[test]
fn strangers_and_second_connections_are_closed(rt: HostRuntime) {
    let mut ports = exchange(&rt, rt.alloc());
    for listener in [1, 0] {
        ports.join(&rt, Member { listener, ..SILENT });
    }
    served(&rt, rt.alloc(), &mut ports, TWO_SESSIONS);
    ports.says_first(
        &rt,
        &[
            Line::Begin(0),
            Line::Begin(1),
            Line::Stranger,
            Line::Busy(0),
        ],
    );
    ports.hears(&rt, 1, &[OPEN_S, KEEPALIVE, UPDATE]);
    let busy = Report::Busy {
        client: 0,
        address: A,
        count: 1,
        holder: Holder::Connection,
    };
    is(&rt, ports.reported(&busy), 1, "reports");
    ports.let_go();
}

#[test]
fn what_goes_wrong_alone_is_told(rt: HostRuntime) {
    let mut ports = exchange(&rt, rt.alloc());
    ports.log = Log {
        level: Some(Level::Error),
        has_utc: false,
    };
    served(&rt, rt.alloc(), &mut ports, TWO_SESSIONS);
    is(&rt, ports.reports.len(), 2, "reports");
    for report in &ports.reports {
        let is_down = matches!(report, Report::Down { .. });
        assert!(rt; is_down, "it tells of a session that is down");
    }
    ports.let_go();
}

#[test]
fn strangers_without_end_keep_nobody_waiting(rt: HostRuntime) {
    let mut ports = exchange(&rt, rt.alloc());
    ports.is_flooded = true;
    served(&rt, rt.alloc(), &mut ports, TWO_SESSIONS);
    ports.hears(&rt, 1, &[OPEN_S, KEEPALIVE, UPDATE]);
    assert!(rt; ports.says(Line::Stranger) > 0, "a stranger is told");
    is(&rt, ports.most_accepts, 64, "accepts");
    ports.let_go();
}

/// Both announce a route and stay, and a connects a second time.
static BOTH: [Member; 3] = [
    ANNOUNCING,
    Member {
        says: &[
            B_OPENS,
            CONFIRMS,
            Said {
                octets: UPDATE_B,
                behind: COMING_UP,
            },
        ],
        until: usize::MAX,
        ..MEMBER_B
    },
    Member {
        until: usize::MAX,
        ..MEMBER_A
    },
];

/// The session of a connection is lost and the connection closed, and while it may be sent something the other member
/// was sent nothing of its route, or that it is withdrawn too.
fn is_lost(rt: &impl Abort, ports: &Script, key: usize) {
    let (other, update, withdrawal) = if key == 0 {
        (1, UPDATE, WITHDRAWAL)
    } else {
        (0, UPDATE_B, WITHDRAWAL_B)
    };
    let wire = ports.wires.get(key).expect(rt, "a connection");
    let is_told = ports.says(Line::Lost(key)) == 1 && !wire.is_open;
    holds_of(rt, is_told, "it is closed, and that is told", key as u64);
    if ports.is_early {
        let heard = ports.heard(other).get(COMING_UP..);
        let heard = heard.expect(rt, "a session");
        let is_withdrawn = heard.strip_prefix(update) == Some(withdrawal);
        let is_so = heard.is_empty() || is_withdrawn;
        holds_of(rt, is_so, "the other holds nothing", key as u64);
    }
}

/// This call of the exchange fails; whether there were so many.
fn breaks<R: Abort + Threads + Wait + Sync>(rt: &R, alloc: Global, failing: u64) -> bool {
    let mut ports = Script::new(alloc);
    ports.failing = failing;
    ports.end = 20;
    for member in &BOTH {
        ports.join(rt, *member);
    }
    let ended = ended(rt, alloc, &mut ports, TWO_SESSIONS);
    let wanted = match ports.broken {
        Some(Broken::Wait) => Err(ServeFault::Poll),
        Some(Broken::Accept) => Err(ServeFault::Listener),
        Some(Broken::Read(key) | Broken::Write(key)) => {
            is_lost(rt, &ports, key);
            Ok(())
        }
        None => {
            ports.hears(rt, 0, &[OPEN_S, KEEPALIVE, UPDATE_B]);
            ports.hears(rt, 1, &[OPEN_S, KEEPALIVE, UPDATE]);
            Ok(())
        }
    };
    is(rt, ended, wanted, "the server");
    let is_broken = ports.broken.is_some();
    ports.let_go();
    is_broken
}

#[test]
fn each_call_that_fails_ends_one_session_or_the_server(rt: HostRuntime) {
    for failing in 1..1000 {
        if !breaks(&rt, rt.alloc(), failing) {
            return holds_of(&rt, failing > 30, "calls", failing);
        }
    }
    holds_of(&rt, false, "the run ends", 1000);
}

/// The server's part where a says this and stays for 30 seconds.
fn hears_of_a<R: Abort + Threads + Wait + Sync>(
    rt: &R,
    alloc: Global,
    says: &'static [Said],
) -> Script {
    let mut ports = Script::new(alloc);
    ports.join(
        rt,
        Member {
            says,
            stays: 30,
            ..MEMBER_A
        },
    );
    ports.pace = 1;
    let limits = Limits {
        sessions: Some(1),
        ..ENDLESS
    };
    served(rt, alloc, &mut ports, limits);
    ports
}

/// 198.51.100.0/24 with an ORIGIN of 3, which no route has.
const BAD_ORIGIN: &[u8] =
    b"\xff\xff\xff\xff\xff\xff\xff\xff\xff\xff\xff\xff\xff\xff\xff\xff\x00\x2f\x02\x00\x00\x00\x14\x40\x01\x01\x03\x40\x02\x06\x02\x01\x00\x00\xfb\xf0\x40\x03\x04\xc0\x00\x02\x0b\x18\xc6\x33\x64";

/// The same route with ORIGIN IGP, and without NEXT_HOP.
const NO_NEXT_HOP: &[u8] =
    b"\xff\xff\xff\xff\xff\xff\xff\xff\xff\xff\xff\xff\xff\xff\xff\xff\x00\x28\x02\x00\x00\x00\x0d\x40\x01\x01\x00\x40\x02\x06\x02\x01\x00\x00\xfb\xf0\x18\xc6\x33\x64";

/// 2001:db8::/32 in MP_REACH_NLRI, and no route of IPv4.
const IPV6_ROUTE: &[u8] =
    b"\xff\xff\xff\xff\xff\xff\xff\xff\xff\xff\xff\xff\xff\xff\xff\xff\x00\x34\x02\x00\x00\x00\x1d\x80\x0e\x1a\x00\x02\x01\x10\x20\x01\x0d\xb8\x00\x00\x00\x00\x00\x00\x00\x00\x00\x00\x00\x01\x00\x20\x20\x01\x0d\xb8";

/// a comes up and sends these UPDATEs.
static AMISS: [Said; 7] = [
    A_OPENS,
    CONFIRMS,
    Said {
        octets: IPV6_ROUTE,
        behind: COMING_UP,
    },
    Said {
        octets: IPV6_ROUTE,
        behind: COMING_UP,
    },
    Said {
        octets: BAD_ORIGIN,
        behind: COMING_UP,
    },
    Said {
        octets: BAD_ORIGIN,
        behind: COMING_UP,
    },
    Said {
        octets: NO_NEXT_HOP,
        behind: COMING_UP,
    },
];

#[test]
fn what_goes_amiss_is_reported_once_a_second(rt: HostRuntime) {
    let ports = hears_of_a(&rt, rt.alloc(), &AMISS);
    // all were heard in one round, so in one second
    let faulted = Report::Faulted {
        client: 0,
        count: 3,
        last: Faulted {
            withdraw: Some(AttributeFault {
                kind: 3,
                cause: Cause::Missing,
            }),
            discard: None,
            mp_reach: false,
        },
    };
    is(&rt, ports.reported(&faulted), 1, "UPDATEs at fault");
    let passed_over = Report::PassedOver { client: 0 };
    is(&rt, ports.reported(&passed_over), 1, "routes of IPv6");
    ports.let_go();
}

/// What b is to say comes on a's connection.
static OF_B: [Said; 1] = [B_OPENS];

#[test]
fn what_a_refused_open_offered_is_reported(rt: HostRuntime) {
    let ports = hears_of_a(&rt, rt.alloc(), &OF_B);
    let down = Report::Down {
        client: 0,
        ending: Some(Ending::Said(Short::of(Notification::BadPeerAs))),
        offered: Some(Offered {
            version: 4,
            number: 64497,
            hold: 90,
            identifier: B,
        }),
    };
    is(&rt, ports.reported(&down), 1, "reports");
    ports.let_go();
}

/// a says an OPEN without a Hold Time, and takes no octets.
const DEAF: Member = Member {
    says: &[Said {
        octets: OPEN_HOLD_0,
        behind: 0,
    }],
    deaf: 0,
    ..MEMBER_A
};

#[test]
fn a_member_that_takes_nothing_is_lost_after_the_send_hold_time(rt: HostRuntime) {
    let mut ports = Script::new(rt.alloc());
    ports.join(&rt, DEAF);
    ports.pace = 60;
    let limits = Limits {
        sessions: Some(1),
        ..ENDLESS
    };
    served(&rt, rt.alloc(), &mut ports, limits);
    is(&rt, ports.said.len(), 2, "lines");
    ports.says_first(&rt, &[Line::Begin(0), Line::Lost(0)]);
    ports.let_go();
}
