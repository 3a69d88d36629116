//! Reports in words.

use crate::common::{config, is, shows};
use crate::live::rounds::THREE;
use rs_attrs::{AttributeFault, Cause, Faulted, Mode};
use rs_core::{Ending, NOTICE_MAX, Notice};
use rs_open::{Limit, Short, ShutdownText};
use rs_reports::offers::Offered;
use rs_reports::reports::{Holder, Report};
use rs_sockets::names::Names;
use rs_sockets::stamps::Stamp;
use rs_sockets::wording::Worded;
use std::alloc::Global;
use std::process::Abort;

const WITHDRAWN: Option<AttributeFault> = Some(AttributeFault {
    kind: 1,
    cause: Cause::Value,
});

const DISCARDED: Option<AttributeFault> = Some(AttributeFault {
    kind: 7,
    cause: Cause::Length,
});

/// A report reads so.
fn is_worded(rt: &impl Abort, alloc: Global, report: &Report, words: &str) {
    let config = config(rt, alloc, THREE);
    let names = Names::of(alloc, &config).expect(rt, "names");
    shows(rt, format!(in alloc; "{}", Worded(report, &names)), words);
}

/// The address of a connection, 192.0.2.77.
const ADDRESS: u32 = 0xc000_024d;

/// Reports, and how each reads.
static REPORTS: [(Report, &str); 15] = [
    (
        Report::Strangers {
            address: ADDRESS,
            count: 1,
        },
        "1 connection of a stranger, from 192.0.2.77",
    ),
    (
        Report::Strangers {
            address: ADDRESS,
            count: 2,
        },
        "2 connections of strangers, the first from 192.0.2.77",
    ),
    (
        Report::Up {
            client: 0,
            mode: Mode::Four,
            limit: Limit::Short,
            hold: 90,
        },
        "a up: AS 64496, four-octet AS numbers, messages of up to 4096 octets, Hold Time 90",
    ),
    (
        Report::KeptOut {
            client: 1,
            address: ADDRESS,
            count: 2,
        },
        "b disabled: 2 connections from 192.0.2.77 closed",
    ),
    (Report::Enabled { client: 1 }, "b enabled by the operator"),
    (
        Report::Down {
            client: 1,
            ending: None,
            offered: None,
        },
        "b down: the connection was lost",
    ),
    (
        Report::PassedOver { client: 0 },
        "a: routes in MP_REACH_NLRI (14) are passed over",
    ),
    (Report::Rules(Ok(())), "rules accepted"),
    (
        Report::LeftOut {
            client: 0,
            count: 1,
        },
        "a: 1 report left out",
    ),
    (
        Report::LeftOut {
            client: 0,
            count: 4,
        },
        "a: 4 reports left out",
    ),
    (
        Report::Busy {
            client: 1,
            address: 0xc000_020c,
            count: 2,
            holder: Holder::Session,
        },
        "b busy: 2 connections from 192.0.2.12 closed, its session is up",
    ),
    (
        Report::Faulted {
            client: 0,
            count: 1,
            last: Faulted {
                withdraw: None,
                discard: DISCARDED,
                mp_reach: false,
            },
        },
        "a: 1 UPDATE at fault: AGGREGATOR (7) discarded: wrong length",
    ),
    (
        Report::Faulted {
            client: 0,
            count: 2,
            last: Faulted {
                withdraw: WITHDRAWN,
                discard: None,
                mp_reach: false,
            },
        },
        "a: 2 UPDATEs at fault, the last: ORIGIN (1) treated as withdraw: malformed value",
    ),
    (
        Report::Faulted {
            client: 2,
            count: 3,
            last: Faulted {
                withdraw: WITHDRAWN,
                discard: DISCARDED,
                mp_reach: false,
            },
        },
        "c: 3 UPDATEs at fault, the last: ORIGIN (1) treated as withdraw: malformed value; AGGREGATOR (7) discarded: wrong length",
    ),
    (
        Report::Down {
            client: 1,
            ending: Some(Ending::Said(Short::Note {
                code: 6,
                sub: 4,
                extra: [0; 129],
                count: 0,
            })),
            offered: None,
        },
        "b down: NOTIFICATION sent: Cease, Administrative Reset (6, 4)",
    ),
];

#[test]
fn each_report_in_words(rt: HostRuntime) {
    for (report, words) in &REPORTS {
        is_worded(&rt, rt.alloc(), report, words);
    }
}

/// Texts by which the operator ends a session, and how the end reads.
static SHUTDOWNS: [(&[u8], &str); 2] = [
    (
        b"",
        "b down: session ended by the operator: Cease, Administrative Shutdown (6, 2)",
    ),
    (
        b"back at 10\n",
        "b down: session ended by the operator: Cease, Administrative Shutdown (6, 2), \"back at 10\\n\"",
    ),
];

#[test]
fn ends_by_the_operator_in_words(rt: HostRuntime) {
    for (text, words) in &SHUTDOWNS {
        let text = ShutdownText::of(text).unwrap_or(ShutdownText::NONE);
        let report = Report::Down {
            client: 1,
            ending: Some(Ending::Said(Short::shutdown(text))),
            offered: None,
        };
        is_worded(&rt, rt.alloc(), &report, words);
    }
}

/// An OPEN of version 4 with AS 64999 by the capability for four octets, Hold Time 2 and identifier
/// 192.0.2.11 (RFC 4271, 4.2; RFC 6793, 9), and the begin of what comes behind it.
const OPEN: &[u8] =
    b"\xff\xff\xff\xff\xff\xff\xff\xff\xff\xff\xff\xff\xff\xff\xff\xff\x00\x25\x01\x04\x5b\xa0\x00\x02\xc0\x00\x02\x0b\x08\x02\x06\x41\x04\x00\x00\xfd\xe7\xff\xff";

/// Subcodes of faults of an OPEN, each with how the refusal reads.
static REFUSALS: [(u8, &str); 4] = [
    (
        2,
        "a down: NOTIFICATION sent: OPEN Message Error, Bad Peer AS (2, 2): 64999, not 64496",
    ),
    (
        3,
        "a down: NOTIFICATION sent: OPEN Message Error, Bad BGP Identifier (2, 3): 192.0.2.11",
    ),
    (
        6,
        "a down: NOTIFICATION sent: OPEN Message Error, Unacceptable Hold Time (2, 6): 2",
    ),
    (
        4,
        "a down: NOTIFICATION sent: OPEN Message Error, Unsupported Optional Parameter (2, 4)",
    ),
];

#[test]
fn what_an_open_offered_in_words(rt: HostRuntime) {
    is(&rt, Offered::at_front(&OPEN[..36]), None, "a cut OPEN");
    for (sub, words) in &REFUSALS {
        let report = Report::Down {
            client: 0,
            ending: Some(Ending::Said(Short::note(2, *sub))),
            offered: Offered::at_front(OPEN),
        };
        is_worded(&rt, rt.alloc(), &report, words);
    }
}

/// Subcodes of Cease with data, and how the end reads.
static NOTICES: [(u8, &[u8], &str); 4] = [
    (
        2,
        b"\x0fcaf\xc3\xa9\n\x1b[31m\xe2\x80\xae\"",
        "b down: NOTIFICATION heard: Cease, Administrative Shutdown (6, 2), \"caf\u{e9}\\n\\u{1b}[31m\\u{202e}\\\"\"",
    ),
    // a longer text, of which 63 octets are kept: the last one is the front of a character
    (
        2,
        b"\xc8aaaaaaaaaaaaaaaaaaaaaaaaaaaaaaaaaaaaaaaaaaaaaaaaaaaaaaaaaaaaaa\xc3",
        "b down: NOTIFICATION heard: Cease, Administrative Shutdown (6, 2), \"aaaaaaaaaaaaaaaaaaaaaaaaaaaaaaaaaaaaaaaaaaaaaaaaaaaaaaaaaaaaaa\" and more",
    ),
    (
        4,
        b"\x01\xff",
        "b down: NOTIFICATION heard: Cease, Administrative Reset (6, 4), data 01ff",
    ),
    (
        3,
        b"\x04down",
        "b down: NOTIFICATION heard: Cease, Peer De-configured (6, 3), data 04646f776e",
    ),
];

#[test]
fn texts_of_notifications_in_words(rt: HostRuntime) {
    for (sub, said, words) in &NOTICES {
        let mut data = [0; NOTICE_MAX];
        let count = said.len().min(NOTICE_MAX);
        data[..count].copy_from_slice(&said[..count]);
        let notice = Notice {
            code: 6,
            sub: *sub,
            data,
            count,
        };
        let report = Report::Down {
            client: 1,
            ending: Some(Ending::Heard(notice)),
            offered: None,
        };
        is_worded(&rt, rt.alloc(), &report, words);
    }
}

/// Dates by GNU date.
#[test]
fn stamps(rt: HostRuntime) {
    for (stamp, text) in [
        (Stamp::Seconds(61), "61"),
        (Stamp::Utc(0), "1970-01-01T00:00:00Z"),
        (Stamp::Utc(951_868_799), "2000-02-29T23:59:59Z"),
        (Stamp::Utc(1_795_613_680), "2026-11-25T13:34:40Z"),
    ] {
        shows(&rt, format!(in rt.alloc(); "{stamp}"), text);
    }
}
