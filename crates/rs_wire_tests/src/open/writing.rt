//! Messages and their octets.

use crate::common::{is, octets};
use rs_octets::Notification;
use rs_open::{
    ServerOpen, Short, ShutdownText, short_size, write_keepalive, write_note, write_open,
    write_short,
};
use std::alloc::Global;
use std::process::Abort;

/// What stands in a slice before it is written.
const BLANK: u8 = 0xaa;

/// These octets were written at the front, and none behind them.
fn is_written(rt: &impl Abort, alloc: Global, out: &[u8], size: usize, text: &str) {
    let mut wanted = octets(rt, alloc, text);
    is(rt, size, wanted.len(), text);
    wanted.resize(out.len(), BLANK).expect(rt, "octets");
    is(rt, out, wanted.as_slice(), text);
}

/// An OPEN: the AS number, multiprotocol, extended, refresh, and the octets behind the marker.
type Row = (u32, bool, bool, bool, &'static str);

static OPENS: [Row; 16] = [
    (
        64500,
        false,
        false,
        false,
        "M 0025 01 04 fbf4 005a c0000201 08 0206 4104 0000fbf4",
    ),
    (
        64500,
        false,
        false,
        true,
        "M 0027 01 04 fbf4 005a c0000201 0a 0208 4104 0000fbf4 0200",
    ),
    (
        64500,
        false,
        true,
        false,
        "M 0027 01 04 fbf4 005a c0000201 0a 0208 4104 0000fbf4 0600",
    ),
    (
        64500,
        false,
        true,
        true,
        "M 0029 01 04 fbf4 005a c0000201 0c 020a 4104 0000fbf4 0600 0200",
    ),
    (
        64500,
        true,
        false,
        false,
        "M 002b 01 04 fbf4 005a c0000201 0e 020c 0104 0001 00 01 4104 0000fbf4",
    ),
    (
        64500,
        true,
        false,
        true,
        "M 002d 01 04 fbf4 005a c0000201 10 020e 0104 0001 00 01 4104 0000fbf4 0200",
    ),
    (
        64500,
        true,
        true,
        false,
        "M 002d 01 04 fbf4 005a c0000201 10 020e 0104 0001 00 01 4104 0000fbf4 0600",
    ),
    (
        64500,
        true,
        true,
        true,
        "M 002f 01 04 fbf4 005a c0000201 12 0210 0104 0001 00 01 4104 0000fbf4 0600 0200",
    ),
    (
        4_200_000_000,
        false,
        false,
        false,
        "M 0025 01 04 5ba0 005a c0000201 08 0206 4104 fa56ea00",
    ),
    (
        4_200_000_000,
        false,
        false,
        true,
        "M 0027 01 04 5ba0 005a c0000201 0a 0208 4104 fa56ea00 0200",
    ),
    (
        4_200_000_000,
        false,
        true,
        false,
        "M 0027 01 04 5ba0 005a c0000201 0a 0208 4104 fa56ea00 0600",
    ),
    (
        4_200_000_000,
        false,
        true,
        true,
        "M 0029 01 04 5ba0 005a c0000201 0c 020a 4104 fa56ea00 0600 0200",
    ),
    (
        4_200_000_000,
        true,
        false,
        false,
        "M 002b 01 04 5ba0 005a c0000201 0e 020c 0104 0001 00 01 4104 fa56ea00",
    ),
    (
        4_200_000_000,
        true,
        false,
        true,
        "M 002d 01 04 5ba0 005a c0000201 10 020e 0104 0001 00 01 4104 fa56ea00 0200",
    ),
    (
        4_200_000_000,
        true,
        true,
        false,
        "M 002d 01 04 5ba0 005a c0000201 10 020e 0104 0001 00 01 4104 fa56ea00 0600",
    ),
    (
        4_200_000_000,
        true,
        true,
        true,
        "M 002f 01 04 5ba0 005a c0000201 12 0210 0104 0001 00 01 4104 fa56ea00 0600 0200",
    ),
];

/// What the server's OPEN says in most tests.
const SAID: ServerOpen = ServerOpen {
    server_as: 64500,
    hold: 90,
    identifier: 0xc000_0201,
    multiprotocol: false,
    extended: false,
    refresh: false,
};

#[test]
fn writes_opens(rt: HostRuntime) {
    for (server_as, multiprotocol, extended, refresh, text) in &OPENS {
        let said = ServerOpen {
            server_as: *server_as,
            multiprotocol: *multiprotocol,
            extended: *extended,
            refresh: *refresh,
            ..SAID
        };
        let mut out = [BLANK; 50];
        assert!(rt; short_size(&Short::Open, &said) <= 50);
        let size = write_open(&said, &mut out);
        is_written(&rt, rt.alloc(), &out, size, text);
    }
}

/// The example of RFC 9003, 3, in hex behind the code, the subcode and the length of a shutdown.
const SHUTDOWN: &str =
    "M 004d 03 06 02 37 5b5449434b45542d312d313433383336373339305d20736f667477617265\
                        20757067726164653b206261636b20696e203220686f757273";

#[test]
fn writes_short_messages(rt: HostRuntime) {
    let shutdown = "[TICKET-1-1438367390] software upgrade; back in 2 hours";
    let shutdown = ShutdownText::of(shutdown.as_bytes()).unwrap_or(ShutdownText::NONE);
    let three = Short::Note {
        code: 6,
        sub: 1,
        extra: [7; 129],
        count: 3,
    };
    let cases = [
        (
            Short::Open,
            "M 0025 01 04 fbf4 005a c0000201 08 0206 4104 0000fbf4",
        ),
        (Short::Keepalive, "M 0013 04"),
        (Short::note(5, 0), "M 0015 03 05 00"),
        (Short::note_1(1, 3, 0x09), "M 0016 03 01 03 09"),
        (Short::note_2(2, 1, 0, 4), "M 0017 03 02 01 0004"),
        (Short::note_2(1, 2, 0x10, 0x01), "M 0017 03 01 02 1001"),
        (three, "M 0018 03 06 01 070707"),
        (Short::of(Notification::HoldTimerExpired), "M 0015 03 04 00"),
        (Short::shutdown(shutdown), SHUTDOWN),
    ];
    for (short, text) in cases {
        let mut out = [BLANK; 150];
        assert!(rt; short_size(&short, &SAID) <= 150);
        let size = write_short(&short, &SAID, &mut out);
        is_written(&rt, rt.alloc(), &out, size, text);
    }
}

#[test]
fn writes_a_keepalive_and_a_notification(rt: HostRuntime) {
    let mut out = [BLANK; 50];
    let size = write_keepalive(&mut out);
    is_written(&rt, rt.alloc(), &out, size, "M 0013 04");
    let size = write_note(6, 1, [7; 129], 1, &mut out);
    is_written(&rt, rt.alloc(), &out, size, "M 0016 03 06 01 07");
}
