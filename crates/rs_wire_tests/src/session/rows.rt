//! Rows of tables: what befalls a session, and its answers in words.

use super::*;

const KEEPALIVE: Call = Call::Hear(Heard::Keepalive);

const NOTIFICATION: Call = Call::Hear(Heard::Note);

const UPDATE: Call = Call::Hear(Heard::Update(None));

const AGAIN: Call = Call::Hear(Heard::Refresh { afi: 1, safi: 1 });

const STOP: Call = Call::Command(Command::Stop(ShutdownText::NONE));

const REFRESH: Call = Call::Command(Command::Refresh);

/// A session from Idle to Closing, by each state.
pub(super) static STEPS: [(Call, State); 4] = [
    (Call::Opened, State::OpenSent),
    (Call::Open(OPEN), State::OpenConfirm),
    (KEEPALIVE, State::Established),
    (NOTIFICATION, State::Closing),
];

/// Calls, each with its answers in Idle, OpenSent, OpenConfirm, Established and Closing.
pub(super) static IN_EACH_STATE: [(Call, &str); 27] = [
    (Call::Opened, " OPEN busy busy busy busy"),
    (KEEPALIVE, " - down:0500 up - -"),
    (UPDATE, " - down:0500 down:0500 - -"),
    // an UPDATE that resets the session, and one of too many prefixes
    (
        Call::Hear(Heard::Update(Some((3, 10)))),
        " - down:0500 down:0500 down:030a -",
    ),
    (
        Call::Hear(Heard::Update(Some((6, 1)))),
        " - down:0500 down:0500 down:0601 -",
    ),
    // ROUTE-REFRESH of IPv4 unicast, of IPv6 and of multicast
    (AGAIN, " - down:0500 down:0500 again -"),
    (
        Call::Hear(Heard::Refresh { afi: 2, safi: 1 }),
        " - down:0500 down:0500 - -",
    ),
    (
        Call::Hear(Heard::Refresh { afi: 1, safi: 2 }),
        " - down:0500 down:0500 - -",
    ),
    (NOTIFICATION, " - down down down -"),
    (Call::Open(OPEN), " - KEEPALIVE down:0500 down:0500 -"),
    (
        Call::Open(VERSION_3),
        " - down:02010004 down:0500 down:0500 -",
    ),
    // OPENs that are refused
    (Call::Open(MALFORMED), " - down:0200 down:0500 down:0500 -"),
    (Call::Open(PARAMETER), " - down:0204 down:0500 down:0500 -"),
    (Call::Open(OTHER), " - down:0202 down:0500 down:0500 -"),
    // another AS comes before Hold Time 2, and before all else
    (
        Call::Open(OTHER_HOLD_2),
        " - down:0202 down:0500 down:0500 -",
    ),
    (
        Call::Open(OTHER_NOTHING),
        " - down:0202 down:0500 down:0500 -",
    ),
    (Call::Open(HOLD_2), " - down:0206 down:0500 down:0500 -"),
    (
        Call::Open(NO_IDENTIFIER),
        " - down:0203 down:0500 down:0500 -",
    ),
    // a large AS of a client that has another
    (Call::Open(OF_LARGE), " - down:0202 down:0500 down:0500 -"),
    // faults of headers
    (
        Call::Hear(Heard::Header(HeaderFault::Marker)),
        " - down:0101 down:0101 down:0101 -",
    ),
    (
        Call::Hear(Heard::Header(HeaderFault::Length(0x1001))),
        " - down:01021001 down:01021001 down:01021001 -",
    ),
    (
        Call::Hear(Heard::Header(HeaderFault::Length(20))),
        " - down:01020014 down:01020014 down:01020014 -",
    ),
    (
        Call::Hear(Heard::Header(HeaderFault::Kind(5))),
        " - down:010305 down:010305 down:010305 -",
    ),
    (STOP, " - down:0602 down:0602 down:0602 -"),
    (REFRESH, " - - - again -"),
    (Call::At(1000), " - down:0400 down:0400 down:0400 -"),
    (Call::Lost, " - - - - -"),
];

/// What a row shows, the settings, the calls, their answers, and the state behind them.
type Script = (&'static str, Settings, &'static [Call], &'static str, State);

/// The server has no Hold Time.
const UNHURRIED: Settings = Settings {
    hold: 0,
    ..SETTINGS
};

/// Sessions by their calls: timers, and what comes behind an end.
pub(super) static SCRIPTS: [Script; 10] = [
    (
        "an OPEN is waited for four minutes",
        SETTINGS,
        &[Call::Opened, Call::At(239), Call::At(240)],
        " OPEN - down:0400",
        State::Closing,
    ),
    (
        "KEEPALIVEs and the hold timer",
        SETTINGS,
        &[
            Call::Opened,
            Call::Open(OPEN),
            KEEPALIVE,
            Call::At(29),
            Call::At(30),
            Call::At(59),
            Call::At(60),
            Call::At(90),
        ],
        " OPEN KEEPALIVE up - KEEPALIVE - KEEPALIVE down:0400",
        State::Closing,
    ),
    (
        "what restarts the hold timer",
        SETTINGS,
        &[
            Call::Opened,
            Call::Open(OPEN),
            KEEPALIVE,
            Call::At(89),
            KEEPALIVE,
            Call::At(90),
            Call::At(118),
            Call::At(119),
            UPDATE,
            Call::At(170),
            AGAIN,
            Call::At(208),
            Call::At(209),
        ],
        " OPEN KEEPALIVE up KEEPALIVE - - - KEEPALIVE - KEEPALIVE again KEEPALIVE down:0400",
        State::Closing,
    ),
    (
        "the Hold Time used is the smaller",
        SETTINGS,
        &[
            Call::Opened,
            Call::Open(HOLD_3),
            Call::At(1),
            KEEPALIVE,
            Call::At(2),
            Call::At(3),
            Call::At(4),
        ],
        " OPEN KEEPALIVE KEEPALIVE up KEEPALIVE KEEPALIVE down:0400",
        State::Closing,
    ),
    (
        "the client has no Hold Time",
        SETTINGS,
        &[
            Call::Opened,
            Call::Open(HOLD_0),
            Call::At(400),
            KEEPALIVE,
            Call::At(1_000_000),
            Call::At(u64::MAX),
        ],
        " OPEN KEEPALIVE - up - -",
        State::Established,
    ),
    (
        "the server has no Hold Time",
        UNHURRIED,
        &[
            Call::Opened,
            Call::Open(OPEN),
            KEEPALIVE,
            Call::At(1_000_000),
        ],
        " OPEN KEEPALIVE up -",
        State::Established,
    ),
    (
        "moments before the connection",
        SETTINGS,
        &[
            Call::At(1_000_000),
            Call::Opened,
            Call::At(1_000_239),
            Call::At(5),
            Call::At(1_000_240),
            Call::At(2_000_000),
            Call::Lost,
            Call::Opened,
            Call::At(2_000_239),
            Call::Open(OPEN),
            Call::At(2_000_269),
        ],
        " - OPEN - - down:0400 - - OPEN - KEEPALIVE KEEPALIVE",
        State::OpenConfirm,
    ),
    (
        "nothing is heard once it is stopped",
        SETTINGS,
        &[Call::Opened, REFRESH, STOP, STOP, REFRESH],
        " OPEN - down:0602 - -",
        State::Closing,
    ),
    (
        "a loss brings Closing to Idle, and no other",
        SETTINGS,
        &[Call::Opened, NOTIFICATION, Call::Lost, Call::Lost],
        " OPEN down - -",
        State::Idle,
    ),
    (
        "a session comes again",
        SETTINGS,
        &[Call::Opened, NOTIFICATION, Call::Lost, Call::Opened],
        " OPEN down - OPEN",
        State::OpenSent,
    ),
];
