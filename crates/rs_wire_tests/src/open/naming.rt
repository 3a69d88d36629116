//! Names and texts.

use crate::common::{is, is_shown};
use rs_octets::Notification;
use rs_open::{
    Limit, OpenFault, Short, ShutdownText, an_open_is_taken_where_it_is_good,
    an_open_of_ours_is_good, octets_are_one_row_of_triples, short_is_a_message,
};

#[test]
fn names_what_is_said(rt: HostRuntime) {
    let name = Notification::InvalidNetworkField;
    let said = Short::of(name);
    assert!(rt; said == Short::note(3, 10), "what is said");
    is(&rt, said.name(), Some(name), "its name");
    let unnamed = Short::note_1(2, 5, 4);
    is(&rt, unnamed.name(), None, "a code of no name");
    is(&rt, Short::Open.name(), None, "an OPEN");
}

/// Octets, and whether they are a text: the example of RFC 9003, 3, and others.
static TEXTS: [(&[u8], bool); 7] = [
    (b"", true),
    (
        b"[TICKET-1-1438367390] software upgrade; back in 2 hours",
        true,
    ),
    (&[b'a'; 128], true),
    (&[b'a'; 129], false),
    // an e with an accent, its first octet alone, and an octet that stands in no text
    (b"\xc3\xa9", true),
    (b"\xc3", false),
    (b"\xff", false),
];

#[test]
fn texts_of_shutdowns(rt: HostRuntime) {
    for (octets, wanted) in &TEXTS {
        let text = ShutdownText::of(octets);
        is(&rt, text.is_some(), *wanted, "whether they are a text");
        if let Some(text) = text {
            is(&rt, text.octets(), *octets, "a text");
        }
    }
    let shutdown = Short::shutdown(ShutdownText::NONE);
    assert!(rt; shutdown == Short::note(6, 2), "a shutdown");
}

#[test]
fn shows_faults(rt: HostRuntime) {
    let (my_as, four) = (1, None);
    let cases = [
        (OpenFault::Version, "version number is not 4"),
        (OpenFault::Malformed, "malformed optional parameters"),
        (OpenFault::Parameter, "unsupported optional parameter"),
        (
            OpenFault::Hold { my_as, four },
            "hold time is 1 or 2 seconds",
        ),
        (
            OpenFault::Identifier { my_as, four },
            "BGP identifier is 0.0.0.0",
        ),
    ];
    for (fault, text) in cases {
        is_shown(&rt, format!(in rt.alloc(); "{fault}"), text);
    }
}

#[test]
fn limits_and_laws(rt: HostRuntime) {
    let limits = (Limit::Short.octets(), Limit::Long.octets());
    is(&rt, limits, (4096, 65535), "the limits");
    octets_are_one_row_of_triples();
    an_open_is_taken_where_it_is_good();
    an_open_of_ours_is_good();
    short_is_a_message();
}
