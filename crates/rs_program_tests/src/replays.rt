//! What a replay reads and writes, octet for octet.

use crate::common::{is, is_of, play, put};
use rs_trace::fault::ReplayFault;
use rs_trace::trace::LineFault;
use std::alloc::Global;
use std::process::Abort;

mod devices;
mod watching;

/// Four members.
const MEMBERS: &str = r#"as = 64500
identifier = "192.0.2.1"
hold = 90

[[client]]
name = "a"
as = 64496
listen = "127.0.0.1:17901"
peer = "192.0.2.11"

[[client]]
name = "b"
as = 64497
listen = "127.0.0.1:17902"
peer = "192.0.2.12"

[[client]]
name = "c"
as = 64498
listen = "127.0.0.1:17903"
peer = "192.0.2.13"

[[client]]
name = "d"
as = 64499
listen = "127.0.0.1:17904"
peer = "192.0.2.14"
"#;

/// Lines, each with its fault.
static FAULTS: [(&str, LineFault); 61] = [
    // The first word. A blank at the front makes an empty one, and a CR is an octet like others.
    ("turns", LineFault::UnknownWord),
    ("TURN", LineFault::UnknownWord),
    (" turn", LineFault::UnknownWord),
    (" #", LineFault::UnknownWord),
    ("\r", LineFault::UnknownWord),
    ("turn\r", LineFault::UnknownWord),
    ("turn\tx", LineFault::UnknownWord),
    ("moments 5", LineFault::UnknownWord),
    // Blanks make words, so these have one too many.
    ("turn ", LineFault::WordCount),
    ("open  a", LineFault::WordCount),
    ("open", LineFault::WordCount),
    ("open a b", LineFault::WordCount),
    ("octets", LineFault::WordCount),
    ("octets a 00 00", LineFault::WordCount),
    ("room a", LineFault::WordCount),
    ("room zz 5 5", LineFault::WordCount),
    ("moment", LineFault::WordCount),
    ("moment 5 5", LineFault::WordCount),
    ("lost", LineFault::WordCount),
    ("lost a b", LineFault::WordCount),
    ("shutdown", LineFault::WordCount),
    ("shutdown a 00 00", LineFault::WordCount),
    ("refresh", LineFault::WordCount),
    ("refresh a b", LineFault::WordCount),
    ("more", LineFault::WordCount),
    ("more 00 00", LineFault::WordCount),
    ("rules", LineFault::WordCount),
    ("rules 00 00", LineFault::WordCount),
    ("table", LineFault::WordCount),
    ("table a b", LineFault::WordCount),
    // Names are matched by case, before number and hex are looked at.
    ("open ", LineFault::UnknownClient),
    ("open A", LineFault::UnknownClient),
    ("open a\r", LineFault::UnknownClient),
    ("octets zz 0g", LineFault::UnknownClient),
    ("room zz x", LineFault::UnknownClient),
    ("lost zz", LineFault::UnknownClient),
    ("shutdown zz", LineFault::UnknownClient),
    ("shutdown zz 0g", LineFault::UnknownClient),
    ("refresh ", LineFault::UnknownClient),
    ("table ", LineFault::UnknownClient),
    // 1 to 20 digits, at most 2^64 - 1.
    ("room a ", LineFault::BadNumber),
    ("room a +5", LineFault::BadNumber),
    ("room a -5", LineFault::BadNumber),
    ("room a 1_0", LineFault::BadNumber),
    ("room a 5\r", LineFault::BadNumber),
    ("room a 18446744073709551616", LineFault::BadNumber),
    ("room a 99999999999999999999", LineFault::BadNumber),
    ("room a 000000000000000000005", LineFault::BadNumber),
    ("moment ", LineFault::BadNumber),
    ("moment x", LineFault::BadNumber),
    // Two digits an octet.
    ("octets a 0", LineFault::BadHex),
    ("octets a 0g", LineFault::BadHex),
    ("octets a 00\r", LineFault::BadHex),
    ("shutdown a ", LineFault::BadHex),
    ("shutdown a 6", LineFault::BadHex),
    // No UTF-8: an octet that it never has, and a character that is cut.
    ("shutdown a ff", LineFault::BadHex),
    ("shutdown a 61c3", LineFault::BadHex),
    ("more ", LineFault::BadHex),
    ("more 0", LineFault::BadHex),
    ("rules ", LineFault::BadHex),
    ("rules 0", LineFault::BadHex),
];

#[test]
fn faults_of_lines(rt: HostRuntime) {
    let alloc = rt.alloc();
    for (line, fault) in &FAULTS {
        let trace = format!(in alloc; "turn\n\n# {line}\n{line}\nopen a\nopen a\n");
        let trace = trace.expect(&rt, "a trace");
        let (played, written) = play(&rt, alloc, MEMBERS, trace.as_bytes());
        let wanted = Err(ReplayFault::Line(4, *fault));
        is(&rt, played, wanted, line);
        let wanted = format!(in alloc; "line 4: {fault}\n");
        let wanted = wanted.expect(&rt, "a text");
        is(&rt, written.as_slice(), wanted.as_bytes(), line);
    }
}

/// Traces, each with what is written: the fault that it has, or nothing.
static TEXTS: [(&str, &str); 24] = [
    ("turns", "line 1: unknown word\n"),
    ("\nturn \n", "line 2: word count\n"),
    ("open z\n", "line 1: unknown client\n"),
    ("room a x\n", "line 1: bad number\n"),
    ("octets a x\n", "line 1: bad hex\n"),
    ("", ""),
    ("\n", ""),
    ("\n\n", ""),
    ("# a comment \n", ""),
    ("#", ""),
    ("turn", ""),
    ("turn\n", ""),
    ("octets a", ""),
    ("octets a ", ""),
    ("octets a 00ffFFaA\n", ""),
    ("room a 0", ""),
    ("room a 00000000000000000005", ""),
    ("room a 18446744073709551615", ""),
    ("moment 18446744073709551615\nmoment 0", ""),
    ("lost a\nlost d", ""),
    ("shutdown a\nshutdown d 627965", ""),
    ("shutdown a c3A9", ""),
    ("refresh a", ""),
    ("table a", ""),
];

#[test]
fn what_is_written_of_lines(rt: HostRuntime) {
    for (trace, wanted) in &TEXTS {
        let (played, written) = play(&rt, rt.alloc(), MEMBERS, trace.as_bytes());
        is(&rt, played.is_ok(), wanted.is_empty(), trace);
        is(&rt, written.as_slice(), wanted.as_bytes(), trace);
    }
}

/// Long lines: a word, the octet that stands behind it and how often, and the fault.
static LONG: [(&str, u8, usize, Option<LineFault>); 14] = [
    ("", b'#', 8240, None),
    ("", b'#', 8241, Some(LineFault::TooLong)),
    ("", b'#', 20000, Some(LineFault::TooLong)),
    ("", b'x', 8240, Some(LineFault::UnknownWord)),
    ("", b'x', 8241, Some(LineFault::TooLong)),
    ("", b' ', 8241, Some(LineFault::TooLong)),
    ("shutdown a ", b'0', 256, None),
    ("shutdown a ", b'0', 258, Some(LineFault::BadHex)),
    ("shutdown a ", b'0', 8192, Some(LineFault::BadHex)),
    ("octets a ", b'0', 8192, None),
    ("octets a ", b'0', 8193, Some(LineFault::BadHex)),
    ("octets a ", b'0', 8194, Some(LineFault::BadHex)),
    ("octets a ", b'0', 8231, Some(LineFault::BadHex)),
    ("octets a ", b'0', 8232, Some(LineFault::TooLong)),
];

/// Each is answered as its row says, with the end of a line and without.
#[test]
fn long_lines(rt: HostRuntime) {
    for (word, octet, count, fault) in &LONG {
        let wanted = match fault {
            None => Ok(()),
            Some(fault) => Err(ReplayFault::Line(1, *fault)),
        };
        let mut line = Vec::new(rt.alloc());
        put(&rt, &mut line, word.as_bytes());
        let length = line.len().saturating_add(*count);
        line.resize(length, *octet).expect(&rt, "a line");
        for end in [b"".as_slice(), b"\n".as_slice()] {
            put(&rt, &mut line, end);
            let (played, _) = play(&rt, rt.alloc(), MEMBERS, &line);
            is_of(&rt, played, wanted, *count as u64);
        }
    }
}

#[test]
fn long_lines_behind_others(rt: HostRuntime) {
    let mut trace = Vec::new(rt.alloc());
    for length in [8240, 16_481, 24_723] {
        put(&rt, &mut trace, b"#");
        trace.resize(length, b'x').expect(&rt, "a line");
        put(&rt, &mut trace, b"\n");
    }
    put(&rt, &mut trace, b"turn\n");
    let (played, written) = play(&rt, rt.alloc(), MEMBERS, &trace);
    let fault = ReplayFault::Line(3, LineFault::TooLong);
    is(&rt, played, Err(fault), "the fault");
    let text: &[u8] = b"line 3: too long\n";
    is(&rt, written.as_slice(), text, "what is written");
}
