//! What the tests of several libraries need.

use rs_policy::Config;
use rs_trace::fault::ReplayFault;
use rs_trace::progress::Unwatched;
use rs_trace::replay::replay;
use rs_trace::text::{OverRead, OverWrite, TextIn, TextOut};
use std::alloc::{AllocError, Global};
use std::fmt::Debug;
use std::process::Abort;
use std::sync::Wait;
use std::thread::Threads;

/// This is found, and this was wanted, of what the text names.
pub(crate) fn is<T: Debug + PartialEq + Drop>(rt: &impl Abort, found: T, want: T, of: &str) {
    assert_eq!(rt; found, want, "{of}");
}

/// The same of what comes of a number.
pub(crate) fn is_of<T: Debug + PartialEq + Drop>(rt: &impl Abort, found: T, want: T, number: u64) {
    assert_eq!(rt; found, want, "of {number}");
}

/// What the text says holds of a number.
pub(crate) fn holds_of(rt: &impl Abort, is_so: bool, what: &str, number: u64) {
    assert!(rt; is_so, "{what}, of {number}");
}

/// This text is shown.
pub(crate) fn shows(rt: &impl Abort, shown: Result<String, AllocError>, want: &str) {
    is(rt, shown.expect(rt, "a text").as_str(), want, "a text");
}

/// The configuration that a good text spells.
pub(crate) fn config(rt: &impl Abort, alloc: Global, text: &str) -> Config {
    Config::read(alloc, text).expect(rt, "a configuration")
}

/// Puts octets behind others.
pub(crate) fn put(rt: &impl Abort, octets: &mut Vec<u8>, more: &[u8]) {
    octets.extend_from_slice(more).expect(rt, "octets");
}

/// What comes of a trace where the members of a configuration play it with turns by one worker.
pub(crate) fn play_over<R: Threads + Wait + Sync + Abort, I: TextIn, O: TextOut>(
    rt: &R,
    alloc: Global,
    members: &str,
    reader: &mut I,
    writer: &mut O,
) -> Result<(), ReplayFault> {
    let config = config(rt, alloc, members);
    replay(rt, alloc, reader, writer, &mut Unwatched, config, 1)
}

/// The same of a trace in memory: the answer, and what was written.
pub(crate) fn play<R: Threads + Wait + Sync + Abort>(
    rt: &R,
    alloc: Global,
    members: &str,
    trace: &[u8],
) -> (Result<(), ReplayFault>, Vec<u8>) {
    let mut written = Vec::new(alloc);
    let mut reader = OverRead::new(trace);
    let mut writer = OverWrite::new(&mut written);
    let played = play_over(rt, alloc, members, &mut reader, &mut writer);
    (played, written)
}
