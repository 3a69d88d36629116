//! The record of a run: its replay sends what the run sent, its file ends in whole lines, and no message is begun
//! for a connection without that some of it is put in.

use crate::common::{holds_of, is, is_of, play, put, shows};
use crate::live::rounds::{KEEPALIVE, OPEN_S, THREE, TWO_SESSIONS, UPDATE, exchange, served};
use rs_live::outbox::Outbox;
use rs_streams::record_file::{Appended, RecordEnd, RecordFile};
use rs_streams::streams::Stream;
use std::alloc::Global;
use std::process::Abort;

/// The lines of the record of an exchange of one route, written by hand: each round has its moment, and behind
/// what was heard come a moment, a turn and room.
const ROUTE: &str =
    "octets a ffffffffffffffffffffffffffffffff002f02000000144001010040020602010000fbf0400304c000020b18c63364";

/// The octets of the lines `sent` of a client in a replay's output.
fn sent_in(rt: &impl Abort, alloc: Global, output: &str, front: &str) -> Vec<u8> {
    let mut octets = Vec::new(alloc);
    for line in output.lines() {
        if let Some(digits) = line.strip_prefix(front) {
            let sent = hex::decode(alloc, digits).expect(rt, "octets");
            put(rt, &mut octets, &sent);
        }
    }
    octets
}

/// How often this line stands in a record.
fn count(record: &str, wanted: &str) -> usize {
    let mut count = 0_usize;
    for line in record.lines() {
        if line == wanted {
            count = count.saturating_add(1);
        }
    }
    count
}

#[test]
fn a_record_is_replayed_as_it_was(rt: HostRuntime) {
    let alloc = rt.alloc();
    let mut ports = exchange(&rt, alloc);
    ports.record = Some(Vec::new(alloc));
    served(&rt, alloc, &mut ports, TWO_SESSIONS);
    is(&rt, ports.record_end, None, "why the record ended");
    ports.hears(&rt, 0, &[OPEN_S, KEEPALIVE]);
    ports.hears(&rt, 1, &[OPEN_S, KEEPALIVE, UPDATE]);
    let record = ports.record.take().expect(&rt, "a record");
    let text = str::from_utf8(&record).unwrap_or("");
    for line in ["open a", "open b", ROUTE, "lost a", "lost b"] {
        is(&rt, count(text, line), 1, line);
    }
    let (played, output) = play(&rt, alloc, THREE, &record);
    is(&rt, played, Ok(()), "the replay");
    let output = str::from_utf8(&output).unwrap_or("");
    for (key, front) in [(0, "sent a "), (1, "sent b ")] {
        let sent = sent_in(&rt, alloc, output, front);
        is(&rt, sent.as_slice(), ports.heard(key), front);
    }
    ports.let_go();
}

#[test]
fn a_message_is_begun_with_an_octet(rt: HostRuntime) {
    let mut out = Outbox::new(rt.alloc()).expect(&rt, "an outbox");
    let whole = Vec::from_elem(rt.alloc(), 7, 16_384).expect(&rt, "octets");
    // The room is used up by a whole message. Of the next one an octet is taken, and then no more.
    is(&rt, out.put(&whole), 16_384, "octets put in");
    is(&rt, out.is_full(), true, "whether it is full");
    is(&rt, out.put(KEEPALIVE), 1, "octets put in");
    is(&rt, out.put(&KEEPALIVE[1..]), 0, "octets put in");
    is(&rt, out.waiting().len(), 16_385, "octets that wait");
    // Once there is room again it goes on where it was.
    out.took(16_385);
    is(&rt, out.put(&KEEPALIVE[1..]), 18, "octets put in");
    is(&rt, out.waiting(), &KEEPALIVE[1..], "what waits");
}

#[test]
fn few_octets_are_taken_of_an_answer(rt: HostRuntime) {
    let mut out = Outbox::new(rt.alloc()).expect(&rt, "an outbox");
    let whole = Vec::from_elem(rt.alloc(), 7, 16_384).expect(&rt, "octets");
    out.narrow(true);
    is(&rt, out.put(&whole), 2048, "octets put in");
    is(&rt, out.is_full(), true, "whether it is full");
    out.narrow(false);
    is(&rt, out.put(&whole), 14_336, "octets put in");
    out.narrow(true);
    is(&rt, out.put(&whole), 0, "octets put in");
    is(&rt, out.waiting().len(), 16_384, "octets that wait");
}

/// A file that takes so many octets, ten at a time, and then none.
#[derive(Drop)]
struct SmallFile<'a> {
    text: &'a mut Vec<u8>,
    most: usize,
}

impl Stream for SmallFile<'_> {
    ghost takes = { λ a octets b. Unit {0} };

    fn give(&mut self, octets: &[u8]) -> usize {
        let room = self.most.saturating_sub(self.text.len()).min(10);
        let count = room.min(octets.len());
        match self.text.extend_from_slice(&octets[..count]) {
            Ok(()) => count,
            Err(_) => 0,
        }
    }
}

impl Appended for SmallFile<'_> {
    fn cut(&mut self, size: u64) {
        if let Ok(size) = usize::try_from(size) {
            self.text.truncate(size);
        }
    }
}

const LINES: &[u8] = b"open a\noctets a 00\nmoment 5\nturn\n";

/// A file that takes so many octets has whole lines, the first ones, and the last line behind all where there is room.
fn is_cut(rt: &impl Abort, alloc: Global, most: usize) {
    let mut text = Vec::new(alloc);
    let file = SmallFile {
        text: &mut text,
        most,
    };
    let mut record = RecordFile::new(alloc, file);
    record.put(LINES).expect(rt, "lines");
    is(rt, record.size(), LINES.len() as u64, "the size");
    let is_written = record.write_to(0).is_ok();
    is_of(rt, is_written, most >= LINES.len(), most as u64);
    record.end(b"# over\n");
    drop(record);
    let is_whole = text.is_empty() || text.ends_with(b"\n");
    let front = text.strip_suffix(b"# over\n".as_slice()).unwrap_or(&text);
    let is_front = LINES.starts_with(front);
    holds_of(rt, is_whole && is_front, "whole lines", most as u64);
    let has_end = text.len() == LINES.len() + 7;
    let is_so = has_end || most < LINES.len() + 10;
    holds_of(rt, is_so, "the last line", most as u64);
}

#[test]
fn a_file_is_cut_off_behind_a_line(rt: HostRuntime) {
    for most in 0..60usize {
        is_cut(&rt, rt.alloc(), most);
    }
}

#[test]
fn reasons_of_an_end(rt: HostRuntime) {
    for (why, text) in [
        (RecordEnd::File, "the file takes no more"),
        (RecordEnd::NextFile, "the next file can't be made"),
        (RecordEnd::Memory, "out of memory"),
        (RecordEnd::Rules, "rules of more than 64 MiB"),
    ] {
        shows(&rt, format!(in rt.alloc(); "{why}"), text);
    }
}
