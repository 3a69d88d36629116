//! What another server sent, read from the lines of a file.

ghost use Rattle.std.specs.Prelude.{◌≡◌, ◌++◌, ◌∷◌, ℕ, List, [], Option, Some, length, slice_get, vec_len, IfOk, OnOk, if◌then◌else◌};
ghost use Rattle.rs_attrs.specs.declared.mode.Mode.{Mode};
ghost use Rattle.rs_core.specs.Core.{client_count};
ghost use Rattle.rs_trace.specs.Replays.{place_in};
ghost use Rattle.rs_replay.specs.Sent.{is_later};
ghost use Rattle.rs_replay.specs.SentLines.{Began, Gave, Said, said_in};
ghost use Rattle.rs_replay.specs.Taking.{HaveTaken, ReadsNext, ReadsSent, ReadsUpTo, Stands, TakesLine, fails_by};

use crate::connection::Connection;
use crate::sent_lines::{Entry, read_sent_line};
use rs_core::Core;
use rs_trace::fault::ReplayFault;
use rs_trace::lines::Lines;
use rs_trace::names::Names;
use rs_trace::text::TextIn;
use std::alloc::{AllocError, Global};

/// A connection for each client, on which nothing was sent yet.
fn connections_of(alloc: Global, core: &Core) -> Result<Vec<Connection>, AllocError>
    ensures count { IfOk result (λ connections. vec_len connections ≡ client_count core.now) }
    ensures none_taken { IfOk result (λ connections. HaveTaken core.now [] connections.items) }
{
    let mut connections = Vec::new(alloc);
    for c in 0..core.clients() {
        connections.push(Connection::new(alloc))?;
    }
    Ok(connections)
}

/// A connection to the client is there.
fn begin(alloc: Global, core: &Core, connections: &mut [Connection], c: usize)
    requires { length connections.old ≡ client_count core.now }
    ensures { (entries : List Said) → HaveTaken core.now entries connections.old → HaveTaken core.now (entries ++ Began c ∷ []) connections.new }
{
    if c < connections.len() {
        connections[c] = Connection::new(alloc);
    }
}

/// The server sends these octets to a client. Where it isn't Established they are passed over.
fn take(
    alloc: Global,
    core: &Core,
    connections: &mut [Connection],
    c: usize,
    octets: &[u8],
) -> Result<(), AllocError>
    requires { length connections.old ≡ client_count core.now }
    ensures { OnOk result ((entries : List Said) → HaveTaken core.now entries connections.old → HaveTaken core.now (entries ++ Gave c octets.now ∷ []) connections.new) }
{
    if c >= core.clients() {
        return Ok(());
    }
    match core.mode(c) {
        Some(mode) => connections[c].take(alloc, octets, mode),
        None => Ok(()),
    }
}

/// Takes what a line says.
fn hear(
    alloc: Global,
    core: &Core,
    connections: &mut [Connection],
    entry: Entry,
    piece: &[u8; 4096],
) -> Result<(), AllocError>
    requires { length connections.old ≡ client_count core.now }
    ensures { OnOk result ((entries : List Said) → HaveTaken core.now entries connections.old → HaveTaken core.now (entries ++ said_in piece.now entry ∷ []) connections.new) }
{
    match entry {
        Entry::Open(c) => {
            begin(alloc, core, connections, c);
            Ok(())
        }
        Entry::Sent(c, size) => {
            let octets: &[u8] = piece;
            take(alloc, core, connections, c, &octets[..size.min(4096)])
        }
        Entry::After(_) => Ok(()),
    }
}

/// What a line comes to.
#[derive(Clone, Copy)]
enum Next {
    /// Nothing after it counts, or there is no line any more.
    Over,
    /// It is passed over.
    Passed,
    Said(Entry),
}

/// What a line comes to that says this.
fn next_of(entry: Entry, until: u64) -> Next
    ensures { (piece : List ℕ) → result ≡ (if is_later until (said_in piece entry) then Next.Over else Next.Said entry) }
{
    if entry.is_later(until) {
        Next::Over
    } else {
        Next::Said(entry)
    }
}

/// Reads the next line, which has this number.
fn next_line<R: TextIn>(
    names: &Names,
    lines: &mut Lines,
    number: u64,
    reader: &mut R,
    piece: &mut [u8; 4096],
    until: u64,
) -> Result<Next, ReplayFault>
    ensures on { (text : List ℕ) (entries : List Said) → Stands (place_in names.now) until text (R.at_end reader.old) entries number lines.old → (taken : List ℕ) × R.takes reader.old taken reader.new × ReadsNext (place_in names.now) until (text ++ taken) (R.at_end reader.new) entries number lines.new piece.new result }
    ensures reads { R.failures reader.new ≡ fails_by result (R.failures reader.old) }
{
    match lines.advance(reader) {
        Ok(true) => {}
        Ok(false) => return Ok(Next::Over),
        Err(_) => return Err(ReplayFault::Reading),
    }
    match read_sent_line(names, lines.line(), piece) {
        Ok(Some(entry)) => Ok(next_of(entry, until)),
        Ok(None) => Ok(Next::Passed),
        Err(fault) => Err(ReplayFault::Line(number, fault)),
    }
}

/// Reads the next line, which has this number, and takes what it says. Answers whether what follows counts.
fn take_line<R: TextIn>(
    alloc: Global,
    core: &Core,
    names: &Names,
    connections: &mut [Connection],
    lines: &mut Lines,
    number: u64,
    reader: &mut R,
    piece: &mut [u8; 4096],
    until: u64,
) -> Result<bool, ReplayFault>
    requires { length connections.old ≡ client_count core.now }
    ensures on { (first : R) → R.failures reader.old ≡ R.failures first → ReadsUpTo R.takes R.at_end core.now (place_in names.now) until first reader.old number lines.old connections.old → TakesLine R.takes R.at_end R.failures core.now (place_in names.now) until first reader.new number lines.new connections.new result }
    ensures reads { R.failures reader.new ≡ fails_by result (R.failures reader.old) }
{
    match next_line(names, lines, number, reader, piece, until) {
        Err(fault) => Err(fault),
        Ok(Next::Over) => Ok(false),
        Ok(Next::Passed) => Ok(true),
        Ok(Next::Said(entry)) => match hear(alloc, core, connections, entry, piece) {
            Ok(()) => Ok(true),
            Err(_) => Err(ReplayFault::Memory),
        },
    }
}

/// What was sent to each client since its last connection began, up to what was sent after this line
/// of the trace.
///
/// # Errors
///
/// The fault of the first line that has one, up to there; `Reading` where a call of the reader failed, and
/// `Memory`.
pub(crate) fn read_sent<R: TextIn>(
    alloc: Global,
    core: &Core,
    names: &Names,
    reader: &mut R,
    until: u64,
) -> Result<Vec<Connection>, ReplayFault>
    ensures count { IfOk result (λ connections. vec_len connections ≡ client_count core.now) }
    ensures sent { ReadsSent R.takes R.at_end R.failures core.now (place_in names.now) until reader.old reader.new result }
{
    let Ok(mut connections) = connections_of(alloc, core) else {
        return Err(ReplayFault::Memory);
    };
    let Ok(mut lines) = Lines::new(alloc) else {
        return Err(ReplayFault::Memory);
    };
    let mut piece = [0; 4096];
    for number in 1..u64::MAX {
        if !take_line(
            alloc,
            core,
            names,
            &mut connections,
            &mut lines,
            number,
            reader,
            &mut piece,
            until,
        )? {
            return Ok(connections);
        }
    }
    // The number of a further line has no room.
    Err(ReplayFault::Memory)
}
