//! What another server sent, held against what is due where a replay ends.

ghost use Rattle.std.specs.Prelude.{◌≡◌, ◌+◌, ◌++◌, ◌&&◌, ◌<◌, ℕ, true, length, List, IfOk, OnOk};
ghost use Rattle.std.specs.List.{flat_map};
ghost use Rattle.rs_octets.specs.Prefixes.{Prefix};
ghost use Rattle.rs_core.specs.Core.{client_count};
ghost use Rattle.rs_core.specs.Run.Agreeing.{Agrees};
ghost use Rattle.rs_core.specs.Run.Moves.{Move};
ghost use Rattle.rs_core.specs.Run.Meaning.{dues, is_established};
ghost use Rattle.rs_core.specs.Told.Points.{latest};
ghost use Rattle.rs_compare.specs.Differences.{entries_of, reports_of};
ghost use Rattle.rs_compare.specs.Heard.{table_in};
ghost use Rattle.rs_replay.specs.Findings.{AreCompared, Finding, IsFinding, finding_lines};
ghost use Rattle.rs_replay.specs.Telling.{AreCounts, HasCounts, IsSentBy, Tells, TellsUpTo, agrees_by, counted_row, row_line, sent_on};

use crate::connection::Connection;
use crate::findings::{Counts, Row, tell_differences, tell_rows, tell_unreadable};
use rs_compare::{Difference, Route, Sent, compare};
use rs_core::Core;
use rs_outlet::Routes;
use rs_trace::fault::ReplayFault;
use rs_trace::names::Names;
use rs_trace::text::TextOut;
use std::alloc::{AllocError, Global};

/// The routes of a Loc-RIB as a list.
fn listed(alloc: Global, routes: Routes<'_>) -> Result<Vec<Route>, AllocError>
    ensures { IfOk result (λ listed. entries_of listed.items ≡ routes.entry) }
{
    let mut listed = Vec::new(alloc);
    for (prefix, attrs) in routes {
        listed.push(Route {
            prefix,
            attrs: attrs.clone()?,
        })?;
    }
    Ok(listed)
}

/// How a client's two tables differ.
#[derive(Drop)]
struct Found {
    differences: Vec<Difference>,
    counts: Counts,
}

/// Holds what was sent to a client against what is due to it.
fn compare_client(alloc: Global, core: &Core, c: usize, sent: &Sent) -> Result<Found, AllocError>
    requires { c < client_count core.now }
    ensures compared { IfOk result (λ found. (run : List Move) → Agrees core.now run → is_established run c ≡ true → AreCompared (λ p. latest (dues run c p)) (table_in sent.now) found.counts.due found.counts.sent (reports_of found.differences.items)) }
    ensures counted { IfOk result (λ found. AreCounts found.counts.due found.counts.sent (reports_of found.differences.items) found.counts) }
{
    let due = listed(alloc, core.routes(c))?;
    let sent = sent.routes(alloc)?;
    let differences = compare(alloc, &due, &sent)?;
    let counts = Counts::of(&differences, due.len(), sent.len());
    Ok(Found {
        differences,
        counts,
    })
}

/// Writes how what was sent to a client that is Established differs from what is due to it, and
/// answers how many routes and differences there are; nothing where what was sent can't be read.
fn tell_client<W: TextOut>(
    alloc: Global,
    core: &Core,
    c: usize,
    name: &[u8],
    connection: &Connection,
    writer: &mut W,
) -> Result<Option<Counts>, ReplayFault>
    requires { c < client_count core.now }
    ensures { IfOk result (λ counts. (finding : Finding) × W.puts writer.old (finding_lines name.now finding) writer.new × HasCounts finding counts × ((run : List Move) → Agrees core.now run → is_established run c ≡ true → IsFinding (λ p. latest (dues run c p)) (sent_on connection.now) finding)) }
{
    let Some(sent) = connection.sent() else {
        tell_unreadable(alloc, name, writer)?;
        return Ok(None);
    };
    let Ok(found) = compare_client(alloc, core, c, sent) else {
        return Err(ReplayFault::Memory);
    };
    tell_differences(alloc, name, &found.differences, writer)?;
    Ok(Some(found.counts))
}

/// What was counted of the clients so far, and whether nothing differs.
#[derive(Drop)]
struct Told {
    rows: Vec<Row>,
    is_same: bool,
}

impl Told {
    /// Notes what was counted of a client; nothing where what was sent to it can't be read.
    fn note(&mut self, client: usize, counts: Option<Counts>) -> Result<(), AllocError>
        ensures rows { (name : ℕ → List ℕ) → OnOk result (flat_map (row_line name) self.new.rows.items ≡ flat_map (row_line name) self.old.rows.items ++ counted_row (name client) counts) }
        ensures same { OnOk result (self.new.is_same ≡ (self.old.is_same && agrees_by counts)) }
    {
        match counts {
            Some(counts) => {
                self.is_same = self.is_same && counts.are_same();
                self.rows.push(Row { client, counts })?;
                Ok(())
            }
            None => {
                self.is_same = false;
                Ok(())
            }
        }
    }
}

/// Writes how what was sent to the next client differs from what is due to it, if it is Established.
fn tell_next<W: TextOut>(
    alloc: Global,
    core: &Core,
    names: &Names,
    connections: &[Connection],
    c: usize,
    writer: &mut W,
    told: &mut Told,
) -> Result<(), ReplayFault>
    requires client { c < client_count core.now }
    requires connections { length connections.now ≡ client_count core.now }
    ensures { (to : W) → TellsUpTo W.puts core.now names.now connections.now to c told.old.rows.items told.old.is_same writer.old → OnOk result (TellsUpTo W.puts core.now names.now connections.now to (c + 1) told.new.rows.items told.new.is_same writer.new) }
{
    if !core.is_established(c) {
        return Ok(());
    }
    let counts = tell_client(alloc, core, c, names.name(c), &connections[c], writer)?;
    match told.note(c, counts) {
        Ok(()) => Ok(()),
        Err(_) => Err(ReplayFault::Memory),
    }
}

/// Writes for each client that is Established how what was sent to it differs from what is due, and
/// then a row for each. Answers whether nothing differs.
pub(crate) fn tell<W: TextOut>(
    alloc: Global,
    core: &Core,
    names: &Names,
    connections: &[Connection],
    writer: &mut W,
) -> Result<bool, ReplayFault>
    requires { length connections.now ≡ client_count core.now }
    ensures { IfOk result (λ same. Tells W.puts core.now names.now (λ run. IsSentBy connections.now) writer.old same writer.new) }
{
    let mut told = Told {
        rows: Vec::new(alloc),
        is_same: true,
    };
    for c in 0..core.clients() {
        tell_next(alloc, core, names, connections, c, writer, &mut told)?;
    }
    tell_rows(alloc, names, &told.rows, writer)?;
    Ok(told.is_same)
}
