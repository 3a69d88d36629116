//! What is found where what another server sent is held against what is due, as lines.

ghost use Rattle.std.specs.Prelude.{◌≡◌, ◌++◌, ◌∷◌, [], ℕ, List, IfOk, OnOk, codes, count_by, decimal};
ghost use Rattle.std.specs.List.{flat_map};
ghost use Rattle.rs_compare.specs.Differences.{reports_of};
ghost use Rattle.rs_trace.specs.Output.{client_line};
ghost use Rattle.rs_trace.specs.Replays.{name_in};
ghost use Rattle.rs_replay.specs.Findings.{difference_line, same_kind, word_of};
ghost use Rattle.rs_replay.specs.Telling.{AreCounts, agrees_by, counts_line, row_line};

use rs_compare::{Difference, Kind};
use rs_trace::fault::ReplayFault;
use rs_trace::names::Names;
use rs_trace::output::{put, put_prefix};
use rs_trace::text::TextOut;
use std::alloc::{AllocError, Global};

/// How many routes are due to a client and were sent to it, and at how many prefixes its two tables
/// differ, by kind.
#[derive(Clone, Copy)]
pub(crate) struct Counts {
    pub(crate) due: usize,
    pub(crate) sent: usize,
    pub(crate) missing: usize,
    pub(crate) not_due: usize,
    pub(crate) other: usize,
}

/// A line of the table at the end.
#[derive(Clone, Copy)]
pub(crate) struct Row {
    pub(crate) client: usize,
    pub(crate) counts: Counts,
}

fn is_of_kind(difference: &Difference, kind: Kind) -> bool
    ensures { result ≡ same_kind difference.now.kind kind }
{
    match (difference.kind, kind) {
        (Kind::Missing, Kind::Missing)
        | (Kind::NotDue, Kind::NotDue)
        | (Kind::OtherAttributes, Kind::OtherAttributes) => true,
        _ => false,
    }
}

/// How many differences are of this kind.
fn count(differences: &[Difference], kind: Kind) -> usize
    ensures { result ≡ count_by (λ difference. same_kind difference.kind kind) differences.now }
{
    differences
        .iter()
        .filter(|it| is_of_kind(*it, kind))
        .count()
}

impl Counts {
    /// The counts of two tables with so many routes, and of their differences.
    pub(crate) fn of(differences: &[Difference], due: usize, sent: usize) -> Counts
        ensures { AreCounts due sent (reports_of differences.now) result }
    {
        Counts {
            due,
            sent,
            missing: count(differences, Kind::Missing),
            not_due: count(differences, Kind::NotDue),
            other: count(differences, Kind::OtherAttributes),
        }
    }

    /// Whether the tables differ nowhere.
    pub(crate) fn are_same(&self) -> bool
        ensures { result ≡ agrees_by (Some self.now) }
    {
        self.missing == 0 && self.not_due == 0 && self.other == 0
    }
}

/// The line of a client of which something was sent that can't be read.
fn unreadable_line(alloc: Global, name: &[u8]) -> Result<Vec<u8>, AllocError>
    ensures { IfOk result (λ line. line.items ≡ client_line (codes "unreadable") name.now) }
{
    let mut line = Vec::from_slice(alloc, b"unreadable ")?;
    line.extend_from_slice(name)?;
    line.extend_from_slice(b"\n")?;
    Ok(line)
}

fn word(kind: Kind) -> &'static [u8]
    ensures { result.now ≡ word_of kind }
{
    match kind {
        Kind::Missing => b"missing ",
        Kind::NotDue => b"not-due ",
        Kind::OtherAttributes => b"other ",
    }
}

/// The line of a difference, as `missing NAME PREFIX`.
fn difference_line(
    alloc: Global,
    name: &[u8],
    difference: &Difference,
) -> Result<Vec<u8>, AllocError>
    ensures { IfOk result (λ line. line.items ≡ difference_line name.now (difference.now.prefix, difference.now.kind)) }
{
    let mut line = Vec::from_slice(alloc, word(difference.kind))?;
    line.extend_from_slice(name)?;
    line.extend_from_slice(b" ")?;
    put_prefix(alloc, &mut line, &difference.prefix)?;
    line.extend_from_slice(b"\n")?;
    Ok(line)
}

/// Puts a number at the end of a line, in decimal digits, and then a text.
fn put_count(
    alloc: Global,
    line: &mut Vec<u8>,
    number: usize,
    text: &[u8],
) -> Result<(), AllocError>
    ensures { OnOk result (line.new.items ≡ line.old.items ++ decimal number ++ text.now) }
{
    line.extend_from_slice(format!(in alloc; "{number}")?.as_bytes())?;
    line.extend_from_slice(text)
}

/// The line of a row.
fn row_line(alloc: Global, name: &[u8], counts: &Counts) -> Result<Vec<u8>, AllocError>
    ensures { IfOk result (λ line. line.items ≡ counts_line name.now counts.now) }
{
    let mut line = Vec::from_slice(alloc, b"compared ")?;
    line.extend_from_slice(name)?;
    line.extend_from_slice(b": ")?;
    put_count(alloc, &mut line, counts.due, b" due, ")?;
    put_count(alloc, &mut line, counts.sent, b" sent, ")?;
    put_count(alloc, &mut line, counts.missing, b" missing, ")?;
    put_count(alloc, &mut line, counts.not_due, b" not due, ")?;
    put_count(alloc, &mut line, counts.other, b" with other attributes\n")?;
    Ok(line)
}

/// Writes a line, where there was memory for it.
fn write<W: TextOut>(writer: &mut W, line: Result<Vec<u8>, AllocError>) -> Result<(), ReplayFault>
    ensures { (wanted : List ℕ) → IfOk line (λ made. made.items ≡ wanted) → OnOk result (W.puts writer.old wanted writer.new) }
{
    let Ok(line) = line else {
        return Err(ReplayFault::Memory);
    };
    match put(writer, &line) {
        Ok(()) => Ok(()),
        Err(_) => Err(ReplayFault::Writing),
    }
}

/// Writes that something was sent to a client that can't be read.
pub(crate) fn tell_unreadable<W: TextOut>(
    alloc: Global,
    name: &[u8],
    writer: &mut W,
) -> Result<(), ReplayFault>
    ensures { OnOk result (W.puts writer.old (client_line (codes "unreadable") name.now) writer.new) }
{
    write(writer, unreadable_line(alloc, name))
}

/// Writes a line for each difference of a client.
pub(crate) fn tell_differences<W: TextOut>(
    alloc: Global,
    name: &[u8],
    differences: &[Difference],
    writer: &mut W,
) -> Result<(), ReplayFault>
    ensures { OnOk result (W.puts writer.old (flat_map (difference_line name.now) (reports_of differences.now)) writer.new) }
{
    for difference in differences {
        write(writer, difference_line(alloc, name, difference))?;
    }
    Ok(())
}

/// Writes a line for each row.
pub(crate) fn tell_rows<W: TextOut>(
    alloc: Global,
    names: &Names,
    rows: &[Row],
    writer: &mut W,
) -> Result<(), ReplayFault>
    ensures { OnOk result (W.puts writer.old (flat_map (row_line (name_in names.now)) rows.now) writer.new) }
{
    for row in rows {
        write(writer, row_line(alloc, names.name(row.client), &row.counts))?;
    }
    Ok(())
}
