//! What was decided for one client, kept for those that have the same export rules, and for those with others at prefixes where
//! the rules of both pass all routes as they are.

ghost use Rattle.std.specs.Prelude.{◌≡◌, ◌<◌, ℕ, Some, length, map, take, IfOk, IfSome, IsTrue};
ghost use Rattle.std.specs.List.{AllByRecursion};
ghost use Rattle.rs_adjin.specs.declared.adj_ins.AdjIns.{AdjIns};
ghost use Rattle.rs_outlet.specs.declared.answers.Speech.{Speech};
ghost use Rattle.rs_outlet.specs.Decided.Due.{Held};
ghost use Rattle.rs_outlet.specs.Decided.HeldBy.{held_by, AreOfOneServer};
ghost use Rattle.rs_outlet.specs.Decided.News.{change_of, seen};
ghost use Rattle.rs_outlet.specs.Decided.Plans.{news_within};
ghost use Rattle.rs_outlet.specs.Decided.Precedents.{AreDueAlike, AreKnown, HaveSameExports, IsPrecedent};
ghost use Rattle.rs_outlet.specs.declared.precedent.Precedent.{Precedent};

use crate::answers::Speech;
use crate::by_number::ByNumber;
use crate::changes::Change;
use crate::deciding::Sources;
use crate::filled::Whole;
use crate::known::{Asked, Known};
use crate::table::Rows;
use rs_attrs::AskedTags;
use rs_rows::{ROWS, lie_together};
use std::alloc::{AllocError, Global};

/// What was decided for a client: what is due where it holds no route, which is due to each that has the same export rules and holds
/// none either; and to each with others, where these and its own pass the routes plainly.
#[derive(Drop)]
pub(crate) struct Precedent {
    client: usize,
    /// What its export rules ask for, as `Sources` has it.
    asked: Option<AskedTags>,
    speech: Speech,
    /// At how many prefixes was decided.
    count: usize,
    changes: Vec<Change>,
    wholes: Vec<Whole>,
}

/// The first sixteen of these changes, if they fill a block, of which the first row is free: so it may serve.
fn fill_first(alloc: Global, rows: &Rows, changes: &[Change]) -> Result<Option<Whole>, AllocError>
    ensures { IfOk result (λ made. IfSome made (λ whole. map seen (map change_of (news_within whole)) ≡ map seen (take 16 changes.now))) }
{
    if changes.len() < ROWS {
        return Ok(None);
    }
    let first = changes[0].number;
    if first as usize % ROWS != 0 || rows.get(first).is_some() {
        return Ok(None);
    }
    Whole::of(alloc, &changes[..ROWS])
}

/// The block that the first sixteen of these changes fill: one that is there already, if it is of the same place.
fn first_whole(
    alloc: Global,
    rows: &Rows,
    changes: &[Change],
    known: &mut Known<'_>,
) -> Result<Option<Whole>, AllocError>
    requires { 0 < length changes.now }
    ensures due { (t : Held) (ins : AdjIns) (c : ℕ) (speech : Speech) → AreKnown t ins c speech known.old → AreDueAlike t ins c speech changes.now → IfOk result (λ found. IfSome found (λ whole. AreDueAlike t ins c speech (map change_of (news_within whole)))) }
    ensures rest { known.new ≡ record known.old { next = known.new.next; next_whole = known.new.next_whole } }
{
    let first = changes[0].number;
    if let Some(whole) = known.find_alike(first)
        && lie_together(whole.number(), first)
    {
        return Ok(Some(whole.copy()?));
    }
    fill_first(alloc, rows, changes)
}

/// The blocks that these changes fill.
fn wholes_of(
    alloc: Global,
    rows: &Rows,
    changes: &[Change],
    mut known: Known<'_>,
) -> Result<Vec<Whole>, AllocError>
    ensures { (t : Held) (ins : AdjIns) (c : ℕ) (speech : Speech) → AreKnown t ins c speech known.entry → AreDueAlike t ins c speech changes.now → IfOk result (λ wholes. AllByRecursion (λ w. AreDueAlike t ins c speech (map change_of (news_within w))) wholes.items) }
{
    let mut wholes = Vec::new(alloc);
    for index in 0..changes.len() {
        if let Some(whole) = first_whole(alloc, rows, &changes[index..], &mut known)? {
            wholes.push(whole)?;
        }
    }
    Ok(wholes)
}

impl Precedent {
    /// This is due alike, of what was decided for a client at so many prefixes. What was known before has its blocks already.
    pub(crate) fn of(
        alloc: Global,
        sources: &Sources<'_>,
        speech: Speech,
        rows: &Rows,
        count: usize,
        changes: Vec<Change>,
        known: Known<'_>,
    ) -> Result<Precedent, AllocError>
        requires server { AreOfOneServer sources.now }
        requires known { AreKnown (held_by sources.now) sources.now.ins.now sources.now.client speech known }
        requires due { AreDueAlike (held_by sources.now) sources.now.ins.now sources.now.client speech changes.items }
        ensures { IfOk result (IsPrecedent (held_by sources.now) sources.now.ins.now) }
    {
        let wholes = wholes_of(alloc, rows, &changes, known)?;
        Ok(Precedent {
            client: sources.client,
            asked: sources.asked,
            speech,
            count,
            changes,
            wholes,
        })
    }

    /// For which client was decided.
    pub(crate) fn client(&self) -> usize
        ensures { result ≡ self.now.client }
    {
        self.client
    }

    /// At how many prefixes was decided.
    pub(crate) fn count(&self) -> usize {
        self.count
    }

    /// Whether its client is spoken to so.
    fn is_spoken(&self, speech: Speech) -> bool
        ensures { IsTrue result → self.now.speech ≡ speech }
    {
        self.speech == speech
    }

    /// Whether it is of this client, or of one that has the same export rules.
    fn is_alike(&self, sources: &Sources<'_>) -> bool
        requires own { self.now.client < length sources.now.config.now.clients }
        requires client { sources.now.client < length sources.now.config.now.clients }
        ensures { IsTrue result → HaveSameExports (held_by sources.now) self.now.client sources.now.client }
    {
        self.client == sources.client
            || sources.config.has_same_exports(self.client, sources.client)
    }

    /// What the export rules of its client ask for, and those of this one, where that is known of both.
    fn both_asked(&self, sources: &Sources<'_>) -> Option<Asked>
        ensures first { IfSome result (λ asked. self.now.asked ≡ Some asked.first) }
        ensures next { IfSome result (λ asked. sources.now.asked ≡ Some asked.next) }
    {
        match (self.asked, sources.asked) {
            (Some(first), Some(next)) => Some(Asked { first, next }),
            _ => None,
        }
    }
}

/// What is known of what is due to a client, from one that is spoken to as it is.
pub(crate) fn known_to<'a>(
    precedent: &'a Option<Precedent>,
    sources: &Sources<'_>,
    speech: Speech,
) -> Known<'a>
    requires server { AreOfOneServer sources.now }
    requires precedent { (p : Precedent) → precedent.now ≡ Some p → IsPrecedent (held_by sources.now) sources.now.ins.now p }
    ensures { AreKnown (held_by sources.now) sources.now.ins.now sources.now.client speech result }
{
    if let Some(it) = precedent
        && it.is_spoken(speech)
    {
        if it.is_alike(sources) {
            return Known::of(&it.changes, &it.wholes, None);
        }
        if let Some(asked) = it.both_asked(sources) {
            return Known::of(&it.changes, &it.wholes, Some(asked));
        }
    }
    Known::of(&[], &[], None)
}
