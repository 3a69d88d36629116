//! What is known of what is due to a client: what was decided for one that has the same export rules, and holds no route there
//! either. Of a prefix with a route of which these ask who it goes to, nothing is known.
//!
//! What was decided for one that has other export rules is known too where the rules of both leave each route as it is: its
//! sender's import list passes it plainly, and it has no community that the one or the other asks for. That is tested at each
//! prefix, and can be where all export rules of both ask for communities.

ghost use Rattle.std.specs.Prelude.{◌≡◌, ◌<◌, false, length, map, All, Option, Some, None, option_map, option_copied, IfOk, IfSome, IsTrue, OnOk};
ghost use Rattle.std.specs.Arc.{arc_value};
ghost use Rattle.rs_attrs.specs.Meaning.{Attribute};
ghost use Rattle.rs_octets.specs.Prefixes.{Prefix};
ghost use Rattle.rs_adjin.specs.AdjIns.{number_of};
ghost use Rattle.rs_policy.specs.Alike.{ReceiversAreAlike};
ghost use Rattle.rs_outlet.specs.declared.answers.Speech.{Speech};
ghost use Rattle.rs_outlet.specs.Decided.Due.{due_to};
ghost use Rattle.rs_outlet.specs.Decided.HeldBy.{held_by, AreOfOneServer};
ghost use Rattle.rs_outlet.specs.Decided.Plans.{news_within};
ghost use Rattle.rs_outlet.specs.Decided.Precedents.{AreAlikeForAll, AreDueAlike, IsDecidedSo, IsPlainForBoth, ServesAt};
ghost use Rattle.rs_outlet.specs.Inside.{attributes_at};

use crate::by_number::{ByNumber, first_from};
use crate::changes::Change;
use crate::chosen::is_absent;
use crate::deciding::Sources;
use crate::filled::Whole;
use crate::table::Rows;
use rs_adjin::{Holder, Holders};
use rs_attrs::{AskedTags, Attrs};
use rs_policy::{is_plain_note, may_ask_receiver};
use rs_rows::ROWS;
use std::alloc::AllocError;
use std::sync::Arc;

/// What the export rules of two clients ask for, which are others: of the first, for which was decided, and of the next, which
/// that is to serve.
#[derive(Clone, Copy)]
pub(crate) struct Asked {
    pub(crate) first: AskedTags,
    pub(crate) next: AskedTags,
}

impl Asked {
    /// Whether a route goes plainly to both: its sender's import list passes it so, and it has none of the communities that
    /// they ask for.
    fn is_lacked_by(self, holder: &Holder<'_>) -> bool
        ensures { IsTrue result → IsPlainForBoth self ((holder.now.client, arc_value holder.now.attrs.now), holder.now.note) }
    {
        is_plain_note(holder.note)
            && holder.attrs.lacks(&self.first)
            && holder.attrs.lacks(&self.next)
    }

    /// Whether all of these routes do.
    fn is_lacked_by_all(self, holders: Holders<'_>) -> bool
        ensures { IsTrue result → All (IsPlainForBoth self) holders.entry }
    {
        for holder in holders {
            if !self.is_lacked_by(&holder) {
                return false;
            }
        }
        true
    }

    /// Whether what was decided for the first at a number serves the next: all routes there go plainly to both.
    fn serves_at(self, sources: &Sources<'_>, number: u32) -> bool
        requires server { AreOfOneServer sources.now }
        ensures { IsTrue result → ServesAt (held_by sources.now) sources.now.ins.now sources.now.client self number }
    {
        self.is_lacked_by_all(sources.ins.at_number(number))
    }

    /// Whether it serves the next at all numbers of a block.
    fn serves_whole(self, sources: &Sources<'_>, whole: &Whole) -> bool
        requires server { AreOfOneServer sources.now }
        ensures { IsTrue result → All (λ n. ServesAt (held_by sources.now) sources.now.ins.now sources.now.client self n.number) (news_within whole.now) }
    {
        for index in 0..ROWS {
            if !self.serves_at(sources, whole.number_at(index)) {
                return false;
            }
        }
        true
    }
}

/// What is due at prefixes to a client that holds no route there, by rising number: as changes of one to which nothing is due
/// yet, and those of whole blocks once more.
#[derive(Clone, Copy)]
pub(crate) struct Known<'a> {
    changes: &'a [Change],
    wholes: &'a [Whole],
    /// What it and the client for which was decided ask for, where their export rules are not known to be the same: it is so
    /// at a prefix of which the routes have none of that.
    asked: Option<Asked>,
    /// Where the next change is looked for.
    next: usize,
    /// Where the next block is looked for.
    next_whole: usize,
}

impl<'a> Known<'a> {
    ghost use Rattle.rs_adjin.specs.declared.adj_ins.AdjIns.{AdjIns};
    ghost use Rattle.rs_outlet.specs.Decided.Due.{Held};
    ghost use Rattle.rs_outlet.specs.Decided.News.{change_of, seen};
    ghost use Rattle.rs_outlet.specs.Decided.Precedents.{AreDueHere, AreKnown, AreListed, IsDueAlike, IsDueHere};
    ghost use Rattle.std.specs.Prelude.{ℕ, map};

    pub(crate) fn of(changes: &'a [Change], wholes: &'a [Whole], asked: Option<Asked>) -> Known<'a>
        ensures changes { result.changes.now ≡ changes.now }
        ensures wholes { result.wholes.now ≡ wholes.now }
        ensures asked { result.asked ≡ asked }
    {
        Known {
            changes,
            wholes,
            asked,
            next: 0,
            next_whole: 0,
        }
    }

    /// Whether nothing is known.
    pub(crate) fn is_empty(&self) -> bool {
        self.changes.is_empty()
    }

    /// The change that is listed at a number, which is greater than those asked for before.
    fn listed(&mut self, number: u32) -> Option<&'a Change>
        ensures number { IfSome result (λ change. change.now.number ≡ number) }
        ensures due { (t : Held) (ins : AdjIns) (c : ℕ) (speech : Speech) → AreListed t ins c speech self.old.changes.now self.old.wholes.now → IfSome result (λ change. IsDueAlike t ins c speech (seen change.now)) }
        ensures rest { self.new ≡ record self.old { next = self.new.next } }
    {
        self.next = first_from(self.changes, self.next, number);
        match self.changes.get(self.next) {
            Some(change) if change.number == number => Some(change),
            _ => None,
        }
    }

    /// The next block that is listed, if this is the first number of one.
    fn listed_whole(&mut self, number: u32) -> Option<&'a Whole>
        ensures due { (t : Held) (ins : AdjIns) (c : ℕ) (speech : Speech) → AreListed t ins c speech self.old.changes.now self.old.wholes.now → IfSome result (λ whole. AreDueAlike t ins c speech (map change_of (news_within whole.now))) }
        ensures rest { self.new ≡ record self.old { next_whole = self.new.next_whole } }
    {
        if number as usize % ROWS != 0 {
            return None;
        }
        self.next_whole = first_from(self.wholes, self.next_whole, number);
        self.wholes.get(self.next_whole)
    }

    /// What is due at a number, which is greater than those asked for before, if it is known.
    pub(crate) fn find(&mut self, sources: &Sources<'_>, number: u32) -> Option<&'a Change>
        requires server { AreOfOneServer sources.now }
        ensures number { IfSome result (λ change. change.now.number ≡ number) }
        ensures due { (speech : Speech) → AreKnown (held_by sources.now) sources.now.ins.now sources.now.client speech self.old → IfSome result (λ change. IsDueHere (held_by sources.now) sources.now.ins.now sources.now.client speech (seen change.now)) }
        ensures rest { self.new ≡ record self.old { next = self.new.next; next_whole = self.new.next_whole } }
    {
        let change = self.listed(number)?;
        match self.asked {
            None => Some(change),
            Some(asked) if asked.serves_at(sources, number) => Some(change),
            Some(_) => None,
        }
    }

    /// What is due at all numbers of a block, of which this is the first, if all of it is known.
    pub(crate) fn find_whole(&mut self, sources: &Sources<'_>, number: u32) -> Option<&'a Whole>
        requires server { AreOfOneServer sources.now }
        ensures due { (speech : Speech) → AreKnown (held_by sources.now) sources.now.ins.now sources.now.client speech self.old → IfSome result (λ whole. AreDueHere (held_by sources.now) sources.now.ins.now sources.now.client speech (map change_of (news_within whole.now))) }
        ensures rest { self.new ≡ record self.old { next = self.new.next; next_whole = self.new.next_whole } }
    {
        let whole = self.listed_whole(number)?;
        match self.asked {
            None => Some(whole),
            Some(asked) if whole.number() == number && asked.serves_whole(sources, whole) => {
                Some(whole)
            }
            Some(_) => None,
        }
    }

    /// The same, if it is due to each that has the same export rules too.
    pub(crate) fn find_alike(&mut self, number: u32) -> Option<&'a Whole>
        ensures due { (t : Held) (ins : AdjIns) (c : ℕ) (speech : Speech) → AreKnown t ins c speech self.old → IfSome result (λ whole. AreDueAlike t ins c speech (map change_of (news_within whole.now))) }
        ensures rest { self.new ≡ record self.old { next = self.new.next; next_whole = self.new.next_whole } }
    {
        match self.asked {
            Some(_) => None,
            None => self.listed_whole(number),
        }
    }
}

/// An owner more of attributes, if there are any.
fn shared(attrs: Option<&Arc<Attrs>>) -> Result<Option<Arc<Attrs>>, AllocError>
    ensures { IfOk result (λ owner. option_map arc_value owner ≡ option_map (λ attrs. arc_value attrs.now) attrs.entry) }
{
    match attrs {
        None => Ok(None),
        Some(attrs) => Ok(Some(attrs.clone()?)),
    }
}

/// Whether it may count to which client with the export rules of this one a holder's route goes. Mostly it is told at once.
fn may_ask(sources: &Sources<'_>, holder: &Holder<'_>) -> bool
    requires server { AreOfOneServer sources.now }
    ensures { result ≡ false → ReceiversAreAlike sources.now.config.now sources.now.client (arc_value holder.now.attrs.now) }
{
    !holder.attrs.lacks(&sources.receivers)
        && may_ask_receiver(sources.config, sources.client, holder.attrs)
}

/// Whether it may count of a route of these holders.
fn may_ask_receivers(sources: &Sources<'_>, holders: Holders<'_>) -> bool
    requires server { AreOfOneServer sources.now }
    ensures { result ≡ false → AreAlikeForAll (held_by sources.now) sources.now.client (map (λ h. h.0) holders.entry) }
{
    for holder in holders {
        if may_ask(sources, &holder) {
            return true;
        }
    }
    false
}

/// Lists what is due at a number to all that have the same export rules and hold no route there, if the client holds none and
/// these don't ask who a route goes to: what was just decided, or what its row has where that is no change. Where nobody holds a
/// route any more there is nothing to learn.
fn list_learned(
    sources: &Sources<'_>,
    rows: &Rows,
    number: u32,
    change: Option<&Change>,
    learned: &mut Vec<Change>,
) -> Result<(), AllocError>
    requires server { AreOfOneServer sources.now }
    ensures { (speech : Speech) → IsDecidedSo (held_by sources.now) sources.now.ins.now sources.now.client speech rows.now.rows.items number (option_copied change.entry) → AreDueAlike (held_by sources.now) sources.now.ins.now sources.now.client speech learned.old.items → OnOk result (AreDueAlike (held_by sources.now) sources.now.ins.now sources.now.client speech learned.new.items) }
{
    if !is_absent(sources, number) {
        return Ok(());
    }
    let Some(prefix) = sources.ins.prefix(number) else {
        return Ok(());
    };
    let holders = sources.ins.at_number(number);
    if holders.is_empty() || may_ask_receivers(sources, holders) {
        return Ok(());
    }
    let due = match change {
        Some(change) => shared(change.due.as_ref())?,
        None => shared(rows.attrs(number))?,
    };
    learned.push(Change {
        number,
        prefix,
        due,
    })?;
    Ok(())
}

/// Learns what is due at a number that was just decided, if anything is learned. Where memory is refused, nothing is any more.
pub(crate) fn learn(
    sources: &Sources<'_>,
    rows: &Rows,
    number: u32,
    change: Option<&Change>,
    learned: &mut Option<Vec<Change>>,
)
    requires server { AreOfOneServer sources.now }
    ensures { (speech : Speech) → IsDecidedSo (held_by sources.now) sources.now.ins.now sources.now.client speech rows.now.rows.items number (option_copied change.entry) → IfSome learned.old (λ learned. AreDueAlike (held_by sources.now) sources.now.ins.now sources.now.client speech learned.items) → IfSome learned.new (λ learned. AreDueAlike (held_by sources.now) sources.now.ins.now sources.now.client speech learned.items) }
{
    let Some(list) = learned else {
        return;
    };
    if list_learned(sources, rows, number, change, list).is_err() {
        *learned = None;
    }
}
