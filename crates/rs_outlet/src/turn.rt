//! A turn: what is touched is decided anew, and what the client was not told so waits.

ghost use Rattle.std.specs.Prelude.{◌≡◌, ◌<◌, ◌≤◌, ◌++◌, ℕ, Bool, List, Option, None, Some, true, false, nat_eq, nat_lt, count_by, map, option_map, length, if◌then◌else◌, IsTrue, IfOk, IfSome, OnOk, OnErr, All};
ghost use Rattle.std.specs.Arc.{arc_value};
ghost use Rattle.std.specs.List.{IsDistinct};
ghost use Rattle.std.specs.Map.{keys_of};
ghost use Rattle.std.specs.FinMap as fin;
ghost use Rattle.std.specs.FinSet as set;
ghost use Rattle.rs_attrs.specs.Meaning.{Attribute};
ghost use Rattle.rs_octets.specs.Prefixes.{Prefix};
ghost use Rattle.rs_adjin.specs.declared.adj_ins.AdjIns.{AdjIns};
ghost use Rattle.rs_adjin.specs.AdjIns.{number_of, prefix_of, ListsHolders};
ghost use Rattle.rs_outlet.specs.Views.{AreNumbered, HaveNumbers, IsCount, IsNumberOf, IsOneOf, Prefixes, WaitsAreExact, is_touched, is_whole};
ghost use Rattle.rs_outlet.specs.Decided.Turns.{IsCurrent};
ghost use Rattle.rs_outlet.specs.Decided.Due.{any_holds, due_to};
ghost use Rattle.rs_outlet.specs.Decided.Counted.{is_counted, is_counted_below, is_left, is_standing};
ghost use Rattle.rs_outlet.specs.Decided.HeldBy.{held_by, AreOfOneServer};
ghost use Rattle.rs_outlet.specs.Inside.{AreDecided, AreFresh, IsDecidedAt, IsOwn, shown};
ghost use Rattle.rs_policy.specs.Noted.{note_of_import};
ghost use Rattle.rs_rows.specs.Places.{lent_row};
ghost use Rattle.rs_rows.specs.Rows.{Row, row_at};
ghost use Rattle.rs_outlet.specs.Decided.Touching.{is_number_touched, is_numbered_in, touched_of};
ghost use Rattle.rs_outlet.specs.declared.changes.Change.{Change};
ghost use Rattle.rs_outlet.specs.Decided.Choices.{AreChoices};
ghost use Rattle.rs_outlet.specs.Decided.Memo.{IsMemo};
ghost use Rattle.rs_outlet.specs.Decided.Plans.{IsPlanned};
ghost use Rattle.rs_outlet.specs.Decided.Precedents.{AreDueAlike, AreKnown, IsHandover};
ghost use Rattle.rs_outlet.specs.Decided.Passing.{attributes_passed};

use crate::answers::{Last, Speech, Turned};
use crate::beside::Beside;
use crate::changes::Change;
use crate::choices::Choices;
use crate::chosen::is_absent;
use crate::deciding::{Draft, Passed, Sources, decide};
use crate::handover::Handover;
use crate::known::{Known, learn};
use crate::news::all_news;
use crate::outlet::Outlet;
use crate::pieces::list_news;
use crate::plan::Plan;
use crate::table::Rows;
use crate::touched::{TOUCHED_MAX, Touched};
use rs_adjin::Holders;
use rs_octets::Prefix;
use rs_rows::{Lent, ROWS};
use std::alloc::{AllocError, Global};

/// The changes of a turn, how many prefixes were decided, and whether all were.
#[derive(Drop)]
pub(crate) struct Decided {
    plan: Plan,
    count: usize,
    whole: bool,
}

/// Whether a row has just what is due.
fn is_due(row: Option<&Lent<'_>>, due: Option<&Passed<'_>>) -> bool
    ensures { IsTrue result → shown (option_map (λ row. lent_row row.now) row.entry) ≡ option_map (λ passed. attributes_passed passed.now) due.entry }
{
    match (row, due) {
        (None, None) => true,
        (Some(row), Some(due)) => row.has(due.attrs()),
        _ => false,
    }
}

/// Whether a row is free or has this prefix.
fn is_own(row: Option<&Lent<'_>>, prefix: &Prefix) -> bool
    ensures { IsTrue result → IsOwn (option_map (λ row. lent_row row.now) row.entry) prefix.now }
{
    match row {
        Some(row) => row.prefix == *prefix,
        None => true,
    }
}

/// Lists a prefix where something else is due than the row of its number has. It is refused where that has another prefix.
fn list_change(
    row: Option<&Lent<'_>>,
    number: u32,
    prefix: Prefix,
    due: Option<Passed<'_>>,
    changes: &mut Vec<Change>,
) -> Result<(), AllocError>
    ensures { (ins : AdjIns) (due_at : Prefix → Option (List Attribute)) (rows : List (Option Row)) → number_of ins prefix ≡ Some number → row_at rows number ≡ option_map (λ row. lent_row row.now) row.entry → option_map attributes_passed due.entry ≡ due_at prefix → OnOk result (IsDecidedAt ins due_at rows number changes.old.items changes.new.items) }
{
    if is_due(row, due.as_ref()) {
        return Ok(());
    }
    if !is_own(row, &prefix) {
        return Err(AllocError);
    }
    let due = match due {
        None => None,
        Some(passed) => Some(passed.own()?),
    };
    changes.push(Change {
        number,
        prefix,
        due,
    })?;
    Ok(())
}

/// Decides a prefix that these clients hold, and lists it where something else is due than the row of its number has. It is
/// refused where that has another prefix.
fn decide_one<'a>(
    sources: &Sources<'a>,
    speech: Speech,
    row: Option<&Lent<'_>>,
    number: u32,
    prefix: Prefix,
    holders: Holders<'a>,
    draft: &mut Draft<'a>,
    changes: &mut Vec<Change>,
) -> Result<(), AllocError>
    requires number { number_of sources.now.ins.now prefix ≡ Some number }
    requires holders { ListsHolders sources.now.ins.now prefix (map (λ h. h.0) holders) }
    requires notes { All (λ h. h.1 ≡ note_of_import sources.now.config.now h.0.0 prefix h.0.1) holders }
    requires server { AreOfOneServer sources.now }
    requires choices { AreChoices (held_by sources.now) sources.now.ins.now draft.old.choices.kept.items }
    requires memo { IsMemo sources.now.config.now sources.now.client draft.old.memo }
    ensures decided { OnOk result ((rows : List (Option Row)) → row_at rows number ≡ option_map (λ row. lent_row row.now) row.entry → IsDecidedAt sources.now.ins.now (due_to (held_by sources.now) sources.now.client speech) rows number changes.old.items changes.new.items) }
    ensures choices { OnOk result (AreChoices (held_by sources.now) sources.now.ins.now draft.new.choices.kept.items) }
    ensures memo { OnOk result (IsMemo sources.now.config.now sources.now.client draft.new.memo) }
{
    let due = decide(sources, speech, number, &prefix, holders, draft)?;
    list_change(row, number, prefix, due, changes)
}

/// Lists what is due at a number, as it is known: where the row has something else.
fn list_known(rows: &Rows, known: &Change, changes: &mut Vec<Change>) -> Result<(), AllocError>
    ensures { (ins : AdjIns) (due_at : Prefix → Option (List Attribute)) → number_of ins known.now.prefix ≡ Some known.now.number → option_map arc_value known.now.due ≡ due_at known.now.prefix → OnOk result (IsDecidedAt ins due_at rows.now.rows.items known.now.number changes.old.items changes.new.items) }
{
    list_change(
        rows.get(known.number).as_ref(),
        known.number,
        known.prefix,
        known.due.as_ref().map(Passed::Whole),
        changes,
    )
}

/// Whether no client holds the prefix of a number: so nothing is due there.
fn is_unheld(sources: &Sources<'_>, number: u32) -> bool
    ensures { IsTrue result → (speech : Speech) (p : Prefix) → number_of sources.now.ins.now p ≡ Some number → due_to (held_by sources.now) sources.now.client speech p ≡ None }
{
    sources.ins.at_number(number).is_empty()
}

/// Lists the prefix of a number at which nothing is due, where its row has a route still.
fn list_gone(
    sources: &Sources<'_>,
    rows: &Rows,
    number: u32,
    changes: &mut Vec<Change>,
) -> Result<(), AllocError>
    ensures { (due_at : Prefix → Option (List Attribute)) → ((p : Prefix) → number_of sources.now.ins.now p ≡ Some number → due_at p ≡ None) → OnOk result (IsDecidedAt sources.now.ins.now due_at rows.now.rows.items number changes.old.items changes.new.items) }
{
    let Some(prefix) = sources.ins.prefix(number) else {
        return Ok(());
    };
    list_change(rows.get(number).as_ref(), number, prefix, None, changes)
}

/// Decides the prefix of a number, as it is known, or by the tables.
fn decide_next<'a>(
    sources: &Sources<'a>,
    speech: Speech,
    rows: &Rows,
    number: u32,
    known: &mut Known<'_>,
    draft: &mut Draft<'a>,
    changes: &mut Vec<Change>,
) -> Result<(), AllocError>
    requires server { AreOfOneServer sources.now }
    requires known { AreKnown (held_by sources.now) sources.now.ins.now sources.now.client speech known.old }
    requires choices { AreChoices (held_by sources.now) sources.now.ins.now draft.old.choices.kept.items }
    requires memo { IsMemo sources.now.config.now sources.now.client draft.old.memo }
    ensures changes { OnOk result (IsDecidedAt sources.now.ins.now (due_to (held_by sources.now) sources.now.client speech) rows.now.rows.items number changes.old.items changes.new.items) }
    ensures known { AreKnown (held_by sources.now) sources.now.ins.now sources.now.client speech known.new }
    ensures choices { OnOk result (AreChoices (held_by sources.now) sources.now.ins.now draft.new.choices.kept.items) }
    ensures memo { OnOk result (IsMemo sources.now.config.now sources.now.client draft.new.memo) }
{
    if is_unheld(sources, number) {
        return list_gone(sources, rows, number, changes);
    }
    if let Some(change) = known.find(sources, number)
        && is_absent(sources, number)
    {
        return list_known(rows, change, changes);
    }
    decide_number(sources, speech, rows, number, draft, changes)?;
    Ok(())
}

/// Decides what was touched by itself: at each number the prefix that the tables have there. That is the
/// prefix that was touched as long as it keeps its number, and no condition asks for that here. What serves others is
/// learned, as long as there is memory for it.
pub(crate) fn decide_touched(
    alloc: Global,
    sources: &Sources<'_>,
    speech: Speech,
    rows: &Rows,
    touched: &[(u32, Prefix)],
    mut known: Known<'_>,
    learned: &mut Option<Vec<Change>>,
    choices: &mut Choices,
) -> Result<Vec<Change>, AllocError>
    requires server { AreOfOneServer sources.now }
    requires known { AreKnown (held_by sources.now) sources.now.ins.now sources.now.client speech known }
    requires learned { IfSome learned.old (λ learned. AreDueAlike (held_by sources.now) sources.now.ins.now sources.now.client speech learned.items) }
    requires choices { AreChoices (held_by sources.now) sources.now.ins.now choices.old.kept.items }
    requires once { IsDistinct nat_eq (keys_of touched.now) }
    ensures decided { IfOk result (λ changes. AreDecided sources.now.ins.now (due_to (held_by sources.now) sources.now.client speech) rows.now.rows.items (is_numbered_in touched.now) changes.items) }
    ensures learned { IfSome learned.new (λ learned. AreDueAlike (held_by sources.now) sources.now.ins.now sources.now.client speech learned.items) }
    ensures choices { AreChoices (held_by sources.now) sources.now.ins.now choices.new.kept.items }
{
    let mut draft = Draft::from_choices(alloc, choices);
    let mut changes = Vec::with_capacity(alloc, touched.len())?;
    for (number, _) in touched {
        let before = changes.len();
        decide_next(
            sources,
            speech,
            rows,
            *number,
            &mut known,
            &mut draft,
            &mut changes,
        )?;
        learn(sources, rows, *number, changes.get(before), learned);
    }
    *choices = draft.into_choices();
    Ok(changes)
}

/// Whether the row of a number has a route, though no client holds the prefix.
fn is_left(sources: &Sources<'_>, rows: &Rows, number: u32) -> bool
    ensures { (p : Prefix) → number_of sources.now.ins.now p ≡ Some number → result ≡ is_left rows.now.rows.items (any_holds (held_by sources.now)) (number, p) }
{
    rows.get(number).is_some() && sources.ins.at_number(number).is_empty()
}

/// How many of these prefixes have a route in their row, though no client holds them.
fn count_left(sources: &Sources<'_>, rows: &Rows, touched: &[(u32, Prefix)]) -> usize
    ensures { HaveNumbers touched.now sources.now.ins.now → result ≡ count_by (is_left rows.now.rows.items (any_holds (held_by sources.now))) touched.now }
{
    let mut count = 0usize;
    for (number, _) in touched {
        count += usize::from(is_left(sources, rows, *number));
    }
    count
}

/// Decides what may be stale. Where it is more than is touched one by one, the turn is whole, and each
/// other prefix that stands has what is due: a client holds it, so that it is counted already. Where the client is `idle`,
/// nothing waits.
fn decide_stale(
    alloc: Global,
    sources: &Sources<'_>,
    speech: Speech,
    rows: &Rows,
    touched: &[(u32, Prefix)],
    handover: &mut Handover,
    idle: bool,
) -> Result<Decided, AllocError>
    requires server { AreOfOneServer sources.now }
    requires handover { IsHandover (held_by sources.now) sources.now.ins.now handover.old }
    requires once { IsDistinct nat_eq (keys_of touched.now) }
    ensures handover { IsHandover (held_by sources.now) sources.now.ins.now handover.new }
    ensures plan { IfOk result (λ decided. IsPlanned sources.now.ins.now (due_to (held_by sources.now) sources.now.client speech) rows.now.rows.items (is_numbered_in touched.now) idle decided.plan) }
    ensures whole { IfOk result (λ decided. decided.whole ≡ nat_lt 4096 (length touched.now)) }
    ensures count { IfOk result (λ decided. decided.whole ≡ false → decided.count ≡ length touched.now) }
    ensures all { HaveNumbers touched.now sources.now.ins.now → AreFresh sources.now.ins.now (due_to (held_by sources.now) sources.now.client speech) rows.now.rows.items (is_numbered_in touched.now) → IfOk result (λ decided. decided.whole ≡ true → IsNumberOf (is_counted sources.now.ins.now rows.now.rows.items (any_holds (held_by sources.now))) decided.count) }
{
    let plan = handover.decide(alloc, sources, speech, rows, touched, idle)?;
    if touched.len() <= TOUCHED_MAX {
        return Ok(Decided {
            plan,
            count: touched.len(),
            whole: false,
        });
    }
    let held = sources.ins.held_prefixes();
    let Some(count) = held.checked_add(count_left(sources, rows, touched)) else {
        return Err(AllocError);
    };
    Ok(Decided {
        plan,
        count,
        whole: true,
    })
}

/// Decides the prefix of a number, if a client holds it or it stands in the Loc-RIB, and answers
/// whether it did.
fn decide_number<'a>(
    sources: &Sources<'a>,
    speech: Speech,
    rows: &Rows,
    number: u32,
    draft: &mut Draft<'a>,
    changes: &mut Vec<Change>,
) -> Result<bool, AllocError>
    requires server { AreOfOneServer sources.now }
    requires choices { AreChoices (held_by sources.now) sources.now.ins.now draft.old.choices.kept.items }
    requires memo { IsMemo sources.now.config.now sources.now.client draft.old.memo }
    ensures choices { OnOk result (AreChoices (held_by sources.now) sources.now.ins.now draft.new.choices.kept.items) }
    ensures changes { OnOk result (IsDecidedAt sources.now.ins.now (due_to (held_by sources.now) sources.now.client speech) rows.now.rows.items number changes.old.items changes.new.items) }
    ensures free { prefix_of sources.now.ins.now number ≡ None → IfOk result (λ decided. decided ≡ false) }
    ensures standing { (p : Prefix) → number_of sources.now.ins.now p ≡ Some number → IfOk result (λ decided. decided ≡ is_standing rows.now.rows.items (any_holds (held_by sources.now)) p number) }
    ensures memo { OnOk result (IsMemo sources.now.config.now sources.now.client draft.new.memo) }
{
    let Some(prefix) = sources.ins.prefix(number) else {
        return Ok(false);
    };
    let holders = sources.ins.at_number(number);
    let row = rows.get(number);
    if holders.is_empty() && row.is_none() {
        return Ok(false);
    }
    decide_one(
        sources,
        speech,
        row.as_ref(),
        number,
        prefix,
        holders,
        draft,
        changes,
    )?;
    Ok(true)
}

/// Decides the prefixes of the numbers from one on to before another, in their order, and counts those that a client holds or
/// that stand in the Loc-RIB.
fn decide_numbers<'a>(
    sources: &Sources<'a>,
    speech: Speech,
    rows: &Rows,
    from: u32,
    end: u32,
    draft: &mut Draft<'a>,
    changes: &mut Vec<Change>,
    count: &mut usize,
) -> Result<(), AllocError>
    requires server { AreOfOneServer sources.now }
    requires order { from ≤ end }
    requires choices { AreChoices (held_by sources.now) sources.now.ins.now draft.old.choices.kept.items }
    requires memo { IsMemo sources.now.config.now sources.now.client draft.old.memo }
    requires most { count.old ≤ from }
    requires count { IsNumberOf (is_counted_below sources.now.ins.now rows.now.rows.items (any_holds (held_by sources.now)) from) count.old }
    ensures changes { (front : List Change) → AreDecided sources.now.ins.now (due_to (held_by sources.now) sources.now.client speech) rows.now.rows.items (λ m. nat_lt m from) (front ++ changes.old.items) → OnOk result (AreDecided sources.now.ins.now (due_to (held_by sources.now) sources.now.client speech) rows.now.rows.items (λ m. nat_lt m end) (front ++ changes.new.items)) }
    ensures choices { OnOk result (AreChoices (held_by sources.now) sources.now.ins.now draft.new.choices.kept.items) }
    ensures memo { OnOk result (IsMemo sources.now.config.now sources.now.client draft.new.memo) }
    ensures most { OnOk result (count.new ≤ end) }
    ensures count { OnOk result (IsNumberOf (is_counted_below sources.now.ins.now rows.now.rows.items (any_holds (held_by sources.now)) end) count.new) }
{
    for number in from..end {
        let decided = decide_number(sources, speech, rows, number, draft, changes)?;
        *count += usize::from(decided);
    }
    Ok(())
}

/// Decides the prefixes of the numbers before one for a client that has rows, or to which something waits.
fn decide_own<'a>(
    alloc: Global,
    sources: &Sources<'a>,
    speech: Speech,
    rows: &Rows,
    numbers: u32,
    draft: &mut Draft<'a>,
) -> Result<Decided, AllocError>
    requires server { AreOfOneServer sources.now }
    requires choices { AreChoices (held_by sources.now) sources.now.ins.now draft.old.choices.kept.items }
    requires memo { IsMemo sources.now.config.now sources.now.client draft.old.memo }
    ensures choices { OnOk result (AreChoices (held_by sources.now) sources.now.ins.now draft.new.choices.kept.items) }
    ensures plan { (idle : Bool) → ((p : Prefix) (n : ℕ) → number_of sources.now.ins.now p ≡ Some n → n < numbers) → IfOk result (λ decided. IsPlanned sources.now.ins.now (due_to (held_by sources.now) sources.now.client speech) rows.now.rows.items (λ number. true) idle decided.plan) }
    ensures count { ((p : Prefix) (n : ℕ) → number_of sources.now.ins.now p ≡ Some n → n < numbers) → IfOk result (λ decided. IsNumberOf (is_counted sources.now.ins.now rows.now.rows.items (any_holds (held_by sources.now))) decided.count) }
    ensures whole { IfOk result (λ decided. decided.whole ≡ true) }
{
    let mut changes = Vec::new(alloc);
    let mut count = 0usize;
    decide_numbers(
        sources,
        speech,
        rows,
        0,
        numbers,
        draft,
        &mut changes,
        &mut count,
    )?;
    Ok(Decided {
        plan: Plan::Own(changes),
        count,
        whole: true,
    })
}

/// Decides the prefixes of the numbers before one for a client that has no route yet, and to which nothing waits: all that is
/// due is news, which is decided block by block. What fills a block is put into one that lies beside, where that has the same.
fn decide_news<'a>(
    alloc: Global,
    sources: &Sources<'a>,
    speech: Speech,
    rows: &Rows,
    numbers: u32,
    draft: &mut Draft<'a>,
    beside: &Beside,
) -> Result<Decided, AllocError>
    requires server { AreOfOneServer sources.now }
    requires choices { AreChoices (held_by sources.now) sources.now.ins.now draft.old.choices.kept.items }
    requires memo { IsMemo sources.now.config.now sources.now.client draft.old.memo }
    requires free { rows.now.used ≡ 0 }
    ensures choices { OnOk result (AreChoices (held_by sources.now) sources.now.ins.now draft.new.choices.kept.items) }
    ensures plan { ((p : Prefix) (n : ℕ) → number_of sources.now.ins.now p ≡ Some n → n < numbers) → IfOk result (λ decided. IsPlanned sources.now.ins.now (due_to (held_by sources.now) sources.now.client speech) rows.now.rows.items (λ number. true) true decided.plan) }
    ensures count { ((p : Prefix) (n : ℕ) → number_of sources.now.ins.now p ≡ Some n → n < numbers) → IfOk result (λ decided. IsNumberOf (is_counted sources.now.ins.now rows.now.rows.items (any_holds (held_by sources.now))) decided.count) }
    ensures whole { IfOk result (λ decided. decided.whole ≡ true) }
{
    let mut pieces = Vec::new(alloc);
    let mut count = 0usize;
    let mut from = 0u32;
    while from < numbers {
        let end = from + (numbers - from).min(ROWS as u32);
        let mut changes = Vec::with_capacity(alloc, ROWS)?;
        decide_numbers(
            sources,
            speech,
            rows,
            from,
            end,
            draft,
            &mut changes,
            &mut count,
        )?;
        list_news(alloc, all_news(alloc, changes)?, beside, &mut pieces)?;
        from = end;
    }
    Ok(Decided {
        plan: Plan::Shared(pieces),
        count,
        whole: true,
    })
}

/// Decides each prefix that a client holds or that stands in the Loc-RIB, in the order of their
/// numbers. It is refused where there are more numbers than 32 bits count. Where the client is `idle`, nothing waits.
fn decide_all(
    alloc: Global,
    sources: &Sources<'_>,
    speech: Speech,
    rows: &Rows,
    choices: &mut Choices,
    beside: &Beside,
    idle: bool,
) -> Result<Decided, AllocError>
    requires server { AreOfOneServer sources.now }
    requires choices { AreChoices (held_by sources.now) sources.now.ins.now choices.old.kept.items }
    ensures choices { AreChoices (held_by sources.now) sources.now.ins.now choices.new.kept.items }
    ensures plan { IfOk result (λ decided. IsPlanned sources.now.ins.now (due_to (held_by sources.now) sources.now.client speech) rows.now.rows.items (λ number. true) idle decided.plan) }
    ensures count { IfOk result (λ decided. IsNumberOf (is_counted sources.now.ins.now rows.now.rows.items (any_holds (held_by sources.now))) decided.count) }
    ensures whole { IfOk result (λ decided. decided.whole ≡ true) }
{
    let Ok(numbers) = u32::try_from(sources.ins.numbers()) else {
        return Err(AllocError);
    };
    let mut draft = Draft::from_choices(alloc, choices);
    let decided = if idle && rows.used() == 0 {
        decide_news(alloc, sources, speech, rows, numbers, &mut draft, beside)?
    } else {
        decide_own(alloc, sources, speech, rows, numbers, &mut draft)?
    };
    *choices = draft.into_choices();
    Ok(decided)
}

/// Decides what is touched, from the tables and the rules: of a whole turn what may be stale. Where the client is `idle`,
/// nothing waits.
fn decide_all_touched(
    alloc: Global,
    sources: &Sources<'_>,
    speech: Speech,
    rows: &Rows,
    touched: &Touched,
    handover: &mut Handover,
    idle: bool,
) -> Result<Decided, AllocError>
    requires server { AreOfOneServer sources.now }
    requires handover { IsHandover (held_by sources.now) sources.now.ins.now handover.old }
    ensures handover { IsHandover (held_by sources.now) sources.now.ins.now handover.new }
    ensures plan { IfOk result (λ decided. IsPlanned sources.now.ins.now (due_to (held_by sources.now) sources.now.client speech) rows.now.rows.items (is_number_touched touched.now.all touched.now.prefixes.items) idle decided.plan) }
    ensures whole { HaveNumbers touched.now.prefixes.items sources.now.ins.now → IfOk result (λ decided. decided.whole ≡ is_whole (touched_of touched.now.all touched.now.prefixes.items)) }
    ensures count { HaveNumbers touched.now.prefixes.items sources.now.ins.now → IfOk result (λ decided. (prefixes : Prefixes) → touched_of touched.now.all touched.now.prefixes.items ≡ Some prefixes → decided.count ≡ set.len prefixes) }
    ensures all { HaveNumbers touched.now.prefixes.items sources.now.ins.now → AreFresh sources.now.ins.now (due_to (held_by sources.now) sources.now.client speech) rows.now.rows.items (is_number_touched touched.now.all touched.now.prefixes.items) → IfOk result (λ decided. decided.whole ≡ true → IsNumberOf (is_counted sources.now.ins.now rows.now.rows.items (any_holds (held_by sources.now))) decided.count) }
{
    match touched.list(alloc, &mut handover.ordered)? {
        None => decide_all(
            alloc,
            sources,
            speech,
            rows,
            &mut handover.choices,
            &handover.beside,
            idle,
        ),
        Some(list) => decide_stale(alloc, sources, speech, rows, &list, handover, idle),
    }
}

impl Outlet {
    /// A turn of a client that is Established. Nothing is written before all memory is there. It is
    /// refused where a row stands at the number of another prefix.
    pub(crate) fn turn_up(
        &mut self,
        speech: Speech,
        sources: &Sources<'_>,
        handover: &mut Handover,
    ) -> Result<Turned, AllocError>
        requires speech { self.old.speech ≡ Some speech }
        requires own { sources.now.client ≡ self.old.client }
        requires server { AreOfOneServer sources.now }
        requires handover { IsHandover (held_by sources.now) sources.now.ins.now handover.old }
        ensures client { self.new.client ≡ self.old.client }
        ensures extended { self.new.extended ≡ self.old.extended }
        ensures rest { self.new ≡ record self.old { loc = self.new.loc; told = self.new.told; touched = self.new.touched; stale = self.new.stale; marked = self.new.marked; waits = self.new.waits; numbers = self.new.numbers; last = self.new.last } }
        ensures done { IfOk result (λ turned. self.new.last ≡ Last.Done turned) }
        ensures touched { OnOk result (self.new.touched ≡ Some set.empty) }
        ensures stale { OnOk result (self.new.stale ≡ Some set.empty) }
        ensures due { OnOk result (AreNumbered self.old sources.now.ins.now → (p : Prefix) → IsOneOf (fin.get self.new.loc p) (fin.get self.old.loc p) (due_to (held_by sources.now) sources.now.client speech p)) }
        ensures loc { OnOk result (AreNumbered self.old sources.now.ins.now → IsCurrent sources.now.config.now sources.now.ins.now self.old → (p : Prefix) → fin.get self.new.loc p ≡ (if is_touched self.old.touched p then due_to (held_by sources.now) sources.now.client speech p else fin.get self.old.loc p)) }
        ensures whole { AreNumbered self.old sources.now.ins.now → IfOk result (λ turned. turned.whole ≡ is_whole self.old.touched) }
        ensures count { AreNumbered self.old sources.now.ins.now → IsCurrent sources.now.config.now sources.now.ins.now self.old → IfOk result (λ turned. IsCount (any_holds (held_by sources.now)) self.old.loc self.old.touched turned.decided) }
        ensures told { AreNumbered self.old sources.now.ins.now → OnOk result (self.new.told ≡ self.old.told) }
        ensures marked { AreNumbered self.old sources.now.ins.now → OnOk result (self.new.marked ≡ self.old.marked) }
        ensures exact { AreNumbered self.old sources.now.ins.now → WaitsAreExact self.old → OnOk result (WaitsAreExact self.new) }
        ensures refused { OnErr result (self.new ≡ self.old) }
        ensures numbered { AreNumbered self.old sources.now.ins.now → AreNumbered self.new sources.now.ins.now }
        ensures handover { IsHandover (held_by sources.now) sources.now.ins.now handover.new }
    {
        let idle = self.waits.is_idle();
        let Decided { plan, count, whole } = decide_all_touched(
            self.alloc,
            sources,
            speech,
            &self.rows,
            &self.touched,
            handover,
            idle,
        )?;
        let turned = Turned {
            decided: count,
            whole,
        };
        let numbers = sources.ins.numbers();
        let fresh = plan.make_room(self.alloc, &mut self.rows, &mut self.waits, numbers)?;
        self.asked &= plan.is_empty();
        plan.carry_out(
            &mut self.rows,
            &mut self.waits,
            fresh,
            &mut handover.choices.sorting,
        );
        self.touched.clear();
        self.last = Last::Done(turned);
        Ok(turned)
    }
}
