//! News to a client whose rows have nothing where it was touched: by what was decided for another one, in pieces that both have,
//! and by the tables where that tells nothing.

ghost use Rattle.std.specs.Prelude.{◌≡◌, ◌<◌, ◌≤◌, ◌++◌, None, Some, nat_eq, length, map, take, IfOk, IfSome, IsTrue, OnOk};
ghost use Rattle.std.specs.List.{IsDistinct};
ghost use Rattle.std.specs.Map.{keys_of};
ghost use Rattle.rs_octets.specs.Prefixes.{Prefix};
ghost use Rattle.rs_adjin.specs.AdjIns.{number_of};
ghost use Rattle.rs_rows.specs.Rows.{row_at};
ghost use Rattle.rs_outlet.specs.declared.answers.Speech.{Speech};
ghost use Rattle.std.specs.Prelude.{List};
ghost use Rattle.rs_outlet.specs.declared.changes.Change.{Change};
ghost use Rattle.rs_outlet.specs.Inside.{AreDecided, numbers_of};
ghost use Rattle.rs_outlet.specs.Decided.Due.{due_to};
ghost use Rattle.rs_outlet.specs.Decided.HeldBy.{held_by, AreOfOneServer};
ghost use Rattle.rs_outlet.specs.Decided.News.{AreFree, change_of};
ghost use Rattle.rs_outlet.specs.Decided.Plans.{changes_in, news_in, news_within};
ghost use Rattle.rs_outlet.specs.Decided.Choices.{AreChoices};
ghost use Rattle.rs_outlet.specs.Decided.Memo.{IsMemo};
ghost use Rattle.rs_outlet.specs.Decided.Precedents.{AreDecidedAt, AreKnown, AreNewsAt, AreUnheld};
ghost use Rattle.rs_outlet.specs.Decided.Touching.{is_numbered_in};

use crate::answers::Speech;
use crate::choices::Choices;
use crate::chosen::is_absent;
use crate::deciding::{Draft, Sources, decide};
use crate::filled::Whole;
use crate::known::Known;
use crate::news::News;
use crate::pieces::Piece;
use crate::table::Rows;
use rs_octets::Prefix;
use rs_rows::ROWS;
use std::alloc::{AllocError, Global};

/// Whether a client's row has nothing.
fn is_free(rows: &Rows, number: u32) -> bool
    ensures { IsTrue result → row_at rows.now.rows.items number ≡ None }
{
    rows.get(number).is_none()
}

/// Whether a client holds no route for the prefix of a number, and its row has nothing.
fn is_new_at(sources: &Sources<'_>, rows: &Rows, number: u32) -> bool
    ensures free { IsTrue result → row_at rows.now.rows.items number ≡ None }
    ensures absent { IsTrue result → (p : Prefix) → number_of sources.now.ins.now p ≡ Some number → (held_by sources.now).held sources.now.client p ≡ None }
{
    is_free(rows, number) && is_absent(sources, number)
}

/// Whether all rows of a block are news to a client, at the first of these prefixes.
fn are_first_new(
    sources: &Sources<'_>,
    rows: &Rows,
    whole: &Whole,
    touched: &[(u32, Prefix)],
) -> bool
    ensures many { IsTrue result → length (news_within whole.now) ≤ length touched.now }
    ensures first { IsTrue result → keys_of (take (length (news_within whole.now)) touched.now) ≡ numbers_of (map change_of (news_within whole.now)) }
    ensures free { IsTrue result → AreFree rows.now.rows.items (news_within whole.now) }
    ensures unheld { IsTrue result → AreUnheld (held_by sources.now) sources.now.ins.now sources.now.client (numbers_of (map change_of (news_within whole.now))) }
{
    if touched.len() < ROWS {
        return false;
    }
    for index in 0..ROWS {
        let number = whole.number_at(index);
        if touched[index].0 != number || !is_new_at(sources, rows, number) {
            return false;
        }
    }
    true
}

/// A block of which all is news to a client at the first of these prefixes, if that is known.
fn whole_at(
    sources: &Sources<'_>,
    rows: &Rows,
    touched: &[(u32, Prefix)],
    known: &mut Known<'_>,
) -> Result<Option<Whole>, AllocError>
    requires server { AreOfOneServer sources.now }
    requires some { 0 < length touched.now }
    ensures many { IfOk result (λ found. IfSome found (λ whole. length (news_within whole) ≤ length touched.now)) }
    ensures free { IfOk result (λ found. IfSome found (λ whole. AreFree rows.now.rows.items (news_within whole))) }
    ensures decided { (speech : Speech) → AreKnown (held_by sources.now) sources.now.ins.now sources.now.client speech known.old → (old : List Change) → IfOk result (λ found. IfSome found (λ whole. AreDecidedAt sources.now.ins.now (due_to (held_by sources.now) sources.now.client speech) rows.now.rows.items (keys_of (take (length (news_within whole)) touched.now)) old (old ++ map change_of (news_within whole)))) }
    ensures rest { known.new ≡ record known.old { next = known.new.next; next_whole = known.new.next_whole } }
{
    let Some(whole) = known.find_whole(sources, touched[0].0) else {
        return Ok(None);
    };
    if are_first_new(sources, rows, whole, touched) {
        Ok(Some(whole.copy()?))
    } else {
        Ok(None)
    }
}

/// What is news to a client at a number whose row is free, by the tables.
fn news_by_tables<'a>(
    sources: &Sources<'a>,
    speech: Speech,
    number: u32,
    draft: &mut Draft<'a>,
) -> Result<Option<News>, AllocError>
    requires server { AreOfOneServer sources.now }
    requires choices { AreChoices (held_by sources.now) sources.now.ins.now draft.old.choices.kept.items }
    requires memo { IsMemo sources.now.config.now sources.now.client draft.old.memo }
    ensures news { IfOk result (AreNewsAt sources.now.ins.now (due_to (held_by sources.now) sources.now.client speech) number) }
    ensures choices { OnOk result (AreChoices (held_by sources.now) sources.now.ins.now draft.new.choices.kept.items) }
    ensures memo { OnOk result (IsMemo sources.now.config.now sources.now.client draft.new.memo) }
{
    let Some(prefix) = sources.ins.prefix(number) else {
        return Ok(None);
    };
    let holders = sources.ins.at_number(number);
    match decide(sources, speech, number, &prefix, holders, draft)? {
        None => Ok(None),
        Some(passed) => Ok(Some(News {
            number,
            prefix,
            attrs: passed.own()?,
        })),
    }
}

/// What is news to a client at a number whose row is free, as it is known, or by the tables.
fn news_at<'a>(
    sources: &Sources<'a>,
    speech: Speech,
    number: u32,
    known: &mut Known<'_>,
    draft: &mut Draft<'a>,
) -> Result<Option<News>, AllocError>
    requires server { AreOfOneServer sources.now }
    requires known { AreKnown (held_by sources.now) sources.now.ins.now sources.now.client speech known.old }
    requires choices { AreChoices (held_by sources.now) sources.now.ins.now draft.old.choices.kept.items }
    requires memo { IsMemo sources.now.config.now sources.now.client draft.old.memo }
    ensures news { IfOk result (AreNewsAt sources.now.ins.now (due_to (held_by sources.now) sources.now.client speech) number) }
    ensures rest { known.new ≡ record known.old { next = known.new.next; next_whole = known.new.next_whole } }
    ensures choices { OnOk result (AreChoices (held_by sources.now) sources.now.ins.now draft.new.choices.kept.items) }
    ensures memo { OnOk result (IsMemo sources.now.config.now sources.now.client draft.new.memo) }
{
    if is_absent(sources, number)
        && let Some(change) = known.find(sources, number)
    {
        return News::of(change);
    }
    news_by_tables(sources, speech, number, draft)
}

/// Lists what is news to a client at the first of these prefixes, or at the first sixteen, where a block of them is known; and
/// answers at how many. It answers None where the client's row has something.
fn list_first<'a>(
    sources: &Sources<'a>,
    speech: Speech,
    rows: &Rows,
    touched: &[(u32, Prefix)],
    known: &mut Known<'_>,
    draft: &mut Draft<'a>,
    pieces: &mut Vec<Piece>,
) -> Result<Option<usize>, AllocError>
    requires touched { 0 < length touched.now }
    requires server { AreOfOneServer sources.now }
    requires known { AreKnown (held_by sources.now) sources.now.ins.now sources.now.client speech known.old }
    requires choices { AreChoices (held_by sources.now) sources.now.ins.now draft.old.choices.kept.items }
    requires memo { IsMemo sources.now.config.now sources.now.client draft.old.memo }
    ensures some { IfOk result (λ found. IfSome found (λ count. 0 < count)) }
    ensures many { IfOk result (λ found. IfSome found (λ count. count ≤ length touched.now)) }
    ensures free { IfOk result (λ found. IfSome found (λ count. AreFree rows.now.rows.items (news_in pieces.old.items) → AreFree rows.now.rows.items (news_in pieces.new.items))) }
    ensures decided { IfOk result (λ found. IfSome found (λ count. AreDecidedAt sources.now.ins.now (due_to (held_by sources.now) sources.now.client speech) rows.now.rows.items (keys_of (take count touched.now)) (changes_in pieces.old.items) (changes_in pieces.new.items))) }
    ensures rest { known.new ≡ record known.old { next = known.new.next; next_whole = known.new.next_whole } }
    ensures choices { OnOk result (AreChoices (held_by sources.now) sources.now.ins.now draft.new.choices.kept.items) }
    ensures memo { OnOk result (IsMemo sources.now.config.now sources.now.client draft.new.memo) }
{
    if let Some(whole) = whole_at(sources, rows, touched, known)? {
        let piece = Piece::Block(whole);
        let count = piece.len();
        pieces.push(piece)?;
        return Ok(Some(count));
    }
    let number = touched[0].0;
    if !is_free(rows, number) {
        return Ok(None);
    }
    let Some(news) = news_at(sources, speech, number, known, draft)? else {
        return Ok(Some(1));
    };
    pieces.push(Piece::One(news))?;
    Ok(Some(1))
}

/// What is news to a client at these prefixes, if its rows have nothing there: as it is known, and else by the tables.
pub(crate) fn news_to(
    alloc: Global,
    sources: &Sources<'_>,
    speech: Speech,
    rows: &Rows,
    touched: &[(u32, Prefix)],
    mut known: Known<'_>,
    choices: &mut Choices,
) -> Result<Option<Vec<Piece>>, AllocError>
    requires server { AreOfOneServer sources.now }
    requires known { AreKnown (held_by sources.now) sources.now.ins.now sources.now.client speech known }
    requires choices { AreChoices (held_by sources.now) sources.now.ins.now choices.old.kept.items }
    requires once { IsDistinct nat_eq (keys_of touched.now) }
    ensures free { IfOk result (λ found. IfSome found (λ pieces. AreFree rows.now.rows.items (news_in pieces.items))) }
    ensures decided { IfOk result (λ found. IfSome found (λ pieces. AreDecided sources.now.ins.now (due_to (held_by sources.now) sources.now.client speech) rows.now.rows.items (is_numbered_in touched.now) (changes_in pieces.items))) }
    ensures choices { AreChoices (held_by sources.now) sources.now.ins.now choices.new.kept.items }
{
    let mut draft = Draft::from_choices(alloc, choices);
    let mut pieces = Vec::new(alloc);
    let mut at = 0usize;
    while at < touched.len() {
        let Some(count) = list_first(
            sources,
            speech,
            rows,
            &touched[at..],
            &mut known,
            &mut draft,
            &mut pieces,
        )?
        else {
            *choices = draft.into_choices();
            return Ok(None);
        };
        at += count;
    }
    *choices = draft.into_choices();
    Ok(Some(pieces))
}
