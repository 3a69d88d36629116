//! What is news to several clients, in pieces: one by one, or all of a block of rows.

ghost use Rattle.std.specs.Prelude.{◌≡◌, ◌<◌, ◌≤◌, ◌+◌, ◌/◌, ◌++◌, ℕ, [], Option, Some, true, nat_eq, map, length, take, vec_len, IfOk, IfSome, OnOk};
ghost use Rattle.std.specs.Ordering.{eq_by_cmp};
ghost use Rattle.rs_octets.specs.Prefixes.{prefix_order};
ghost use Rattle.rs_outlet.specs.Pending.CarriedOut.{AreCarriedOut};
ghost use Rattle.rs_outlet.specs.Pending.Owed.{prefixes_of};
ghost use Rattle.rs_outlet.specs.Pending.Slots.{open_count, withdrawn_count};
ghost use Rattle.std.specs.List.{AllByRecursion, IsDistinct};
ghost use Rattle.std.specs.Vec.{vec_capacity};
ghost use Rattle.rs_rows.specs.Rows.{IsPrepared};
ghost use Rattle.rs_outlet.specs.Inside.{AreBelow, numbers_of};
ghost use Rattle.rs_outlet.specs.Decided.News.{AreFree, change_of, seen, slot_of, written};
ghost use Rattle.rs_outlet.specs.Decided.Plans.{HasRows, IsOutside, changes_in, news_in, news_of};

use crate::beside::Beside;
use crate::changes::Change;
use crate::filled::{Whole, place_filled};
use crate::news::News;
use crate::table::Rows;
use crate::waiting::{Sorting, Wait, Waits};
use rs_rows::ROWS;
use std::alloc::{AllocError, Global};

/// News at one number, or at all of a block.
#[derive(Drop)]
pub(crate) enum Piece {
    One(News),
    Block(Whole),
}

impl Piece {
    /// How many news it has.
    pub(crate) fn len(&self) -> usize
        ensures { result ≡ length (news_of self.now) }
    {
        match self {
            Piece::One(_) => 1,
            Piece::Block(_) => ROWS,
        }
    }
}

/// Lists news, each as one piece.
fn list_each(news: Vec<News>, pieces: &mut Vec<Piece>) -> Result<(), AllocError>
    ensures { OnOk result (news_in pieces.new.items ≡ news_in pieces.old.items ++ news.items) }
{
    for one in news {
        pieces.push(Piece::One(one))?;
    }
    Ok(())
}

/// Lists news: as one piece where they fill a block, which may be one that lies beside, else each as one.
pub(crate) fn list_news(
    alloc: Global,
    news: Vec<News>,
    beside: &Beside,
    pieces: &mut Vec<Piece>,
) -> Result<(), AllocError>
    ensures { OnOk result (map seen (changes_in pieces.new.items) ≡ map seen (changes_in pieces.old.items ++ map change_of news.items)) }
{
    let Some(place) = place_filled(&news) else {
        list_each(news, pieces)?;
        return Ok(());
    };
    let whole = Whole::with(alloc, place, &news, beside.at(place))?;
    pieces.push(Piece::Block(whole))?;
    Ok(())
}

/// How many news pieces have; none where they are too many to be counted.
pub(crate) fn count(pieces: &[Piece]) -> Option<usize>
    ensures { IfSome result (λ count. count ≡ length (news_in pieces.now)) }
{
    let mut count = 0usize;
    for piece in pieces {
        count = count.checked_add(piece.len())?;
    }
    Some(count)
}

/// Prepares the row of a piece, if it is not written with its block.
fn prepare_one(rows: &mut Rows, piece: &Piece) -> Result<(), AllocError>
    requires { AreBelow (map change_of (news_of piece.now)) (length rows.old.rows.items) }
    ensures rows { rows.new.rows.items ≡ rows.old.rows.items }
    ensures used { rows.new.used ≡ rows.old.used }
    ensures kept { (n : ℕ) → IsPrepared rows.old.rows.prepared n → IsPrepared rows.new.rows.prepared n }
    ensures prepared { OnOk result (HasRows rows.new.rows piece.now) }
{
    match piece {
        Piece::One(news) => rows.prepare(news.number, false),
        Piece::Block(_) => Ok(()),
    }
}

/// Prepares the rows of pieces, but for those that are written with their block.
pub(crate) fn prepare(rows: &mut Rows, pieces: &[Piece]) -> Result<(), AllocError>
    requires { AreBelow (changes_in pieces.now) (length rows.old.rows.items) }
    ensures rows { rows.new.rows.items ≡ rows.old.rows.items }
    ensures used { rows.new.used ≡ rows.old.used }
    ensures prepared { OnOk result (AllByRecursion (HasRows rows.new.rows) pieces.now) }
{
    for piece in pieces {
        prepare_one(rows, piece)?;
    }
    Ok(())
}

/// Carries out a piece: the rows have what is due, and it waits.
fn put_piece(rows: &mut Rows, fresh: &mut Vec<Wait>, piece: Piece)
    requires rows { HasRows rows.old.rows piece }
    requires free { AreFree rows.old.rows.items (news_of piece) }
    requires room { vec_len fresh.old + length (news_of piece) ≤ vec_capacity fresh.old }
    ensures rows { rows.new.rows.items ≡ written (news_of piece) rows.old.rows.items }
    ensures room { length rows.new.rows.items ≡ length rows.old.rows.items }
    ensures kept { (m : ℕ) → IsOutside piece m → IsPrepared rows.old.rows.prepared m → IsPrepared rows.new.rows.prepared m }
    ensures used { rows.new.used ≡ rows.old.used + length (news_of piece) }
    ensures fresh { fresh.new.items ≡ fresh.old.items ++ map slot_of (news_of piece) }
    ensures capacity { vec_capacity fresh.new ≡ vec_capacity fresh.old }
{
    match piece {
        Piece::One(news) => {
            fresh.push_reserved(news.slot());
            let News {
                number,
                prefix,
                attrs,
            } = news;
            rows.put(number, prefix, attrs);
        }
        Piece::Block(whole) => {
            whole.list_slots(fresh);
            rows.put_block(whole);
        }
    }
}

/// Carries out pieces, for which there is room, in free rows.
fn put_pieces(rows: &mut Rows, fresh: &mut Vec<Wait>, pieces: Vec<Piece>)
    requires rows { AllByRecursion (HasRows rows.old.rows) pieces.items }
    requires free { AreFree rows.old.rows.items (news_in pieces.items) }
    requires numbers { IsDistinct nat_eq (numbers_of (changes_in pieces.items)) }
    requires room { vec_len fresh.old + length (news_in pieces.items) ≤ vec_capacity fresh.old }
    ensures rows { rows.new.rows.items ≡ written (news_in pieces.items) rows.old.rows.items }
    ensures used { rows.new.used ≡ rows.old.used + length (news_in pieces.items) }
    ensures fresh { fresh.new.items ≡ fresh.old.items ++ map slot_of (news_in pieces.items) }
{
    for piece in pieces {
        put_piece(rows, fresh, piece);
    }
}

/// Carries out pieces, for which there is room, in free rows and where nothing waits. Without one all stays as it is.
pub(crate) fn commit(
    rows: &mut Rows,
    waits: &mut Waits,
    pieces: Vec<Piece>,
    mut fresh: Vec<Wait>,
    sorting: &mut Sorting,
)
    requires rows { AllByRecursion (HasRows rows.old.rows) pieces.items }
    requires once { IsDistinct (eq_by_cmp prefix_order) (prefixes_of (changes_in pieces.items)) }
    requires numbers { IsDistinct nat_eq (numbers_of (changes_in pieces.items)) }
    requires idle { nat_eq (open_count waits.old.slots.items) 0 ≡ true }
    requires free { AreFree rows.old.rows.items (news_in pieces.items) }
    requires none { fresh.items ≡ [] }
    requires fresh { length (changes_in pieces.items) ≤ vec_capacity fresh }
    requires waits { open_count waits.old.slots.items + length (changes_in pieces.items) ≤ vec_capacity waits.old.slots }
    requires all { rows.old.used + withdrawn_count waits.old.slots.items + length (changes_in pieces.items) ≤ vec_capacity waits.old.slots }
    ensures done { AreCarriedOut (changes_in pieces.items) rows.old waits.old rows.new waits.new }
    ensures none { pieces.items ≡ [] → (rows.new ≡ rows.old) × (waits.new ≡ waits.old) }
{
    if pieces.is_empty() {
        return;
    }
    put_pieces(rows, &mut fresh, pieces);
    waits.add(fresh, sorting);
}
