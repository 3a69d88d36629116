//! News that fill a block of rows: clients to which all of them are news have one block.

ghost use Rattle.std.specs.Prelude.{◌≡◌, ◌≤◌, ◌<◌, ◌+◌, ◌*◌, map, length, option_map, IfOk, IfSome, IsTrue};
ghost use Rattle.std.proofs.Props.{props};
ghost use Rattle.std.specs.Arc.{arc_value};
ghost use Rattle.rs_rows.specs.Places.{lent_row};
ghost use Rattle.rs_outlet.specs.Decided.News.{AreFrom, HaveRoutes, change_of, row_of, seen};

use crate::changes::Change;
use crate::news::{News, slot_for};
use crate::waiting::Wait;
use rs_rows::{Block, Lent, ROWS, lie_together};
use std::alloc::{AllocError, Global};
use std::sync::Arc;

/// A block of which all rows are news, for the rows of a client: these take it where nothing can be refused any more.
#[derive(Drop)]
pub(crate) struct Whole {
    pub(crate) place: u32,
    pub(crate) block: Arc<Block>,
    ghost full: { HaveRoutes (arc_value block).rows.items } by { Prim.hlevel props },
    ghost numbered: { place * 16 + 15 ≤ 4294967295 },
}

/// Whether a row has these news.
fn is_row_of(row: Option<&Lent<'_>>, news: &News) -> bool
    ensures { IsTrue result → option_map (λ row. lent_row row.now) row.entry ≡ row_of news.now }
{
    match row {
        Some(row) => row.prefix == news.prefix && *row.attrs == news.attrs,
        None => false,
    }
}

/// Whether the rows of a block have these news, one after the other.
fn has_rows_of(block: &Block, news: &[News]) -> bool
    requires { length news.now ≡ 16 }
    ensures { IsTrue result → block.now.rows.items ≡ map row_of news.now }
{
    for index in 0..ROWS {
        if !is_row_of(block.at(index).as_ref(), &news[index]) {
            return false;
        }
    }
    true
}

/// A block whose rows have these news, one after the other.
fn block_of(alloc: Global, news: &[News]) -> Result<Arc<Block>, AllocError>
    requires { length news.now ≡ 16 }
    ensures { IfOk result (λ block. (arc_value block).rows.items ≡ map row_of news.now) }
{
    let mut block = Block::free();
    for (index, one) in news.iter().enumerate() {
        block.put(index, one.prefix, one.attrs.clone()?);
    }
    Ok(Arc::new(alloc, block)?)
}

/// A block whose rows have these news: one that is `lent`, where it has just them, else a new one.
fn block_for(
    alloc: Global,
    news: &[News],
    lent: Option<&Arc<Block>>,
) -> Result<Arc<Block>, AllocError>
    requires { length news.now ≡ 16 }
    ensures { IfOk result (λ block. (arc_value block).rows.items ≡ map row_of news.now) }
{
    match lent {
        Some(block) if has_rows_of(block, news) => Ok(block.clone()?),
        _ => block_of(alloc, news),
    }
}

/// The place of the block that news fill: they are at all of its numbers, one after the other.
pub(crate) fn place_filled(news: &[News]) -> Option<u32>
    ensures full { IfSome result (λ place. length news.now ≡ 16) }
    ensures numbers { IfSome result (λ place. AreFrom (place * 16) news.now) }
    ensures most { IfSome result (λ place. place * 16 + 15 ≤ 4294967295) }
{
    if news.len() != ROWS {
        return None;
    }
    let place = news[0].number / ROWS as u32;
    for (index, one) in news.iter().enumerate() {
        if one.number / ROWS as u32 != place || one.number as usize % ROWS != index {
            return None;
        }
    }
    Some(place)
}

/// The news that changes are, which stay, if something is due at each.
fn copied_news(alloc: Global, changes: &[Change]) -> Result<Option<Vec<News>>, AllocError>
    ensures { IfOk result (λ made. IfSome made (λ news. map seen (map change_of news.items) ≡ map seen changes.now)) }
{
    let mut news = Vec::with_capacity(alloc, changes.len())?;
    for change in changes {
        let Some(one) = News::of(change)? else {
            return Ok(None);
        };
        news.push(one)?;
    }
    Ok(Some(news))
}

impl Whole {
    ghost use Rattle.rs_outlet.specs.Decided.Plans.{news_within};
    ghost use Rattle.rs_outlet.specs.Decided.News.{slot_of};
    ghost use Rattle.rs_outlet.specs.declared.news.News.{News};
    ghost use Rattle.std.specs.Prelude.{◌++◌, ◌∷◌, [], Some, slice_get, vec_len};
    ghost use Rattle.std.specs.Vec.{vec_capacity};

    /// News that fill the block of a place, for which a block may be `lent`.
    pub(crate) fn with(
        alloc: Global,
        place: u32,
        news: &[News],
        lent: Option<&Arc<Block>>,
    ) -> Result<Whole, AllocError>
        requires full { length news.now ≡ 16 }
        requires numbers { AreFrom (place * 16) news.now }
        requires most { place * 16 + 15 ≤ 4294967295 }
        ensures { IfOk result (λ whole. map seen (map change_of (news_within whole)) ≡ map seen (map change_of news.now)) }
    {
        let block = block_for(alloc, news, lent)?;
        Ok(Whole { place, block })
    }

    /// Sixteen changes, if they are at all numbers of a block, one after the other, and something is due at each.
    pub(crate) fn of(alloc: Global, changes: &[Change]) -> Result<Option<Whole>, AllocError>
        requires { length changes.now ≡ 16 }
        ensures { IfOk result (λ made. IfSome made (λ whole. map seen (map change_of (news_within whole)) ≡ map seen changes.now)) }
    {
        if !lie_together(changes[0].number, changes[ROWS - 1].number) {
            return Ok(None);
        }
        let Some(news) = copied_news(alloc, changes)? else {
            return Ok(None);
        };
        match place_filled(&news) {
            None => Ok(None),
            Some(place) => Ok(Some(Whole::with(alloc, place, &news, None)?)),
        }
    }

    /// The same once more, which shares the block.
    pub(crate) fn copy(&self) -> Result<Whole, AllocError>
        ensures { IfOk result (λ copy. news_within copy ≡ news_within self.now) }
    {
        Ok(Whole {
            place: self.place,
            block: self.block.clone()?,
        })
    }

    /// The number of the row at an index.
    pub(crate) fn number_at(&self, index: usize) -> u32
        requires { index < 16 }
        ensures { result ≡ self.now.place * 16 + index }
    {
        self.place * ROWS as u32 + index as u32
    }

    /// Lists the slot of the row at an index, for which there is room.
    fn list_slot(&self, index: usize, fresh: &mut Vec<Wait>)
        requires index { index < 16 }
        requires room { vec_len fresh.old < vec_capacity fresh.old }
        ensures items { (news : News) → slice_get (news_within self.now) index ≡ Some news → fresh.new.items ≡ fresh.old.items ++ slot_of news ∷ [] }
        ensures capacity { vec_capacity fresh.new ≡ vec_capacity fresh.old }
    {
        if let Some(row) = self.block.at(index) {
            fresh.push_reserved(slot_for(self.number_at(index), row.prefix, row.attrs));
        }
    }

    /// Lists the slots of all its rows, for which there is room.
    pub(crate) fn list_slots(&self, fresh: &mut Vec<Wait>)
        requires { vec_len fresh.old + 16 ≤ vec_capacity fresh.old }
        ensures items { fresh.new.items ≡ fresh.old.items ++ map slot_of (news_within self.now) }
        ensures capacity { vec_capacity fresh.new ≡ vec_capacity fresh.old }
    {
        for index in 0..ROWS {
            self.list_slot(index, fresh);
        }
    }
}
