//! The touched prefixes: a list, and a mark for all.
//!
//! A touch is added at the end, even where its prefix is there already. A full list is put in
//! the order of the numbers and has each prefix once from then on. Where these are more than 4,096,
//! all are touched; but only those listed are stale, and the list gets room for twice as many. So
//! a touch costs a push and a few steps of a sort, whichever prefixes a member chooses.

ghost use Rattle.std.specs.Prelude.{◌≡◌, ◌↔◌, ◌⊎◌, ◌≤◌, ◌<◌, [], None, Some, true, false, length, nat_lt, vec_len, is_none, IsTrue, IfOk, IfSome};
ghost use Rattle.std.specs.FinSet as set;
ghost use Rattle.std.specs.Vec.{vec_capacity};
ghost use Rattle.rs_adjin.specs.declared.adj_ins.AdjIns.{AdjIns};
ghost use Rattle.rs_adjin.specs.AdjIns.{number_of};
ghost use Rattle.rs_outlet.specs.Views.{HaveNumbers, Prefixes, is_whole, with_touch};
ghost use Rattle.rs_outlet.specs.Decided.Touching.{AreOnce, MayAdd, stale_of, touched_of};

use crate::ordered::{Ordered, put_in_order};
use rs_octets::Prefix;
use std::alloc::{AllocError, Global};

/// How many prefixes are touched one by one.
pub(crate) const TOUCHED_MAX: usize = 4096;

/// How many touches are listed without more memory. A list in order with no more prefixes than are
/// touched one by one has room for 1,024 more.
const LISTED_MAX: usize = 5120;

/// The prefixes that may be stale: all, or those listed. These are touched by themselves where they
/// are at most 4,096. A turn goes by their numbers; the prefix beside each is there for contracts,
/// which speak of prefixes.
#[derive(Drop)]
pub(crate) struct Touched {
    prefixes: Vec<(u32, Prefix)>,
    all: bool,
    ghost room: { 5120 ≤ vec_capacity prefixes },
}

impl Touched {
    pub(crate) fn new(alloc: Global) -> Result<Touched, AllocError>
        ensures prefixes { IfOk result (λ touched. touched.prefixes.items ≡ []) }
        ensures all { IfOk result (λ touched. touched.all ≡ false) }
    {
        Ok(Touched {
            prefixes: Vec::with_capacity(alloc, LISTED_MAX)?,
            all: false,
        })
    }

    /// Lists nothing, and gives back what a long list took.
    fn empty(&mut self)
        ensures prefixes { self.new.prefixes.items ≡ [] }
        ensures all { self.new.all ≡ self.old.all }
    {
        self.prefixes.clear();
        self.prefixes.shrink_to(LISTED_MAX);
    }

    pub(crate) fn clear(&mut self)
        ensures prefixes { self.new.prefixes.items ≡ [] }
        ensures all { self.new.all ≡ false }
    {
        self.empty();
        self.all = false;
    }

    pub(crate) fn add_all(&mut self)
        ensures prefixes { self.new.prefixes.items ≡ [] }
        ensures all { self.new.all ≡ true }
    {
        self.empty();
        self.all = true;
    }

    /// Adds a prefix, which has this number. Where more than 4,096 are listed, no more than `most`
    /// are: else all may be stale, as where memory is refused.
    #[inline(always)]
    pub(crate) fn add(&mut self, number: u32, prefix: Prefix, most: usize)
        ensures touched { (ins : AdjIns) → HaveNumbers self.old.prefixes.items ins → touched_of self.new.all self.new.prefixes.items ≡ with_touch (touched_of self.old.all self.old.prefixes.items) prefix }
        ensures stale { (ins : AdjIns) → HaveNumbers self.old.prefixes.items ins → MayAdd prefix (stale_of self.old.all self.old.prefixes.items) (stale_of self.new.all self.new.prefixes.items) }
        ensures numbered { (ins : AdjIns) → HaveNumbers self.old.prefixes.items ins → number_of ins prefix ≡ Some number → HaveNumbers self.new.prefixes.items ins }
    {
        self.make_room(most);
        if self.all {
            return;
        }
        self.prefixes.push_reserved((number, prefix));
    }

    /// Makes room for so many touches at once, where these are no more than `most`. Where memory is refused, it is made as
    /// they come.
    pub(crate) fn expect(&mut self, together: usize, most: usize)
        ensures prefixes { self.new.prefixes.items ≡ self.old.prefixes.items }
        ensures all { self.new.all ≡ self.old.all }
    {
        if !self.all && together <= most {
            let _ = self.prefixes.reserve(together);
        }
    }

    /// Makes room for one more, if there is none.
    #[inline(always)]
    fn make_room(&mut self, most: usize)
        ensures room { vec_len self.new.prefixes < vec_capacity self.new.prefixes }
        ensures touched { (ins : AdjIns) → HaveNumbers self.old.prefixes.items ins → touched_of self.new.all self.new.prefixes.items ≡ touched_of self.old.all self.old.prefixes.items }
        ensures stale { (ins : AdjIns) → HaveNumbers self.old.prefixes.items ins → (stale_of self.new.all self.new.prefixes.items ≡ stale_of self.old.all self.old.prefixes.items) ⊎ (stale_of self.new.all self.new.prefixes.items ≡ None) }
        ensures numbered { (ins : AdjIns) → HaveNumbers self.old.prefixes.items ins → HaveNumbers self.new.prefixes.items ins }
    {
        if self.prefixes.len() < self.prefixes.capacity() {
            return;
        }
        self.make_more_room(most);
    }

    /// Puts a full list in order, and makes room where it is long still.
    #[inline(never)]
    fn make_more_room(&mut self, most: usize)
        ensures room { vec_len self.new.prefixes < vec_capacity self.new.prefixes }
        ensures touched { (ins : AdjIns) → HaveNumbers self.old.prefixes.items ins → touched_of self.new.all self.new.prefixes.items ≡ touched_of self.old.all self.old.prefixes.items }
        ensures stale { (ins : AdjIns) → HaveNumbers self.old.prefixes.items ins → (stale_of self.new.all self.new.prefixes.items ≡ stale_of self.old.all self.old.prefixes.items) ⊎ (stale_of self.new.all self.new.prefixes.items ≡ None) }
        ensures numbered { (ins : AdjIns) → HaveNumbers self.old.prefixes.items ins → HaveNumbers self.new.prefixes.items ins }
    {
        let capacity = self.prefixes.capacity();
        put_in_order(&mut self.prefixes);
        if self.prefixes.len() > capacity / 5 * 4 {
            self.lengthen(most);
        }
    }

    /// Makes room for twice as many prefixes, where they are more than 4,096 and in order. Where these
    /// are more than `most`, or memory is refused, all may be stale.
    fn lengthen(&mut self, most: usize)
        requires many { 4096 < vec_len self.old.prefixes }
        ensures room { vec_len self.new.prefixes < vec_capacity self.new.prefixes }
        ensures kept { ((self.new.all ≡ self.old.all) × (self.new.prefixes.items ≡ self.old.prefixes.items)) ⊎ ((self.new.all ≡ true) × (self.new.prefixes.items ≡ [])) }
    {
        let len = self.prefixes.len();
        if len > most {
            self.add_all();
            return;
        }
        let Ok(()) = self.prefixes.reserve(len) else {
            self.add_all();
            return;
        };
    }

    /// Whether all is touched.
    pub(crate) fn is_all(&self) -> bool
        ensures { result ≡ self.now.all }
    {
        self.all
    }

    pub(crate) fn is_empty(&self) -> bool
        ensures { IsTrue result ↔ touched_of self.now.all self.now.prefixes.items ≡ Some set.empty }
    {
        if self.all {
            return false;
        }
        self.prefixes.is_empty()
    }

    /// Whether no prefix is listed.
    pub(crate) fn lists_none(&self) -> bool
        ensures { IsTrue result ↔ self.now.prefixes.items ≡ [] }
    {
        self.prefixes.is_empty()
    }

    /// What is stale, in the order of the numbers; `None` where all may be.
    pub(crate) fn list(
        &self,
        alloc: Global,
        ordered: &mut Ordered,
    ) -> Result<Option<Vec<(u32, Prefix)>>, AllocError>
        ensures all { IfOk result (λ listed. is_none listed ≡ self.now.all) }
        ensures once { IfOk result (λ listed. IfSome listed (λ list. AreOnce self.now.prefixes.items list.items)) }
        ensures whole { (ins : AdjIns) → HaveNumbers self.now.prefixes.items ins → IfOk result (λ listed. IfSome listed (λ list. is_whole (touched_of self.now.all self.now.prefixes.items) ≡ nat_lt 4096 (length list.items))) }
        ensures count { (ins : AdjIns) → HaveNumbers self.now.prefixes.items ins → IfOk result (λ listed. IfSome listed (λ list. (prefixes : Prefixes) → touched_of self.now.all self.now.prefixes.items ≡ Some prefixes → length list.items ≡ set.len prefixes)) }
    {
        if self.all {
            return Ok(None);
        }
        let list = ordered.in_order(alloc, &self.prefixes)?;
        Ok(Some(list))
    }
}
