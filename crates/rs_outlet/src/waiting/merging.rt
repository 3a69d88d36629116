//! Slots are added to what waits, and both of its parts become one: now and then as slots are added, and
//! before the first message.

ghost use Rattle.std.specs.Prelude.{◌≡◌, ◌≤◌, ◌+◌, ◌++◌, [], false, List, Option, take, vec_len};
ghost use Rattle.std.specs.List.Sorted.{IsStrictlySortedBy};
ghost use Rattle.std.specs.Vec.{vec_capacity};
ghost use Rattle.rs_octets.specs.Prefixes.{Prefix, prefix_order};
ghost use Rattle.rs_outlet.specs.Pending.Slots.{AreFresh, open_at, open_count, prefixes_at, still_open, withdrawn_count};
ghost use Rattle.rs_outlet.specs.Inside.{AreBacked, AreChained};
ghost use Rattle.rs_rows.specs.Rows.{Row};

use crate::table::Rows;
use crate::waiting::parts::{drop_shut, put_slots, sort_from, sort_like_others};
use crate::waiting::sorting::Sorting;
use crate::waiting::{Wait, Waits};
use rs_adjin::AdjIns;
use std::alloc::Global;
use std::mem;

/// Both parts become one where the late one's length squared is over so many times the first one's. So a
/// slot that is added costs a share of the merge that falls as the root of what waits.
const LATE: usize = 1000;

/// Where more slots than these were there, and none of them waits, their memory is given back.
const MANY: usize = 16_384;

/// Empties a vector, and puts fresh room of the same size in its place, which takes no memory before it
/// is written. Where that is refused, the old room stays.
fn renew<T: Drop>(alloc: Global, room: &mut Vec<T>)
    ensures items { room.new.items ≡ [] }
    ensures capacity { vec_capacity room.new ≡ vec_capacity room.old }
{
    room.clear();
    if let Ok(fresh) = Vec::with_capacity(alloc, room.capacity()) {
        *room = fresh;
    }
}

/// Drops the slots that wait no more, where so many wait.
fn keep_open(slots: &mut Vec<Wait>, waiting: usize)
    requires { open_count slots.old.items ≡ waiting }
    ensures items { slots.new.items ≡ still_open slots.old.items }
    ensures capacity { vec_capacity slots.new ≡ vec_capacity slots.old }
{
    if waiting == 0 {
        slots.clear();
        return;
    }
    drop_shut(slots);
}

impl Waits {
    /// Adds slots, for which there is room once those that wait no more are dropped. They are sorted as those of the outlets
    /// before, if they came in the same order.
    pub(crate) fn add(&mut self, more: Vec<Wait>, sorting: &mut Sorting)
        requires room { open_count self.old.slots.items + vec_len more ≤ vec_capacity self.old.slots }
        requires fresh { AreFresh self.old.slots.items more.items }
        ensures slots { (q : Prefix) → open_at q self.new.slots.items ≡ open_at q (self.old.slots.items ++ more.items) }
        ensures withdrawn { withdrawn_count self.new.slots.items ≤ withdrawn_count self.old.slots.items + withdrawn_count more.items }
        ensures capacity { vec_capacity self.old.slots ≤ vec_capacity self.new.slots }
        ensures chained { (rows : List (Option Row)) → AreChained rows (take self.old.sorted self.old.slots.items) self.old.chains.items → AreChained rows (take self.new.sorted self.new.slots.items) self.new.chains.items }
    {
        self.make_room(more.len());
        self.add_late(more, sorting);
    }

    /// Makes room for so many slots behind the others, and keeps the late part short.
    fn make_room(&mut self, more: usize)
        requires room { open_count self.old.slots.items + more ≤ vec_capacity self.old.slots }
        ensures room { vec_len self.new.slots + more ≤ vec_capacity self.new.slots }
        ensures slots { (q : Prefix) → open_at q self.new.slots.items ≡ open_at q self.old.slots.items }
        ensures withdrawn { withdrawn_count self.new.slots.items ≡ withdrawn_count self.old.slots.items }
        ensures capacity { vec_capacity self.new.slots ≡ vec_capacity self.old.slots }
        ensures chained { (rows : List (Option Row)) → AreChained rows (take self.old.sorted self.old.slots.items) self.old.chains.items → AreChained rows (take self.new.sorted self.new.slots.items) self.new.chains.items }
    {
        if !self.is_crowded(more) {
            return;
        }
        self.most = self.most.max(self.slots.len());
        self.merge(Some(self.alloc));
    }

    /// Drops the slots once none of them waits, so that nothing goes over them again. Where they were many, their
    /// memory is given back.
    pub(crate) fn shed(&mut self)
        ensures slots { (q : Prefix) → open_at q self.new.slots.items ≡ open_at q self.old.slots.items }
        ensures withdrawn { withdrawn_count self.new.slots.items ≡ withdrawn_count self.old.slots.items }
        ensures capacity { vec_capacity self.new.slots ≡ vec_capacity self.old.slots }
        ensures chained { (rows : List (Option Row)) → AreChained rows (take self.old.sorted self.old.slots.items) self.old.chains.items → AreChained rows (take self.new.sorted self.new.slots.items) self.new.chains.items }
    {
        if self.waiting > 0 {
            return;
        }
        self.eager = true;
        self.most = self.most.max(self.slots.len());
        self.merge(None);
        if self.most > MANY {
            self.give_back();
        }
    }

    /// The same where they are few.
    pub(crate) fn shed_few(&mut self)
        ensures slots { (q : Prefix) → open_at q self.new.slots.items ≡ open_at q self.old.slots.items }
        ensures withdrawn { withdrawn_count self.new.slots.items ≡ withdrawn_count self.old.slots.items }
        ensures capacity { vec_capacity self.new.slots ≡ vec_capacity self.old.slots }
        ensures chained { (rows : List (Option Row)) → AreChained rows (take self.old.sorted self.old.slots.items) self.old.chains.items → AreChained rows (take self.new.sorted self.new.slots.items) self.new.chains.items }
    {
        if self.slots.len() <= MANY {
            self.shed();
        }
    }

    /// Gives back the memory that slots took, where there are none. There is still room for as many.
    fn give_back(&mut self)
        ensures slots { self.new.slots.items ≡ self.old.slots.items }
        ensures chains { self.old.chains.items ≡ [] → self.new.chains.items ≡ [] }
        ensures capacity { vec_capacity self.new.slots ≡ vec_capacity self.old.slots }
    {
        if !self.slots.is_empty() {
            return;
        }
        self.most = 0;
        renew(self.alloc, &mut self.slots);
        renew(self.alloc, &mut self.chains);
        renew(self.alloc, &mut self.order);
    }

    /// Whether one part is to be made before so many slots are added: there is no room behind the
    /// slots, nothing waits, or the late part is long beside the first.
    fn is_crowded(&self, more: usize) -> bool
        ensures { result ≡ false → vec_len self.now.slots + more ≤ vec_capacity self.now.slots }
    {
        if self.slots.capacity() - self.slots.len() < more {
            return true;
        }
        let late = self.slots.len() - self.sorted;
        self.waiting == 0 || self.sorted.saturating_mul(LATE) < late.saturating_mul(late)
    }

    /// How much room is made for so many slots that are to be added: where they are many and there are no others, as much as
    /// there is for these, so that they can take their place. What is not written of it takes no memory.
    pub(crate) fn room_for(&self, more: usize) -> usize
        ensures { more ≤ result }
    {
        if self.slots.is_empty() && more > MANY {
            more.max(self.slots.capacity())
        } else {
            more
        }
    }

    /// Adds slots to the late part, for which there is room. The first part and its chains stay.
    fn add_late(&mut self, more: Vec<Wait>, sorting: &mut Sorting)
        requires room { vec_len self.old.slots + vec_len more ≤ vec_capacity self.old.slots }
        requires fresh { AreFresh self.old.slots.items more.items }
        ensures slots { (q : Prefix) → open_at q self.new.slots.items ≡ open_at q (self.old.slots.items ++ more.items) }
        ensures withdrawn { withdrawn_count self.new.slots.items ≤ withdrawn_count self.old.slots.items + withdrawn_count more.items }
        ensures capacity { vec_capacity self.old.slots ≤ vec_capacity self.new.slots }
        ensures chained { (rows : List (Option Row)) → AreChained rows (take self.old.sorted self.old.slots.items) self.old.chains.items → AreChained rows (take self.new.sorted self.new.slots.items) self.new.chains.items }
    {
        let count = more.len();
        put_slots(&mut self.slots, self.sorted, more);
        sort_like_others(sorting, &mut self.slots, self.sorted);
        self.waiting += count;
    }

    /// Makes one part of both, without the slots that wait no more. A buffer for it is asked for where
    /// there is an allocator.
    fn merge(&mut self, buffers: Option<Global>)
        ensures slots { (q : Prefix) → open_at q self.new.slots.items ≡ open_at q self.old.slots.items }
        ensures rises { IsStrictlySortedBy prefix_order (prefixes_at self.new.slots.items) }
        ensures one { self.new.sorted ≡ vec_len self.new.slots }
        ensures len { vec_len self.new.slots ≡ open_count self.old.slots.items }
        ensures withdrawn { withdrawn_count self.new.slots.items ≡ withdrawn_count self.old.slots.items }
        ensures capacity { vec_capacity self.new.slots ≡ vec_capacity self.old.slots }
        ensures chains { self.new.chains.items ≡ [] }
    {
        keep_open(&mut self.slots, self.waiting);
        sort_from(buffers, &mut self.slots, 0);
        self.sorted = self.slots.len();
        self.ready = false;
        self.chains.clear();
        self.exact = self.exact && !self.slots.is_empty();
        self.walked = 0;
        self.gone = 0;
        self.news = 0;
    }

    /// Makes one part of both, if there is a late one. A buffer for it is asked for where there is an
    /// allocator.
    pub(crate) fn make_one_part(&mut self, buffers: Option<Global>)
        ensures slots { (q : Prefix) → open_at q self.new.slots.items ≡ open_at q self.old.slots.items }
        ensures rises { IsStrictlySortedBy prefix_order (prefixes_at self.new.slots.items) }
        ensures one { self.new.sorted ≡ vec_len self.new.slots }
        ensures withdrawn { withdrawn_count self.new.slots.items ≡ withdrawn_count self.old.slots.items }
        ensures capacity { vec_capacity self.new.slots ≡ vec_capacity self.old.slots }
        ensures chains { self.old.chains.items ≡ [] → self.new.chains.items ≡ [] }
    {
        if self.sorted == self.slots.len() {
            return;
        }
        if self.sorted == 0 {
            self.raise_late();
            return;
        }
        self.merge(buffers);
    }

    /// The late part becomes the first one, of which there is none.
    fn raise_late(&mut self)
        requires { self.old.sorted ≡ 0 }
        ensures slots { self.new.slots.items ≡ self.old.slots.items }
        ensures rises { IsStrictlySortedBy prefix_order (prefixes_at self.new.slots.items) }
        ensures one { self.new.sorted ≡ vec_len self.new.slots }
        ensures capacity { vec_capacity self.new.slots ≡ vec_capacity self.old.slots }
        ensures chains { self.new.chains.items ≡ [] }
    {
        self.sorted = self.slots.len();
        self.ready = false;
        self.chains.clear();
        self.walked = 0;
        self.gone = 0;
        self.news = 0;
    }

    /// Makes one part of the slots for a first message, and answers whether they are to be chained before it.
    fn begin_first(&mut self) -> bool
        ensures chains { self.new.chains.items ≡ [] }
        ensures slots { (q : Prefix) → open_at q self.new.slots.items ≡ open_at q self.old.slots.items }
        ensures withdrawn { withdrawn_count self.new.slots.items ≡ withdrawn_count self.old.slots.items }
        ensures capacity { vec_capacity self.new.slots ≡ vec_capacity self.old.slots }
    {
        self.make_one_part(None);
        self.chains.clear();
        self.ready = true;
        mem::replace(&mut self.eager, false)
    }

    /// Chains the slots of the first part, if they aren't chained and nothing is to be withdrawn.
    fn chain_news(&mut self, rows: &Rows, ins: &AdjIns)
        requires chained { AreChained rows.now.rows.items (take self.old.sorted self.old.slots.items) self.old.chains.items }
        ensures chained { AreChained rows.now.rows.items (take self.new.sorted self.new.slots.items) self.new.chains.items }
        ensures slots { self.new.slots.items ≡ self.old.slots.items }
        ensures capacity { vec_capacity self.new.slots ≡ vec_capacity self.old.slots }
    {
        if self.chains.is_empty() && self.first_withdrawn().is_none() {
            self.chain(rows, ins);
        }
    }

    /// Makes the slots ready for a message: for the first one they are one part. That is chained for the second one, or for
    /// the first of a client that took all before, once nothing is to be withdrawn, and stays so while others are added to the
    /// late part. Where nothing waits they stay as they are. It takes no memory.
    pub(crate) fn prepare(&mut self, rows: &Rows, ins: &AdjIns)
        requires backed { AreBacked rows.now.rows.items self.old.slots.items }
        requires chained { AreChained rows.now.rows.items (take self.old.sorted self.old.slots.items) self.old.chains.items }
        ensures chained { AreChained rows.now.rows.items (take self.new.sorted self.new.slots.items) self.new.chains.items }
        ensures slots { (q : Prefix) → open_at q self.new.slots.items ≡ open_at q self.old.slots.items }
        ensures withdrawn { withdrawn_count self.new.slots.items ≡ withdrawn_count self.old.slots.items }
        ensures capacity { vec_capacity self.new.slots ≡ vec_capacity self.old.slots }
    {
        if self.waiting == 0 {
            return;
        }
        if self.ready {
            self.chain_news(rows, ins);
        } else if self.begin_first() {
            self.chain_news(rows, ins);
        }
    }
}
