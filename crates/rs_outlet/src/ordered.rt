//! Touches in the order of their numbers, each once, and how those of the outlets before were put so: most outlets are
//! touched alike. It is there only to save time: whatever is kept, touches are in order.

ghost use Rattle.std.specs.Prelude.{◌≡◌, [], nat_eq, IfOk, IsTrue};
ghost use Rattle.std.specs.List.{IsDistinct};
ghost use Rattle.std.specs.Map.{keys_of};
ghost use Rattle.std.specs.Vec.{vec_capacity};
ghost use Rattle.std.proofs.Props.{props};
ghost use Rattle.rs_outlet.specs.Decided.Touching.{AreOnce};

use rs_octets::Prefix;
use std::alloc::{AllocError, Global};

/// The most touches that outlets had which did not come in order, and these in order.
#[derive(Drop)]
pub(crate) struct Ordered {
    came: Vec<(u32, Prefix)>,
    touches: Vec<(u32, Prefix)>,
    ghost once: { AreOnce came.items touches.items } by { Prim.hlevel props },
}

impl Ordered {
    /// Nothing was put in order yet.
    pub(crate) fn new(alloc: Global) -> Ordered {
        Ordered {
            came: Vec::new(alloc),
            touches: Vec::new(alloc),
        }
    }

    /// Keeps how touches were put in order, where they are more than those of which that is kept, and there is memory for it.
    fn learn(&mut self, alloc: Global, came: &[(u32, Prefix)], touches: &[(u32, Prefix)])
        requires { AreOnce came.now touches.now }
    {
        if came.len() <= self.came.len() {
            return;
        }
        let Ok(came) = Vec::from_slice(alloc, came) else {
            return;
        };
        let Ok(touches) = Vec::from_slice(alloc, touches) else {
            return;
        };
        *self = Ordered { came, touches };
    }

    /// These touches in order.
    pub(crate) fn in_order(
        &mut self,
        alloc: Global,
        touches: &[(u32, Prefix)],
    ) -> Result<Vec<(u32, Prefix)>, AllocError>
        ensures { IfOk result (λ list. AreOnce touches.now list.items) }
    {
        if are_same(&self.came, touches) {
            return Vec::from_slice(alloc, &self.touches);
        }
        let mut list = Vec::from_slice(alloc, touches)?;
        if do_rise(touches) {
            return Ok(list);
        }
        put_in_order(&mut list);
        self.learn(alloc, touches, &list);
        Ok(list)
    }
}

/// Whether these are the same touches, in the same order.
fn are_same(some: &[(u32, Prefix)], others: &[(u32, Prefix)]) -> bool
    ensures { IsTrue result → some.now ≡ others.now }
{
    if some.len() != others.len() {
        return false;
    }
    for place in 0..some.len() {
        if some[place] != others[place] {
            return false;
        }
    }
    true
}

/// Whether each number is greater than the one before it: most touches come so.
fn do_rise(touches: &[(u32, Prefix)]) -> bool
    ensures { IsTrue result → IsDistinct nat_eq (keys_of touches.now) }
{
    for index in 1..touches.len() {
        if touches[index].0 <= touches[index - 1].0 {
            return false;
        }
    }
    true
}

/// Puts touches in the order of their numbers. A number that was touched several times is left once.
pub(crate) fn put_in_order(touches: &mut Vec<(u32, Prefix)>)
    ensures once { AreOnce touches.old.items touches.new.items }
    ensures capacity { vec_capacity touches.new ≡ vec_capacity touches.old }
{
    if do_rise(touches) {
        return;
    }
    touches.sort_unstable_by_key(|touch| touch.0);
    touches.dedup_by_key(|touch| touch.0);
}
