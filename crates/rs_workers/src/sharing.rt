//! Outlets that were turned share rows with their neighbours, where both have the same.

ghost use Rattle.std.specs.Prelude.{◌≡◌, ◌<◌, length};
ghost use Rattle.rs_adjin.specs.declared.adj_ins.AdjIns.{AdjIns};
ghost use Rattle.rs_outlet.specs.Decided.Due.{Held};
ghost use Rattle.rs_outlet.specs.Decided.Precedents.{IsHandover};

use rs_outlet::{Handover, Outlet};
use std::alloc::Global;

/// With how many outlets on each side one shares. A neighbour that announced a route itself isn't due it, and has other
/// rows there; the next one may have the same.
const NEAR: usize = 2;

/// An outlet takes over blocks of others, from one place on to before another.
fn adopt_from(outlet: &mut Outlet, others: &[Outlet], from: usize, end: usize)
    ensures { outlet.new ≡ outlet.old }
{
    for place in from..end {
        if let Some(other) = others.get(place) {
            outlet.adopt(other);
        }
    }
}

/// The outlet at a place takes over blocks of those before it.
fn adopt_before(outlets: &mut [Outlet], k: usize)
    requires { k < length outlets.old }
    ensures { outlets.new ≡ outlets.old }
{
    let (before, rest) = outlets.split_at_mut(k);
    adopt_from(&mut rest[0], before, k.saturating_sub(NEAR), k);
}

/// The outlet at a place takes over blocks of those behind it.
fn adopt_behind(outlets: &mut [Outlet], k: usize)
    requires { k < length outlets.old }
    ensures { outlets.new ≡ outlets.old }
{
    let (front, behind) = outlets.split_at_mut(k + 1);
    adopt_from(&mut front[k], behind, 0, NEAR);
}

/// The outlet at a place has one copy with its neighbours of rows that its turns wrote, where they have the same. It waits for a
/// turn that doesn't write far and wide, as a turn without anything to decide.
pub(crate) fn share_at(outlets: &mut [Outlet], k: usize)
    requires { k < length outlets.old }
    ensures { outlets.new ≡ outlets.old }
{
    if outlets[k].puts_off_sharing() {
        return;
    }
    adopt_before(outlets, k);
    adopt_behind(outlets, k);
    outlets[k].settle();
}

/// Whether an outlet has routes, most of which are due still: another may be due the same.
fn can_lend(outlet: &Outlet) -> bool {
    outlet.count() > 0 && !outlet.is_all_touched()
}

/// The place of the outlet nearest to one, before or behind it, that can lend its blocks.
fn lender_of(outlets: &[Outlet], k: usize) -> Option<usize> {
    for distance in 1..outlets.len() {
        for place in [k.saturating_sub(distance), k.saturating_add(distance)] {
            if place < outlets.len() && can_lend(&outlets[place]) {
                return Some(place);
            }
        }
    }
    None
}

/// Where all is decided anew for the outlet at a place, the nearest one that can lends its blocks; else none are lent.
pub(crate) fn lend_to(alloc: Global, outlets: &[Outlet], k: usize, handover: &mut Handover)
    requires { k < length outlets.now }
    ensures { (t : Held) (ins : AdjIns) → IsHandover t ins handover.old → IsHandover t ins handover.new }
{
    handover.take_back(alloc);
    if !outlets[k].is_all_touched() {
        return;
    }
    if let Some(place) = lender_of(outlets, k)
        && let Some(lender) = outlets.get(place)
    {
        lender.lend_blocks(handover);
    }
}
