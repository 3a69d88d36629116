//! What clients announce and withdraw, and what goes with their sessions: the Adj-RIBs-In, and the
//! touches of all other clients' outlets.

ghost use Rattle.std.specs.Prelude.{◌≡◌, ◌<◌, true, Some, None, [], ◌∷◌, IfOk, OnOk, OnErr, if◌then◌else◌};
ghost use Rattle.std.specs.Arc.{arc_value};
ghost use Rattle.rs_adjin.specs.AdjIns as adj_ins;
ghost use Rattle.rs_adjin.specs.Mandatory.{HasMandatory};
ghost use Rattle.rs_open.specs.declared.short.Limit.TheVariants as limits;
ghost use Rattle.rs_outlet.specs.Views.{AreNumbered, begun};
ghost use Rattle.rs_core.specs.Touched.Touches.{IsTouchedAt, IsTouchedWhereHeld};

mod dropped;

use crate::adj_rib_in::dropped::DROPPED;
use crate::ribs::Ribs;
pub(crate) use dropped::Dropped;
use rs_adjin::{AdjIns, Shared};
use rs_attrs::{Attrs, Mode};
use rs_octets::Prefix;
use rs_open::Limit;
use rs_outlet::Outlet;
use rs_policy::import_note;
use std::alloc::AllocError;
use std::sync::Arc;

/// Touches all prefixes that a client holds for another, whose outlet this is. Nothing is left to touch
/// once all is.
fn touch_all_of(outlet: &mut Outlet, tables: &AdjIns, c: usize)
    requires { c < adj_ins.client_count tables.now }
    ensures client { outlet.new.client ≡ outlet.old.client }
    ensures extended { outlet.new.extended ≡ outlet.old.extended }
    ensures rest { outlet.new ≡ record outlet.old { touched = outlet.new.touched; stale = outlet.new.stale; numbers = outlet.new.numbers } }
    ensures touched { AreNumbered outlet.old tables.now → IsTouchedWhereHeld tables.now c outlet.old outlet.new }
    ensures numbered { AreNumbered outlet.old tables.now → AreNumbered outlet.new tables.now }
{
    let together = tables.count(c);
    for (prefix, number) in tables.held_by_number(c) {
        if outlet.is_all_touched() {
            return;
        }
        outlet.touch(number, prefix, together);
    }
}

impl Ribs {
    ghost use Rattle.rs_core.specs.Ribs.{ChangesAround, ChangesOthers, ChangesOwn, IsNumbered, KeepsFresh, KeepsSettings, TouchesChange, outlet_count};

    // ---- what a client announces

    /// The set of an UPDATE's attributes, which gets a number if it has none.
    pub(crate) fn share(&mut self, attrs: &Arc<Attrs>) -> Result<Shared, AllocError>
        ensures settings { KeepsSettings self.old self.new }
        ensures attrs { IfOk result (λ shared. arc_value shared.attrs ≡ arc_value attrs.now) }
        ensures tables { adj_ins.Same self.old.tables self.new.tables }
        ensures outlets { self.new.outlets ≡ self.old.outlets }
        ensures kept { KeepsFresh self.old self.new }
    {
        self.tables.share(attrs)
    }

    /// Gives up the number of a set, if no route has it.
    pub(crate) fn forget(&mut self, set: u32)
        ensures settings { KeepsSettings self.old self.new }
        ensures tables { adj_ins.Same self.old.tables self.new.tables }
        ensures outlets { self.new.outlets ≡ self.old.outlets }
        ensures kept { KeepsFresh self.old self.new }
    {
        self.tables.forget(set);
    }

    /// A client announces a route of an UPDATE, whose set of attributes has a number (`share`), and its
    /// import rules judge it at once. Where that changes what it has, the others are touched. Where memory is refused, the number that the prefix may have got is given up at once, but not while an outlet
    /// has a row of it or prefixes that are touched by themselves: then the sweep gives it up.
    #[tactic(auto, using(crate::proofs::Run::Noting::noted_put))]
    pub(crate) fn announce(
        &mut self,
        c: usize,
        prefix: Prefix,
        attrs: &Arc<Attrs>,
        set: u32,
    ) -> Result<(), AllocError>
        requires client { c < outlet_count self.old }
        requires mandatory { HasMandatory (arc_value attrs.now) }
        ensures settings { KeepsSettings self.old self.new }
        ensures held { OnOk result (adj_ins.Sets self.old.tables self.new.tables c prefix (Some (arc_value attrs.now))) }
        ensures refused { OnErr result (adj_ins.Same self.old.tables self.new.tables) }
        ensures touched { IsNumbered self.old → TouchesChange c prefix self.old self.new }
        ensures kept { KeepsFresh self.old self.new }
    {
        let number = self.tables.add(prefix)?;
        let was_dropped = self.drops(c, number);
        let note = import_note(&self.config, c, &prefix, attrs);
        match self.tables.put_at(c, number, attrs, note, set) {
            Ok(changed) => {
                self.dropped.note(c, was_dropped, note == DROPPED);
                if changed {
                    self.touch_others(c, number, prefix);
                }
                Ok(())
            }
            Err(refused) => {
                self.give_up(number);
                Err(refused)
            }
        }
    }

    /// A client withdraws its route. Where it had one, the others are touched.
    pub(crate) fn withdraw(&mut self, c: usize, prefix: Prefix)
        requires { c < outlet_count self.old }
        ensures settings { KeepsSettings self.old self.new }
        ensures held { adj_ins.Sets self.old.tables self.new.tables c prefix None }
        ensures touched { IsNumbered self.old → TouchesChange c prefix self.old self.new }
        ensures kept { KeepsFresh self.old self.new }
    {
        let Some(number) = self.tables.number(prefix) else {
            return;
        };
        let was_dropped = self.drops(c, number);
        if self.tables.withdraw_at(c, number) {
            self.dropped.note(c, was_dropped, false);
            self.unheld.list(&self.tables, number);
            self.touch_others(c, number, prefix);
        }
    }

    /// A client's import rules drop its route for the prefix of a number.
    fn drops(&self, c: usize, number: u32) -> bool {
        match self.tables.noted_at(c, number) {
            Some(holder) => holder.note == DROPPED,
            None => false,
        }
    }

    /// Touches a prefix for all clients but one.
    fn touch_others(&mut self, c: usize, number: u32, prefix: Prefix)
        requires { adj_ins.number_of self.old.tables prefix ≡ Some number }
        ensures settings { KeepsSettings self.old self.new }
        ensures tables { self.new.tables ≡ self.old.tables }
        ensures touched { IsNumbered self.old → ChangesOthers c (IsTouchedAt (prefix ∷ [])) self.old self.new }
        ensures numbered { IsNumbered self.old → IsNumbered self.new }
    {
        for d in 0..self.count {
            if d != c {
                self.touch(d, number, prefix);
            }
        }
    }

    /// Touches a prefix for one client.
    fn touch(&mut self, c: usize, number: u32, prefix: Prefix)
        requires client { c < outlet_count self.old }
        requires number { adj_ins.number_of self.old.tables prefix ≡ Some number }
        ensures settings { KeepsSettings self.old self.new }
        ensures tables { self.new.tables ≡ self.old.tables }
        ensures outlet { ChangesOwn c (λ v w. AreNumbered v self.old.tables → IsTouchedAt (prefix ∷ []) v w × AreNumbered w self.old.tables) self.old self.new }
    {
        let outlet = &mut self.outlets[c];
        outlet.touch(number, prefix, 1);
    }

    // ---- sessions begin and end

    /// A client is Established: it holds nothing, what it held is touched for the others, and all is
    /// to be decided for it.
    pub(crate) fn come_up(&mut self, c: usize, identifier: u32, mode: Mode, limit: Limit)
        requires { c < outlet_count self.old }
        ensures settings { KeepsSettings self.old self.new }
        ensures held { adj_ins.Begins self.old.tables self.new.tables c identifier }
        ensures outlet { IsNumbered self.old → ChangesAround c (λ v w. w ≡ begun (record { mode = mode; limit = if self.old.extended then limit else limits.Short }) v) (IsTouchedWhereHeld self.old.tables c) self.old self.new }
        ensures kept { KeepsFresh self.old self.new }
    {
        self.forget_routes(c);
        self.tables.begin(c, identifier);
        let limit = if self.extended { limit } else { Limit::Short };
        self.begin_session(c, mode, limit);
    }

    /// All routes that were learnt from a client go, and their prefixes are touched for the others.
    pub(crate) fn forget_routes(&mut self, c: usize)
        requires { c < outlet_count self.old }
        ensures settings { KeepsSettings self.old self.new }
        ensures held { adj_ins.Begins self.old.tables self.new.tables c 0 }
        ensures touched { IsNumbered self.old → ChangesOthers c (IsTouchedWhereHeld self.old.tables c) self.old self.new }
        ensures kept { KeepsFresh self.old self.new }
    {
        self.touch_held(c);
        self.unheld.list_held(&self.tables, c);
        self.dropped.clear(c);
        self.tables.begin(c, 0);
    }

    /// Touches all prefixes that a client holds for all others.
    fn touch_held(&mut self, c: usize)
        requires { c < outlet_count self.old }
        ensures settings { KeepsSettings self.old self.new }
        ensures tables { self.new.tables ≡ self.old.tables }
        ensures touched { IsNumbered self.old → ChangesOthers c (IsTouchedWhereHeld self.old.tables c) self.old self.new }
        ensures numbered { IsNumbered self.old → IsNumbered self.new }
    {
        for d in 0..self.count {
            if d != c {
                self.touch_held_for(c, d);
            }
        }
    }

    /// Touches all prefixes that one client holds for another.
    fn touch_held_for(&mut self, c: usize, d: usize)
        requires from { c < outlet_count self.old }
        requires to { d < outlet_count self.old }
        ensures settings { KeepsSettings self.old self.new }
        ensures tables { self.new.tables ≡ self.old.tables }
        ensures outlet { ChangesOwn d (λ v w. AreNumbered v self.old.tables → IsTouchedWhereHeld self.old.tables c v w × AreNumbered w self.old.tables) self.old self.new }
    {
        let outlet = &mut self.outlets[d];
        outlet.expect(self.tables.count(c));
        touch_all_of(outlet, &self.tables, c);
    }

    /// The outlet of a client begins a session.
    fn begin_session(&mut self, c: usize, mode: Mode, limit: Limit)
        requires client { c < outlet_count self.old }
        requires limit { limit ≡ limits.Long → self.old.extended ≡ true }
        ensures settings { KeepsSettings self.old self.new }
        ensures tables { self.new.tables ≡ self.old.tables }
        ensures outlet { ChangesOwn c (λ v w. w ≡ begun (record { mode = mode; limit = limit }) v) self.old self.new }
    {
        let outlet = &mut self.outlets[c];
        outlet.up(mode, limit);
    }
}
