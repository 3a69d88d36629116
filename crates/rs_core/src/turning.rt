//! Turns: what is touched is decided, for each client.

ghost use Rattle.std.specs.Prelude.{◌≡◌, ◌<◌, ◌≤◌, ◌+◌, length};
ghost use Rattle.rs_adjin.specs.AdjIns as adj_ins;
ghost use Rattle.rs_core.specs.Touched.Turns.{IsMarked, IsTurn, refused_in};
ghost use Rattle.rs_outlet.specs.Decided.Precedents.{IsHandover};
ghost use Rattle.rs_outlet.specs.Decided.HeldBy.{tables_of};
ghost use Rattle.rs_workers.specs.Turned.{AllTurnedAlone};

use crate::ribs::Ribs;
use crate::route_server::Core;
use rs_outlet::{Handover, Last, note_all};
use rs_policy::Config;
use rs_workers::{Gate, turn_all};
use std::sync::Wait;
use std::thread::Threads;

/// At how many clients memory was refused at the last turn, and how many others there are.
#[derive(Clone, Copy, Debug, PartialEq, Eq)]
pub struct Turns {
    pub done: usize,
    pub refused: usize,
}

impl Core {
    ghost use Rattle.rs_core.specs.Touched.TurnsOfAll.{HasTurnedAll};

    /// A turn of all clients, one after the other. Memory is refused only for those that are
    /// Established.
    pub fn turn(&mut self) -> Turns
        ensures { HasTurnedAll result self.old self.new }
    {
        self.ribs.turn();
        self.ribs.sweep();
        self.ribs.turns()
    }

    /// A turn of all clients by 1 to 16 workers. Memory is refused only for those that are
    /// Established.
    pub fn turn_with<R: Threads + Wait + Sync, G: Gate>(
        &mut self,
        rt: &R,
        workers: usize,
        gate: &G,
    ) -> Turns
        requires { (0 < workers) × (workers ≤ 16) }
        ensures { HasTurnedAll result self.old self.new }
    {
        self.ribs.turn_with(rt, workers, gate);
        self.ribs.sweep();
        self.ribs.turns()
    }
}

impl Ribs {
    ghost use Rattle.rs_core.specs.Ribs.{ChangesAll, ChangesOwn, IsNumbered, KeepsFresh, KeepsSettings, outlet_count};

    /// A turn of all clients, one after the other.
    pub(crate) fn turn(&mut self)
        ensures settings { KeepsSettings self.old self.new }
        ensures tables { self.new.tables ≡ self.old.tables }
        ensures turned { ChangesAll (λ c. IsTurn self.old.config self.old.tables) self.old self.new }
        ensures kept { KeepsFresh self.old self.new }
    {
        let mut handover = Handover::new(*self.outlets.allocator());
        for c in 0..self.count {
            self.turn_one(c, &mut handover);
        }
    }

    /// A turn of all clients by workers.
    fn turn_with<R: Threads + Wait + Sync, G: Gate>(&mut self, rt: &R, workers: usize, gate: &G)
        requires { (0 < workers) × (workers ≤ 16) }
        ensures settings { KeepsSettings self.old self.new }
        ensures tables { self.new.tables ≡ self.old.tables }
        ensures alone { AllTurnedAlone self.old.config self.old.tables self.old.outlets.items self.new.outlets.items }
        ensures turned { IsNumbered self.old → ChangesAll (λ c. IsTurn self.old.config self.old.tables) self.old self.new }
        ensures kept { KeepsFresh self.old self.new }
    {
        let alloc = *self.outlets.allocator();
        turn_all(
            rt,
            alloc,
            workers,
            &self.tables,
            &self.config,
            self.outlets.as_mut_slice(),
            gate,
        );
    }

    /// A turn of one client. Whether memory was refused stands in `last`.
    fn turn_one(&mut self, c: usize, handover: &mut Handover)
        requires c { c < outlet_count self.old }
        requires handover { IsHandover (tables_of self.old.config self.old.tables) self.old.tables handover.old }
        ensures settings { KeepsSettings self.old self.new }
        ensures tables { self.new.tables ≡ self.old.tables }
        ensures outlet { ChangesOwn c (IsTurn self.old.config self.old.tables) self.old self.new }
        ensures handover { IsHandover (tables_of self.old.config self.old.tables) self.old.tables handover.new }
    {
        let outlet = &mut self.outlets[c];
        let _ = outlet.turn(&self.tables, &self.config, handover);
    }

    /// The answers of the last turn.
    fn turns(&self) -> Turns
        ensures refused { result.refused ≡ refused_in self.now.outlets.items }
        ensures all { result.done + result.refused ≡ outlet_count self.now }
    {
        let mut turns = Turns {
            done: 0,
            refused: 0,
        };
        for outlet in self.outlets.iter() {
            match outlet.last() {
                Last::Refused => turns.refused = turns.refused.saturating_add(1),
                Last::Never | Last::Done(_) => turns.done = turns.done.saturating_add(1),
            }
        }
        turns
    }

    /// Another configuration: all is decided anew at the next turn.
    pub(crate) fn replace(&mut self, config: Config)
        requires clients { length config.clients ≡ outlet_count self.old }
        requires extended { config.top.extended ≡ self.old.extended }
        ensures count { outlet_count self.new ≡ outlet_count self.old }
        ensures extended { self.new.extended ≡ self.old.extended }
        ensures config { self.new.config ≡ config }
        ensures tables { adj_ins.Same self.old.tables self.new.tables }
        ensures touched { ChangesAll (λ c. IsMarked self.new.tables) self.old self.new }
        ensures kept { KeepsFresh self.old self.new }
    {
        self.rule_by(config);
        for c in 0..self.count {
            self.touch_all(c);
        }
    }

    /// Another configuration, whose import rules judge each route.
    fn rule_by(&mut self, config: Config)
        requires clients { length config.clients ≡ outlet_count self.old }
        requires extended { config.top.extended ≡ self.old.extended }
        ensures count { outlet_count self.new ≡ outlet_count self.old }
        ensures extended { self.new.extended ≡ self.old.extended }
        ensures config { self.new.config ≡ config }
        ensures tables { adj_ins.Same self.old.tables self.new.tables }
        ensures numbers { adj_ins.SameNumbers self.old.tables self.new.tables }
        ensures outlets { self.new.outlets ≡ self.old.outlets }
    {
        note_all(&mut self.tables, &config);
        self.dropped.count_all(&self.tables);
        self.config = config;
    }

    /// All is to be decided anew for one client.
    fn touch_all(&mut self, c: usize)
        requires { c < outlet_count self.old }
        ensures settings { KeepsSettings self.old self.new }
        ensures tables { self.new.tables ≡ self.old.tables }
        ensures outlet { ChangesOwn c (IsMarked self.old.tables) self.old self.new }
    {
        let outlet = &mut self.outlets[c];
        outlet.touch_all();
    }
}
