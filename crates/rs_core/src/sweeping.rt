//! Numbers of prefixes that nobody holds or has in a row are given up, some after each turn, so that
//! a client that cycles prefixes makes no table grow for ever.

ghost use Rattle.std.specs.Prelude.{◌≡◌, ◌<◌, ℕ, IsTrue};
ghost use Rattle.rs_adjin.specs.AdjIns as adj_ins;
ghost use Rattle.rs_outlet.specs.Views.{View};
ghost use Rattle.rs_outlet.specs.Inside.{IsNoNumberOf};

mod unheld;

use crate::ribs::Ribs;
pub(crate) use unheld::Unheld;

/// How many numbers of prefixes are swept after a turn at most.
pub(crate) const SWEEP: usize = 4096;

impl Ribs {
    ghost use Rattle.rs_core.specs.Ribs.{KeepsFresh, KeepsSettings, outlet_count, outlet_in};

    /// Gives up some of the numbers of prefixes that nobody holds or has in a row, if there are any that nobody holds.
    pub(crate) fn sweep(&mut self)
        ensures settings { KeepsSettings self.old self.new }
        ensures tables { adj_ins.Same self.old.tables self.new.tables }
        ensures outlets { self.new.outlets ≡ self.old.outlets }
        ensures kept { KeepsFresh self.old self.new }
    {
        for _step in 0..self.tables.numbers().min(SWEEP) {
            if !self.tables.has_unheld() {
                return;
            }
            self.sweep_next();
        }
    }

    /// Sweeps the next number.
    fn sweep_next(&mut self)
        ensures settings { KeepsSettings self.old self.new }
        ensures tables { adj_ins.Same self.old.tables self.new.tables }
        ensures outlets { self.new.outlets ≡ self.old.outlets }
        ensures kept { KeepsFresh self.old self.new }
    {
        let number = self.unheld.next(&self.tables);
        self.give_up(number);
    }

    /// Gives up the number of a prefix that nobody holds or has in a row. One that no prefix has is passed over before any
    /// outlet is asked.
    pub(crate) fn give_up(&mut self, number: u32)
        ensures settings { KeepsSettings self.old self.new }
        ensures tables { adj_ins.Same self.old.tables self.new.tables }
        ensures outlets { self.new.outlets ≡ self.old.outlets }
        ensures kept { KeepsFresh self.old self.new }
    {
        let is_given = self.tables.prefix(number).is_some();
        if is_given && self.tables.at_number(number).is_empty() && self.is_unused(number) {
            self.tables.release(number);
        }
    }

    /// Whether no outlet has a row of this number or is touched there.
    fn is_unused(&self, number: u32) -> bool
        ensures { IsTrue result → (c : ℕ) (none : View) → c < outlet_count self.now → IsNoNumberOf number (outlet_in self.now c none).numbers }
    {
        self.outlets.iter().all(|outlet| outlet.is_free(number))
    }
}
