//! What is asked of an outlet. None of these calls changes it.

ghost use Rattle.std.specs.Prelude.{◌≡◌, ◌↔◌, option_map, IsTrue};
ghost use Rattle.std.specs.Arc.{arc_value};
ghost use Rattle.std.specs.FinMap as map;
ghost use Rattle.rs_adjin.specs.declared.adj_ins.AdjIns.{AdjIns};
ghost use Rattle.rs_adjin.specs.Onward.{is_from};
ghost use Rattle.rs_outlet.specs.Views.{AreNumbered, IsDrained, WaitsAreExact};
ghost use Rattle.rs_outlet.specs.Pending.Left.{HasNothingLeft};

use crate::answers::Last;
use crate::outlet::Outlet;
use crate::routes::Routes;
use rs_adjin::AdjIns;
use rs_attrs::Attrs;
use rs_octets::Prefix;
use std::sync::Arc;

impl Outlet {
    /// The place of its client among those of the configuration, as `new` was given it. Only tests ask
    /// for it: it is what they have to show of an outlet before its turn.
    pub fn client(&self) -> usize
        ensures { result ≡ self.now.client }
    {
        self.client
    }

    /// The answer of the last turn.
    pub fn last(&self) -> Last
        ensures { result ≡ self.now.last }
    {
        self.last
    }

    /// What is left of the message in flight.
    pub fn lent(&self) -> &[u8]
        ensures { result.now ≡ self.now.flight }
    {
        &self.octets[self.start..self.end]
    }

    /// Whether nothing is left to do.
    pub fn is_drained(&self) -> bool
        ensures drained { IsTrue result → IsDrained self.now }
        ensures exact { WaitsAreExact self.now → (IsTrue result ↔ IsDrained self.now) }
        ensures left { IsTrue result ↔ HasNothingLeft self.now }
    {
        if self.speech.is_none() {
            return false;
        }
        if !self.touched.is_empty() {
            return false;
        }
        if self.start < self.end {
            return false;
        }
        if self.keepalive_due {
            return false;
        }
        self.waits.len() == 0
    }

    /// The route of the Loc-RIB for a prefix.
    pub fn route(&self, prefix: &Prefix, ins: &AdjIns) -> Option<&Arc<Attrs>>
        ensures { AreNumbered self.now ins.now → option_map (λ attrs. arc_value attrs.now) result ≡ map.get self.now.loc prefix.now }
    {
        match ins.number(*prefix) {
            None => None,
            Some(number) => self.rows.attrs(number),
        }
    }

    /// The routes of the Loc-RIB, by rising prefix.
    pub fn routes<'a>(&'a self, ins: &'a AdjIns) -> Routes<'a>
        ensures { AreNumbered self.now ins.now → result ≡ map.entries self.now.loc }
    {
        Routes::new(ins.iter(), &self.rows)
    }

    /// Of these the routes for prefixes that are not before one. The walk doesn't go over those before.
    pub fn routes_from<'a>(&'a self, ins: &'a AdjIns, from: Prefix) -> Routes<'a>
        ensures { AreNumbered self.now ins.now → result ≡ map.entries (map.retain_keys self.now.loc (is_from from)) }
    {
        Routes::new(ins.iter_from(from), &self.rows)
    }

    /// How many prefixes wait for a message; 0 just where none does.
    pub fn waiting(&self) -> usize
        ensures none { result ≡ 0 → self.now.waits ≡ map.empty }
        ensures some { self.now.waits ≡ map.empty → result ≡ 0 }
    {
        self.waits.len()
    }

    /// How many routes the Loc-RIB has.
    pub fn count(&self) -> usize
        ensures { (ins : AdjIns) → AreNumbered self.now ins → result ≡ map.len self.now.loc }
    {
        self.rows.used()
    }
}
