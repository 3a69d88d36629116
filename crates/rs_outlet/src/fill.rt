//! `fill`, apart from its type, whose row its clause names.

ghost use Rattle.std.specs.Prelude.{◌≡◌};
ghost use Rattle.std.specs.Borrow.{sem};
ghost use Rattle.std.specs.Io.BufRead.{Rests};
ghost use Rattle.rs_outlet.specs.Message.Begun.{HasBegun};
ghost use Rattle.rs_outlet.specs.contracts.outlet.Outlet.{the_row};

use crate::outlet::Outlet;
use crate::written::Written;
use rs_adjin::AdjIns;

impl Outlet {
    /// Begins the next message where none is in flight, and lends what is left of it.
    pub fn fill(&mut self, ins: &AdjIns, written: &mut Written) -> &[u8]
        ensures* after { sem 𝓛 (Rests the_row self.entry (λ new. HasBegun self.old new × (result.now ≡ new.flight))) }
    {
        self.begin(ins, written);
        self.lent()
    }
}
