//! The way of octets to a client.

ghost use Rattle.std.specs.Prelude.{◌≡◌, ◌<◌, ◌≤◌, List, ◌∷◌, length, take};
ghost use Rattle.std.specs.Borrow.{sem};
ghost use Rattle.std.specs.Io.BufRead.{Rests};

use crate::route_server::Core;

impl Core {
    ghost use Rattle.rs_core.specs.Core.{client_count, lent_octets};
    ghost use Rattle.rs_core.specs.Run.Moves.{Move, Began, Took};
    ghost use Rattle.rs_core.specs.Run.Agreeing.{Agrees};
    ghost use Rattle.rs_core.specs.Owed.Sending.{HasLent, OwesLess, OwesNoMore};
    ghost use Rattle.rs_core.specs.contracts.route_server.Core.{the_row};

    /// Begins the next message to a client where none is in flight.
    pub(crate) fn begin(&mut self, c: usize)
        requires { c < client_count self.old }
        ensures count { client_count self.new ≡ client_count self.old }
        ensures began { (run : List Move) → Agrees self.old run → Agrees self.new (Began c ∷ run) }
        ensures owes { OwesNoMore c self.old self.new }
    {
        self.ribs.begin(c);
    }

    /// What is left of the message in flight.
    pub(crate) fn lent(&self, c: usize) -> &[u8]
        requires { c < client_count self.now }
        ensures { result.now ≡ lent_octets self.now c }
    {
        let outlet = &self.ribs.outlets[c];
        outlet.lent()
    }

    /// Begins the next message to a client where none is in flight, and lends what is left of it.
    /// It lends nothing where there is no message to begin, and to a client that is Idle.
    pub fn writable(&mut self, c: usize) -> &[u8]
        requires { c < client_count self.old }
        ensures* after { sem 𝓛 (Rests the_row self.entry (λ new. HasLent c self.old result.now new)) }
    {
        self.begin(c);
        self.lent(c)
    }

    /// The link of a client took the first octets of what is lent.
    pub fn took(&mut self, c: usize, n: usize)
        requires client { c < client_count self.old }
        requires lent { n ≤ length (lent_octets self.old c) }
        ensures count { client_count self.new ≡ client_count self.old }
        ensures took { (run : List Move) → Agrees self.old run → Agrees self.new (Took c (take n (lent_octets self.old c)) ∷ run) }
        ensures owes { OwesLess c n self.old self.new }
    {
        self.ribs.took(c, n);
    }
}
