//! The outlet of one client, and what the others keep: each call is one of the client's outlet, and
//! changes nothing else.

ghost use Rattle.std.specs.Prelude.{◌≡◌, ◌<◌, ◌≤◌, true, length, drop};
ghost use Rattle.rs_open.specs.Writing.{server_open};
ghost use Rattle.rs_outlet.specs.Views.{cleared, finished};
ghost use Rattle.rs_core.specs.Touched.Touches.{IsAskedAgain};
ghost use Rattle.rs_outlet.specs.Message.Begun.{HasBegun};

use crate::ribs::Ribs;
use rs_open::{ServerOpen, Short};

impl Ribs {
    ghost use Rattle.rs_core.specs.Ribs.{ChangesOwn, KeepsFresh, KeepsSettings, lent_by, outlet_count};

    /// The server's OPEN is in flight to a client, in place of what was.
    pub(crate) fn say_open(&mut self, c: usize, said: &ServerOpen)
        requires { c < outlet_count self.old }
        ensures settings { KeepsSettings self.old self.new }
        ensures tables { self.new.tables ≡ self.old.tables }
        ensures outlet { ChangesOwn c (λ v w. w ≡ record v { flight = server_open said.now }) self.old self.new }
        ensures kept { KeepsFresh self.old self.new }
    {
        let outlet = &mut self.outlets[c];
        outlet.say_open(said);
    }

    /// Nothing is due to a client or in flight to it.
    pub(crate) fn clear(&mut self, c: usize)
        requires { c < outlet_count self.old }
        ensures settings { KeepsSettings self.old self.new }
        ensures tables { self.new.tables ≡ self.old.tables }
        ensures outlet { ChangesOwn c (λ v w. w ≡ cleared v) self.old self.new }
        ensures kept { KeepsFresh self.old self.new }
    {
        let outlet = &mut self.outlets[c];
        outlet.clear();
    }

    /// The session of a client has ended, with this NOTIFICATION or with none.
    pub(crate) fn finish(&mut self, c: usize, note: Option<Short>)
        requires { c < outlet_count self.old }
        ensures settings { KeepsSettings self.old self.new }
        ensures tables { self.new.tables ≡ self.old.tables }
        ensures outlet { ChangesOwn c (λ v w. w ≡ finished note v) self.old self.new }
        ensures kept { KeepsFresh self.old self.new }
    {
        let outlet = &mut self.outlets[c];
        outlet.finish(note);
    }

    /// A KEEPALIVE is due to a client.
    pub(crate) fn say_keepalive(&mut self, c: usize)
        requires { c < outlet_count self.old }
        ensures settings { KeepsSettings self.old self.new }
        ensures tables { self.new.tables ≡ self.old.tables }
        ensures outlet { ChangesOwn c (λ v w. w ≡ record v { keepalive_due = true }) self.old self.new }
        ensures kept { KeepsFresh self.old self.new }
    {
        let outlet = &mut self.outlets[c];
        outlet.say_keepalive();
    }

    /// A client asks for all routes again (RFC 2918, 4).
    pub(crate) fn again(&mut self, c: usize)
        requires { c < outlet_count self.old }
        ensures settings { KeepsSettings self.old self.new }
        ensures tables { self.new.tables ≡ self.old.tables }
        ensures outlet { ChangesOwn c IsAskedAgain self.old self.new }
        ensures kept { KeepsFresh self.old self.new }
    {
        let outlet = &mut self.outlets[c];
        outlet.again();
    }

    /// Begins the next message to a client where none is in flight.
    pub(crate) fn begin(&mut self, c: usize)
        requires { c < outlet_count self.old }
        ensures settings { KeepsSettings self.old self.new }
        ensures tables { self.new.tables ≡ self.old.tables }
        ensures outlet { ChangesOwn c HasBegun self.old self.new }
        ensures kept { KeepsFresh self.old self.new }
    {
        let outlet = &mut self.outlets[c];
        outlet.begin(&self.tables, &mut self.written);
    }

    /// The link of a client took the first octets of what is lent.
    pub(crate) fn took(&mut self, c: usize, n: usize)
        requires client { c < outlet_count self.old }
        requires lent { n ≤ length (lent_by self.old c) }
        ensures settings { KeepsSettings self.old self.new }
        ensures tables { self.new.tables ≡ self.old.tables }
        ensures outlet { ChangesOwn c (λ v w. w ≡ record v { flight = drop n v.flight }) self.old self.new }
        ensures kept { KeepsFresh self.old self.new }
    {
        let outlet = &mut self.outlets[c];
        outlet.took(n);
    }
}
