//! What a caller can ask of a route server.

ghost use Rattle.std.specs.Prelude.{ℕ, Some, ◌≡◌, ◌==◌, ◌&&◌, ◌<◌, ◌≤◌, T, true, false, List, [], ◌∷◌, length, IfSome, IsTrue};
ghost use Rattle.std.specs.FinMap.{find, is_sorted};
ghost use Rattle.rs_octets.specs.Prefixes.{Prefix, prefix_order};
ghost use Rattle.rs_adjin.specs.AdjIns.{is_held, number_of};
ghost use Rattle.rs_adjin.specs.Listing.{Counts};

use crate::endings::{Ending, FaultedUpdates};
use crate::route_server::Core;
use rs_attrs::Mode;
use rs_open::Limit;
use rs_outlet::{Last, Routes};
use rs_session::State;

/// Whether a session in this state is Established.
fn is_up(state: State) -> bool
    ensures { result ≡ is_up state }
{
    match state {
        State::Established => true,
        State::Idle | State::OpenSent | State::OpenConfirm | State::Closing => false,
    }
}

/// Whether a session in this state has ended, and its connection has not.
fn is_closing(state: State) -> bool
    ensures { result ≡ is_closing state }
{
    match state {
        State::Closing => true,
        State::Idle | State::OpenSent | State::OpenConfirm | State::Established => false,
    }
}

ghost use Rattle.rs_core.specs.Session.Hearing.{is_up, is_closing};

impl Core {
    ghost use Rattle.rs_core.specs.Core.{client_count, loc_rib, is_refusal, is_refused, last_of, lent_octets, owed, is_decided};
    ghost use Rattle.rs_core.specs.Run.Moves.{Move, config_in};
    ghost use Rattle.rs_core.specs.Session.Hearing.{Hearing, session_in, state_in, hold_in, mode_in, limit_in, ending_in, faulted_updates_in};
    ghost use Rattle.rs_core.specs.Run.Meaning.{hearing, is_established, is_ended_at, EndsSome, IsServed};
    ghost use Rattle.rs_session.specs.Sessions.{ends_at};
    ghost use Rattle.rs_core.specs.Run.Agreeing.{Agrees, Knows};
    ghost use Rattle.rs_core.specs.Told.InTurn.{IsAnswered};
    ghost use Rattle.rs_core.specs.Owed.Sending.{HasLent};
    ghost use Rattle.rs_policy.specs.Configuration.{Configuration};
    ghost use Rattle.rs_policy.specs.Rules.{client_named};

    /// How many clients there are.
    pub fn clients(&self) -> usize
        ensures count { result ≡ client_count self.now }
        ensures configured { (run : List Move) → Agrees self.now run → result ≡ length (config_in run).clients }
        ensures few { result ≤ 512 }
    {
        self.ribs.config.clients()
    }

    /// The client of this name.
    pub fn place(&self, name: &str) -> Option<usize>
        ensures within { IfSome result (λ c. c < client_count self.now) }
        ensures named { (run : List Move) → Agrees self.now run → result ≡ client_named (config_in run).clients name.now }
    {
        self.ribs.config.place(name)
    }

    /// Whether a client is Established.
    pub fn is_established(&self, c: usize) -> bool
        requires { c < client_count self.now }
        ensures { (run : List Move) → Agrees self.now run → result ≡ is_established run c }
    {
        self.is_up(c)
    }

    /// The same, by what was heard of the client alone.
    pub(crate) fn is_up(&self, c: usize) -> bool
        requires { c < client_count self.now }
        ensures { (s : Configuration) (h : Hearing) → Knows self.now s c h → result ≡ is_up (state_in s c h) }
    {
        is_up(self.sessions[c].state())
    }

    /// How many octets AS numbers have on the session of a client that is Established.
    pub fn mode(&self, c: usize) -> Option<Mode>
        requires { c < client_count self.now }
        ensures { (run : List Move) → Agrees self.now run → result ≡ mode_in (config_in run) c (hearing c run) }
    {
        self.mode_heard(c)
    }

    /// The same, by what was heard of the client alone.
    pub(crate) fn mode_heard(&self, c: usize) -> Option<Mode>
        requires { c < client_count self.now }
        ensures { (s : Configuration) (h : Hearing) → Knows self.now s c h → result ≡ mode_in s c h }
    {
        if self.is_up(c) {
            self.sessions[c].mode()
        } else {
            None
        }
    }

    /// How long a message to a client that is Established may be.
    pub fn limit(&self, c: usize) -> Option<Limit>
        requires { c < client_count self.now }
        ensures { (run : List Move) → Agrees self.now run → result ≡ limit_in (config_in run) c (hearing c run) }
    {
        if self.is_up(c) {
            Some(self.sessions[c].limit())
        } else {
            None
        }
    }

    /// The greatest moment that ends no session by its hold timer, should it be seen next (RFC 4271, 6.5);
    /// `u64::MAX` where none does. So a link that was kept from reading tells this moment first, hears
    /// who has something to say, and only then tells the time.
    pub fn quiet_until(&self) -> u64
        ensures quiet { (run : List Move) → Agrees self.now run → (t : ℕ) → t ≤ result → (c : ℕ) → c < client_count self.now → is_ended_at run c t ≡ false }
        ensures greatest { (run : List Move) → Agrees self.now run → (t : ℕ) → result < t → t ≤ 18446744073709551615 → EndsSome run (client_count self.now) t }
    {
        let mut until = u64::MAX;
        for c in 0..self.count {
            until = until.min(self.quiet_for(c));
        }
        until
    }

    /// The greatest moment that doesn't end the session of this client.
    fn quiet_for(&self, c: usize) -> u64
        requires { c < client_count self.now }
        ensures quiet { (s : Configuration) (h : Hearing) → Knows self.now s c h → (t : ℕ) → t ≤ result → ends_at (session_in s c) h.items t ≡ false }
        ensures greatest { (s : Configuration) (h : Hearing) → Knows self.now s c h → (t : ℕ) → result < t → t ≤ 18446744073709551615 → ends_at (session_in s c) h.items t ≡ true }
    {
        self.sessions[c].quiet_until()
    }

    /// The Hold Time used with a client that is Established, in seconds; 0 for none (RFC 4271, 4.2).
    pub fn hold(&self, c: usize) -> Option<u16>
        requires { c < client_count self.now }
        ensures { (run : List Move) → Agrees self.now run → result ≡ hold_in (config_in run) c (hearing c run) }
    {
        if self.is_up(c) {
            self.sessions[c].hold()
        } else {
            None
        }
    }

    /// Why the last session of a client that ended did so.
    pub fn ending(&self, c: usize) -> Option<Ending>
        requires { c < client_count self.now }
        ensures { (run : List Move) → Agrees self.now run → result ≡ ending_in (hearing c run) }
    {
        self.watched[c].ending
    }

    /// The UPDATEs of a client that were not taken as they came.
    pub fn faulted(&self, c: usize) -> FaultedUpdates
        requires { c < client_count self.now }
        ensures { (run : List Move) → Agrees self.now run → result ≡ faulted_updates_in (hearing c run) }
    {
        self.watched[c].faulted
    }

    /// How many rows the tables of prefixes have: a number above each that a prefix has. No program calls
    /// it: it is for whoever measures how far tables grow, as the test of a member that cycles prefixes.
    pub fn rows(&self) -> usize
        ensures { (p : Prefix) (n : ℕ) → number_of self.now.ribs.tables p ≡ Some n → n < result }
    {
        self.ribs.tables.numbers()
    }

    /// How many prefixes any client holds.
    pub fn prefixes(&self) -> usize
        ensures { Counts (is_held self.now.ribs.tables) result }
    {
        self.ribs.tables.held_prefixes()
    }

    /// The Loc-RIB of a client, by rising prefix: what was due to it at its last turn, and nothing where
    /// it is not Established.
    pub fn routes(&self, c: usize) -> Routes<'_>
        requires { c < client_count self.now }
        ensures rising { T (is_sorted prefix_order result) }
        ensures routes { (p : Prefix) → find prefix_order p result ≡ loc_rib self.now c p }
        ensures down { (run : List Move) → Agrees self.now run → is_established run c ≡ false → result ≡ [] }
    {
        let outlet = &self.ribs.outlets[c];
        outlet.routes(&self.ribs.tables)
    }

    /// The answer of a client's last turn.
    pub fn last(&self, c: usize) -> Last
        requires { c < client_count self.now }
        ensures last { result ≡ last_of self.now c }
        ensures refused { is_refusal result ≡ is_refused self.now c }
    {
        let outlet = &self.ribs.outlets[c];
        outlet.last()
    }

    /// Whether a client is Established and has got all that it is due.
    pub fn is_drained(&self, c: usize) -> bool
        requires { c < client_count self.now }
        ensures served { IsTrue result → (run : List Move) → Agrees self.now run → IsServed run c }
        ensures answered { IsTrue result → (run : List Move) → Agrees self.now run → IsAnswered run c }
        ensures exact { (run : List Move) → Agrees self.now run → result ≡ (is_established run c && (is_decided self.now c && (owed self.now c == 0))) }
    {
        let outlet = &self.ribs.outlets[c];
        outlet.is_drained()
    }

    /// How many prefixes wait to be sent to a client, for the operator: no contract says so.
    pub fn waiting(&self, c: usize) -> usize
        requires { c < client_count self.now }
    {
        let outlet = &self.ribs.outlets[c];
        outlet.waiting()
    }

    /// Whether the session of a client has ended, and its connection has not.
    pub(crate) fn is_closing(&self, c: usize) -> bool
        requires { c < client_count self.now }
        ensures { (run : List Move) → Agrees self.now run → result ≡ is_closing (state_in (config_in run) c (hearing c run)) }
    {
        is_closing(self.sessions[c].state())
    }

    /// Whether the session of a client has ended with nothing left to send.
    pub fn wants_close(&mut self, c: usize) -> bool
        requires { c < client_count self.old }
        ensures count { client_count self.new ≡ client_count self.old }
        ensures closing { (run : List Move) → Agrees self.old run → result ≡ (is_closing (state_in (config_in run) c (hearing c run)) && (length (lent_octets self.new c) == 0)) }
        ensures owing { (run : List Move) → Agrees self.old run → result ≡ (is_closing (state_in (config_in run) c (hearing c run)) && (owed self.old c == 0)) }
        ensures unchanged { (run : List Move) → Agrees self.old run → is_closing (state_in (config_in run) c (hearing c run)) ≡ false → self.new ≡ self.old }
        ensures lends { (run : List Move) → Agrees self.old run → is_closing (state_in (config_in run) c (hearing c run)) ≡ true → HasLent c self.old (lent_octets self.new c) self.new }
    {
        if !self.is_closing(c) {
            return false;
        }
        self.begin(c);
        self.lent(c).is_empty()
    }
}

impl Core {
    ghost use Rattle.rs_adjin.specs.AdjIns.{CountsSets};

    /// How many sets of attributes the routes of the Adj-RIBs-In have: equal attributes are one.
    pub fn attribute_sets(&self) -> usize
        ensures { CountsSets self.now.ribs.tables result }
    {
        self.ribs.tables.set_count()
    }
}
