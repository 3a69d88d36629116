//! Connections come and are lost.

ghost use Rattle.std.specs.Prelude.{◌≡◌, ◌<◌};

use crate::endings::{Ending, ended_if};
use crate::route_server::Core;
use rs_open::ServerOpen;
use rs_policy::Config;
use rs_session::{Busy, State};

/// What the server's OPEN says.
fn server_open(config: &Config) -> ServerOpen
    ensures { result ≡ own_open config.now }
{
    ServerOpen {
        server_as: config.server_as(),
        hold: config.hold(),
        identifier: config.identifier(),
        multiprotocol: config.multiprotocol(),
        extended: config.extended(),
        refresh: config.refresh(),
    }
}

ghost use Rattle.std.specs.Prelude.{◌≢◌, ℕ, List, [], ◌∷◌, Some, slice_get, OnOk, OnErr};
ghost use Rattle.std.specs.Global.{Vec};
ghost use Rattle.rs_session.specs.Sessions.{is_live};
ghost use Rattle.rs_core.specs.Others.{KeepsOthers};
ghost use Rattle.rs_core.specs.Run.Moves.{Move, Came, Left, config_in};
ghost use Rattle.rs_core.specs.Session.Hearing.{Hearing, state_in, leaves};
ghost use Rattle.rs_core.specs.Run.Meaning.{hearing};
ghost use Rattle.rs_core.specs.Run.Agreeing.{Agrees, AgreesAt, Knows, IsCutShort, Spares};
ghost use Rattle.rs_core.specs.Owed.Sending.{LeavesOwed};
ghost use Rattle.rs_outlet.specs.Views.{View};
ghost use Rattle.rs_core.specs.Ribs.{KeepsAnswers, TouchesOthersAtChange, outlet_in};
ghost use Rattle.rs_core.specs.Touched.ByRun.{IsChangedBy, KeepsTouched, TouchesOthersWhere};
ghost use Rattle.rs_core.specs.Session.Conversations.{own_open};
ghost use Rattle.rs_core.specs.Told.Outlets.{IsGreeting, LeavesOthersAlone};
ghost use Rattle.rs_core.specs.Session.OperatorRecords.{IsWatched};
ghost use Rattle.rs_policy.specs.Configuration.{Configuration};

/// Whether a session in this state lasts.
fn lasts(state: State) -> bool
    ensures { result ≡ is_live state }
{
    match state {
        State::Idle | State::Closing => false,
        State::OpenSent | State::OpenConfirm | State::Established => true,
    }
}

impl Core {
    ghost use Rattle.rs_core.specs.Core.{client_count, lent_octets};
    ghost use Rattle.rs_open.specs.Writing.{server_open};

    /// A connection of a client has come: the server's OPEN is in flight. Where the client has a
    /// connection already, nothing changes.
    pub fn opened(&mut self, c: usize) -> Result<(), Busy>
        requires { c < client_count self.old }
        ensures count { client_count self.new ≡ client_count self.old }
        ensures came { OnOk result ((run : List Move) → Agrees self.old run → Agrees self.new (Came c ∷ run)) }
        ensures idle { OnOk result ((run : List Move) → Agrees self.old run → state_in (config_in run) c (hearing c run) ≡ State.Idle) }
        ensures greets { OnOk result ((run : List Move) → Agrees self.old run → lent_octets self.new c ≡ server_open (own_open (config_in run))) }
        ensures touched { OnOk result ((run : List Move) → Agrees self.old run → KeepsTouched run self.old self.new) }
        ensures unchanged { OnErr result (self.new ≡ self.old) }
        ensures busy { OnErr result ((run : List Move) → Agrees self.old run → state_in (config_in run) c (hearing c run) ≢ State.Idle) }
    {
        match self.sessions[c].opened() {
            Ok(_) => {
                self.greet(c);
                Ok(())
            }
            Err(busy) => Err(busy),
        }
    }

    /// The server's OPEN is in flight, and nothing else.
    fn greet(&mut self, c: usize)
        requires { c < client_count self.old }
        ensures count { client_count self.new ≡ client_count self.old }
        ensures sessions { self.new.sessions ≡ self.old.sessions }
        ensures config { self.new.ribs.config ≡ self.old.ribs.config }
        ensures tables { self.new.ribs.tables ≡ self.old.ribs.tables }
        ensures emptied { (x : Vec ℕ) → slice_get self.new.buffers.items c ≡ Some x → x.items ≡ [] }
        ensures others { KeepsOthers c self.old.buffers.items self.new.buffers.items }
        ensures watched { self.new.watched ≡ self.old.watched }
        ensures others_alone { LeavesOthersAlone c self.old.ribs self.new.ribs }
        ensures own { (none : View) → IsGreeting (own_open self.old.ribs.config) (outlet_in self.new.ribs c none) }
        ensures apart { (d : ℕ) (none : View) → d ≢ c → outlet_in self.new.ribs d none ≡ outlet_in self.old.ribs d none }
        ensures answers { KeepsAnswers self.old.ribs self.new.ribs }
    {
        let said = server_open(&self.ribs.config);
        self.pass_over(c);
        self.ribs.clear(c);
        self.ribs.say_open(c, &said);
    }

    /// Nothing of a message waits any more.
    fn pass_over(&mut self, c: usize)
        requires { c < client_count self.old }
        ensures count { client_count self.new ≡ client_count self.old }
        ensures sessions { self.new.sessions ≡ self.old.sessions }
        ensures ribs { self.new.ribs ≡ self.old.ribs }
        ensures watched { self.new.watched ≡ self.old.watched }
        ensures emptied { (x : Vec ℕ) → slice_get self.new.buffers.items c ≡ Some x → x.items ≡ [] }
        ensures others { KeepsOthers c self.old.buffers.items self.new.buffers.items }
    {
        let buffer = &mut self.buffers[c];
        buffer.clear();
    }

    /// A connection of a client is lost. The client's routes go at once. Where it has no connection,
    /// nothing changes.
    pub fn lost(&mut self, c: usize)
        requires { c < client_count self.old }
        ensures count { client_count self.new ≡ client_count self.old }
        ensures left { (run : List Move) → Agrees self.old run → Agrees self.new (Left c ∷ run) }
        ensures owes { LeavesOwed c self.old self.new }
        ensures touched { (run : List Move) → Agrees self.old run → TouchesOthersWhere (IsChangedBy (Left c) run c) c run self.old self.new }
        ensures idle { (run : List Move) → Agrees self.old run → state_in (config_in run) c (hearing c run) ≡ State.Idle → self.new ≡ self.old }
    {
        if matches!(self.state(c), State::Idle) {
            return;
        }
        let lasts = self.is_live(c);
        self.watched[c].end(ended_if(lasts, Ending::Lost));
        self.forget(c);
    }

    /// Resets a client whose state may be inconsistent; keeps only its operator record.
    pub(crate) fn forget(&mut self, c: usize)
        requires { c < client_count self.old }
        ensures spares { Spares c self.old self.new }
        ensures forgotten { (s : Configuration) (h : Hearing) (why : Ending) → IsCutShort self.old s c h
            → IsWatched self.old.watched.items c (leaves s c why h).endings (leaves s c why h).faults → AgreesAt self.new s c (leaves s c why h) }
        ensures others_touched { TouchesOthersAtChange c self.old.ribs self.new.ribs }
    {
        self.sessions[c].lost();
        self.pass_over(c);
        self.ribs.forget_routes(c);
        self.ribs.clear(c);
    }

    /// The state of a client's session.
    fn state(&self, c: usize) -> State
        requires { c < client_count self.now }
        ensures { (s : Configuration) (h : Hearing) → Knows self.now s c h → result ≡ state_in s c h }
    {
        self.sessions[c].state()
    }

    /// Whether the session of a client lasts.
    pub(crate) fn is_live(&self, c: usize) -> bool
        requires { c < client_count self.now }
        ensures { (s : Configuration) (h : Hearing) → Knows self.now s c h → result ≡ is_live (state_in s c h) }
    {
        lasts(self.sessions[c].state())
    }
}
