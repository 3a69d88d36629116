//! What the operator asks for: commands for a client's session, and another configuration.

ghost use Rattle.std.specs.Prelude.{◌≡◌, ◌<◌, false, List, ◌∷◌, OnOk, OnErr, IfErr};

use crate::endings::command_ending;
use crate::route_server::Core;
use rs_policy::RulesFault;
use rs_session::Command;

impl Core {
    ghost use Rattle.rs_core.specs.Core.{client_count};
    ghost use Rattle.rs_core.specs.Run.Moves.{Move, Commanded, config_in};
    ghost use Rattle.rs_core.specs.Session.Hearing.{Hearing, commanded, state_in};
    ghost use Rattle.rs_core.specs.Run.Meaning.{hearing};
    ghost use Rattle.rs_core.specs.Run.Agreeing.{Agrees, AgreesAt, IsRuled, Spares};
    ghost use Rattle.rs_core.specs.Ribs.{TouchesOthersAtChange};
    ghost use Rattle.rs_core.specs.Touched.ByRun.{IsChangedBy, TouchesAll, TouchesItself, TouchesOthersWhere};
    ghost use Rattle.rs_core.specs.Run.Parts.{KeepsOwnTouches};
    ghost use Rattle.rs_session.specs.Sessions.{is_live};
    ghost use Rattle.rs_policy.specs.Configuration.{Configuration};
    ghost use Rattle.rs_policy.specs.Replacing.{Refuses};

    /// The operator commands that a client's session ends (RFC 4486, 4), or that the client is told all
    /// its routes again. The routes of one that ends go at once. A session that does not last stays
    /// as it is.
    pub fn command(&mut self, c: usize, command: Command)
        requires { c < client_count self.old }
        ensures count { client_count self.new ≡ client_count self.old }
        ensures commanded { (run : List Move) → Agrees self.old run → Agrees self.new (Commanded c command ∷ run) }
        ensures touched { (run : List Move) → Agrees self.old run → TouchesOthersWhere (IsChangedBy (Commanded c command) run c) c run self.old self.new }
        ensures itself { (run : List Move) → Agrees self.old run → TouchesItself (Commanded c command) c run self.old self.new }
        ensures unheard { (run : List Move) → Agrees self.old run → is_live (state_in (config_in run) c (hearing c run)) ≡ false → self.new ≡ self.old }
    {
        if self.is_live(c) {
            self.obey(c, command);
        }
    }

    /// One client's session is given a command, and what it asks for is done.
    fn obey(&mut self, c: usize, command: Command)
        requires { c < client_count self.old }
        ensures spares { Spares c self.old self.new }
        ensures obeyed { (s : Configuration) (h : Hearing) → AgreesAt self.old s c h → AgreesAt self.new s c (commanded s c command h) }
        ensures others_touched { TouchesOthersAtChange c self.old.ribs self.new.ribs }
        ensures keeps { KeepsOwnTouches c self.old self.new }
    {
        let act = self.sessions[c].command(command);
        self.watched[c].end(command_ending(act));
        self.act(c, act);
    }

    /// Replaces the configuration by this text, or answers why it can't, and then nothing changes. All
    /// is decided anew at the next turn; no session ends.
    pub fn rules(&mut self, octets: &[u8]) -> Result<(), RulesFault>
        ensures count { client_count self.new ≡ client_count self.old }
        ensures accepted { OnOk result ((run : List Move) → Agrees self.old run → IsRuled octets.now self.new run) }
        ensures touched { OnOk result ((run : List Move) → Agrees self.old run → TouchesAll run self.new) }
        ensures refused { IfErr result (λ fault. (run : List Move) → Agrees self.old run → Refuses (config_in run) octets.now fault) }
        ensures unchanged { OnErr result (self.new ≡ self.old) }
    {
        let config = self.ribs.config.replacement(self.alloc, octets)?;
        self.ribs.replace(config);
        Ok(())
    }
}
