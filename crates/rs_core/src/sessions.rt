//! Messages of a client: what its session hears, and what it asks for.

ghost use Rattle.std.specs.Prelude.{◌≡◌, ◌<◌, ◌≤◌, ◌+◌, [], length, OnOk, OnErr};
ghost use Rattle.rs_octets.specs.Headers.{least_length};

use crate::endings::ending_by;
use crate::route_server::Core;
use rs_octets::Kind;
use rs_open::{AddressFamily, Short, read_open, read_refresh};
use rs_session::{Act, Heard};
use std::alloc::AllocError;

impl Core {
    ghost use Rattle.rs_core.specs.Core.{client_count};
    ghost use Rattle.rs_adjin.specs.AdjIns.{Begins};
    ghost use Rattle.rs_policy.specs.Configuration.{Configuration};
    ghost use Rattle.rs_core.specs.Session.Hearing.{Hearing, takes_in, without_change};
    ghost use Rattle.rs_core.specs.Run.Agreeing.{Knows, Spares};
    ghost use Rattle.rs_outlet.specs.Views.{View};
    ghost use Rattle.rs_core.specs.Ribs.{KeepsAnswers, TouchesOthersAtChange, outlet_in};
    ghost use Rattle.rs_core.specs.Told.Outlets.{IsFinished, LeavesOthersAlone, ActsOnOutlet};
    ghost use Rattle.rs_core.specs.Run.Parts.{AltersWithin, CutsShort, Follows, Hears, IsSpared, ActsOn, KeepsOwnTouches};

    /// Hears a whole message (RFC 4271, 4.2 to 4.5; ROUTE-REFRESH: RFC 2918, 3).
    pub(crate) fn hear_message(
        &mut self,
        c: usize,
        kind: Kind,
        body: &[u8],
    ) -> Result<(), AllocError>
        requires client { c < client_count self.old }
        requires body { least_length kind ≤ 19 + length body.now }
        ensures spares { Spares c self.old self.new }
        ensures buffers { self.new.buffers ≡ self.old.buffers }
        ensures heard { OnOk result (Hears kind body.now c self.old self.new) }
        ensures refused { OnErr result (CutsShort c self.old self.new) }
        ensures part { OnErr result (AltersWithin kind body.now c self.old self.new) }
        ensures others_touched { TouchesOthersAtChange c self.old.ribs self.new.ribs }
        ensures keeps { KeepsOwnTouches c self.old self.new }
    {
        match kind {
            Kind::Open => self.session_hears(c, Heard::Open(read_open(body))),
            Kind::Update => return self.hear_update(c, body),
            Kind::Note => self.session_hears_with(c, Heard::Note, body),
            Kind::Keepalive => self.session_hears(c, Heard::Keepalive),
            Kind::Refresh => {
                let AddressFamily { afi, safi } = read_refresh(body);
                self.session_hears(c, Heard::Refresh { afi, safi });
            }
        }
        Ok(())
    }

    /// The session hears this, and what it asks for is done.
    pub(crate) fn session_hears(&mut self, c: usize, heard: Heard)
        requires { c < client_count self.old }
        ensures spares { Spares c self.old self.new }
        ensures buffers { self.new.buffers ≡ self.old.buffers }
        ensures alone { (s : Configuration) (h : Hearing) → Knows self.old s c h → Knows self.new s c (takes_in s c (without_change heard) h) }
        ensures heard { (s : Configuration) (h next : Hearing) → Follows s c heard [] h next → Knows self.old s c h → Knows self.new s c next }
        ensures others_touched { TouchesOthersAtChange c self.old.ribs self.new.ribs }
        ensures keeps { KeepsOwnTouches c self.old self.new }
    {
        self.session_hears_with(c, heard, &[]);
    }

    /// The session hears this, which has this body where it is a NOTIFICATION, and what it asks for is
    /// done.
    fn session_hears_with(&mut self, c: usize, heard: Heard, body: &[u8])
        requires { c < client_count self.old }
        ensures spares { Spares c self.old self.new }
        ensures buffers { self.new.buffers ≡ self.old.buffers }
        ensures heard { (s : Configuration) (h next : Hearing) → Follows s c heard body.now h next → Knows self.old s c h → Knows self.new s c next }
        ensures others_touched { TouchesOthersAtChange c self.old.ribs self.new.ribs }
        ensures keeps { KeepsOwnTouches c self.old self.new }
    {
        let act = self.sessions[c].message(heard);
        self.watched[c].end(ending_by(body, act));
        self.act(c, act);
    }

    /// What a session asks for.
    pub(crate) fn act(&mut self, c: usize, act: Act)
        requires { c < client_count self.old }
        ensures count { client_count self.new ≡ client_count self.old }
        ensures sessions { self.new.sessions ≡ self.old.sessions }
        ensures buffers { self.new.buffers ≡ self.old.buffers }
        ensures watched { self.new.watched ≡ self.old.watched }
        ensures config { self.new.ribs.config ≡ self.old.ribs.config }
        ensures others { IsSpared c self.old.ribs.tables self.new.ribs.tables }
        ensures tables { ActsOn act c self.old.sessions.items self.old.ribs.tables self.new.ribs.tables }
        ensures others_alone { LeavesOthersAlone c self.old.ribs self.new.ribs }
        ensures own { (none : View) → ActsOnOutlet act self.old.ribs.extended c self.old.sessions.items (outlet_in self.old.ribs c none) (outlet_in self.new.ribs c none) }
        ensures others_touched { TouchesOthersAtChange c self.old.ribs self.new.ribs }
        ensures answers { KeepsAnswers self.old.ribs self.new.ribs }
    {
        match act {
            Act::None => {}
            Act::Say(_) => self.ribs.say_keepalive(c),
            Act::Up => self.come_up(c),
            Act::Down(note) => self.end(c, note),
            Act::Again => self.ribs.again(c),
        }
    }

    /// A client is Established.
    fn come_up(&mut self, c: usize)
        requires { c < client_count self.old }
        ensures count { client_count self.new ≡ client_count self.old }
        ensures sessions { self.new.sessions ≡ self.old.sessions }
        ensures buffers { self.new.buffers ≡ self.old.buffers }
        ensures watched { self.new.watched ≡ self.old.watched }
        ensures config { self.new.ribs.config ≡ self.old.ribs.config }
        ensures others { IsSpared c self.old.ribs.tables self.new.ribs.tables }
        ensures tables { ActsOn Act.Up c self.old.sessions.items self.old.ribs.tables self.new.ribs.tables }
        ensures others_alone { LeavesOthersAlone c self.old.ribs self.new.ribs }
        ensures own { (none : View) → ActsOnOutlet Act.Up self.old.ribs.extended c self.old.sessions.items (outlet_in self.old.ribs c none) (outlet_in self.new.ribs c none) }
        ensures others_touched { TouchesOthersAtChange c self.old.ribs self.new.ribs }
        ensures answers { KeepsAnswers self.old.ribs self.new.ribs }
    {
        let session = &self.sessions[c];
        let identifier = session.identifier();
        let limit = session.limit();
        if let Some(mode) = session.mode() {
            self.ribs.come_up(c, identifier, mode, limit);
        }
    }

    /// The session of a client has ended: the client's routes go at once.
    fn end(&mut self, c: usize, note: Option<Short>)
        requires { c < client_count self.old }
        ensures count { client_count self.new ≡ client_count self.old }
        ensures sessions { self.new.sessions ≡ self.old.sessions }
        ensures buffers { self.new.buffers ≡ self.old.buffers }
        ensures watched { self.new.watched ≡ self.old.watched }
        ensures config { self.new.ribs.config ≡ self.old.ribs.config }
        ensures held { Begins self.old.ribs.tables self.new.ribs.tables c 0 }
        ensures others_alone { LeavesOthersAlone c self.old.ribs self.new.ribs }
        ensures own { (none : View) → IsFinished note (outlet_in self.old.ribs c none) (outlet_in self.new.ribs c none) }
        ensures others_touched { TouchesOthersAtChange c self.old.ribs self.new.ribs }
        ensures answers { KeepsAnswers self.old.ribs self.new.ribs }
    {
        self.ribs.forget_routes(c);
        self.ribs.finish(c, note);
    }
}
