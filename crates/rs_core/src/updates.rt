//! UPDATEs: what they change in the Adj-RIBs-In, and whom that touches.

ghost use Rattle.std.specs.Prelude.{◌≡◌, ◌<◌, true, false, ◌∷◌, Some, None, is_some, is_none, option_map, MatchOption, OnOk, OnErr};
ghost use Rattle.std.specs.List.{IsDistinct};
ghost use Rattle.std.specs.Arc.{arc_value};
ghost use Rattle.rs_octets.specs.Prefixes.{Prefix};
ghost use Rattle.rs_attrs.specs.Effects.{Change, is_empty, same_prefix, has_prefix, HasMandatory};

use crate::endings::ending_by;
use crate::route_server::Core;
use rs_attrs::Attrs;
use rs_octets::{Kind, Notification, Prefix};
use rs_session::{Act, Heard};
use rs_update::{Outcome, effect};
use std::alloc::AllocError;
use std::sync::Arc;

impl Core {
    ghost use Rattle.rs_core.specs.Core.{client_count};
    ghost use Rattle.rs_policy.specs.Configuration.{Configuration, client_of};
    ghost use Rattle.rs_core.specs.Session.Hearing.{Hearing, state_in, is_up, reset_beyond};
    ghost use Rattle.rs_core.specs.Run.Agreeing.{Knows, Spares};
    ghost use Rattle.rs_core.specs.Ribs.{TouchesOthersAtChange};
    ghost use Rattle.rs_core.specs.Run.Parts.{AltersWithin, Changes, ChangesRoutes, ChangesWithin, CutsShort, HasOverlaid, HasOverlaidSome, Hears, IsAnnouncing, KeepsOwnTouches};

    /// Hears the UPDATE with this body.
    pub(crate) fn hear_update(&mut self, c: usize, body: &[u8]) -> Result<(), AllocError>
        requires { c < client_count self.old }
        ensures spares { Spares c self.old self.new }
        ensures buffers { self.new.buffers ≡ self.old.buffers }
        ensures heard { OnOk result (Hears Kind.Update body.now c self.old self.new) }
        ensures refused { OnErr result (CutsShort c self.old self.new) }
        ensures part { OnErr result (AltersWithin Kind.Update body.now c self.old self.new) }
        ensures others_touched { TouchesOthersAtChange c self.old.ribs self.new.ribs }
        ensures keeps { KeepsOwnTouches c self.old self.new }
    {
        let Some(mode) = self.mode_heard(c) else {
            self.session_hears(c, Heard::Update(None));
            return Ok(());
        };
        match effect(self.alloc, body, mode)? {
            Outcome::Reset(code, sub) => {
                self.session_hears(c, Heard::Update(Some((code, sub))));
                Ok(())
            }
            Outcome::Change {
                withdrawn,
                announced,
                attrs,
                faulted,
            } => {
                self.watched[c].note(faulted);
                if self.is_beyond(c, &withdrawn, &announced) {
                    // RFC 4486, 4
                    let reset = Notification::MaximumPrefixesReached;
                    self.session_hears(c, Heard::Update(Some((reset.code(), reset.sub()))));
                    return Ok(());
                }
                self.change(c, &withdrawn, &announced, attrs)
            }
        }
    }

    /// Whether a client would hold more prefixes than it may.
    fn is_beyond(&self, c: usize, withdrawn: &[Prefix], announced: &[Prefix]) -> bool
        requires client { c < client_count self.now }
        requires withdrawn { IsDistinct same_prefix withdrawn.now }
        requires announced { IsDistinct same_prefix announced.now }
        requires apart { (p : Prefix) → has_prefix p withdrawn.now ≡ true → has_prefix p announced.now ≡ false }
        ensures { (s : Configuration) (h : Hearing) (change : Change) → self.now.ribs.config ≡ s → is_up (state_in s c h) ≡ true → Knows self.now s c h
            → IsAnnouncing withdrawn.now announced.now change → result ≡ is_some (reset_beyond (client_of s c).limit (change ∷ h.changes)) }
    {
        match self.ribs.config.limit(c) {
            None => false,
            Some(limit) => self.ribs.tables.count_after(c, withdrawn, announced) > limit as usize,
        }
    }

    /// An UPDATE that changes routes.
    fn change(
        &mut self,
        c: usize,
        withdrawn: &[Prefix],
        announced: &[Prefix],
        attrs: Option<Arc<Attrs>>,
    ) -> Result<(), AllocError>
        requires client { c < client_count self.old }
        requires mandatory { MatchOption attrs (Unit {0}) (λ m. HasMandatory (arc_value m)) }
        requires attributes { is_none attrs ≡ is_empty announced.now }
        ensures spares { Spares c self.old self.new }
        ensures buffers { self.new.buffers ≡ self.old.buffers }
        ensures heard { OnOk result (Changes c withdrawn.now announced.now (option_map arc_value attrs) self.old self.new) }
        ensures refused { OnErr result (CutsShort c self.old self.new) }
        ensures part { OnErr result (((p : Prefix) → has_prefix p withdrawn.now ≡ true → has_prefix p announced.now ≡ false) → ChangesWithin c withdrawn.now announced.now (option_map arc_value attrs) self.old self.new) }
        ensures others_touched { ((p : Prefix) → has_prefix p withdrawn.now ≡ true → has_prefix p announced.now ≡ false) → TouchesOthersAtChange c self.old.ribs self.new.ribs }
        ensures keeps { KeepsOwnTouches c self.old self.new }
    {
        match self.sessions[c].message(Heard::Update(None)) {
            Act::None => {
                self.withdraw_all(c, withdrawn);
                match attrs {
                    None => Ok(()),
                    Some(attrs) => self.announce_all(c, announced, &attrs),
                }
            }
            act => {
                self.watched[c].end(ending_by(&[], act));
                self.act(c, act);
                Ok(())
            }
        }
    }

    fn withdraw_all(&mut self, c: usize, prefixes: &[Prefix])
        requires { c < client_count self.old }
        ensures alone { ChangesRoutes c self.old self.new }
        ensures held { HasOverlaid c prefixes.now None self.old.ribs.tables self.new.ribs.tables }
    {
        for prefix in prefixes {
            self.ribs.withdraw(c, *prefix);
        }
    }

    /// The routes of an UPDATE share its attributes: one set, which is given up where no route has it.
    fn announce_all(
        &mut self,
        c: usize,
        prefixes: &[Prefix],
        attrs: &Arc<Attrs>,
    ) -> Result<(), AllocError>
        requires client { c < client_count self.old }
        requires mandatory { HasMandatory (arc_value attrs.now) }
        ensures alone { ChangesRoutes c self.old self.new }
        ensures held { OnOk result (HasOverlaid c prefixes.now (Some (arc_value attrs.now)) self.old.ribs.tables self.new.ribs.tables) }
        ensures part { HasOverlaidSome c prefixes.now (Some (arc_value attrs.now)) self.old.ribs.tables self.new.ribs.tables }
    {
        let shared = self.ribs.share(attrs)?;
        let announced = self.announce_each(c, prefixes, &shared.attrs, shared.set);
        self.ribs.forget(shared.set);
        announced
    }

    /// Announces prefixes with attributes whose set has this number.
    fn announce_each(
        &mut self,
        c: usize,
        prefixes: &[Prefix],
        attrs: &Arc<Attrs>,
        set: u32,
    ) -> Result<(), AllocError>
        requires client { c < client_count self.old }
        requires mandatory { HasMandatory (arc_value attrs.now) }
        ensures alone { ChangesRoutes c self.old self.new }
        ensures held { OnOk result (HasOverlaid c prefixes.now (Some (arc_value attrs.now)) self.old.ribs.tables self.new.ribs.tables) }
        ensures part { HasOverlaidSome c prefixes.now (Some (arc_value attrs.now)) self.old.ribs.tables self.new.ribs.tables }
    {
        for prefix in prefixes {
            self.ribs.announce(c, *prefix, attrs, set)?;
        }
        Ok(())
    }
}
