//! The tables of the core, as the pages of the window ask for them.

ghost use Rattle.std.specs.Prelude.{◌≡◌, ◌<◌, List, option_map};
ghost use Rattle.std.specs.Arc.{arc_value};
ghost use Rattle.rs_core.specs.Core.{client_count};
ghost use Rattle.rs_core.specs.Run.Agreeing.{Agrees};
ghost use Rattle.rs_core.specs.Run.Meaning.{table};
ghost use Rattle.rs_core.specs.Run.Moves.{Move};
ghost use Rattle.rs_page_parts.specs.Firsts.{IsFirst};
ghost use Rattle.rs_shown.specs.Shown.{due_last, speech_with};

use rs_attrs::{Attrs, Mode};
use rs_core::{Core, Ending};
use rs_octets::Prefix;
use rs_open::{Limit, Short};
use rs_outlet::Speech;
use rs_page_parts::keys::{key, prefix_at};
use rs_page_parts::tables::{Ended, Faults, Holder, Rib, Tables};
use rs_policy::Config;
use std::alloc::{AllocError, Global};
use std::sync::Arc;

/// The tables of a core.
#[derive(Clone, Copy)]
pub(crate) struct CoreTables<'a>(pub(crate) &'a Core);

/// What a session ended with.
fn ended_by(ending: Ending) -> Ended {
    match ending {
        Ending::Said(Short::Note { code, sub, .. }) => Ended::Sent(code, sub),
        Ending::Said(_) | Ending::Lost => Ended::Lost,
        // Hold Timer Expired (RFC 4271, 4.5).
        Ending::HoldTimer => Ended::Sent(4, 0),
        Ending::Heard(notice) => Ended::Heard(notice.code, notice.sub),
        Ending::Memory => Ended::Memory,
    }
}

/// How a client is spoken to, where it has a mode and a limit.
fn speech_with(mode: Option<Mode>, limit: Option<Limit>) -> Option<Speech>
    ensures { result ≡ speech_with mode limit }
{
    match (mode, limit) {
        (Some(mode), Some(limit)) => Some(Speech { mode, limit }),
        _ => None,
    }
}

impl<'a> CoreTables<'a> {
    /// The first route of a member's Adj-RIB-In whose prefix has this number or a later one.
    fn first_received(&self, member: usize, at: u64) -> Option<(Prefix, &Arc<Attrs>)>
        requires { member < client_count self.now.0.now }
        ensures { (run : List Move) → Agrees self.now.0.now run → IsFirst (table run member) at (option_map (λ route. (route.0, arc_value route.1.now)) result) }
    {
        for (prefix, attrs) in self.0.received_from(member, prefix_at(at)) {
            if key(&prefix) >= at {
                return Some((prefix, attrs));
            }
        }
        None
    }

    /// The same of its Loc-RIB.
    fn first_sent(&self, member: usize, at: u64) -> Option<(Prefix, &Arc<Attrs>)>
        requires { member < client_count self.now.0.now }
        ensures { (run : List Move) → Agrees self.now.0.now run → IsFirst (due_last run member) at (option_map (λ route. (route.0, arc_value route.1.now)) result) }
    {
        for (prefix, attrs) in self.0.routes_from(member, prefix_at(at)) {
            if key(&prefix) >= at {
                return Some((prefix, attrs));
            }
        }
        None
    }
}

impl Tables for CoreTables<'_> {
    ghost use Rattle.rs_shown.specs.Shown.{AreHeld, IsFirstOf, IsConfigured, IsSpokenTo};

    ghost first = { λ tables rib member at route. IsFirstOf tables.0.now rib member at route };

    ghost configured = { λ tables config. IsConfigured tables.0.now config };

    ghost holders = { λ tables prefix held. AreHeld tables.0.now prefix held };

    ghost speaks = { λ tables member speech. IsSpokenTo tables.0.now member speech };

    fn config(&self) -> &Config {
        self.0.config()
    }

    fn is_established(&self, member: usize) -> bool {
        member < self.0.clients() && self.0.is_established(member)
    }

    fn speech(&self, member: usize) -> Option<Speech> {
        if member >= self.0.clients() {
            return None;
        }
        speech_with(self.0.mode(member), self.0.limit(member))
    }

    fn first_from(&self, rib: Rib, member: usize, at: u64) -> Option<(Prefix, &Arc<Attrs>)> {
        if member >= self.0.clients() {
            return None;
        }
        match rib {
            Rib::Received => self.first_received(member, at),
            Rib::Sent => self.first_sent(member, at),
        }
    }

    fn count(&self, rib: Rib, member: usize) -> usize {
        if member >= self.0.clients() {
            return 0;
        }
        match rib {
            Rib::Received => self.0.received_count(member),
            Rib::Sent => self.0.routes_count(member),
        }
    }

    fn dropped(&self, member: usize) -> usize {
        self.0.dropped_count(member)
    }

    fn holders_of<'b>(
        &'b self,
        alloc: Global,
        prefix: &Prefix,
    ) -> Result<Vec<Holder<'b>>, AllocError> {
        let mut held = Vec::new(alloc);
        for candidate in self.0.candidates_at(*prefix) {
            held.push(Holder {
                member: candidate.client,
                identifier: candidate.identifier,
                attrs: candidate.attrs,
            })?;
        }
        Ok(held)
    }

    fn ended(&self, member: usize) -> Option<Ended> {
        if member >= self.0.clients() {
            return None;
        }
        Some(ended_by(self.0.ending(member)?))
    }

    fn faults(&self, member: usize) -> Faults {
        if member >= self.0.clients() {
            return Faults {
                at_fault: 0,
                passed_over: 0,
            };
        }
        let faulted = self.0.faulted(member);
        Faults {
            at_fault: faulted.count,
            passed_over: faulted.mp_reach,
        }
    }

    fn rows(&self) -> usize {
        self.0.rows()
    }

    fn prefixes(&self) -> usize {
        self.0.prefixes()
    }

    fn attribute_sets(&self) -> usize {
        self.0.attribute_sets()
    }

    fn waiting(&self, member: usize) -> usize {
        if member >= self.0.clients() {
            return 0;
        }
        self.0.waiting(member)
    }
}
