//! What the sender's import list makes of a route, as a number that stands beside the route: the list is asked when
//! the route is heard, and not anew for each receiver.

ghost use Rattle.std.specs.Prelude.{◌≡◌, ℕ, ◌+◌, ◌*◌, ◌<◌, ◌≤◌, ◌==◌, List, length, option_map};
ghost use Rattle.rs_octets.specs.Prefixes.{Prefix};
ghost use Rattle.rs_attrs.specs.Meaning.{Attribute};
ghost use Rattle.rs_policy.specs.Configuration.{stated_of};
ghost use Rattle.rs_policy.specs.Judged.{offered, passed_as, judged};
ghost use Rattle.rs_policy.specs.Noted.{import_outcome, note_of_import, place_of, rule_of, rule_noted};
ghost use Rattle.rs_policy.specs.Reasons.{decider};
ghost use Rattle.rs_policy.specs.Verdicts.{verdict};

use crate::config::Config;
use crate::config::shared_rules::SharedRules;
use crate::rules::offer::Offer;
use crate::rules::reasons::{Decider, first_decider};
use crate::rules::verdict::{
    Passed, Verdict, export_to, judge_without_rules, offer_to, outcome, passed_by, plainly,
};
use crate::rules::{Action, Item};
use rs_attrs::Attrs;
use rs_octets::Prefix;

/// The list drops the route.
const DROPPED: u32 = 0;

/// It passes the route with no preference and all communities.
const PLAINLY: u32 = 1;

/// From here on the note says which rule decided.
const FIRST: u32 = 2;

/// More than a list, or what it uses at a place, has rules.
const PLACES: u32 = 128;

/// The note that says which rule decided.
fn note_of(decider: Decider) -> u32
    requires place { place_of decider ≤ 64 }
    requires rule { rule_of decider ≤ 64 }
    ensures { result ≡ place_of decider * 128 + rule_of decider + 2 }
{
    match decider {
        Decider::Default => FIRST,
        Decider::Own(place) => place as u32 * PLACES + FIRST,
        Decider::Used { place, rule, .. } => place as u32 * PLACES + rule as u32 + FIRST,
    }
}

/// What the rule does that decided by this note.
fn action_noted<'a>(shared: &'a [SharedRules], items: &'a [Item], note: u32) -> Option<&'a Action>
    requires { 2 ≤ note }
    ensures { option_map (λ a. a.now) result ≡ option_map (λ rule. rule.action) (rule_noted shared.now items.now note) }
{
    let number = note - FIRST;
    let place = (number / PLACES) as usize;
    match items.get(place.saturating_sub(1)) {
        None => None,
        Some(Item::Own(rule)) => Some(&rule.action),
        Some(Item::Use(used)) => match shared.get(*used) {
            None => None,
            Some(used) => {
                let place = (number % PLACES) as usize;
                match used.rules.get(place.saturating_sub(1)) {
                    None => None,
                    Some(rule) => Some(&rule.action),
                }
            }
        },
    }
}

/// The rule of the import list of client `from` that decides.
fn import_decider(config: &Config, from: usize, offer: &Offer<'_, '_>) -> Decider
    requires { from < length config.now.clients }
    ensures { result ≡ decider config.now.lists config.now.shared (stated_of config.now from).import (offered offer.now) }
{
    let stated = config.stated(from);
    first_decider(config.lists(), config.shared(), &stated.import, offer)
}

/// What the import list of client `from` makes of a route that it sends, as a number for `judge_noted`.
/// It takes no memory.
#[tactic(auto, unfolding(crate::specs::Noted::note_of_import))]
pub fn import_note(config: &Config, from: usize, prefix: &Prefix, attrs: &Attrs) -> u32
    requires { from < length config.now.clients }
    ensures { result ≡ note_of_import config.now from prefix.now attrs.now }
{
    config.is_read();
    let offer = offer_to(config, from, from, prefix, attrs);
    let imports = config.import(from);
    match outcome(config.default(), config.lists(), &imports, &offer) {
        None => DROPPED,
        Some(import) => {
            if import.is_plain() {
                PLAINLY
            } else {
                note_of(import_decider(config, from, &offer))
            }
        }
    }
}

/// Whether a note says that the sender's import list passes the route with no preference and all communities.
pub fn is_plain_note(note: u32) -> bool
    ensures { result ≡ (note == 1) }
{
    note == PLAINLY
}

/// What the rule of the import list of client `from` does that decided by this note.
fn import_action<'a>(config: &'a Config, from: usize, note: u32) -> Option<&'a Action>
    requires from { from < length config.now.clients }
    requires note { 2 ≤ note }
    ensures { option_map (λ a. a.now) result ≡ option_map (λ rule. rule.action) (rule_noted config.now.shared (stated_of config.now from).import note) }
{
    let stated = config.stated(from);
    action_noted(config.shared(), &stated.import, note)
}

/// How the import list of client `from` passes a route that has this note, and None where it drops it.
fn passed_noted<'a>(config: &'a Config, from: usize, note: u32) -> Option<Passed<'a>>
    requires { from < length config.now.clients }
    ensures { (to : ℕ) (p : Prefix) (m : List Attribute) → note ≡ note_of_import config.now from p m → option_map passed_as result ≡ import_outcome config.now from to p m }
{
    config.is_read();
    if note == DROPPED {
        return None;
    }
    if note == PLAINLY {
        return Some(plainly());
    }
    match import_action(config, from, note) {
        None => None,
        Some(action) => passed_by(action),
    }
}

/// What `judge` answers, of a route that has this note: the export list alone is asked. It takes no memory.
#[tactic(auto, unfolding(crate::specs::Verdicts::verdict))]
pub fn judge_noted<'a>(
    config: &'a Config,
    from: usize,
    to: usize,
    prefix: &Prefix,
    attrs: &Attrs,
    note: u32,
) -> Verdict<'a>
    requires from { from < length config.now.clients }
    requires to { to < length config.now.clients }
    requires noted { note ≡ note_of_import config.now from prefix.now attrs.now }
    ensures { judged result ≡ verdict config.now from to prefix.now attrs.now }
{
    config.is_read();
    if note == PLAINLY && config.export(to).is_empty() {
        return judge_without_rules(config.default());
    }
    match passed_noted(config, from, note) {
        None => Verdict::Drop,
        Some(import) => {
            let offer = offer_to(config, from, to, prefix, attrs);
            export_to(config, to, &offer, &import)
        }
    }
}
