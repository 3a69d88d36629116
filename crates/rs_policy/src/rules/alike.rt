//! Clients to which the same becomes of each route, and routes of which the same becomes.

ghost use Rattle.std.specs.Prelude.{◌≡◌, ◌<◌, ℕ, List, false, length, IsTrue};
ghost use Rattle.std.specs.List.{list_any};
ghost use Rattle.rs_policy.specs.Alike.{PrefixesAreAlike};
ghost use Rattle.rs_policy.specs.Asking.{asks_prefix};
ghost use Rattle.rs_policy.specs.Configuration.{rules_in};
ghost use Rattle.rs_octets.specs.Prefixes.{Prefix};
ghost use Rattle.rs_attrs.specs.Meaning.{Attribute};
ghost use Rattle.rs_policy.specs.Verdicts.{verdict};

use crate::config::Config;
use crate::config::shared_rules::SharedRules;
use crate::rules::receivers::names_receiver;
use crate::rules::{Item, Rule};

/// Whether what stands at places of two lists is the use of the same rules.
fn is_same_use(one: &Item, other: &Item) -> bool
    ensures { IsTrue result → one.now ≡ other.now }
{
    match (one, other) {
        (Item::Use(one), Item::Use(other)) => one == other,
        _ => false,
    }
}

/// Whether two lists use the same rules one after the other.
pub(crate) fn are_same_uses(one: &[Item], other: &[Item]) -> bool
    ensures { IsTrue result → one.now ≡ other.now }
{
    if one.len() != other.len() {
        return false;
    }
    for place in 0..one.len() {
        if !is_same_use(&one[place], &other[place]) {
            return false;
        }
    }
    true
}

/// Whether the rules judge each route alike on its way to both clients: their export lists use the same rules, which don't name
/// the receiver, or there are none. Import lists ask for no receiver. It takes no memory.
pub fn judges_alike(config: &Config, one: usize, other: usize) -> bool
    requires one { one < length config.now.clients }
    requires other { other < length config.now.clients }
    ensures { IsTrue result → (from : ℕ) (p : Prefix) (m : List Attribute) → from < length config.now.clients → verdict config.now from one p m ≡ verdict config.now from other p m }
{
    config.is_read();
    config.has_same_exports(one, other) && !names_receiver(config, one)
}

/// Whether a rule asks for the prefix of a route.
fn asks_prefix(rule: &Rule) -> bool
    ensures { result ≡ asks_prefix rule.now }
{
    rule.range.is_some() || rule.tests.prefix_in.is_some()
}

/// Whether a rule at a place of a client's list does.
fn asks_prefix_at(shared: &[SharedRules], item: &Item) -> bool
    ensures { result ≡ list_any asks_prefix (rules_in shared.now item.now) }
{
    match item {
        Item::Own(rule) => asks_prefix(rule),
        Item::Use(place) => match shared.get(*place) {
            None => false,
            Some(used) => used.rules.iter().any(|rule| asks_prefix(rule)),
        },
    }
}

/// Whether a rule of a client's list does.
fn asks_prefix_among(shared: &[SharedRules], items: &[Item]) -> bool
    ensures { result ≡ list_any (λ item. list_any asks_prefix (rules_in shared.now item)) items.now }
{
    items.iter().any(|item| asks_prefix_at(shared, item))
}

/// Whether the rules judge routes with the same attributes and note (`import_note`) alike on their way to a client, whatever
/// their prefixes are: none of its export rules asks for the prefix. It takes no memory.
pub fn judges_prefixes_alike(config: &Config, to: usize) -> bool
    requires { to < length config.now.clients }
    ensures { IsTrue result → PrefixesAreAlike config.now to }
{
    config.is_read();
    let exports = config.export(to);
    let (items, shared) = exports.parts();
    !asks_prefix_among(shared, items)
}
