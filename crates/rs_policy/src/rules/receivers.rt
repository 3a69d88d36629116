//! Whether the rules ask who a route goes to: where they name the receiver, its communities tell.

ghost use Rattle.std.specs.Prelude.{◌≡◌, ◌<◌, List, false, length};
ghost use Rattle.std.specs.List.{list_any};
ghost use Rattle.rs_attrs.specs.Getters.{communities_of, large_communities_of, large_tagged, tagged};
ghost use Rattle.rs_attrs.specs.Meaning.{Attribute};
ghost use Rattle.rs_attrs.specs.Tagged.{KeepsAsked, LacksAsked};
ghost use Rattle.rs_policy.specs.Alike.{ReceiversAreAlike};
ghost use Rattle.rs_policy.specs.Asking.{asks_receiver};
ghost use Rattle.rs_policy.specs.Unasked.{AreNotAskedOf, AreAllNotAskedOf, IsNotAskedOf, IsNotAskedByLarge, IsNotAskedByShort};
ghost use Rattle.rs_policy.specs.Configuration.{policy_of, rules_in};
ghost use Rattle.rs_policy.specs.Documents.{rules_name_peer};

use crate::config::Config;
use crate::config::shared_rules::SharedRules;
use crate::rules::{CommunityTest, Item, LargeCommunityTest, Rule};
use rs_attrs::{AskedTags, Attrs, Tags};

/// Whether a test of the rules at a place of a client's list names the receiver.
fn names_receiver_at(shared: &[SharedRules], item: &Item) -> bool
    ensures { result ≡ rules_name_peer (rules_in shared.now item.now) }
{
    match item {
        Item::Own(rule) => rule.tests.name_peer(),
        Item::Use(place) => match shared.get(*place) {
            None => false,
            Some(used) => used.name_peer,
        },
    }
}

/// Whether one of a client's list does.
fn names_receiver_among(shared: &[SharedRules], items: &[Item]) -> bool
    ensures { result ≡ list_any (λ item. rules_name_peer (rules_in shared.now item)) items.now }
{
    items.iter().any(|item| names_receiver_at(shared, item))
}

/// Whether a test of a client's export rules names the receiver.
pub(crate) fn names_receiver(config: &Config, to: usize) -> bool
    requires { to < length config.now.clients }
    ensures { result ≡ false → rules_name_peer (policy_of config.now to).export ≡ false }
{
    let exports = config.export(to);
    let (items, shared) = exports.parts();
    names_receiver_among(shared, items)
}

/// The attributes of a route, and its communities, found once for many tests.
#[derive(Clone, Copy)]
struct Asked<'a> {
    attrs: &'a Attrs,
    tags: Tags<'a>,
    ghost communities: { tagged tags ≡ communities_of attrs.now },
    ghost large: { large_tagged tags ≡ large_communities_of attrs.now },
}

/// Whether a rule may match a route or not by who the receiver is: a test names the receiver, and a community is as it asks of
/// some receiver.
fn asks_receiver(rule: &Rule, asked: &Asked<'_>) -> bool
    ensures { result ≡ asks_receiver asked.now.attrs.now rule.now }
{
    if let Some(test) = rule.tests.community
        && test.names_peer()
        && asked.tags.has_community_like(&test.pattern_for_any())
    {
        return true;
    }
    match rule.tests.large_community {
        None => false,
        Some(test) => {
            test.names_peer() && asked.tags.has_large_community_like(&test.pattern_for_any())
        }
    }
}

/// Whether a rule at a place of a client's list may.
fn asks_receiver_at(shared: &[SharedRules], item: &Item, asked: &Asked<'_>) -> bool
    ensures { result ≡ list_any (asks_receiver asked.now.attrs.now) (rules_in shared.now item.now) }
{
    match item {
        Item::Own(rule) => asks_receiver(rule, asked),
        Item::Use(place) => match shared.get(*place) {
            None => false,
            Some(used) => used.rules.iter().any(|rule| asks_receiver(rule, asked)),
        },
    }
}

/// Whether a rule of a client's list may.
fn asks_receiver_among(shared: &[SharedRules], items: &[Item], asked: &Asked<'_>) -> bool
    ensures { result ≡ list_any (λ item. list_any (asks_receiver asked.now.attrs.now) (rules_in shared.now item)) items.now }
{
    items
        .iter()
        .any(|item| asks_receiver_at(shared, item, asked))
}

/// Whether something else may become of a route with these attributes on its way to a client than on its way to another one
/// that has the same export rules: one of these names the receiver, which is asked first, and a community is as it asks. It takes
/// no memory.
pub fn may_ask_receiver(config: &Config, to: usize, attrs: &Attrs) -> bool
    requires { to < length config.now.clients }
    ensures { result ≡ false → ReceiversAreAlike config.now to attrs.now }
{
    config.is_read();
    if !names_receiver(config, to) {
        return false;
    }
    let exports = config.export(to);
    let (items, shared) = exports.parts();
    let asked = Asked {
        attrs,
        tags: attrs.tags(),
    };
    asks_receiver_among(shared, items, &asked)
}

/// What is asked for, and the communities for which a test asks, if it names the receiver, whoever that is.
fn with_short(before: AskedTags, test: Option<CommunityTest>) -> AskedTags
    ensures kept { KeepsAsked before result }
    ensures unasked { IsNotAskedByShort result test }
{
    match test {
        Some(test) if test.names_peer() => before.and(&test.pattern_for_any()),
        _ => before,
    }
}

/// The same of large communities.
fn with_large(before: AskedTags, test: Option<LargeCommunityTest>) -> AskedTags
    ensures kept { KeepsAsked before result }
    ensures unasked { IsNotAskedByLarge result test }
{
    match test {
        Some(test) if test.names_peer() => before.and_large(&test.pattern_for_any()),
        _ => before,
    }
}

/// The same of both tests of a rule.
fn with_rule(before: AskedTags, rule: &Rule) -> AskedTags
    ensures kept { KeepsAsked before result }
    ensures unasked { IsNotAskedOf result rule.now }
{
    let short = with_short(before, rule.tests.community);
    with_large(short, rule.tests.large_community)
}

/// The same of some rules.
fn with_rules(before: AskedTags, rules: &[Rule]) -> AskedTags
    ensures kept { KeepsAsked before result }
    ensures unasked { AreNotAskedOf result rules.now }
{
    let mut asked = before;
    for rule in rules {
        asked = with_rule(asked, rule);
    }
    asked
}

/// The same of the rules at a place of a client's list.
fn with_item(before: AskedTags, shared: &[SharedRules], item: &Item) -> AskedTags
    ensures kept { KeepsAsked before result }
    ensures unasked { AreNotAskedOf result (rules_in shared.now item.now) }
{
    match item {
        Item::Own(rule) => with_rule(before, rule),
        Item::Use(place) => match shared.get(*place) {
            None => before,
            Some(used) => with_rules(before, &used.rules),
        },
    }
}

/// The same of a client's list.
fn with_items(shared: &[SharedRules], items: &[Item]) -> AskedTags
    ensures { AreAllNotAskedOf result shared.now items.now }
{
    let mut asked = AskedTags::none();
    for item in items {
        asked = with_item(asked, shared, item);
    }
    asked
}

/// The communities by which a client's export rules name the receiver, whoever that is. Where a route has none of these
/// (`Attrs::lacks`), the same becomes of it on its way to each client that has the same export rules. It takes no memory.
pub fn asked_of_receivers(config: &Config, to: usize) -> AskedTags
    requires { to < length config.now.clients }
    ensures { (m : List Attribute) → LacksAsked result m → ReceiversAreAlike config.now to m }
{
    config.is_read();
    let exports = config.export(to);
    let (items, shared) = exports.parts();
    with_items(shared, items)
}
