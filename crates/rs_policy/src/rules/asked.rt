//! Which communities a client's export rules ask for: where a route has none of them, no rule matches it.

ghost use Rattle.std.specs.Prelude.{◌≡◌, ◌<◌, IfSome, length};
ghost use Rattle.rs_attrs.specs.Tagged.{KeepsAsked};
ghost use Rattle.rs_policy.specs.Alike.{PassesPlainly};
ghost use Rattle.rs_policy.specs.Configuration.{rules_in};
ghost use Rattle.rs_policy.specs.Unasked.{ArePassedOver, AreAllPassedOver, IsPassedOver};

use crate::config::Config;
use crate::config::shared_rules::SharedRules;
use crate::rules::{Disposition, Item, Rule};
use rs_attrs::AskedTags;

/// What is asked for, and the communities for which a rule asks on the way to a client with this AS number; none where it
/// asks for none.
fn with_asked(before: AskedTags, rule: &Rule, to_as: u32) -> Option<AskedTags>
    ensures kept { IfSome result (KeepsAsked before) }
    ensures passed_over { IfSome result (λ asked. IsPassedOver asked to_as rule.now) }
{
    if let Some(test) = rule.tests.community {
        return Some(before.and(&test.pattern_for(to_as)));
    }
    let test = rule.tests.large_community?;
    Some(before.and_large(&test.pattern_for(to_as)))
}

/// The same of some rules, each of which has to ask for one.
fn with_asked_among(before: AskedTags, rules: &[Rule], to_as: u32) -> Option<AskedTags>
    ensures kept { IfSome result (KeepsAsked before) }
    ensures passed_over { IfSome result (λ asked. ArePassedOver asked to_as rules.now) }
{
    let mut marks = before;
    for rule in rules {
        marks = with_asked(marks, rule, to_as)?;
    }
    Some(marks)
}

/// The same of the rules at a place of a client's list.
fn with_asked_at(
    marks: AskedTags,
    shared: &[SharedRules],
    item: &Item,
    to_as: u32,
) -> Option<AskedTags>
    ensures kept { IfSome result (KeepsAsked marks) }
    ensures passed_over { IfSome result (λ asked. ArePassedOver asked to_as (rules_in shared.now item.now)) }
{
    match item {
        Item::Own(rule) => with_asked(marks, rule, to_as),
        Item::Use(place) => match shared.get(*place) {
            None => Some(marks),
            Some(used) => with_asked_among(marks, &used.rules, to_as),
        },
    }
}

/// The same of a client's list.
fn asked_of(shared: &[SharedRules], items: &[Item], to_as: u32) -> Option<AskedTags>
    ensures { IfSome result (λ asked. AreAllPassedOver asked to_as shared.now items.now) }
{
    let mut marks = AskedTags::none();
    for item in items {
        marks = with_asked_at(marks, shared, item, to_as)?;
    }
    Some(marks)
}

/// The communities that a client's export rules ask for, if each of them asks for one, and what no rule decides is
/// passed. A route that its sender's import list passes plainly (`is_plain_note`) goes to the client as it is, with no
/// preference and all communities, where it has none of these (`Attrs::lacks`). It takes no memory.
pub fn asked_by_exports(config: &Config, to: usize) -> Option<AskedTags>
    requires { to < length config.now.clients }
    ensures { IfSome result (PassesPlainly config.now to) }
{
    config.is_read();
    let exports = config.export(to);
    let (items, shared) = exports.parts();
    match config.default() {
        Disposition::Drop => None,
        Disposition::Pass => asked_of(shared, items, config.client_as(to)),
    }
}
