//! Which rules decided on a route, for whoever asks.

ghost use Rattle.std.specs.Prelude.{◌≡◌, ◌<◌, length, find, option_map};
ghost use Rattle.rs_policy.specs.Judged.{offered};
ghost use Rattle.rs_policy.specs.Reasons.{used_from, placed_in, decider, reasons};
ghost use Rattle.rs_policy.specs.Verdicts.{matches};

use crate::config::Config;
use crate::config::named_lists::NamedList;
use crate::config::shared_rules::SharedRules;
use crate::rules::matching::matches;
use crate::rules::offer::Offer;
use crate::rules::verdict::{offer_to, passes};
use crate::rules::{Item, Rule};
use rs_attrs::Attrs;
use rs_octets::Prefix;

/// What decides on a route in a client's list. All are counted from 1, as in a fault's place.
#[derive(Clone, Copy, Debug, PartialEq, Eq)]
pub enum Decider {
    /// No rule of the list matches: the configuration's default.
    Default,
    /// The rule at this place of the list.
    Own(usize),
    /// A rule that the list uses.
    Used {
        /// The place of the list at which `use` stands.
        place: usize,
        /// The number of the rules that it uses.
        rules: usize,
        /// The rule's place in those.
        rule: usize,
    },
}

/// What decided on a route from one client to another.
#[derive(Clone, Copy, Debug, PartialEq, Eq)]
pub struct Reasons {
    /// In the sender's import list.
    pub import: Decider,
    /// In the receiver's export list; None where the import list drops the route.
    pub export: Option<Decider>,
}

/// The first of the rules used at a place of a list that matches.
fn used_decider(
    lists: &[NamedList],
    place: usize,
    number: usize,
    used: &[Rule],
    offer: &Offer<'_, '_>,
) -> Option<Decider>
    ensures { result ≡ option_map (λ p. p.at) (find (λ p. matches lists.now p.rule (offered offer.now)) (used_from place number 1 used.now)) }
{
    for (index, rule) in used.iter().enumerate() {
        if matches(lists, rule, offer) {
            return Some(Decider::Used {
                place,
                rules: number,
                rule: index + 1,
            });
        }
    }
    None
}

/// The first rule that matches of those at a place of a list.
fn decider_at(
    lists: &[NamedList],
    shared: &[SharedRules],
    place: usize,
    item: &Item,
    offer: &Offer<'_, '_>,
) -> Option<Decider>
    ensures { result ≡ option_map (λ p. p.at) (find (λ p. matches lists.now p.rule (offered offer.now)) (placed_in shared.now place item.now)) }
{
    match item {
        Item::Own(rule) => {
            if matches(lists, rule, offer) {
                Some(Decider::Own(place))
            } else {
                None
            }
        }
        Item::Use(number) => match shared.get(*number) {
            None => None,
            Some(used) => used_decider(lists, place, *number + 1, &used.rules, offer),
        },
    }
}

/// The first rule of a list that matches.
pub(super) fn first_decider(
    lists: &[NamedList],
    shared: &[SharedRules],
    items: &[Item],
    offer: &Offer<'_, '_>,
) -> Decider
    ensures { result ≡ decider lists.now shared.now items.now (offered offer.now) }
{
    for (index, item) in items.iter().enumerate() {
        if let Some(decider) = decider_at(lists, shared, index + 1, item, offer) {
            return decider;
        }
    }
    Decider::Default
}

/// Which rules decided what `judge` answers, with the same arguments. It takes as long, and no memory.
#[tactic(auto, unfolding(crate::specs::Reasons::reasons))]
pub fn reasons_for(
    config: &Config,
    from: usize,
    to: usize,
    prefix: &Prefix,
    attrs: &Attrs,
) -> Reasons
    requires from { from < length config.now.clients }
    requires to { to < length config.now.clients }
    ensures { result ≡ reasons config.now from to prefix.now attrs.now }
{
    let lists = config.lists();
    let shared = config.shared();
    let offer = offer_to(config, from, to, prefix, attrs);
    let import = first_decider(lists, shared, &config.stated(from).import, &offer);
    if !passes(config.default(), lists, &config.import(from), &offer) {
        return Reasons {
            import,
            export: None,
        };
    }
    let export = first_decider(lists, shared, &config.stated(to).export, &offer);
    Reasons {
        import,
        export: Some(export),
    }
}
