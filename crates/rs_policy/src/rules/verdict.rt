//! What the rules make of a route.

ghost use Rattle.std.specs.Prelude.{◌≡◌, ◌<◌, length, find, option_map, is_some, Some};
ghost use Rattle.rs_policy.specs.Noted.{is_plain, plainly};
ghost use Rattle.rs_policy.specs.Verdicts.{announced_route, joined, matches, passing, passed, passing_by_default, outcome, verdict};
ghost use Rattle.rs_policy.specs.Configuration.{policy_of, rules_in};
ghost use Rattle.rs_policy.specs.Judged.{offered, passed_as, judged};
ghost use Rattle.rs_attrs.specs.Stripping.{taken_by};

use crate::config::Config;
use crate::config::named_lists::NamedList;
use crate::config::shared_rules::SharedRules;
use crate::rules::matching::matches;
use crate::rules::offer::Offer;
use crate::rules::{Action, Disposition, Item, Rule, Rules};
use rs_attrs::{Attrs, CommunityPattern, LargeCommunityPattern, Strip};
use rs_octets::Prefix;

/// The preference of a route that no rule gives one.
const DEFAULT_PREFERENCE: u32 = 100;

/// What each community is like.
const ANY: CommunityPattern = CommunityPattern {
    high: None,
    low: None,
};

/// What each large community is like.
const ANY_LARGE: LargeCommunityPattern = LargeCommunityPattern {
    global: None,
    first: None,
    second: None,
};

/// What becomes of a route on its way from one client to another. `S` says which communities it
/// loses.
#[derive(Clone, Copy, Debug)]
pub enum Fate<S> {
    Drop,
    /// It is passed on with this preference, without the communities of the strip.
    Pass { preference: u32, strip: S },
}

/// What `judge` answers.
pub type Verdict<'a> = Fate<Strip<'a>>;

/// How a list of rules passes a route.
#[derive(Clone, Copy)]
pub(super) struct Passed<'a> {
    preference: Option<u32>,
    communities: &'a [CommunityPattern],
    all_communities: bool,
    large: &'a [LargeCommunityPattern],
    all_large: bool,
}

/// A list passes a route with no preference and all communities.
pub(super) fn plainly<'a>() -> Passed<'a>
    ensures { passed_as result ≡ plainly }
{
    Passed {
        preference: None,
        communities: &[],
        all_communities: false,
        large: &[],
        all_large: false,
    }
}

impl Passed<'_> {
    /// Whether no preference is given, and no community taken away.
    pub(super) fn is_plain(&self) -> bool
        ensures { result ≡ is_plain (passed_as self.now) }
    {
        self.preference.is_none()
            && !self.all_communities
            && !self.all_large
            && self.communities.is_empty()
            && self.large.is_empty()
    }
}

/// What the first rule that matches does.
fn action_among<'a>(
    lists: &[NamedList],
    rules: &'a [Rule],
    offer: &Offer<'_, '_>,
) -> Option<&'a Action>
    ensures { option_map (λ a. a.now) result ≡ option_map (λ rule. rule.action) (find (λ rule. matches lists.now rule (offered offer.now)) rules.now) }
{
    for rule in rules {
        if matches(lists, rule, offer) {
            return Some(&rule.action);
        }
    }
    None
}

/// The same at a place of a client's list.
fn action_at<'a>(
    lists: &[NamedList],
    shared: &'a [SharedRules],
    item: &'a Item,
    offer: &Offer<'_, '_>,
) -> Option<&'a Action>
    ensures { option_map (λ a. a.now) result ≡ option_map (λ rule. rule.action) (find (λ rule. matches lists.now rule (offered offer.now)) (rules_in shared.now item.now)) }
{
    match item {
        Item::Own(rule) => {
            if matches(lists, rule, offer) {
                Some(&rule.action)
            } else {
                None
            }
        }
        Item::Use(place) => match shared.get(*place) {
            None => None,
            Some(used) => action_among(lists, &used.rules, offer),
        },
    }
}

/// The same of the whole list.
fn action_of<'a>(
    lists: &[NamedList],
    rules: &Rules<'a>,
    offer: &Offer<'_, '_>,
) -> Option<&'a Action>
    ensures { option_map (λ a. a.now) result ≡ option_map (λ rule. rule.action) (find (λ rule. matches lists.now rule (offered offer.now)) rules.now) }
{
    let (items, shared) = rules.parts();
    for item in items {
        if let Some(action) = action_at(lists, shared, item, offer) {
            return Some(action);
        }
    }
    None
}

/// How a rule that does this passes a route, and None where it drops it.
pub(super) fn passed_by<'a>(action: &'a Action) -> Option<Passed<'a>>
    ensures { option_map passed_as result ≡ passing action.now }
{
    match action {
        Action::Drop => None,
        Action::Pass(preference, strip, strip_large) => Some(Passed {
            preference: *preference,
            communities: strip.named(),
            all_communities: strip.takes_all(),
            large: strip_large.named(),
            all_large: strip_large.takes_all(),
        }),
    }
}

/// How a list of rules passes a route, and None where it drops it.
#[tactic(auto, unfolding(crate::specs::Verdicts::outcome))]
pub(super) fn outcome<'a>(
    default: Disposition,
    lists: &[NamedList],
    rules: &Rules<'a>,
    offer: &Offer<'_, '_>,
) -> Option<Passed<'a>>
    ensures { option_map passed_as result ≡ outcome default lists.now rules.now (offered offer.now) }
{
    match action_of(lists, rules, offer) {
        Some(action) => passed_by(action),
        None => match default {
            Disposition::Drop => None,
            Disposition::Pass => Some(plainly()),
        },
    }
}

/// Whether a list of rules passes a route.
pub(super) fn passes(
    default: Disposition,
    lists: &[NamedList],
    rules: &Rules<'_>,
    offer: &Offer<'_, '_>,
) -> bool
    ensures { result ≡ is_some (outcome default lists.now rules.now (offered offer.now)) }
{
    outcome(default, lists, rules, offer).is_some()
}

/// What is taken out of a route that both lists pass plainly: nothing.
fn plain_strip<'a>() -> Strip<'a>
    ensures { joined (Some plainly) (Some plainly) ≡ passed 100 (taken_by result) }
{
    Strip {
        communities: [&[], &[]],
        all_communities: false,
        large: [&[], &[]],
        all_large: false,
    }
}

/// What becomes of a route where neither list has a rule.
pub(super) fn judge_without_rules<'a>(default: Disposition) -> Verdict<'a>
    ensures { judged result ≡ joined (passing_by_default default) (passing_by_default default) }
{
    match default {
        Disposition::Drop => Verdict::Drop,
        Disposition::Pass => Verdict::Pass {
            preference: DEFAULT_PREFERENCE,
            strip: plain_strip(),
        },
    }
}

/// What becomes of a route that the sender's import list passes so, and the receiver's export list.
fn join<'a>(import: &Passed<'a>, export: &Passed<'a>) -> Verdict<'a>
    ensures { judged result ≡ joined (Some (passed_as import.now)) (Some (passed_as export.now)) }
{
    let given = export.preference.or(import.preference);
    let preference = given.unwrap_or(DEFAULT_PREFERENCE);
    let strip = Strip {
        communities: [import.communities, export.communities],
        all_communities: import.all_communities || export.all_communities,
        large: [import.large, export.large],
        all_large: import.all_large || export.all_large,
    };
    Verdict::Pass { preference, strip }
}

/// A route of client `from` on its way to client `to`.
pub(super) fn offer_to<'p, 'a>(
    config: &Config,
    from: usize,
    to: usize,
    prefix: &'p Prefix,
    attrs: &'a Attrs,
) -> Offer<'p, 'a>
    requires from { from < length config.now.clients }
    requires to { to < length config.now.clients }
    ensures { offered result ≡ announced_route config.now from to prefix.now attrs.now }
{
    let tags = attrs.tags();
    Offer {
        from,
        peer: config.peer(from),
        peer_as: config.client_as(from),
        prefix,
        attrs,
        tags,
        lacks_communities: !tags.has_community_like(&ANY),
        lacks_large: !tags.has_large_community_like(&ANY_LARGE),
        to_as: config.client_as(to),
    }
}

/// What becomes of a route that the sender's import list passes so, by the export list of client `to`.
pub(super) fn export_to<'a>(
    config: &'a Config,
    to: usize,
    offer: &Offer<'_, '_>,
    import: &Passed<'a>,
) -> Verdict<'a>
    requires { to < length config.now.clients }
    ensures { judged result ≡ joined (Some (passed_as import.now)) (outcome config.now.top.default config.now.lists (policy_of config.now to).export (offered offer.now)) }
{
    let exports = config.export(to);
    match outcome(config.default(), config.lists(), &exports, offer) {
        None => Verdict::Drop,
        Some(export) => join(import, &export),
    }
}

/// What becomes of a route of client `from` on its way to client `to`: the first rule that matches
/// decides, in the sender's import list and in the receiver's export list, both over the attributes
/// as they were received (RFC 7947, 2.3). It takes no memory.
#[tactic(auto, unfolding(crate::specs::Verdicts::verdict))]
pub fn judge<'a>(
    config: &'a Config,
    from: usize,
    to: usize,
    prefix: &Prefix,
    attrs: &Attrs,
) -> Verdict<'a>
    requires from { from < length config.now.clients }
    requires to { to < length config.now.clients }
    ensures { judged result ≡ verdict config.now from to prefix.now attrs.now }
{
    let default = config.default();
    let imports = config.import(from);
    let exports = config.export(to);
    if imports.is_empty() && exports.is_empty() {
        return judge_without_rules(default);
    }
    let offer = offer_to(config, from, to, prefix, attrs);
    match outcome(default, config.lists(), &imports, &offer) {
        None => Verdict::Drop,
        Some(import) => export_to(config, to, &offer, &import),
    }
}
