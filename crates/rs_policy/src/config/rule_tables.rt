//! Rules as the tables of a configuration spell them.

ghost use Rattle.std.specs.Prelude.{◌≡◌, IfOk, option_map, position, bytes_eq};
ghost use Rattle.toml.specs.View.{view};
ghost use Rattle.rs_policy.specs.Seen.{data_of};
ghost use Rattle.rs_policy.specs.Values.{list_of, text_as, answer, Answers, value_or};
ghost use Rattle.rs_policy.specs.Rules.{ases_named, client_named, prefixes_named, list_has_receiver, has_receiver, range_checks, range_of, test_checks, tests_of, each_read, stripping_of, stripping_at, strip_at, strip_large_at, action_checks, action_of, rule_checks, rule_of};
ghost use Rattle.rs_policy.specs.Documents.{may_stand, rules_name_peer, shared_named, use_at, use_checks};

use crate::config::arrays::{array_in, is_longer, refuse_others};
use crate::config::clients::Client;
use crate::config::named_lists::NamedList;
use crate::config::shared_rules::SharedRules;
use crate::config::values::{
    ANY, CommunityText, Flag, Kind, LargeCommunityText, LargePatternText, Length, Nothing,
    POSITIVE, PassOrDrop, PatternText, PrefixText, find, maybe, optional, required,
};
use crate::faults::{ConfigFault, Key, List, Place, Table};
use crate::keys::{RULE_KEYS, USE_KEYS};
use crate::rules::{Action, Disposition, Patterns, Range, Rule, Stripping, Tests};
use rs_attrs::{CommunityPattern, LargeCommunityPattern};
use std::alloc::{AllocError, Global};
use toml::value::Value;

/// Names of clients, as their places from 0.
#[derive(Clone, Copy)]
struct NameOf<'a> {
    clients: &'a [Client],
}

impl Kind for NameOf<'_> {
    type Out = usize;

    ghost reads = { λ k. text_as (client_named k.clients.now) };

    fn read(&self, value: &Value) -> Option<usize> {
        place_of(self.clients, value.as_str()?)
    }
}

/// Names of lists with prefixes, as their places from 0.
#[derive(Clone, Copy)]
struct PrefixListOf<'a> {
    lists: &'a [NamedList],
}

impl Kind for PrefixListOf<'_> {
    type Out = usize;

    ghost reads = { λ k. text_as (prefixes_named k.lists.now) };

    fn read(&self, value: &Value) -> Option<usize> {
        prefix_list_of(self.lists, value.as_str()?)
    }
}

fn prefix_list_of(lists: &[NamedList], name: &str) -> Option<usize>
    ensures { result ≡ prefixes_named lists.now name.now }
{
    for (index, list) in lists.iter().enumerate() {
        if list.name.as_str() == name && list.prefixes.is_some() {
            return Some(index);
        }
    }
    None
}

/// Names of lists with AS numbers, as their places from 0.
#[derive(Clone, Copy)]
struct AsListOf<'a> {
    lists: &'a [NamedList],
}

impl Kind for AsListOf<'_> {
    type Out = usize;

    ghost reads = { λ k. text_as (ases_named k.lists.now) };

    fn read(&self, value: &Value) -> Option<usize> {
        as_list_of(self.lists, value.as_str()?)
    }
}

fn as_list_of(lists: &[NamedList], name: &str) -> Option<usize>
    ensures { result ≡ ases_named lists.now name.now }
{
    for (index, list) in lists.iter().enumerate() {
        if list.name.as_str() == name && list.ases.is_some() {
            return Some(index);
        }
    }
    None
}

/// Names of rules that may stand in a list, as their places from 0.
#[derive(Clone, Copy)]
struct SharedOf<'a> {
    shared: &'a [SharedRules],
    /// Whether they may name the receiver.
    receiver: bool,
}

impl Kind for SharedOf<'_> {
    type Out = usize;

    ghost reads = { λ k. text_as (shared_named k.receiver k.shared.now) };

    fn read(&self, value: &Value) -> Option<usize> {
        shared_of(self.shared, self.receiver, value.as_str()?)
    }
}

fn shared_of(shared: &[SharedRules], receiver: bool, name: &str) -> Option<usize>
    ensures { result ≡ shared_named receiver shared.now name.now }
{
    for (index, used) in shared.iter().enumerate() {
        if used.name.as_str() == name && may_stand(&used.rules, receiver) {
            return Some(index);
        }
    }
    None
}

/// Whether a part of a test of these rules is `peer`.
pub(crate) fn rules_name_peer(rules: &[Rule]) -> bool
    ensures { result ≡ rules_name_peer rules.now }
{
    for rule in rules {
        if rule.tests.name_peer() {
            return true;
        }
    }
    false
}

/// Whether these rules may stand in a list that has a receiver or hasn't.
fn may_stand(rules: &[Rule], receiver: bool) -> bool
    ensures { result ≡ may_stand receiver rules.now }
{
    receiver || !rules_name_peer(rules)
}

fn list_has_receiver(list: List) -> bool
    ensures { result ≡ list_has_receiver list }
{
    match list {
        List::Import => false,
        List::Export => true,
        List::Shared => true,
    }
}

/// Whether a rule at this place is asked for one receiver: that of an import list is asked for all.
fn has_receiver(here: Place) -> bool
    ensures { result ≡ has_receiver here.table }
{
    match here.table {
        Table::Rule(_, list, _) => list_has_receiver(list),
        Table::Top | Table::Client(_) | Table::Rules(_) | Table::List(_) | Table::Entry(_, _) =>
            false,
    }
}

/// The client with this name, from 0.
pub(crate) fn place_of(clients: &[Client], name: &str) -> Option<usize>
    ensures { result ≡ client_named clients.now name.now }
{
    for (index, client) in clients.iter().enumerate() {
        if client.name.as_str() == name {
            return Some(index);
        }
    }
    None
}

#[tactic(auto, unfolding(crate::specs::Values::answer, crate::specs::Rules::range_checks, crate::specs::Rules::range_of))]
fn read_range(table: &Value, here: Place) -> Result<Option<Range>, ConfigFault>
    ensures { result ≡ answer (range_checks here (view table.now)) (range_of here (view table.now)) }
{
    match maybe(table, here, Key::Prefix, PrefixText)? {
        None => {
            let min = optional(table, here, Key::Min, Nothing, 0)?;
            optional(table, here, Key::Max, Nothing, min)?;
            Ok(None)
        }
        Some(prefix) => {
            let low = prefix.len();
            let min = optional(table, here, Key::Min, Length { low }, low)?;
            let max = optional(table, here, Key::Max, Length { low: min }, min)?;
            Ok(Some(Range { prefix, min, max }))
        }
    }
}

#[tactic(auto, unfolding(crate::specs::Values::answer, crate::specs::Rules::test_checks, crate::specs::Rules::tests_of))]
fn read_tests(
    table: &Value,
    here: Place,
    clients: &[Client],
    lists: &[NamedList],
) -> Result<Tests, ConfigFault>
    ensures { result ≡ answer (test_checks clients.now lists.now here (view table.now)) (tests_of clients.now lists.now here (view table.now)) }
{
    let peer = has_receiver(here);
    Ok(Tests {
        prefix_in: maybe(table, here, Key::PrefixIn, PrefixListOf { lists })?,
        from: maybe(table, here, Key::From, NameOf { clients })?,
        path_has: maybe(table, here, Key::PathHas, POSITIVE)?,
        path_longer: maybe(table, here, Key::PathLonger, ANY)?,
        path_in: maybe(table, here, Key::PathIn, AsListOf { lists })?,
        origin_as: maybe(table, here, Key::OriginAs, POSITIVE)?,
        origin_in: maybe(table, here, Key::OriginIn, AsListOf { lists })?,
        first_as_is_peer: maybe(table, here, Key::FirstAsIsPeer, Flag)?,
        community: maybe(table, here, Key::Community, CommunityText { peer })?,
        large_community: maybe(
            table,
            here,
            Key::LargeCommunity,
            LargeCommunityText { peer },
        )?,
        next_hop_is_peer: maybe(table, here, Key::NextHopIsPeer, Flag)?,
    })
}

/// What each of some values is, where each is one.
fn each_read<K: Kind>(
    alloc: Global,
    values: &[Value],
    kind: &K,
) -> Result<Option<Patterns<K::Out>>, AllocError>
where
    K::Out: Drop,
    ensures { IfOk result (λ o. o ≡ each_read (K.reads kind.now) (data_of values.now)) }
{
    let mut patterns = Vec::with_capacity(alloc, values.len())?;
    for value in values {
        let Some(pattern) = kind.read(value) else {
            return Ok(None);
        };
        patterns.push(pattern)?;
    }
    Ok(Some(Patterns::of(patterns)))
}

fn stripping_of<K: Kind>(
    alloc: Global,
    value: &Value,
    kind: &K,
) -> Result<Option<Stripping<K::Out>>, AllocError>
where
    K::Out: Drop,
    ensures { IfOk result (λ o. o ≡ stripping_of (K.reads kind.now) (view value.now)) }
{
    if let Some(values) = array_in(value) {
        return match each_read(alloc, values, kind)? {
            None => Ok(None),
            Some(patterns) => Ok(Some(Stripping::Named(patterns))),
        };
    }
    match value.as_str() {
        Some("all") => Ok(Some(Stripping::All)),
        _ => Ok(None),
    }
}

/// What a table has at `strip` or `strip_large`.
#[tactic(auto, unfolding(crate::specs::Rules::stripping_at))]
fn read_stripping<K: Kind>(
    alloc: Global,
    table: &Value,
    here: Place,
    key: Key,
    disposition: Disposition,
    kind: &K,
) -> Result<Stripping<K::Out>, ConfigFault>
where
    K::Out: Drop,
    ensures { Answers result (stripping_at (K.reads kind.now) key disposition here (view table.now)) }
{
    let place = Place { key, ..here };
    let Some(value) = find(table, key) else {
        return Ok(Stripping::Named(Patterns::of(Vec::new(alloc))));
    };
    if is_longer(value, 64) {
        return Err(ConfigFault::TooMany(place));
    }
    if let Disposition::Drop = disposition {
        return Err(ConfigFault::BadValue(place));
    }
    match stripping_of(alloc, value, kind)? {
        None => Err(ConfigFault::BadValue(place)),
        Some(stripping) => Ok(stripping),
    }
}

/// What a table takes out of COMMUNITIES.
fn read_strip(
    alloc: Global,
    table: &Value,
    here: Place,
    disposition: Disposition,
) -> Result<Stripping<CommunityPattern>, ConfigFault>
    ensures { Answers result (strip_at disposition here (view table.now)) }
{
    read_stripping(alloc, table, here, Key::Strip, disposition, &PatternText)
}

/// What a table takes out of LARGE_COMMUNITY.
fn read_strip_large(
    alloc: Global,
    table: &Value,
    here: Place,
    disposition: Disposition,
) -> Result<Stripping<LargeCommunityPattern>, ConfigFault>
    ensures { Answers result (strip_large_at disposition here (view table.now)) }
{
    read_stripping(
        alloc,
        table,
        here,
        Key::StripLarge,
        disposition,
        &LargePatternText,
    )
}

#[tactic(auto, unfolding(crate::specs::Values::answer, crate::specs::Rules::action_checks, crate::specs::Rules::action_of))]
fn read_action(alloc: Global, table: &Value, here: Place) -> Result<Action, ConfigFault>
    ensures { Answers result
        (answer (action_checks here (view table.now)) (action_of here (view table.now))) }
{
    match required(table, here, Key::Action, PassOrDrop)? {
        Disposition::Drop => {
            maybe(table, here, Key::Preference, Nothing)?;
            read_strip(alloc, table, here, Disposition::Drop)?;
            read_strip_large(alloc, table, here, Disposition::Drop)?;
            Ok(Action::Drop)
        }
        Disposition::Pass => {
            let preference = maybe(table, here, Key::Preference, ANY)?;
            let strip = read_strip(alloc, table, here, Disposition::Pass)?;
            let strip_large = read_strip_large(alloc, table, here, Disposition::Pass)?;
            Ok(Action::Pass(preference, strip, strip_large))
        }
    }
}

/// A rule as its table spells it, or the table's first fault.
pub(crate) fn read_rule(
    alloc: Global,
    table: &Value,
    here: Place,
    clients: &[Client],
    lists: &[NamedList],
) -> Result<Rule, ConfigFault>
    ensures { Answers result
        (answer (rule_checks clients.now lists.now here (view table.now)) (rule_of clients.now lists.now here (view table.now))) }
{
    let range = read_range(table, here)?;
    let tests = read_tests(table, here, clients, lists)?;
    let action = read_action(alloc, table, here)?;
    refuse_others(table, here, &RULE_KEYS)?;
    Ok(Rule {
        range,
        tests,
        action,
    })
}

/// The place, from 0, of the rules that a table uses, or its first fault.
#[tactic(auto, unfolding(crate::specs::Values::answer, crate::specs::Documents::use_checks))]
pub(crate) fn read_use(
    table: &Value,
    here: Place,
    shared: &[SharedRules],
) -> Result<usize, ConfigFault>
    ensures { result ≡ answer (use_checks shared.now here (view table.now)) (value_or 0 (use_at shared.now here (view table.now))) }
{
    let receiver = has_receiver(here);
    let place = required(table, here, Key::Use, SharedOf { shared, receiver })?;
    refuse_others(table, here, &USE_KEYS)?;
    Ok(place)
}
