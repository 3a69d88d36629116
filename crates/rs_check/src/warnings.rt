//! What is good in a configuration but likely wrong.

ghost use Rattle.std.specs.Prelude.{◌≡◌, true, false};
ghost use Rattle.std.specs.List.{list_any};
ghost use Rattle.toml.specs.View.{view};
ghost use Rattle.rs_policy.specs.declared.faults.Key.TheVariants as Key;
ghost use Rattle.rs_check.specs.Warnings.{MatchesAll, has_key, test_keys};

use rs_findings::Warning;
use rs_places::document_of;
use rs_policy::{Config, Key, List};
use std::alloc::{AllocError, Global};
use toml::value::Value;

/// The most warnings that are told.
const MOST: usize = 20;

/// The text at a key of a table.
fn text_at<'d>(table: &'d Value, key: &str) -> Option<&'d str> {
    table.get(key)?.as_str()
}

/// The integer at a key of a table.
fn integer_at(table: &Value, key: &str) -> Option<i64> {
    table.get(key)?.as_integer()
}

/// The values of an array at a key of a table; none where there is no array.
fn values_at(table: &Value, key: Key) -> &[Value] {
    match table.get(key.text()) {
        Some(Value::Array(values)) => values,
        _ => &[],
    }
}

/// The tests of a rule, but for its range.
const TESTS: [Key; 11] = [
    Key::PrefixIn,
    Key::From,
    Key::PathHas,
    Key::PathLonger,
    Key::PathIn,
    Key::OriginAs,
    Key::OriginIn,
    Key::FirstAsIsPeer,
    Key::Community,
    Key::LargeCommunity,
    Key::NextHopIsPeer,
];

/// Whether a table has a key.
fn has(table: &Value, key: Key) -> bool
    ensures { result ≡ has_key (view table.now) key }
{
    table.get(key.text()).is_some()
}

/// Whether a rule has one of the tests.
fn is_tested(rule: &Value) -> bool
    ensures { result ≡ list_any (has_key (view rule.now)) test_keys }
{
    TESTS.iter().any(|key| has(rule, *key))
}

/// Whether the range of a rule takes every prefix.
fn takes_every_prefix(rule: &Value) -> bool {
    let is_any = match text_at(rule, "prefix") {
        Some(prefix) => prefix.ends_with("/0"),
        None => false,
    };
    is_any && integer_at(rule, "min").unwrap_or(0) == 0 && integer_at(rule, "max") == Some(32)
}

/// Whether a rule matches every route.
fn matches_all(rule: &Value) -> bool
    ensures { result ≡ true → has_key (view rule.now) Key.Prefix ≡ false → MatchesAll (view rule.now) }
{
    if is_tested(rule) || has(rule, Key::Use) {
        return false;
    }
    !has(rule, Key::Prefix) || takes_every_prefix(rule)
}

/// The first rule behind one that matches every route, counted from 1.
fn first_unreached(rules: &[Value]) -> Option<usize> {
    let last = rules.iter().position(matches_all)?;
    let next = last.saturating_add(1);
    if next < rules.len() {
        Some(next.saturating_add(1))
    } else {
        None
    }
}

/// The keys by which a rule names a list, and rules that it uses.
const LISTS: [Key; 3] = [Key::PrefixIn, Key::PathIn, Key::OriginIn];

const USES: [Key; 1] = [Key::Use];

/// Whether a rule has this name at one of these keys.
fn rule_names(rule: &Value, keys: &[Key], name: &str) -> bool {
    keys.iter()
        .any(|key| text_at(rule, key.text()) == Some(name))
}

/// Whether one of these rules does.
fn rules_name(rules: &[Value], keys: &[Key], name: &str) -> bool {
    rules.iter().any(|rule| rule_names(rule, keys, name))
}

/// Whether a rule of a table's lists does.
fn table_names(table: &Value, keys: &[Key], name: &str) -> bool {
    rules_name(values_at(table, Key::Import), keys, name)
        || rules_name(values_at(table, Key::Export), keys, name)
        || rules_name(values_at(table, Key::Rules), keys, name)
}

/// Whether a rule of one of these tables does.
fn are_named(tables: &[Value], keys: &[Key], name: &str) -> bool {
    tables.iter().any(|table| table_names(table, keys, name))
}

/// The name of a table.
fn name_of(table: &Value) -> &str {
    text_at(table, "name").unwrap_or("")
}

/// Adds a warning, where there aren't as many yet as are told.
fn add(warnings: &mut Vec<Warning>, warning: Warning) -> Result<(), AllocError> {
    if warnings.len() < MOST {
        warnings.push(warning)?;
    }
    Ok(())
}

/// Adds what there is to say of the rules of a client.
fn add_of_client(
    warnings: &mut Vec<Warning>,
    table: &Value,
    client: usize,
) -> Result<(), AllocError> {
    if values_at(table, Key::Import).is_empty() {
        add(warnings, Warning::NoImportRules(client))?;
    }
    for (list, key) in [(List::Import, Key::Import), (List::Export, Key::Export)] {
        if let Some(rule) = first_unreached(values_at(table, key)) {
            add(warnings, Warning::Unreached(client, list, rule))?;
        }
    }
    Ok(())
}

/// Adds what there is to say of the rules that others use.
fn add_of_rules(
    warnings: &mut Vec<Warning>,
    clients: &[Value],
    table: &Value,
    rules: usize,
) -> Result<(), AllocError> {
    if !are_named(clients, &USES, name_of(table)) {
        add(warnings, Warning::UnusedRules(rules))?;
    }
    if let Some(rule) = first_unreached(values_at(table, Key::Rules)) {
        add(warnings, Warning::Unreached(rules, List::Shared, rule))?;
    }
    Ok(())
}

/// Adds what there is to say of the lists that rules name.
fn add_of_lists(
    warnings: &mut Vec<Warning>,
    clients: &[Value],
    shared: &[Value],
    lists: &[Value],
) -> Result<(), AllocError> {
    for (index, list) in lists.iter().enumerate() {
        let name = name_of(list);
        if !are_named(clients, &LISTS, name) && !are_named(shared, &LISTS, name) {
            add(warnings, Warning::Unused(index.saturating_add(1)))?;
        }
    }
    Ok(())
}

/// Adds what there is to say of a document.
fn add_of_document(warnings: &mut Vec<Warning>, document: &Value) -> Result<(), AllocError> {
    let clients = values_at(document, Key::Client);
    for (index, client) in clients.iter().enumerate() {
        add_of_client(warnings, client, index.saturating_add(1))?;
    }
    let shared = values_at(document, Key::Rules);
    add_of_lists(warnings, clients, shared, values_at(document, Key::List))?;
    for (index, rules) in shared.iter().enumerate() {
        add_of_rules(warnings, clients, rules, index.saturating_add(1))?;
    }
    Ok(())
}

/// The warnings about a good configuration, of which this is the text.
pub(crate) fn warnings_of(
    alloc: Global,
    config: &Config,
    text: &str,
) -> Result<Vec<Warning>, AllocError> {
    let Some(document) = document_of(alloc, text)? else {
        return Err(AllocError);
    };
    let mut warnings = Vec::new(alloc);
    if !config.multiprotocol() {
        add(&mut warnings, Warning::MultiprotocolOff)?;
    }
    add_of_document(&mut warnings, &document)?;
    Ok(warnings)
}
