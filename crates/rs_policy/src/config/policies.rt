//! The lists of rules of a configuration.

ghost use Rattle.std.specs.Prelude.{◌≡◌, length, IfOk};
ghost use Rattle.toml.specs.View.{view};
ghost use Rattle.rs_policy.specs.Seen.{data_of};
ghost use Rattle.rs_policy.specs.Values.{answer, Answers, AnswersItems};
ghost use Rattle.rs_policy.specs.Documents.{rules_from, rules_checks, item_checks, item_of, list_checks, list_of_items, list_key, policy_checks, policy_from, policies_checks, policies_from};

use crate::config::arrays::tables;
use crate::config::clients::Client;
use crate::config::named_lists::NamedList;
use crate::config::rule_tables::{read_rule, read_use};
use crate::config::shared_rules::SharedRules;
use crate::config::top::TOP;
use crate::config::values::find;
use crate::faults::{ConfigFault, Key, List, Place, Table};
use crate::rules::{Item, Rule};
use std::alloc::Global;
use std::marker::Model;
use toml::value::Value;

/// The lists of rules of a client, as they stand in the text.
#[derive(Drop)]
pub(crate) struct Policy {
    pub(crate) import: Vec<Item>,
    pub(crate) export: Vec<Item>,
}

impl Model for Policy {
    ghost use Rattle.rs_policy.specs.Configuration.{Stated};

    ghost Value = { Stated };

    ghost view = { λ p. record { import = p.import.items; export = p.export.items } };
}

/// The rules in these tables, which are those of a list, or the first fault.
pub(crate) fn rules_of(
    alloc: Global,
    tables: &[Value],
    number: usize,
    list: List,
    clients: &[Client],
    lists: &[NamedList],
) -> Result<Vec<Rule>, ConfigFault>
    ensures { AnswersItems result
        (answer (rules_checks clients.now lists.now number list (data_of tables.now)) (rules_from clients.now lists.now number list (data_of tables.now))) }
{
    let mut rules = Vec::with_capacity(alloc, tables.len())?;
    for (index, table) in tables.iter().enumerate() {
        let here = Place {
            table: Table::Rule(number, list, index + 1),
            key: Key::Other,
        };
        let rule = read_rule(alloc, table, here, clients, lists)?;
        rules.push(rule)?;
    }
    Ok(rules)
}

/// What a table of a client's list says, or its first fault.
#[tactic(auto, unfolding(crate::specs::Documents::item_checks, crate::specs::Documents::item_of))]
fn read_item(
    alloc: Global,
    table: &Value,
    here: Place,
    clients: &[Client],
    lists: &[NamedList],
    shared: &[SharedRules],
) -> Result<Item, ConfigFault>
    ensures { Answers result
        (answer (item_checks clients.now lists.now shared.now here (view table.now)) (item_of clients.now lists.now shared.now here (view table.now))) }
{
    if find(table, Key::Use).is_some() {
        return Ok(Item::Use(read_use(table, here, shared)?));
    }
    Ok(Item::Own(read_rule(alloc, table, here, clients, lists)?))
}

fn list_key(list: List) -> Key
    ensures { result ≡ list_key list }
{
    match list {
        List::Import => Key::Import,
        List::Export => Key::Export,
        List::Shared => Key::Rules,
    }
}

fn read_list(
    alloc: Global,
    table: &Value,
    client: usize,
    list: List,
    clients: &[Client],
    lists: &[NamedList],
    shared: &[SharedRules],
) -> Result<Vec<Item>, ConfigFault>
    ensures { AnswersItems result
        (answer (list_checks clients.now lists.now shared.now client list (view table.now)) (list_of_items clients.now lists.now shared.now client list (view table.now))) }
{
    let here = Place {
        table: Table::Client(client),
        ..TOP
    };
    let tables = tables(table, 64, here, list_key(list))?;
    let mut items = Vec::with_capacity(alloc, tables.len())?;
    for (index, table) in tables.iter().enumerate() {
        let here = Place {
            table: Table::Rule(client, list, index + 1),
            key: Key::Other,
        };
        let item = read_item(alloc, table, here, clients, lists, shared)?;
        items.push(item)?;
    }
    Ok(items)
}

impl Policy {
    fn read(
        alloc: Global,
        table: &Value,
        client: usize,
        clients: &[Client],
        lists: &[NamedList],
        shared: &[SharedRules],
    ) -> Result<Policy, ConfigFault>
        ensures { Answers result
            (answer (policy_checks clients.now lists.now shared.now client (view table.now)) (policy_from clients.now lists.now shared.now client (view table.now))) }
    {
        let import = read_list(alloc, table, client, List::Import, clients, lists, shared)?;
        let export = read_list(alloc, table, client, List::Export, clients, lists, shared)?;
        Ok(Policy { import, export })
    }
}

/// The rules in the tables of all clients, or the first fault.
pub(crate) fn read_policies(
    alloc: Global,
    tables: &[Value],
    clients: &[Client],
    lists: &[NamedList],
    shared: &[SharedRules],
) -> Result<Vec<Policy>, ConfigFault>
    ensures answers { AnswersItems result
        (answer (policies_checks clients.now lists.now shared.now (data_of tables.now)) (policies_from clients.now lists.now shared.now (data_of tables.now))) }
    ensures count { IfOk result (λ v. length v.items ≡ length tables.now) }
{
    let mut policies = Vec::with_capacity(alloc, tables.len())?;
    for (index, table) in tables.iter().enumerate() {
        let policy = Policy::read(alloc, table, index + 1, clients, lists, shared)?;
        policies.push(policy)?;
    }
    Ok(policies)
}
