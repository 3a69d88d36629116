//! The rules that lists of clients use.

ghost use Rattle.std.specs.Prelude.{◌≡◌, bytes_eq};
ghost use Rattle.std.specs.List.{list_any};
ghost use Rattle.toml.specs.View.{view};
ghost use Rattle.rs_policy.specs.Seen.{data_of};
ghost use Rattle.rs_policy.specs.Values.{answer, Answers, AnswersItems};
ghost use Rattle.rs_policy.specs.Documents.{all_shared_checks, all_shared_from, rules_name_peer, shared_checks, shared_from};

use crate::config::arrays::{needed_tables, refuse_others};
use crate::config::clients::{Client, name_in};
use crate::config::named_lists::NamedList;
use crate::config::policies::rules_of;
use crate::config::rule_tables::rules_name_peer;
use crate::config::top::TOP;
use crate::faults::{ConfigFault, Key, List, Place, Table};
use crate::keys::SHARED_KEYS;
use crate::rules::Rule;
use std::alloc::Global;
use std::marker::Model;
use toml::value::Value;

/// Rules that lists of clients use.
#[derive(Drop)]
pub(crate) struct SharedRules {
    pub(crate) name: String,
    pub(crate) rules: Vec<Rule>,
    /// A part of a test of them is `peer`.
    pub(crate) name_peer: bool,
    ghost peer: { name_peer ≡ rules_name_peer rules.items },
}

impl Model for SharedRules {
    ghost use Rattle.std.specs.Prelude.{string_bytes};
    ghost use Rattle.rs_policy.specs.Configuration.{SharedRules};

    ghost Value = { SharedRules };

    ghost view = { λ s. record { name = string_bytes s.name; rules = s.rules.items } };
}

fn is_among(name: &str, others: &[SharedRules]) -> bool
    ensures { result ≡ list_any (λ s. bytes_eq name.now s.name) others.now }
{
    for other in others {
        if name == other.name.as_str() {
            return true;
        }
    }
    false
}

impl SharedRules {
    /// What such a table sets, or its first fault.
    fn read(
        alloc: Global,
        table: &Value,
        number: usize,
        earlier: &[SharedRules],
        clients: &[Client],
        lists: &[NamedList],
    ) -> Result<SharedRules, ConfigFault>
        ensures { Answers result
            (answer (shared_checks clients.now lists.now number earlier.now (view table.now)) (shared_from clients.now lists.now number (view table.now))) }
    {
        let here = Place {
            table: Table::Rules(number),
            ..TOP
        };
        let name = name_in(table, here)?;
        let tables = needed_tables(table, 64, here, Key::Rules)?;
        refuse_others(table, here, &SHARED_KEYS)?;
        if is_among(name, earlier) {
            return Err(ConfigFault::TwiceRules(number));
        }
        let rules = rules_of(alloc, tables, number, List::Shared, clients, lists)?;
        let name_peer = rules_name_peer(&rules);
        Ok(SharedRules {
            name: String::from_str(alloc, name)?,
            rules,
            name_peer,
        })
    }
}

/// The rules that others use, or their first fault.
pub(crate) fn read_shared_rules(
    alloc: Global,
    tables: &[Value],
    clients: &[Client],
    lists: &[NamedList],
) -> Result<Vec<SharedRules>, ConfigFault>
    ensures { AnswersItems result
        (answer (all_shared_checks clients.now lists.now (data_of tables.now)) (all_shared_from clients.now lists.now (data_of tables.now))) }
{
    let mut shared = Vec::with_capacity(alloc, tables.len())?;
    for (index, table) in tables.iter().enumerate() {
        let rules = SharedRules::read(alloc, table, index + 1, &shared, clients, lists)?;
        shared.push(rules)?;
    }
    Ok(shared)
}
