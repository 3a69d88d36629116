//! The clients of a configuration.

ghost use Rattle.std.specs.Prelude.{◌≡◌, ◌+◌, [], ◌<◌, ◌^◌, length, IfOk};
ghost use Rattle.std.specs.List.{list_any};
ghost use Rattle.toml.specs.View.{view};
ghost use Rattle.rs_policy.specs.Seen.{data_of, seen_text};
ghost use Rattle.rs_policy.specs.Values.{text_as, name_of, required_at, answer, Answers, AnswersItems};
ghost use Rattle.rs_policy.specs.Documents.{client_place, is_same, client_checks, client_from, clients_checks, clients_from};

use crate::config::arrays::refuse_others;
use crate::config::texts::is_name;
use crate::config::top::TOP;
use crate::config::values::{Address, Endpoint, POSITIVE, find, maybe, required};
use crate::faults::{ConfigFault, Key, Place, Table};
use crate::keys::CLIENT_KEYS;
use std::alloc::Global;
use std::marker::Model;
use toml::value::Value;

/// A client, but for its rules.
#[derive(Drop)]
pub(crate) struct Client {
    pub(crate) name: String,
    pub(crate) client_as: u32,
    pub(crate) listen: (u32, u16),
    pub(crate) peer: u32,
    pub(crate) limit: Option<u32>,
}

impl Model for Client {
    ghost use Rattle.std.specs.Prelude.{string_bytes};
    ghost use Rattle.rs_policy.specs.Configuration.{Client};

    ghost Value = { Client };

    ghost view = { λ c. record { name = string_bytes c.name; client_as = c.client_as; listen = c.listen; peer = c.peer; limit = c.limit } };
}

/// The name in a table.
#[tactic(auto, unfolding(crate::specs::Values::required_at))]
pub(crate) fn name_in(table: &Value, here: Place) -> Result<&str, ConfigFault>
    ensures { seen_text result ≡ required_at (text_as name_of) here Key.Name (view table.now) }
{
    let place = Place {
        key: Key::Name,
        ..here
    };
    match find(table, Key::Name) {
        None => Err(ConfigFault::Missing(place)),
        Some(value) => match value.as_str() {
            Some(name) if is_name(name.as_bytes()) => Ok(name),
            _ => Err(ConfigFault::BadValue(place)),
        },
    }
}

impl Client {
    /// The same name, or the same pair of `listen` and `peer`.
    fn is_same(&self, other: &Client) -> bool
        ensures { result ≡ is_same self.now other.now }
    {
        self.name.as_str() == other.name.as_str()
            || (self.listen.0 == other.listen.0
                && self.listen.1 == other.listen.1
                && self.peer == other.peer)
    }

    fn is_among(&self, others: &[Client]) -> bool
        ensures { result ≡ list_any (is_same self.now) others.now }
    {
        for other in others {
            if self.is_same(other) {
                return true;
            }
        }
        false
    }

    /// What the table of a client sets, but for its rules, or its first fault.
    #[tactic(auto, unfolding(crate::specs::Values::answer, crate::specs::Documents::client_checks, crate::specs::Documents::client_from))]
    fn read(
        alloc: Global,
        table: &Value,
        number: usize,
        earlier: &[Client],
    ) -> Result<Client, ConfigFault>
        ensures { Answers result
            (answer (client_checks number earlier.now (view table.now)) (client_from number (view table.now))) }
    {
        let here = Place {
            table: Table::Client(number),
            ..TOP
        };
        let name = name_in(table, here)?;
        let client_as = required(table, here, Key::As, POSITIVE)?;
        let listen = required(table, here, Key::Listen, Endpoint)?;
        let peer = required(table, here, Key::Peer, Address)?;
        let limit = maybe(table, here, Key::Limit, POSITIVE)?;
        refuse_others(table, here, &CLIENT_KEYS)?;
        let client = Client {
            name: String::from_str(alloc, name)?,
            client_as,
            listen,
            peer,
            limit,
        };
        if client.is_among(earlier) {
            return Err(ConfigFault::Twice(number));
        }
        Ok(client)
    }
}

/// The clients of a configuration, but for their rules, or their first fault.
pub(crate) fn read_clients(alloc: Global, tables: &[Value]) -> Result<Vec<Client>, ConfigFault>
    ensures answers { AnswersItems result
        (answer (clients_checks (data_of tables.now)) (clients_from (data_of tables.now))) }
    ensures count { IfOk result (λ v. length v.items ≡ length tables.now) }
{
    let mut clients = Vec::with_capacity(alloc, tables.len())?;
    for (index, table) in tables.iter().enumerate() {
        let client = Client::read(alloc, table, index + 1, &clients)?;
        clients.push(client)?;
    }
    Ok(clients)
}
