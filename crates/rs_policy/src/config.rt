//! The configuration of a route server.

mod arrays;
mod clients;
mod indexed;
pub(crate) mod named_lists;
mod policies;
mod replacing;
mod rule_tables;
pub(crate) mod shared_rules;
mod texts;
mod top;
mod values;

ghost use Rattle.std.specs.Prelude.{◌≡◌, ◌<◌, false, length, IfSome, IsTrue};
ghost use Rattle.rs_policy.specs.Rules.{client_named};
ghost use Rattle.toml.specs.Data.{table};
ghost use Rattle.toml.specs.View.{view};
ghost use Rattle.toml.specs.Parse.{parse_document};
ghost use Rattle.rs_policy.specs.Values.{answer, Answers};
ghost use Rattle.rs_policy.specs.Configuration.{client_of, policy_of, shared_at, stated_of};
ghost use Rattle.rs_policy.specs.Noted.{IsRead};
ghost use Rattle.rs_policy.specs.Sound.{IsSound};
ghost use Rattle.rs_policy.specs.Documents.{document_checks, configuration_of, config_of};

use crate::config::clients::{Client, read_clients};
use crate::config::named_lists::{NamedList, read_named_lists};
use crate::config::policies::{Policy, read_policies};
use crate::config::rule_tables::place_of;
use crate::config::shared_rules::{SharedRules, read_shared_rules};
use crate::config::top::{Top, client_tables, list_tables, refuse_other_keys, shared_tables};
use crate::faults::ConfigFault;
use crate::rules::alike::are_same_uses;
use crate::rules::{Disposition, Rules};
use std::alloc::Global;
use std::fmt;
use std::marker::Model;
use toml::value::Value;

/// What a route server is configured to do. Clients are numbered from 0 in the order of the configuration.
#[derive(Drop)]
pub struct Config {
    top: Top,
    clients: Vec<Client>,
    lists: Vec<NamedList>,
    shared: Vec<SharedRules>,
    policies: Vec<Policy>,
}

impl Model for Config {
    ghost use Rattle.rs_policy.specs.Configuration.{Configuration};

    ghost Value = { Configuration };

    ghost use Rattle.rs_policy.specs.Noted.{IsRead};

    ghost view = { λ c. record { top = c.top; clients = c.clients.items; lists = c.lists.items; shared = c.shared.items; policies = c.policies.items } };

    ghost invariant = { λ c. IsRead (record { top = c.top; clients = c.clients.items; lists = c.lists.items; shared = c.shared.items; policies = c.policies.items }) };
}

impl fmt::Debug for Config {
    fn fmt<W: fmt::Write>(&self, f: &mut fmt::Formatter<W>) -> fmt::Result {
        f.debug_struct("Config").finish_non_exhaustive()
    }
}

impl Config {
    /// Reads a configuration in TOML.
    ///
    /// # Errors
    ///
    /// Its first fault, or `OutOfMemory`.
    #[tactic(auto, unfolding(crate::specs::Documents::config_of))]
    pub fn read(alloc: Global, text: &str) -> Result<Config, ConfigFault>
        ensures { Answers result (config_of text.now) }
    {
        match toml::table_from_str(alloc, text) {
            Ok(table) => Config::from_document(alloc, &Value::Table(table)),
            Err(error) if error.is_memory() => Err(ConfigFault::OutOfMemory),
            Err(_) => Err(ConfigFault::Syntax),
        }
    }

    fn from_document(alloc: Global, document: &Value) -> Result<Config, ConfigFault>
        ensures { Answers result
            (answer (document_checks (view document.now)) (configuration_of (view document.now))) }
    {
        let top = Top::read(document)?;
        let tables = client_tables(document)?;
        let named = list_tables(document)?;
        let used = shared_tables(document)?;
        refuse_other_keys(document)?;
        let clients = read_clients(alloc, tables)?;
        let lists = read_named_lists(alloc, named)?;
        let shared = read_shared_rules(alloc, used, &clients, &lists)?;
        let policies = read_policies(alloc, tables, &clients, &lists, &shared)?;
        Ok(Config {
            top,
            clients,
            lists,
            shared,
            policies,
        })
    }

    /// The server's AS number.
    pub fn server_as(&self) -> u32
        ensures { result ≡ self.now.top.server_as }
    {
        self.top.server_as
    }

    /// The server's BGP Identifier.
    pub fn identifier(&self) -> u32
        ensures { result ≡ self.now.top.identifier }
    {
        self.top.identifier
    }

    /// The server's Hold Time in seconds: 0 for none, or at least 3.
    pub fn hold(&self) -> u16
        ensures { result ≡ self.now.top.hold }
    {
        self.top.hold
    }

    /// Whether messages may have up to 65,535 octets (RFC 8654).
    pub fn extended(&self) -> bool
        ensures { result ≡ self.now.top.extended }
    {
        self.top.extended
    }

    /// Whether ROUTE-REFRESH is understood (RFC 2918).
    pub fn refresh(&self) -> bool
        ensures { result ≡ self.now.top.refresh }
    {
        self.top.refresh
    }

    /// Whether the server's OPEN has the capability for IPv4 unicast (RFC 4760).
    pub fn multiprotocol(&self) -> bool
        ensures { result ≡ self.now.top.multiprotocol }
    {
        self.top.multiprotocol
    }

    /// How many clients there are: 1 to 512. What every configuration has is stated here.
    pub fn clients(&self) -> usize
        ensures count { result ≡ length self.now.clients }
        ensures sound { IsSound self.now }
    {
        self.clients.len()
    }

    /// The place of the client with this name, from 0; None where there is none.
    pub fn place(&self, name: &str) -> Option<usize>
        ensures named { result ≡ client_named self.now.clients name.now }
        ensures within { IfSome result (λ c. c < length self.now.clients) }
    {
        place_of(&self.clients, name)
    }

    /// The name of a client.
    pub fn name(&self, c: usize) -> &str
        requires { c < length self.now.clients }
        ensures { result.now ≡ (client_of self.now c).name }
    {
        let client = &self.clients[c];
        client.name.as_str()
    }

    /// The AS number of a client.
    pub fn client_as(&self, c: usize) -> u32
        requires { c < length self.now.clients }
        ensures { result ≡ (client_of self.now c).client_as }
    {
        let client = &self.clients[c];
        client.client_as
    }

    /// The address, as a number, and the port at which the server listens for a client.
    pub fn listen(&self, c: usize) -> (u32, u16)
        requires { c < length self.now.clients }
        ensures { result ≡ (client_of self.now c).listen }
    {
        let client = &self.clients[c];
        client.listen
    }

    /// The address, as a number, that a client connects from.
    pub fn peer(&self, c: usize) -> u32
        requires { c < length self.now.clients }
        ensures { result ≡ (client_of self.now c).peer }
    {
        let client = &self.clients[c];
        client.peer
    }

    /// How many prefixes a client may have announced at once; None where there is no limit.
    pub fn limit(&self, c: usize) -> Option<u32>
        requires { c < length self.now.clients }
        ensures { result ≡ (client_of self.now c).limit }
    {
        let client = &self.clients[c];
        client.limit
    }

    /// What becomes of routes that no rule of a list matches.
    pub(crate) fn default(&self) -> Disposition
        ensures { result ≡ self.now.top.default }
    {
        self.top.default
    }

    /// The rules for the routes that a client sends.
    pub(crate) fn import(&self, c: usize) -> Rules<'_>
        requires { c < length self.now.clients }
        ensures { result ≡ (policy_of self.now c).import }
    {
        let policy = &self.policies[c];
        Rules::of(&policy.import, &self.shared)
    }

    /// The rules for the routes that it is sent.
    pub(crate) fn export(&self, c: usize) -> Rules<'_>
        requires { c < length self.now.clients }
        ensures { result ≡ (policy_of self.now c).export }
    {
        let policy = &self.policies[c];
        Rules::of(&policy.export, &self.shared)
    }

    /// Whether the export lists of two clients have the same rules: both use the same `[[rules]]`, or have none. Of rules that
    /// stand in the lists themselves it is not told. It takes no memory.
    pub fn has_same_exports(&self, one: usize, other: usize) -> bool
        requires one { one < length self.now.clients }
        requires other { other < length self.now.clients }
        ensures { IsTrue result → (policy_of self.now one).export ≡ (policy_of self.now other).export }
    {
        are_same_uses(&self.policies[one].export, &self.policies[other].export)
    }

    /// What it keeps, beside what `clients` says: what an import list makes of a route is the same, whoever
    /// is sent it, and lists are short. Nothing is done.
    pub(crate) fn is_read(&self)
        ensures { IsRead self.now }
    {
        let _read = &self.policies;
    }

    /// The lists of rules of a client, as they stand in the text.
    pub(crate) fn stated(&self, c: usize) -> &Policy
        requires { c < length self.now.clients }
        ensures { result.now ≡ stated_of self.now c }
    {
        &self.policies[c]
    }

    /// The rules that lists use.
    pub(crate) fn shared(&self) -> &[SharedRules]
        ensures { result.now ≡ self.now.shared }
    {
        &self.shared
    }

    /// The name of the rules of this number, from 1, that lists use; empty where there are none.
    pub fn rules_name(&self, number: usize) -> &str
        ensures { result.now ≡ (shared_at self.now number).name }
    {
        match self.shared.get(number.saturating_sub(1)) {
            None => "",
            Some(rules) => rules.name.as_str(),
        }
    }

    /// The lists that rules name.
    pub(crate) fn lists(&self) -> &[NamedList]
        ensures { result.now ≡ self.now.lists }
    {
        &self.lists
    }

    pub(crate) fn top(&self) -> &Top
        ensures { result.now ≡ self.now.top }
    {
        &self.top
    }

    pub(crate) fn all_clients(&self) -> &[Client]
        ensures { result.now ≡ self.now.clients }
    {
        &self.clients
    }
}
