//! Another configuration for a server that runs.

ghost use Rattle.std.specs.Prelude.{◌≡◌, length, IfOk, IfErr};
ghost use Rattle.rs_policy.specs.Replacing.{other_in_top, other_in_client, other_in_clients, other_in_all, first_fixed, Replaces, Refuses};

use crate::config::Config;
use crate::config::clients::Client;
use crate::config::top::{TOP, Top};
use crate::faults::{Key, Place, RulesFault, Table};
use std::alloc::Global;

#[tactic(auto, unfolding(crate::specs::Replacing::other_in_top))]
fn other_in_top(a: &Top, b: &Top) -> Option<Key>
    ensures { result ≡ other_in_top a.now b.now }
{
    if a.server_as != b.server_as {
        return Some(Key::As);
    }
    if a.identifier != b.identifier {
        return Some(Key::Identifier);
    }
    if a.hold != b.hold {
        return Some(Key::Hold);
    }
    if a.extended != b.extended {
        return Some(Key::Extended);
    }
    if a.refresh != b.refresh {
        return Some(Key::Refresh);
    }
    if a.multiprotocol != b.multiprotocol {
        return Some(Key::Multiprotocol);
    }
    None
}

#[tactic(auto, unfolding(crate::specs::Replacing::other_in_client))]
fn other_in_client(a: &Client, b: &Client) -> Option<Key>
    ensures { result ≡ other_in_client a.now b.now }
{
    if a.name.as_str() != b.name.as_str() {
        return Some(Key::Name);
    }
    if a.client_as != b.client_as {
        return Some(Key::As);
    }
    if a.listen.0 != b.listen.0 || a.listen.1 != b.listen.1 {
        return Some(Key::Listen);
    }
    if a.peer != b.peer {
        return Some(Key::Peer);
    }
    None
}

fn other_in_clients(a: &[Client], b: &[Client]) -> Option<Place>
    ensures { result ≡ other_in_all a.now b.now }
{
    if a.len() != b.len() {
        return Some(Place {
            key: Key::Client,
            ..TOP
        });
    }
    for index in 0..a.len() {
        if let Some(key) = other_in_client(&a[index], &b[index]) {
            return Some(Place {
                key,
                table: Table::Client(index + 1),
            });
        }
    }
    None
}

impl Config {
    /// The first place that differs in another configuration and can't while a server runs.
    #[tactic(auto, unfolding(crate::specs::Replacing::first_fixed))]
    pub fn first_fixed(&self, other: &Config) -> Option<Place>
        ensures { result ≡ first_fixed self.now other.now }
    {
        match other_in_top(self.top(), other.top()) {
            Some(key) => Some(Place { key, ..TOP }),
            None => other_in_clients(self.all_clients(), other.all_clients()),
        }
    }

    /// Reads the configuration that replaces this one while a server runs, or answers why it can't.
    #[tactic(auto, using(crate::proofs::Replacing::Fixed::fixed_same))]
    pub fn replacement(&self, alloc: Global, octets: &[u8]) -> Result<Config, RulesFault>
        ensures accepted { IfOk result (Replaces self.now octets.now) }
        ensures refused { IfErr result (Refuses self.now octets.now) }
    {
        let Ok(text) = str::from_utf8(octets) else {
            return Err(RulesFault::Unreadable);
        };
        let new = match Config::read(alloc, text) {
            Ok(new) => new,
            Err(fault) => return Err(RulesFault::Config(fault)),
        };
        match self.first_fixed(&new) {
            Some(place) => Err(RulesFault::Fixed(place)),
            None => Ok(new),
        }
    }
}
