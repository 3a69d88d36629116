//! The names of clients, as the lines of a trace have them.

ghost use Rattle.std.specs.Prelude.{◌≡◌, ◌≤◌, ◌<◌, IfOk, MatchOption};
ghost use Rattle.rs_record.specs.Named.{AreFound, IsFound, count_of};

use rs_policy::Config;
use rs_trace::names::Names;
use std::alloc::{AllocError, Global};

/// The names of a configuration's clients: each is one word, by which that client is found.
#[derive(Drop)]
pub struct ClientNames {
    pub(crate) names: Names,
    ghost found: { AreFound names },
}

impl ClientNames {
    ghost use Rattle.rs_trace.specs.Replays.{AreNamesOf};

    /// The names of the configuration's clients, in its order.
    pub fn new(alloc: Global, config: &Config) -> Result<ClientNames, AllocError>
        ensures { IfOk result (λ made. AreNamesOf made.names config.now) }
    {
        let names = Names::new(alloc, config)?;
        let _clients = config.clients();
        Ok(ClientNames { names })
    }

    /// The name of a client, where there is such a client.
    pub fn name(&self, c: usize) -> Option<&[u8]>
        ensures { MatchOption result (count_of self.now.names ≤ c) (λ name. (c < count_of self.now.names) × IsFound self.now.names c name.now) }
    {
        if c < self.names.clients() {
            Some(self.names.name(c))
        } else {
            None
        }
    }
}
