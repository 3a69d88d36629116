//! The names of the clients, by their places in the configuration.

ghost use Rattle.std.specs.Prelude.{◌≡◌, IfOk, length, map};

use crate::trace::Places;
use rs_policy::Config;
use std::alloc::{AllocError, Global};

/// A copy of the names: who reads lines has them while the core has the configuration.
#[derive(Drop)]
pub struct Names {
    pub(crate) names: Vec<Vec<u8>>,
}

impl Names {
    ghost use Rattle.rs_trace.specs.Replays.{AreNamesOf, name_in};

    /// The names of the configuration's clients, in its order.
    pub fn new(alloc: Global, config: &Config) -> Result<Names, AllocError>
        ensures { IfOk result (λ names. AreNamesOf names config.now) }
    {
        let mut names = Vec::new(alloc);
        for c in 0..config.clients() {
            names.push(Vec::from_slice(alloc, config.name(c).as_bytes())?)?;
        }
        Ok(Names { names })
    }

    /// How many clients there are.
    pub fn clients(&self) -> usize
        ensures { result ≡ length self.now.names.items }
    {
        self.names.len()
    }

    /// The name of a client, and nothing where there is no such client.
    pub fn name(&self, c: usize) -> &[u8]
        ensures { result.now ≡ name_in self.now c }
    {
        match self.names.get(c) {
            Some(name) => name,
            None => &[],
        }
    }
}

impl Places for Names {
    ghost use Rattle.rs_trace.specs.Replays.{place_in};

    ghost place_of = { place_in };

    fn place(&self, name: &[u8]) -> Option<usize> {
        self.names.iter().position(|known| known.as_slice() == name)
    }
}
