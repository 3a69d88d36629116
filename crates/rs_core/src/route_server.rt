//! The parts of the route server.

ghost use Rattle.std.specs.Prelude.{◌≡◌, length};
ghost use Rattle.std.proofs.Props.{props};
ghost use Rattle.rs_core.specs.Ribs.{IsFresh, IsNumbered};

use crate::endings::Watched;
use crate::ribs::Ribs;
use rs_session::Session;
use std::alloc::Global;

/// A route server, but for its links. Clients are counted from 0, in the order of the configuration.
#[derive(Drop)]
pub struct Core {
    pub(crate) alloc: Global,
    /// How many clients there are. No call changes it.
    pub(crate) count: usize,
    pub(crate) sessions: Vec<Session>,
    /// Of each client the octets that are no whole message yet.
    pub(crate) buffers: Vec<Vec<u8>>,
    pub(crate) ribs: Ribs,
    /// Of each client what is kept for the operator alone.
    pub(crate) watched: Vec<Watched>,
    ghost sessions_len: { length sessions.items ≡ count },
    ghost buffers_len: { length buffers.items ≡ count },
    ghost ribs_len: { ribs.count ≡ count },
    ghost watched_len: { length watched.items ≡ count },
    ghost numbered: { IsNumbered ribs } by { Prim.hlevel props },
    ghost fresh: { IsFresh ribs },
}
