//! Shares of neighbouring outlets, each turned by a thread of its own where one can be started.

ghost use Rattle.std.specs.Prelude.{◌≡◌, ◌<◌, ◌≤◌, length};
ghost use Rattle.rs_adjin.specs.AdjIns.{client_count, AreNoted};
ghost use Rattle.rs_policy.specs.Noted.{note_of_import};
ghost use Rattle.rs_outlet.specs.Decided.Precedents.{IsHandover};
ghost use Rattle.rs_outlet.specs.Decided.HeldBy.{tables_of};
ghost use Rattle.rs_workers.specs.Turned.{ArePlaced, AllTurnedAlone, TurnedAlone};

use crate::gate::Gate;
use crate::sharing::{lend_to, share_at};
use rs_adjin::AdjIns;
use rs_outlet::{Handover, Outlet};
use rs_policy::Config;
use std::alloc::Global;
use std::sync::Wait;
use std::thread;
use std::thread::Threads;

/// Turns each outlet, in shares of neighbours. Each share is as long as the number of outlets divided
/// by the number of workers, rounded up; the last may be shorter.
pub fn turn_all<R: Threads + Wait + Sync, G: Gate>(
    rt: &R,
    alloc: Global,
    workers: usize,
    tables: &AdjIns,
    config: &Config,
    outlets: &mut [Outlet],
    gate: &G,
)
    requires workers { (0 < workers) × (workers ≤ 16) }
    requires clients { client_count tables.now ≡ length config.now.clients }
    requires noted { AreNoted (note_of_import config.now) tables.now }
    requires places { ArePlaced config.now outlets.old }
    ensures turned { AllTurnedAlone config.now tables.now outlets.old outlets.new }
    ensures count { length outlets.new ≡ length outlets.old }
{
    if outlets.is_empty() {
        return;
    }
    let size = outlets.len().div_ceil(workers);
    let turn = |start: usize, neighbours: &mut [Outlet]|
        requires { (0 < size) × (client_count tables.now ≡ length config.now.clients) × AreNoted (note_of_import config.now) tables.now × ArePlaced config.now neighbours.now }
        ensures { AllTurnedAlone config.entry.now tables.entry.now neighbours.entry.now neighbours.exit.now }
    { turn_share(alloc, gate, start / size, tables, config, neighbours) };
    thread::for_each_chunk_mut(rt, outlets, size, &turn);
}

/// Turns the outlets of one share, one after the other: choices that were made for one serve the next,
/// and so do rows. Where all is decided anew for one, a neighbour lends it blocks of rows.
pub(crate) fn turn_share<G: Gate>(
    alloc: Global,
    gate: &G,
    share: usize,
    tables: &AdjIns,
    config: &Config,
    outlets: &mut [Outlet],
)
    requires clients { client_count tables.now ≡ length config.now.clients }
    requires noted { AreNoted (note_of_import config.now) tables.now }
    requires places { ArePlaced config.now outlets.old }
    ensures { AllTurnedAlone config.now tables.now outlets.old outlets.new }
{
    gate.enter(share);
    let mut handover = Handover::new(alloc);
    for k in 0..outlets.len() {
        lend_to(alloc, outlets, k, &mut handover);
        turn_one(&mut outlets[k], tables, config, &mut handover);
        share_at(outlets, k);
    }
}

/// Turns one outlet. Whether memory was refused stands in its `last`.
fn turn_one(outlet: &mut Outlet, tables: &AdjIns, config: &Config, handover: &mut Handover)
    requires clients { client_count tables.now ≡ length config.now.clients }
    requires noted { AreNoted (note_of_import config.now) tables.now }
    requires place { outlet.old.client < length config.now.clients }
    requires handover { IsHandover (tables_of config.now tables.now) tables.now handover.old }
    ensures turned { TurnedAlone config.now tables.now outlet.old outlet.new }
    ensures handover { IsHandover (tables_of config.now tables.now) tables.now handover.new }
{
    let _ = outlet.turn(tables, config, handover);
}
