//! The loop of the server.

ghost use Rattle.std.specs.Prelude.{◌≡◌, ◌≤◌, ◌<◌, List, [], false, true, IsOk, IsErr, IsTrue};
ghost use Rattle.rs_live.specs.Calls.{IsFailedAccept};
ghost use Rattle.rs_live.specs.Handled.{Has, EndBy, IsRunning, IsServed, Keeps};
ghost use Rattle.rs_live.specs.Keeping.{Agrees, all_held};
ghost use Rattle.rs_live.specs.Leaving.{SamePorts};
ghost use Rattle.rs_live.specs.Operations.{Operation};
ghost use Rattle.rs_live.specs.Orders.{MayEnd};

use crate::connections::connections;
use crate::live_link::{LiveLink, Stage};
use crate::ports::Ports;
use crate::recording::Recording;
use crate::watch::Watch;
use rs_core::Core;
use rs_policy::Config;
use std::alloc::{AllocError, Global};
use std::sync::Wait;
use std::thread::Threads;
use thiserror::Error;

/// Why the server ended.
#[derive(Clone, Copy, Debug, Drop, Error, PartialEq, Eq)]
pub enum ServeFault {
    #[error("a listener failed")]
    Listener,
    #[error("the poll failed")]
    Poll,
    #[error("out of memory")]
    Memory,
}

/// What a server is given beside its configuration.
#[derive(Clone, Copy, Debug, PartialEq, Eq)]
pub struct Limits {
    /// How many workers turn where much was heard: 1 to 16.
    pub workers: usize,
    /// After how many ended sessions the server ends; `None`: never.
    pub sessions: Option<u64>,
    /// Every how many rounds the ports are asked for a text of rules; `None`: never.
    pub reload: Option<u16>,
}

/// Serves the clients of a configuration, over ports that listen already and were asked nothing yet.
/// It ends without a fault once `sessions` begun sessions have ended and their connections are closed; or, where
/// the ports give the order to end, once no client has a connection, or five seconds later.
///
/// # Errors
///
/// `Poll` where `wait` failed, `Listener` where `accept` failed, and `Memory` where memory was refused
/// at the start, before the first call of the ports. Any other fault of the ports is a lost connection,
/// and all others go on.
#[tactic(auto, using(crate::proofs::Handling::Calls::unasked))]
pub fn serve<R: Threads + Wait + Sync, P: Ports>(
    rt: &R,
    alloc: Global,
    ports: &mut P,
    config: Config,
    limits: Limits,
) -> Result<(), ServeFault>
    requires workers { (0 < limits.workers) × (limits.workers ≤ 16) }
    ensures served { P.asked ports.old [] → Has P.asked ports.new (IsServed limits.sessions result) }
{
    let Ok(mut connections) = connections(alloc, &config) else {
        return Err(ServeFault::Memory);
    };
    let Ok((mut watch, mut recording, mut core)) = set_up(alloc, config) else {
        return Err(ServeFault::Memory);
    };
    let mut text = Vec::new(alloc);
    let mut read = Vec::new(alloc);
    let mut link = LiveLink::new(ports, &mut connections, &mut text, &mut read);
    serve_on(rt, limits, &mut watch, &mut recording, &mut core, &mut link)
}

/// What a run needs beside its connections.
fn set_up(alloc: Global, config: Config) -> Result<(Watch, Recording, Core), AllocError> {
    let watch = Watch::new(alloc, config.clients())?;
    let recording = Recording::new(alloc, &config)?;
    Ok((watch, recording, Core::new(alloc, config)?))
}

/// Serves round by round.
fn serve_on<R: Threads + Wait + Sync, P: Ports>(
    rt: &R,
    limits: Limits,
    watch: &mut Watch,
    recording: &mut Recording,
    core: &mut Core,
    link: &mut LiveLink<'_, P>,
) -> Result<(), ServeFault>
    requires workers { (0 < limits.workers) × (limits.workers ≤ 16) }
    ensures same_ports { SamePorts link.old link.new }
    ensures served { link.old.phase.stage ≡ Stage.Over → IsRunning P.asked link.old → Has P.asked link.new.ports.now (IsServed limits.sessions result) }
{
    let mut rounds = 0;
    recording.begin(link);
    for _ in rt.forever() {
        if !link.begin_round(core.quiet_until()) {
            return Err(ServeFault::Poll);
        }
        rounds = reload(rounds, limits.reload, link);
        match play_round(rt, limits.workers, recording, core, link) {
            Ok(()) => watch.report(core, link),
            Err(_) => return Err(ServeFault::Listener),
        }
        link.show(core);
        if is_done(limits.sessions, link) {
            return Ok(());
        }
    }
    unreachable!()
}

/// Reads the file of rules in a round in which it is to be read, and answers the number of the round
/// since the last such one.
fn reload<P: Ports>(rounds: u16, every: Option<u16>, link: &mut LiveLink<'_, P>) -> u16
    ensures same_ports { SamePorts link.old link.new }
    ensures failed { link.new.has_failed ≡ link.old.has_failed }
    ensures handled { link.old.phase.stage ≡ Stage.Start → Keeps P.asked link.old → Keeps P.asked link.new }
{
    let next = next_round(rounds, every);
    if next == 0 {
        link.read_rules();
    }
    next
}

/// As many sessions have ended as were asked for, and their connections are closed; or the server may end as
/// it was ordered.
fn is_done<P: Ports>(sessions: Option<u64>, link: &LiveLink<'_, P>) -> bool
    ensures { IsTrue result → (operations : List Operation) → Agrees (all_held link.now) link.now.phase operations → MayEnd sessions operations }
{
    match sessions {
        Some(most) if link.ended() >= most && link.has_closed_all() => true,
        _ => link.is_at_end(),
    }
}

/// Drives the core until the round is over, with all workers where the link asks for them.
fn play_round<R: Threads + Wait + Sync, P: Ports>(
    rt: &R,
    workers: usize,
    recording: &mut Recording,
    core: &mut Core,
    link: &mut LiveLink<'_, P>,
) -> Result<(), ServeFault>
    requires workers { (0 < workers) × (workers ≤ 16) }
    ensures same_ports { SamePorts link.old link.new }
    ensures over { IsOk result → link.new.phase.stage ≡ Stage.Over }
    ensures ok { IsOk result → IsRunning P.asked link.old → IsRunning P.asked link.new }
    ensures err { IsErr result → IsRunning P.asked link.old → Has P.asked link.new.ports.now (EndBy IsFailedAccept) }
{
    for _ in rt.forever() {
        drive_on(rt, workers, recording, core, link);
        recording.hand_on(link);
        if link.has_failed() {
            return Err(ServeFault::Listener);
        }
        if link.is_over() {
            return Ok(());
        }
    }
    unreachable!()
}

/// Drives the core until the link stops, with all workers where it asks for them.
fn drive_on<R: Threads + Wait + Sync, P: Ports>(
    rt: &R,
    workers: usize,
    recording: &mut Recording,
    core: &mut Core,
    link: &mut LiveLink<'_, P>,
)
    requires workers { (0 < workers) × (workers ≤ 16) }
    ensures same_ports { SamePorts link.old link.new }
    ensures handled { IsRunning P.asked link.old → link.new.has_failed ≡ false → Keeps P.asked link.new }
    ensures halted { IsRunning P.asked link.old → link.new.has_failed ≡ true → Has P.asked link.new.ports.now (EndBy IsFailedAccept) }
{
    if link.is_wide() {
        recording.drive_with(rt, workers, core, link);
    } else {
        recording.drive(rt, core, link);
    }
}

/// The number of a round since the last one in which the file of rules was read: 0 where it is to be
/// read again.
fn next_round(rounds: u16, reload: Option<u16>) -> u16 {
    match reload {
        None => 1,
        Some(every) => {
            let next = rounds.saturating_add(1);
            if next >= every { 0 } else { next }
        }
    }
}
