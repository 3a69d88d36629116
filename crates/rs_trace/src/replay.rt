//! Plays a recorded session through the core.

ghost use Rattle.std.specs.Prelude.{◌≡◌, ◌<◌, ◌≤◌, false, [], ◌∷◌, length, IfOk};
ghost use Rattle.rs_policy.specs.Configuration.{Configuration};
ghost use Rattle.rs_core.specs.Core.{client_count};
ghost use Rattle.rs_core.specs.Run.Moves.{Ruled};
ghost use Rattle.rs_core.specs.Run.Agreeing.{Agrees};
ghost use Rattle.rs_trace.specs.Played.{failures_read, failures_written};
ghost use Rattle.rs_trace.specs.Replays.{AreNamesOf, HasPlayed, IsAtFirst, PlaysTo, end_of};
ghost use Rattle.rs_trace.specs.Through.{PlaysThrough, answer_of};

use crate::fault::{ReplayFault, Stop};
use crate::names::Names;
use crate::progress::Watch;
use crate::recording::{Kept, Recording};
use crate::tables::route_lines;
use crate::text::{TextIn, TextOut};
use rs_core::{Core, drive_with};
use rs_policy::Config;
use rs_workers::Free;
use std::alloc::{AllocError, Global};
use std::sync::Wait;
use std::thread::Threads;

/// Plays a trace to its end or to its first fault, whose line is then the last that is written.
/// Each line before it has had its effect. So many workers share the work of a turn.
pub fn replay<T: Threads + Wait + Sync, R: TextIn, W: TextOut, P: Watch>(
    rt: &T,
    alloc: Global,
    reader: &mut R,
    writer: &mut W,
    watch: &mut P,
    config: Config,
    workers: usize,
) -> Result<(), ReplayFault>
    requires { (0 < workers) × (workers ≤ 16) }
    ensures played { HasPlayed config (λ text. R.takes reader.old text reader.new) (R.at_end reader.new) (λ octets. W.puts writer.old octets writer.new) result }
    ensures reads { R.failures reader.new ≡ failures_read (end_of result) (R.failures reader.old) }
    ensures writes { W.failures writer.new ≡ failures_written (end_of result) (W.failures writer.old) }
{
    let means = Means { rt, alloc, workers };
    match play_through(&means, reader, writer, watch, config) {
        Ok(_) => Ok(()),
        Err(fault) => Err(fault),
    }
}

/// By what a trace is played.
#[derive(Drop)]
pub struct Means<'a, T> {
    /// The threads of the workers.
    pub rt: &'a T,
    pub alloc: Global,
    /// How many workers share the work of a turn, 1 to 16.
    pub workers: usize,
}

/// What is there when a trace was played to its end.
#[derive(Drop)]
pub struct Played {
    /// The clients' names.
    pub names: Names,
    /// The route server, as the last line left it.
    pub core: Core,
}

/// What is there before a trace is played.
#[derive(Drop)]
struct Beginning {
    names: Names,
    kept: Kept,
    core: Core,
}

/// Makes what is there before a trace is played.
fn begin(alloc: Global, config: Config) -> Result<Beginning, AllocError>
    ensures names { IfOk result (λ begun. AreNamesOf begun.names config) }
    ensures kept { IfOk result (λ begun. AreNamesOf begun.kept.names config) }
    ensures fresh { IfOk result (λ begun. (begun.kept.lines.lines.rest ≡ []) × (begun.kept.lines.lines.is_over ≡ false) × (begun.kept.lines.text.items ≡ [])) }
    ensures count { IfOk result (λ begun. client_count begun.core ≡ length config.clients) }
    ensures agrees { IfOk result (λ begun. Agrees begun.core (Ruled config ∷ [])) }
{
    Ok(Beginning {
        names: Names::new(alloc, &config)?,
        kept: Kept::new(alloc, &config)?,
        core: Core::new(alloc, config)?,
    })
}

/// Plays a trace as `replay` does, and answers what is there then.
pub fn play_through<T: Threads + Wait + Sync, R: TextIn, W: TextOut, P: Watch>(
    means: &Means<'_, T>,
    reader: &mut R,
    writer: &mut W,
    watch: &mut P,
    config: Config,
) -> Result<Played, ReplayFault>
    requires { (0 < means.now.workers) × (means.now.workers ≤ 16) }
    ensures played { HasPlayed config (λ text. R.takes reader.old text reader.new) (R.at_end reader.new) (λ octets. W.puts writer.old octets writer.new) (answer_of result) }
    ensures through { IfOk result (λ played. PlaysThrough config R.takes R.at_end W.puts reader.old writer.old reader.new writer.new played) }
    ensures reads { R.failures reader.new ≡ failures_read (end_of (answer_of result)) (R.failures reader.old) }
    ensures writes { W.failures writer.new ≡ failures_written (end_of (answer_of result)) (W.failures writer.old) }
{
    let alloc = means.alloc;
    let Ok(begun) = begin(alloc, config) else {
        return Err(ReplayFault::Memory);
    };
    let Beginning {
        names,
        mut kept,
        mut core,
    } = begun;
    let mut recording = Recording::new(alloc, &mut kept, reader, writer, watch);
    match play_on(means.rt, alloc, means.workers, &mut core, &mut recording) {
        Ok(()) => Ok(Played { names, core }),
        Err(fault) => Err(fault),
    }
}

/// Lets the core run until the recording is over, and lists routes where it stops for them. The core
/// is then the one that the course came to.
pub fn play_on<T: Threads + Wait + Sync, R: TextIn, W: TextOut, P: Watch>(
    rt: &T,
    alloc: Global,
    workers: usize,
    core: &mut Core,
    recording: &mut Recording<'_, R, W, P>,
) -> Result<(), ReplayFault>
    requires workers { (0 < workers) × (workers ≤ 16) }
    requires first { IsAtFirst recording.old.lines.now recording.old.number recording.old.stop }
    ensures reader { recording.new.reader.ghost_name ≡ recording.old.reader.ghost_name }
    ensures writer { recording.new.writer.ghost_name ≡ recording.old.writer.ghost_name }
    ensures played { (settings : Configuration) → client_count core.old ≡ length settings.clients → Agrees core.old (Ruled settings ∷ []) → PlaysTo settings R.takes R.at_end W.puts recording.old.names.now recording.old.reader.now recording.old.writer.now recording.new.reader.now recording.new.writer.now core.new result }
    ensures reads { R.failures recording.new.reader.now ≡ failures_read (end_of result) (R.failures recording.old.reader.now) }
    ensures writes { W.failures recording.new.writer.now ≡ failures_written (end_of result) (W.failures recording.old.writer.now) }
{
    for _ in rt.forever() {
        drive_with(rt, workers, &Free, core, recording);
        match recording.stop() {
            None => {}
            Some(Stop::Table(c)) => {
                recording.resume();
                let lines = route_lines(alloc, core, c, recording.name(c));
                recording.list_routes(&lines);
            }
            Some(Stop::End) => return Ok(()),
            Some(Stop::Fault(fault)) => return Err(recording.end_at(fault)),
        }
    }
    unreachable!()
}
