//! Plays a trace, and holds what another server sent against what is due then.

ghost use Rattle.std.specs.Prelude.{◌≡◌, ◌≢◌, ◌<◌, ◌≤◌, IfOk, if◌then◌else◌};
ghost use Rattle.rs_replay.specs.Comparing.{HasCompared};

use crate::comparing::tell;
use crate::sent::read_sent;
use rs_policy::Config;
use rs_trace::fault::ReplayFault;
use rs_trace::progress::Watch;
use rs_trace::replay::{Means, play_through};
use rs_trace::text::{TextIn, TextOut};
use std::sync::Wait;
use std::thread::Threads;

/// What comes of a trace that was played to its end.
#[derive(Clone, Copy, Debug, Drop)]
pub(crate) enum Outcome {
    /// Nothing was compared, or nothing differs.
    Good,
    /// What another server sent differs from what is due.
    Differs,
    /// The file of what it sent can't be read, or has a fault.
    BadFile(ReplayFault),
}

/// What comes of a file that could not be read to its end; want of memory is no fault of the file.
fn bad_file(fault: ReplayFault) -> Result<Outcome, ReplayFault>
    ensures { IfOk result (λ outcome. (outcome ≡ Outcome.BadFile fault) × (fault ≢ ReplayFault.Memory)) }
{
    match fault {
        ReplayFault::Memory => Err(ReplayFault::Memory),
        _ => Ok(Outcome::BadFile(fault)),
    }
}

/// What comes of a text that was compared.
fn outcome_of(is_same: bool) -> Outcome
    ensures { result ≡ (if is_same then Outcome.Good else Outcome.Differs) }
{
    if is_same {
        Outcome::Good
    } else {
        Outcome::Differs
    }
}

/// Plays a trace, and then writes how what another server sent, a text, differs from what is due. What
/// was sent after line `until` of the trace is left out.
pub(crate) fn play_and_compare<
    T: Threads + Wait + Sync,
    R: TextIn,
    W: TextOut,
    P: Watch,
    S: TextIn,
>(
    means: &Means<'_, T>,
    reader: &mut R,
    writer: &mut W,
    watch: &mut P,
    config: Config,
    sent: &mut S,
    until: u64,
) -> Result<Outcome, ReplayFault>
    requires { (0 < means.now.workers) × (means.now.workers ≤ 16) }
    ensures { IfOk result (λ outcome. HasCompared config R.takes R.at_end W.puts S.takes S.at_end S.failures until reader.old writer.old sent.old reader.new writer.new sent.new outcome) }
{
    let alloc = means.alloc;
    let played = play_through(means, reader, writer, watch, config)?;
    let connections = match read_sent(alloc, &played.core, &played.names, sent, until) {
        Ok(connections) => connections,
        Err(fault) => return bad_file(fault),
    };
    let is_same = tell(alloc, &played.core, &played.names, &connections, writer)?;
    Ok(outcome_of(is_same))
}
