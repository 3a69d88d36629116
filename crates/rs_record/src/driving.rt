//! Drives a route server by a link, and records what happens.

ghost use Rattle.std.specs.Prelude.{◌≡◌, ◌<◌, ◌≤◌};
ghost use Rattle.rs_core.specs.Drives.Courses.{Continues};
ghost use Rattle.rs_record.specs.Records.{DrivesRecorded, IsDriven, goes};

use crate::recorded::Recorded;
use crate::recorder::Recorder;
use crate::tape::Tape;
use rs_core::{Core, Sink, Source, drive, drive_with};
use rs_workers::Gate;
use std::sync::Wait;
use std::thread::Threads;

/// Drives a route server by a link until its source stops, as `drive` of `rs_core` does.
pub fn drive_recorded<L: Source + Sink, T: Tape>(
    rt: &impl Wait,
    core: &mut Core,
    link: &mut L,
    recorder: &mut Recorder,
    tape: &mut T,
)
    ensures driven { IsDriven L.happens core.old link.old core.new link.new }
    ensures recorded { Continues L.happens core.old link.old core.new link.new (DrivesRecorded recorder.old.names.names (goes recorder.old.fault (T.is_over tape.old)) recorder.new.fault (T.is_over tape.new) (T.holds tape.old) (T.holds tape.new)) }
    ensures names { recorder.new.names ≡ recorder.old.names }
{
    let mut recorded = Recorded::new(link, recorder, tape);
    drive(rt, core, &mut recorded);
    recorded.finish();
}

/// The same with turns by 1 to 16 workers, as `drive_with` of `rs_core` does.
pub fn drive_recorded_with<R: Threads + Wait + Sync, G: Gate, L: Source + Sink, T: Tape>(
    rt: &R,
    workers: usize,
    gate: &G,
    core: &mut Core,
    link: &mut L,
    recorder: &mut Recorder,
    tape: &mut T,
)
    requires workers { (0 < workers) × (workers ≤ 16) }
    ensures driven { IsDriven L.happens core.old link.old core.new link.new }
    ensures recorded { Continues L.happens core.old link.old core.new link.new (DrivesRecorded recorder.old.names.names (goes recorder.old.fault (T.is_over tape.old)) recorder.new.fault (T.is_over tape.new) (T.holds tape.old) (T.holds tape.new)) }
    ensures names { recorder.new.names ≡ recorder.old.names }
{
    let mut recorded = Recorded::new(link, recorder, tape);
    drive_with(rt, workers, gate, core, &mut recorded);
    recorded.finish();
}
