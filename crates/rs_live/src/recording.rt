//! The events of the core's link as lines, on their way to the ports. The ports are the link's while the core
//! is driven, so the lines of a drive wait in a reel, and are handed on after it.

ghost use Rattle.std.specs.Prelude.{◌≡◌, ◌<◌, ◌≤◌, true};
ghost use Rattle.rs_core.specs.Drives.Courses.{Continues};
ghost use Rattle.rs_record.specs.Records.{DrivesRecorded, IsDriven, goes};
ghost use Rattle.rs_live.specs.Calls.{IsFailedAccept};
ghost use Rattle.rs_live.specs.Handled.{EndBy, Has, Keeps};
ghost use Rattle.rs_live.specs.Leaving.{LeavesClients};

use crate::live_link::LiveLink;
use crate::ports::Ports;
use rs_core::{Core, Sink, Source, drive, drive_with};
use rs_policy::Config;
use rs_record::{RecordFault, Recorder, Reel, drive_recorded, drive_recorded_with};
use rs_streams::record_file::RecordEnd;
use rs_workers::Free;
use std::alloc::{AllocError, Global};
use std::sync::Wait;
use std::thread::Threads;

/// How many octets of lines a drive has at most, beside a text of rules.
const MOST: usize = 1_048_576;

/// What records the events of the link, while the record goes on.
#[derive(Drop)]
pub(crate) struct Recording {
    recorder: Recorder,
    reel: Reel,
    goes_on: bool,
}

impl Recording {
    /// Nothing is recorded yet.
    pub(crate) fn new(alloc: Global, config: &Config) -> Result<Recording, AllocError> {
        Ok(Recording {
            recorder: Recorder::new(alloc, config)?,
            reel: Reel::new(alloc, MOST),
            goes_on: false,
        })
    }

    /// The record goes on where the ports have one.
    pub(crate) fn begin<P: Ports>(&mut self, link: &mut LiveLink<'_, P>)
        ensures leaves { LeavesClients link.old link.new }
        ensures handled { Keeps P.asked link.old → Keeps P.asked link.new }
    {
        self.goes_on = link.record(&[], None);
    }

    /// Why the record can't go on.
    fn end(&self) -> Option<RecordEnd> {
        match self.recorder.fault() {
            Some(RecordFault::Memory) => Some(RecordEnd::Memory),
            Some(RecordFault::TextTooLong) => Some(RecordEnd::Rules),
            None if self.reel.is_over() => Some(RecordEnd::Memory),
            None => None,
        }
    }

    /// Hands on what was recorded.
    pub(crate) fn hand_on<P: Ports>(&mut self, link: &mut LiveLink<'_, P>)
        ensures leaves { LeavesClients link.old link.new }
        ensures handled { Keeps P.asked link.old → Keeps P.asked link.new }
        ensures halted { Has P.asked link.old.ports.now (EndBy IsFailedAccept) → Has P.asked link.new.ports.now (EndBy IsFailedAccept) }
    {
        if !self.goes_on {
            return;
        }
        self.goes_on = link.record(self.reel.waiting(), self.end());
        self.reel.clear();
    }

    /// Drives the core by the link until that stops, and records the events while the record goes on.
    pub(crate) fn drive<L: Source + Sink>(&mut self, rt: &impl Wait, core: &mut Core, link: &mut L)
        ensures driven { IsDriven L.happens core.old link.old core.new link.new }
        ensures recorded { self.old.goes_on ≡ true → Continues L.happens core.old link.old core.new link.new (DrivesRecorded self.old.recorder.names.names (goes self.old.recorder.fault self.old.reel.is_over) self.new.recorder.fault self.new.reel.is_over self.old.reel.lines.items self.new.reel.lines.items) }
    {
        if self.goes_on {
            let (recorder, reel) = (&mut self.recorder, &mut self.reel);
            drive_recorded(rt, core, link, recorder, reel);
        } else {
            drive(rt, core, link);
        }
    }

    /// The same with turns by 1 to 16 workers.
    pub(crate) fn drive_with<R: Threads + Wait + Sync, L: Source + Sink>(
        &mut self,
        rt: &R,
        workers: usize,
        core: &mut Core,
        link: &mut L,
    )
        requires { (0 < workers) × (workers ≤ 16) }
        ensures driven { IsDriven L.happens core.old link.old core.new link.new }
        ensures recorded { self.old.goes_on ≡ true → Continues L.happens core.old link.old core.new link.new (DrivesRecorded self.old.recorder.names.names (goes self.old.recorder.fault self.old.reel.is_over) self.new.recorder.fault self.new.reel.is_over self.old.reel.lines.items self.new.reel.lines.items) }
    {
        if self.goes_on {
            let (recorder, reel) = (&mut self.recorder, &mut self.reel);
            drive_recorded_with(rt, workers, &Free, core, link, recorder, reel);
        } else {
            drive_with(rt, workers, &Free, core, link);
        }
    }
}
