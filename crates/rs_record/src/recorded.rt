//! A link around another, which is recorded.

ghost use Rattle.std.specs.Prelude.{◌≡◌, ℕ, Bool, List, []};
ghost use Rattle.rs_core.specs.Drives.Steps.{Step};

use crate::recorder::{Pending, Recorder};
use crate::tape::Tape;
use rs_core::{Event, Link, Sink, Source};
use rs_policy::RulesFault;

/// Hands each call on to a link. The tape has the lines of an event once the next one is asked for.
#[derive(Drop)]
pub struct Recorded<'a, L, T> {
    link: &'a mut L,
    recorder: &'a mut Recorder,
    tape: &'a mut T,
}

impl<'a, L, T> Recorded<'a, L, T> {
    /// A link, from now on recorded on a tape.
    pub fn new(link: &'a mut L, recorder: &'a mut Recorder, tape: &'a mut T) -> Recorded<'a, L, T>
        ensures link { result.link.ghost_name ≡ link.entry.ghost_name }
        ensures tape { result.tape.ghost_name ≡ tape.entry.ghost_name }
        ensures recorder { result.recorder.ghost_name ≡ recorder.entry.ghost_name }
        ensures linked { result.link.now ≡ link.old }
        ensures taped { result.tape.now ≡ tape.old }
        ensures names { result.recorder.now.names ≡ recorder.old.names }
        ensures fault { result.recorder.now.fault ≡ recorder.old.fault }
        ensures line { result.recorder.now.line.items ≡ [] }
        ensures pending { result.recorder.now.pending ≡ Pending.Nothing }
    {
        recorder.reset();
        Recorded {
            link,
            recorder,
            tape,
        }
    }
}

impl<'a, L, T: Tape> Recorded<'a, L, T> {
    ghost use Rattle.rs_record.specs.Records.{IsRecord, Keeps};

    /// The last event is over: the tape takes its lines.
    pub(crate) fn finish(&mut self)
        ensures same_link { self.new.link.ghost_name ≡ self.old.link.ghost_name }
        ensures same_recorder { self.new.recorder.ghost_name ≡ self.old.recorder.ghost_name }
        ensures same_tape { self.new.tape.ghost_name ≡ self.old.tape.ghost_name }
        ensures link { self.new.link.now ≡ self.old.link.now }
        ensures names { self.new.recorder.now.names ≡ self.old.recorder.now.names }
        ensures closes { (went : Bool) (held : List ℕ) (steps : List Step) → Keeps self.old.recorder.now.names.names went held steps self.old.recorder.now.fault (T.is_over self.old.tape.now) (T.holds self.old.tape.now) self.old.recorder.now.line.items self.old.recorder.now.pending → IsRecord self.old.recorder.now.names.names went steps self.new.recorder.now.fault (T.is_over self.new.tape.now) held (T.holds self.new.tape.now) }
    {
        self.recorder.finish(self.tape);
    }
}

impl<'a, L: Link, T: Tape> Link for Recorded<'a, L, T> {
    ghost use Rattle.rs_record.specs.Happening.{Happens};

    ghost happens = { λ old step new. Happens L.happens T.is_over T.holds old.link.ghost_name old.recorder.ghost_name old.tape.ghost_name old.link.now old.recorder.now old.tape.now step new.link.ghost_name new.recorder.ghost_name new.tape.ghost_name new.link.now new.recorder.now new.tape.now };

    ghost text = { λ it. L.text it.link.now };
}

impl<'a, L: Source, T: Tape> Source for Recorded<'a, L, T> {
    fn next(&mut self, piece: &mut [u8; 4096]) -> Event {
        self.recorder.finish(self.tape);
        let event = self.link.next(piece);
        self.recorder.begin(event, piece, self.link.rules());
        event
    }

    fn rules(&self) -> &[u8] {
        self.link.rules()
    }
}

impl<'a, L: Sink, T: Tape> Sink for Recorded<'a, L, T> {
    fn begin(&mut self, c: usize) {
        self.link.begin(c);
    }

    fn busy(&mut self, c: usize) {
        self.link.busy(c);
    }

    fn offer(&mut self, c: usize, octets: &[u8]) -> Option<usize> {
        let answer = self.link.offer(c, octets);
        self.recorder.offered(c, octets.len(), answer);
        answer
    }

    fn memory(&mut self, c: usize) {
        self.link.memory(c);
        self.recorder.refused(c);
    }

    fn end(&mut self, c: usize) {
        self.link.end(c);
    }

    fn ruled(&mut self, answer: &Result<(), RulesFault>) {
        self.link.ruled(answer);
    }
}
