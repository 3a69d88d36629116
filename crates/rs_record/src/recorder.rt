//! What a record says of the newest event, until it is known what came of it.

ghost use Rattle.std.specs.Prelude.{◌≡◌, ◌≢◌, ℕ, Bool, List, [], IfOk, IsOk, IsErr, OnOk, None};
ghost use Rattle.rs_core.specs.Drives.Steps.{Step, octets_of};
ghost use Rattle.rs_record.specs.Accounts.{answered, failing, lost, newest, refused, room_said, taken_more};
ghost use Rattle.rs_record.specs.Named.{count_of};
ghost use Rattle.rs_record.specs.Records.{AddsLines, IsRecord, Keeps};

use crate::client_names::ClientNames;
use crate::event_lines::{RecordFault, put_event, say_lost, say_memory, say_room};
use crate::tape::Tape;
use rs_core::Event;
use rs_policy::Config;
use std::alloc::{AllocError, Global};
use std::mem;

/// The line buffer keeps room for the longest line of octets; a text of rules takes more for a while.
const KEPT: usize = 65_536;

/// Room of a client's link: what there was, what it took of the offers since, and whether it took each of
/// them whole.
#[derive(Clone, Copy, Debug, PartialEq, Eq)]
pub struct UsedRoom {
    pub client: usize,
    pub room: u64,
    pub taken: u64,
    pub is_whole: bool,
}

/// What the newest event waits for.
#[derive(Clone, Copy, Debug, PartialEq, Eq)]
pub enum Pending {
    Nothing,
    /// A client was heard: where memory is refused then, its connection is lost.
    Heard,
    /// A client's link has room: it is said as it was used, once all was offered.
    Room(UsedRoom),
}

impl Pending {
    /// So many octets were taken of so many.
    fn take(self, count: usize, taken: usize) -> Pending
        ensures { result ≡ taken_more count taken self }
    {
        match self {
            Pending::Room(used) => Pending::Room(UsedRoom {
                client: used.client,
                room: used.room,
                taken: used.taken.saturating_add(taken as u64),
                is_whole: used.is_whole && taken == count,
            }),
            Pending::Heard => Pending::Heard,
            Pending::Nothing => Pending::Nothing,
        }
    }

    /// An offer failed, of which nothing was taken.
    fn fail(self) -> Pending
        ensures { result ≡ failing self }
    {
        match self {
            Pending::Room(used) => Pending::Room(UsedRoom {
                client: used.client,
                room: used.room,
                taken: used.taken,
                is_whole: false,
            }),
            Pending::Heard => Pending::Heard,
            Pending::Nothing => Pending::Nothing,
        }
    }
}

/// What an event waits for.
fn waits_for(event: Event) -> Pending
    ensures { (n : ℕ) (octets : List ℕ) → result ≡ (newest n event octets).pending }
{
    match event {
        Event::Room(client, room) => Pending::Room(UsedRoom {
            client,
            room,
            taken: 0,
            is_whole: true,
        }),
        Event::Octets(_, _) => Pending::Heard,
        _ => Pending::Nothing,
    }
}

/// Says a room as it was used, where there is such a client.
fn say_used(line: &mut Vec<u8>, names: &ClientNames, used: UsedRoom) -> Result<(), RecordFault>
    ensures { OnOk result (AddsLines names.now.names line.old.items line.new.items (room_said (count_of names.now.names) (Pending.Room used))) }
{
    let room = if used.is_whole { used.room } else { used.taken };
    say_room(line, names, used.client, room)
}

/// What is recorded by. It stays from one drive to the next.
#[derive(Drop)]
pub struct Recorder {
    names: ClientNames,
    /// The lines of the newest event.
    line: Vec<u8>,
    pending: Pending,
    fault: Option<RecordFault>,
}

impl Recorder {
    ghost use Rattle.rs_trace.specs.Replays.{AreNamesOf};

    /// A recorder of a configuration's clients, by which nothing was recorded yet.
    pub fn new(alloc: Global, config: &Config) -> Result<Recorder, AllocError>
        ensures names { IfOk result (λ made. AreNamesOf made.names.names config.now) }
        ensures fine { IfOk result (λ made. made.fault ≡ None) }
    {
        Ok(Recorder {
            names: ClientNames::new(alloc, config)?,
            line: Vec::new(alloc),
            pending: Pending::Nothing,
            fault: None,
        })
    }

    /// Why nothing is recorded any more.
    pub fn fault(&self) -> Option<RecordFault>
        ensures { result ≡ self.now.fault }
    {
        self.fault
    }

    /// Forgets the newest event.
    pub(crate) fn reset(&mut self)
        ensures line { self.new.line.items ≡ [] }
        ensures pending { self.new.pending ≡ Pending.Nothing }
        ensures names { self.new.names ≡ self.old.names }
        ensures fault { self.new.fault ≡ self.old.fault }
    {
        self.line.clear();
        self.line.shrink_to(KEPT);
        self.pending = Pending::Nothing;
    }

    /// Nothing is recorded any more where this failed.
    fn note(&mut self, made: Result<(), RecordFault>)
        ensures ok { IsOk made → self.new ≡ self.old }
        ensures err { IsErr made → self.new.fault ≢ None }
        ensures names { self.new.names ≡ self.old.names }
        ensures line { self.new.line ≡ self.old.line }
        ensures pending { self.new.pending ≡ self.old.pending }
    {
        if let Err(fault) = made {
            self.fault = Some(fault);
        }
    }

    /// Says a client's room as it was used: all of it where each offer was taken whole.
    fn close_room(&mut self)
        ensures names { self.new.names ≡ self.old.names }
        ensures pending { self.new.pending ≡ Pending.Nothing }
        ensures fine { self.new.fault ≡ None → self.old.fault ≡ None }
        ensures says { self.new.fault ≡ None → AddsLines self.old.names.names self.old.line.items self.new.line.items (room_said (count_of self.old.names.names) self.old.pending) }
    {
        let pending = mem::replace(&mut self.pending, Pending::Nothing);
        if let Pending::Room(used) = pending {
            let made = say_used(&mut self.line, &self.names, used);
            self.note(made);
        }
    }

    /// Says that a client's connection is lost.
    fn lose(&mut self, c: usize)
        ensures names { self.new.names ≡ self.old.names }
        ensures pending { self.new.pending ≡ self.old.pending }
        ensures fine { self.new.fault ≡ None → self.old.fault ≡ None }
        ensures says { self.new.fault ≡ None → AddsLines self.old.names.names self.old.line.items self.new.line.items (lost (count_of self.old.names.names) c) }
    {
        let made = say_lost(&mut self.line, &self.names, c);
        self.note(made);
    }

    /// Says in a comment that memory was refused for a client.
    fn comment(&mut self, c: usize)
        ensures names { self.new.names ≡ self.old.names }
        ensures pending { self.new.pending ≡ self.old.pending }
        ensures fine { self.new.fault ≡ None → self.old.fault ≡ None }
        ensures says { self.new.fault ≡ None → AddsLines self.old.names.names self.old.line.items self.new.line.items [] }
    {
        let made = say_memory(&mut self.line, &self.names, c);
        self.note(made);
    }

    /// The newest event is over: the tape takes its lines.
    pub(crate) fn finish<T: Tape>(&mut self, tape: &mut T)
        ensures names { self.new.names ≡ self.old.names }
        ensures line { self.new.line.items ≡ [] }
        ensures closes { (went : Bool) (held : List ℕ) (steps : List Step) → Keeps self.old.names.names went held steps self.old.fault (T.is_over tape.old) (T.holds tape.old) self.old.line.items self.old.pending → IsRecord self.old.names.names went steps self.new.fault (T.is_over tape.new) held (T.holds tape.new) }
    {
        self.close_room();
        if self.fault.is_none() {
            tape.take(self.line.as_slice());
        }
        self.reset();
    }

    /// An event comes, with the octets at the front of the piece and the text of rules that came last.
    pub(crate) fn begin(&mut self, event: Event, piece: &[u8; 4096], rules: &[u8])
        ensures names { self.new.names ≡ self.old.names }
        ensures pending { self.new.pending ≡ (newest (count_of self.old.names.names) event (octets_of event piece.now rules.now)).pending }
        ensures fine { self.new.fault ≡ None → self.old.fault ≡ None }
        ensures says { self.new.fault ≡ None → AddsLines self.old.names.names self.old.line.items self.new.line.items (newest (count_of self.old.names.names) event (octets_of event piece.now rules.now)).said }
    {
        self.pending = waits_for(event);
        if let Event::Room(_, _) = event {
            return;
        }
        let made = put_event(&mut self.line, &self.names, event, piece, rules);
        self.note(made);
    }

    /// A client's link was offered so many octets, and answered this. Where it failed, the connection is lost.
    pub(crate) fn offered(&mut self, c: usize, count: usize, answer: Option<usize>)
        ensures names { self.new.names ≡ self.old.names }
        ensures pending { self.new.pending ≡ (answered (count_of self.old.names.names) c count answer self.old.pending).pending }
        ensures fine { self.new.fault ≡ None → self.old.fault ≡ None }
        ensures says { self.new.fault ≡ None → AddsLines self.old.names.names self.old.line.items self.new.line.items (answered (count_of self.old.names.names) c count answer self.old.pending).said }
    {
        match answer {
            Some(taken) => self.pending = self.pending.take(count, taken),
            None => {
                self.pending = self.pending.fail();
                self.close_room();
                self.lose(c);
            }
        }
    }

    /// Memory was refused for a client: at octets of it, then its connection is lost; or at a turn.
    pub(crate) fn refused(&mut self, c: usize)
        ensures names { self.new.names ≡ self.old.names }
        ensures pending { self.new.pending ≡ (refused (count_of self.old.names.names) c self.old.pending).pending }
        ensures fine { self.new.fault ≡ None → self.old.fault ≡ None }
        ensures says { self.new.fault ≡ None → AddsLines self.old.names.names self.old.line.items self.new.line.items (refused (count_of self.old.names.names) c self.old.pending).said }
    {
        self.comment(c);
        if self.pending == Pending::Heard {
            self.pending = Pending::Nothing;
            self.lose(c);
        }
    }
}
