//! Drives a route server by a link.

ghost use Rattle.std.specs.Prelude.{◌≡◌, ◌≢◌, ◌<◌, ◌≤◌, true, false, List, [], take};
ghost use Rattle.rs_core.specs.Core.{client_count, is_refused, refused_below};
ghost use Rattle.rs_core.specs.Drives.Steps.{HasLed, HasStopped, Leads, Memory, Step, octets_of, stops};
ghost use Rattle.rs_core.specs.Drives.Courses.{Continues, memories};
ghost use Rattle.rs_core.specs.Drives.Answers.{Answers, AreTurns, Drives, Ended, EndsAll};
ghost use Rattle.rs_core.specs.Drives.Closing.{DoesAmong};

mod closing;
mod offering;

use crate::driving::closing::MayClose;
use crate::driving::offering::use_room;
use crate::links::{Event, Sink, Source};
use crate::route_server::Core;
use rs_outlet::Last;
use rs_session::{Busy, Command};
use rs_workers::Gate;
use std::sync::Wait;
use std::thread::Threads;

/// What is left to do for an event that has come.
#[derive(Clone, Copy)]
enum Todo {
    /// Nothing: it was answered.
    Nothing,
    /// A turn of all clients.
    Turn,
    /// The drive ends.
    Stop,
}

/// Drives a route server by a link until its source stops, on one thread. It may be called again.
/// The source's stop is the last step of the link.
pub fn drive<L: Source + Sink>(rt: &impl Wait, core: &mut Core, link: &mut L)
    ensures count { client_count core.new ≡ client_count core.old }
    ensures led { HasStopped L.happens link.old link.new }
    ensures drives { Continues L.happens core.old link.old core.new link.new Drives }
{
    drive_by(rt, core, link, turn);
}

/// The same with turns by 1 to 16 workers.
pub fn drive_with<R: Threads + Wait + Sync, G: Gate, L: Source + Sink>(
    rt: &R,
    workers: usize,
    gate: &G,
    core: &mut Core,
    link: &mut L,
)
    requires { (0 < workers) × (workers ≤ 16) }
    ensures count { client_count core.new ≡ client_count core.old }
    ensures led { HasStopped L.happens link.old link.new }
    ensures drives { Continues L.happens core.old link.old core.new link.new Drives }
{
    let do_turn = |core: &mut Core, link: &mut L|
        requires { (0 < workers) × (workers ≤ 16) }
    { turn_with(rt, workers, gate, core, link) };
    drive_by(rt, core, link, do_turn);
}

/// The one loop of both: each turn is a call of `do_turn`.
fn drive_by<L: Source + Sink, T: Fn(&mut Core, &mut L)>(
    rt: &impl Wait,
    core: &mut Core,
    link: &mut L,
    do_turn: T,
)
    requires callable { T.IsAlwaysCallable do_turn }
    requires turns { AreTurns L.happens (T.post do_turn) }
    ensures count { client_count core.new ≡ client_count core.old }
    ensures led { HasStopped L.happens link.old link.new }
    ensures drives { Continues L.happens core.old link.old core.new link.new Drives }
{
    let mut piece = [0; 4096];
    let mut closing = MayClose::all();
    for _ in rt.forever() {
        let event = link.next(&mut piece);
        closing.note(event);
        match answer(core, link, event, &piece) {
            Todo::Nothing => end_closed(core, link, &mut closing),
            Todo::Turn => {
                do_turn(core, link);
                end_closed(core, link, &mut closing);
            }
            Todo::Stop => return,
        }
    }
}

/// Answers an event, but for a turn and a stop, which are left to do and change nothing yet. An event of a
/// client that is not there, or of more octets than a piece has, is passed over.
fn answer<L: Source + Sink>(core: &mut Core, link: &mut L, event: Event, piece: &[u8; 4096]) -> Todo
    ensures stop { result ≡ Todo.Stop → event ≡ Event.Stop }
    ensures turn { result ≡ Todo.Turn → event ≡ Event.Turn }
    ensures goes_on { result ≡ Todo.Nothing → stops event ≡ false }
    ensures count { client_count core.new ≡ client_count core.old }
    ensures led { HasLed L.happens link.old link.new }
    ensures unchanged { result ≢ Todo.Nothing → (core.new ≡ core.old) × (link.new ≡ link.old) }
    ensures answers { result ≡ Todo.Nothing → Continues L.happens core.old link.old core.new link.new (Answers (octets_of event piece.now (L.text link.old)) event) }
{
    match event {
        Event::Opened(c) => open(core, link, c),
        Event::Octets(c, len) => hear(core, link, c, len, piece),
        Event::Moment(t) => core.moment(t),
        Event::Commanded(c, command) => obey(core, link, c, command),
        Event::Turn => return Todo::Turn,
        Event::Room(c, room) => use_room(core, link, c, room),
        Event::Lost(c) => lose(core, link, c),
        Event::Rules => rule(core, link),
        Event::Stop => return Todo::Stop,
    }
    Todo::Nothing
}

/// A turn of all clients.
fn turn<L: Sink>(core: &mut Core, link: &mut L)
    ensures count { client_count core.new ≡ client_count core.old }
    ensures led { HasLed L.happens link.old link.new }
    ensures answers { Continues L.happens core.old link.old core.new link.new (Answers [] Event.Turn) }
{
    core.turn();
    tell_refused(core, link);
}

/// A turn of all clients by workers.
fn turn_with<R: Threads + Wait + Sync, G: Gate, L: Sink>(
    rt: &R,
    workers: usize,
    gate: &G,
    core: &mut Core,
    link: &mut L,
)
    requires { (0 < workers) × (workers ≤ 16) }
    ensures count { client_count core.new ≡ client_count core.old }
    ensures led { HasLed L.happens link.old link.new }
    ensures answers { Continues L.happens core.old link.old core.new link.new (Answers [] Event.Turn) }
{
    core.turn_with(rt, workers, gate);
    tell_refused(core, link);
}

/// A connection of a client has come.
fn open<L: Sink>(core: &mut Core, link: &mut L, c: usize)
    ensures count { client_count core.new ≡ client_count core.old }
    ensures led { HasLed L.happens link.old link.new }
    ensures answers { Continues L.happens core.old link.old core.new link.new (Answers [] (Event.Opened c)) }
{
    if c >= core.clients() {
        return;
    }
    match core.opened(c) {
        Ok(()) => link.begin(c),
        Err(Busy) => link.busy(c),
    }
}

/// Octets of a client have come, so many in a piece.
fn hear<L: Sink>(core: &mut Core, link: &mut L, c: usize, len: usize, piece: &[u8; 4096])
    ensures count { client_count core.new ≡ client_count core.old }
    ensures led { HasLed L.happens link.old link.new }
    ensures answers { Continues L.happens core.old link.old core.new link.new (Answers (take len piece.now) (Event.Octets c len)) }
{
    if c >= core.clients() {
        return;
    }
    if len > 4096 {
        return;
    }
    match core.octets(c, &piece[..len]) {
        Ok(()) => {}
        Err(_) => {
            link.memory(c);
            link.end(c);
        }
    }
}

/// The operator commands this of a client's session.
#[tactic(auto, using(crate::proofs::Drives::Leading::led_same))]
fn obey<L: Sink>(core: &mut Core, link: &mut L, c: usize, command: Command)
    ensures count { client_count core.new ≡ client_count core.old }
    ensures led { HasLed L.happens link.old link.new }
    ensures answers { Continues L.happens core.old link.old core.new link.new (Answers [] (Event.Commanded c command)) }
{
    if c < core.clients() {
        core.command(c, command);
    }
}

/// A connection of a client is lost.
#[tactic(auto, using(crate::proofs::Drives::Leading::led_same))]
fn lose<L: Sink>(core: &mut Core, link: &mut L, c: usize)
    ensures count { client_count core.new ≡ client_count core.old }
    ensures led { HasLed L.happens link.old link.new }
    ensures answers { Continues L.happens core.old link.old core.new link.new (Answers [] (Event.Lost c)) }
{
    if c < core.clients() {
        core.lost(c);
    }
}

/// Another text of rules has come.
fn rule<L: Source + Sink>(core: &mut Core, link: &mut L)
    ensures count { client_count core.new ≡ client_count core.old }
    ensures led { HasLed L.happens link.old link.new }
    ensures answers { Continues L.happens core.old link.old core.new link.new (Answers (L.text link.old) Event.Rules) }
{
    let answer = core.rules(link.rules());
    link.ruled(&answer);
}

/// Reports each client for which memory was refused at its turn.
fn tell_refused<L: Sink>(core: &Core, link: &mut L)
    ensures led { HasLed L.happens link.old link.new }
    ensures told { (first : L) (steps : List Step) → Leads L.happens first steps link.old → Leads L.happens first (memories (refused_below core.now (client_count core.now)) steps) link.new }
{
    for c in 0..core.clients() {
        tell_if_refused(core, link, c);
    }
}

/// Reports a client if memory was refused for it at its turn.
fn tell_if_refused<L: Sink>(core: &Core, link: &mut L, c: usize)
    requires { c < client_count core.now }
    ensures led { HasLed L.happens link.old link.new }
    ensures refused { is_refused core.now c ≡ true → L.happens link.old (Memory c) link.new }
    ensures done { is_refused core.now c ≡ false → link.new ≡ link.old }
{
    match core.last(c) {
        Last::Refused => link.memory(c),
        Last::Never => {}
        Last::Done(_) => {}
    }
}

/// Ends each client that wants to be closed. Only those are asked that may be Closing.
fn end_closed<L: Sink>(core: &mut Core, link: &mut L, closing: &mut MayClose)
    ensures count { client_count core.new ≡ client_count core.old }
    ensures led { HasLed L.happens link.old link.new }
    ensures ends { Continues L.happens core.old link.old core.new link.new (DoesAmong EndsAll closing.old closing.new) }
{
    let count = core.clients();
    let mut from = 0;
    while let Some(c) = closing.next(from, count) {
        ask(core, link, closing, c);
        from = c + 1;
    }
}

/// Ends a client if it wants to be closed, or takes it out of those that may be Closing.
fn ask<L: Sink>(core: &mut Core, link: &mut L, closing: &mut MayClose, c: usize)
    requires client { c < client_count core.old }
    requires few { client_count core.old ≤ 512 }
    ensures count { client_count core.new ≡ client_count core.old }
    ensures led { HasLed L.happens link.old link.new }
    ensures ended { Continues L.happens core.old link.old core.new link.new (DoesAmong (Ended c) closing.old closing.new) }
{
    if !core.is_closing(c) {
        closing.remove(c);
        return;
    }
    end_if_wanted(core, link, c);
}

/// Ends a client if it wants to be closed.
fn end_if_wanted<L: Sink>(core: &mut Core, link: &mut L, c: usize)
    requires { c < client_count core.old }
    ensures count { client_count core.new ≡ client_count core.old }
    ensures led { HasLed L.happens link.old link.new }
    ensures ended { Continues L.happens core.old link.old core.new link.new (Ended c) }
{
    if core.wants_close(c) {
        link.end(c);
        core.lost(c);
    }
}
