//! Sessions by hand: what comes in and what is to be done, with values from the RFCs and from recorded
//! sessions.

mod bodies;
mod rows;

use crate::common::is;
use bodies::*;
use rows::{IN_EACH_STATE, SCRIPTS, STEPS};
use rs_attrs::Mode;
use rs_octets::HeaderFault;
use rs_open::{Limit, Short, ShutdownText, read_open};
use rs_session::{Act, Busy, Command, Heard, Session, Settings, State};
use std::alloc::Global;
use std::process::Abort;

/// A client of AS 64496, and a Hold Time of 90.
const SETTINGS: Settings = Settings {
    peer_as: 64496,
    hold: 90,
    extended: false,
};

/// A client of AS 4200000000.
const LARGE: Settings = Settings {
    peer_as: 4_200_000_000,
    ..SETTINGS
};

/// A client to which long messages may be sent.
const LONG: Settings = Settings {
    extended: true,
    ..SETTINGS
};

/// What befalls a session.
#[derive(Clone, Copy)]
enum Call {
    /// A connection comes.
    Opened,
    /// The body of an OPEN.
    Open(&'static [u8]),
    Hear(Heard),
    At(u64),
    Command(Command),
    /// The connection is lost.
    Lost,
}

/// The answer to a call, of which an OPEN has at least 10 octets. A loss has none.
fn answer(rt: &impl Abort, session: &mut Session, call: Call) -> Result<Act, Busy> {
    match call {
        Call::Opened => return session.opened(),
        Call::Lost => session.lost(),
        Call::Open(body) => {
            assert!(rt; body.len() >= 10);
            return Ok(session.message(Heard::Open(read_open(body))));
        }
        Call::Hear(heard) => return Ok(session.message(heard)),
        Call::At(t) => return Ok(session.moment(t)),
        Call::Command(command) => return Ok(session.command(command)),
    }
    Ok(Act::None)
}

/// A word for an answer.
fn word_for(answer: &Result<Act, Busy>) -> &'static str {
    let Ok(act) = answer else {
        return " busy";
    };
    match act {
        Act::None => " -",
        Act::Up => " up",
        Act::Again => " again",
        Act::Down(said) => if said.is_some() { " down:" } else { " down" },
        Act::Say(short) => match short {
            Short::Open => " OPEN",
            Short::Keepalive => " KEEPALIVE",
            Short::Note { .. } => " a NOTIFICATION",
        },
    }
}

/// Puts an answer behind others: its word, and of a NOTIFICATION its code, its subcode and its data.
fn put_words(rt: &impl Abort, alloc: Global, words: &mut String, answer: Result<Act, Busy>) {
    words.push_str(word_for(&answer)).expect(rt, "a text");
    if let Ok(
        Act::Down(
            Some(
                Short::Note {
                    code,
                    sub,
                    extra,
                    count,
                },
            ),
        ),
    ) = answer
    {
        let note = [code, sub, extra[0], extra[1]];
        let note = note.get(..2 + usize::from(count)).unwrap_or(&[]);
        let digits = hex::encode(alloc, note).expect(rt, "a text");
        words.push_str(&digits).expect(rt, "a text");
    }
}

#[test]
fn calls_in_each_state(rt: HostRuntime) {
    for (call, answers) in &IN_EACH_STATE {
        let mut found = String::new(rt.alloc());
        for steps in 0..=STEPS.len() {
            let mut session = Session::new(SETTINGS);
            for (step, state) in STEPS.iter().take(steps) {
                let _ = answer(&rt, &mut session, *step);
                is(&rt, session.state(), *state, answers);
            }
            let answered = answer(&rt, &mut session, *call);
            put_words(&rt, rt.alloc(), &mut found, answered);
        }
        is(&rt, found.as_str(), *answers, "the answers");
    }
}

#[test]
fn sessions_by_their_calls(rt: HostRuntime) {
    for (name, settings, calls, answers, state) in &SCRIPTS {
        let mut session = Session::new(*settings);
        is(&rt, session.settings(), *settings, name);
        let mut found = String::new(rt.alloc());
        for call in *calls {
            let answered = answer(&rt, &mut session, *call);
            put_words(&rt, rt.alloc(), &mut found, answered);
        }
        is(&rt, found.as_str(), *answers, name);
        is(&rt, session.state(), *state, name);
    }
}

/// OPENs that are taken, each with what holds from then on.
static TAKEN: [(&str, Settings, &[u8], Mode, Limit); 6] = [
    ("two octets", SETTINGS, OF_TWO, Mode::Two, Limit::Short),
    ("four octets", SETTINGS, OPEN, Mode::Four, Limit::Short),
    ("a large AS", LARGE, OF_LARGE, Mode::Four, Limit::Short),
    ("long messages", LONG, OF_LONG, Mode::Four, Limit::Long),
    (
        "long to a client that is not set so",
        SETTINGS,
        OF_LONG,
        Mode::Four,
        Limit::Short,
    ),
    ("not taken", LONG, OPEN, Mode::Four, Limit::Short),
];

#[test]
fn what_holds_once_an_open_is_taken(rt: HostRuntime) {
    for (name, settings, body, mode, limit) in &TAKEN {
        let mut session = Session::new(*settings);
        let _ = answer(&rt, &mut session, Call::Opened);
        is(&rt, session.mode(), None, name);
        let _ = answer(&rt, &mut session, Call::Open(*body));
        is(&rt, session.mode(), Some(*mode), name);
        is(&rt, session.limit(), *limit, name);
        is(&rt, session.identifier(), 0xc000_020b, name);
    }
}
