//! What command lines ask for. What is printed for lines that ask for nothing, or are refused, is played: by
//! `tools/plays/commands.py`.

mod configuration;

use crate::common::{equals, is, push, text_of};
use rs_command::{Asked, read_command, replay, serve};
use std::alloc::Global;
use std::cell::RefCell;
use std::fmt::{Display, Write};
use std::io;
use std::io::ErrorKind;
use std::process::Abort;

/// Standard output and standard error, kept.
#[derive(Drop)]
struct Streams {
    output: RefCell<String>,
    errors: RefCell<String>,
}

impl Streams {
    fn new(alloc: Global) -> Streams {
        Streams {
            output: RefCell::new(String::new(alloc)),
            errors: RefCell::new(String::new(alloc)),
        }
    }
}

/// Writes after what is kept.
fn keep<D: Display + Drop>(kept: &RefCell<String>, value: D, end: &str) -> io::Result<()> {
    let Ok(mut text) = kept.try_borrow_mut() else {
        return Err(ErrorKind::ResourceBusy.into());
    };
    write!(text, "{value}{end}")?;
    Ok(())
}

impl Print for Streams {
    fn print<D: Display + Drop>(&self, value: D) -> io::Result<()> {
        keep(&self.output, value, "")
    }

    fn println<D: Display + Drop>(&self, value: D) -> io::Result<()> {
        keep(&self.output, value, "\n")
    }

    fn write_all(&self, bytes: &[u8]) -> io::Result<()> {
        match str::from_utf8(bytes) {
            Ok(text) => keep(&self.output, text, ""),
            Err(_) => Err(ErrorKind::InvalidData.into()),
        }
    }
}

impl Eprint for Streams {
    fn eprint<D: Display + Drop>(&self, value: D) -> io::Result<()> {
        keep(&self.errors, value, "")
    }

    fn eprintln<D: Display + Drop>(&self, value: D) -> io::Result<()> {
        keep(&self.errors, value, "\n")
    }
}

/// The words of a command line, which stand one space apart.
fn words_of(rt: &impl Abort, alloc: Global, line: &str) -> Vec<String> {
    let mut words = Vec::new(alloc);
    for word in line.split(' ') {
        push(rt, &mut words, text_of(rt, alloc, &[word]));
    }
    words
}

/// Words, each with a space behind it.
fn line_of(rt: &impl Abort, alloc: Global, words: &[String]) -> String {
    let mut line = String::new(alloc);
    for word in words {
        line.push_str(word).expect(rt, "a line");
        line.push(' ').expect(rt, "a line");
    }
    line
}

/// This was printed on standard output and on standard error.
fn is_printed(rt: &impl Abort, streams: &Streams, output: &str, errors: &str) {
    let printed = streams.output.try_borrow().expect(rt, "a text");
    equals(rt, printed.as_str(), output);
    let printed = streams.errors.try_borrow().expect(rt, "a text");
    equals(rt, printed.as_str(), errors);
}

/// The options of what is asked to run, where nothing is printed.
fn options_of<T: Drop>(rt: &impl Abort, streams: &Streams, asked: Asked<T>) -> T {
    is_printed(rt, streams, "", "");
    let options = match asked {
        Asked::Run(options) => Some(options),
        Asked::End(_) => None,
    };
    options.expect(rt, "options")
}

/// What this line asks of rs_replay: the files of the configuration, how many workers there are, whether progress is shown, what is
/// compared, and how many lines are played.
fn asked_to_play(rt: &impl Abort, alloc: Global, line: &str) -> String {
    let streams = Streams::new(alloc);
    let words = words_of(rt, alloc, line);
    let asked = read_command::<replay::Options, _>(&streams, alloc, &words).expect(rt, "memory");
    let it = options_of(rt, &streams, asked);
    let configs = line_of(rt, alloc, &it.configs);
    format!(in alloc;
        "{configs}{} {} {:?} {:?}",
        it.workers,
        it.progress,
        it.compare.as_deref(),
        it.until
    )
    .expect(rt, "a text")
}

/// Command lines to play, and what they ask for.
static TO_PLAY: [(&str, &str); 5] = [
    ("rs_replay --config a", "a 1 false None None"),
    (
        "rs_replay --config a --compare b --until 7",
        "a 1 false Some(\"b\") Some(7)",
    ),
    (
        "rs_replay --progress --workers 16 --config=a",
        "a 16 true None None",
    ),
    ("rs_replay -c a", "a 1 false None None"),
    (
        "rs_replay --config b --workers 2 -c a -cb --config=c",
        "b a b c 2 false None None",
    ),
];

#[test]
fn options_to_play_by(rt: HostRuntime) {
    for (line, want) in &TO_PLAY {
        is(
            &rt,
            asked_to_play(&rt, rt.alloc(), line).as_str(),
            *want,
            line,
        );
    }
}

/// What this line asks of rs_served: the files of the configuration, how many workers there are, after how many sessions it ends, after how
/// many rounds the configuration is read, what is printed, and whether it is only read; the file of the record, and behind how many MiB
/// another begins; the control socket, and the command for it.
fn asked_to_serve(rt: &impl Abort, alloc: Global, line: &str) -> String {
    let streams = Streams::new(alloc);
    let words = words_of(rt, alloc, line);
    let asked = read_command::<serve::Options, _>(&streams, alloc, &words).expect(rt, "memory");
    let it = options_of(rt, &streams, asked);
    let configs = line_of(rt, alloc, &it.configs);
    format!(in alloc;
        "{configs}{} {:?} {:?} {:?} {}; {:?} {:?}; {:?} {:?}",
        it.workers,
        it.sessions,
        it.reload,
        it.log,
        it.check,
        it.record.as_deref(),
        it.record_size,
        it.control.as_deref(),
        it.ask.as_deref()
    )
    .expect(rt, "a text")
}

/// Command lines to serve, and what they ask for.
static TO_SERVE: [(&str, &str); 13] = [
    (
        "rs_served --config a",
        "a 1 None None None false; None None; None None",
    ),
    (
        "rs_served --config a --workers=16 --sessions 4294967295 --reload 65535 --log",
        "a 16 Some(4294967295) Some(65535) Some(Route) false; None None; None None",
    ),
    (
        "rs_served --check --reload 1 --sessions 1 --config a",
        "a 1 Some(1) Some(1) None true; None None; None None",
    ),
    (
        "rs_served --check -ca",
        "a 1 None None None true; None None; None None",
    ),
    (
        "rs_served -c common --reload 1 --config lists",
        "common lists 1 None Some(1) None false; None None; None None",
    ),
    // levels of the log
    (
        "rs_served --log -c a",
        "a 1 None None Some(Route) false; None None; None None",
    ),
    (
        "rs_served --log error -c a",
        "a 1 None None Some(Error) false; None None; None None",
    ),
    (
        "rs_served --log=change --utc -c a",
        "a 1 None None Some(Change) false; None None; None None",
    ),
    (
        "rs_served -c a --log route",
        "a 1 None None Some(Route) false; None None; None None",
    ),
    // records
    (
        "rs_served -c a --record r",
        "a 1 None None None false; Some(\"r\") None; None None",
    ),
    (
        "rs_served -c a --record-size 64 --record=r",
        "a 1 None None None false; Some(\"r\") Some(64); None None",
    ),
    // the control socket
    (
        "rs_served -c a --control c",
        "a 1 None None None false; None None; Some(\"c\") None",
    ),
    (
        "rs_served --ask show --control=c",
        "1 None None None false; None None; Some(\"c\") Some(\"show\")",
    ),
];

#[test]
fn options_to_serve_by(rt: HostRuntime) {
    for (line, want) in &TO_SERVE {
        is(
            &rt,
            asked_to_serve(&rt, rt.alloc(), line).as_str(),
            *want,
            line,
        );
    }
}
