//! The command line of rs_served.

use crate::arguments::{CONFIG, FLAG, NUMBER, Row, WORD, command_of, text_of, texts_of};
use crate::asked::CommandLine;
use clap::builder::ValueParser;
use clap::{ArgMatches, Command};
use std::alloc::{AllocError, Global};

/// How much is told on standard error.
#[derive(Clone, Copy, Debug, PartialEq, Eq)]
pub enum LogLevel {
    Error,
    Change,
    Route,
}

/// The levels as they are spelt.
const LEVELS: &[&str] = &["error", "change", "route"];

/// What to serve, and how long.
#[derive(Drop)]
pub struct Options {
    /// The files of the configuration, whose texts are joined in this order; none where a server is asked.
    pub configs: Vec<String>,
    /// How many workers share the work of a turn, 1 to 16.
    pub workers: usize,
    /// After how many sessions that have ended the server ends, from 1; never where there is none.
    pub sessions: Option<u64>,
    /// After how many rounds the configuration is read again, from 1; never where there is none.
    pub reload: Option<u16>,
    /// The address and port at which the server shows itself over HTTP, if it does.
    pub window: Option<String>,
    /// The path of the control socket, if there is one.
    pub control: Option<String>,
    /// The command that the server with that socket is asked, in place of serving.
    pub ask: Option<String>,
    /// Which reports are printed on standard error; none where there is no level.
    pub log: Option<LogLevel>,
    /// They begin with the time of day.
    pub utc: bool,
    /// The file that the run is recorded in, if it is.
    pub record: Option<String>,
    /// How many MiB a file of the record has when the next one is begun, from 1; one file has all of it where
    /// there is none.
    pub record_size: Option<u32>,
    /// The configuration is only to be read.
    pub check: bool,
}

/// The level with this name.
fn level_of(name: Option<&str>) -> Option<LogLevel> {
    match name? {
        "error" => Some(LogLevel::Error),
        "change" => Some(LogLevel::Change),
        "route" => Some(LogLevel::Route),
        _ => None,
    }
}

/// The options, as the help lists them.
static ROWS: [Row; 12] = [
    Row {
        required_without: &["ask"],
        ..CONFIG
    },
    Row {
        name: "workers",
        help: "how many threads decide where much has changed, 1 to 16 (1 if missing)",
        parser: ValueParser::Signed(1, 16),
        ..NUMBER
    },
    Row {
        name: "sessions",
        help: "end once so many sessions have ended",
        ..NUMBER
    },
    Row {
        name: "reload",
        help: "read the configuration again every N rounds, and use its rules where they are good",
        parser: ValueParser::Signed(1, 65535),
        ..NUMBER
    },
    Row {
        name: "window",
        help: "show the server over HTTP there, as at 127.0.0.1:8080, to read alone",
        word: &["ADDRESS:PORT"],
        ..WORD
    },
    Row {
        name: "control",
        help: "take commands at this Unix socket, which the server makes",
        word: &["PATH"],
        ..WORD
    },
    Row {
        name: "ask",
        help: "ask the server whose control socket it is, in place of serving: help lists the commands",
        word: &["COMMAND"],
        excludes: &["config"],
        needs: &["control"],
        ..WORD
    },
    Row {
        name: "log",
        help: "print on standard error what happens, and why: what goes wrong, what changes too, or all",
        word: &["LEVEL"],
        count: (0, 1),
        parser: ValueParser::Names(LEVELS),
        default_word: &["route"],
        ..WORD
    },
    Row {
        name: "utc",
        help: "begin these lines with the time of day, in place of the seconds since the start",
        ..FLAG
    },
    Row {
        name: "record",
        help: "record the run for rs_replay in FILE, and the configuration in FILE.toml, which must not be there",
        ..WORD
    },
    Row {
        name: "record-size",
        help: "begin FILE.1, FILE.2 and so on, each behind N MiB",
        needs: &["record"],
        ..NUMBER
    },
    Row {
        name: "check",
        help: "only read the configuration, and say whether it is good",
        ..FLAG
    },
];

impl CommandLine for Options {
    fn command<'a>(alloc: Global) -> Result<Command<'a>, AllocError> {
        let about = "A BGP-4 route server for internet exchanges";
        command_of(alloc, "rs_served", about, &ROWS)
    }

    fn read(alloc: Global, matches: &ArgMatches<'_>) -> Result<Options, AllocError> {
        Ok(Options {
            configs: texts_of(alloc, matches, "config")?,
            workers: matches.get_one::<usize>("workers").unwrap_or(1),
            sessions: matches.get_one::<u64>("sessions"),
            reload: matches.get_one::<u16>("reload"),
            window: text_of(alloc, matches, "window")?,
            control: text_of(alloc, matches, "control")?,
            ask: text_of(alloc, matches, "ask")?,
            log: level_of(matches.get_str("log")),
            utc: matches.get_flag("utc"),
            record: text_of(alloc, matches, "record")?,
            record_size: matches.get_one::<u32>("record-size"),
            check: matches.get_flag("check"),
        })
    }
}
