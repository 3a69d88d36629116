//! The command line of rs_replay.

use crate::arguments::{CONFIG, FLAG, NUMBER, Row, WORD, WORDS, command_of, text_of, texts_of};
use crate::asked::CommandLine;
use clap::builder::ValueParser;
use clap::{ArgMatches, Command};
use std::alloc::{AllocError, Global};

/// What to play.
#[derive(Drop)]
pub struct Options {
    /// The files of the configuration, whose texts are joined in this order.
    pub configs: Vec<String>,
    /// How many workers share the work of a turn, 1 to 16.
    pub workers: usize,
    /// How far the replay is, is printed on standard error where that is a terminal.
    pub progress: bool,
    /// The file of what another server sent, which is held against what is due.
    pub compare: Option<String>,
    /// The last line of the trace that is played, from 1; all where there is none.
    pub until: Option<u64>,
    /// The clients whose routes are listed at the end, one after the other.
    pub tables: Vec<String>,
}

/// The options, as the help lists them.
static ROWS: [Row; 6] = [
    Row {
        is_required: true,
        ..CONFIG
    },
    Row {
        name: "workers",
        help: "how many workers share the work of a turn, 1 to 16",
        parser: ValueParser::Signed(1, 16),
        default: &["1"],
        ..NUMBER
    },
    Row {
        name: "progress",
        help: "print on standard error, where it is a terminal, how many lines were read and UPDATEs heard, and how much is left of a file",
        ..FLAG
    },
    Row {
        name: "compare",
        help: "hold what another server sent, as this file says, against what is due at the end",
        ..WORD
    },
    Row {
        name: "until",
        help: "play only the first N lines",
        ..NUMBER
    },
    Row {
        name: "table",
        help: "list the routes of this client at the end; may be given more than once",
        word: &["NAME"],
        ..WORDS
    },
];

impl CommandLine for Options {
    fn command<'a>(alloc: Global) -> Result<Command<'a>, AllocError> {
        let about =
            "Plays a recorded session from standard input to a route server and writes what its clients are sent";
        command_of(alloc, "rs_replay", about, &ROWS)
    }

    fn read(alloc: Global, matches: &ArgMatches<'_>) -> Result<Options, AllocError> {
        Ok(Options {
            configs: texts_of(alloc, matches, "config")?,
            workers: matches.get_one::<usize>("workers").unwrap_or(1),
            progress: matches.get_flag("progress"),
            compare: text_of(alloc, matches, "compare")?,
            until: matches.get_one::<u64>("until"),
            tables: texts_of(alloc, matches, "table")?,
        })
    }
}
