//! What comes of a command line.

use clap::error::ErrorKind;
use clap::{ArgMatches, Command, Error};
use rs_start::Status;
use std::alloc::{AllocError, Global};
use std::io;

/// Options that the words of a command line give.
pub trait CommandLine: Sized + Drop {
    /// The command line that is understood.
    fn command<'a>(alloc: Global) -> Result<Command<'a>, AllocError>;

    /// The options that were found in it.
    fn read(alloc: Global, matches: &ArgMatches<'_>) -> Result<Self, AllocError>;
}

/// Reads a command line, and prints help or the version on standard output, or what is wrong with it
/// on standard error. An error is refused memory, or printing that failed.
pub fn read_command<O: CommandLine, R: Print + Eprint>(
    rt: &R,
    alloc: Global,
    words: &[String],
) -> io::Result<Asked<O>> {
    Asked::of(rt, read_words(alloc, words))
}

fn read_words<O: CommandLine>(alloc: Global, words: &[String]) -> Result<O, Error> {
    let matches = O::command(alloc)?.try_get_matches_from(words)?;
    Ok(O::read(alloc, &matches)?)
}

/// What a command line asks for.
#[derive(Drop)]
pub enum Asked<T> {
    /// To run by these options.
    Run(T),
    /// To end with this status: help, the version, or what is wrong with the words was printed.
    End(Status),
}

impl<T: Drop> Asked<T> {
    /// What is asked for by options that were read. Where there are none, help or the version is printed on
    /// standard output, or what is wrong with the words on standard error; refused memory is an error.
    fn of<R: Print + Eprint>(rt: &R, read: Result<T, Error>) -> io::Result<Asked<T>> {
        match read {
            Ok(options) => Ok(Asked::Run(options)),
            Err(error) if error.kind() == ErrorKind::OutOfMemory => Err(AllocError.into()),
            Err(error) => {
                error.print(rt)?;
                Ok(Asked::End(if error.use_stderr() {
                    Status::BadCommand
                } else {
                    Status::Done
                }))
            }
        }
    }
}
