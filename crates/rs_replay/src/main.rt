//! The program that plays a recorded session: standard input to standard output.
#![tactic(auto)]

mod comparing;
mod connection;
mod findings;
mod input;
mod output;
mod playing;
mod sent;
mod sent_lines;
mod tables;
mod until;

use crate::input::StandardInput;
use crate::output::Output;
use crate::playing::{Outcome, play_and_compare};
use crate::tables::{table_lines, unknown_table};
use crate::until::Until;
use rs_command::replay::Options;
use rs_command::{Asked, read_command};
use rs_policy::Config;
use rs_start::Status;
use rs_start::configuration::read_configuration;
use rs_trace::fault::ReplayFault;
use rs_trace::progress::{Measure, Progress, Unmeasured, Unwatched, Watch};
use rs_trace::replay::{Means, replay};
use rs_trace::text::{OverRead, OverWrite, TextIn, TextOut};
use std::io::{BufWriter, ErrorKind, IsTerminal, Read};
use std::process::ExitCode;
use std::rt::{Env, Files};
use std::sync::Wait;
use std::thread::Threads;
use std::time::Clock;
use std::{fs, io};

/// Reads the words of the command line, and prints help, the version or what is wrong with them.
fn ask<R: Env + Print + Eprint + AllocGlobal>(rt: &R) -> io::Result<Asked<Options>> {
    let alloc = rt.alloc();
    let words: Vec<String> = std::env::args(rt)?.collect(alloc)?;
    read_command(rt, alloc, &words)
}

/// Prints on standard error why the command line was not read, or nothing could be printed of it; answers
/// the status to end with.
fn report_asking_fault<R: Eprint>(rt: &R, error: &io::Error) -> Status {
    let fault = match error.kind() {
        ErrorKind::OutOfMemory => ReplayFault::Memory,
        _ => ReplayFault::Writing,
    };
    // Where standard error is closed nobody can read it.
    let _ = eprintln!(rt; "{fault}");
    Status::Failed
}

/// Why a trace was not played as a whole.
#[derive(Clone, Copy, Debug, Drop)]
enum Ended {
    /// It was not played to its end, or could not be written.
    Fault(ReplayFault),
    /// Nobody reads on what is written.
    Unread,
}

/// Plays a trace, and where a file is named of what another server sent, holds that against what is due
/// where it ends.
fn play_text<R: Files + AllocGlobal + Threads + Wait + Sync, I: TextIn, O: TextOut, P: Watch>(
    rt: &R,
    reader: &mut I,
    writer: &mut O,
    watch: &mut P,
    config: Config,
    options: &Options,
    until: u64,
) -> Result<Outcome, ReplayFault> {
    let alloc = rt.alloc();
    let workers = options.workers.clamp(1, 16);
    let Some(path) = &options.compare else {
        replay(rt, alloc, reader, writer, watch, config, workers)?;
        return Ok(Outcome::Good);
    };
    let Ok(file) = fs::open(rt, path) else {
        return Ok(Outcome::BadFile(ReplayFault::Reading));
    };
    let mut sent = OverRead::new(file);
    let means = Means { rt, alloc, workers };
    play_and_compare(&means, reader, writer, watch, config, &mut sent, until)
}

/// Plays standard input to standard output.
fn play<R: Files + Input + Print + AllocGlobal + Threads + Wait + Sync, P: Watch>(
    rt: &R,
    watch: &mut P,
    config: Config,
    options: &Options,
) -> Result<Outcome, Ended> {
    let alloc = rt.alloc();
    let Ok(buffered) = BufWriter::new(alloc, io::writer(rt)) else {
        return Err(Ended::Fault(ReplayFault::Memory));
    };
    let Ok(tables) = table_lines(alloc, &options.tables) else {
        return Err(Ended::Fault(ReplayFault::Memory));
    };
    let until = options.until.unwrap_or(u64::MAX);
    let trace = Until::new(rt.reader(), until).chain(tables.as_slice());
    let mut reader = OverRead::new(trace);
    let mut writer = OverWrite::new(Output::new(buffered));
    let played = play_text(rt, &mut reader, &mut writer, watch, config, options, until);
    let flushed = writer.flush();
    match played {
        Err(ReplayFault::Memory | ReplayFault::Reading) => {}
        _ if writer.writer.is_closed() => return Err(Ended::Unread),
        Ok(_) | Err(ReplayFault::Line(_, _)) if flushed.is_err() => {
            return Err(Ended::Fault(ReplayFault::Writing));
        }
        _ => {}
    }
    played.map_err(Ended::Fault)
}

/// Plays standard input to standard output, and prints on standard error how far it is.
fn play_watched<
    R: Files + Input + Print + Eprint + Clock + AllocGlobal + Threads + Wait + Sync,
    M: Measure + Drop,
>(rt: &R, measure: M, config: Config, options: &Options) -> Result<Outcome, Ended> {
    let Ok(mut progress) = Progress::new(rt, rt.alloc(), measure, config.clients()) else {
        return Err(Ended::Fault(ReplayFault::Memory));
    };
    let played = play(rt, &mut progress, config, options);
    progress.finish();
    played
}

/// The same, with which part that is and how much is left where standard input is a regular file.
fn play_measured<R: Files + Input + Print + Eprint + Clock + AllocGlobal + Threads + Wait + Sync>(
    rt: &R,
    config: Config,
    options: &Options,
) -> Result<Outcome, Ended> {
    match StandardInput::new(rt, options.until) {
        Some(input) => play_watched(rt, input, config, options),
        None => play_watched(rt, Unmeasured, config, options),
    }
}

fn status_of(played: Result<Outcome, Ended>) -> Status {
    match played {
        Ok(Outcome::Good) => Status::Done,
        Ok(Outcome::Differs) => Status::Differs,
        Ok(Outcome::BadFile(_)) => Status::BadCommand,
        Err(Ended::Fault(ReplayFault::Line(_, _))) => Status::BadTrace,
        Err(_) => Status::Failed,
    }
}

/// Prints on standard error why a trace was not played as a whole, or not compared. The fault of a line
/// of the trace stands in what was written.
fn report_fault<R: Eprint>(rt: &R, played: Result<Outcome, Ended>) {
    // Where standard error is closed nobody can read it.
    let _ = match played {
        Ok(Outcome::BadFile(fault)) => eprintln!(rt; "compare: {fault}"),
        Err(Ended::Fault(ReplayFault::Line(_, _))) => Ok(()),
        Err(Ended::Fault(fault)) => eprintln!(rt; "{fault}"),
        _ => Ok(()),
    };
}

/// Does what the command line asks for, and answers the status to end with. How far a replay is, is printed
/// on a terminal alone.
fn start<R: Env + Files + Input + Print + Eprint + Clock + AllocGlobal + Threads + Wait + Sync>(
    rt: &R,
    is_on_terminal: bool,
) -> Status {
    let options = match ask(rt) {
        Ok(Asked::Run(options)) => options,
        Ok(Asked::End(status)) => return status,
        Err(error) => return report_asking_fault(rt, &error),
    };
    let config = match read_configuration(rt, rt.alloc(), &options.configs) {
        Ok(read) => read.config,
        Err(fault) => return fault.report(rt, &options.configs),
    };
    if let Some(name) = unknown_table(&config, &options.tables) {
        // Where standard error is closed nobody can read it.
        let _ = eprintln!(rt; "table: unknown client {name}");
        return Status::BadCommand;
    }
    let played = if options.progress && is_on_terminal {
        play_measured(rt, config, &options)
    } else {
        play(rt, &mut Unwatched, config, &options)
    };
    report_fault(rt, played);
    status_of(played)
}

fn main(rt: HostRuntime) -> ExitCode {
    let is_on_terminal = rt.stderr().is_terminal();
    ExitCode::from(start(&rt, is_on_terminal).number())
}
