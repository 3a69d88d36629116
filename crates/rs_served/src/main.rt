//! The program of the live route server: reads the command line and the files of the configuration, and
//! serves over sockets.
#![tactic(auto)]

use anyhow::Result;
use rs_check::check;
use rs_command::serve::{LogLevel, Options};
use rs_command::{Asked, read_command};
use rs_live::connections::listen_addresses;
use rs_live::serve::{Limits, serve};
use rs_policy::Config;
use rs_reports::logging::{Level, Log};
use rs_sockets::names::Names;
use rs_sockets::record::Record;
use rs_sockets::sockets::{ListenFault, Sockets};
use rs_start::Status;
use rs_start::configuration::read_configuration;
use rs_visitors::ask::{ask, is_error, is_whole};
use std::alloc::Global;
use std::fmt::Display;
use std::io;
use std::net::{Net, SocketAddr};
use std::process::ExitCode;
use std::rt::{Clock, Env, Files};
use std::sync::Wait;
use std::thread::Threads;

/// What is to be told on standard error.
fn log_of(options: &Options) -> Log {
    let level = match options.log {
        None => None,
        Some(LogLevel::Error) => Some(Level::Error),
        Some(LogLevel::Change) => Some(Level::Change),
        Some(LogLevel::Route) => Some(Level::Route),
    };
    Log {
        level,
        has_utc: options.utc,
    }
}

/// So many MiB, in octets.
fn octets_of_size(size: u32) -> u64 {
    u64::from(size) << 20
}

/// Begins the record of the run, if it is asked for, by the text of the configuration.
fn begin_record<'a, R: Files>(
    rt: &'a R,
    alloc: Global,
    options: &'a Options,
    text: Vec<u8>,
) -> io::Result<Option<Record<'a, R>>> {
    let Some(path) = &options.record else {
        return Ok(None);
    };
    let most = options.record_size.map(octets_of_size);
    Ok(Some(Record::begin(rt, alloc, path, most, text)?))
}

/// The address of the window, where one was asked for; what is none is said, and answered as an error.
fn window_of<R: Eprint>(rt: &R, options: &Options) -> Result<Result<Option<SocketAddr>, Status>> {
    let Some(text) = &options.window else {
        return Ok(Ok(None));
    };
    let Ok(address) = text.as_str().parse::<SocketAddr>() else {
        eprintln!(rt; "--window: {text} is no ADDRESS:PORT, as 127.0.0.1:8080 is")?;
        return Ok(Err(Status::BadCommand));
    };
    if !address.ip().is_loopback() {
        eprintln!(rt;
            "--window: {address} is no loopback address: whoever reaches it can read what is shown"
        )?;
    }
    Ok(Ok(Some(address)))
}

/// Records the run, where that is asked for; answers whether it can be.
fn record<'a, R: Net + Clock + Files + Eprint>(
    rt: &'a R,
    alloc: Global,
    options: &'a Options,
    text: Vec<u8>,
    ports: &mut Sockets<'a, R>,
) -> Result<bool> {
    match begin_record(rt, alloc, options, text) {
        Ok(record) => {
            ports.record_on(record);
            Ok(true)
        }
        Err(error) => {
            eprintln!(rt; "recording failed: {error}")?;
            Ok(false)
        }
    }
}

/// Whether a listener was opened at this address or path. Why it was not is printed.
fn has_opened<R: Eprint, A: Display>(rt: &R, at: &A, opened: io::Result<()>) -> Result<bool> {
    match opened {
        Ok(()) => Ok(true),
        Err(error) => {
            eprintln!(rt; "listening failed: {at}: {error}")?;
            Ok(false)
        }
    }
}

/// Opens the window, where there is to be one; answers whether it could be.
fn open_window<R: Net + Clock + Files + Eprint>(
    rt: &R,
    window: Option<SocketAddr>,
    ports: &mut Sockets<'_, R>,
) -> Result<bool> {
    let Some(address) = window else {
        return Ok(true);
    };
    has_opened(rt, &address, ports.open_window(address))
}

/// Serves over ports that listen, and answers the status to end with.
fn serve_on<R: Threads + Wait + Sync + Net + Clock + Files>(
    rt: &R,
    alloc: Global,
    options: &Options,
    config: Config,
    ports: &mut Sockets<'_, R>,
) -> Status {
    let limits = Limits {
        workers: options.workers.clamp(1, 16),
        sessions: options.sessions,
        reload: options.reload,
    };
    let served = serve(rt, alloc, ports, config, limits);
    ports.finish(&served);
    match served {
        Ok(()) => Status::Done,
        Err(_) => Status::Failed,
    }
}

/// Opens the control socket, where there is to be one; answers whether it could be.
fn open_control<'a, R: Net + Clock + Files + Eprint>(
    rt: &R,
    options: &'a Options,
    ports: &mut Sockets<'a, R>,
) -> Result<bool> {
    let Some(path) = &options.control else {
        return Ok(true);
    };
    has_opened(rt, path, ports.open_control(path))
}

/// What is served, and how.
#[derive(Drop)]
struct Plan<'a> {
    options: &'a Options,
    /// The address of the window, if there is to be one.
    window: Option<SocketAddr>,
    config: Config,
    /// The text of the configuration, which is for the record.
    text: Vec<u8>,
}

/// Begins the record and opens the window and the control socket, where they were asked for; answers whether
/// that could be.
fn make_ready<'a, R: Net + Clock + Files + Eprint>(
    rt: &'a R,
    alloc: Global,
    options: &'a Options,
    window: Option<SocketAddr>,
    text: Vec<u8>,
    ports: &mut Sockets<'a, R>,
) -> Result<bool> {
    Ok(
        record(rt, alloc, options, text, ports)?
            && open_window(rt, window, ports)?
            && open_control(rt, options, ports)?,
    )
}

/// Serves by ports that listen, with a record and a window where they were asked for.
fn serve_by<'a, R: Threads + Wait + Sync + Net + Clock + Files + Eprint>(
    rt: &'a R,
    alloc: Global,
    plan: Plan<'a>,
    ports: &mut Sockets<'a, R>,
) -> Result<Status> {
    let Plan {
        options,
        window,
        config,
        text,
    } = plan;
    if make_ready(rt, alloc, options, window, text, ports)? {
        Ok(serve_on(rt, alloc, options, config, ports))
    } else {
        Ok(Status::Failed)
    }
}

/// Says why the server can't listen, and answers the status to end with.
fn cannot_listen<R: Eprint>(rt: &R, fault: ListenFault) -> Result<Status> {
    eprintln!(rt; "listening failed: {fault}")?;
    Ok(Status::Failed)
}

/// Serves by ports of its own, which are closed after it.
fn serve_and_close<'a, R: Threads + Wait + Sync + Net + Clock + Files + Eprint>(
    rt: &'a R,
    alloc: Global,
    plan: Plan<'a>,
    mut ports: Sockets<'a, R>,
) -> Result<Status> {
    serve_by(rt, alloc, plan, &mut ports)
}

/// Listens at these addresses and serves, and answers the status to end with.
fn listen_and_serve<R: Threads + Wait + Sync + Net + Clock + Files + Print + Eprint>(
    rt: &R,
    alloc: Global,
    plan: Plan<'_>,
    names: &Names,
    addresses: &[(u32, u16)],
) -> Result<Status> {
    let options = plan.options;
    match Sockets::listen(
        rt,
        alloc,
        &options.configs,
        names,
        log_of(options),
        addresses,
    ) {
        Ok(ports) => serve_and_close(rt, alloc, plan, ports),
        Err(fault) => cannot_listen(rt, fault),
    }
}

/// Listens and serves, and answers the status to end with.
fn run<R: Threads + Wait + Sync + Net + Clock + Files + Print + Eprint>(
    rt: &R,
    alloc: Global,
    plan: Plan<'_>,
) -> Result<Status> {
    let names = Names::of(alloc, &plan.config)?.with_files(alloc, &plan.options.configs)?;
    let addresses = listen_addresses(alloc, &plan.config)?;
    listen_and_serve(rt, alloc, plan, &names, &addresses)
}

/// Asks a running server at its control socket, prints what it answers, and answers the status to end with.
fn ask_server<R: Net + Print + Eprint>(
    rt: &R,
    alloc: Global,
    path: &str,
    command: &str,
) -> Result<Status> {
    match ask(rt, alloc, path, command) {
        Ok(answer) if !is_whole(&answer) => {
            eprintln!(rt; "asking failed: {path}: the answer is not whole")?;
            Ok(Status::Failed)
        }
        Ok(answer) => {
            rt.write_all(&answer)?;
            Ok(if is_error(&answer) {
                Status::Refused
            } else {
                Status::Done
            })
        }
        Err(error) => {
            eprintln!(rt; "asking failed: {path}: {error}")?;
            Ok(Status::Failed)
        }
    }
}

/// Does what the command line asks for, and answers the status to end with.
fn start<R: Threads + Wait + Sync + Net + Clock + Env + Files + Print + Eprint + AllocGlobal>(
    rt: &R,
) -> Result<Status> {
    let alloc = rt.alloc();
    let words: Vec<String> = std::env::args(rt)?.collect(alloc)?;
    let options = match read_command::<Options, R>(rt, alloc, &words)? {
        Asked::Run(options) => options,
        Asked::End(status) => return Ok(status),
    };
    if let (Some(command), Some(path)) = (&options.ask, &options.control) {
        return ask_server(rt, alloc, path, command);
    }
    if options.check {
        return Ok(check(rt, alloc, &options.configs)?);
    }
    let read = match read_configuration(rt, alloc, &options.configs) {
        Ok(read) => read,
        Err(fault) => return Ok(fault.report(rt, &options.configs)),
    };
    match window_of(rt, &options)? {
        Ok(window) => {
            let plan = Plan {
                options: &options,
                window,
                config: read.config,
                text: read.texts.octets,
            };
            run(rt, alloc, plan)
        }
        Err(status) => Ok(status),
    }
}

fn main(rt: HostRuntime) -> ExitCode {
    let status = match start(&rt) {
        Ok(status) => status,
        Err(error) => {
            // Where standard error is closed nobody can read it.
            let _ = eprintln!(rt; "{error}");
            Status::Failed
        }
    };
    ExitCode::from(status.number())
}
