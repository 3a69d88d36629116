//! What `--check` says of the files of a configuration: that it is good, and what is likely wrong in it
//! all the same; or its faults, with where they are, what stands there and what is expected.
//!
//! `rs_findings` has the line about each fault and each warning, and the text with a fault mended, by which the
//! next one is found; `faults` has those that are told, and `warnings` what is good but likely wrong.
#![tactic(auto)]

mod faults;
mod warnings;

ghost use Rattle.std.specs.Prelude.{◌≡◌, ◌≢◌, IfOk, IsOk, IsErr, IsUtf8};
ghost use Rattle.rs_policy.specs.Documents.{config_of};
ghost use Rattle.rs_start.specs.declared.status.Status.TheVariants as statuses;

use crate::faults::tell_faults;
use crate::warnings::warnings_of;
use rs_findings::{Files, Source, Warning, not_utf_8_line, stray_line, strays_of};
use rs_policy::Config;
use rs_start::Status;
use rs_start::configuration::{ConfigurationFault, Unconfigured, configuration_of, read_texts};
use rs_texts::Joined;
use std::alloc::{AllocError, Global};
use std::io;

/// Prints a line on standard error. Where that is closed nobody can read it.
fn tell<R: Eprint>(rt: &R, line: &str) {
    let _ = eprintln!(rt; "{line}");
}

/// The same of a line for which there was memory.
fn tell_line<R: Eprint>(rt: &R, line: Result<String, AllocError>) -> Result<(), AllocError> {
    tell(rt, line?.as_str());
    Ok(())
}

/// Tells more of a fault of files.
fn tell_more<R: Eprint>(
    rt: &R,
    alloc: Global,
    files: Files<'_>,
    fault: ConfigurationFault,
) -> Result<(), AllocError> {
    match (str::from_utf8(&files.texts.octets), fault) {
        (Ok(text), ConfigurationFault::Text(fault)) => {
            let source = Source { files, text };
            tell_faults(rt, alloc, &source, fault)?;
            tell_strays(rt, alloc, &source)
        }
        (Err(error), _) => tell_line(rt, not_utf_8_line(alloc, &files, error.valid_up_to())),
        _ => Ok(()),
    }
}

/// Tells what stands at the front of a file and belongs to a table of an earlier one.
fn tell_strays<R: Eprint>(rt: &R, alloc: Global, source: &Source<'_>) -> Result<(), AllocError> {
    for front in &strays_of(alloc, source)? {
        tell_line(rt, stray_line(alloc, source, *front))?;
    }
    Ok(())
}

/// Tells each of these warnings.
fn tell_each<R: Eprint>(
    rt: &R,
    alloc: Global,
    source: &Source<'_>,
    warnings: &[Warning],
) -> Result<(), AllocError> {
    for warning in warnings {
        tell_line(rt, warning.line(alloc, source))?;
    }
    Ok(())
}

/// Tells what is likely wrong in a good configuration.
fn tell_warnings<R: Eprint>(
    rt: &R,
    alloc: Global,
    files: Files<'_>,
    config: &Config,
) -> Result<(), AllocError> {
    let Ok(text) = str::from_utf8(&files.texts.octets) else {
        return Ok(());
    };
    let source = Source { files, text };
    let warnings = warnings_of(alloc, config, text)?;
    tell_each(rt, alloc, &source, &warnings)?;
    tell_strays(rt, alloc, &source)
}

/// Reports that memory was refused, where not all was told.
fn report_more<R: Eprint>(rt: &R, more: Result<(), AllocError>) {
    if more.is_err() {
        ConfigurationFault::Memory.report(rt);
    }
}

/// Prints whether the configuration is good whose text the files of these names are together, and what more
/// there is to say of it; answers the status to end with.
///
/// # Errors
///
/// That of a line on standard output.
pub fn check_texts<R: Print + Eprint>(
    rt: &R,
    alloc: Global,
    texts: &Joined,
    names: &[String],
) -> io::Result<Status>
    ensures good { IfOk result (λ status. status ≡ statuses.Done → IsOk (config_of texts.now.octets.items)) }
    ensures faulty { IfOk result (λ status. status ≡ statuses.BadCommand → IsUtf8 texts.now.octets.items → IsErr (config_of texts.now.octets.items)) }
    ensures text { IfOk result (λ status. status ≡ statuses.Done → IsUtf8 texts.now.octets.items) }
    ensures untraced { IfOk result (λ status. status ≢ statuses.BadTrace) }
{
    let files = Files { texts, names };
    match configuration_of(alloc, &texts.octets) {
        Ok(config) => {
            println!(rt; "configuration: good, {} clients", config.clients())?;
            report_more(rt, tell_warnings(rt, alloc, files, &config));
            Ok(Status::Done)
        }
        Err(fault) => {
            let status = fault.report(rt);
            report_more(rt, tell_more(rt, alloc, files, fault));
            Ok(status)
        }
    }
}

/// The same of the files at these paths.
pub fn check<R: std::rt::Files + Print + Eprint>(
    rt: &R,
    alloc: Global,
    paths: &[String],
) -> io::Result<Status>
    ensures { IfOk result (λ status. status ≢ statuses.BadTrace) }
{
    match read_texts(rt, alloc, paths) {
        Ok(texts) => check_texts(rt, alloc, &texts, paths),
        Err(fault) => {
            let unread = Unconfigured::unjoined(fault);
            let status = unread.report(rt, paths);
            if paths.len() < 2
                && let Some((_, why)) = &unread.unread
            {
                // Where standard error is closed nobody can read it.
                let _ = eprintln!(rt; "{why}");
            }
            Ok(status)
        }
    }
}
