//! The files of the configuration, which both programs read before they begin: their texts are joined, and
//! are one text of a configuration.

ghost use Rattle.std.specs.Prelude.{◌≡◌, ◌≢◌, ◌<◌, ℕ, List, Some, length, map, Ok, Err, IfOk, IfErr, IsOk, IsErr, IsUtf8};
ghost use Rattle.rs_policy.specs.Documents.{config_of};
ghost use Rattle.rs_policy.specs.declared.faults.ConfigFault.{ConfigFault};
ghost use Rattle.rs_start.specs.declared.configuration.ConfigurationFault.TheVariants as faults;
ghost use Rattle.rs_start.specs.declared.status.Status.TheVariants as statuses;
ghost use Rattle.rs_texts.specs.Joined.{joined};
ghost use Rattle.rs_texts.specs.declared.joined.JoinFault.TheVariants as joins;

use crate::Status;
use rs_policy::{Config, ConfigFault};
use rs_texts::{JoinFault, Joined, Text, join, read_on};
use std::alloc::{AllocError, Global};
use std::io::ErrorKind;
use std::rt::Files;
use std::{fmt, fs, io};
use thiserror::Error;

/// Why a file gives no configuration. Its text is the line that is printed on standard error.
#[derive(Clone, Copy, Debug, Drop, Error, PartialEq, Eq)]
pub enum ConfigurationFault {
    /// A file can't be read, or isn't UTF-8.
    #[error("configuration: unreadable")]
    Unreadable,
    /// The files are larger than 64 MiB, together.
    #[error("configuration: larger than 64 MiB")]
    TooLarge,
    /// There are more than 1,024 files.
    #[error("configuration: more than 1024 files")]
    TooMany,
    /// The text is no configuration; this is its first fault.
    #[error("configuration: {0}")]
    Text(ConfigFault),
    /// Memory was refused, which is no fault of a file.
    #[error("out of memory")]
    Memory,
}

impl ConfigurationFault {
    /// The status that the program ends with.
    pub fn status(&self) -> Status
        ensures memory { self.now ≡ faults.Memory → result ≡ statuses.Failed }
        ensures file { self.now ≢ faults.Memory → result ≡ statuses.BadCommand }
    {
        match self {
            ConfigurationFault::Memory => Status::Failed,
            _ => Status::BadCommand,
        }
    }

    /// Prints the fault on standard error, and answers the status to end with.
    pub fn report<R: Eprint>(&self, rt: &R) -> Status
        ensures memory { self.now ≡ faults.Memory → result ≡ statuses.Failed }
        ensures file { self.now ≢ faults.Memory → result ≡ statuses.BadCommand }
    {
        // Where standard error is closed nobody can read it.
        let _ = eprintln!(rt; "{self}");
        self.status()
    }
}

/// The texts of files as one, and the configuration that it is.
#[derive(Drop)]
pub struct Configured {
    pub texts: Joined,
    pub config: Config,
}

/// Why files give no configuration.
#[derive(Clone, Copy, Drop)]
pub struct Unconfigured {
    pub fault: ConfigurationFault,
    /// The file that can't be read, by its place from 0, and why.
    pub unread: Option<(usize, Unread)>,
}

/// Why a file can't be read as text.
#[derive(Clone, Copy, Drop)]
pub enum Unread {
    Fails(io::Error),
    NotUtf8,
}

impl fmt::Display for Unread {
    fn fmt<W: fmt::Write>(&self, f: &mut fmt::Formatter<W>) -> fmt::Result {
        match self {
            Unread::NotUtf8 => f.write_str("not UTF-8"),
            Unread::Fails(error) => match error.kind() {
                ErrorKind::NotFound => f.write_str("there is no such file"),
                ErrorKind::PermissionDenied => f.write_str("there are no rights to read it"),
                ErrorKind::IsADirectory => f.write_str("it is a folder"),
                _ => write!(f, "{error}"),
            },
        }
    }
}

impl Unconfigured {
    /// Texts that were not joined.
    pub fn unjoined(fault: JoinFault) -> Unconfigured
        ensures text { (it : ConfigFault) → result.fault ≢ faults.Text it }
        ensures large { result.fault ≡ faults.TooLarge → fault ≡ joins.TooLarge }
        ensures many { result.fault ≡ faults.TooMany → fault ≡ joins.TooMany }
    {
        let (fault, unread) = match fault {
            JoinFault::Unreadable(place, error) => (
                ConfigurationFault::Unreadable,
                Some((place, Unread::Fails(error))),
            ),
            JoinFault::TooLarge => (ConfigurationFault::TooLarge, None),
            JoinFault::TooMany => (ConfigurationFault::TooMany, None),
            JoinFault::Memory => (ConfigurationFault::Memory, None),
        };
        Unconfigured { fault, unread }
    }

    /// Prints the fault on standard error, and where there are several files which one can't be read, and
    /// why; answers the status to end with.
    pub fn report<R: Eprint>(&self, rt: &R, paths: &[String]) -> Status
        ensures memory { self.now.fault ≡ faults.Memory → result ≡ statuses.Failed }
        ensures file { self.now.fault ≢ faults.Memory → result ≡ statuses.BadCommand }
    {
        let status = self.fault.report(rt);
        if paths.len() > 1
            && let Some((place, why)) = &self.unread
            && let Some(path) = paths.get(*place)
        {
            // Where standard error is closed nobody can read it.
            let _ = eprintln!(rt; "{path}: {why}");
        }
        status
    }
}

/// The file at a path, as a text.
#[derive(Drop)]
struct FileAt<'a, R> {
    rt: &'a R,
    path: &'a str,
}

impl<R: Files> Text for FileAt<'_, R> {
    fn put_behind(&self, front: &mut Vec<u8>) -> io::Result<bool> {
        let mut file = fs::open(self.rt, self.path)?;
        read_on(front, &mut file)
    }
}

/// The files at these paths.
fn files_at<'a, R: Files>(
    rt: &'a R,
    alloc: Global,
    paths: &'a [String],
) -> Result<Vec<FileAt<'a, R>>, AllocError> {
    let mut files = Vec::new(alloc);
    for path in paths {
        files.push(FileAt {
            rt,
            path: path.as_str(),
        })?;
    }
    Ok(files)
}

/// Reads the files at these paths as one text.
pub fn read_texts<R: Files>(rt: &R, alloc: Global, paths: &[String]) -> Result<Joined, JoinFault> {
    let files = files_at(rt, alloc, paths)?;
    join(alloc, &files)
}

/// Reads the configuration whose text the files at these paths are together.
pub fn read_configuration<R: Files>(
    rt: &R,
    alloc: Global,
    paths: &[String],
) -> Result<Configured, Unconfigured> {
    let Ok(files) = files_at(rt, alloc, paths) else {
        return Err(Unconfigured::unjoined(JoinFault::Memory));
    };
    read_configuration_from(alloc, &files)
}

/// Reads the configuration whose text these are together.
pub fn read_configuration_from<T: Text>(
    alloc: Global,
    texts: &[T],
) -> Result<Configured, Unconfigured>
    ensures good { IfOk result (λ it. config_of it.texts.octets.items ≡ Ok it.config) }
    ensures texts { IfOk result (λ it. (all : List (List ℕ)) → map T.octets texts.now ≡ map Some all → it.texts.octets.items ≡ joined all) }
    ensures fault { IfErr result (λ e. (fault : ConfigFault) → e.fault ≡ faults.Text fault → (all : List (List ℕ)) → map T.octets texts.now ≡ map Some all → config_of (joined all) ≡ Err fault) }
    ensures large { IfErr result (λ e. e.fault ≡ faults.TooLarge → (all : List (List ℕ)) → map T.octets texts.now ≡ map Some all → 67108864 < length (joined all)) }
    ensures many { IfErr result (λ e. e.fault ≡ faults.TooMany → 1024 < length texts.now) }
{
    let texts = match join(alloc, texts) {
        Ok(texts) => texts,
        Err(fault) => return Err(Unconfigured::unjoined(fault)),
    };
    match configuration_of(alloc, &texts.octets) {
        Ok(config) => Ok(Configured { texts, config }),
        Err(fault) => Err(Unconfigured {
            fault,
            unread: not_utf8(&texts),
        }),
    }
}

/// The first text that isn't UTF-8.
fn not_utf8(texts: &Joined) -> Option<(usize, Unread)> {
    match str::from_utf8(&texts.octets) {
        Ok(_) => None,
        Err(error) => Some((texts.place(error.valid_up_to()), Unread::NotUtf8)),
    }
}

/// The configuration whose text these octets are.
pub fn configuration_of(alloc: Global, octets: &[u8]) -> Result<Config, ConfigurationFault>
    ensures good { IfOk result (λ config. config_of octets.now ≡ Ok config) }
    ensures fault { IfErr result (λ e. (fault : ConfigFault) → e ≡ faults.Text fault → config_of octets.now ≡ Err fault) }
    ensures faulty { IfErr result (λ e. e ≢ faults.Memory → IsUtf8 octets.now → IsErr (config_of octets.now)) }
    ensures text { IsOk result → IsUtf8 octets.now }
    ensures no_text { IfErr result (λ e. e ≢ faults.Memory → ¬ (IsUtf8 octets.now) → e ≡ faults.Unreadable) }
    ensures readable { IfErr result (λ e. IsUtf8 octets.now → e ≢ faults.Unreadable) }
    ensures small { IfErr result (λ e. e ≢ faults.TooLarge) }
    ensures few { IfErr result (λ e. e ≢ faults.TooMany) }
{
    let Ok(text) = str::from_utf8(octets) else {
        return Err(ConfigurationFault::Unreadable);
    };
    match Config::read(alloc, text) {
        Ok(config) => Ok(config),
        Err(ConfigFault::OutOfMemory) => Err(ConfigurationFault::Memory),
        Err(fault) => Err(ConfigurationFault::Text(fault)),
    }
}
