//! The names and AS numbers of the clients, for what is printed of them while the core has the
//! configuration; and the paths of its files.

use rs_policy::Config;
use rs_streams::file_watch::FileFault;
use std::alloc::{AllocError, Global};

/// The name and the AS number of each client. Neither changes while the server runs.
#[derive(Drop)]
pub struct Names {
    names: Vec<String>,
    numbers: Vec<u32>,
    /// The paths of the files, where there are several.
    files: Vec<String>,
}

impl Names {
    /// The names of a configuration's clients.
    pub fn of(alloc: Global, config: &Config) -> Result<Names, AllocError> {
        let mut names = Vec::with_capacity(alloc, config.clients())?;
        let mut numbers = Vec::with_capacity(alloc, config.clients())?;
        for c in 0..config.clients() {
            names.push(String::from_str(alloc, config.name(c))?)?;
            numbers.push(config.client_as(c))?;
        }
        Ok(Names {
            names,
            numbers,
            files: Vec::new(alloc),
        })
    }

    /// The same, and the paths of the files of the configuration, which are told where there are several.
    pub fn with_files(mut self, alloc: Global, paths: &[String]) -> Result<Names, AllocError> {
        if paths.len() > 1 {
            for path in paths {
                self.files.push(String::from_str(alloc, path)?)?;
            }
        }
        Ok(self)
    }

    /// What a fault of a file begins with: its path, where there are several.
    pub fn before(&self, fault: &FileFault) -> (&str, &str) {
        let place = match fault {
            FileFault::Unreadable(place) | FileFault::NoFile(place) => *place,
            FileFault::TooLarge | FileFault::Memory => return ("", ""),
        };
        match self.files.get(place) {
            Some(path) => (path.as_str(), ": "),
            None => ("", ""),
        }
    }

    /// How many clients there are.
    pub fn count(&self) -> usize {
        self.names.len()
    }

    /// The name of a client.
    pub fn name(&self, c: usize) -> &str {
        match self.names.get(c) {
            Some(name) => name.as_str(),
            None => "?",
        }
    }

    /// The AS number of a client.
    pub fn number(&self, c: usize) -> u32 {
        self.numbers.get(c).copied().unwrap_or(0)
    }
}
