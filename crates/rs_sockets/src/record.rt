//! The record of a run, on files: `FILE`, and after it `FILE.1`, `FILE.2`, each with the text of the
//! configuration that was in force when it was begun beside it. `rs_replay` plays them, one after the other.

use crate::stamps::Stamp;
use rs_streams::record_file::{AppendedFile, ROOM, RecordEnd, RecordFile};
use std::alloc::Global;
use std::fs::OpenOptions;
use std::io;
use std::io::Write;
use std::os::unix::fs::OpenOptionsExt;
use std::rt::Files;

/// The seconds of a minute.
const MINUTE: u64 = 60;

/// The files of a record.
#[derive(Drop)]
pub struct Record<'a, R: Files> {
    rt: &'a R,
    alloc: Global,
    path: &'a str,
    /// How many octets a file has at least when the next one is begun; `None`: there is one file.
    most: Option<u64>,
    /// How many files were begun after the first.
    number: u64,
    file: RecordFile<AppendedFile<R::File>>,
    /// The text of the configuration that is in force, and the one that was read last, where files have a size.
    text: Vec<u8>,
    read: Vec<u8>,
    /// The minute of the time of day that was recorded last.
    minute: Option<u64>,
    /// The line that is made next.
    line: String,
}

/// Makes a file that was not there, for its owner alone.
fn new_file<R: Files>(rt: &R, path: &str) -> io::Result<R::File> {
    OpenOptions::new()
        .append(true)
        .create_new(true)
        .mode(0o600)
        .open(rt, path)
}

/// Makes a file of the record, and beside it one with the text of the configuration.
fn new_files<R: Files>(rt: &R, alloc: Global, path: &str, text: &[u8]) -> io::Result<R::File> {
    let file = new_file(rt, path)?;
    let beside = format!(in alloc; "{path}.toml")?;
    new_file(rt, &beside)?.write_all(text)?;
    Ok(file)
}

impl<'a, R: Files> Record<'a, R> {
    /// Begins a record in files that were not there, by the text of the configuration.
    pub fn begin(
        rt: &'a R,
        alloc: Global,
        path: &'a str,
        most: Option<u64>,
        text: Vec<u8>,
    ) -> io::Result<Record<'a, R>> {
        let file = new_files(rt, alloc, path, &text)?;
        let text = if most.is_some() {
            text
        } else {
            Vec::new(alloc)
        };
        Ok(Record {
            rt,
            alloc,
            path,
            most,
            number: 0,
            file: RecordFile::new(alloc, AppendedFile(file)),
            text,
            read: Vec::new(alloc),
            minute: None,
            line: String::new(alloc),
        })
    }

    /// Records the lines of a round, after the time of day where its minute is another than before, and
    /// writes a part of what waits. In which second since 1970 it is, is not known to each clock.
    pub fn take(&mut self, second: Option<u64>, lines: &[u8]) -> Result<(), RecordEnd> {
        if let Some(most) = self.most
            && self.file.size() >= most
        {
            self.begin_next()?;
        }
        if let Some(second) = second {
            self.note_time(second)?;
        }
        if self.file.put(lines).is_err() {
            return Err(RecordEnd::Memory);
        }
        self.file.write_to(ROOM)
    }

    /// Records the time of day, where its minute is another than that of the last.
    fn note_time(&mut self, second: u64) -> Result<(), RecordEnd> {
        let minute = second / MINUTE;
        if self.minute == Some(minute) {
            return Ok(());
        }
        self.minute = Some(minute);
        self.line.clear();
        if writeln!(self.line, "# {}", Stamp::Utc(second)).is_err()
            || self.file.put(self.line.as_bytes()).is_err()
        {
            return Err(RecordEnd::Memory);
        }
        Ok(())
    }

    /// Begins the next file; all that waits is written to the one before.
    fn begin_next(&mut self) -> Result<(), RecordEnd> {
        self.file.write_to(0)?;
        let number = self.number.saturating_add(1);
        let Ok(path) = format!(in self.alloc; "{}.{number}", self.path) else {
            return Err(RecordEnd::Memory);
        };
        let Ok(file) = new_files(self.rt, self.alloc, &path, &self.text) else {
            return Err(RecordEnd::NextFile);
        };
        self.number = number;
        self.file = RecordFile::new(self.alloc, AppendedFile(file));
        self.minute = None;
        Ok(())
    }

    /// Keeps a text of a configuration that was read, where it may be that of a later file.
    pub fn note_text(&mut self, text: &[u8]) -> Result<(), RecordEnd> {
        if self.most.is_none() {
            return Ok(());
        }
        self.read.clear();
        if self.read.extend_from_slice(text).is_err() {
            return Err(RecordEnd::Memory);
        }
        Ok(())
    }

    /// The text that was read last is in force.
    pub fn replace(&mut self) {
        if self.most.is_some() {
            std::mem::swap(&mut self.text, &mut self.read);
        }
    }

    /// Writes all that waits: the run has ended.
    pub fn finish(&mut self) -> Result<(), RecordEnd> {
        self.file.write_to(0)
    }

    /// Ends the record before the run, with a line that says why.
    pub fn end(&mut self, why: RecordEnd) {
        self.line.clear();
        if writeln!(self.line, "# the recording ends here: {why}").is_err() {
            self.line.clear();
        }
        self.file.end(self.line.as_bytes());
    }
}
