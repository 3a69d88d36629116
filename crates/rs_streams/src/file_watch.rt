//! When the files of rules are read: at most once a second, and only where one of them is another than it was
//! and all have stood still for a second. So none is read that is being written, if its writer doesn't pause.

ghost use Rattle.std.specs.Prelude.{◌≡◌, ◌≢◌, ◌↔◌, ◌⊎◌, ◌+◌, ◌≤◌, Some, None, Ok, false, option_map, vec_items, IsSome, IsTrue, OnOk};
ghost use Rattle.rs_streams.specs.Watched.{AreSmall};

use rs_texts::MOST;
use std::alloc::AllocError;
use thiserror::Error;

/// Which file it is, and how it was when it was looked at: its size in octets, and when it was last modified.
#[derive(Clone, Copy, Debug, PartialEq, Eq)]
pub struct Version {
    pub device: u64,
    pub inode: u64,
    pub size: u64,
    pub seconds: i64,
    pub nanoseconds: i64,
}

/// What stands at a path.
#[derive(Clone, Copy, Debug, PartialEq, Eq)]
pub enum Found {
    /// Nothing that can be looked at.
    Nothing,
    /// Something that is no regular file: a folder, a FIFO, a device.
    Other,
    File(Version),
}

/// Why the files of rules were not read; which one, counted from 0.
#[derive(Clone, Copy, Debug, Drop, Error, PartialEq, Eq)]
pub enum FileFault {
    #[error("unreadable")]
    Unreadable(usize),
    #[error("no regular file")]
    NoFile(usize),
    #[error("larger than 64 MiB")]
    TooLarge,
    #[error("out of memory")]
    Memory,
}

/// Files that can be looked at and read, as one text.
pub trait WatchedFiles {
    /// What stands at their paths now, in their order.
    fn look(&mut self) -> Result<Vec<Found>, AllocError>;

    /// Reads the files as one text, in place of what stands in `text`; answers whether they were these
    /// versions, in their order, before and after.
    fn read(&mut self, versions: &[Found], text: &mut Vec<u8>) -> Result<bool, FileFault>
        requires { AreSmall 67108864 versions.now };
}

/// When the files were looked at last, what was found, since when, and whether that was taken up.
#[derive(Debug, Drop)]
pub struct FileWatch {
    /// In which second they were looked at last.
    looked: Option<u64>,
    found: Option<Vec<Found>>,
    /// In which second that was found first.
    since: u64,
    is_done: bool,
}

impl FileWatch {
    /// The files were not looked at yet.
    pub fn new() -> FileWatch
        ensures looked { result.looked ≡ None }
        ensures found { result.found ≡ None }
    {
        FileWatch {
            looked: None,
            found: None,
            since: 0,
            is_done: false,
        }
    }

    /// Notes what was found in this second, and answers whether it is to be taken up: it was found first
    /// more than a second ago and nothing else since, and it was not taken up yet.
    pub fn note(&mut self, second: u64, found: Vec<Found>) -> bool
        ensures looked { self.new.looked ≡ Some second }
        ensures found { option_map vec_items self.new.found ≡ Some found.items }
        ensures since { option_map vec_items self.old.found ≡ Some found.items → self.new.since ≡ self.old.since }
        ensures changed { option_map vec_items self.old.found ≢ Some found.items → (self.new.since ≡ second) × (self.new.is_done ≡ false) }
        ensures due { IsTrue result ↔ (option_map vec_items self.old.found ≡ Some found.items) × (self.old.is_done ≡ false) × (self.old.since + 2 ≤ second) }
        ensures done { option_map vec_items self.old.found ≡ Some found.items → (IsTrue self.new.is_done ↔ (IsTrue self.old.is_done ⊎ IsTrue result)) }
    {
        self.looked = Some(second);
        let is_same = is_found(&self.found, &found);
        if !is_same {
            self.found = Some(found);
            self.since = second;
            self.is_done = false;
            return false;
        }
        // Seconds are whole: from one to the next but one a second has passed.
        let is_still = second.saturating_sub(self.since) >= 2;
        let is_due = is_still && !self.is_done;
        self.is_done = self.is_done || is_due;
        is_due
    }

    /// Looks at the files, at most once in a second, and reads them where they are to be taken up. Answers
    /// whether their text stands in `text` then; a fault once for what was found.
    pub fn take_up<F: WatchedFiles>(
        &mut self,
        files: &mut F,
        second: u64,
        text: &mut Vec<u8>,
    ) -> Result<bool, FileFault>
        ensures looked { self.new.looked ≡ Some second }
        ensures once { self.old.looked ≡ Some second → (result ≡ Ok false) × (self.new ≡ self.old) }
        ensures due { result ≢ Ok false → IsSome self.old.found × (self.old.is_done ≡ false) × (self.old.since + 2 ≤ second) }
        ensures done { result ≢ Ok false → IsTrue self.new.is_done }
    {
        if self.looked == Some(second) {
            return Ok(false);
        }
        self.looked = Some(second);
        // Where memory is refused they are looked at again in the next second.
        let Ok(found) = files.look() else {
            return Ok(false);
        };
        if !self.note(second, found) {
            return Ok(false);
        }
        let is_read = match &self.found {
            Some(found) => read_found(files, found, text)?,
            None => false,
        };
        if !is_read {
            self.found = None;
        }
        Ok(is_read)
    }

    /// Looks at the files and reads them at once, however long they have stood still. Answers whether their text
    /// stands in `text` then: not where one was changed meanwhile.
    ///
    /// # Errors
    ///
    /// Why they were not read; what `text` has then is not said.
    pub fn take_now<F: WatchedFiles>(
        &mut self,
        files: &mut F,
        second: u64,
        text: &mut Vec<u8>,
    ) -> Result<bool, FileFault>
        ensures looked { self.new.looked ≡ Some second }
        ensures done { IsTrue self.new.is_done }
    {
        self.looked = Some(second);
        self.since = second;
        self.is_done = true;
        self.found = None;
        let Ok(found) = files.look() else {
            return Err(FileFault::Memory);
        };
        let is_read = read_found(files, &found, text)?;
        self.found = Some(found);
        Ok(is_read)
    }
}

/// Whether this was found.
fn is_found(known: &Option<Vec<Found>>, found: &[Found]) -> bool
    ensures { IsTrue result ↔ (option_map vec_items known.now ≡ Some found.now) }
{
    match known {
        None => false,
        Some(known) => are_same(known, found),
    }
}

/// Whether the same was found at each path.
fn are_same(known: &[Found], found: &[Found]) -> bool
    ensures { IsTrue result ↔ (known.now ≡ found.now) }
{
    match known {
        [] => found.is_empty(),
        [first, others @ ..] => match found {
            [] => false,
            [other, rest @ ..] => first == other && are_same(others, rest),
        },
    }
}

/// Answers why files are not read that were found, the first of this place: one is no regular file, or
/// together they have more octets than there is room for.
fn fit(found: &[Found], place: usize, room: u64) -> Result<(), FileFault>
    ensures { OnOk result (AreSmall room found.now) }
{
    match found {
        [] => Ok(()),
        [Found::Nothing, ..] => Err(FileFault::Unreadable(place)),
        [Found::Other, ..] => Err(FileFault::NoFile(place)),
        [Found::File(version), ..] if version.size > room => Err(FileFault::TooLarge),
        [Found::File(version), left @ ..] => fit(
            left,
            place.saturating_add(1),
            room - version.size,
        ),
    }
}

/// Reads what was found, if all are regular files of at most `MOST` octets together; answers whether they
/// stayed as they were.
fn read_found<F: WatchedFiles>(
    files: &mut F,
    found: &[Found],
    text: &mut Vec<u8>,
) -> Result<bool, FileFault> {
    fit(found, 0, MOST)?;
    files.read(found, text)
}
