//! When files of rules are read again, by what is found of them from second to second.

use crate::common::is;
use rs_streams::file_watch::{FileFault, FileWatch, Found, Version, WatchedFiles};
use rs_texts::end_lines;
use std::alloc::{AllocError, Global};
use std::process::Abort;

/// The texts of two files.
const TEXTS: [&[u8]; 2] = [b"as = 1", b"# rest\n"];

/// Two files in memory, and how often they were looked at and read.
#[derive(Drop)]
struct Pair {
    alloc: Global,
    found: [Found; 2],
    looks: u64,
    reads: u64,
    /// They change while they are read.
    is_written: bool,
}

/// A file of this size that was last modified in this second.
fn file(size: u64, seconds: i64) -> Found {
    Found::File(Version {
        device: 1,
        inode: 1,
        size,
        seconds,
        nanoseconds: 0,
    })
}

impl WatchedFiles for Pair {
    fn look(&mut self) -> Result<Vec<Found>, AllocError> {
        self.looks = self.looks.saturating_add(1);
        let mut found = Vec::new(self.alloc);
        found.extend_from_slice(&self.found)?;
        Ok(found)
    }

    fn read(&mut self, _versions: &[Found], text: &mut Vec<u8>) -> Result<bool, FileFault> {
        self.reads = self.reads.saturating_add(1);
        text.clear();
        for own in TEXTS {
            if end_lines(text).is_err() || text.extend_from_slice(own).is_err() {
                return Err(FileFault::Memory);
            }
        }
        Ok(!self.is_written)
    }
}

/// What is found of the second file from this second on, whether files change while they are read, the second, and
/// whether the files are taken up in it.
type Look = (Found, bool, u64, Result<bool, FileFault>);

/// The files are looked at so; answers how often they were looked at and read.
fn looks(rt: &impl Abort, alloc: Global, rows: &[Look]) -> (u64, u64) {
    let mut watch = FileWatch::new();
    let mut files = Pair {
        alloc,
        found: [file(5, 0), file(6, 0)],
        looks: 0,
        reads: 0,
        is_written: false,
    };
    let mut text = Vec::new(alloc);
    for (second_file, is_written, second, wanted) in rows {
        files.found[1] = *second_file;
        files.is_written = *is_written;
        let taken = watch.take_up(&mut files, *second, &mut text);
        assert!(rt; taken == *wanted, "in second {second}");
        if taken == Ok(true) {
            let both: &[u8] = b"as = 1\n# rest\n";
            is(rt, text.as_slice(), both, "the text");
        }
    }
    (files.looks, files.reads)
}

#[test]
fn files_are_read_where_all_have_stood_still(rt: HostRuntime) {
    let first = file(6, 0);
    let (second, third) = (file(6, 11), file(6, 12));
    let rows = [
        (first, false, 7, Ok(false)),
        (first, false, 8, Ok(false)),
        (first, false, 9, Ok(true)),
        (first, false, 9, Ok(false)),
        (first, false, 10, Ok(false)),
        (second, false, 11, Ok(false)),
        (third, false, 12, Ok(false)),
        (third, false, 13, Ok(false)),
        (third, false, 14, Ok(true)),
        (third, false, 30, Ok(false)),
    ];
    let counts = looks(&rt, rt.alloc(), &rows);
    is(&rt, counts, (9, 2), "looks and reads");
}

#[test]
fn files_that_change_while_they_are_read_are_read_again(rt: HostRuntime) {
    let found = file(6, 0);
    let rows = [
        (found, true, 0, Ok(false)),
        (found, true, 2, Ok(false)),
        (found, true, 3, Ok(false)),
        (found, false, 4, Ok(false)),
        (found, false, 5, Ok(true)),
    ];
    let counts = looks(&rt, rt.alloc(), &rows);
    is(&rt, counts, (5, 2), "looks and reads");
}

#[test]
fn files_that_are_not_read_are_told_once(rt: HostRuntime) {
    // with the five octets of the first file the last one is an octet too large
    for (found, fault) in [
        (Found::Nothing, FileFault::Unreadable(1)),
        (Found::Other, FileFault::NoFile(1)),
        (file(67_108_860, 0), FileFault::TooLarge),
    ] {
        let rows = [
            (found, false, 0, Ok(false)),
            (found, false, 2, Err(fault)),
            (found, false, 3, Ok(false)),
            (found, false, 9, Ok(false)),
        ];
        let counts = looks(&rt, rt.alloc(), &rows);
        is(&rt, counts, (4, 0), "looks and reads");
    }
}
