//! The files of the configuration, which are read again while the server runs.

use rs_streams::file_watch::{FileFault, Found, Version, WatchedFiles};
use rs_texts::{end_lines, read_on};
use std::alloc::{AllocError, Global};
use std::fs::{Metadata, OpenFile};
use std::os::unix::fs::MetadataExt;
use std::rt::Files;
use std::{fs, io};

/// The files at some paths, whose texts are joined in this order.
#[derive(Drop)]
pub(crate) struct Configuration<'a, R> {
    pub(crate) rt: &'a R,
    pub(crate) alloc: Global,
    pub(crate) paths: &'a [String],
}

/// What is known of a file by its metadata.
fn found(metadata: &Metadata) -> Found {
    if metadata.is_file() {
        Found::File(Version {
            device: metadata.dev(),
            inode: metadata.ino(),
            size: metadata.len(),
            seconds: metadata.mtime(),
            nanoseconds: metadata.mtime_nsec(),
        })
    } else {
        Found::Other
    }
}

/// What became of a file that was to be read after a text.
#[derive(Clone, Copy)]
enum Behind {
    Whole,
    Changed,
    TooLarge,
}

impl<R: Files> Configuration<'_, R> {
    /// Reads the file at a path after a text, on a new line, if it is this version, before and after.
    fn read_version(&self, path: &str, version: &Found, text: &mut Vec<u8>) -> io::Result<Behind> {
        let mut file = fs::open(self.rt, path)?;
        if found(&file.metadata()?) != *version {
            return Ok(Behind::Changed);
        }
        end_lines(text)?;
        let front = text.len();
        if !read_on(text, &mut file)? {
            return Ok(Behind::TooLarge);
        }
        let own = text.len().saturating_sub(front) as u64;
        match found(&file.metadata()?) {
            Found::File(now) if Found::File(now) == *version && now.size == own => {
                Ok(Behind::Whole)
            }
            _ => Ok(Behind::Changed),
        }
    }

    /// Whether the files are these versions.
    fn are(&mut self, versions: &[Found]) -> Result<bool, FileFault> {
        match self.look() {
            Ok(found) => Ok(found.as_slice() == versions),
            Err(_) => Err(FileFault::Memory),
        }
    }
}

impl<R: Files> WatchedFiles for Configuration<'_, R> {
    fn look(&mut self) -> Result<Vec<Found>, AllocError> {
        let mut all = Vec::new(self.alloc);
        for path in self.paths {
            all.push(match fs::metadata(self.rt, path) {
                Ok(metadata) => found(&metadata),
                Err(_) => Found::Nothing,
            })?;
        }
        Ok(all)
    }

    fn read(&mut self, versions: &[Found], text: &mut Vec<u8>) -> Result<bool, FileFault> {
        text.clear();
        for (place, (path, version)) in self.paths.iter().zip(versions).enumerate() {
            match self.read_version(path, version, text) {
                Ok(Behind::Whole) => {}
                Ok(Behind::Changed) => return Ok(false),
                Ok(Behind::TooLarge) => return Err(FileFault::TooLarge),
                Err(error) if error.kind() == io::ErrorKind::OutOfMemory => {
                    return Err(FileFault::Memory);
                }
                Err(_) => return Err(FileFault::Unreadable(place)),
            }
        }
        self.are(versions)
    }
}
