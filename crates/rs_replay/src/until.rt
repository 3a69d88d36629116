//! The front of a text: so many lines of it.

ghost use Rattle.std.specs.Prelude.{◌≤◌, length};

use std::io;
use std::io::Read;

/// A reader that ends after so many lines of another.
#[derive(Drop)]
pub(crate) struct Until<R> {
    reader: R,
    lines: u64,
}

impl<R: Read> Until<R> {
    /// No line was read yet.
    pub(crate) fn new(reader: R, lines: u64) -> Until<R> {
        Until { reader, lines }
    }
}

/// How many octets so many lines have, of which the last may be cut off, and how many lines are left.
fn front_of(octets: &[u8], lines: u64) -> (usize, u64)
    ensures { result.0 ≤ length octets.now }
{
    let mut left = lines;
    for (place, octet) in octets.iter().enumerate() {
        if *octet == b'\n' {
            left = left.saturating_sub(1);
            if left == 0 {
                return (place + 1, 0);
            }
        }
    }
    (octets.len(), left)
}

impl<R: Read> Read for Until<R> {
    fn read(&mut self, room: &mut [u8]) -> io::Result<usize> {
        if self.lines == 0 {
            return Ok(0);
        }
        let size = self.reader.read(room)?;
        let (front, left) = front_of(&room[..size], self.lines);
        self.lines = left;
        Ok(front)
    }
}
