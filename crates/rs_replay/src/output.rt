//! Standard output, which somebody may stop to read.

ghost use Rattle.std.specs.Prelude.{◌≡◌, ◌≢◌, true};
ghost use Rattle.std.specs.IoError.{error_kind};

use std::io;
use std::io::{ErrorKind, Write};

/// A writer, and whether what it writes is read no more.
#[derive(Drop)]
pub(crate) struct Output<W> {
    writer: W,
    is_closed: bool,
}

impl<W: Write> Output<W> {
    /// Nothing was written yet.
    pub(crate) fn new(writer: W) -> Output<W> {
        Output {
            writer,
            is_closed: false,
        }
    }

    /// Whether a call failed since nobody reads on, as behind `| head -1`.
    pub(crate) fn is_closed(&self) -> bool {
        self.is_closed
    }

    /// Notes of a failed call whether nobody reads on.
    fn note(&mut self, error: &io::Error)
        ensures writer { self.new.writer ≡ self.old.writer }
        ensures unread { error_kind error.now ≡ ErrorKind.BrokenPipe → self.new.is_closed ≡ true }
        ensures other { error_kind error.now ≢ ErrorKind.BrokenPipe → self.new.is_closed ≡ self.old.is_closed }
    {
        if error.kind() == ErrorKind::BrokenPipe {
            self.is_closed = true;
        }
    }
}

impl<W: Write> Write for Output<W> {
    ghost contents = { λ o. W.contents o.writer };

    fn write(&mut self, octets: &[u8]) -> io::Result<usize> {
        let written = self.writer.write(octets);
        if let Err(error) = &written {
            self.note(error);
        }
        written
    }

    fn flush(&mut self) -> io::Result<()> {
        let flushed = self.writer.flush();
        if let Err(error) = &flushed {
            self.note(error);
        }
        flushed
    }
}
