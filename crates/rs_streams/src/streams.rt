//! Standard output and standard error as streams that never keep anybody waiting.

ghost use Rattle.std.specs.Prelude.{◌≡◌, ◌≤◌, ℕ, List, length, take};

use libc::net::{POLLNVAL, POLLOUT, poll};
use libc::types::pollfd;

/// What takes octets at once or not at all. `takes a octets b` says that a stream took the octets.
pub trait Stream: Drop {
    ghost takes: { Self → List ℕ → Self → Type 0 };

    /// Gives the stream octets, of which it takes a front; answers how many it took.
    fn give(&mut self, octets: &[u8]) -> usize
        ensures count { result ≤ length octets.now }
        ensures takes { takes self.old (take result octets.now) self.new };
}

/// The most octets of one write: a pipe that is ready takes so many at once (POSIX's `PIPE_BUF`).
const MOST: usize = 4096;

/// A descriptor of the process; none where it was closed when the program began, since its number may
/// be that of a connection since then.
#[derive(Clone, Copy, Debug, PartialEq, Eq)]
pub struct Descriptor(Option<i32>);

impl Descriptor {
    /// Standard output.
    pub fn stdout() -> Descriptor {
        Descriptor::open(libc::STDOUT_FILENO, b"/dev/stdout")
    }

    /// Standard error.
    pub fn stderr() -> Descriptor {
        Descriptor::open(libc::STDERR_FILENO, b"/dev/stderr")
    }

    /// This descriptor, before any other was opened; a terminal by a descriptor of its own, at this path.
    fn open(number: i32, path: &[u8]) -> Descriptor {
        if asked(number, 0) == POLLNVAL {
            return Descriptor(None);
        }
        if libc::isatty(number) == 1 {
            return Descriptor(Some(terminal(number, path)));
        }
        Descriptor(Some(number))
    }
}

/// A terminal, by a descriptor that doesn't wait: a poll says that it is ready where it has room for one
/// octet. What is set for a descriptor holds for all that share its open file, as the shell does; so the
/// terminal is opened anew, where that is allowed.
fn terminal(number: i32, path: &[u8]) -> i32 {
    let own = os::open_append(path);
    let descriptor = if own < 0 { number } else { own };
    os::set_nonblocking(descriptor, true);
    descriptor
}

/// What a descriptor answers at once when asked for these events.
fn asked(descriptor: i32, events: i16) -> i16 {
    let mut all = [pollfd {
        fd: descriptor,
        events,
        revents: 0,
    }];
    if poll(&mut all, 0) == 1 {
        all[0].revents
    } else {
        0
    }
}

impl Stream for Descriptor {
    ghost takes = { λ a octets b. Unit {0} };

    fn give(&mut self, octets: &[u8]) -> usize {
        let front = octets.get(..MOST).unwrap_or(octets);
        match self.0 {
            Some(descriptor) if asked(descriptor, POLLOUT) == POLLOUT => {
                // Where nobody reads it fails: the program began with SIGPIPE ignored.
                let written = libc::write(descriptor, front);
                usize::try_from(written).unwrap_or(0).min(front.len())
            }
            _ => 0,
        }
    }
}
