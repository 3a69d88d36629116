//! Who asks a running server: a command goes to its control socket, and the answer comes back.

use std::alloc::{AllocError, Global};
use std::io;
use std::io::{Read, Write};
use std::net::{Net, Shutdown};
use std::os::unix::net::UnixStream;
use std::time::Duration;

/// How long an answer may pause, in seconds: longer than a server takes to end.
const PATIENCE: u64 = 30;

/// The most octets of an answer.
const MOST: usize = 1 << 26;

/// What an answer that is an error begins with.
const ERROR: &[u8] = b"{\"error\":";

/// One line of an answer is an error: something was not done.
pub fn is_error(answer: &[u8]) -> bool {
    answer
        .split(|octet| *octet == b'\n')
        .any(|line| line.starts_with(ERROR))
}

/// An answer has a line, and none that was cut off.
pub fn is_whole(answer: &[u8]) -> bool {
    answer.ends_with(b"\n")
}

/// A line of a command.
fn line_of(alloc: Global, command: &str) -> Result<Vec<u8>, AllocError> {
    let mut line = Vec::from_slice(alloc, command.as_bytes())?;
    line.push(b'\n')?;
    Ok(line)
}

/// Asks the server whose control socket is at this path, and answers all that it says until it closes the
/// connection.
pub fn ask<R: Net>(rt: &R, alloc: Global, path: &str, command: &str) -> io::Result<Vec<u8>> {
    let line = line_of(alloc, command)?;
    let mut stream = UnixStream::connect(rt, path)?;
    say(&mut stream, &line)?;
    hear(alloc, &mut stream)
}

/// Says a line, and nothing more.
fn say(stream: &mut UnixStream, line: &[u8]) -> io::Result<()> {
    stream.set_read_timeout(Some(Duration::from_secs(PATIENCE)))?;
    stream.write_all(line)?;
    stream.shutdown(Shutdown::Write)
}

/// All that comes until the connection is closed, or the most that an answer has.
fn hear(alloc: Global, stream: &mut UnixStream) -> io::Result<Vec<u8>> {
    let mut answer = Vec::new(alloc);
    let mut piece = [0; 4096];
    for _ in 0..MOST {
        let count = stream.read(&mut piece)?;
        if count == 0 || answer.len() > MOST {
            break;
        }
        answer.extend_from_slice(piece.get(..count).unwrap_or(&[]))?;
    }
    Ok(answer)
}
