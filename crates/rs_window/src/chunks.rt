//! The pieces of a page as chunks (RFC 9112, section 7.1).

ghost use Rattle.std.specs.Prelude.{◌≡◌, ◌<◌, ◌≤◌, [], length, if◌then◌else◌};
ghost use Rattle.std.specs.Char.{digit_char};
ghost use Rattle.rs_window.specs.Chunks.{IsSizeLine, IsCarried, IsFramed, last_chunk};

use crate::outbox::Outbox;

/// The chunk of no octets, and no trailer behind it: the end.
const LAST_CHUNK: &[u8] = b"0\r\n\r\n";

/// A hexadecimal digit.
fn hex_digit(value: usize) -> u8
    requires { value < 16 }
    ensures { result ≡ digit_char value }
{
    let value = value as u8;
    if value < 10 {
        b'0' + value
    } else {
        b'a' + (value - 10)
    }
}

/// The line that begins a chunk of so many octets.
fn size_line(size: usize) -> [u8; 6]
    requires { size < 65536 }
    ensures { IsSizeLine size result }
{
    let high = size / 256;
    let low = size % 256;
    [
        hex_digit(high / 16),
        hex_digit(high % 16),
        hex_digit(low / 16),
        hex_digit(low % 16),
        b'\r',
        b'\n',
    ]
}

/// Puts octets as a chunk, where there are any.
fn put_chunk(outbox: &mut Outbox, octets: &[u8])
    requires empty { outbox.old ≡ [] }
    requires fits { length octets.now ≤ 32768 }
    ensures carried { IsCarried octets.now outbox.new }
    ensures bound { length outbox.new ≤ 32776 }
{
    if octets.is_empty() {
        return;
    }
    outbox.put(&size_line(octets.len()));
    outbox.put(octets);
    outbox.put(b"\r\n");
}

/// The end of the chunks, or nothing.
fn end(is_end: bool) -> &'static [u8]
    ensures value { result.now ≡ (if is_end then last_chunk else []) }
    ensures bound { length result.now ≤ 8 }
{
    if is_end { LAST_CHUNK } else { b"" }
}

/// Puts a piece of a page into an empty outbox, in chunks or plainly; behind the last piece the end of the
/// chunks.
pub fn put_piece(outbox: &mut Outbox, octets: &[u8], is_chunked: bool, is_end: bool)
    requires empty { outbox.old ≡ [] }
    requires fits { length octets.now ≤ 32768 }
    ensures { IsFramed is_chunked octets.now is_end outbox.new }
{
    if !is_chunked {
        outbox.put(octets);
        return;
    }
    put_chunk(outbox, octets);
    outbox.put(end(is_end));
}
