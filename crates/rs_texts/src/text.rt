//! A text that stands somewhere, and how it is put behind others.

ghost use Rattle.std.specs.Prelude.{◌≡◌, ◌≤◌, ◌<◌, ◌+◌, ◌-◌, ◌++◌, ℕ, List, Option, None, true, false, length, slice_get, IfOk, IfSome, OnOk};
ghost use Rattle.rs_texts.specs.Joined.{ended, lacks_end};

use std::alloc::AllocError;
use std::io;
use std::io::Read;

/// The most octets that texts have together: 64 MiB.
pub const MOST: u64 = 67_108_864;

/// A text that stands somewhere, as in a file.
pub trait Text {
    // Its octets, where they are known.
    ghost octets: { Self → Option (List ℕ) } = { λ _. None };

    /// Puts it behind a text, and answers whether both have at most `MOST` octets; if not, it is left open
    /// what stands there then.
    fn put_behind(&self, front: &mut Vec<u8>) -> io::Result<bool>
        ensures whole { IfOk result (λ fits. fits ≡ true → IfSome (octets self.now) (λ text. front.new.items ≡ front.old.items ++ text)) }
        ensures small { IfOk result (λ fits. fits ≡ true → length front.new.items ≤ 67108864) }
        ensures large { IfOk result (λ fits. fits ≡ false → IfSome (octets self.now) (λ text. 67108864 < length front.old.items + length text)) };
}

/// Puts what a reader gives up to its end behind a text, and answers whether both have at most `MOST`
/// octets; of more a front is read.
pub fn read_on<F: Read>(front: &mut Vec<u8>, reader: &mut F) -> io::Result<bool>
    ensures whole { IfOk result (λ fits. fits ≡ true → IfSome (F.remaining reader.old) (λ text. front.new.items ≡ front.old.items ++ text)) }
    ensures small { IfOk result (λ fits. fits ≡ true → length front.new.items ≤ 67108864) }
    ensures large { IfOk result (λ fits. fits ≡ false → IfSome (F.remaining reader.old) (λ text. 67108864 < length front.old.items + length text)) }
{
    let room = MOST.saturating_sub(front.len() as u64);
    let mut behind = reader.take(room + 1);
    behind.read_to_end(front)?;
    Ok(front.len() as u64 <= MOST)
}

/// Whether the last line of a text lacks its end.
fn lacks_end(text: &[u8]) -> bool
    ensures { result ≡ lacks_end (slice_get text.now (length text.now - 1)) }
{
    match text.last() {
        None => false,
        Some(last) => *last != b'\n',
    }
}

/// Ends the last line of a text, where it lacks its end.
pub fn end_lines(text: &mut Vec<u8>) -> Result<(), AllocError>
    ensures { OnOk result (text.new.items ≡ ended text.old.items) }
{
    if lacks_end(text.as_slice()) {
        text.push(b'\n')?;
    }
    Ok(())
}
