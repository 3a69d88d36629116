//! The lines of a file of what another server sent: what each says, and the first fault of one that says
//! nothing.

ghost use Rattle.std.specs.Prelude.{◌≡◌, ℕ, List};
ghost use Rattle.rs_trace.specs.Replays.{place_in};
ghost use Rattle.rs_trace.specs.Words.{AreOperands};
ghost use Rattle.rs_replay.specs.SentLines.{entry_as_said, is_output_word, said_by, said_of, word_of};

use rs_trace::names::Names;
use rs_trace::number::read_number;
use rs_trace::trace::{LineFault, Places, has_words, read_hex};
use rs_trace::words::{Operands, split_words};

/// The word that a line begins with.
#[derive(Clone, Copy)]
enum Word {
    Sent,
    Open,
    After,
    /// One that a replay writes beside `sent`.
    Output,
}

/// What a line says, by a client's place in the configuration.
#[derive(Clone, Copy)]
pub(crate) enum Entry {
    /// A connection to the client is there.
    Open(usize),
    /// The server sends it so many octets, which stand at the front of a piece.
    Sent(usize, usize),
    /// What follows was sent after this line of the trace.
    After(u64),
}

impl Entry {
    ghost use Rattle.rs_replay.specs.SentLines.{said_in};
    ghost use Rattle.rs_replay.specs.Sent.{is_later};

    /// Whether what follows was sent after a later line of the trace than this.
    pub(crate) fn is_later(self, until: u64) -> bool
        ensures { (piece : List ℕ) → result ≡ is_later until (said_in piece self) }
    {
        match self {
            Entry::After(line) => line > until,
            Entry::Open(_) | Entry::Sent(_, _) => false,
        }
    }
}

/// Whether a replay writes lines with this word, beside those with `sent`.
fn is_output_word(text: &[u8]) -> bool
    ensures { result ≡ is_output_word text.now }
{
    text == b"close".as_slice()
        || text == b"busy".as_slice()
        || text == b"memory".as_slice()
        || text == b"route".as_slice()
        || text == b"rules".as_slice()
        || text == b"line".as_slice()
        || text == b"unreadable".as_slice()
        || text == b"missing".as_slice()
        || text == b"not-due".as_slice()
        || text == b"other".as_slice()
        || text == b"compared".as_slice()
}

fn read_word(text: &[u8]) -> Option<Word>
    ensures { result ≡ word_of text.now }
{
    if text == b"sent".as_slice() {
        Some(Word::Sent)
    } else if text == b"open".as_slice() {
        Some(Word::Open)
    } else if text == b"after".as_slice() {
        Some(Word::After)
    } else if is_output_word(text) {
        Some(Word::Output)
    } else {
        None
    }
}

fn entry_of(
    names: &Names,
    word: Word,
    operands: Operands<'_>,
    piece: &mut [u8; 4096],
) -> Result<Option<Entry>, LineFault>
    ensures { (ws : List (List ℕ)) → AreOperands operands.entry ws → entry_as_said piece.new result ≡ said_by (place_in names.now) word ws }
{
    match (word, operands) {
        (Word::Sent, Operands::Two(name, digits)) => {
            let client = names.place(name).ok_or(LineFault::UnknownClient)?;
            let size = read_hex(digits, piece).ok_or(LineFault::BadHex)?;
            Ok(Some(Entry::Sent(client, size)))
        }
        (Word::Open, Operands::One(name)) => {
            let client = names.place(name).ok_or(LineFault::UnknownClient)?;
            Ok(Some(Entry::Open(client)))
        }
        (Word::After, Operands::One(number)) => {
            let line = read_number(number).ok_or(LineFault::BadNumber)?;
            Ok(Some(Entry::After(line)))
        }
        (Word::Output, _) => Ok(None),
        _ => Err(LineFault::WordCount),
    }
}

/// Reads a line without its end. Octets that it gives stand at the front of the piece. Nothing is
/// answered for an empty line, for a comment, and for what a replay writes beside `sent`.
pub(crate) fn read_sent_line(
    names: &Names,
    line: &[u8],
    piece: &mut [u8; 4096],
) -> Result<Option<Entry>, LineFault>
    ensures { entry_as_said piece.new result ≡ said_of (place_in names.now) line.now }
{
    if !has_words(line)? {
        return Ok(None);
    }
    let (first, operands) = split_words(line);
    let word = read_word(first).ok_or(LineFault::UnknownWord)?;
    entry_of(names, word, operands, piece)
}
