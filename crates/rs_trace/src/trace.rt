//! The lines of a trace: what each says, and the first fault of one that says nothing. A further
//! kind of line is a further row of `Word`, of `Entry` and of what `entry_of` calls.

ghost use Rattle.std.specs.Prelude.{◌≡◌, ◌∷◌, [], ℕ, List, Option, Ok, Err, if◌then◌else◌, bytes_eq, drop, length, nat_lt, not, take, ok_or, option_map};
ghost use Rattle.std.specs.Map.{lookup};
ghost use Rattle.rs_open.specs.Notes.{shutdown_text};
ghost use Rattle.rs_trace.specs.Words.{AreOperands};
ghost use Rattle.rs_trace.specs.Output.{fault_text};
ghost use Rattle.rs_trace.specs.Trace.{words, word_of, is_passed_over, octets_of, text_of, operator_text, meaning_of, line_of};
ghost use Rattle.rs_trace.specs.Entries.{entry_as_meaning, line_as_meaning};

use crate::number::read_number;
use crate::words::{Operands, split_words};
use rs_open::ShutdownText;
use rs_session::Command;
use thiserror::Error;

/// The longest line, in octets without its end.
pub const LONGEST_LINE: usize = 8240;

/// The most octets that a line gives.
pub const LONGEST_PIECE: usize = 4096;

/// The most octets that a text of rules has: those of its line `rules`, and of the lines `more` before it.
pub const LONGEST_TEXT: usize = 67108864;

/// The fault of a line: the first, in this order, that it has.
#[derive(Clone, Copy, Debug, Drop, Error, PartialEq, Eq)]
#[error("{}", self.text())]
pub enum LineFault {
    TooLong,
    UnknownWord,
    WordCount,
    UnknownClient,
    BadNumber,
    BadHex,
    TextTooLong,
}

impl LineFault {
    /// Its text, as it is written.
    pub fn text(&self) -> &'static str
        ensures { result.now ≡ fault_text self.now }
    {
        match self {
            LineFault::TooLong => "too long",
            LineFault::UnknownWord => "unknown word",
            LineFault::WordCount => "word count",
            LineFault::UnknownClient => "unknown client",
            LineFault::BadNumber => "bad number",
            LineFault::BadHex => "bad hex",
            LineFault::TextTooLong => "text too long",
        }
    }
}

/// The word that a line begins with.
#[derive(Clone, Copy)]
pub enum Word {
    Open,
    Octets,
    Room,
    Moment,
    Turn,
    Lost,
    Shutdown,
    Refresh,
    More,
    Rules,
    Table,
}

/// What a line asks for, by a client's place in the configuration.
#[derive(Clone, Copy, Debug, PartialEq, Eq)]
pub enum Entry {
    /// A connection to the client is there.
    Open(usize),
    /// The client sends so many octets, which stand at the front of a piece.
    Octets(usize, usize),
    /// The client's connection takes up to so many octets.
    Room(usize, u64),
    /// The second of the clock.
    Moment(u64),
    /// What is due is worked out anew.
    Turn,
    /// The client's connection is lost.
    Lost(usize),
    /// The operator gives the client's session a command.
    Commanded(usize, Command),
    /// The text of a configuration goes on by so many octets, which stand at the front of a piece.
    More(usize),
    /// The configuration is replaced by a text that ends with so many octets, which stand at the front of a
    /// piece.
    Rules(usize),
    /// The routes of the client's Loc-RIB are to be listed.
    Table(usize),
}

/// Where the names of clients are looked up.
pub trait Places {
    ghost place_of: { Self → List ℕ → Option ℕ };

    /// The place of the client of this name.
    fn place(&self, name: &[u8]) -> Option<usize>
        ensures { result ≡ place_of self.now name.now };
}

fn read_word(text: &[u8]) -> Option<Word>
    ensures { result ≡ word_of text.now }
{
    if text == b"octets".as_slice() {
        Some(Word::Octets)
    } else if text == b"room".as_slice() {
        Some(Word::Room)
    } else if text == b"turn".as_slice() {
        Some(Word::Turn)
    } else if text == b"moment".as_slice() {
        Some(Word::Moment)
    } else if text == b"open".as_slice() {
        Some(Word::Open)
    } else if text == b"lost".as_slice() {
        Some(Word::Lost)
    } else {
        read_operator_word(text)
    }
}

/// A word of what is asked for by who runs the server.
fn read_operator_word(text: &[u8]) -> Option<Word>
    ensures { result ≡ lookup (bytes_eq text.now) (drop 6 words) }
{
    if text == b"shutdown".as_slice() {
        Some(Word::Shutdown)
    } else if text == b"refresh".as_slice() {
        Some(Word::Refresh)
    } else if text == b"more".as_slice() {
        Some(Word::More)
    } else if text == b"rules".as_slice() {
        Some(Word::Rules)
    } else if text == b"table".as_slice() {
        Some(Word::Table)
    } else {
        None
    }
}

/// Reads hex to the front of the piece, and answers how many octets that makes.
pub fn read_hex(digits: &[u8], piece: &mut [u8; 4096]) -> Option<usize>
    ensures { option_map (λ n. take n piece.new) result ≡ octets_of digits.now }
{
    if digits.len() > 2 * LONGEST_PIECE {
        return None;
    }
    let size = digits.len() / 2;
    match hex::decode_to_slice(digits, &mut piece[..size]) {
        Ok(()) => Some(size),
        Err(_) => None,
    }
}

/// Reads hex of at least one octet, as `read_hex` does.
fn read_text(digits: &[u8], piece: &mut [u8; 4096]) -> Option<usize>
    ensures { option_map (λ n. take n piece.new) result ≡ text_of digits.now }
{
    if digits.is_empty() {
        return None;
    }
    read_hex(digits, piece)
}

/// The operator's text that stands at the front of the piece.
#[tactic(auto, using(crate::proofs::OperatorTexts::least))]
fn text_at_front(piece: &[u8; 4096], size: usize) -> Option<ShutdownText>
    ensures { result ≡ shutdown_text (take size piece.now) }
{
    ShutdownText::of(&piece[..size.min(LONGEST_PIECE)])
}

/// Reads an operator's text: hex of 1 to 128 octets of UTF-8.
#[tactic(auto, using(crate::proofs::OperatorTexts::no_text_read, crate::proofs::OperatorTexts::text_read))]
fn read_operator_text(digits: &[u8], piece: &mut [u8; 4096]) -> Option<ShutdownText>
    ensures { result ≡ operator_text digits.now }
{
    match read_text(digits, piece) {
        Some(size) => text_at_front(piece, size),
        None => None,
    }
}

fn place<P: Places>(names: &P, name: &[u8]) -> Result<usize, LineFault>
    ensures { result ≡ ok_or (P.place_of names.now name.now) LineFault.UnknownClient }
{
    names.place(name).ok_or(LineFault::UnknownClient)
}

#[tactic(auto, using(crate::proofs::WordCounts::too_many))]
fn entry_of<P: Places>(
    names: &P,
    word: Word,
    operands: Operands<'_>,
    piece: &mut [u8; 4096],
) -> Result<Entry, LineFault>
    ensures { (ws : List (List ℕ)) → AreOperands operands.entry ws → entry_as_meaning piece.new result ≡ meaning_of (P.place_of names.now) word ws }
{
    match operands {
        Operands::Nothing => entry_of_none(word),
        Operands::One(operand) => entry_of_one(names, word, operand, piece),
        Operands::Two(name, value) => entry_of_two(names, word, name, value, piece),
        Operands::More => Err(LineFault::WordCount),
    }
}

/// What a word asks for that stands alone.
fn entry_of_none(word: Word) -> Result<Entry, LineFault>
    ensures { (place_of : List ℕ → Option ℕ) (piece : List ℕ) → entry_as_meaning piece result ≡ meaning_of place_of word [] }
{
    match word {
        Word::Turn => Ok(Entry::Turn),
        _ => Err(LineFault::WordCount),
    }
}

/// What a word asks for with one behind it.
fn entry_of_one<P: Places>(
    names: &P,
    word: Word,
    operand: &[u8],
    piece: &mut [u8; 4096],
) -> Result<Entry, LineFault>
    ensures { entry_as_meaning piece.new result ≡ meaning_of (P.place_of names.now) word (operand.now ∷ []) }
{
    match word {
        Word::Octets => Ok(Entry::Octets(place(names, operand)?, 0)),
        Word::Moment => Ok(Entry::Moment(read_number(operand).ok_or(LineFault::BadNumber)?)),
        Word::Open => Ok(Entry::Open(place(names, operand)?)),
        Word::Lost => Ok(Entry::Lost(place(names, operand)?)),
        Word::Shutdown => {
            let client = place(names, operand)?;
            Ok(Entry::Commanded(client, Command::Stop(ShutdownText::NONE)))
        }
        Word::Refresh => Ok(Entry::Commanded(place(names, operand)?, Command::Refresh)),
        Word::More => Ok(Entry::More(read_text(operand, piece).ok_or(LineFault::BadHex)?)),
        Word::Rules => Ok(Entry::Rules(read_text(operand, piece).ok_or(LineFault::BadHex)?)),
        Word::Table => Ok(Entry::Table(place(names, operand)?)),
        _ => Err(LineFault::WordCount),
    }
}

/// What a word asks for with the name of a client and a value behind it.
fn entry_of_two<P: Places>(
    names: &P,
    word: Word,
    name: &[u8],
    value: &[u8],
    piece: &mut [u8; 4096],
) -> Result<Entry, LineFault>
    ensures { entry_as_meaning piece.new result ≡ meaning_of (P.place_of names.now) word (name.now ∷ value.now ∷ []) }
{
    match word {
        Word::Octets => {
            let client = place(names, name)?;
            let size = read_hex(value, piece).ok_or(LineFault::BadHex)?;
            Ok(Entry::Octets(client, size))
        }
        Word::Room => {
            let client = place(names, name)?;
            let room = read_number(value).ok_or(LineFault::BadNumber)?;
            Ok(Entry::Room(client, room))
        }
        Word::Shutdown => {
            let client = place(names, name)?;
            let text = read_operator_text(value, piece).ok_or(LineFault::BadHex)?;
            Ok(Entry::Commanded(client, Command::Stop(text)))
        }
        _ => Err(LineFault::WordCount),
    }
}

/// Whether a line without its end has words to read: an empty one has none, nor has a comment. One that is
/// too long is refused.
pub fn has_words(line: &[u8]) -> Result<bool, LineFault>
    ensures { result ≡ (if nat_lt 8240 (length line.now) then Err LineFault.TooLong else Ok (not (is_passed_over line.now))) }
{
    if line.len() > LONGEST_LINE {
        return Err(LineFault::TooLong);
    }
    Ok(!(line.is_empty() || line[0] == b'#'))
}

/// Reads a line without its end. Octets that it gives stand at the front of the piece. Nothing is
/// answered for an empty line and for a comment.
pub fn read_line<P: Places>(
    names: &P,
    line: &[u8],
    piece: &mut [u8; 4096],
) -> Result<Option<Entry>, LineFault>
    ensures meaning { line_as_meaning piece.new result ≡ line_of (P.place_of names.now) line.now }
{
    if !has_words(line)? {
        return Ok(None);
    }
    let (first, operands) = split_words(line);
    let word = read_word(first).ok_or(LineFault::UnknownWord)?;
    Ok(Some(entry_of(names, word, operands, piece)?))
}
