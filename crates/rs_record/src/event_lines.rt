//! The lines of a trace that mean an event.

ghost use Rattle.std.specs.Prelude.{◌≡◌, ◌<◌, ◌≤◌, ◌++◌, ◌∷◌, [], codes, decimal, length, take, OnOk};
ghost use Rattle.hex.specs.Hex.{encode_lower};
ghost use Rattle.rs_core.specs.Drives.Steps.{octets_of};
ghost use Rattle.rs_trace.specs.Trace.{Passed, Replaced, Turned};
ghost use Rattle.rs_open.specs.Notes.{text_octets};
ghost use Rattle.rs_open.specs.declared.shutdown.ShutdownText.{ShutdownText};
ghost use Rattle.rs_record.specs.Accounts.{event_says, said_octets, said_text};
ghost use Rattle.rs_record.specs.Lines.{one_operand, two_operands, shutdown_line};
ghost use Rattle.rs_record.specs.Named.{count_of};
ghost use Rattle.rs_record.specs.Records.{AddsLines};

use crate::client_names::ClientNames;
use itoa::Buffer;
use rs_core::Event;
use rs_open::ShutdownText;
use rs_session::Command;
use rs_trace::trace::{LONGEST_PIECE, LONGEST_TEXT};
use std::alloc::AllocError;
use thiserror::Error;

/// Why an event is not recorded.
#[derive(Clone, Copy, Debug, Drop, Error, PartialEq, Eq)]
pub enum RecordFault {
    #[error("out of memory")]
    Memory,
    /// A text of rules has more octets than a trace can say.
    #[error("text too long")]
    TextTooLong,
}

impl From<AllocError> for RecordFault {
    ghost use Rattle.rs_record.specs.declared.event_lines.RecordFault.TheVariants as faults;

    ghost from_gives = { λ error result. result ≡ faults.Memory };

    fn from(_error: AllocError) -> RecordFault {
        RecordFault::Memory
    }
}

/// Puts octets behind a line's front, as lower case hex.
fn put_hex(line: &mut Vec<u8>, octets: &[u8]) -> Result<(), AllocError>
    requires { length octets.now ≤ 4096 }
    ensures { OnOk result (line.new.items ≡ line.old.items ++ encode_lower octets.now) }
{
    let mut digits = [0; 2 * LONGEST_PIECE];
    let text = &mut digits[..2 * octets.len()];
    match hex::encode_to_slice(octets, text) {
        Ok(()) => line.extend_from_slice(text),
        Err(_) => unreachable!(),
    }
}

/// Puts a line `WORD OPERAND`.
fn put_operand(line: &mut Vec<u8>, word: &[u8], operand: &[u8]) -> Result<(), AllocError>
    ensures { OnOk result (line.new.items ≡ line.old.items ++ one_operand word.now operand.now) }
{
    line.extend_from_slice(word)?;
    line.extend_from_slice(b" ")?;
    line.extend_from_slice(operand)?;
    line.extend_from_slice(b"\n")
}

/// Puts a line `WORD HEX`.
fn put_text(line: &mut Vec<u8>, word: &[u8], octets: &[u8]) -> Result<(), AllocError>
    requires { length octets.now ≤ 4096 }
    ensures { OnOk result (line.new.items ≡ line.old.items ++ one_operand word.now (encode_lower octets.now)) }
{
    line.extend_from_slice(word)?;
    line.extend_from_slice(b" ")?;
    put_hex(line, octets)?;
    line.extend_from_slice(b"\n")
}

/// Puts a line of octets and a client, `WORD NAME HEX`.
fn put_octets(line: &mut Vec<u8>, word: &[u8], name: &[u8], octets: &[u8]) -> Result<(), AllocError>
    requires { length octets.now ≤ 4096 }
    ensures { OnOk result (line.new.items ≡ line.old.items ++ two_operands word.now name.now (encode_lower octets.now)) }
{
    line.extend_from_slice(word)?;
    line.extend_from_slice(b" ")?;
    line.extend_from_slice(name)?;
    line.extend_from_slice(b" ")?;
    put_hex(line, octets)?;
    line.extend_from_slice(b"\n")
}

/// Puts the line of a client's room, `room NAME N`.
fn put_room(line: &mut Vec<u8>, name: &[u8], room: u64) -> Result<(), AllocError>
    ensures { OnOk result (line.new.items ≡ line.old.items ++ two_operands (codes "room") name.now (decimal room)) }
{
    let mut digits = Buffer::new();
    line.extend_from_slice(b"room ")?;
    line.extend_from_slice(name)?;
    line.extend_from_slice(b" ")?;
    line.extend_from_slice(digits.format(room).as_bytes())?;
    line.extend_from_slice(b"\n")
}

/// Puts the line of the clock's second, `moment N`.
fn put_moment(line: &mut Vec<u8>, second: u64) -> Result<(), AllocError>
    ensures { OnOk result (line.new.items ≡ line.old.items ++ one_operand (codes "moment") (decimal second)) }
{
    let mut digits = Buffer::new();
    put_operand(line, b"moment", digits.format(second).as_bytes())
}

/// Puts the line of a session that the operator ends, `shutdown NAME HEX`, or `shutdown NAME` where there is no text.
fn put_shutdown(line: &mut Vec<u8>, name: &[u8], text: &[u8]) -> Result<(), AllocError>
    requires { length text.now ≤ 4096 }
    ensures { OnOk result (line.new.items ≡ line.old.items ++ shutdown_line name.now text.now) }
{
    if text.is_empty() {
        put_operand(line, b"shutdown", name)
    } else {
        put_octets(line, b"shutdown", name, text)
    }
}

/// Puts the comment that memory was refused for a client, `# memory NAME`.
fn put_memory(line: &mut Vec<u8>, name: &[u8]) -> Result<(), AllocError>
    ensures { OnOk result (line.new.items ≡ line.old.items ++ two_operands (codes "#") (codes "memory") name.now) }
{
    line.extend_from_slice(b"# memory ")?;
    line.extend_from_slice(name)?;
    line.extend_from_slice(b"\n")
}

/// Says that a client's connection has come, where there is such a client.
#[tactic(auto, using(crate::proofs::EventLemmas::adds_opened, crate::proofs::EventLemmas::no_opened))]
fn say_opened(line: &mut Vec<u8>, names: &ClientNames, c: usize) -> Result<(), RecordFault>
    ensures { OnOk result (AddsLines names.now.names line.old.items line.new.items (event_says (count_of names.now.names) (Event.Opened c) [])) }
{
    if let Some(name) = names.name(c) {
        put_operand(line, b"open", name)?;
    }
    Ok(())
}

/// Says which octets a client sent, where there is such a client, and no more of them than a piece has.
#[tactic(auto, using(crate::proofs::EventLemmas::adds_octets, crate::proofs::EventLemmas::no_octets, crate::proofs::EventLemmas::long_octets))]
fn say_octets(
    line: &mut Vec<u8>,
    names: &ClientNames,
    c: usize,
    size: usize,
    piece: &[u8; 4096],
) -> Result<(), RecordFault>
    ensures { OnOk result (AddsLines names.now.names line.old.items line.new.items (event_says (count_of names.now.names) (Event.Octets c size) (take size piece.now))) }
{
    if size > LONGEST_PIECE {
        return Ok(());
    }
    if let Some(name) = names.name(c) {
        put_octets(line, b"octets", name, &piece[..size])?;
    }
    Ok(())
}

/// Says the clock's second.
#[tactic(auto, using(crate::proofs::EventLemmas::adds_moment))]
fn say_moment(line: &mut Vec<u8>, names: &ClientNames, second: u64) -> Result<(), RecordFault>
    ensures { OnOk result (AddsLines names.now.names line.old.items line.new.items (Passed second ∷ [])) }
{
    put_moment(line, second)?;
    Ok(())
}

/// Says a turn.
#[tactic(auto, using(crate::proofs::EventLemmas::adds_turn))]
fn say_turn(line: &mut Vec<u8>, names: &ClientNames) -> Result<(), RecordFault>
    ensures { OnOk result (AddsLines names.now.names line.old.items line.new.items (Turned ∷ [])) }
{
    line.extend_from_slice(b"turn\n")?;
    Ok(())
}

/// Says the room of a client's link, where there is such a client.
#[tactic(auto, using(crate::proofs::EventLemmas::adds_room, crate::proofs::EventLemmas::no_room))]
pub(crate) fn say_room(
    line: &mut Vec<u8>,
    names: &ClientNames,
    c: usize,
    room: u64,
) -> Result<(), RecordFault>
    ensures { OnOk result (AddsLines names.now.names line.old.items line.new.items (event_says (count_of names.now.names) (Event.Room c room) [])) }
{
    if let Some(name) = names.name(c) {
        put_room(line, name, room)?;
    }
    Ok(())
}

/// Says that a client's connection is lost, where there is such a client.
#[tactic(auto, using(crate::proofs::EventLemmas::adds_lost, crate::proofs::EventLemmas::no_lost))]
pub(crate) fn say_lost(line: &mut Vec<u8>, names: &ClientNames, c: usize) -> Result<(), RecordFault>
    ensures { OnOk result (AddsLines names.now.names line.old.items line.new.items (event_says (count_of names.now.names) (Event.Lost c) [])) }
{
    if let Some(name) = names.name(c) {
        put_operand(line, b"lost", name)?;
    }
    Ok(())
}

/// An operator's text as a line gives it: none where it is no text.
fn text_said(text: ShutdownText) -> ShutdownText
    ensures { result ≡ said_text text }
{
    ShutdownText::of(text.octets()).unwrap_or(ShutdownText::NONE)
}

/// Says that the operator ends a client's session by a text that is said by these octets, where there is such a
/// client.
fn say_text(
    line: &mut Vec<u8>,
    names: &ClientNames,
    c: usize,
    octets: &[u8],
) -> Result<(), RecordFault>
    requires { length octets.now ≤ 4096 }
    ensures { (text : ShutdownText) → text_octets (said_text text) ≡ octets.now → OnOk result (AddsLines names.now.names line.old.items line.new.items (event_says (count_of names.now.names) (Event.Commanded c (Command.Stop text)) [])) }
{
    if let Some(name) = names.name(c) {
        put_shutdown(line, name, octets)?;
    }
    Ok(())
}

/// Says that the operator ends a client's session, where there is such a client.
fn say_shutdown(
    line: &mut Vec<u8>,
    names: &ClientNames,
    c: usize,
    text: ShutdownText,
) -> Result<(), RecordFault>
    ensures { OnOk result (AddsLines names.now.names line.old.items line.new.items (event_says (count_of names.now.names) (Event.Commanded c (Command.Stop text)) [])) }
{
    let said = text_said(text);
    say_text(line, names, c, said.octets())
}

/// Says that the operator has a client told its routes again, where there is such a client.
#[tactic(auto, using(crate::proofs::EventLemmas::adds_refresh, crate::proofs::EventLemmas::no_command))]
fn say_refresh(line: &mut Vec<u8>, names: &ClientNames, c: usize) -> Result<(), RecordFault>
    ensures { OnOk result (AddsLines names.now.names line.old.items line.new.items (event_says (count_of names.now.names) (Event.Commanded c Command.Refresh) [])) }
{
    if let Some(name) = names.name(c) {
        put_operand(line, b"refresh", name)?;
    }
    Ok(())
}

/// Puts the comment that memory was refused for a client, where there is such a client. It says nothing.
#[tactic(auto, using(crate::proofs::EventLemmas::adds_memory, crate::proofs::Recording::adds_none))]
pub(crate) fn say_memory(
    line: &mut Vec<u8>,
    names: &ClientNames,
    c: usize,
) -> Result<(), RecordFault>
    ensures { OnOk result (AddsLines names.now.names line.old.items line.new.items []) }
{
    if let Some(name) = names.name(c) {
        put_memory(line, name)?;
    }
    Ok(())
}

/// Puts the lines of a text of rules: `more HEX` as often as there are more octets than a line gives, and
/// `rules HEX`.
fn put_parts(line: &mut Vec<u8>, names: &ClientNames, text: &[u8]) -> Result<(), AllocError>
    requires some { 0 < length text.now }
    requires few { length text.now ≤ 67108864 }
    ensures { OnOk result (AddsLines names.now.names line.old.items line.new.items (Replaced text.now ∷ [])) }
{
    let mut rest = text;
    while rest.len() > LONGEST_PIECE {
        let (front, behind) = rest.split_at(LONGEST_PIECE);
        put_text(line, b"more", front)?;
        rest = behind;
    }
    put_text(line, b"rules", rest)
}

/// The same of any text. No line gives an empty one: it is said as an empty line, which is refused alike.
fn put_rules(line: &mut Vec<u8>, names: &ClientNames, text: &[u8]) -> Result<(), RecordFault>
    ensures { OnOk result (AddsLines names.now.names line.old.items line.new.items (Replaced (said_octets Event.Rules text.now) ∷ [])) }
{
    if text.len() > LONGEST_TEXT {
        return Err(RecordFault::TextTooLong);
    }
    if text.is_empty() {
        put_parts(line, names, b"\n")?;
    } else {
        put_parts(line, names, text)?;
    }
    Ok(())
}

/// Puts the lines that mean an event, with the octets at the front of the piece and the text of rules that
/// came last. None mean a stop, and an event that changes nothing: of a client that is not there, or of more
/// octets than a piece has.
///
/// # Errors
///
/// `TextTooLong` of rules beyond 64 MiB, and `Memory`; a part of the lines may stand there then.
pub fn put_event(
    line: &mut Vec<u8>,
    names: &ClientNames,
    event: Event,
    piece: &[u8; 4096],
    rules: &[u8],
) -> Result<(), RecordFault>
    ensures { OnOk result (AddsLines names.now.names line.old.items line.new.items (event_says (count_of names.now.names) event (octets_of event piece.now rules.now))) }
{
    match event {
        Event::Opened(c) => say_opened(line, names, c),
        Event::Octets(c, size) => say_octets(line, names, c, size, piece),
        Event::Moment(second) => say_moment(line, names, second),
        Event::Turn => say_turn(line, names),
        Event::Room(c, room) => say_room(line, names, c, room),
        Event::Lost(c) => say_lost(line, names, c),
        Event::Commanded(c, Command::Stop(text)) => say_shutdown(line, names, c, text),
        Event::Commanded(c, Command::Refresh) => say_refresh(line, names, c),
        Event::Rules => put_rules(line, names, rules),
        Event::Stop => Ok(()),
    }
}
