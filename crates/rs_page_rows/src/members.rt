//! What is shown of a member.

use crate::moments::Moments;
use crate::parts::{Part, put_parts, time};
use rs_octets::Notification;
use rs_page_parts::members::Member;
use rs_page_parts::tables::{Ended, Rib, Tables};
use rs_page_parts::texts::{put_json, put_number};
use std::alloc::{AllocError, Global};

/// Puts the name of a NOTIFICATION's error code and subcode.
fn put_notification(
    text: &mut Vec<u8>,
    alloc: Global,
    code: u8,
    sub: u8,
) -> Result<(), AllocError> {
    match Notification::named(code, sub) {
        Some(name) => {
            let written = format!(in alloc; "{name}")?;
            put_json(text, written.as_bytes())
        }
        None => {
            text.extend_from_slice(b"error ")?;
            put_number(text, u64::from(code))?;
            text.extend_from_slice(b", ")?;
            put_number(text, u64::from(sub))
        }
    }
}

/// Puts why the last session of a member ended; nothing where none did. It is plain in JSON and in HTML.
pub(crate) fn put_ending(
    text: &mut Vec<u8>,
    alloc: Global,
    ended: Option<Ended>,
) -> Result<(), AllocError> {
    match ended {
        None => Ok(()),
        Some(Ended::Sent(code, sub)) => {
            text.extend_from_slice(b"NOTIFICATION sent: ")?;
            put_notification(text, alloc, code, sub)
        }
        Some(Ended::Heard(code, sub)) => {
            text.extend_from_slice(b"NOTIFICATION heard: ")?;
            put_notification(text, alloc, code, sub)
        }
        Some(Ended::Lost) => text.extend_from_slice(b"the connection was lost"),
        Some(Ended::Memory) => text.extend_from_slice(b"memory was refused"),
    }
}

/// The words for a member whose session is Established, or those for another.
fn up_or_down<T: Tables>(
    tables: &T,
    member: &Member<'_>,
    up: &'static [u8],
    down: &'static [u8],
) -> &'static [u8] {
    if tables.is_established(member.place) {
        up
    } else {
        down
    }
}

/// How many of its routes a member's import list passes.
pub fn imported<T: Tables>(tables: &T, member: &Member<'_>) -> u64 {
    let received = tables.count(Rib::Received, member.place);
    received.saturating_sub(tables.dropped(member.place)) as u64
}

/// Puts a member as birdwatcher's `/protocols/bgp` has it, but for the counts: its name, and what is known of it.
pub fn put_protocol<T: Tables>(
    text: &mut Vec<u8>,
    alloc: Global,
    tables: &T,
    moments: &Moments<'_>,
    member: &Member<'_>,
) -> Result<(), AllocError> {
    let parts = [
        Part::Plain(b"\""),
        Part::Json(member.name),
        Part::Plain(b"\":{\"protocol\":\""),
        Part::Json(member.name),
        Part::Plain(b"\",\"bird_protocol\":\"BGP\",\"state\":\""),
        Part::Plain(up_or_down(tables, member, b"up", b"down")),
        Part::Plain(b"\",\"state_changed\":\""),
        time(alloc, moments, moments.change(member.place)),
        Part::Plain(b"\",\"description\":\""),
        Part::Json(member.name),
        Part::Plain(b"\",\"neighbor_address\":\""),
        Part::Address(member.peer),
        Part::Plain(b"\",\"neighbor_as\":"),
        Part::Number(u64::from(member.client_as)),
    ];
    put_parts(text, &parts)?;
    put_state(text, alloc, tables, moments, member)
}

/// Puts the rest of it.
fn put_state<T: Tables>(
    text: &mut Vec<u8>,
    alloc: Global,
    tables: &T,
    moments: &Moments<'_>,
    member: &Member<'_>,
) -> Result<(), AllocError> {
    let uptime = if tables.is_established(member.place) {
        moments.since(member.place)
    } else {
        0
    };
    let disabled: &[u8] = if moments.is_disabled(member.place) {
        b",\"disabled\":true"
    } else {
        b""
    };
    let parts = [
        Part::Plain(b",\"bgp_state\":\""),
        Part::Plain(up_or_down(tables, member, b"Established", b"Down")),
        Part::Plain(b"\",\"uptime\":"),
        Part::Number(uptime),
        Part::Plain(disabled),
        Part::Plain(b",\"last_error\":\""),
    ];
    put_parts(text, &parts)?;
    put_ending(text, alloc, tables.ended(member.place))?;
    text.extend_from_slice(b"\",")
}

/// Puts what all routes of a member have in common, as birdwatcher has it.
pub fn put_origin(
    text: &mut Vec<u8>,
    alloc: Global,
    moments: &Moments<'_>,
    member: &Member<'_>,
) -> Result<(), AllocError> {
    let parts = [
        Part::Plain(b"\"from_protocol\":\""),
        Part::Json(member.name),
        Part::Plain(b"\",\"learnt_from\":\""),
        Part::Address(member.peer),
        Part::Plain(b"\",\"age\":\""),
        time(alloc, moments, moments.change(member.place)),
        Part::Plain(
            b"\",\"metric\":100,\"primary\":false,\"type\":[\"BGP\",\"unicast\",\"univ\"],",
        ),
    ];
    put_parts(text, &parts)
}

/// What a cell that has a number begins with.
const NUMBER_CELL: Part<'static> = Part::Plain(b"<td class=number>");

/// The cell for a member whose session is Established, and the one for another; the next cell begins.
const UP_CELL: &[u8] = b"<td class=up>up<td>";

const DOWN_CELL: &[u8] = b"<td class=down>down<td>";

/// Puts a member's name, with a link to its page.
pub(crate) fn put_named(text: &mut Vec<u8>, member: &Member<'_>) -> Result<(), AllocError> {
    let parts = [
        Part::Plain(b"<a href=\"/members/"),
        Part::Html(member.name),
        Part::Plain(b"\">"),
        Part::Html(member.name),
        Part::Plain(b"</a>"),
    ];
    put_parts(text, &parts)
}

/// Puts a member's row in the table of members.
pub fn put_member_row<T: Tables>(
    text: &mut Vec<u8>,
    alloc: Global,
    tables: &T,
    moments: &Moments<'_>,
    member: &Member<'_>,
) -> Result<(), AllocError> {
    let place = member.place;
    text.extend_from_slice(b"<tr><td>")?;
    put_named(text, member)?;
    let parts = [
        Part::Plain(b"<td>"),
        Part::Number(u64::from(member.client_as)),
        Part::Plain(b"<td>"),
        Part::Address(member.peer),
        Part::Plain(up_or_down(tables, member, UP_CELL, DOWN_CELL)),
        time(alloc, moments, moments.change(place)),
        NUMBER_CELL,
        Part::Number(tables.count(Rib::Received, place) as u64),
        NUMBER_CELL,
        Part::Number(tables.dropped(place) as u64),
        NUMBER_CELL,
        Part::Number(tables.faults(place).at_fault),
        NUMBER_CELL,
        Part::Number(tables.count(Rib::Sent, place) as u64),
        Part::Plain(b"</tr>\n"),
    ];
    put_parts(text, &parts)
}
