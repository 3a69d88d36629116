//! The pages for people: plain HTML and CSS.

use crate::members::{put_ending, put_member_row, put_named};
use crate::moments::Moments;
use crate::parts::{Part, put_parts, time};
use rs_attrs::Attrs;
use rs_octets::Prefix;
use rs_page_parts::members::{Member, member_at};
use rs_page_parts::tables::{Ended, Tables};
use rs_page_parts::texts::put_prefix;
use rs_page_parts::views::Listing;
use rs_window::page::Page;
use std::alloc::{AllocError, Global};

/// What each page begins with.
const TOP: &[u8] =
    b"<!DOCTYPE html>\n<html lang=en>\n<meta charset=utf-8>\n<meta name=viewport content=\"width=device-width\">\n<style>\n:root{color-scheme:light dark;font:16px/1.5 system-ui,sans-serif}\nbody{max-width:64rem;margin:1rem auto;padding:0 1rem}\ntable{border-collapse:collapse;width:100%}\nth,td{text-align:left;padding:.25rem .75rem .25rem 0;border-bottom:1px solid #8886}\n.number{text-align:right;font-variant-numeric:tabular-nums}\n.up{color:light-dark(#060,#6d6)}.down{color:light-dark(#a00,#f88)}\n</style>\n";

const SEARCH: &[u8] =
    b"<form action=\"/search\"><label>Who announces the prefix <input name=prefix placeholder=192.0.2.0/24 required></label> <button>Search</button></form>\n";

const COLUMNS: &[u8] =
    b"<table>\n<tr><th>Member<th>AS<th>Address<th>State<th>Since<th class=number>Received<th class=number>Refused<th class=number>UPDATEs at fault<th class=number>Sent</tr>\n";

/// Puts the front of the page of all members.
pub fn put_home<T: Tables>(
    text: &mut Vec<u8>,
    alloc: Global,
    tables: &T,
    moments: &Moments<'_>,
) -> Result<(), AllocError> {
    let config = tables.config();
    let parts = [
        Part::Plain(TOP),
        Part::Plain(b"<title>Route server</title>\n<h1>Route server, AS "),
        Part::Number(u64::from(config.server_as())),
        Part::Plain(b"</h1>\n<p>"),
        Part::Address(config.identifier()),
        Part::Plain(b", up since "),
        time(alloc, moments, 0),
        Part::Plain(b".</p>\n"),
        Part::Plain(SEARCH),
        Part::Plain(COLUMNS),
    ];
    put_parts(text, &parts)
}

/// Puts what the page of a thing of this name begins with.
fn put_top<'a>(text: &mut Vec<u8>, name: &'a [u8], rest: &'a [u8]) -> Result<(), AllocError> {
    let parts = [
        Part::Plain(TOP),
        Part::Plain(b"<title>"),
        Part::Html(name),
        Part::Plain(rest),
        Part::Plain(b"</title>\n<h1>"),
        Part::Html(name),
        Part::Plain(rest),
        Part::Plain(b"</h1>\n<p><a href=\"/\">All members</a></p>\n"),
    ];
    put_parts(text, &parts)
}

/// Puts a member's page.
pub fn put_member<T: Tables>(
    text: &mut Vec<u8>,
    alloc: Global,
    tables: &T,
    moments: &Moments<'_>,
    place: usize,
) -> Result<(), AllocError> {
    let Some(member) = member_at(tables, place) else {
        return Ok(());
    };
    put_top(text, member.name, b"")?;
    text.extend_from_slice(COLUMNS)?;
    put_member_row(text, alloc, tables, moments, &member)?;
    text.extend_from_slice(b"</table>\n<p>")?;
    put_last(text, alloc, tables.ended(place))?;
    text.extend_from_slice(b"</p>\n")?;
    put_links(text, &member)?;
    text.extend_from_slice(b"</html>\n")
}

/// Puts why the last session that ended did so.
fn put_last(text: &mut Vec<u8>, alloc: Global, ended: Option<Ended>) -> Result<(), AllocError> {
    if ended.is_none() {
        return text.extend_from_slice(b"No session has ended.");
    }
    text.extend_from_slice(b"The last session that ended: ")?;
    put_ending(text, alloc, ended)?;
    text.extend_from_slice(b".")
}

/// What the pages of a member's routes are called, behind its name.
const RECEIVED: &[u8] = b"/received.html";

const SENT: &[u8] = b"/sent.html";

/// Puts the target of a page below a member's.
fn put_target<'a>(
    text: &mut Vec<u8>,
    member: &Member<'a>,
    page: &'a [u8],
) -> Result<(), AllocError> {
    let parts = [
        Part::Plain(b"/members/"),
        Part::Html(member.name),
        Part::Plain(page),
    ];
    put_parts(text, &parts)
}

/// Puts the links to the pages of a member's routes, and the form that asks why it is sent what it is.
fn put_links(text: &mut Vec<u8>, member: &Member<'_>) -> Result<(), AllocError> {
    let parts = [
        Part::Plain(b"<p><a href=\"/members/"),
        Part::Html(member.name),
        Part::Plain(RECEIVED),
        Part::Plain(b"\">Routes received</a>, <a href=\"/members/"),
        Part::Html(member.name),
        Part::Plain(SENT),
        Part::Plain(
            b"\">routes sent</a></p>\n<form action=\"/why\"><input type=hidden name=to value=\"",
        ),
        Part::Html(member.name),
        Part::Plain(
            b"\"><label>Why it is sent what it is for <input name=prefix placeholder=192.0.2.0/24 required></label> <button>Ask</button></form>\n",
        ),
    ];
    put_parts(text, &parts)
}

/// The target of a page of a member's routes, within HTML.
pub fn target_of<T: Tables>(
    alloc: Global,
    tables: &T,
    listing: Listing,
    page: Page,
) -> Result<Vec<u8>, AllocError> {
    let mut target = Vec::new(alloc);
    if let Some(member) = member_at(tables, page.place) {
        let page = match listing {
            Listing::Sent => SENT,
            _ => RECEIVED,
        };
        put_target(&mut target, &member, page)?;
    }
    Ok(target)
}

/// Puts the front of a page of a member's routes.
pub fn put_routes<T: Tables>(
    text: &mut Vec<u8>,
    tables: &T,
    listing: Listing,
    page: Page,
) -> Result<(), AllocError> {
    let Some(member) = member_at(tables, page.place) else {
        return Ok(());
    };
    let title = match listing {
        Listing::Sent => b": routes sent".as_slice(),
        _ => b": routes received".as_slice(),
    };
    put_top(text, member.name, title)?;
    text.extend_from_slice(b"<p>")?;
    put_named(text, &member)?;
    text.extend_from_slice(b"</p>\n<table>\n<tr><th>Prefix")?;
    text.extend_from_slice(CELLS)?;
    text.extend_from_slice(b"</tr>\n")
}

/// The columns that show a route's attributes.
const CELLS: &[u8] = b"<th>Next hop<th>AS path<th class=number>MED<th>Communities";

/// Puts the front of the page of who announces a prefix.
pub fn put_found(text: &mut Vec<u8>, alloc: Global, prefix: &Prefix) -> Result<(), AllocError> {
    let mut name = Vec::new(alloc);
    put_prefix(&mut name, prefix)?;
    put_top(text, &name, b"")?;
    let parts = [
        Part::Plain(SEARCH),
        Part::Plain(b"<table>\n<tr><th>Announced by"),
        Part::Plain(CELLS),
        Part::Plain(b"<th>It is sent</tr>\n"),
    ];
    put_parts(text, &parts)
}

/// Puts the row of who announces a prefix.
pub fn put_holder<'a>(
    text: &mut Vec<u8>,
    member: &Member<'a>,
    prefix: &Prefix,
    attrs: &Attrs,
    cells: &'a [u8],
) -> Result<(), AllocError> {
    text.extend_from_slice(b"<tr><td>")?;
    put_named(text, member)?;
    let parts = [
        Part::Plain(b"<td>"),
        Part::Address(attrs.next_hop().unwrap_or(0)),
        Part::Plain(cells),
        Part::Plain(b"<td><a href=\"/why?to="),
        Part::Html(member.name),
        Part::Plain(b"&amp;prefix="),
        Part::Prefix(*prefix),
        Part::Plain(b"\">why</a></tr>\n"),
    ];
    put_parts(text, &parts)
}
