//! The page that a target of a request names.

use crate::queries::{parameter, parted, read_prefix};
use rs_page_parts::keys::{key, read_number};
use rs_page_parts::tables::Tables;
use rs_page_parts::views::View;
use rs_window::page::Page;

/// The most routes that one of our own pages lists.
const MOST: u32 = 10_000;

/// The member of this name.
fn member<T: Tables>(tables: &T, name: &[u8]) -> Option<usize> {
    match str::from_utf8(name) {
        Ok(name) => tables.config().place(name),
        Err(_) => None,
    }
}

/// The page of a member's routes that a query asks for: from a prefix on, `from`, and at most so many,
/// `count`.
fn listing(view: View, place: usize, query: &[u8]) -> Option<Page> {
    let from = match parameter(query, b"from") {
        Some(text) if !text.is_empty() => key(&read_prefix(text)?),
        _ => 0,
    };
    let count = match parameter(query, b"count") {
        Some(text) if !text.is_empty() => read_number(text, u64::from(MOST))? as u32,
        _ => MOST,
    };
    Some(view.page(place, from, count))
}

/// The pages that have a path of their own.
static PATHS: [(&[u8], View); 4] = [
    (b"/", View::Home),
    (b"/status", View::Status),
    (b"/protocols/bgp", View::Protocols),
    (b"/metrics", View::Metrics),
];

/// The pages below a member's.
static TABLES: [(&[u8], View); 4] = [
    (b"received", View::Received),
    (b"sent", View::Sent),
    (b"received.html", View::ReceivedTable),
    (b"sent.html", View::SentTable),
];

/// The pages below `/routes/` that a member's name follows, and how many routes each lists at most.
static ROUTES: [(&[u8], View, u32); 4] = [
    (b"protocol/", View::Routes, u32::MAX),
    (b"filtered/", View::Filtered, u32::MAX),
    (b"noexport/", View::NoExport, u32::MAX),
    (b"count/protocol/", View::Count, 0),
];

/// The page with this path, of some.
fn view_at(views: &[(&[u8], View)], path: &[u8]) -> Option<View> {
    for (own, view) in views {
        if *own == path {
            return Some(*view);
        }
    }
    None
}

/// A page below `/members/`.
fn member_page<T: Tables>(tables: &T, rest: &[u8], query: &[u8]) -> Option<Page> {
    let (name, table) = parted(rest, b'/');
    let place = member(tables, name)?;
    if name.len() == rest.len() {
        return Some(View::Member.page(place, 0, 0));
    }
    let view = view_at(&TABLES, table)?;
    listing(view, place, query)
}

/// A page below `/routes/`.
fn routes_page<T: Tables>(tables: &T, rest: &[u8], query: &[u8]) -> Option<Page> {
    for (front, view, most) in &ROUTES {
        if let Some(name) = rest.strip_prefix(*front) {
            return Some(view.page(member(tables, name)?, 0, *most));
        }
    }
    if rest == b"prefix".as_slice() {
        return prefix_page(View::AtPrefix, query);
    }
    None
}

/// A page of the prefix that a query names.
fn prefix_page(view: View, query: &[u8]) -> Option<Page> {
    let prefix = read_prefix(parameter(query, b"prefix")?)?;
    Some(view.page(0, key(&prefix), u32::MAX))
}

/// The page `/why`.
fn why_page<T: Tables>(tables: &T, query: &[u8]) -> Option<Page> {
    let to = member(tables, parameter(query, b"to")?)?;
    let prefix = read_prefix(parameter(query, b"prefix")?)?;
    Some(View::Why.page(to, key(&prefix), 0))
}

/// The page that a target names.
pub fn find_page<T: Tables>(tables: &T, target: &[u8]) -> Option<Page> {
    let (path, query) = parted(target, b'?');
    if let Some(rest) = path.strip_prefix(b"/members/".as_slice()) {
        return member_page(tables, rest, query);
    }
    if let Some(rest) = path.strip_prefix(b"/routes/".as_slice()) {
        return routes_page(tables, rest, query);
    }
    if let Some(name) = path.strip_prefix(b"/protocols/bgp/".as_slice()) {
        return Some(View::Protocol.page(member(tables, name)?, 0, 0));
    }
    if path == b"/why".as_slice() {
        return why_page(tables, query);
    }
    if path == b"/search".as_slice() {
        return prefix_page(View::Search, query);
    }
    let view = view_at(&PATHS, path)?;
    Some(view.page(0, 0, 0))
}
