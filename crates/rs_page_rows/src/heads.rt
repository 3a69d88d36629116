//! The heads of pages in JSON: birdwatcher's, and our own.

use crate::members::imported;
use crate::moments::Moments;
use crate::parts::{Part, put_parts, time};
use rs_page_parts::keys::prefix_at;
use rs_page_parts::members::member_at;
use rs_page_parts::tables::Tables;
use rs_window::page::Page;
use std::alloc::{AllocError, Global};

/// What `/status` calls the program.
const VERSION: &[u8] = b"Tivrazel 0.1.0";

/// Puts what birdwatcher's answers begin with.
fn put_api(text: &mut Vec<u8>, alloc: Global, moments: &Moments<'_>) -> Result<(), AllocError> {
    let now = moments.now;
    let parts = [
        Part::Plain(b"{\"api\":{\"Version\":\""),
        Part::Plain(VERSION),
        Part::Plain(b"\",\"result_from_cache\":false,\"cache_status\":{\"cached_at\":{\"date\":\""),
        time(alloc, moments, now),
        Part::Plain(b"\",\"timezone_type\":\"UTC\",\"timezone\":\"UTC\"}}},\"ttl\":\""),
        time(alloc, moments, now),
        Part::Plain(b"\","),
    ];
    put_parts(text, &parts)
}

/// Puts what those begin with that have a list, and how the list begins.
pub fn put_list(
    text: &mut Vec<u8>,
    alloc: Global,
    moments: &Moments<'_>,
    list: &[u8],
) -> Result<(), AllocError> {
    put_api(text, alloc, moments)?;
    text.extend_from_slice(list)
}

/// Puts birdwatcher's `/status`.
pub fn put_status<T: Tables>(
    text: &mut Vec<u8>,
    alloc: Global,
    tables: &T,
    moments: &Moments<'_>,
) -> Result<(), AllocError> {
    put_api(text, alloc, moments)?;
    let parts = [
        Part::Plain(b"\"status\":{\"router_id\":\""),
        Part::Address(tables.config().identifier()),
        Part::Plain(b"\",\"server_time\":\""),
        time(alloc, moments, moments.now),
        Part::Plain(b"\",\"last_reboot\":\""),
        time(alloc, moments, 0),
        Part::Plain(b"\",\"last_reconfig\":\""),
        time(alloc, moments, moments.rules),
        Part::Plain(b"\",\"message\":\"up and running\",\"version\":\""),
        Part::Plain(VERSION),
        Part::Plain(b"\"}}\n"),
    ];
    put_parts(text, &parts)
}

/// Puts how many of a member's routes its import list passes, as birdwatcher has it.
pub fn put_count<T: Tables>(
    text: &mut Vec<u8>,
    alloc: Global,
    tables: &T,
    moments: &Moments<'_>,
    place: usize,
) -> Result<(), AllocError> {
    let Some(member) = member_at(tables, place) else {
        return Ok(());
    };
    put_api(text, alloc, moments)?;
    let parts = [
        Part::Plain(b"\"routes\":"),
        Part::Number(imported(tables, &member)),
        Part::Plain(b"}\n"),
    ];
    put_parts(text, &parts)
}

/// Puts the head of one of our own pages of routes.
pub fn put_table<'a, T: Tables>(
    text: &mut Vec<u8>,
    tables: &'a T,
    place: usize,
    table: &'a [u8],
) -> Result<(), AllocError> {
    let Some(member) = member_at(tables, place) else {
        return Ok(());
    };
    let parts = [
        Part::Plain(b"{\"member\":\""),
        Part::Json(member.name),
        Part::Plain(b"\",\"table\":\""),
        Part::Plain(table),
        Part::Plain(b"\",\"routes\":["),
    ];
    put_parts(text, &parts)
}

/// Puts the head of `/why`.
pub fn put_question<T: Tables>(
    text: &mut Vec<u8>,
    tables: &T,
    page: Page,
) -> Result<(), AllocError> {
    let Some(member) = member_at(tables, page.place) else {
        return Ok(());
    };
    let parts = [
        Part::Plain(b"{\"to\":\""),
        Part::Json(member.name),
        Part::Plain(b"\",\"prefix\":\""),
        Part::Prefix(prefix_at(page.at)),
        Part::Plain(b"\",\"candidates\":["),
    ];
    put_parts(text, &parts)
}
