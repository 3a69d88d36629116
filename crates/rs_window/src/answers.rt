//! The heads of answers, and the texts that say that there is none.

ghost use Rattle.std.specs.Prelude.{◌≡◌, ◌≤◌, [], take, length};
ghost use Rattle.rs_window.specs.Answers.{found, not_found, status_of};

use crate::outbox::Outbox;
use crate::page::Kind;
use crate::request::Refusal;

/// A page takes nothing from elsewhere, runs no script, sends its forms here alone, and is not kept.
const GUARDS: &[u8] =
    b"\r\nCache-Control: no-store\r\nX-Content-Type-Options: nosniff\r\nReferrer-Policy: no-referrer\r\nContent-Security-Policy: default-src 'none'; style-src 'unsafe-inline'; form-action 'self'; base-uri 'none'; frame-ancestors 'none'\r\n";

const FOUND: &[u8] = b"HTTP/1.1 200 OK\r\nContent-Type: ";

const NOT_FOUND: &[u8] =
    b"HTTP/1.1 404 Not Found\r\nContent-Type: text/plain; charset=utf-8\r\nContent-Length: 28\r\n";

const NO_PAGE: &[u8] = b"There is no such page here.\n";

/// The last field of a head, and its end.
const CLOSES: &[u8] = b"Connection: close\r\n\r\n";

/// The value of the field `Content-Type`.
fn content_type(kind: Kind) -> &'static [u8]
    ensures { length result.now ≤ 64 }
{
    match kind {
        Kind::Html => b"text/html; charset=utf-8",
        Kind::Json => b"application/json",
        Kind::Metrics => b"text/plain; version=0.0.4; charset=utf-8",
        Kind::Text => b"text/plain; charset=utf-8",
    }
}

/// The field of a body in chunks, or nothing.
fn coding(is_chunked: bool) -> &'static [u8]
    ensures { length result.now ≤ 64 }
{
    if is_chunked {
        b"Transfer-Encoding: chunked\r\n"
    } else {
        b""
    }
}

/// The end of a head, which says whether the connection is closed after the answer.
fn head_end(stays: bool) -> &'static [u8]
    ensures { length result.now ≤ 64 }
{
    if stays { b"\r\n" } else { CLOSES }
}

/// The text of a page that is none, but to HEAD.
fn no_page(is_head: bool) -> &'static [u8]
    ensures { length result.now ≤ 128 }
{
    if is_head { b"" } else { NO_PAGE }
}

/// The head of a refusal, but for its end.
fn refusal_head(refusal: Refusal) -> &'static [u8]
    ensures status { take 12 result.now ≡ status_of refusal }
    ensures whole { 12 ≤ length result.now }
    ensures bound { length result.now ≤ 256 }
{
    match refusal {
        Refusal::BadRequest =>
            b"HTTP/1.1 400 Bad Request\r\nContent-Type: text/plain; charset=utf-8\r\nContent-Length: 92\r\n",
        Refusal::Forbidden =>
            b"HTTP/1.1 403 Forbidden\r\nContent-Type: text/plain; charset=utf-8\r\nContent-Length: 74\r\n",
        Refusal::NotAllowed =>
            b"HTTP/1.1 405 Method Not Allowed\r\nAllow: GET, HEAD\r\nContent-Type: text/plain; charset=utf-8\r\nContent-Length: 37\r\n",
        Refusal::TargetTooLong =>
            b"HTTP/1.1 414 URI Too Long\r\nContent-Type: text/plain; charset=utf-8\r\nContent-Length: 60\r\n",
        Refusal::FieldsTooLarge =>
            b"HTTP/1.1 431 Request Header Fields Too Large\r\nContent-Type: text/plain; charset=utf-8\r\nContent-Length: 65\r\n",
    }
}

/// The text of a refusal.
fn refusal_text(refusal: Refusal) -> &'static [u8]
    ensures { length result.now ≤ 128 }
{
    match refusal {
        Refusal::BadRequest =>
            b"This is no request that is answered here: HTTP/1.1 or HTTP/1.0, with one Host, and no body.\n",
        Refusal::Forbidden =>
            b"The Host is no name of this machine: ask by its address, or by localhost.\n",
        Refusal::NotAllowed => b"Only GET and HEAD are answered here.\n",
        Refusal::TargetTooLong => b"The first line is too long: a head has at most 8192 octets.\n",
        Refusal::FieldsTooLarge =>
            b"The head is too long: it has at most 8192 octets, and 32 fields.\n",
    }
}

/// The text of a refusal, but to HEAD.
fn text_for(refusal: Refusal, is_head: bool) -> &'static [u8]
    ensures { length result.now ≤ 128 }
{
    if is_head { b"" } else { refusal_text(refusal) }
}

/// Puts the head of a page's answer.
pub fn put_found(outbox: &mut Outbox, kind: Kind, is_chunked: bool, stays: bool)
    requires empty { outbox.old ≡ [] }
    ensures { take 12 outbox.new ≡ found }
{
    outbox.put(FOUND);
    outbox.put(content_type(kind));
    outbox.put(GUARDS);
    outbox.put(coding(is_chunked));
    outbox.put(head_end(stays));
}

/// Puts the answer where there is no page.
pub fn put_not_found(outbox: &mut Outbox, is_head: bool, stays: bool)
    requires empty { outbox.old ≡ [] }
    ensures { take 12 outbox.new ≡ not_found }
{
    outbox.put(NOT_FOUND);
    outbox.put(head_end(stays));
    outbox.put(no_page(is_head));
}

/// Puts the answer to a refused request.
pub fn put_refusal(outbox: &mut Outbox, refusal: Refusal, is_head: bool)
    requires empty { outbox.old ≡ [] }
    ensures { take 12 outbox.new ≡ status_of refusal }
{
    outbox.put(refusal_head(refusal));
    outbox.put(CLOSES);
    outbox.put(text_for(refusal, is_head));
}
