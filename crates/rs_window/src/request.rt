//! The head of a request: what it asks for, or why it is refused (RFC 9110, RFC 9112).

ghost use Rattle.std.specs.Prelude.{◌≡◌, ◌≤◌, ◌<◌, ◌==◌, length, All, map};
ghost use Rattle.std.specs.List.{before_first};
ghost use Rattle.httparse.specs.Spans.{IsHeaderWithin, IsRequestWithin, IsRequestOf, header_bytes};
ghost use Rattle.rs_window.specs.Requests.{is_same, is_address_octet, is_ipv4, is_ipv6, is_local, announces_body, said_of, with_field, refusal_for, IsTooLong, IsRefusedText, IsHeard};

use httparse::spans::{EMPTY_HEADER_SPAN, HeaderSpan, RequestSpans, Span, parse_request};
use httparse::{Error, Status};

/// The most octets of a head.
pub const HEAD: usize = 8192;

/// The most fields of a head.
const FIELDS: usize = 32;

/// A request for a page.
#[derive(Clone, Copy)]
pub struct Request {
    /// Where the target stands.
    pub target: Span,
    /// How many octets the head has.
    pub len: usize,
    /// It is HEAD, and not GET: the answer has no body.
    pub is_head: bool,
    /// The visitor stays for another request.
    pub stays: bool,
    /// The visitor knows chunks (HTTP/1.1).
    pub knows_chunks: bool,
}

/// Why a request is refused; it is the last of its connection.
#[derive(Clone, Copy)]
pub enum Refusal {
    /// 400: it is none, or it has a body, or not one `Host`.
    BadRequest,
    /// 403: its `Host` is no name of this machine.
    Forbidden,
    /// 405: its method is neither GET nor HEAD.
    NotAllowed,
    /// 414: its first line is too long.
    TargetTooLong,
    /// 431: its head is too long, or has too many fields.
    FieldsTooLarge,
}

/// What a visitor has said so far.
#[derive(Clone, Copy)]
pub enum Heard {
    /// No whole head yet.
    Part,
    Asked(Request),
    /// A refused request, and whether it is HEAD.
    Refused(Refusal, bool),
}

/// What the fields of a head say of it.
#[derive(Clone, Copy)]
struct Said {
    /// A body comes behind it.
    has_body: bool,
    /// How many fields `Host` it has.
    hosts: usize,
    /// One of them is no name of this machine.
    is_foreign: bool,
}

/// The octets are the same in any case.
fn is_same(octets: &[u8], name: &[u8]) -> bool
    ensures { result ≡ is_same octets.now name.now }
{
    octets.eq_ignore_ascii_case(name)
}

/// The octets of a `Host` before the port.
fn host_of(value: &[u8]) -> &[u8]
    ensures { result.now ≡ before_first (λ octet. octet == 58) value.now }
{
    match value.iter().position(|octet| *octet == b':') {
        Some(at) => value.split_at(at).0,
        None => value,
    }
}

/// The octet may stand in an IPv4 address.
fn is_address_octet(octet: u8) -> bool
    ensures { result ≡ is_address_octet octet }
{
    octet.is_ascii_digit() || octet == b'.'
}

/// Such a `Host` names this machine by no name that another could give it: a page of a stranger's does not
/// read the window by a name of its own that leads here.
fn is_local(value: &[u8]) -> bool
    ensures { result ≡ is_local value.now }
{
    let host = host_of(value);
    is_same(host, b"localhost") || is_ipv4(host) || is_ipv6(value)
}

/// The octets are digits and dots alone, as an IPv4 address.
fn is_ipv4(host: &[u8]) -> bool
    ensures { result ≡ is_ipv4 host.now }
{
    !host.is_empty() && host.iter().all(|octet| is_address_octet(*octet))
}

/// The octets begin as an IPv6 address in brackets does.
fn is_ipv6(value: &[u8]) -> bool
    ensures { result ≡ is_ipv6 value.now }
{
    match value {
        [first, ..] => *first == b'[',
        [] => false,
    }
}

impl Said {
    /// What no field says.
    const NOTHING: Said = Said {
        has_body: false,
        hosts: 0,
        is_foreign: false,
    };

    /// What is said with one more field.
    fn with_field(self, name: &[u8], value: &[u8]) -> Said
        requires { self.hosts < 65536 }
        ensures { result ≡ with_field self name.now value.now }
    {
        let is_host = is_same(name, b"host");
        Said {
            has_body: self.has_body || announces_body(name, value),
            hosts: self.hosts + usize::from(is_host),
            is_foreign: self.is_foreign || is_host && !is_local(value),
        }
    }
}

/// A body comes behind a head with such a field.
fn announces_body(name: &[u8], value: &[u8]) -> bool
    ensures { result ≡ announces_body (name.now, value.now) }
{
    is_same(name, b"content-length") && value != b"0".as_slice()
        || is_same(name, b"transfer-encoding")
}

/// What these fields say.
fn read_fields(octets: &[u8], fields: &[HeaderSpan]) -> Said
    requires within { All (IsHeaderWithin (length octets.now)) fields.now }
    requires few { length fields.now ≤ 32 }
    ensures { result ≡ said_of (map (header_bytes octets.now) fields.now) }
{
    let mut said = Said::NOTHING;
    for field in fields {
        said = said.with_field(field.name.of(octets), field.value.of(octets));
    }
    said
}

/// One of these fields, `Connection`, says that the connection is to be closed.
fn asks_to_close(octets: &[u8], fields: &[HeaderSpan]) -> bool
    requires { All (IsHeaderWithin (length octets.now)) fields.now }
{
    let mut closes = false;
    for field in fields {
        let value = field.value.of(octets);
        closes |= is_same(field.name.of(octets), b"connection") && has_word(value, b"close");
    }
    closes
}

/// One of the words of a list is this one (RFC 9110, section 5.6.1).
fn has_word(value: &[u8], word: &[u8]) -> bool {
    value
        .split(|octet| *octet == b',')
        .any(|item| item.trim_ascii().eq_ignore_ascii_case(word))
}

/// Why a request is refused for what its head says.
fn refusal_for(is_known: bool, minor: u8, said: Said) -> Option<Refusal>
    ensures { result ≡ refusal_for is_known minor said }
{
    if !is_known {
        Some(Refusal::NotAllowed)
    } else if said.has_body || said.hosts > 1 || minor >= 1 && said.hosts == 0 {
        Some(Refusal::BadRequest)
    } else if said.is_foreign {
        Some(Refusal::Forbidden)
    } else {
        None
    }
}

/// What a whole head asks for.
fn judge(octets: &[u8], head: RequestSpans, spans: &[HeaderSpan]) -> Heard
    requires within { IsRequestWithin octets.now spans.now head }
    requires reads { IsRequestOf octets.now spans.now head }
    requires few { length spans.now ≤ 32 }
    ensures { IsHeard octets.now result }
{
    let (fields, _) = spans.split_at(head.headers);
    let method = head.method.of(octets);
    let is_head = method == b"HEAD".as_slice();
    let is_known = is_head || method == b"GET".as_slice();
    match refusal_for(is_known, head.version, read_fields(octets, fields)) {
        Some(refusal) => Heard::Refused(refusal, is_head),
        None => Heard::Asked(Request {
            target: head.path,
            len: head.len,
            is_head,
            stays: head.version >= 1 && !asks_to_close(octets, fields),
            knows_chunks: head.version >= 1,
        }),
    }
}

/// Why octets that are as many as a head may have, and hold none, are refused.
fn too_long(octets: &[u8]) -> Refusal
    requires { IsTooLong octets.now }
    ensures { IsRefusedText octets.now result }
{
    let line = octets.trim_ascii_start();
    if line.contains(&b'\n') {
        Refusal::FieldsTooLarge
    } else {
        Refusal::TargetTooLong
    }
}

/// Reads what a visitor has said, from its first octet.
pub fn read_request(octets: &[u8]) -> Heard
    ensures { IsHeard octets.now result }
{
    let mut spans = [EMPTY_HEADER_SPAN; FIELDS];
    match parse_request(octets, &mut spans) {
        Ok(Status::Complete(head)) => judge(octets, head, &spans),
        Ok(Status::Partial) if octets.len() < HEAD => Heard::Part,
        Ok(Status::Partial) => Heard::Refused(too_long(octets), false),
        Err(Error::TooManyHeaders) => Heard::Refused(Refusal::FieldsTooLarge, false),
        Err(_) => Heard::Refused(Refusal::BadRequest, false),
    }
}
