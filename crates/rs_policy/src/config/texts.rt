//! How the texts of a configuration are read.

ghost use Rattle.std.specs.Prelude.{◌≡◌, ◌<◌, ◌^◌, ◌≤◌, option_map, position, ◌==◌, IfSome};
ghost use Rattle.std.specs.List.{list_all};
ghost use Rattle.rs_policy.specs.Texts.{number_to, is_digit, is_decimal, parted, octet, address_of, as_range_of, endpoint_of, lengths_of, prefix_of, prefix_range_of, ranged, part_of, last_part_of, community_of, local_data_of, large_community_of, pattern_of, large_pattern_of, is_name_octet, is_name};

use crate::rules::{CommunityTest, LargeCommunityTest, Part, Range};
use rs_attrs::{CommunityPattern, LargeCommunityPattern};
use rs_octets::Prefix;

fn are_digits(text: &[u8]) -> bool
    ensures { result ≡ list_all is_digit text.now }
{
    for octet in text {
        if !octet.is_ascii_digit() {
            return false;
        }
    }
    true
}

fn is_decimal(text: &[u8]) -> bool
    ensures { result ≡ is_decimal text.now }
{
    if text.is_empty() || !are_digits(text) {
        return false;
    }
    text.len() <= 1 || text[0] != b'0'
}

/// The decimal number that a text is, up to the highest.
#[tactic(auto, unfolding(crate::specs::Texts::number_to))]
fn number(text: &[u8], high: u32) -> Option<u32>
    ensures value { result ≡ number_to high text.now }
    ensures high { IfSome result (λ n. n ≤ high) }
{
    if !is_decimal(text) {
        return None;
    }
    let mut value: u64 = 0;
    for octet in text {
        value = 10 * value + u64::from(*octet - b'0');
        if value > u64::from(high) {
            return None;
        }
    }
    Some(value as u32)
}

fn place_of(text: &[u8], mark: u8) -> Option<usize>
    ensures { result ≡ position (λ c. c == mark) text.now }
{
    for (index, octet) in text.iter().enumerate() {
        if *octet == mark {
            return Some(index);
        }
    }
    None
}

/// The octets before the first such one, and those after it.
#[tactic(auto, unfolding(crate::specs::Texts::parted))]
fn parted(text: &[u8], mark: u8) -> Option<(&[u8], &[u8])>
    ensures { option_map (λ p. (p.0.now, p.1.now)) result ≡ parted mark text.now }
{
    match place_of(text, mark) {
        None => None,
        Some(at) => Some((&text[..at], &text[at + 1..])),
    }
}

fn octet(text: &[u8]) -> Option<u8>
    ensures { result ≡ octet text.now }
{
    match number(text, 255) {
        None => None,
        Some(value) => Some(value as u8),
    }
}

/// Four numbers with points between, as 32 bits.
#[tactic(auto, unfolding(crate::specs::Texts::address_of))]
pub(crate) fn address(text: &[u8]) -> Option<u32>
    ensures { result ≡ address_of text.now }
{
    let (a, rest) = parted(text, b'.')?;
    let a = octet(a)?;
    let (b, rest) = parted(rest, b'.')?;
    let b = octet(b)?;
    let (c, d) = parted(rest, b'.')?;
    let octets = [a, b, octet(c)?, octet(d)?];
    Some(u32::from_be_bytes(octets))
}

/// An address and a port with a colon between.
#[tactic(auto, unfolding(crate::specs::Texts::endpoint_of))]
pub(crate) fn endpoint(text: &[u8]) -> Option<(u32, u16)>
    ensures { result ≡ endpoint_of text.now }
{
    let (host, port) = parted(text, b':')?;
    let host = address(host)?;
    match number(port, 65535) {
        None | Some(0) => None,
        Some(port) => Some((host, port as u16)),
    }
}

/// An address and a length with a slash between.
#[tactic(auto, unfolding(crate::specs::Texts::prefix_of))]
pub(crate) fn prefix(text: &[u8]) -> Option<Prefix>
    ensures { result ≡ prefix_of text.now }
{
    let (bits, len) = parted(text, b'/')?;
    let bits = address(bits)?;
    let len = number(len, 32)?;
    Prefix::new(bits, len as u8)
}

/// The lengths that a range operator takes behind a prefix of this length (RFC 2622, 2).
#[tactic(auto, unfolding(crate::specs::Texts::lengths_of))]
fn lengths(len: u8, operator: &[u8]) -> Option<(u8, u8)>
    requires { len ≤ 32 }
    ensures { result ≡ lengths_of len operator.now }
{
    if operator == b"-".as_slice() {
        return Some((len + 1, 32));
    }
    if operator == b"+".as_slice() {
        return Some((len, 32));
    }
    if let Some(length) = number(operator, 32) {
        return Some((length as u8, length as u8));
    }
    let (min, max) = parted(operator, b'-')?;
    let min = number(min, 32)?;
    let max = number(max, 32)?;
    Some((min as u8, max as u8))
}

fn ranged(prefix: Prefix, lengths: (u8, u8)) -> Option<Range>
    ensures { result ≡ ranged prefix lengths }
{
    let (min, max) = lengths;
    if prefix.len() <= min && min <= max && max <= 32 {
        Some(Range { prefix, min, max })
    } else {
        None
    }
}

/// A prefix, and where a range operator stands behind it, the lengths that it takes.
#[tactic(auto, unfolding(crate::specs::Texts::prefix_range_of))]
pub(crate) fn prefix_range(text: &[u8]) -> Option<Range>
    ensures { result ≡ prefix_range_of text.now }
{
    match parted(text, b'^') {
        None => {
            let prefix = prefix(text)?;
            let len = prefix.len();
            Some(Range {
                prefix,
                min: len,
                max: len,
            })
        }
        Some((text, operator)) => {
            let prefix = prefix(text)?;
            ranged(prefix, lengths(prefix.len(), operator)?)
        }
    }
}

/// The least and the greatest of some AS numbers.
#[tactic(auto, unfolding(crate::specs::Texts::as_range_of))]
pub(crate) fn as_range(text: &[u8]) -> Option<(u32, u32)>
    ensures { result ≡ as_range_of text.now }
{
    let (low, high) = parted(text, b'-')?;
    let low = number(low, 4_294_967_295)?;
    let high = number(high, 4_294_967_295)?;
    if low <= high { Some((low, high)) } else { None }
}

/// A part of a community: a number up to the highest, or `peer` where that may be one.
fn part(text: &[u8], peer: bool, high: u32) -> Option<Part>
    ensures { result ≡ part_of peer high text.now }
{
    if peer && text == b"peer".as_slice() {
        return Some(Part::Peer);
    }
    match number(text, high) {
        None => None,
        Some(number) => Some(Part::Number(number)),
    }
}

/// The last part of a community, which may be any number.
fn last_part(text: &[u8], peer: bool, high: u32) -> Option<Part>
    ensures { result ≡ last_part_of peer high text.now }
{
    if text == b"*".as_slice() {
        return Some(Part::Any);
    }
    part(text, peer, high)
}

/// Two parts of 16 bits with a colon between (RFC 1997).
#[tactic(auto, unfolding(crate::specs::Texts::community_of))]
pub(crate) fn community(text: &[u8], peer: bool) -> Option<CommunityTest>
    ensures { result ≡ community_of peer text.now }
{
    let (high, low) = parted(text, b':')?;
    let high = part(high, peer, 65535)?;
    let low = last_part(low, peer, 65535)?;
    Some(CommunityTest { high, low })
}

/// The two parts of the local data of a large community.
fn local_data(text: &[u8], peer: bool) -> Option<(Part, Part)>
    ensures { result ≡ local_data_of peer text.now }
{
    if text == b"*:*".as_slice() {
        return Some((Part::Any, Part::Any));
    }
    let (first, second) = parted(text, b':')?;
    let first = part(first, peer, 4_294_967_295)?;
    let second = last_part(second, peer, 4_294_967_295)?;
    Some((first, second))
}

/// Three parts of 32 bits with colons between (RFC 8092, 3).
#[tactic(auto, unfolding(crate::specs::Texts::large_community_of))]
pub(crate) fn large_community(text: &[u8], peer: bool) -> Option<LargeCommunityTest>
    ensures { result ≡ large_community_of peer text.now }
{
    let (global, local) = parted(text, b':')?;
    let global = part(global, peer, 4_294_967_295)?;
    let (first, second) = local_data(local, peer)?;
    Some(LargeCommunityTest {
        global,
        first,
        second,
    })
}

/// Communities of one form: none of their parts is `peer`.
#[tactic(auto, unfolding(crate::specs::Texts::pattern_of))]
pub(crate) fn pattern(text: &[u8]) -> Option<CommunityPattern>
    ensures { result ≡ pattern_of text.now }
{
    match community(text, false) {
        None => None,
        Some(test) => Some(test.pattern_for(0)),
    }
}

/// Large communities of one form.
#[tactic(auto, unfolding(crate::specs::Texts::large_pattern_of))]
pub(crate) fn large_pattern(text: &[u8]) -> Option<LargeCommunityPattern>
    ensures { result ≡ large_pattern_of text.now }
{
    match large_community(text, false) {
        None => None,
        Some(test) => Some(test.pattern_for(0)),
    }
}

fn is_name_octet(octet: u8) -> bool
    ensures { result ≡ is_name_octet octet }
{
    matches!(octet, b'a'..=b'z' | b'A'..=b'Z' | b'0'..=b'9' | b'-')
}

fn are_name_octets(text: &[u8]) -> bool
    ensures { result ≡ list_all is_name_octet text.now }
{
    for octet in text {
        if !is_name_octet(*octet) {
            return false;
        }
    }
    true
}

/// Whether a text can be a name.
pub(crate) fn is_name(text: &[u8]) -> bool
    ensures { result ≡ is_name text.now }
{
    if text.is_empty() || text.len() > 32 {
        return false;
    }
    are_name_octets(text)
}
