//! IPv4 prefixes, and the fields of messages that list them (RFC 4271, 4.3).

ghost use Rattle.std.specs.Prelude.{◌≡◌, ◌+◌, ◌≤◌, [], ◌∷◌, ◌++◌, length, drop, Some, None, if◌then◌else◌, nat_lt};
ghost use Rattle.std.specs.Int.{w32, from_be_bytes};
ghost use Rattle.std.specs.Iterator.{YieldsFirst, item_count};
ghost use Rattle.rs_octets.specs.Prefixes.{masked, octet_count, IsIpv4Prefix};
ghost use Rattle.rs_octets.specs.PrefixFields.{prefixes_of, prefix_octets};
ghost use Rattle.rs_octets.specs.Writes.{Writes};

use crate::writes::put;
use byteorder::{BigEndian, ByteOrder};
use std::marker::Model;
use thiserror::Error;

/// Up to 32 bits that addresses begin with. Prefixes are ordered by their bits as a number, and
/// then by length.
#[derive(Clone, Copy, Debug, PartialEq, Eq, PartialOrd, Ord, Hash)]
pub struct Prefix {
    bits: u32,
    len: u8,
}

impl Model for Prefix {
    ghost use Rattle.rs_octets.specs.Prefixes.{Prefix, IsIpv4Prefix};

    ghost Value = { Prefix };

    ghost view = { λ p. record { bits = p.bits; len = p.len } };

    ghost invariant = { λ p. IsIpv4Prefix (record { bits = p.bits; len = p.len }) };

    ghost inverse = { λ p. record { bits = p.bits; len = p.len } };
}

/// The octets that hold so many bits.
fn octets_for(len: u8) -> usize
    ensures { result ≡ octet_count len }
{
    (usize::from(len) + 7) / 8
}

impl Prefix {
    /// The prefix of this length, 0 to 32, with these bits: those behind the length are set to 0.
    /// There is none of a greater length.
    pub fn new(bits: u32, len: u8) -> Option<Prefix>
        ensures { result ≡ (if nat_lt 32 len then None else Some (record { bits = masked bits len; len = len })) }
    {
        if len > 32 {
            return None;
        }
        Some(Prefix::front_of(bits, len))
    }

    fn front_of(bits: u32, len: u8) -> Prefix
        requires { len ≤ 32 }
        ensures { result ≡ record { bits = masked bits len; len = len } }
    {
        let behind = 32 - len;
        let front = u64::from(bits) >> behind << behind;
        Prefix {
            bits: front as u32,
            len,
        }
    }

    /// The 32 bits, those behind the length 0.
    pub fn bits(&self) -> u32
        ensures { result ≡ self.now.bits }
    {
        self.bits
    }

    /// The length in bits, 0 to 32.
    pub fn len(&self) -> u8
        ensures value { result ≡ self.now.len }
        ensures prefix { IsIpv4Prefix self.now }
    {
        self.len
    }

    /// The octets that a field spends on it, 1 to 5: its length, and as many as hold its bits.
    #[tactic(auto, using(crate::proofs::PrefixLemmas::prefix_length))]
    pub fn size(&self) -> usize
        ensures value { result ≡ 1 + octet_count self.now.len }
        ensures octets { result ≡ length (prefix_octets self.now) }
    {
        1 + octets_for(self.len)
    }
}

/// Writes a prefix from `at` on as a field spells it, and answers where it ends.
#[tactic(auto, using(crate::proofs::PrefixLemmas::prefix_length))]
pub fn put_prefix(out: &mut [u8], at: usize, prefix: &Prefix) -> usize
    requires { at + length (prefix_octets prefix.now) ≤ length out.old }
    ensures end { result ≡ at + length (prefix_octets prefix.now) }
    ensures octets { Writes at (prefix_octets prefix.now) out.old out.new }
{
    let len = prefix.len();
    let [a, b, c, d] = prefix.bits().to_be_bytes();
    match octets_for(len) {
        0 => put(out, at, &[len]),
        1 => put(out, at, &[len, a]),
        2 => put(out, at, &[len, a, b]),
        3 => put(out, at, &[len, a, b, c]),
        _ => put(out, at, &[len, a, b, c, d]),
    }
}

/// Why a field of prefixes is refused (RFC 4271, 6.3).
#[derive(Clone, Copy, Debug, PartialEq, Eq, Error)]
pub enum FieldFault {
    /// A length over 32.
    #[error("a prefix is longer than 32 bits")]
    TooLong,
    /// A prefix that runs over the end.
    #[error("a prefix runs over the end of its field")]
    Cut,
}

/// The prefixes of a field from left to right, and the fault, where there is one, as the last
/// item: nothing comes after it.
#[derive(Debug, Drop)]
pub struct PrefixIter<'a> {
    rest: &'a [u8],
}

impl<'a> Model for PrefixIter<'a> {
    ghost use Rattle.std.specs.Prelude.{List, Result};
    ghost use Rattle.rs_octets.specs.Prefixes.{Prefix};
    ghost use Rattle.rs_octets.specs.declared.prefix.FieldFault.{FieldFault};
    ghost use Rattle.rs_octets.specs.PrefixFields.{prefixes_of};

    ghost Value = { List (Result Prefix FieldFault) };

    ghost view = { λ it. prefixes_of it.rest.now };
}

/// What a field of prefixes holds. Bits behind a prefix's length count for nothing.
pub fn read_prefixes(field: &[u8]) -> PrefixIter<'_>
    ensures { result ≡ prefixes_of field.now }
{
    PrefixIter { rest: field }
}

/// The address that up to four octets begin; its other octets are 0.
fn address(front: &[u8]) -> u32
    requires { length front.now ≤ 4 }
    ensures { result ≡ from_be_bytes w32 (front.now ++ drop (length front.now) (0 ∷ 0 ∷ 0 ∷ 0 ∷ [])) }
{
    let mut octets = [0; 4];
    octets[..front.len()].copy_from_slice(front);
    BigEndian::read_u32(&octets)
}

impl Iterator for PrefixIter<'_> {
    type Item = Result<Prefix, FieldFault>;

    ghost next_gives = { YieldsFirst (λ items. items) };

    ghost remaining = { item_count (λ items. items) };

    fn next(&mut self) -> Option<Result<Prefix, FieldFault>> {
        let (&len, octets) = self.rest.split_first()?;
        if len > 32 {
            self.rest = &[];
            return Some(Err(FieldFault::TooLong));
        }
        let size = octets_for(len);
        if octets.len() < size {
            self.rest = &[];
            return Some(Err(FieldFault::Cut));
        }
        let (front, rest) = octets.split_at(size);
        self.rest = rest;
        Some(Ok(Prefix::front_of(address(front), len)))
    }
}
