//! What is to be written of attributes, as one list by rising type, for a peer of either kind
//! (RFC 6793, 4.2.2). Their octets are counted and written by the same list.

ghost use Rattle.std.specs.Prelude.{◌≡◌, ◌+◌, ◌<◌, ◌≤◌, ◌^◌, ◌∷◌, [], true, false, length, MatchOption, IfSome};
ghost use Rattle.std.specs.List.{flat_map};
ghost use Rattle.std.specs.Iterator.{YieldsFirst, item_count};
ghost use Rattle.rs_octets.specs.Writes.{Writes};
ghost use Rattle.rs_attrs.specs.Held.{attribute_by};
ghost use Rattle.rs_attrs.specs.Writing.{attribute_octets, narrowed, as4_of, in_mode, IsLegal, IsLegalAttribute};
ghost use Rattle.rs_attrs.specs.Parts.{begins_below};

use crate::attrs::Attrs;
use crate::heads::{Flags, Head};
use crate::mode::Mode;
use crate::types::{AGGREGATOR, AS_PATH, AS4_AGGREGATOR, AS4_PATH};
use crate::writing::head::put_head;
use crate::writing::narrow::{aggregator, narrow_path_size, needs_four, put_aggregator, put_path};
use rs_octets::put;
use std::marker::Model;

/// How a value is written.
#[derive(Clone, Copy)]
pub(crate) enum Form {
    Whole,
    /// With AS numbers in two octets, where it is a path.
    NarrowPath,
    /// With the AS number in two octets, where it is that of AGGREGATOR.
    NarrowAggregator,
}

/// An attribute that is to be written: its head as it is written, and its value as it is held.
#[derive(Drop)]
pub(crate) struct Part<'a> {
    head: Head,
    form: Form,
    value: &'a [u8],
}

impl<'a> Model for Part<'a> {
    ghost use Rattle.std.specs.Prelude.{◌≡◌, length};
    ghost use Rattle.rs_attrs.specs.Meaning.{Attribute};
    ghost use Rattle.rs_attrs.specs.Held.{attribute_by};
    ghost use Rattle.rs_attrs.specs.Parts.{value_by, IsFormed};

    ghost Value = { Attribute };

    ghost view = { λ p. attribute_by p.head (value_by p.form p.value.now) };

    ghost invariant = { λ p. (p.head.len ≡ length (value_by p.form p.value.now)) × IsFormed p.form p.value.now };
}

/// The head of AS4_PATH or AS4_AGGREGATOR.
fn as4_head(kind: u8, len: u32) -> Head
    ensures { result ≡ record { kind = kind; optional = true; transitive = true; partial = false; len = len } }
{
    let flags = Flags {
        optional: true,
        transitive: true,
        partial: false,
    };
    Head::new(kind, flags, len)
}

impl<'a> Part<'a> {
    /// The attribute as it is.
    fn whole(head: Head, value: &'a [u8]) -> Part<'a>
        requires { head.len ≡ length value.now }
        ensures { result ≡ attribute_by head value.now }
    {
        Part {
            head,
            form: Form::Whole,
            value,
        }
    }

    /// The attribute with AS numbers in two octets.
    #[inline(never)]
    fn narrowed(head: Head, value: &'a [u8]) -> Part<'a>
        requires len { head.len ≡ length value.now }
        requires legal { IsLegalAttribute (attribute_by head value.now) }
        ensures { result ≡ narrowed (attribute_by head value.now) }
    {
        if head.kind() == AS_PATH {
            let len = narrow_path_size(value) as u32;
            return Part {
                head: head.with_len(len),
                form: Form::NarrowPath,
                value,
            };
        }
        if head.kind() == AGGREGATOR {
            return Part {
                head: head.with_len(6),
                form: Form::NarrowAggregator,
                value,
            };
        }
        Part::whole(head, value)
    }

    /// AS4_PATH or AS4_AGGREGATOR, where the attribute needs it beside itself.
    fn beside(head: Head, value: &'a [u8]) -> Option<Part<'a>>
        requires len { head.len ≡ length value.now }
        requires legal { IsLegalAttribute (attribute_by head value.now) }
        ensures { MatchOption result (as4_of (attribute_by head value.now) ≡ []) (λ p. as4_of (attribute_by head value.now) ≡ p ∷ []) }
    {
        if head.kind() == AS_PATH && needs_four(value) {
            return Some(Part::whole(as4_head(AS4_PATH, head.len()), value));
        }
        if head.kind() == AGGREGATOR && aggregator(value) > 65535 {
            return Some(Part::whole(as4_head(AS4_AGGREGATOR, head.len()), value));
        }
        None
    }

    /// How many octets its value is written in.
    pub(crate) fn len(&self) -> usize
        ensures value { result ≡ length self.now.value }
        ensures most { result < 2 ^ 32 }
    {
        self.head.len() as usize
    }

    /// Writes it.
    #[inline(always)]
    pub(crate) fn put(&self, out: &mut [u8], at: usize) -> usize
        requires short { length self.now.value < 65536 }
        requires fits { at + length (attribute_octets self.now) ≤ length out.old }
        ensures end { result ≡ at + length (attribute_octets self.now) }
        ensures octets { Writes at (attribute_octets self.now) out.old out.new }
    {
        let value_at = put_head(out, at, &self.head);
        match self.form {
            Form::Whole => put(out, value_at, self.value),
            Form::NarrowPath => put_path(out, value_at, self.value),
            Form::NarrowAggregator => put_aggregator(out, value_at, self.value),
        }
    }
}

/// The attributes from one on, as they are held.
#[derive(Drop)]
struct Left<'a> {
    heads: &'a [Head],
    values: &'a [u8],
}

impl<'a> Model for Left<'a> {
    ghost use Rattle.std.specs.Prelude.{◌≤◌, List, length};
    ghost use Rattle.rs_attrs.specs.Meaning.{Attribute};
    ghost use Rattle.rs_attrs.specs.Held.{attributes_in, values_size};
    ghost use Rattle.rs_attrs.specs.Writing.{IsLegal};

    ghost Value = { List Attribute };

    ghost view = { λ l. attributes_in l.heads.now l.values.now };

    ghost invariant = { λ l. (values_size l.heads.now ≤ length l.values.now) × IsLegal (attributes_in l.heads.now l.values.now) };
}

impl<'a> Left<'a> {
    fn of(attrs: &'a Attrs) -> Left<'a>
        ensures value { result ≡ attrs.now }
        ensures legal { IsLegal attrs.now }
    {
        Left {
            heads: &attrs.heads,
            values: &attrs.values,
        }
    }

    /// Whether the first is of a type below AS4_PATH.
    fn begins_below(&self) -> bool
        ensures value { result ≡ begins_below self.now }
        ensures legal { IsLegal self.now }
    {
        match self.heads.first() {
            Some(head) => head.kind() < AS4_PATH,
            None => false,
        }
    }

    /// Takes the first off: its head and its value.
    #[inline(always)]
    fn take_first(&mut self) -> Option<(&'a Head, &'a [u8])>
        ensures first { MatchOption result ((self.old ≡ []) × (self.new ≡ [])) (λ h. self.old ≡ attribute_by h.0.now h.1.now ∷ self.new) }
        ensures len { IfSome result (λ h. h.0.now.len ≡ length h.1.now) }
        ensures legal { IsLegal self.old }
    {
        let (head, heads) = self.heads.split_first()?;
        let (value, values) = self.values.split_at(head.len() as usize);
        self.heads = heads;
        self.values = values;
        Some((head, value))
    }

    /// Takes attributes off up to the first that needs AS4_PATH or AS4_AGGREGATOR beside it.
    #[inline(never)]
    fn take_beside(&mut self) -> Option<Part<'a>>
        ensures { MatchOption result ((flat_map as4_of self.old ≡ []) × (self.new ≡ [])) (λ p. flat_map as4_of self.old ≡ p ∷ flat_map as4_of self.new) }
    {
        while let Some((head, value)) = self.take_first() {
            if let Some(part) = Part::beside(*head, value) {
                return Some(part);
            }
        }
        None
    }
}

/// What is left to be written.
#[derive(Drop)]
pub(crate) struct Parts<'a> {
    mode: Mode,
    left: Left<'a>,
    as4: Left<'a>,
}

impl<'a> Model for Parts<'a> {
    ghost use Rattle.std.specs.Prelude.{List};
    ghost use Rattle.rs_attrs.specs.Meaning.{Attribute};
    ghost use Rattle.rs_attrs.specs.Parts.{parts_left};

    ghost Value = { List Attribute };

    ghost view = { λ it. parts_left it.mode it.left it.as4 };
}

impl<'a> Parts<'a> {
    pub(crate) fn of(attrs: &'a Attrs, mode: Mode) -> Parts<'a>
        ensures value { result ≡ in_mode mode attrs.now }
        ensures legal { IsLegal attrs.now }
    {
        Parts {
            mode,
            left: Left::of(attrs),
            as4: Left::of(attrs),
        }
    }
}

impl<'a> Iterator for Parts<'a> {
    type Item = Part<'a>;

    ghost next_gives = { YieldsFirst (λ left. left) };

    ghost remaining = { item_count (λ left. left) };

    #[inline(always)]
    fn next(&mut self) -> Option<Part<'a>> {
        match self.mode {
            Mode::Four => {}
            Mode::Two => {
                if self.left.begins_below() {
                    let (head, value) = self.left.take_first()?;
                    return Some(Part::narrowed(*head, value));
                }
                if let Some(part) = self.as4.take_beside() {
                    return Some(part);
                }
            }
        }
        let (head, value) = self.left.take_first()?;
        Some(Part::whole(*head, value))
    }
}
