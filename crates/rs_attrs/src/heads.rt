//! What of an attribute is not its value, in one word, so that two are compared at once.
//!
//! The word has the type in its highest bits, then a bit for each flag, and the length of the value
//! in the lowest 32. So heads are ordered as their words are.

ghost use Rattle.std.specs.Prelude.{◌≡◌, refl};
ghost use Rattle.std.specs.Ordering.{as_partial_cmp};
ghost use Rattle.std.specs.Cmp.{po};
ghost use Rattle.std.specs.Cmp;
ghost use Rattle.rs_attrs.specs.Heads.{head_order, same_head, writes_of_head};
ghost use Rattle.rs_attrs.specs.HeadLaws.{head_order_total, head_ties, same_head_equiv, same_head_writes};

use std::cmp::Ordering;
use std::fmt::{self, Debug, Formatter};
use std::hash::{Hash, Hasher};
use std::marker::Model;

/// The lowest bit of the type.
const KIND: u64 = 1 << 35;

/// The optional bit.
const OPTIONAL: u64 = 1 << 34;

/// The transitive bit.
const TRANSITIVE: u64 = 1 << 33;

/// The partial bit.
const PARTIAL: u64 = 1 << 32;

/// How many lengths there are.
const LENGTHS: u64 = 1 << 32;

/// The flags of an attribute (RFC 4271, 4.3) but for that of a long length, which its length tells.
#[derive(Clone, Copy)]
pub(crate) struct Flags {
    pub(crate) optional: bool,
    pub(crate) transitive: bool,
    pub(crate) partial: bool,
}

/// An attribute but for its value.
#[derive(Clone, Copy)]
pub(crate) struct Head {
    word: u64,
}

impl Model for Head {
    ghost use Rattle.std.specs.Prelude.{◌<◌, ◌^◌};
    ghost use Rattle.rs_attrs.specs.Heads.{Head, head_in, word_of};
    ghost use Rattle.rs_attrs.specs.HeadLaws.{word_back};

    ghost Value = { Head };

    ghost view = { λ h. head_in h.word };

    ghost invariant = { λ h. h.word < 2 ^ 43 };

    ghost inverse = { λ h. record { word = word_of h } };

    ghost inverse_ok = { λ a below. λ i. record { word = word_back a.word i } };
}

impl Head {
    /// The head of an attribute whose value has this length.
    pub(crate) fn new(kind: u8, flags: Flags, len: u32) -> Head
        ensures { result ≡ record { kind = kind; optional = flags.optional; transitive = flags.transitive; partial = flags.partial; len = len } }
    {
        let optional = OPTIONAL * u64::from(flags.optional);
        let transitive = TRANSITIVE * u64::from(flags.transitive);
        let partial = PARTIAL * u64::from(flags.partial);
        Head {
            word: KIND * u64::from(kind) + optional + transitive + partial + u64::from(len),
        }
    }

    /// The same, of a value of this length.
    pub(crate) fn with_len(self, len: u32) -> Head
        ensures { result ≡ record self { len = len } }
    {
        let flags = Flags {
            optional: self.optional(),
            transitive: self.transitive(),
            partial: self.partial(),
        };
        Head::new(self.kind(), flags, len)
    }

    /// The type.
    pub(crate) fn kind(&self) -> u8
        ensures { result ≡ self.now.kind }
    {
        (self.word / KIND) as u8
    }

    pub(crate) fn optional(&self) -> bool
        ensures { result ≡ self.now.optional }
    {
        self.word & OPTIONAL != 0
    }

    pub(crate) fn transitive(&self) -> bool
        ensures { result ≡ self.now.transitive }
    {
        self.word & TRANSITIVE != 0
    }

    pub(crate) fn partial(&self) -> bool
        ensures { result ≡ self.now.partial }
    {
        self.word & PARTIAL != 0
    }

    /// How many octets the value has.
    pub(crate) fn len(&self) -> u32
        ensures { result ≡ self.now.len }
    {
        (self.word % LENGTHS) as u32
    }
}

impl Debug for Head {
    fn fmt<W: fmt::Write>(&self, f: &mut Formatter<W>) -> fmt::Result {
        f.debug_struct("Head")
            .field("kind", &self.kind())
            .field("optional", &self.optional())
            .field("transitive", &self.transitive())
            .field("partial", &self.partial())
            .field("len", &self.len())
            .finish()
    }
}

/// Equal where both have the same type, flags and length.
impl PartialEq for Head {
    ghost eq = { same_head };

    ghost laws = { Cmp.partial_equiv_from_equiv same_head_equiv };

    fn eq(&self, other: &Head) -> bool {
        self.word == other.word
    }
}

impl Eq for Head {
    ghost laws = { same_head_equiv };
}

impl PartialOrd for Head {
    ghost partial_cmp = { as_partial_cmp head_order };

    ghost laws = { po head_order_total head_ties };

    fn partial_cmp(&self, other: &Head) -> Option<Ordering> {
        Some(self.cmp(other))
    }
}

/// First by type, then by flags, then by length.
impl Ord for Head {
    ghost cmp = { head_order };

    ghost total = { head_order_total };

    ghost matches_partial_cmp = { λ x y. refl };

    ghost matches_eq = { head_ties };

    fn cmp(&self, other: &Head) -> Ordering {
        self.word.cmp(&other.word)
    }
}

impl Hash for Head {
    ghost hash_input = { writes_of_head };

    ghost respects_eq = { same_head_writes };

    fn hash<H: Hasher>(&self, state: &mut H) {
        self.kind().hash(state);
        self.optional().hash(state);
        self.transitive().hash(state);
        self.partial().hash(state);
        self.len().hash(state);
    }
}
