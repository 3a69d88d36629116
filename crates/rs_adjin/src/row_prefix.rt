//! The prefix of a row as it lies in memory. There is a row for each prefix, so this takes no more than
//! 8 octets.

ghost use Rattle.std.specs.Prelude.{◌≡◌, None, Some};

use rs_octets::Prefix;
use std::marker::Model;

/// A prefix's length and bits beside the variant's tag, where a `Prefix` would take four octets more.
#[derive(Drop)]
pub(crate) enum Parts {
    Absent,
    Present { len: u8, bits: u32 },
}

/// The prefix of a row; none where the row's number was given up.
#[derive(Drop)]
pub(crate) struct RowPrefix {
    parts: Parts,
}

impl Model for RowPrefix {
    ghost use Rattle.std.specs.Prelude.{Option};
    ghost use Rattle.rs_octets.specs.Prefixes.{Prefix};
    ghost use Rattle.rs_adjin.specs.RowPrefix.{prefix_of, IsWhole};

    ghost Value = { Option Prefix };

    ghost view = { λ p. prefix_of p.parts };

    ghost invariant = { λ p. IsWhole p.parts };
}

impl RowPrefix {
    pub(crate) fn none() -> RowPrefix
        ensures { result ≡ None }
    {
        RowPrefix {
            parts: Parts::Absent,
        }
    }

    pub(crate) fn some(prefix: Prefix) -> RowPrefix
        ensures { result ≡ Some prefix }
    {
        RowPrefix {
            parts: Parts::Present {
                len: prefix.len(),
                bits: prefix.bits(),
            },
        }
    }

    pub(crate) fn get(&self) -> Option<Prefix>
        ensures { result ≡ self.now }
    {
        match &self.parts {
            Parts::Absent => None,
            Parts::Present { len, bits } => Prefix::new(*bits, *len),
        }
    }
}
