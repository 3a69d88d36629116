//! A row as it lies in memory. Clients that are due the same share it, and there are as many as prefixes, so it
//! takes no more than 16 octets.

ghost use Rattle.std.specs.Prelude.{◌≡◌, None, Some, option_map, IfOk, IsTrue};
ghost use Rattle.std.specs.Arc.{arc_value};
ghost use Rattle.rs_rows.specs.Rows.{shown};
ghost use Rattle.rs_rows.specs.Places.{lent_row};

use rs_attrs::Attrs;
use rs_octets::Prefix;
use std::alloc::AllocError;
use std::marker::Model;
use std::mem;
use std::sync::Arc;

/// What lies in a place. The prefix's length and bits stand beside the variant's tag, where a `Prefix` would take eight
/// octets more; between them there is room for half of the attributes' hash.
#[derive(Drop)]
pub(crate) enum Held {
    Free,
    Taken {
        len: u8,
        hash: u16,
        bits: u32,
        attrs: Arc<Attrs>,
    },
}

/// A row: free, or with a route.
#[derive(Drop)]
pub(crate) struct Place {
    held: Held,
}

impl Model for Place {
    ghost use Rattle.std.specs.Prelude.{Option};
    ghost use Rattle.rs_rows.specs.Rows.{Row};
    ghost use Rattle.rs_rows.specs.Places.{IsPlace, row_of};

    ghost Value = { Option Row };

    ghost view = { λ p. row_of p.held };

    ghost invariant = { λ p. IsPlace p.held };
}

/// A route that is due, beside its prefix, as a row lends it.
#[derive(Clone, Copy)]
pub struct Lent<'a> {
    pub prefix: Prefix,
    pub attrs: &'a Arc<Attrs>,
    /// Half of their hash.
    hash: u16,
}

impl Lent<'_> {
    /// Whether the route has these attributes. Most others are told apart by what lies in the row, without a look at its own.
    pub fn has(&self, attrs: &Arc<Attrs>) -> bool
        ensures { IsTrue result → (lent_row self.now).attributes ≡ arc_value attrs.now }
    {
        self.hash == half_hash(attrs) && **self.attrs == **attrs
    }
}

/// A place is free before a route is put there.
impl Default for Place {
    ghost is_default = { λ p. p ≡ None };

    fn default() -> Place
        ensures { result ≡ None }
    {
        Place::free()
    }
}

impl Place {
    pub(crate) fn free() -> Place
        ensures { result ≡ None }
    {
        Place { held: Held::Free }
    }

    pub(crate) fn of(prefix: Prefix, attrs: Arc<Attrs>) -> Place
        ensures { result ≡ Some (record { prefix = prefix; attributes = arc_value attrs }) }
    {
        Place {
            held: Held::Taken {
                len: prefix.len(),
                hash: half_hash(&attrs),
                bits: prefix.bits(),
                attrs,
            },
        }
    }

    /// The route, where there is one.
    #[inline(always)]
    pub(crate) fn row(&self) -> Option<Lent<'_>>
        ensures { option_map lent_row result ≡ self.now }
    {
        match &self.held {
            Held::Free => None,
            Held::Taken {
                len,
                hash,
                bits,
                attrs,
            } => Some(Lent {
                prefix: Prefix::new(*bits, *len)?,
                attrs,
                hash: *hash,
            }),
        }
    }

    /// The attributes of the route, where there is one.
    #[inline(always)]
    pub(crate) fn attrs(&self) -> Option<&Arc<Attrs>>
        ensures { option_map (λ attrs. arc_value attrs.now) result ≡ shown self.now }
    {
        match &self.held {
            Held::Free => None,
            Held::Taken { attrs, .. } => Some(attrs),
        }
    }

    /// Whether there is no route.
    pub(crate) fn is_free(&self) -> bool
        ensures { IsTrue result → self.now ≡ None }
    {
        matches!(self.held, Held::Free)
    }

    /// Takes the route out.
    pub(crate) fn take(&mut self) -> Option<Arc<Attrs>>
        ensures route { option_map arc_value result ≡ shown self.old }
        ensures free { self.new ≡ None }
    {
        match mem::replace(&mut self.held, Held::Free) {
            Held::Free => None,
            Held::Taken { attrs, .. } => Some(attrs),
        }
    }

    /// The same row once more, which shares the attributes.
    pub(crate) fn copy(&self) -> Result<Place, AllocError>
        ensures { IfOk result (λ place. place ≡ self.now) }
    {
        match &self.held {
            Held::Free => Ok(Place::free()),
            Held::Taken {
                len,
                hash,
                bits,
                attrs,
            } => Ok(Place {
                held: Held::Taken {
                    len: *len,
                    hash: *hash,
                    bits: *bits,
                    attrs: attrs.clone()?,
                },
            }),
        }
    }

    /// Whether another row may be the same, as far as is seen without a look at attributes.
    pub(crate) fn may_be_same(&self, other: &Place) -> bool {
        match (&self.held, &other.held) {
            (Held::Free, Held::Free) => true,
            (
                Held::Taken {
                    len,
                    hash,
                    bits,
                    ..
                },
                Held::Taken {
                    len: other_len,
                    hash: other_hash,
                    bits: other_bits,
                    ..
                },
            ) => bits == other_bits && hash == other_hash && len == other_len,
            _ => false,
        }
    }

    /// Whether another row is the same.
    pub(crate) fn is_same(&self, other: &Place) -> bool
        ensures { IsTrue result → other.now ≡ self.now }
    {
        match (&self.held, &other.held) {
            (Held::Free, Held::Free) => true,
            (
                Held::Taken {
                    len,
                    bits,
                    attrs,
                    ..
                },
                Held::Taken {
                    len: other_len,
                    bits: other_bits,
                    attrs: other_attrs,
                    ..
                },
            ) => bits == other_bits && len == other_len && **attrs == **other_attrs,
            _ => false,
        }
    }
}

/// Half of the hash of attributes, by which most rows that differ are told apart.
fn half_hash(attrs: &Attrs) -> u16 {
    (attrs.kept_hash() % 0x1_0000) as u16
}
