//! The table of path attributes: for each type its number, its name, its flags, which values are
//! well formed, and what comes of one that isn't.

ghost use Rattle.std.specs.Prelude.{◌≡◌, ◌==◌, map, option_map};
ghost use Rattle.std.specs.List.{find};
ghost use Rattle.rs_attrs.specs.Table;
ghost use Rattle.rs_attrs.specs.Table.{row_seen};

use crate::mode::Mode;
use crate::types::{
    AGGREGATOR, AS_PATH, AS4_AGGREGATOR, AS4_PATH, ATOMIC_AGGREGATE, CLUSTER_LIST, COMMUNITIES,
    EXTENDED_COMMUNITIES, LARGE_COMMUNITY, LOCAL_PREF, MP_REACH_NLRI, MP_UNREACH_NLRI,
    MULTI_EXIT_DISC, NEXT_HOP, ORIGIN, ORIGINATOR_ID,
};

/// What comes of the attribute that counts of a type (RFC 7606, 2).
#[derive(Clone, Copy)]
pub(crate) enum Outcome {
    Kept,
    /// Treat-as-withdraw.
    Withdraw,
    /// Attribute discard.
    Discard,
    /// An unrecognized well-known attribute, a reset.
    Unknown,
}

/// The optional and the transitive flag of a type (RFC 4271, 5).
#[derive(Clone, Copy)]
pub(crate) enum Class {
    WellKnown,
    OptionalTransitive,
    OptionalNonTransitive,
    /// The flags aren't looked at.
    Any,
}

/// Which values are well formed.
#[derive(Clone, Copy)]
pub(crate) enum Shape {
    Origin,
    AsPath,
    Aggregator,
    As4Path,
    /// Of this many octets.
    Length(u8),
    Communities,
    ExtendedCommunities,
    LargeCommunities,
    Never,
}

/// The partial bit that an attribute of a type has from here on (RFC 4271, 5).
#[derive(Clone, Copy)]
pub(crate) enum Partial {
    Never,
    AsReceived,
    /// Set where the attribute is transitive, since nobody here recognizes it.
    Unrecognized,
}

/// All that is known of a type of attribute.
#[derive(Clone, Copy)]
pub(crate) struct TypeRow {
    pub(crate) kind: u8,
    /// How the standards write it.
    pub(crate) name: &'static str,
    pub(crate) class: Class,
    pub(crate) shape: Shape,
    pub(crate) otherwise: Outcome,
    pub(crate) partial: Partial,
}

macro_rules! row {
    ($kind:expr, $name:expr => $class:ident, $shape:expr, $otherwise:ident, $partial:ident) => {
        TypeRow {
            kind: $kind,
            name: $name,
            class: Class::$class,
            shape: $shape,
            otherwise: Outcome::$otherwise,
            partial: Partial::$partial,
        }
    };
}

// The types that have one row for both kinds of peer.
const COMMON_ROWS: [TypeRow; 14] = [
    row!(ORIGIN, "ORIGIN" => WellKnown, Shape::Origin, Withdraw, Never),
    row!(AS_PATH, "AS_PATH" => WellKnown, Shape::AsPath, Withdraw, Never),
    row!(NEXT_HOP, "NEXT_HOP" => WellKnown, Shape::Length(4), Withdraw, Never),
    row!(MULTI_EXIT_DISC, "MULTI_EXIT_DISC" => OptionalNonTransitive, Shape::Length(4), Withdraw, Never),
    row!(LOCAL_PREF, "LOCAL_PREF" => Any, Shape::Never, Discard, Never),
    row!(ATOMIC_AGGREGATE, "ATOMIC_AGGREGATE" => WellKnown, Shape::Length(0), Discard, Never),
    row!(AGGREGATOR, "AGGREGATOR" => OptionalTransitive, Shape::Aggregator, Discard, AsReceived),
    row!(COMMUNITIES, "COMMUNITIES" => OptionalTransitive, Shape::Communities, Withdraw, AsReceived),
    row!(ORIGINATOR_ID, "ORIGINATOR_ID" => Any, Shape::Never, Discard, Never),
    row!(CLUSTER_LIST, "CLUSTER_LIST" => Any, Shape::Never, Discard, Never),
    row!(MP_REACH_NLRI, "MP_REACH_NLRI" => Any, Shape::Never, Discard, Never),
    row!(MP_UNREACH_NLRI, "MP_UNREACH_NLRI" => Any, Shape::Never, Discard, Never),
    row!(EXTENDED_COMMUNITIES, "EXTENDED COMMUNITIES" => OptionalTransitive, Shape::ExtendedCommunities, Withdraw, AsReceived),
    row!(LARGE_COMMUNITY, "LARGE_COMMUNITY" => OptionalTransitive, Shape::LargeCommunities, Withdraw, AsReceived),
];

// AS4_PATH and AS4_AGGREGATOR, of a four-octet peer and of a two-octet peer.
const AS4_ROWS_OF_FOUR: [TypeRow; 2] = [
    row!(AS4_PATH, "AS4_PATH" => Any, Shape::Never, Discard, Never),
    row!(AS4_AGGREGATOR, "AS4_AGGREGATOR" => Any, Shape::Never, Discard, Never),
];

const AS4_ROWS_OF_TWO: [TypeRow; 2] = [
    row!(AS4_PATH, "AS4_PATH" => OptionalTransitive, Shape::As4Path, Discard, Never),
    row!(AS4_AGGREGATOR, "AS4_AGGREGATOR" => OptionalTransitive, Shape::Length(8), Discard, Never),
];

fn row_in(rows: &[TypeRow], kind: u8) -> Option<TypeRow>
    ensures { option_map row_seen result ≡ find (λ r. r.kind == kind) (map row_seen rows.now) }
{
    for row in rows {
        if row.kind == kind {
            return Some(*row);
        }
    }
    None
}

/// The partial bit that an attribute of this type has from here on.
pub(crate) fn partial_in(kind: u8) -> Partial
    ensures { result ≡ Table.partial_in kind }
{
    match row_of(Mode::Four, kind) {
        Some(row) => row.partial,
        None => Partial::Unrecognized,
    }
}

/// The name of a type, as the standards write it; none where the type isn't known here.
pub fn attribute_name(kind: u8) -> Option<&'static str>
    ensures { option_map (λ name. name.now) result ≡ Table.name_of kind }
{
    match row_of(Mode::Four, kind) {
        Some(row) => Some(row.name),
        None => None,
    }
}

/// The row of a type, if it has one.
pub(crate) fn row_of(mode: Mode, kind: u8) -> Option<TypeRow>
    ensures { option_map row_seen result ≡ Table.row_of mode kind }
{
    match row_in(&COMMON_ROWS, kind) {
        Some(row) => Some(row),
        None => match mode {
            Mode::Four => row_in(&AS4_ROWS_OF_FOUR, kind),
            Mode::Two => row_in(&AS4_ROWS_OF_TWO, kind),
        },
    }
}
