//! The routes of a Loc-RIB, one after the other.

ghost use Rattle.std.specs.Prelude.{◌≡◌};
ghost use Rattle.std.specs.Arc.{arc_value};
ghost use Rattle.std.specs.Iterator.{YieldsFirstBy, item_count};
ghost use Rattle.rs_outlet.specs.Listing.{routes_at};

use crate::table::Rows;
use rs_adjin::NumberedPrefixes;
use rs_attrs::Attrs;
use rs_octets::Prefix;
use std::marker::Model;
use std::sync::Arc;

/// The routes of a Loc-RIB that are left, by rising prefix.
#[derive(Drop)]
pub struct Routes<'a> {
    numbers: NumberedPrefixes<'a>,
    rows: &'a Rows,
}

impl<'a> Model for Routes<'a> {
    ghost use Rattle.std.specs.Prelude.{List};
    ghost use Rattle.rs_octets.specs.Prefixes.{Prefix};
    ghost use Rattle.rs_attrs.specs.Meaning.{Attribute};
    ghost use Rattle.rs_outlet.specs.Listing.{routes_at};

    ghost Value = { List (Prefix × List Attribute) };

    ghost view = { λ it. routes_at it.rows.now.rows.items it.numbers };
}

impl<'a> Routes<'a> {
    pub(crate) fn new(numbers: NumberedPrefixes<'a>, rows: &'a Rows) -> Routes<'a>
        ensures { result ≡ routes_at rows.now.rows.items numbers.entry }
    {
        Routes { numbers, rows }
    }
}

/// The next route among the prefixes that are left.
fn next_route<'a>(
    numbers: &mut NumberedPrefixes<'_>,
    rows: &'a Rows,
) -> Option<(Prefix, &'a Arc<Attrs>)>
    ensures { YieldsFirstBy (λ route. (route.0, arc_value route.1.now)) (routes_at rows.now.rows.items) numbers.old result numbers.new }
{
    while let Some((prefix, number)) = numbers.next() {
        if let Some(attrs) = rows.attrs(number) {
            return Some((prefix, attrs));
        }
    }
    None
}

impl<'a> Iterator for Routes<'a> {
    type Item = (Prefix, &'a Arc<Attrs>);

    ghost next_gives = { YieldsFirstBy (λ route. (route.0, arc_value route.1.now)) (λ left. left) };

    ghost remaining = { item_count (λ left. left) };

    fn next(&mut self) -> Option<(Prefix, &'a Arc<Attrs>)> {
        next_route(&mut self.numbers, self.rows)
    }
}
