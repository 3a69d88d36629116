//! The routes that a client holds, one after the other.

ghost use Rattle.std.specs.Prelude.{◌≡◌, ◌<◌, Some, All, IsSome};
ghost use Rattle.std.specs.Arc.{arc_value};
ghost use Rattle.std.specs.Iterator.{YieldsFirstBy, item_count};
ghost use Rattle.rs_adjin.specs.AdjIns.{client_count, held_of, number_of};
ghost use Rattle.rs_adjin.specs.Onward.{routes_held};

use crate::adj_ins::AdjIns;
use crate::prefixes::HeldPrefixes;
use rs_attrs::Attrs;
use rs_octets::Prefix;
use std::marker::Model;
use std::sync::Arc;

/// The routes of a client's Adj-RIB-In that are left, by rising prefix.
#[derive(Drop)]
pub struct HeldRoutes<'a> {
    ins: &'a AdjIns,
    client: usize,
    prefixes: HeldPrefixes<'a>,
}

impl<'a> Model for HeldRoutes<'a> {
    ghost use Rattle.std.specs.Prelude.{◌≡◌, ◌<◌, Some, All, IsSome, List};
    ghost use Rattle.rs_octets.specs.Prefixes.{Prefix};
    ghost use Rattle.rs_attrs.specs.Meaning.{Attribute};
    ghost use Rattle.rs_adjin.specs.AdjIns.{held_of, number_of};
    ghost use Rattle.rs_adjin.specs.Onward.{routes_held};

    ghost Value = { List (Prefix × List Attribute) };

    ghost view = { λ it. routes_held (held_of it.ins.now it.client) it.prefixes };

    ghost invariant = { λ it. All (λ e. (number_of it.ins.now e.0 ≡ Some e.1) × IsSome (held_of it.ins.now it.client e.0)) it.prefixes };
}

impl<'a> HeldRoutes<'a> {
    pub(crate) fn new(ins: &'a AdjIns, client: usize, prefixes: HeldPrefixes<'a>) -> HeldRoutes<'a>
        requires numbers { All (λ e. number_of ins.now e.0 ≡ Some e.1) prefixes }
        requires held { All (λ e. IsSome (held_of ins.now client e.0)) prefixes }
        ensures { result ≡ routes_held (held_of ins.now client) prefixes.entry }
    {
        HeldRoutes {
            ins,
            client,
            prefixes,
        }
    }
}

impl<'a> Iterator for HeldRoutes<'a> {
    type Item = (Prefix, &'a Arc<Attrs>);

    ghost next_gives = { YieldsFirstBy (λ route. (route.0, arc_value route.1.now)) (λ left. left) };

    ghost remaining = { item_count (λ left. left) };

    fn next(&mut self) -> Option<(Prefix, &'a Arc<Attrs>)> {
        let (prefix, number) = self.prefixes.next()?;
        let attrs = self.ins.route_at(self.client, number)?;
        Some((prefix, attrs))
    }
}
