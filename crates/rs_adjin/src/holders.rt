//! The clients that hold a prefix, one after the other.

ghost use Rattle.std.specs.Prelude.{◌≡◌, ◌==◌, length, map, IfSome, option_map};
ghost use Rattle.std.specs.Iterator.{YieldsFirstBy, item_count};
ghost use Rattle.std.specs.Arc.{arc_value};
ghost use Rattle.rs_adjin.specs.Listing.{noted_by};
ghost use Rattle.rs_adjin.specs.Routes.{value_in, note_in, IsRising};

use crate::routes::{Route, place_of};
use rs_attrs::Attrs;
use std::marker::Model;
use std::sync::Arc;

/// A client that holds a prefix, with the attributes that it announced, and the route's note.
#[derive(Clone, Copy, Debug)]
pub struct Holder<'a> {
    /// Its place, from 0.
    pub client: usize,
    /// The number that was given with the route.
    pub note: u32,
    pub attrs: &'a Arc<Attrs>,
}

/// A client among those for a prefix; None where it has no route.
pub(crate) fn holder_in(routes: &[Route], client: usize) -> Option<Holder<'_>>
    requires { IsRising routes.now }
    ensures client { IfSome result (λ holder. holder.client ≡ client) }
    ensures attrs { option_map (λ holder. arc_value holder.attrs.now) result ≡ value_in client routes.now }
    ensures note { IfSome result (λ holder. holder.note ≡ note_in client routes.now) }
{
    match place_of(routes, client) {
        Ok(place) => {
            let route = routes.get(place)?;
            Some(Holder {
                client,
                note: route.note,
                attrs: &route.attrs,
            })
        }
        Err(_) => None,
    }
}

/// The holders that are left, by rising client.
#[derive(Debug, Drop)]
pub struct Holders<'a> {
    routes: &'a [Route],
}

impl<'a> Model for Holders<'a> {
    ghost use Rattle.std.specs.Prelude.{ℕ, List, map};
    ghost use Rattle.rs_attrs.specs.Meaning.{Attribute};
    ghost use Rattle.rs_adjin.specs.Listing.{noted_by};

    ghost Value = { List ((ℕ × List Attribute) × ℕ) };

    ghost view = { λ it. map noted_by it.routes.now };
}

impl<'a> Holders<'a> {
    pub(crate) fn new(routes: &'a [Route]) -> Holders<'a>
        ensures { result ≡ map noted_by routes.now }
    {
        Holders { routes }
    }

    /// How many are left.
    pub fn len(&self) -> usize
        ensures { result ≡ length self.now }
    {
        self.routes.len()
    }

    /// Whether none is left.
    pub fn is_empty(&self) -> bool
        ensures { result ≡ (length self.now == 0) }
    {
        self.routes.is_empty()
    }
}

impl<'a> Iterator for Holders<'a> {
    type Item = Holder<'a>;

    ghost next_gives = { YieldsFirstBy (λ h. ((h.client, arc_value h.attrs.now), h.note)) (λ left. left) };

    ghost remaining = { item_count (λ left. left) };

    fn next(&mut self) -> Option<Holder<'a>> {
        let (route, rest) = self.routes.split_first()?;
        self.routes = rest;
        Some(Holder {
            client: route.client as usize,
            note: route.note,
            attrs: &route.attrs,
        })
    }
}
