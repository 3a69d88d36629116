//! The routes for one prefix as they lie in memory. Most prefixes have one route, which lies in the row
//! itself: only a list of several has memory of its own.

ghost use Rattle.std.specs.Prelude.{◌≡◌, ◌==◌, ◌<◌, ◌≤◌, [], length, insert, remove, slice_index_or, is_ok, if◌then◌else◌, map, All};
ghost use Rattle.std.specs.Borrow.{sem};

use crate::notes::Notes;
use crate::noting::note_routes;
use crate::room::make_room;
use crate::routes::Route;
use rs_octets::Prefix;
use std::alloc::{AllocError, Global};
use std::marker::Model;
use std::{mem, slice};

/// Where the routes are.
#[derive(Drop)]
pub(crate) enum Routes {
    Empty,
    One(Route),
    /// Several, or what withdrawals have left of them.
    Many(Vec<Route>),
}

/// The routes in a row.
#[derive(Drop)]
pub(crate) struct RowRoutes {
    routes: Routes,
}

impl Model for RowRoutes {
    ghost use Rattle.std.specs.Prelude.{List};
    ghost use Rattle.rs_adjin.specs.declared.routes.Route.{Route};
    ghost use Rattle.rs_adjin.specs.RowRoutes.{listed};

    ghost Value = { List Route };

    ghost view = { λ r. listed r.routes };
}

impl Routes {
    ghost use Rattle.rs_adjin.specs.RowRoutes.{listed};
    ghost use Rattle.rs_adjin.specs.RoutesLent.{LendsRoute};

    fn route_mut(&mut self, place: usize) -> &mut Route
        requires { place < length (listed self.old) }
        ensures* writes_back { sem 𝓛 (LendsRoute self.entry place result) }
        ensures value { result.now ≡ slice_index_or (listed self.old) place result.now }
    {
        match self {
            Routes::Empty => unreachable!(),
            Routes::One(route) => route,
            Routes::Many(routes) => &mut routes[place],
        }
    }
}

impl RowRoutes {
    ghost use Rattle.rs_adjin.specs.RowLent.{LendsRowRoute};
    ghost use Rattle.rs_adjin.specs.Noting.{with_note};

    pub(crate) fn new() -> RowRoutes
        ensures { result ≡ [] }
    {
        RowRoutes {
            routes: Routes::Empty,
        }
    }

    pub(crate) fn as_slice(&self) -> &[Route]
        ensures { result.now ≡ self.now }
    {
        match &self.routes {
            Routes::Empty => &[],
            Routes::One(route) => slice::from_ref(route),
            Routes::Many(routes) => routes,
        }
    }

    pub(crate) fn route_mut(&mut self, place: usize) -> &mut Route
        requires { place < length self.old }
        ensures* writes_back { sem 𝓛 (LendsRowRoute self.entry place result) }
        ensures value { result.now ≡ slice_index_or self.old place result.now }
    {
        self.routes.route_mut(place)
    }

    pub(crate) fn is_empty(&self) -> bool
        ensures { result ≡ (length self.now == 0) }
    {
        self.as_slice().is_empty()
    }

    /// Puts a route at a place. Where memory is refused nothing changes.
    pub(crate) fn insert(
        &mut self,
        alloc: Global,
        place: usize,
        route: Route,
    ) -> Result<(), AllocError>
        requires { place ≤ length self.old }
        ensures { self.new ≡ (if is_ok result then insert self.old place route else self.old) }
    {
        match &mut self.routes {
            Routes::Empty => self.routes = Routes::One(route),
            Routes::One(_) => {
                let mut routes = Vec::with_capacity(alloc, 2)?;
                let Routes::One(first) = mem::replace(&mut self.routes, Routes::Empty) else {
                    unreachable!()
                };
                let (before, after) = if place == 0 {
                    (route, first)
                } else {
                    (first, route)
                };
                routes.push_reserved(before);
                routes.push_reserved(after);
                self.routes = Routes::Many(routes);
            }
            Routes::Many(routes) => {
                make_room(routes, routes.len() + 1)?;
                routes.insert(place, route)?;
            }
        }
        Ok(())
    }

    /// Takes the route at a place out. The last one's memory is given back.
    pub(crate) fn remove(&mut self, place: usize) -> Route
        requires { place < length self.old }
        ensures value { result ≡ slice_index_or self.old place result }
        ensures items { self.new ≡ remove self.old place }
    {
        match mem::replace(&mut self.routes, Routes::Empty) {
            Routes::Empty => unreachable!(),
            Routes::One(route) => route,
            Routes::Many(mut routes) => {
                let route = routes.remove(place);
                if !routes.is_empty() {
                    self.routes = Routes::Many(routes);
                }
                route
            }
        }
    }

    /// Gives the routes their notes.
    pub(crate) fn give_notes<N: Notes>(&mut self, prefix: &Prefix, notes: &N)
        requires { All (λ r. r.client < N.known notes.now) self.old }
        ensures { self.new ≡ map (with_note (λ c m. N.note_by notes.now c prefix.now m)) self.old }
    {
        match &mut self.routes {
            Routes::Empty => {}
            Routes::One(route) => note_routes(slice::from_mut(route), prefix, notes),
            Routes::Many(routes) => note_routes(routes, prefix, notes),
        }
    }
}
