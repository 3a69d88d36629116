//! The routes of all clients, by prefix, and the numbers of those that one client holds.

ghost use Rattle.std.specs.Prelude.{◌≡◌, ◌≢◌, ◌<◌, ◌≤◌, ℕ, true, false, Some, None, length, is_some, IsSome, IfOk, OnOk, OnErr};
ghost use Rattle.std.specs.List.{count_by};
ghost use Rattle.std.specs.Arc.{arc_value};
ghost use Rattle.rs_adjin.specs.Routes.{value_in, IsRising, KeepsRoutes, KeepsNotesIn, PutsNoteIn, SameRoutes, Changes, BelongsAt};
ghost use Rattle.rs_adjin.specs.Numbers.{number_in, routes_at, routes_of, KeepsNumbers, SameNumbers, SameNumbersBut};
ghost use Rattle.rs_adjin.specs.Table.{IsTable, KeepsTable, KeepsNotes, PutsNote, Writes, IsSame, KeepsOthers, Clears, TellsChange, IsHeldBy, has_prefix_of};
ghost use Rattle.rs_adjin.specs.Held.{has_number, Marks, SameSet};
ghost use Rattle.rs_adjin.specs.Sets.{HasRoom, AreCovered, Recounts};

use crate::held::Held;
use crate::numbers::Numbered;
use crate::routes::{new_route, place_of, replace};
use crate::row_routes::RowRoutes;
use crate::sets::Sets;
use rs_attrs::Attrs;
use rs_octets::Prefix;
use std::alloc::{AllocError, Global};
use std::sync::Arc;

/// Puts a client's first route for a prefix among those of others.
fn add_at(
    alloc: Global,
    routes: &mut RowRoutes,
    place: usize,
    held: &mut Held,
    sets: &mut Sets,
    client: usize,
    number: u32,
    attrs: &Arc<Attrs>,
    note: u32,
    set: u32,
) -> Result<(), AllocError>
    requires room { HasRoom sets.old set }
    requires rising { IsRising routes.old }
    requires place { BelongsAt client routes.old place }
    requires absent { has_number held.old number ≡ false }
    ensures kept { KeepsRoutes routes.old routes.new client }
    ensures noted { PutsNoteIn routes.old routes.new client (arc_value attrs.now) note }
    ensures filled { 0 < length routes.old → 0 < length routes.new }
    ensures ok { OnOk result (Changes routes.old routes.new client (Some (arc_value attrs.now))) }
    ensures marked { OnOk result (Marks held.old held.new number true) }
    ensures err { OnErr result (SameRoutes routes.old routes.new) }
    ensures unmarked { OnErr result (SameSet held.old held.new) }
    ensures recounts { Recounts sets.old sets.new routes.old routes.new }
{
    let route = new_route(client, attrs, note, set)?;
    held.add(number)?;
    let Ok(()) = routes.insert(alloc, place, route) else {
        held.remove(number);
        return Err(AllocError);
    };
    sets.add(set);
    Ok(())
}

/// Gives a client a route among those for a prefix, and answers whether that changes what it has.
fn put_among(
    alloc: Global,
    routes: &mut RowRoutes,
    held: &mut Held,
    sets: &mut Sets,
    client: usize,
    number: u32,
    attrs: &Arc<Attrs>,
    note: u32,
    set: u32,
) -> Result<bool, AllocError>
    requires room { HasRoom sets.old set }
    requires covered { AreCovered sets.old routes.old }
    requires rising { IsRising routes.old }
    requires tied { has_number held.old number ≡ is_some (value_in client routes.old) }
    ensures kept { KeepsRoutes routes.old routes.new client }
    ensures noted { PutsNoteIn routes.old routes.new client (arc_value attrs.now) note }
    ensures filled { 0 < length routes.old → 0 < length routes.new }
    ensures ok { OnOk result (Changes routes.old routes.new client (Some (arc_value attrs.now))) }
    ensures changed { IfOk result (λ changed. TellsChange changed (value_in client routes.old) (Some (arc_value attrs.now))) }
    ensures marked { OnOk result (Marks held.old held.new number true) }
    ensures err { OnErr result (SameRoutes routes.old routes.new) }
    ensures unmarked { OnErr result (SameSet held.old held.new) }
    ensures recounts { Recounts sets.old sets.new routes.old routes.new }
{
    match place_of(routes.as_slice(), client) {
        Ok(place) => replace(routes.route_mut(place), sets, attrs, note, set),
        Err(place) => {
            add_at(
                alloc, routes, place, held, sets, client, number, attrs, note, set,
            )?;
            Ok(true)
        }
    }
}

/// Gives a client a route in the row of its prefix, and answers whether that changes what it has.
/// The row is found by its number; `prefix` is there for the contract, which says what each prefix has.
pub(crate) fn put_row(
    alloc: Global,
    table: &mut Numbered,
    number: u32,
    held: &mut Held,
    client: usize,
    prefix: Prefix,
    attrs: &Arc<Attrs>,
    note: u32,
    set: u32,
) -> Result<bool, AllocError>
    requires table { IsTable table.old }
    requires tied { IsHeldBy client held.old table.old }
    requires number { number_in table.old prefix ≡ Some number }
    ensures kept { KeepsTable table.old table.new client }
    ensures noted { PutsNote table.old table.new client prefix (arc_value attrs.now) note }
    ensures ok { OnOk result (Writes table.old table.new client prefix (Some (arc_value attrs.now))) }
    ensures changed { IfOk result (λ changed. TellsChange changed (value_in client (routes_at table.old prefix)) (Some (arc_value attrs.now))) }
    ensures tied { IsHeldBy client held.new table.new }
    ensures err { OnErr result (IsSame table.old table.new) }
    ensures numbers { SameNumbers table.old table.new }
{
    table.sets.make_room_for(set)?;
    let row = &mut table.rows[number as usize];
    let sets = &mut table.sets;
    let was_empty = row.routes.is_empty();
    let put = put_among(
        alloc,
        &mut row.routes,
        held,
        sets,
        client,
        number,
        attrs,
        note,
        set,
    );
    let is_empty = row.routes.is_empty();
    table.used = table.used + usize::from(was_empty) - usize::from(is_empty);
    put
}

/// Gives a client a route for a prefix that has no number: where memory is refused it has none
/// afterwards either.
fn put_first(
    alloc: Global,
    table: &mut Numbered,
    held: &mut Held,
    client: usize,
    prefix: Prefix,
    attrs: &Arc<Attrs>,
    note: u32,
    set: u32,
) -> Result<bool, AllocError>
    requires table { IsTable table.old }
    requires tied { IsHeldBy client held.old table.old }
    requires absent { number_in table.old prefix ≡ None }
    ensures kept { KeepsTable table.old table.new client }
    ensures noted { PutsNote table.old table.new client prefix (arc_value attrs.now) note }
    ensures ok { OnOk result (Writes table.old table.new client prefix (Some (arc_value attrs.now))) }
    ensures changed { IfOk result (λ changed. TellsChange changed (value_in client (routes_at table.old prefix)) (Some (arc_value attrs.now))) }
    ensures tied { IsHeldBy client held.new table.new }
    ensures err { OnErr result (IsSame table.old table.new) }
    ensures numbers { KeepsNumbers table.old table.new }
    ensures others { SameNumbersBut prefix table.old table.new }
    ensures numbered { OnOk result (IsSome (number_in table.new prefix)) }
    ensures unnumbered { OnErr result (SameNumbers table.old table.new) }
{
    let number = table.add_new(prefix)?;
    match put_row(alloc, table, number, held, client, prefix, attrs, note, set) {
        Ok(changed) => Ok(changed),
        Err(refused) => {
            table.release(number);
            Err(refused)
        }
    }
}

/// Gives a client a route, and answers whether that changes what it has.
pub(crate) fn put_in(
    alloc: Global,
    table: &mut Numbered,
    held: &mut Held,
    client: usize,
    prefix: Prefix,
    attrs: &Arc<Attrs>,
    note: u32,
    set: u32,
) -> Result<bool, AllocError>
    requires table { IsTable table.old }
    requires tied { IsHeldBy client held.old table.old }
    ensures kept { KeepsTable table.old table.new client }
    ensures noted { PutsNote table.old table.new client prefix (arc_value attrs.now) note }
    ensures ok { OnOk result (Writes table.old table.new client prefix (Some (arc_value attrs.now))) }
    ensures changed { IfOk result (λ changed. TellsChange changed (value_in client (routes_at table.old prefix)) (Some (arc_value attrs.now))) }
    ensures tied { IsHeldBy client held.new table.new }
    ensures err { OnErr result (IsSame table.old table.new) }
    ensures numbers { KeepsNumbers table.old table.new }
    ensures others { SameNumbersBut prefix table.old table.new }
    ensures numbered { OnOk result (IsSome (number_in table.new prefix)) }
    ensures unnumbered { OnErr result (SameNumbers table.old table.new) }
{
    match table.number(prefix) {
        Some(number) => put_row(alloc, table, number, held, client, prefix, attrs, note, set),
        None => put_first(alloc, table, held, client, prefix, attrs, note, set),
    }
}

/// Takes a client's route from those for a prefix, and answers whether there was one.
fn take_from(routes: &mut RowRoutes, sets: &mut Sets, client: usize) -> bool
    requires rising { IsRising routes.old }
    requires covered { AreCovered sets.old routes.old }
    ensures kept { KeepsRoutes routes.old routes.new client }
    ensures noted { KeepsNotesIn routes.old routes.new }
    ensures taken { result ≡ is_some (value_in client routes.old) }
    ensures changes { Changes routes.old routes.new client None }
    ensures unchanged { result ≡ false → routes.new ≡ routes.old }
    ensures recounts { Recounts sets.old sets.new routes.old routes.new }
{
    match place_of(routes.as_slice(), client) {
        Ok(place) => {
            let route = routes.remove(place);
            sets.remove(route.set);
            true
        }
        Err(_) => false,
    }
}

/// Takes a client's route from the row of its prefix, and answers whether there was one. The row is
/// found by its number; `prefix` is there for the contract.
fn take_row(table: &mut Numbered, number: u32, client: usize, prefix: Prefix) -> bool
    requires table { IsTable table.old }
    requires number { number_in table.old prefix ≡ Some number }
    ensures kept { KeepsTable table.old table.new client }
    ensures noted { KeepsNotes table.old table.new }
    ensures taken { result ≡ is_some (value_in client (routes_at table.old prefix)) }
    ensures writes { Writes table.old table.new client prefix None }
    ensures numbers { SameNumbers table.old table.new }
{
    let row = &mut table.rows[number as usize];
    let was_empty = row.routes.is_empty();
    let taken = take_from(&mut row.routes, &mut table.sets, client);
    let is_empty = row.routes.is_empty();
    table.used = table.used + usize::from(was_empty) - usize::from(is_empty);
    taken
}

/// Takes a client's route from the row of its prefix, and the number from its set.
pub(crate) fn withdraw_row(
    table: &mut Numbered,
    number: u32,
    held: &mut Held,
    client: usize,
    prefix: Prefix,
) -> bool
    requires table { IsTable table.old }
    requires tied { IsHeldBy client held.old table.old }
    requires number { number_in table.old prefix ≡ Some number }
    ensures kept { KeepsTable table.old table.new client }
    ensures noted { KeepsNotes table.old table.new }
    ensures taken { result ≡ is_some (value_in client (routes_at table.old prefix)) }
    ensures writes { Writes table.old table.new client prefix None }
    ensures tied { IsHeldBy client held.new table.new }
    ensures numbers { SameNumbers table.old table.new }
{
    if !take_row(table, number, client, prefix) {
        return false;
    }
    held.remove(number);
    true
}

/// Takes a client's route, and answers whether there was one.
pub(crate) fn withdraw_in(
    table: &mut Numbered,
    held: &mut Held,
    client: usize,
    prefix: Prefix,
) -> bool
    requires table { IsTable table.old }
    requires tied { IsHeldBy client held.old table.old }
    ensures kept { KeepsTable table.old table.new client }
    ensures noted { KeepsNotes table.old table.new }
    ensures taken { result ≡ is_some (value_in client (routes_at table.old prefix)) }
    ensures writes { Writes table.old table.new client prefix None }
    ensures tied { IsHeldBy client held.new table.new }
    ensures numbers { SameNumbers table.old table.new }
{
    let Some(number) = table.number(prefix) else {
        return false;
    };
    withdraw_row(table, number, held, client, prefix)
}

/// Takes a client's route from the row of a number.
fn take_number(table: &mut Numbered, number: u32, client: usize)
    requires { IsTable table.old }
    ensures kept { KeepsTable table.old table.new client }
    ensures noted { KeepsNotes table.old table.new }
    ensures numbers { SameNumbers table.old table.new }
    ensures others { KeepsOthers table.old table.new client }
    ensures gone { value_in client (routes_of table.new number) ≡ None }
    ensures left { (n : ℕ) → n ≢ number → value_in client (routes_of table.new n) ≡ value_in client (routes_of table.old n) }
{
    let Some(prefix) = table.prefix(number) else {
        return;
    };
    take_row(table, number, client, prefix);
}

/// Takes all routes of a client, which holds the prefixes of these numbers.
pub(crate) fn clear_in(table: &mut Numbered, held: &mut Held, client: usize)
    requires table { IsTable table.old }
    requires tied { IsHeldBy client held.old table.old }
    ensures kept { KeepsTable table.old table.new client }
    ensures noted { KeepsNotes table.old table.new }
    ensures tied { IsHeldBy client held.new table.new }
    ensures cleared { Clears table.old table.new client }
    ensures numbers { SameNumbers table.old table.new }
{
    let mut first = 0;
    while let Some(number) = held.first_from(first) {
        take_number(table, number, client);
        first = number as usize + 1;
    }
    held.clear();
}

/// Whether a client holds a prefix, by the set of its numbers.
fn holds(table: &Numbered, held: &Held, prefix: Prefix) -> bool
    ensures { result ≡ has_prefix_of held.now (number_in table.now prefix) }
{
    match table.number(prefix) {
        Some(number) => held.has(number),
        None => false,
    }
}

/// How many of the prefixes a client holds, by the set of its numbers.
pub(crate) fn count_in(table: &Numbered, held: &Held, prefixes: &[Prefix]) -> usize
    ensures count { result ≡ count_by (λ p. has_prefix_of held.now (number_in table.now p)) prefixes.now }
    ensures within { result ≤ length prefixes.now }
{
    prefixes.iter().filter(|p| holds(table, held, **p)).count()
}
