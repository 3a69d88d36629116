//! The Adj-RIBs-In of all clients.
#![tactic(auto, unfolding(crate::specs::AdjIns::client_count, crate::specs::AdjIns::identifier_of, crate::specs::AdjIns::held_of, crate::specs::AdjIns::number_of, crate::specs::AdjIns::prefix_of, crate::specs::AdjIns::set_of))]

ghost use Rattle.std.specs.Prelude.{T, if◌then◌else◌, ◌≡◌, ◌≢◌, true, false, IsTrue, ◌<◌, ℕ, Some, None, ◌↔◌, length, slice_get, is_some, IsSome, option_map, map, List, ◌≤◌, IfOk, IfSome, OnOk, OnErr, All, Contains};
ghost use Rattle.std.specs.List.{AllPairs, IsDistinct};
ghost use Rattle.std.specs.List.Sorted.{IsStrictlySortedBy};
ghost use Rattle.std.specs.Map.{keys_of};
ghost use Rattle.std.specs.Arc.{arc_value};
ghost use Rattle.std.specs.FinMap.{find, is_sorted};
ghost use Rattle.rs_octets.specs.Prefixes.{Prefix, prefix_order};
ghost use Rattle.rs_attrs.specs.Meaning.{Attribute};
ghost use Rattle.rs_attrs.specs.Effects.{has_prefix, same_prefix};
ghost use Rattle.rs_adjin.specs.declared.routes.Route.{Route};
ghost use Rattle.rs_adjin.specs.declared.held.Held.{Held};
ghost use Rattle.rs_adjin.specs.Table.{IsTable, IsOfClients, IsHeldBy, TellsChange};
ghost use Rattle.rs_adjin.specs.Mandatory.{HasMandatory, AllHaveMandatory};
ghost use Rattle.rs_adjin.specs.Numbers.{routes_at};
ghost use Rattle.rs_adjin.specs.Listing.{Counts};
ghost use Rattle.rs_adjin.specs.Onward.{is_from};

use crate::candidates::Candidates;
use crate::held::Held;
use crate::held_routes::HeldRoutes;
use crate::holders::{Holder, Holders, holder_in};
use crate::notes::Notes;
use crate::noting::note_all_in;
use crate::numbers::Numbered;
use crate::prefixes::{HeldByNumber, HeldPrefixes, NumberedPrefixes};
use crate::routes::{Route, route_in};
use crate::sets::Shared;
use crate::table::{clear_in, count_in, put_in, put_row, withdraw_in, withdraw_row};
use rs_attrs::Attrs;
use rs_octets::Prefix;
use std::alloc::{AllocError, Global};
use std::sync::Arc;

/// What each client announced, by prefix, with the numbers of each client's prefixes beside it.
#[derive(Drop)]
pub struct AdjIns {
    alloc: Global,
    identifiers: Vec<u32>,
    held: Vec<Held>,
    table: Numbered,
    ghost sets: { length held.items ≡ length identifiers.items },
    ghost whole: { IsTable table },
    ghost known: { IsOfClients (length identifiers.items) table },
    ghost mandatory: { AllHaveMandatory table },
    ghost tied: { (c : ℕ) (numbers : Held) → slice_get held.items c ≡ Some numbers → IsHeldBy c numbers table },
}

impl AdjIns {
    ghost use Rattle.rs_adjin.specs.AdjIns.{client_count, identifier_of, held_of, is_held, note_of, AreNoted, KeepsNotes, PutsNote, PutsNoteAt, Sets, Clears, Begins, Same, ListsHolders, SetsAt, TellsChangeAt, would_hold, candidates_of, number_of, prefix_of, KeepsNumbers, SameNumbers, SameNumbersBut, GivesUp, IsUnused, IsUsed, CountsSets, set_of, KeepsSets, SameSets, SameSetsBut, GivesUpSet};

    /// Empty tables for so many clients.
    pub fn new(alloc: Global, clients: usize) -> Result<AdjIns, AllocError>
        ensures count { IfOk result (λ ins. client_count ins ≡ clients) }
        ensures identifiers { IfOk result (λ ins. (c : ℕ) → identifier_of ins c ≡ 0) }
        ensures empty { IfOk result (λ ins. (c : ℕ) (p : Prefix) → held_of ins c p ≡ None) }
        ensures noted { (f : ℕ → Prefix → List Attribute → ℕ) → IfOk result (λ ins. AreNoted f ins) }
    {
        let identifiers = vec![in alloc; 0; clients]?;
        let mut held = Vec::with_capacity(alloc, clients)?;
        for _ in 0..clients {
            held.push(Held::new(alloc))?;
        }
        let table = Numbered::new(alloc)?;
        Ok(AdjIns {
            alloc,
            identifiers,
            held,
            table,
        })
    }

    /// How many clients there are.
    pub fn clients(&self) -> usize
        ensures { result ≡ client_count self.now }
    {
        self.identifiers.len()
    }

    /// The BGP Identifier of the client's session.
    pub fn identifier(&self, client: usize) -> u32
        requires { client < client_count self.now }
        ensures { result ≡ identifier_of self.now client }
    {
        self.identifiers[client]
    }

    /// A session of the client begins, with the BGP Identifier of its OPEN and an empty table.
    pub fn begin(&mut self, client: usize, identifier: u32)
        requires { client < client_count self.old }
        ensures begins { Begins self.old self.new client identifier }
        ensures numbers { SameNumbers self.old self.new }
        ensures noted { KeepsNotes self.old self.new }
    {
        self.clear(client);
        self.identifiers[client] = identifier;
    }

    /// The client announces a route, beside which its note is kept and the set of its attributes (`share`),
    /// and the answer says whether that changes what it has.
    ///
    /// # Errors
    ///
    /// `AllocError` where memory was refused, or where no number of 32 bits is left, or the client's place
    /// has more: then no route has changed, and no prefix has a number that it had not.
    pub fn put(
        &mut self,
        client: usize,
        prefix: Prefix,
        attrs: &Arc<Attrs>,
        note: u32,
        set: u32,
    ) -> Result<bool, AllocError>
        requires client { client < client_count self.old }
        requires mandatory { HasMandatory (arc_value attrs.now) }
        ensures ok { OnOk result (Sets self.old self.new client prefix (Some (arc_value attrs.now))) }
        ensures changed { IfOk result (λ changed. TellsChange changed (held_of self.old client prefix) (Some (arc_value attrs.now))) }
        ensures err { OnErr result (Same self.old self.new) }
        ensures numbers { KeepsNumbers self.old self.new }
        ensures others { SameNumbersBut prefix self.old self.new }
        ensures numbered { OnOk result (IsSome (number_of self.new prefix)) }
        ensures unnumbered { OnErr result (SameNumbers self.old self.new) }
        ensures noted { PutsNote self.old self.new client prefix (arc_value attrs.now) note }
    {
        let held = &mut self.held[client];
        let table = &mut self.table;
        put_in(self.alloc, table, held, client, prefix, attrs, note, set)
    }

    /// The number of a prefix, which gets one if it has none.
    ///
    /// # Errors
    ///
    /// `AllocError` where the prefix has no number, and memory was refused, or no number of 32 bits is left: then it
    /// has none still.
    pub fn add(&mut self, prefix: Prefix) -> Result<u32, AllocError>
        ensures number { IfOk result (λ n. number_of self.new prefix ≡ Some n) }
        ensures prefix { IfOk result (λ n. prefix_of self.new n ≡ Some prefix) }
        ensures numbers { KeepsNumbers self.old self.new }
        ensures others { SameNumbersBut prefix self.old self.new }
        ensures unnumbered { OnErr result (SameNumbers self.old self.new) }
        ensures same { Same self.old self.new }
        ensures noted { KeepsNotes self.old self.new }
    {
        self.table.add(prefix)
    }

    /// The client announces a route for the prefix of a number, as `put` has it.
    pub fn put_at(
        &mut self,
        client: usize,
        number: u32,
        attrs: &Arc<Attrs>,
        note: u32,
        set: u32,
    ) -> Result<bool, AllocError>
        requires client { client < client_count self.old }
        requires number { IsSome (prefix_of self.old number) }
        requires mandatory { HasMandatory (arc_value attrs.now) }
        ensures ok { OnOk result (SetsAt self.old self.new client number (Some (arc_value attrs.now))) }
        ensures changed { IfOk result (λ changed. TellsChangeAt changed self.old client number (Some (arc_value attrs.now))) }
        ensures err { OnErr result (Same self.old self.new) }
        ensures numbers { SameNumbers self.old self.new }
        ensures noted { PutsNoteAt self.old self.new client number (arc_value attrs.now) note }
    {
        let Some(prefix) = self.table.prefix(number) else {
            return Err(AllocError);
        };
        let held = &mut self.held[client];
        put_row(
            self.alloc,
            &mut self.table,
            number,
            held,
            client,
            prefix,
            attrs,
            note,
            set,
        )
    }

    /// The client withdraws its route, and the answer says whether there was one. The route server withdraws
    /// by number (`withdraw_at`); only the tests withdraw by prefix.
    pub fn withdraw(&mut self, client: usize, prefix: Prefix) -> bool
        requires { client < client_count self.old }
        ensures taken { result ≡ is_some (held_of self.old client prefix) }
        ensures withdrawn { Sets self.old self.new client prefix None }
        ensures numbers { SameNumbers self.old self.new }
        ensures noted { KeepsNotes self.old self.new }
    {
        let held = &mut self.held[client];
        withdraw_in(&mut self.table, held, client, prefix)
    }

    /// The client withdraws its route for the prefix of a number, as `withdraw` has it, for a caller that
    /// has looked the number up already.
    pub fn withdraw_at(&mut self, client: usize, number: u32) -> bool
        requires client { client < client_count self.old }
        requires number { IsSome (prefix_of self.old number) }
        ensures taken { (p : Prefix) → number_of self.old p ≡ Some number → result ≡ is_some (held_of self.old client p) }
        ensures withdrawn { SetsAt self.old self.new client number None }
        ensures numbers { SameNumbers self.old self.new }
        ensures noted { KeepsNotes self.old self.new }
    {
        let Some(prefix) = self.table.prefix(number) else {
            return false;
        };
        let held = &mut self.held[client];
        withdraw_row(&mut self.table, number, held, client, prefix)
    }

    /// Each route gets its note anew. It takes no memory.
    pub fn note_all<N: Notes>(&mut self, notes: &N)
        requires { client_count self.old ≤ N.known notes.now }
        ensures noted { AreNoted (N.note_by notes.now) self.new }
        ensures same { Same self.old self.new }
        ensures numbers { SameNumbers self.old self.new }
    {
        note_all_in(&mut self.table, notes);
    }

    /// The client's routes go, and its identifier stays.
    pub fn clear(&mut self, client: usize)
        requires { client < client_count self.old }
        ensures cleared { Clears self.old self.new client }
        ensures numbers { SameNumbers self.old self.new }
        ensures noted { KeepsNotes self.old self.new }
    {
        clear_in(&mut self.table, &mut self.held[client], client);
    }

    /// The prefixes that the client holds, rising, with their numbers. The walk goes over all
    /// prefixes that have a number.
    pub fn held(&self, client: usize) -> HeldPrefixes<'_>
        requires { client < client_count self.now }
        ensures rising { IsStrictlySortedBy prefix_order (keys_of result) }
        ensures all { (p : Prefix) → Contains (keys_of result) p ↔ IsSome (held_of self.now client p) }
        ensures numbers { All (λ e. number_of self.now e.0 ≡ Some e.1) result }
    {
        HeldPrefixes::new(self.table.iter(), &self.held[client])
    }

    /// The prefixes that the client holds, by rising number, with it. The walk doesn't go over what
    /// others hold.
    pub fn held_by_number(&self, client: usize) -> HeldByNumber<'_>
        requires { client < client_count self.now }
        ensures rising { AllPairs (λ e f. e.1 < f.1) result }
        ensures all { (p : Prefix) → Contains (keys_of result) p ↔ IsSome (held_of self.now client p) }
        ensures numbers { All (λ e. number_of self.now e.0 ≡ Some e.1) result }
    {
        HeldByNumber::new(&self.table, &self.held[client])
    }

    /// How many prefixes the client would hold after an UPDATE that withdraws and announces these.
    pub fn count_after(&self, client: usize, withdrawn: &[Prefix], announced: &[Prefix]) -> usize
        requires client { client < client_count self.now }
        requires withdrawn { IsDistinct same_prefix withdrawn.now }
        requires announced { IsDistinct same_prefix announced.now }
        requires apart { (p : Prefix) → has_prefix p withdrawn.now ≡ true → has_prefix p announced.now ≡ false }
        ensures { Counts (would_hold self.now client withdrawn.now announced.now) result }
    {
        let held = &self.held[client];
        let gone = count_in(&self.table, held, withdrawn);
        let again = count_in(&self.table, held, announced);
        held.count() - gone + (announced.len() - again)
    }

    /// The routes for a prefix as they stand in its row.
    fn routes(&self, prefix: Prefix) -> &[Route]
        ensures { result.now ≡ routes_at self.now.table prefix }
    {
        match self.table.number(prefix) {
            Some(number) => self.table.routes(number),
            None => &[],
        }
    }

    /// The clients that hold a prefix, rising, each with the attributes that it announced and the note
    /// beside them.
    pub fn at(&self, prefix: Prefix) -> Holders<'_>
        ensures holders { ListsHolders self.now prefix (map (λ h. h.0) result) }
        ensures noted { (f : ℕ → Prefix → List Attribute → ℕ) → AreNoted f self.now → All (λ h. h.1 ≡ f h.0.0 prefix h.0.1) result }
    {
        Holders::new(self.routes(prefix))
    }

    /// The attributes that the client announced for a prefix; None where it holds none. The outlets ask
    /// by number (`route_at`); only the tests ask by prefix.
    pub fn route(&self, client: usize, prefix: Prefix) -> Option<&Arc<Attrs>>
        ensures { option_map (λ attrs. arc_value attrs.now) result ≡ held_of self.now client prefix }
    {
        route_in(self.routes(prefix), client)
    }

    /// The candidates for a prefix: the routes with their senders' BGP Identifiers, by rising
    /// client.
    pub fn candidates(&self, prefix: Prefix) -> Candidates<'_>
        ensures value { result ≡ candidates_of self.now prefix }
        ensures known { All (λ c. c.client < client_count self.now) result }
    {
        Candidates::new(self.routes(prefix), &self.identifiers)
    }

    /// The number of a prefix. A prefix that a client has a route for has one, and it keeps it until
    /// it is given up.
    pub fn number(&self, prefix: Prefix) -> Option<u32>
        ensures number { result ≡ number_of self.now prefix }
        ensures inverse { (p : Prefix) (n : ℕ) → number_of self.now p ≡ Some n ↔ prefix_of self.now n ≡ Some p }
        ensures held { (c : ℕ) → IsSome (held_of self.now c prefix) → IsSome result }
    {
        self.table.number(prefix)
    }

    /// The prefix of a number.
    pub fn prefix(&self, number: u32) -> Option<Prefix>
        ensures { result ≡ prefix_of self.now number }
    {
        self.table.prefix(number)
    }

    /// A number above each that a prefix has.
    pub fn numbers(&self) -> usize
        ensures { (p : Prefix) (n : ℕ) → number_of self.now p ≡ Some n → n < result }
    {
        self.table.count()
    }

    /// How many prefixes any client holds.
    pub fn held_prefixes(&self) -> usize
        ensures { Counts (is_held self.now) result }
    {
        self.table.used()
    }

    /// Whether a prefix that no client holds has a number, so that numbers can be given up (`release`).
    pub fn has_unheld(&self) -> bool {
        self.table.has_unheld()
    }

    /// The set of these attributes, which gets a number if it has none. A set that no route has is to be
    /// given up (`forget`) once the UPDATE's routes are put.
    ///
    /// # Errors
    ///
    /// `AllocError` where memory was refused, or where no number of 32 bits is left: then no set has another
    /// number.
    pub fn share(&mut self, attrs: &Arc<Attrs>) -> Result<Shared, AllocError>
        ensures set { IfOk result (λ shared. set_of self.new (arc_value attrs.now) ≡ Some shared.set) }
        ensures attrs { IfOk result (λ shared. arc_value shared.attrs ≡ arc_value attrs.now) }
        ensures kept { KeepsSets self.old self.new }
        ensures others { SameSetsBut (arc_value attrs.now) self.old self.new }
        ensures err { OnErr result (SameSets self.old self.new) }
        ensures same { Same self.old self.new }
        ensures numbers { SameNumbers self.old self.new }
        ensures noted { KeepsNotes self.old self.new }
    {
        self.table.sets.share(attrs)
    }

    /// Gives up the number of a set, if no route has it.
    pub fn forget(&mut self, set: u32)
        ensures gone { IsUnused self.old set → (m : List Attribute) → set_of self.new m ≢ Some set }
        ensures used { IsUsed self.old set → SameSets self.old self.new }
        ensures others { GivesUpSet self.old self.new set }
        ensures same { Same self.old self.new }
        ensures numbers { SameNumbers self.old self.new }
        ensures noted { KeepsNotes self.old self.new }
    {
        self.table.sets.forget(set);
    }

    /// The number of the set of these attributes. Where a route for the prefix of `number` has them it is
    /// found there, with no search.
    ///
    /// # Errors
    ///
    /// `AllocError` where there are to be searched for, and no more can share them.
    pub fn set_by(&self, number: u32, attrs: &Arc<Attrs>) -> Result<Option<u32>, AllocError>
        ensures { IfOk result (λ set. set ≡ set_of self.now (arc_value attrs.now)) }
    {
        for route in self.table.routes(number) {
            if self.table.sets.is_of(route.set, attrs) {
                return Ok(Some(route.set));
            }
        }
        self.table.sets.number(attrs)
    }

    /// How many sets of attributes routes have, by the numbers that they were put with: equal attributes are
    /// one.
    pub fn set_count(&self) -> usize
        ensures { CountsSets self.now result }
    {
        self.table.sets.held()
    }

    /// The clients that hold the prefix of a number, as `at` lists them.
    pub fn at_number(&self, number: u32) -> Holders<'_>
        ensures holders { (p : Prefix) → number_of self.now p ≡ Some number → ListsHolders self.now p (map (λ h. h.0) result) }
        ensures noted { (f : ℕ → Prefix → List Attribute → ℕ) → AreNoted f self.now → (p : Prefix) → number_of self.now p ≡ Some number → All (λ h. h.1 ≡ f h.0.0 p h.0.1) result }
    {
        Holders::new(self.table.routes(number))
    }

    /// The attributes that the client announced for the prefix of a number.
    pub fn route_at(&self, client: usize, number: u32) -> Option<&Arc<Attrs>>
        ensures { (p : Prefix) → number_of self.now p ≡ Some number → option_map (λ attrs. arc_value attrs.now) result ≡ held_of self.now client p }
    {
        route_in(self.table.routes(number), client)
    }

    /// The client that holds the prefix of a number, as `at_number` has it; None where it holds none.
    pub fn noted_at(&self, client: usize, number: u32) -> Option<Holder<'_>>
        ensures client { IfSome result (λ holder. holder.client ≡ client) }
        ensures route { (p : Prefix) → number_of self.now p ≡ Some number → option_map (λ holder. arc_value holder.attrs.now) result ≡ held_of self.now client p }
        ensures noted { (f : ℕ → Prefix → List Attribute → ℕ) → AreNoted f self.now → (p : Prefix) → number_of self.now p ≡ Some number → IfSome result (λ holder. holder.note ≡ f client p (arc_value holder.attrs.now)) }
    {
        holder_in(self.table.routes(number), client)
    }

    /// Each prefix that has a number, rising, with it: each that any client holds is among them.
    pub fn iter(&self) -> NumberedPrefixes<'_>
        ensures rising { IsStrictlySortedBy prefix_order (keys_of result) }
        ensures numbers { All (λ e. number_of self.now e.0 ≡ Some e.1) result }
        ensures each { (p : Prefix) → IsSome (number_of self.now p) → Contains (keys_of result) p }
        ensures all { (c : ℕ) (p : Prefix) → IsSome (held_of self.now c p) → Contains (keys_of result) p }
    {
        NumberedPrefixes::new(self.table.iter())
    }

    /// Gives up a number, if no client has a route for its prefix, and answers whether it did.
    pub fn release(&mut self, number: u32) -> bool
        ensures given { (p : Prefix) → number_of self.old p ≡ Some number → ((c : ℕ) → held_of self.old c p ≡ None) → IsTrue result }
        ensures released { IsTrue result → prefix_of self.new number ≡ None }
        ensures kept { result ≡ false → SameNumbers self.old self.new }
        ensures numbers { GivesUp self.old self.new number }
        ensures same { Same self.old self.new }
        ensures noted { KeepsNotes self.old self.new }
    {
        self.table.release(number)
    }

    /// Of what `held` lists the prefixes that are not before one. The walk doesn't go over those before.
    pub fn held_from(&self, client: usize, from: Prefix) -> HeldPrefixes<'_>
        requires { client < client_count self.now }
        ensures rising { IsStrictlySortedBy prefix_order (keys_of result) }
        ensures all { (p : Prefix) → Contains (keys_of result) p ↔ (IsTrue (is_from from p) × IsSome (held_of self.now client p)) }
        ensures numbers { All (λ e. number_of self.now e.0 ≡ Some e.1) result }
    {
        HeldPrefixes::new(self.table.iter_from(from), &self.held[client])
    }

    /// Of what `iter` lists the prefixes that are not before one. The walk doesn't go over those before.
    pub fn iter_from(&self, from: Prefix) -> NumberedPrefixes<'_>
        ensures rising { IsStrictlySortedBy prefix_order (keys_of result) }
        ensures numbers { All (λ e. number_of self.now e.0 ≡ Some e.1) result }
        ensures each { (p : Prefix) → Contains (keys_of result) p ↔ (IsTrue (is_from from p) × IsSome (number_of self.now p)) }
        ensures all { (c : ℕ) (p : Prefix) → IsTrue (is_from from p) → IsSome (held_of self.now c p) → Contains (keys_of result) p }
    {
        NumberedPrefixes::new(self.table.iter_from(from))
    }

    /// The client's Adj-RIB-In from a prefix on, by rising prefix. The walk doesn't go over the prefixes
    /// before.
    pub fn routes_from(&self, client: usize, from: Prefix) -> HeldRoutes<'_>
        requires { client < client_count self.now }
        ensures rising { T (is_sorted prefix_order result) }
        ensures routes { (p : Prefix) → find prefix_order p result ≡ (if is_from from p then held_of self.now client p else None) }
    {
        HeldRoutes::new(self, client, self.held_from(client, from))
    }

    /// How many prefixes the client holds.
    pub fn count(&self, client: usize) -> usize
        requires { client < client_count self.now }
        ensures { Counts (λ p. is_some (held_of self.now client p)) result }
    {
        self.held[client].count()
    }
}
