//! What a caller can ask of the tables: who announced what, what is due to a client, and the
//! configuration. A page of a table begins at any prefix.

ghost use Rattle.std.specs.Prelude.{ℕ, None, ◌≡◌, ◌<◌, T, false, List, [], length, is_some, All, if◌then◌else◌};
ghost use Rattle.std.specs.FinMap.{find, is_sorted};
ghost use Rattle.rs_octets.specs.Prefixes.{Prefix, prefix_order};
ghost use Rattle.rs_attrs.specs.Meaning.{Attribute};
ghost use Rattle.rs_adjin.specs.Listing.{Counts};
ghost use Rattle.rs_adjin.specs.Onward.{is_from};

use crate::route_server::Core;
use rs_adjin::{Candidates, HeldRoutes};
use rs_octets::Prefix;
use rs_outlet::Routes;
use rs_policy::Config;

impl Core {
    ghost use Rattle.rs_core.specs.Core.{client_count, loc_rib};
    ghost use Rattle.rs_core.specs.Run.Moves.{Move, config_in};
    ghost use Rattle.rs_core.specs.Run.Meaning.{is_established, table};
    ghost use Rattle.rs_core.specs.Run.Candidates.{candidates_in};
    ghost use Rattle.rs_core.specs.Run.Agreeing.{Agrees};

    /// The configuration that was accepted last.
    pub fn config(&self) -> &Config
        ensures { (run : List Move) → Agrees self.now run → result.now ≡ config_in run }
    {
        &self.ribs.config
    }

    /// The Adj-RIB-In of a client from a prefix on, by rising prefix (RFC 4271, 3.2).
    pub fn received_from(&self, c: usize, from: Prefix) -> HeldRoutes<'_>
        requires { c < client_count self.now }
        ensures rising { T (is_sorted prefix_order result) }
        ensures routes { (run : List Move) → Agrees self.now run → (p : Prefix) → find prefix_order p result ≡ (if is_from from p then table run c p else None) }
    {
        self.ribs.tables.routes_from(c, from)
    }

    /// How many routes the Adj-RIB-In of a client has.
    pub fn received_count(&self, c: usize) -> usize
        requires { c < client_count self.now }
        ensures { (run : List Move) → Agrees self.now run → Counts (λ p. is_some (table run c p)) result }
    {
        self.ribs.tables.count(c)
    }

    /// How many of these its import rules drop. No contract says so.
    pub fn dropped_count(&self, c: usize) -> usize {
        self.ribs.dropped.count(c)
    }

    /// Of what `routes` lists the routes for prefixes that are not before one. The walk doesn't go over
    /// those before.
    pub fn routes_from(&self, c: usize, from: Prefix) -> Routes<'_>
        requires { c < client_count self.now }
        ensures rising { T (is_sorted prefix_order result) }
        ensures routes { (p : Prefix) → find prefix_order p result ≡ (if is_from from p then loc_rib self.now c p else None) }
        ensures down { (run : List Move) → Agrees self.now run → is_established run c ≡ false → result ≡ [] }
    {
        let outlet = &self.ribs.outlets[c];
        outlet.routes_from(&self.ribs.tables, from)
    }

    /// How many routes `routes` lists.
    pub fn routes_count(&self, c: usize) -> usize
        requires { c < client_count self.now }
        ensures { (routes : List (Prefix × List Attribute)) → T (is_sorted prefix_order routes) → ((p : Prefix) → find prefix_order p routes ≡ loc_rib self.now c p) → result ≡ length routes }
    {
        let outlet = &self.ribs.outlets[c];
        outlet.count()
    }

    /// The routes for a prefix, each with its sender and the BGP Identifier of the sender's session, by
    /// rising client.
    pub fn candidates_at(&self, prefix: Prefix) -> Candidates<'_>
        ensures candidates { (run : List Move) → Agrees self.now run → result ≡ candidates_in run prefix }
        ensures known { All (λ s. s.client < client_count self.now) result }
    {
        self.ribs.tables.candidates(prefix)
    }
}
