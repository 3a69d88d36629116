//! What the pages are made of: the tables of a route server, as a trait.

ghost use Rattle.std.specs.Prelude.{ℕ, List, Option, option_map, map, IfOk};
ghost use Rattle.std.specs.Arc.{arc_value};
ghost use Rattle.rs_octets.specs.Prefixes.{Prefix};
ghost use Rattle.rs_attrs.specs.Meaning.{Attribute};
ghost use Rattle.rs_policy.specs.Configuration.{Configuration};
ghost use Rattle.rs_outlet.specs.declared.answers.Speech.{Speech};
ghost use Rattle.rs_page_parts.specs.declared.tables.Rib.{Rib};
ghost use Rattle.rs_page_parts.specs.Holders.{Holding, holding};

use rs_attrs::Attrs;
use rs_octets::Prefix;
use rs_outlet::Speech;
use rs_policy::Config;
use std::alloc::{AllocError, Global};
use std::sync::Arc;

/// A table of routes of a member.
#[derive(Clone, Copy, Debug, PartialEq, Eq)]
pub enum Rib {
    /// What it announced: its Adj-RIB-In (RFC 4271, 1.1).
    Received,
    /// What is due to it: its Loc-RIB (RFC 7947, 2.3).
    Sent,
}

/// A route that a member announced, and the BGP Identifier of the member's session.
#[derive(Clone, Copy, Debug)]
pub struct Holder<'a> {
    pub member: usize,
    pub identifier: u32,
    pub attrs: &'a Arc<Attrs>,
}

/// Why the last session of a member ended.
#[derive(Clone, Copy, Debug, PartialEq, Eq)]
pub enum Ended {
    /// A NOTIFICATION with this error code and subcode was sent to it (RFC 4271, 4.5).
    Sent(u8, u8),
    /// It sent one.
    Heard(u8, u8),
    /// The connection was lost.
    Lost,
    /// Memory was refused.
    Memory,
}

/// How many UPDATEs of a member were not taken as they came (RFC 7606, 2).
#[derive(Clone, Copy, Debug, PartialEq, Eq)]
pub struct Faults {
    /// Routes were withdrawn, or attributes discarded.
    pub at_fault: u64,
    /// Routes in MP_REACH_NLRI were passed over (RFC 4760, 3).
    pub passed_over: u64,
}

/// The tables of a route server, as they stand, and what it knows of its members, by their places in its
/// configuration. `first tables rib member at route` says that this is the first route of a table from a
/// number on, or that there is none, `configured tables config` that this is the configuration,
/// `holders tables prefix held` that these are the routes for a prefix, and `speaks tables member speech` how a
/// member is spoken to; where they always hold, nothing is known.
pub trait Tables {
    ghost first: { Self → Rib → ℕ → ℕ → Option (Prefix × List Attribute) → Type 0 };

    ghost configured: { Self → Configuration → Type 0 };

    ghost holders: { Self → Prefix → List Holding → Type 0 };

    ghost speaks: { Self → ℕ → Option Speech → Type 0 };

    fn config(&self) -> &Config
        ensures { configured self.now result.now };

    /// A member's session is Established.
    fn is_established(&self, member: usize) -> bool;

    /// How a member that is Established is spoken to.
    fn speech(&self, member: usize) -> Option<Speech>
        ensures { speaks self.now member result };

    /// Of the routes of a table whose prefixes have this number or a later one, that with the least.
    fn first_from(&self, rib: Rib, member: usize, at: u64) -> Option<(Prefix, &Arc<Attrs>)>
        ensures { first self.now rib member at (option_map (λ route. (route.0, arc_value route.1.now)) result) };

    /// How many routes a table has.
    fn count(&self, rib: Rib, member: usize) -> usize;

    /// How many of the routes that a member announced its import list drops.
    fn dropped(&self, member: usize) -> usize;

    /// The routes for a prefix, by rising member.
    fn holders_of<'b>(
        &'b self,
        alloc: Global,
        prefix: &Prefix,
    ) -> Result<Vec<Holder<'b>>, AllocError>
        ensures { IfOk result (λ held. holders self.now prefix.now (map holding held.items)) };

    /// Why the last session of a member that ended did so.
    fn ended(&self, member: usize) -> Option<Ended>;

    fn faults(&self, member: usize) -> Faults;

    /// How many rows the table of prefixes has, used or free.
    fn rows(&self) -> usize;

    /// How many prefixes have routes.
    fn prefixes(&self) -> usize;

    /// How many sets of attributes the routes have that members announced.
    fn attribute_sets(&self) -> usize;

    /// How many prefixes wait to be sent to a member.
    fn waiting(&self, member: usize) -> usize;
}
