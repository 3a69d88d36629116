//! The table that UPDATEs mean, one after the other.

ghost use Rattle.std.specs.Prelude.{◌≡◌, ◌++◌, ◌∷◌, [], ℕ, List, Some, None, IfOk, OnOk, if◌then◌else◌};
ghost use Rattle.std.specs.Bool.{OnTrue, OnFalse};
ghost use Rattle.std.specs.Arc.{arc_value};
ghost use Rattle.rs_octets.specs.Prefixes.{Prefix};
ghost use Rattle.rs_attrs.specs.declared.mode.Mode.{Mode};
ghost use Rattle.rs_attrs.specs.Effects.{HasEffect, MeansTable, Reset, has_prefix};
ghost use Rattle.rs_compare.specs.Differences.{entries_of};

use crate::routes::Route;
use rs_attrs::{Attrs, Mode};
use rs_octets::Prefix;
use rs_update::{Outcome, effect};
use std::alloc::{AllocError, Global};
use std::collections::BTreeMap;
use std::sync::Arc;

/// What was sent to a client on one connection, as a table of routes.
#[derive(Drop)]
pub struct Sent {
    routes: BTreeMap<Prefix, Arc<Attrs>>,
}

impl Sent {
    ghost use Rattle.rs_compare.specs.Heard.{Lists, table_in};

    /// Before the first UPDATE.
    pub fn new(alloc: Global) -> Sent
        ensures { (mode : Mode) → MeansTable [] mode (table_in result) }
    {
        Sent {
            routes: BTreeMap::new(alloc),
        }
    }

    /// Takes away the routes of these prefixes.
    fn withdraw(&mut self, prefixes: &[Prefix])
        ensures { (p : Prefix) → table_in self.new p ≡ (if has_prefix p prefixes.now then None else table_in self.old p) }
    {
        for prefix in prefixes {
            self.routes.remove(prefix);
        }
    }

    /// Gives these prefixes the attributes.
    fn announce(&mut self, prefixes: &[Prefix], attrs: &Arc<Attrs>) -> Result<(), AllocError>
        ensures { OnOk result ((p : Prefix) → table_in self.new p ≡ (if has_prefix p prefixes.now then Some (arc_value attrs.now) else table_in self.old p)) }
    {
        for prefix in prefixes {
            self.routes.insert(*prefix, attrs.clone()?)?;
        }
        Ok(())
    }

    /// Hears the UPDATE with this body, whose AS numbers are spelt in this mode. Answers whether its
    /// session goes on; where it is reset (RFC 7606, 2) no table is meant.
    ///
    /// # Errors
    ///
    /// `AllocError` where memory was refused: which routes are held then is not said.
    pub fn hear(&mut self, alloc: Global, body: &[u8], mode: Mode) -> Result<bool, AllocError>
        ensures table { (bodies : List (List ℕ)) → MeansTable bodies mode (table_in self.old) → IfOk result (λ goes_on. OnTrue goes_on (MeansTable (bodies ++ body.now ∷ []) mode (table_in self.new))) }
        ensures reset { IfOk result (λ goes_on. OnFalse goes_on ((code : ℕ) × (sub : ℕ) × HasEffect body.now mode (Reset code sub))) }
    {
        match effect(alloc, body, mode)? {
            Outcome::Reset(_, _) => Ok(false),
            Outcome::Change {
                withdrawn,
                announced,
                attrs,
                ..
            } => {
                self.withdraw(&withdrawn);
                if let Some(attrs) = attrs {
                    self.announce(&announced, &attrs)?;
                }
                Ok(true)
            }
        }
    }

    /// The routes of the table, by rising prefix.
    ///
    /// # Errors
    ///
    /// `AllocError` where memory was refused.
    pub fn routes(&self, alloc: Global) -> Result<Vec<Route>, AllocError>
        ensures { IfOk result (λ routes. Lists (entries_of routes.items) (table_in self.now)) }
    {
        let mut routes = Vec::new(alloc);
        for (prefix, attrs) in self.routes.iter() {
            routes.push(Route {
                prefix: *prefix,
                attrs: attrs.clone()?,
            })?;
        }
        Ok(routes)
    }
}
