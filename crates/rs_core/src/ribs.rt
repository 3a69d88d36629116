//! The RIBs of all clients (RFC 4271, 3.2): what each announced, and what each is due and was told.
//!
//! Whatever one client changes in the Adj-RIBs-In is touched in the outlets of all others; a turn
//! decides what is touched.

ghost use Rattle.std.specs.Prelude.{◌≡◌, ℕ, None, length, IfOk};
ghost use Rattle.rs_octets.specs.Prefixes.{Prefix};
ghost use Rattle.rs_adjin.specs.AdjIns as adj_ins;
ghost use Rattle.rs_adjin.specs.AdjIns.{AreNoted};
ghost use Rattle.rs_policy.specs.Noted.{note_of_import};
ghost use Rattle.rs_core.specs.Run.Keeping.{AreKept, AreBare};

use crate::adj_rib_in::Dropped;
use crate::sweeping::Unheld;
use rs_adjin::AdjIns;
use rs_outlet::{Outlet, Written};
use rs_policy::Config;
use std::alloc::{AllocError, Global};

/// The RIBs of all clients, with the rules between them.
#[derive(Drop)]
pub(crate) struct Ribs {
    /// How many clients there are. No call changes it.
    pub(crate) count: usize,
    /// The outlets have room for messages of up to 65,535 octets (RFC 8654). No call changes it.
    pub(crate) extended: bool,
    pub(crate) config: Config,
    pub(crate) tables: AdjIns,
    /// Of each client how many of its routes its import rules drop.
    pub(crate) dropped: Dropped,
    pub(crate) outlets: Vec<Outlet>,
    /// The numbers of prefixes that are swept next.
    pub(crate) unheld: Unheld,
    /// The messages that were written last.
    pub(crate) written: Written,
    ghost clients_len: { length config.clients ≡ count },
    ghost tables_len: { adj_ins.client_count tables ≡ count },
    ghost outlets_len: { length outlets.items ≡ count },
    ghost kept: { AreKept extended outlets.items },
    ghost long: { extended ≡ config.top.extended },
    ghost noted: { AreNoted (note_of_import config) tables },
}

/// Outlets of clients that are not Established.
fn outlets(alloc: Global, config: &Config) -> Result<Vec<Outlet>, AllocError>
    ensures count { IfOk result (λ v. length v.items ≡ length config.now.clients) }
    ensures kept { IfOk result (λ v. AreKept config.now.top.extended v.items) }
    ensures bare { IfOk result (λ v. AreBare config.now.top.extended v.items) }
{
    let mut all = Vec::with_capacity(alloc, config.clients())?;
    for c in 0..config.clients() {
        all.push(Outlet::new(alloc, c, config.extended())?)?;
    }
    Ok(all)
}

impl Ribs {
    ghost use Rattle.rs_core.specs.Ribs.{IsFresh, IsNumbered, outlet_count};

    /// The RIBs of clients none of which is Established yet.
    pub(crate) fn new(alloc: Global, config: Config) -> Result<Ribs, AllocError>
        ensures count { IfOk result (λ ribs. outlet_count ribs ≡ length config.clients) }
        ensures config { IfOk result (λ ribs. ribs.config ≡ config) }
        ensures held { IfOk result (λ ribs. (c : ℕ) (p : Prefix) → adj_ins.held_of ribs.tables c p ≡ None) }
        ensures identifiers { IfOk result (λ ribs. (c : ℕ) → adj_ins.identifier_of ribs.tables c ≡ 0) }
        ensures outlets { IfOk result (λ ribs. AreBare config.top.extended ribs.outlets.items) }
        ensures numbered { IfOk result IsNumbered }
        ensures fresh { IfOk result IsFresh }
    {
        let count = config.clients();
        let extended = config.extended();
        let tables = AdjIns::new(alloc, count)?;
        let outlets = outlets(alloc, &config)?;
        let dropped = Dropped::new(alloc, count)?;
        Ok(Ribs {
            count,
            extended,
            config,
            tables,
            dropped,
            outlets,
            unheld: Unheld::new(alloc)?,
            written: Written::new(alloc)?,
        })
    }
}
