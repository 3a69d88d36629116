//! The keys at the top of a configuration.

ghost use Rattle.std.specs.Prelude.{◌≡◌, ◌<◌, ◌≤◌, length, IfOk};
ghost use Rattle.toml.specs.View.{view};
ghost use Rattle.rs_policy.specs.Seen.{seen};
ghost use Rattle.rs_policy.specs.Documents.{all_shared_at, clients_at, lists_at, the_top};
ghost use Rattle.rs_policy.specs.Keys.{top_keys};
ghost use Rattle.rs_policy.specs.Values.{answer, stranger};

use crate::config::arrays::{refuse_others, some_tables, tables};
use crate::config::values::{Flag, HoldTime, Identifier, POSITIVE, PassOrDrop, optional, required};
use crate::faults::{ConfigFault, Key, Place, Table};
use crate::keys::TOP_KEYS;
use crate::rules::Disposition;
use toml::value::Value;

/// What the top sets, but for the clients.
#[derive(Clone, Copy)]
pub(crate) struct Top {
    pub(crate) server_as: u32,
    pub(crate) identifier: u32,
    pub(crate) hold: u16,
    pub(crate) default: Disposition,
    pub(crate) extended: bool,
    pub(crate) refresh: bool,
    pub(crate) multiprotocol: bool,
}

pub(crate) const TOP: Place = Place {
    table: Table::Top,
    key: Key::Other,
};

impl Top {
    ghost use Rattle.rs_policy.specs.Documents.{top_checks, top_of};

    /// What the top of a document sets, but for the clients, or its first fault.
    #[tactic(auto, unfolding(crate::specs::Values::answer, crate::specs::Documents::top_checks, crate::specs::Documents::top_of))]
    pub(crate) fn read(document: &Value) -> Result<Top, ConfigFault>
        ensures { result ≡ answer (top_checks (view document.now)) (top_of (view document.now)) }
    {
        Ok(Top {
            server_as: required(document, TOP, Key::As, POSITIVE)?,
            identifier: required(document, TOP, Key::Identifier, Identifier)?,
            hold: optional(document, TOP, Key::Hold, HoldTime, 90)?,
            default: optional(document, TOP, Key::Default, PassOrDrop, Disposition::Pass)?,
            extended: optional(document, TOP, Key::Extended, Flag, false)?,
            refresh: optional(document, TOP, Key::Refresh, Flag, false)?,
            multiprotocol: optional(document, TOP, Key::Multiprotocol, Flag, false)?,
        })
    }
}

/// The tables of the clients.
pub(crate) fn client_tables(document: &Value) -> Result<&[Value], ConfigFault>
    ensures tables { seen result ≡ clients_at (view document.now) }
    ensures some { IfOk result (λ ds. 0 < length ds.now) }
    ensures few { IfOk result (λ ds. length ds.now ≤ 512) }
{
    some_tables(document, 512, TOP, Key::Client)
}

/// The tables of the lists that rules name.
pub(crate) fn list_tables(document: &Value) -> Result<&[Value], ConfigFault>
    ensures tables { seen result ≡ lists_at (view document.now) }
    ensures few { IfOk result (λ ds. length ds.now ≤ 1024) }
{
    tables(document, 1024, TOP, Key::List)
}

/// The tables of the rules that others use.
pub(crate) fn shared_tables(document: &Value) -> Result<&[Value], ConfigFault>
    ensures { seen result ≡ all_shared_at (view document.now) }
{
    tables(document, 256, TOP, Key::Rules)
}

/// Refuses a key that the top hasn't.
pub(crate) fn refuse_other_keys(document: &Value) -> Result<(), ConfigFault>
    ensures { result ≡ stranger top_keys the_top (view document.now) }
{
    refuse_others(document, TOP, &TOP_KEYS)
}
