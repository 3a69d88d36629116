//! The keys that each table of a configuration may have, in the order in which they are checked.

ghost use Rattle.std.specs.Prelude.{◌≡◌};
ghost use Rattle.rs_policy.specs.Keys.{is_among, keys_of};

use crate::faults::{Key, List, Table};

pub(crate) const TOP_KEYS: [Key; 10] = [
    Key::As,
    Key::Identifier,
    Key::Hold,
    Key::Default,
    Key::Extended,
    Key::Refresh,
    Key::Multiprotocol,
    Key::Client,
    Key::List,
    Key::Rules,
];

pub(crate) const CLIENT_KEYS: [Key; 7] = [
    Key::Name,
    Key::As,
    Key::Listen,
    Key::Peer,
    Key::Limit,
    Key::Import,
    Key::Export,
];

pub(crate) const LIST_KEYS: [Key; 3] = [Key::Name, Key::Prefixes, Key::Ases];

pub(crate) const SHARED_KEYS: [Key; 2] = [Key::Name, Key::Rules];

pub(crate) const USE_KEYS: [Key; 1] = [Key::Use];

pub(crate) const RULE_KEYS: [Key; 18] = [
    Key::Prefix,
    Key::Min,
    Key::Max,
    Key::PrefixIn,
    Key::From,
    Key::PathHas,
    Key::PathLonger,
    Key::PathIn,
    Key::OriginAs,
    Key::OriginIn,
    Key::FirstAsIsPeer,
    Key::Community,
    Key::LargeCommunity,
    Key::NextHopIsPeer,
    Key::Action,
    Key::Preference,
    Key::Strip,
    Key::StripLarge,
];

/// The keys that a table may have. In a client's list of rules a table with `use` may have no other.
pub fn known_keys(table: Table, uses: bool) -> &'static [Key]
    ensures { result.now ≡ keys_of table uses }
{
    match table {
        Table::Top => &TOP_KEYS,
        Table::Client(_) => &CLIENT_KEYS,
        Table::List(_) | Table::Entry(_, _) => &LIST_KEYS,
        Table::Rules(_) => &SHARED_KEYS,
        Table::Rule(_, List::Import | List::Export, _) if uses => &USE_KEYS,
        Table::Rule(_, _, _) => &RULE_KEYS,
    }
}

/// Whether a table may have this key.
pub fn is_known(table: Table, uses: bool, text: &str) -> bool
    ensures { result ≡ is_among (keys_of table uses) text.now }
{
    is_among(known_keys(table, uses), text)
}

/// Whether one of these keys has this text.
pub(crate) fn is_among(keys: &[Key], text: &str) -> bool
    ensures { result ≡ is_among keys.now text.now }
{
    for key in keys {
        if key.text() == text {
            return true;
        }
    }
    false
}
