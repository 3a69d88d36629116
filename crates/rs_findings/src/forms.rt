//! The keys that a table of a configuration may not have, and the form of each key's value.

use rs_policy::{Key, List, Place, Table, is_known};
use std::alloc::{AllocError, Global};

/// Whether a table of this content names rules that it uses.
pub(crate) fn uses_others(entries: Option<&toml::Table>) -> bool {
    match entries {
        None => false,
        Some(entries) => entries.get("use").is_some(),
    }
}

/// The keys that a table of this content may not have.
pub(crate) fn strangers<'d>(
    alloc: Global,
    table: Table,
    entries: Option<&'d toml::Table>,
) -> Result<Vec<&'d str>, AllocError> {
    let mut strangers = Vec::new(alloc);
    let Some(entries) = entries else {
        return Ok(strangers);
    };
    let uses = uses_others(Some(entries));
    for (key, _) in entries {
        if !is_known(table, uses, key.as_str()) {
            strangers.push(key.as_str())?;
        }
    }
    Ok(strangers)
}

const AS_NUMBER: &str = "an integer of 1 to 4294967295";

const PASS_OR_DROP: &str = "\"pass\" or \"drop\"";

const TRUE_OR_FALSE: &str = "true or false";

const RULES: &str = "an array of at most 64 tables";

const COMMUNITY: &str = "\"N:M\", both 0 to 65535 without leading zeros; M may be *";

const LARGE_COMMUNITY: &str =
    "\"A:B:C\", each 0 to 4294967295 without leading zeros; C, or B and C, may be *";

/// The form of the value at a place.
pub(crate) fn form(place: &Place) -> &'static str {
    match (place.table, place.key) {
        (Table::Entry(_, _), Key::Ases) => {
            "an integer of 0 to 4294967295, or a text of the least and the greatest, as \"64512-65534\""
        }
        (Table::Entry(_, _), _) => {
            "a prefix, as \"198.51.100.0/24\", or one with a range of lengths, as \"198.51.100.0/24^25-32\""
        }
        (Table::Client(_), Key::As) => AS_NUMBER,
        (Table::Top, Key::Rules) => "at most 256 tables [[rules]]",
        (Table::Rule(_, List::Import, _), Key::Community) => COMMUNITY,
        (Table::Rule(_, List::Import, _), Key::LargeCommunity) => LARGE_COMMUNITY,
        (Table::Rule(_, List::Import, _), Key::Use) => {
            "the name of rules that others use, none of which has peer"
        }
        (_, key) => form_at(key),
    }
}

/// The same at the keys of tables.
fn form_at(key: Key) -> &'static str {
    match key {
        Key::As | Key::Limit | Key::PathHas | Key::OriginAs => AS_NUMBER,
        Key::Default | Key::Action => PASS_OR_DROP,
        Key::Extended
        | Key::Refresh
        | Key::Multiprotocol
        | Key::FirstAsIsPeer
        | Key::NextHopIsPeer => TRUE_OR_FALSE,
        Key::Import | Key::Export | Key::Rules => RULES,
        Key::Identifier => "an address other than 0.0.0.0, as \"192.0.2.1\"",
        Key::Hold => "an integer: 0, or 3 to 65535",
        Key::Client => "1 to 512 tables [[client]]",
        Key::List => "at most 1024 tables [[list]]",
        Key::Name => "a text of 1 to 32 ASCII letters, digits and hyphens",
        Key::Listen => "an address and a port of 1 to 65535, as \"192.0.2.1:179\"",
        Key::Peer => "an address, as \"192.0.2.11\"",
        Key::Prefixes => "an array of at most 1048576 prefixes",
        Key::Ases => "an array of at most 1048576 AS numbers",
        Key::Prefix => "an address and a length of 0 to 32, as \"198.51.100.0/24\"",
        Key::Min => "an integer from the length of prefix, which has to be there, to 32",
        Key::Max => "an integer from min to 32, beside prefix",
        _ => form_of_rest(key),
    }
}

/// The same at the last keys of a rule.
fn form_of_rest(key: Key) -> &'static str {
    match key {
        Key::From => "the name of a client",
        Key::PrefixIn => "the name of a list that has prefixes",
        Key::PathIn | Key::OriginIn => "the name of a list that has ases",
        Key::PathLonger => "an integer of 0 to 4294967295",
        Key::Community =>
            "\"N:M\", both 0 to 65535 without leading zeros; M may be *, each may be peer",
        Key::LargeCommunity =>
            "\"A:B:C\", each 0 to 4294967295 without leading zeros; C, or B and C, may be *, each may be peer",
        Key::Preference => "an integer of 0 to 4294967295, beside action = \"pass\"",
        Key::Strip =>
            "\"all\" or at most 64 communities \"N:M\" or \"N:*\", beside action = \"pass\"",
        Key::StripLarge =>
            "\"all\" or at most 64 large communities \"A:B:C\", \"A:B:*\" or \"A:*:*\", beside action = \"pass\"",
        Key::Use => "the name of rules that others use",
        _ => "a key that is known there",
    }
}
