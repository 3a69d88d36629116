//! Whether a fault is news: it comes neither of a fault before it, nor of how that was mended.

use rs_policy::{ConfigFault, Key, Place, Table};

/// The place of a fault that has one.
fn place_of(fault: &ConfigFault) -> Option<Place> {
    match fault {
        ConfigFault::Missing(place) | ConfigFault::BadValue(place) | ConfigFault::TooMany(place) =>
            { Some(*place) }
        _ => None,
    }
}

/// Whether a fault was told, or another one at its place.
fn is_told(told: &[ConfigFault], fault: &ConfigFault) -> bool {
    let place = place_of(fault);
    told.iter().any(|earlier| earlier == fault || place.is_some() && place_of(earlier) == place)
}

/// Whether a key names a client, a list or rules.
fn is_name(key: Key) -> bool {
    matches!(
        key,
        Key::From | Key::PrefixIn | Key::PathIn | Key::OriginIn | Key::Use
    )
}

/// Whether a fault may come of how an earlier one was mended: names of clients, lists and
/// rules are looked for by rules.
fn hangs_on(told: &[ConfigFault], fault: &ConfigFault) -> bool {
    match place_of(fault) {
        Some(place) if is_name(place.key) => told.iter().any(changes_names),
        _ => false,
    }
}

/// Whether a fault is of a table whose faulty `use` was left out: without it another rule stands there.
fn is_without_use(found: &[ConfigFault], fault: &ConfigFault) -> bool {
    let Some(Place { table, .. }) = place_of(fault) else {
        return false;
    };
    let key = Key::Use;
    found.contains(&ConfigFault::BadValue(Place { table, key }))
}

/// Whether to mend a fault changes which names there are, or what a list has.
fn changes_names(fault: &ConfigFault) -> bool {
    let Some(Place { table, key }) = place_of(fault) else {
        return true;
    };
    matches!(table, Table::List(_) | Table::Entry(_, _))
        || matches!(
            key,
            Key::Name | Key::Client | Key::List | Key::Rules | Key::Other
        )
}

/// Whether a fault is to be told, behind those that were found, of which some were told.
pub fn is_new(found: &[ConfigFault], told: &[ConfigFault], fault: &ConfigFault) -> bool {
    !hangs_on(told, fault) && !is_without_use(found, fault) && !is_told(told, fault)
}
