//! The best route where it has no room in a message to the member.

use crate::common::is_of;
use crate::pages::{announce, page, server};
use rs_open::Limit;
use std::alloc::{AllocError, Global};

/// ORIGIN IGP, AS_PATH 64496, NEXT_HOP 192.0.2.11.
static OTHERS: [u8; 20] = [
    0x40, 1, 1, 0, 0x40, 2, 6, 2, 1, 0, 0, 0xfb, 0xf0, 0x40, 3, 4, 192, 0, 2, 11,
];

/// Attributes with so many communities: 24 octets, and four more for each.
fn attributes(alloc: Global, communities: u16) -> Result<Vec<u8>, AllocError> {
    let mut octets = Vec::from_slice(alloc, &OTHERS)?;
    octets.extend_from_slice(&[0xd0, 8])?;
    octets.extend_from_slice(&communities.wrapping_mul(4).to_be_bytes())?;
    for number in 0..communities {
        octets.extend_from_slice(&[0xfb, 0xf4])?;
        octets.extend_from_slice(&number.to_be_bytes())?;
    }
    Ok(octets)
}

/// How many communities a route for a prefix of 24 bits has, how long messages may be, and what is said. Beside
/// the attributes the message has 27 octets: with 1,011 communities it has 4,095, with 1,014 4,107.
static ROUTES: [(u16, Limit, &str); 4] = [
    (1011, Limit::Short, "\"outcome\":\"chosen\",\"rules\":["),
    (
        1012,
        Limit::Short,
        "\"outcome\":\"too long for a message\",\"rules\":[",
    ),
    (
        1014,
        Limit::Short,
        "\"outcome\":\"too long for a message\",\"rules\":[",
    ),
    (1014, Limit::Long, "\"outcome\":\"chosen\",\"rules\":["),
];

#[test]
fn what_has_no_room_is_said(rt: HostRuntime) {
    let alloc = rt.alloc();
    for (communities, limit, want) in &ROUTES {
        let mut tables = server(&rt, alloc, 0);
        tables.limit = *limit;
        let octets = attributes(alloc, *communities).expect(&rt, "memory");
        announce(&rt, alloc, &mut tables.routes, 1, &octets);
        let (text, _) = page(&rt, alloc, &tables, "/why?to=beta&prefix=198.51.101.0/24");
        is_of(
            &rt,
            text.contains(want),
            true,
            &(*communities, text.as_str()),
        );
    }
}
