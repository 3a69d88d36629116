//! Bodies of OPENs and of ROUTE-REFRESHes, and what is read from them.

use crate::common::{is, octets};
use rs_open::{AddressFamily, Open, OpenFault, read_open, read_refresh};
use std::alloc::Global;
use std::process::Abort;

/// A body in hex, and what is read of it.
type Row = (&'static str, Result<Open, OpenFault>);

/// This is read of each body.
fn are_read(rt: &impl Abort, alloc: Global, rows: &[Row]) {
    for (text, want) in rows {
        let body = octets(rt, alloc, text);
        assert!(rt; body.len() >= 10);
        is(rt, read_open(&body), *want, text);
    }
}

const A: Open = Open {
    my_as: 64496,
    four: Some(64496),
    hold: 90,
    identifier: 0xc000_020b,
    long: false,
};

#[test]
fn reads_route_refreshes(rt: HostRuntime) {
    let bodies: [(&[u8], u16, u8); 4] = [
        (b"\x00\x01\x00\x01", 1, 1),
        (b"\x00\x01\xff\x01", 1, 1),
        // VPNs of IPv6, and BGP-LS
        (b"\x00\x02\x00\x80", 2, 128),
        (b"\x40\x04\x00\x47", 16388, 71),
    ];
    for (body, afi, safi) in bodies {
        assert!(rt; body.len() == 4);
        is(
            &rt,
            read_refresh(body),
            AddressFamily { afi, safi },
            "a body",
        );
    }
}

/// Bodies that are good, each with what it says.
static OPENS: [Row; 11] = [
    ("04 fbf0 005a c000020b 08 0206 4104 0000fbf0", Ok(A)),
    (
        "04 5ba0 005a c000020b 08 0206 4104 fa56ea00",
        Ok(Open {
            my_as: 23456,
            four: Some(4_200_000_000),
            ..A
        }),
    ),
    (
        "04 fbf0 005a c000020b 02 0200",
        Ok(Open { four: None, ..A }),
    ),
    ("04 fbf0 005a c000020b 00", Ok(Open { four: None, ..A })),
    (
        "04 fbf0 0000 c000020b 08 0206 4104 0000fbf0",
        Ok(Open { hold: 0, ..A }),
    ),
    (
        "04 fbf0 0003 c000020b 08 0206 4104 0000fbf0",
        Ok(Open { hold: 3, ..A }),
    ),
    (
        "04 fbf0 ffff c000020b 08 0206 4104 0000fbf0",
        Ok(Open { hold: 65535, ..A }),
    ),
    (
        "04 fbf0 005a c000020b 0c 0202 0600 0206 4104 0000fbf0",
        Ok(Open { long: true, ..A }),
    ),
    ("04 fbf0 005a c000020b 0b 0209 060101 4104 0000fbf0", Ok(A)),
    (
        "04 fbf0 005a c000020b 0d 020b 060101 0600 4104 0000fbf0",
        Ok(Open { long: true, ..A }),
    ),
    (
        "04 fbf0 005a c000020b 0e 020c 4104 0000fbf0 4104 fa56ea00",
        Ok(A),
    ),
];

/// Bodies that are refused, each with its first fault.
static REFUSED: [Row; 19] = [
    ("03 fbf0 005a c000020b 00", Err(OpenFault::Version)),
    ("05 fbf0 0002 00000000 02 0100", Err(OpenFault::Version)),
    (
        "04 fbf0 005a c000020b 07 0206 4104 0000fbf0",
        Err(OpenFault::Malformed),
    ),
    (
        "04 fbf0 005a c000020b 09 0206 4104 0000fbf0",
        Err(OpenFault::Malformed),
    ),
    (
        "04 fbf0 005a c000020b 06 0204 4102 fbf0",
        Err(OpenFault::Malformed),
    ),
    (
        "04 fbf0 005a c000020b 08 0207 4104 0000fbf0",
        Err(OpenFault::Malformed),
    ),
    (
        "04 fbf0 005a c000020b 08 0205 4104 0000fbf0",
        Err(OpenFault::Malformed),
    ),
    ("04 fbf0 005a c000020b 01 02", Err(OpenFault::Malformed)),
    ("04 fbf0 005a c000020b 02 0101", Err(OpenFault::Malformed)),
    (
        "04 fbf0 005a c000020b 0e 0206 4104 0000fbf0 0204 4102 fbf0",
        Err(OpenFault::Malformed),
    ),
    (
        "04 fbf0 005a c000020b 08 0204 4102 fbf0 0100",
        Err(OpenFault::Malformed),
    ),
    ("04 fbf0 005a c000020b 02 0100", Err(OpenFault::Parameter)),
    (
        "04 fbf0 005a c000020b 08 0100 0204 4102 fbf0",
        Err(OpenFault::Parameter),
    ),
    ("04 fbf0 0002 c000020b 02 0100", Err(OpenFault::Parameter)),
    (
        "04 fbf0 0002 00000000 00",
        Err(OpenFault::Hold {
            my_as: 64496,
            four: None,
        }),
    ),
    (
        "04 fbf0 0001 c000020b 00",
        Err(OpenFault::Hold {
            my_as: 64496,
            four: None,
        }),
    ),
    (
        "04 fbf0 0002 c000020b 08 0206 4104 0000fbf0",
        Err(OpenFault::Hold {
            my_as: 64496,
            four: Some(64496),
        }),
    ),
    (
        "04 fbf0 005a 00000000 00",
        Err(OpenFault::Identifier {
            my_as: 64496,
            four: None,
        }),
    ),
    (
        "04 fbf0 005a 00000000 08 0206 4104 fa56ea00",
        Err(OpenFault::Identifier {
            my_as: 64496,
            four: Some(4_200_000_000),
        }),
    ),
];

/// OPENs as routers send them: the number of the AS, and the extended messages.
///
/// The capabilities, each by its RFC: 1 multiprotocol extensions (4760), 2 route refresh (2918), 6
/// extended messages (8654), 9 role (9234), 64 graceful restart (4724), 65 four-octet AS numbers
/// (6793), 69 ADD-PATH (7911), 70 enhanced route refresh (7313), 71 long-lived graceful restart
/// (9494), 73 host name and 128 route refresh before its RFC, which have none.
static OF_OTHERS: [Row; 4] = [
    (
        // BIRD: one parameter
        "04 fbf0 00f0 c000020b 2b 0229 0104 0001 0001 0200 0600 4006 0078 0001 01 00 4104 0000fbf0 \
         4504 0001 01 01 4600 4707 0001 01 00 000e10",
        Ok(Open {
            hold: 240,
            long: true,
            ..A
        }),
    ),
    (
        // FRR: a parameter for each capability
        "04 5ba0 00b4 c000020b 37 0206 0104 0001 0001 0202 8000 0202 0200 0202 4600 \
         0206 4104 fa56ea00 0202 0600 0206 4504 0001 01 01 0207 4905 03 727472 00 0204 4002 8078",
        Ok(Open {
            my_as: 23456,
            four: Some(4_200_000_000),
            hold: 180,
            long: true,
            ..A
        }),
    ),
    (
        // OpenBGPD: one parameter
        "04 fbf0 005a c000020b 19 0217 0104 0001 0001 0200 0901 02 4002 0000 4104 0000fbf0 4600",
        Ok(A),
    ),
    (
        // GoBGP: two parameters
        "04 fbf0 005a c000020b 1b 0208 0200 0104 0001 0001 020f 4104 0000fbf0 4907 05 676f626770 00",
        Ok(A),
    ),
];

#[test]
fn reads_opens(rt: HostRuntime) {
    are_read(&rt, rt.alloc(), &OPENS);
    are_read(&rt, rt.alloc(), &REFUSED);
    are_read(&rt, rt.alloc(), &OF_OTHERS);
}
