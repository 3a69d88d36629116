//! Routes that are counted, and many that come in pieces.

use super::{announce, let_go, page, says, says_times, server};
use crate::common::{is_of, is_so};

/// ORIGIN IGP, an empty AS_PATH, NEXT_HOP 192.0.2.12.
static SHORTER: [u8; 14] = [0x40, 1, 1, 0, 0x40, 2, 0, 0x40, 3, 4, 192, 0, 2, 12];

/// ORIGIN IGP, AS_PATH 64497 64498, NEXT_HOP 192.0.2.12.
static LONGER: [u8; 24] = [
    0x40, 1, 1, 0, 0x40, 2, 10, 2, 2, 0, 0, 0xfb, 0xf1, 0, 0, 0xfb, 0xf2, 0x40, 3, 4, 192, 0, 2, 12,
];

/// What becomes of alpha's routes for 198.51.100.0/24, which is longer than beta's, 198.51.101.0/24, which is
/// shorter, and 198.51.102.0/24, which its import list drops; and of beta's three.
static ROUTES_COUNTED: [(&str, &str); 7] = [
    (
        "/protocols/bgp/alpha",
        ",\"routes\":{\"imported\":2,\"filtered\":1,\"exported\":0,\"preferred\":1}}\n}}\n",
    ),
    (
        "/protocols/bgp/beta",
        ",\"routes\":{\"imported\":3,\"filtered\":0,\"exported\":2,\"preferred\":2}}\n}}\n",
    ),
    (
        "/protocols/bgp",
        ",\"routes\":{\"imported\":3,\"filtered\":0,\"exported\":2,\"preferred\":2}}\n}}\n",
    ),
    ("/routes/count/protocol/alpha", ",\"routes\":2}\n"),
    ("/routes/count/protocol/beta", ",\"routes\":3}\n"),
    (
        "/",
        "<td class=number>3<td class=number>1<td class=number>0<td class=number>0</tr>",
    ),
    (
        "/protocols/bgp",
        "\"imported\":2,\"filtered\":1,\"exported\":0,\"preferred\":1}}\n,\"beta\"",
    ),
];

#[test]
fn routes_are_counted(rt: HostRuntime) {
    let mut tables = server(&rt, rt.alloc(), 3);
    announce(&rt, rt.alloc(), &mut tables.others, 0, &SHORTER);
    announce(&rt, rt.alloc(), &mut tables.others, 1, &LONGER);
    announce(&rt, rt.alloc(), &mut tables.others, 2, &LONGER);
    for (target, said) in &ROUTES_COUNTED {
        says(&rt, rt.alloc(), &tables, target, said);
    }
    let_go(tables);
}

/// Targets of a server with 300 routes of alpha, what the page says, and in at least how many pieces it comes.
static MANY: [(&str, &str, usize); 3] = [
    (
        "/protocols/bgp/alpha",
        "{\"imported\":299,\"filtered\":1,\"exported\":0,\"preferred\":299}",
        16,
    ),
    (
        "/members/alpha/received",
        "{\"network\":\"198.52.143.0/24\",",
        3,
    ),
    (
        "/members/alpha/received?count=200",
        "],\"next\":\"198.52.44.0/24\"}\n",
        2,
    ),
];

#[test]
fn many_routes_come_in_pieces(rt: HostRuntime) {
    let tables = server(&rt, rt.alloc(), 300);
    for (target, said, least) in &MANY {
        let (text, pieces) = page(&rt, rt.alloc(), &tables, target);
        is_so(&rt, text.contains(said), text.as_str());
        is_of(&rt, pieces >= *least, true, &(*target, pieces));
    }
    let all = "/members/alpha/received";
    says_times(&rt, rt.alloc(), &tables, all, "\"network\"", 300);
    let front = "/members/alpha/received?count=200";
    says_times(&rt, rt.alloc(), &tables, front, "\"network\"", 200);
    let_go(tables);
}
