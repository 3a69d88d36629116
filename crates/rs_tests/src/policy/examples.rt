//! The texts of the repository's examples. They stand here as they stand in `examples/`, which
//! `make examples` compares. What the example of an exchange lets through is played: by `tools/plays/filtering.py`.

use super::*;
use std::process::Abort;

const FOUR_MEMBERS: &str =
    r#"# The four members of the recorded sessions in examples/sessions. The server's OPEN is the shortest
# that there is; a live exchange sets `multiprotocol = true`, as the other examples do.

as = 64500
identifier = "192.0.2.1"
hold = 90

[[client]]
name = "a"
as = 64496
listen = "127.0.0.1:17901"
peer = "192.0.2.11"

[[client]]
name = "b"
as = 64497
listen = "127.0.0.1:17902"
peer = "192.0.2.12"

[[client]]
name = "c"
as = 64498
listen = "127.0.0.1:17903"
peer = "192.0.2.13"

[[client]]
name = "d"
as = 64499
listen = "127.0.0.1:17904"
peer = "192.0.2.14"
"#;

const SMALL: &str =
    r#"# A small exchange on loopback: two members, and every route of one goes to the other.

as = 64500
identifier = "192.0.2.1"
multiprotocol = true

[[client]]
name = "alpha"
as = 64496
listen = "127.0.0.1:17901"
peer = "127.0.0.1"

[[client]]
name = "beta"
as = 64497
listen = "127.0.0.1:17902"
peer = "127.0.0.1"
"#;

const EXCHANGE: &str =
    r#"# An exchange of three members. The server is 192.0.2.1 in the exchange's network 192.0.2.0/24. What the
# members registered is a file of its own, which a job writes anew:
#
#   rs_served --config exchange.toml --config exchange.lists.toml --reload 1
#
# Each import list drops bogons, prefixes that are too short or too long, routes whose NEXT_HOP is not
# their sender, and what the member has not registered. Each export list reads action communities, which
# it takes away; large ones (RFC 8092) name members with a four-octet AS number too:
#   0:64500     64500:0:0      to no member
#   0:AS        64500:0:AS     not to the member of this AS
#   64500:AS    64500:1:AS     to the member of this AS all the same

as = 64500
identifier = "192.0.2.1"
hold = 90
default = "pass"
extended = true
refresh = true
multiprotocol = true

[[client]]
name = "alpha"
as = 64496
listen = "192.0.2.1:179"
peer = "192.0.2.11"
limit = 20000
import = [
    { use = "filters" },
    { prefix_in = "alpha", origin_in = "alpha", action = "pass" },
    { action = "drop" },
]
export = [{ use = "actions" }]

[[client]]
name = "beta"
as = 64497
listen = "192.0.2.1:179"
peer = "192.0.2.12"
limit = 20000
import = [
    { use = "filters" },
    { prefix_in = "beta", origin_in = "beta", action = "pass" },
    { action = "drop" },
]
export = [{ use = "actions" }]

[[client]]
name = "gamma"
as = 65551
listen = "192.0.2.1:179"
peer = "192.0.2.13"
limit = 20000
import = [
    { use = "filters" },
    { prefix_in = "gamma", origin_in = "gamma", action = "pass" },
    { action = "drop" },
]
export = [{ use = "actions" }]

[[rules]]
name = "filters"
rules = [
    { prefix = "0.0.0.0/8", max = 32, action = "drop" }, # this network (RFC 791)
    { prefix = "10.0.0.0/8", max = 32, action = "drop" }, # private (RFC 1918)
    { prefix = "100.64.0.0/10", max = 32, action = "drop" }, # shared by carriers (RFC 6598)
    { prefix = "127.0.0.0/8", max = 32, action = "drop" }, # loopback (RFC 1122)
    { prefix = "169.254.0.0/16", max = 32, action = "drop" }, # link local (RFC 3927)
    { prefix = "172.16.0.0/12", max = 32, action = "drop" }, # private (RFC 1918)
    { prefix = "192.0.0.0/24", max = 32, action = "drop" }, # protocol assignments (RFC 6890)
    { prefix = "192.0.2.0/24", max = 32, action = "drop" }, # the exchange's own network
    { prefix = "192.168.0.0/16", max = 32, action = "drop" }, # private (RFC 1918)
    { prefix = "198.18.0.0/15", max = 32, action = "drop" }, # benchmarks (RFC 2544)
    { prefix = "224.0.0.0/3", max = 32, action = "drop" }, # multicast and reserved (RFC 5771, RFC 1112)
    { prefix = "0.0.0.0/0", max = 7, action = "drop" }, # shorter than /8
    { prefix = "0.0.0.0/0", min = 25, max = 32, action = "drop" }, # longer than /24
    { next_hop_is_peer = false, action = "drop" },
    { path_has = 23456, action = "drop" }, # AS_TRANS (RFC 6793)
]

[[rules]]
name = "actions"
rules = [
    { community = "64500:peer", action = "pass", strip = ["0:*", "64500:*"], strip_large = ["64500:*:*"] },
    { large_community = "64500:1:peer", action = "pass", strip = ["0:*", "64500:*"], strip_large = ["64500:*:*"] },
    { community = "0:peer", action = "drop" },
    { large_community = "64500:0:peer", action = "drop" },
    { community = "0:64500", action = "drop" },
    { large_community = "64500:0:0", action = "drop" },
    { action = "pass", strip = ["0:*", "64500:*"], strip_large = ["64500:*:*"] },
]
"#;

const EXCHANGE_LISTS: &str =
    r#"# What the members of the exchange registered: the prefixes that they may announce, and the AS that they
# may come from. Here documentation's own (RFC 5737, RFC 5398).

[[list]]
name = "alpha"
prefixes = ["198.51.100.0/24"]
ases = [64496]

[[list]]
name = "beta"
prefixes = ["203.0.113.0/24"]
ases = [64497, 64498]

[[list]]
name = "gamma"
prefixes = []
ases = [65551]
"#;

/// What is asked for in the name, the AS number, the two addresses with the port between them, and the limit of a client.
fn client_line(rt: &impl Abort, alloc: Global, config: &Config, client: usize) -> String {
    assert!(rt; client < config.clients());
    let name = config.name(client);
    equals(rt, config.place(name), Some(client));
    let (listen, port) = config.listen(client);
    format!(in alloc;
        "{name} {} {listen:x} {port} {:x} {:?}; ",
        config.client_as(client),
        config.peer(client),
        config.limit(client)
    )
    .expect(rt, "a text")
}

/// What a configuration says of the server, and then of each client.
fn shown(rt: &impl Abort, alloc: Global, config: &Config) -> String {
    let mut text = format!(in alloc;
        "{} {:x} {} {} {} {}; ",
        config.server_as(),
        config.identifier(),
        config.hold(),
        config.extended(),
        config.refresh(),
        config.multiprotocol()
    )
    .expect(rt, "a text");
    for client in 0..config.clients() {
        let line = client_line(rt, alloc, config, client);
        text.push_str(line.as_str()).expect(rt, "a text");
    }
    text
}

/// The examples in their parts; of each what it says: AS number, BGP Identifier and Hold Time of the server, whether it speaks of long
/// messages, of route refresh and of address families, and then its clients.
static EXAMPLES: [(&[&str], &str); 3] = [
    (
        &[FOUR_MEMBERS],
        "64500 c0000201 90 false false false; \
         a 64496 7f000001 17901 c000020b None; b 64497 7f000001 17902 c000020c None; \
         c 64498 7f000001 17903 c000020d None; d 64499 7f000001 17904 c000020e None; ",
    ),
    (
        &[SMALL],
        "64500 c0000201 90 false false true; \
         alpha 64496 7f000001 17901 7f000001 None; beta 64497 7f000001 17902 7f000001 None; ",
    ),
    (
        &[EXCHANGE, EXCHANGE_LISTS],
        "64500 c0000201 90 true true true; \
         alpha 64496 c0000201 179 c000020b Some(20000); beta 64497 c0000201 179 c000020c Some(20000); \
         gamma 65551 c0000201 179 c000020d Some(20000); ",
    ),
];

#[test]
fn the_examples_are_read(rt: HostRuntime) {
    for (parts, want) in &EXAMPLES {
        let config = read_parts(&rt, rt.alloc(), parts);
        equals(&rt, shown(&rt, rt.alloc(), &config).as_str(), *want);
        is_so(&rt, config.place("e").is_none(), "no client e");
        let_go(config);
    }
}
