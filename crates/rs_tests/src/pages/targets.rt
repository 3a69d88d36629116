//! What each page says, which pages there are none of, and what rules keep.

use super::{let_go, page, says, says_times, server};
use crate::common::is;

/// Targets of a server with two members, of which alpha has announced 198.51.100.0/24 and 198.51.101.0/24 and
/// beta takes no 198.51.100.0/24; and what the page says.
static SAID: [(&str, &str); 34] = [
    (
        "/",
        "<a href=\"/members/alpha\">alpha</a><td>64496<td>192.0.2.11<td class=up>up<td>2001-09-09T01:46:45Z<td class=number>2<td class=number>0<td class=number>0<td class=number>0</tr>",
    ),
    ("/", "<a href=\"/members/beta\">beta</a>"),
    ("/members/beta", "<h1>beta</h1>"),
    (
        "/members/beta",
        "The last session that ended: NOTIFICATION heard: Cease, Administrative Shutdown (6, 2).",
    ),
    (
        "/members/beta",
        "<input type=hidden name=to value=\"beta\">",
    ),
    (
        "/status",
        "\"status\":{\"router_id\":\"192.0.2.1\",\"server_time\":\"2001-09-09T01:47:45Z\",\"last_reboot\":\"2001-09-09T01:46:40Z\",\"last_reconfig\":\"2001-09-09T01:46:40Z\",\"message\":",
    ),
    (
        "/protocols/bgp",
        "\"protocols\":{\"alpha\":{\"protocol\":\"alpha\",\"bird_protocol\":\"BGP\",\"state\":\"up\",\"state_changed\":\"2001-09-09T01:46:45Z\",\"description\":\"alpha\",\"neighbor_address\":\"192.0.2.11\",\"neighbor_as\":64496,\"bgp_state\":\"Established\",\"uptime\":60,\"last_error\":\"\",\"routes\":{\"imported\":2,\"filtered\":0,\"exported\":0,\"preferred\":2}}",
    ),
    ("/protocols/bgp", ",\"beta\":{\"protocol\":\"beta\","),
    (
        "/protocols/bgp",
        "\"routes\":{\"imported\":0,\"filtered\":0,\"exported\":1,\"preferred\":0}}\n}}\n",
    ),
    (
        "/routes/protocol/alpha",
        "\"routes\":[{\"network\":\"198.51.100.0/24\",\"gateway\":\"192.0.2.11\",\"from_protocol\":\"alpha\",\"learnt_from\":\"192.0.2.11\",\"age\":\"2001-09-09T01:46:45Z\",\"metric\":100,\"primary\":false,\"type\":[\"BGP\",\"unicast\",\"univ\"],\"bgp\":{\"origin\":\"IGP\",\"as_path\":[\"64496\"],\"next_hop\":\"192.0.2.11\",\"med\":\"7\",\"local_pref\":\"100\",\"communities\":[[64500,1]],\"large_communities\":[],\"ext_communities\":[]}}\n,{\"network\":\"198.51.101.0/24\",",
    ),
    ("/routes/protocol/beta", "\"routes\":[]}\n"),
    ("/routes/count/protocol/alpha", "\"routes\":2}\n"),
    (
        "/routes/prefix?prefix=198.51.101.0/24",
        "\"routes\":[{\"network\":\"198.51.101.0/24\",\"gateway\":\"192.0.2.11\",\"from_protocol\":\"alpha\"",
    ),
    (
        "/routes/prefix?prefix=198.51.101.0%2F24",
        "\"routes\":[{\"network\":\"198.51.101.0/24\"",
    ),
    ("/routes/prefix?prefix=198.51.101.0/25", "\"routes\":[]}\n"),
    (
        "/members/alpha/received?count=1",
        "{\"member\":\"alpha\",\"table\":\"received\",\"routes\":[{\"network\":\"198.51.100.0/24\"",
    ),
    (
        "/members/alpha/received?count=1",
        "],\"next\":\"198.51.101.0/24\"}\n",
    ),
    (
        "/members/alpha/received?from=198.51.100.128/25",
        "\"routes\":[{\"network\":\"198.51.101.0/24\"",
    ),
    (
        "/members/alpha/received?count=0",
        "\"routes\":[],\"next\":\"198.51.100.0/24\"}\n",
    ),
    ("/members/alpha/received", "],\"next\":null}\n"),
    (
        "/members/beta/sent",
        "\"table\":\"sent\",\"routes\":[{\"network\":\"198.51.101.0/24\",\"gateway\":\"192.0.2.11\",\"bgp\":{",
    ),
    ("/", "<form action=\"/search\">"),
    (
        "/members/alpha",
        "<a href=\"/members/alpha/received.html\">Routes received</a>, <a href=\"/members/alpha/sent.html\">routes sent</a>",
    ),
    (
        "/members/alpha/received.html",
        "<tr><td>198.51.100.0/24<td>192.0.2.11<td>64496<td class=number>7<td>64500:1</tr>\n<tr><td>198.51.101.0/24<td>",
    ),
    (
        "/members/alpha/received.html?count=1",
        "64500:1</tr>\n</table>\n<p><a href=\"/members/alpha/received.html?from=198.51.101.0/24&amp;count=1\">More</a></p>\n</html>\n",
    ),
    ("/members/beta/sent.html", "<h1>beta: routes sent</h1>"),
    (
        "/search?prefix=198.51.101.0%2F24",
        "<tr><td><a href=\"/members/alpha\">alpha</a><td>192.0.2.11<td>64496<td class=number>7<td>64500:1<td><a href=\"/why?to=alpha&amp;prefix=198.51.101.0/24\">why</a></tr>\n</table>\n</html>\n",
    ),
    ("/search?prefix=198.51.101.0/25", "<h1>198.51.101.0/25</h1>"),
    (
        "/why?to=beta&prefix=198.51.101.0/24",
        "{\"to\":\"beta\",\"prefix\":\"198.51.101.0/24\",\"candidates\":[{\"from\":\"alpha\",\"as\":64496,\"next_hop\":\"192.0.2.11\",\"outcome\":\"chosen\",\"rules\":[{\"list\":\"import\",\"of\":\"alpha\",\"rule\":null,\"passes\":true},{\"list\":\"export\",\"of\":\"beta\",\"rule\":null,\"passes\":true}]}\n]}\n",
    ),
    (
        "/why?to=beta&prefix=198.51.100.0/24",
        "\"outcome\":\"dropped\",\"rules\":[{\"list\":\"import\",\"of\":\"alpha\",\"rule\":null,\"passes\":true},{\"list\":\"export\",\"of\":\"beta\",\"rule\":1,\"passes\":false}]}",
    ),
    (
        "/why?to=alpha&prefix=198.51.100.0/24",
        "\"outcome\":\"own\"}",
    ),
    ("/metrics", "rs_member_up{member=\"beta\"} 1\n"),
    (
        "/metrics",
        "rs_member_refused_prefixes{member=\"beta\"} 0\n",
    ),
    (
        "/metrics",
        "rs_member_received_prefixes{member=\"alpha\"} 2\n",
    ),
];

/// Targets of a server to which alpha has announced 198.51.102.0/24 too, which its import list drops; what the page says of the routes
/// that it lists, and how many they are.
static KEPT: [(&str, &str, usize); 5] = [
    ("/routes/protocol/beta", "\"routes\":[]}\n", 0),
    (
        "/routes/filtered/alpha",
        "\"routes\":[{\"network\":\"198.51.102.0/24\",\"gateway\":\"192.0.2.11\",\"from_protocol\":\"alpha\",",
        1,
    ),
    ("/routes/filtered/beta", "\"routes\":[]}\n", 0),
    ("/routes/noexport/alpha", "\"routes\":[]}\n", 0),
    (
        "/routes/noexport/beta",
        "\"routes\":[{\"network\":\"198.51.100.0/24\",\"gateway\":\"192.0.2.11\",\"from_protocol\":\"alpha\",",
        1,
    ),
];

/// Targets that name no page.
static NONE: [&str; 16] = [
    "",
    "//",
    "/status/",
    "/none",
    "/members/",
    "/members/gamma",
    "/members/alpha/",
    "/members/alpha/told",
    "/members/alpha/received?count=10001",
    "/members/alpha/received?from=198.51.100.1/24",
    "/members/alpha/received.html?count=10001",
    "/search",
    "/routes/protocol/",
    "/routes/prefix?prefix=198.51.100.0/33",
    "/why?to=beta",
    "/why?to=gamma&prefix=198.51.100.0/24",
];

#[test]
fn each_page_says(rt: HostRuntime) {
    let tables = server(&rt, rt.alloc(), 2);
    for (target, said) in &SAID {
        says(&rt, rt.alloc(), &tables, target, said);
    }
    let_go(tables);
}

#[test]
fn what_rules_keep_is_listed(rt: HostRuntime) {
    let tables = server(&rt, rt.alloc(), 3);
    for (target, said, count) in &KEPT {
        says(&rt, rt.alloc(), &tables, target, said);
        says_times(&rt, rt.alloc(), &tables, target, "\"network\"", *count);
    }
    let_go(tables);
}

#[test]
fn there_are_no_others(rt: HostRuntime) {
    let tables = server(&rt, rt.alloc(), 1);
    for target in &NONE {
        let (_, pieces) = page(&rt, rt.alloc(), &tables, target);
        is(&rt, pieces, 0, target);
    }
    let_go(tables);
}
