//! Texts of faults: the longest, and those that are shown. Of configurations they are played, by `tools/plays/faults.py`.

use super::*;

/// A fault is written as this text, and shown as the same.
fn is_written(rt: &impl Abort, alloc: Global, fault: &ConfigFault, want: &str) {
    let mut out = [b'.'; 96];
    let len = fault.write(&mut out);
    equals(rt, &out[..len], want.as_bytes());
    let shown = format!(in alloc; "{fault}").expect(rt, "a text");
    equals(rt, shown.as_str(), want);
}

/// Faults at the farthest places, which have the longest texts, and one at a near place.
static FAULTS: [(ConfigFault, &str); 3] = [
    (
        ConfigFault::BadValue(Place {
            table: Table::Rule(usize::MAX, List::Export, usize::MAX),
            key: Key::NextHopIsPeer,
        }),
        "bad value client 18446744073709551615 export 18446744073709551615 next_hop_is_peer",
    ),
    (
        ConfigFault::Missing(Place {
            table: Table::Entry(usize::MAX, usize::MAX),
            key: Key::NextHopIsPeer,
        }),
        "missing list 18446744073709551615 next_hop_is_peer 18446744073709551615",
    ),
    (ConfigFault::Twice(3), "twice client 3"),
];

#[test]
fn faults_are_displayed_as_they_are_written(rt: HostRuntime) {
    for (fault, want) in &FAULTS {
        is_written(&rt, rt.alloc(), fault, want);
    }
    let fault = RulesFault::Config(ConfigFault::Twice(3));
    let mut out = [b'.'; 96];
    let len = fault.write(&mut out);
    equals(&rt, &out[..len], b"twice client 3".as_slice());
    let shown = format!(in rt.alloc(); "{fault}").expect(&rt, "a text");
    equals(&rt, shown.as_str(), "twice client 3");
}
