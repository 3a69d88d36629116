//! Rules that are read again while the server runs.

use crate::common::is;
use crate::live::rounds::{
    ANNOUNCING, COMING_UP, KEEPALIVE, MEMBER_B, OPEN_S, THREE, TWO_SESSIONS, UPDATE, WITHDRAWAL,
    served,
};
use crate::live::script::{Member, Script};
use rs_live::ports::Line;
use rs_live::serve::Limits;
use rs_reports::reports::Report;
use rs_streams::file_watch::FileFault;

/// The same members, and what a sends goes to nobody.
pub const NOTHING_OF_A: &str = "as = 64500\nidentifier = \"192.0.2.1\"\n\
[[client]]\nname = \"a\"\nas = 64496\nlisten = \"127.0.0.1:17901\"\npeer = \"192.0.2.11\"\nimport = [{ action = \"drop\" }]\n\
[[client]]\nname = \"b\"\nas = 64497\nlisten = \"127.0.0.1:17902\"\npeer = \"192.0.2.12\"\n\
[[client]]\nname = \"c\"\nas = 64498\nlisten = \"127.0.0.1:17902\"\npeer = \"192.0.2.13\"\n";

/// a announces a route, and b closes once it was withdrawn again.
static MEMBERS: [Member; 2] = [
    Member {
        until: COMING_UP,
        stays: 30,
        ..ANNOUNCING
    },
    Member {
        until: COMING_UP + 47 + 27,
        ..MEMBER_B
    },
];

/// The file is looked at in each second round, and what a sends goes to nobody from the tenth round on. At its first
/// reading the file is read, or it isn't, which is told.
#[test]
fn a_text_is_handed_over_at_first_and_when_it_changes(rt: HostRuntime) {
    let no_file = FileFault::NoFile(0);
    for (unread, tellings) in [(None, 0), (Some(no_file), 1)] {
        let mut ports = Script::new(rt.alloc());
        for member in &MEMBERS {
            ports.join(&rt, *member);
        }
        ports.text = THREE.as_bytes();
        ports.later = Some((10, NOTHING_OF_A.as_bytes()));
        ports.unread = unread;
        let limits = Limits {
            reload: Some(2),
            ..TWO_SESSIONS
        };
        served(&rt, rt.alloc(), &mut ports, limits);
        ports.hears(&rt, 1, &[OPEN_S, KEEPALIVE, UPDATE, WITHDRAWAL]);
        // the first reading, and the one behind the change; b was sent the withdrawal while a was there
        is(&rt, ports.says(Line::Rules(Ok(()))), 2, "readings");
        let last = ports.said.last_chunk::<2>().copied();
        let lost = [Line::Lost(1), Line::Lost(0)];
        assert!(rt; last == Some(lost), "the last lines");
        is(&rt, ports.says(Line::File(no_file)), tellings, "lines");
        let reported = ports.reported(&Report::File(no_file));
        is(&rt, reported, tellings, "reports");
        ports.let_go();
    }
}
