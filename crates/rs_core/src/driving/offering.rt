//! Offers a client what is lent to it, as far as its link has room.

ghost use Rattle.std.specs.Prelude.{◌≡◌, ◌<◌, ◌≤◌, []};
ghost use Rattle.rs_core.specs.Core.{client_count};
ghost use Rattle.rs_core.specs.Drives.Steps.{HasLed};
ghost use Rattle.rs_core.specs.Drives.Courses.{Continues};
ghost use Rattle.rs_core.specs.Drives.Answers.{Answers, Gives, Offers};

use crate::links::{Event, Sink};
use crate::route_server::Core;

/// The link of a client has room for so many octets.
pub(crate) fn use_room<L: Sink>(core: &mut Core, link: &mut L, c: usize, room: u64)
    ensures count { client_count core.new ≡ client_count core.old }
    ensures led { HasLed L.happens link.old link.new }
    ensures answers { Continues L.happens core.old link.old core.new link.new (Answers [] (Event.Room c room)) }
{
    if c < core.clients() {
        give(core, link, c, room);
    }
}

/// Offers a client what is lent to it, until the room is used or nothing is taken.
fn give<L: Sink>(core: &mut Core, link: &mut L, c: usize, room: u64)
    requires { c < client_count core.old }
    ensures count { client_count core.new ≡ client_count core.old }
    ensures led { HasLed L.happens link.old link.new }
    ensures gives { Continues L.happens core.old link.old core.new link.new (Gives c room) }
{
    let mut left = room;
    while left > 0 {
        let taken = offer(core, link, c, left);
        if taken == 0 {
            return;
        }
        left -= taken;
    }
}

/// How many of so many octets there is room for.
fn within(room: u64, len: usize) -> usize
    ensures len { result ≤ len }
    ensures room { result ≤ room }
    ensures full { room ≤ len → result ≡ room }
    ensures all { len ≤ room → result ≡ len }
{
    if room < len as u64 {
        room as usize
    } else {
        len
    }
}

/// Offers a client what is lent to it, as far as there is room. Answers how many octets were taken.
fn offer<L: Sink>(core: &mut Core, link: &mut L, c: usize, room: u64) -> u64
    requires { c < client_count core.old }
    ensures within { result ≤ room }
    ensures count { client_count core.new ≡ client_count core.old }
    ensures led { HasLed L.happens link.old link.new }
    ensures offers { Continues L.happens core.old link.old core.new link.new (Offers c room result) }
{
    core.begin(c);
    let lent = core.lent(c);
    if lent.is_empty() {
        return 0;
    }
    let most = within(room, lent.len());
    match link.offer(c, &lent[..most]) {
        None => {
            core.lost(c);
            0
        }
        Some(n) => {
            core.took(c, n);
            n as u64
        }
    }
}
