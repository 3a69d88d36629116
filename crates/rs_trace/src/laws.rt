//! Laws of what a replay does.

ghost use Rattle.rs_trace.specs.Serving.{ReplaysAreCourses, ReplaysDrain, ReplaysServe};

/// At each point of a replay the route server and the link have come, from the start on, in drives of
/// `rs_core`, one after the other, by just the steps of the link that were done to a course: all that is
/// proved there of drives holds of a replay.
pub fn replays_are_courses()
    ensures { ReplaysAreCourses }
{}

/// Wherever a client is drained at such a point, as at the end, by what `is_drained` of `rs_core` says, it is
/// Established, and the UPDATEs in the octets of its `sent` lines since its connection was last begun mean
/// just the table that is due to it.
pub fn drained_clients_have_what_is_due()
    ensures { ReplaysServe }
{}

/// It is drained where the last lines that were done are a turn, at which memory was not refused for the
/// client, which was Established, room for any clients, and then room for it of at least what was owed to it.
pub fn room_behind_a_turn_drains()
    ensures { ReplaysDrain }
{}
