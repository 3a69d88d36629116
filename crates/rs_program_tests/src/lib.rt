//! What the public calls that the two programs make do, by values from outside: `live` has the tests of
//! `rs_live`, over ports in memory, `replays` those of `rs_trace`; `common` has what both
//! need. Nothing but tests stands here, and they see what any caller sees.
#![tactic(auto)]

#[cfg(test)]
mod common;
#[cfg(test)]
mod live;
#[cfg(test)]
mod replays;
