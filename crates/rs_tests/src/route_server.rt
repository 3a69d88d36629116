//! Worked examples of a small exchange, by calls of the core and over a link in memory. What is seen in what members are
//! sent is in recorded sessions: `examples/sessions`, of which `busy`, `busy_session_stays`, `limit_of_prefixes`,
//! `limit_of_prefixes_is_kept`, `shut_down_with_a_text`, `shut_down_before_the_open` and `told_again_by_the_operator` are how
//! sessions come up, are commanded and end. A link that takes nothing, or fails, is one of `record`.

mod asking;
mod cycling;
mod driving;
mod endings;
mod exchange;
mod link;
mod tables;
mod turns;
