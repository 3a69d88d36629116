//! What an operator reads of the live server: `reports`, each of its level, at most one in a second of a kind
//! (`rate_limits`). The words of each are `rs_sockets`'.
//!
//! `logging` is what was asked of the log; `offers` is what an OPEN offered, and `communications` the texts that
//! members send along with a NOTIFICATION (RFC 9003).
#![tactic(auto)]

pub mod communications;
pub mod logging;
pub mod offers;
pub mod rate_limits;
pub mod reports;
