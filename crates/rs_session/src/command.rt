//! What the operator commands.

use rs_open::ShutdownText;

/// A command of the operator to a session.
#[derive(Clone, Copy, Debug, PartialEq, Eq)]
pub enum Command {
    /// The session ends (RFC 4271, 8.1.2, ManualStop), with this text (RFC 9003).
    Stop(ShutdownText),
    /// The client is told its routes again, as if it had asked (RFC 2918, 4).
    Refresh,
}
