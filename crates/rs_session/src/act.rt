//! What a session answers.

use rs_open::Short;
use thiserror::Error;

/// The state of a session (RFC 4271, 8.2.2). The server is passive, so Connect and Active are not
/// among them.
#[derive(Clone, Copy, Debug, PartialEq, Eq)]
pub enum State {
    /// There is no connection.
    Idle,
    OpenSent,
    OpenConfirm,
    Established,
    /// The session has ended, and its connection is still there.
    Closing,
}

/// What is to be done.
#[derive(Clone, Copy, Debug, PartialEq, Eq)]
pub enum Act {
    None,
    /// This message is due. It is no NOTIFICATION.
    Say(Short),
    /// The session is now Established.
    Up,
    /// The session has ended, with this NOTIFICATION or with none.
    Down(Option<Short>),
    /// The client asks for all routes again (RFC 2918, 4), or the operator for it.
    Again,
}

/// The client has a connection already.
#[derive(Clone, Copy, Debug, PartialEq, Eq, Error)]
#[error("the client has a connection")]
pub struct Busy;
