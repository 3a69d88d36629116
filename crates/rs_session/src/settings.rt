//! What is configured of a session.

/// What is configured of a session.
#[derive(Clone, Copy, Debug, PartialEq, Eq)]
pub struct Settings {
    /// The AS number of the client.
    pub peer_as: u32,
    /// The server's Hold Time, in seconds; 0 for none.
    pub hold: u16,
    /// Messages of up to 65,535 octets are sent to a client that takes them (RFC 8654).
    pub extended: bool,
}
