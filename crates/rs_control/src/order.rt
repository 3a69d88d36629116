//! What an operator orders of the server's loop.

use rs_open::ShutdownText;

/// An order, which the loop of the server carries out. A member is named by its place in the configuration.
#[derive(Clone, Copy, Debug, PartialEq, Eq)]
pub enum Order {
    /// The member's session ends with Cease / Administrative Shutdown (RFC 4486, 4) and this text (RFC 9003),
    /// and no connection of it is taken.
    Disable(usize, ShutdownText),
    /// Connections of the member are taken again.
    Enable(usize),
    /// The member is told all its routes again.
    Refresh(usize),
    /// The files of the configuration are read at once.
    Reload,
    /// All members' sessions end so, without a text, and the server once all connections are closed, or some
    /// seconds later.
    End,
}
