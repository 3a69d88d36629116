//! What an OPEN says (RFC 4271, 4.2), and what is wrong with one (RFC 4271, 6.2).

use thiserror::Error;

/// What a good OPEN says.
#[derive(Clone, Copy, Debug, PartialEq, Eq)]
pub struct Open {
    /// The field My Autonomous System.
    pub my_as: u16,
    /// The AS number of the capability for four-octet AS numbers (RFC 6793, 3), where it is there.
    pub four: Option<u32>,
    /// The Hold Time, in seconds: 0, or at least 3.
    pub hold: u16,
    /// The BGP Identifier, not 0.
    pub identifier: u32,
    /// The peer takes messages of up to 65,535 octets (RFC 8654, 3).
    pub long: bool,
}

/// The first thing that is wrong with an OPEN.
///
/// The AS number is not judged here. It would be judged after the parameters and before the Hold
/// Time, so the two faults that come later bring what is needed for it.
#[derive(Clone, Copy, Debug, PartialEq, Eq, Error)]
pub enum OpenFault {
    #[error("version number is not 4")]
    Version,
    #[error("malformed optional parameters")]
    Malformed,
    #[error("unsupported optional parameter")]
    Parameter,
    #[error("hold time is 1 or 2 seconds")]
    Hold { my_as: u16, four: Option<u32> },
    #[error("BGP identifier is 0.0.0.0")]
    Identifier { my_as: u16, four: Option<u32> },
}
