//! The one table of error codes and subcodes by name (RFC 4271, 4.5 and 6; RFC 4486; RFC 5492;
//! RFC 6608).

ghost use Rattle.std.specs.Prelude.{◌≡◌, ◌↔◌, IsTrue, IfSome, IfNone};
ghost use Rattle.rs_octets.specs.Names.{code_of, sub_of, IsNamed};
ghost use Rattle.rs_octets.specs.declared.notification.Notification.{Notification};

use Notification::*;
use std::fmt;

/// What a NOTIFICATION is about: an error code and a subcode, by name. Subcode 0 is that of an error
/// code without a more exact one.
#[derive(Clone, Copy, Debug, PartialEq, Eq)]
pub enum Notification {
    MessageHeaderError,
    ConnectionNotSynchronized,
    BadMessageLength,
    BadMessageType,
    OpenMessageError,
    UnsupportedVersionNumber,
    BadPeerAs,
    BadBgpIdentifier,
    UnsupportedOptionalParameter,
    UnacceptableHoldTime,
    UnsupportedCapability,
    UpdateMessageError,
    MalformedAttributeList,
    UnrecognizedWellKnownAttribute,
    MissingWellKnownAttribute,
    AttributeFlagsError,
    AttributeLengthError,
    InvalidOriginAttribute,
    InvalidNextHopAttribute,
    OptionalAttributeError,
    InvalidNetworkField,
    MalformedAsPath,
    HoldTimerExpired,
    FiniteStateMachineError,
    UnexpectedInOpenSent,
    UnexpectedInOpenConfirm,
    UnexpectedInEstablished,
    Cease,
    MaximumPrefixesReached,
    AdministrativeShutdown,
    PeerDeconfigured,
    AdministrativeReset,
    ConnectionRejected,
    OtherConfigurationChange,
    ConnectionCollisionResolution,
    OutOfResources,
}

/// Every name.
static NAMES: [Notification; 36] = [
    MessageHeaderError,
    ConnectionNotSynchronized,
    BadMessageLength,
    BadMessageType,
    OpenMessageError,
    UnsupportedVersionNumber,
    BadPeerAs,
    BadBgpIdentifier,
    UnsupportedOptionalParameter,
    UnacceptableHoldTime,
    UnsupportedCapability,
    UpdateMessageError,
    MalformedAttributeList,
    UnrecognizedWellKnownAttribute,
    MissingWellKnownAttribute,
    AttributeFlagsError,
    AttributeLengthError,
    InvalidOriginAttribute,
    InvalidNextHopAttribute,
    OptionalAttributeError,
    InvalidNetworkField,
    MalformedAsPath,
    HoldTimerExpired,
    FiniteStateMachineError,
    UnexpectedInOpenSent,
    UnexpectedInOpenConfirm,
    UnexpectedInEstablished,
    Cease,
    MaximumPrefixesReached,
    AdministrativeShutdown,
    PeerDeconfigured,
    AdministrativeReset,
    ConnectionRejected,
    OtherConfigurationChange,
    ConnectionCollisionResolution,
    OutOfResources,
];

impl Notification {
    /// What is known of a name: its error code, its subcode and its text.
    fn row(self) -> (u8, u8, &'static str)
        ensures code { result.0 ≡ code_of self }
        ensures sub { result.1 ≡ sub_of self }
    {
        match self {
            // RFC 4271, 6.1
            MessageHeaderError => (1, 0, "Message Header Error"),
            ConnectionNotSynchronized => (1, 1, "Connection Not Synchronized"),
            BadMessageLength => (1, 2, "Bad Message Length"),
            BadMessageType => (1, 3, "Bad Message Type"),
            // RFC 4271, 6.2; RFC 5492, 5
            OpenMessageError => (2, 0, "OPEN Message Error"),
            UnsupportedVersionNumber => (2, 1, "Unsupported Version Number"),
            BadPeerAs => (2, 2, "Bad Peer AS"),
            BadBgpIdentifier => (2, 3, "Bad BGP Identifier"),
            UnsupportedOptionalParameter => (2, 4, "Unsupported Optional Parameter"),
            UnacceptableHoldTime => (2, 6, "Unacceptable Hold Time"),
            UnsupportedCapability => (2, 7, "Unsupported Capability"),
            // RFC 4271, 6.3
            UpdateMessageError => (3, 0, "UPDATE Message Error"),
            MalformedAttributeList => (3, 1, "Malformed Attribute List"),
            UnrecognizedWellKnownAttribute => (3, 2, "Unrecognized Well-known Attribute"),
            MissingWellKnownAttribute => (3, 3, "Missing Well-known Attribute"),
            AttributeFlagsError => (3, 4, "Attribute Flags Error"),
            AttributeLengthError => (3, 5, "Attribute Length Error"),
            InvalidOriginAttribute => (3, 6, "Invalid ORIGIN Attribute"),
            InvalidNextHopAttribute => (3, 8, "Invalid NEXT_HOP Attribute"),
            OptionalAttributeError => (3, 9, "Optional Attribute Error"),
            InvalidNetworkField => (3, 10, "Invalid Network Field"),
            MalformedAsPath => (3, 11, "Malformed AS_PATH"),
            // RFC 4271, 6.5
            HoldTimerExpired => (4, 0, "Hold Timer Expired"),
            // RFC 4271, 6.6; RFC 6608
            FiniteStateMachineError => (5, 0, "Finite State Machine Error"),
            UnexpectedInOpenSent => (5, 1, "Receive Unexpected Message in OpenSent State"),
            UnexpectedInOpenConfirm => (5, 2, "Receive Unexpected Message in OpenConfirm State"),
            UnexpectedInEstablished => (5, 3, "Receive Unexpected Message in Established State"),
            // RFC 4271, 6.7; RFC 4486
            Cease => (6, 0, "Cease"),
            MaximumPrefixesReached => (6, 1, "Maximum Number of Prefixes Reached"),
            AdministrativeShutdown => (6, 2, "Administrative Shutdown"),
            PeerDeconfigured => (6, 3, "Peer De-configured"),
            AdministrativeReset => (6, 4, "Administrative Reset"),
            ConnectionRejected => (6, 5, "Connection Rejected"),
            OtherConfigurationChange => (6, 6, "Other Configuration Change"),
            ConnectionCollisionResolution => (6, 7, "Connection Collision Resolution"),
            OutOfResources => (6, 8, "Out of Resources"),
        }
    }

    /// The error code.
    pub fn code(self) -> u8
        ensures { result ≡ code_of self }
    {
        self.row().0
    }

    /// The subcode.
    pub fn sub(self) -> u8
        ensures { result ≡ sub_of self }
    {
        self.row().1
    }

    /// Whether it is the name of this error code and this subcode.
    fn has(self, code: u8, sub: u8) -> bool
        ensures { IsTrue result ↔ IsNamed self code sub }
    {
        self.code() == code && self.sub() == sub
    }

    /// The name of an error code and a subcode, where there is one.
    pub fn named(code: u8, sub: u8) -> Option<Notification>
        ensures some { IfSome result (λ name. IsNamed name code sub) }
        ensures none { IfNone result ((name : Notification) → IsNamed name code sub → ⊥) }
    {
        for name in &NAMES {
            if name.has(code, sub) {
                return Some(*name);
            }
        }
        None
    }
}

/// As in `OPEN Message Error, Bad Peer AS (2, 2)`.
impl fmt::Display for Notification {
    fn fmt<W: fmt::Write>(&self, f: &mut fmt::Formatter<W>) -> fmt::Result {
        let (code, sub, text) = self.row();
        match Notification::named(code, 0) {
            Some(error) if sub != 0 => write!(f, "{}, {text} ({code}, {sub})", error.row().2),
            _ => write!(f, "{text} ({code}, {sub})"),
        }
    }
}
