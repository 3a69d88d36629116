//! The NOTIFICATIONs that end a session (RFC 4271, 6).

ghost use Rattle.std.specs.Prelude.{◌≡◌, if◌then◌else◌};
ghost use Rattle.rs_open.specs.Notes.{note_of};
ghost use Rattle.rs_session.specs.Endings as endings;

use rs_octets::{HeaderFault, Notification};
use rs_open::{OpenFault, Short};

/// The NOTIFICATION of a faulty header, with the octets at fault as its data (RFC 4271, 6.1).
pub fn header_note(fault: HeaderFault) -> Short
    ensures { result ≡ endings.header_note fault }
{
    match fault {
        HeaderFault::Marker => Short::of(Notification::ConnectionNotSynchronized),
        HeaderFault::Length(length) => {
            let [high, low] = length.to_be_bytes();
            let name = Notification::BadMessageLength;
            Short::note_2(name.code(), name.sub(), high, low)
        }
        HeaderFault::Kind(kind) => {
            let name = Notification::BadMessageType;
            Short::note_1(name.code(), name.sub(), kind)
        }
    }
}

/// The AS number of an OPEN is that of the client: the capability's where it is there, else My AS.
pub fn is_from_as(peer_as: u32, my_as: u16, four: Option<u32>) -> bool
    ensures { result ≡ endings.is_from_as peer_as my_as four }
{
    match four {
        Some(four) => four == peer_as,
        None => u32::from(my_as) == peer_as,
    }
}

/// The NOTIFICATION of an OPEN of another AS.
pub fn bad_peer_as() -> Short
    ensures { result ≡ endings.bad_peer_as }
{
    Short::of(Notification::BadPeerAs)
}

/// The NOTIFICATION of a fault of the Hold Time or the identifier, which the AS number is judged
/// before.
fn behind_as(peer_as: u32, my_as: u16, four: Option<u32>, name: Notification) -> Short
    ensures { result ≡ (if endings.is_from_as peer_as my_as four
        then note_of name
        else endings.bad_peer_as) }
{
    if is_from_as(peer_as, my_as, four) {
        Short::of(name)
    } else {
        bad_peer_as()
    }
}

/// The NOTIFICATION of a faulty OPEN (RFC 4271, 6.2). The data of the version is the one that we
/// speak.
pub fn open_note(peer_as: u32, fault: OpenFault) -> Short
    ensures { result ≡ endings.open_note peer_as fault }
{
    match fault {
        OpenFault::Version => {
            let name = Notification::UnsupportedVersionNumber;
            Short::note_2(name.code(), name.sub(), 0, 4)
        }
        OpenFault::Malformed => Short::of(Notification::OpenMessageError),
        OpenFault::Parameter => Short::of(Notification::UnsupportedOptionalParameter),
        OpenFault::Hold { my_as, four } => {
            behind_as(peer_as, my_as, four, Notification::UnacceptableHoldTime)
        }
        OpenFault::Identifier { my_as, four } => {
            behind_as(peer_as, my_as, four, Notification::BadBgpIdentifier)
        }
    }
}

/// The NOTIFICATION of a message that is not expected (RFC 4271, 6.6).
pub fn unexpected() -> Short
    ensures { result ≡ endings.unexpected }
{
    Short::of(Notification::FiniteStateMachineError)
}

/// The NOTIFICATION of a hold timer that has run out (RFC 4271, 6.5).
pub fn expired() -> Short
    ensures { result ≡ endings.expired }
{
    Short::of(Notification::HoldTimerExpired)
}
