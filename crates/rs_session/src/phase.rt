//! The phase of a session, and what a message, a moment or a command makes of it.

ghost use Rattle.std.specs.Prelude.{◌≡◌, ◌-◌, nat_le, Some, None};
ghost use Rattle.rs_session.specs.Steps.{first_step, second_step, later_step, quiet_for, tick, wait, obey};
ghost use Rattle.rs_session.specs.declared.phase.Phase.TheVariants as phases;

use crate::act::Act;
use crate::command::Command;
use crate::faults::{bad_peer_as, expired, header_note, is_from_as, open_note, unexpected};
use crate::heard::Heard;
use rs_open::{Open, Short};

/// The seconds that we wait for the peer's OPEN (RFC 4271, 8.2.2, suggests four minutes).
pub const OPEN_WAIT: u16 = 240;

/// The address family IPv4 (RFC 2918, 3; RFC 4760, 3).
const IPV4: u16 = 1;

/// The subsequent address family of unicast routes.
const UNICAST: u8 = 1;

/// A client whose OPEN was accepted.
#[derive(Clone, Copy, Debug)]
pub struct Peer {
    /// The OPEN that it sent.
    pub sent: Open,
    /// A KEEPALIVE came after the OPEN.
    pub confirmed: bool,
    /// When the hold timer was last restarted.
    pub hold_timer_since: u64,
    /// When a KEEPALIVE last fell due.
    pub keepalive_timer_since: u64,
}

#[derive(Clone, Copy, Debug)]
pub enum Phase {
    Idle,
    /// Our OPEN was said, and the peer's was not heard yet.
    OpenSent { since: u64 },
    /// OpenConfirm, or Established where the peer is confirmed.
    Agreed(Peer),
    Closing,
}

/// The first message of a session: an OPEN is expected.
pub fn first(peer_as: u32, now: u64, heard: Heard) -> (Phase, Act)
    ensures { result ≡ first_step peer_as now heard }
{
    match heard {
        Heard::Open(Ok(sent)) => {
            if !is_from_as(peer_as, sent.my_as, sent.four) {
                return ended(bad_peer_as());
            }
            let peer = Peer {
                sent,
                confirmed: false,
                hold_timer_since: now,
                keepalive_timer_since: now,
            };
            (Phase::Agreed(peer), Act::Say(Short::Keepalive))
        }
        Heard::Open(Err(fault)) => ended(open_note(peer_as, fault)),
        Heard::Update(_) | Heard::Refresh { .. } | Heard::Keepalive => ended(unexpected()),
        Heard::Note => notified(),
        Heard::Header(fault) => ended(header_note(fault)),
    }
}

/// The second message: a KEEPALIVE is expected.
pub fn second(mut peer: Peer, now: u64, heard: Heard) -> (Phase, Act)
    ensures { result ≡ second_step peer now heard }
{
    match heard {
        Heard::Keepalive => {
            peer.confirmed = true;
            peer.hold_timer_since = now;
            (Phase::Agreed(peer), Act::Up)
        }
        Heard::Open(_) | Heard::Update(_) | Heard::Refresh { .. } => ended(unexpected()),
        Heard::Note => notified(),
        Heard::Header(fault) => ended(header_note(fault)),
    }
}

/// A message of an Established session.
pub fn later(mut peer: Peer, now: u64, heard: Heard) -> (Phase, Act)
    ensures { result ≡ later_step peer now heard }
{
    match heard {
        Heard::Keepalive | Heard::Update(None) => {
            peer.hold_timer_since = now;
            (Phase::Agreed(peer), Act::None)
        }
        Heard::Refresh {
            afi: IPV4,
            safi: UNICAST,
        } => (Phase::Agreed(peer), Act::Again),
        Heard::Refresh { .. } => (Phase::Agreed(peer), Act::None),
        Heard::Open(_) => ended(unexpected()),
        Heard::Update(Some((code, sub))) => ended(Short::note(code, sub)),
        Heard::Note => notified(),
        Heard::Header(fault) => ended(header_note(fault)),
    }
}

/// The end of a session, with this NOTIFICATION.
fn ended(note: Short) -> (Phase, Act)
    ensures { result ≡ (phases.Closing, Act.Down (Some note)) }
{
    (Phase::Closing, Act::Down(Some(note)))
}

/// The end of a session by the client's NOTIFICATION, which is not answered (RFC 4271, 6.4).
fn notified() -> (Phase, Act)
    ensures { result ≡ (phases.Closing, Act.Down None) }
{
    (Phase::Closing, Act::Down(None))
}

/// So many seconds or more lie between two moments.
fn has_passed(seconds: u16, since: u64, now: u64) -> bool
    ensures { result ≡ nat_le seconds (now - since) }
{
    u64::from(seconds) <= now.saturating_sub(since)
}

/// The greatest moment at which not yet so many seconds have passed; 0 seconds never do.
pub fn quiet_for(seconds: u16, since: u64) -> u64
    ensures { result ≡ quiet_for seconds since }
{
    match seconds.checked_sub(1) {
        None => u64::MAX,
        Some(most) => since.saturating_add(u64::from(most)),
    }
}

/// A moment before the peer's OPEN.
pub fn waited(since: u64, now: u64) -> (Phase, Act)
    ensures { result ≡ wait since now }
{
    if has_passed(OPEN_WAIT, since, now) {
        ended(expired())
    } else {
        (Phase::OpenSent { since }, Act::None)
    }
}

/// A moment after it, with the Hold Time used.
pub fn ticked(hold: u16, mut peer: Peer, now: u64) -> (Phase, Act)
    ensures { result ≡ tick hold peer now }
{
    if hold == 0 {
        return (Phase::Agreed(peer), Act::None);
    }
    if has_passed(hold, peer.hold_timer_since, now) {
        return ended(expired());
    }
    if has_passed(hold / 3, peer.keepalive_timer_since, now) {
        peer.keepalive_timer_since = now;
        return (Phase::Agreed(peer), Act::Say(Short::Keepalive));
    }
    (Phase::Agreed(peer), Act::None)
}

/// A command to a session that lasts.
pub fn commanded(phase: Phase, established: bool, command: Command) -> (Phase, Act)
    ensures { result ≡ obey phase established command }
{
    match command {
        Command::Stop(text) => ended(Short::shutdown(text)),
        Command::Refresh if established => (phase, Act::Again),
        Command::Refresh => (phase, Act::None),
    }
}
