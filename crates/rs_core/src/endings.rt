//! Why a session ended, and what else is kept of a client for the operator.

ghost use Rattle.std.specs.Prelude.{◌≡◌, List};
ghost use Rattle.std.specs.List.{cons_option};
ghost use Rattle.rs_core.specs.Session.OperatorRecords as watching;
ghost use Rattle.rs_core.specs.Session.OperatorRecords.{watched_by, with_faults};

use rs_attrs::Faulted;
use rs_open::Short;
use rs_session::Act;

/// The octets of a NOTIFICATION's data that are kept.
pub const NOTICE_MAX: usize = 64;

/// A NOTIFICATION that a client sent (RFC 4271, 4.5), with the first octets of its data.
#[derive(Clone, Copy, Debug, PartialEq, Eq)]
pub struct Notice {
    pub code: u8,
    pub sub: u8,
    pub data: [u8; NOTICE_MAX],
    /// How many octets of the data are kept.
    pub count: usize,
}

impl Notice {
    /// The NOTIFICATION with this body.
    pub(crate) fn of(body: &[u8]) -> Notice
        ensures { result ≡ watching.notice_of body.now }
    {
        match body {
            [code, sub, data @ ..] => Notice::with(*code, *sub, data),
            _ => Notice::with(0, 0, &[]),
        }
    }

    /// A NOTIFICATION with these codes and this data.
    fn with(code: u8, sub: u8, said: &[u8]) -> Notice
        ensures { result ≡ watching.notice_with code sub said.now }
    {
        let count = said.len().min(NOTICE_MAX);
        let mut data = [0; NOTICE_MAX];
        data[..count].copy_from_slice(&said[..count]);
        Notice {
            code,
            sub,
            data,
            count,
        }
    }
}

/// Why a session ended.
#[derive(Clone, Copy, Debug, PartialEq, Eq)]
pub enum Ending {
    /// By this NOTIFICATION of ours.
    Said(Short),
    /// The hold timer ran out (RFC 4271, 6.5).
    HoldTimer,
    /// By a NOTIFICATION of the client's.
    Heard(Notice),
    /// The connection was lost.
    Lost,
    /// Memory was refused.
    Memory,
}

/// Why a session ends that asks for this at a message with this body: by a NOTIFICATION of ours, or
/// by the client's, which is then that message.
pub(crate) fn ending_by(body: &[u8], act: Act) -> Option<Ending>
    ensures { result ≡ watching.ending_by body.now act }
{
    match act {
        Act::Down(Some(note)) => Some(Ending::Said(note)),
        Act::Down(None) => Some(Ending::Heard(Notice::of(body))),
        Act::None | Act::Say(_) | Act::Up | Act::Again => None,
    }
}

/// Why a session ends that asks for this at a moment.
pub(crate) fn expiry_by(act: Act) -> Option<Ending>
    ensures { result ≡ watching.expiry_by act }
{
    match act {
        Act::Down(_) => Some(Ending::HoldTimer),
        Act::None | Act::Say(_) | Act::Up | Act::Again => None,
    }
}

/// Why a session ends that asks for this at a command of the operator's.
pub(crate) fn command_ending(act: Act) -> Option<Ending>
    ensures { result ≡ watching.command_ending act }
{
    match act {
        Act::Down(Some(note)) => Some(Ending::Said(note)),
        Act::None | Act::Say(_) | Act::Up | Act::Down(None) | Act::Again => None,
    }
}

/// Why a session ends whose connection is cut off; none where it had ended before.
pub(crate) fn ended_if(lasts: bool, why: Ending) -> Option<Ending>
    ensures { result ≡ watching.ended_if lasts why }
{
    if lasts { Some(why) } else { None }
}

/// The UPDATEs of a client that were taken, but not as they came (RFC 7606, 2): some of their
/// attributes were passed over, or their routes were withdrawn, for an attribute that came or for
/// want of one that each route has.
#[derive(Clone, Copy, Debug, PartialEq, Eq)]
pub struct FaultedUpdates {
    /// How many there were, as far as a u64 counts.
    pub count: u64,
    /// What was wrong with the last one.
    pub last: Faulted,
    /// How many had MP_REACH_NLRI (RFC 4760, 3), whose routes are passed over; `count` has them only
    /// where something else was at fault.
    pub mp_reach: u64,
}

/// What is kept of a client for the operator.
#[derive(Clone, Copy)]
pub(crate) struct Watched {
    pub(crate) ending: Option<Ending>,
    pub(crate) faulted: FaultedUpdates,
}

impl Watched {
    /// Of a client that had no session yet.
    pub(crate) const NONE: Watched = Watched {
        ending: None,
        faulted: FaultedUpdates {
            count: 0,
            last: Faulted {
                withdraw: None,
                discard: None,
                mp_reach: false,
            },
            mp_reach: 0,
        },
    };

    /// The session has ended so, or goes on.
    pub(crate) fn end(&mut self, ending: Option<Ending>)
        ensures { (endings : List Ending) (faults : List Faulted) → self.old ≡ watched_by endings faults → self.new ≡ watched_by (cons_option ending endings) faults }
    {
        if ending.is_some() {
            self.ending = ending;
        }
    }

    /// An UPDATE was taken, with these faults.
    pub(crate) fn note(&mut self, faulted: Faulted)
        ensures { (endings : List Ending) (faults : List Faulted) → self.old ≡ watched_by endings faults → self.new ≡ watched_by endings (with_faults faulted faults) }
    {
        if faulted.withdraw.is_some() || faulted.discard.is_some() {
            self.faulted.count = self.faulted.count.saturating_add(1);
            self.faulted.last = faulted;
        }
        if faulted.mp_reach {
            self.faulted.mp_reach = self.faulted.mp_reach.saturating_add(1);
        }
    }
}
