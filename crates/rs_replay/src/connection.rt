//! What another server sent to a client on one connection: octets come in, piece after piece, and a
//! table is kept.

ghost use Rattle.std.specs.Prelude.{◌≡◌, ◌++◌, ℕ, List, [], IfOk, OnOk, drop, option_map};
ghost use Rattle.rs_octets.specs.Messages.{IsMessageOf, body_of};
ghost use Rattle.rs_attrs.specs.Effects.{MeansTable};
ghost use Rattle.rs_attrs.specs.declared.mode.Mode.{Mode};
ghost use Rattle.rs_compare.specs.Heard.{table_in};
ghost use Rattle.rs_replay.specs.Sendings.{allowed, updates_since};
ghost use Rattle.rs_replay.specs.Taking.{HasTaken, HearsAll, HearsMessage};
ghost use Rattle.rs_replay.specs.Telling.{sent_on};

use rs_attrs::Mode;
use rs_compare::Sent;
use rs_octets::{Allowed, Front, Kind, read_front};
use std::alloc::{AllocError, Global};

/// A server may send long messages to whom takes them (RFC 8654).
const ALLOWED: Allowed = Allowed {
    long: true,
    refresh: true,
};

/// What a server sent, from the beginning of the connection on.
#[derive(Drop)]
pub(crate) struct Connection {
    /// The octets behind the last whole message.
    rest: Vec<u8>,
    sent: Sent,
    is_readable: bool,
}

/// Hears a message, and answers whether the session goes on. By an OPEN it begins, and by a
/// NOTIFICATION it ends: then nothing is held.
fn hear_message(
    alloc: Global,
    kind: Kind,
    body: &[u8],
    mode: Mode,
    sent: &mut Sent,
) -> Result<bool, AllocError>
    ensures { IfOk result (λ goes_on. (before : List (List ℕ)) (message : List ℕ) → IsMessageOf allowed kind message → body.now ≡ body_of message → MeansTable (updates_since before) mode (table_in sent.old) → HearsMessage mode before message goes_on (table_in sent.new)) }
{
    match kind {
        Kind::Update => sent.hear(alloc, body, mode),
        Kind::Open | Kind::Note => {
            *sent = Sent::new(alloc);
            Ok(true)
        }
        Kind::Keepalive | Kind::Refresh => Ok(true),
    }
}

/// Hears the messages at the front of octets. Answers how many octets are behind them, or nothing
/// where something can't be read.
fn hear_messages(
    alloc: Global,
    octets: &[u8],
    mode: Mode,
    sent: &mut Sent,
) -> Result<Option<usize>, AllocError>
    ensures { IfOk result (λ left. (before : List (List ℕ)) → MeansTable (updates_since before) mode (table_in sent.old) → HearsAll mode before octets.now left (table_in sent.new)) }
{
    let mut rest = octets;
    while !rest.is_empty() {
        match read_front(rest, ALLOWED) {
            Front::Message {
                kind,
                body,
                rest: behind,
            } => {
                if !hear_message(alloc, kind, body, mode, sent)? {
                    return Ok(None);
                }
                rest = behind;
            }
            Front::Fault(_) => return Ok(None),
            Front::Wants(_) => return Ok(Some(rest.len())),
        }
    }
    Ok(Some(0))
}

/// Takes so many octets away from the front.
fn take_away(octets: &mut Vec<u8>, count: usize)
    ensures { octets.new.items ≡ drop count octets.old.items }
{
    let count = count.min(octets.len());
    octets.drain(..count);
}

impl Connection {
    /// Nothing was sent yet.
    pub(crate) fn new(alloc: Global) -> Connection
        ensures { (mode : Mode) → HasTaken mode [] result }
    {
        Connection {
            rest: Vec::new(alloc),
            sent: Sent::new(alloc),
            is_readable: true,
        }
    }

    /// The table that was sent; none where something can't be read.
    pub(crate) fn sent(&self) -> Option<&Sent>
        ensures { option_map (λ sent. table_in sent.now) result ≡ sent_on self.now }
    {
        if self.is_readable {
            Some(&self.sent)
        } else {
            None
        }
    }

    /// Takes the octets that were sent next, in which AS numbers are spelt in this mode.
    pub(crate) fn take(
        &mut self,
        alloc: Global,
        octets: &[u8],
        mode: Mode,
    ) -> Result<(), AllocError>
        ensures { OnOk result ((before : List ℕ) → HasTaken mode before self.old → HasTaken mode (before ++ octets.now) self.new) }
    {
        if !self.is_readable {
            return Ok(());
        }
        self.rest.extend_from_slice(octets)?;
        let Some(left) = hear_messages(alloc, &self.rest, mode, &mut self.sent)? else {
            self.is_readable = false;
            return Ok(());
        };
        let heard = self.rest.len().saturating_sub(left);
        take_away(&mut self.rest, heard);
        Ok(())
    }
}
