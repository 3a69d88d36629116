//! What serves each message that begins, whoever it is for: the messages that were written last, as most clients are told
//! of the same prefixes with the same attributes, so that the same octets are sent to each; and room for what a message
//! tells of (`batch`).
//!
//! A message stands at a place by the hash of its attributes, where a later one takes its place. It is there only to save
//! time: whatever stands there, a client is sent what it would be without.

ghost use Rattle.std.specs.Prelude.{◌≡◌, ◌<◌, ◌≤◌, length, take, IfSome, IfNone, IsTrue};
ghost use Rattle.std.specs.Arc.{arc_value};
ghost use Rattle.rs_packer.specs.Packed.{announcement, IsLongestFront};

use crate::batch::Batch;
use rs_attrs::{Attrs, Mode};
use rs_octets::{Prefix, put};
use rs_packer::Packed;
use std::alloc::{AllocError, Global};
use std::sync::Arc;

/// How many messages are kept.
const PLACES: usize = 1024;

/// A message of more octets than these is not kept.
const MOST_OCTETS: usize = 256;

/// Nor is one of more prefixes than these.
const MOST_PREFIXES: usize = 16;

/// A message that announces the first of these prefixes with these attributes, by the first of these octets.
#[derive(Drop)]
struct Message {
    attrs: Arc<Attrs>,
    mode: Mode,
    count: usize,
    prefixes: [Prefix; MOST_PREFIXES],
    size: usize,
    octets: [u8; MOST_OCTETS],
    ghost prefixes_fit: { count ≤ 16 },
    ghost octets_fit: { size ≤ 256 },
    ghost written: { take size octets ≡ announcement (arc_value attrs) mode (take count prefixes) },
}

/// The messages that were written last.
#[derive(Drop)]
pub(crate) struct Messages {
    kept: Vec<Option<Message>>,
}

/// What serves each message that begins: the messages that were written last, and room for what the next one tells of.
#[derive(Drop)]
pub struct Written {
    pub(crate) messages: Messages,
    pub(crate) batch: Batch,
}

/// Items at the front of room for more, in which what is `spare` stands.
fn in_room<T: Copy, const ROOM: usize>(items: &[T], spare: T) -> [T; ROOM]
    requires { length items.now ≤ ROOM }
    ensures { take (length items.now) result ≡ items.now }
{
    let mut room = [spare; ROOM];
    room[..items.len()].copy_from_slice(items);
    room
}

/// Whether these are the same prefixes.
fn are_same(some: &[Prefix], others: &[Prefix]) -> bool
    ensures { IsTrue result → some.now ≡ others.now }
{
    if some.len() != others.len() {
        return false;
    }
    for place in 0..some.len() {
        if some[place] != others[place] {
            return false;
        }
    }
    true
}

/// Whether these are equal attributes.
fn are_equal(some: &Attrs, others: &Attrs) -> bool
    ensures { IsTrue result → some.now ≡ others.now }
{
    some == others
}

/// Whether these are one mode.
fn is_one_mode(some: Mode, other: Mode) -> bool
    ensures { IsTrue result → some ≡ other }
{
    some == other
}

impl Message {
    /// A message of some prefixes, if it is short.
    fn short(attrs: &Arc<Attrs>, mode: Mode, prefixes: &[Prefix], octets: &[u8]) -> Option<Message>
        requires { octets.now ≡ announcement (arc_value attrs.now) mode prefixes.now }
    {
        if prefixes.len() > MOST_PREFIXES || octets.len() > MOST_OCTETS {
            return None;
        }
        Some(Message {
            attrs: attrs.clone().ok()?,
            mode,
            count: prefixes.len(),
            prefixes: in_room(prefixes, *prefixes.first()?),
            size: octets.len(),
            octets: in_room(octets, 0),
        })
    }

    /// Its octets, if it announces these prefixes with these attributes, spelt so.
    fn octets_for(&self, attrs: &Arc<Attrs>, mode: Mode, prefixes: &[Prefix]) -> Option<&[u8]>
        ensures { IfSome result (λ octets. octets.now ≡ announcement (arc_value attrs.now) mode prefixes.now) }
    {
        if is_one_mode(self.mode, mode)
            && are_equal(&self.attrs, attrs)
            && are_same(&self.prefixes[..self.count], prefixes)
        {
            return Some(&self.octets[..self.size]);
        }
        None
    }
}

/// The place of a message with these attributes.
fn place_of(attrs: &Attrs) -> usize {
    attrs.kept_hash() as usize % PLACES
}

impl Written {
    /// No message was written yet.
    pub fn new(alloc: Global) -> Result<Written, AllocError> {
        Ok(Written {
            messages: Messages::new(alloc)?,
            batch: Batch::new(alloc)?,
        })
    }
}

impl Messages {
    /// None was written yet.
    fn new(alloc: Global) -> Result<Messages, AllocError> {
        let mut kept = Vec::with_capacity(alloc, PLACES)?;
        for _ in 0..PLACES {
            kept.push(None)?;
        }
        Ok(Messages { kept })
    }

    /// Writes the message that announces all these prefixes with these attributes, if it was written before and fits.
    pub(crate) fn repeat(
        &self,
        attrs: &Arc<Attrs>,
        mode: Mode,
        prefixes: &[Prefix],
        limit: usize,
        out: &mut [u8],
    ) -> Option<Packed>
        requires some { 0 < length prefixes.now }
        requires room { limit ≤ length out.old }
        ensures some { IfSome result (λ packed. packed.prefixes ≡ length prefixes.now) }
        ensures longest { IfSome result (λ packed. IsLongestFront (announcement (arc_value attrs.now) mode) limit prefixes.now packed.prefixes) }
        ensures octets { IfSome result (λ packed. take packed.octets out.new ≡ announcement (arc_value attrs.now) mode (take packed.prefixes prefixes.now)) }
        ensures most { IfSome result (λ packed. packed.octets ≤ limit) }
        ensures none { IfNone result (out.new ≡ out.old) }
        ensures len { length out.new ≡ length out.old }
    {
        let message = self.kept.get(place_of(attrs))?.as_ref()?;
        let octets = message.octets_for(attrs, mode, prefixes)?;
        if limit < octets.len() {
            return None;
        }
        Some(Packed {
            octets: put(out, 0, octets),
            prefixes: prefixes.len(),
        })
    }

    /// Keeps the message that announces these prefixes with these attributes.
    pub(crate) fn keep(
        &mut self,
        attrs: &Arc<Attrs>,
        mode: Mode,
        prefixes: &[Prefix],
        octets: &[u8],
    )
        requires { octets.now ≡ announcement (arc_value attrs.now) mode prefixes.now }
    {
        if let Some(place) = self.kept.get_mut(place_of(attrs)) {
            *place = Message::short(attrs, mode, prefixes, octets);
        }
    }
}
