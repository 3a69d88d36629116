//! The next message (RFC 4271, 4.3 to 4.5, 9.2): the NOTIFICATION that waits, the KEEPALIVE that is
//! due, what is to be withdrawn, or the least prefix that is to be announced with all that share its
//! attributes.

ghost use Rattle.std.specs.Prelude.{◌≡◌, ◌+◌, ◌≤◌, ◌<◌, List, Option, true, false, None, Some, length, take, vec_len};
ghost use Rattle.std.specs.Arc.{arc_value};
ghost use Rattle.std.specs.List.{HoldsAt};
ghost use Rattle.rs_open.specs.Writing.{keepalive};
ghost use Rattle.rs_open.specs.declared.short.Short.{Short};
ghost use Rattle.rs_packer.specs.Packed.{IsLongestFront, announcement, withdrawal};
ghost use Rattle.rs_outlet.specs.Message.Next.{note_octets};
ghost use Rattle.rs_outlet.specs.Message.Begins.{BeginsUpdate};
ghost use Rattle.rs_outlet.specs.Views.{WaitsAreExact};
ghost use Rattle.rs_attrs.specs.Writing.{IsLegal};
ghost use Rattle.rs_outlet.specs.Pending.Choosing.{AnyPasses, AreChosen, passing, shares, IsLeastOf, MayUpdate, NoneWithdrawn, WaitsFor};
ghost use Rattle.rs_outlet.specs.Inside.{AreBacked, AreChained, RowsFit};
ghost use Rattle.rs_outlet.specs.declared.answers.Speech.{Speech};
ghost use Rattle.rs_rows.specs.Rows.{Row};
ghost use Rattle.std.specs.Vec.{vec_capacity};
ghost use Rattle.rs_outlet.specs.Pending.Slots.{is_announced, is_withdrawn, rising};
ghost use Rattle.rs_open.specs.Notes.{limit_octets};

use crate::answers::Speech;
use crate::batch::Batch;
use crate::outlet::Outlet;
use crate::sizes::{most_prefixes, usual_prefixes};
use crate::table::Rows;
use crate::waiting::Waits;
use crate::written::{Messages, Written};
use rs_adjin::AdjIns;
use rs_attrs::{Attrs, Mode, attributes_are_legal};
use rs_octets::Prefix;
use rs_open::{Limit, Short, write_keepalive, write_note};
use rs_packer::{Packed, pack_announced, pack_withdrawn};
use std::sync::Arc;

const NOTHING: Packed = Packed {
    octets: 0,
    prefixes: 0,
};

/// Writes a NOTIFICATION at the front of a message's room, and answers its octets.
fn put_note(note: &Short, out: &mut Vec<u8>) -> usize
    requires { 4096 ≤ vec_len out.old }
    ensures octets { take result out.new.items ≡ note_octets note.now }
    ensures most { result ≤ 4096 }
    ensures room { vec_len out.new ≡ vec_len out.old }
{
    match note {
        Short::Note {
            code,
            sub,
            extra,
            count,
        } => write_note(*code, *sub, *extra, *count, out),
        Short::Open | Short::Keepalive => 0,
    }
}

/// Writes a KEEPALIVE at the front of a message's room, and answers its octets.
fn put_keepalive(out: &mut Vec<u8>) -> usize
    requires { 4096 ≤ vec_len out.old }
    ensures octets { take result out.new.items ≡ keepalive }
    ensures most { result ≤ 4096 }
    ensures room { vec_len out.new ≡ vec_len out.old }
{
    write_keepalive(out)
}

/// Writes the longest withdrawal of these prefixes that fits into the first octets.
fn pack_gone(prefixes: &[Prefix], limit: usize, out: &mut [u8]) -> Packed
    requires some { 0 < length prefixes.now }
    requires limit { (28 ≤ limit) × (limit ≤ 65535) }
    requires room { limit ≤ length out.old }
    ensures some { 0 < result.prefixes }
    ensures within { result.prefixes ≤ length prefixes.now }
    ensures longest { IsLongestFront withdrawal limit prefixes.now result.prefixes }
    ensures octets { take result.octets out.new ≡ withdrawal (take result.prefixes prefixes.now) }
    ensures most { result.octets ≤ limit }
{
    pack_withdrawn(prefixes, &mut out[..limit])
}

/// Writes the longest announcement of these prefixes that fits into the first octets.
fn write_news(
    attrs: &Attrs,
    mode: Mode,
    prefixes: &[Prefix],
    limit: usize,
    out: &mut [u8],
) -> Packed
    requires some { 0 < length prefixes.now }
    requires limit { limit ≤ 65535 }
    requires room { limit ≤ length out.old }
    requires fits { length (announcement attrs.now mode (take 1 prefixes.now)) ≤ limit }
    ensures some { 0 < result.prefixes }
    ensures within { result.prefixes ≤ length prefixes.now }
    ensures longest { IsLongestFront (announcement attrs.now mode) limit prefixes.now result.prefixes }
    ensures octets { take result.octets out.new ≡ announcement attrs.now mode (take result.prefixes prefixes.now) }
    ensures most { result.octets ≤ limit }
    ensures room { length out.new ≡ length out.old }
{
    pack_announced(attrs, mode, prefixes, &mut out[..limit])
}

/// The same, where the octets of a message that was written before are copied.
fn pack_news(
    attrs: &Arc<Attrs>,
    mode: Mode,
    prefixes: &[Prefix],
    limit: usize,
    out: &mut [u8],
    messages: &mut Messages,
) -> Packed
    requires some { 0 < length prefixes.now }
    requires limit { limit ≤ 65535 }
    requires room { limit ≤ length out.old }
    requires fits { length (announcement (arc_value attrs.now) mode (take 1 prefixes.now)) ≤ limit }
    ensures some { 0 < result.prefixes }
    ensures within { result.prefixes ≤ length prefixes.now }
    ensures longest { IsLongestFront (announcement (arc_value attrs.now) mode) limit prefixes.now result.prefixes }
    ensures octets { take result.octets out.new ≡ announcement (arc_value attrs.now) mode (take result.prefixes prefixes.now) }
    ensures most { result.octets ≤ limit }
{
    if let Some(packed) = messages.repeat(attrs, mode, prefixes, limit, out) {
        return packed;
    }
    let packed = write_news(attrs, mode, prefixes, limit, out);
    messages.keep(
        attrs,
        mode,
        &prefixes[..packed.prefixes],
        &out[..packed.octets],
    );
    packed
}

/// The longest withdrawal into a message's room.
fn put_withdrawal(prefixes: &[Prefix], limit: Limit, out: &mut Vec<u8>) -> Packed
    requires some { 0 < length prefixes.now }
    requires room { limit_octets limit ≤ vec_len out.old }
    ensures some { 0 < result.prefixes }
    ensures within { result.prefixes ≤ length prefixes.now }
    ensures longest { IsLongestFront withdrawal (limit_octets limit) prefixes.now result.prefixes }
    ensures octets { take result.octets out.new.items ≡ withdrawal (take result.prefixes prefixes.now) }
    ensures most { result.octets ≤ limit_octets limit }
    ensures room { vec_len out.new ≡ vec_len out.old }
{
    pack_gone(prefixes, limit.octets(), out)
}

/// The longest announcement into a message's room.
fn put_announcement(
    attrs: &Arc<Attrs>,
    speech: Speech,
    prefixes: &[Prefix],
    out: &mut Vec<u8>,
    messages: &mut Messages,
) -> Packed
    requires some { 0 < length prefixes.now }
    requires room { limit_octets speech.limit ≤ vec_len out.old }
    requires fits { length (announcement (arc_value attrs.now) speech.mode (take 1 prefixes.now)) ≤ limit_octets speech.limit }
    ensures some { 0 < result.prefixes }
    ensures within { result.prefixes ≤ length prefixes.now }
    ensures longest { IsLongestFront (announcement (arc_value attrs.now) speech.mode) (limit_octets speech.limit) prefixes.now result.prefixes }
    ensures octets { take result.octets out.new.items ≡ announcement (arc_value attrs.now) speech.mode (take result.prefixes prefixes.now) }
    ensures most { result.octets ≤ limit_octets speech.limit }
    ensures room { vec_len out.new ≡ vec_len out.old }
{
    pack_news(
        attrs,
        speech.mode,
        prefixes,
        speech.limit.octets(),
        out,
        messages,
    )
}

/// Writes the withdrawal of what waits for one, and lists the slots.
fn put_gone(waits: &Waits, speech: Speech, batch: &mut Batch, out: &mut Vec<u8>) -> Packed
    requires room { limit_octets speech.limit ≤ vec_len out.old }
    requires some { AnyPasses is_withdrawn waits.now.slots.items }
    ensures most { result.octets ≤ limit_octets speech.limit }
    ensures room { vec_len out.new ≡ vec_len out.old }
    ensures update { (rows : List (Option Row)) → MayUpdate speech rows waits.now.slots.items batch.new.chosen.items batch.new.front.items out.new.items result }
{
    let usual = usual_prefixes(speech.limit);
    waits.choose_withdrawn(usual, batch);
    if batch.front.is_empty() {
        return NOTHING;
    }
    let packed = put_withdrawal(&batch.front, speech.limit, out);
    if packed.prefixes < usual {
        return packed;
    }
    waits.choose_withdrawn(most_prefixes(speech.limit), batch);
    put_withdrawal(&batch.front, speech.limit, out)
}

/// Attributes are legal.
fn are_legal(attrs: &Arc<Attrs>)
    ensures { IsLegal (arc_value attrs.now) }
{
    attributes_are_legal(attrs);
}

/// Writes the announcement of what waits for these attributes, as the slot does that is `known`, and lists the slots.
fn put_news(
    rows: &Rows,
    waits: &mut Waits,
    known: usize,
    attrs: &Arc<Attrs>,
    speech: Speech,
    batch: &mut Batch,
    out: &mut Vec<u8>,
    messages: &mut Messages,
) -> Packed
    requires room { limit_octets speech.limit ≤ vec_len out.old }
    requires in_turn { NoneWithdrawn waits.old.slots.items }
    requires some { IsLeastOf (WaitsFor rows.now.rows.items (arc_value attrs.now)) is_announced waits.old.slots.items }
    requires known { HoldsAt (WaitsFor rows.now.rows.items (arc_value attrs.now)) waits.old.slots.items known }
    requires backed { AreBacked rows.now.rows.items waits.old.slots.items }
    requires chained { AreChained rows.now.rows.items (take waits.old.sorted waits.old.slots.items) waits.old.chains.items }
    requires fit { RowsFit speech rows.now.rows.items }
    ensures most { result.octets ≤ limit_octets speech.limit }
    ensures room { vec_len out.new ≡ vec_len out.old }
    ensures slots { waits.new.slots.items ≡ waits.old.slots.items }
    ensures chained { AreChained rows.now.rows.items (take waits.new.sorted waits.new.slots.items) waits.new.chains.items }
    ensures capacity { vec_capacity waits.new.slots ≡ vec_capacity waits.old.slots }
    ensures update { MayUpdate speech rows.now.rows.items waits.old.slots.items batch.new.chosen.items batch.new.front.items out.new.items result }
{
    // for the prover: they are legal
    are_legal(attrs);
    let usual = usual_prefixes(speech.limit);
    waits.choose_announced(rows, known, attrs, usual, batch);
    let packed = put_announcement(attrs, speech, &batch.front, out, messages);
    if packed.prefixes < usual {
        return packed;
    }
    let most = most_prefixes(speech.limit);
    waits.choose_announced(rows, known, attrs, most, batch);
    put_announcement(attrs, speech, &batch.front, out, messages)
}

/// Writes the next UPDATE, if something waits, and lists the slots of what it tells.
fn put_update(
    rows: &Rows,
    waits: &mut Waits,
    speech: Speech,
    batch: &mut Batch,
    out: &mut Vec<u8>,
    messages: &mut Messages,
) -> Packed
    requires room { limit_octets speech.limit ≤ vec_len out.old }
    requires backed { AreBacked rows.now.rows.items waits.old.slots.items }
    requires chained { AreChained rows.now.rows.items (take waits.old.sorted waits.old.slots.items) waits.old.chains.items }
    requires fit { RowsFit speech rows.now.rows.items }
    ensures most { result.octets ≤ limit_octets speech.limit }
    ensures room { vec_len out.new ≡ vec_len out.old }
    ensures slots { waits.new.slots.items ≡ waits.old.slots.items }
    ensures chained { AreChained rows.now.rows.items (take waits.new.sorted waits.new.slots.items) waits.new.chains.items }
    ensures capacity { vec_capacity waits.new.slots ≡ vec_capacity waits.old.slots }
    ensures update { MayUpdate speech rows.now.rows.items waits.old.slots.items batch.new.chosen.items batch.new.front.items out.new.items result }
{
    if let Some(_slot) = waits.first_withdrawn() {
        return put_gone(waits, speech, batch, out);
    }
    let Some(first) = waits.first_announced() else {
        return NOTHING;
    };
    let Some(row) = waits.row_for(rows, first) else {
        return NOTHING;
    };
    put_news(rows, waits, first, row.attrs, speech, batch, out, messages)
}

impl Outlet {
    /// Begins the next message, if there is one. None is in flight.
    pub(crate) fn begin_next(&mut self, ins: &AdjIns, written: &mut Written)
        ensures rest { self.new ≡ record self.old { told = self.new.told; flight = self.new.flight; keepalive_due = self.new.keepalive_due; note = self.new.note; marked = self.new.marked; waits = self.new.waits } }
        ensures note { (note : Short) → self.old.note ≡ Some note → self.new ≡ record self.old { flight = note_octets note; note = None } }
        ensures keepalive { self.old.note ≡ None → self.old.keepalive_due ≡ true → self.new ≡ record self.old { flight = keepalive; keepalive_due = false } }
        ensures update { self.old.note ≡ None → self.old.keepalive_due ≡ false → (self.new.note ≡ None) × (self.new.keepalive_due ≡ false) }
        ensures begins { (speech : Speech) → self.old.note ≡ None → self.old.keepalive_due ≡ false → self.old.speech ≡ Some speech → BeginsUpdate speech self.old self.new }
        ensures exact { WaitsAreExact self.old → WaitsAreExact self.new }
        ensures down { self.old.note ≡ None → self.old.keepalive_due ≡ false → self.old.speech ≡ None → self.new ≡ self.old }
    {
        if let Some(note) = self.note {
            self.begin_note(&note);
        } else if self.keepalive_due {
            self.begin_keepalive();
        } else if let Some(speech) = self.speech {
            self.begin_update(speech, ins, written);
        }
    }

    fn begin_note(&mut self, note: &Short)
        ensures { self.new ≡ record self.old { flight = note_octets note.now; note = None } }
    {
        self.note = None;
        self.start = 0;
        self.end = put_note(note, &mut self.octets);
    }

    fn begin_keepalive(&mut self)
        ensures { self.new ≡ record self.old { flight = keepalive; keepalive_due = false } }
    {
        self.keepalive_due = false;
        self.start = 0;
        self.end = put_keepalive(&mut self.octets);
    }

    /// Begins the next UPDATE, if something waits.
    fn begin_update(&mut self, speech: Speech, ins: &AdjIns, written: &mut Written)
        requires { self.old.speech ≡ Some speech }
        ensures begins { (spoken : Speech) → self.old.speech ≡ Some spoken → BeginsUpdate spoken self.old self.new }
        ensures rest { self.new ≡ record self.old { told = self.new.told; flight = self.new.flight; marked = self.new.marked; waits = self.new.waits } }
    {
        self.asked = false;
        self.waits.prepare(&self.rows, ins);
        let packed = put_update(
            &self.rows,
            &mut self.waits,
            speech,
            &mut written.batch,
            &mut self.octets,
            &mut written.messages,
        );
        self.start = 0;
        self.end = packed.octets;
        written.batch.chosen.truncate(packed.prefixes);
        self.waits.give_up(&written.batch.chosen);
    }
}
