//! The octets of one direction of a member's sessions, and how many UPDATEs they have: they come in any pieces, and nothing
//! is kept of them but a header (RFC 4271, 4.1).

ghost use Rattle.std.specs.Prelude.{◌≡◌, ◌==◌, ◌+◌, ◌<◌, ◌≤◌, ◌++◌, ℕ, List, [], Ok, length, min, if◌then◌else◌};
ghost use Rattle.rs_octets.specs.Headers.{header_of, type_number};
ghost use Rattle.rs_octets.specs.Messages.{IsMessageOf, rest_of};
ghost use Rattle.rs_page_parts.specs.Updates.{any, most_behind};

use rs_octets::{Allowed, Head, Kind, header, put};

/// What any session allows: longer messages (RFC 8654) and ROUTE-REFRESH (RFC 2918).
const ANY: Allowed = Allowed {
    long: true,
    refresh: true,
};

/// Where the octets of a session end that have come.
#[derive(Clone, Copy, Debug)]
enum Reading {
    /// Behind so many octets of a header, fewer than 19.
    Header(usize),
    /// Within a message of this type, of which so many octets are still to come, at least one.
    Body(Kind, usize),
    /// Behind a header that no message has: nothing is counted there.
    Refused,
}

/// How many UPDATEs a message of this type is.
fn updates_of(kind: Kind) -> u64
    ensures { result ≡ if type_number kind == 2 then 1 else 0 }
{
    match kind {
        Kind::Update => 1,
        Kind::Open | Kind::Note | Kind::Keepalive | Kind::Refresh => 0,
    }
}

/// Octets, and UPDATEs among the whole messages that the octets of each session begin with.
#[derive(Clone, Copy, Debug)]
pub struct Traffic {
    octets: u64,
    updates: u64,
    /// The header of the message under way, as far as it has come.
    header: [u8; 19],
    reading: Reading,
    ghost goes_on: { 0 < most_behind reading },
}

impl Traffic {
    ghost use Rattle.rs_page_parts.specs.Traffic.{HasCounted, IsCountOf};

    /// Nothing has come.
    pub fn new() -> Traffic
        ensures octets { result.octets ≡ 0 }
        ensures counted { HasCounted 0 [] result }
    {
        Traffic {
            octets: 0,
            updates: 0,
            header: [0; 19],
            reading: Reading::Header(0),
        }
    }

    /// The same, where a session begins whose octets are to come.
    pub fn begun(self) -> Traffic
        ensures octets { result.octets ≡ self.octets }
        ensures counted { HasCounted self.updates [] result }
    {
        Traffic {
            octets: self.octets,
            updates: self.updates,
            header: [0; 19],
            reading: Reading::Header(0),
        }
    }

    /// How many octets have come.
    pub fn octets(&self) -> u64
        ensures { result ≡ self.now.octets }
    {
        self.octets
    }

    /// How many UPDATEs.
    pub fn updates(&self) -> u64
        ensures { result ≡ self.now.updates }
    {
        self.updates
    }

    /// A piece of the session's octets has come.
    pub fn take(&mut self, piece: &[u8])
        ensures octets { self.new.octets ≡ min (self.old.octets + length piece.now) u64.MAX }
        ensures counted { (before : ℕ) (octets : List ℕ) → HasCounted before octets self.old → HasCounted before (octets ++ piece.now) self.new }
    {
        self.octets = self.octets.saturating_add(piece.len() as u64);
        let mut rest = piece;
        while !rest.is_empty() {
            let (part, behind) = rest.split_at(self.most().min(rest.len()));
            self.pass(part);
            rest = behind;
        }
    }

    /// How many octets more reach to the end of the header or of the message under way.
    fn most(&self) -> usize
        ensures value { result ≡ most_behind self.now.reading }
        ensures some { 0 < result }
    {
        match self.reading {
            Reading::Header(count) => 19_usize.saturating_sub(count),
            Reading::Body(_, left) => left,
            Reading::Refused => usize::MAX,
        }
    }

    /// Octets have come up to there, or fewer.
    fn pass(&mut self, part: &[u8])
        requires { length part.now ≤ most_behind self.old.reading }
        ensures octets { self.new.octets ≡ self.old.octets }
        ensures counted { (before : ℕ) (octets : List ℕ) → HasCounted before octets self.old → HasCounted before (octets ++ part.now) self.new }
    {
        match self.reading {
            Reading::Header(count) => self.pass_header(count, part),
            Reading::Body(kind, left) => self.pass_body(kind, left, part),
            Reading::Refused => {}
        }
    }

    /// Octets of a header have come behind so many.
    fn pass_header(&mut self, count: usize, part: &[u8])
        requires { count + length part.now ≤ 19 }
        ensures octets { self.new.octets ≡ self.old.octets }
        ensures counted { (before : ℕ) (octets : List ℕ) → self.old.reading ≡ Reading.Header count → HasCounted before octets self.old → HasCounted before (octets ++ part.now) self.new }
    {
        let end = put(&mut self.header, count, part);
        if end < 19 {
            self.reading = Reading::Header(end);
        } else {
            self.end_header();
        }
    }

    /// Octets of a message of this type have come where so many were to come.
    fn pass_body(&mut self, kind: Kind, left: usize, part: &[u8])
        requires { length part.now ≤ left }
        ensures octets { self.new.octets ≡ self.old.octets }
        ensures counted { (before : ℕ) (octets : List ℕ) → self.old.reading ≡ Reading.Body kind left → HasCounted before octets self.old → HasCounted before (octets ++ part.now) self.new }
    {
        if part.len() < left {
            self.reading = Reading::Body(kind, left - part.len());
        } else {
            self.end_message(kind);
        }
    }

    /// A header has come to its end.
    fn end_header(&mut self)
        ensures octets { self.new.octets ≡ self.old.octets }
        ensures counted { (before : ℕ) (octets part : List ℕ) → IsCountOf before octets self.old → rest_of any octets ++ part ≡ self.old.header → HasCounted before (octets ++ part) self.new }
    {
        match header(&self.header, ANY) {
            Ok(head) => self.begin_body(head),
            Err(_) => self.reading = Reading::Refused,
        }
    }

    /// What the header says of its message was read.
    fn begin_body(&mut self, head: Head)
        ensures octets { self.new.octets ≡ self.old.octets }
        ensures counted { (before : ℕ) (octets part : List ℕ) → IsCountOf before octets self.old → rest_of any octets ++ part ≡ self.old.header → header_of any self.old.header ≡ Ok head → HasCounted before (octets ++ part) self.new }
    {
        let length = usize::from(head.length);
        if length > 19 {
            self.reading = Reading::Body(head.kind, length - 19);
        } else {
            self.end_message(head.kind);
        }
    }

    /// A message of this type has come to its end.
    fn end_message(&mut self, kind: Kind)
        ensures octets { self.new.octets ≡ self.old.octets }
        ensures counted { (before : ℕ) (octets part : List ℕ) → IsCountOf before octets self.old → IsMessageOf any kind (rest_of any octets ++ part) → HasCounted before (octets ++ part) self.new }
    {
        self.updates = self.updates.saturating_add(updates_of(kind));
        self.reading = Reading::Header(0);
    }
}
