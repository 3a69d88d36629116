//! How often a client asks for all its routes again (ROUTE-REFRESH, RFC 2918). Each time all that it was told is gone
//! over, so one that asks too often rests, lest the others wait for it. Its octets are followed from message to message.

use rs_octets::Kind;
use std::mem;

/// For so many seconds a client's requests are counted together.
const COUNTED: u64 = 60;

/// So many pieces with requests in that time are free.
const FREE: u32 = 1;

/// For how many seconds a client rests after each further one.
const CALM: u64 = 20;

/// How many octets a message's marker has, and its header, whose last one is the type (RFC 4271, 4.1).
const MARKER: usize = 16;

const HEADER: usize = 19;

/// Where a client's octets stand in its messages, and how often it asked.
#[derive(Clone, Copy)]
pub(crate) struct Requests {
    /// How many octets of a header were read, and the message's length as far as it was.
    read: usize,
    length: usize,
    /// How many octets behind the header are to come.
    left: usize,
    /// A message is a request.
    asks: bool,
    /// Since when pieces with requests are counted, and how many there were.
    since: u64,
    count: u32,
}

impl Requests {
    pub(crate) fn new() -> Requests {
        Requests {
            read: 0,
            length: 0,
            left: 0,
            asks: false,
            since: 0,
            count: 0,
        }
    }

    /// A connection begins, and with it a message.
    pub(crate) fn begin(&mut self) {
        self.read = 0;
        self.length = 0;
        self.left = 0;
    }

    /// The client says these octets at this moment. Answers up to when it rests, where it has asked too often.
    pub(crate) fn hear(&mut self, octets: &[u8], now: u64) -> Option<u64> {
        if !self.finds(octets) {
            return None;
        }
        if now.saturating_sub(self.since) >= COUNTED {
            self.since = now;
            self.count = 0;
        }
        self.count = self.count.saturating_add(1);
        if self.count > FREE {
            Some(now.saturating_add(CALM))
        } else {
            None
        }
    }

    /// Whether it has asked in the time in which its requests are counted.
    pub(crate) fn asks(&self, now: u64) -> bool {
        self.count > 0 && now.saturating_sub(self.since) < COUNTED
    }

    /// Whether the type of a request stands in these octets.
    fn finds(&mut self, octets: &[u8]) -> bool {
        let mut rest = octets;
        for _ in 0..octets.len() {
            if rest.is_empty() {
                break;
            }
            let (_, behind) = rest.split_at(self.pass(rest).min(rest.len()));
            rest = behind;
        }
        mem::replace(&mut self.asks, false)
    }

    /// Passes over some of these octets, and answers how many: a message's body or marker as far as it goes, or an octet
    /// of its length and type.
    fn pass(&mut self, octets: &[u8]) -> usize {
        let Some(octet) = octets.first() else {
            return 0;
        };
        if self.left > 0 {
            let count = self.left.min(octets.len());
            self.left -= count;
            return count;
        }
        if self.read < MARKER {
            let count = (MARKER - self.read).min(octets.len());
            self.read += count;
            return count;
        }
        self.head(*octet);
        1
    }

    /// Reads an octet of a message's length or, once that was read, its type.
    fn head(&mut self, octet: u8) {
        if self.read < HEADER - 1 {
            self.length = self.length % 256 * 256 + usize::from(octet);
            self.read += 1;
            return;
        }
        self.asks |= octet == Kind::Refresh.number();
        self.left = self.length.saturating_sub(HEADER);
        self.length = 0;
        self.read = 0;
    }
}
