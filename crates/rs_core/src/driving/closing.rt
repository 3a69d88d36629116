//! Which clients may be Closing: their sessions have ended, and their connections have not.

ghost use Rattle.std.specs.Prelude.{◌≡◌, ◌<◌, ◌≤◌, ◌==◌, ℕ, true, false, None, List, IfSome, if◌then◌else◌};
ghost use Rattle.rs_core.specs.Drives.Courses.{Course};
ghost use Rattle.rs_core.specs.Drives.Answers.{Answers};

use crate::links::Event;

/// A set of clients, of the 512 that a configuration can have: client c is in it where bit c % 64 of
/// word c / 64 is set.
#[derive(Clone, Copy)]
pub(crate) struct MayClose {
    words: [u64; 8],
}

impl MayClose {
    ghost use Rattle.rs_core.specs.Drives.Closing.{may_close, HasClosing, IsNext};

    /// All clients.
    pub(crate) fn all() -> MayClose
        ensures { (c : ℕ) → c < 512 → may_close result c ≡ true }
    {
        MayClose {
            words: [u64::MAX; 8],
        }
    }

    /// Those are in the set too whose session may end by an event.
    pub(crate) fn note(&mut self, event: Event)
        ensures { (octets : List ℕ) (x y : Course) → Answers octets event x y → HasClosing self.old x.run → HasClosing self.new y.run }
    {
        match event {
            Event::Octets(c, _) => self.add(c),
            Event::Commanded(c, _) => self.add(c),
            Event::Moment(_) | Event::Rules => *self = MayClose::all(),
            Event::Opened(_) | Event::Turn | Event::Room(_, _) | Event::Lost(_) | Event::Stop => {}
        }
    }

    /// Adds a client, where a configuration can have it.
    fn add(&mut self, c: usize)
        ensures { (d : ℕ) → d < 512 → may_close self.new d ≡ (if d == c then true else may_close self.old d) }
    {
        if c < 512 {
            self.words[c / 64] |= 1u64 << (c % 64);
        }
    }

    /// Takes a client out.
    pub(crate) fn remove(&mut self, c: usize)
        requires { c < 512 }
        ensures { (d : ℕ) → may_close self.new d ≡ (if d == c then false else may_close self.old d) }
    {
        self.words[c / 64] &= !(1u64 << (c % 64));
    }

    /// The least client of the set from one on and below `end`.
    pub(crate) fn next(&self, from: usize, end: usize) -> Option<usize>
        requires { end ≤ 512 }
        ensures found { IfSome result (IsNext self.now from end) }
        ensures none { result ≡ None → (c : ℕ) → from ≤ c → c < end → may_close self.now c ≡ false }
    {
        let mut bit = from % 64;
        for place in from / 64..8 {
            let rest = self.words[place] >> bit;
            if rest != 0 {
                let c = place * 64 + bit + rest.trailing_zeros() as usize;
                return if c < end { Some(c) } else { None };
            }
            bit = 0;
        }
        None
    }
}
