//! Texts that are joined, and in which of them a place of the whole lies.

ghost use Rattle.std.specs.Prelude.{◌≡◌, ◌≢◌, ◌≤◌, ◌<◌, ◌+◌, ◌∷◌, ◌++◌, [], ℕ, List, map, fold, Some, length, slice_index, IfOk, IfErr, IfSome, OnOk};
ghost use Rattle.rs_texts.specs.Joined.{ended, joined, put, starts_of};
ghost use Rattle.rs_texts.specs.declared.joined.JoinFault.TheVariants as faults;

use crate::text::{Text, end_lines};
use std::alloc::{AllocError, Global};
use std::io;
use std::io::ErrorKind;

/// The most texts that are joined.
pub const MOST_TEXTS: usize = 1024;

/// Why texts were not joined.
#[derive(Clone, Copy, Debug, Drop)]
pub enum JoinFault {
    /// The text of this place, counted from 0, can't be read.
    Unreadable(usize, io::Error),
    /// Together they have more than 64 MiB.
    TooLarge,
    /// There are more than 1,024.
    TooMany,
    /// Memory was refused, which is no fault of a text.
    Memory,
}

impl From<AllocError> for JoinFault {
    ghost use Rattle.std.specs.Prelude.{◌≡◌};
    ghost use Rattle.rs_texts.specs.declared.joined.JoinFault.TheVariants as faults;

    ghost from_gives = { λ _ e. e ≡ faults.Memory };

    fn from(_error: AllocError) -> JoinFault {
        JoinFault::Memory
    }
}

/// Texts as one, and behind how many octets of it each begins.
#[derive(Drop)]
pub struct Joined {
    pub octets: Vec<u8>,
    pub starts: Vec<usize>,
}

impl Joined {
    /// Begins a text on a new line.
    fn begin(&mut self) -> Result<(), AllocError>
        ensures octets { OnOk result (self.new.octets.items ≡ ended self.old.octets.items) }
        ensures starts { OnOk result (self.new.starts.items ≡ self.old.starts.items ++ (length (ended self.old.octets.items) ∷ [])) }
    {
        end_lines(&mut self.octets)?;
        self.starts.push(self.octets.len())?;
        Ok(())
    }

    /// Puts a text behind the others.
    fn put<T: Text>(&mut self, text: &T) -> Result<(), JoinFault>
        ensures whole { OnOk result (IfSome (T.octets text.now) (λ octets. (self.new.octets.items, self.new.starts.items) ≡ put (self.old.octets.items, self.old.starts.items) octets)) }
        ensures small { OnOk result (length self.new.octets.items ≤ 67108864) }
        ensures large { IfErr result (λ e. e ≡ faults.TooLarge → IfSome (T.octets text.now) (λ octets. 67108864 < length (ended self.old.octets.items) + length octets)) }
        ensures few { IfErr result (λ e. e ≢ faults.TooMany) }
    {
        let place = self.starts.len();
        self.begin()?;
        match text.put_behind(&mut self.octets) {
            Ok(true) => Ok(()),
            Ok(false) => Err(JoinFault::TooLarge),
            Err(error) if error.kind() == ErrorKind::OutOfMemory => Err(JoinFault::Memory),
            Err(error) => Err(JoinFault::Unreadable(place, error)),
        }
    }

    /// Puts texts behind the others, in their order.
    fn put_all<T: Text>(&mut self, texts: &[T]) -> Result<(), JoinFault>
        ensures whole { OnOk result ((all : List (List ℕ)) → map T.octets texts.now ≡ map Some all → (self.new.octets.items, self.new.starts.items) ≡ fold put (self.old.octets.items, self.old.starts.items) all) }
        ensures small { OnOk result (length self.old.octets.items ≤ 67108864 → length self.new.octets.items ≤ 67108864) }
        ensures large { IfErr result (λ e. e ≡ faults.TooLarge → (all : List (List ℕ)) → map T.octets texts.now ≡ map Some all → 67108864 < length ((fold put (self.old.octets.items, self.old.starts.items) all).0)) }
        ensures few { IfErr result (λ e. e ≢ faults.TooMany) }
    {
        match texts {
            [] => Ok(()),
            [text, left @ ..] => {
                self.put(text)?;
                self.put_all(left)
            }
        }
    }

    /// In which text an octet of the whole stands, from 0. What lies behind all is in the last one.
    pub fn place(&self, at: usize) -> usize
        ensures bound { 0 < length self.now.starts.items → result < length self.now.starts.items }
        ensures begun { slice_index self.now.starts.items 0 ≤ at → slice_index self.now.starts.items result ≤ at }
        ensures last { (k : ℕ) → result < k → k < length self.now.starts.items → at < slice_index self.now.starts.items k }
    {
        let mut place = 0;
        for (index, start) in self.starts.iter().enumerate() {
            if *start <= at {
                place = index;
            }
        }
        place
    }
}

/// Joins texts in their order: each begins on a new line.
pub fn join<T: Text>(alloc: Global, texts: &[T]) -> Result<Joined, JoinFault>
    ensures octets { IfOk result (λ it. (all : List (List ℕ)) → map T.octets texts.now ≡ map Some all → it.octets.items ≡ joined all) }
    ensures starts { IfOk result (λ it. (all : List (List ℕ)) → map T.octets texts.now ≡ map Some all → it.starts.items ≡ starts_of all) }
    ensures small { IfOk result (λ it. (length texts.now ≤ 1024) × (length it.octets.items ≤ 67108864)) }
    ensures large { IfErr result (λ e. e ≡ faults.TooLarge → (all : List (List ℕ)) → map T.octets texts.now ≡ map Some all → 67108864 < length (joined all)) }
    ensures many { IfErr result (λ e. e ≡ faults.TooMany → 1024 < length texts.now) }
{
    if texts.len() > MOST_TEXTS {
        return Err(JoinFault::TooMany);
    }
    let mut joined = Joined {
        octets: Vec::new(alloc),
        starts: Vec::new(alloc),
    };
    joined.put_all(texts)?;
    Ok(joined)
}
