//! The choices of a turn of neighbouring outlets: where clients are decided alike, the best route for a prefix is
//! found once. Beside them stands what rules left of routes, and how what waits was put in order.

ghost use Rattle.std.specs.Prelude.{◌≡◌, Some, None, ℕ, Option, [], IfSome, Contains};
ghost use Rattle.rs_outlet.specs.Decided.Choices.{MayKeep};

use crate::by_number::first_from;
use crate::stripped::Stripped;
use crate::waiting::Sorting;
use std::alloc::Global;

/// How many choices are kept.
const MOST: usize = 65_536;

/// A choice that was made for a client: whose route is the best for the prefix of a number, if any is, and whose is the
/// best without that one's, which is the choice for that one itself.
#[derive(Clone, Copy)]
pub(crate) struct Choice {
    pub(crate) number: u32,
    pub(crate) client: usize,
    pub(crate) place: Option<usize>,
    pub(crate) next: Option<usize>,
}

/// Choices by rising number, as outlets go over what was touched.
#[derive(Drop)]
pub(crate) struct Choices {
    pub(crate) kept: Vec<Choice>,
    /// Where the next choice is looked for.
    next: usize,
    /// The routes that rules changed.
    pub(crate) stripped: Stripped,
    /// How what waits was put in order.
    pub(crate) sorting: Sorting,
}

impl Choices {
    /// No choice was made yet.
    pub(crate) fn new(alloc: Global) -> Choices
        ensures { result.kept.items ≡ [] }
    {
        Choices {
            kept: Vec::new(alloc),
            next: 0,
            stripped: Stripped::new(alloc),
            sorting: Sorting::new(alloc),
        }
    }

    /// Another outlet goes over what was touched.
    pub(crate) fn begin(&mut self)
        ensures { self.new.kept.items ≡ self.old.kept.items }
    {
        self.next = 0;
        self.stripped.begin();
    }

    /// The choice at the prefix of a number, which is greater than those asked for before.
    pub(crate) fn find(&mut self, number: u32) -> Option<Choice>
        ensures kept { self.new.kept.items ≡ self.old.kept.items }
        ensures number { IfSome result (λ choice. choice.number ≡ number) }
        ensures found { IfSome result (λ choice. Contains self.old.kept.items choice) }
    {
        self.next = first_from(&self.kept, self.next, number);
        match self.kept.get(self.next) {
            Some(choice) if choice.number == number => Some(*choice),
            _ => None,
        }
    }

    /// Keeps a choice, where `find` has gone over all that are kept, and there is room.
    pub(crate) fn keep(&mut self, choice: Choice)
        ensures { MayKeep choice self.old.kept.items self.new.kept.items }
    {
        if self.next == self.kept.len() && self.next < MOST {
            let _ = self.kept.push(choice);
        }
    }
}
