//! Lists by rising number, gone over as what was touched is.

use crate::changes::Change;
use crate::choices::Choice;
use crate::filled::Whole;

/// What stands at a number.
pub(crate) trait ByNumber {
    fn number(&self) -> u32;
}

impl ByNumber for Choice {
    fn number(&self) -> u32 {
        self.number
    }
}

impl ByNumber for Change {
    fn number(&self) -> u32 {
        self.number
    }
}

/// It stands at the first of its numbers.
impl ByNumber for Whole {
    fn number(&self) -> u32 {
        self.number_at(0)
    }
}

/// The first place from one on that is of no lesser number; where there is none, the end.
pub(crate) fn first_from<T: ByNumber>(list: &[T], from: usize, number: u32) -> usize {
    for at in from..list.len() {
        if list[at].number() >= number {
            return at;
        }
    }
    list.len()
}
