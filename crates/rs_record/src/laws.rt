//! Laws of what lines say. Each contract is the law; the bodies do nothing.

ghost use Rattle.rs_record.specs.Saying.{SayInTurn, SaysAll, TextsAreSaid};

/// A trace of lines that say this has just these meanings, in their order, and no fault: so `rs_trace`
/// replays just the events of a record, whatever was recorded.
#[tactic(auto, using(crate::proofs::Saying::says_all))]
pub fn lines_say_their_events()
    ensures { SaysAll }
{}

/// What is recorded in parts, as in drives one after the other, says what the parts say.
#[tactic(auto, using(crate::proofs::Saying::say_in_turn))]
pub fn lines_say_in_turn()
    ensures { SayInTurn }
{}

/// A text that [`rs_open::ShutdownText::of`] has made is recorded as it is.
#[tactic(auto, using(crate::proofs::Shutdowns::texts_are_said))]
pub fn texts_are_said()
    ensures { TextsAreSaid }
{}
