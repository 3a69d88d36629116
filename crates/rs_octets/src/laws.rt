//! Laws of the definitions. Each contract is the law; the bodies do nothing, but where a derived
//! method is what the law speaks of.

ghost use Rattle.std.specs.Prelude.{◌≡◌, ℕ, List};
ghost use Rattle.rs_octets.specs.Laws.{IsCut, IsOnlyCut, JoinsPieces, GrowsBy, IsHeard, IsOnlyHeard, HasType, OfTypeIsMessage, IsHeardAlone, AreHeardOneByOne, HeardStays, NewIsOfTheRest, NothingBehindAFault, PiecesAreHeardAsOne, MessageInFrontIsHeard, FaultInFrontIsHeard, BeginningWaits, BeginningStillWaits, IsRead, IsOnlyRead, ReadsBack};
ghost use Rattle.std.specs.Cmp.{IsTotalOrder};
ghost use Rattle.rs_octets.specs.Prefixes.{prefix_order};
ghost use Rattle.std.proofs.lemmas.Map.Lookups.{CmpEqualImpliesEq};
ghost use Rattle.rs_octets.specs.declared.heads.Allowed.{Allowed};

use crate::prefix::Prefix;
use std::cmp::Ordering;

/// Octets are cut into messages and a rest in one way (RFC 4271, 4.1).
pub fn octets_are_cut_in_one_way()
    ensures cut { IsCut }
    ensures only { IsOnlyCut }
{}

/// It does not matter in which pieces octets come.
pub fn pieces_join()
    ensures { JoinsPieces }
{}

/// An octet more either makes what is left of the octets before it one message, or goes behind it.
pub fn octet_by_octet()
    ensures { (allowed : Allowed) (octets : List ℕ) (octet : ℕ) → GrowsBy allowed octets octet }
{}

/// What is heard of octets is one list: their messages, and then the fault, if there is one.
pub fn octets_are_heard_in_one_way()
    ensures heard { IsHeard }
    ensures only { IsOnlyHeard }
{}

/// A whole message is one of a type, and what is one of a type is a whole message.
pub fn a_message_has_a_type()
    ensures has { HasType }
    ensures is { OfTypeIsMessage }
{}

/// Messages are heard one by one: one alone with nothing left, and several one after the other in
/// their order.
pub fn messages_are_heard()
    ensures alone { IsHeardAlone }
    ensures one_by_one { AreHeardOneByOne }
{}

/// What later octets add to those before them: it is heard after what was heard, it does not matter
/// in which pieces they come, and after a fault nothing is heard.
pub fn later_octets_are_heard_behind()
    ensures stays { HeardStays }
    ensures new { NewIsOfTheRest }
    ensures fault { NothingBehindAFault }
    ensures pieces { PiecesAreHeardAsOne }
{}

/// What is heard of octets by what stands at their front; see [`crate::read_front`]. Where octets
/// are wanted nothing is heard before they are all there.
pub fn a_front_is_heard()
    ensures message { MessageInFrontIsHeard }
    ensures fault { FaultInFrontIsHeard }
    ensures waits { BeginningWaits }
    ensures still { BeginningStillWaits }
{}

/// A field of prefixes is read in one way (RFC 4271, 4.3).
pub fn fields_are_read_in_one_way()
    ensures read { IsRead }
    ensures only { IsOnlyRead }
{}

/// A field that spells prefixes holds just these.
pub fn prefixes_read_back()
    ensures { ReadsBack }
{}

/// The derived order of prefixes goes by the bits as a number, and then by length. It is total, and
/// equal prefixes alone are equal in it.
pub fn order_of(a: &Prefix, b: &Prefix) -> Ordering
    ensures value { result ≡ prefix_order a.now b.now }
    ensures total { IsTotalOrder prefix_order }
    ensures exact { CmpEqualImpliesEq prefix_order }
{
    a.cmp(b)
}
