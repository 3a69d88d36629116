//! Laws of the definitions. Each contract is the law; the bodies do nothing.

ghost use Rattle.std.specs.List.{Contains};
ghost use Rattle.std.specs.Prelude.{◌≡◌, ◌↔◌, ℕ, List, None, Ok};
ghost use Rattle.rs_octets.specs.Prefixes.{Prefix};
ghost use Rattle.toml.specs.Data.{Data};
ghost use Rattle.rs_policy.specs.Accepted.{AcceptedSays};
ghost use Rattle.rs_policy.specs.Configuration.{Client, NamedList, Configuration};
ghost use Rattle.rs_policy.specs.Documents.{config_of};
ghost use Rattle.rs_policy.specs.Reasons.{DeciderDecides};
ghost use Rattle.rs_policy.specs.Replacing.{first_fixed, IsFixed};
ghost use Rattle.rs_policy.specs.Sound.{IsSound};
ghost use Rattle.rs_policy.specs.Verdicts.{has_prefix, AsksNoReceiver};
ghost use Rattle.rs_policy.specs.NamedLists.{listing};
ghost use Rattle.rs_policy.specs.Older.{AnswersAsBefore, IsOlder, IsOlderDocument, MeansWhatItMeant};
ghost use Rattle.rs_policy.specs.declared.faults.Place.{Place};
ghost use Rattle.rs_policy.specs.declared.rules.Range.{Range};

/// A configuration may replace another exactly where all but the default, the limits and the rules is
/// what it was.
#[tactic(auto, using(crate::proofs::Replacing::Fixed::nothing_fixed))]
pub fn a_replacement_keeps_what_is_fixed()
    ensures { (old new : Configuration) → (first_fixed old new ≡ None) ↔ IsFixed old new }
{}

/// Each key of an accepted text was read as its check reads it: no value in a configuration stands for
/// a fault.
#[tactic(auto, using(crate::proofs::Accepted::Passing::accepted_says))]
pub fn an_accepted_text_says_each_value()
    ensures { AcceptedSays }
{}

/// Lists in which the same ranges stand have the same prefixes, in whatever order and however often each
/// stands.
pub fn a_list_ignores_order()
    ensures { (xs ys : List Range) → ((r : Range) → Contains xs r ↔ Contains ys r)
        → (p : Prefix) → has_prefix (listing xs) p ≡ has_prefix (listing ys) p }
{}

/// A rule without `path_longer`, `path_in`, `first_as_is_peer`, `large_community`, `strip_large`, `*` and
/// `peer` has the fault, matches the routes and takes away the communities that it did before there were these.
pub fn an_older_rule_means_what_it_meant()
    ensures { (clients : List Client) (lists : List NamedList) (place : Place) (d : Data) → IsOlder d → MeansWhatItMeant clients lists place d }
{}

/// A document without `rules` and `use` has the fault, or is the configuration, that it was before there were
/// these keys.
pub fn an_older_text_means_what_it_meant()
    ensures { (d : Data) → IsOlderDocument d → AnswersAsBefore d }
{}

/// What the import list of a client makes of a route is the same, whoever is sent it: no rule there asks for
/// the receiver.
pub fn an_import_list_asks_no_receiver()
    ensures { (text : List ℕ) (s : Configuration) → config_of text ≡ Ok s → AsksNoReceiver s }
{}

/// Where `reasons_for` says that a list decided stands the first rule of the list, written out, that matches; and
/// none matches where it says that the default did. So it decided what becomes of the route.
#[tactic(auto, using(crate::proofs::Judging::Placed::decider_decides))]
pub fn the_decider_decides()
    ensures { DeciderDecides }
{}

/// What every configuration has: an identifier, no Hold Time of 1 or 2 seconds, 1 to 512 clients of
/// which no two have one name or one pair of `listen` and `peer`, at most 1,024 lists of which no two have
/// one name, at most 4,096 rules in a client's list with those that it uses, and rules whose lengths are in range and which name clients
/// and lists that are there.
pub fn every_configuration_is_sound()
    ensures { (text : List ℕ) (s : Configuration) → config_of text ≡ Ok s → IsSound s }
{}
