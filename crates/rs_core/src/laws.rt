//! Laws of what a route server does over a run, and together with its link.

ghost use Rattle.rs_core.specs.Headline.{DrainedClientsHaveWhatIsDue};
ghost use Rattle.rs_core.specs.Told.InTurn.{HasWhatWasDue, TellsInTurn};
ghost use Rattle.rs_core.specs.Session.Conversed.{SendsInOrder, SendsNoneLonger};
ghost use Rattle.rs_core.specs.Owed.Sending.{SendsAllOwed};
ghost use Rattle.rs_core.specs.Owed.Draining.{RoomDrains};
ghost use Rattle.rs_core.specs.Drives.Serving.{ServesByOffers};
ghost use Rattle.rs_core.specs.Touched.SinceLastTurn.{AnswersByWhatWasAltered, TouchesWhatWasAltered};
ghost use Rattle.rs_core.specs.Touched.LastTurns.{AnswersByTheLastTurn};
ghost use Rattle.rs_core.specs.Told.Senders.{DueRoutesAreTheSenders, ToldRoutesAreTheSenders};

use crate::links::Link;

/// The claim of the whole. From `Core::new` on, after any number of calls of `drive` and `drive_with` with
/// a link: wherever a client is drained, as `is_drained` says, it is Established, and the UPDATEs that its
/// link took of the offers since its connection last began mean just the table that is due to it, each
/// route of which is its sender's.
pub fn drained_clients_have_what_is_due<L: Link>()
    ensures { DrainedClientsHaveWhatIsDue L.happens }
{}

/// From the start on, after any number of drives: where a client is served by the run, its link took
/// whole messages of the offers since it last began, as the client reads them, and their UPDATEs mean
/// just the table that is due to it.
#[tactic(auto, using(crate::proofs::Drives::Taking::serves))]
pub fn serves_by_offers()
    ensures { ServesByOffers }
{}

/// At each point of each run the Loc-RIB of a client that is Established is what was due to it at its
/// last turn since it is so, and empty before the first.
#[tactic(auto, using(crate::proofs::Told::InTurn::has_what_was_due))]
pub fn loc_rib_is_what_was_due()
    ensures { HasWhatWasDue }
{}

/// At each point of each run a client that is Established finds no header at fault in what its link
/// took. The UPDATEs in it tell it what was due at each prefix at the turns, in order; each value is what was
/// due at the last turn before its message began; and no value comes twice in a row, but where the
/// client asked for all routes in between.
pub fn clients_are_told_in_turn()
    ensures { TellsInTurn }
{}

/// At each point of each run what the link of a client took since its connection came, and what is in
/// flight to it, is a conversation: the server's OPEN, then KEEPALIVEs and, once it is Established,
/// UPDATEs with which nothing is wrong, then at most the NOTIFICATION that the end of its session asks
/// for, which waits until it begins. They are whole messages, none longer than the client takes, but
/// where a NOTIFICATION was heard: then what was in flight is dropped, and nothing follows.
pub fn messages_go_in_order()
    ensures { SendsInOrder }
{}

/// At each point of each run the link of a client took no message that is longer than the client
/// takes: 4,096 octets, and 65,535 once it is Established where long messages were agreed on.
pub fn no_message_is_too_long()
    ensures { SendsNoneLonger }
{}

/// Where a turn has decided all for a client that is Established, what is owed to it then is enough: with
/// no more octets than that it is drained, if nothing happens but that messages begin and octets are
/// taken.
#[tactic(auto, using(crate::proofs::Owed::Sent::sends_all_owed))]
pub fn sends_all_owed()
    ensures { SendsAllOwed }
{}

/// After a turn at which memory was not refused for a client that is Established, room for at least what
/// is owed to it, of which its link takes whole what it is offered, leaves it drained, whatever room other
/// clients had between the two: it was told just what is due to it.
pub fn room_behind_a_turn_drains()
    ensures { RoomDrains }
{}

/// At each point of each run: for a client that is Established all is touched where, since the last turn
/// that was done for it, it came up or other rules were accepted. Else just those prefixes are touched at
/// which another client was given another value since, and all where they are more than 4,096. Where memory
/// was refused for octets since, prefixes may be among them at which a message in these octets would have
/// given its sender another value, and no others.
#[tactic(auto, using(crate::proofs::Touched::Since::touches_what_was_altered))]
pub fn touches_what_was_altered()
    ensures { TouchesWhatWasAltered }
{}

/// What a turn answers for a client, by the run: it was whole just where all was touched, and counts the
/// prefixes that were altered, or where it was whole those that a client holds or that were due before.
/// Where memory was refused for octets since, it may count prefixes with them that messages in these octets
/// would have altered, and be whole where both together are more than 4,096.
pub fn answers_by_what_was_altered()
    ensures { AnswersByWhatWasAltered }
{}

/// At each point of each run `last` is what the last turn answered for a client: that memory was refused,
/// where it was, and the client was Established then; for one that was not, that nothing was decided; else
/// what was altered before that turn, as `answers_by_what_was_altered` has it. Before the first turn it is `Never`. Neither the end
/// of a session nor a new one changes it.
#[tactic(auto, using(crate::proofs::Touched::LastTurns::answers_by_the_last_turn))]
pub fn answers_by_the_last_turn()
    ensures { AnswersByTheLastTurn }
{}

/// Each route that is due to a client is another client's that the rules pass, with its sender's AS_PATH,
/// NEXT_HOP and MULTI_EXIT_DISC and all other attributes as they were announced, or with none where the
/// sender gave none (RFC 7947, 2.2). Only communities that the rules take away are missing.
#[tactic(auto, using(crate::proofs::Told::Senders::due_routes_are_the_senders))]
pub fn due_routes_are_the_senders()
    ensures { DueRoutesAreTheSenders }
{}

/// And so is each route that the UPDATEs mean that the link of a client took, where it is served, as it is
/// where it is drained.
pub fn told_routes_are_the_senders()
    ensures { ToldRoutesAreTheSenders }
{}
