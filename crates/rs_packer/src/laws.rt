//! Laws of the definitions: the contract is the law, and the body does nothing.

ghost use Rattle.rs_packer.specs.Laws.{UpdateIsMessage, UpdateHasItsBody, AnnouncedFrontIs, AnnouncedFrontIsOnly, WithdrawnFrontIs, WithdrawnFrontIsOnly, AnnouncementHolds, AnnouncementAnnounces, AnnouncementHasEffect, AnnouncementHasNoOtherEffect, WithdrawalHolds, WithdrawalWithdraws, WithdrawalHasEffect, WithdrawalHasNoOtherEffect};

/// An UPDATE that is no longer than its receiver takes is one whole message of that type; see
/// [`rs_octets::laws::messages_are_heard`].
pub fn update_is_a_message()
    ensures message { UpdateIsMessage }
    ensures body { UpdateHasItsBody }
{}

/// There is one longest front of a list that fits into a message, and the computed one is it.
pub fn the_longest_front_is_one()
    ensures announced { AnnouncedFrontIs }
    ensures announced_only { AnnouncedFrontIsOnly }
    ensures withdrawn { WithdrawnFrontIs }
    ensures withdrawn_only { WithdrawnFrontIsOnly }
{}

/// What an announcement denotes, read by its receiver: nothing withdrawn, and just its prefixes
/// announced with just its attributes, without a fault, for four-octet and for two-octet peers
/// (RFC 4271, 4.3; RFC 6793; RFC 7606).
pub fn announcement_denotes()
    ensures holds { AnnouncementHolds }
    ensures announces { AnnouncementAnnounces }
    ensures effect { AnnouncementHasEffect }
    ensures only { AnnouncementHasNoOtherEffect }
{}

/// What a withdrawal denotes, read by its receiver: just its prefixes withdrawn, and nothing
/// announced, without a fault (RFC 4271, 4.3; RFC 7606).
pub fn withdrawal_denotes()
    ensures holds { WithdrawalHolds }
    ensures withdraws { WithdrawalWithdraws }
    ensures effect { WithdrawalHasEffect }
    ensures only { WithdrawalHasNoOtherEffect }
{}
