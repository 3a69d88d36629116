//! Laws of the choice.

ghost use Rattle.rs_decision.specs.Best.{BestIgnoresOrder, BestIsUnbeaten, BestStaysWithout};

/// The answer is a member that none of the filters removes.
pub fn best_is_unbeaten()
    ensures { BestIsUnbeaten }
{}

/// The answer depends on the set of the ranks alone, not on the order of the list.
pub fn best_ignores_order()
    ensures { BestIgnoresOrder }
{}

/// Without a rank that isn't the best the best stays, where no rank loses to that one by MULTI_EXIT_DISC. Where one does, it may
/// be the best of the others (RFC 4271, 9.1.2.2 c).
pub fn best_stays_without()
    ensures { BestStaysWithout }
{}
