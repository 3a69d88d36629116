//! Which Hold Times are refused.

ghost use Rattle.std.specs.Prelude.{◌≡◌};
ghost use Rattle.rs_octets.specs.HoldTimes;

/// Whether a Hold Time is neither 0 nor at least 3 seconds (RFC 4271, 4.2 and 6.2).
pub fn is_refused_hold(hold: u16) -> bool
    ensures { result ≡ HoldTimes.is_refused_hold hold }
{
    hold == 1 || hold == 2
}
