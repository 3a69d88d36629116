//! Decimal numbers of a trace.

ghost use Rattle.std.specs.Prelude.{◌≡◌};
ghost use Rattle.rs_policy.specs.Texts.{is_digit};
ghost use Rattle.rs_trace.specs.Numbers.{number_of};

fn is_digit_octet(octet: u8) -> bool
    ensures { result ≡ is_digit octet }
{
    b'0' <= octet && octet <= b'9'
}

/// The value of 1 to 20 decimal digits, where it is at most `u64::MAX`.
pub fn read_number(text: &[u8]) -> Option<u64>
    ensures { result ≡ number_of text.now }
{
    if text.is_empty() || text.len() > 20 {
        return None;
    }
    let mut value: u64 = 0;
    for octet in text {
        if !is_digit_octet(*octet) {
            return None;
        }
        let digit = u64::from(*octet - b'0');
        value = value.checked_mul(10)?.checked_add(digit)?;
    }
    Some(value)
}
