//! Prefixes as numbers, by which pages go on, and the numbers that a text spells.

ghost use Rattle.std.specs.Prelude.{◌≡◌, ◌≤◌, ◌<◌, IfSome};
ghost use Rattle.rs_octets.specs.Prefixes.{Prefix, IsIpv4Prefix};
ghost use Rattle.rs_page_parts.specs.Keys.{key_of, IsAt};

use rs_octets::Prefix;

/// The number of a prefix: its bits, and in six bits more its length. Numbers rise as prefixes do.
pub fn key(prefix: &Prefix) -> u64
    ensures value { result ≡ key_of prefix.now }
    ensures small { result < 274877906944 }
    ensures prefix { IsIpv4Prefix prefix.now }
{
    u64::from(prefix.bits()) * 64 + u64::from(prefix.len())
}

/// A prefix whose number is at most this one: the prefix of that number, where there is one.
pub fn prefix_at(at: u64) -> Prefix
    ensures number { key_of result ≤ at }
    ensures prefix { IsIpv4Prefix result }
    ensures exact { (p : Prefix) → IsAt at p → result ≡ p }
{
    let bits = (at / 64).min(u64::from(u32::MAX)) as u32;
    let len = (at % 64).min(32) as u8;
    match Prefix::new(bits, len) {
        Some(prefix) => prefix,
        None => unreachable!(),
    }
}

/// The number that one to ten decimal digits spell, up to the highest.
pub fn read_number(text: &[u8], high: u64) -> Option<u64>
    ensures { IfSome result (λ n. n ≤ high) }
{
    if text.is_empty() || text.len() > 10 {
        return None;
    }
    let mut number: u64 = 0;
    for octet in text {
        if !octet.is_ascii_digit() {
            return None;
        }
        number = number
            .saturating_mul(10)
            .saturating_add(u64::from(*octet - b'0'));
    }
    if number > high { None } else { Some(number) }
}
