//! Lines and columns of a text.

ghost use Rattle.std.specs.Prelude.{◌≡◌};
ghost use Rattle.rs_places.specs.Positions.{goes_on, place_behind};

/// Whether an octet of UTF-8 begins no character.
fn goes_on(octet: u8) -> bool
    ensures { result ≡ goes_on octet }
{
    128 <= octet && octet < 192
}

/// The line and the column behind some octets, both from 1.
pub fn line_and_column(octets: &[u8]) -> (usize, usize)
    ensures { result ≡ place_behind octets.now }
{
    let mut line: usize = 1;
    let mut column: usize = 1;
    for octet in octets {
        if *octet == b'\n' {
            line += 1;
            column = 1;
        } else if !goes_on(*octet) {
            column += 1;
        }
    }
    (line, column)
}
