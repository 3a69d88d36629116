//! Numbers, addresses, prefixes and texts, as pages have them.

ghost use Rattle.std.specs.Prelude.{◌≡◌, ◌++◌, ◌<◌, decimal, OnOk};
ghost use Rattle.rs_page_parts.specs.Texts.{address_text, prefix_text, is_plain, hex_digit, json_octet, html_octet, json_text, html_text};

use itoa::Buffer;
use rs_octets::Prefix;
use std::alloc::AllocError;

/// Puts a number in decimal.
pub fn put_number(text: &mut Vec<u8>, number: u64) -> Result<(), AllocError>
    ensures { OnOk result (text.new.items ≡ text.old.items ++ decimal number) }
{
    let mut digits = Buffer::new();
    text.extend_from_slice(digits.format(number).as_bytes())
}

/// Puts an address, `192.0.2.1`.
#[tactic(auto, unfolding(crate::specs::Texts::address_text))]
pub fn put_address(text: &mut Vec<u8>, address: u32) -> Result<(), AllocError>
    ensures { OnOk result (text.new.items ≡ text.old.items ++ address_text address) }
{
    let [a, b, c, d] = address.to_be_bytes();
    put_number(text, u64::from(a))?;
    text.extend_from_slice(b".")?;
    put_number(text, u64::from(b))?;
    text.extend_from_slice(b".")?;
    put_number(text, u64::from(c))?;
    text.extend_from_slice(b".")?;
    put_number(text, u64::from(d))
}

/// Puts a prefix, `192.0.2.0/24`.
#[tactic(auto, unfolding(crate::specs::Texts::prefix_text))]
pub fn put_prefix(text: &mut Vec<u8>, prefix: &Prefix) -> Result<(), AllocError>
    ensures { OnOk result (text.new.items ≡ text.old.items ++ prefix_text prefix.now) }
{
    put_address(text, prefix.bits())?;
    text.extend_from_slice(b"/")?;
    put_number(text, u64::from(prefix.len()))
}

/// An octet stands for itself in a string of JSON and in HTML alike.
fn is_plain(octet: u8) -> bool
    ensures { result ≡ is_plain octet }
{
    octet >= 32
        && octet != 127
        && octet != b'"'
        && octet != b'&'
        && octet != b'\''
        && octet != b'<'
        && octet != b'>'
        && octet != b'\\'
}

/// The lower case hexadecimal digit of a number below 16.
fn hex_digit(number: u8) -> u8
    requires { number < 16 }
    ensures { result ≡ hex_digit number }
{
    if number < 10 {
        b'0' + number
    } else {
        b'a' + (number - 10)
    }
}

/// Puts an octet within a string of JSON (RFC 8259, 7): what is not plain by its number.
fn put_json_octet(text: &mut Vec<u8>, octet: u8) -> Result<(), AllocError>
    ensures { OnOk result (text.new.items ≡ text.old.items ++ json_octet octet) }
{
    if is_plain(octet) {
        text.push(octet)?;
        return Ok(());
    }
    text.extend_from_slice(b"\\u00")?;
    text.push(hex_digit(octet / 16))?;
    text.push(hex_digit(octet % 16))?;
    Ok(())
}

/// Puts an octet within HTML: what is not plain as a reference to its number.
fn put_html_octet(text: &mut Vec<u8>, octet: u8) -> Result<(), AllocError>
    ensures { OnOk result (text.new.items ≡ text.old.items ++ html_octet octet) }
{
    if is_plain(octet) {
        text.push(octet)?;
        return Ok(());
    }
    text.extend_from_slice(b"&#")?;
    put_number(text, u64::from(octet))?;
    text.extend_from_slice(b";")
}

/// Puts octets as the inside of a string of JSON (RFC 8259, 7): what is not plain by its number.
pub fn put_json(text: &mut Vec<u8>, octets: &[u8]) -> Result<(), AllocError>
    ensures { OnOk result (text.new.items ≡ text.old.items ++ json_text octets.now) }
{
    let mut rest = octets;
    while let Some((octet, behind)) = rest.split_first() {
        put_json_octet(text, *octet)?;
        rest = behind;
    }
    Ok(())
}

/// Puts octets as text or an attribute's value of HTML: what is not plain as a reference to its number.
pub fn put_html(text: &mut Vec<u8>, octets: &[u8]) -> Result<(), AllocError>
    ensures { OnOk result (text.new.items ≡ text.old.items ++ html_text octets.now) }
{
    let mut rest = octets;
    while let Some((octet, behind)) = rest.split_first() {
        put_html_octet(text, *octet)?;
        rest = behind;
    }
    Ok(())
}

/// Puts a 32-bit number as `0x` and hexadecimal digits.
pub fn put_hex(text: &mut Vec<u8>, number: u32) -> Result<(), AllocError> {
    text.extend_from_slice(b"0x")?;
    for octet in number.to_be_bytes() {
        text.push(hex_digit(octet / 16))?;
        text.push(hex_digit(octet % 16))?;
    }
    Ok(())
}
