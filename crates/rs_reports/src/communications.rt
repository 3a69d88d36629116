//! The text by which a member says why it ends a session (RFC 9003).

ghost use Rattle.std.specs.Prelude.{◌≡◌, ◌∷◌, ℕ, List, true, false, length, Some, option_map, IfSome, IsSome, IsUtf8};
ghost use Rattle.rs_reports.specs.Communications;
ghost use Rattle.rs_reports.specs.Communications.{front_of, said_in, IsFrontOf};

use rs_core::NOTICE_MAX;

/// What a NOTIFICATION says in words.
#[derive(Clone, Copy, Debug, PartialEq, Eq)]
pub struct Communication<'a> {
    pub text: &'a str,
    /// The text is all that was said; else a front of it.
    pub is_whole: bool,
}

/// Cease, with a subcode whose data is a text: Administrative Shutdown or Administrative Reset.
fn has_text(code: u8, sub: u8) -> bool
    ensures { result ≡ Communications.has_text code sub }
{
    code == 6 && (sub == 2 || sub == 4)
}

/// The characters of octets of UTF-8 that may be cut within the last one.
#[tactic(auto, using(crate::proofs::Fronts::front_whole))]
fn front(octets: &[u8]) -> Option<&str>
    ensures { option_map (λ text. text.now) result ≡ front_of octets.now }
{
    let error = match str::from_utf8(octets) {
        Ok(text) => return Some(text),
        Err(error) => error,
    };
    if error.error_len().is_some() {
        return None;
    }
    let (text, _) = octets.split_at_checked(error.valid_up_to())?;
    match str::from_utf8(text) {
        Ok(text) => Some(text),
        Err(_) => None,
    }
}

/// The text in a NOTIFICATION of this error code and subcode with these octets of data, of which
/// `NOTICE_MAX` at most are kept: a length octet, and so many octets of UTF-8. `None` where it has none.
pub fn communication_in(code: u8, sub: u8, octets: &[u8]) -> Option<Communication<'_>>
    ensures kind { IsSome result → Communications.has_text code sub ≡ true }
    ensures whole { (text : List ℕ) → Communications.has_text code sub ≡ true → IsUtf8 text → octets.now ≡ length text ∷ text → option_map said_in result ≡ Some (text, true) }
    ensures cut { (text : List ℕ) → Communications.has_text code sub ≡ true → IsFrontOf octets.now text → option_map said_in result ≡ Some (text, false) }
    ensures said { IfSome result (λ it. it.is_whole ≡ true → octets.now ≡ length it.text.now ∷ it.text.now) }
    ensures front { IfSome result (λ it. it.is_whole ≡ false → IsFrontOf octets.now it.text.now) }
{
    let [length, rest @ ..] = octets else {
        return None;
    };
    let length = usize::from(*length);
    if !has_text(code, sub) || length < rest.len() {
        return None;
    }
    if length == rest.len() {
        let text = str::from_utf8(rest).ok()?;
        return Some(Communication {
            text,
            is_whole: true,
        });
    }
    if octets.len() < NOTICE_MAX {
        return None;
    }
    let text = front(rest)?;
    Some(Communication {
        text,
        is_whole: false,
    })
}
