//! The words of a line. It reads octets and knows nothing of what they mean.

ghost use Rattle.std.specs.Prelude.{◌≡◌, ◌==◌, ℕ, List, [], ◌∷◌, MatchOption, position};
ghost use Rattle.rs_trace.specs.Words.{words_of, AreOperands};

/// What follows a line's first word. No line of a trace has more than two words there.
#[derive(Clone, Copy)]
pub enum Operands<'a> {
    Nothing,
    One(&'a [u8]),
    Two(&'a [u8], &'a [u8]),
    More,
}

/// The place of the first octet of this kind.
pub fn first_place(octet: u8, text: &[u8]) -> Option<usize>
    ensures { result ≡ position (λ x. x == octet) text.now }
{
    text.iter().position(|x| *x == octet)
}

/// What stands before the first space, and what stands after it where there is one.
fn split_word(text: &[u8]) -> (&[u8], Option<&[u8]>)
    ensures { MatchOption result.1 (words_of text.now ≡ result.0.now ∷ []) (λ rest. words_of text.now ≡ result.0.now ∷ words_of rest.now) }
{
    match first_place(b' ', text) {
        Some(space) => (&text[..space], Some(&text[space + 1..])),
        None => (text, None),
    }
}

/// Splits a line at each single space, so that a word may be empty.
pub fn split_words(line: &[u8]) -> (&[u8], Operands<'_>)
    ensures { (operands : List (List ℕ)) × (words_of line.now ≡ result.0.now ∷ operands) × AreOperands result.1 operands }
{
    let (word, rest) = split_word(line);
    let Some(rest) = rest else {
        return (word, Operands::Nothing);
    };
    let (first, rest) = split_word(rest);
    let Some(rest) = rest else {
        return (word, Operands::One(first));
    };
    let (second, rest) = split_word(rest);
    let operands = match rest {
        None => Operands::Two(first, second),
        Some(_) => Operands::More,
    };
    (word, operands)
}
