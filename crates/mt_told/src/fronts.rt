//! What a text begins with, and the rest of it.

ghost use Rattle.std.specs.Prelude.{◌≡◌, ◌++◌, ◌∷◌, ◌==◌, ◌<◌, ◌^◌, false, ℕ, List, IfSome, IfNone, position};
ghost use Rattle.std.specs.Char.{is_ascii_digit};
ghost use Rattle.std.specs.Fmt.{decimal};
ghost use Rattle.mt_told.specs.Fronts.{IsLineBefore, IsNumberBefore};

use crate::numbers::number_in_front;

/// The text after a word, if it begins with the word.
#[tactic(auto, using(crate::proofs::OneWay::word_in_front, crate::proofs::OneWay::word_not_in_front))]
pub fn behind_word<'t>(text: &'t [u8], word: &[u8]) -> Option<&'t [u8]>
    ensures some { IfSome result (λ rest. text.now ≡ word.now ++ rest.now) }
    ensures none { IfNone result ((rest : List ℕ) → text.now ≡ word.now ++ rest → ⊥) }
{
    text.strip_prefix(word)
}

/// The text after a byte, if it begins with the byte.
fn behind_byte(text: &[u8], byte: u8) -> Option<&[u8]>
    ensures some { IfSome result (λ rest. text.now ≡ byte ∷ rest.now) }
    ensures none { IfNone result ((rest : List ℕ) → text.now ≡ byte ∷ rest → ⊥) }
{
    let (first, rest) = text.split_first()?;
    if *first != byte {
        return None;
    }
    Some(rest)
}

/// The number below 2^64 that the text begins with, before this byte, which is no digit; and the text after both.
#[tactic(auto, using(crate::proofs::OneWay::numbers_apart, crate::proofs::OneWay::number_stands_before))]
pub fn number_before(text: &[u8], end: u8) -> Option<(u64, &[u8])>
    requires { is_ascii_digit end ≡ false }
    ensures some { IfSome result (λ found. IsNumberBefore text.now end found.0 found.1.now) }
    ensures none { IfNone result ((number : ℕ) (rest : List ℕ) → number < 2 ^ 64 → text.now ≡ decimal number ++ (end ∷ rest) → ⊥) }
{
    let (number, behind) = number_in_front(text)?;
    let rest = behind_byte(behind, end)?;
    Some((number, rest))
}

/// The text after this number and this byte, which is no digit, if it begins with them.
pub fn behind_number(text: &[u8], number: u64, end: u8) -> Option<&[u8]>
    requires { is_ascii_digit end ≡ false }
    ensures some { IfSome result (λ rest. text.now ≡ decimal number ++ (end ∷ rest.now)) }
    ensures none { IfNone result ((rest : List ℕ) → text.now ≡ decimal number ++ (end ∷ rest) → ⊥) }
{
    let (found, rest) = number_before(text, end)?;
    if found != number {
        return None;
    }
    Some(rest)
}

/// Where the first LF is.
fn line_end(text: &[u8]) -> Option<usize>
    ensures { result ≡ position (λ byte. byte == 10) text.now }
{
    text.iter().position(|byte| *byte == b'\n')
}

/// The first line of the text, and the text after its LF.
#[tactic(auto, using(crate::proofs::OneWay::some_end))]
pub fn line_in_front(text: &[u8]) -> Option<(&[u8], &[u8])>
    ensures some { IfSome result (λ found. IsLineBefore text.now found.0.now found.1.now) }
    ensures none { IfNone result ((line rest : List ℕ) → text.now ≡ line ++ (10 ∷ rest) → ⊥) }
{
    let end = line_end(text)?;
    Some((&text[..end], &text[end + 1..]))
}
