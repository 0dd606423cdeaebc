//! Numbers at the front of a text, each in its one spelling.

ghost use Rattle.std.specs.Prelude.{◌≡◌, ◌++◌, ◌<◌, ◌≤◌, ◌+◌, ◌*◌, ◌^◌, ◌↔◌, ℕ, List, IfSome, IfNone, IsTrue, SomeIff, length, take_while};
ghost use Rattle.std.specs.Char.{digit_value, is_ascii_digit};
ghost use Rattle.std.specs.Fmt.{decimal};
ghost use Rattle.std.specs.Str.Parse.{AllDigits, digits_value};
ghost use Rattle.mt_told.specs.Numbers.{EndsNumber, IsLed};

/// The value of digits and one more, if this byte is one and the value is below 2^64.
fn with_digit(value: u64, byte: u8) -> Option<u64>
    ensures { SomeIff result ((digit_value byte < 10) × (value * 10 + digit_value byte < 2 ^ 64)) (value * 10 + digit_value byte) }
{
    let digit = char::from(byte).to_digit(10)?;
    value.checked_mul(10)?.checked_add(u64::from(digit))
}

/// The value of digits, if each byte is one and the value is below 2^64.
#[tactic(auto, using(mt_log::proofs::Digits::all_read, mt_log::proofs::Digits::one_more, mt_log::proofs::Digits::stopped))]
fn value_of(digits: &[u8]) -> Option<u64>
    ensures { SomeIff result (AllDigits 10 digits.now × (digits_value 10 digits.now < 2 ^ 64)) (digits_value 10 digits.now) }
{
    let mut value = 0;
    for byte in digits {
        value = with_digit(value, *byte)?;
    }
    Some(value)
}

/// How many digits the text begins with.
fn digits_in_front(text: &[u8]) -> usize
    ensures { result ≡ length (take_while is_ascii_digit text.now) }
{
    text.iter().take_while(|byte| byte.is_ascii_digit()).count()
}

/// Whether there is a digit, and the first is no 0 unless it is the only one.
fn is_led(digits: &[u8]) -> bool
    ensures { IsTrue result ↔ IsLed digits.now }
{
    if digits.is_empty() {
        return false;
    }
    digits[0] != b'0' || digits.len() == 1
}

/// The number below 2^64 that a text begins with, as numbers are printed, and the text after it.
pub fn number_in_front(text: &[u8]) -> Option<(u64, &[u8])>
    ensures some { IfSome result (λ found. (text.now ≡ decimal found.0 ++ found.1.now) × EndsNumber found.1.now) }
    ensures none { IfNone result ((number : ℕ) (rest : List ℕ) → number < 2 ^ 64 → EndsNumber rest → text.now ≡ decimal number ++ rest → ⊥) }
{
    let (digits, rest) = text.split_at(digits_in_front(text));
    if !is_led(digits) {
        return None;
    }
    let number = value_of(digits)?;
    Some((number, rest))
}
