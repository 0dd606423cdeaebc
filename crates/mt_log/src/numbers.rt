ghost use Rattle.std.specs.Prelude.{◌≡◌, ◌<◌, ◌≤◌, ◌+◌, ◌*◌, ◌^◌, IfOk, SomeIff, length};
ghost use Rattle.std.specs.Char.{digit_value};
ghost use Rattle.std.specs.Str.Parse.{AllDigits, digits_value};
ghost use Rattle.mt_log.specs.Reading.{decimal_read, hexadecimal_read, number_read, index_read, size_read, entry_number_read, lane_number_read, count_read};
ghost use Rattle.mt_base.specs.Limits.{most_lanes};

use crate::faults::Why;
use mt_base::{Kind, top, width_of};

/// The most steps of one scan.
const LONGEST_SCAN: u64 = 65_536;

/// The greatest lane.
const LAST_LANE: u64 = 15;

/// The value of digits and one more, if this byte is a digit in the radix and the value is below 2^64.
fn with_digit(value: u64, radix: u32, byte: u8) -> Option<u64>
    requires lower_bound { 2 ≤ radix }
    requires upper_bound { radix ≤ 36 }
    ensures { SomeIff result ((digit_value byte < radix) × (value * radix + digit_value byte < 2 ^ 64)) (value * radix + digit_value byte) }
{
    let digit = char::from(byte).to_digit(radix)?;
    value
        .checked_mul(u64::from(radix))?
        .checked_add(u64::from(digit))
}

/// The value of digits in a radix, if each byte is one and the value is below 2^64.
#[tactic(auto, using(crate::proofs::Digits::all_read, crate::proofs::Digits::one_more, crate::proofs::Digits::stopped))]
fn value_of(digits: &[u8], radix: u32) -> Option<u64>
    requires lower_bound { 2 ≤ radix }
    requires upper_bound { radix ≤ 36 }
    ensures { SomeIff result (AllDigits radix digits.now × (digits_value radix digits.now < 2 ^ 64)) (digits_value radix digits.now) }
{
    let mut value = 0;
    for byte in digits {
        value = with_digit(value, radix, *byte)?;
    }
    Some(value)
}

/// The value of decimal digits and one more, if this byte is one, where 18 digits wrote the value at most.
fn with_decimal(value: u64, byte: u8) -> Option<u64>
    requires { value < 10 ^ 18 }
    ensures { SomeIff result ((digit_value byte < 10) × (value * 10 + digit_value byte < 2 ^ 64)) (value * 10 + digit_value byte) }
{
    let digit = char::from(byte).to_digit(10)?;
    Some(value * 10 + u64::from(digit))
}

/// The value of at most 19 decimal digits, if each byte is one. No value of theirs needs to be tested against 2^64.
#[tactic(auto, using(crate::proofs::Digits::all_read, crate::proofs::Digits::one_more, crate::proofs::Digits::stopped, crate::proofs::Digits::few_digits))]
fn short_value_of(digits: &[u8]) -> Option<u64>
    requires { length digits.now ≤ 19 }
    ensures { SomeIff result (AllDigits 10 digits.now × (digits_value 10 digits.now < 2 ^ 64)) (digits_value 10 digits.now) }
{
    let mut value = 0;
    for byte in digits {
        value = with_decimal(value, *byte)?;
    }
    Some(value)
}

/// The number that 1 to 20 decimal digits write.
#[tactic(auto, using(crate::proofs::Digits::decimal_from_value), unfolding(crate::specs::Reading::decimal_read))]
fn decimal_of(digits: &[u8]) -> Result<u64, Why>
    ensures { result ≡ decimal_read digits.now }
{
    if digits.is_empty() || digits.len() > 20 {
        return Err(Why::Number);
    }
    if digits.len() < 20 {
        return short_value_of(digits).ok_or(Why::Number);
    }
    value_of(digits, 10).ok_or(Why::Number)
}

/// The number that 1 to 16 hexadecimal digits write.
#[tactic(auto, using(crate::proofs::Digits::hexadecimal_from_value), unfolding(crate::specs::Reading::hexadecimal_read))]
fn hexadecimal_of(digits: &[u8]) -> Result<u64, Why>
    ensures { result ≡ hexadecimal_read digits.now }
{
    if digits.is_empty() || digits.len() > 16 {
        return Err(Why::Number);
    }
    value_of(digits, 16).ok_or(Why::Number)
}

/// The number that a field writes: `max`, which is `most`, or `0x` and hexadecimal digits, or decimal digits.
#[tactic(auto, unfolding(crate::specs::Reading::number_read))]
fn number_of(field: &[u8], most: u64) -> Result<u64, Why>
    ensures { result ≡ number_read most field.now }
{
    if field == b"max".as_slice() {
        return Ok(most);
    }
    match field.strip_prefix(b"0x".as_slice()) {
        Some(digits) => hexadecimal_of(digits),
        None => decimal_of(field),
    }
}

/// The index of a tree of this kind that a field writes.
#[tactic(auto, unfolding(crate::specs::Reading::index_read))]
pub fn index_of(field: &[u8], kind: Kind) -> Result<u64, Why>
    ensures { result ≡ index_read kind field.now }
{
    number_of(field, top(width_of(kind)))
}

/// The count of indexes that a field writes.
#[tactic(auto, unfolding(crate::specs::Reading::size_read))]
pub fn size_of(field: &[u8]) -> Result<u64, Why>
    ensures { result ≡ size_read field.now }
{
    number_of(field, u64::MAX)
}

/// The entry that a field writes.
#[tactic(auto, unfolding(crate::specs::Reading::entry_number_read))]
pub fn entry_number_of(field: &[u8]) -> Result<u64, Why>
    ensures { result ≡ entry_number_read field.now }
{
    number_of(field, u64::MAX)
}

/// The lane that a field writes.
#[tactic(auto, unfolding(crate::specs::Reading::lane_number_read))]
pub fn lane_number_of(field: &[u8]) -> Result<u32, Why>
    ensures lane { result ≡ lane_number_read field.now }
    ensures within { IfOk result (λ lane. lane < most_lanes) }
{
    match number_of(field, u64::MAX) {
        Ok(lane @ 0..=LAST_LANE) => Ok(lane as u32),
        Ok(_) | Err(_) => Err(Why::LaneNo),
    }
}

/// The count of a scan that a field writes.
#[tactic(auto, unfolding(crate::specs::Reading::count_read))]
pub fn count_of(field: &[u8]) -> Result<u32, Why>
    ensures { result ≡ count_read field.now }
{
    match number_of(field, u64::MAX) {
        Ok(count @ 1..=LONGEST_SCAN) => Ok(count as u32),
        Ok(_) | Err(_) => Err(Why::Count),
    }
}
