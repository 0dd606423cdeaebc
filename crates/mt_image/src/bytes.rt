//! Numbers as bytes, 8 for each, the lowest first.

ghost use Rattle.std.specs.Prelude.{◌≡◌, ◌+◌, ◌*◌, ◌++◌, ◌≤◌, ◌<◌, ◌^◌, IfOk, OnOk, length};
ghost use Rattle.std.specs.List.{flat_map};
ghost use Rattle.std.specs.Int.{w64, to_le_bytes};
ghost use Rattle.mt_image.specs.Bytes.{kind_code};
ghost use Rattle.mt_image.specs.Reading as defined;
ghost use Rattle.mt_image.specs.Reading.{numbers_from};

use mt_base::{Kind, NoMemory};
use std::alloc::Global;

/// An image begins with this text.
pub(crate) const TEXT: [u8; 8] = *b"mtimage1";

/// How many bytes come before the words of the nodes.
pub(crate) const HEAD: usize = 32;

/// The number of a kind.
pub(crate) fn code_of(kind: Kind) -> u64
    ensures { result ≡ kind_code kind }
{
    match kind {
        Kind::Range => 0,
        Kind::Alloc => 1,
        Kind::Range32 => 2,
        Kind::Alloc32 => 3,
    }
}

/// Appends the bytes of a number.
fn push_number(bytes: &mut Vec<u8>, number: u64) -> Result<(), NoMemory>
    ensures { OnOk result (bytes.new.items ≡ bytes.old.items ++ to_le_bytes w64 number) }
{
    bytes.extend_from_slice(&number.to_le_bytes())?;
    Ok(())
}

/// Appends the bytes of these numbers.
pub(crate) fn push_numbers(bytes: &mut Vec<u8>, numbers: &[u64]) -> Result<(), NoMemory>
    ensures { OnOk result (bytes.new.items ≡ bytes.old.items ++ flat_map (to_le_bytes w64) numbers.now) }
{
    for number in numbers {
        push_number(bytes, *number)?;
    }
    Ok(())
}

/// The number in the 8 bytes from a place on.
pub(crate) fn number_at(bytes: &[u8], at: usize) -> u64
    requires { at + 8 ≤ length bytes.now }
    ensures { result ≡ defined.number_at bytes.now at }
{
    let mut number = [0; 8];
    number.copy_from_slice(&bytes[at..at + 8]);
    u64::from_le_bytes(number)
}

/// So many numbers from a place on.
pub(crate) fn read_numbers(
    alloc: Global,
    bytes: &[u8],
    at: usize,
    count: usize,
) -> Result<Vec<u64>, NoMemory>
    requires inside { at + 8 * count ≤ length bytes.now }
    requires room { length bytes.now < 2 ^ 32 }
    ensures { IfOk result (λ numbers. numbers.items ≡ numbers_from bytes.now at count) }
{
    let mut numbers = Vec::new(alloc);
    for i in 0..count {
        numbers.push(number_at(bytes, at + 8 * i))?;
    }
    Ok(numbers)
}
