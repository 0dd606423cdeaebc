ghost use Rattle.std.specs.Prelude.{◌≡◌, ◌<◌, ◌^◌, vec_len, OnOk, OnErr, IfOk, IfErr};
ghost use Rattle.std.specs.Io.KnownBytes.{Appends};
ghost use Rattle.mt_io.specs.Faults.{Rose};
ghost use Rattle.mt_program.specs.Ending.{ReadsNoFurther, TellsText};
ghost use Rattle.mt_program.specs.Input.{ReadsAll, ReadFails};

use mt_io::{Failed, Sink, Source};
use std::alloc::{AllocError, Global};

/// How many bytes a call reads, if that many are left.
const PIECE: usize = 65_536;

/// Why no input was read.
#[derive(Clone, Copy, Debug, PartialEq, Eq)]
pub enum ReadError {
    /// The source failed.
    Fault,
    /// There are more bytes than an input may have.
    TooLong,
    /// Memory ran out.
    NoMemory,
}

impl From<Failed> for ReadError {
    ghost use Rattle.std.specs.Prelude.{◌≡◌};
    ghost use Rattle.mt_program.specs.declared.streams.ReadError.TheVariants.{Fault};

    ghost from_gives = { λ _ e. e ≡ Fault };

    fn from(_: Failed) -> Self {
        ReadError::Fault
    }
}

impl From<AllocError> for ReadError {
    ghost use Rattle.std.specs.Prelude.{◌≡◌};
    ghost use Rattle.mt_program.specs.declared.streams.ReadError.TheVariants.{NoMemory};

    ghost from_gives = { λ _ e. e ≡ NoMemory };

    fn from(_: AllocError) -> Self {
        ReadError::NoMemory
    }
}

fn new_buffer(alloc: Global) -> Result<Vec<u8>, AllocError>
    ensures { IfOk result (λ v. vec_len v ≡ PIECE) }
{
    vec![in alloc; 0; PIECE]
}

/// Reads an input of at most `limit` bytes to its end. It reads at most one byte more.
///
/// # Errors
///
/// The source failed, there is a byte too many, or memory ran out. What was read is lost.
#[tactic(auto, using(crate::proofs::Pieces::reading))]
pub fn read_input<S: Source>(alloc: Global, src: &mut S, limit: usize) -> Result<Vec<u8>, ReadError>
    requires limit { limit < 2 ^ 32 }
    ensures all { IfOk result (λ v. ReadsAll limit (S.left src.old) (S.left src.new) v.items) }
    ensures quiet { OnOk result (S.faults src.new ≡ S.faults src.old) }
    ensures fails { IfErr result (λ e. ReadFails limit e (S.left src.old) (S.left src.new) (S.faults src.old) (S.faults src.new)) }
    ensures reach { ReadsNoFurther limit (S.left src.old) (S.left src.new) }
    ensures in_time { S.faults src.old ≡ 0 → S.late src.old ≡ 0 → S.late src.new ≡ 0 }
{
    let mut storage = new_buffer(alloc)?;
    let buf = storage.as_mut_slice();
    let mut bytes = Vec::new(alloc);
    for _turn in 0..=limit {
        let room = buf.len().min(limit + 1 - bytes.len());
        let piece = &mut buf[..room];
        let count = src.read(piece)?;
        if count == 0 {
            return Ok(bytes);
        }
        bytes.extend_from_slice(&piece[..count])?;
        if bytes.len() > limit {
            return Err(ReadError::TooLong);
        }
    }
    unreachable!()
}

/// Writes all the bytes, the rest of them at each call.
///
/// # Errors
///
/// The sink failed, and got the first bytes alone.
#[tactic(auto, using(crate::proofs::Pieces::writing))]
pub fn write_output<O: Sink>(out: &mut O, bytes: &[u8]) -> Result<(), Failed>
    ensures all { OnOk result (Appends (O.written out.old) (O.written out.new) bytes.now) }
    ensures quiet { OnOk result (O.faults out.new ≡ O.faults out.old) }
    ensures fault { OnErr result (Rose (O.faults out.old) (O.faults out.new)) }
    ensures part { TellsText (O.written out.old) (O.written out.new) (O.faults out.old) (O.faults out.new) bytes.now }
    ensures in_time { O.faults out.old ≡ 0 → O.late out.old ≡ 0 → O.late out.new ≡ 0 }
{
    let mut rest = bytes;
    while !rest.is_empty() {
        let count = out.write(rest)?;
        rest = &rest[count..];
    }
    Ok(())
}
