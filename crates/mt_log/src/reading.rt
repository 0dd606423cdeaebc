ghost use Rattle.std.specs.Prelude.{◌≡◌, ◌≤◌, ◌<◌, ◌^◌, ◌-◌, ◌==◌, IfOk, OnOk, length};
ghost use Rattle.std.specs.List.{slice_split};
ghost use Rattle.mt_log.specs.Fault.{ReadsAs};
ghost use Rattle.mt_log.specs.Reader.{IsSoundReading, MayFollow};
ghost use Rattle.mt_log.specs.Reading.{fields_of, item_of, nothing_read, is_skipped, after_line, after_pieces, log_of, version_in};
ghost use Rattle.mt_log.specs.Trees.{IsReadable};

use crate::cuts::cut_line;
use crate::faults::{LogError, Why};
use crate::fields::{Fields, gather};
use crate::items::item_of;
use crate::lines::{Item, Log};
use crate::lists::ListOf;
use crate::reader::Reader;
use std::alloc::Global;

/// The length of a short step, as `load a 1`, with its LF.
const SHORT_STEP: usize = 9;

/// Whether a line says nothing.
fn is_skipped(line: &[u8]) -> bool
    ensures { result ≡ is_skipped line.now }
{
    matches!(line, [] | [b'#', ..])
}

/// What a line says, after what was read.
#[tactic(auto, using(crate::proofs::FirstFields::first_fields))]
fn said_in(reader: &Reader, line: &[u8]) -> Result<Item, Why>
    requires { length reader.now.trees < 2 ^ 32 }
    ensures item { result ≡ item_of reader.now (fields_of line.now) }
    ensures follows { IfOk result (MayFollow reader.now) }
{
    let mut fields = Fields::new();
    gather(line, &mut fields);
    item_of(reader, &fields)
}

fn read_line(reader: &mut Reader, line: &[u8]) -> Result<(), LogError>
    requires next { reader.old.next < 2 ^ 64 - 1 }
    requires sound { IsSoundReading reader.old }
    ensures line { ReadsAs (λ _. reader.new) result (after_line reader.old line.now) }
    ensures sound { OnOk result (IsSoundReading reader.new) }
{
    if is_skipped(line) {
        reader.skip();
        return Ok(());
    }
    match said_in(reader, line) {
        Ok(item) => {
            reader.add(item)?;
            Ok(())
        }
        Err(why) => Err(LogError::Bad {
            line: reader.next_line(),
            why,
        }),
    }
}

/// Reads the lines after the first.
#[tactic(auto, using(crate::proofs::Pieces::pieces_read, crate::proofs::Soundness::sound_nothing))]
fn read_lines(alloc: Global, text: &[u8]) -> Result<Reader, LogError>
    ensures lines { ReadsAs (λ r. r) result (after_pieces nothing_read (slice_split (λ b. b == 10) text.now)) }
    ensures sound { IfOk result (λ r. IsSoundReading r) }
    ensures count { IfOk result (λ r. length r.lines ≤ length text.now) }
{
    let mut reader = Reader::new(alloc, text.len() / SHORT_STEP)?;
    let mut rest = text;
    while let Some((line, others)) = cut_line(rest) {
        read_line(&mut reader, line)?;
        rest = others;
    }
    if !rest.is_empty() {
        return Err(LogError::Bad {
            line: reader.next_line(),
            why: Why::NoNewline,
        });
    }
    Ok(reader)
}

/// The version that line 1 names.
fn version_in(header: &[u8]) -> Option<u32>
    ensures { result ≡ version_in header.now }
{
    if header == b"mtlog 1".as_slice() {
        return Some(1);
    }
    if header == b"mtlog 2".as_slice() {
        return Some(2);
    }
    None
}

/// The log that the bytes are.
///
/// # Errors
///
/// `Bad` where the bytes are no log, with the first bad line and the first failed test of it; `NoMemory` where memory ran out.
#[tactic(auto, using(crate::proofs::Pieces::behind_header))]
pub fn read_log(alloc: Global, bytes: &[u8]) -> Result<Log, LogError>
    ensures log { ReadsAs (λ log. log) result (log_of bytes.now) }
    ensures readable { IfOk result (λ log. IsReadable log.lines) }
    ensures count { IfOk result (λ log. length log.lines ≤ length bytes.now) }
{
    let Some((header, text)) = cut_line(bytes) else {
        let why = if bytes.is_empty() {
            Why::Header
        } else {
            Why::NoNewline
        };
        return Err(LogError::Bad { line: 1, why });
    };
    let Some(version) = version_in(header) else {
        return Err(LogError::Bad {
            line: 1,
            why: Why::Header,
        });
    };
    let reader = read_lines(alloc, text)?;
    Ok(Log {
        version,
        lines: ListOf::new(reader.into_lines()),
    })
}
