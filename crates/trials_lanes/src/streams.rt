//! Sources and sinks: what reads give and what writes take, call by call.

ghost use Rattle.std.specs.Prelude.{◌≡◌};

use crate::asserts::same;
use mt_io::{Failed, MemSink, MemSource, Sink, Source, StdSink, StdSource};
use std::alloc::{AllocError, Global};
use std::io::{self, ErrorKind, Read};
use std::process::Abort;
use std::test::Fail;

const LETTERS: &[u8] = b"abcdefghij";

/// Adds the bytes of a call, `.` if there are none, or `!` if it failed.
fn note(seen: &mut String, outcome: Result<&[u8], Failed>) -> Result<(), AllocError> {
    seen.push(' ')?;
    match outcome {
        Ok([]) => seen.push('.'),
        Ok(bytes) => {
            for &byte in bytes {
                seen.push(char::from(byte))?;
            }
            Ok(())
        }
        Err(Failed) => seen.push('!'),
    }
}

/// So many reads with this room from a new source give what is wanted.
fn expect_reads<S: Source>(
    rt: &impl Abort,
    alloc: Global,
    source: &mut S,
    room: usize,
    calls: usize,
    want: &str,
) -> Result<(), AllocError>
    requires faults { S.faults source.old ≡ 0 }
    requires late { S.late source.old ≡ 0 }
{
    let mut buf = vec![in alloc; b'?'; room]?;
    let mut seen = String::new(alloc);
    for _ in 0..calls {
        let outcome = source.read(&mut buf);
        note(&mut seen, outcome.map(|count| &buf[..count]))?;
    }
    same(rt, seen.as_str(), want, want);
    Ok(())
}

/// So many writes to a new sink take what is wanted of the letters, each going on where the one before it stopped.
fn expect_writes<K: Sink>(
    rt: &impl Abort,
    alloc: Global,
    sink: &mut K,
    calls: usize,
    want: &str,
) -> Result<(), AllocError>
    requires faults { K.faults sink.old ≡ 0 }
    requires late { K.late sink.old ≡ 0 }
{
    let mut rest = LETTERS;
    let mut seen = String::new(alloc);
    for _ in 0..calls {
        match sink.write(rest) {
            Ok(count) => {
                note(&mut seen, Ok(&rest[..count]))?;
                rest = &rest[count..];
            }
            Err(failed) => note(&mut seen, Err(failed))?,
        }
    }
    same(rt, seen.as_str(), want, want);
    Ok(())
}

/// The bytes at a call, the calls that fail, the room of a read, how many reads, and what they give.
type Reads = (usize, &'static [u64], usize, usize, &'static str);

const READS: &[Reads] = &[
    (1, &[], 4, 11, " a b c d e f g h i j ."),
    (2, &[0], 4, 7, " ! ab cd ef gh ij ."),
    (2, &[2, 3], 4, 8, " ab cd ! ! ef gh ij ."),
    (7, &[1], 9, 4, " abcdefg ! hij ."),
    (7, &[], 4, 4, " abcd efgh ij ."),
    (64, &[1], 16, 3, " abcdefghij ! ."),
    (64, &[2], 6, 3, " abcdef ghij !"),
    (64, &[], 0, 2, " . ."),
];

fn expect_sources(rt: &impl Abort, alloc: Global, cases: &[Reads]) -> Result<(), AllocError> {
    for &(piece, fails, room, calls, want) in cases {
        assert!(rt; piece > 0);
        let bytes = LETTERS.to_vec(alloc)?;
        let mut source = MemSource::new(bytes, piece, fails.to_vec(alloc)?);
        expect_reads(rt, alloc, &mut source, room, calls, want)?;
    }
    Ok(())
}

#[test]
fn a_source_in_memory_gives_pieces(rt: HostRuntime) -> Result<(), Fail> {
    expect_sources(&rt, rt.alloc(), READS)?;
    Ok(())
}

/// The room in all, the bytes at a call, the calls that fail, how many writes, what they take, and what is written then.
type Writes = (
    usize,
    usize,
    &'static [u64],
    usize,
    &'static str,
    &'static [u8],
);

const WRITES: &[Writes] = &[
    (16, 1, &[], 11, " a b c d e f g h i j .", b"abcdefghij"),
    (16, 2, &[0], 7, " ! ab cd ef gh ij .", b"abcdefghij"),
    (16, 2, &[2, 3], 8, " ab cd ! ! ef gh ij .", b"abcdefghij"),
    (10, 7, &[1], 4, " abcdefg ! hij .", b"abcdefghij"),
    (16, 64, &[0, 2], 3, " ! abcdefghij !", b"abcdefghij"),
    (16, 2, &[4], 5, " ab cd ef gh !", b"abcdefgh"),
    (3, 2, &[], 4, " ab c ! !", b"abc"),
    (3, 64, &[1], 3, " abc ! !", b"abc"),
    (0, 1, &[], 1, " !", b""),
];

fn expect_sinks(rt: &impl Abort, alloc: Global, cases: &[Writes]) -> Result<(), AllocError> {
    for &(room, piece, fails, calls, want, written) in cases {
        assert!(rt; piece > 0);
        let mut sink = MemSink::new(alloc, room, piece, fails.to_vec(alloc)?)?;
        expect_writes(rt, alloc, &mut sink, calls, want)?;
        same(rt, sink.bytes(), written, want);
    }
    Ok(())
}

#[test]
fn a_sink_in_memory_takes_pieces(rt: HostRuntime) -> Result<(), Fail> {
    expect_sinks(&rt, rt.alloc(), WRITES)?;
    Ok(())
}

/// The letters, whose second read fails.
#[derive(Drop)]
struct FailsSecond {
    rest: &'static [u8],
    calls: u64,
}

impl Read for FailsSecond {
    fn read(&mut self, buf: &mut [u8]) -> io::Result<usize> {
        self.calls = self.calls.saturating_add(1);
        if self.calls == 2 {
            return Err(ErrorKind::Other.into());
        }
        self.rest.read(buf)
    }
}

#[test]
fn a_standard_source_reads_its_reader(rt: HostRuntime) -> Result<(), Fail> {
    let mut whole = StdSource::new(LETTERS);
    expect_reads(&rt, rt.alloc(), &mut whole, 7, 3, " abcdefg hij .")?;
    let mut broken = StdSource::new(FailsSecond {
        rest: LETTERS,
        calls: 0,
    });
    expect_reads(&rt, rt.alloc(), &mut broken, 7, 4, " abcdefg ! hij .")?;
    Ok(())
}

#[test]
fn a_standard_sink_writes_to_its_writer(rt: HostRuntime) -> Result<(), Fail> {
    let mut bytes = Vec::new(rt.alloc());
    let mut whole = StdSink::new(&mut bytes);
    expect_writes(&rt, rt.alloc(), &mut whole, 2, " abcdefghij .")?;
    same(&rt, bytes.as_slice(), LETTERS, "the bytes");
    Ok(())
}

#[test]
fn a_standard_sink_fails_where_its_writer_is_full(rt: HostRuntime) -> Result<(), Fail> {
    let mut room = [b'?'; 7];
    let mut narrow = StdSink::new(room.as_mut_slice());
    expect_writes(&rt, rt.alloc(), &mut narrow, 3, " abcdefg ! !")?;
    same(&rt, room.as_slice(), &LETTERS[..7], "the bytes");
    Ok(())
}
