//! How far an input is read: no further than one byte too many.

use crate::runs::{NEVER, ROOM, expect_ending, run, same, sink};
use mt_io::{Failed, MemSource, NoGate, Source};
use std::process::Abort;
use std::sync::Wait;
use std::test::Fail;
use std::thread::Threads;

const TOO_LONG: &str = "mtreplay: input too long\n";

/// Words, an input of how many bytes they read by how many reads, the status, how many bytes are then left, and the error text.
type Reach = (&'static str, usize, u64, u8, usize, &'static str);

#[rattlefmt::skip]
const LOGS: [Reach; 5] = [
    ("replay", 8_388_608, 129, 1, 0, "mtreplay: line 1: no newline\n"),
    ("replay", 8_388_609, 129, 6, 0, TOO_LONG),
    ("replay", 8_388_612, 129, 6, 3, TOO_LONG),
    ("image", 8_388_609, 129, 6, 0, TOO_LONG),
    ("bulk 3", 8_388_609, 129, 6, 0, TOO_LONG),
];

#[rattlefmt::skip]
const TRANSCRIPTS: [Reach; 2] = [
    ("verify", 67_108_864, 1025, 1, 0, "mtreplay: line 1: no transcript\n"),
    ("verify", 67_108_865, 1025, 6, 0, TOO_LONG),
];

#[rattlefmt::skip]
const IMAGES: [Reach; 2] = [
    ("show", 67_108_864, 1025, 8, 0, "mtreplay: image refused: head 0\n"),
    ("show", 67_108_865, 1025, 6, 0, TOO_LONG),
];

/// How many bytes one read of eight gives.
fn read_eight(src: &mut MemSource) -> Result<usize, Failed> {
    src.read(&mut [0; 8])
}

/// A node of the table comes out.
fn expect_reach<R: Threads + Wait + Sync + AllocGlobal + Abort>(
    rt: &R,
    reach: &Reach,
) -> Result<(), Fail> {
    let (words, len, reads, status, left, told) = *reach;
    let alloc = rt.alloc();
    let bytes = vec![in alloc; b'#'; len]?;
    // All reads but the last give 65,536 bytes, and that one more byte or the end. The one behind them would fail.
    let mut src = MemSource::new(bytes, usize::MAX, vec![in alloc; reads]?);
    let (out, err) = (sink(alloc, ROOM, NEVER)?, sink(alloc, ROOM, NEVER)?);
    let ending = run(rt, words, &mut src, out, err, &NoGate)?;
    expect_ending(rt, &ending, status, b"", told);
    same(rt, read_eight(&mut src), Err(Failed), told);
    same(rt, read_eight(&mut src), Ok(left), told);
    Ok(())
}

/// The nodes of a table come out.
fn expect_reaches<R: Threads + Wait + Sync + AllocGlobal + Abort>(
    rt: &R,
    reaches: &[Reach],
) -> Result<(), Fail> {
    for reach in reaches {
        expect_reach(rt, reach)?;
    }
    Ok(())
}

#[test]
fn a_log_is_read_no_further_than_one_byte_too_many(rt: HostRuntime) -> Result<(), Fail> {
    expect_reaches(&rt, &LOGS)
}

#[test]
fn a_transcript_is_read_no_further_than_one_byte_too_many(rt: HostRuntime) -> Result<(), Fail> {
    expect_reaches(&rt, &TRANSCRIPTS)
}

#[test]
fn an_image_is_read_no_further_than_one_byte_too_many(rt: HostRuntime) -> Result<(), Fail> {
    expect_reaches(&rt, &IMAGES)
}
