//! Streams that fail at any call, and sinks with too little room.

use crate::runs::{Ending, NEVER, ROOM, expect_ending, run, sink};
use mt_io::{MemSource, NoGate};
use std::alloc::{AllocError, Global};
use std::process::Abort;
use std::sync::Wait;
use std::test::Fail;
use std::thread::Threads;

/// A log of 52 bytes, whose text has as many.
const LOG: &[u8] = b"mtlog 1\ntree a range\nstore a 0 99 1\nstore a 40 49 3\n";

/// Plays it on a tree that is small, since it is played for each write.
const REPLAY: &str = "replay --rows 40";

const TEXT: &str = "3 1 ok\n4 2 ok\ntree a range 3\n0 39 1\n40 49 3\n50 99 1\n";

const WRITE_FAULT: &str = "mtreplay: write fault\n";

/// Words, how much room there is for output and for errors, and the status, the output and the error text.
type Short = (&'static str, usize, usize, u8, &'static str, &'static str);

#[rattlefmt::skip]
const SHORT: [Short; 7] = [
    (REPLAY, 7, ROOM, 4, "3 1 ok\n", WRITE_FAULT),
    (REPLAY, 0, 7, 4, "", "mtrepla"),
    ("make 1 3 1", 7, ROOM, 4, "mtlog 1", WRITE_FAULT),
    ("trial 1 3", 7, ROOM, 4, "trial 3", WRITE_FAULT),
    ("ids 5 8 6 2", 7, ROOM, 4, "ids 6 f", WRITE_FAULT),
    ("bulk 2", ROOM, 16, 1, "", "mtreplay: line 1"),
    ("bulk 2", ROOM, 0, 1, "", ""),
];

/// A source of the log that gives a byte at each call, and whose read of this number, from 0, fails.
fn log(alloc: Global, failing: u64) -> Result<MemSource, AllocError> {
    let bytes = Vec::from_slice(alloc, LOG)?;
    Ok(MemSource::new(bytes, 1, vec![in alloc; failing]?))
}

/// Runs these words on the log, with a read and a write of these numbers that fail, and with this much room for output and for
/// errors.
fn run_failing<R: Threads + Wait + Sync + AllocGlobal>(
    rt: &R,
    words: &str,
    calls: (u64, u64),
    rooms: (usize, usize),
) -> Result<Ending, AllocError> {
    let alloc = rt.alloc();
    let mut src = log(alloc, calls.0)?;
    let out = sink(alloc, rooms.0, calls.1)?;
    let err = sink(alloc, rooms.1, NEVER)?;
    run(rt, words, &mut src, out, err, &NoGate)
}

/// A node of the table comes out.
fn expect_short<R: Threads + Wait + Sync + AllocGlobal + Abort>(
    rt: &R,
    short: &Short,
) -> Result<(), Fail> {
    let (words, room, err_room, status, text, told) = *short;
    let ending = run_failing(rt, words, (NEVER, NEVER), (room, err_room))?;
    expect_ending(rt, &ending, status, text.as_bytes(), told);
    Ok(())
}

#[test]
fn what_has_room_is_printed_and_told(rt: HostRuntime) -> Result<(), Fail> {
    for short in &SHORT {
        expect_short(&rt, short)?;
    }
    Ok(())
}

#[test]
fn each_read_that_fails_is_told(rt: HostRuntime) -> Result<(), Fail> {
    // 52 reads give a byte each, and the next finds the end.
    for call in 0..53 {
        let ending = run_failing(&rt, REPLAY, (call, NEVER), (ROOM, ROOM))?;
        expect_ending(&rt, &ending, 3, b"", "mtreplay: read fault\n");
    }
    let ending = run_failing(&rt, REPLAY, (53, NEVER), (ROOM, ROOM))?;
    expect_ending(&rt, &ending, 0, TEXT.as_bytes(), "");
    Ok(())
}

#[test]
fn each_write_that_fails_is_told(rt: HostRuntime) -> Result<(), Fail> {
    for call in 0..52 {
        let ending = run_failing(&rt, REPLAY, (NEVER, call), (ROOM, ROOM))?;
        let part = &TEXT.as_bytes()[..call as usize];
        expect_ending(&rt, &ending, 4, part, WRITE_FAULT);
    }
    let ending = run_failing(&rt, REPLAY, (NEVER, 52), (ROOM, ROOM))?;
    expect_ending(&rt, &ending, 0, TEXT.as_bytes(), "");
    Ok(())
}
