//! Runs of the program over streams in memory.

use mt_io::{Gate, MemSink, MemSource};
use mt_program::mtreplay;
use std::alloc::{AllocError, Global};
use std::fmt::Debug;
use std::process::Abort;
use std::sync::Wait;
use std::thread::Threads;

/// The number of a call that no run reaches.
pub const NEVER: u64 = u64::MAX;

/// More room than a run of these tests needs.
pub const ROOM: usize = 4096;

/// The result of a run.
#[derive(Drop)]
pub struct Ending {
    pub status: u8,
    pub out: MemSink,
    pub err: MemSink,
}

/// What came out at a place of a test is what is wanted. It asserts for all tests, so that the code of an assertion is proved
/// once, and not in each.
pub fn same<T: Copy + PartialEq + Debug>(rt: &impl Abort, got: T, want: T, place: &str) {
    assert_eq!(rt; got, want, "at {place}");
}

/// A source of these bytes that gives them as they are asked for.
pub fn given(alloc: Global, bytes: &[u8]) -> Result<MemSource, AllocError> {
    let bytes = Vec::from_slice(alloc, bytes)?;
    Ok(MemSource::new(bytes, usize::MAX, Vec::new(alloc)))
}

/// A sink with this much room that takes a byte at each call. Its write of this number, from 0, fails.
pub fn sink(alloc: Global, room: usize, failing: u64) -> Result<MemSink, AllocError> {
    MemSink::new(alloc, room, 1, vec![in alloc; failing]?)
}

/// The words of a text, which have spaces between them.
fn words_in(alloc: Global, text: &str) -> Result<Vec<String>, AllocError> {
    let mut words = Vec::new(alloc);
    for word in text.split_whitespace() {
        words.push(String::from_str(alloc, word)?)?;
    }
    Ok(words)
}

/// Runs these words over these streams, where the lanes and the workers are held by this gate.
pub fn run<R: Threads + Wait + Sync + AllocGlobal, G: Gate + Sync>(
    rt: &R,
    words: &str,
    src: &mut MemSource,
    mut out: MemSink,
    mut err: MemSink,
    gate: &G,
) -> Result<Ending, AllocError> {
    let alloc = rt.alloc();
    let words = words_in(alloc, words)?;
    let status = mtreplay(rt, alloc, &words, src, &mut out, &mut err, gate);
    Ok(Ending { status, out, err })
}

/// A run ended with this status, this output and this error text.
pub fn expect_ending(rt: &impl Abort, ending: &Ending, status: u8, text: &[u8], told: &str) {
    same(rt, ending.err.bytes(), told.as_bytes(), told);
    same(rt, ending.out.bytes(), text, told);
    same(rt, ending.status, status, told);
}
