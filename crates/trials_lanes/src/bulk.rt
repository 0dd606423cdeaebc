//! Trials of bulk builds: two workers at once, and the text of each refusal. Any number of workers builds the words that `bulk`
//! of mt_bulk defines.

use crate::asserts::same;
use crate::meetings::Meeting;
use mt_base::{Kind, Range};
use mt_bulk::{BulkError, build};
use mt_rows::{PlainRows, Rows};
use std::alloc::Global;
use std::process::Abort;
use std::test::Fail;

macro_rules! r {
    ($first:expr, $last:expr, $entry:expr) => {
        Range { first: $first, last: $last, entry: $entry }
    };
}

/// Twenty single ranges at every other index: 40 items, the last of them a hole.
#[rattlefmt::skip]
const EVERY_OTHER: [Range; 20] = [
    r!(0, 0, 1), r!(2, 2, 1), r!(4, 4, 1), r!(6, 6, 1), r!(8, 8, 1),
    r!(10, 10, 1), r!(12, 12, 1), r!(14, 14, 1), r!(16, 16, 1), r!(18, 18, 1),
    r!(20, 20, 1), r!(22, 22, 1), r!(24, 24, 1), r!(26, 26, 1), r!(28, 28, 1),
    r!(30, 30, 1), r!(32, 32, 1), r!(34, 34, 1), r!(36, 36, 1), r!(38, 38, 1),
];

/// How many nodes are built, and their root word; or why there is no tree.
type Answer = Result<(u64, u64), BulkError>;

/// What came out of a build.
fn answer(built: Result<PlainRows, BulkError>) -> Answer {
    let mut rows = built?;
    Ok((rows.size(), rows.root()))
}

/// Why no tree is built, and the text of that.
const TEXTS: &[(BulkError, &str)] = &[
    (BulkError::Order { at: 7 }, "range 7 is out of order"),
    (BulkError::TooMany { rows: 65_505 }, "too many rows: 65505"),
    (BulkError::NoMemory, "out of memory"),
];

fn expect_texts(rt: &impl Abort, alloc: Global, texts: &[(BulkError, &str)]) -> Result<(), Fail> {
    for (error, want) in texts {
        let mut text = String::new(alloc);
        text.write(*error)?;
        same(rt, text.as_str(), *want, "the text");
    }
    Ok(())
}

#[test]
fn errors_are_told(rt: HostRuntime) -> Result<(), Fail> {
    expect_texts(&rt, rt.alloc(), TEXTS)
}

#[test]
fn workers_build_at_once(rt: HostRuntime) {
    let gate = Meeting::of(2);
    let built = build(&rt, rt.alloc(), Kind::Range, &EVERY_OTHER, 2, &gate);
    same(&rt, answer(built), Ok((4, 4884)), "the tree");
    same(&rt, gate.met(), (2, 0), "the workers");
}
