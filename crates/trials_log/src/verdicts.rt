//! Texts of runs, and texts of none.

ghost use Rattle.std.specs.Prelude.{◌≤◌};
ghost use Rattle.mt_base.specs.Width.{most_rows};

mod tables;

use crate::asserts::same;
use crate::verdicts::tables::{MANY_ROWS, ROWS_4, ROWS_8, ROWS_33, ROWS_34};
use mt_log::{LogError, read_log};
use mt_verify::{Verdict, verify};
use std::alloc::{AllocError, Global};
use std::process::Abort;
use std::test::Fail;

/// How many nodes each tree has, and the table that is of such trees.
const TABLES: &[(u64, &str)] = &[
    (65_504, MANY_ROWS),
    (34, ROWS_34),
    (33, ROWS_33),
    (8, ROWS_8),
    (4, ROWS_4),
];

/// The bytes of a text in which each line ends with a stroke.
fn unfolded(alloc: Global, text: &str) -> Result<Vec<u8>, AllocError> {
    let mut bytes = Vec::new(alloc);
    for &byte in text.as_bytes() {
        bytes.push(if byte == b'/' { b'\n' } else { byte })?;
    }
    Ok(bytes)
}

/// A verdict in words.
fn words_of(alloc: Global, verdict: &Verdict) -> Result<String, AllocError> {
    let Verdict::Yes { points } = verdict else {
        return String::from_str(alloc, "no");
    };
    let mut words = String::from_str(alloc, "yes")?;
    for point in points.as_slice() {
        write!(words, " {point}")?;
    }
    Ok(words)
}

/// The verdict on a text and a log over trees of this many nodes, in words.
fn found(alloc: Global, rows: u64, log: &[u8], text: &str) -> Result<String, LogError>
    requires few_rows { 4 ≤ rows }
    requires rows { rows ≤ most_rows }
{
    let log = read_log(alloc, log)?;
    let text = unfolded(alloc, text)?;
    match verify(alloc, &log, rows, &text) {
        Ok(verdict) => Ok(words_of(alloc, &verdict)?),
        Err(_) => Err(LogError::NoMemory),
    }
}

/// Each text of a table is judged as it says, by the last log above it.
fn expect_each(rt: &impl Abort, alloc: Global, rows: u64, table: &str) -> Result<(), Fail>
    requires few_rows { 4 ≤ rows }
    requires rows { rows ≤ most_rows }
{
    let mut log = Vec::new(alloc);
    for (i, row) in table.lines().enumerate() {
        if row.starts_with("#") {
            continue;
        }
        match row.split_once(" -> ") {
            Some((text, want)) => {
                let words = found(alloc, rows, &log, text)?;
                same(rt, words.as_str(), want, i);
            }
            None => log = unfolded(alloc, row)?,
        }
    }
    Ok(())
}

#[test]
fn texts_are_judged_by_the_log_above_them(rt: HostRuntime) -> Result<(), Fail> {
    for &(rows, table) in TABLES {
        assert!(rt; 4 <= rows && rows <= 65_504);
        expect_each(&rt, rt.alloc(), rows, table)?;
    }
    Ok(())
}
