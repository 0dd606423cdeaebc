//! The texts of what can fail.

use crate::asserts::same;
use mt_tree::{DupError, Field, MakeError, Moved, Worn};
use std::alloc::Global;
use std::error::Error;
use std::process::Abort;
use std::test::Fail;

const FIELDS: &[(Field, &str)] = &[
    (
        Field::Rows,
        "the shape is out of range: a tree has 4 to 65504 rows",
    ),
    (
        Field::Passes,
        "the shape is out of range: a tree has 1 to 62 passes",
    ),
    (
        Field::Calls,
        "the shape is out of range: a tree has 1 to 4611686018427387903 calls",
    ),
];

const COPIES: &[(DupError, &str)] = &[
    (
        DupError::BadShape { field: Field::Rows },
        "the copy's shape is out of range: a tree has 4 to 65504 rows",
    ),
    (
        DupError::Invalid,
        "the copy is to be of another kind than the tree",
    ),
    (
        DupError::NoNodes { rows: 4, live: 14 },
        "the copy is to have 4 rows, and the tree has 14 in use",
    ),
    (DupError::NoMemory, "there is no memory for the copy"),
];

/// The text of an error is this.
fn expect_text<E: Error + Drop>(
    rt: &impl Abort,
    alloc: Global,
    error: E,
    text: &str,
) -> Result<(), Fail> {
    let mut shown = String::new(alloc);
    shown.write(error)?;
    same(rt, shown.as_str(), text, text);
    Ok(())
}

#[test]
fn a_tree_that_is_not_made_tells_why(rt: HostRuntime) -> Result<(), Fail> {
    for &(field, text) in FIELDS {
        expect_text(&rt, rt.alloc(), MakeError::BadShape { field }, text)?;
    }
    let text = "there is no memory for the tree";
    expect_text(&rt, rt.alloc(), MakeError::NoMemory, text)
}

#[test]
fn a_copy_that_is_not_made_tells_why(rt: HostRuntime) -> Result<(), Fail> {
    for &(error, text) in COPIES {
        expect_text(&rt, rt.alloc(), error, text)?;
    }
    Ok(())
}

#[test]
fn calls_and_reads_that_are_not_made_tell_why(rt: HostRuntime) -> Result<(), Fail> {
    let text = "the tree has had all of its 9 calls";
    expect_text(&rt, rt.alloc(), Worn { calls: 9 }, text)?;
    let text =
        "the leaf was marked as dead while it was read: 3 calls had ended before, and 5 have begun";
    expect_text(&rt, rt.alloc(), Moved { lo: 3, begun: 5 }, text)
}
