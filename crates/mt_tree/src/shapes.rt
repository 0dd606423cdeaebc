//! What a tree is made from, and what its calls return.

ghost use Rattle.std.specs.Prelude.{◌≡◌, None, IfOk};
ghost use Rattle.mt_base.specs.Width.{kind_width};
ghost use Rattle.mt_rows.specs.Memory.{sheet_in};
ghost use Rattle.mt_rows.specs.Plain.{new_sheet};
ghost use Rattle.mt_tree.specs.Shapes as defined;

use mt_base::{FEWEST_ROWS, Kind, MOST_CALLS, MOST_PASSES, MOST_ROWS, NoMemory, width_of};
use mt_rows::PlainRows;
use std::alloc::Global;
use std::fmt;
use thiserror::Error;

/// What a tree is made from.
#[derive(Clone, Copy, Debug, PartialEq, Eq)]
pub struct Shape {
    pub kind: Kind,
    /// How many nodes it has: 4 to 65,504. A node has 256 bytes, and 512 where indexes have 32 bits.
    pub rows: u64,
    /// How many threads can use it at once: 1 to 62.
    pub passes: u32,
    /// How many calls it may have: 1 to 2^62 - 1.
    pub calls: u64,
}

/// A field of a shape that is out of range.
#[derive(Clone, Copy, Debug, PartialEq, Eq)]
pub enum Field {
    Rows,
    Passes,
    Calls,
}

/// What is wanted of the field.
impl fmt::Display for Field {
    fn fmt<W: fmt::Write>(&self, f: &mut fmt::Formatter<W>) -> fmt::Result {
        match self {
            Field::Rows => write!(f, "a tree has {FEWEST_ROWS} to {MOST_ROWS} rows"),
            Field::Passes => write!(f, "a tree has 1 to {MOST_PASSES} passes"),
            Field::Calls => write!(f, "a tree has 1 to {MOST_CALLS} calls"),
        }
    }
}

impl Shape {
    /// The first field that is out of range.
    pub(crate) fn first_bad(&self) -> Option<Field>
        ensures { result ≡ defined.first_bad self.now }
    {
        if !(FEWEST_ROWS..=MOST_ROWS).contains(&self.rows) {
            Some(Field::Rows)
        } else if !(1..=MOST_PASSES).contains(&self.passes) {
            Some(Field::Passes)
        } else if !(1..=MOST_CALLS).contains(&self.calls) {
            Some(Field::Calls)
        } else {
            None
        }
    }

    /// The nodes of such a tree, none of which was used.
    pub(crate) fn new_rows(&self, alloc: Global) -> Result<PlainRows, NoMemory>
        requires { defined.first_bad self.now ≡ None }
        ensures { IfOk result (λ rows. sheet_in rows ≡ new_sheet (kind_width self.now.kind) self.now.rows) }
    {
        PlainRows::of_width(alloc, width_of(self.kind), self.rows)
    }
}

/// Why no tree was made.
#[derive(Clone, Copy, Debug, PartialEq, Eq, Error)]
pub enum MakeError {
    #[error("the shape is out of range: {field}")]
    BadShape { field: Field },
    #[error("there is no memory for the tree")]
    NoMemory,
}

/// Why no copy was made.
#[derive(Clone, Copy, Debug, PartialEq, Eq, Error)]
pub enum DupError {
    #[error("the copy's shape is out of range: {field}")]
    BadShape { field: Field },
    /// The copy is of another kind.
    #[error("the copy is to be of another kind than the tree")]
    Invalid,
    /// The copy's nodes are fewer than those that the tree has in use.
    #[error("the copy is to have {rows} rows, and the tree has {live} in use")]
    NoNodes { rows: u64, live: u64 },
    #[error("there is no memory for the copy")]
    NoMemory,
}

/// How a tree uses its nodes: how many it has, and how many of these are free, in use, and held back; how many levels it has,
/// and how many calls have ended.
#[derive(Clone, Copy, Debug, PartialEq, Eq)]
pub struct Stats {
    pub rows: u64,
    pub free: u64,
    pub live: u64,
    pub held: u64,
    pub height: u64,
    pub calls: u64,
}
