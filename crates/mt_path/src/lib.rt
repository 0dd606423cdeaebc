//! Paths through a tree of *rows* (nodes): to the leaf of an index, to the node beside another, and to what is at an index.
#![tactic(auto)]

mod batches;
mod handles;
pub mod laws;
mod leaves;
mod neighbours;
mod paths;
mod rows;
mod seeks;
mod walks;

pub use batches::words_at;
pub use handles::{
    Handle, before, behind, end_walk, go_on, handle_at, next_in_leaf, span_for, walk_to,
};
pub use leaves::leaf_behind;
pub use neighbours::{left_at, right_at, step_left, step_right};
pub use paths::{Path, PathStep, copy_into, copy_of};
pub use seeks::{ends_apart, slots_apart, under};
pub use walks::{walk, walk_on};
