//! What the program does: the words of a command, its input, what it prints and the status that it ends with.
#![tactic(auto)]

mod failures;
mod limits;
mod parts;
mod program;
mod streams;
mod treeless;
mod verified;

pub use failures::{Failure, report};
pub use program::mtreplay;
