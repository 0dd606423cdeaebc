//! The writer's access to the rows (nodes) of a shared tree, on its table of atomic words.
#![tactic(auto)]

mod rows;
mod scans;
mod writer;

pub use rows::PenRows;
pub use writer::Writer;
