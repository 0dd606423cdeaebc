//! Trees copied node by node.
#![tactic(auto)]

mod columns;
mod copies;
mod walks;

pub use copies::copy_rows;
