//! The book (node allocator) of a tree: which nodes are free, which are live, and which are retired and wait.
#![tactic(auto)]

mod book;
mod held;
pub mod laws;

pub use book::RowBook;
