//! The words of a tree's *rows* (nodes): what they represent, and the trait by which they are read and written.
#![tactic(auto)]

mod fates;
mod items;
mod kinds;
pub mod laws;
mod plain;
pub mod plain_trees;
mod reads;
mod row_widths;
mod rows;
mod words;

pub use items::{load_item, load_item_of};
pub use kinds::inner_kind;
pub use plain::PlainRows;
pub use row_widths::RowWidth;
pub use rows::{Life, Place, Rows, Scan};
