//! Images of trees: the nodes of a tree as bytes, in the order of a walk, and read back.
#![tactic(auto)]

mod bytes;
mod errors;
pub mod laws;
mod reading;
mod writing;

pub use errors::{ImageError, law_text};
pub use reading::read_image;
pub use writing::write_image;
