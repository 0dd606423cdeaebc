//! A tree that is built at once from its ranges, by many workers or alone.
#![tactic(auto)]

mod building;
mod chunks;
mod cuts;
mod desks;
mod errors;
mod items;
pub mod laws;
mod leaves;
mod levels;

pub use building::{build, build_alone};
pub use chunks::{Chunk, fill_rows};
pub use desks::LeafDesk;
pub use errors::BulkError;
pub use leaves::Leaves;
