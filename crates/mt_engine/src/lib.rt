//! The tree on one thread: what its words answer to the queries of a map of ranges, and the calls that change it.
#![tactic(auto)]

mod areas;
mod batches;
mod calls;
mod engine;
mod heights;
pub mod laws;
mod leaf_steps;
mod lists;
mod mends;
mod places;
mod plans;
mod prepared;
mod queries;
mod range_walk;
mod rooms;
mod store_by;
mod stores;

pub use engine::Engine;
pub use places::RangePlace;
pub use range_walk::RangeWalk;
