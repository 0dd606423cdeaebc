//! The lanes of a phase, run at once.
#![tactic(auto)]

mod desks;
mod lanes;

pub use desks::Desk;
pub use lanes::{Lane, run_lanes};
