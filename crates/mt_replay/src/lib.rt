//! A log played on shared trees, phase by phase, the lanes of a phase at once.
#![tactic(auto)]

mod counts;
mod lanes;
mod makes;
mod phases;
mod players;
mod rows;
mod trees;

pub use phases::{play, play_image};
pub use rows::{image_settled, list_settled};
pub use trees::Plays;
