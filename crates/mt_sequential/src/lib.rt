//! The plain program: one thread plays a log on sorted lists, line by line.
#![tactic(auto)]

mod lists;
mod maps;
mod player;

pub use maps::Plain;
pub use player::play;
