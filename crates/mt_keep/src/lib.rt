//! A value that threads take by turns, of a place that each of them knows.
#![tactic(auto)]

mod keep;

pub use keep::{Busy, Chair, Given, Keep, Placed, Sight, Taken};
