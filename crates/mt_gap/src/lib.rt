//! Searches for room between the entries of a map, by the gap words of its tree; and how these are mended.
#![tactic(auto)]

mod children;
mod levels;
mod mends;
mod searches;
mod ways;
mod windows;

pub use mends::{mend_along, mend_gaps, mend_way};
pub use searches::{SoughtArea, highest, highest_way, lowest, lowest_way};
