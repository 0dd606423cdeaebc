//! The replacement of nodes: a store replaces nodes on as many levels as must change, and one store of one word publishes it.
#![tactic(auto)]

mod begins;
mod begun;
mod burying;
mod calls;
mod clears;
mod climbing;
mod decisions;
mod drafting;
mod ends;
mod gathers;
mod leaves;
pub mod plans;
mod reads;
mod replacing;
mod spliced;
mod splices;
mod tends;
mod ways;
mod widening;
mod writes;

pub use calls::{Edit, Event};
pub use clears::clear;
pub use spliced::Spliced;
pub use splices::{replace_range, splice};
