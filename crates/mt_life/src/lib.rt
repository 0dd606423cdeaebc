//! What is known of a tree's nodes from call to call, and of those that readers hold.
#![tactic(auto)]

pub mod laws;
mod views;

pub use views::{Extent, Held, Moment};
