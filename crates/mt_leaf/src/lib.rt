//! The items of a few leaves: what a store makes of them, and where a level is cut into nodes.
#![tactic(auto)]

mod cuts;
mod edits;
pub mod laws;
mod places;

pub use cuts::{Towards, cut, cut_towards};
pub use edits::{edit, edit_into, exact_slot, push_joined, push_joined_all};
