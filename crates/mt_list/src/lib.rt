//! A map of ranges as a sorted list: the first engine, and later the one to compare with.
#![tactic(auto)]

mod areas;
mod calls;
mod edits;
pub mod laws;
mod list_map;
mod pieces;
mod places;
mod ranges;
mod searches;
mod stores;

pub use areas::{Window, highest, lowest, reply_of};
pub use calls::act;
pub use edits::{erase, store};
pub use list_map::ListMap;
pub use ranges::Ranges;
pub use searches::answered;
pub use stores::Store;
