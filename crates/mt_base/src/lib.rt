//! The interface's types, and what they mean for a map of ranges: ranges, calls, queries and replies.
//!
//! In comments a *call* is a write with a version number, or a search for room; a *query* is a read; a *hole* is a gap. A
//! *pass* is a thread's handle on a tree. A node that a write has replaced is *dead*, and *held* (retired) while a reader may
//! still be in it.
#![tactic(auto)]

mod calls;
mod kinds;
pub mod laws;
mod limits;
mod memory;
mod outcomes;
mod places;
mod ranges;
mod replies;
mod steps;
mod widths;

pub use calls::{Call, Query, finds_room, is_bad_area, is_invalid, is_no_area, is_reserved};
pub use kinds::Kind;
pub use limits::{FEWEST_ROWS, MOST_CALLS, MOST_LANES, MOST_PASSES, MOST_STEPS, SEED_END};
pub use memory::NoMemory;
pub use outcomes::{Done, Read, Worn};
pub use places::{find_at, place_after, place_behind, place_within};
pub use ranges::Range;
pub use replies::{Holder, Reply, Shortage, errno};
pub use steps::Steps;
pub use widths::{DEEPEST, FIRST_ROW, MOST_ROWS, MOST_TAKEN, Width, cols, top, width_of};
