//! A map of ranges as a list of shelves, each a short sorted list. A store moves the ranges of one shelf, and a search for room
//! passes over each shelf without any.
#![tactic(auto)]

mod edits;
mod extents;
mod places;
mod rooms;
mod shelf;
mod shelf_map;
mod walks;
mod wholes;

pub use shelf_map::ShelfMap;
