//! What is known of nodes, as plain data that the seats of a table can hold. It is ghost: no value of these types is made at
//! run time.

use mt_base::{Range, Width};
use std::collections::LinkedList;

/// Where a node is: its range, and its level, which is 0 for a leaf.
pub struct Extent {
    pub first: u64,
    pub last: u64,
    pub level: u64,
}

/// What a map was after a call.
pub struct Moment {
    pub ranges: LinkedList<Range>,
    /// Where its leaves began.
    pub cuts: LinkedList<u64>,
}

/// A node that a section holds.
pub struct Held {
    pub row: u64,
    /// How many calls the map had seen at the load of the root from which the node was reached.
    pub since: u64,
    /// How many it had seen when the node's name was loaded.
    pub met: u64,
    pub extent: Extent,
    /// The words of all nodes, as they were when the node's name was loaded, or since then a slot of it where it is a leaf; and
    /// how wide they are.
    pub width: Width,
    pub copy: LinkedList<u64>,
    /// The call by which the node died, where it was found dead.
    pub died: Option<u64>,
}
