//! What a check answers.

/// What each node of a tree keeps, in the order in which the laws of a node are tested.
#[derive(Clone, Copy, Debug, PartialEq, Eq)]
pub enum Law {
    /// The word that leads to the node names a node of the table, and an inner node is of the tree's kind.
    Name,
    /// There are few enough levels, and each leaf is as deep as the first.
    Depth,
    /// The parent word names the slot that leads to the node.
    Parent,
    /// The pivots rise to the node's last index, and unused columns are 0.
    Pivots,
    /// The node has enough items.
    Count,
    /// A leaf holds no reserved entry.
    Entries,
    /// No two holes follow each other, and a leaf below the greatest index ends with an entry.
    Holes,
    /// Each gap word is the longest hole below its item.
    Gaps,
}

/// A law that a node breaks. If a word should be a name and is none, `row` is the node whose slot holds it, or 0 for the root
/// word.
#[derive(Clone, Copy, Debug, PartialEq, Eq)]
pub struct Fault {
    pub row: u32,
    pub law: Law,
}

/// The size of a well-formed tree: its number of levels, of the nodes that are reached, and of its ranges.
#[derive(Clone, Copy, Debug, PartialEq, Eq)]
pub struct Form {
    pub height: u32,
    pub rows: u64,
    pub ranges: u64,
}
