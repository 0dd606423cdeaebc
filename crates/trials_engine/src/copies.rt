//! Small trees, and their copies with the nodes in the order of a walk, as an image and a copy have them.

use crate::small_trees::{LONGEST, LONGEST32, Node, TOP, TOP32, UNUSED, push_row};
use mt_base::{FIRST_ROW, Kind, NoMemory};
use mt_layout::RowKind;
use mt_rows::{PlainRows, Rows};
use std::alloc::Global;

/// An allocation tree: the node 19 with the leaves 18 and 16; the node 17 is unused.
#[rattlefmt::skip]
pub const TWO_LEAVES: &[Node] = &[
    (RowKind::Leaf, 4865, &[12, 13, 14, 15, 16, TOP], &[4096, 8192, 4096, 4096, 4096], &[]),
    UNUSED,
    (RowKind::Leaf, 4864, &[0, 1, 2, 3, 4, 11], &[4096, 4100, 4096, 4096, 4096, 4096], &[]),
    (RowKind::Gapped, 1, &[11, TOP], &[4620, 4108], &[0, LONGEST]),
];

/// The copy of that tree: the node 16 with the leaves 17 and 18.
#[rattlefmt::skip]
const TWO_LEAVES_COPIED: &[Node] = &[
    (RowKind::Gapped, 1, &[11, TOP], &[4364, 4620], &[0, LONGEST]),
    (RowKind::Leaf, 4096, &[0, 1, 2, 3, 4, 11], &[4096, 4100, 4096, 4096, 4096, 4096], &[]),
    (RowKind::Leaf, 4097, &[12, 13, 14, 15, 16, TOP], &[4096, 8192, 4096, 4096, 4096], &[]),
];

/// The range 10 to 19 with the entry 4108, which is no name here, in the leaf 17; the node 16 is unused.
const LONE: &[Node] = &[UNUSED, (RowKind::Leaf, 1, &[9, 19, TOP], &[0, 4108], &[])];

const LONE_COPIED: &[Node] = &[(RowKind::Leaf, 1, &[9, 19, TOP], &[0, 4108], &[])];

/// The entries of the leaves of a narrow tree of the same form, from the left.
#[rattlefmt::skip]
const LEFT_ENTRIES: &[u64] = &[4096, 4100, 4096, 4096, 4096, 4096, 4096, 4096, 4096, 4096, 4096, 4096, 4096, 4096];

#[rattlefmt::skip]
const RIGHT_ENTRIES: &[u64] = &[4096, 8192, 4096, 4096, 4096, 4096, 4096, 4096, 4096, 4096, 4096, 4096, 4096];

/// A narrow allocation tree: the node 19 with the leaves 18 and 16; the node 17 is unused.
#[rattlefmt::skip]
const NARROW_LEAVES: &[Node] = &[
    (RowKind::Leaf, 4865, &[24, 25, 26, 27, 28, 29, 30, 31, 32, 33, 34, 35, 36, TOP32], RIGHT_ENTRIES, &[]),
    UNUSED,
    (RowKind::Leaf, 4864, &[0, 1, 2, 3, 4, 5, 6, 7, 8, 9, 10, 11, 12, 23], LEFT_ENTRIES, &[]),
    (RowKind::Gapped, 1, &[23, TOP32], &[4620, 4108], &[0, LONGEST32]),
];

/// The copy of that tree: the node 16 with the leaves 17 and 18.
#[rattlefmt::skip]
const NARROW_LEAVES_COPIED: &[Node] = &[
    (RowKind::Gapped, 1, &[23, TOP32], &[4364, 4620], &[0, LONGEST32]),
    (RowKind::Leaf, 4096, &[0, 1, 2, 3, 4, 5, 6, 7, 8, 9, 10, 11, 12, 23], LEFT_ENTRIES, &[]),
    (RowKind::Leaf, 4097, &[24, 25, 26, 27, 28, 29, 30, 31, 32, 33, 34, 35, 36, TOP32], RIGHT_ENTRIES, &[]),
];

/// The range 10 to 19 with the entry 4108 in the leaf 17 of a narrow tree; the node 16 is unused.
const NARROW_LONE: &[Node] = &[UNUSED, (RowKind::Leaf, 1, &[9, 19, TOP32], &[0, 4108], &[])];

const NARROW_LONE_COPIED: &[Node] = &[(RowKind::Leaf, 1, &[9, 19, TOP32], &[0, 4108], &[])];

/// The empty tree has no node.
const NONE_COPIED: &[Node] = &[];

/// The words of the first nodes, as many of them as there are.
#[tactic(auto, using(mt_layout::proofs::RowSizes::some_columns))]
pub fn first_words(alloc: Global, rows: &mut PlainRows, count: u32) -> Result<Vec<u64>, NoMemory> {
    let mut words = Vec::new(alloc);
    for row in 0..count {
        if u64::from(row) < rows.size() {
            push_row(rows, FIRST_ROW + row, &mut words)?;
        }
    }
    Ok(words)
}

/// A tree's nodes, its root word and its kind; and with its nodes in order how many these are, the root word and the nodes.
pub struct Case {
    pub nodes: &'static [Node],
    pub root: u64,
    pub kind: Kind,
    pub rows: u32,
    pub copy: u64,
    pub copied: &'static [Node],
}

pub const CASES: [Case; 6] = [
    Case {
        nodes: TWO_LEAVES,
        root: 4892,
        kind: Kind::Alloc,
        rows: 3,
        copy: 4124,
        copied: TWO_LEAVES_COPIED,
    },
    Case {
        nodes: LONE,
        root: 4364,
        kind: Kind::Range,
        rows: 1,
        copy: 4108,
        copied: LONE_COPIED,
    },
    Case {
        nodes: LONE,
        root: 0,
        kind: Kind::Range,
        rows: 0,
        copy: 0,
        copied: NONE_COPIED,
    },
    Case {
        nodes: NARROW_LEAVES,
        root: 4892,
        kind: Kind::Alloc32,
        rows: 3,
        copy: 4124,
        copied: NARROW_LEAVES_COPIED,
    },
    Case {
        nodes: NARROW_LONE,
        root: 4364,
        kind: Kind::Range32,
        rows: 1,
        copy: 4108,
        copied: NARROW_LONE_COPIED,
    },
    Case {
        nodes: NARROW_LONE,
        root: 0,
        kind: Kind::Range32,
        rows: 0,
        copy: 0,
        copied: NONE_COPIED,
    },
];
