//! What calls do to trees of each kind: tables, computed from the least and the greatest number of items of a node.

use crate::tests::{TOP, TOP32};
use mt_base::{Call, Kind};

/// What a call made of a tree: whether it was published at the root word, the tree's levels and nodes, and how many nodes were
/// taken and retired.
#[derive(Debug, Clone, Copy, PartialEq, Eq)]
pub struct Shape {
    pub at_root: bool,
    pub height: u32,
    pub live: usize,
    pub taken: usize,
    pub gone: usize,
}

/// A call, and what it made of a tree.
pub type Case = (Call, Shape);

/// A call that was published at the root word.
macro_rules! at_root {
    ($height:expr, $live:expr, $taken:expr, $gone:expr) => {
        Shape { at_root: true, height: $height, live: $live, taken: $taken, gone: $gone }
    };
}

/// A call that was published in a slot.
macro_rules! in_slot {
    ($height:expr, $live:expr, $taken:expr, $gone:expr) => {
        Shape { at_root: false, height: $height, live: $live, taken: $taken, gone: $gone }
    };
}

/// So many ranges of one index, at the even indexes, in trees of each of these kinds, and what calls make of them.
pub struct Trial {
    pub kinds: &'static [Kind],
    pub singles: u32,
    pub cases: &'static [Case],
}

/// The kinds of trees of wide nodes, and of narrow ones.
pub const WIDE: &[Kind] = &[Kind::Range, Kind::Alloc];

pub const NARROW: &[Kind] = &[Kind::Range32, Kind::Alloc32];

/// No leaf.
const EMPTY: &[Case] = &[
    (call!(store 5, 5, 1), at_root!(1, 1, 1, 0)),
    (call!(store 0, TOP, 8), at_root!(1, 1, 1, 0)),
];

const NARROW_EMPTY: &[Case] = &[
    (call!(store 5, 5, 1), at_root!(1, 1, 1, 0)),
    (call!(store 0, TOP32, 8), at_root!(1, 1, 1, 0)),
];

/// One leaf, of 16 items.
const LEAF: &[Case] = &[
    // its items are others
    (call!(store 1, 1, 9), at_root!(1, 1, 1, 1)),
    // an entry is another, by one word
    (call!(store 0, 0, 9), in_slot!(1, 1, 0, 0)),
    // 17 items: two leaves, and a root above them
    (call!(store 16, 16, 1), at_root!(2, 3, 3, 1)),
    (call!(store 0, TOP, 0), at_root!(0, 0, 0, 1)),
    (call!(store 0, TOP, 8), at_root!(1, 1, 1, 1)),
    (Call::Clear, at_root!(0, 0, 0, 1)),
];

/// Leaves of 11, 10, 10 and 15 items, which end at 10, 20 and 30.
const BELOW_A_ROOT: &[Case] = &[
    // in place
    (call!(store 1, 1, 9), in_slot!(2, 5, 1, 1)),
    (call!(store 0, 0, 9), in_slot!(2, 5, 0, 0)),
    // the last leaf is split in two
    (call!(store 46, 46, 1), at_root!(2, 6, 3, 2)),
    // the first leaf has too few items, and takes those of the leaf behind
    (call!(store 0, 7, 3), at_root!(2, 4, 2, 3)),
    // the last leaf has too few items, and takes those of the leaf before
    (call!(store 32, 44, 0), at_root!(2, 4, 2, 3)),
    // the first leaf would end with a hole: with the leaf behind these are two new ones
    (call!(store 10, 10, 0), at_root!(2, 5, 3, 3)),
    // two leaves go, and the leaf behind is taken in
    (call!(store 11, 30, 0), at_root!(2, 3, 2, 4)),
    // three leaves go, and the leaf behind is taken in: two new ones
    (call!(store 9, 30, 0), at_root!(2, 3, 3, 5)),
    // one leaf is left, and is the root
    (call!(store 5, 36, 7), at_root!(1, 1, 1, 5)),
    (call!(store 0, TOP, 0), at_root!(0, 0, 0, 5)),
    (call!(store 0, TOP, 8), at_root!(1, 1, 1, 5)),
    (Call::Clear, at_root!(0, 0, 0, 5)),
];

/// Two inner nodes of a tree of ranges, of 11 leaves and of 12; the last leaf has 15 items.
const RANGE_LEVELS: &[Case] = &[
    // in place
    (call!(store 1, 1, 9), in_slot!(3, 26, 1, 1)),
    (call!(store 0, 0, 9), in_slot!(3, 26, 0, 0)),
    // the last leaf is split in two, below the same root
    (call!(store 236, 236, 1), in_slot!(3, 27, 3, 2)),
    // the second leaf goes, and the first takes the items of the third
    (call!(store 2, 20, 0), in_slot!(3, 24, 2, 4)),
    // the first inner row has too few leaves, and takes those of the row behind: two new ones
    (call!(store 0, 64, 3), at_root!(3, 20, 4, 10)),
    // the second inner row has too few leaves, and takes those of the row before: one, which is the root
    (call!(store 130, 210, 0), at_root!(2, 16, 3, 13)),
    // leaves of both inner rows go: two levels are left
    (call!(store 8, 160, 5), at_root!(2, 9, 2, 19)),
    // two levels are lost
    (call!(store 1, 234, 0), at_root!(1, 1, 1, 26)),
    (call!(store 0, TOP, 0), at_root!(0, 0, 0, 26)),
    (call!(store 0, TOP, 8), at_root!(1, 1, 1, 26)),
    (Call::Clear, at_root!(0, 0, 0, 26)),
];

/// Two inner nodes of a tree for allocation, of 7 leaves and of 9; the last leaf has 15 items.
const ALLOC_LEVELS: &[Case] = &[
    // in place
    (call!(store 1, 1, 9), in_slot!(3, 19, 1, 1)),
    (call!(store 0, 0, 9), in_slot!(3, 19, 0, 0)),
    // the last leaf is split in two, below the same root
    (call!(store 166, 166, 1), in_slot!(3, 20, 3, 2)),
    // the second leaf goes, and the first takes the items of the third
    (call!(store 2, 20, 0), in_slot!(3, 17, 2, 4)),
    // the first inner row keeps four leaves, as few as it may
    (call!(store 0, 34, 3), in_slot!(3, 16, 2, 5)),
    // the first inner row has too few leaves, and takes those of the row behind: two new ones
    (call!(store 0, 44, 3), at_root!(3, 15, 4, 8)),
    // the second inner row has too few leaves, and takes those of the row before: one, which is the root
    (call!(store 90, 150, 0), at_root!(2, 11, 3, 11)),
    // leaves of both inner rows go: two levels are left
    (call!(store 8, 120, 5), at_root!(2, 6, 2, 15)),
    // two levels are lost
    (call!(store 1, 164, 0), at_root!(1, 1, 1, 19)),
    (call!(store 0, TOP, 0), at_root!(0, 0, 0, 19)),
    (call!(store 0, TOP, 8), at_root!(1, 1, 1, 19)),
    (Call::Clear, at_root!(0, 0, 0, 19)),
];

/// One leaf of a narrow tree, of 32 items.
const NARROW_LEAF: &[Case] = &[
    // its items are others
    (call!(store 1, 1, 9), at_root!(1, 1, 1, 1)),
    // an entry is another, by one word
    (call!(store 0, 0, 9), in_slot!(1, 1, 0, 0)),
    // more than 32 items: two leaves, and a root above them
    (call!(store 32, 32, 1), at_root!(2, 3, 3, 1)),
    (call!(store 0, TOP32, 0), at_root!(0, 0, 0, 1)),
    (call!(store 0, TOP32, 8), at_root!(1, 1, 1, 1)),
    (Call::Clear, at_root!(0, 0, 0, 1)),
];

/// Leaves of a narrow tree, of 19, 18, 18 and 31 items, which end at 18, 36 and 54.
const BELOW_A_NARROW_ROOT: &[Case] = &[
    // in place
    (call!(store 1, 1, 9), in_slot!(2, 5, 1, 1)),
    (call!(store 0, 0, 9), in_slot!(2, 5, 0, 0)),
    // the last leaf is split in two
    (call!(store 86, 86, 1), at_root!(2, 6, 3, 2)),
    // the first leaf has too few items, and takes those of the leaf behind
    (call!(store 0, 11, 3), at_root!(2, 4, 2, 3)),
    (call!(store 0, 7, 3), at_root!(2, 4, 2, 3)),
    // the last leaf has too few items, and takes those of the leaf before
    (call!(store 56, 84, 0), at_root!(2, 4, 2, 3)),
    (call!(store 56, 82, 0), at_root!(2, 4, 2, 3)),
    // the first leaf would end with a hole: with the leaf behind these are two new ones
    (call!(store 18, 18, 0), at_root!(2, 5, 3, 3)),
    // two leaves go, and the leaf behind is taken in
    (call!(store 19, 54, 0), at_root!(2, 3, 2, 4)),
    // three leaves go, and the leaf behind is taken in: two new ones
    (call!(store 9, 54, 0), at_root!(2, 3, 3, 5)),
    (call!(store 17, 54, 0), at_root!(2, 3, 3, 5)),
    // one leaf is left, and is the root
    (call!(store 5, 66, 7), at_root!(1, 1, 1, 5)),
    (call!(store 5, 60, 7), at_root!(1, 1, 1, 5)),
    (call!(store 0, TOP32, 0), at_root!(0, 0, 0, 5)),
    (call!(store 0, TOP32, 8), at_root!(1, 1, 1, 5)),
    (Call::Clear, at_root!(0, 0, 0, 5)),
];

/// Two inner nodes of a narrow tree of ranges, of 19 leaves and of 21; the last leaf has 31 items.
const NARROW_RANGE_LEVELS: &[Case] = &[
    // in place
    (call!(store 1, 1, 9), in_slot!(3, 43, 1, 1)),
    (call!(store 0, 0, 9), in_slot!(3, 43, 0, 0)),
    // the last leaf is split in two, below the same root
    (call!(store 734, 734, 1), in_slot!(3, 44, 3, 2)),
    // the second leaf goes, and the first takes the items of the third
    (call!(store 2, 36, 0), in_slot!(3, 41, 2, 4)),
    // the first inner row keeps fourteen leaves, as few as it may
    (call!(store 0, 92, 3), in_slot!(3, 38, 2, 7)),
    // the first inner row has too few leaves, and takes those of the row behind: two new ones
    (call!(store 0, 110, 3), at_root!(3, 37, 4, 10)),
    // the second inner row has too few leaves, and takes those of the row before: one, which is the root
    (call!(store 378, 558, 0), at_root!(2, 31, 3, 15)),
    // leaves of both inner rows go: two levels are left
    (call!(store 14, 450, 5), at_root!(2, 17, 2, 28)),
    // two levels are lost
    (call!(store 1, 732, 0), at_root!(1, 1, 1, 43)),
    (call!(store 0, TOP32, 0), at_root!(0, 0, 0, 43)),
    (call!(store 0, TOP32, 8), at_root!(1, 1, 1, 43)),
    (Call::Clear, at_root!(0, 0, 0, 43)),
];

/// Two inner nodes of a narrow tree of ranges, of 19 leaves and of 20; the last leaf has 31 items.
const FEWER_NARROW_RANGE_LEVELS: &[Case] = &[
    (call!(store 716, 716, 1), in_slot!(3, 43, 3, 2)),
    (call!(store 2, 36, 0), in_slot!(3, 40, 2, 4)),
    (call!(store 0, 112, 3), at_root!(3, 36, 4, 10)),
    (call!(store 378, 630, 0), at_root!(2, 26, 3, 19)),
    (call!(store 15, 504, 5), at_root!(2, 13, 2, 31)),
    (call!(store 1, 714, 0), at_root!(1, 1, 1, 42)),
    (call!(store 0, TOP32, 0), at_root!(0, 0, 0, 42)),
    (call!(store 0, TOP32, 8), at_root!(1, 1, 1, 42)),
    (Call::Clear, at_root!(0, 0, 0, 42)),
];

/// Two inner nodes of a narrow tree for allocation, of 13 leaves and of 18; the last leaf has 31 items.
const NARROW_ALLOC_LEVELS: &[Case] = &[
    // in place
    (call!(store 1, 1, 9), in_slot!(3, 34, 1, 1)),
    (call!(store 0, 0, 9), in_slot!(3, 34, 0, 0)),
    // the last leaf is split in two, below the same root
    (call!(store 572, 572, 1), in_slot!(3, 35, 3, 2)),
    // the second leaf goes, and the first takes the items of the third
    (call!(store 2, 36, 0), in_slot!(3, 32, 2, 4)),
    // the first inner row keeps nine leaves, as few as it may
    (call!(store 0, 74, 3), in_slot!(3, 30, 2, 6)),
    // the first inner row has too few leaves, and takes those of the row behind: two new ones
    (call!(store 0, 92, 3), at_root!(3, 29, 4, 9)),
    // the second inner row has too few leaves, and takes those of the row before: one, which is the root
    (call!(store 288, 468, 0), at_root!(2, 22, 3, 15)),
    // leaves of both inner rows go: two levels are left
    (call!(store 14, 450, 5), at_root!(2, 8, 2, 28)),
    // two levels are lost
    (call!(store 1, 570, 0), at_root!(1, 1, 1, 34)),
    (call!(store 0, TOP32, 0), at_root!(0, 0, 0, 34)),
    (call!(store 0, TOP32, 8), at_root!(1, 1, 1, 34)),
    (Call::Clear, at_root!(0, 0, 0, 34)),
];

pub const TRIALS: &[Trial] = &[
    Trial {
        kinds: WIDE,
        singles: 0,
        cases: EMPTY,
    },
    Trial {
        kinds: WIDE,
        singles: 8,
        cases: LEAF,
    },
    Trial {
        kinds: WIDE,
        singles: 17,
        cases: &[(call!(store 0, TOP, 8), at_root!(1, 1, 1, 4))],
    },
    Trial {
        kinds: WIDE,
        singles: 23,
        cases: BELOW_A_ROOT,
    },
    // a root of as many leaves as it has slots, of which the last has 15 items
    Trial {
        kinds: &[Kind::Range],
        singles: 83,
        cases: &[(call!(store 166, 166, 1), at_root!(3, 20, 5, 2))],
    },
    Trial {
        kinds: &[Kind::Alloc],
        singles: 53,
        cases: &[(call!(store 106, 106, 1), at_root!(3, 14, 5, 2))],
    },
    Trial {
        kinds: &[Kind::Range],
        singles: 118,
        cases: RANGE_LEVELS,
    },
    Trial {
        kinds: &[Kind::Alloc],
        singles: 83,
        cases: ALLOC_LEVELS,
    },
    Trial {
        kinds: NARROW,
        singles: 0,
        cases: NARROW_EMPTY,
    },
    Trial {
        kinds: NARROW,
        singles: 16,
        cases: NARROW_LEAF,
    },
    Trial {
        kinds: NARROW,
        singles: 33,
        cases: &[(call!(store 0, TOP32, 8), at_root!(1, 1, 1, 4))],
    },
    Trial {
        kinds: NARROW,
        singles: 43,
        cases: BELOW_A_NARROW_ROOT,
    },
    // a root of as many leaves as it has slots, of which the last has 31 items
    Trial {
        kinds: &[Kind::Range32],
        singles: 295,
        cases: &[(call!(store 590, 590, 1), at_root!(3, 36, 5, 2))],
    },
    Trial {
        kinds: &[Kind::Alloc32],
        singles: 196,
        cases: &[(call!(store 392, 392, 1), at_root!(3, 25, 5, 2))],
    },
    Trial {
        kinds: &[Kind::Range32],
        singles: 358,
        cases: FEWER_NARROW_RANGE_LEVELS,
    },
    Trial {
        kinds: &[Kind::Range32],
        singles: 367,
        cases: NARROW_RANGE_LEVELS,
    },
    Trial {
        kinds: &[Kind::Alloc32],
        singles: 286,
        cases: NARROW_ALLOC_LEVELS,
    },
];

/// Stores at these indexes fill two leaves of ranges of ten indexes, of which the first ends at 109.
pub const FILLING: &[u64] = &[5, 15, 20, 115, 125, 130];

/// A store over the end of the first and the beginning of the second.
pub const SPLIT: &[Case] = &[(call!(store 109, 110, 9), at_root!(2, 5, 4, 3))];

/// Stores at these indexes fill two leaves of a narrow tree, of which the first ends at 189.
pub const NARROW_FILLING: &[u64] = &[5, 15, 25, 35, 45, 55, 60, 195, 205, 215, 225, 235, 245, 250];

pub const NARROW_SPLIT: &[Case] = &[(call!(store 189, 190, 9), at_root!(2, 5, 4, 3))];
