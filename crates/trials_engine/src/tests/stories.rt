//! Calls on an engine with few nodes or many: the reply to each, and the ranges at the end.

use crate::tests::{TOP, TOP32};
use mt_base::{Call, Kind, Range, Reply, Shortage};

/// What calls on a new tree of this kind, with this many nodes, lead to.
pub struct Story {
    pub kind: Kind,
    pub rows: u64,
    pub calls: &'static [(Call, Reply)],
    pub ranges: &'static [Range],
}

/// What a store lacks where one node of four is live.
const FEW: Shortage = Shortage {
    need: 4,
    free: 3,
    live: 1,
    held: 0,
    by: None,
};

/// Too few nodes are free.
macro_rules! few_rows {
    ($kind:expr) => {
        Story {
            kind: $kind,
            rows: 4,
            calls: &[
                (call!(store 10, 10, 5), Reply::Ok),
                (call!(store 20, 20, 7), Reply::NoNodes(FEW)),
                (call!(store 10, 10, 9), Reply::Over(5)),
                (call!(store_pre 10, 10, 8), Reply::NoNodes(FEW)),
                (call!(store_pre 12, 11, 8), Reply::Invalid),
                (call!(insert 10, 12, 9), Reply::Exists),
                (call!(store 10, 10, 2), Reply::Invalid),
                (Call::Clear, Reply::Ok),
            ],
            ranges: &[],
        }
    };
}

/// Stores that want nodes at hand.
macro_rules! at_hand {
    ($kind:expr) => {
        Story {
            kind: $kind,
            rows: 8,
            calls: &[
                (call!(store_pre 10, 10, 5), Reply::Ok),
                (call!(store_pre 5, 4, 1), Reply::Invalid),
                (call!(store_pre 10, 10, 7), Reply::Over(5)),
            ],
            ranges: &[range!(10, 10, 7)],
        }
    };
}

/// A store returns the entry of the first range that it meets, from a hole or from within a range, and an erase the whole
/// range.
macro_rules! what_was_there {
    ($kind:expr, $last:expr) => {
        Story {
            kind: $kind,
            rows: 400,
            calls: &[
                (call!(store 10, 19, 5), Reply::Ok),
                (call!(store 30, 39, 7), Reply::Ok),
                (call!(store 20, 29, 0), Reply::Ok),
                (call!(store 0, 9, 0), Reply::Ok),
                (call!(store 40, $last, 0), Reply::Ok),
                (call!(store 5, 34, 9), Reply::Over(5)),
                (call!(store 5, 34, 11), Reply::Over(9)),
                (call!(store 20, 20, 0), Reply::Over(11)),
                (call!(store 20, 36, 13), Reply::Over(11)),
                (call!(store_pre 37, $last, 0), Reply::Over(7)),
                (call!(store 20, $last, 15), Reply::Over(13)),
                (call!(erase 19), Reply::Was(range!(5, 19, 11))),
                (call!(store_pre 0, $last, 0), Reply::Over(15)),
                (call!(store_pre 0, $last, 0), Reply::Ok),
                (call!(store 3, 3, 17), Reply::Ok),
            ],
            ranges: &[range!(3, 3, 17)],
        }
    };
}

/// Room is found between two ranges.
macro_rules! room_between {
    ($kind:expr, $last:expr) => {
        Story {
            kind: $kind,
            rows: 400,
            calls: &[
                (call!(store 0, 9, 1), Reply::Ok),
                (call!(store 20, 29, 1), Reply::Ok),
                (call!(gap 11, 5, 25), Reply::Busy),
                (call!(rgap 4, 5, 25), Reply::Start(16)),
                (call!(gap 0, 5, 25), Reply::Invalid),
                (call!(gap 11, 0, 9), Reply::Invalid),
                (call!(gap 1, 9, 8), Reply::Invalid),
                (call!(alloc 10, 0, $last), Reply::Start(10)),
                (call!(ralloc 10, 0, $last), Reply::Start($last - 9)),
                (call!(alloc 1, 0, 29), Reply::Busy),
                (call!(gap 1, 0, $last), Reply::Start(30)),
                (call!(rgap 1, 0, $last), Reply::Start($last - 10)),
            ],
            ranges: &[
                range!(0, 9, 1),
                range!(10, 19, 1),
                range!(20, 29, 1),
                range!($last - 9, $last, 1),
            ],
        }
    };
}

/// Room is found below a range, and in the tree that was emptied.
macro_rules! room_below {
    ($kind:expr, $last:expr) => {
        Story {
            kind: $kind,
            rows: 400,
            calls: &[
                (call!(gap 1, 0, $last), Reply::Start(0)),
                (call!(store 10, $last, 1), Reply::Ok),
                (call!(rgap 1, 0, $last), Reply::Start(9)),
                (call!(store 0, $last, 7), Reply::Over(1)),
                (call!(gap 1, 0, $last), Reply::Busy),
                (call!(erase 3), Reply::Was(range!(0, $last, 7))),
                (call!(gap 1, 0, $last), Reply::Start(0)),
                (call!(store 5, 9, 1), Reply::Ok),
                (Call::Clear, Reply::Ok),
                (call!(rgap 1, 0, $last), Reply::Start($last)),
                (call!(alloc $last, 0, $last), Reply::Start(0)),
                (call!(gap 1, 0, $last), Reply::Start($last)),
            ],
            ranges: &[range!(0, $last - 1, 1)],
        }
    };
}

/// Windows cut holes, which are 0 to 4, 10 to 19, 30 to 39 and the last five indexes.
macro_rules! room_in_windows {
    ($kind:expr, $last:expr) => {
        Story {
            kind: $kind,
            rows: 400,
            calls: &[
                (call!(store 5, 9, 1), Reply::Ok),
                (call!(store 20, 29, 1), Reply::Ok),
                (call!(store 40, $last - 5, 1), Reply::Ok),
                (call!(gap 5, 0, $last), Reply::Start(0)),
                (call!(rgap 5, 0, $last), Reply::Start($last - 4)),
                (call!(gap 10, 0, $last), Reply::Start(10)),
                (call!(rgap 10, 0, $last), Reply::Start(30)),
                (call!(gap 11, 0, $last), Reply::Busy),
                (call!(gap 2, 3, $last), Reply::Start(3)),
                (call!(gap 3, 3, $last), Reply::Start(10)),
                (call!(rgap 2, 0, 11), Reply::Start(10)),
                (call!(rgap 3, 0, 11), Reply::Start(2)),
                (call!(rgap 5, 0, $last - 1), Reply::Start(35)),
                (call!(gap 3, 12, 15), Reply::Start(12)),
                (call!(rgap 3, 12, 15), Reply::Start(13)),
                (call!(gap 4, 12, 15), Reply::Start(12)),
                (call!(rgap 4, 12, 15), Reply::Start(12)),
                (call!(gap 1, 5, 9), Reply::Busy),
                (call!(rgap 1, 40, $last - 5), Reply::Busy),
            ],
            ranges: &[range!(5, 9, 1), range!(20, 29, 1), range!(40, $last - 5, 1)],
        }
    };
}

/// An allocation lacks nodes as a store does.
macro_rules! few_rows_for_areas {
    ($kind:expr, $last:expr) => {
        Story {
            kind: $kind,
            rows: 4,
            calls: &[
                (call!(alloc 1, 10, 10), Reply::Start(10)),
                (call!(store 20, 20, 7), Reply::NoNodes(FEW)),
                (call!(alloc 1, 20, 20), Reply::NoNodes(FEW)),
                (call!(ralloc 1, 0, $last), Reply::NoNodes(FEW)),
                (call!(alloc 1, 10, 10), Reply::Busy),
                (call!(alloc 2, 10, 10), Reply::Invalid),
                (call!(gap 1, 10, 20), Reply::Start(11)),
                (call!(store 10, 10, 4), Reply::Over(1)),
                (call!(store_pre 10, 10, 8), Reply::NoNodes(FEW)),
                (call!(erase 10), Reply::NoNodes(FEW)),
                (Call::Clear, Reply::Ok),
                (call!(ralloc 1, 0, $last), Reply::Start($last)),
            ],
            ranges: &[range!($last, $last, 1)],
        }
    };
}

/// A tree of ranges finds no room.
macro_rules! no_room {
    ($kind:expr, $last:expr) => {
        Story {
            kind: $kind,
            rows: 400,
            calls: &[
                (call!(gap 1, 0, $last), Reply::Invalid),
                (call!(alloc 1, 0, $last), Reply::Invalid),
            ],
            ranges: &[],
        }
    };
}

pub const STORIES: &[Story] = &[
    few_rows!(Kind::Range),
    few_rows!(Kind::Range32),
    at_hand!(Kind::Range),
    at_hand!(Kind::Range32),
    what_was_there!(Kind::Range, TOP),
    what_was_there!(Kind::Alloc32, TOP32),
    room_between!(Kind::Alloc, TOP),
    room_between!(Kind::Alloc32, TOP32),
    room_below!(Kind::Alloc, TOP),
    room_below!(Kind::Alloc32, TOP32),
    room_in_windows!(Kind::Alloc, TOP),
    room_in_windows!(Kind::Alloc32, TOP32),
    few_rows_for_areas!(Kind::Alloc, TOP),
    few_rows_for_areas!(Kind::Alloc32, TOP32),
    no_room!(Kind::Range, TOP),
    no_room!(Kind::Range32, TOP32),
    // No index of a narrow tree is above its last one.
    Story {
        kind: Kind::Alloc32,
        rows: 400,
        calls: &[
            (call!(store 0, TOP32 + 1, 1), Reply::Invalid),
            (call!(store_pre TOP, TOP, 0), Reply::Invalid),
            (call!(insert TOP32 + 1, TOP32 + 1, 1), Reply::Invalid),
            (call!(alloc 1, 0, TOP32 + 1), Reply::Invalid),
            (call!(rgap 1, TOP32, TOP), Reply::Invalid),
            (call!(store TOP32, TOP32, 1), Reply::Ok),
            (call!(erase TOP32 + 1), Reply::None),
            (call!(erase TOP), Reply::None),
            (call!(rgap 1, 0, TOP32), Reply::Start(TOP32 - 1)),
        ],
        ranges: &[range!(TOP32, TOP32, 1)],
    },
];

/// Replies, and the kernel's error of each, if it is one.
pub const NUMBERS: &[(Reply, Option<u32>)] = &[
    (Reply::Ok, None),
    (Reply::Over(5), None),
    (Reply::Was(range!(0, 9, 5)), None),
    (Reply::NoNodes(FEW), Some(12)),
    (Reply::Busy, Some(16)),
    (Reply::Exists, Some(17)),
    (Reply::Invalid, Some(22)),
];
