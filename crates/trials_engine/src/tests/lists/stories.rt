//! Calls on a map, by what they show: the reply to each, the ranges at the end, and the answers to queries then.

use crate::small_trees::{TOP, TOP32};
use mt_base::{Call, Kind, Query, Range, Reply};

/// What calls on a new map lead to, and what is asked of it then.
pub struct Story {
    pub name: &'static str,
    pub kind: Kind,
    pub calls: &'static [(Call, Reply)],
    pub ranges: &'static [Range],
    pub queries: &'static [(Query, Option<Range>)],
}

/// A query, by its verb and its numbers.
macro_rules! query {
    (load $index:expr) => { Query::Load { index: $index } };
    (find $index:expr, $max:expr) => { Query::Find { index: $index, max: $max } };
    (next $index:expr, $max:expr) => { Query::Next { index: $index, max: $max } };
    (prev $index:expr, $min:expr) => { Query::Prev { index: $index, min: $min } };
    (rfind $index:expr, $min:expr) => { Query::Rfind { index: $index, min: $min } };
}

/// Stories of trees of two kinds, the last index of which is `top`. Ten indexes from `high` on are the last ones.
macro_rules! stories {
    ($range:ident, $alloc:ident, $top:expr, $high:expr) => {
        &[
        Story {
            name: "stores into a range",
            kind: Kind::$range,
            calls: &[
                (call!(store 0, 99, 1), Reply::Ok),
                (call!(store 40, 49, 3), Reply::Over(1)),
            ],
            ranges: &[range!(0, 39, 1), range!(40, 49, 3), range!(50, 99, 1)],
            queries: &[],
        },
        Story {
            name: "erases from a range",
            kind: Kind::$range,
            calls: &[
                (call!(store 0, 99, 1), Reply::Ok),
                (call!(store 40, 49, 0), Reply::Over(1)),
                (call!(store 45, 60, 0), Reply::Over(1)),
            ],
            ranges: &[range!(0, 39, 1), range!(61, 99, 1)],
            queries: &[],
        },
        Story {
            name: "tells the first entry that a store overwrites",
            kind: Kind::$range,
            calls: &[
                (call!(store 10, 19, 5), Reply::Ok),
                (call!(store 30, 39, 7), Reply::Ok),
                (call!(store 20, 29, 0), Reply::Ok),
                (call!(store 0, 9, 9), Reply::Ok),
                (call!(store 19, 30, 0), Reply::Over(5)),
                (call!(store 19, 31, 11), Reply::Over(7)),
                (call!(store 5, $top, 13), Reply::Over(9)),
                (call!(erase 7), Reply::Was(range!(5, $top, 13))),
            ],
            ranges: &[range!(0, 4, 9)],
            queries: &[],
        },
        Story {
            name: "ends at the last index",
            kind: Kind::$range,
            calls: &[
                (call!(store 0, $top, 7), Reply::Ok),
                (call!(store $top, $top, 9), Reply::Over(7)),
            ],
            ranges: &[range!(0, $top - 1, 7), range!($top, $top, 9)],
            queries: &[],
        },
        Story {
            name: "refuses what is invalid",
            kind: Kind::$range,
            calls: &[
                (call!(store 5, 4, 1), Reply::Invalid),
                (call!(store 1, 1, 2), Reply::Invalid),
                (call!(store 1, 1, 4094), Reply::Invalid),
                (call!(store 1, 1, 4098), Reply::Ok),
                (call!(insert 2, 2, 0), Reply::Invalid),
            ],
            ranges: &[range!(1, 1, 4098)],
            queries: &[],
        },
        Story {
            name: "inserts where no index is held",
            kind: Kind::$range,
            calls: &[
                (call!(insert 20, 29, 3), Reply::Ok),
                (call!(insert 29, 29, 4), Reply::Exists),
                (call!(insert 30, 30, 4), Reply::Ok),
            ],
            ranges: &[range!(20, 29, 3), range!(30, 30, 4)],
            queries: &[],
        },
        Story {
            name: "erases the whole range",
            kind: Kind::$range,
            calls: &[
                (call!(store 10, 19, 5), Reply::Ok),
                (call!(erase 15), Reply::Was(range!(10, 19, 5))),
                (call!(erase 15), Reply::None),
            ],
            ranges: &[],
            queries: &[],
        },
        Story {
            name: "clears",
            kind: Kind::$range,
            calls: &[
                (call!(store 10, 19, 5), Reply::Ok),
                (call!(store 30, 39, 7), Reply::Ok),
                (Call::Clear, Reply::Ok),
            ],
            ranges: &[],
            queries: &[],
        },
        Story {
            name: "loads and finds at the ends of a range",
            kind: Kind::$range,
            calls: &[(call!(store 10, 19, 5), Reply::Ok)],
            ranges: &[range!(10, 19, 5)],
            queries: &[
                (query!(load 9), None),
                (query!(load 10), Some(range!(10, 19, 5))),
                (query!(load 19), Some(range!(10, 19, 5))),
                (query!(load 20), None),
                (query!(find 5, 9), None),
                (query!(find 5, 10), Some(range!(10, 19, 5))),
                (query!(find 20, $top), None),
                (query!(find 15, 12), None),
                (query!(find 12, 12), Some(range!(10, 19, 5))),
            ],
        },
        Story {
            name: "walks up and down",
            kind: Kind::$range,
            calls: &[
                (call!(store 0, 9, 1), Reply::Ok),
                (call!(store 20, 29, 5), Reply::Ok),
                (call!(store $top, $top, 3), Reply::Ok),
            ],
            ranges: &[range!(0, 9, 1), range!(20, 29, 5), range!($top, $top, 3)],
            queries: &[
                (query!(next 5, $top), Some(range!(20, 29, 5))),
                (query!(next 10, $top), Some(range!(20, 29, 5))),
                (query!(next 0, 20), Some(range!(20, 29, 5))),
                (query!(next 0, 19), None),
                (query!(next $top, $top), None),
                (query!(prev 25, 0), Some(range!(0, 9, 1))),
                (query!(prev 20, 0), Some(range!(0, 9, 1))),
                (query!(prev 15, 10), None),
                (query!(prev 0, 0), None),
                (query!(rfind 15, 0), Some(range!(0, 9, 1))),
                (query!(rfind 15, 10), None),
                (query!(rfind $top, 0), Some(range!($top, $top, 3))),
            ],
        },
        Story {
            name: "walks over single indexes",
            kind: Kind::$range,
            calls: &[
                (call!(store 0, 0, 1), Reply::Ok),
                (call!(store 2, 2, 1), Reply::Ok),
                (call!(store 4, 4, 1), Reply::Ok),
                (call!(store 6, 6, 1), Reply::Ok),
                (call!(store 8, 8, 1), Reply::Ok),
                (call!(store 10, 10, 1), Reply::Ok),
                (call!(store 12, 12, 1), Reply::Ok),
                (call!(store 14, 14, 1), Reply::Ok),
                (call!(store 16, 16, 1), Reply::Ok),
                (call!(store 18, 18, 1), Reply::Ok),
                (call!(store 20, 20, 1), Reply::Ok),
                (call!(store 22, 22, 1), Reply::Ok),
                (call!(store 24, 24, 1), Reply::Ok),
                (call!(store 26, 26, 1), Reply::Ok),
                (call!(store 28, 28, 1), Reply::Ok),
                (call!(store 30, 30, 1), Reply::Ok),
                (call!(store 32, 32, 1), Reply::Ok),
            ],
            ranges: &[
                range!(0, 0, 1),
                range!(2, 2, 1),
                range!(4, 4, 1),
                range!(6, 6, 1),
                range!(8, 8, 1),
                range!(10, 10, 1),
                range!(12, 12, 1),
                range!(14, 14, 1),
                range!(16, 16, 1),
                range!(18, 18, 1),
                range!(20, 20, 1),
                range!(22, 22, 1),
                range!(24, 24, 1),
                range!(26, 26, 1),
                range!(28, 28, 1),
                range!(30, 30, 1),
                range!(32, 32, 1),
            ],
            queries: &[
                (query!(next 0, $top), Some(range!(2, 2, 1))),
                (query!(rfind 1, 0), Some(range!(0, 0, 1))),
                (query!(next 2, $top), Some(range!(4, 4, 1))),
                (query!(rfind 3, 0), Some(range!(2, 2, 1))),
                (query!(next 4, $top), Some(range!(6, 6, 1))),
                (query!(rfind 5, 0), Some(range!(4, 4, 1))),
                (query!(next 6, $top), Some(range!(8, 8, 1))),
                (query!(rfind 7, 0), Some(range!(6, 6, 1))),
                (query!(next 8, $top), Some(range!(10, 10, 1))),
                (query!(rfind 9, 0), Some(range!(8, 8, 1))),
                (query!(next 10, $top), Some(range!(12, 12, 1))),
                (query!(rfind 11, 0), Some(range!(10, 10, 1))),
                (query!(next 12, $top), Some(range!(14, 14, 1))),
                (query!(rfind 13, 0), Some(range!(12, 12, 1))),
                (query!(next 14, $top), Some(range!(16, 16, 1))),
                (query!(rfind 15, 0), Some(range!(14, 14, 1))),
                (query!(next 16, $top), Some(range!(18, 18, 1))),
                (query!(rfind 17, 0), Some(range!(16, 16, 1))),
                (query!(next 18, $top), Some(range!(20, 20, 1))),
                (query!(rfind 19, 0), Some(range!(18, 18, 1))),
                (query!(next 20, $top), Some(range!(22, 22, 1))),
                (query!(rfind 21, 0), Some(range!(20, 20, 1))),
                (query!(next 22, $top), Some(range!(24, 24, 1))),
                (query!(rfind 23, 0), Some(range!(22, 22, 1))),
                (query!(next 24, $top), Some(range!(26, 26, 1))),
                (query!(rfind 25, 0), Some(range!(24, 24, 1))),
                (query!(next 26, $top), Some(range!(28, 28, 1))),
                (query!(rfind 27, 0), Some(range!(26, 26, 1))),
                (query!(next 28, $top), Some(range!(30, 30, 1))),
                (query!(rfind 29, 0), Some(range!(28, 28, 1))),
                (query!(next 30, $top), Some(range!(32, 32, 1))),
                (query!(rfind 31, 0), Some(range!(30, 30, 1))),
            ],
        },
        Story {
            name: "stores at the lowest and the highest start",
            kind: Kind::$alloc,
            calls: &[
                (call!(store 0, 9, 1), Reply::Ok),
                (call!(store 20, 29, 1), Reply::Ok),
                (call!(alloc 10, 0, $top, 3), Reply::Start(10)),
                (call!(ralloc 10, 0, $top, 4), Reply::Start($high)),
            ],
            ranges: &[
                range!(0, 9, 1),
                range!(10, 19, 3),
                range!(20, 29, 1),
                range!($high, $top, 4),
            ],
            queries: &[],
        },
        Story {
            name: "finds room in windows",
            kind: Kind::$alloc,
            calls: &[
                (call!(store 0, 9, 1), Reply::Ok),
                (call!(store 20, 29, 1), Reply::Ok),
                (call!(gap 11, 5, 25), Reply::Busy),
                (call!(gap 0, 0, 9), Reply::Invalid),
                (call!(gap 11, 0, 9), Reply::Invalid),
                (call!(gap 1, 9, 8), Reply::Invalid),
                (call!(rgap 4, 5, 25), Reply::Start(16)),
            ],
            ranges: &[range!(0, 9, 1), range!(20, 29, 1)],
            queries: &[],
        },
        Story {
            name: "finds no room in a full tree",
            kind: Kind::$alloc,
            calls: &[
                (call!(store 0, $top, 1), Reply::Ok),
                (call!(alloc 1, 0, $top, 3), Reply::Busy),
            ],
            ranges: &[range!(0, $top, 1)],
            queries: &[],
        },
        Story {
            name: "seeks no room in a tree of ranges",
            kind: Kind::$range,
            calls: &[
                (call!(alloc 1, 0, $top, 3), Reply::Invalid),
                (call!(rgap 1, 0, 0), Reply::Invalid),
            ],
            ranges: &[],
            queries: &[],
        },
        Story {
            name: "maps addresses",
            kind: Kind::$alloc,
            calls: &[
                (call!(store 0x40_0000, 0x40_1fff, 8192), Reply::Ok),
                (call!(store 0x7fff_f000, 0x7fff_ffff, 8196), Reply::Ok),
                (
                    call!(ralloc 0x3000, 0x1_0000, 0x7fff_ffff, 8200),
                    Reply::Start(2_147_467_264),
                ),
            ],
            ranges: &[
                range!(0x40_0000, 0x40_1fff, 8192),
                range!(2_147_467_264, 2_147_479_551, 8200),
                range!(2_147_479_552, 2_147_483_647, 8196),
            ],
            queries: &[(
                query!(next 0x40_0000, $top),
                Some(range!(2_147_467_264, 2_147_479_551, 8200)),
            )],
        },
        Story {
            name: "maps addresses, and gives some back",
            kind: Kind::$alloc,
            calls: &[
                (call!(store 0x40_0000, 0x40_1fff, 8192), Reply::Ok),
                (call!(store 0x7fff_f000, 0x7fff_ffff, 8196), Reply::Ok),
                (
                    call!(ralloc 0x3000, 0x1_0000, 0x7fff_ffff, 8200),
                    Reply::Start(2_147_467_264),
                ),
                (
                    call!(erase 0x40_0010),
                    Reply::Was(range!(0x40_0000, 0x40_1fff, 8192)),
                ),
            ],
            ranges: &[
                range!(2_147_467_264, 2_147_479_551, 8200),
                range!(2_147_479_552, 2_147_483_647, 8196),
            ],
            queries: &[],
        },
        // Linux 6.12 answers these four otherwise, by a fault of its own.
        Story {
            name: "inserts over all indexes, of which one is held",
            kind: Kind::$range,
            calls: &[
                (call!(store 5, 5, 1), Reply::Ok),
                (call!(insert 0, $top, 3), Reply::Exists),
            ],
            ranges: &[range!(5, 5, 1)],
            queries: &[],
        },
        Story {
            name: "walks down to above the lowest index",
            kind: Kind::$range,
            calls: &[(call!(store 0, 0, 5), Reply::Ok)],
            ranges: &[range!(0, 0, 5)],
            queries: &[(query!(prev 9, 1), None), (query!(rfind 9, 1), None)],
        },
        Story {
            name: "finds the highest room below a range that ends at the last index",
            kind: Kind::$alloc,
            calls: &[
                (call!(store 10, $top, 1), Reply::Ok),
                (call!(rgap 1, 0, $top), Reply::Start(9)),
            ],
            ranges: &[range!(10, $top, 1)],
            queries: &[],
        },
        Story {
            name: "finds room in the tree that was emptied by an erase",
            kind: Kind::$alloc,
            calls: &[
                (call!(store 0, $top, 7), Reply::Ok),
                (call!(erase 3), Reply::Was(range!(0, $top, 7))),
                (call!(gap 1, 0, $top), Reply::Start(0)),
            ],
            ranges: &[],
            queries: &[],
        },
        ]
    };
}

/// Stories of wide trees.
pub const WIDE: &[Story] = stories!(Range, Alloc, TOP, 18_446_744_073_709_551_606);

/// Stories of narrow trees.
pub const NARROW: &[Story] = stories!(Range32, Alloc32, TOP32, 4_294_967_286);

/// What lies above the last index of a narrow tree.
pub const ABOVE: &[Story] = &[
    Story {
        name: "refuses what ends above the last index, and erases nothing there",
        kind: Kind::Range32,
        calls: &[
            (call!(store 5, TOP32 + 1, 1), Reply::Invalid),
            (call!(store TOP32 + 1, TOP, 1), Reply::Invalid),
            (call!(insert TOP, TOP, 1), Reply::Invalid),
            (call!(store 0, 9, 3), Reply::Ok),
            (call!(insert TOP32, TOP32, 7), Reply::Ok),
            (call!(erase TOP32 + 1), Reply::None),
            (call!(erase TOP), Reply::None),
        ],
        ranges: &[range!(0, 9, 3), range!(TOP32, TOP32, 7)],
        queries: &[
            (query!(load TOP32), Some(range!(TOP32, TOP32, 7))),
            (query!(load TOP32 + 1), None),
            (query!(find TOP32 + 1, TOP), None),
            (query!(find 10, TOP), Some(range!(TOP32, TOP32, 7))),
            (query!(next 5, TOP), Some(range!(TOP32, TOP32, 7))),
            (query!(next TOP32, TOP), None),
            (query!(next TOP, TOP), None),
            (query!(prev TOP32, 0), Some(range!(0, 9, 3))),
            (query!(prev TOP32 + 1, 0), Some(range!(TOP32, TOP32, 7))),
            (query!(prev TOP, TOP32 + 1), None),
            (query!(rfind TOP, 0), Some(range!(TOP32, TOP32, 7))),
            (query!(rfind TOP, TOP32 + 1), None),
        ],
    },
    Story {
        name: "seeks no room above the last index",
        kind: Kind::Alloc32,
        calls: &[
            (call!(gap 1, 0, TOP32 + 1), Reply::Invalid),
            (call!(rgap 1, TOP, TOP), Reply::Invalid),
            (call!(alloc 1, 0, TOP, 3), Reply::Invalid),
            (
                call!(ralloc 2, TOP32 - 1, TOP32, 3),
                Reply::Start(TOP32 - 1),
            ),
        ],
        ranges: &[range!(TOP32 - 1, TOP32, 3)],
        queries: &[],
    },
];
