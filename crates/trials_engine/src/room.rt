ghost use Rattle.std.specs.Prelude.{◌+◌, ◌≤◌};
ghost use Rattle.mt_base.specs.Blanks.{IsBlankOf};
ghost use Rattle.mt_rows.specs.Memory.{sheet_in};
ghost use Rattle.mt_rows.specs.Trees.{height_in};
ghost use Rattle.mt_gap.specs.Descents.{IsGapped};

use crate::asserts::same;
use crate::small_trees::{
    ELEVEN, LONGEST, LONGEST32, Node, TOP, TOP32, TWENTY_SEVEN, UNUSED, checked_rows, words_of,
};
use mt_base::{Kind, Steps, cols, finds_room, width_of};
use mt_gap::{highest, lowest};
use mt_layout::RowKind;
use mt_rows::PlainRows;
use std::alloc::Global;
use std::marker::Brand;
use std::process::Abort;
use std::sync::ledger::{Blank, Ledger};
use std::test::Fail;

/// An allocation tree of the same form with seven holes: 0 to 1, 3 to 5, 7 to 8, 12 to 15, 17, 19 to 20, and the last index.
#[rattlefmt::skip]
const HOLES: &[Node] = &[
    (RowKind::Gapped, 1, &[11, TOP], &[4364, 4620], &[3, 4]),
    (RowKind::Leaf, 4096, &[1, 2, 5, 6, 8, 11], &[0, 4096, 0, 4096, 0, 4096], &[]),
    (RowKind::Leaf, 4097, &[15, 16, 17, 18, 20, TOP - 1, TOP], &[0, 4096, 0, 4096, 0, 4096], &[]),
];

/// A narrow tree of the same form with seven holes: 0 to 1, 3 to 5, 7 to 8, 24 to 27, 29, 31 to 32, and the last index.
#[rattlefmt::skip]
const NARROW_HOLES: &[Node] = &[
    (RowKind::Gapped, 1, &[23, TOP32], &[4364, 4620], &[3, 4]),
    (RowKind::Leaf, 4096, &[1, 2, 5, 6, 8, 11, 12, 13, 14, 15, 16, 17, 18, 23],
        &[0, 4096, 0, 4096, 0, 4096, 4096, 4096, 4096, 4096, 4096, 4096, 4096, 4096], &[]),
    (RowKind::Leaf, 4097, &[27, 28, 29, 30, 32, 40, 41, 42, 43, 44, 45, 46, TOP32 - 1, TOP32],
        &[0, 4096, 0, 4096, 0, 4096, 4096, 4096, 4096, 4096, 4096, 4096, 4096], &[]),
];

/// The empty tree, in nodes of no use: three wide ones, or a narrow one.
const NONE: &[Node] = &[UNUSED, UNUSED, UNUSED];

const NARROW_NONE: &[Node] = &[UNUSED];

/// The lowest place in a tree of two levels, or the highest, in six steps at most.
fn place<L: Ledger>(
    rows: &mut PlainRows,
    is_lowest: bool,
    size: u64,
    lo: u64,
    hi: u64,
    steps: &mut Steps<L>,
) -> Option<u64>
    requires tree { IsGapped (sheet_in rows.old).tree }
    requires levels { height_in (sheet_in rows.old).tree.table (sheet_in rows.old).tree.root ≤ 2 }
    requires size { 1 ≤ size }
    ensures { steps.new ≤ steps.old + 6 }
{
    if is_lowest {
        lowest(rows, size, lo, hi, steps)
    } else {
        highest(rows, size, lo, hi, steps)
    }
}

/// The lowest place in a tree of two levels, or the highest, with steps of its own.
fn placed<L: Ledger>(
    blank: Blank,
    rows: PlainRows,
    is_lowest: bool,
    size: u64,
    lo: u64,
    hi: u64,
) -> Option<u64>
    requires blank { IsBlankOf L.name L.parts blank.name blank.parts }
    requires tree { IsGapped (sheet_in rows).tree }
    requires levels { height_in (sheet_in rows).tree.table (sheet_in rows).tree.root ≤ 2 }
    requires size { 1 ≤ size }
{
    let (mut rows, mut steps) = (rows, Steps::<L>::new(blank));
    place(&mut rows, is_lowest, size, lo, hi, &mut steps)
}

/// A size, a window, and the lowest and the highest place that must be found there.
type Window = ((u64, u64, u64), (Option<u64>, Option<u64>));

macro_rules! windows {
    ($($size:expr, $lo:expr, $hi:expr => $low:expr, $high:expr;)*) => {
        &[$((($size, $lo, $hi), ($low, $high))),*]
    };
}

const IN_TWO_LEAVES: &[Window] = windows! {
    1, 0, TOP => Some(17), Some(TOP);
    4, 0, TOP => Some(17), Some(18_446_744_073_709_551_612);
    1, 0, 16 => None, None;
    4, 18, 21 => Some(18), Some(18);
    5, 18, 21 => None, None;
    2, 10, 19 => Some(17), Some(18);
    LONGEST, 0, TOP => Some(17), Some(17);
    LONGEST + 1, 0, TOP => None, None;
    TOP, 0, TOP => None, None;
};

const BETWEEN_ENTRIES: &[Window] = windows! {
    1, 0, TOP => Some(0), Some(TOP);
    2, 0, TOP => Some(0), Some(19);
    3, 0, TOP => Some(3), Some(13);
    4, 0, TOP => Some(12), Some(12);
    5, 0, TOP => None, None;
    2, 1, TOP => Some(3), Some(19);
    2, 0, 19 => Some(0), Some(14);
    3, 4, 14 => Some(12), Some(12);
    2, 4, 14 => Some(4), Some(13);
    2, 7, 13 => Some(7), Some(12);
    2, 8, 12 => None, None;
    3, 13, 15 => Some(13), Some(13);
    1, 17, 17 => Some(17), Some(17);
    1, 2, 2 => None, None;
    2, 0, 0 => None, None;
    1, 21, TOP => Some(TOP), Some(TOP);
    2, TOP - 1, TOP => None, None;
};

const IN_NONE: &[Window] = windows! {
    4, 10, 13 => Some(10), Some(10);
    4, 10, 20 => Some(10), Some(17);
    4, 10, 12 => None, None;
    TOP, 0, TOP => Some(0), Some(1);
};

const IN_NARROW_LEAVES: &[Window] = windows! {
    1, 0, TOP32 => Some(37), Some(TOP32);
    4, 0, TOP32 => Some(37), Some(TOP32 - 3);
    1, 0, 36 => None, None;
    4, 38, 41 => Some(38), Some(38);
    5, 38, 41 => None, None;
    2, 10, 39 => Some(37), Some(38);
    LONGEST32, 0, TOP32 => Some(37), Some(37);
    LONGEST32 + 1, 0, TOP32 => None, None;
    TOP32, 0, TOP32 => None, None;
    1, 0, TOP => Some(37), Some(TOP32);
    4, 10, TOP => Some(37), Some(TOP32 - 3);
    1, TOP32 + 1, TOP => None, None;
};

const BETWEEN_NARROW_ENTRIES: &[Window] = windows! {
    1, 0, TOP32 => Some(0), Some(TOP32);
    2, 0, TOP32 => Some(0), Some(31);
    3, 0, TOP32 => Some(3), Some(25);
    4, 0, TOP32 => Some(24), Some(24);
    5, 0, TOP32 => None, None;
    2, 1, TOP32 => Some(3), Some(31);
    2, 0, 31 => Some(0), Some(26);
    3, 4, 26 => Some(24), Some(24);
    2, 4, 26 => Some(4), Some(25);
    2, 7, 25 => Some(7), Some(24);
    2, 8, 24 => None, None;
    3, 25, 27 => Some(25), Some(25);
    1, 29, 29 => Some(29), Some(29);
    1, 2, 2 => None, None;
    2, 0, 0 => None, None;
    1, 33, TOP32 => Some(TOP32), Some(TOP32);
    1, 33, TOP => Some(TOP32), Some(TOP32);
    2, TOP32 - 1, TOP => None, None;
};

const IN_NARROW_NONE: &[Window] = windows! {
    4, 10, 13 => Some(10), Some(10);
    4, 10, 20 => Some(10), Some(17);
    4, 10, 12 => None, None;
    TOP32, 0, TOP32 => Some(0), Some(1);
    TOP32 + 1, 0, TOP => Some(0), Some(0);
    TOP32 + 2, 0, TOP => None, None;
};

/// The places in these windows of the tree of this kind with these nodes.
fn expect_places(
    rt: &impl Abort,
    alloc: Global,
    kind: Kind,
    nodes: &[Node],
    root: u64,
    windows: &[Window],
) -> Result<(), Fail> {
    let words = words_of(alloc, width_of(kind), nodes)?;
    let columns = cols(width_of(kind)) as usize;
    assert!(rt; words.len() % columns == 0 && words.len() / columns <= 3 && finds_room(kind));
    for &((size, lo, hi), (low, high)) in windows {
        assert!(rt; 1 <= size);
        for (is_lowest, want) in [(true, low), (false, high)] {
            let (rows, form) = checked_rows(alloc, &words, root, kind)?;
            assert!(rt; form.height <= 2);
            let found = placed::<Brand>(Blank::new(1), rows, is_lowest, size, lo, hi);
            same(rt, found, want, (kind, size, lo, hi, is_lowest));
        }
    }
    Ok(())
}

#[test]
fn places_in_trees(rt: HostRuntime) -> Result<(), Fail> {
    expect_places(&rt, rt.alloc(), Kind::Alloc, ELEVEN, 4124, IN_TWO_LEAVES)?;
    expect_places(&rt, rt.alloc(), Kind::Alloc, HOLES, 4124, BETWEEN_ENTRIES)?;
    expect_places(&rt, rt.alloc(), Kind::Alloc, NONE, 0, IN_NONE)
}

#[test]
fn places_in_narrow_trees(rt: HostRuntime) -> Result<(), Fail> {
    for (nodes, root, windows) in [
        (TWENTY_SEVEN, 4124, IN_NARROW_LEAVES),
        (NARROW_HOLES, 4124, BETWEEN_NARROW_ENTRIES),
        (NARROW_NONE, 0, IN_NARROW_NONE),
    ] {
        expect_places(&rt, rt.alloc(), Kind::Alloc32, nodes, root, windows)?;
    }
    Ok(())
}
