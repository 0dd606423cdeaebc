ghost use Rattle.std.specs.Prelude.{◌≤◌, IfOk};
ghost use Rattle.mt_base.specs.Width.{greatest_of};
ghost use Rattle.mt_rows.specs.Memory.{sheet_in};
ghost use Rattle.mt_rows.specs.Publish.{IsTreeOf};

use crate::asserts::same;
use crate::small_trees::{ELEVEN, TOP, TOP32, TWENTY_SEVEN, checked_rows, words_of};
use mt_base::{Kind, cols, top, width_of};
use mt_layout::Span;
use mt_path::{Handle, Path, PathStep, walk_to};
use mt_rows::PlainRows;
use std::alloc::Global;
use std::process::Abort;
use std::test::Fail;

/// An allocation tree: the node 16 with the leaves 17 and 18. It is a wide one, or a narrow one.
fn two_leaves(rt: &impl Abort, alloc: Global, kind: Kind) -> Result<PlainRows, Fail>
    ensures { IfOk result (λ rows. IsTreeOf (sheet_in rows).tree kind) }
{
    let nodes = match kind {
        Kind::Range | Kind::Alloc => ELEVEN,
        Kind::Range32 | Kind::Alloc32 => TWENTY_SEVEN,
    };
    let words = words_of(alloc, width_of(kind), nodes)?;
    let columns = cols(width_of(kind)) as usize;
    assert!(rt; words.len() % columns == 0 && words.len() / columns <= 3);
    let (rows, _) = checked_rows(alloc, &words, 4124, kind)?;
    Ok(rows)
}

/// A step through a node at a slot, to between these indexes.
macro_rules! step {
    ($row:expr, $slot:expr, $min:expr, $max:expr) => {
        PathStep { row: $row, slot: $slot, min: $min, max: $max }
    };
}

/// The path to an index of the leaf 17, in this slot.
macro_rules! in_left {
    ($slot:expr) => { &[step!(16, 0, 0, TOP), step!(17, $slot, 0, 11)] };
    (narrow $slot:expr) => { &[step!(16, 0, 0, TOP32), step!(17, $slot, 0, 23)] };
}

/// The path to an index of the leaf 18, in this slot.
macro_rules! in_right {
    ($slot:expr) => { &[step!(16, 1, 0, TOP), step!(18, $slot, 12, TOP)] };
    (narrow $slot:expr) => { &[step!(16, 1, 0, TOP32), step!(18, $slot, 24, TOP32)] };
}

/// What is in the leaf 17, at this slot.
macro_rules! held_left {
    ($slot:expr, $first:expr, $last:expr) => {
        Handle {
            leaf: step!(17, $slot, 0, 11),
            span: Span { first: $first, last: $last, word: 4096 },
        }
    };
    (narrow $slot:expr, $first:expr, $last:expr) => {
        Handle {
            leaf: step!(17, $slot, 0, 23),
            span: Span { first: $first, last: $last, word: 4096 },
        }
    };
}

/// What is in the leaf 18, at this slot.
macro_rules! held_right {
    ($slot:expr, $first:expr, $last:expr, $word:expr) => {
        Handle {
            leaf: step!(18, $slot, 12, TOP),
            span: Span { first: $first, last: $last, word: $word },
        }
    };
    (narrow $slot:expr, $first:expr, $last:expr, $word:expr) => {
        Handle {
            leaf: step!(18, $slot, 24, TOP32),
            span: Span { first: $first, last: $last, word: $word },
        }
    };
}

/// An index of the tree, the path to it, and what is there.
struct Way {
    index: u64,
    path: &'static [PathStep],
    here: Handle,
}

/// Indexes, each with the path to it and what is there.
macro_rules! ways {
    ($($index:expr => $path:expr, $here:expr;)*) => {
        &[$(Way { index: $index, path: $path, here: $here }),*]
    };
}

/// Ways in the wide tree.
const WAYS: &[Way] = ways! {
    0 => in_left!(0), held_left!(0, 0, 0);
    4 => in_left!(4), held_left!(4, 4, 4);
    5 => in_left!(5), held_left!(5, 5, 11);
    11 => in_left!(5), held_left!(5, 5, 11);
    12 => in_right!(0), held_right!(0, 12, 12, 4096);
    16 => in_right!(4), held_right!(4, 16, 16, 4096);
    17 => in_right!(5), held_right!(5, 17, TOP, 0);
    TOP => in_right!(5), held_right!(5, 17, TOP, 0);
};

/// Ways in the narrow tree.
const NARROW_WAYS: &[Way] = ways! {
    0 => in_left!(narrow 0), held_left!(narrow 0, 0, 0);
    12 => in_left!(narrow 12), held_left!(narrow 12, 12, 12);
    13 => in_left!(narrow 13), held_left!(narrow 13, 13, 23);
    23 => in_left!(narrow 13), held_left!(narrow 13, 13, 23);
    24 => in_right!(narrow 0), held_right!(narrow 0, 24, 24, 4096);
    36 => in_right!(narrow 12), held_right!(narrow 12, 36, 36, 4096);
    37 => in_right!(narrow 13), held_right!(narrow 13, 37, TOP32, 0);
    TOP32 => in_right!(narrow 13), held_right!(narrow 13, 37, TOP32, 0);
};

const TREES: [(Kind, &[Way]); 2] = [(Kind::Alloc, WAYS), (Kind::Alloc32, NARROW_WAYS)];

/// The index is one of a tree of this kind.
fn expect_within(rt: &impl Abort, kind: Kind, index: u64)
    ensures { index ≤ greatest_of kind }
{
    assert!(rt; index <= top(width_of(kind)));
}

/// The path to an index, and what is there.
fn walked_to(
    rt: &impl Abort,
    alloc: Global,
    kind: Kind,
    index: u64,
) -> Result<(Path, Option<Handle>), Fail> {
    let mut rows = two_leaves(rt, alloc, kind)?;
    expect_within(rt, kind, index);
    let mut path = Path::new();
    let end = walk_to(&mut rows, index, &mut path);
    Ok((path, end))
}

#[test]
fn ways_to_indexes(rt: HostRuntime) -> Result<(), Fail> {
    for (kind, ways) in TREES {
        for way in ways {
            let (path, end) = walked_to(&rt, rt.alloc(), kind, way.index)?;
            same(&rt, path.as_slice(), way.path, (kind, way.index));
            same(&rt, end, Some(way.here), (kind, way.index));
        }
    }
    Ok(())
}
