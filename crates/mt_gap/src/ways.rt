//! A search that goes into one node in each level, and keeps the way that it goes.

ghost use Rattle.std.specs.Prelude.{◌≡◌, ◌≢◌, ◌<◌, ◌≤◌, ◌+◌, ◌-◌, ◌*◌, [], IfSome, IfNone, Some, if◌then◌else◌};
ghost use Rattle.mt_base.specs.Width.{columns};
ghost use Rattle.mt_layout.specs.declared.names.RowKind.TheVariants.{Gapped};
ghost use Rattle.mt_layout.specs.Rows.{row_in, named_kind};
ghost use Rattle.mt_layout.specs.Sizes.{slots_of};
ghost use Rattle.mt_rows.specs.Sheet.{IsPlace, ReadsUpTo};
ghost use Rattle.mt_rows.specs.Spans.{root_span};
ghost use Rattle.mt_rows.specs.Trees.{height_in};
ghost use Rattle.mt_gap.specs.Children.{row_children};
ghost use Rattle.mt_gap.specs.Descents.{IsGapped};
ghost use Rattle.mt_gap.specs.Slots.{child_in};
ghost use Rattle.mt_gap.specs.Ways.{ends_where, ends_with, forgets_where, into_one_more, with_child, IsSearchedBelow, EndsIn, IsLeafEnd, IsOneWay};

use crate::children::{SlotAt, load_last};
use crate::windows::{Window, is_inside, room_in_slot};
use mt_base::{DEEPEST, Width};
use mt_layout::{RowKind, Span, kind_of, row_of, slots};
use mt_path::{Path, PathStep};
use mt_rows::Rows;

/// What a search goes into below a node: nothing, what one slot holds, or more.
#[derive(Clone, Copy, Debug, PartialEq, Eq)]
pub(crate) enum Below {
    Nothing,
    One { slot: u32, span: Span },
    More,
}

/// Which place is sought of those that have room.
#[derive(Clone, Copy, Debug, PartialEq, Eq)]
pub(crate) enum Side {
    Low,
    High,
}

impl Side {
    /// Whether nothing is looked at after what is sure to have room.
    fn ends(self, sure: bool) -> bool
        ensures { result ≡ ends_where self sure }
    {
        match self {
            Side::Low => sure,
            Side::High => false,
        }
    }

    /// Whether what is sure to have room stands for all before it.
    fn forgets(self, sure: bool) -> bool
        ensures { result ≡ forgets_where self sure }
    {
        match self {
            Side::Low => false,
            Side::High => sure,
        }
    }
}

/// How far a search gets that goes into one node in each level: nowhere, to a leaf, or to a node below which it goes into more.
#[derive(Clone, Copy, Debug, PartialEq, Eq)]
pub(crate) enum End {
    Nowhere,
    Leaf { leaf: Span },
    Branch,
}

/// What is gone into, with what one more slot holds.
fn one_more(below: Below, slot: u32, span: Span) -> Below
    ensures { result ≡ into_one_more slot span below }
{
    match below {
        Below::Nothing => Below::One { slot, span },
        Below::One { .. } => Below::More,
        Below::More => Below::More,
    }
}

/// What is gone into, with what one more slot holds, which may stand for all before it.
fn one_more_up(below: Below, slot: u32, span: Span, sure: bool) -> Below
    ensures { result ≡ (if sure then Below.One slot span else into_one_more slot span below) }
{
    if sure {
        return Below::One { slot, span };
    }
    one_more(below, slot, span)
}

/// Takes what a slot of a node with gaps holds, if it may have room. Returns whether nothing after it has to be looked at.
#[inline(always)]
fn take_slot<R: Rows>(
    rows: &mut R,
    side: Side,
    at: SlotAt,
    first: u64,
    last: u64,
    window: Window,
    below: &mut Below,
) -> bool
    requires width { at.width ≡ (R.sheet rows.old).tree.table.width }
    requires row { IsPlace (R.sheet rows.old).tree at.row 0 }
    requires slot { at.slot < slots_of (R.sheet rows.old).tree.table.width Gapped }
    ensures below { below.new ≡ with_child side window at.slot (child_in (R.sheet rows.old).tree.table Gapped at.row at.slot first last) below.old }
    ensures ends { result ≡ ends_with side window (child_in (R.sheet rows.old).tree.table Gapped at.row at.slot first last) }
    ensures reads { ReadsUpTo 2 (R.sheet rows.old) (R.sheet rows.new) }
{
    let Some(child) = room_in_slot(rows, at, first, last, window) else {
        return false;
    };
    let sure = is_inside(window, first, last);
    *below = one_more_up(*below, at.slot, child.span, side.forgets(sure));
    side.ends(sure)
}

/// What a search goes into below a node with gaps, which covers the indexes from `first` to `max`.
#[inline(always)]
fn look_along<R: Rows>(
    rows: &mut R,
    side: Side,
    row: u32,
    first: u64,
    max: u64,
    window: Window,
) -> Below
    requires row { IsPlace (R.sheet rows.old).tree row 0 }
    ensures below { IsSearchedBelow side window (row_children (R.sheet rows.old).tree.table row Gapped first max) result }
    ensures reads { ReadsUpTo (columns (R.sheet rows.old).tree.table.width) (R.sheet rows.old) (R.sheet rows.new) }
{
    let width = rows.width();
    let mut below = Below::Nothing;
    let mut begin = first;
    for slot in 0..slots(width, RowKind::Gapped) {
        let at = SlotAt { width, row, slot };
        let last = load_last(rows, RowKind::Gapped, at, max);
        if take_slot(rows, side, at, begin, last, window, &mut below) {
            return below;
        }
        if max <= last {
            return below;
        }
        begin = last + 1;
    }
    below
}

/// What a search goes into below a node with gaps. Each side has a loop of its own.
fn look_below<R: Rows>(
    rows: &mut R,
    side: Side,
    row: u32,
    first: u64,
    max: u64,
    window: Window,
) -> Below
    requires row { IsPlace (R.sheet rows.old).tree row 0 }
    ensures below { IsSearchedBelow side window (row_children (R.sheet rows.old).tree.table row Gapped first max) result }
    ensures reads { ReadsUpTo (columns (R.sheet rows.old).tree.table.width) (R.sheet rows.old) (R.sheet rows.new) }
{
    match side {
        Side::Low => look_along(rows, Side::Low, row, first, max, window),
        Side::High => look_along(rows, Side::High, row, first, max, window),
    }
}

/// The node that a span names, if it is one with gaps.
fn gapped_row(span: Span) -> Option<u32>
    ensures some { IfSome result (λ row. (row ≡ row_in span.word) × (named_kind span.word ≡ Some Gapped)) }
    ensures none { IfNone result (named_kind span.word ≢ Some Gapped) }
{
    match (row_of(span.word), kind_of(span.word)) {
        (Some(row), Some(RowKind::Gapped)) => Some(row),
        _ => None,
    }
}

/// Goes down from the root as long as there is one node to go into, and puts the steps into an empty path, to where that ends.
pub(crate) fn go_one_way<R: Rows>(
    rows: &mut R,
    side: Side,
    root: Span,
    window: Window,
    path: &mut Path,
) -> End
    requires tree { IsGapped (R.sheet rows.old).tree }
    requires some { (R.sheet rows.old).tree.root ≢ 0 }
    requires root { root ≡ root_span (R.sheet rows.old).tree.table (R.sheet rows.old).tree.root }
    requires size { 1 ≤ window.size }
    requires empty { path.old.items ≡ [] }
    ensures end { EndsIn side (R.sheet rows.old).tree window path.new.items result }
    ensures reads { ReadsUpTo (height_in (R.sheet rows.old).tree.table (R.sheet rows.old).tree.root * columns (R.sheet rows.old).tree.table.width)
        (R.sheet rows.old) (R.sheet rows.new) }
    ensures one { IsOneWay side window (R.sheet rows.old).tree
        → IsLeafEnd result × ReadsUpTo ((height_in (R.sheet rows.old).tree.table (R.sheet rows.old).tree.root - 1)
        * columns (R.sheet rows.old).tree.table.width) (R.sheet rows.old) (R.sheet rows.new) }
{
    let mut at = root;
    for _ in 0..DEEPEST {
        let Some(row) = gapped_row(at) else {
            return End::Leaf { leaf: at };
        };
        match look_below(rows, side, row, at.first, at.last, window) {
            Below::Nothing => return End::Nowhere,
            Below::More => return End::Branch,
            Below::One { slot, span } => {
                path.push(PathStep {
                    row,
                    slot,
                    min: at.first,
                    max: at.last,
                });
                at = span;
            }
        }
    }
    unreachable!()
}
