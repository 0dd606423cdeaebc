//! Gap words mended on the way to an index: in the slots on the way, or in all slots of the nodes there.

ghost use Rattle.std.specs.Prelude.{◌≡◌, ◌≢◌, ◌↔◌, ◌+◌, ◌^◌, ◌<◌, ◌≤◌, Bool, IsTrue, None, Some};
ghost use Rattle.std.specs.List.{AllByRecursion};
ghost use Rattle.mt_base.specs.Width.{columns};
ghost use Rattle.mt_layout.specs.declared.names.RowKind.{RowKind};
ghost use Rattle.mt_layout.specs.declared.spans.Span.{Span};
ghost use Rattle.mt_layout.specs.Columns.{gap_column};
ghost use Rattle.mt_layout.specs.Rows.{row_in, named_kind};
ghost use Rattle.mt_layout.specs.Sizes.{slots_of};
ghost use Rattle.mt_layout.specs.Spans.{hole_length, longest_in};
ghost use Rattle.mt_rows.specs.Spans.{row_spans};
ghost use Rattle.mt_layout.specs.declared.names.RowKind.TheVariants.{Leaf, Gapped};
ghost use Rattle.mt_rows.specs.Sheet.{Sheet, IsPlace, MayTend, ReadsUpTo, loaded, tended};
ghost use Rattle.mt_gap.specs.Mending.{most_gap, told_by, IsWay, IsToldWay, MayTell, MayMend, MayMendGaps, IsMended};
ghost use Rattle.mt_gap.specs.Mended.{HasMendedRows, MendsPath, MendsToldWay, MendsWay};

use crate::children::{SlotAt, load_children, load_gap, load_last, load_word};
use mt_layout::{RowKind, Span, kind_of, row_of, slots};
use mt_path::{Path, PathStep};
use mt_rows::Rows;

/// The number of indexes of a leaf's hole, and 0 of an entry.
fn hole_length(span: Span) -> u64
    requires order { span.first ≤ span.last }
    requires fits { hole_length span < 2 ^ 64 }
    ensures { result ≡ hole_length span }
{
    if span.word == 0 {
        span.last - span.first + 1
    } else {
        0
    }
}

/// The longest hole in a leaf that covers the indexes from `first` to `max`.
fn longest_of<R: Rows>(rows: &mut R, row: u32, first: u64, max: u64) -> u64
    requires place { IsPlace (R.sheet rows.old).tree row 0 }
    requires fits { longest_in (row_spans (R.sheet rows.old).tree.table row Leaf first max) < 2 ^ 64 }
    requires rise { AllByRecursion (λ (x : Span). x.first ≤ x.last) (row_spans (R.sheet rows.old).tree.table row Leaf first max) }
    ensures longest { result ≡ longest_in (row_spans (R.sheet rows.old).tree.table row Leaf first max) }
    ensures reads { ReadsUpTo (columns (R.sheet rows.old).tree.table.width) (R.sheet rows.old) (R.sheet rows.new) }
{
    let width = rows.width();
    let mut longest = 0;
    let mut begin = first;
    for slot in 0..slots(width, RowKind::Leaf) {
        let at = SlotAt { width, row, slot };
        let last = load_last(rows, RowKind::Leaf, at, max);
        let word = load_word(rows, RowKind::Leaf, at);
        longest = longest.max(hole_length(Span {
            first: begin,
            last,
            word,
        }));
        if max <= last {
            return longest;
        }
        begin = last + 1;
    }
    longest
}

/// The greatest of the gap words of a node with gaps. No pivot shows how many slots it uses: the gap words of the others are 0.
fn greatest_of<R: Rows>(rows: &mut R, row: u32) -> u64
    requires place { IsPlace (R.sheet rows.old).tree row 0 }
    ensures greatest { result ≡ most_gap (R.sheet rows.old).tree.table row (slots_of (R.sheet rows.old).tree.table.width Gapped) }
    ensures reads { ReadsUpTo (columns (R.sheet rows.old).tree.table.width) (R.sheet rows.old) (R.sheet rows.new) }
{
    let width = rows.width();
    let mut greatest = 0;
    for slot in 0..slots(width, RowKind::Gapped) {
        greatest = greatest.max(load_gap(rows, SlotAt { width, row, slot }));
    }
    greatest
}

/// What a node of a path gives the node above.
#[tactic(auto, using(crate::proofs::Asking::inner_tells, crate::proofs::GapWords::gapped_tells))]
fn told_by<R: Rows>(rows: &mut R, kind: RowKind, row: PathStep) -> u64
    requires place { IsPlace (R.sheet rows.old).tree row.row 0 }
    requires tells { MayTell kind (R.sheet rows.old).tree.table row }
    ensures told { result ≡ told_by kind (R.sheet rows.old).tree.table row }
    ensures reads { ReadsUpTo (columns (R.sheet rows.old).tree.table.width) (R.sheet rows.old) (R.sheet rows.new) }
{
    match kind {
        RowKind::Leaf => longest_of(rows, row.row, row.min, row.max),
        RowKind::Inner => 0,
        RowKind::Gapped => greatest_of(rows, row.row),
    }
}

/// Tends the gap word of the slot of a step in a node.
fn tend_gap<R: Rows>(rows: &mut R, above: PathStep, gap: u64)
    requires slot { above.slot < slots_of (R.sheet rows.old).tree.table.width Gapped }
    requires tend { MayTend (R.sheet rows.old) above.row (gap_column (slots_of (R.sheet rows.old).tree.table.width Gapped) above.slot) gap }
    ensures { R.sheet rows.new ≡ tended (R.sheet rows.old) above.row (gap_column (slots_of (R.sheet rows.old).tree.table.width Gapped) above.slot) gap }
{
    let column = 2 * slots(rows.width(), RowKind::Gapped) + above.slot;
    rows.tend(above.row, column, gap);
}

/// Tends the gap word of the slot that a path takes in a node, by what the node below gives.
#[tactic(auto, using(crate::proofs::Tells::may_tend, crate::proofs::Tells::is_mended))]
fn mend_slot<R: Rows>(rows: &mut R, kind: RowKind, above: PathStep, below: PathStep)
    requires { MayMend (R.sheet rows.old) kind above below }
    ensures { IsMended (R.sheet rows.old) (R.sheet rows.new) kind above below }
{
    let gap = told_by(rows, kind, below);
    tend_gap(rows, above, gap);
}

/// Whether the root is a node with gaps.
fn has_gaps<R: Rows>(rows: &mut R) -> bool
    ensures gapped { IsTrue result ↔ (named_kind (R.sheet rows.old).tree.root ≡ Some RowKind.Gapped) }
    ensures rest { R.sheet rows.new ≡ loaded (R.sheet rows.old) }
{
    kind_of(rows.root()) == Some(RowKind::Gapped)
}

/// Mends the gap words on the way to an index, if all others are right. From the leaf's parent up to the root, each is tended
/// by what the node below gives. In a tree without gaps no node is loaded. The way ends in this leaf; the leaf of the path may
/// be the one that it has replaced.
pub fn mend_way<R: Rows>(rows: &mut R, path: &Path, leaf: u32)
    requires way { (gapped : Bool) × IsWay gapped (R.sheet rows.old) path.now.items leaf }
    ensures { MendsWay leaf (R.sheet rows.old) (R.sheet rows.new) path.now.items }
{
    if !has_gaps(rows) {
        return;
    }
    let mut level = path.len();
    let mut kind = RowKind::Leaf;
    let last = path[level - 1];
    let mut below = PathStep { row: leaf, ..last };
    while 2 <= level {
        level -= 1;
        let above = path[level - 1];
        mend_slot(rows, kind, above, below);
        kind = RowKind::Gapped;
        below = above;
    }
}

/// Mends the gap words along a path whose leaf is replaced by one whose longest hole is `gap`. No word of that leaf is loaded.
pub fn mend_along<R: Rows>(rows: &mut R, path: &Path, gap: u64)
    requires way { (gapped : Bool) × IsToldWay gapped (R.sheet rows.old) path.now.items gap }
    ensures { MendsToldWay gap (R.sheet rows.old) (R.sheet rows.new) path.now.items }
{
    if !has_gaps(rows) {
        return;
    }
    let mut level = path.len() - 1;
    tend_gap(rows, path[level - 1], gap);
    while 2 <= level {
        level -= 1;
        mend_slot(rows, RowKind::Gapped, path[level - 1], path[level]);
    }
}

/// The step into the node that a child names.
fn step_into(child: Span) -> PathStep
    requires named { named_kind child.word ≢ None }
    ensures { result ≡ record { row = row_in child.word; slot = 0; min = child.first; max = child.last } }
{
    match row_of(child.word) {
        Some(row) => PathStep {
            row,
            slot: 0,
            min: child.first,
            max: child.last,
        },
        None => unreachable!(),
    }
}

/// Tends the gap words of all slots of a node of a path, each by what the node there gives.
fn mend_row<R: Rows>(rows: &mut R, kind: RowKind, path: &Path, level: usize)
    requires mends { (before : Sheet) × HasMendedRows before (R.sheet rows.old) path.now.items kind (level + 2) 0 }
    ensures mends { (before : Sheet) → HasMendedRows before (R.sheet rows.old) path.now.items kind (level + 2) 0
        → HasMendedRows before (R.sheet rows.new) path.now.items RowKind.Gapped (level + 1) 0 }
{
    let above = path[level];
    let children = load_children(rows, above.row, above.min, above.max);
    for slot in 0..children.len() {
        let at = PathStep {
            slot: slot as u32,
            ..above
        };
        mend_slot(rows, kind, at, step_into(children[slot].span));
    }
}

/// Mends all gap words of the nodes of a path, if those of all other nodes are right. From the leaf's parent up to the root,
/// the gap word of each slot is tended by what the node there gives. In a tree without gaps no node is loaded.
pub fn mend_gaps<R: Rows>(rows: &mut R, path: &Path)
    requires may { (gapped : Bool) × MayMendGaps gapped (R.sheet rows.old) path.now.items }
    ensures { MendsPath (R.sheet rows.old) (R.sheet rows.new) path.now.items }
{
    if !has_gaps(rows) {
        return;
    }
    let mut kind = RowKind::Leaf;
    let mut level = path.len();
    while 2 <= level {
        level -= 1;
        mend_row(rows, kind, path, level - 1);
        kind = RowKind::Gapped;
    }
}
