//! The nodes on the way to an index: what names them, and where in a node the index is.

ghost use Rattle.std.specs.Prelude.{◌≡◌, ◌+◌, ◌<◌, ◌≤◌, ◌↔◌, ℕ, length, Some, IsNone, IsSome, IfSome};
ghost use Rattle.mt_base.specs.declared.kinds.Kind.{Kind};
ghost use Rattle.mt_base.specs.Width.{greatest};
ghost use Rattle.mt_layout.specs.Rows.{named_kind};
ghost use Rattle.mt_layout.specs.Sizes.{slots_of};
ghost use Rattle.mt_rows.specs.Publish.{IsTreeOf};
ghost use Rattle.mt_rows.specs.Sheet.{IsPlace, ReadsUpTo, loaded};
ghost use Rattle.mt_path.specs.Middles.{IsLawfulRow, MaySeek};
ghost use Rattle.mt_path.specs.Paths.{loads_at, span_at};
ghost use Rattle.mt_path.specs.Walks.{row_for, spans_of, found_span, IsFoundSlot, IsOnWay};

use crate::paths::PathStep;
use crate::seeks::seek;
use mt_base::{Width, top};
use mt_layout::{RowKind, Span, kind_of, row_of, slots};
use mt_rows::Rows;

/// A node that a walk enters: its number and its kind, and the first and the last index that it covers.
#[derive(Clone, Copy)]
pub(crate) struct Row {
    pub(crate) number: u32,
    pub(crate) kind: RowKind,
    pub(crate) min: u64,
    pub(crate) max: u64,
}

/// Where an index is in a node: the step there, and the first and the last index of what its slot holds.
#[derive(Clone, Copy)]
pub(crate) struct Found {
    pub(crate) step: PathStep,
    pub(crate) first: u64,
    pub(crate) last: u64,
}

/// The node that a span names, or none where its word is no name.
#[inline(always)]
fn row_for(span: Span) -> Option<Row>
    ensures { result ≡ row_for span }
{
    let number = row_of(span.word)?;
    let kind = kind_of(span.word)?;
    Some(Row {
        number,
        kind,
        min: span.first,
        max: span.last,
    })
}

/// The node that a span names, which is below another.
#[inline(always)]
pub(crate) fn child_for(span: Span) -> Row
    requires { IsSome (named_kind span.word) }
    ensures { Some result ≡ row_for span }
{
    match row_for(span) {
        Some(row) => row,
        None => unreachable!(),
    }
}

/// The root, or none where the tree is empty.
#[inline(always)]
pub(crate) fn root_row<R: Rows>(rows: &mut R) -> Option<Row>
    requires tree { (kind : Kind) × IsTreeOf (R.sheet rows.old).tree kind }
    ensures none { IsNone result ↔ ((R.sheet rows.old).tree.root ≡ 0) }
    ensures some { IfSome result (λ row. (index : ℕ) → index ≤ greatest (R.sheet rows.old).tree.table.width → IsOnWay (R.sheet rows.old).tree index 0 row) }
    ensures rest { R.sheet rows.new ≡ loaded (R.sheet rows.old) }
{
    let last = top(rows.width());
    row_for(Span {
        first: 0,
        last,
        word: rows.root(),
    })
}

/// The step in this slot of a node, and the first and the last index of what is there.
#[inline(always)]
pub(crate) fn found_in(row: Row, slot: u32, first: u64, last: u64) -> Found
    ensures { result ≡ record { step = record { row = row.number; slot = slot; min = row.min; max = row.max }; first = first; last = last } }
{
    Found {
        step: PathStep {
            row: row.number,
            slot,
            min: row.min,
            max: row.max,
        },
        first,
        last,
    }
}

/// The first index of what a slot of a node holds.
#[inline(always)]
fn first_in<R: Rows>(rows: &mut R, row: Row, slot: u32) -> u64
    requires row { IsPlace (R.sheet rows.old).tree row.number 0 }
    requires lawful { IsLawfulRow (R.sheet rows.old).tree.table row }
    requires slot { slot < length (spans_of (R.sheet rows.old).tree.table row) }
    ensures first { result ≡ (span_at (spans_of (R.sheet rows.old).tree.table row) slot).first }
    ensures reads { ReadsUpTo 1 (R.sheet rows.old) (R.sheet rows.new) }
{
    let before = rows.load(row.number, slot);
    if slot == 0 { row.min } else { before + 1 }
}

/// The last index of what a slot of a node holds.
#[inline(always)]
pub(crate) fn last_in<R: Rows>(rows: &mut R, width: Width, row: Row, slot: u32) -> u64
    requires width { width ≡ (R.sheet rows.old).tree.table.width }
    requires row { IsPlace (R.sheet rows.old).tree row.number 0 }
    requires lawful { IsLawfulRow (R.sheet rows.old).tree.table row }
    requires slot { slot < length (spans_of (R.sheet rows.old).tree.table row) }
    ensures last { result ≡ (span_at (spans_of (R.sheet rows.old).tree.table row) slot).last }
    ensures reads { ReadsUpTo 1 (R.sheet rows.old) (R.sheet rows.new) }
{
    let pivot = rows.load(row.number, 1 + slot);
    if slot + 1 < slots(width, row.kind) {
        pivot
    } else {
        row.max
    }
}

/// The slot of a node that holds an index: the first whose pivot is not below it. No later pivot is loaded. The branches are
/// predicted well if a walk has come to the slot before, or to the next.
fn find_along<R: Rows>(rows: &mut R, row: Row, index: u64) -> Found
    requires row { IsPlace (R.sheet rows.old).tree row.number 0 }
    requires index { index ≤ row.max }
    ensures found { IsFoundSlot (R.sheet rows.old).tree.table row index result }
    ensures reads { ReadsUpTo (result.step.slot + 1) (R.sheet rows.old) (R.sheet rows.new) }
{
    let last_slot = slots(rows.width(), row.kind) - 1;
    let mut first = row.min;
    for slot in 0..last_slot {
        let pivot = rows.load(row.number, 1 + slot);
        if index <= pivot {
            return found_in(row, slot, first, pivot);
        }
        first = pivot + 1;
    }
    found_in(row, last_slot, first, row.max)
}

/// The slot of a node that holds an index: the first whose pivot is not below it. It is found by groups of slots, with no
/// branch on a pivot, and by no more loads than thirteen.
#[inline(always)]
pub(crate) fn find_slot<R: Rows>(rows: &mut R, width: Width, row: Row, index: u64) -> Found
    requires { MaySeek (R.sheet rows.old).tree width row index }
    ensures found { IsFoundSlot (R.sheet rows.old).tree.table row index result }
    ensures reads { ReadsUpTo (loads_at result.step) (R.sheet rows.old) (R.sheet rows.new) }
{
    let slot = seek(rows, width, row, index);
    let first = first_in(rows, row, slot);
    let last = last_in(rows, width, row, slot);
    found_in(row, slot, first, last)
}

/// How the nodes of a way are searched: by groups of slots, or pivot by pivot.
#[derive(Clone, Copy)]
pub(crate) enum SlotSearch {
    Groups,
    Along,
}

/// The slot of a node that holds an index, searched so. The way to search is the same in each node of a walk, and is not looked
/// at when the program runs.
#[inline(always)]
pub(crate) fn find_by<R: Rows>(
    rows: &mut R,
    width: Width,
    how: SlotSearch,
    row: Row,
    index: u64,
) -> Found
    requires { MaySeek (R.sheet rows.old).tree width row index }
    ensures found { IsFoundSlot (R.sheet rows.old).tree.table row index result }
    ensures reads { ReadsUpTo (loads_at result.step) (R.sheet rows.old) (R.sheet rows.new) }
{
    match how {
        SlotSearch::Groups => find_slot(rows, width, row, index),
        SlotSearch::Along => find_along(rows, row, index),
    }
}

/// What the slot at an index holds.
#[inline(always)]
pub(crate) fn load_found<R: Rows>(rows: &mut R, width: Width, kind: RowKind, found: Found) -> Span
    requires width { width ≡ (R.sheet rows.old).tree.table.width }
    requires row { IsPlace (R.sheet rows.old).tree found.step.row 0 }
    requires slot { found.step.slot < slots_of (R.sheet rows.old).tree.table.width kind }
    ensures span { result ≡ found_span (R.sheet rows.old).tree.table kind found }
    ensures rest { R.sheet rows.new ≡ loaded (R.sheet rows.old) }
{
    let column = slots(width, kind) + found.step.slot;
    Span {
        first: found.first,
        last: found.last,
        word: rows.load(found.step.row, column),
    }
}
