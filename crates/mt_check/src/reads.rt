//! What the walk reads of one node.

ghost use Rattle.std.specs.Prelude.{◌≡◌, ◌+◌, ◌-◌, ◌<◌, ◌≤◌, Some, length, slice_get};
ghost use Rattle.mt_base.specs.Width.{columns, first_row};
ghost use Rattle.mt_layout.specs.Columns.{RiseFrom};
ghost use Rattle.mt_layout.specs.Sizes.{slots_of};
ghost use Rattle.mt_layout.specs.Spans.{spans_from};
ghost use Rattle.mt_rows.specs.Sheet.{OnlyReads};
ghost use Rattle.mt_check.specs.RowTests as tests;
ghost use Rattle.mt_check.specs.Reads as reads;

use arrayvec::ArrayVec;
use mt_base::cols;
use mt_layout::{Item, MOST_SLOTS, RowKind, Span, gaps, slots};
use mt_rows::{Rows, load_item_of};

pub(crate) type Items = ArrayVec<Item, MOST_SLOTS>;

/// Reads the items of a node of this kind that ends at `last`. Whether they rise from one index to that.
#[tactic(auto, using(crate::proofs::Loaded::all_read))]
fn read_items<R: Rows>(
    rows: &mut R,
    kind: RowKind,
    row: u32,
    first: u64,
    last: u64,
    items: &mut Items,
) -> bool
    requires first { first_row ≤ row }
    requires last { row < first_row + (R.sheet rows.old).tree.rows }
    ensures items { items.new.items ≡ reads.row_items (R.sheet rows.old).tree.table kind row last }
    ensures rise { result ≡ tests.rise_to first last (reads.row_items (R.sheet rows.old).tree.table kind row last) }
    ensures rest { OnlyReads (R.sheet rows.old) (R.sheet rows.new) }
{
    items.clear();
    let width = rows.width();
    let mut begin = first;
    let mut rise = true;
    for slot in 0..slots(width, kind) {
        let item = load_item_of(rows, width, kind, row, last, slot);
        items.push(item);
        rise &= begin <= item.last;
        if last <= item.last {
            return rise & (item.last == last);
        }
        begin = item.last + 1;
    }
    false
}

/// Whether the columns of a node from `from` up to, but without, `end` are 0.
#[tactic(auto, using(crate::proofs::Unused::one_more_zero, crate::proofs::Unused::one_not_zero, crate::proofs::Unused::all_zero))]
fn are_zero<R: Rows>(rows: &mut R, row: u32, from: u32, end: u32) -> bool
    requires first { first_row ≤ row }
    requires last { row < first_row + (R.sheet rows.old).tree.rows }
    requires end { end ≤ columns (R.sheet rows.old).tree.table.width }
    ensures is { result ≡ reads.are_zero (R.sheet rows.old).tree.table row from (end - from) }
    ensures rest { OnlyReads (R.sheet rows.old) (R.sheet rows.new) }
{
    for col in from..end {
        if rows.load(row, col) != 0 {
            return false;
        }
    }
    true
}

/// Whether a node of this kind with this many items has 0 in all columns except those of its parent word and of these items.
fn holds_no_more<R: Rows>(rows: &mut R, kind: RowKind, row: u32, count: u32) -> bool
    requires first { first_row ≤ row }
    requires last { row < first_row + (R.sheet rows.old).tree.rows }
    requires count { count ≤ slots_of (R.sheet rows.old).tree.table.width kind }
    ensures is { result ≡ reads.holds_no_more (R.sheet rows.old).tree.table kind row count }
    ensures rest { OnlyReads (R.sheet rows.old) (R.sheet rows.new) }
{
    let width = rows.width();
    let slots = slots(width, kind);
    let gaps = gaps(width, kind);
    are_zero(rows, row, 1 + count, slots)
        && are_zero(rows, row, slots + count, 2 * slots)
        && are_zero(rows, row, 2 * slots + count.min(gaps), cols(width))
}

/// Reads the items of a node of this kind. Whether they rise from one index to another, and no other column holds anything.
pub(crate) fn items_in<R: Rows>(
    rows: &mut R,
    kind: RowKind,
    row: u32,
    first: u64,
    last: u64,
    items: &mut Items,
) -> bool
    requires first { first_row ≤ row }
    requires last { row < first_row + (R.sheet rows.old).tree.rows }
    ensures is { result ≡ reads.holds_items (R.sheet rows.old).tree.table kind row first last }
    ensures items { items.new.items ≡ reads.row_items (R.sheet rows.old).tree.table kind row last }
    ensures rest { OnlyReads (R.sheet rows.old) (R.sheet rows.new) }
{
    if !read_items(rows, kind, row, first, last, items) {
        return false;
    }
    holds_no_more(rows, kind, row, items.len() as u32)
}

/// The index after an item that has another item after it.
fn behind(before: Item, item: Item) -> u64
    requires { before.last < item.last }
    ensures { result ≡ before.last + 1 }
{
    before.last + 1
}

/// What a node with these items, the first of which begins at `first`, has in a slot.
pub(crate) fn span_at(items: &[Item], first: u64, slot: usize) -> Span
    requires slot { slot < length items.now }
    requires rise { RiseFrom first items.now }
    ensures { Some result ≡ slice_get (spans_from first items.now) slot }
{
    let item = items[slot];
    if slot == 0 {
        return Span {
            first,
            last: item.last,
            word: item.word,
        };
    }
    Span {
        first: behind(items[slot - 1], item),
        last: item.last,
        word: item.word,
    }
}
