//! An item of a node, read off its words.

ghost use Rattle.std.specs.Prelude.{◌≡◌, ◌<◌, ◌≤◌, ◌+◌, nat_lt, if◌then◌else◌};
ghost use Rattle.mt_base.specs.Width.{first_row};
ghost use Rattle.mt_layout.specs.Columns.{item_at, pivot_column};
ghost use Rattle.mt_layout.specs.Sizes.{slots_of, gaps_of};
ghost use Rattle.mt_rows.specs.Sheet.{OnlyReads};
ghost use Rattle.mt_rows.specs.Spans.{base_of, column};

use crate::rows::Rows;
use mt_base::Width;
use mt_layout::{Item, RowKind, gaps, slots};

/// The item in a slot of a node of this width, which covers the indexes up to `max`. A caller that reads many slots computes
/// once how many there are.
pub fn load_item_of<R: Rows>(
    rows: &mut R,
    width: Width,
    kind: RowKind,
    row: u32,
    max: u64,
    slot: u32,
) -> Item
    requires width { width ≡ (R.sheet rows.old).tree.table.width }
    requires first { first_row ≤ row }
    requires last { row < first_row + (R.sheet rows.old).tree.rows }
    requires slot { slot < slots_of (R.sheet rows.old).tree.table.width kind }
    ensures item { let t = (R.sheet rows.old).tree.table in
        result ≡ item_at (slots_of t.width kind) (gaps_of t.width kind) t.words (base_of t row) slot result.last }
    ensures last { let t = (R.sheet rows.old).tree.table in
        result.last ≡ (if nat_lt (slot + 1) (slots_of t.width kind) then column t row (pivot_column slot) else max) }
    ensures rest { OnlyReads (R.sheet rows.old) (R.sheet rows.new) }
{
    let slots = slots(width, kind);
    let last = if slot + 1 < slots {
        rows.load(row, 1 + slot)
    } else {
        max
    };
    let word = rows.load(row, slots + slot);
    let gap = if gaps(width, kind) == 0 {
        0
    } else {
        rows.load(row, 2 * slots + slot)
    };
    Item { last, word, gap }
}

/// The item in a slot of a node that covers the indexes up to `max`.
pub fn load_item<R: Rows>(rows: &mut R, kind: RowKind, row: u32, max: u64, slot: u32) -> Item
    requires first { first_row ≤ row }
    requires last { row < first_row + (R.sheet rows.old).tree.rows }
    requires slot { slot < slots_of (R.sheet rows.old).tree.table.width kind }
    ensures item { let t = (R.sheet rows.old).tree.table in
        result ≡ item_at (slots_of t.width kind) (gaps_of t.width kind) t.words (base_of t row) slot result.last }
    ensures last { let t = (R.sheet rows.old).tree.table in
        result.last ≡ (if nat_lt (slot + 1) (slots_of t.width kind) then column t row (pivot_column slot) else max) }
    ensures rest { OnlyReads (R.sheet rows.old) (R.sheet rows.new) }
{
    let width = rows.width();
    load_item_of(rows, width, kind, row, max, slot)
}
