//! The slot of a node that holds an index, by groups of its slots and with no branch on a pivot.

ghost use Rattle.std.specs.Prelude.{◌≡◌, ◌<◌, ◌≤◌, IfSome, None};
ghost use Rattle.mt_base.specs.Width.{columns};
ghost use Rattle.mt_base.specs.declared.widths.Width.TheVariants.{Long};
ghost use Rattle.mt_layout.specs.Sizes.{slots_of};
ghost use Rattle.mt_layout.specs.declared.names.RowKind.{RowKind};
ghost use Rattle.mt_rows.specs.Sheet.{IsPlace, ReadsUpTo, loaded};
ghost use Rattle.mt_path.specs.Middles.{IsLawfulRow, IsSlotFor, MaySeek};
ghost use Rattle.mt_path.specs.Paths.{slot_for};
ghost use Rattle.mt_path.specs.Walks.{spans_of};

use crate::rows::Row;
use mt_base::Width;
use mt_layout::RowKind;
use mt_rows::Rows;

/// A word that slots hardly have.
const RARE: u64 = u64::MAX;

/// 1 where a pivot is used and below an index, and 0 elsewhere, by one comparison: an unused pivot is 0, and less one it is the
/// greatest number.
#[inline(always)]
pub fn under(pivot: u64, index: u64) -> u32
    ensures one { 0 < pivot → pivot < index → result ≡ 1 }
    ensures unused { pivot ≡ 0 → result ≡ 0 }
    ensures past { index ≤ pivot → result ≡ 0 }
    ensures few { result ≤ 1 }
{
    (pivot.wrapping_sub(1) < index.saturating_sub(1)) as u32
}

/// The slot of a node of 16 slots that holds an index, by six loads and no branch. Three pivots determine the four slots that
/// may hold it, and the three pivots between those determine which.
#[inline(always)]
fn seek_wide<R: Rows>(rows: &mut R, number: u32, index: u64) -> u32
    requires row { IsPlace (R.sheet rows.old).tree number 0 }
    ensures slot { (kind : RowKind)
        → slots_of (R.sheet rows.old).tree.table.width kind ≡ 16 → IsSlotFor (R.sheet rows.old).tree.table number kind index result }
    ensures reads { ReadsUpTo 6 (R.sheet rows.old) (R.sheet rows.new) }
{
    let fourth = rows.load(number, 4);
    let eighth = rows.load(number, 8);
    let twelfth = rows.load(number, 12);
    let group = 4 * (under(fourth, index) + under(eighth, index) + under(twelfth, index));
    let first = rows.load(number, 1 + group);
    let second = rows.load(number, 2 + group);
    let third = rows.load(number, 3 + group);
    group + (first < index) as u32 + under(second, index) + under(third, index)
}

/// The slot of a node of 10 slots that holds an index, by five loads.
#[inline(always)]
fn seek_gapped<R: Rows>(rows: &mut R, number: u32, index: u64) -> u32
    requires row { IsPlace (R.sheet rows.old).tree number 0 }
    ensures slot { (kind : RowKind)
        → slots_of (R.sheet rows.old).tree.table.width kind ≡ 10 → IsSlotFor (R.sheet rows.old).tree.table number kind index result }
    ensures reads { ReadsUpTo 5 (R.sheet rows.old) (R.sheet rows.new) }
{
    let third_on = rows.load(number, 3);
    let sixth_on = rows.load(number, 6);
    let group = 3 * (under(third_on, index) + under(sixth_on, index));
    let first = rows.load(number, 1 + group);
    let second = rows.load(number, 2 + group);
    let third = rows.load(number, 3 + group);
    group + (first < index) as u32 + under(second, index) + under(third, index)
}

/// The slot of a node of 32 slots that holds an index, by seven loads in three rounds: eight slots, four of them, and one.
#[inline(always)]
fn seek_narrow<R: Rows>(rows: &mut R, number: u32, index: u64) -> u32
    requires row { IsPlace (R.sheet rows.old).tree number 0 }
    ensures slot { (kind : RowKind)
        → slots_of (R.sheet rows.old).tree.table.width kind ≡ 32 → IsSlotFor (R.sheet rows.old).tree.table number kind index result }
    ensures reads { ReadsUpTo 7 (R.sheet rows.old) (R.sheet rows.new) }
{
    let eighth = rows.load(number, 8);
    let sixteenth = rows.load(number, 16);
    let last_eight = rows.load(number, 24);
    let eight = 8 * (under(eighth, index) + under(sixteenth, index) + under(last_eight, index));
    let middle = rows.load(number, 4 + eight);
    let group = eight + 4 * under(middle, index);
    let first = rows.load(number, 1 + group);
    let second = rows.load(number, 2 + group);
    let third = rows.load(number, 3 + group);
    group + (first < index) as u32 + under(second, index) + under(third, index)
}

/// The slot of a node of 21 slots that holds an index, by six loads in three rounds: five slots or six, three of them, and one.
#[inline(always)]
fn seek_narrow_gapped<R: Rows>(rows: &mut R, number: u32, index: u64) -> u32
    requires row { IsPlace (R.sheet rows.old).tree number 0 }
    ensures slot { (kind : RowKind)
        → slots_of (R.sheet rows.old).tree.table.width kind ≡ 21 → IsSlotFor (R.sheet rows.old).tree.table number kind index result }
    ensures reads { ReadsUpTo 6 (R.sheet rows.old) (R.sheet rows.new) }
{
    let fifth = rows.load(number, 5);
    let tenth = rows.load(number, 10);
    let fifteenth = rows.load(number, 15);
    let five = 5 * (under(fifth, index) + under(tenth, index) + under(fifteenth, index));
    let middle = rows.load(number, 3 + five);
    let group = five + 3 * under(middle, index);
    let first = rows.load(number, 1 + group);
    let second = rows.load(number, 2 + group);
    group + (first < index) as u32 + under(second, index)
}

/// Loads a word among the slots of a node before the pivots are searched, so that its cache line is fetched meanwhile. The
/// result is whether it is a word that slots hardly ever have, so that the load is not optimised away.
#[inline(always)]
fn touch<R: Rows>(rows: &mut R, row: Row, col: u32) -> bool
    requires { IsPlace (R.sheet rows.old).tree row.number col }
    ensures { R.sheet rows.new ≡ loaded (R.sheet rows.old) }
{
    rows.load(row.number, col) == RARE
}

/// The slot of a node of this number and kind that holds an index.
#[inline(always)]
pub(crate) fn seek_groups<R: Rows>(
    rows: &mut R,
    width: Width,
    kind: RowKind,
    number: u32,
    index: u64,
) -> u32
    requires width { width ≡ (R.sheet rows.old).tree.table.width }
    requires row { IsPlace (R.sheet rows.old).tree number 0 }
    ensures slot { IsSlotFor (R.sheet rows.old).tree.table number kind index result }
    ensures reads { ReadsUpTo 7 (R.sheet rows.old) (R.sheet rows.new) }
{
    match (width, kind) {
        (Width::Long, RowKind::Leaf | RowKind::Inner) => seek_wide(rows, number, index),
        (Width::Long, RowKind::Gapped) => seek_gapped(rows, number, index),
        (Width::Short, RowKind::Leaf | RowKind::Inner) => seek_narrow(rows, number, index),
        (Width::Short, RowKind::Gapped) => seek_narrow_gapped(rows, number, index),
    }
}

/// The slot of a node that holds an index, after a touched word that slots hardly ever have.
#[inline(never)]
#[cold]
fn seek_apart<R: Rows>(rows: &mut R, row: Row, index: u64) -> u32
    requires row { IsPlace (R.sheet rows.old).tree row.number 0 }
    requires lawful { IsLawfulRow (R.sheet rows.old).tree.table row }
    requires index { index ≤ row.max }
    ensures slot { result ≡ slot_for (spans_of (R.sheet rows.old).tree.table row) index }
    ensures reads { ReadsUpTo 7 (R.sheet rows.old) (R.sheet rows.new) }
{
    let width = rows.width();
    seek_groups(rows, width, row.kind, row.number, index)
}

/// The columns of two slots of a node of this width and kind, which are in different cache lines.
#[inline(always)]
pub fn slots_apart(width: Width, kind: RowKind) -> (u32, u32)
    ensures near { result.0 < columns width }
    ensures far { result.1 < columns width }
{
    match (width, kind) {
        (Width::Long, RowKind::Leaf | RowKind::Inner) => (18, 24),
        (Width::Long, RowKind::Gapped) => (14, 18),
        (Width::Short, RowKind::Leaf | RowKind::Inner) => (36, 42),
        (Width::Short, RowKind::Gapped) => (25, 33),
    }
}

/// Two more columns of a node, the first and a late one, if it has cache lines that neither those slots nor the first round of
/// a search reaches.
#[inline(always)]
pub fn ends_apart(width: Width, kind: RowKind) -> Option<(u32, u32)>
    ensures wide { width ≡ Long → result ≡ None }
    ensures within { IfSome result (λ cols. (cols.0 < columns width) × (cols.1 < columns width)) }
{
    match (width, kind) {
        (Width::Short, RowKind::Leaf | RowKind::Inner) => Some((4, 50)),
        _ => None,
    }
}

/// Touches two lines of the slots of a node.
#[inline(always)]
fn touch_slots<R: Rows>(rows: &mut R, width: Width, row: Row) -> bool
    requires width { width ≡ (R.sheet rows.old).tree.table.width }
    requires row { IsPlace (R.sheet rows.old).tree row.number 0 }
    ensures { ReadsUpTo 2 (R.sheet rows.old) (R.sheet rows.new) }
{
    let (near, far) = slots_apart(width, row.kind);
    touch(rows, row, near) || touch(rows, row, far)
}

/// Touches two more lines of a node that has many.
#[inline(always)]
fn touch_ends<R: Rows>(rows: &mut R, width: Width, row: Row) -> bool
    requires width { width ≡ (R.sheet rows.old).tree.table.width }
    requires row { IsPlace (R.sheet rows.old).tree row.number 0 }
    ensures { ReadsUpTo 2 (R.sheet rows.old) (R.sheet rows.new) }
{
    match ends_apart(width, row.kind) {
        Some((first, late)) => touch(rows, row, first) || touch(rows, row, late),
        None => false,
    }
}

/// Touches the lines of a node that its slots are sought in.
#[inline(always)]
fn touch_lines<R: Rows>(rows: &mut R, width: Width, row: Row) -> bool
    requires width { width ≡ (R.sheet rows.old).tree.table.width }
    requires row { IsPlace (R.sheet rows.old).tree row.number 0 }
    ensures { ReadsUpTo 4 (R.sheet rows.old) (R.sheet rows.new) }
{
    touch_slots(rows, width, row) || touch_ends(rows, width, row)
}

/// The slot of a node that holds an index. Its slots are touched first.
#[inline(always)]
pub(crate) fn seek<R: Rows>(rows: &mut R, width: Width, row: Row, index: u64) -> u32
    requires { MaySeek (R.sheet rows.old).tree width row index }
    ensures slot { result ≡ slot_for (spans_of (R.sheet rows.old).tree.table row) index }
    ensures reads { ReadsUpTo 11 (R.sheet rows.old) (R.sheet rows.new) }
{
    if touch_lines(rows, width, row) {
        return seek_apart(rows, row, index);
    }
    seek_groups(rows, width, row.kind, row.number, index)
}
