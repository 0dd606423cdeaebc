//! From leaf to leaf: a path goes on to the leaf after its own by the next slot of the node above. Nothing is searched.

ghost use Rattle.std.specs.Prelude.{◌≡◌, ◌≢◌, ◌+◌, ◌-◌, ◌*◌, ◌<◌, ◌≤◌, ℕ, length};
ghost use Rattle.mt_base.specs.declared.kinds.Kind.{Kind};
ghost use Rattle.mt_base.specs.Width.{greatest};
ghost use Rattle.mt_rows.specs.Publish.{IsTreeOf};
ghost use Rattle.mt_rows.specs.Sheet.{IsPlace, ReadsUpTo};
ghost use Rattle.mt_path.specs.Handles.{handle_in, last_step};
ghost use Rattle.mt_path.specs.Middles.{IsLawfulRow};
ghost use Rattle.mt_path.specs.Paths.{path_in};
ghost use Rattle.mt_path.specs.Walks.{BeginsAt, IsAtEnd, IsFoundSlot, WalksTo};

use crate::handles::{Handle, end_of};
use crate::paths::{Path, pop_to};
use crate::rows::{Found, Row, child_for, found_in, last_in, load_found};
use crate::walks::row_of_step;
use mt_base::{DEEPEST, Width};
use mt_layout::RowKind;
use mt_rows::Rows;

/// The slot of a node that begins at an index, with the last index of what is there.
#[inline(always)]
fn found_beginning<R: Rows>(rows: &mut R, width: Width, row: Row, slot: u32, index: u64) -> Found
    requires width { width ≡ (R.sheet rows.old).tree.table.width }
    requires row { IsPlace (R.sheet rows.old).tree row.number 0 }
    requires lawful { IsLawfulRow (R.sheet rows.old).tree.table row }
    requires begins { BeginsAt (R.sheet rows.old).tree.table row slot index }
    ensures found { IsFoundSlot (R.sheet rows.old).tree.table row index result }
    ensures first { result.first ≡ index }
    ensures reads { ReadsUpTo 1 (R.sheet rows.old) (R.sheet rows.new) }
{
    let last = last_in(rows, width, row, slot);
    found_in(row, slot, index, last)
}

/// Walks down from a slot that begins at an index, by the first slot of each node below, and appends the steps. It loads two
/// words of each node, and of the leaf one.
fn descend_first<R: Rows>(
    rows: &mut R,
    width: Width,
    row: Row,
    slot: u32,
    index: u64,
    path: &mut Path,
) -> Found
    requires width { width ≡ (R.sheet rows.old).tree.table.width }
    requires tree { (kind : Kind) × IsTreeOf (R.sheet rows.old).tree kind }
    requires way { WalksTo (R.sheet rows.old).tree index path.old.items row }
    requires begins { BeginsAt (R.sheet rows.old).tree.table row slot index }
    ensures path { path.new.items ≡ path_in (R.sheet rows.old).tree.table (R.sheet rows.old).tree.root index }
    ensures end { IsAtEnd (R.sheet rows.old).tree index result }
    ensures reads { ReadsUpTo (2 * (length path.new.items - length path.old.items) - 1) (R.sheet rows.old) (R.sheet rows.new) }
{
    let mut row = row;
    let mut slot = slot;
    for _ in 0..DEEPEST {
        let found = found_beginning(rows, width, row, slot, index);
        path.push(found.step);
        if row.kind == RowKind::Leaf {
            return found;
        }
        row = child_for(load_found(rows, width, row.kind, found));
        slot = 0;
    }
    unreachable!()
}

/// A path goes on, in place, to the first slot of the leaf after its own, and returns what is there. It takes the next slot of
/// the deepest of its nodes that has one, and the first slot of each node below.
pub fn leaf_behind<R: Rows>(rows: &mut R, path: &mut Path) -> Handle
    requires tree { (kind : Kind) × IsTreeOf (R.sheet rows.old).tree kind }
    requires path { (i : ℕ) × (i ≤ greatest (R.sheet rows.old).tree.table.width)
        × (path.old.items ≡ path_in (R.sheet rows.old).tree.table (R.sheet rows.old).tree.root i) }
    requires some { 0 < length path.old.items }
    requires more { (last_step path.old.items).max ≢ greatest (R.sheet rows.old).tree.table.width }
    ensures path { path.new.items ≡ path_in (R.sheet rows.old).tree.table (R.sheet rows.old).tree.root ((last_step path.old.items).max + 1) }
    ensures handle { result ≡ handle_in (R.sheet rows.old).tree ((last_step path.old.items).max + 1) }
    ensures reads { ReadsUpTo (2 * length path.new.items + 1) (R.sheet rows.old) (R.sheet rows.new) }
{
    let leaf = end_of(path);
    let index = leaf.max + 1;
    let levels = path.len();
    let Some(step) = pop_to(path, index) else {
        unreachable!();
    };
    let row = row_of_step(rows, step, path.len() + 1 == levels);
    let slot = step.slot + 1;
    let width = rows.width();
    let found = descend_first(rows, width, row, slot, index, path);
    Handle {
        leaf: found.step,
        span: load_found(rows, width, RowKind::Leaf, found),
    }
}
