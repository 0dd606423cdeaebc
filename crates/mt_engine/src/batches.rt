//! Many look-ups and many steps of a walk in one call.

ghost use Rattle.std.specs.Prelude.{◌≡◌, ◌≢◌, ◌<◌, ◌≤◌, Some, All, IsTrue, length, min, take};
ghost use Rattle.mt_base.specs.declared.kinds.Kind.{Kind};
ghost use Rattle.mt_base.specs.Width.{greatest};
ghost use Rattle.mt_rows.specs.Publish.{IsTreeOf, map_by};
ghost use Rattle.mt_rows.specs.Sheet.{OnlyReads};
ghost use Rattle.mt_path.specs.Handles.{IsHandleOf};
ghost use Rattle.mt_engine.specs.Batches.{PutSteps, entries_at, put_first, steps_by};
ghost use Rattle.mt_engine.specs.RangeWalks.{found_from, range_at, WalksFrom};

use crate::leaf_steps::range_after;
use crate::places::{RangePlace, put_at};
use crate::queries::{entry_at, range_in, top_of};
use crate::range_walk::{RangeWalk, slot_found, walk_after};
use mt_path::{Handle, Path, words_at};
use mt_rows::Rows;

/// Puts the entries at these indexes, by one look-up after the other.
fn put_each<R: Rows>(rows: &mut R, indexes: &[u64], entries: &mut [u64])
    requires tree { (kind : Kind) × IsTreeOf (R.sheet rows.old).tree kind }
    requires places { length entries.old ≡ length indexes.now }
    ensures entries { entries.new ≡ entries_at (map_by (R.sheet rows.old).tree) indexes.now }
    ensures rest { OnlyReads (R.sheet rows.old) (R.sheet rows.new) }
{
    for i in 0..indexes.len() {
        entries[i] = entry_at(rows, indexes[i]).unwrap_or(0);
    }
}

/// Whether there are indexes, and the tree has all of them.
fn has_all<R: Rows>(rows: &R, indexes: &[u64]) -> bool
    ensures some { IsTrue result → 0 < length indexes.now }
    ensures within { IsTrue result → All (λ index. index ≤ greatest (R.sheet rows.now).tree.table.width) indexes.now }
{
    if indexes.is_empty() {
        return false;
    }
    let last = top_of(rows);
    indexes.iter().all(|index| *index <= last)
}

/// Whether look-ups at these indexes can go down side by side: there are indexes, the tree has all of them, and it is not empty.
fn can_go_down<R: Rows>(rows: &mut R, indexes: &[u64]) -> bool
    ensures some { IsTrue result → 0 < length indexes.now }
    ensures within { IsTrue result → All (λ index. index ≤ greatest (R.sheet rows.old).tree.table.width) indexes.now }
    ensures root { IsTrue result → (R.sheet rows.old).tree.root ≢ 0 }
    ensures rest { OnlyReads (R.sheet rows.old) (R.sheet rows.new) }
{
    if !has_all(rows, indexes) {
        return false;
    }
    rows.root() != 0
}

/// Puts the entries at these indexes: side by side where they can go down so, and else one after the other.
fn put_entries<R: Rows>(rows: &mut R, indexes: &[u64], entries: &mut [u64])
    requires tree { (kind : Kind) × IsTreeOf (R.sheet rows.old).tree kind }
    requires places { length entries.old ≡ length indexes.now }
    ensures entries { entries.new ≡ entries_at (map_by (R.sheet rows.old).tree) indexes.now }
    ensures rest { OnlyReads (R.sheet rows.old) (R.sheet rows.new) }
{
    if can_go_down(rows, indexes) {
        words_at(rows, indexes, entries);
        return;
    }
    put_each(rows, indexes, entries);
}

/// Looks up the entries at these indexes, as many as there are places for, and tells how many: 0 where an index lies in a hole.
/// They go down level by level, so that the loads of one run beside those of the others.
pub fn load_many<R: Rows>(rows: &mut R, indexes: &[u64], entries: &mut [u64]) -> usize
    requires tree { (kind : Kind) × IsTreeOf (R.sheet rows.old).tree kind }
    ensures entries { entries.new ≡ put_first (entries_at (map_by (R.sheet rows.old).tree) (take (length entries.old) indexes.now)) entries.old }
    ensures count { result ≡ min (length indexes.now) (length entries.old) }
    ensures rest { OnlyReads (R.sheet rows.old) (R.sheet rows.new) }
{
    let count = indexes.len().min(entries.len());
    put_entries(rows, &indexes[..count], &mut entries[..count]);
    count
}

/// Puts the range in this slot, which a walk finds next, and those after it into the places, as many as there are places for.
/// Returns how many. The way from leaf to leaf is kept. It is inlined into its caller, so that the slot stays in registers.
#[inline(always)]
fn put_from<R: Rows, P: RangePlace>(
    rows: &mut R,
    walk: &mut RangeWalk,
    first: Handle,
    ranges: &mut [P],
) -> usize
    requires tree { (kind : Kind) × IsTreeOf (R.sheet rows.old).tree kind }
    requires walk { WalksFrom (R.sheet rows.old).tree walk.old }
    requires first { IsHandleOf (R.sheet rows.old).tree first }
    requires found { range_at (Some first) ≡ found_from (map_by (R.sheet rows.old).tree) (greatest (R.sheet rows.old).tree.table.width) walk.old.next }
    requires some { 0 < length ranges.old }
    ensures put { PutSteps P.shows (steps_by (R.sheet rows.old).tree (length ranges.old) walk.old.next)
        ranges.old ranges.new result walk.new.next }
    ensures walk { WalksFrom (R.sheet rows.old).tree walk.new }
    ensures rest { OnlyReads (R.sheet rows.old) (R.sheet rows.new) }
{
    let mut here = first;
    let mut way = Path::new();
    put_at(ranges, 0, range_in(here.span));
    for i in 1..ranges.len() {
        let Some(next) = range_after(rows, &mut way, &here) else {
            *walk = RangeWalk {
                next: None,
                last: Some(here),
            };
            return i;
        };
        put_at(ranges, i, range_in(next.span));
        here = next;
    }
    *walk = walk_after(rows.width(), here);
    ranges.len()
}

/// Finds the ranges that come next, as many as there are places for, and returns how many: fewer than places only if the map
/// has no more. The first is found as `next_range` finds it, and the others leaf by leaf.
pub fn step_many<R: Rows, P: RangePlace>(
    rows: &mut R,
    walk: &mut RangeWalk,
    ranges: &mut [P],
) -> usize
    requires tree { (kind : Kind) × IsTreeOf (R.sheet rows.old).tree kind }
    requires walk { WalksFrom (R.sheet rows.old).tree walk.old }
    ensures put { PutSteps P.shows (steps_by (R.sheet rows.old).tree (length ranges.old) walk.old.next)
        ranges.old ranges.new result walk.new.next }
    ensures walk { WalksFrom (R.sheet rows.old).tree walk.new }
    ensures rest { OnlyReads (R.sheet rows.old) (R.sheet rows.new) }
{
    if ranges.is_empty() {
        return 0;
    }
    let Some(first) = slot_found(rows, walk) else {
        walk.next = None;
        return 0;
    };
    put_from(rows, walk, first, ranges)
}
