//! Steps of a walk from range to range, which go on within a leaf, and to the next by the way that is kept.

ghost use Rattle.std.specs.Prelude.{◌≡◌, ◌≢◌, ℕ, ◌<◌, ◌≤◌, ◌+◌, Some, IfSome};
ghost use Rattle.mt_base.specs.declared.kinds.Kind.{Kind};
ghost use Rattle.mt_base.specs.Width.{greatest};
ghost use Rattle.mt_rows.specs.Publish.{IsTreeOf, map_by};
ghost use Rattle.mt_rows.specs.Sheet.{OnlyReads, ReadsUpTo};
ghost use Rattle.mt_path.specs.Handles.{handle_in, IsHandleOf};
ghost use Rattle.mt_engine.specs.Nearest.{nearest_from};
ghost use Rattle.mt_engine.specs.RangeWalks.{found_from, index_behind, range_at, IsWayOrNone};

use crate::queries::top_of;
use mt_path::{Handle, Path, leaf_behind, next_in_leaf, walk_to};
use mt_rows::Rows;

/// The slot of the first range that ends at an index of a slot or above, where it is in the same leaf: the slot itself, or the
/// one after the hole there. A hole that ends its leaf ends at the greatest index, so there is no range after it.
#[inline(always)]
fn range_here<R: Rows>(rows: &mut R, here: Handle) -> Option<Handle>
    requires tree { (kind : Kind) × IsTreeOf (R.sheet rows.old).tree kind }
    requires here { IsHandleOf (R.sheet rows.old).tree here }
    ensures handle { IfSome result (IsHandleOf (R.sheet rows.old).tree) }
    ensures leaf { IfSome result (λ h. h.leaf.max ≡ here.leaf.max) }
    ensures range { (index : ℕ) → index ≤ greatest (R.sheet rows.old).tree.table.width
        → here ≡ handle_in (R.sheet rows.old).tree index → range_at result ≡ nearest_from (map_by (R.sheet rows.old).tree) index }
    ensures reads { ReadsUpTo 2 (R.sheet rows.old) (R.sheet rows.new) }
{
    if here.span.word != 0 {
        return Some(here);
    }
    if here.span.last == here.leaf.max {
        return None;
    }
    Some(next_in_leaf(rows, &here))
}

/// The first slot of the leaf after a slot's. The way goes on there, or begins at the root if none is kept yet.
fn first_of_next<R: Rows>(rows: &mut R, way: &mut Path, here: &Handle) -> Handle
    requires tree { (kind : Kind) × IsTreeOf (R.sheet rows.old).tree kind }
    requires here { IsHandleOf (R.sheet rows.old).tree here.now }
    requires more { here.now.leaf.max < greatest (R.sheet rows.old).tree.table.width }
    requires way { IsWayOrNone (R.sheet rows.old).tree way.old.items here.now.leaf }
    ensures handle { result ≡ handle_in (R.sheet rows.old).tree (here.now.leaf.max + 1) }
    ensures way { IsWayOrNone (R.sheet rows.old).tree way.new.items result.leaf }
    ensures rest { OnlyReads (R.sheet rows.old) (R.sheet rows.new) }
{
    if way.is_empty() {
        let index = here.leaf.max + 1;
        let Some(first) = walk_to(rows, index, way) else {
            unreachable!();
        };
        return first;
    }
    leaf_behind(rows, way)
}

/// The slot of the range after a slot that ends its leaf: it is in the next leaf. It is not inlined: most steps stay in a leaf.
#[inline(never)]
fn range_in_next<R: Rows>(rows: &mut R, way: &mut Path, here: &Handle) -> Option<Handle>
    requires tree { (kind : Kind) × IsTreeOf (R.sheet rows.old).tree kind }
    requires here { IsHandleOf (R.sheet rows.old).tree here.now }
    requires ends { here.now.span.last ≡ here.now.leaf.max }
    requires way { IsWayOrNone (R.sheet rows.old).tree way.old.items here.now.leaf }
    ensures handle { IfSome result (IsHandleOf (R.sheet rows.old).tree) }
    ensures way { IfSome result (λ h. IsWayOrNone (R.sheet rows.old).tree way.new.items h.leaf) }
    ensures range { range_at result ≡ found_from (map_by (R.sheet rows.old).tree) (greatest (R.sheet rows.old).tree.table.width)
        (index_behind (greatest (R.sheet rows.old).tree.table.width) (range_at (Some here.now))) }
    ensures rest { OnlyReads (R.sheet rows.old) (R.sheet rows.new) }
{
    if here.leaf.max == top_of(rows) {
        return None;
    }
    let first = first_of_next(rows, way, here);
    range_here(rows, first)
}

/// The slot of the range after a slot. Within a leaf at most four words are loaded, and the way is not looked at.
#[inline(always)]
pub fn range_after<R: Rows>(rows: &mut R, way: &mut Path, here: &Handle) -> Option<Handle>
    requires tree { (kind : Kind) × IsTreeOf (R.sheet rows.old).tree kind }
    requires here { IsHandleOf (R.sheet rows.old).tree here.now }
    requires way { IsWayOrNone (R.sheet rows.old).tree way.old.items here.now.leaf }
    ensures handle { IfSome result (IsHandleOf (R.sheet rows.old).tree) }
    ensures way { IfSome result (λ h. IsWayOrNone (R.sheet rows.old).tree way.new.items h.leaf) }
    ensures range { range_at result ≡ found_from (map_by (R.sheet rows.old).tree) (greatest (R.sheet rows.old).tree.table.width)
        (index_behind (greatest (R.sheet rows.old).tree.table.width) (range_at (Some here.now))) }
    ensures near { here.now.span.last ≢ here.now.leaf.max → ReadsUpTo 4 (R.sheet rows.old) (R.sheet rows.new) }
    ensures rest { OnlyReads (R.sheet rows.old) (R.sheet rows.new) }
{
    if here.span.last == here.leaf.max {
        let far = range_in_next(rows, way, here)?;
        return Some(far);
    }
    let next = next_in_leaf(rows, here);
    range_here(rows, next)
}
