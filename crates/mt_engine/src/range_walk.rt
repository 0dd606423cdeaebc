//! A walk over the ranges of a tree, which steps within a leaf.

ghost use Rattle.std.specs.Prelude.{◌≡◌, ◌≢◌, ◌≤◌, Some, None, IfSome};
ghost use Rattle.mt_base.specs.declared.kinds.Kind.{Kind};
ghost use Rattle.mt_base.specs.Width.{greatest};
ghost use Rattle.mt_rows.specs.Publish.{IsTreeOf, map_by};
ghost use Rattle.mt_rows.specs.Sheet.{OnlyReads, ReadsUpTo};
ghost use Rattle.mt_path.specs.Handles.{IsHandleOf};
ghost use Rattle.mt_engine.specs.Here.{IsHereIf};
ghost use Rattle.mt_engine.specs.RangeWalks.{found_from, index_behind, index_in, range_at, StepsWithin, WalksFrom};

use crate::queries::{range_in, slot_from, top_of};
use mt_base::{Range, Width, top};
use mt_path::{Handle, behind, handle_at};
use mt_rows::Rows;

/// A place among the ranges of a tree, from which they are returned in rising order: the index to go on from, and the slot that
/// was returned last. A call that changes the tree ends the walk. Begin another one then, from the next index.
#[derive(Clone, Copy, Debug, PartialEq, Eq)]
pub struct RangeWalk {
    pub next: Option<u64>,
    pub last: Option<Handle>,
}

impl RangeWalk {
    /// A walk from an index.
    pub fn from_index(index: u64) -> Self
        ensures next { result.next ≡ Some index }
        ensures last { result.last ≡ None }
    {
        RangeWalk {
            next: Some(index),
            last: None,
        }
    }
}

/// A walk over a tree from an index, which gives no range where the index is above the greatest one.
pub fn walk_from<R: Rows>(rows: &R, index: u64) -> RangeWalk
    ensures walk { WalksFrom (R.sheet rows.now).tree result }
    ensures next { result.next ≡ index_in (greatest (R.sheet rows.now).tree.table.width) index }
{
    if index > top_of(rows) {
        return RangeWalk {
            next: None,
            last: None,
        };
    }
    RangeWalk::from_index(index)
}

/// What is at the index that a walk goes on from: in the slot after the one that it returned last, or by a path from the root.
#[inline(always)]
fn slot_next<R: Rows>(rows: &mut R, walk: &RangeWalk) -> Option<Handle>
    requires tree { (kind : Kind) × IsTreeOf (R.sheet rows.old).tree kind }
    requires walk { WalksFrom (R.sheet rows.old).tree walk.now }
    ensures here { IsHereIf (R.sheet rows.old).tree walk.now.next result }
    ensures near { IfSome walk.now.last (λ given. given.span.last ≢ given.leaf.max → ReadsUpTo 2 (R.sheet rows.old) (R.sheet rows.new)) }
    ensures rest { OnlyReads (R.sheet rows.old) (R.sheet rows.new) }
{
    let index = walk.next?;
    match walk.last {
        Some(last) => behind(rows, &last),
        None => handle_at(rows, index),
    }
}

/// The slot of the range that comes next.
#[inline(always)]
pub(crate) fn slot_found<R: Rows>(rows: &mut R, walk: &RangeWalk) -> Option<Handle>
    requires tree { (kind : Kind) × IsTreeOf (R.sheet rows.old).tree kind }
    requires walk { WalksFrom (R.sheet rows.old).tree walk.now }
    ensures handle { IfSome result (IsHandleOf (R.sheet rows.old).tree) }
    ensures range { range_at result ≡ found_from (map_by (R.sheet rows.old).tree) (greatest (R.sheet rows.old).tree.table.width) walk.now.next }
    ensures near { IfSome result (λ _. StepsWithin walk.now (R.sheet rows.old) (R.sheet rows.new)) }
    ensures rest { OnlyReads (R.sheet rows.old) (R.sheet rows.new) }
{
    let here = slot_next(rows, walk)?;
    slot_from(rows, &here)
}

/// The index after a slot, or none at the end.
#[inline(always)]
fn index_behind(width: Width, given: &Handle) -> Option<u64>
    requires { given.now.span.last ≤ greatest width }
    ensures { result ≡ index_behind (greatest width) (range_at (Some given.now)) }
{
    let last = given.span.last;
    if last == top(width) {
        return None;
    }
    Some(last + 1)
}

/// A walk that returned this slot last.
pub(crate) fn walk_after(width: Width, given: Handle) -> RangeWalk
    requires { given.span.last ≤ greatest width }
    ensures { result ≡ record { next = index_behind (greatest width) (range_at (Some given)); last = Some given } }
{
    RangeWalk {
        next: index_behind(width, &given),
        last: Some(given),
    }
}

/// The first range at the walk's index or above; the walk then goes on after it. A slot of a leaf is loaded once, and a leaf is
/// walked to once. A range in the leaf of the walk is found by the loads of two slots. It is inlined into its callers, so that
/// a walk stays in registers.
#[inline(always)]
pub fn next_range<R: Rows>(rows: &mut R, walk: &mut RangeWalk) -> Option<Range>
    requires tree { (kind : Kind) × IsTreeOf (R.sheet rows.old).tree kind }
    requires walk { WalksFrom (R.sheet rows.old).tree walk.old }
    ensures range { result ≡ found_from (map_by (R.sheet rows.old).tree) (greatest (R.sheet rows.old).tree.table.width) walk.old.next }
    ensures next { walk.new.next ≡ index_behind (greatest (R.sheet rows.old).tree.table.width) result }
    ensures walk { WalksFrom (R.sheet rows.old).tree walk.new }
    ensures near { IfSome result (λ _. StepsWithin walk.old (R.sheet rows.old) (R.sheet rows.new)) }
    ensures rest { OnlyReads (R.sheet rows.old) (R.sheet rows.new) }
{
    let Some(given) = slot_found(rows, walk) else {
        walk.next = None;
        return None;
    };
    walk.next = index_behind(rows.width(), &given);
    walk.last = Some(given);
    Some(range_in(given.span))
}
