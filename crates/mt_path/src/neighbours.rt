//! The nodes beside a node of a path.

ghost use Rattle.std.specs.Prelude.{◌≡◌, ◌≤◌, ◌<◌, ◌+◌, ◌-◌, ◌↔◌, ℕ, true, false, IsNone, IfNone, IfSome, length};
ghost use Rattle.std.specs.Bool.{OnTrue, OnFalse};
ghost use Rattle.mt_base.specs.declared.kinds.Kind.{Kind};
ghost use Rattle.mt_base.specs.Width.{greatest};
ghost use Rattle.mt_rows.specs.Sheet.{OnlyReads, ReadsUpTo};
ghost use Rattle.mt_rows.specs.Publish.{IsTreeOf};
ghost use Rattle.mt_path.specs.Paths.{path_in, step_at, loads_on, ReadsBelow};

use crate::paths::{Path, copy_of};
use crate::walks::walk_on;
use mt_base::top;
use mt_rows::Rows;

/// A path goes, in place, to the node right of its own at this level, and from there to the first leaf. If its node is the last
/// of the level there is none, and the path stays.
pub fn step_right<R: Rows>(rows: &mut R, path: &mut Path, level: u32) -> bool
    requires tree { (kind : Kind) × IsTreeOf (R.sheet rows.old).tree kind }
    requires path { (index : ℕ) × (index ≤ greatest (R.sheet rows.old).tree.table.width)
        × (path.old.items ≡ path_in (R.sheet rows.old).tree.table (R.sheet rows.old).tree.root index) }
    requires level { level < length path.old.items }
    ensures none { (result ≡ false) ↔ ((step_at path.old.items level).max ≡ greatest (R.sheet rows.old).tree.table.width) }
    ensures some { OnTrue result
        (path.new.items ≡ path_in (R.sheet rows.old).tree.table (R.sheet rows.old).tree.root ((step_at path.old.items level).max + 1)) }
    ensures stays { OnFalse result (path.new ≡ path.old) }
    ensures rest { OnlyReads (R.sheet rows.old) (R.sheet rows.new) }
    ensures reads { OnTrue result (ReadsUpTo (loads_on path.new.items) (R.sheet rows.old) (R.sheet rows.new)) }
    ensures near { OnTrue result (ReadsBelow path.old.items path.new.items ((step_at path.old.items level).max + 1) (R.sheet rows.old) (R.sheet rows.new)) }
    ensures unread { OnFalse result (R.sheet rows.new ≡ R.sheet rows.old) }
{
    let end = path[level as usize].max;
    if end == top(rows.width()) {
        return false;
    }
    walk_on(rows, path, end + 1);
    true
}

/// A path goes, in place, to the node left of its own at this level, and from there to the last leaf. If its node is the first
/// of the level there is none, and the path stays.
pub fn step_left<R: Rows>(rows: &mut R, path: &mut Path, level: u32) -> bool
    requires tree { (kind : Kind) × IsTreeOf (R.sheet rows.old).tree kind }
    requires path { (index : ℕ) × (index ≤ greatest (R.sheet rows.old).tree.table.width)
        × (path.old.items ≡ path_in (R.sheet rows.old).tree.table (R.sheet rows.old).tree.root index) }
    requires level { level < length path.old.items }
    ensures none { (result ≡ false) ↔ ((step_at path.old.items level).min ≡ 0) }
    ensures some { OnTrue result
        (path.new.items ≡ path_in (R.sheet rows.old).tree.table (R.sheet rows.old).tree.root ((step_at path.old.items level).min - 1)) }
    ensures stays { OnFalse result (path.new ≡ path.old) }
    ensures rest { OnlyReads (R.sheet rows.old) (R.sheet rows.new) }
    ensures reads { OnTrue result (ReadsUpTo (loads_on path.new.items) (R.sheet rows.old) (R.sheet rows.new)) }
    ensures near { OnTrue result (ReadsBelow path.old.items path.new.items ((step_at path.old.items level).min - 1) (R.sheet rows.old) (R.sheet rows.new)) }
    ensures unread { OnFalse result (R.sheet rows.new ≡ R.sheet rows.old) }
{
    let begin = path[level as usize].min;
    if begin == 0 {
        return false;
    }
    walk_on(rows, path, begin - 1);
    true
}

/// The path to the node right of the path's at this level, and from there to its first leaf; none if the path's node is the
/// last of the level.
pub fn right_at<R: Rows>(rows: &mut R, path: &Path, level: u32) -> Option<Path>
    requires tree { (kind : Kind) × IsTreeOf (R.sheet rows.old).tree kind }
    requires path { (index : ℕ) × (index ≤ greatest (R.sheet rows.old).tree.table.width)
        × (path.now.items ≡ path_in (R.sheet rows.old).tree.table (R.sheet rows.old).tree.root index) }
    requires level { level < length path.now.items }
    ensures none { IsNone result ↔ ((step_at path.now.items level).max ≡ greatest (R.sheet rows.old).tree.table.width) }
    ensures some { IfSome result
        (λ right. right.items ≡ path_in (R.sheet rows.old).tree.table (R.sheet rows.old).tree.root ((step_at path.now.items level).max + 1)) }
    ensures rest { OnlyReads (R.sheet rows.old) (R.sheet rows.new) }
    ensures reads { IfSome result (λ right. ReadsUpTo (loads_on right.items) (R.sheet rows.old) (R.sheet rows.new)) }
    ensures unread { IfNone result (R.sheet rows.new ≡ R.sheet rows.old) }
{
    let mut right = copy_of(path);
    if step_right(rows, &mut right, level) {
        Some(right)
    } else {
        None
    }
}

/// The path to the node left of the path's at this level, and from there to its last leaf; none if the path's node is the first
/// of the level.
pub fn left_at<R: Rows>(rows: &mut R, path: &Path, level: u32) -> Option<Path>
    requires tree { (kind : Kind) × IsTreeOf (R.sheet rows.old).tree kind }
    requires path { (index : ℕ) × (index ≤ greatest (R.sheet rows.old).tree.table.width)
        × (path.now.items ≡ path_in (R.sheet rows.old).tree.table (R.sheet rows.old).tree.root index) }
    requires level { level < length path.now.items }
    ensures none { IsNone result ↔ ((step_at path.now.items level).min ≡ 0) }
    ensures some { IfSome result
        (λ left. left.items ≡ path_in (R.sheet rows.old).tree.table (R.sheet rows.old).tree.root ((step_at path.now.items level).min - 1)) }
    ensures rest { OnlyReads (R.sheet rows.old) (R.sheet rows.new) }
    ensures reads { IfSome result (λ left. ReadsUpTo (loads_on left.items) (R.sheet rows.old) (R.sheet rows.new)) }
    ensures unread { IfNone result (R.sheet rows.new ≡ R.sheet rows.old) }
{
    let mut left = copy_of(path);
    if step_left(rows, &mut left, level) {
        Some(left)
    } else {
        None
    }
}
