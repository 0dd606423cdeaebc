//! What the nodes of the next level will hold, gathered.

ghost use Rattle.std.specs.Prelude.{◌≡◌, ◌<◌, ◌≤◌, ◌+◌, ◌++◌, length, take, drop};
ghost use Rattle.mt_base.specs.Width.{first_row};
ghost use Rattle.mt_layout.specs.Sizes.{run_room, slots_of};
ghost use Rattle.mt_rows.specs.Sheet.{OnlyReads};
ghost use Rattle.mt_splice.specs.steps.Looking.{MayGather, items_above};
ghost use Rattle.mt_splice.specs.steps.Writes.{items_of_row};

use crate::begun::Begun;
use crate::reads::{push_all, push_items};
use crate::ways::{Gathered, Ways, Window, step_on, window_on};
use mt_layout::{Item, RowKind, Run, slots};
use mt_leaf::Towards;
use mt_path::PathStep;
use mt_rows::Rows;

/// Appends the items of a node of this kind of a path that come after its slot.
#[tactic(auto, using(crate::proofs::Gathering::behind_slot))]
fn push_behind<R: Rows>(rows: &mut R, kind: RowKind, step: &PathStep, run: &mut Run)
    requires row { (first_row ≤ step.now.row) × (step.now.row < first_row + (R.sheet rows.old).tree.rows) }
    requires slot { step.now.slot + 1 < length (items_of_row (R.sheet rows.old).tree.table kind step.now.row step.now.max) }
    requires room { length run.old.items + slots_of (R.sheet rows.old).tree.table.width kind ≤ run_room }
    ensures items { run.new.items ≡ run.old.items ++ drop (step.now.slot + 1) (items_of_row (R.sheet rows.old).tree.table kind step.now.row step.now.max) }
    ensures rest { OnlyReads (R.sheet rows.old) (R.sheet rows.new) }
{
    let slots = slots(rows.width(), kind);
    push_items(rows, kind, step, step.slot + 1, slots, run);
}

/// Fills a run, which may hold other items, from nodes of this kind: with those left of the left path's slot, the new ones,
/// which end at `last`, and those right of the right path's slot.
#[tactic(auto, using(crate::proofs::Gathering::items_ahead, crate::proofs::Gathering::none_behind))]
fn gather<R: Rows>(
    rows: &mut R,
    kind: RowKind,
    window: &Window,
    new: &[Item],
    last: u64,
    run: &mut Run,
)
    requires left_row { let left = window.now.first in (first_row ≤ left.row) × (left.row < first_row + (R.sheet rows.old).tree.rows) }
    requires right_row { let right = window.now.last in (first_row ≤ right.row) × (right.row < first_row + (R.sheet rows.old).tree.rows) }
    requires left_slot { window.now.first.slot ≤ slots_of (R.sheet rows.old).tree.table.width kind }
    requires few { length new.now ≤ 3 }
    requires more { let right = window.now.last in last < right.max
        → right.slot + 1 < length (items_of_row (R.sheet rows.old).tree.table kind right.row right.max) }
    requires none { let right = window.now.last in right.max ≤ last
        → length (items_of_row (R.sheet rows.old).tree.table kind right.row right.max) ≤ right.slot + 1 }
    ensures items { let t = (R.sheet rows.old).tree.table in let left = window.now.first in let right = window.now.last in
        run.new.items ≡ take left.slot (items_of_row t kind left.row left.max) ++ (new.now ++ drop (right.slot + 1) (items_of_row t kind right.row right.max)) }
    ensures rest { OnlyReads (R.sheet rows.old) (R.sheet rows.new) }
{
    let (left, right) = (&window.first, &window.last);
    run.clear();
    push_items(rows, kind, left, 0, left.slot, run);
    push_all(run, new);
    if last < right.max {
        push_behind(rows, kind, right, run);
    }
}

/// Where the change is among the items of a node above: at their end, at their beginning, or between.
fn towards_of(window: &Window, last: u64) -> Towards {
    if window.last.max <= last {
        Towards::Last
    } else if window.first.slot == 0 {
        Towards::First
    } else {
        Towards::Middle
    }
}

/// Gathers what will be in a window's place at this level, in nodes of this kind: the new nodes of the level below, and what is
/// beside them.
pub fn gather_above<R: Rows, B: Begun>(
    rows: &mut R,
    ways: &Ways,
    new: &[Item],
    depth: u32,
    kind: RowKind,
    gathered: &mut Gathered,
)
    requires { MayGather B.start (R.sheet rows.old).tree kind ways.now.left.items ways.now.right.items depth new.now }
    ensures all { gathered.new.run.items ≡ items_above (R.sheet rows.old).tree kind depth ways.now.left.items ways.now.right.items new.now }
    ensures rest { OnlyReads (R.sheet rows.old) (R.sheet rows.new) }
{
    let window = window_on(ways, depth);
    let last = step_on(&ways.right, depth + 1).max;
    gather(rows, kind, &window, new, last, &mut gathered.run);
    gathered.towards = towards_of(&window, last);
}
