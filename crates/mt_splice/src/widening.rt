//! The node beside a window, taken in.

ghost use Rattle.std.specs.Prelude.{◌≡◌, ◌<◌, ◌≤◌, ◌+◌, ◌-◌, ◌||◌, false, length};
ghost use Rattle.mt_base.specs.Width.{first_row};
ghost use Rattle.mt_layout.specs.Sizes.{run_room, slots_of};
ghost use Rattle.mt_rows.specs.Sheet.{OnlyReads};
ghost use Rattle.mt_splice.specs.steps.TakingIn.{is_hole_at, short_run, holed_run, beside_items};
ghost use Rattle.mt_splice.specs.steps.Writes.{items_of_row};
ghost use Rattle.mt_splice.specs.steps.Looking.{MayLook};
ghost use Rattle.mt_splice.specs.steps.Widening.{wants_row, IsWidened};

use crate::begun::Begun;
use crate::reads::{push_all, push_items};
use crate::ways::{Gathered, Ways, step_on};
use mt_base::Width;
use mt_layout::{RowKind, Run, least_items, slots};
use mt_leaf::{Towards, push_joined_all};
use mt_path::{PathStep, step_left, step_right};
use mt_rows::Rows;

/// Whether the last item is a hole.
fn ends_with_hole(run: &Run) -> bool
    ensures { result ≡ is_hole_at run.now.items (length run.now.items - 1) }
{
    run.as_slice().last().is_some_and(|item| item.word == 0)
}

/// Whether the items are too few for a node of this kind that is not the root.
fn is_short(width: Width, run: &Run, kind: RowKind) -> bool
    ensures { result ≡ short_run width kind run.now.items }
{
    (run.len() as u32) < least_items(width, kind)
}

/// Whether the items would end a leaf with a hole.
fn is_holed(run: &Run, kind: RowKind) -> bool
    ensures { result ≡ holed_run kind run.now.items }
{
    match kind {
        RowKind::Leaf => ends_with_hole(run),
        RowKind::Inner | RowKind::Gapped => false,
    }
}

/// Whether the items want those of a node beside them.
fn wants(width: Width, run: &Run, kind: RowKind) -> bool
    ensures { result ≡ wants_row width kind run.now.items }
{
    is_short(width, run, kind) || is_holed(run, kind)
}

/// All items of a node that a path steps through.
fn row_items<R: Rows>(rows: &mut R, kind: RowKind, step: &PathStep) -> Run
    requires row { (first_row ≤ step.now.row) × (step.now.row < first_row + (R.sheet rows.old).tree.rows) }
    ensures items { result.items ≡ items_of_row (R.sheet rows.old).tree.table kind step.now.row step.now.max }
    ensures rest { OnlyReads (R.sheet rows.old) (R.sheet rows.new) }
{
    let mut run = Run::new();
    let slots = slots(rows.width(), kind);
    push_items(rows, kind, step, 0, slots, &mut run);
    run
}

/// Appends the items of a node to others; in leaves two holes that meet are one.
fn append(run: &mut Run, kind: RowKind, items: &Run)
    requires { length run.old.items + length items.now.items ≤ run_room }
    ensures { run.new.items ≡ beside_items kind run.old.items items.now.items }
{
    match kind {
        RowKind::Leaf => push_joined_all(run, items.as_slice()),
        RowKind::Inner | RowKind::Gapped => push_all(run, items.as_slice()),
    }
}

/// Takes in a node that comes after the items.
fn take_behind<R: Rows>(rows: &mut R, kind: RowKind, step: &PathStep, gathered: &mut Gathered)
    requires row { (first_row ≤ step.now.row) × (step.now.row < first_row + (R.sheet rows.old).tree.rows) }
    requires room { length gathered.old.run.items + slots_of (R.sheet rows.old).tree.table.width kind ≤ run_room }
    ensures run { gathered.new.run.items
        ≡ beside_items kind gathered.old.run.items (items_of_row (R.sheet rows.old).tree.table kind step.now.row step.now.max) }
    ensures rest { OnlyReads (R.sheet rows.old) (R.sheet rows.new) }
{
    let beside = row_items(rows, kind, step);
    append(&mut gathered.run, kind, &beside);
    gathered.towards = Towards::Middle;
}

/// Takes in a node that comes before the items.
fn take_before<R: Rows>(rows: &mut R, kind: RowKind, step: &PathStep, gathered: &mut Gathered)
    requires row { (first_row ≤ step.now.row) × (step.now.row < first_row + (R.sheet rows.old).tree.rows) }
    requires room { length gathered.old.run.items + slots_of (R.sheet rows.old).tree.table.width kind ≤ run_room }
    ensures run { gathered.new.run.items
        ≡ beside_items kind (items_of_row (R.sheet rows.old).tree.table kind step.now.row step.now.max) gathered.old.run.items }
    ensures rest { OnlyReads (R.sheet rows.old) (R.sheet rows.new) }
{
    let mut run = row_items(rows, kind, step);
    append(&mut run, kind, &gathered.run);
    gathered.run = run;
    gathered.towards = Towards::Middle;
}

/// Takes in the node after a window if its items are too few for a node, or if a leaf would end with a hole; or the node before
/// it if none comes after.
pub fn widen<R: Rows, B: Begun>(
    rows: &mut R,
    ways: &mut Ways,
    gathered: &mut Gathered,
    depth: u32,
    kind: RowKind,
)
    requires { MayLook B.start (R.sheet rows.old).tree kind ways.old.left.items ways.old.right.items depth gathered.old.run.items }
    ensures widened { IsWidened (R.sheet rows.old).tree kind depth
        ways.old.left.items ways.old.right.items gathered.old.run.items ways.new.left.items ways.new.right.items gathered.new.run.items }
    ensures as_it_is { wants_row (R.sheet rows.old).tree.table.width kind gathered.old.run.items ≡ false → gathered.new ≡ gathered.old }
    ensures rest { OnlyReads (R.sheet rows.old) (R.sheet rows.new) }
{
    let width = rows.width();
    if !wants(width, &gathered.run, kind) {
        return;
    }
    if step_right(rows, &mut ways.right, depth) {
        let step = step_on(&ways.right, depth);
        take_behind(rows, kind, &step, gathered);
        return;
    }
    if !is_short(width, &gathered.run, kind) {
        return;
    }
    if !step_left(rows, &mut ways.left, depth) {
        return;
    }
    let step = step_on(&ways.left, depth);
    take_before(rows, kind, &step, gathered);
}
