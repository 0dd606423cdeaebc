//! What the leaves at the ends of a store hold after it.

ghost use Rattle.std.specs.Prelude.{◌≡◌, ◌≢◌, ◌<◌, ◌≤◌, ◌+◌, ◌^◌, [], ◌∷◌, fold, drop, length};
ghost use Rattle.mt_base.specs.declared.kinds.Kind.{Kind};
ghost use Rattle.mt_base.specs.Width.{greatest};
ghost use Rattle.mt_layout.specs.declared.names.RowKind.TheVariants.{Leaf};
ghost use Rattle.mt_layout.specs.Sizes.{run_room, slots_of};
ghost use Rattle.mt_layout.specs.Spans.{spans_from};
ghost use Rattle.mt_leaf.specs.Edits.{edited};
ghost use Rattle.mt_leaf.specs.Places.{items_below, slot_above, with_joined};
ghost use Rattle.mt_path.specs.Handles.{last_step};
ghost use Rattle.mt_rows.specs.Sheet.{OnlyReads};
ghost use Rattle.mt_splice.specs.steps.Regions.{AreEnds, IsLeafStep, leaf_items};
ghost use Rattle.mt_splice.specs.Splice.{region_of};

use crate::calls::Edit;
use crate::reads::{first_in, push_items};
use crate::ways::{Gathered, Ways, step_on};
use mt_base::{Width, top};
use mt_layout::{Item, RowKind, Run, slots};
use mt_leaf::{Towards, edit_into, push_joined};
use mt_path::{Path, PathStep};
use mt_rows::{Rows, load_item};

/// Fills an empty run with what a leaf holds below `first`, which the path's slot there holds.
fn push_below<R: Rows>(rows: &mut R, leaf: &PathStep, first: u64, run: &mut Run)
    requires leaf { IsLeafStep (R.sheet rows.old).tree leaf.now first }
    requires empty { run.old.items ≡ [] }
    ensures items { run.new.items ≡ items_below leaf.now.min (leaf_items (R.sheet rows.old).tree.table leaf.now) first }
    ensures rest { OnlyReads (R.sheet rows.old) (R.sheet rows.new) }
{
    push_items(rows, RowKind::Leaf, leaf, 0, leaf.slot, run);
    if first <= first_in(leaf.min, run.as_slice(), leaf.slot as usize) {
        return;
    }
    let slots = slots(rows.width(), RowKind::Leaf);
    let word = rows.load(leaf.row, slots + leaf.slot);
    run.push(Item {
        last: first - 1,
        word,
        gap: 0,
    });
}

/// Appends an item that ends above `last`, as one with the item before where both are holes.
fn push_if_above(run: &mut Run, item: Item, last: u64)
    requires { length run.old.items < run_room }
    ensures above { last < item.last → run.new.items ≡ with_joined run.old.items item }
    ensures below { item.last ≤ last → run.new.items ≡ run.old.items }
    ensures count { length run.new.items ≤ length run.old.items + 1 }
{
    if last < item.last {
        push_joined(run, item);
    }
}

/// Appends what a leaf holds above `last`, which the path's slot there holds; two holes that meet are one.
fn push_above<R: Rows>(rows: &mut R, leaf: &PathStep, last: u64, run: &mut Run)
    requires leaf { IsLeafStep (R.sheet rows.old).tree leaf.now last }
    requires room { length run.old.items + slots_of (R.sheet rows.old).tree.table.width Leaf ≤ run_room }
    ensures items { run.new.items ≡ fold with_joined run.old.items
        (drop (slot_above (leaf_items (R.sheet rows.old).tree.table leaf.now) last) (leaf_items (R.sheet rows.old).tree.table leaf.now)) }
    ensures rest { OnlyReads (R.sheet rows.old) (R.sheet rows.new) }
{
    let slots = slots(rows.width(), RowKind::Leaf);
    for slot in leaf.slot..slots {
        let item = load_item(rows, RowKind::Leaf, leaf.row, leaf.max, slot);
        push_if_above(run, item, last);
        if leaf.max <= item.last {
            return;
        }
    }
}

/// Where the change is among the items: the one that was stored is at `at`.
fn towards_of(at: usize, count: usize) -> Towards {
    if count.saturating_sub(at) <= 2 {
        Towards::Last
    } else if at <= 1 {
        Towards::First
    } else {
        Towards::Middle
    }
}

/// The leaf at the end of a path.
fn leaf_of(path: &Path) -> PathStep
    requires { path.now.items ≢ [] }
    ensures { result ≡ last_step path.now.items }
{
    let depth = path.len() as u32 - 1;
    step_on(path, depth)
}

/// Gathers what the leaves at the ends of the paths hold after a store. An entry of 0 makes a hole.
fn push_edited<R: Rows>(rows: &mut R, ways: &Ways, gathered: &mut Gathered, edit: &Edit)
    requires ends { (kind : Kind) × AreEnds kind (R.sheet rows.old).tree ways.now.left.items ways.now.right.items edit.now.first edit.now.last }
    requires some { ways.now.left.items ≢ [] }
    requires empty { gathered.old.run.items ≡ [] }
    ensures run { spans_from (last_step ways.now.left.items).min gathered.new.run.items ≡ edited
        (region_of (R.sheet rows.old).tree.table ways.now.left.items ways.now.right.items) edit.now.first edit.now.last edit.now.entry }
    ensures rest { OnlyReads (R.sheet rows.old) (R.sheet rows.new) }
{
    let left = leaf_of(&ways.left);
    let right = leaf_of(&ways.right);
    push_below(rows, &left, edit.first, &mut gathered.run);
    push_joined(
        &mut gathered.run,
        Item {
            last: edit.last,
            word: edit.entry,
            gap: 0,
        },
    );
    let at = gathered.run.len() - 1;
    push_above(rows, &right, edit.last, &mut gathered.run);
    gathered.towards = towards_of(at, gathered.run.len());
}

/// Gathers what the leaves hold after a store into the empty tree, which is one hole.
fn push_first(width: Width, edit: &Edit, run: &mut Run)
    requires order { edit.now.first ≤ edit.now.last }
    requires within { edit.now.last ≤ greatest width }
    requires empty { run.old.items ≡ [] }
    ensures { spans_from 0 run.new.items ≡ edited (record { first = 0; last = greatest width; word = 0 } ∷ []) edit.now.first edit.now.last edit.now.entry }
{
    let hole = [Item {
        last: top(width),
        word: 0,
        gap: 0,
    }];
    edit_into(&hole, 0, edit.first, edit.last, edit.entry, run);
}

/// Gathers what the leaves from the left path's to the right path's will hold after a store. Nothing is gathered yet.
pub fn fill_leaves<R: Rows>(rows: &mut R, ways: &Ways, gathered: &mut Gathered, edit: &Edit)
    requires ends { (kind : Kind) × AreEnds kind (R.sheet rows.old).tree ways.now.left.items ways.now.right.items edit.now.first edit.now.last }
    requires empty { gathered.old.run.items ≡ [] }
    ensures run { spans_from (last_step ways.now.left.items).min gathered.new.run.items ≡ edited
        (region_of (R.sheet rows.old).tree.table ways.now.left.items ways.now.right.items) edit.now.first edit.now.last edit.now.entry }
    ensures rest { OnlyReads (R.sheet rows.old) (R.sheet rows.new) }
{
    if ways.left.is_empty() {
        push_first(rows.width(), edit, &mut gathered.run);
        return;
    }
    push_edited(rows, ways, gathered, edit);
}
