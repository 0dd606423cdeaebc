//! The items of a node read from the nodes of a tree.

ghost use Rattle.std.specs.Prelude.{◌≡◌, ◌<◌, ◌≤◌, ◌+◌, ◌-◌, ◌^◌, ◌++◌, length, take};
ghost use Rattle.mt_base.specs.Width.{first_row};
ghost use Rattle.mt_layout.specs.Columns.{items_from};
ghost use Rattle.mt_leaf.specs.Places.{first_of};
ghost use Rattle.mt_rows.specs.Spans.{base_of};
ghost use Rattle.mt_layout.specs.Sizes.{slots_of, gaps_of, run_room};
ghost use Rattle.mt_rows.specs.Sheet.{OnlyReads};

use mt_layout::{Item, RowKind, Run, slots};
use mt_path::PathStep;
use mt_rows::{Rows, load_item};
use std::ops::Range;

/// The first index of the item in a slot, where the first item begins at `first`.
#[tactic(auto, using(mt_leaf::proofs::Slots::slots))]
pub fn first_in(first: u64, items: &[Item], slot: usize) -> u64
    requires slot { slot ≤ length items.now }
    requires within { first_of first items.now slot < 2 ^ 64 }
    ensures { result ≡ first_of first items.now slot }
{
    if slot == 0 {
        return first;
    }
    items[slot - 1].last + 1
}

/// Appends the items of a node of a path from one slot up to, but without, another, or to the node's last item.
#[tactic(auto, using(crate::proofs::Readings::one_more_read, crate::proofs::Readings::last_read, crate::proofs::Readings::all_read))]
pub fn push_items<R: Rows>(
    rows: &mut R,
    kind: RowKind,
    step: &PathStep,
    from: u32,
    to: u32,
    run: &mut Run,
)
    requires first { first_row ≤ step.now.row }
    requires last { step.now.row < first_row + (R.sheet rows.old).tree.rows }
    requires room { length run.old.items + (to - from) ≤ run_room }
    ensures items { let t = (R.sheet rows.old).tree.table in run.new.items ≡ run.old.items ++ take (to - from)
        (items_from (slots_of t.width kind) (gaps_of t.width kind) t.words (base_of t step.now.row) step.now.max (slots_of t.width kind - from) from) }
    ensures rest { OnlyReads (R.sheet rows.old) (R.sheet rows.new) }
{
    let end = to.min(slots(rows.width(), kind));
    for slot in from..end {
        let item = load_item(rows, kind, step.row, step.max, slot);
        run.push(item);
        if step.max <= item.last {
            return;
        }
    }
}

/// Appends items, for which there is room.
pub fn push_all(run: &mut Run, items: &[Item])
    requires { length run.old.items + length items.now ≤ run_room }
    ensures { run.new.items ≡ run.old.items ++ items.now }
{
    match run.try_extend_from_slice(items) {
        Ok(()) => {}
        Err(_) => unreachable!(),
    }
}
