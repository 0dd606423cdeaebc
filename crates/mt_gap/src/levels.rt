//! From level to level: the nodes that a search goes into one level lower.

ghost use Rattle.std.specs.Prelude.{◌≡◌, ◌+◌, ◌≤◌, ◌++◌, ℕ, All, [], length, take};
ghost use Rattle.mt_base.specs.Width.{columns};
ghost use Rattle.mt_rows.specs.Sheet.{ReadsUpTo};
ghost use Rattle.mt_gap.specs.declared.children.Child.{Child};
ghost use Rattle.mt_gap.specs.Children.{children_in, children_below};
ghost use Rattle.mt_gap.specs.Descents.{LoadedUpTo, MayLoad};
ghost use Rattle.mt_gap.specs.Narrow.{narrow, narrow_up, has_sure};
ghost use Rattle.mt_gap.specs.Ways.{HasRoomFor, asked_for, asked_from, ends_where};

use crate::children::Child;
use crate::ways::Side;
use crate::windows::{Asked, Window, ask_row, ask_row_up};
use mt_base::Steps;
use mt_layout::{RowKind, Span, kind_of, row_of};
use mt_rows::Rows;
use std::sync::ledger::Ledger;

/// Adds what has to be asked below one node, and returns whether nothing after it has. A node without gaps shows no room.
#[tactic(auto, using(crate::proofs::Asking::without_lower, crate::proofs::Asking::without_sure))]
fn ask_lower<R: Rows>(rows: &mut R, row: Span, window: Window, next: &mut Asked) -> bool
    requires row { MayLoad (R.sheet rows.old).tree row }
    requires size { 1 ≤ window.size }
    requires room { length next.old.items + length (narrow window.size window.lo window.hi (children_in (R.sheet rows.old).tree.table row)) ≤ 3 }
    ensures items { next.new.items ≡ next.old.items ++ narrow window.size window.lo window.hi (children_in (R.sheet rows.old).tree.table row) }
    ensures found { result ≡ has_sure window.size window.lo window.hi (children_in (R.sheet rows.old).tree.table row) }
    ensures reads { ReadsUpTo (columns (R.sheet rows.old).tree.table.width) (R.sheet rows.old) (R.sheet rows.new) }
{
    match (row_of(row.word), kind_of(row.word)) {
        (Some(number), Some(RowKind::Gapped)) => {
            ask_row(rows, number, row.first, row.last, window, next)
        }
        _ => false,
    }
}

/// Takes what has to be asked below one more node. A node without gaps shows no room.
#[tactic(auto, using(crate::proofs::Asking::without_asked_up))]
fn ask_higher<R: Rows>(rows: &mut R, row: Span, window: Window, next: &mut Asked)
    requires row { MayLoad (R.sheet rows.old).tree row }
    requires size { 1 ≤ window.size }
    requires room { (k : ℕ) → length (narrow_up window.size window.lo window.hi next.old.items (take k (children_in (R.sheet rows.old).tree.table row))) ≤ 3 }
    ensures items { next.new.items ≡ narrow_up window.size window.lo window.hi next.old.items (children_in (R.sheet rows.old).tree.table row) }
    ensures reads { ReadsUpTo (columns (R.sheet rows.old).tree.table.width) (R.sheet rows.old) (R.sheet rows.new) }
{
    match (row_of(row.word), kind_of(row.word)) {
        (Some(number), Some(RowKind::Gapped)) => {
            ask_row_up(rows, number, row.first, row.last, window, next);
        }
        _ => {}
    }
}

/// Takes what has to be asked below one more node, and returns whether nothing after it has.
fn ask_below<R: Rows>(rows: &mut R, side: Side, row: Span, window: Window, next: &mut Asked) -> bool
    requires row { MayLoad (R.sheet rows.old).tree row }
    requires size { 1 ≤ window.size }
    requires room { HasRoomFor side window next.old.items (children_in (R.sheet rows.old).tree.table row) }
    ensures items { next.new.items ≡ asked_from side window next.old.items (children_in (R.sheet rows.old).tree.table row) }
    ensures ends { result ≡ ends_where side (has_sure window.size window.lo window.hi (children_in (R.sheet rows.old).tree.table row)) }
    ensures reads { ReadsUpTo (columns (R.sheet rows.old).tree.table.width) (R.sheet rows.old) (R.sheet rows.new) }
{
    match side {
        Side::Low => ask_lower(rows, row, window, next),
        Side::High => {
            ask_higher(rows, row, window, next);
            false
        }
    }
}

/// Fills an empty list with the nodes to be asked one level below these. Each of these that is loaded is a step.
#[tactic(auto, using(crate::proofs::LevelLoops::level_all, crate::proofs::LevelLoops::loaded_none, crate::proofs::LevelLoops::loaded_few))]
pub(crate) fn next_level<R: Rows, L: Ledger>(
    rows: &mut R,
    side: Side,
    asked: &[Child],
    window: Window,
    steps: &mut Steps<L>,
    next: &mut Asked,
)
    requires rows { All (λ (x : Child). MayLoad (R.sheet rows.old).tree x.span) asked.now }
    requires empty { next.old.items ≡ [] }
    requires size { 1 ≤ window.size }
    requires few { HasRoomFor side window [] (children_below (R.sheet rows.old).tree.table asked.now) }
    ensures items { next.new.items ≡ asked_for side window (children_below (R.sheet rows.old).tree.table asked.now) }
    ensures loaded { LoadedUpTo (length asked.now) (R.sheet rows.old) (R.sheet rows.new) steps.old steps.new }
{
    for row in asked {
        steps.tick();
        if ask_below(rows, side, row.span, window, next) {
            return;
        }
    }
}
