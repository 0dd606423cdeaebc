//! Nodes written again.

ghost use Rattle.std.specs.Prelude.{◌≡◌, ◌<◌, ◌≤◌, length};
ghost use Rattle.mt_base.specs.Width.{columns};
ghost use Rattle.mt_layout.specs.Sizes.{slots_of, gaps_of};
ghost use Rattle.mt_rows.specs.Sheet.{IsPlace, IsFree, life_of};
ghost use Rattle.mt_splice.specs.steps.Writes.{IsRowDrafted};

use arrayvec::ArrayVec;
use mt_base::{MOST_TAKEN, Width};
use mt_layout::{Item, RowKind, words_of};
use mt_rows::Rows;

/// The parent word of a node that has no parent yet: the root's.
const NO_PARENT: u64 = 1;

/// An inner node that was written, and the number of its children.
#[derive(Clone, Copy, Debug, Default, PartialEq, Eq)]
pub struct NewRow {
    pub row: u32,
    pub count: u32,
}

/// The inner nodes that a call has written.
pub type NewRows = ArrayVec<NewRow, MOST_TAKEN>;

/// Writes all words of a node of `COLS` columns that may be written again: of these items, without a parent. What is unused is
/// 0.
#[tactic(auto, using(crate::proofs::Drafts::row_drafted))]
fn draft_row_by<R: Rows, const COLS: usize>(
    rows: &mut R,
    width: Width,
    row: u32,
    kind: RowKind,
    items: &[Item],
)
    requires width { width ≡ (R.sheet rows.old).tree.table.width }
    requires columns { COLS ≡ columns (R.sheet rows.old).tree.table.width }
    requires place { IsPlace (R.sheet rows.old).tree row 0 }
    requires free { IsFree (R.sheet rows.old).cleared (life_of (R.sheet rows.old).lives row) }
    requires fit { length items.now ≤ slots_of width kind }
    ensures { IsRowDrafted (R.sheet rows.old) (R.sheet rows.new) row kind items.now }
{
    let mut words = [0; COLS];
    words_of(width, kind, items, NO_PARENT, &mut words);
    rows.draft_row(row, &words);
}

/// Writes all words of a node that may be written again: of these items, without a parent. What is unused is 0.
pub fn draft_row_of<R: Rows>(rows: &mut R, row: u32, kind: RowKind, items: &[Item])
    requires place { IsPlace (R.sheet rows.old).tree row 0 }
    requires free { IsFree (R.sheet rows.old).cleared (life_of (R.sheet rows.old).lives row) }
    requires fit { length items.now ≤ slots_of (R.sheet rows.old).tree.table.width kind }
    ensures { IsRowDrafted (R.sheet rows.old) (R.sheet rows.new) row kind items.now }
{
    match rows.width() {
        Width::Long => draft_row_by::<R, 32>(rows, Width::Long, row, kind, items),
        Width::Short => draft_row_by::<R, 64>(rows, Width::Short, row, kind, items),
    }
}
