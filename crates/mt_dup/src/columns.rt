//! The columns of one node.

ghost use Rattle.std.specs.Prelude.{◌≡◌, ◌+◌};
ghost use Rattle.mt_base.specs.Width.{columns};
ghost use Rattle.mt_rows.specs.Memory.{sheet_in};
ghost use Rattle.mt_rows.specs.Sheet.{IsPlace, OnlyReads, IsFree, life_of};
ghost use Rattle.mt_dup.specs.Filling.{IsWritten};
ghost use Rattle.mt_dup.specs.Pairs.{IsWrittenAt, HasOwn};

use mt_base::Width;
use mt_layout::RowKind;
use mt_rows::{PlainRows, Rows};

/// A node of this kind that is copied, and the node of the copy.
#[derive(Clone, Copy)]
pub(crate) struct Pair {
    pub(crate) kind: RowKind,
    pub(crate) row: u32,
    pub(crate) to: u32,
}

/// Writes a column of a new node or of a draft.
pub(crate) fn write(rows: &mut PlainRows, row: u32, col: u32, word: u64)
    requires place { IsPlace (sheet_in rows.old).tree row col }
    requires free { IsFree (sheet_in rows.old).cleared (life_of (sheet_in rows.old).lives row) }
    ensures written { IsWritten row (row + 1) (sheet_in rows.old) (sheet_in rows.new) }
    ensures column { IsWrittenAt row col word (sheet_in rows.old).tree.table (sheet_in rows.new).tree.table }
{
    rows.draft(row, col, word);
}

/// Writes a node of the copy, with this parent word and `COLS` columns. The names in its slots are still those of the original
/// tree.
#[tactic(auto, using(crate::proofs::WrittenRows::copying))]
fn copy_by<R: Rows, const COLS: usize>(src: &mut R, dst: &mut PlainRows, pair: Pair, parent: u64)
    requires columns { COLS ≡ columns (R.sheet src.old).tree.table.width }
    requires row { IsPlace (R.sheet src.old).tree pair.row 0 }
    requires place { IsPlace (sheet_in dst.old).tree pair.to 0 }
    requires free { IsFree (sheet_in dst.old).cleared (life_of (sheet_in dst.old).lives pair.to) }
    requires width { (sheet_in dst.old).tree.table.width ≡ (R.sheet src.old).tree.table.width }
    ensures own { HasOwn parent pair (R.sheet src.old).tree.table (sheet_in dst.new).tree.table }
    ensures written { IsWritten pair.to (pair.to + 1) (sheet_in dst.old) (sheet_in dst.new) }
    ensures rest { OnlyReads (R.sheet src.old) (R.sheet src.new) }
{
    let mut words = [parent; COLS];
    for col in 1..COLS {
        words[col] = src.load(pair.row, col as u32);
    }
    dst.draft_columns(pair.to, 0, &words);
}

/// Writes a node of the copy, which has this parent word. The names in its slots are still those of the tree.
pub(crate) fn copy_own<R: Rows>(src: &mut R, dst: &mut PlainRows, pair: Pair, parent: u64)
    requires row { IsPlace (R.sheet src.old).tree pair.row 0 }
    requires place { IsPlace (sheet_in dst.old).tree pair.to 0 }
    requires free { IsFree (sheet_in dst.old).cleared (life_of (sheet_in dst.old).lives pair.to) }
    requires width { (sheet_in dst.old).tree.table.width ≡ (R.sheet src.old).tree.table.width }
    ensures own { HasOwn parent pair (R.sheet src.old).tree.table (sheet_in dst.new).tree.table }
    ensures written { IsWritten pair.to (pair.to + 1) (sheet_in dst.old) (sheet_in dst.new) }
    ensures rest { OnlyReads (R.sheet src.old) (R.sheet src.new) }
{
    match src.width() {
        Width::Long => copy_by::<R, 32>(src, dst, pair, parent),
        Width::Short => copy_by::<R, 64>(src, dst, pair, parent),
    }
}
