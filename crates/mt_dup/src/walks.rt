//! The walk through a tree that is copied: each node before its children, children from the left.

ghost use Rattle.std.specs.Prelude.{◌≡◌, ◌+◌, ◌≤◌, ◌<◌, length, Some};
ghost use Rattle.mt_base.specs.Width.{first_row};
ghost use Rattle.mt_rows.specs.declared.rows.Life.TheVariants.{Draft};
ghost use Rattle.mt_rows.specs.Memory.{sheet_in};
ghost use Rattle.mt_rows.specs.Sheet.{OnlyReads, life_of};
ghost use Rattle.mt_dup.specs.Filling.{next_row, IsFilling, HasTaken, IsOpenCopy, IsWritten};
ghost use Rattle.mt_dup.specs.Walks.{names_from, names_below, MayCopy, MayCopyBelow, LeavesCopy, LeavesChildren, KeepsOwn};

use crate::columns::{Pair, copy_own, write};
use mt_base::Steps;
use mt_free::RowBook;
use mt_layout::{RowKind, kind_of, name_of, parent_word, row_of, slots};
use mt_rows::{PlainRows, Rows};
use std::sync::ledger::Ledger;

/// How the walk reaches a node: the word that names it, at most how many levels are below it, and the parent word of its copy.
#[derive(Clone, Copy)]
pub(crate) struct Way {
    pub(crate) depth: u32,
    pub(crate) word: u64,
    pub(crate) parent: u64,
}

/// Takes the next node.
fn take_next(book: &mut RowBook) -> u32
    requires filling { IsFilling book.old }
    requires some { 0 < length book.old.free }
    ensures row { result ≡ next_row book.old }
    ensures taken { HasTaken 1 book.old book.new }
{
    book.take()
}

/// Copies the node that a word names, and all nodes below it, and gives its name in the copy. A word that is no name is 0, and
/// so it is in the copy.
#[cycle(walk)]
pub(crate) fn copy_row<R: Rows, L: Ledger>(
    src: &mut R,
    dst: &mut PlainRows,
    book: &mut RowBook,
    steps: &mut Steps<L>,
    way: Way,
) -> u64
    requires may { MayCopy (R.sheet src.old).tree way.depth way.word }
    requires open { IsOpenCopy book.old (sheet_in dst.old) }
    requires room { length (names_from (R.sheet src.old).tree.table way.depth way.word) ≤ length book.old.free }
    requires width { (sheet_in dst.old).tree.table.width ≡ (R.sheet src.old).tree.table.width }
    ensures copy { LeavesCopy (R.sheet src.old).tree.table (sheet_in dst.new).tree.table (next_row book.old) way result }
    ensures taken { HasTaken (length (names_from (R.sheet src.old).tree.table way.depth way.word)) book.old book.new }
    ensures written { IsWritten (next_row book.old) (next_row book.new) (sheet_in dst.old) (sheet_in dst.new) }
    ensures steps { steps.new ≡ steps.old + length (names_from (R.sheet src.old).tree.table way.depth way.word) }
    ensures rest { OnlyReads (R.sheet src.old) (R.sheet src.new) }
{
    let Some(kind) = kind_of(way.word) else {
        return 0;
    };
    let Some(row) = row_of(way.word) else {
        unreachable!()
    };
    steps.tick();
    let pair = Pair {
        kind,
        row,
        to: take_next(book),
    };
    copy_own(src, dst, pair, way.parent);
    copy_children(src, dst, book, steps, way.depth, pair);
    name_of(pair.to, kind).word()
}

/// Copies the nodes below a node, of which a leaf has none, and writes their names.
#[cycle(walk)]
fn copy_children<R: Rows, L: Ledger>(
    src: &mut R,
    dst: &mut PlainRows,
    book: &mut RowBook,
    steps: &mut Steps<L>,
    depth: u32,
    pair: Pair,
)
    requires may { MayCopyBelow (R.sheet src.old).tree depth pair }
    requires open { IsOpenCopy book.old (sheet_in dst.old) }
    requires room { length (names_below (R.sheet src.old).tree.table depth pair) ≤ length book.old.free }
    requires to { next_row book.old ≡ pair.to + 1 }
    requires first { first_row ≤ pair.to }
    requires draft { life_of (sheet_in dst.old).lives pair.to ≡ Draft }
    requires width { (sheet_in dst.old).tree.table.width ≡ (R.sheet src.old).tree.table.width }
    ensures children { LeavesChildren (R.sheet src.old).tree.table (sheet_in dst.new).tree.table (next_row book.old) depth pair }
    ensures own { KeepsOwn (sheet_in dst.old).tree.table (sheet_in dst.new).tree.table pair }
    ensures taken { HasTaken (length (names_below (R.sheet src.old).tree.table depth pair)) book.old book.new }
    ensures written { IsWritten pair.to (next_row book.new) (sheet_in dst.old) (sheet_in dst.new) }
    ensures steps { steps.new ≡ steps.old + length (names_below (R.sheet src.old).tree.table depth pair) }
    ensures rest { OnlyReads (R.sheet src.old) (R.sheet src.new) }
{
    if pair.kind == RowKind::Leaf {
        return;
    }
    let slots = slots(src.width(), pair.kind);
    for slot in 0..slots {
        let way = Way {
            depth: depth - 1,
            word: src.load(pair.row, slots + slot),
            parent: parent_word(pair.to, slot),
        };
        let name = copy_row(src, dst, book, steps, way);
        write(dst, pair.to, slots + slot, name);
    }
}
