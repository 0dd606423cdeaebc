//! The copy of a whole tree.

ghost use Rattle.std.specs.Prelude.{◌≡◌, ◌↔◌, ◌+◌, ◌≤◌, ◌<◌, ℕ, [], length};
ghost use Rattle.mt_base.specs.declared.kinds.Kind.{Kind};
ghost use Rattle.mt_free.specs.Book.{new_book, IsOut};
ghost use Rattle.mt_rows.specs.declared.rows.Place.TheVariants.{Root};
ghost use Rattle.mt_rows.specs.Memory.{sheet_in};
ghost use Rattle.mt_rows.specs.Plain.{new_sheet};
ghost use Rattle.mt_rows.specs.Publish.{with_published, map_by, IsLawfulOf, MayPlant};
ghost use Rattle.mt_rows.specs.Sheet.{OnlyReads};
ghost use Rattle.mt_rows.specs.Trees.{reached_in};
ghost use Rattle.mt_dup.specs.Copy.{AreInOrder, IsCopy, IsBookOfCopy, IsNewBut};

use crate::walks::{Way, copy_row};
use mt_base::{DEEPEST, Steps};
use mt_free::RowBook;
use mt_rows::{PlainRows, Rows};
use std::sync::ledger::Ledger;

/// The parent word of a root.
const NO_PARENT: u64 = 1;

/// Copies a tree node by node into new nodes of the same width. Returns the root word of the copy, with which it can be planted
/// there. It takes as many nodes from the book as the tree has, and each is a step. It takes no memory.
pub fn copy_rows<R: Rows, L: Ledger>(
    src: &mut R,
    dst: &mut PlainRows,
    book: &mut RowBook,
    steps: &mut Steps<L>,
) -> u64
    requires lawful { (kind : Kind) × IsLawfulOf (R.sheet src.old).tree kind }
    requires rows { sheet_in dst.old ≡ new_sheet (R.sheet src.old).tree.table.width book.old.rows }
    requires book { book.old ≡ new_book book.old.rows }
    requires room { length (reached_in (R.sheet src.old).tree.table (R.sheet src.old).tree.root) ≤ length book.old.free }

    // The words of the copy are those of the tree, but for the numbers of its rows.
    ensures copy { IsCopy (R.sheet src.old).tree (with_published (sheet_in dst.new).tree Root result) }
    // They are numbered in the order of the walk.
    ensures order { AreInOrder (with_published (sheet_in dst.new).tree Root result) }
    ensures map { map_by (with_published (sheet_in dst.new).tree Root result) ≡ map_by (R.sheet src.old).tree }
    ensures lawful { (kind : Kind) → IsLawfulOf (R.sheet src.old).tree kind → MayPlant kind (sheet_in dst.new) result }

    // All other rows are new, the book is of the copy, and the tree is only read.
    ensures rows { IsNewBut (with_published (sheet_in dst.new).tree Root result) book.old.rows (sheet_in dst.new) }
    ensures book { IsBookOfCopy (with_published (sheet_in dst.new).tree Root result) book.new }
    ensures steps { steps.new ≡ steps.old + length (reached_in (R.sheet src.old).tree.table (R.sheet src.old).tree.root) }
    ensures rest { OnlyReads (R.sheet src.old) (R.sheet src.new) }
{
    let way = Way {
        depth: DEEPEST as u32,
        word: src.root(),
        parent: NO_PARENT,
    };
    copy_row(src, dst, book, steps, way)
}
