//! The nodes of a level, drafted.

ghost use Rattle.std.specs.Prelude.{◌≡◌, ◌≢◌, ◌<◌, ◌≤◌, ◌+◌, ◌++◌, All, Any, length};
ghost use Rattle.mt_base.specs.Width.{most_taken};
ghost use Rattle.mt_layout.specs.declared.names.RowKind.TheVariants.{Leaf};
ghost use Rattle.mt_layout.specs.Columns.{RiseFrom};
ghost use Rattle.mt_layout.specs.Rows.{IsRowNumber};
ghost use Rattle.mt_layout.specs.Sizes.{slots_of};
ghost use Rattle.mt_rows.specs.Sheet.{IsFree, life_of};
ghost use Rattle.mt_splice.specs.steps.Told.{told_gap};
ghost use Rattle.mt_splice.specs.steps.Drafting.{IsRowTaken, IsPieceDrafted, noted_row, MayDraftRows, AreRowsDrafted};

use crate::reads::first_in;
use crate::ways::{Level, Pieces};
use crate::writes::{NewRow, NewRows, draft_row_of};
use arrayvec::ArrayVec;
use mt_free::RowBook;
use mt_layout::{Item, RowKind, longest_under, name_of};
use mt_rows::Rows;

/// A row that was drafted, and the item that it is one level up.
#[derive(Clone, Copy, Debug, PartialEq, Eq)]
pub struct Head {
    pub row: u32,
    pub item: Item,
}

/// The rows of a level that were drafted, and the items that they are one level up.
#[derive(Drop)]
pub struct Heads {
    pub rows: ArrayVec<u32, 3>,
    pub items: ArrayVec<Item, 3>,
}

/// Drafts these items in a row of this kind, which it takes from the book.
fn draft_row<R: Rows>(rows: &mut R, book: &mut RowBook, kind: RowKind, items: &[Item]) -> u32
    requires free { 0 < length book.old.free }
    requires rows { book.old.rows ≡ (R.sheet rows.old).tree.rows }
    requires spare { All (λ row. IsFree (R.sheet rows.old).cleared (life_of (R.sheet rows.old).lives row)) book.old.free }
    requires fit { length items.now ≤ slots_of (R.sheet rows.old).tree.table.width kind }
    ensures taken { IsRowTaken (R.sheet rows.old) (R.sheet rows.new) book.old book.new kind items.now result }
    ensures number { IsRowNumber result }
{
    let row = book.take();
    draft_row_of(rows, row, kind, items);
    row
}

/// What a node with these items, the first of which begins at `first`, gives the node above: the longest hole below it, if
/// nodes above have gaps.
fn told_gap(above: RowKind, kind: RowKind, first: u64, items: &[Item]) -> u64
    requires rise { RiseFrom first items.now }
    requires entry { kind ≡ Leaf → Any (λ x. x.word ≢ 0) items.now }
    ensures { result ≡ told_gap above kind first items.now }
{
    match above {
        RowKind::Leaf | RowKind::Inner => 0,
        RowKind::Gapped => longest_under(kind, items, first),
    }
}

/// Notes a new node, where it has children.
fn note_row(made: &mut NewRows, kind: RowKind, row: u32, count: u32)
    requires room { length made.old.items < most_taken }
    ensures noted { made.new.items ≡ made.old.items ++ noted_row kind row count }
    ensures few { length made.new.items ≤ length made.old.items + 1 }
{
    match kind {
        RowKind::Leaf => {}
        RowKind::Inner | RowKind::Gapped => made.push(NewRow { row, count }),
    }
}

/// Drafts a node with these items, the first of which begins at `first`, and gives the item that it is one level up.
pub fn draft_piece<R: Rows>(
    rows: &mut R,
    book: &mut RowBook,
    level: Level,
    first: u64,
    items: &[Item],
    made: &mut NewRows,
) -> Head
    requires free { 0 < length book.old.free }
    requires rows { book.old.rows ≡ (R.sheet rows.old).tree.rows }
    requires spare { All (λ row. IsFree (R.sheet rows.old).cleared (life_of (R.sheet rows.old).lives row)) book.old.free }
    requires some { 1 ≤ length items.now }
    requires fit { length items.now ≤ slots_of (R.sheet rows.old).tree.table.width level.kind }
    requires rise { RiseFrom first items.now }
    requires entry { level.kind ≡ Leaf → Any (λ x. x.word ≢ 0) items.now }
    requires room { length made.old.items < most_taken }
    ensures piece { IsPieceDrafted (R.sheet rows.old)
        (R.sheet rows.new) book.old book.new level.above level.kind first items.now made.old.items made.new.items result }
    ensures few { length made.new.items ≤ length made.old.items + 1 }
{
    let row = draft_row(rows, book, level.kind, items);
    note_row(made, level.kind, row, items.len() as u32);
    let item = Item {
        last: items[items.len() - 1].last,
        word: name_of(row, level.kind).word(),
        gap: told_gap(level.above, level.kind, first, items),
    };
    Head { row, item }
}

/// Drafts the items of a level in nodes that end where its pieces do, and gives the items that these are one level up. Of inner
/// nodes it notes how many children they have.
pub fn draft_rows<R: Rows>(
    rows: &mut R,
    book: &mut RowBook,
    level: Level,
    items: &[Item],
    pieces: &Pieces,
    made: &mut NewRows,
) -> Heads
    requires room { length made.old.items + 3 ≤ most_taken }
    requires rows { MayDraftRows (R.sheet rows.old) book.old level.kind pieces.now.first items.now pieces.now.ends.items }
    ensures rows { AreRowsDrafted (R.sheet rows.old) (R.sheet rows.new) book.old book.new level.above
        level.kind pieces.now.first items.now pieces.now.ends.items made.old.items made.new.items result.rows.items result.items.items }
    ensures few { length result.items.items ≤ 3 }
{
    let mut numbers = ArrayVec::new();
    let mut new = ArrayVec::new();
    let mut from = 0;
    for end in pieces.ends.as_slice() {
        let to = *end as usize;
        let begin = first_in(pieces.first, items, from);
        let part = &items[from..to];
        let head = draft_piece(rows, book, level, begin, part, made);
        numbers.push(head.row);
        new.push(head.item);
        from = to;
    }
    Heads {
        rows: numbers,
        items: new,
    }
}
