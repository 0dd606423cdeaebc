//! The nodes of windows, buried.

ghost use Rattle.std.specs.Prelude.{◌≡◌, ◌<◌, ◌+◌, ◌-◌, IsSome, Some};
ghost use Rattle.mt_base.specs.Width.{greatest};
ghost use Rattle.mt_base.specs.declared.kinds.Kind.{Kind};
ghost use Rattle.mt_free.specs.Book.{after_retire};
ghost use Rattle.mt_layout.specs.Rows.{named_kind, row_in};
ghost use Rattle.mt_path.specs.Paths.{path_in, step_at};
ghost use Rattle.mt_rows.specs.Publish.{IsTreeOf};
ghost use Rattle.mt_rows.specs.Sheet.{OnlyReads, after_bury};
ghost use Rattle.mt_splice.specs.steps.Burials.{MayBeBuried, MayBeBuriedInTurn, after_burials, after_retirals, numbers_between, numbers_in, numbers_in_all};
ghost use Rattle.mt_splice.specs.steps.Burials.{IsChildOn, IsSlotOfChild, IsWindowOn, IsStretchOn, LeadsTo, AreWindowsOn, span_on};

use crate::ways::{Window, step_on};
use mt_free::RowBook;
use mt_layout::{RowKind, kind_of, row_of};
use mt_path::{Path, PathStep, step_right, walk};
use mt_rows::{Rows, load_item};

/// A node below the root: the step of the node above it, whose slot names it, its number, and the last index that it covers.
#[derive(Clone, Copy, Debug, PartialEq, Eq)]
pub struct Child {
    pub above: PathStep,
    pub row: u32,
    pub last: u64,
}

/// Buries a live node that is out, and retires it with the call's number.
fn bury_row<R: Rows>(rows: &mut R, book: &mut RowBook, row: u32, number: u64)
    requires { MayBeBuried (R.sheet rows.old) book.old row number }
    ensures rows { R.sheet rows.new ≡ after_bury (R.sheet rows.old) row }
    ensures book { book.new ≡ after_retire book.old row number }
{
    rows.bury(row);
    book.retire(row, number);
}

/// The kind of the nodes above the leaves.
fn kind_above<R: Rows>(rows: &mut R) -> RowKind
    requires { IsSome (named_kind (R.sheet rows.old).tree.root) }
    ensures kind { Some result ≡ named_kind (R.sheet rows.old).tree.root }
    ensures rest { OnlyReads (R.sheet rows.old) (R.sheet rows.new) }
{
    match kind_of(rows.root()) {
        Some(kind) => kind,
        None => unreachable!(),
    }
}

/// The node that the slot of a step names, in a node of this kind. No word of it is loaded.
fn load_child<R: Rows>(rows: &mut R, kind: RowKind, above: PathStep) -> Child
    requires { IsSlotOfChild (R.sheet rows.old).tree kind above }
    ensures above { result.above ≡ above }
    ensures row { result.row ≡ row_in (span_on (R.sheet rows.old).tree.table kind above).word }
    ensures last { result.last ≡ (span_on (R.sheet rows.old).tree.table kind above).last }
    ensures rest { OnlyReads (R.sheet rows.old) (R.sheet rows.new) }
{
    let item = load_item(rows, kind, above.row, above.max, above.slot);
    let last = item.last;
    match row_of(item.word) {
        Some(row) => Child { above, row, last },
        None => unreachable!(),
    }
}

/// The step that leads to the node after a child: in the same node above, or in the next, to which the way then goes on.
fn step_above<R: Rows>(rows: &mut R, way: &mut Path, level: u32, child: &Child) -> PathStep
    requires tree { (kind : Kind) × IsTreeOf (R.sheet rows.old).tree kind }
    requires way { LeadsTo (R.sheet rows.old).tree level way.old.items child.now.above }
    requires child { IsChildOn (R.sheet rows.old).tree level child.now }
    requires more { child.now.last < greatest (R.sheet rows.old).tree.table.width }
    ensures step { result ≡ step_at (path_in (R.sheet rows.old).tree.table (R.sheet rows.old).tree.root (child.now.last + 1)) level }
    ensures way { LeadsTo (R.sheet rows.old).tree level way.new.items result }
    ensures rest { OnlyReads (R.sheet rows.old) (R.sheet rows.new) }
{
    if child.last < child.above.max {
        return PathStep {
            slot: child.above.slot + 1,
            ..child.above
        };
    }
    step_right(rows, way, level);
    step_on(way, level)
}

/// Buries the nodes of a level below the root from the one that begins at `first` to the one that ends at `last`, along one walk
/// over the nodes above them. It is not inlined: few stores need it.
#[inline(never)]
fn bury_stretch<R: Rows>(
    rows: &mut R,
    book: &mut RowBook,
    depth: u32,
    first: u64,
    last: u64,
    number: u64,
)
    requires tree { (kind : Kind) × IsTreeOf (R.sheet rows.old).tree kind }
    requires below { 0 < depth }
    requires stretch { IsStretchOn (R.sheet rows.old).tree depth first last }
    requires may { MayBeBuriedInTurn (R.sheet rows.old) book.old (numbers_between (R.sheet rows.old).tree depth first last) number }
    ensures { OnlyReads (after_burials (R.sheet rows.old) (numbers_between (R.sheet rows.old).tree depth first last)) (R.sheet rows.new)
        × (book.new ≡ after_retirals book.old (numbers_between (R.sheet rows.old).tree depth first last) number) }
{
    let mut way = walk(rows, first);
    let kind = kind_above(rows);
    let mut child = load_child(rows, kind, step_on(&way, depth - 1));
    bury_row(rows, book, child.row, number);
    while child.last < last {
        let above = step_above(rows, &mut way, depth - 1, &child);
        child = load_child(rows, kind, above);
        bury_row(rows, book, child.row, number);
    }
}

/// Buries the nodes of a window on a level (marks them dead), and retires them with the call's number. A walk is needed if
/// there are three or more.
fn bury_window<R: Rows>(rows: &mut R, book: &mut RowBook, window: &Window, depth: u32, number: u64)
    requires tree { (kind : Kind) × IsTreeOf (R.sheet rows.old).tree kind }
    requires window { IsWindowOn (R.sheet rows.old).tree depth window.now }
    requires may { MayBeBuriedInTurn (R.sheet rows.old) book.old (numbers_in (R.sheet rows.old).tree depth window.now) number }
    ensures { OnlyReads (after_burials (R.sheet rows.old) (numbers_in (R.sheet rows.old).tree depth window.now)) (R.sheet rows.new)
        × (book.new ≡ after_retirals book.old (numbers_in (R.sheet rows.old).tree depth window.now) number) }
{
    let (first, last) = (window.first, window.last);
    bury_row(rows, book, first.row, number);
    if last.max <= first.max {
        return;
    }
    let (from, to) = (first.max + 1, last.min);
    if to <= from {
        bury_row(rows, book, last.row, number);
        return;
    }
    bury_stretch(rows, book, depth, from, to - 1, number);
    bury_row(rows, book, last.row, number);
}

/// Buries the nodes of windows, from the one on this level up, and retires them with the call's number.
pub fn bury<R: Rows>(rows: &mut R, book: &mut RowBook, windows: &[Window], depth: u32, number: u64)
    requires tree { (kind : Kind) × IsTreeOf (R.sheet rows.old).tree kind }
    requires windows { AreWindowsOn (R.sheet rows.old).tree depth windows.now }
    requires may { MayBeBuriedInTurn (R.sheet rows.old) book.old (numbers_in_all (R.sheet rows.old).tree depth windows.now) number }
    ensures { OnlyReads (after_burials (R.sheet rows.old) (numbers_in_all (R.sheet rows.old).tree depth windows.now)) (R.sheet rows.new)
        × (book.new ≡ after_retirals book.old (numbers_in_all (R.sheet rows.old).tree depth windows.now) number) }
{
    let Some((window, above)) = windows.split_first() else {
        return;
    };
    bury_window(rows, book, window, depth, number);
    if above.is_empty() {
        return;
    }
    bury(rows, book, above, depth - 1, number);
}
