//! A new tree, and its passes (handles).

ghost use Rattle.std.specs.Prelude.{◌≡◌, ◌↔◌, ◌+◌, ◌/◌, ◌≤◌, All, Some, [], length, map, IfOk};
ghost use Rattle.mt_rows.specs.Memory.{sheet_in};
ghost use Rattle.mt_rows.specs.Publish.{map_by};
ghost use Rattle.mt_rows.specs.Sheet.{OnlyReads};
ghost use Rattle.mt_engine.specs.Engine.{IsIdle};
ghost use Rattle.mt_engine.specs.Heights.{HasHeight};
ghost use Rattle.mt_rule.specs.Places.{AreOpening};
ghost use Rattle.mt_rule.specs.Tokens.{identity_of, pass_in, IsPassOf};
ghost use Rattle.mt_rule.specs.Turns.{served, IsSeatedAt};
ghost use Rattle.mt_tree.specs.declared.shapes.Field.{Field};
ghost use Rattle.mt_tree.specs.Shapes.{first_bad};
ghost use Rattle.mt_tree.specs.Trees.{IsNew};
ghost use Rattle.mt_tree.specs.Zeros.{Serve};

use crate::behind::{Tools, WriterState};
use crate::shapes::{MakeError, Shape};
use crate::trees::Tree;
use crate::zeros::Zeros;
use mt_base::{Kind, NoMemory};
use mt_engine::Engine;
use mt_free::RowBook;
use mt_rows::PlainRows;
use mt_rule::{MtTable, Pass, Turn, opening_words};
use std::alloc::Global;
use std::snapshot::Snapshot;

impl Tree {
    /// An empty tree, and its handles, numbered from 0. A shape that is out of range is refused before any memory is taken, by
    /// its first such field.
    ///
    /// # Errors
    ///
    /// `BadShape` with the first field that is out of range; `NoMemory` where memory ran out.
    pub fn make(alloc: Global, shape: Shape) -> Result<(Tree, Vec<Pass>), MakeError>
        ensures bad { (field : Field) → (result ≡ Err (MakeError.BadShape field)) ↔ (first_bad shape ≡ Some field) }
        ensures new { IfOk result (λ r. IsNew shape [] r.0 r.1.items) }
    {
        if let Some(field) = shape.first_bad() {
            return Err(MakeError::BadShape { field });
        }
        match Tree::empty(alloc, shape) {
            Ok(made) => Ok(made),
            Err(_) => Err(MakeError::NoMemory),
        }
    }

    /// As `make`, of a shape in range.
    fn empty(alloc: Global, shape: Shape) -> Result<(Tree, Vec<Pass>), NoMemory>
        requires { first_bad shape ≡ None }
        ensures { IfOk result (λ r. IsNew shape [] r.0 r.1.items) }
    {
        let rows = shape.new_rows(alloc)?;
        let book = RowBook::new(alloc, shape.rows)?;
        Tree::open(alloc, shape, rows, book)
    }

    /// As `make`, with zeros at hand that are words enough for this tree: none are written for it alone.
    ///
    /// # Errors
    ///
    /// `BadShape` with the first field that is out of range; `NoMemory` where memory ran out.
    pub fn make_over(
        alloc: Global,
        shape: Shape,
        zeros: &Zeros,
    ) -> Result<(Tree, Vec<Pass>), MakeError>
        requires zeros { Serve zeros.now.words.items shape.kind shape.rows }
        ensures bad { (field : Field) → (result ≡ Err (MakeError.BadShape field)) ↔ (first_bad shape ≡ Some field) }
        ensures new { IfOk result (λ r. IsNew shape [] r.0 r.1.items) }
    {
        if let Some(field) = shape.first_bad() {
            return Err(MakeError::BadShape { field });
        }
        match Tree::empty_over(alloc, shape, zeros) {
            Ok(made) => Ok(made),
            Err(_) => Err(MakeError::NoMemory),
        }
    }

    /// As `make_over`, of a shape in range.
    fn empty_over(alloc: Global, shape: Shape, zeros: &Zeros) -> Result<(Tree, Vec<Pass>), NoMemory>
        requires shape { first_bad shape ≡ None }
        requires zeros { Serve zeros.now.words.items shape.kind shape.rows }
        ensures { IfOk result (λ r. IsNew shape [] r.0 r.1.items) }
    {
        let rows = shape.new_rows(alloc)?;
        let book = RowBook::new(alloc, shape.rows)?;
        let opening = Snapshot::of(&rows);
        let (height, _rows, book) = measured(rows, book, shape.kind);
        let words = zeros.words_for(shape.kind, shape.rows);
        Tree::open_over(alloc, shape, opening, words, book, height)
    }

    /// A tree that opens with these nodes, on which no call was begun.
    pub(crate) fn open(
        alloc: Global,
        shape: Shape,
        rows: PlainRows,
        book: RowBook,
    ) -> Result<(Tree, Vec<Pass>), NoMemory>
        requires shape { first_bad shape ≡ None }
        requires idle { IsIdle shape.kind (sheet_in rows) book }
        requires first { (sheet_in rows).ended ≡ 0 }
        requires rows { (sheet_in rows).tree.rows ≡ shape.rows }
        requires few { (sheet_in rows).opened ≤ length (map_by (sheet_in rows).tree) / 2 + 2 }
        ensures { IfOk result (λ r. IsNew shape (map_by (sheet_in rows).tree) r.0 r.1.items) }
    {
        let opening = Snapshot::of(&rows);
        let (height, rows, book) = measured(rows, book, shape.kind);
        let words = opening_words(rows);
        Tree::open_over(alloc, shape, opening, &words, book, height)
    }

    /// As `open`, over the words of a table that opens with these nodes, whose tree has this height.
    fn open_over(
        alloc: Global,
        shape: Shape,
        opening: Snapshot<PlainRows>,
        words: &[u64],
        book: RowBook,
        height: u64,
    ) -> Result<(Tree, Vec<Pass>), NoMemory>
        requires shape { first_bad shape ≡ None }
        requires idle { IsIdle shape.kind (sheet_in opening.value) book }
        requires first { (sheet_in opening.value).ended ≡ 0 }
        requires rows { (sheet_in opening.value).tree.rows ≡ shape.rows }
        requires words { AreOpening (sheet_in opening.value).tree words.now }
        requires height { HasHeight (sheet_in opening.value).tree height }
        ensures { IfOk result (λ r. IsNew shape (map_by (sheet_in opening.value).tree) r.0 r.1.items) }
    {
        let (table, pen, passes) = MtTable::make_over(
            alloc,
            shape.kind,
            opening,
            shape.rows,
            words,
            shape.passes,
            shape.calls,
        )?;
        let tools = Some(Tools { pen, book, height });
        let (turn, passes) = serve(
            alloc,
            &table,
            WriterState {
                tools,
                ranges: None,
            },
            passes,
        )?;
        Ok((
            Tree {
                apart: [0; 16],
                table,
                turn,
                shape,
            },
            passes,
        ))
    }
}

/// How many levels the tree of these nodes has. The nodes and their book are as they were.
fn measured(rows: PlainRows, book: RowBook, kind: Kind) -> (u64, PlainRows, RowBook)
    requires { IsIdle kind (sheet_in rows) book }
    ensures height { HasHeight (sheet_in rows).tree result.0 }
    ensures rows { OnlyReads (sheet_in rows) (sheet_in result.1) }
    ensures book { result.2 ≡ book }
{
    let engine = Engine::new(rows, book, kind);
    let height = engine.height();
    let (rows, book) = engine.parts();
    (height, rows, book)
}

/// The turn (lock) of a table's writers, at which each handle has a seat.
fn serve(
    alloc: Global,
    table: &MtTable,
    state: WriterState,
    passes: Vec<Pass>,
) -> Result<(Turn<WriterState>, Vec<Pass>), NoMemory>
    requires state { state.table ≡ identity_of table.now }
    requires passes { All (IsPassOf (identity_of table.now)) passes.items }
    ensures serves { IfOk result (λ r. served r.0.table.shared.key ≡ identity_of table.now) }
    ensures seated { IfOk result (λ r. All (IsSeatedAt r.0.table.shared.table_id r.0.table.shared.key) r.1.items) }
    ensures of { IfOk result (λ r. All (IsPassOf (identity_of table.now)) r.1.items) }
    ensures passes { IfOk result (λ r. map pass_in r.1.items ≡ map pass_in passes.items) }
{
    let mut passes = passes;
    let turn = Turn::make(alloc, table, state, passes.as_mut_slice())?;
    Ok((turn, passes))
}
