//! The table of a tree.

ghost use Rattle.std.specs.Prelude.{◌≡◌, ◌+◌, ◌*◌, ◌<◌, ◌≤◌, IfOk};
ghost use Rattle.mt_base.specs.Width.{kind_width, columns, first_row, most_rows};
ghost use Rattle.mt_rows.specs.Memory.{sheet_in};
ghost use Rattle.mt_base.specs.Limits.{most_calls, most_passes};
ghost use Rattle.mt_rule.specs.Places.{commits_at, begun_at, root_at, section_at, column_at, table_size};
ghost use Rattle.mt_rule.specs.Places.{AreOpening};
ghost use Rattle.mt_rule.specs.Seats.{shape_told};

use crate::passes::Pass;
use crate::pens::Pen;
use crate::rule::{Deals, Ruled};
use crate::views::{TableStart, View};
use crate::wide::OfWidth;
use atomic_table::{Badge, Table};
use mt_base::{Kind, NoMemory, Width, cols, width_of};
use mt_rows::{PlainRows, Rows};
use std::alloc::Global;
use std::snapshot::Snapshot;

/// The places of the words that are of no node.
pub(crate) const COMMITS: usize = 0;

pub(crate) const BEGUN: usize = 1;

pub(crate) const ROOT: usize = 2;

/// How many handles have a pair of cache lines each. Those after them use the lines that these leave free.
const PAIRED_PASSES: usize = 31;

/// The place of a handle's section word. Each has a cache line of its own. No two of the first handles share a pair of lines,
/// because a processor may fetch lines by pairs.
pub(crate) fn section_index(pass: u32) -> usize
    requires { pass < most_passes }
    ensures { result ≡ section_at pass }
{
    let pass = pass as usize;
    if pass < PAIRED_PASSES {
        16 * pass + 16
    } else {
        16 * (pass - PAIRED_PASSES) + 8
    }
}

/// The table of a tree: how many of its calls have begun and ended, its root word, a section word of each handle, and its
/// nodes. Its rule is that the tree has one history, whose map the words represent.
#[derive(Drop)]
pub struct MtTable {
    pub(crate) table: Table<(), View, TableStart, Ruled, Global>,
    width: Width,
    passes: u32,
    rows: u64,
    ghost many: { passes ≡ table.shared.key.passes },
    ghost sized: { rows ≡ (shape_told table.shared.key).rows },
    ghost wide: { width ≡ kind_width table.shared.key.kind },
    ghost words: { table.shared.table_id.words ≡ table_size (kind_width table.shared.key.kind) (shape_told table.shared.key).rows },
    ghost few_rows: { (shape_told table.shared.key).rows ≤ most_rows },
    ghost few_passes: { table.shared.key.passes ≤ most_passes },
    ghost few_calls: { table.shared.key.calls ≤ most_calls },
}

impl MtTable {
    ghost use Rattle.std.specs.Prelude.{◌≡◌, ◌+◌, ◌<◌, ◌≤◌, IfOk, All, map, []};
    ghost use Rattle.std.specs.List.{range_with_len};
    ghost use Rattle.mt_base.specs.Passes.{new_pass};
    ghost use Rattle.mt_base.specs.Width.{kind_width};
    ghost use Rattle.mt_rows.specs.Memory.{sheet_in};
    ghost use Rattle.mt_rule.specs.Seats.{new_pen};
    ghost use Rattle.mt_rule.specs.Tokens.{identity_of, MayOpen, shape_opened, IsPassOf, pass_in, pen_in, IsPenOf, IsAlone};

    /// The place of a column of a node.
    pub(crate) fn column_index<K: OfWidth>(&self, row: u32, col: u32) -> usize
        requires wide { K.wide ≡ kind_width (identity_of self.now).shape.kind }
        requires row { row < first_row + most_rows }
        requires column { col < columns self.now.width }
        ensures { result ≡ column_at self.now.width row col }
    {
        cols(K::width()) as usize * row as usize + col as usize
    }

    /// How many handles the tree has.
    pub fn passes(&self) -> u32
        ensures { result ≡ (identity_of self.now).shape.passes }
    {
        self.passes
    }

    /// How many nodes it has.
    pub fn rows(&self) -> u64
        ensures { result ≡ (identity_of self.now).shape.rows }
    {
        self.rows
    }

    /// How wide its words are.
    pub fn width(&self) -> Width
        ensures { result ≡ kind_width (identity_of self.now).shape.kind }
    {
        self.width
    }

    /// A table of the words of these nodes, for a tree that opens with them; its pen, and its handles, numbered from 0. Nodes
    /// that are not reached are new. The memory of the nodes is given back.
    ///
    /// # Errors
    ///
    /// `NoMemory` where memory ran out.
    pub fn make(
        alloc: Global,
        kind: Kind,
        rows: PlainRows,
        passes: u32,
        calls: u64,
    ) -> Result<(MtTable, Pen, Vec<Pass>), NoMemory>
        requires { MayOpen kind (sheet_in rows) passes calls }
        ensures shape { IfOk result (λ r. (identity_of r.0).shape ≡ shape_opened kind (sheet_in rows) passes calls) }
        ensures pen { IfOk result (λ r. IsPenOf (identity_of r.0) r.1
            × IsAlone r.1 × (pen_in r.1 ≡ record (new_pen (identity_of r.0).shape (sheet_in rows).tree) { dealt = passes })) }
        ensures of { IfOk result (λ r. All (IsPassOf (identity_of r.0)) r.2.items) }
        ensures passes { IfOk result (λ r. map pass_in r.2.items ≡ map new_pass (range_with_len 0 passes)) }
    {
        let opening = Snapshot::of(&rows);
        let size = rows.size();
        let words = opening_words(rows);
        MtTable::make_over(alloc, kind, opening, size, &words, passes, calls)
    }

    /// A table over the words of such a table, which stay: others may be made over them too.
    ///
    /// # Errors
    ///
    /// `NoMemory` where memory ran out.
    pub fn make_over(
        alloc: Global,
        kind: Kind,
        opening: Snapshot<PlainRows>,
        rows: u64,
        words: &[u64],
        passes: u32,
        calls: u64,
    ) -> Result<(MtTable, Pen, Vec<Pass>), NoMemory>
        requires may { MayOpen kind (sheet_in opening.value) passes calls }
        requires rows { rows ≡ (sheet_in opening.value).tree.rows }
        requires words { AreOpening (sheet_in opening.value).tree words.now }
        ensures shape { IfOk result (λ r. (identity_of r.0).shape ≡ shape_opened kind (sheet_in opening.value) passes calls) }
        ensures pen { IfOk result (λ r. IsPenOf (identity_of r.0) r.1
            × IsAlone r.1 × (pen_in r.1 ≡ record (new_pen (identity_of r.0).shape (sheet_in opening.value).tree) { dealt = passes })) }
        ensures of { IfOk result (λ r. All (IsPassOf (identity_of r.0)) r.2.items) }
        ensures passes { IfOk result (λ r. map pass_in r.2.items ≡ map new_pass (range_with_len 0 passes)) }
    {
        let mut dealt = Vec::with_capacity(alloc, passes as usize)?;
        let told = TableStart {
            kind,
            passes,
            calls,
            rows: opening,
        };
        let (table, mut pen) = MtTable::with_pen(alloc, &told, rows, words)?;
        for number in 0..passes {
            dealt.push_reserved(table.deal(&mut pen, number));
        }
        Ok((table, pen, dealt))
    }

    /// A table of these words, and its pen. No handle is dealt yet.
    fn with_pen(
        alloc: Global,
        told: &TableStart,
        rows: u64,
        words: &[u64],
    ) -> Result<(MtTable, Pen), NoMemory>
        requires may { MayOpen told.now.kind (sheet_in told.now.rows.value) told.now.passes told.now.calls }
        requires rows { rows ≡ (sheet_in told.now.rows.value).tree.rows }
        requires words { AreOpening (sheet_in told.now.rows.value).tree words.now }
        ensures shape { IfOk result
            (λ r. (identity_of r.0).shape ≡ shape_opened told.now.kind (sheet_in told.now.rows.value) told.now.passes told.now.calls) }
        ensures pen { IfOk result (λ r. IsPenOf (identity_of r.0) r.1
            × IsAlone r.1 × (pen_in r.1 ≡ new_pen (identity_of r.0).shape (sheet_in told.now.rows.value).tree)) }
    {
        let (table, seat) = Table::of_words(alloc, words, told)?;
        let table = MtTable {
            table,
            width: width_of(told.kind),
            passes: told.passes,
            rows,
        };
        Ok((table, Pen::of_seat(seat)))
    }

    /// Deals the next handle.
    fn deal(&self, pen: &mut Pen, number: u32) -> Pass
        requires pen { IsPenOf (identity_of self.now) pen.old }
        requires alone { IsAlone pen.old }
        requires number { number ≡ (pen_in pen.old).dealt }
        requires few { number < (pen_in pen.old).shape.passes }
        requires idle { (pen_in pen.old).history ≡ [] }
        ensures of { IsPenOf (identity_of self.now) pen.new }
        ensures alone { IsAlone pen.new }
        ensures pen { pen_in pen.new ≡ record (pen_in pen.old) { dealt = number + 1 } }
        ensures pass { IsPassOf (identity_of self.now) result }
        ensures new { pass_in result ≡ new_pass number }
    {
        let seat = self.table.shared.split_seat::<Deals>(&mut pen.seat);
        Pass {
            number,
            seat: seat.into_badge(),
            turn: Badge::blank(),
        }
    }
}

/// The words of a table that opens with these nodes, which are written down once, in the memory of the nodes.
pub fn opening_words(mut rows: PlainRows) -> Vec<u64>
    ensures { AreOpening (sheet_in rows).tree result.items }
{
    let root = rows.root();
    let mut words = rows.into_words();
    words[ROOT] = root;
    words
}
