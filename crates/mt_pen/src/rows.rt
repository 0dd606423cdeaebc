//! The writer's nodes.

ghost use Rattle.std.specs.Prelude.{◌≡◌};
ghost use Rattle.mt_base.specs.Width.{kind_width};
ghost use Rattle.mt_rule.specs.Tokens.{identity_of, pen_in, IsPenOf, IsJoined, joined_part, joined_turn};
ghost use Rattle.mt_pen.specs.Works.{IsWorked};

use crate::scans::scan_sections;
use crate::writer::Writer;
use mt_base::{Call, Reply, Width};
use mt_rows::{Place, Rows, Scan};
use mt_rule::{MtTable, OfWidth, Pass, Pen};
use std::marker::PhantomData;

/// The nodes of a shared tree, for the calls of the pass (handle) that is joined with its pen.
#[derive(Drop)]
pub struct PenRows<'a, W: Writer, K: OfWidth> {
    table: &'a MtTable,
    pen: Pen,
    /// What the last scan returned, and how many scans there were since a call was begun.
    scan: Scan,
    scans: u64,
    writer: PhantomData<W>,
    width: PhantomData<K>,
    ghost at: { identity_of table.now ≡ W.table },
    ghost of: { IsPenOf W.table pen },
    ghost joined: { IsJoined pen },
    ghost turn: { joined_turn pen ≡ W.turn },
    ghost counted: { (joined_part pen).steps ≡ W.steps },
    ghost dealt: { (pen_in pen).dealt ≡ W.table.shape.passes },
    ghost worked: { IsWorked (pen_in pen) scan scans },
    ghost wide: { K.wide ≡ kind_width W.table.shape.kind },
}

impl<'a, W: Writer, K: OfWidth> PenRows<'a, W, K> {
    ghost use Rattle.std.specs.Prelude.{◌≡◌, ◌≤◌, ℕ, false, []};
    ghost use Rattle.mt_base.specs.Passes.{IsSound};
    ghost use Rattle.mt_base.specs.Width.{kind_width};
    ghost use Rattle.mt_life.specs.declared.views.Extent.{Extent};
    ghost use Rattle.mt_rule.specs.Rule as rule;
    ghost use Rattle.mt_rule.specs.Scans.{none_open, IsScanOf};
    ghost use Rattle.mt_rule.specs.Tokens.{identity_of, tree_in, pass_in, turn_seat, IsPassOf, pen_in, steps_made, IsPenOf};
    ghost use Rattle.mt_rule.specs.Tokens.{IsAlone, IsJoined, joined_in, joined_part, joined_turn, WasShown};
    ghost use Rattle.mt_pen.specs.Sheets.{sheet_told, shown_all, unscanned, HasSeenAll};
    ghost use Rattle.mt_pen.specs.Works.{IsWorked, OpensSmall};

    /// Joins a handle with the pen of its table. No call may be in flight.
    pub fn new(table: &'a MtTable, mut pen: Pen, pass: Pass) -> PenRows<'a, W, K>
        requires table { identity_of table.now ≡ W.table }
        requires turn { turn_seat pass ≡ W.turn }
        requires counted { steps_made pass ≡ W.steps }
        requires pen { IsPenOf W.table pen }
        requires alone { IsAlone pen }
        requires idle { (pen_in pen).in_flight ≡ false }
        requires pass { IsPassOf W.table pass }
        requires opens { OpensSmall W.table.shape }
        requires wide { K.wide ≡ kind_width W.table.shape.kind }
        requires dealt { (pen_in pen).dealt ≡ W.table.shape.passes }
        ensures sheet { ⟦<PenRows<'a, W, K> as Rows>⟧.sheet result ≡ sheet_told W.table (pen_in pen) (pass_in pass) }
        ensures shown { WasShown (tree_in W.table) (pen_in pen) (pass_in pass) (shown_all (pen_in pen) (pass_in pass)) }
    {
        table.join_pen(&mut pen, pass);
        PenRows::joined(table, pen)
    }

    /// The nodes of a pen with which the handle is joined. They are made after the loads that join it, and so are not moved
    /// across these.
    fn joined(table: &'a MtTable, pen: Pen) -> PenRows<'a, W, K>
        requires table { identity_of table.now ≡ W.table }
        requires of { IsPenOf W.table pen }
        requires joined { IsJoined pen }
        requires turn { joined_turn pen ≡ W.turn }
        requires counted { (joined_part pen).steps ≡ W.steps }
        requires dealt { (pen_in pen).dealt ≡ W.table.shape.passes }
        requires worked { IsWorked (pen_in pen) none_open 0 }
        requires wide { K.wide ≡ kind_width W.table.shape.kind }
        ensures { ⟦<PenRows<'a, W, K> as Rows>⟧.sheet result ≡ sheet_told W.table (pen_in pen) (joined_in pen) }
    {
        PenRows {
            table,
            pen,
            scan: Scan {
                least: u64::MAX,
                by: None,
            },
            scans: 0,
            writer: PhantomData,
            width: PhantomData,
        }
    }

    /// Separates the handle from the pen again. No call may be in flight.
    pub fn end(self) -> (Pen, Pass)
        requires idle { (⟦<PenRows<'a, W, K> as Rows>⟧.sheet self).in_flight ≡ false }
        ensures pen { IsPenOf W.table result.0 }
        ensures alone { IsAlone result.0 }
        ensures pass { IsPassOf W.table result.1 }
        ensures turn { turn_seat result.1 ≡ W.turn }
        ensures counted { steps_made result.1 ≡ W.steps }
        ensures sheet { sheet_told W.table (pen_in result.0) (pass_in result.1) ≡ unscanned (⟦<PenRows<'a, W, K> as Rows>⟧.sheet self.entry) }
        ensures seen { HasSeenAll (pen_in result.0) (pass_in result.1) }
        ensures sound { IsSound (tree_in W.table) (pass_in result.1) }
        ensures dealt { (pen_in result.0).dealt ≡ W.table.shape.passes }
        ensures whole { (extents : ℕ → Extent) × rule.IsSoundPen extents (pen_in result.0) }

        // The words of the last scan were loaded last; where none was made no section word was loaded.
        ensures scanned { 1 ≤ (⟦<PenRows<'a, W, K> as Rows>⟧.sheet self.entry).scans
            → IsScanOf (pen_in result.0).sections W.table.shape.passes (⟦<PenRows<'a, W, K> as Rows>⟧.sheet self.entry).scan }
        ensures unscanned { (⟦<PenRows<'a, W, K> as Rows>⟧.sheet self.entry).scans ≡ 0 → (pen_in result.0).sections ≡ [] }
    {
        let PenRows { table, mut pen, .. } = self;
        let pass = table.split_pen(&mut pen);
        (pen, pass)
    }
}

impl<'a, W: Writer, K: OfWidth> Rows for PenRows<'a, W, K> {
    ghost use Rattle.std.specs.Prelude.{◌≡◌, ◌≤◌, min};
    ghost use Rattle.mt_rows.specs.Sheet.{IsScan, scanned};
    ghost use Rattle.mt_rule.specs.Tokens.{pen_in, joined_in, joined_part};
    ghost use Rattle.mt_pen.specs.Scans.{HasScanned};
    ghost use Rattle.mt_pen.specs.Sheets.{sheet_worked};
    ghost use Rattle.mt_pen.specs.Works.{worked_whole};

    ghost sheet = { λ r. sheet_worked W.table (pen_in r.pen) (joined_in r.pen) r.scan r.scans };

    ghost whole = { λ r. worked_whole W.table (pen_in r.pen) (joined_in r.pen) r.scan r.scans r.worked };

    fn size(&self) -> u64 {
        self.table.rows()
    }

    fn width(&self) -> Width {
        K::width()
    }

    fn load(&mut self, row: u32, col: u32) -> u64 {
        self.table
            .load_word::<K>(&mut self.pen, Place::Slot { row, col })
    }

    fn root(&mut self) -> u64 {
        self.table.load_word::<K>(&mut self.pen, Place::Root)
    }

    fn begin(&mut self) -> u64 {
        self.scans = 0;
        self.table.store_begun(&mut self.pen)
    }

    fn scan(&mut self) -> Scan
        // As of all rows.
        ensures answer { IsScan (⟦<PenRows<'a, W, K> as Rows>⟧.sheet self.old).shared (⟦<PenRows<'a, W, K> as Rows>⟧.sheet self.old).told result }
        ensures rest { ⟦<PenRows<'a, W, K> as Rows>⟧.sheet self.new
            ≡ scanned (⟦<PenRows<'a, W, K> as Rows>⟧.sheet self.old) result (⟦<PenRows<'a, W, K> as Rows>⟧.sheet self.new).cleared }
        ensures kept { (⟦<PenRows<'a, W, K> as Rows>⟧.sheet self.old).cleared ≤ (⟦<PenRows<'a, W, K> as Rows>⟧.sheet self.new).cleared }
        ensures cleared { min result.least (⟦<PenRows<'a, W, K> as Rows>⟧.sheet self.old).ended ≤ (⟦<PenRows<'a, W, K> as Rows>⟧.sheet self.new).cleared }

        // Every section word was loaded.
        ensures all { HasScanned (pen_in self.old.pen) (joined_part self.old.pen) (pen_in self.new.pen) result W.table.shape.passes }
    {
        self.scan = scan_sections(self.table, &mut self.pen);
        self.scans = self.scans.saturating_add(1);
        self.scan
    }

    fn draft(&mut self, row: u32, col: u32, word: u64) {
        self.table.draft::<K>(&mut self.pen, row, col, word);
    }

    fn draft_row(&mut self, row: u32, words: &[u64]) {
        self.draft(row, 0, words[0]);
        for col in 1..words.len() {
            self.draft(row, col as u32, words[col]);
        }
    }

    fn bury(&mut self, row: u32) {
        self.table.bury::<K>(&mut self.pen, row);
    }

    fn tend(&mut self, row: u32, col: u32, word: u64) {
        self.table.tend::<K>(&mut self.pen, row, col, word);
    }

    fn publish(&mut self, place: Place, word: u64, call: &Call, reply: &Reply) {
        self.table
            .publish::<K>(&mut self.pen, place, word, call, reply);
    }

    fn finish(&mut self, call: &Call, reply: &Reply) {
        self.table.store_commits(&mut self.pen, call, reply);
    }
}
