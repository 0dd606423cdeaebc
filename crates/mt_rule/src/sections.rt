//! The steps of a handle that reads without the lock. Each is one atomic step, and is counted.

ghost use Rattle.std.specs.Prelude.{◌≡◌, ◌≢◌, ℕ, ◌+◌, ◌<◌, ◌≤◌, None, length};
ghost use Rattle.mt_base.specs.Limits.{most_calls};
ghost use Rattle.mt_base.specs.Passes.{IsSound};
ghost use Rattle.mt_base.specs.Width.{columns, first_row, kind_width, most_rows};
ghost use Rattle.mt_layout.specs.Columns.{pivot_column, slot_column};
ghost use Rattle.mt_life.specs.Known.{HasRow};
ghost use Rattle.mt_rule.specs.Places.{column_at, IsRowAt};
ghost use Rattle.mt_rule.specs.Sections.{IsAt, here, slots_in, spans_here, opened_section, closed_section, touched, LoadedBegun};
ghost use Rattle.mt_rule.specs.Sections.{LoadedCommits, LoadedParent, LoadedPivot, LoadedRoot, LoadedSlot, MayLoadWord};
ghost use Rattle.mt_rule.specs.Tokens.{identity_of, part_of, pass_in, steps_made, tree_in, IsPassOf, Stepped};

use crate::passes::Pass;
use crate::places::RowAt;
use crate::rule::{Announced, ClosesSection, Loads, LoadsWord, OpensSection, ParentWord};
use crate::table::{BEGUN, COMMITS, MtTable, ROOT, section_index};
use atomic_table::Badge;
use mt_base::Steps;
use std::marker::Brand;
use std::mem;
use std::sync::ledger::Ledger;

impl MtTable {
    /// The place of a column of a node.
    fn column_in(&self, row: RowAt, col: u32) -> usize
        requires row { row.number < first_row + most_rows }
        requires base { IsRowAt self.now.width row }
        requires column { col < columns self.now.width }
        ensures { result ≡ column_at self.now.width row.number col }
    {
        row.base + col as usize
    }

    /// A step that loads a word.
    #[inline(always)]
    fn load_as<T: Loads, L: Ledger>(&self, pass: &mut Pass, at: usize, steps: &mut Steps<L>) -> u64
        requires pass { IsPassOf (identity_of self.now) pass.old }
        requires at { at < self.now.table.shared.table_id.words }
        requires may { MayLoadWord T.tells self.now.table.shared.key at (part_of pass.old) }
        ensures stepped { Stepped (identity_of self.now) pass.old pass.new }
        ensures told { T.tells at result (part_of pass.old) (part_of pass.new) }
        ensures counted { steps_made pass.new ≡ steps_made pass.old + 1 }
        ensures steps { steps.new ≡ steps.old + 1 }
    {
        steps.tick();
        let badge = mem::replace(&mut pass.seat, Badge::blank());
        let mut seat = badge.into_seat::<()>();
        let word = self.table.shared.load::<LoadsWord<T>>(&mut seat, at);
        pass.seat = seat.into_badge();
        word
    }

    /// How many calls have ended.
    pub fn load_commits<L: Ledger>(&self, pass: &mut Pass, steps: &mut Steps<L>) -> u64
        requires pass { IsPassOf (identity_of self.now) pass.old }
        ensures stepped { Stepped (identity_of self.now) pass.old pass.new }
        ensures told { LoadedCommits result (part_of pass.old) (part_of pass.new) }
        ensures counted { steps_made pass.new ≡ steps_made pass.old + 1 }
        ensures steps { steps.new ≡ steps.old + 1 }
    {
        self.load_as::<Brand, L>(pass, COMMITS, steps)
    }

    /// Opens the handle's section at the epoch that it loaded last. It holds no node yet.
    pub fn open_section<L: Ledger>(&self, pass: &mut Pass, epoch: u64, steps: &mut Steps<L>)
        requires pass { IsPassOf (identity_of self.now) pass.old }
        requires epoch { epoch ≡ (part_of pass.old).epoch }
        requires few { epoch ≤ most_calls }
        ensures stepped { Stepped (identity_of self.now) pass.old pass.new }
        ensures part { part_of pass.new ≡ opened_section (part_of pass.old) }
        ensures counted { steps_made pass.new ≡ steps_made pass.old + 1 }
        ensures steps { steps.new ≡ steps.old + 1 }
    {
        steps.tick();
        let badge = mem::replace(&mut pass.seat, Badge::blank());
        let mut seat = badge.into_seat::<()>();
        self.table
            .shared
            .store::<OpensSection>(&mut seat, section_index(pass.number), 2 * epoch + 1);
        pass.seat = seat.into_badge();
    }

    /// The root word. Where it is not 0, the section is then at the root node.
    pub fn load_root<L: Ledger>(&self, pass: &mut Pass, steps: &mut Steps<L>) -> u64
        requires pass { IsPassOf (identity_of self.now) pass.old }
        requires open { (part_of pass.old).standing ≢ None }
        ensures stepped { Stepped (identity_of self.now) pass.old pass.new }
        ensures told { LoadedRoot result (part_of pass.old) (part_of pass.new) }
        ensures counted { steps_made pass.new ≡ steps_made pass.old + 1 }
        ensures steps { steps.new ≡ steps.old + 1 }
    {
        self.load_as::<Brand, L>(pass, ROOT, steps)
    }

    /// A pivot column of the node that the section is at.
    pub fn load_pivot<L: Ledger>(
        &self,
        pass: &mut Pass,
        row: RowAt,
        col: u32,
        steps: &mut Steps<L>,
    ) -> u64
        requires pass { IsPassOf (identity_of self.now) pass.old }
        requires at { IsAt (part_of pass.old) }
        requires row { row.number ≡ (here (part_of pass.old)).row }
        requires base { IsRowAt (kind_width (part_of pass.old).shape.kind) row }
        requires has { HasRow (part_of pass.old).shape.rows row.number }
        requires pivot { (i : ℕ) × (col ≡ pivot_column i) × (i + 1 < slots_in (part_of pass.old) (here (part_of pass.old))) }
        ensures stepped { Stepped (identity_of self.now) pass.old pass.new }
        ensures told { LoadedPivot (column_at (kind_width (part_of pass.old).shape.kind) row.number col) result (part_of pass.old) (part_of pass.new) }
        ensures counted { steps_made pass.new ≡ steps_made pass.old + 1 }
        ensures steps { steps.new ≡ steps.old + 1 }
    {
        let at = self.column_in(row, col);
        self.load_as::<Brand, L>(pass, at, steps)
    }

    /// Loads a column of a node, only so that its cache line is at hand when one beside it is loaded. Nothing is known of the
    /// word.
    #[inline(always)]
    pub fn touch<L: Ledger>(&self, pass: &mut Pass, row: RowAt, col: u32, steps: &mut Steps<L>)
        requires pass { IsPassOf (identity_of self.now) pass.old }
        requires base { IsRowAt (kind_width (part_of pass.old).shape.kind) row }
        requires row { HasRow (part_of pass.old).shape.rows row.number }
        requires column { col < columns (kind_width (part_of pass.old).shape.kind) }
        ensures stepped { Stepped (identity_of self.now) pass.old pass.new }
        ensures part { part_of pass.new ≡ touched (part_of pass.old) }
        ensures counted { steps_made pass.new ≡ steps_made pass.old + 1 }
        ensures steps { steps.new ≡ steps.old + 1 }
    {
        let at = self.column_in(row, col);
        self.load_as::<Brand, L>(pass, at, steps);
    }

    /// The slot column of an item of the node that the section is at. In an inner node this reaches the child.
    pub fn load_slot<L: Ledger>(
        &self,
        pass: &mut Pass,
        row: RowAt,
        col: u32,
        steps: &mut Steps<L>,
    ) -> u64
        requires pass { IsPassOf (identity_of self.now) pass.old }
        requires at { IsAt (part_of pass.old) }
        requires row { row.number ≡ (here (part_of pass.old)).row }
        requires base { IsRowAt (kind_width (part_of pass.old).shape.kind) row }
        requires has { HasRow (part_of pass.old).shape.rows row.number }
        requires width { (here (part_of pass.old)).width ≡ kind_width (part_of pass.old).shape.kind }
        requires slot { (i : ℕ) × (col ≡ slot_column (slots_in (part_of pass.old) (here (part_of pass.old))) i)
            × (i < length (spans_here (part_of pass.old) (here (part_of pass.old)))) }
        ensures stepped { Stepped (identity_of self.now) pass.old pass.new }
        ensures told { LoadedSlot (column_at (kind_width (part_of pass.old).shape.kind) row.number col) result (part_of pass.old) (part_of pass.new) }
        ensures counted { steps_made pass.new ≡ steps_made pass.old + 1 }
        ensures steps { steps.new ≡ steps.old + 1 }
    {
        let at = self.column_in(row, col);
        self.load_as::<Brand, L>(pass, at, steps)
    }

    /// The parent column of a node, which shows the dead mark.
    pub fn load_parent<L: Ledger>(&self, pass: &mut Pass, row: RowAt, steps: &mut Steps<L>) -> u64
        requires pass { IsPassOf (identity_of self.now) pass.old }
        requires base { IsRowAt (kind_width (part_of pass.old).shape.kind) row }
        requires row { HasRow (part_of pass.old).shape.rows row.number }
        ensures stepped { Stepped (identity_of self.now) pass.old pass.new }
        ensures told { LoadedParent row.number
            (column_at (kind_width (part_of pass.old).shape.kind) row.number 0) result (part_of pass.old) (part_of pass.new) }
        ensures counted { steps_made pass.new ≡ steps_made pass.old + 1 }
        ensures steps { steps.new ≡ steps.old + 1 }
    {
        self.load_parent_of::<Brand, L>(pass, row, steps)
    }

    fn load_parent_of<M: Announced, L: Ledger>(
        &self,
        pass: &mut Pass,
        row: RowAt,
        steps: &mut Steps<L>,
    ) -> u64
        requires pass { IsPassOf (identity_of self.now) pass.old }
        requires base { IsRowAt (kind_width (part_of pass.old).shape.kind) row }
        requires row { HasRow (part_of pass.old).shape.rows row.number }
        requires announced { M.number ≡ row.number }
        ensures stepped { Stepped (identity_of self.now) pass.old pass.new }
        ensures told { LoadedParent row.number
            (column_at (kind_width (part_of pass.old).shape.kind) row.number 0) result (part_of pass.old) (part_of pass.new) }
        ensures counted { steps_made pass.new ≡ steps_made pass.old + 1 }
        ensures steps { steps.new ≡ steps.old + 1 }
    {
        let at = self.column_in(row, 0);
        self.load_as::<ParentWord<M>, L>(pass, at, steps)
    }

    /// How many calls have begun.
    pub fn load_begun<L: Ledger>(&self, pass: &mut Pass, steps: &mut Steps<L>) -> u64
        requires pass { IsPassOf (identity_of self.now) pass.old }
        ensures stepped { Stepped (identity_of self.now) pass.old pass.new }
        ensures told { LoadedBegun result (part_of pass.old) (part_of pass.new) }
        ensures sound { IsSound (tree_in (identity_of self.now)) (pass_in pass.new) }
        ensures counted { steps_made pass.new ≡ steps_made pass.old + 1 }
        ensures steps { steps.new ≡ steps.old + 1 }
    {
        self.load_as::<Brand, L>(pass, BEGUN, steps)
    }

    /// Closes the handle's section. It then holds no node.
    pub fn close_section<L: Ledger>(&self, pass: &mut Pass, steps: &mut Steps<L>)
        requires pass { IsPassOf (identity_of self.now) pass.old }
        ensures stepped { Stepped (identity_of self.now) pass.old pass.new }
        ensures part { part_of pass.new ≡ closed_section (part_of pass.old) }
        ensures counted { steps_made pass.new ≡ steps_made pass.old + 1 }
        ensures steps { steps.new ≡ steps.old + 1 }
    {
        steps.tick();
        let badge = mem::replace(&mut pass.seat, Badge::blank());
        let mut seat = badge.into_seat::<()>();
        self.table
            .shared
            .store::<ClosesSection>(&mut seat, section_index(pass.number), 0);
        pass.seat = seat.into_badge();
    }
}
