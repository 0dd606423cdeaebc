//! The reads of a tree, without its lock.

ghost use Rattle.std.specs.Prelude.{◌≡◌, ℕ, ◌+◌, ◌≤◌, Option, option_map};
ghost use Rattle.mt_base.specs.declared.calls.Query.TheVariants.{Load, Find, Next, Prev, Rfind};
ghost use Rattle.mt_base.specs.declared.ranges.Range.{Range};
ghost use Rattle.mt_base.specs.Passes as known;
ghost use Rattle.mt_read.specs.Windows.{HasRead};
ghost use Rattle.mt_rule.specs.Tokens.{pass_in, IsCounted};
ghost use Rattle.mt_tree.specs.Asks.{HasSought};
ghost use Rattle.mt_tree.specs.Trees.{opened, IsPassOf, Takes};

use crate::trees::Tree;
use mt_base::{Range, Read, Steps};
use mt_read::{Moved, Way};
use mt_rule::Pass;
use std::sync::ledger::Ledger;

impl Tree {
    /// The range that an index lies in, true after some number of calls from `lo` to `hi`. There is none if the index lies in a
    /// hole. The handle has opened a section at `lo` and closed it.
    pub fn load_range<L: Ledger>(
        &self,
        pass: &mut Pass,
        index: u64,
        steps: &mut Steps<L>,
    ) -> Read<Option<Range>>
        requires { IsPassOf self.now pass.old }
        ensures of { IsPassOf self.now pass.new }
        ensures read { (k : ℕ) × known.Read (opened self.now) (pass_in pass.old) result.lo result.hi k (Load index) result.value (pass_in pass.new) }
        ensures section { HasRead result.lo result.hi (pass_in pass.old) (pass_in pass.new) }
        ensures counted { IsCounted pass.old pass.new steps.old steps.new }
        ensures takes { Takes 170 pass.old pass.new }
        ensures steps { steps.new ≤ steps.old + 170 }
    {
        mt_read::load_range(&self.table, pass, index, steps)
    }

    /// The entry that an index holds. There is none if the index lies in a hole.
    pub fn load<L: Ledger>(
        &self,
        pass: &mut Pass,
        index: u64,
        steps: &mut Steps<L>,
    ) -> Read<Option<u64>>
        requires { IsPassOf self.now pass.old }
        ensures of { IsPassOf self.now pass.new }
        ensures read { (k : ℕ) × (range : Option Range) × known.Read (opened self.now) (pass_in pass.old) result.lo result.hi k
            (Load index) range (pass_in pass.new) × (result.value ≡ option_map (λ r. r.entry) range) }
        ensures section { HasRead result.lo result.hi (pass_in pass.old) (pass_in pass.new) }
        ensures counted { IsCounted pass.old pass.new steps.old steps.new }
        ensures takes { Takes 95 pass.old pass.new }
        ensures steps { steps.new ≤ steps.old + 95 }
    {
        mt_read::load(&self.table, pass, index, steps)
    }

    /// The first range that ends at an index or above, and begins at `max` or below. There is none if the index is above `max`.
    pub fn find<L: Ledger>(
        &self,
        pass: &mut Pass,
        index: u64,
        max: u64,
        steps: &mut Steps<L>,
    ) -> Read<Option<Range>>
        requires { IsPassOf self.now pass.old }
        ensures of { IsPassOf self.now pass.new }
        ensures read { (k : ℕ) × known.Read (opened self.now) (pass_in pass.old) result.lo result.hi k (Find index max) result.value (pass_in pass.new) }
        ensures section { HasRead result.lo result.hi (pass_in pass.old) (pass_in pass.new) }
        ensures counted { IsCounted pass.old pass.new steps.old steps.new }
        ensures takes { Takes 175 pass.old pass.new }
        ensures steps { steps.new ≤ steps.old + 175 }
    {
        mt_read::find(&self.table, pass, index, max, steps)
    }

    /// The first range that begins above an index, and at `max` or below.
    ///
    /// # Errors
    ///
    /// `Moved` if the leaf of the index has no answer, and was found marked as dead after the leaf beside it was read: more
    /// than `lo` calls have begun. What the handle knows has then only grown. For an index above the greatest of the tree it is
    /// the leaf of the greatest.
    pub fn next<L: Ledger>(
        &self,
        pass: &mut Pass,
        index: u64,
        max: u64,
        steps: &mut Steps<L>,
    ) -> Result<Read<Option<Range>>, Moved>
        requires { IsPassOf self.now pass.old }
        ensures of { IsPassOf self.now pass.new }
        ensures sought { HasSought self.now pass.old (Next index max) result pass.new }
        ensures counted { IsCounted pass.old pass.new steps.old steps.new }
        ensures steps { steps.new ≤ steps.old + 360 }
    {
        mt_read::near(&self.table, pass, Way::Next, index, max, steps)
    }

    /// The last range that ends below an index, and at `min` or above.
    ///
    /// # Errors
    ///
    /// `Moved` if the leaf of the index has no answer, and was found marked as dead after the leaf beside it was read: more
    /// than `lo` calls have begun. What the handle knows has then only grown. For an index above the greatest of the tree it is
    /// the leaf of the greatest.
    pub fn prev<L: Ledger>(
        &self,
        pass: &mut Pass,
        index: u64,
        min: u64,
        steps: &mut Steps<L>,
    ) -> Result<Read<Option<Range>>, Moved>
        requires { IsPassOf self.now pass.old }
        ensures of { IsPassOf self.now pass.new }
        ensures sought { HasSought self.now pass.old (Prev index min) result pass.new }
        ensures counted { IsCounted pass.old pass.new steps.old steps.new }
        ensures steps { steps.new ≤ steps.old + 360 }
    {
        mt_read::near(&self.table, pass, Way::Prev, index, min, steps)
    }

    /// The last range that begins at an index or below, and ends at `min` or above. There is none if the index is below `min`.
    ///
    /// # Errors
    ///
    /// `Moved` if the leaf of the index has no answer, and was found marked as dead after the leaf beside it was read: more
    /// than `lo` calls have begun. What the handle knows has then only grown. For an index above the greatest of the tree it is
    /// the leaf of the greatest.
    pub fn rfind<L: Ledger>(
        &self,
        pass: &mut Pass,
        index: u64,
        min: u64,
        steps: &mut Steps<L>,
    ) -> Result<Read<Option<Range>>, Moved>
        requires { IsPassOf self.now pass.old }
        ensures of { IsPassOf self.now pass.new }
        ensures sought { HasSought self.now pass.old (Rfind index min) result pass.new }
        ensures counted { IsCounted pass.old pass.new steps.old steps.new }
        ensures steps { steps.new ≤ steps.old + 360 }
    {
        mt_read::near(&self.table, pass, Way::Rfind, index, min, steps)
    }
}
