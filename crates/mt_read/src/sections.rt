//! The sections (read-side critical sections) in which a pass (handle) reads.

ghost use Rattle.std.specs.Prelude.{◌≡◌, ◌+◌};
ghost use Rattle.mt_base.specs.Passes.{IsSound};
ghost use Rattle.mt_rule.specs.Tokens.{identity_of, part_of, pass_in, tree_in, IsPassOf, Stepped, IsCounted};
ghost use Rattle.mt_read.specs.Windows.{Began, Ended};

use mt_base::Steps;
use mt_rule::{MtTable, Pass};
use std::sync::ledger::Ledger;

/// A section that a handle has opened. What the handle reaches within it is not reused until it ends.
pub struct Section {
    epoch: u64,
}

impl Section {
    ghost use Rattle.std.specs.Prelude.{◌≡◌, ◌+◌};
    ghost use Rattle.mt_base.specs.Passes.{IsSound};
    ghost use Rattle.mt_rule.specs.Tokens.{identity_of, part_of, pass_in, tree_in, IsPassOf, Stepped, IsCounted};
    ghost use Rattle.mt_read.specs.Windows.{Began, Ended};

    /// Opens a section of the handle, at the number of calls that have ended. This closes one that the handle had open.
    pub fn begin<L: Ledger>(table: &MtTable, pass: &mut Pass, steps: &mut Steps<L>) -> Section
        requires pass { IsPassOf (identity_of table.now) pass.old }
        ensures stepped { Stepped (identity_of table.now) pass.old pass.new }
        ensures began { Began result.epoch (part_of pass.old) (part_of pass.new) }
        ensures counted { IsCounted pass.old pass.new steps.old steps.new }
        ensures steps { steps.new ≡ steps.old + 2 }
    {
        let epoch = table.load_commits(pass, steps);
        table.open_section(pass, epoch, steps);
        Section { epoch }
    }

    /// How many calls had ended when the section was opened.
    pub fn epoch(&self) -> u64
        ensures { result ≡ self.now.epoch }
    {
        self.epoch
    }

    /// Closes the section, and returns how many calls have begun.
    pub fn end<L: Ledger>(self, table: &MtTable, pass: &mut Pass, steps: &mut Steps<L>) -> u64
        requires pass { IsPassOf (identity_of table.now) pass.old }
        ensures stepped { Stepped (identity_of table.now) pass.old pass.new }
        ensures ended { Ended result (part_of pass.old) (part_of pass.new) }
        ensures sound { IsSound (tree_in (identity_of table.now)) (pass_in pass.new) }
        ensures counted { IsCounted pass.old pass.new steps.old steps.new }
        ensures steps { steps.new ≡ steps.old + 2 }
    {
        let Section { epoch: _ } = self;
        let begun = table.load_begun(pass, steps);
        table.close_section(pass, steps);
        begun
    }
}
