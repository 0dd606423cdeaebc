//! Many look-ups, and many steps of a walk, without the lock: each batch in one read-side section, with one window for all.

ghost use Rattle.std.specs.Prelude.{◌≡◌, ◌+◌, ◌*◌, ◌≤◌, length};
ghost use Rattle.mt_rule.specs.Tokens.{pass_in, IsCounted};
ghost use Rattle.mt_tree.specs.Many.{HasLoadedMany, HasPutMany};
ghost use Rattle.mt_tree.specs.Trees.{IsPassOf, Takes};
ghost use Rattle.mt_tree.specs.Walks.{IsWalkOf};

use crate::trees::Tree;
use mt_base::{Range, Read, Steps};
use mt_read::Cursor;
use mt_rule::Pass;
use std::sync::ledger::Ledger;

impl Tree {
    /// Looks up the entries at these indexes, 0 for an index in a hole, as many as there are places for, and returns how many. The places
    /// after them keep what they had. Each entry is that of some version from `lo` to `hi`, and none is of an earlier version than the
    /// one before it. A batch of no index opens a section and closes it, as any other does.
    pub fn load_many<L: Ledger>(
        &self,
        pass: &mut Pass,
        indexes: &[u64],
        entries: &mut [u64],
        steps: &mut Steps<L>,
    ) -> Read<usize>
        requires { IsPassOf self.now pass.old }
        ensures of { IsPassOf self.now pass.new }
        ensures loaded { HasLoadedMany self.now (pass_in pass.old) indexes.now entries.old result entries.new (pass_in pass.new) }
        ensures counted { IsCounted pass.old pass.new steps.old steps.new }
        ensures takes { Takes (91 * result.value + 4) pass.old pass.new }
        ensures steps { steps.new ≤ steps.old + 91 * result.value + 4 }
    {
        mt_read::load_many(&self.table, pass, indexes, entries, steps)
    }

    /// Puts the next ranges of the walk into these places, and returns how many: fewer than there are places only if the walk
    /// has then ended. The places after them keep what they had. Each range is one of some version from `lo` to `hi`, and none
    /// is of an earlier version than the one before it. The section is open then, as after a step, also if there was no place.
    pub fn step_many<L: Ledger>(
        &self,
        pass: &mut Pass,
        walk: &mut Cursor,
        ranges: &mut [Range],
        steps: &mut Steps<L>,
    ) -> Read<usize>
        requires pass { IsPassOf self.now pass.old }
        requires walk { IsWalkOf pass.old walk.old }
        ensures of { IsPassOf self.now pass.new }
        ensures walk { IsWalkOf pass.new walk.new }
        ensures walked { HasPutMany self.now pass.old walk.old ranges.old result ranges.new pass.new walk.new }
        ensures counted { IsCounted pass.old pass.new steps.old steps.new }
        ensures steps { steps.new ≤ steps.old + 198 * length ranges.old + 3 }
    {
        walk.step_many(&self.table, pass, ranges, steps)
    }
}
