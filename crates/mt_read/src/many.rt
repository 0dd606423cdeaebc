//! Many look-ups, and many steps of a walk, in one section and with one window for all.

ghost use Rattle.std.specs.Prelude.{◌≡◌, ◌≢◌, ◌+◌, ◌*◌, ◌≤◌, None, length, min};
ghost use Rattle.mt_rule.specs.Tokens.{identity_of, part_of, pass_in, tree_in, IsPassOf, Stepped, IsCounted};
ghost use Rattle.mt_read.specs.Many.{EntriesPut, ReadAt, SeenAt};
ghost use Rattle.mt_read.specs.Walks.{GoesOn};
ghost use Rattle.mt_read.specs.Windows.{HasRead};

use crate::cursor::Cursor;
use crate::entries::entry_of;
use crate::sections::Section;
use mt_base::{Range, Read, Steps, place_behind};
use mt_rule::{MtTable, Pass};
use std::sync::ledger::Ledger;

/// Puts the entries at these indexes into the places, 0 for an index in a hole: as many as there are places for, and each by a
/// look-up of its own in the open section. Returns how many.
fn put_entries<L: Ledger>(
    table: &MtTable,
    pass: &mut Pass,
    indexes: &[u64],
    entries: &mut [u64],
    steps: &mut Steps<L>,
) -> usize
    requires pass { IsPassOf (identity_of table.now) pass.old }
    requires open { (part_of pass.old).standing ≢ None }
    ensures stepped { Stepped (identity_of table.now) pass.old pass.new }
    ensures goes { GoesOn (part_of pass.old) (part_of pass.new) }
    ensures entries { EntriesPut (SeenAt (part_of pass.new))
        (length (part_of pass.old).seen) (length (part_of pass.new).seen) result indexes.now entries.old entries.new }
    ensures count { result ≡ min (length indexes.now) (length entries.old) }
    ensures counted { IsCounted pass.old pass.new steps.old steps.new }
    ensures steps { steps.new ≤ steps.old + 91 * result }
{
    let count = indexes.len().min(entries.len());
    for i in 0..count {
        entries[i] = entry_of(table, pass, indexes[i], steps).unwrap_or(0);
    }
    count
}

/// Looks up the entries at these indexes in one section: 0 for an index in a hole. Returns how many: as many as there are places for.
/// The places after them keep what they had. Each entry is that of some version from `lo` to `hi`, and no entry is of an earlier version
/// than the one before it.
pub fn load_many<L: Ledger>(
    table: &MtTable,
    pass: &mut Pass,
    indexes: &[u64],
    entries: &mut [u64],
    steps: &mut Steps<L>,
) -> Read<usize>
    requires pass { IsPassOf (identity_of table.now) pass.old }
    ensures stepped { Stepped (identity_of table.now) pass.old pass.new }
    ensures entries { EntriesPut (ReadAt (tree_in (identity_of table.now)) (pass_in pass.old) result.lo result.hi (pass_in pass.new))
        result.lo result.hi result.value indexes.now entries.old entries.new }
    ensures count { result.value ≡ min (length indexes.now) (length entries.old) }
    ensures section { HasRead result.lo result.hi (pass_in pass.old) (pass_in pass.new) }
    ensures counted { IsCounted pass.old pass.new steps.old steps.new }
    ensures steps { steps.new ≤ steps.old + 91 * result.value + 4 }
{
    let section = Section::begin(table, pass, steps);
    let lo = section.epoch();
    let value = put_entries(table, pass, indexes, entries, steps);
    let hi = section.end(table, pass, steps);
    Read { lo, hi, value }
}

impl Cursor {
    ghost use Rattle.std.specs.Prelude.{◌≡◌, ◌≢◌, ◌⊎◌, ℕ, ◌+◌, ◌-◌, ◌*◌, ◌≤◌, Some, None, IfSome, length, take};
    ghost use Rattle.mt_rule.specs.Tokens.{identity_of, part_of, pass_in, tree_in, IsPassOf, Stepped, IsCounted};
    ghost use Rattle.mt_read.specs.Cursors.{GoesKept, HasStepped, IsCursorOf, IsOver, MayStepOn, epoch_or};
    ghost use Rattle.mt_base.specs.Places.{find_at, place_behind};
    ghost use Rattle.mt_read.specs.Leaves.{KeepsReached, LooksOn, WentByLeaves, stand};
    ghost use Rattle.mt_read.specs.Many.{IsSeenFrom, RangesPut, ReadAt, SeenAt};

    /// The next range of the walk, found in the open section. There is none if the walk has ended, or ends here.
    fn go_on<L: Ledger>(
        &mut self,
        table: &MtTable,
        pass: &mut Pass,
        lo: u64,
        steps: &mut Steps<L>,
    ) -> Option<Range>
        requires { MayStepOn (identity_of table.now) pass.old lo self.old.leaf }
        ensures gone { GoesKept (identity_of table.now) lo self.old.leaf self.new.leaf pass.old pass.new }
        ensures same { self.new ≡ record self.old { at = place_behind result self.old.max; leaf = self.new.leaf } }
        ensures read { IsSeenFrom (part_of pass.new) (length (part_of pass.old).seen) (find_at self.old.at self.old.max) result }
        ensures within { IfSome result (λ range. IsOver self.new.leaf range.last) }
        ensures looked { LooksOn (part_of pass.new).risen self.old.leaf self.new.leaf self.old.at
            (part_of pass.old).marks (part_of pass.new).marks (steps.new - steps.old) }
        ensures reached { KeepsReached (part_of pass.old) (part_of pass.new) }
        ensures counted { IsCounted pass.old pass.new steps.old steps.new }
        ensures steps { steps.new ≤ steps.old + 198 }
    {
        let Some(index) = self.at else {
            return None;
        };
        let range = self.look(table, pass, lo, index, steps);
        self.at = place_behind(range, self.max);
        range
    }

    /// Puts the next ranges of the walk into the places, found in the open section, until no place is left or the walk has
    /// ended. Returns how many.
    fn fill<L: Ledger>(
        &mut self,
        table: &MtTable,
        pass: &mut Pass,
        lo: u64,
        ranges: &mut [Range],
        steps: &mut Steps<L>,
    ) -> usize
        requires { MayStepOn (identity_of table.now) pass.old lo self.old.leaf }
        ensures gone { GoesKept (identity_of table.now) lo self.old.leaf self.new.leaf pass.old pass.new }
        ensures same { self.new ≡ record self.old { at = self.new.at; leaf = self.new.leaf } }
        ensures ranges { RangesPut (SeenAt (part_of pass.new)) self.old.max
            (length (part_of pass.old).seen) (length (part_of pass.new).seen) self.old.at ranges.old ranges.new result self.new.at }
        ensures looked { (few : ℕ) × WentByLeaves (part_of pass.new) lo (part_of pass.new).risen
            self.old.max (stand self.old.leaf self.old.at (part_of pass.old).marks) (length ranges.old)
            (take result ranges.new) few (stand self.new.leaf self.new.at (part_of pass.new).marks) × (steps.new ≤ steps.old + few) }
        ensures counted { IsCounted pass.old pass.new steps.old steps.new }
        ensures steps { steps.new ≤ steps.old + 198 * length ranges.old }
        ensures few { steps.new ≤ steps.old + 198 * result + 198 }
    {
        let places = ranges.len();
        for i in 0..places {
            let Some(range) = self.go_on(table, pass, lo, steps) else {
                return i;
            };
            ranges[i] = range;
        }
        places
    }

    /// Puts the next ranges of the walk into the places, and returns how many: fewer than there are places only if the walk has
    /// ended. The places after them keep what they had. Each range is one of some version from `lo` to `hi`, and none is of an
    /// earlier version than the one before it. The section is open then, as after a step, also if there was no place. It stays in
    /// each leaf as long as that covers its place and is not found marked, and takes at most 35 steps a range there.
    pub fn step_many<L: Ledger>(
        &mut self,
        table: &MtTable,
        pass: &mut Pass,
        ranges: &mut [Range],
        steps: &mut Steps<L>,
    ) -> Read<usize>
        requires pass { IsPassOf (identity_of table.now) pass.old }
        requires cursor { IsCursorOf (part_of pass.old) self.old }
        ensures stepped { Stepped (identity_of table.now) pass.old pass.new }
        ensures cursor { IsCursorOf (part_of pass.new) self.new }
        ensures ranges { RangesPut (ReadAt (tree_in (identity_of table.now)) (pass_in pass.old) result.lo result.hi (pass_in pass.new))
            self.old.max result.lo result.hi self.old.at ranges.old ranges.new result.value self.new.at }
        ensures looked { (few : ℕ) × WentByLeaves (part_of pass.new) result.lo result.hi
            self.old.max (stand self.old.leaf self.old.at (part_of pass.old).marks) (length ranges.old)
            (take result.value ranges.new) few (stand self.new.leaf self.new.at (part_of pass.new).marks) × (steps.new ≤ steps.old + few + 3) }
        ensures section { HasStepped result.lo result.hi self.old.epoch (pass_in pass.old) (pass_in pass.new) }
        ensures max { self.new.max ≡ self.old.max }
        ensures epoch { self.new.epoch ≡ Some (epoch_or self.old.epoch result.lo) }
        ensures lo { (self.new.leaf ≡ self.old.leaf) ⊎ IfSome self.new.leaf (λ kept. kept.lo ≡ result.lo) }
        ensures counted { IsCounted pass.old pass.new steps.old steps.new }
        ensures steps { steps.new ≤ steps.old + 198 * length ranges.old + 3 }
        ensures few { steps.new ≤ steps.old + 198 * result.value + 201 }
    {
        let lo = self.resume(table, pass, steps);
        let value = self.fill(table, pass, lo, ranges, steps);
        let hi = table.load_begun(pass, steps);
        Read { lo, hi, value }
    }
}
