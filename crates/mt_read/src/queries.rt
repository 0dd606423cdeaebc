//! The reads of a tree that always answer.

ghost use Rattle.std.specs.Prelude.{◌≡◌, ℕ, ◌+◌, ◌≤◌, Option, option_map};
ghost use Rattle.mt_base.specs.declared.ranges.Range.{Range};
ghost use Rattle.mt_base.specs.declared.calls.Query.TheVariants.{Load, Find};
ghost use Rattle.mt_base.specs.Passes as known;
ghost use Rattle.mt_rule.specs.Tokens.{identity_of, pass_in, tree_in, IsPassOf, Stepped, IsCounted};
ghost use Rattle.mt_read.specs.Windows.{HasRead};

use crate::bounds::within;
use crate::entries::entry_of;
use crate::reads::{first_from, range_of};
use crate::sections::Section;
use mt_base::{Range, Read, Steps};
use mt_rule::{MtTable, Pass};
use std::sync::ledger::Ledger;

/// The range that an index lies in. There is none if it lies in a hole.
pub fn load_range<L: Ledger>(
    table: &MtTable,
    pass: &mut Pass,
    index: u64,
    steps: &mut Steps<L>,
) -> Read<Option<Range>>
    requires pass { IsPassOf (identity_of table.now) pass.old }
    ensures stepped { Stepped (identity_of table.now) pass.old pass.new }
    ensures read { (k : ℕ)
        × known.Read (tree_in (identity_of table.now)) (pass_in pass.old) result.lo result.hi k (Load index) result.value (pass_in pass.new) }
    ensures section { HasRead result.lo result.hi (pass_in pass.old) (pass_in pass.new) }
    ensures counted { IsCounted pass.old pass.new steps.old steps.new }
    ensures steps { steps.new ≤ steps.old + 170 }
{
    let section = Section::begin(table, pass, steps);
    let lo = section.epoch();
    let value = range_of(table, pass, index, steps);
    let hi = section.end(table, pass, steps);
    Read { lo, hi, value }
}

/// The entry that an index holds. There is none if it lies in a hole.
pub fn load<L: Ledger>(
    table: &MtTable,
    pass: &mut Pass,
    index: u64,
    steps: &mut Steps<L>,
) -> Read<Option<u64>>
    requires pass { IsPassOf (identity_of table.now) pass.old }
    ensures stepped { Stepped (identity_of table.now) pass.old pass.new }
    ensures read { (k : ℕ) × (range : Option Range) × known.Read (tree_in (identity_of table.now))
        (pass_in pass.old) result.lo result.hi k (Load index) range (pass_in pass.new) × (result.value ≡ option_map (λ r. r.entry) range) }
    ensures section { HasRead result.lo result.hi (pass_in pass.old) (pass_in pass.new) }
    ensures counted { IsCounted pass.old pass.new steps.old steps.new }
    ensures steps { steps.new ≤ steps.old + 95 }
{
    let section = Section::begin(table, pass, steps);
    let lo = section.epoch();
    let entry = entry_of(table, pass, index, steps);
    let hi = section.end(table, pass, steps);
    Read {
        lo,
        hi,
        value: entry,
    }
}

/// The first range that ends at an index or above, and begins at `max` or below. There is none if the index is above `max`.
pub fn find<L: Ledger>(
    table: &MtTable,
    pass: &mut Pass,
    index: u64,
    max: u64,
    steps: &mut Steps<L>,
) -> Read<Option<Range>>
    requires pass { IsPassOf (identity_of table.now) pass.old }
    ensures stepped { Stepped (identity_of table.now) pass.old pass.new }
    ensures read { (k : ℕ)
        × known.Read (tree_in (identity_of table.now)) (pass_in pass.old) result.lo result.hi k (Find index max) result.value (pass_in pass.new) }
    ensures section { HasRead result.lo result.hi (pass_in pass.old) (pass_in pass.new) }
    ensures counted { IsCounted pass.old pass.new steps.old steps.new }
    ensures steps { steps.new ≤ steps.old + 175 }
{
    let section = Section::begin(table, pass, steps);
    let lo = section.epoch();
    let range = first_from(table, pass, index, steps);
    let hi = section.end(table, pass, steps);
    Read {
        lo,
        hi,
        value: within(range, index, max),
    }
}
