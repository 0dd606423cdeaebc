//! Reads that look for a neighbour of an index.

ghost use Rattle.std.specs.Prelude.{◌≡◌, ◌≢◌, ℕ, ◌+◌, ◌≤◌, None, IfSome, IfNone, IfOk, IfErr, length};
ghost use Rattle.mt_base.specs.Passes as known;
ghost use Rattle.mt_rule.specs.Tokens.{identity_of, part_of, pass_in, tree_in, IsPassOf, Stepped, IsCounted};
ghost use Rattle.mt_read.specs.Answers.{Answers};
ghost use Rattle.mt_read.specs.Neighbours.{LeftMarked, WasLeftMarked, WasMoved, asked};
ghost use Rattle.mt_read.specs.Walks.{GoesOn};
ghost use Rattle.mt_read.specs.Ways.{bounded, query_by, whole_query};
ghost use Rattle.mt_read.specs.Windows.{HasRead};

use crate::bounds::{not_below, within};
use crate::lasts::{prev_from, rfind_from};
use crate::neighbours::{Moved, next_from};
use crate::sections::Section;
use mt_base::{Range, Read, Steps};
use mt_rule::{MtTable, Pass};
use std::sync::ledger::Ledger;

/// Which neighbour of an index is sought.
#[derive(Clone, Copy, Debug, PartialEq, Eq)]
pub enum Way {
    /// The first range that begins after the index.
    Next,
    /// The last range that ends below it.
    Prev,
    /// The last range that begins at it or below.
    Rfind,
}

/// The range that is sought, by a walk from the root. There is no answer where the leaf that covers the index is found marked
/// after the leaf beside it was read.
fn near_from<L: Ledger>(
    table: &MtTable,
    pass: &mut Pass,
    way: Way,
    index: u64,
    steps: &mut Steps<L>,
) -> Option<Option<Range>>
    requires pass { IsPassOf (identity_of table.now) pass.old }
    requires open { (part_of pass.old).standing ≢ None }
    ensures stepped { Stepped (identity_of table.now) pass.old pass.new }
    ensures goes { IfSome result (λ found. GoesOn (part_of pass.old) (part_of pass.new)) }
    ensures answer { IfSome result (Answers (part_of pass.new) (length (part_of pass.old).seen) (whole_query way (part_of pass.old).shape.kind index)) }
    ensures moved { IfNone result (LeftMarked (asked (part_of pass.old).shape.kind (whole_query way (part_of pass.old).shape.kind index))
        (length (part_of pass.old).seen) (part_of pass.old) (part_of pass.new)) }
    ensures counted { IsCounted pass.old pass.new steps.old steps.new }
    ensures steps { steps.new ≤ steps.old + 328 }
{
    match way {
        Way::Next => next_from(table, pass, index, steps),
        Way::Prev => prev_from(table, pass, index, steps),
        Way::Rfind => rfind_from(table, pass, index, steps),
    }
}

/// The range, where the bound admits it.
fn bounded(way: Way, range: Option<Range>, index: u64, bound: u64) -> Option<Range>
    ensures { result ≡ bounded way index bound range }
{
    match way {
        Way::Next => within(range, 0, bound),
        Way::Prev => not_below(range, bound, bound),
        Way::Rfind => not_below(range, index, bound),
    }
}

/// The neighbour of an index that is sought: at the bound or below if it is the next, else at the bound or above.
///
/// # Errors
///
/// `Moved` where the leaf of the index has no answer, and was found marked as dead after the leaf beside it was read: more than
/// `lo` calls have begun.
pub fn near<L: Ledger>(
    table: &MtTable,
    pass: &mut Pass,
    way: Way,
    index: u64,
    bound: u64,
    steps: &mut Steps<L>,
) -> Result<Read<Option<Range>>, Moved>
    requires pass { IsPassOf (identity_of table.now) pass.old }
    ensures stepped { Stepped (identity_of table.now) pass.old pass.new }
    ensures read { IfOk result (λ answer. (k : ℕ)
        × known.Read (tree_in (identity_of table.now)) (pass_in pass.old) answer.lo answer.hi k (query_by way index bound) answer.value (pass_in pass.new)) }
    ensures section { IfOk result (λ answer. HasRead answer.lo answer.hi (pass_in pass.old) (pass_in pass.new)) }
    ensures moved { IfErr result (λ moved. WasMoved (tree_in (identity_of table.now)) (pass_in pass.old) moved.lo moved.begun (pass_in pass.new)) }
    ensures given_up { IfErr result (λ moved. HasRead moved.lo moved.begun (pass_in pass.old) (pass_in pass.new)) }
    ensures left { IfErr result
        (λ moved. WasLeftMarked (whole_query way (part_of pass.old).shape.kind index) moved.lo moved.begun (part_of pass.old) (part_of pass.new)) }
    ensures counted { IsCounted pass.old pass.new steps.old steps.new }
    ensures steps { steps.new ≤ steps.old + 360 }
{
    let section = Section::begin(table, pass, steps);
    let lo = section.epoch();
    let found = near_from(table, pass, way, index, steps);
    let begun = section.end(table, pass, steps);
    let range = found.ok_or(Moved { lo, begun })?;
    Ok(Read {
        lo,
        hi: begun,
        value: bounded(way, range, index, bound),
    })
}
