//! Reads whose answer may lie in a neighbouring leaf.

ghost use Rattle.std.specs.Prelude.{◌≡◌, ◌≢◌, ◌+◌, ◌<◌, ◌≤◌, Some, None, IfSome, IfNone, length};
ghost use Rattle.mt_base.specs.Width.{greatest_of};
ghost use Rattle.mt_base.specs.declared.calls.Query.TheVariants.{Find, Next};
ghost use Rattle.mt_rule.specs.Sections.{here};
ghost use Rattle.mt_rule.specs.Tokens.{identity_of, part_of, IsPassOf, Stepped, IsCounted};
ghost use Rattle.mt_read.specs.Answers.{Answers, AnswersBy};
ghost use Rattle.mt_read.specs.Neighbours.{IsBehind, LeftMarked, MarkedBeside, asked};
ghost use Rattle.mt_read.specs.Walks.{GoesOn, IsOnLeaf};

use crate::descent::{Row, find_slot, sought, walk};
use crate::reads::{first_at, next_place, range_at};
use mt_base::{Range, Steps, top};
use mt_layout::is_dead_mark;
use mt_rule::{MtTable, Pass};
use std::sync::ledger::Ledger;
use thiserror::Error;

/// A read was given up: the leaf that covers its index has no answer, and was found marked as dead after the leaf beside it was
/// read.
#[derive(Clone, Copy, Debug, PartialEq, Eq, Error)]
#[error("the leaf was marked as dead while it was read: {lo} calls had ended before, and {begun} have begun")]
pub struct Moved {
    /// How many calls had ended before the read.
    pub lo: u64,
    /// How many have begun, which is more.
    pub begun: u64,
}

/// The first range after the leaf that the section is at. There is no answer if that leaf is then found marked.
fn first_beside<L: Ledger>(
    table: &MtTable,
    pass: &mut Pass,
    leaf: &Row,
    steps: &mut Steps<L>,
) -> Option<Option<Range>>
    requires pass { IsPassOf (identity_of table.now) pass.old }
    requires open { (part_of pass.old).standing ≢ None }
    requires leaf { IsOnLeaf (part_of pass.old) leaf.now }
    requires more { leaf.now.max < greatest_of (part_of pass.old).shape.kind }
    ensures stepped { Stepped (identity_of table.now) pass.old pass.new }
    ensures goes { IfSome result (λ found. GoesOn (part_of pass.old) (part_of pass.new)) }
    ensures answer { IfSome result (AnswersBy (part_of pass.new)
        (here (part_of pass.old)) (length (part_of pass.old).seen) (Find (leaf.now.max + 1) (greatest_of (part_of pass.old).shape.kind))) }
    ensures moved { IfNone result (MarkedBeside IsBehind (here (part_of pass.old)) (part_of pass.old) (part_of pass.new)) }
    ensures counted { IsCounted pass.old pass.new steps.old steps.new }
    ensures steps { steps.new ≤ steps.old + 164 }
{
    let from = leaf.max + 1;
    let Some(behind) = walk(table, pass, from, steps) else {
        return Some(None);
    };
    let place = find_slot(table, pass, &behind, from, steps);
    let range = first_at(table, pass, &behind, &place, from, steps);
    let parent = table.load_parent(pass, leaf.at, steps);
    if is_dead_mark(leaf.at.number, parent) {
        return None;
    }
    Some(range)
}

/// The first range that begins after an index, which the leaf that the section is at covers.
fn next_at_leaf<L: Ledger>(
    table: &MtTable,
    pass: &mut Pass,
    leaf: &Row,
    index: u64,
    steps: &mut Steps<L>,
) -> Option<Option<Range>>
    requires pass { IsPassOf (identity_of table.now) pass.old }
    requires open { (part_of pass.old).standing ≢ None }
    requires leaf { IsOnLeaf (part_of pass.old) leaf.now }
    requires from { leaf.now.min ≤ index }
    requires to { index ≤ leaf.now.max }
    ensures stepped { Stepped (identity_of table.now) pass.old pass.new }
    ensures goes { IfSome result (λ found. GoesOn (part_of pass.old) (part_of pass.new)) }
    ensures answer { IfSome result (Answers (part_of pass.new) (here (part_of pass.old)).since (Next index (greatest_of (part_of pass.old).shape.kind))) }
    ensures moved { IfNone result
        (LeftMarked (Next index (greatest_of (part_of pass.old).shape.kind)) (here (part_of pass.old)).since (part_of pass.old) (part_of pass.new)) }
    ensures counted { IsCounted pass.old pass.new steps.old steps.new }
    ensures steps { steps.new ≤ steps.old + 195 }
{
    let place = find_slot(table, pass, leaf, index, steps);
    if place.last != leaf.max {
        let next = next_place(table, pass, leaf, &place, steps);
        return Some(first_at(table, pass, leaf, &next, next.first, steps));
    }
    if leaf.max == top(leaf.width) {
        range_at(table, pass, leaf, &place, steps);
        return Some(None);
    }
    first_beside(table, pass, leaf, steps)
}

/// The first range that begins after an index, by a walk from the root. There is no answer if the leaf that covers the index is
/// found marked after the next leaf was read.
pub fn next_from<L: Ledger>(
    table: &MtTable,
    pass: &mut Pass,
    index: u64,
    steps: &mut Steps<L>,
) -> Option<Option<Range>>
    requires pass { IsPassOf (identity_of table.now) pass.old }
    requires open { (part_of pass.old).standing ≢ None }
    ensures stepped { Stepped (identity_of table.now) pass.old pass.new }
    ensures goes { IfSome result (λ found. GoesOn (part_of pass.old) (part_of pass.new)) }
    ensures answer { IfSome result (Answers (part_of pass.new) (length (part_of pass.old).seen) (Next index (greatest_of (part_of pass.old).shape.kind))) }
    ensures moved { IfNone result (LeftMarked (asked (part_of pass.old).shape.kind (Next index (greatest_of (part_of pass.old).shape.kind)))
        (length (part_of pass.old).seen) (part_of pass.old) (part_of pass.new)) }
    ensures counted { IsCounted pass.old pass.new steps.old steps.new }
    ensures steps { steps.new ≤ steps.old + 324 }
{
    let to = sought(table, index);
    let Some(leaf) = walk(table, pass, to, steps) else {
        return Some(None);
    };
    next_at_leaf(table, pass, &leaf, to, steps)
}
