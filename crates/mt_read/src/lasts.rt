//! Reads that look for the last range before an index.

ghost use Rattle.std.specs.Prelude.{◌≡◌, ◌≢◌, ◌+◌, ◌-◌, ◌<◌, ◌≤◌, Some, None, IfSome, IfNone, length};
ghost use Rattle.mt_base.specs.declared.calls.Query.TheVariants.{Prev, Rfind};
ghost use Rattle.mt_rule.specs.Sections.{here};
ghost use Rattle.mt_rule.specs.Tokens.{identity_of, part_of, IsPassOf, Stepped, IsCounted};
ghost use Rattle.mt_read.specs.Answers.{Answers, AnswersBy, LeafAnswers};
ghost use Rattle.mt_read.specs.Neighbours.{IsLeafBefore, LeftHole, LeftMarked, MarkedBeside, asked};
ghost use Rattle.mt_read.specs.Walks.{GoesOn, IsOnLeaf, IsPlaceIn, IsSameHold, SeesMore, WasRead};

use crate::descent::{Row, SlotPlace, find_slot, sought, walk};
use crate::reads::range_at;
use mt_base::{Range, Steps, top};
use mt_layout::is_dead_mark;
use mt_rule::{MtTable, Pass};
use std::sync::ledger::Ledger;

/// The place before another, in a leaf that does not begin with that.
fn place_before<L: Ledger>(
    table: &MtTable,
    pass: &mut Pass,
    leaf: &Row,
    place: &SlotPlace,
    steps: &mut Steps<L>,
) -> SlotPlace
    requires pass { IsPassOf (identity_of table.now) pass.old }
    requires leaf { IsOnLeaf (part_of pass.old) leaf.now }
    requires place { IsPlaceIn (part_of pass.old) place.now }
    requires more { place.now.slot ≢ 0 }
    ensures stepped { Stepped (identity_of table.now) pass.old pass.new }
    ensures sees { SeesMore (part_of pass.old) (part_of pass.new) }
    ensures leaf { IsOnLeaf (part_of pass.new) leaf.now }
    ensures slot { result.slot + 1 ≡ place.now.slot }
    ensures last { result.last + 1 ≡ place.now.first }
    ensures place { IsPlaceIn (part_of pass.new) result }
    ensures counted { IsCounted pass.old pass.new steps.old steps.new }
    ensures steps { steps.new ≤ steps.old + 1 }
{
    let slot = place.slot - 1;
    let last = place.first - 1;
    if slot == 0 {
        return SlotPlace {
            slot,
            first: leaf.min,
            last,
        };
    }
    let pivot = table.load_pivot(pass, leaf.at, slot, steps);
    SlotPlace {
        slot,
        first: pivot + 1,
        last,
    }
}

/// The last range that begins at an index or below, in the leaf that the section is at, from the place that holds the index
/// down: the range there, or the one before the hole there. There is none if the leaf begins with that hole.
fn last_at<L: Ledger>(
    table: &MtTable,
    pass: &mut Pass,
    leaf: &Row,
    place: &SlotPlace,
    index: u64,
    steps: &mut Steps<L>,
) -> Option<Range>
    requires pass { IsPassOf (identity_of table.now) pass.old }
    requires leaf { IsOnLeaf (part_of pass.old) leaf.now }
    requires place { IsPlaceIn (part_of pass.old) place.now }
    requires from { place.now.first ≤ index }
    requires to { index ≤ place.now.last }
    ensures stepped { Stepped (identity_of table.now) pass.old pass.new }
    ensures goes { GoesOn (part_of pass.old) (part_of pass.new) }
    ensures leaf { IsOnLeaf (part_of pass.new) leaf.now }
    ensures same { IsSameHold (here (part_of pass.old)) (here (part_of pass.new)) }
    ensures found { IfSome result (λ range. LeafAnswers (part_of pass.new) (here (part_of pass.old)) (Rfind index 0) (Some range)) }
    ensures none { IfNone result ((place.now.slot ≡ 0) × WasRead (part_of pass.old) (part_of pass.new) place.now None) }
    ensures counted { IsCounted pass.old pass.new steps.old steps.new }
    ensures steps { steps.new ≤ steps.old + 3 }
{
    if let Some(range) = range_at(table, pass, leaf, place, steps) {
        return Some(range);
    }
    if place.slot == 0 {
        return None;
    }
    let before = place_before(table, pass, leaf, place, steps);
    range_at(table, pass, leaf, &before, steps)
}

/// The last range that begins before the leaf that the section is at. There is no answer where that leaf is then found marked.
fn last_beside<L: Ledger>(
    table: &MtTable,
    pass: &mut Pass,
    leaf: &Row,
    steps: &mut Steps<L>,
) -> Option<Option<Range>>
    requires pass { IsPassOf (identity_of table.now) pass.old }
    requires open { (part_of pass.old).standing ≢ None }
    requires leaf { IsOnLeaf (part_of pass.old) leaf.now }
    requires some { leaf.now.min ≢ 0 }
    requires order { leaf.now.min ≤ leaf.now.max }
    ensures stepped { Stepped (identity_of table.now) pass.old pass.new }
    ensures goes { IfSome result (λ found. GoesOn (part_of pass.old) (part_of pass.new)) }
    ensures answer { IfSome result (AnswersBy (part_of pass.new) (here (part_of pass.old)) (length (part_of pass.old).seen) (Rfind (leaf.now.min - 1) 0)) }
    ensures moved { IfNone result (MarkedBeside IsLeafBefore (here (part_of pass.old)) (part_of pass.old) (part_of pass.new)) }
    ensures counted { IsCounted pass.old pass.new steps.old steps.new }
    ensures steps { steps.new ≤ steps.old + 164 }
{
    let to = leaf.min - 1;
    let Some(before) = walk(table, pass, to, steps) else {
        return Some(None);
    };
    let place = find_slot(table, pass, &before, to, steps);
    let range = last_at(table, pass, &before, &place, to, steps);
    let parent = table.load_parent(pass, leaf.at, steps);
    if is_dead_mark(leaf.at.number, parent) {
        return None;
    }
    Some(range)
}

/// The last range that begins at an index or below, from the place that holds the index down, in the leaf that the section is
/// at or the leaf before it.
fn last_from<L: Ledger>(
    table: &MtTable,
    pass: &mut Pass,
    leaf: &Row,
    place: &SlotPlace,
    index: u64,
    steps: &mut Steps<L>,
) -> Option<Option<Range>>
    requires pass { IsPassOf (identity_of table.now) pass.old }
    requires open { (part_of pass.old).standing ≢ None }
    requires leaf { IsOnLeaf (part_of pass.old) leaf.now }
    requires place { IsPlaceIn (part_of pass.old) place.now }
    requires from { place.now.first ≤ index }
    requires to { index ≤ place.now.last }
    ensures stepped { Stepped (identity_of table.now) pass.old pass.new }
    ensures goes { IfSome result (λ found. GoesOn (part_of pass.old) (part_of pass.new)) }
    ensures answer { IfSome result (AnswersBy (part_of pass.new) (here (part_of pass.old)) (here (part_of pass.old)).since (Rfind index 0)) }
    ensures moved { IfNone result (LeftHole place.now (part_of pass.old) (part_of pass.new)) }
    ensures counted { IsCounted pass.old pass.new steps.old steps.new }
    ensures steps { steps.new ≤ steps.old + 167 }
{
    if let Some(range) = last_at(table, pass, leaf, place, index, steps) {
        return Some(Some(range));
    }
    if leaf.min == 0 {
        return Some(None);
    }
    last_beside(table, pass, leaf, steps)
}

/// The last range that begins at an index or below, by a walk from the root. There is no answer where the leaf that covers the
/// index is found marked after the leaf before it was read.
pub fn rfind_from<L: Ledger>(
    table: &MtTable,
    pass: &mut Pass,
    index: u64,
    steps: &mut Steps<L>,
) -> Option<Option<Range>>
    requires pass { IsPassOf (identity_of table.now) pass.old }
    requires open { (part_of pass.old).standing ≢ None }
    ensures stepped { Stepped (identity_of table.now) pass.old pass.new }
    ensures goes { IfSome result (λ found. GoesOn (part_of pass.old) (part_of pass.new)) }
    ensures answer { IfSome result (Answers (part_of pass.new) (length (part_of pass.old).seen) (Rfind index 0)) }
    ensures moved { IfNone result
        (LeftMarked (asked (part_of pass.old).shape.kind (Rfind index 0)) (length (part_of pass.old).seen) (part_of pass.old) (part_of pass.new)) }
    ensures counted { IsCounted pass.old pass.new steps.old steps.new }
    ensures steps { steps.new ≤ steps.old + 327 }
{
    let to = sought(table, index);
    let Some(leaf) = walk(table, pass, to, steps) else {
        return Some(None);
    };
    let place = find_slot(table, pass, &leaf, to, steps);
    last_from(table, pass, &leaf, &place, to, steps)
}

/// The last range that ends below an index, which the leaf that the section is at covers.
fn prev_at_leaf<L: Ledger>(
    table: &MtTable,
    pass: &mut Pass,
    leaf: &Row,
    index: u64,
    steps: &mut Steps<L>,
) -> Option<Option<Range>>
    requires pass { IsPassOf (identity_of table.now) pass.old }
    requires open { (part_of pass.old).standing ≢ None }
    requires leaf { IsOnLeaf (part_of pass.old) leaf.now }
    requires from { leaf.now.min ≤ index }
    requires to { index ≤ leaf.now.max }
    ensures stepped { Stepped (identity_of table.now) pass.old pass.new }
    ensures goes { IfSome result (λ found. GoesOn (part_of pass.old) (part_of pass.new)) }
    ensures answer { IfSome result (Answers (part_of pass.new) (here (part_of pass.old)).since (Prev index 0)) }
    ensures moved { IfNone result (LeftMarked (Prev index 0) (here (part_of pass.old)).since (part_of pass.old) (part_of pass.new)) }
    ensures counted { IsCounted pass.old pass.new steps.old steps.new }
    ensures steps { steps.new ≤ steps.old + 199 }
{
    let place = find_slot(table, pass, leaf, index, steps);
    if place.first == 0 {
        range_at(table, pass, leaf, &place, steps);
        return Some(None);
    }
    if place.slot == 0 {
        return last_beside(table, pass, leaf, steps);
    }
    let before = place_before(table, pass, leaf, &place, steps);
    last_from(table, pass, leaf, &before, before.last, steps)
}

/// The last range that ends below an index, by a walk from the root. There is no answer where the leaf that covers the index is
/// found marked after the leaf before it was read. Below an index above the greatest end those that begin at that or below.
pub fn prev_from<L: Ledger>(
    table: &MtTable,
    pass: &mut Pass,
    index: u64,
    steps: &mut Steps<L>,
) -> Option<Option<Range>>
    requires pass { IsPassOf (identity_of table.now) pass.old }
    requires open { (part_of pass.old).standing ≢ None }
    ensures stepped { Stepped (identity_of table.now) pass.old pass.new }
    ensures goes { IfSome result (λ found. GoesOn (part_of pass.old) (part_of pass.new)) }
    ensures answer { IfSome result (Answers (part_of pass.new) (length (part_of pass.old).seen) (Prev index 0)) }
    ensures moved { IfNone result
        (LeftMarked (asked (part_of pass.old).shape.kind (Prev index 0)) (length (part_of pass.old).seen) (part_of pass.old) (part_of pass.new)) }
    ensures counted { IsCounted pass.old pass.new steps.old steps.new }
    ensures steps { steps.new ≤ steps.old + 328 }
{
    let end = top(table.width());
    if end < index {
        return rfind_from(table, pass, end, steps);
    }
    let Some(leaf) = walk(table, pass, index, steps) else {
        return Some(None);
    };
    prev_at_leaf(table, pass, &leaf, index, steps)
}
