//! Reads at the leaf that a walk reaches.

ghost use Rattle.std.specs.Prelude.{◌≡◌, ◌≢◌, ℕ, ◌+◌, ◌<◌, ◌≤◌, None, IfSome, length};
ghost use Rattle.mt_base.specs.Width.{columns, greatest_of, kind_width};
ghost use Rattle.mt_layout.specs.declared.names.RowKind.TheVariants.{Leaf};
ghost use Rattle.mt_base.specs.declared.calls.Query.TheVariants.{Load, Find};
ghost use Rattle.mt_rule.specs.Sections.{here};
ghost use Rattle.mt_rule.specs.Tokens.{identity_of, part_of, IsPassOf, Stepped, IsCounted};
ghost use Rattle.mt_read.specs.Answers.{Answers, LeafAnswers};
ghost use Rattle.mt_read.specs.Walks.{GoesOn, IsOnLeaf, IsPlaceIn, IsSameHold, SeesMore, WasRead, range_or_hole};

use crate::bounds::not_below;
use crate::descent::{Row, SlotPlace, find_slot, sought, walk, walk_by, width_with};
use mt_base::{Range, Steps, Width, top};
use mt_layout::{RowKind, slots};
use mt_rule::{MtTable, Pass};
use std::sync::ledger::Ledger;

/// The range with this entry, or none where that is 0.
fn range_or_hole(place: &SlotPlace, entry: u64) -> Option<Range>
    ensures { result ≡ range_or_hole place.now entry }
{
    if entry == 0 {
        return None;
    }
    Some(Range {
        first: place.first,
        last: place.last,
        entry,
    })
}

/// The range in a place of the leaf that the section is at, or none if it is a hole.
pub fn range_at<L: Ledger>(
    table: &MtTable,
    pass: &mut Pass,
    leaf: &Row,
    place: &SlotPlace,
    steps: &mut Steps<L>,
) -> Option<Range>
    requires pass { IsPassOf (identity_of table.now) pass.old }
    requires leaf { IsOnLeaf (part_of pass.old) leaf.now }
    requires place { IsPlaceIn (part_of pass.old) place.now }
    ensures stepped { Stepped (identity_of table.now) pass.old pass.new }
    ensures goes { GoesOn (part_of pass.old) (part_of pass.new) }
    ensures leaf { IsOnLeaf (part_of pass.new) leaf.now }
    ensures same { IsSameHold (here (part_of pass.old)) (here (part_of pass.new)) }
    ensures read { WasRead (part_of pass.old) (part_of pass.new) place.now result }
    ensures counted { IsCounted pass.old pass.new steps.old steps.new }
    ensures steps { steps.new ≡ steps.old + 1 }
{
    let column = slots(leaf.width, RowKind::Leaf) + place.slot;
    let entry = table.load_slot(pass, leaf.at, column, steps);
    range_or_hole(place, entry)
}

/// The place after another, in a leaf that has one.
pub fn next_place<L: Ledger>(
    table: &MtTable,
    pass: &mut Pass,
    leaf: &Row,
    place: &SlotPlace,
    steps: &mut Steps<L>,
) -> SlotPlace
    requires pass { IsPassOf (identity_of table.now) pass.old }
    requires leaf { IsOnLeaf (part_of pass.old) leaf.now }
    requires place { IsPlaceIn (part_of pass.old) place.now }
    requires more { place.now.last ≢ leaf.now.max }
    ensures stepped { Stepped (identity_of table.now) pass.old pass.new }
    ensures sees { SeesMore (part_of pass.old) (part_of pass.new) }
    ensures leaf { IsOnLeaf (part_of pass.new) leaf.now }
    ensures slot { result.slot ≡ place.now.slot + 1 }
    ensures first { result.first ≡ place.now.last + 1 }
    ensures place { IsPlaceIn (part_of pass.new) result }
    ensures counted { IsCounted pass.old pass.new steps.old steps.new }
    ensures steps { steps.new ≤ steps.old + 1 }
{
    let slot = place.slot + 1;
    let first = place.last + 1;
    if slot + 1 == slots(leaf.width, RowKind::Leaf) {
        return SlotPlace {
            slot,
            first,
            last: leaf.max,
        };
    }
    let last = table.load_pivot(pass, leaf.at, 1 + slot, steps);
    SlotPlace { slot, first, last }
}

/// The first range that ends at an index or above, from the place that holds the index on: the range there, or the one after
/// the hole there.
pub fn first_at<L: Ledger>(
    table: &MtTable,
    pass: &mut Pass,
    leaf: &Row,
    place: &SlotPlace,
    index: u64,
    steps: &mut Steps<L>,
) -> Option<Range>
    requires pass { IsPassOf (identity_of table.now) pass.old }
    requires leaf { IsOnLeaf (part_of pass.old) leaf.now }
    requires place { IsPlaceIn (part_of pass.old) place.now }
    requires from { place.now.first ≤ index }
    requires to { index ≤ place.now.last }
    ensures stepped { Stepped (identity_of table.now) pass.old pass.new }
    ensures goes { GoesOn (part_of pass.old) (part_of pass.new) }
    ensures leaf { IsOnLeaf (part_of pass.new) leaf.now }
    ensures same { IsSameHold (here (part_of pass.old)) (here (part_of pass.new)) }
    ensures within { IfSome result (λ range. (leaf.now.min ≤ range.last) × (range.last ≤ leaf.now.max)) }
    ensures answer { LeafAnswers (part_of pass.new) (here (part_of pass.old)) (Find index (greatest_of (part_of pass.old).shape.kind)) result }
    ensures counted { IsCounted pass.old pass.new steps.old steps.new }
    ensures steps { steps.new ≤ steps.old + 3 }
{
    if let Some(range) = range_at(table, pass, leaf, place, steps) {
        return Some(range);
    }
    if place.last == leaf.max {
        return None;
    }
    let next = next_place(table, pass, leaf, place, steps);
    range_at(table, pass, leaf, &next, steps)
}

/// The first range that ends at an index or above, by a walk from the root.
pub fn first_from<L: Ledger>(
    table: &MtTable,
    pass: &mut Pass,
    index: u64,
    steps: &mut Steps<L>,
) -> Option<Range>
    requires pass { IsPassOf (identity_of table.now) pass.old }
    requires open { (part_of pass.old).standing ≢ None }
    ensures stepped { Stepped (identity_of table.now) pass.old pass.new }
    ensures goes { GoesOn (part_of pass.old) (part_of pass.new) }
    ensures answer { Answers (part_of pass.new) (length (part_of pass.old).seen) (Find index (greatest_of (part_of pass.old).shape.kind)) result }
    ensures counted { IsCounted pass.old pass.new steps.old steps.new }
    ensures steps { steps.new ≤ steps.old + 163 }
{
    let to = sought(table, index);
    let leaf = walk(table, pass, to, steps)?;
    let place = find_slot(table, pass, &leaf, to, steps);
    let range = first_at(table, pass, &leaf, &place, to, steps);
    not_below(range, index, index)
}

/// The leaf itself, with its kind and its width stated again.
fn leaf_with(width: Width, leaf: Row) -> Row
    requires kind { leaf.kind ≡ Leaf }
    requires width { leaf.width ≡ width }
    ensures { result ≡ leaf }
{
    Row {
        kind: RowKind::Leaf,
        width,
        ..leaf
    }
}

/// The range that holds an index, by a walk from the root over nodes of `COLS` words.
fn range_by<const COLS: u32, L: Ledger>(
    table: &MtTable,
    pass: &mut Pass,
    index: u64,
    steps: &mut Steps<L>,
) -> Option<Range>
    requires columns { COLS ≡ columns (kind_width (identity_of table.now).shape.kind) }
    requires pass { IsPassOf (identity_of table.now) pass.old }
    requires open { (part_of pass.old).standing ≢ None }
    ensures stepped { Stepped (identity_of table.now) pass.old pass.new }
    ensures goes { GoesOn (part_of pass.old) (part_of pass.new) }
    ensures answer { Answers (part_of pass.new) (length (part_of pass.old).seen) (Load index) result }
    ensures counted { IsCounted pass.old pass.new steps.old steps.new }
    ensures steps { steps.new ≤ steps.old + 161 }
{
    let width = width_with::<COLS>();
    let to = index.min(top(width));
    let found = walk_by::<COLS, false, L>(table, pass, to, steps)?;
    let leaf = leaf_with(width, found);
    let place = find_slot(table, pass, &leaf, to, steps);
    let range = range_at(table, pass, &leaf, &place, steps);
    not_below(range, index, index)
}

/// The range that holds an index, by a walk from the root.
pub fn range_of<L: Ledger>(
    table: &MtTable,
    pass: &mut Pass,
    index: u64,
    steps: &mut Steps<L>,
) -> Option<Range>
    requires pass { IsPassOf (identity_of table.now) pass.old }
    requires open { (part_of pass.old).standing ≢ None }
    ensures stepped { Stepped (identity_of table.now) pass.old pass.new }
    ensures goes { GoesOn (part_of pass.old) (part_of pass.new) }
    ensures answer { Answers (part_of pass.new) (length (part_of pass.old).seen) (Load index) result }
    ensures counted { IsCounted pass.old pass.new steps.old steps.new }
    ensures steps { steps.new ≤ steps.old + 161 }
{
    match table.width() {
        Width::Long => range_by::<32, L>(table, pass, index, steps),
        Width::Short => range_by::<64, L>(table, pass, index, steps),
    }
}
