//! Walks from the root to the leaf that covers an index.

ghost use Rattle.std.specs.Prelude.{◌≡◌, ◌≢◌, ℕ, ◌+◌, ◌-◌, ◌<◌, ◌≤◌, Some, None, IsSome, IfSome, IfNone, [], length};
ghost use Rattle.mt_base.specs.Width.{columns, greatest_of, kind_width};
ghost use Rattle.mt_base.specs.declared.widths.Width.{Width};
ghost use Rattle.mt_layout.specs.Rows.{row_in, named_kind};
ghost use Rattle.mt_layout.specs.declared.names.RowKind.TheVariants.{Leaf};
ghost use Rattle.mt_rule.specs.Places.{IsRowAt};
ghost use Rattle.mt_rule.specs.Sections.{IsAt, here, slots_in, moment_seen};
ghost use Rattle.mt_rule.specs.Tokens.{identity_of, part_of, IsPassOf, Stepped, IsCounted};
ghost use Rattle.mt_read.specs.Walks.{GoesOn, IsOnRow, IsOnLeaf, IsPlaceIn, IsUnder, SeesMore, sought, steps_down};

use crate::seeks::{Spot, first_in, last_in, seek};
use mt_base::{Steps, Width, top};
use mt_layout::{RowKind, kind_of, row_of, slots};
use mt_rule::{MtTable, Pass, RowAt};
use std::sync::ledger::Ledger;

/// A node that a walk reaches: its place, its kind and its width, and the first and the last index that it covers.
#[derive(Clone, Copy)]
pub struct Row {
    pub at: RowAt,
    pub kind: RowKind,
    pub width: Width,
    pub min: u64,
    pub max: u64,
}

/// A slot of a node, and the first and the last index of what it holds.
#[derive(Clone, Copy)]
pub struct SlotPlace {
    pub slot: u32,
    pub first: u64,
    pub last: u64,
}

/// The index that a walk goes to: the greatest of the tree, where an index is above that.
pub fn sought(table: &MtTable, index: u64) -> u64
    ensures { result ≡ sought (identity_of table.now).shape.kind index }
{
    index.min(top(table.width()))
}

/// The width of nodes of `COLS` words.
pub fn width_with<const COLS: u32>() -> Width
    ensures { (width : Width) → COLS ≡ columns width → result ≡ width }
{
    if COLS == 32 {
        Width::Long
    } else {
        Width::Short
    }
}

/// The node of this width with this name, which covers `min` to `max`.
#[inline(always)]
fn row_named(name: u64, width: Width, min: u64, max: u64) -> Row
    requires name { IsSome (named_kind name) }
    ensures number { result.at.number ≡ row_in name }
    ensures base { IsRowAt width result.at }
    ensures kind { Some result.kind ≡ named_kind name }
    ensures width { result.width ≡ width }
    ensures min { result.min ≡ min }
    ensures max { result.max ≡ max }
{
    let Some(number) = row_of(name) else {
        unreachable!()
    };
    let Some(kind) = kind_of(name) else {
        unreachable!()
    };
    Row {
        at: RowAt::of_width(width, number),
        kind,
        width,
        min,
        max,
    }
}

/// The slot that holds an index, of the node that the section is at: the first whose pivot is not below it.
#[inline(always)]
pub fn find_slot<L: Ledger>(
    table: &MtTable,
    pass: &mut Pass,
    row: &Row,
    index: u64,
    steps: &mut Steps<L>,
) -> SlotPlace
    requires pass { IsPassOf (identity_of table.now) pass.old }
    requires on { IsOnRow (part_of pass.old) row.now }
    requires from { row.now.min ≤ index }
    requires to { index ≤ row.now.max }
    ensures stepped { Stepped (identity_of table.now) pass.old pass.new }
    ensures sees { SeesMore (part_of pass.old) (part_of pass.new) }
    ensures on { IsOnRow (part_of pass.new) row.now }
    ensures place { IsPlaceIn (part_of pass.new) result }
    ensures from { result.first ≤ index }
    ensures to { index ≤ result.last }
    ensures pivots { steps.new + 1 ≤ steps.old + slots_in (part_of pass.old) (here (part_of pass.old)) }
    ensures counted { IsCounted pass.old pass.new steps.old steps.new }
    ensures steps { steps.new ≤ steps.old + 31 }
{
    let spot = Spot {
        at: row.at,
        kind: row.kind,
        width: row.width,
    };
    let slot = seek(table, pass, spot, index, steps);
    let first = first_in(table, pass, spot, row.min, slot, steps);
    let last = last_in(table, pass, spot, row.max, slot, steps);
    SlotPlace { slot, first, last }
}

/// The slot that holds an index, of the node that the section is at, pivot by pivot: the branches are foretold well where the
/// node was searched before.
pub fn find_along<L: Ledger>(
    table: &MtTable,
    pass: &mut Pass,
    row: &Row,
    index: u64,
    steps: &mut Steps<L>,
) -> SlotPlace
    requires pass { IsPassOf (identity_of table.now) pass.old }
    requires on { IsOnRow (part_of pass.old) row.now }
    requires from { row.now.min ≤ index }
    requires to { index ≤ row.now.max }
    ensures stepped { Stepped (identity_of table.now) pass.old pass.new }
    ensures sees { SeesMore (part_of pass.old) (part_of pass.new) }
    ensures on { IsOnRow (part_of pass.new) row.now }
    ensures place { IsPlaceIn (part_of pass.new) result }
    ensures from { result.first ≤ index }
    ensures to { index ≤ result.last }
    ensures pivots { steps.new + 1 ≤ steps.old + slots_in (part_of pass.old) (here (part_of pass.old)) }
    ensures counted { IsCounted pass.old pass.new steps.old steps.new }
    ensures steps { steps.new ≤ steps.old + 31 }
{
    let last_slot = slots(row.width, row.kind) - 1;
    let mut first = row.min;
    for slot in 0..last_slot {
        let pivot = table.load_pivot(pass, row.at, 1 + slot, steps);
        if index <= pivot {
            return SlotPlace {
                slot,
                first,
                last: pivot,
            };
        }
        first = pivot + 1;
    }
    SlotPlace {
        slot: last_slot,
        first,
        last: row.max,
    }
}

/// The slot of a node that holds an index: by a search pivot by pivot if a walk goes from range to range, and else by groups of
/// slots.
#[inline(always)]
fn find_by<const ALONG: bool, L: Ledger>(
    table: &MtTable,
    pass: &mut Pass,
    row: &Row,
    index: u64,
    steps: &mut Steps<L>,
) -> SlotPlace
    requires pass { IsPassOf (identity_of table.now) pass.old }
    requires on { IsOnRow (part_of pass.old) row.now }
    requires from { row.now.min ≤ index }
    requires to { index ≤ row.now.max }
    ensures stepped { Stepped (identity_of table.now) pass.old pass.new }
    ensures sees { SeesMore (part_of pass.old) (part_of pass.new) }
    ensures on { IsOnRow (part_of pass.new) row.now }
    ensures place { IsPlaceIn (part_of pass.new) result }
    ensures from { result.first ≤ index }
    ensures to { index ≤ result.last }
    ensures pivots { steps.new + 1 ≤ steps.old + slots_in (part_of pass.old) (here (part_of pass.old)) }
    ensures counted { IsCounted pass.old pass.new steps.old steps.new }
    ensures steps { steps.new ≤ steps.old + 31 }
{
    if ALONG {
        return find_along(table, pass, row, index, steps);
    }
    find_slot(table, pass, row, index, steps)
}

/// The node below an inner node that covers an index there.
#[inline(always)]
fn child_at<const ALONG: bool, L: Ledger>(
    table: &MtTable,
    pass: &mut Pass,
    row: &Row,
    index: u64,
    steps: &mut Steps<L>,
) -> Row
    requires pass { IsPassOf (identity_of table.now) pass.old }
    requires on { IsOnRow (part_of pass.old) row.now }
    requires inner { row.now.kind ≢ Leaf }
    requires from { row.now.min ≤ index }
    requires to { index ≤ row.now.max }
    ensures stepped { Stepped (identity_of table.now) pass.old pass.new }
    ensures goes { GoesOn (part_of pass.old) (part_of pass.new) }
    ensures on { IsOnRow (part_of pass.new) result }
    ensures since { (here (part_of pass.new)).since ≡ (here (part_of pass.old)).since }
    ensures level { (here (part_of pass.new)).extent.level + 1 ≡ (here (part_of pass.old)).extent.level }
    ensures from { result.min ≤ index }
    ensures to { index ≤ result.max }
    ensures counted { IsCounted pass.old pass.new steps.old steps.new }
    ensures steps { steps.new + steps_down (part_of pass.new) ≤ steps.old + steps_down (part_of pass.old) }
{
    let place = find_by::<ALONG, L>(table, pass, row, index, steps);
    let column = slots(row.width, row.kind) + place.slot;
    let name = table.load_slot(pass, row.at, column, steps);
    row_named(name, row.width, place.first, place.last)
}

/// The leaf that covers an index, by a walk from the node that the section is at.
#[inline(always)]
fn descend<const ALONG: bool, L: Ledger>(
    table: &MtTable,
    pass: &mut Pass,
    row: Row,
    index: u64,
    steps: &mut Steps<L>,
) -> Row
    requires pass { IsPassOf (identity_of table.now) pass.old }
    requires on { IsOnRow (part_of pass.old) row }
    requires from { row.min ≤ index }
    requires to { index ≤ row.max }
    ensures stepped { Stepped (identity_of table.now) pass.old pass.new }
    ensures goes { GoesOn (part_of pass.old) (part_of pass.new) }
    ensures leaf { IsOnLeaf (part_of pass.new) result }
    ensures since { (here (part_of pass.new)).since ≡ (here (part_of pass.old)).since }
    ensures from { result.min ≤ index }
    ensures to { index ≤ result.max }
    ensures counted { IsCounted pass.old pass.new steps.old steps.new }
    ensures steps { steps.new ≤ steps.old + steps_down (part_of pass.old) }
{
    let mut row = row;
    while row.kind != RowKind::Leaf {
        row = child_at::<ALONG, L>(table, pass, &row, index, steps);
    }
    row
}

/// The leaf that covers an index, by a walk from the root over nodes of `COLS` words; none if the tree is empty.
pub fn walk_by<const COLS: u32, const ALONG: bool, L: Ledger>(
    table: &MtTable,
    pass: &mut Pass,
    index: u64,
    steps: &mut Steps<L>,
) -> Option<Row>
    requires columns { COLS ≡ columns (kind_width (identity_of table.now).shape.kind) }
    requires pass { IsPassOf (identity_of table.now) pass.old }
    requires open { (part_of pass.old).standing ≢ None }
    requires index { index ≤ greatest_of (part_of pass.old).shape.kind }
    ensures stepped { Stepped (identity_of table.now) pass.old pass.new }
    ensures goes { GoesOn (part_of pass.old) (part_of pass.new) }
    ensures empty { IfNone result ((moment_seen (part_of pass.new) (length (part_of pass.new).seen)).ranges ≡ []) }
    ensures sees { IfNone result (SeesMore (part_of pass.old) (part_of pass.new)) }
    ensures leaf { IfSome result (IsOnLeaf (part_of pass.new)) }
    ensures since { IfSome result (λ leaf. length (part_of pass.old).seen ≤ (here (part_of pass.new)).since) }
    ensures under { IfSome result (λ leaf. IsAt (part_of pass.old) → IsUnder (part_of pass.new) (here (part_of pass.old))) }
    ensures from { IfSome result (λ leaf. leaf.min ≤ index) }
    ensures to { IfSome result (λ leaf. index ≤ leaf.max) }
    ensures counted { IsCounted pass.old pass.new steps.old steps.new }
    ensures steps { steps.new ≤ steps.old + 129 }
{
    let width = width_with::<COLS>();
    let name = table.load_root(pass, steps);
    if name == 0 {
        return None;
    }
    let root = row_named(name, width, 0, top(width));
    Some(descend::<ALONG, L>(table, pass, root, index, steps))
}

/// The leaf that covers an index, by a walk from the root that searches nodes in one way or the other.
fn walk_as<const ALONG: bool, L: Ledger>(
    table: &MtTable,
    pass: &mut Pass,
    index: u64,
    steps: &mut Steps<L>,
) -> Option<Row>
    requires pass { IsPassOf (identity_of table.now) pass.old }
    requires open { (part_of pass.old).standing ≢ None }
    requires index { index ≤ greatest_of (part_of pass.old).shape.kind }
    ensures stepped { Stepped (identity_of table.now) pass.old pass.new }
    ensures goes { GoesOn (part_of pass.old) (part_of pass.new) }
    ensures empty { IfNone result ((moment_seen (part_of pass.new) (length (part_of pass.new).seen)).ranges ≡ []) }
    ensures sees { IfNone result (SeesMore (part_of pass.old) (part_of pass.new)) }
    ensures leaf { IfSome result (IsOnLeaf (part_of pass.new)) }
    ensures since { IfSome result (λ leaf. length (part_of pass.old).seen ≤ (here (part_of pass.new)).since) }
    ensures under { IfSome result (λ leaf. IsAt (part_of pass.old) → IsUnder (part_of pass.new) (here (part_of pass.old))) }
    ensures from { IfSome result (λ leaf. leaf.min ≤ index) }
    ensures to { IfSome result (λ leaf. index ≤ leaf.max) }
    ensures counted { IsCounted pass.old pass.new steps.old steps.new }
    ensures steps { steps.new ≤ steps.old + 129 }
{
    match table.width() {
        Width::Long => walk_by::<32, ALONG, L>(table, pass, index, steps),
        Width::Short => walk_by::<64, ALONG, L>(table, pass, index, steps),
    }
}

/// The leaf that covers an index, by a walk from the root; none where the tree is empty.
pub fn walk<L: Ledger>(
    table: &MtTable,
    pass: &mut Pass,
    index: u64,
    steps: &mut Steps<L>,
) -> Option<Row>
    requires pass { IsPassOf (identity_of table.now) pass.old }
    requires open { (part_of pass.old).standing ≢ None }
    requires index { index ≤ greatest_of (part_of pass.old).shape.kind }
    ensures stepped { Stepped (identity_of table.now) pass.old pass.new }
    ensures goes { GoesOn (part_of pass.old) (part_of pass.new) }
    ensures empty { IfNone result ((moment_seen (part_of pass.new) (length (part_of pass.new).seen)).ranges ≡ []) }
    ensures leaf { IfSome result (IsOnLeaf (part_of pass.new)) }
    ensures since { IfSome result (λ leaf. length (part_of pass.old).seen ≤ (here (part_of pass.new)).since) }
    ensures under { IfSome result (λ leaf. IsAt (part_of pass.old) → IsUnder (part_of pass.new) (here (part_of pass.old))) }
    ensures from { IfSome result (λ leaf. leaf.min ≤ index) }
    ensures to { IfSome result (λ leaf. index ≤ leaf.max) }
    ensures counted { IsCounted pass.old pass.new steps.old steps.new }
    ensures steps { steps.new ≤ steps.old + 129 }
{
    walk_as::<false, L>(table, pass, index, steps)
}

/// The leaf that covers an index, for callers that come from the leaf before: the branches on pivots are then predicted well.
pub fn walk_along<L: Ledger>(
    table: &MtTable,
    pass: &mut Pass,
    index: u64,
    steps: &mut Steps<L>,
) -> Option<Row>
    requires pass { IsPassOf (identity_of table.now) pass.old }
    requires open { (part_of pass.old).standing ≢ None }
    requires index { index ≤ greatest_of (part_of pass.old).shape.kind }
    ensures stepped { Stepped (identity_of table.now) pass.old pass.new }
    ensures goes { GoesOn (part_of pass.old) (part_of pass.new) }
    ensures empty { IfNone result ((moment_seen (part_of pass.new) (length (part_of pass.new).seen)).ranges ≡ []) }
    ensures sees { IfNone result (SeesMore (part_of pass.old) (part_of pass.new)) }
    ensures leaf { IfSome result (IsOnLeaf (part_of pass.new)) }
    ensures since { IfSome result (λ leaf. length (part_of pass.old).seen ≤ (here (part_of pass.new)).since) }
    ensures under { IfSome result (λ leaf. IsAt (part_of pass.old) → IsUnder (part_of pass.new) (here (part_of pass.old))) }
    ensures from { IfSome result (λ leaf. leaf.min ≤ index) }
    ensures to { IfSome result (λ leaf. index ≤ leaf.max) }
    ensures counted { IsCounted pass.old pass.new steps.old steps.new }
    ensures steps { steps.new ≤ steps.old + 129 }
{
    walk_as::<true, L>(table, pass, index, steps)
}
