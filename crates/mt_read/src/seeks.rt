//! The slot of a node that holds an index, by groups of its slots and with no branch on a pivot.

ghost use Rattle.std.specs.Prelude.{◌≡◌, ◌+◌, ◌<◌, ◌≤◌, length};
ghost use Rattle.mt_base.specs.Width.{columns};
ghost use Rattle.mt_base.specs.declared.widths.Width.TheVariants.{Long};
ghost use Rattle.mt_layout.specs.Sizes.{slots_of};
ghost use Rattle.mt_life.specs.Holding.{copy_of};
ghost use Rattle.mt_path.specs.Paths.{slot_for, span_at};
ghost use Rattle.mt_rows.specs.Spans.{column};
ghost use Rattle.mt_rule.specs.Sections.{here, spans_here};
ghost use Rattle.mt_rule.specs.Tokens.{identity_of, part_of, IsCounted, IsPassOf, Stepped};
ghost use Rattle.mt_read.specs.Seeks.{IsAtSpot, lines_touched};
ghost use Rattle.mt_read.specs.Walks.{SeesMore};

use mt_base::{Steps, Width};
use mt_layout::{RowKind, slots};
use mt_path::{ends_apart, slots_apart, under};
use mt_rule::{MtTable, Pass, RowAt};
use std::sync::ledger::Ledger;

/// A node that a walk reaches, of which no ends are kept: its place, its kind and its width.
#[derive(Clone, Copy)]
pub struct Spot {
    pub at: RowAt,
    pub kind: RowKind,
    pub width: Width,
}

/// Loads a word of the node that the section is at before it is searched, so that the cache line of its slots is fetched
/// meanwhile.
#[inline(always)]
fn touch_in<L: Ledger>(table: &MtTable, pass: &mut Pass, spot: Spot, col: u32, steps: &mut Steps<L>)
    requires pass { IsPassOf (identity_of table.now) pass.old }
    requires on { IsAtSpot (part_of pass.old) spot }
    requires column { col < columns spot.width }
    ensures stepped { Stepped (identity_of table.now) pass.old pass.new }
    ensures sees { SeesMore (part_of pass.old) (part_of pass.new) }
    ensures on { IsAtSpot (part_of pass.new) spot }
    ensures counted { IsCounted pass.old pass.new steps.old steps.new }
    ensures steps { steps.new ≡ steps.old + 1 }
{
    table.touch(pass, spot.at, col, steps);
}

/// A pivot of the node that a section is at, by its column.
#[inline(always)]
fn load_in<L: Ledger>(
    table: &MtTable,
    pass: &mut Pass,
    spot: Spot,
    col: u32,
    steps: &mut Steps<L>,
) -> u64
    requires pass { IsPassOf (identity_of table.now) pass.old }
    requires on { IsAtSpot (part_of pass.old) spot }
    requires some { 0 < col }
    requires pivot { col < slots_of spot.width spot.kind }
    ensures stepped { Stepped (identity_of table.now) pass.old pass.new }
    ensures sees { SeesMore (part_of pass.old) (part_of pass.new) }
    ensures on { IsAtSpot (part_of pass.new) spot }
    ensures word { result ≡ column (copy_of (here (part_of pass.old))) (here (part_of pass.old)).row col }
    ensures counted { IsCounted pass.old pass.new steps.old steps.new }
    ensures steps { steps.new ≡ steps.old + 1 }
{
    table.load_pivot(pass, spot.at, col, steps)
}

/// The slot that holds an index, of the node of 16 slots that the section is at, by six pivots and no branch. Three determine
/// the four slots that may hold it, and the three between those determine which.
#[inline(always)]
fn seek_wide<L: Ledger>(
    table: &MtTable,
    pass: &mut Pass,
    spot: Spot,
    index: u64,
    steps: &mut Steps<L>,
) -> u32
    requires pass { IsPassOf (identity_of table.now) pass.old }
    requires on { IsAtSpot (part_of pass.old) spot }
    requires slots { slots_of spot.width spot.kind ≡ 16 }
    requires to { index ≤ (here (part_of pass.old)).extent.last }
    ensures stepped { Stepped (identity_of table.now) pass.old pass.new }
    ensures sees { SeesMore (part_of pass.old) (part_of pass.new) }
    ensures on { IsAtSpot (part_of pass.new) spot }
    ensures slot { result ≡ slot_for (spans_here (part_of pass.old) (here (part_of pass.old))) index }
    ensures counted { IsCounted pass.old pass.new steps.old steps.new }
    ensures steps { steps.new ≡ steps.old + 6 }
{
    let fourth = load_in(table, pass, spot, 4, steps);
    let eighth = load_in(table, pass, spot, 8, steps);
    let twelfth = load_in(table, pass, spot, 12, steps);
    let group = 4 * (under(fourth, index) + under(eighth, index) + under(twelfth, index));
    let first = load_in(table, pass, spot, 1 + group, steps);
    let second = load_in(table, pass, spot, 2 + group, steps);
    let third = load_in(table, pass, spot, 3 + group, steps);
    group + (first < index) as u32 + under(second, index) + under(third, index)
}

/// The slot that holds an index, of a node of 10 slots, by five pivots.
#[inline(always)]
fn seek_gapped<L: Ledger>(
    table: &MtTable,
    pass: &mut Pass,
    spot: Spot,
    index: u64,
    steps: &mut Steps<L>,
) -> u32
    requires pass { IsPassOf (identity_of table.now) pass.old }
    requires on { IsAtSpot (part_of pass.old) spot }
    requires slots { slots_of spot.width spot.kind ≡ 10 }
    requires to { index ≤ (here (part_of pass.old)).extent.last }
    ensures stepped { Stepped (identity_of table.now) pass.old pass.new }
    ensures sees { SeesMore (part_of pass.old) (part_of pass.new) }
    ensures on { IsAtSpot (part_of pass.new) spot }
    ensures slot { result ≡ slot_for (spans_here (part_of pass.old) (here (part_of pass.old))) index }
    ensures counted { IsCounted pass.old pass.new steps.old steps.new }
    ensures steps { steps.new ≡ steps.old + 5 }
{
    let third_on = load_in(table, pass, spot, 3, steps);
    let sixth_on = load_in(table, pass, spot, 6, steps);
    let group = 3 * (under(third_on, index) + under(sixth_on, index));
    let first = load_in(table, pass, spot, 1 + group, steps);
    let second = load_in(table, pass, spot, 2 + group, steps);
    let third = load_in(table, pass, spot, 3 + group, steps);
    group + (first < index) as u32 + under(second, index) + under(third, index)
}

/// The slot that holds an index, of a node of 32 slots, by seven pivots in three rounds: eight slots, four of them, and one.
#[inline(always)]
fn seek_narrow<L: Ledger>(
    table: &MtTable,
    pass: &mut Pass,
    spot: Spot,
    index: u64,
    steps: &mut Steps<L>,
) -> u32
    requires pass { IsPassOf (identity_of table.now) pass.old }
    requires on { IsAtSpot (part_of pass.old) spot }
    requires slots { slots_of spot.width spot.kind ≡ 32 }
    requires to { index ≤ (here (part_of pass.old)).extent.last }
    ensures stepped { Stepped (identity_of table.now) pass.old pass.new }
    ensures sees { SeesMore (part_of pass.old) (part_of pass.new) }
    ensures on { IsAtSpot (part_of pass.new) spot }
    ensures slot { result ≡ slot_for (spans_here (part_of pass.old) (here (part_of pass.old))) index }
    ensures counted { IsCounted pass.old pass.new steps.old steps.new }
    ensures steps { steps.new ≡ steps.old + 7 }
{
    let eighth = load_in(table, pass, spot, 8, steps);
    let sixteenth = load_in(table, pass, spot, 16, steps);
    let last_eight = load_in(table, pass, spot, 24, steps);
    let eight = 8 * (under(eighth, index) + under(sixteenth, index) + under(last_eight, index));
    let middle = load_in(table, pass, spot, 4 + eight, steps);
    let group = eight + 4 * under(middle, index);
    let first = load_in(table, pass, spot, 1 + group, steps);
    let second = load_in(table, pass, spot, 2 + group, steps);
    let third = load_in(table, pass, spot, 3 + group, steps);
    group + (first < index) as u32 + under(second, index) + under(third, index)
}

/// The slot that holds an index, of a node of 21 slots, by six pivots in three rounds: five slots or six, three of them, and
/// one.
#[inline(always)]
fn seek_narrow_gapped<L: Ledger>(
    table: &MtTable,
    pass: &mut Pass,
    spot: Spot,
    index: u64,
    steps: &mut Steps<L>,
) -> u32
    requires pass { IsPassOf (identity_of table.now) pass.old }
    requires on { IsAtSpot (part_of pass.old) spot }
    requires slots { slots_of spot.width spot.kind ≡ 21 }
    requires to { index ≤ (here (part_of pass.old)).extent.last }
    ensures stepped { Stepped (identity_of table.now) pass.old pass.new }
    ensures sees { SeesMore (part_of pass.old) (part_of pass.new) }
    ensures on { IsAtSpot (part_of pass.new) spot }
    ensures slot { result ≡ slot_for (spans_here (part_of pass.old) (here (part_of pass.old))) index }
    ensures counted { IsCounted pass.old pass.new steps.old steps.new }
    ensures steps { steps.new ≡ steps.old + 6 }
{
    let fifth = load_in(table, pass, spot, 5, steps);
    let tenth = load_in(table, pass, spot, 10, steps);
    let fifteenth = load_in(table, pass, spot, 15, steps);
    let five = 5 * (under(fifth, index) + under(tenth, index) + under(fifteenth, index));
    let middle = load_in(table, pass, spot, 3 + five, steps);
    let group = five + 3 * under(middle, index);
    let first = load_in(table, pass, spot, 1 + group, steps);
    let second = load_in(table, pass, spot, 2 + group, steps);
    group + (first < index) as u32 + under(second, index)
}

/// The slot that holds an index, of the node that the section is at, by groups of its slots.
#[inline(always)]
fn seek_groups<L: Ledger>(
    table: &MtTable,
    pass: &mut Pass,
    spot: Spot,
    index: u64,
    steps: &mut Steps<L>,
) -> u32
    requires pass { IsPassOf (identity_of table.now) pass.old }
    requires on { IsAtSpot (part_of pass.old) spot }
    requires to { index ≤ (here (part_of pass.old)).extent.last }
    ensures stepped { Stepped (identity_of table.now) pass.old pass.new }
    ensures sees { SeesMore (part_of pass.old) (part_of pass.new) }
    ensures on { IsAtSpot (part_of pass.new) spot }
    ensures slot { result ≡ slot_for (spans_here (part_of pass.old) (here (part_of pass.old))) index }
    ensures counted { IsCounted pass.old pass.new steps.old steps.new }
    ensures few { steps.new + 5 ≤ steps.old + slots_of spot.width spot.kind }
    ensures steps { steps.new ≤ steps.old + 7 }
{
    match (spot.width, spot.kind) {
        (Width::Long, RowKind::Leaf | RowKind::Inner) => seek_wide(table, pass, spot, index, steps),
        (Width::Long, RowKind::Gapped) => seek_gapped(table, pass, spot, index, steps),
        (Width::Short, RowKind::Leaf | RowKind::Inner) => seek_narrow(
            table, pass, spot, index, steps,
        ),
        (Width::Short, RowKind::Gapped) => seek_narrow_gapped(table, pass, spot, index, steps),
    }
}

/// Touches two lines of the slots of the node that the section is at.
#[inline(always)]
fn touch_slots<L: Ledger>(table: &MtTable, pass: &mut Pass, spot: Spot, steps: &mut Steps<L>)
    requires pass { IsPassOf (identity_of table.now) pass.old }
    requires on { IsAtSpot (part_of pass.old) spot }
    ensures stepped { Stepped (identity_of table.now) pass.old pass.new }
    ensures sees { SeesMore (part_of pass.old) (part_of pass.new) }
    ensures on { IsAtSpot (part_of pass.new) spot }
    ensures counted { IsCounted pass.old pass.new steps.old steps.new }
    ensures steps { steps.new ≡ steps.old + 2 }
{
    let (near, far) = slots_apart(spot.width, spot.kind);
    touch_in(table, pass, spot, near, steps);
    touch_in(table, pass, spot, far, steps);
}

/// Touches two more lines of a node that has many.
#[inline(always)]
fn touch_ends<L: Ledger>(table: &MtTable, pass: &mut Pass, spot: Spot, steps: &mut Steps<L>)
    requires pass { IsPassOf (identity_of table.now) pass.old }
    requires on { IsAtSpot (part_of pass.old) spot }
    ensures stepped { Stepped (identity_of table.now) pass.old pass.new }
    ensures sees { SeesMore (part_of pass.old) (part_of pass.new) }
    ensures on { IsAtSpot (part_of pass.new) spot }
    ensures counted { IsCounted pass.old pass.new steps.old steps.new }
    ensures wide { spot.width ≡ Long → steps.new ≡ steps.old }
    ensures steps { steps.new ≤ steps.old + 2 }
{
    let Some((first, late)) = ends_apart(spot.width, spot.kind) else {
        return;
    };
    touch_in(table, pass, spot, first, steps);
    touch_in(table, pass, spot, late, steps);
}

/// Touches the lines of the node that the section is at in which its slots are sought.
#[inline(always)]
fn touch_lines<L: Ledger>(table: &MtTable, pass: &mut Pass, spot: Spot, steps: &mut Steps<L>)
    requires pass { IsPassOf (identity_of table.now) pass.old }
    requires on { IsAtSpot (part_of pass.old) spot }
    ensures stepped { Stepped (identity_of table.now) pass.old pass.new }
    ensures sees { SeesMore (part_of pass.old) (part_of pass.new) }
    ensures on { IsAtSpot (part_of pass.new) spot }
    ensures counted { IsCounted pass.old pass.new steps.old steps.new }
    ensures steps { steps.new ≤ steps.old + lines_touched spot.width }
{
    touch_slots(table, pass, spot, steps);
    touch_ends(table, pass, spot, steps);
}

/// The slot that holds an index, of the node that the section is at. Lines of its slots are touched first.
#[inline(always)]
pub fn seek<L: Ledger>(
    table: &MtTable,
    pass: &mut Pass,
    spot: Spot,
    index: u64,
    steps: &mut Steps<L>,
) -> u32
    requires pass { IsPassOf (identity_of table.now) pass.old }
    requires on { IsAtSpot (part_of pass.old) spot }
    requires to { index ≤ (here (part_of pass.old)).extent.last }
    ensures stepped { Stepped (identity_of table.now) pass.old pass.new }
    ensures sees { SeesMore (part_of pass.old) (part_of pass.new) }
    ensures on { IsAtSpot (part_of pass.new) spot }
    ensures slot { result ≡ slot_for (spans_here (part_of pass.old) (here (part_of pass.old))) index }
    ensures counted { IsCounted pass.old pass.new steps.old steps.new }
    ensures few { steps.new + 3 ≤ steps.old + slots_of spot.width spot.kind }
    ensures steps { steps.new ≤ steps.old + lines_touched spot.width + 7 }
{
    touch_lines(table, pass, spot, steps);
    seek_groups(table, pass, spot, index, steps)
}

/// The first index of what a slot of the node that the section is at holds.
#[inline(always)]
pub fn first_in<L: Ledger>(
    table: &MtTable,
    pass: &mut Pass,
    spot: Spot,
    min: u64,
    slot: u32,
    steps: &mut Steps<L>,
) -> u64
    requires pass { IsPassOf (identity_of table.now) pass.old }
    requires on { IsAtSpot (part_of pass.old) spot }
    requires min { min ≡ (here (part_of pass.old)).extent.first }
    requires slot { slot < length (spans_here (part_of pass.old) (here (part_of pass.old))) }
    ensures stepped { Stepped (identity_of table.now) pass.old pass.new }
    ensures sees { SeesMore (part_of pass.old) (part_of pass.new) }
    ensures on { IsAtSpot (part_of pass.new) spot }
    ensures first { result ≡ (span_at (spans_here (part_of pass.old) (here (part_of pass.old))) slot).first }
    ensures counted { IsCounted pass.old pass.new steps.old steps.new }
    ensures steps { steps.new ≡ steps.old + 1 }
{
    let before = load_in(table, pass, spot, slot.max(1), steps);
    if slot == 0 { min } else { before + 1 }
}

/// The last index of what a slot of the node that the section is at holds.
#[inline(always)]
pub fn last_in<L: Ledger>(
    table: &MtTable,
    pass: &mut Pass,
    spot: Spot,
    max: u64,
    slot: u32,
    steps: &mut Steps<L>,
) -> u64
    requires pass { IsPassOf (identity_of table.now) pass.old }
    requires on { IsAtSpot (part_of pass.old) spot }
    requires max { max ≡ (here (part_of pass.old)).extent.last }
    requires slot { slot < length (spans_here (part_of pass.old) (here (part_of pass.old))) }
    ensures stepped { Stepped (identity_of table.now) pass.old pass.new }
    ensures sees { SeesMore (part_of pass.old) (part_of pass.new) }
    ensures on { IsAtSpot (part_of pass.new) spot }
    ensures last { result ≡ (span_at (spans_here (part_of pass.old) (here (part_of pass.old))) slot).last }
    ensures counted { IsCounted pass.old pass.new steps.old steps.new }
    ensures steps { steps.new ≡ steps.old + 1 }
{
    let last_slot = slots(spot.width, spot.kind) - 1;
    let pivot = load_in(table, pass, spot, last_slot.min(1 + slot), steps);
    if slot == last_slot { max } else { pivot }
}
