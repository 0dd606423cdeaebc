//! The entry at an index, by a walk that keeps no ends of the nodes that it reaches.

ghost use Rattle.std.specs.Prelude.{◌≡◌, ◌≢◌, ℕ, ◌+◌, ◌*◌, ◌≤◌, Some, None, IsSome, IfSome, IfNone, Option, option_map, [], length};
ghost use Rattle.mt_base.specs.declared.calls.Query.TheVariants.{Load};
ghost use Rattle.mt_base.specs.declared.ranges.Range.{Range};
ghost use Rattle.mt_base.specs.Width.{columns, greatest_of, kind_width};
ghost use Rattle.mt_layout.specs.Rows.{row_in, named_kind};
ghost use Rattle.mt_layout.specs.declared.names.RowKind.TheVariants.{Leaf};
ghost use Rattle.mt_rule.specs.Places.{IsRowAt};
ghost use Rattle.mt_rule.specs.Sections.{here, moment_seen};
ghost use Rattle.mt_rule.specs.Tokens.{identity_of, part_of, IsCounted, IsPassOf, Stepped};
ghost use Rattle.mt_read.specs.Answers.{Answers};
ghost use Rattle.mt_read.specs.Seeks.{CoversHere, EntryRead, IsAtLeaf, IsAtSpot, row_steps, steps_below};
ghost use Rattle.mt_read.specs.Walks.{GoesOn};

use crate::descent::width_with;
use crate::seeks::{Spot, seek};
use mt_base::{Steps, Width, top};
use mt_layout::{RowKind, kind_of, row_of, slots};
use mt_rule::{MtTable, Pass, RowAt};
use std::sync::ledger::Ledger;

/// The place of the node of this width with this name.
#[inline(always)]
fn spot_named(name: u64, width: Width) -> Spot
    requires name { IsSome (named_kind name) }
    ensures number { result.at.number ≡ row_in name }
    ensures base { IsRowAt width result.at }
    ensures kind { Some result.kind ≡ named_kind name }
    ensures width { result.width ≡ width }
{
    let Some(number) = row_of(name) else {
        unreachable!()
    };
    let Some(kind) = kind_of(name) else {
        unreachable!()
    };
    Spot {
        at: RowAt::of_width(width, number),
        kind,
        width,
    }
}

/// The node below an inner node that covers an index there.
#[inline(always)]
fn spot_below<L: Ledger>(
    table: &MtTable,
    pass: &mut Pass,
    spot: Spot,
    index: u64,
    steps: &mut Steps<L>,
) -> Spot
    requires pass { IsPassOf (identity_of table.now) pass.old }
    requires on { IsAtSpot (part_of pass.old) spot }
    requires inner { spot.kind ≢ Leaf }
    requires covers { CoversHere (part_of pass.old) index }
    ensures stepped { Stepped (identity_of table.now) pass.old pass.new }
    ensures goes { GoesOn (part_of pass.old) (part_of pass.new) }
    ensures on { IsAtSpot (part_of pass.new) result }
    ensures since { (here (part_of pass.new)).since ≡ (here (part_of pass.old)).since }
    ensures level { (here (part_of pass.new)).extent.level + 1 ≡ (here (part_of pass.old)).extent.level }
    ensures covers { CoversHere (part_of pass.new) index }
    ensures counted { IsCounted pass.old pass.new steps.old steps.new }
    ensures steps { steps.new + steps_below (part_of pass.new) ≤ steps.old + steps_below (part_of pass.old) }
{
    let slot = seek(table, pass, spot, index, steps);
    let column = slots(spot.width, spot.kind) + slot;
    let name = table.load_slot(pass, spot.at, column, steps);
    spot_named(name, spot.width)
}

/// The leaf that covers an index, by a walk from the node that the section is at.
#[inline(always)]
fn descend<L: Ledger>(
    table: &MtTable,
    pass: &mut Pass,
    spot: Spot,
    index: u64,
    steps: &mut Steps<L>,
) -> Spot
    requires pass { IsPassOf (identity_of table.now) pass.old }
    requires on { IsAtSpot (part_of pass.old) spot }
    requires covers { CoversHere (part_of pass.old) index }
    ensures stepped { Stepped (identity_of table.now) pass.old pass.new }
    ensures goes { GoesOn (part_of pass.old) (part_of pass.new) }
    ensures leaf { IsAtLeaf (part_of pass.new) result }
    ensures since { (here (part_of pass.new)).since ≡ (here (part_of pass.old)).since }
    ensures covers { CoversHere (part_of pass.new) index }
    ensures counted { IsCounted pass.old pass.new steps.old steps.new }
    ensures steps { steps.new ≤ steps.old + steps_below (part_of pass.old) }
{
    let mut spot = spot;
    while spot.kind != RowKind::Leaf {
        spot = spot_below(table, pass, spot, index, steps);
    }
    spot
}

/// The word at an index in the leaf that the section is at: an entry, or 0 where a hole is.
#[inline(always)]
fn entry_in<L: Ledger>(
    table: &MtTable,
    pass: &mut Pass,
    leaf: Spot,
    index: u64,
    steps: &mut Steps<L>,
) -> u64
    requires pass { IsPassOf (identity_of table.now) pass.old }
    requires leaf { IsAtLeaf (part_of pass.old) leaf }
    requires covers { CoversHere (part_of pass.old) index }
    ensures stepped { Stepped (identity_of table.now) pass.old pass.new }
    ensures goes { GoesOn (part_of pass.old) (part_of pass.new) }
    ensures read { EntryRead (part_of pass.old) (part_of pass.new) index result }
    ensures counted { IsCounted pass.old pass.new steps.old steps.new }
    ensures steps { steps.new ≤ steps.old + row_steps (part_of pass.old) }
{
    let slot = seek(table, pass, leaf, index, steps);
    let column = slots(leaf.width, RowKind::Leaf) + slot;
    table.load_slot(pass, leaf.at, column, steps)
}

/// The leaf that covers an index, by a walk from the root over nodes of `COLS` words; none if the tree is empty.
#[inline(always)]
fn walk_by<const COLS: u32, L: Ledger>(
    table: &MtTable,
    pass: &mut Pass,
    index: u64,
    steps: &mut Steps<L>,
) -> Option<Spot>
    requires columns { COLS ≡ columns (kind_width (identity_of table.now).shape.kind) }
    requires pass { IsPassOf (identity_of table.now) pass.old }
    requires open { (part_of pass.old).standing ≢ None }
    requires index { index ≤ greatest_of (part_of pass.old).shape.kind }
    ensures stepped { Stepped (identity_of table.now) pass.old pass.new }
    ensures goes { GoesOn (part_of pass.old) (part_of pass.new) }
    ensures empty { IfNone result ((moment_seen (part_of pass.new) (length (part_of pass.new).seen)).ranges ≡ []) }
    ensures leaf { IfSome result (IsAtLeaf (part_of pass.new)) }
    ensures since { IfSome result (λ leaf. length (part_of pass.old).seen ≤ (here (part_of pass.new)).since) }
    ensures covers { IfSome result (λ leaf. CoversHere (part_of pass.new) index) }
    ensures counted { IsCounted pass.old pass.new steps.old steps.new }
    ensures steps { steps.new + row_steps (part_of pass.new) ≤ steps.old + 91 }
{
    let name = table.load_root(pass, steps);
    if name == 0 {
        return None;
    }
    let root = spot_named(name, width_with::<COLS>());
    Some(descend(table, pass, root, index, steps))
}

/// An entry, or none: 0 is a hole's, and the walk may have gone to another index, below the one that is asked about.
#[inline(always)]
fn entry_or_none(entry: u64, to: u64, index: u64) -> Option<u64>
    ensures none { entry ≡ 0 → result ≡ None }
    ensures above { (to ≡ index → ⊥) → result ≡ None }
    ensures some { entry ≢ 0 → to ≡ index → result ≡ Some entry }
{
    if entry == 0 || to != index {
        return None;
    }
    Some(entry)
}

/// The entry that an index holds, by a walk from the root over nodes of `COLS` words.
fn entry_by<const COLS: u32, L: Ledger>(
    table: &MtTable,
    pass: &mut Pass,
    index: u64,
    steps: &mut Steps<L>,
) -> Option<u64>
    requires columns { COLS ≡ columns (kind_width (identity_of table.now).shape.kind) }
    requires pass { IsPassOf (identity_of table.now) pass.old }
    requires open { (part_of pass.old).standing ≢ None }
    ensures stepped { Stepped (identity_of table.now) pass.old pass.new }
    ensures goes { GoesOn (part_of pass.old) (part_of pass.new) }
    ensures answer { (range : Option Range)
        × Answers (part_of pass.new) (length (part_of pass.old).seen) (Load index) range × (result ≡ option_map (λ r. r.entry) range) }
    ensures counted { IsCounted pass.old pass.new steps.old steps.new }
    ensures steps { steps.new ≤ steps.old + 91 }
{
    let to = index.min(top(width_with::<COLS>()));
    let leaf = walk_by::<COLS, L>(table, pass, to, steps)?;
    let entry = entry_in(table, pass, leaf, to, steps);
    entry_or_none(entry, to, index)
}

/// The entry that an index holds, by a walk from the root.
pub fn entry_of<L: Ledger>(
    table: &MtTable,
    pass: &mut Pass,
    index: u64,
    steps: &mut Steps<L>,
) -> Option<u64>
    requires pass { IsPassOf (identity_of table.now) pass.old }
    requires open { (part_of pass.old).standing ≢ None }
    ensures stepped { Stepped (identity_of table.now) pass.old pass.new }
    ensures goes { GoesOn (part_of pass.old) (part_of pass.new) }
    ensures answer { (range : Option Range)
        × Answers (part_of pass.new) (length (part_of pass.old).seen) (Load index) range × (result ≡ option_map (λ r. r.entry) range) }
    ensures counted { IsCounted pass.old pass.new steps.old steps.new }
    ensures steps { steps.new ≤ steps.old + 91 }
{
    match table.width() {
        Width::Long => entry_by::<32, L>(table, pass, index, steps),
        Width::Short => entry_by::<64, L>(table, pass, index, steps),
    }
}
