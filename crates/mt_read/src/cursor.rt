//! Walks from range to range, which keep the leaf that they are at.

ghost use Rattle.std.specs.Prelude.{◌≡◌, ◌≢◌, ◌⊎◌, ℕ, ◌+◌, ◌≤◌, Some, None, IfSome, IfNone, length};
ghost use Rattle.mt_base.specs.Width.{greatest_of};
ghost use Rattle.mt_base.specs.declared.calls.Query.TheVariants.{Find};
ghost use Rattle.mt_base.specs.Passes as known;
ghost use Rattle.mt_rule.specs.Sections.{closed_section, here};
ghost use Rattle.mt_rule.specs.Tokens.{identity_of, part_of, pass_in, tree_in, IsPassOf, Stepped, IsCounted};
ghost use Rattle.mt_read.specs.Answers.{Answers};
ghost use Rattle.mt_read.specs.Cursors.{GoesKept, HasStepped, IsCursorOf, IsOnKeptLeaf, IsOver, IsOverPlace};
ghost use Rattle.mt_read.specs.Cursors.{LeafWasMarked, MarksKeptLeaf, MayStepOn, Resumed, epoch_or};
ghost use Rattle.mt_read.specs.Leaves.{KeepsReached};
ghost use Rattle.mt_read.specs.Walks.{GoesOn, WasMarked};

use crate::bounds::{not_below, within};
use crate::descent::{Row, find_along, sought, walk_along};
use crate::reads::first_at;
use mt_base::{Range, Read, Steps, place_behind, place_within};
use mt_layout::is_dead_mark;
use mt_rule::{MtTable, Pass};
use std::sync::ledger::Ledger;

/// A leaf that a cursor is at, and how many calls had ended at the step that walked to it.
#[derive(Clone, Copy)]
pub struct KeptLeaf {
    leaf: Row,
    lo: u64,
}

/// The first range that ends at an index or above, in the leaf that is kept and covers the index. There is no answer where the
/// leaf is found marked.
#[inline(always)]
fn first_at_kept<L: Ledger>(
    table: &MtTable,
    pass: &mut Pass,
    kept: &KeptLeaf,
    index: u64,
    steps: &mut Steps<L>,
) -> Option<Option<Range>>
    requires pass { IsPassOf (identity_of table.now) pass.old }
    requires kept { IsOnKeptLeaf (part_of pass.old) kept.now }
    requires over { IsOver (Some kept.now) index }
    ensures stepped { Stepped (identity_of table.now) pass.old pass.new }
    ensures goes { IfSome result (λ found. GoesOn (part_of pass.old) (part_of pass.new)) }
    ensures kept { IsOnKeptLeaf (part_of pass.new) kept.now }
    ensures answer { IfSome result (Answers (part_of pass.new) (length (part_of pass.old).seen) (Find index (greatest_of (part_of pass.old).shape.kind))) }
    ensures within { IfSome result (λ found. IfSome found (λ range. IsOver (Some kept.now) range.last)) }
    ensures marked { IfNone result (WasMarked (here (part_of pass.old)) (part_of pass.old) (part_of pass.new)) }
    ensures counted { IsCounted pass.old pass.new steps.old steps.new }
    ensures steps { steps.new ≤ steps.old + 35 }
{
    let leaf = kept.leaf;
    let place = find_along(table, pass, &leaf, index, steps);
    let range = first_at(table, pass, &leaf, &place, index, steps);
    let parent = table.load_parent(pass, leaf.at, steps);
    if is_dead_mark(leaf.at.number, parent) {
        return None;
    }
    Some(range)
}

/// The first range that ends at an index or above, by a walk from the root: the leaf that it is in is kept then. It is not
/// inlined: most steps stay in a leaf.
#[inline(never)]
fn first_anew<L: Ledger>(
    table: &MtTable,
    pass: &mut Pass,
    leaf: &mut Option<KeptLeaf>,
    lo: u64,
    index: u64,
    steps: &mut Steps<L>,
) -> Option<Range>
    requires pass { IsPassOf (identity_of table.now) pass.old }
    requires open { (part_of pass.old).standing ≢ None }
    requires lo { lo ≤ length (part_of pass.old).seen }
    ensures stepped { Stepped (identity_of table.now) pass.old pass.new }
    ensures goes { GoesOn (part_of pass.old) (part_of pass.new) }
    ensures kept { IfSome leaf.new (IsOnKeptLeaf (part_of pass.new)) }
    ensures lo { IfSome leaf.new (λ kept. kept.lo ≡ lo) }
    ensures reached { KeepsReached (part_of pass.old) (part_of pass.new) }
    ensures answer { Answers (part_of pass.new) (length (part_of pass.old).seen) (Find index (greatest_of (part_of pass.old).shape.kind)) result }
    ensures within { IfSome result (λ range. IsOver leaf.new range.last) }
    ensures counted { IsCounted pass.old pass.new steps.old steps.new }
    ensures steps { steps.new ≤ steps.old + 163 }
{
    let to = sought(table, index);
    let Some(found) = walk_along(table, pass, to, steps) else {
        *leaf = None;
        return None;
    };
    let place = find_along(table, pass, &found, to, steps);
    let range = first_at(table, pass, &found, &place, to, steps);
    *leaf = Some(KeptLeaf { leaf: found, lo });
    not_below(range, index, index)
}

/// The first range that ends at an index or above: from the leaf that is kept, where that covers the index and is not found
/// marked, and else by a walk from the root. It is inlined into its caller, so that a leaf that stays is not written.
#[inline(always)]
fn first_behind<L: Ledger>(
    table: &MtTable,
    pass: &mut Pass,
    leaf: &mut Option<KeptLeaf>,
    lo: u64,
    index: u64,
    steps: &mut Steps<L>,
) -> Option<Range>
    requires { MayStepOn (identity_of table.now) pass.old lo leaf.old }
    ensures gone { GoesKept (identity_of table.now) lo leaf.old leaf.new pass.old pass.new }
    ensures answer { Answers (part_of pass.new) (length (part_of pass.old).seen) (Find index (greatest_of (part_of pass.old).shape.kind)) result }
    ensures within { IfSome result (λ range. IsOver leaf.new range.last) }
    ensures marks { MarksKeptLeaf leaf.old (Some index) (part_of pass.new).risen (part_of pass.old) (part_of pass.new) }
    ensures short { IsOver leaf.old index
        → (steps.new ≤ steps.old + 35) ⊎ LeafWasMarked leaf.old (Some index) (part_of pass.new).risen (part_of pass.old) (part_of pass.new) }
    ensures stays { IsOver leaf.old index
        → (leaf.new ≡ leaf.old) ⊎ LeafWasMarked leaf.old (Some index) (part_of pass.new).risen (part_of pass.old) (part_of pass.new) }
    ensures far { (IsOver leaf.old index → ⊥) → steps.new ≤ steps.old + 163 }
    ensures reached { KeepsReached (part_of pass.old) (part_of pass.new) }
    ensures counted { IsCounted pass.old pass.new steps.old steps.new }
    ensures steps { steps.new ≤ steps.old + 198 }
{
    let Some(kept) = *leaf else {
        return first_anew(table, pass, leaf, lo, index, steps);
    };
    if index < kept.leaf.min || kept.leaf.max < index {
        return first_anew(table, pass, leaf, lo, index, steps);
    }
    match first_at_kept(table, pass, &kept, index, steps) {
        Some(range) => range,
        None => first_anew(table, pass, leaf, lo, index, steps),
    }
}

/// A walk over the ranges of a tree, from an index up to a bound.
#[derive(Drop)]
pub struct Cursor {
    /// Where the next step looks from. There is no place once the walk has ended.
    pub(crate) at: Option<u64>,
    pub(crate) max: u64,
    pub(crate) leaf: Option<KeptLeaf>,
    /// The epoch of its section, while that is open.
    pub(crate) epoch: Option<u64>,
}

impl Cursor {
    ghost use Rattle.std.specs.Prelude.{◌≡◌, ◌≢◌, ◌⊎◌, ℕ, ◌+◌, ◌≤◌, Some, None, IfSome, length};
    ghost use Rattle.mt_base.specs.Width.{greatest_of};
    ghost use Rattle.mt_base.specs.declared.calls.Query.TheVariants.{Find};
    ghost use Rattle.mt_base.specs.Passes as known;
    ghost use Rattle.mt_rule.specs.Sections.{closed_section};
    ghost use Rattle.mt_rule.specs.Tokens.{identity_of, part_of, pass_in, tree_in, IsPassOf, Stepped, IsCounted};
    ghost use Rattle.mt_read.specs.Answers.{Answers};
    ghost use Rattle.mt_read.specs.Cursors.{GoesKept, HasStepped, IsCursorOf, IsOnKeptLeaf, IsOver, IsOverPlace};
    ghost use Rattle.mt_read.specs.Cursors.{LeafWasMarked, MarksKeptLeaf, MayStepOn, Resumed, epoch_or};
    ghost use Rattle.mt_read.specs.Leaves.{KeepsReached};
    ghost use Rattle.mt_base.specs.Places.{find_at, place_behind, place_within};

    /// A walk from an index up to a bound. It opens no section yet.
    pub fn new(from: u64, max: u64) -> Cursor
        ensures at { result.at ≡ place_within from max }
        ensures max { result.max ≡ max }
        ensures leaf { result.leaf ≡ None }
        ensures epoch { result.epoch ≡ None }
    {
        let at = place_within(from, max);
        Cursor {
            at,
            max,
            leaf: None,
            epoch: None,
        }
    }

    /// Where the next step looks from. There is no place once the walk has ended.
    pub fn at(&self) -> Option<u64>
        ensures { result ≡ self.now.at }
    {
        self.at
    }

    /// Begins a step: returns how many calls have ended, and opens the section if it is not open.
    pub(crate) fn resume<L: Ledger>(
        &mut self,
        table: &MtTable,
        pass: &mut Pass,
        steps: &mut Steps<L>,
    ) -> u64
        requires pass { IsPassOf (identity_of table.now) pass.old }
        requires cursor { IsCursorOf (part_of pass.old) self.old }
        ensures stepped { Stepped (identity_of table.now) pass.old pass.new }
        ensures resumed { Resumed result self.old.epoch (part_of pass.old) (part_of pass.new) }
        ensures cursor { IsCursorOf (part_of pass.new) self.new }
        ensures same { self.new ≡ record self.old { epoch = Some (epoch_or self.old.epoch result) } }
        ensures counted { IsCounted pass.old pass.new steps.old steps.new }
        ensures steps { steps.new ≤ steps.old + 2 }
    {
        let lo = table.load_commits(pass, steps);
        if self.epoch.is_none() {
            table.open_section(pass, lo, steps);
            self.epoch = Some(lo);
        }
        lo
    }

    /// The first range from an index on, up to the bound, and the leaf that it was found in is kept.
    #[inline(always)]
    pub(crate) fn look<L: Ledger>(
        &mut self,
        table: &MtTable,
        pass: &mut Pass,
        lo: u64,
        index: u64,
        steps: &mut Steps<L>,
    ) -> Option<Range>
        requires { MayStepOn (identity_of table.now) pass.old lo self.old.leaf }
        ensures gone { GoesKept (identity_of table.now) lo self.old.leaf self.new.leaf pass.old pass.new }
        ensures same { self.new ≡ record self.old { leaf = self.new.leaf } }
        ensures answer { Answers (part_of pass.new) (length (part_of pass.old).seen) (Find index self.old.max) result }
        ensures within { IfSome result (λ range. IsOver self.new.leaf range.last) }
        ensures marks { MarksKeptLeaf self.old.leaf (Some index) (part_of pass.new).risen (part_of pass.old) (part_of pass.new) }
        ensures short { IsOver self.old.leaf index → (steps.new ≤ steps.old + 35)
            ⊎ LeafWasMarked self.old.leaf (Some index) (part_of pass.new).risen (part_of pass.old) (part_of pass.new) }
        ensures stays { IsOver self.old.leaf index → (self.new.leaf ≡ self.old.leaf)
            ⊎ LeafWasMarked self.old.leaf (Some index) (part_of pass.new).risen (part_of pass.old) (part_of pass.new) }
        ensures far { (IsOver self.old.leaf index → ⊥) → steps.new ≤ steps.old + 163 }
        ensures reached { KeepsReached (part_of pass.old) (part_of pass.new) }
        ensures counted { IsCounted pass.old pass.new steps.old steps.new }
        ensures steps { steps.new ≤ steps.old + 198 }
    {
        let found = first_behind(table, pass, &mut self.leaf, lo, index, steps);
        within(found, index, self.max)
    }

    /// The next range of the walk. There is none if the walk has ended, or ends here.
    pub fn step<L: Ledger>(
        &mut self,
        table: &MtTable,
        pass: &mut Pass,
        steps: &mut Steps<L>,
    ) -> Read<Option<Range>>
        requires pass { IsPassOf (identity_of table.now) pass.old }
        requires cursor { IsCursorOf (part_of pass.old) self.old }
        ensures stepped { Stepped (identity_of table.now) pass.old pass.new }
        ensures cursor { IsCursorOf (part_of pass.new) self.new }
        ensures read { (k : ℕ) × known.Read (tree_in (identity_of table.now))
            (pass_in pass.old) result.lo result.hi k (find_at self.old.at self.old.max) result.value (pass_in pass.new) }
        ensures section { HasStepped result.lo result.hi self.old.epoch (pass_in pass.old) (pass_in pass.new) }
        ensures at { self.new.at ≡ place_behind result.value self.old.max }
        ensures max { self.new.max ≡ self.old.max }
        ensures epoch { self.new.epoch ≡ Some (epoch_or self.old.epoch result.lo) }
        ensures leaf { IfSome result.value (λ range. IsOver self.new.leaf range.last) }
        ensures lo { (self.new.leaf ≡ self.old.leaf) ⊎ IfSome self.new.leaf (λ kept. kept.lo ≡ result.lo) }
        ensures marks { MarksKeptLeaf self.old.leaf self.old.at result.hi (part_of pass.old) (part_of pass.new) }
        ensures short { IsOverPlace self.old.leaf self.old.at
            → (steps.new ≤ steps.old + 40) ⊎ LeafWasMarked self.old.leaf self.old.at result.hi (part_of pass.old) (part_of pass.new) }
        ensures counted { IsCounted pass.old pass.new steps.old steps.new }
        ensures steps { steps.new ≤ steps.old + 220 }
    {
        let lo = self.resume(table, pass, steps);
        let Some(index) = self.at else {
            let hi = table.load_begun(pass, steps);
            return Read {
                lo,
                hi,
                value: None,
            };
        };
        let value = self.look(table, pass, lo, index, steps);
        let hi = table.load_begun(pass, steps);
        self.at = place_behind(value, self.max);
        Read { lo, hi, value }
    }

    /// Closes the section, and keeps the place alone: the next step opens a section and walks again.
    pub fn pause<L: Ledger>(&mut self, table: &MtTable, pass: &mut Pass, steps: &mut Steps<L>)
        requires pass { IsPassOf (identity_of table.now) pass.old }
        ensures stepped { Stepped (identity_of table.now) pass.old pass.new }
        ensures cursor { IsCursorOf (part_of pass.new) self.new }
        ensures same { self.new ≡ record self.old { leaf = None; epoch = None } }
        ensures closed { pass_in pass.new ≡ record (pass_in pass.old) { standing = None } }
        ensures counted { IsCounted pass.old pass.new steps.old steps.new }
        ensures steps { steps.new ≡ steps.old + 1 }
    {
        table.close_section(pass, steps);
        self.leaf = None;
        self.epoch = None;
    }

    /// Ends the walk, and closes the section.
    pub fn close<L: Ledger>(self, table: &MtTable, pass: &mut Pass, steps: &mut Steps<L>)
        requires pass { IsPassOf (identity_of table.now) pass.old }
        ensures stepped { Stepped (identity_of table.now) pass.old pass.new }
        ensures closed { pass_in pass.new ≡ record (pass_in pass.old) { standing = None } }
        ensures counted { IsCounted pass.old pass.new steps.old steps.new }
        ensures steps { steps.new ≡ steps.old + 1 }
    {
        table.close_section(pass, steps);
    }
}
