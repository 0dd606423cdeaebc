//! What the slots of a node hold, with their gap words.

ghost use Rattle.std.specs.Prelude.{◌≡◌, ◌+◌, ◌<◌};
ghost use Rattle.mt_base.specs.Width.{columns};
ghost use Rattle.mt_layout.specs.declared.names.RowKind.{RowKind};
ghost use Rattle.mt_layout.specs.declared.names.RowKind.TheVariants.{Gapped};
ghost use Rattle.mt_layout.specs.Sizes.{slots_of};
ghost use Rattle.mt_rows.specs.Spans.{column};
ghost use Rattle.mt_rows.specs.Sheet.{IsPlace, ReadsUpTo, loaded};
ghost use Rattle.mt_gap.specs.Children.{row_children};
ghost use Rattle.mt_gap.specs.Slots.{last_in, word_in, gap_in, child_in};

use arrayvec::ArrayVec;
use mt_base::Width;
use mt_layout::{MOST_SLOTS, RowKind, Span, slots};
use mt_rows::Rows;

/// What a slot of a node holds, and the slot's gap word.
#[derive(Clone, Copy, Debug, Default)]
pub(crate) struct Child {
    pub(crate) span: Span,
    pub(crate) gap: u64,
}

/// What a node holds.
pub(crate) type Children = ArrayVec<Child, MOST_SLOTS>;

/// A slot of a node, and how wide the tree's nodes are.
#[derive(Clone, Copy)]
pub(crate) struct SlotAt {
    pub(crate) width: Width,
    pub(crate) row: u32,
    pub(crate) slot: u32,
}

/// The last index of what a slot of a node of this kind that ends at `max` holds.
#[tactic(auto, using(crate::proofs::Readings::one_load, crate::proofs::Readings::no_load))]
pub(crate) fn load_last<R: Rows>(rows: &mut R, kind: RowKind, at: SlotAt, max: u64) -> u64
    requires width { at.width ≡ (R.sheet rows.old).tree.table.width }
    requires row { IsPlace (R.sheet rows.old).tree at.row 0 }
    requires slot { at.slot < slots_of (R.sheet rows.old).tree.table.width kind }
    ensures last { result ≡ last_in (R.sheet rows.old).tree.table kind at.row max at.slot }
    ensures reads { ReadsUpTo 1 (R.sheet rows.old) (R.sheet rows.new) }
{
    if at.slot + 1 < slots(at.width, kind) {
        rows.load(at.row, 1 + at.slot)
    } else {
        max
    }
}

/// The word in a slot of a node of this kind.
pub(crate) fn load_word<R: Rows>(rows: &mut R, kind: RowKind, at: SlotAt) -> u64
    requires width { at.width ≡ (R.sheet rows.old).tree.table.width }
    requires row { IsPlace (R.sheet rows.old).tree at.row 0 }
    requires slot { at.slot < slots_of (R.sheet rows.old).tree.table.width kind }
    ensures word { result ≡ word_in (R.sheet rows.old).tree.table kind at.row at.slot }
    ensures rest { R.sheet rows.new ≡ loaded (R.sheet rows.old) }
{
    let column = slots(at.width, kind) + at.slot;
    rows.load(at.row, column)
}

/// The gap word of a slot of a node with gaps.
pub(crate) fn load_gap<R: Rows>(rows: &mut R, at: SlotAt) -> u64
    requires width { at.width ≡ (R.sheet rows.old).tree.table.width }
    requires row { IsPlace (R.sheet rows.old).tree at.row 0 }
    requires slot { at.slot < slots_of (R.sheet rows.old).tree.table.width Gapped }
    ensures gap { result ≡ gap_in (R.sheet rows.old).tree.table Gapped at.row at.slot }
    ensures rest { R.sheet rows.new ≡ loaded (R.sheet rows.old) }
{
    let column = 2 * slots(at.width, RowKind::Gapped) + at.slot;
    rows.load(at.row, column)
}

/// The children of a node with gaps that covers the indexes from `first` to `max`.
pub(crate) fn load_children<R: Rows>(rows: &mut R, row: u32, first: u64, max: u64) -> Children
    requires row { IsPlace (R.sheet rows.old).tree row 0 }
    ensures items { result.items ≡ row_children (R.sheet rows.old).tree.table row Gapped first max }
    ensures reads { ReadsUpTo (columns (R.sheet rows.old).tree.table.width) (R.sheet rows.old) (R.sheet rows.new) }
{
    let width = rows.width();
    let mut children = Children::new();
    let mut begin = first;
    for slot in 0..slots(width, RowKind::Gapped) {
        let at = SlotAt { width, row, slot };
        let last = load_last(rows, RowKind::Gapped, at, max);
        let child = load_child(rows, at, begin, last);
        children.push(child);
        if max <= last {
            return children;
        }
        begin = last + 1;
    }
    children
}

/// What a slot of a node with gaps holds, from an index to another.
#[tactic(auto, using(crate::proofs::Readings::two_loads))]
fn load_child<R: Rows>(rows: &mut R, at: SlotAt, first: u64, last: u64) -> Child
    requires width { at.width ≡ (R.sheet rows.old).tree.table.width }
    requires row { IsPlace (R.sheet rows.old).tree at.row 0 }
    requires slot { at.slot < slots_of (R.sheet rows.old).tree.table.width Gapped }
    ensures child { result ≡ child_in (R.sheet rows.old).tree.table Gapped at.row at.slot first last }
    ensures reads { ReadsUpTo 2 (R.sheet rows.old) (R.sheet rows.new) }
{
    let word = load_word(rows, RowKind::Gapped, at);
    Child {
        span: Span { first, last, word },
        gap: load_gap(rows, at),
    }
}
