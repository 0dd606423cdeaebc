//! What a search takes of a node: the children that may have room, and the room in a leaf. Each slot is looked at once, and the
//! words of slots that are not taken are not loaded.

ghost use Rattle.std.specs.Prelude.{◌≡◌, ◌+◌, ◌<◌, ◌≤◌, ◌++◌, ℕ, IfSome, Some, None, [], ◌∷◌, false, length, slice_get, take, if◌then◌else◌};
ghost use Rattle.std.specs.List.{flat_map};
ghost use Rattle.std.specs.Option.{option_map};
ghost use Rattle.mt_base.specs.Holes.{kept, lowest_in, highest_in};
ghost use Rattle.mt_base.specs.Width.{columns};
ghost use Rattle.mt_layout.specs.declared.names.RowKind.TheVariants.{Gapped};
ghost use Rattle.mt_layout.specs.Sizes.{slots_of};
ghost use Rattle.mt_rows.specs.Sheet.{IsPlace, ReadsUpTo};
ghost use Rattle.mt_gap.specs.Below.{leaf_hole, child_hole};
ghost use Rattle.mt_gap.specs.Children.{row_children};
ghost use Rattle.mt_gap.specs.Descents.{picked};
ghost use Rattle.mt_gap.specs.Narrow.{may_have, inside, narrow, has_sure, next_up, narrow_up};
ghost use Rattle.mt_gap.specs.Slots.{child_in};

use crate::children::{Child, SlotAt, load_gap, load_last, load_word};
use arrayvec::ArrayVec;
use mt_base::Width;
use mt_layout::{RowKind, Span, slots};
use mt_rows::Rows;

/// How many nodes of a level a search goes into at most, and one more.
const MOST_ASKED: usize = 3;

/// The nodes of a level that a search goes into, from the left.
pub(crate) type Asked = ArrayVec<Child, MOST_ASKED>;

/// Room for `size` indexes is sought from `lo` to `hi`.
#[derive(Clone, Copy, Debug)]
pub(crate) struct Window {
    pub(crate) size: u64,
    pub(crate) lo: u64,
    pub(crate) hi: u64,
}

/// Whether there can be room below a child with this gap word, and in the window.
fn may_have(window: Window, first: u64, last: u64, gap: u64) -> bool
    ensures { (word : ℕ) → result ≡ may_have window.size window.lo window.hi (record { span = record { first = first; last = last; word = word }; gap = gap }) }
{
    window.size <= gap && first <= window.hi && window.lo <= last
}

/// Whether a child lies in the window.
pub(crate) fn is_inside(window: Window, first: u64, last: u64) -> bool
    ensures { (word gap : ℕ) → result ≡ inside window.lo window.hi (record { span = record { first = first; last = last; word = word }; gap = gap }) }
{
    window.lo <= first && last <= window.hi
}

/// What a slot of a node with gaps holds, if it may have room. Its word is loaded only then.
pub(crate) fn room_in_slot<R: Rows>(
    rows: &mut R,
    at: SlotAt,
    first: u64,
    last: u64,
    window: Window,
) -> Option<Child>
    requires width { at.width ≡ (R.sheet rows.old).tree.table.width }
    requires row { IsPlace (R.sheet rows.old).tree at.row 0 }
    requires slot { at.slot < slots_of (R.sheet rows.old).tree.table.width Gapped }
    ensures child { let x = child_in (R.sheet rows.old).tree.table Gapped at.row at.slot first last in
        result ≡ (if may_have window.size window.lo window.hi x then Some x else None) }
    ensures reads { ReadsUpTo 2 (R.sheet rows.old) (R.sheet rows.new) }
{
    let gap = load_gap(rows, at);
    if !may_have(window, first, last, gap) {
        return None;
    }
    let word = load_word(rows, RowKind::Gapped, at);
    Some(Child {
        span: Span { first, last, word },
        gap,
    })
}

/// Adds what a slot of a node with gaps holds to the nodes that are asked, if it may have room. Returns whether it lies in the
/// window.
fn ask_slot<R: Rows>(
    rows: &mut R,
    at: SlotAt,
    first: u64,
    last: u64,
    window: Window,
    asked: &mut Asked,
) -> bool
    requires width { at.width ≡ (R.sheet rows.old).tree.table.width }
    requires row { IsPlace (R.sheet rows.old).tree at.row 0 }
    requires slot { at.slot < slots_of (R.sheet rows.old).tree.table.width Gapped }
    requires room { length asked.old.items
        + length (narrow window.size window.lo window.hi (child_in (R.sheet rows.old).tree.table Gapped at.row at.slot first last ∷ [])) ≤ 3 }
    ensures items { asked.new.items ≡ asked.old.items
        ++ narrow window.size window.lo window.hi (child_in (R.sheet rows.old).tree.table Gapped at.row at.slot first last ∷ []) }
    ensures found { result ≡ has_sure window.size window.lo window.hi (child_in (R.sheet rows.old).tree.table Gapped at.row at.slot first last ∷ []) }
    ensures reads { ReadsUpTo 2 (R.sheet rows.old) (R.sheet rows.new) }
{
    let Some(child) = room_in_slot(rows, at, first, last, window) else {
        return false;
    };
    asked.push(child);
    is_inside(window, first, last)
}

/// Adds those of a node's children that may have room to the nodes that are asked, up to the first that lies in the window.
/// Returns whether there was one. The node has gaps, and covers the indexes from `first` to `max`.
pub(crate) fn ask_row<R: Rows>(
    rows: &mut R,
    row: u32,
    first: u64,
    max: u64,
    window: Window,
    asked: &mut Asked,
) -> bool
    requires row { IsPlace (R.sheet rows.old).tree row 0 }
    requires room { length asked.old.items
        + length (narrow window.size window.lo window.hi (row_children (R.sheet rows.old).tree.table row Gapped first max)) ≤ 3 }
    ensures items { asked.new.items ≡ asked.old.items
        ++ narrow window.size window.lo window.hi (row_children (R.sheet rows.old).tree.table row Gapped first max) }
    ensures found { result ≡ has_sure window.size window.lo window.hi (row_children (R.sheet rows.old).tree.table row Gapped first max) }
    ensures reads { ReadsUpTo (columns (R.sheet rows.old).tree.table.width) (R.sheet rows.old) (R.sheet rows.new) }
{
    let width = rows.width();
    let mut begin = first;
    for slot in 0..slots(width, RowKind::Gapped) {
        let at = SlotAt { width, row, slot };
        let last = load_last(rows, RowKind::Gapped, at, max);
        if ask_slot(rows, at, begin, last, window, asked) {
            return true;
        }
        if max <= last {
            return false;
        }
        begin = last + 1;
    }
    false
}

/// Takes a child that may have room: one that lies in the window replaces all before it.
fn take_up(child: Child, is_inside: bool, asked: &mut Asked)
    requires room { is_inside ≡ false → length asked.old.items < 3 }
    ensures { asked.new.items ≡ (if is_inside then child ∷ [] else asked.old.items ++ (child ∷ [])) }
{
    if is_inside {
        asked.clear();
    }
    asked.push(child);
}

/// Takes what a slot of a node with gaps holds, if it may have room: if it lies in the window, it replaces all before it.
fn ask_slot_up<R: Rows>(
    rows: &mut R,
    at: SlotAt,
    first: u64,
    last: u64,
    window: Window,
    asked: &mut Asked,
)
    requires width { at.width ≡ (R.sheet rows.old).tree.table.width }
    requires row { IsPlace (R.sheet rows.old).tree at.row 0 }
    requires slot { at.slot < slots_of (R.sheet rows.old).tree.table.width Gapped }
    requires room { length (next_up window.size window.lo window.hi asked.old.items
        (child_in (R.sheet rows.old).tree.table Gapped at.row at.slot first last)) ≤ 3 }
    ensures items { asked.new.items
        ≡ next_up window.size window.lo window.hi asked.old.items (child_in (R.sheet rows.old).tree.table Gapped at.row at.slot first last) }
    ensures reads { ReadsUpTo 2 (R.sheet rows.old) (R.sheet rows.new) }
{
    if let Some(child) = room_in_slot(rows, at, first, last, window) {
        take_up(child, is_inside(window, first, last), asked);
    }
}

/// Takes those of a node's children that may have room: one that lies in the window replaces all before it. The node has gaps,
/// and covers the indexes from `first` to `max`.
pub(crate) fn ask_row_up<R: Rows>(
    rows: &mut R,
    row: u32,
    first: u64,
    max: u64,
    window: Window,
    asked: &mut Asked,
)
    requires row { IsPlace (R.sheet rows.old).tree row 0 }
    requires room { (k : ℕ)
        → length (narrow_up window.size window.lo window.hi asked.old.items (take k (row_children (R.sheet rows.old).tree.table row Gapped first max))) ≤ 3 }
    ensures items { asked.new.items
        ≡ narrow_up window.size window.lo window.hi asked.old.items (row_children (R.sheet rows.old).tree.table row Gapped first max) }
    ensures reads { ReadsUpTo (columns (R.sheet rows.old).tree.table.width) (R.sheet rows.old) (R.sheet rows.new) }
{
    let width = rows.width();
    let mut begin = first;
    for slot in 0..slots(width, RowKind::Gapped) {
        let at = SlotAt { width, row, slot };
        let last = load_last(rows, RowKind::Gapped, at, max);
        ask_slot_up(rows, at, begin, last, window, asked);
        if max <= last {
            return;
        }
        begin = last + 1;
    }
}

/// The part of a leaf's hole in the window, if it has room for `size` indexes: its first and last index.
fn room_in(window: Window, span: Span) -> Option<(u64, u64)>
    requires size { 1 ≤ window.size }
    ensures room { option_map (λ p. record { first = p.0; last = p.1 }) result ≡ slice_get (kept window.size window.lo window.hi (leaf_hole span)) 0 }
    ensures long { IfSome result (λ p. p.0 + window.size ≤ p.1 + 1) }
{
    if span.word != 0 {
        return None;
    }
    let first = window.lo.max(span.first);
    let last = window.hi.min(span.last);
    if first <= last && window.size - 1 <= last - first {
        Some((first, last))
    } else {
        None
    }
}

/// The lowest place in a span of a leaf.
pub(crate) fn low_place(window: Window, span: Span) -> Option<u64>
    requires size { 1 ≤ window.size }
    ensures place { result ≡ lowest_in (kept window.size window.lo window.hi (leaf_hole span)) }
{
    match room_in(window, span) {
        Some((first, _)) => Some(first),
        None => None,
    }
}

/// The highest place in a span of a leaf.
pub(crate) fn high_place(window: Window, span: Span) -> Option<u64>
    requires size { 1 ≤ window.size }
    ensures place { result ≡ highest_in window.size (kept window.size window.lo window.hi (leaf_hole span)) }
{
    match room_in(window, span) {
        Some((_, last)) => Some(last - (window.size - 1)),
        None => None,
    }
}

/// The lowest place in a node of this kind that covers the indexes from `first` to `max`, and whose slots hold entries and
/// holes.
pub(crate) fn lowest_of<R: Rows>(
    rows: &mut R,
    kind: RowKind,
    row: u32,
    first: u64,
    max: u64,
    window: Window,
) -> Option<u64>
    requires row { IsPlace (R.sheet rows.old).tree row 0 }
    requires size { 1 ≤ window.size }
    ensures place { result ≡ picked lowest_in window (flat_map child_hole (row_children (R.sheet rows.old).tree.table row kind first max)) }
    ensures reads { ReadsUpTo (columns (R.sheet rows.old).tree.table.width) (R.sheet rows.old) (R.sheet rows.new) }
{
    let width = rows.width();
    let mut begin = first;
    for slot in 0..slots(width, kind) {
        let at = SlotAt { width, row, slot };
        let last = load_last(rows, kind, at, max);
        let word = load_word(rows, kind, at);
        let place = low_place(
            window,
            Span {
                first: begin,
                last,
                word,
            },
        );
        if place.is_some() {
            return place;
        }
        if max <= last {
            return None;
        }
        begin = last + 1;
    }
    None
}

/// The highest place in a node of this kind that covers the indexes from `first` to `max`, and whose slots hold entries and
/// holes.
pub(crate) fn highest_of<R: Rows>(
    rows: &mut R,
    kind: RowKind,
    row: u32,
    first: u64,
    max: u64,
    window: Window,
) -> Option<u64>
    requires row { IsPlace (R.sheet rows.old).tree row 0 }
    requires size { 1 ≤ window.size }
    ensures place { result ≡ picked (highest_in window.size) window (flat_map child_hole (row_children (R.sheet rows.old).tree.table row kind first max)) }
    ensures reads { ReadsUpTo (columns (R.sheet rows.old).tree.table.width) (R.sheet rows.old) (R.sheet rows.new) }
{
    let width = rows.width();
    let mut found = None;
    let mut begin = first;
    for slot in 0..slots(width, kind) {
        let at = SlotAt { width, row, slot };
        let last = load_last(rows, kind, at, max);
        let word = load_word(rows, kind, at);
        found = high_place(
            window,
            Span {
                first: begin,
                last,
                word,
            },
        )
        .or(found);
        if max <= last {
            return found;
        }
        begin = last + 1;
    }
    found
}
