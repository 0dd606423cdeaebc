ghost use Rattle.std.specs.Prelude.{◌≡◌, ◌≢◌, ℕ, ◌+◌, ◌<◌, ◌≤◌, length, nat_lt, slice_index, if◌then◌else◌};
ghost use Rattle.mt_layout.specs.Columns.{IsLayout, FitRow, pivot_column, slot_column, gap_column, item_at, items_at, row_words, end_of};

use crate::items::Item;
use arrayvec::ArrayVec;

/// The columns of a node: a parent word, then a pivot for each slot but the last, then the slots, then the gaps.
macro_rules! column {
    (parent) => { 0 };
    (pivot of $item:expr) => { 1 + $item };
    (slot of $item:expr) => { SLOTS + $item };
    (gap of $item:expr) => { 2 * SLOTS + $item };
    (unused) => { 2 * SLOTS + GAPS };
}

/// The columns of a node with `SLOTS` slots and `GAPS` gaps. Inner nodes of allocation trees have a gap for each slot. Leaves
/// and inner nodes of range trees have none.
pub struct Layout<const SLOTS: usize, const GAPS: usize>;

impl<const SLOTS: usize, const GAPS: usize> Layout<SLOTS, GAPS> {
    /// The items of the node with these words, whose greatest index is `max`. Reads no column twice, and none after the last
    /// item's.
    pub fn items_of(words: &[u64], max: u64) -> ArrayVec<Item, SLOTS>
        requires layout { IsLayout (length words.now) SLOTS GAPS }
        ensures { result.items ≡ items_at SLOTS GAPS words.now 0 max }
    {
        let mut items = ArrayVec::new();
        for i in 0..SLOTS {
            let item = Self::item_in(words, i, max);
            items.push(item);
            if max <= item.last {
                break;
            }
        }
        items
    }

    /// The item in slot `i` of the node with these words, whose greatest index is `max`.
    fn item_in(words: &[u64], i: usize, max: u64) -> Item
        requires layout { IsLayout (length words.now) SLOTS GAPS }
        requires slot { i < SLOTS }
        ensures item { result ≡ item_at SLOTS GAPS words.now 0 i result.last }
        ensures last { result.last ≡ (if nat_lt (i + 1) SLOTS then slice_index words.now (pivot_column i) else max) }
    {
        Item {
            last: if i + 1 < SLOTS {
                words[column!(pivot of i)]
            } else {
                max
            },
            word: words[column!(slot of i)],
            gap: if GAPS == 0 {
                0
            } else {
                words[column!(gap of i)]
            },
        }
    }

    /// Writes the words of a node with these items and this parent word, each once. What is unused is 0.
    #[inline(always)]
    pub fn words_of(items: &[Item], parent: u64, words: &mut [u64])
        requires layout { IsLayout (length words.old) SLOTS GAPS }
        requires fit { length items.now ≤ SLOTS }
        ensures words { words.new ≡ row_words (length words.old) SLOTS GAPS parent items.now }
        ensures read_back { FitRow SLOTS GAPS items.now → items_at SLOTS GAPS words.new 0 (end_of 0 items.now) ≡ items.now }
    {
        words[column!(parent)] = parent;
        for i in 0..SLOTS {
            Self::write_item(words, i, items.get(i).copied().unwrap_or_default());
        }
        words[column!(unused)..].fill(0);
    }

    /// Writes an item into slot `i` of the node with these words.
    fn write_item(words: &mut [u64], i: usize, item: Item)
        requires layout { IsLayout (length words.old) SLOTS GAPS }
        requires slot { i < SLOTS }
        ensures pivot { i + 1 < SLOTS → slice_index words.new (pivot_column i) ≡ item.last }
        ensures slot { slice_index words.new (slot_column SLOTS i) ≡ item.word }
        ensures gap { 0 < GAPS → slice_index words.new (gap_column SLOTS i) ≡ item.gap }
        ensures others { (c : ℕ) → (i + 1 < SLOTS → c ≢ pivot_column i) → c ≢ slot_column SLOTS i
            → (0 < GAPS → c ≢ gap_column SLOTS i) → slice_index words.new c ≡ slice_index words.old c }
    {
        if i + 1 < SLOTS {
            words[column!(pivot of i)] = item.last;
        }
        words[column!(slot of i)] = item.word;
        if GAPS > 0 {
            words[column!(gap of i)] = item.gap;
        }
    }
}
