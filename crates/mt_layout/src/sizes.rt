//! How large nodes are.

ghost use Rattle.std.specs.Prelude.{◌≡◌, ◌≤◌, length};
ghost use Rattle.mt_base.specs.Width.{columns};
ghost use Rattle.mt_layout.specs.Columns.{IsLayout, items_at, row_words};
ghost use Rattle.mt_layout.specs.Sizes.{slots_of, gaps_of, least_items};

use crate::items::Item;
use crate::layout::Layout;
use crate::names::RowKind;
use arrayvec::ArrayVec;
use mt_base::Width;

/// How many items a `Run` has room for.
pub const RUN_ROOM: usize = 72;

/// The greatest number of words of a node, whatever its width and kind.
pub const MOST_WORDS: usize = 64;

/// The greatest number of slots of a node, whatever its width and kind.
pub const MOST_SLOTS: usize = 32;

/// How many slots a node of this kind has. The column of the first slot has this number, after the parent word and the pivots.
pub fn slots(width: Width, kind: RowKind) -> u32
    ensures { result ≡ slots_of width kind }
{
    match (width, kind) {
        (Width::Long, RowKind::Leaf | RowKind::Inner) => 16,
        (Width::Long, RowKind::Gapped) => 10,
        (Width::Short, RowKind::Leaf | RowKind::Inner) => 32,
        (Width::Short, RowKind::Gapped) => 21,
    }
}

/// How many gaps a node of this kind has: one for each slot, or none.
pub fn gaps(width: Width, kind: RowKind) -> u32
    ensures { result ≡ gaps_of width kind }
{
    match (width, kind) {
        (Width::Long, RowKind::Leaf | RowKind::Inner) => 0,
        (Width::Long, RowKind::Gapped) => 10,
        (Width::Short, RowKind::Leaf | RowKind::Inner) => 0,
        (Width::Short, RowKind::Gapped) => 21,
    }
}

/// The least number of items in a node of this kind that is not the root.
pub fn least_items(width: Width, kind: RowKind) -> u32
    ensures { result ≡ least_items width kind }
{
    match (width, kind) {
        (Width::Long, RowKind::Leaf | RowKind::Inner) => 6,
        (Width::Long, RowKind::Gapped) => 4,
        (Width::Short, RowKind::Leaf | RowKind::Inner) => 14,
        (Width::Short, RowKind::Gapped) => 9,
    }
}

/// The items of the node of this layout with these words, whose greatest index is `max`.
fn items_by<const SLOTS: usize, const GAPS: usize>(
    words: &[u64],
    max: u64,
) -> ArrayVec<Item, MOST_SLOTS>
    requires { IsLayout (length words.now) SLOTS GAPS }
    ensures { result.items ≡ items_at SLOTS GAPS words.now 0 max }
{
    let items = Layout::<SLOTS, GAPS>::items_of(words, max);
    match ArrayVec::try_from(items.as_slice()) {
        Ok(items) => items,
        Err(_) => unreachable!(),
    }
}

/// The items of the node of this width and kind with these words, whose greatest index is `max`.
pub fn items_of(width: Width, kind: RowKind, words: &[u64], max: u64) -> ArrayVec<Item, MOST_SLOTS>
    requires { length words.now ≡ columns width }
    ensures { result.items ≡ items_at (slots_of width kind) (gaps_of width kind) words.now 0 max }
{
    match (width, kind) {
        (Width::Long, RowKind::Leaf | RowKind::Inner) => items_by::<16, 0>(words, max),
        (Width::Long, RowKind::Gapped) => items_by::<10, 10>(words, max),
        (Width::Short, RowKind::Leaf | RowKind::Inner) => items_by::<32, 0>(words, max),
        (Width::Short, RowKind::Gapped) => items_by::<21, 21>(words, max),
    }
}

/// Writes the words of a node of this width and kind with these items and this parent word. What is unused is 0.
#[inline(always)]
pub fn words_of(width: Width, kind: RowKind, items: &[Item], parent: u64, words: &mut [u64])
    requires words { length words.old ≡ columns width }
    requires fit { length items.now ≤ slots_of width kind }
    ensures { words.new ≡ row_words (length words.old) (slots_of width kind) (gaps_of width kind) parent items.now }
{
    match (width, kind) {
        (Width::Long, RowKind::Leaf | RowKind::Inner) => {
            Layout::<16, 0>::words_of(items, parent, words);
        }
        (Width::Long, RowKind::Gapped) => Layout::<10, 10>::words_of(items, parent, words),
        (Width::Short, RowKind::Leaf | RowKind::Inner) => {
            Layout::<32, 0>::words_of(items, parent, words);
        }
        (Width::Short, RowKind::Gapped) => Layout::<21, 21>::words_of(items, parent, words),
    }
}
