ghost use Rattle.std.specs.Prelude.{◌≡◌, ◌≢◌, ◌+◌, ◌<◌, Any};
ghost use Rattle.mt_layout.specs.Columns.{RiseFrom, greatest_gap, longest_hole, longest_under};
ghost use Rattle.mt_layout.specs.declared.names.RowKind.TheVariants.{Leaf};

use crate::names::RowKind;
use crate::sizes::RUN_ROOM;
use arrayvec::ArrayVec;

/// What a node holds in one slot: its greatest index, its word, and in nodes with gaps the longest hole below it.
#[derive(Clone, Copy, Debug, Default, PartialEq, Eq)]
pub struct Item {
    pub last: u64,
    pub word: u64,
    pub gap: u64,
}

/// The items of a few adjacent nodes.
pub type Run = ArrayVec<Item, RUN_ROOM>;

/// The number of indexes of the longest hole in a leaf with these items, the first of which begins at `min`.
pub fn gap_of(items: &[Item], min: u64) -> u64
    requires rise { RiseFrom min items.now }
    requires entry { Any (λ x. x.word ≢ 0) items.now }
    ensures { result ≡ longest_hole min items.now }
{
    let Some((first, rest)) = items.split_first() else {
        return 0;
    };
    let mut longest = 0;
    let mut before = first.last;
    for item in rest {
        if item.word == 0 {
            longest = longest.max(item.last - before);
        }
        before = item.last;
    }
    // Where the first item is a hole an entry lies behind it, so its indexes are not all that there are.
    if first.word == 0 {
        longest = longest.max(first.last - min + 1);
    }
    longest
}

/// The greatest gap of the items.
fn greatest_gap(items: &[Item]) -> u64
    ensures { result ≡ greatest_gap items.now }
{
    items.iter().fold(0, |gap, item| gap.max(item.gap))
}

/// The longest hole below a node of a tree with gaps. Its first item begins at `min`.
pub fn longest_under(kind: RowKind, items: &[Item], min: u64) -> u64
    requires rise { RiseFrom min items.now }
    requires entry { kind ≡ Leaf → Any (λ x. x.word ≢ 0) items.now }
    ensures { result ≡ longest_under kind min items.now }
{
    match kind {
        RowKind::Leaf => gap_of(items, min),
        RowKind::Inner | RowKind::Gapped => greatest_gap(items),
    }
}
