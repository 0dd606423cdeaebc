//! What is known of the leaves of a tree before their nodes are filled.

ghost use Rattle.std.specs.Prelude.{◌≡◌, ◌≢◌, ◌+◌, ◌*◌, ◌<◌, ◌≤◌, ℕ, IfOk, IfErr, None, Some, length, vec_len};
ghost use Rattle.mt_base.specs.Call.{finds_room};
ghost use Rattle.mt_base.specs.Width.{kind_width, most_rows};
ghost use Rattle.mt_layout.specs.declared.names.RowKind.TheVariants.{Leaf};
ghost use Rattle.mt_layout.specs.Sizes.{slots_of};
ghost use Rattle.mt_bulk.specs.Bulk.{rows_up};
ghost use Rattle.mt_bulk.specs.Cuts.{cut, ends_from, leaf_size};
ghost use Rattle.mt_bulk.specs.Items.{items_of, misplaced};
ghost use Rattle.mt_bulk.specs.Builds.{HasLeafFacts, refusal, too_many};

use crate::chunks::Chunk;
use crate::cuts::leaf_ends;
use crate::errors::BulkError;
use crate::items::items_of;
use crate::levels::{count_rows, parents_over};
use mt_base::{FIRST_ROW, Kind, MOST_ROWS, Range, width_of};
use mt_layout::{Item, RowKind, slots};
use std::alloc::Global;

/// So many ranges are in no memory.
const TOO_LONG: usize = 1_000_000_000_000_000;

/// The leaves of the tree of some ranges: their items, where each of them ends, the parent word of each, and how many nodes the
/// tree has.
#[derive(Drop)]
pub struct Leaves<'a> {
    pub(crate) kind: Kind,
    pub(crate) ranges: &'a [Range],
    pub(crate) items: Vec<Item>,
    pub(crate) ends: Vec<usize>,
    pub(crate) parents: Vec<u64>,
    pub(crate) rows: u64,
}

/// How many nodes a tree with this many leaves has, if they are not too many.
fn rows_over(kind: Kind, leaves: usize) -> Result<u64, BulkError>
    requires some { 1 ≤ leaves }
    requires room { leaves ≤ 1000000000000000000 }
    ensures ok { IfOk result (λ rows. (left : ℕ) → leaves ≤ left → rows ≡ rows_up (kind_width kind) (finds_room kind) left leaves) }
    ensures few { IfOk result (λ rows. rows ≤ most_rows) }
    ensures err { IfErr result (λ e. (left : ℕ) → leaves ≤ left → too_many (rows_up (kind_width kind) (finds_room kind) left leaves) ≡ Some e) }
{
    let rows = count_rows(kind, leaves as u64);
    if rows > MOST_ROWS {
        return Err(BulkError::TooMany { rows });
    }
    Ok(rows)
}

/// How many items a leaf of a tree of this kind has at most.
fn leaf_slots(kind: Kind) -> usize
    ensures { result ≡ slots_of (kind_width kind) Leaf }
{
    slots(width_of(kind), RowKind::Leaf) as usize
}

/// The items of ranges in good order.
fn ordered_items(alloc: Global, kind: Kind, ranges: &[Range]) -> Result<Vec<Item>, BulkError>
    requires { length ranges.now ≤ 1000000000000000 }
    ensures good { IfOk result (λ items. misplaced kind ranges.now ≡ None) }
    ensures items { IfOk result (λ items. items.items ≡ items_of kind ranges.now) }
    ensures few { IfOk result (λ items. vec_len items ≤ 2 * length ranges.now + 1) }
    ensures err { IfErr result (λ e. e ≢ BulkError.NoMemory → refusal kind ranges.now ≡ Some e) }
{
    items_of(alloc, kind, ranges)
}

/// How many nodes the tree of ranges has whose items are cut into leaves at these ends, where they are not too many.
fn count_all(kind: Kind, ranges: &[Range], items: &[Item], ends: &[usize]) -> Result<u64, BulkError>
    requires some { 1 ≤ length ranges.now }
    requires room { length items.now ≤ 1000000000000000000 }
    requires good { misplaced kind ranges.now ≡ None }
    requires items { items.now ≡ items_of kind ranges.now }
    requires ends { ends.now ≡ ends_from 0 (cut (leaf_size (slots_of (kind_width kind) Leaf)) items.now) }
    ensures ok { IfOk result (λ rows. (left : ℕ) → length ends.now ≤ left → rows ≡ rows_up (kind_width kind) (finds_room kind) left (length ends.now)) }
    ensures few { IfOk result (λ rows. rows ≤ most_rows) }
    ensures leaves { IfOk result (λ rows. length ends.now ≤ most_rows) }
    ensures err { IfErr result (λ e. e ≢ BulkError.NoMemory → refusal kind ranges.now ≡ Some e) }
{
    let _ = ranges;
    let _ = items;
    rows_over(kind, ends.len())
}

/// The leaves of the tree of some ranges.
///
/// # Errors
///
/// Why there is no such tree, or `NoMemory`.
pub(crate) fn leaves_of<'a>(
    alloc: Global,
    kind: Kind,
    ranges: &'a [Range],
) -> Result<Leaves<'a>, BulkError>
    requires { 1 ≤ length ranges.now }
    ensures kind { IfOk result (λ leaves. leaves.kind ≡ kind) }
    ensures ranges { IfOk result (λ leaves. leaves.ranges.now ≡ ranges.now) }
    ensures ok { IfOk result HasLeafFacts }
    ensures err { IfErr result (λ e. e ≢ BulkError.NoMemory → refusal kind ranges.now ≡ Some e) }
{
    if ranges.len() > TOO_LONG {
        return Err(BulkError::NoMemory);
    }
    let items = ordered_items(alloc, kind, ranges)?;
    let ends = leaf_ends(alloc, &items, leaf_slots(kind))?;
    let rows = count_all(kind, ranges, &items, &ends)?;
    let count = ends.len();
    let parents = parents_over(alloc, FIRST_ROW + count as u32, kind, count)?;
    Ok(Leaves {
        kind,
        ranges,
        items,
        ends,
        parents,
        rows,
    })
}

impl<'a> Leaves<'a> {
    ghost use Rattle.std.specs.Prelude.{◌≡◌, ◌≤◌, length};
    ghost use Rattle.mt_bulk.specs.Builds.{HasLeafFacts, whole_of};
    ghost use Rattle.mt_bulk.specs.Chunks.{chunk_part, view_of};

    /// All leaves as one chunk.
    pub(crate) fn chunk(&self) -> Chunk<'_>
        ensures { view_of result ≡ whole_of self.now }
    {
        Chunk {
            tree: self.kind,
            kind: RowKind::Leaf,
            number: FIRST_ROW,
            items: &self.items,
            from: 0,
            ends: &self.ends,
            parents: &self.parents,
        }
    }

    /// The leaves from a place up to another.
    pub(crate) fn part(&self, from: usize, to: usize) -> Chunk<'_>
        requires leaves { HasLeafFacts self.now }
        requires order { from ≤ to }
        requires inside { to ≤ length self.now.ends.items }
        ensures { view_of result ≡ chunk_part (whole_of self.now) from to }
    {
        Chunk {
            tree: self.kind,
            kind: RowKind::Leaf,
            number: FIRST_ROW + from as u32,
            items: &self.items,
            from: if from == 0 { 0 } else { self.ends[from - 1] },
            ends: &self.ends[from..to],
            parents: &self.parents[from..to],
        }
    }
}
