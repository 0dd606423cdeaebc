//! A chunk of the nodes of a level, and its work: the words of the nodes, and their items on the level above.

ghost use Rattle.std.specs.Prelude.{◌≡◌, ◌≢◌, ◌+◌, ◌*◌, ◌-◌, ◌<◌, ◌≤◌, ◌++◌, ◌∷◌, [], Any, length, vec_len, vec_capacity};
ghost use Rattle.mt_base.specs.Call.{finds_room};
ghost use Rattle.mt_base.specs.Width.{columns, kind_width};
ghost use Rattle.mt_layout.specs.Columns.{FitRow, RiseFrom, end_of, row_words};
ghost use Rattle.mt_layout.specs.Rows.{name_at, IsRowNumber};
ghost use Rattle.mt_layout.specs.Sizes.{gaps_of, slots_of};
ghost use Rattle.mt_bulk.specs.Bulk as defined;
ghost use Rattle.mt_bulk.specs.Chunks.{AreRows, begins_at, heads_in, view_of, chunk_words};

use mt_base::{Kind, Width, cols, finds_room, width_of};
use mt_layout::{Item, MOST_WORDS, RowKind, longest_under, name_of, words_of};

/// Nodes of a level, one after another. Of the level's items: the place where the first of these nodes begins, where each of
/// them ends, and the parent word of each.
#[derive(Clone, Copy)]
pub struct Chunk<'a> {
    pub tree: Kind,
    pub kind: RowKind,
    /// The number of the first node.
    pub number: u32,
    pub items: &'a [Item],
    pub from: usize,
    pub ends: &'a [usize],
    pub parents: &'a [u64],
}

/// The longest hole below a node, if its tree keeps gaps.
fn gap_below(gapped: bool, kind: RowKind, first: u64, row: &[Item]) -> u64
    requires rise { RiseFrom first row.now }
    requires entry { Any (λ x. x.word ≢ 0) row.now }
    ensures { result ≡ defined.gap_below gapped kind first row.now }
{
    if gapped {
        longest_under(kind, row, first)
    } else {
        0
    }
}

/// The index after one that is not the last.
fn index_behind(last: u64, later: u64) -> u64
    requires { last < later }
    ensures { result ≡ last + 1 }
{
    let _ = later;
    last + 1
}

/// The index at which the node begins whose items begin at this place.
#[tactic(auto, using(crate::proofs::Filling::first_below, crate::proofs::Filling::begins_last))]
fn first_index(items: &[Item], from: usize) -> u64
    requires inside { from < length items.now }
    requires rise { RiseFrom 0 items.now }
    ensures { result ≡ begins_at items.now from }
{
    if from == 0 {
        return 0;
    }
    index_behind(items[from - 1].last, items[from].last)
}

/// Appends the words of a node. They are put together in the buffer.
fn push_words(
    width: Width,
    kind: RowKind,
    row: &[Item],
    parent: u64,
    buffer: &mut [u64],
    words: &mut Vec<u64>,
)
    requires fit { FitRow (slots_of width kind) (gaps_of width kind) row.now }
    requires buffer { length buffer.old ≡ columns width }
    requires room { vec_len words.old + columns width ≤ vec_capacity words.old }
    ensures words { words.new.items ≡ words.old.items ++ row_words (columns width) (slots_of width kind) (gaps_of width kind) parent row.now }
    ensures len { vec_len words.new ≡ vec_len words.old + columns width }
    ensures capacity { vec_capacity words.old ≤ vec_capacity words.new }
    ensures buffer { length buffer.new ≡ columns width }
{
    words_of(width, kind, row, parent, buffer);
    let Ok(()) = words.extend_from_slice(buffer) else {
        unreachable!()
    };
}

/// The last index of a node.
#[tactic(auto, using(mt_layout::proofs::SpanLists::last_ends))]
fn last_index(row: &[Item], first: u64) -> u64
    requires { 0 < length row.now }
    ensures { result ≡ end_of first row.now }
{
    row[row.len() - 1].last
}

/// Appends the item that a node is on the level above.
fn push_head(
    gapped: bool,
    kind: RowKind,
    number: u32,
    first: u64,
    row: &[Item],
    heads: &mut Vec<Item>,
)
    requires named { IsRowNumber number }
    requires some { 0 < length row.now }
    requires rise { RiseFrom first row.now }
    requires entry { Any (λ x. x.word ≢ 0) row.now }
    requires room { vec_len heads.old < vec_capacity heads.old }
    ensures heads { heads.new.items ≡ heads.old.items
        ++ record { last = end_of first row.now; word = name_at number kind; gap = defined.gap_below gapped kind first row.now }
        ∷ [] }
    ensures len { vec_len heads.new ≡ vec_len heads.old + 1 }
    ensures capacity { vec_capacity heads.new ≡ vec_capacity heads.old }
{
    heads.push_reserved(Item {
        last: last_index(row, first),
        word: name_of(number, kind).word(),
        gap: gap_below(gapped, kind, first, row),
    });
}

/// The work of one worker: appends the words of the chunk's nodes, and their items on the level above, for which there is room.
pub fn fill_rows(chunk: &Chunk, words: &mut Vec<u64>, heads: &mut Vec<Item>)
    requires rows { AreRows (view_of chunk.now) }
    requires words { vec_len words.old + columns (kind_width chunk.now.tree) * length chunk.now.ends.now ≤ vec_capacity words.old }
    requires heads { vec_len heads.old + length chunk.now.ends.now ≤ vec_capacity heads.old }
    ensures words { words.new.items ≡ words.old.items ++ chunk_words (view_of chunk.now) }
    ensures heads { heads.new.items ≡ heads.old.items ++ heads_in (view_of chunk.now) }
    ensures capacity { vec_capacity words.old ≤ vec_capacity words.new }
    ensures room { vec_capacity heads.new ≡ vec_capacity heads.old }
{
    let width = width_of(chunk.tree);
    let gapped = finds_room(chunk.tree);
    let mut buffer = [0; MOST_WORDS];
    let buffer = &mut buffer[..cols(width) as usize];
    let mut from = chunk.from;
    for at in 0..chunk.ends.len() {
        let end = chunk.ends[at];
        let row = &chunk.items[from..end];
        let first = first_index(chunk.items, from);
        push_words(width, chunk.kind, row, chunk.parents[at], buffer, words);
        push_head(
            gapped,
            chunk.kind,
            chunk.number + at as u32,
            first,
            row,
            heads,
        );
        from = end;
    }
}
