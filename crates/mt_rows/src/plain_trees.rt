//! What words represent, just as the definitions say it: slow, to compare answers with.

ghost use Rattle.std.specs.Prelude.{◌≡◌, ◌+◌, ◌-◌, ◌^◌, ◌<◌, ◌≤◌, [], ◌++◌, IfOk, length, slice_index};
ghost use Rattle.std.specs.List.{flat_map};
ghost use Rattle.mt_layout.specs.Columns.{items_from};
ghost use Rattle.mt_layout.specs.Sizes.{slots_of, gaps_of, run_room};
ghost use Rattle.mt_layout.specs.Spans.{spans_from, leaf_range};
ghost use Rattle.mt_rows.specs.Spans as defined;
ghost use Rattle.mt_rows.specs.Trees as trees;

use arrayvec::ArrayVec;
use mt_base::{DEEPEST, NoMemory, Range, Width, cols, top};
use mt_layout::{RUN_ROOM, RowKind, Span, kind_of, row_of, slots};
use std::alloc::Global;

/// Where a node's columns are among the words, its kind, and the last index that it covers.
#[derive(Clone, Copy)]
struct Columns {
    base: usize,
    kind: RowKind,
    last: u64,
}

/// The word at this place, and 0 after the last word.
fn word_at(words: &[u64], at: usize) -> u64
    ensures { result ≡ slice_index words.now at }
{
    words.get(at).copied().unwrap_or(0)
}

/// Appends the spans of a node from slot `i` on, the first of which begins at `first`.
fn push_spans(
    width: Width,
    words: &[u64],
    row: Columns,
    i: usize,
    first: u64,
    spans: &mut ArrayVec<Span, RUN_ROOM>,
)
    requires base { row.base < 2 ^ 32 }
    requires slot { i < slots_of width row.kind }
    requires room { length spans.old.items + (slots_of width row.kind - i) ≤ run_room }
    ensures { spans.new.items ≡ spans.old.items ++ spans_from first
        (items_from (slots_of width row.kind) (gaps_of width row.kind) words.now row.base row.last (slots_of width row.kind - i) i) }
{
    let slots = slots(width, row.kind) as usize;
    let word = word_at(words, row.base + (slots + i));
    if i + 1 == slots {
        spans.push(Span {
            first,
            last: row.last,
            word,
        });
        return;
    }
    let last = word_at(words, row.base + (1 + i));
    spans.push(Span { first, last, word });
    if last < row.last {
        push_spans(width, words, row, i + 1, last + 1, spans);
    }
}

/// What the node that a span names holds, and nothing if its word is no name.
#[tactic(auto, using(mt_layout::proofs::RowSizes::some_slots_of, mt_layout::proofs::RowSizes::sizes))]
pub fn spans_in(width: Width, words: &[u64], span: &Span) -> ArrayVec<Span, RUN_ROOM>
    ensures { result.items ≡ defined.spans_in (record { width = width; words = words.now }) span.now }
{
    let mut spans = ArrayVec::new();
    let (Some(row), Some(kind)) = (row_of(span.word), kind_of(span.word)) else {
        return spans;
    };
    let columns = Columns {
        base: cols(width) as usize * row as usize,
        kind,
        last: span.last,
    };
    push_spans(width, words, columns, 0, span.first, &mut spans);
    spans
}

/// The span of a tree's root, which covers every index.
pub(crate) fn root_span(width: Width, root: u64) -> Span
    ensures { result ≡ defined.root_span (record { width = width; words = [] }) root }
{
    Span {
        first: 0,
        last: top(width),
        word: root,
    }
}

/// Appends the ranges of a leaf with these spans.
fn push_leaf_ranges(spans: &[Span], ranges: &mut Vec<Range>) -> Result<(), NoMemory>
    ensures { IfOk result (λ _. ranges.new.items ≡ ranges.old.items ++ flat_map leaf_range spans.now) }
{
    for span in spans {
        if span.word != 0 {
            ranges.push(Range {
                first: span.first,
                last: span.last,
                entry: span.word,
            })?;
        }
    }
    Ok(())
}

/// Appends the ranges below a node, at most this many levels deep.
#[tactic(auto, using(crate::proofs::Deeper::ranges_of_deeper, crate::proofs::Deeper::ranges_of_inner))]
fn push_ranges(
    width: Width,
    words: &[u64],
    depth: u32,
    span: &Span,
    ranges: &mut Vec<Range>,
) -> Result<(), NoMemory>
    ensures { IfOk result (λ _. ranges.new.items ≡ ranges.old.items ++ trees.ranges_of (record { width = width; words = words.now }) depth span.now) }
{
    let Some(kind) = kind_of(span.word) else {
        return Ok(());
    };
    if depth == 0 {
        return Ok(());
    }
    let spans = spans_in(width, words, span);
    match kind {
        RowKind::Leaf => push_leaf_ranges(spans.as_slice(), ranges),
        _ => {
            for child in spans.as_slice() {
                push_ranges(width, words, depth - 1, child, ranges)?;
            }
            Ok(())
        }
    }
}

/// Appends the nodes that are reached, at most this many levels deep: each node before its children, children from the left.
#[tactic(auto, using(crate::proofs::Deeper::rows_of_deeper, crate::proofs::Deeper::rows_of_inner))]
fn push_rows(
    width: Width,
    words: &[u64],
    depth: u32,
    span: &Span,
    rows: &mut Vec<u32>,
) -> Result<(), NoMemory>
    ensures { IfOk result (λ _. rows.new.items ≡ rows.old.items ++ trees.rows_of (record { width = width; words = words.now }) depth span.now) }
{
    let (Some(row), Some(kind)) = (row_of(span.word), kind_of(span.word)) else {
        return Ok(());
    };
    if depth == 0 {
        return Ok(());
    }
    rows.push(row)?;
    match kind {
        RowKind::Leaf => Ok(()),
        _ => {
            let spans = spans_in(width, words, span);
            for child in spans.as_slice() {
                push_rows(width, words, depth - 1, child, rows)?;
            }
            Ok(())
        }
    }
}

/// The number of levels from a node down, at most this many, counted along the first children.
#[tactic(auto, using(crate::proofs::Deeper::height_of_deeper, crate::proofs::Deeper::height_of_inner))]
fn height_of(width: Width, words: &[u64], depth: u32, span: &Span) -> u32
    ensures height { result ≡ trees.height_of (record { width = width; words = words.now }) depth span.now }
    ensures low { result ≤ depth }
{
    let Some(kind) = kind_of(span.word) else {
        return 0;
    };
    if depth == 0 {
        return 0;
    }
    let spans = spans_in(width, words, span);
    match kind {
        RowKind::Leaf => 1,
        _ => match spans.as_slice().first() {
            None => 1,
            Some(child) => 1 + height_of(width, words, depth - 1, child),
        },
    }
}

/// The map of words, from the root word.
pub fn map_in(alloc: Global, width: Width, words: &[u64], root: u64) -> Result<Vec<Range>, NoMemory>
    ensures { IfOk result (λ m. m.items ≡ trees.map_in (record { width = width; words = words.now }) root) }
{
    let mut ranges = Vec::new(alloc);
    let span = root_span(width, root);
    push_ranges(width, words, DEEPEST as u32, &span, &mut ranges)?;
    Ok(ranges)
}

/// The nodes that are reached from the root word.
pub fn reached_in(
    alloc: Global,
    width: Width,
    words: &[u64],
    root: u64,
) -> Result<Vec<u32>, NoMemory>
    ensures { IfOk result (λ rows. rows.items ≡ trees.reached_in (record { width = width; words = words.now }) root) }
{
    let mut rows = Vec::new(alloc);
    let span = root_span(width, root);
    push_rows(width, words, DEEPEST as u32, &span, &mut rows)?;
    Ok(rows)
}

/// The number of levels of a tree, from the root word.
pub fn height_in(width: Width, words: &[u64], root: u64) -> u32
    ensures { result ≡ trees.height_in (record { width = width; words = words.now }) root }
{
    height_of(width, words, DEEPEST as u32, &root_span(width, root))
}
