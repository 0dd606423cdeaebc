//! The laws that a node's own words keep or break.

ghost use Rattle.std.specs.Prelude.{◌≡◌, ◌+◌, ◌<◌, ◌≤◌, ◌==◌, ◌↔◌, true, false, not, [], Some, IsSome, IfSome, IfErr, OnOk, slice_get};
ghost use Rattle.std.specs.List.{list_all, list_any};
ghost use Rattle.mt_base.specs.Call.{finds_room};
ghost use Rattle.mt_base.specs.Entry.{reserved};
ghost use Rattle.mt_base.specs.Width.{first_row};
ghost use Rattle.mt_layout.specs.Rows.{row_in, named_kind};
ghost use Rattle.mt_rows.specs.Sheet.{OnlyReads};
ghost use Rattle.mt_check.specs.RowTests as tests;
ghost use Rattle.mt_check.specs.Reads.{row_items, broken_items, broken_words};

use crate::faults::Law;
use crate::reads::{Items, items_in};
use mt_base::{DEEPEST, FIRST_ROW, Kind, Width, is_reserved, top};
use mt_layout::{Item, RowKind, Span, kind_of, least_items, row_of};
use mt_rows::{Rows, inner_kind};

/// Whether no entry among these items is reserved.
fn none_reserved(items: &[Item]) -> bool
    ensures { result ≡ list_all (λ x. not (reserved x.word)) items.now }
{
    items.iter().all(|item| !is_reserved(item.word))
}

/// Whether a node has no reserved entry.
fn has_entries(kind: RowKind, items: &[Item]) -> bool
    ensures { result ≡ tests.has_entries kind items.now }
{
    match kind {
        RowKind::Leaf => none_reserved(items),
        RowKind::Inner | RowKind::Gapped => true,
    }
}

/// Whether no two holes follow each other, and none is last, unless it may be.
fn are_apart(items: &[Item], may_end: bool) -> bool
    ensures { result ≡ tests.are_apart false may_end items.now }
{
    let mut after_hole = false;
    for item in items {
        let is_hole = item.word == 0;
        if after_hole && is_hole {
            return false;
        }
        after_hole = is_hole;
    }
    may_end || !after_hole
}

/// Whether one of these items is an entry.
fn some_entry(items: &[Item]) -> bool
    ensures { result ≡ list_any (λ x. not (x.word == 0)) items.now }
{
    items.iter().any(|item| item.word != 0)
}

/// Whether the holes of a leaf are apart and some item is an entry. The last item may be a hole only if `may_end` allows it.
fn has_holes(kind: RowKind, items: &[Item], may_end: bool) -> bool
    ensures { result ≡ tests.has_holes may_end kind items.now }
{
    match kind {
        RowKind::Leaf => are_apart(items, may_end) && some_entry(items),
        RowKind::Inner | RowKind::Gapped => true,
    }
}

/// The least number of items of a node with at most this many levels from it down, itself counted.
fn least_at(width: Width, left: u32, kind: RowKind) -> u32
    ensures { result ≡ tests.least_at width left kind }
{
    if left != DEEPEST as u32 {
        return least_items(width, kind);
    }
    match kind {
        RowKind::Leaf => 1,
        RowKind::Inner | RowKind::Gapped => 2,
    }
}

/// A node and its kind.
#[derive(Clone, Copy)]
pub(crate) struct Named {
    pub(crate) row: u32,
    pub(crate) kind: RowKind,
}

/// Whether a tree of that kind may have a node of this kind.
fn may_stand(tree: Kind, kind: RowKind) -> bool
    ensures { result ≡ tests.may_stand (finds_room tree) kind }
{
    kind == RowKind::Leaf || kind == inner_kind(tree)
}

/// The node that a word names, if it is one of these nodes and its kind may be in a tree of this kind.
pub(crate) fn row_named(tree: Kind, rows: u64, word: u64) -> Option<Named>
    ensures is { IsSome result ↔ (tests.names_row (finds_room tree) rows word ≡ true) }
    ensures row { IfSome result (λ n. n.row ≡ row_in word) }
    ensures kind { IfSome result (λ n. Some n.kind ≡ named_kind word) }
{
    let row = row_of(word)?;
    let kind = kind_of(word)?;
    if !may_stand(tree, kind) || u64::from(row) - u64::from(FIRST_ROW) >= rows {
        return None;
    }
    Some(Named { row, kind })
}

/// The first law that the items of a node break, with at most this many levels from the node down.
fn check_items(width: Width, kind: RowKind, left: u32, last: u64, items: &[Item]) -> Result<(), Law>
    ensures kept { OnOk result (broken_items width kind left last items.now ≡ []) }
    ensures broken { IfErr result (λ law. slice_get (broken_items width kind left last items.now) 0 ≡ Some law) }
{
    if items.len() < least_at(width, left, kind) as usize {
        return Err(Law::Count);
    }
    if !has_entries(kind, items) {
        return Err(Law::Entries);
    }
    if !has_holes(kind, items, top(width) <= last) {
        return Err(Law::Holes);
    }
    Ok(())
}

/// Reads the items of a node, or returns the first law that its own words break. There are at most this many levels from the
/// node down.
pub(crate) fn check_words<R: Rows>(
    rows: &mut R,
    named: Named,
    left: u32,
    parent: u64,
    span: Span,
    items: &mut Items,
) -> Result<(), Law>
    requires first { first_row ≤ named.row }
    requires last { named.row < first_row + (R.sheet rows.old).tree.rows }
    ensures items { OnOk result (items.new.items ≡ row_items (R.sheet rows.old).tree.table named.kind named.row span.last) }
    ensures kept { OnOk result (broken_words (R.sheet rows.old).tree.table named.kind named.row left parent span ≡ []) }
    ensures broken { IfErr result (λ law. slice_get (broken_words (R.sheet rows.old).tree.table named.kind named.row left parent span) 0 ≡ Some law) }
    ensures rest { OnlyReads (R.sheet rows.old) (R.sheet rows.new) }
{
    let width = rows.width();
    if rows.load(named.row, 0) != parent {
        return Err(Law::Parent);
    }
    if !items_in(rows, named.kind, named.row, span.first, span.last, items) {
        return Err(Law::Pivots);
    }
    check_items(width, named.kind, left, span.last, items.as_slice())
}
