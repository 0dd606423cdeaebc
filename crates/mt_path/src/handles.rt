//! Where an index is in a tree, and what is there.

ghost use Rattle.std.specs.Prelude.{◌≡◌, ◌≢◌, ◌+◌, ◌-◌, ◌<◌, ◌≤◌, ◌↔◌, ℕ, [], true, length, IsNone, IfSome};
ghost use Rattle.mt_base.specs.declared.kinds.Kind.{Kind};
ghost use Rattle.mt_base.specs.Width.{greatest};
ghost use Rattle.mt_rows.specs.Publish.{IsTreeOf};
ghost use Rattle.mt_rows.specs.Sheet.{OnlyReads, ReadsUpTo, loaded};
ghost use Rattle.mt_path.specs.Handles.{leaf_spans, handle_in, last_step, FindsHandle, IsHandleOf, IsStepOfLeaf};
ghost use Rattle.mt_path.specs.Paths.{path_in, span_at, loads_at, loads_on};
ghost use Rattle.mt_path.specs.Walks.{EntersLeaf};

use crate::paths::{Path, PathStep};
use crate::rows::{SlotSearch, child_for, find_by, load_found, root_row};
use crate::walks::{descend, walk_on};
use mt_base::{DEEPEST, Width, top};
use mt_layout::{RowKind, Span, slots};
use mt_rows::Rows;

/// A slot of a leaf, and what it holds: a range, or a hole, whose word is 0.
#[derive(Clone, Copy, Debug, PartialEq, Eq)]
pub struct Handle {
    pub leaf: PathStep,
    pub span: Span,
}

// ---- of an index

/// The slot of the leaf that holds an index, and what is there, in nodes of this width, each searched so.
#[inline(always)]
fn handle_by<R: Rows>(rows: &mut R, width: Width, how: SlotSearch, index: u64) -> Option<Handle>
    requires width { width ≡ (R.sheet rows.old).tree.table.width }
    requires tree { (kind : Kind) × IsTreeOf (R.sheet rows.old).tree kind }
    requires index { index ≤ greatest (R.sheet rows.old).tree.table.width }
    ensures { FindsHandle (R.sheet rows.old) (R.sheet rows.new) index result }
{
    let mut row = root_row(rows)?;
    for _ in 0..DEEPEST {
        let found = find_by(rows, width, how, row, index);
        let span = load_found(rows, width, row.kind, found);
        if row.kind == RowKind::Leaf {
            return Some(Handle {
                leaf: found.step,
                span,
            });
        }
        row = child_for(span);
    }
    unreachable!()
}

/// The slot of the leaf that holds an index, and what is there. The width is looked at once and not in each node.
#[inline(always)]
fn handle_for<R: Rows>(rows: &mut R, index: u64) -> Option<Handle>
    requires tree { (kind : Kind) × IsTreeOf (R.sheet rows.old).tree kind }
    requires index { index ≤ greatest (R.sheet rows.old).tree.table.width }
    ensures { FindsHandle (R.sheet rows.old) (R.sheet rows.new) index result }
{
    match rows.width() {
        Width::Long => handle_by(rows, Width::Long, SlotSearch::Groups, index),
        Width::Short => handle_by(rows, Width::Short, SlotSearch::Groups, index),
    }
}

/// `handle_for` as a call that is not inlined, for callers that seldom need it.
#[inline(never)]
fn handle_apart<R: Rows>(rows: &mut R, index: u64) -> Option<Handle>
    requires tree { (kind : Kind) × IsTreeOf (R.sheet rows.old).tree kind }
    requires index { index ≤ greatest (R.sheet rows.old).tree.table.width }
    ensures { FindsHandle (R.sheet rows.old) (R.sheet rows.new) index result }
{
    handle_for(rows, index)
}

/// The slot of the leaf that holds an index, and what is there; none in the empty tree. No path is kept. The result is taken
/// apart at once, so that steps within a leaf, which are frequent, need no room for it.
#[inline(always)]
pub fn handle_at<R: Rows>(rows: &mut R, index: u64) -> Option<Handle>
    requires tree { (kind : Kind) × IsTreeOf (R.sheet rows.old).tree kind }
    requires index { index ≤ greatest (R.sheet rows.old).tree.table.width }
    ensures none { IsNone result ↔ ((R.sheet rows.old).tree.root ≡ 0) }
    ensures some { IfSome result (λ handle. handle ≡ handle_in (R.sheet rows.old).tree index) }
    ensures rest { OnlyReads (R.sheet rows.old) (R.sheet rows.new) }
    ensures reads { ReadsUpTo (loads_on (path_in (R.sheet rows.old).tree.table (R.sheet rows.old).tree.root index)) (R.sheet rows.old) (R.sheet rows.new) }
{
    let there = handle_apart(rows, index)?;
    Some(there)
}

/// What is at an index; none in the empty tree. It does not say where that is.
#[inline(always)]
pub fn span_for<R: Rows>(rows: &mut R, index: u64) -> Option<Span>
    requires tree { (kind : Kind) × IsTreeOf (R.sheet rows.old).tree kind }
    requires index { index ≤ greatest (R.sheet rows.old).tree.table.width }
    ensures none { IsNone result ↔ ((R.sheet rows.old).tree.root ≡ 0) }
    ensures some { IfSome result (λ span. span ≡ (handle_in (R.sheet rows.old).tree index).span) }
    ensures rest { OnlyReads (R.sheet rows.old) (R.sheet rows.new) }
    ensures reads { ReadsUpTo (loads_on (path_in (R.sheet rows.old).tree.table (R.sheet rows.old).tree.root index)) (R.sheet rows.old) (R.sheet rows.new) }
{
    let handle = handle_for(rows, index)?;
    Some(handle.span)
}

/// The path to an index, written into an empty path, and the slot at its end with what is there; none in the empty tree.
pub fn walk_to<R: Rows>(rows: &mut R, index: u64, path: &mut Path) -> Option<Handle>
    requires tree { (kind : Kind) × IsTreeOf (R.sheet rows.old).tree kind }
    requires index { index ≤ greatest (R.sheet rows.old).tree.table.width }
    requires empty { path.old.items ≡ [] }
    ensures path { path.new.items ≡ path_in (R.sheet rows.old).tree.table (R.sheet rows.old).tree.root index }
    ensures none { IsNone result ↔ ((R.sheet rows.old).tree.root ≡ 0) }
    ensures some { IfSome result (λ handle. handle ≡ handle_in (R.sheet rows.old).tree index) }
    ensures rest { OnlyReads (R.sheet rows.old) (R.sheet rows.new) }
    ensures reads { ReadsUpTo (loads_on path.new.items) (R.sheet rows.old) (R.sheet rows.new) }
{
    let row = root_row(rows)?;
    let found = descend(rows, row, index, path);
    let width = rows.width();
    Some(Handle {
        leaf: found.step,
        span: load_found(rows, width, RowKind::Leaf, found),
    })
}

/// Ends the path to an index in the leaf that it enters last. Returns the slot there and what it holds.
pub fn end_walk<R: Rows>(rows: &mut R, leaf: Span, index: u64, path: &mut Path) -> Handle
    requires tree { (kind : Kind) × IsTreeOf (R.sheet rows.old).tree kind }
    requires index { index ≤ greatest (R.sheet rows.old).tree.table.width }
    requires way { EntersLeaf (R.sheet rows.old).tree index path.old.items leaf }
    ensures path { path.new.items ≡ path_in (R.sheet rows.old).tree.table (R.sheet rows.old).tree.root index }
    ensures handle { result ≡ handle_in (R.sheet rows.old).tree index }
    ensures rest { OnlyReads (R.sheet rows.old) (R.sheet rows.new) }
    ensures reads { ReadsUpTo (loads_at (last_step path.new.items) + 1) (R.sheet rows.old) (R.sheet rows.new) }
{
    let found = descend(rows, child_for(leaf), index, path);
    let width = rows.width();
    Handle {
        leaf: found.step,
        span: load_found(rows, width, RowKind::Leaf, found),
    }
}

// ---- of a slot of a leaf

/// The last step of a path.
pub(crate) fn end_of(path: &Path) -> PathStep
    requires { 0 < length path.now.items }
    ensures { result ≡ last_step path.now.items }
{
    path[path.len() - 1]
}

/// The first index of what the slot of a leaf holds.
fn load_first<R: Rows>(rows: &mut R, leaf: PathStep) -> u64
    requires tree { (kind : Kind) × IsTreeOf (R.sheet rows.old).tree kind }
    requires leaf { IsStepOfLeaf (R.sheet rows.old).tree leaf }
    ensures first { result ≡ (span_at (leaf_spans (R.sheet rows.old).tree.table leaf) leaf.slot).first }
    ensures reads { ReadsUpTo 1 (R.sheet rows.old) (R.sheet rows.new) }
{
    if leaf.slot == 0 {
        return leaf.min;
    }
    rows.load(leaf.row, leaf.slot) + 1
}

/// The last index of what the slot of a leaf holds.
fn load_last<R: Rows>(rows: &mut R, leaf: PathStep) -> u64
    requires tree { (kind : Kind) × IsTreeOf (R.sheet rows.old).tree kind }
    requires leaf { IsStepOfLeaf (R.sheet rows.old).tree leaf }
    ensures last { result ≡ (span_at (leaf_spans (R.sheet rows.old).tree.table leaf) leaf.slot).last }
    ensures reads { ReadsUpTo 1 (R.sheet rows.old) (R.sheet rows.new) }
{
    if leaf.slot + 1 < slots(rows.width(), RowKind::Leaf) {
        return rows.load(leaf.row, 1 + leaf.slot);
    }
    leaf.max
}

/// Whether an index, which is not before that of a path, is in the slot at its end. In the empty path none is.
fn stays_in<R: Rows>(rows: &mut R, path: &Path, index: u64) -> bool
    requires tree { (kind : Kind) × IsTreeOf (R.sheet rows.old).tree kind }
    requires path { (i : ℕ) × (i ≤ index) × (path.now.items ≡ path_in (R.sheet rows.old).tree.table (R.sheet rows.old).tree.root i) }
    requires index { index ≤ greatest (R.sheet rows.old).tree.table.width }
    ensures stays { result ≡ true → path.now.items ≡ path_in (R.sheet rows.old).tree.table (R.sheet rows.old).tree.root index }
    ensures reads { ReadsUpTo 1 (R.sheet rows.old) (R.sheet rows.new) }
{
    if path.is_empty() {
        return false;
    }
    let leaf = end_of(path);
    index <= load_last(rows, leaf)
}

/// A path goes on, in place, to an index that is not before its own. It stays if that is in the same slot.
pub fn go_on<R: Rows>(rows: &mut R, path: &mut Path, index: u64)
    requires tree { (kind : Kind) × IsTreeOf (R.sheet rows.old).tree kind }
    requires path { (i : ℕ) × (i ≤ index) × (path.old.items ≡ path_in (R.sheet rows.old).tree.table (R.sheet rows.old).tree.root i) }
    requires index { index ≤ greatest (R.sheet rows.old).tree.table.width }
    ensures path { path.new.items ≡ path_in (R.sheet rows.old).tree.table (R.sheet rows.old).tree.root index }
    ensures rest { OnlyReads (R.sheet rows.old) (R.sheet rows.new) }
{
    if stays_in(rows, path, index) {
        return;
    }
    walk_on(rows, path, index);
}

/// The word in the slot of a leaf: an entry, or 0 for a hole.
fn load_word<R: Rows>(rows: &mut R, leaf: PathStep) -> u64
    requires tree { (kind : Kind) × IsTreeOf (R.sheet rows.old).tree kind }
    requires leaf { IsStepOfLeaf (R.sheet rows.old).tree leaf }
    ensures word { result ≡ (span_at (leaf_spans (R.sheet rows.old).tree.table leaf) leaf.slot).word }
    ensures rest { R.sheet rows.new ≡ loaded (R.sheet rows.old) }
{
    let column = slots(rows.width(), RowKind::Leaf) + leaf.slot;
    rows.load(leaf.row, column)
}

/// The slot of another leaf that holds an index, and what is there. A walk goes from leaf to leaf, so branches are predicted
/// well if nodes are searched pivot by pivot.
#[inline(never)]
fn walk_far<R: Rows>(rows: &mut R, index: u64) -> Option<Handle>
    requires tree { (kind : Kind) × IsTreeOf (R.sheet rows.old).tree kind }
    requires index { index ≤ greatest (R.sheet rows.old).tree.table.width }
    ensures { FindsHandle (R.sheet rows.old) (R.sheet rows.new) index result }
{
    let width = rows.width();
    handle_by(rows, width, SlotSearch::Along, index)
}

/// The slot of another leaf, with the result taken apart at once, so that steps within a leaf, which are frequent, need no room
/// for it.
#[inline(always)]
fn handle_far<R: Rows>(rows: &mut R, index: u64) -> Option<Handle>
    requires tree { (kind : Kind) × IsTreeOf (R.sheet rows.old).tree kind }
    requires index { index ≤ greatest (R.sheet rows.old).tree.table.width }
    ensures { FindsHandle (R.sheet rows.old) (R.sheet rows.new) index result }
{
    let far = walk_far(rows, index)?;
    Some(far)
}

/// What is in the slot after a handle's, in the same leaf, which the handle does not end.
#[inline(always)]
pub fn next_in_leaf<R: Rows>(rows: &mut R, here: &Handle) -> Handle
    requires tree { (kind : Kind) × IsTreeOf (R.sheet rows.old).tree kind }
    requires here { IsHandleOf (R.sheet rows.old).tree here.now }
    requires inner { here.now.span.last ≢ here.now.leaf.max }
    ensures handle { result ≡ handle_in (R.sheet rows.old).tree (here.now.span.last + 1) }
    ensures leaf { result.leaf ≡ record here.now.leaf { slot = here.now.leaf.slot + 1 } }
    ensures reads { ReadsUpTo 2 (R.sheet rows.old) (R.sheet rows.new) }
{
    let leaf = PathStep {
        slot: here.leaf.slot + 1,
        ..here.leaf
    };
    let end = load_last(rows, leaf);
    let word = load_word(rows, leaf);
    Handle {
        leaf,
        span: Span {
            first: here.span.last + 1,
            last: end,
            word,
        },
    }
}

/// What comes after a handle: in the next slot of its leaf, or in the first slot of the next leaf. There is none if the
/// handle's span ends at the greatest index.
#[inline(always)]
pub fn behind<R: Rows>(rows: &mut R, here: &Handle) -> Option<Handle>
    requires tree { (kind : Kind) × IsTreeOf (R.sheet rows.old).tree kind }
    requires here { IsHandleOf (R.sheet rows.old).tree here.now }
    ensures none { IsNone result ↔ (here.now.span.last ≡ greatest (R.sheet rows.old).tree.table.width) }
    ensures some { IfSome result (λ handle. handle ≡ handle_in (R.sheet rows.old).tree (here.now.span.last + 1)) }
    ensures rest { OnlyReads (R.sheet rows.old) (R.sheet rows.new) }
    ensures near { here.now.span.last ≢ here.now.leaf.max → ReadsUpTo 2 (R.sheet rows.old) (R.sheet rows.new) }
    ensures far { here.now.span.last ≡ here.now.leaf.max → ReadsUpTo
        (loads_on (path_in (R.sheet rows.old).tree.table (R.sheet rows.old).tree.root (here.now.span.last + 1))) (R.sheet rows.old) (R.sheet rows.new) }
{
    let last = here.span.last;
    if last == top(rows.width()) {
        return None;
    }
    if last == here.leaf.max {
        return handle_far(rows, last + 1);
    }
    Some(next_in_leaf(rows, here))
}

/// What comes before a handle: in the previous slot of its leaf, or in the last slot of the previous leaf. There is none if the
/// handle's span begins at 0.
pub fn before<R: Rows>(rows: &mut R, here: &Handle) -> Option<Handle>
    requires tree { (kind : Kind) × IsTreeOf (R.sheet rows.old).tree kind }
    requires here { IsHandleOf (R.sheet rows.old).tree here.now }
    ensures none { IsNone result ↔ (here.now.span.first ≡ 0) }
    ensures some { IfSome result (λ handle. handle ≡ handle_in (R.sheet rows.old).tree (here.now.span.first - 1)) }
    ensures rest { OnlyReads (R.sheet rows.old) (R.sheet rows.new) }
    ensures near { here.now.leaf.slot ≢ 0 → ReadsUpTo 2 (R.sheet rows.old) (R.sheet rows.new) }
    ensures far { here.now.leaf.slot ≡ 0 → ReadsUpTo
        (loads_on (path_in (R.sheet rows.old).tree.table (R.sheet rows.old).tree.root (here.now.span.first - 1))) (R.sheet rows.old) (R.sheet rows.new) }
{
    let first = here.span.first;
    if first == 0 {
        return None;
    }
    if here.leaf.slot == 0 {
        return handle_far(rows, first - 1);
    }
    let leaf = PathStep {
        slot: here.leaf.slot - 1,
        ..here.leaf
    };
    let begin = load_first(rows, leaf);
    let word = load_word(rows, leaf);
    Some(Handle {
        leaf,
        span: Span {
            first: begin,
            last: first - 1,
            word,
        },
    })
}
