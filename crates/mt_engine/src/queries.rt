//! The queries of a map, answered by the words of a tree.

ghost use Rattle.std.specs.Prelude.{◌≡◌, ◌≢◌, ℕ, ◌≤◌, IfSome, option_map};
ghost use Rattle.mt_base.specs.declared.kinds.Kind.{Kind};
ghost use Rattle.mt_base.specs.declared.calls.Query.TheVariants.{Load, Find, Next, Prev, Rfind};
ghost use Rattle.mt_base.specs.Call.{answer};
ghost use Rattle.mt_base.specs.Width.{greatest};
ghost use Rattle.mt_list.specs.Places.{up_to, down_to};
ghost use Rattle.mt_rows.specs.Publish.{IsTreeOf, map_by};
ghost use Rattle.mt_rows.specs.Sheet.{OnlyReads, ReadsUpTo};
ghost use Rattle.mt_path.specs.Handles.{handle_in, IsHandleOf};
ghost use Rattle.mt_engine.specs.Engine.{LoadsItsWay};
ghost use Rattle.mt_engine.specs.MapSpans.{range_of};
ghost use Rattle.mt_engine.specs.Nearest.{nearest_from, nearest_up_to};
ghost use Rattle.mt_engine.specs.RangeWalks.{range_at};

use mt_base::{Query, Range, top};
use mt_layout::Span;
use mt_path::{Handle, before, behind, handle_at, span_for};
use mt_rows::Rows;

/// The greatest index of the tree that nodes hold.
pub fn top_of<R: Rows>(rows: &R) -> u64
    ensures { result ≡ greatest (R.sheet rows.now).tree.table.width }
{
    top(rows.width())
}

/// The range of a span that is no hole.
pub fn range_in(span: Span) -> Range
    ensures { result ≡ range_of span }
{
    Range {
        first: span.first,
        last: span.last,
        entry: span.word,
    }
}

/// The range, where it begins at `max` or below.
fn up_to(range: Option<Range>, max: u64) -> Option<Range>
    ensures { result ≡ up_to max range }
{
    range.filter(|r| r.first <= max)
}

/// The range, where it ends at `min` or above.
fn down_to(range: Option<Range>, min: u64) -> Option<Range>
    ensures { result ≡ down_to min range }
{
    range.filter(|r| r.last >= min)
}

/// The slot of the first range that ends at an index of a slot or above: the slot itself, or the one right after the hole
/// there.
#[inline(always)]
pub fn slot_from<R: Rows>(rows: &mut R, here: &Handle) -> Option<Handle>
    requires tree { (kind : Kind) × IsTreeOf (R.sheet rows.old).tree kind }
    requires here { IsHandleOf (R.sheet rows.old).tree here.now }
    ensures handle { IfSome result (IsHandleOf (R.sheet rows.old).tree) }
    ensures unread { here.now.span.word ≢ 0 → R.sheet rows.new ≡ R.sheet rows.old }
    ensures near { here.now.span.last ≢ here.now.leaf.max → ReadsUpTo 2 (R.sheet rows.old) (R.sheet rows.new) }
    ensures range { (index : ℕ) → index ≤ greatest (R.sheet rows.old).tree.table.width
        → here.now ≡ handle_in (R.sheet rows.old).tree index → range_at result ≡ nearest_from (map_by (R.sheet rows.old).tree) index }
    ensures rest { OnlyReads (R.sheet rows.old) (R.sheet rows.new) }
{
    if here.span.word != 0 {
        return Some(*here);
    }
    behind(rows, here)
}

/// The first range that ends at an index of a slot or above.
pub fn nearest_from<R: Rows>(rows: &mut R, here: &Handle) -> Option<Range>
    requires tree { (kind : Kind) × IsTreeOf (R.sheet rows.old).tree kind }
    requires here { IsHandleOf (R.sheet rows.old).tree here.now }
    ensures range { (index : ℕ) → index ≤ greatest (R.sheet rows.old).tree.table.width
        → here.now ≡ handle_in (R.sheet rows.old).tree index → result ≡ nearest_from (map_by (R.sheet rows.old).tree) index }
    ensures rest { OnlyReads (R.sheet rows.old) (R.sheet rows.new) }
{
    let found = slot_from(rows, here)?;
    Some(range_in(found.span))
}

/// The last range that begins at an index of a slot or below: the range in the slot, or the one right before the hole there.
fn nearest_up_to<R: Rows>(rows: &mut R, here: &Handle) -> Option<Range>
    requires tree { (kind : Kind) × IsTreeOf (R.sheet rows.old).tree kind }
    requires here { IsHandleOf (R.sheet rows.old).tree here.now }
    ensures range { (index : ℕ) → index ≤ greatest (R.sheet rows.old).tree.table.width
        → here.now ≡ handle_in (R.sheet rows.old).tree index → result ≡ nearest_up_to (map_by (R.sheet rows.old).tree) index }
    ensures rest { OnlyReads (R.sheet rows.old) (R.sheet rows.new) }
{
    if here.span.word != 0 {
        return Some(range_in(here.span));
    }
    let found = before(rows, here)?;
    Some(range_in(found.span))
}

/// The range that holds an index. It is part of its callers, so that the ends are not sought where the entry alone is wanted.
#[inline(always)]
fn load<R: Rows>(rows: &mut R, index: u64) -> Option<Range>
    requires tree { (kind : Kind) × IsTreeOf (R.sheet rows.old).tree kind }
    ensures answer { result ≡ answer (map_by (R.sheet rows.old).tree) (Load index) }
    ensures rest { OnlyReads (R.sheet rows.old) (R.sheet rows.new) }
    ensures reads { LoadsItsWay index (R.sheet rows.old) (R.sheet rows.new) }
{
    if index > top_of(rows) {
        return None;
    }
    let here = span_for(rows, index)?;
    if here.word == 0 {
        return None;
    }
    Some(range_in(here))
}

/// The entry that an index holds.
pub fn entry_at<R: Rows>(rows: &mut R, index: u64) -> Option<u64>
    requires tree { (kind : Kind) × IsTreeOf (R.sheet rows.old).tree kind }
    ensures entry { result ≡ option_map (λ r. r.entry) (answer (map_by (R.sheet rows.old).tree) (Load index)) }
    ensures rest { OnlyReads (R.sheet rows.old) (R.sheet rows.new) }
    ensures reads { LoadsItsWay index (R.sheet rows.old) (R.sheet rows.new) }
{
    load(rows, index).map(|range| range.entry)
}

/// The first range that ends at `index` or above and begins at `max` or below, where `index` is at most `max`.
fn find<R: Rows>(rows: &mut R, index: u64, max: u64) -> Option<Range>
    requires tree { (kind : Kind) × IsTreeOf (R.sheet rows.old).tree kind }
    ensures answer { result ≡ answer (map_by (R.sheet rows.old).tree) (Find index max) }
    ensures rest { OnlyReads (R.sheet rows.old) (R.sheet rows.new) }
{
    if index > max {
        return None;
    }
    if index > top_of(rows) {
        return None;
    }
    let here = handle_at(rows, index)?;
    up_to(nearest_from(rows, &here), max)
}

/// The first range that begins above `index`, and at `max` or below.
fn next<R: Rows>(rows: &mut R, index: u64, max: u64) -> Option<Range>
    requires tree { (kind : Kind) × IsTreeOf (R.sheet rows.old).tree kind }
    ensures answer { result ≡ answer (map_by (R.sheet rows.old).tree) (Next index max) }
    ensures rest { OnlyReads (R.sheet rows.old) (R.sheet rows.new) }
{
    if index > top_of(rows) {
        return None;
    }
    let here = handle_at(rows, index)?;
    let above = behind(rows, &here)?;
    up_to(nearest_from(rows, &above), max)
}

/// The last range that ends below `index`, and at `min` or above. It is sought from the greatest index where `index` is above
/// that.
fn prev<R: Rows>(rows: &mut R, index: u64, min: u64) -> Option<Range>
    requires tree { (kind : Kind) × IsTreeOf (R.sheet rows.old).tree kind }
    ensures answer { result ≡ answer (map_by (R.sheet rows.old).tree) (Prev index min) }
    ensures rest { OnlyReads (R.sheet rows.old) (R.sheet rows.new) }
{
    let top = top_of(rows);
    if index > top {
        return rfind(rows, top, min);
    }
    let here = handle_at(rows, index)?;
    let below = before(rows, &here)?;
    down_to(nearest_up_to(rows, &below), min)
}

/// The last range that begins at `index` or below and ends at `min` or above, where `index` is at least `min`. It is sought
/// from the greatest index where `index` is above that.
fn rfind<R: Rows>(rows: &mut R, index: u64, min: u64) -> Option<Range>
    requires tree { (kind : Kind) × IsTreeOf (R.sheet rows.old).tree kind }
    ensures answer { result ≡ answer (map_by (R.sheet rows.old).tree) (Rfind index min) }
    ensures rest { OnlyReads (R.sheet rows.old) (R.sheet rows.new) }
{
    let from = index.min(top_of(rows));
    if from < min {
        return None;
    }
    let here = handle_at(rows, from)?;
    down_to(nearest_up_to(rows, &here), min)
}

/// Answers a query as the map that the words represent answers it.
pub fn ask<R: Rows>(rows: &mut R, query: &Query) -> Option<Range>
    requires tree { (kind : Kind) × IsTreeOf (R.sheet rows.old).tree kind }
    ensures answer { result ≡ answer (map_by (R.sheet rows.old).tree) query.now }
    ensures rest { OnlyReads (R.sheet rows.old) (R.sheet rows.new) }
{
    match *query {
        Query::Load { index } => load(rows, index),
        Query::Find { index, max } => find(rows, index, max),
        Query::Next { index, max } => next(rows, index, max),
        Query::Prev { index, min } => prev(rows, index, min),
        Query::Rfind { index, min } => rfind(rows, index, min),
    }
}
