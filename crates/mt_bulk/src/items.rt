//! The items of ranges: the ranges and the holes between them.

ghost use Rattle.std.specs.Prelude.{◌≡◌, ◌≢◌, ◌+◌, ◌*◌, ◌<◌, ◌≤◌, ◌++◌, ℕ, [], ◌∷◌, IfOk, IfErr, None, Some, length, nat_lt, vec_len, vec_capacity};
ghost use Rattle.mt_base.specs.Width.{greatest_of};
ghost use Rattle.mt_bulk.specs.Builds.{refused_by};
ghost use Rattle.mt_bulk.specs.Items as defined;
ghost use Rattle.mt_bulk.specs.Items.{hole_to, items_between, low_behind, misplaced};

use crate::errors::BulkError;
use mt_base::{Kind, NoMemory, Range, is_reserved, top, width_of};
use mt_layout::Item;
use std::alloc::Global;

/// Whether a range that begins here begins above the one that ends at `before`.
fn begins_behind(before: Option<u64>, first: u64) -> bool
    ensures { result ≡ nat_lt first (low_behind before) }
{
    match before {
        Some(last) => first <= last,
        None => false,
    }
}

/// Whether a range may not follow one that ends at `before`.
fn is_misplaced(kind: Kind, before: Option<u64>, range: &Range) -> bool
    ensures { result ≡ defined.is_misplaced kind (low_behind before) range.now }
{
    range.last < range.first
        || top(width_of(kind)) < range.last
        || range.entry == 0
        || is_reserved(range.entry)
        || begins_behind(before, range.first)
}

/// Appends the hole after a range that ends at `before`, up to this index, if there is one.
fn push_hole(items: &mut Vec<Item>, before: Option<u64>, last: u64)
    requires { vec_len items.old < vec_capacity items.old }
    ensures items { items.new.items ≡ items.old.items ++ hole_to (low_behind before) (last + 1) }
    ensures len { vec_len items.new ≤ vec_len items.old + 1 }
    ensures capacity { vec_capacity items.new ≡ vec_capacity items.old }
{
    if begins_behind(before, last) {
        return;
    }
    items.push_reserved(Item {
        last,
        word: 0,
        gap: 0,
    });
}

/// Appends the hole in front of a range, and the range.
fn push_range(items: &mut Vec<Item>, before: Option<u64>, range: &Range)
    requires room { vec_len items.old + 1 < vec_capacity items.old }
    requires behind { low_behind before ≤ range.now.first }
    ensures items { items.new.items ≡ items.old.items
        ++ (hole_to (low_behind before) range.now.first ++ record { last = range.now.last; word = range.now.entry; gap = 0 } ∷ []) }
    ensures len { vec_len items.new ≤ vec_len items.old + 2 }
    ensures capacity { vec_capacity items.new ≡ vec_capacity items.old }
{
    if range.first > 0 {
        push_hole(items, before, range.first - 1);
    }
    items.push_reserved(Item {
        last: range.last,
        word: range.entry,
        gap: 0,
    });
}

/// The items of ranges in good order, in one way through them.
///
/// # Errors
///
/// `Order` just where the order is not good, and `NoMemory` where memory ran out.
pub(crate) fn items_of(alloc: Global, kind: Kind, ranges: &[Range]) -> Result<Vec<Item>, BulkError>
    requires { length ranges.now ≤ 1000000000000000 }
    ensures good { IfOk result (λ items. misplaced kind ranges.now ≡ None) }
    ensures items { IfOk result (λ items. items.items ≡ defined.items_of kind ranges.now) }
    ensures few { IfOk result (λ items. vec_len items ≤ 2 * length ranges.now + 1) }
    ensures err { IfErr result (λ e. e ≢ BulkError.NoMemory → (rows : ℕ) → refused_by (misplaced kind ranges.now) rows ≡ Some e) }
{
    let mut items = Vec::with_capacity(alloc, 2 * ranges.len() + 1)?;
    let mut before = None;
    for at in 0..ranges.len() {
        let range = &ranges[at];
        if is_misplaced(kind, before, range) {
            return Err(BulkError::Order { at: at as u64 });
        }
        push_range(&mut items, before, range);
        before = Some(range.last);
    }
    push_hole(&mut items, before, top(width_of(kind)));
    Ok(items)
}
