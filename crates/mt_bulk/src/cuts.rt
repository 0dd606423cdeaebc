//! Where the items of a map are cut into leaves.

ghost use Rattle.std.specs.Prelude.{◌≡◌, ◌<◌, ◌≤◌, length, IfOk};
ghost use Rattle.mt_layout.specs.Spans.{spans_from, Apart};
ghost use Rattle.mt_bulk.specs.Cuts as defined;
ghost use Rattle.mt_bulk.specs.Cuts.{cut, ends_from, leaf_size};

use mt_base::NoMemory;
use mt_layout::Item;
use std::alloc::Global;

/// So many items, or one fewer, so that they do not end with a hole.
fn or_one_fewer(items: &[Item], count: usize) -> usize
    requires some { 1 ≤ count }
    requires inside { count ≤ length items.now }
    ensures { result ≡ defined.or_one_fewer items.now count }
{
    if items[count - 1].word == 0 {
        count - 1
    } else {
        count
    }
}

/// So many items, or one more, so that they do not end with a hole.
fn or_one_more(items: &[Item], count: usize) -> usize
    requires some { 1 ≤ count }
    requires inside { count < length items.now }
    ensures { result ≡ defined.or_one_more items.now count }
{
    if items[count - 1].word == 0 {
        count + 1
    } else {
        count
    }
}

/// How many of these items the first leaf has.
fn first_leaf(items: &[Item], most: usize) -> usize
    requires most { 2 ≤ most }
    requires few { most ≤ 64 }
    ensures { result ≡ leaf_size most items.now }
{
    let count = items.len();
    if 2 * most - 2 < count {
        or_one_fewer(items, most)
    } else if most < count {
        or_one_more(items, (count + 1) / 2)
    } else {
        count
    }
}

/// Where each leaf of these items ends.
///
/// # Errors
///
/// `NoMemory` where memory ran out.
pub(crate) fn leaf_ends(alloc: Global, items: &[Item], most: usize) -> Result<Vec<usize>, NoMemory>
    requires most { 6 ≤ most }
    requires few { most ≤ 64 }
    requires apart { Apart (spans_from 0 items.now) }
    ensures { IfOk result (λ ends. ends.items ≡ ends_from 0 (cut (leaf_size most) items.now)) }
{
    let mut ends = Vec::with_capacity(alloc, items.len() / (most - 1) + 1)?;
    let mut at = 0;
    while at < items.len() {
        at += first_leaf(&items[at..], most);
        ends.push(at)?;
    }
    Ok(ends)
}
