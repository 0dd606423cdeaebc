//! A tree whose passes (handles) are all settled, and their row. No call is made here, so both keep their meaning.

ghost use Rattle.std.specs.Prelude.{◌≡◌, ◌≤◌, length, map, IfOk};
ghost use Rattle.mt_base.specs.History.{last_map};
ghost use Rattle.mt_base.specs.Passes.{IsSettled};
ghost use Rattle.mt_image.specs.Images.{IsImageOfMap};
ghost use Rattle.mt_replay.specs.Trees.{AreAll, IsNewTree, seen_by};

use crate::trees::Plays;
use mt_base::{NoMemory, Range};
use mt_desks::Passage;
use std::alloc::Global;
use std::sync::Wait;

/// Checks a tree, and returns how many ranges it has.
pub(crate) fn count_settled<R: Wait, P: Passage + Drop, T: Plays<P>>(
    rt: &R,
    tree: &T,
    row: &mut Vec<P>,
) -> u64
    requires some_pass { 1 ≤ T.many tree.now }
    requires all { AreAll P.knows T.serves (T.many tree.now) tree.now row.old.items }
    requires settled { IsSettled (seen_by (T.tree tree.now).history (map P.knows row.old.items)) (map P.knows row.old.items) }
    ensures all { AreAll P.knows T.serves (T.many tree.now) tree.now row.new.items }
    ensures stays { map P.knows row.new.items ≡ map P.knows row.old.items }
    ensures count { result ≡ length (last_map (seen_by (T.tree tree.now).history (map P.knows row.old.items))) }
{
    let own = row.len() - 1;
    let count = tree.check(rt, &mut row[own]);
    tree.settle(rt, row.as_mut_slice());
    count
}

/// A copy of a tree, which has had no call, and the copy's handles.
///
/// # Errors
///
/// `NoMemory` where memory ran out.
pub(crate) fn copy_settled<R: Wait, P: Passage + Drop, T: Plays<P>>(
    rt: &R,
    alloc: Global,
    tree: &T,
    row: &mut Vec<P>,
) -> Result<(T, Vec<P>), NoMemory>
    requires some_pass { 1 ≤ T.many tree.now }
    requires all { AreAll P.knows T.serves (T.many tree.now) tree.now row.old.items }
    requires settled { IsSettled (seen_by (T.tree tree.now).history (map P.knows row.old.items)) (map P.knows row.old.items) }
    ensures all { AreAll P.knows T.serves (T.many tree.now) tree.now row.new.items }
    ensures stays { map P.knows row.new.items ≡ map P.knows row.old.items }
    ensures new { IfOk result (λ made. IsNewTree (T.tree tree.now).history.kind (T.tree tree.now).history.rows
        (last_map (seen_by (T.tree tree.now).history (map P.knows row.old.items))) (T.many tree.now) (T.tree made.0) (map P.knows made.1.items)) }
    ensures new_all { IfOk result (λ made. AreAll P.knows T.serves (T.many tree.now) made.0 made.1.items) }
    ensures many { IfOk result (λ made. T.many made.0 ≡ T.many tree.now) }
{
    let own = row.len() - 1;
    let made = tree.copy(rt, alloc, &mut row[own]);
    tree.settle(rt, row.as_mut_slice());
    made
}

/// The ranges of a tree, in rising order.
///
/// # Errors
///
/// `NoMemory` where memory ran out.
pub fn list_settled<R: Wait, P: Passage + Drop, T: Plays<P>>(
    rt: &R,
    alloc: Global,
    tree: &T,
    row: &mut Vec<P>,
) -> Result<Vec<Range>, NoMemory>
    requires some_pass { 1 ≤ T.many tree.now }
    requires all { AreAll P.knows T.serves (T.many tree.now) tree.now row.old.items }
    requires settled { IsSettled (seen_by (T.tree tree.now).history (map P.knows row.old.items)) (map P.knows row.old.items) }
    ensures all { AreAll P.knows T.serves (T.many tree.now) tree.now row.new.items }
    ensures stays { map P.knows row.new.items ≡ map P.knows row.old.items }
    ensures ranges { IfOk result (λ ranges. ranges.items ≡ last_map (seen_by (T.tree tree.now).history (map P.knows row.old.items))) }
{
    let own = row.len() - 1;
    let ranges = tree.list(rt, alloc, &mut row[own]);
    tree.settle(rt, row.as_mut_slice());
    ranges
}

/// An image of the map of a tree.
///
/// # Errors
///
/// `NoMemory` where memory ran out.
pub fn image_settled<R: Wait, P: Passage + Drop, T: Plays<P>>(
    rt: &R,
    alloc: Global,
    tree: &T,
    row: &mut Vec<P>,
) -> Result<Vec<u8>, NoMemory>
    requires some_pass { 1 ≤ T.many tree.now }
    requires all { AreAll P.knows T.serves (T.many tree.now) tree.now row.old.items }
    requires settled { IsSettled (seen_by (T.tree tree.now).history (map P.knows row.old.items)) (map P.knows row.old.items) }
    ensures all { AreAll P.knows T.serves (T.many tree.now) tree.now row.new.items }
    ensures stays { map P.knows row.new.items ≡ map P.knows row.old.items }
    ensures image { IfOk result (λ bytes. IsImageOfMap (T.tree tree.now).history.kind
        (last_map (seen_by (T.tree tree.now).history (map P.knows row.old.items))) bytes.items) }
{
    let own = row.len() - 1;
    let image = tree.image(rt, alloc, &mut row[own]);
    tree.settle(rt, row.as_mut_slice());
    image
}
