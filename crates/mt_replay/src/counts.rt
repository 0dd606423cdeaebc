//! How many ranges a tree has, as they were counted last.

ghost use Rattle.std.specs.Prelude.{◌≡◌, ◌≤◌, length, map};
ghost use Rattle.mt_base.specs.History.{last_map};
ghost use Rattle.mt_base.specs.Passes.{IsSettled};
ghost use Rattle.mt_replay.specs.Counts.{IsCountOf};
ghost use Rattle.mt_replay.specs.Trees.{AreAll, seen_by};

use crate::rows::count_settled;
use crate::trees::Plays;
use mt_desks::Passage;
use std::sync::Wait;

/// A tree had this many ranges after this many calls.
#[derive(Clone, Copy, Debug, PartialEq, Eq)]
pub(crate) struct Counted {
    pub(crate) calls: u64,
    pub(crate) ranges: u64,
}

/// How many calls a tree has had.
fn calls_settled<R: Wait, P: Passage + Drop, T: Plays<P>>(rt: &R, tree: &T, row: &mut Vec<P>) -> u64
    requires some_pass { 1 ≤ T.many tree.now }
    requires all { AreAll P.knows T.serves (T.many tree.now) tree.now row.old.items }
    requires settled { IsSettled (seen_by (T.tree tree.now).history (map P.knows row.old.items)) (map P.knows row.old.items) }
    ensures all { AreAll P.knows T.serves (T.many tree.now) tree.now row.new.items }
    ensures stays { map P.knows row.new.items ≡ map P.knows row.old.items }
    ensures calls { result ≡ length (seen_by (T.tree tree.now).history (map P.knows row.old.items)).records }
{
    let own = row.len() - 1;
    let calls = tree.calls(rt, &mut row[own]);
    tree.settle(rt, row.as_mut_slice());
    calls
}

/// How many ranges a tree has. It is checked only where it has had calls since its ranges were counted.
pub(crate) fn count_again<R: Wait, P: Passage + Drop, T: Plays<P>>(
    rt: &R,
    tree: &T,
    row: &mut Vec<P>,
    counted: &mut Counted,
) -> u64
    requires some_pass { 1 ≤ T.many tree.now }
    requires all { AreAll P.knows T.serves (T.many tree.now) tree.now row.old.items }
    requires settled { IsSettled (seen_by (T.tree tree.now).history (map P.knows row.old.items)) (map P.knows row.old.items) }
    requires counted { IsCountOf (seen_by (T.tree tree.now).history (map P.knows row.old.items)) counted.old }
    ensures all { AreAll P.knows T.serves (T.many tree.now) tree.now row.new.items }
    ensures stays { map P.knows row.new.items ≡ map P.knows row.old.items }
    ensures counted { IsCountOf (seen_by (T.tree tree.now).history (map P.knows row.old.items)) counted.new }
    ensures count { result ≡ length (last_map (seen_by (T.tree tree.now).history (map P.knows row.old.items))) }
{
    let calls = calls_settled(rt, tree, row);
    if calls == counted.calls {
        return counted.ranges;
    }
    let ranges = count_settled(rt, tree, row);
    *counted = Counted { calls, ranges };
    ranges
}
