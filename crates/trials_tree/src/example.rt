//! The example at the head of `mt_tree`, word for word.

use crate::asserts::same;
use mt_tree::{Kind, Query, Reply, Shape, Tree};
use std::test::Fail;

#[test]
fn a_tree_is_made_stored_in_and_read(rt: HostRuntime) -> Result<(), Fail> {
    let kind = Kind::Range;
    let (rows, passes, calls) = (64, 1, 100);
    let shape = Shape {
        kind,
        rows,
        passes,
        calls,
    };
    let (tree, mut passes) = Tree::make(rt.alloc(), shape)?;
    let mut pass = passes.pop().ok_or("the tree has no pass")?;

    // The first call of the tree's history.
    let stored = tree.store_range(&rt, &mut pass, 10, 19, 7)?;
    same(&rt, (stored.call, stored.reply), (1, Reply::Ok), "stored");

    // A read without the lock, after that call.
    let read = tree.ask(&mut pass, &Query::Load { index: 12 })?;
    let found = read.value.map(|range| range.entry);
    same(&rt, (read.lo, read.hi, found), (1, 1, Some(7)), "read");
    Ok(())
}
