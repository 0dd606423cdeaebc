use crate::asserts::same;
use crate::small_trees::{ELEVEN, LONE, LONE32, Node, TWENTY_SEVEN, words_of};
use mt_base::{FIRST_ROW, NoMemory, Range, Width, cols};
use mt_rows::plain_trees::{height_in, map_in, reached_in};
use std::alloc::Global;
use std::process::Abort;
use std::test::Fail;

/// The words of a table of nodes of this width, which begins with these nodes.
fn table(alloc: Global, width: Width, nodes: &[Node]) -> Result<Vec<u64>, NoMemory> {
    let rows = words_of(alloc, width, nodes)?;
    let mut words = vec![in alloc; 0; cols(width) as usize * FIRST_ROW as usize]?;
    words.extend_from_slice(&rows)?;
    Ok(words)
}

/// Ranges by their first and last indexes, which all hold the entry 4096.
macro_rules! held {
    ($($first:literal $last:literal),*) => {
        [$(Range { first: $first, last: $last, entry: 4096 }),*]
    };
}

/// The ranges of the wide tree of two leaves.
#[rattlefmt::skip]
const IN_ELEVEN: [Range; 11] = held![
    0 0, 1 1, 2 2, 3 3, 4 4, 5 11, 12 12, 13 13, 14 14, 15 15, 16 16
];

/// The ranges of the narrow tree of two leaves.
#[rattlefmt::skip]
const IN_TWENTY_SEVEN: [Range; 27] = held![
    0 0, 1 1, 2 2, 3 3, 4 4, 5 5, 6 6, 7 7, 8 8, 9 9, 10 10, 11 11, 12 12, 13 23, 24 24, 25 25,
    26 26, 27 27, 28 28, 29 29, 30 30, 31 31, 32 32, 33 33, 34 34, 35 35, 36 36
];

/// The range of the tree of one leaf.
const LONE_RANGE: [Range; 1] = [Range {
    first: 10,
    last: 19,
    entry: 5,
}];

/// What these nodes represent from this root word: the ranges, the nodes that are reached, and the height.
fn expect_tree(
    rt: &impl Abort,
    alloc: Global,
    width: Width,
    nodes: &[Node],
    root: u64,
    (ranges, reached, height): (&[Range], &[u32], u32),
) -> Result<(), NoMemory> {
    let words = table(alloc, width, nodes)?;
    let held = map_in(alloc, width, &words, root)?;
    same(rt, held.as_slice(), ranges, (width, root));
    let found = reached_in(alloc, width, &words, root)?;
    same(rt, found.as_slice(), reached, (width, root));
    same(rt, height_in(width, &words, root), height, (width, root));
    Ok(())
}

#[test]
fn trees_of_words(rt: HostRuntime) -> Result<(), Fail> {
    for (width, two, ranges, lone) in [
        (Width::Long, ELEVEN, &IN_ELEVEN[..], LONE),
        (Width::Short, TWENTY_SEVEN, &IN_TWENTY_SEVEN[..], LONE32),
    ] {
        let want = (ranges, &[16, 17, 18][..], 2);
        expect_tree(&rt, rt.alloc(), width, two, 4124, want)?;
        let want = (&LONE_RANGE[..], &[16][..], 1);
        expect_tree(&rt, rt.alloc(), width, lone, 4108, want)?;
        expect_tree(&rt, rt.alloc(), width, lone, 0, (&[], &[], 0))?;
    }
    Ok(())
}
