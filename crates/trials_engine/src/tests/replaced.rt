//! Stores into trees of each kind: the nodes that each takes and leaves, and the gap words afterwards.

ghost use Rattle.std.specs.Prelude.{◌≡◌, ◌<◌, ◌+◌, ◌-◌, ◌^◌, ◌≤◌, length};

use crate::small_trees::push_row;
use crate::tests::shapes::{
    Case, FILLING, NARROW, NARROW_FILLING, NARROW_SPLIT, SPLIT, Shape, TRIALS, WIDE,
};
use crate::tests::{fresh_of, same, stores};
use mt_base::{Call, DEEPEST, FIRST_ROW, Kind, NoMemory, Width, cols, errno, top};
use mt_engine::Engine;
use mt_layout::{RowKind, Span, kind_of, row_of, slots};
use mt_list::{ListMap, Ranges};
use mt_rows::plain_trees::{height_in, map_in, reached_in, spans_in};
use mt_rows::{PlainRows, Rows};
use std::alloc::Global;
use std::process::Abort;
use std::test::Fail;

/// As many nodes as the trees of these tests have.
const ROWS: u64 = 400;

/// All words of the nodes, with those of the numbers below the first node's.
fn words_of(rows: &mut PlainRows, alloc: Global) -> Result<Vec<u64>, NoMemory> {
    let mut words = vec![in alloc; 0; FIRST_ROW as usize * cols(rows.width()) as usize]?;
    let count = rows.size();
    for n in 0..count {
        push_row(rows, FIRST_ROW + n as u32, &mut words)?;
    }
    Ok(words)
}

/// The place of the gap word of a slot, after the pivots and the slots of its node.
fn gap_place(width: Width, row: u32, slot: usize) -> usize
    requires { slot < 2 ^ 32 }
{
    let pivots_and_slots = 2 * slots(width, RowKind::Gapped) as usize;
    cols(width) as usize * row as usize + pivots_and_slots + slot
}

/// The longest hole below a node, at most this many levels deep, and none if a gap word there is another.
fn longest_hole(width: Width, words: &[u64], depth: u32, row: &Span) -> Option<u64> {
    if depth == 0 {
        return None;
    }
    let (number, kind) = (row_of(row.word)?, kind_of(row.word)?);
    let mut longest = 0;
    for (slot, child) in spans_in(width, words, row).as_slice().iter().enumerate() {
        let hole = match kind {
            RowKind::Leaf if child.word == 0 => child.last.abs_diff(child.first).saturating_add(1),
            RowKind::Leaf => 0,
            _ => longest_hole(width, words, depth - 1, child)?,
        };
        let gap = words.get(gap_place(width, number, slot));
        if kind == RowKind::Gapped && gap != Some(&hole) {
            return None;
        }
        longest = hole.max(longest);
    }
    Some(longest)
}

/// A tree: its root word, its levels, and the nodes that are reached.
#[derive(Drop)]
struct Tree {
    root: u64,
    height: u32,
    rows: Vec<u32>,
}

/// The engine of a tree of this kind after these calls on the empty one, and a list that plays them too.
fn played(
    rt: &impl Abort,
    alloc: Global,
    kind: Kind,
    calls: &[Call],
) -> Result<(Engine<PlainRows>, ListMap), NoMemory>
    requires { length calls.now < 2 ^ 32 }
{
    let mut engine = fresh_of(alloc, kind, ROWS)?;
    let mut list = ListMap::new(alloc, kind);
    for call in calls {
        let reply = engine.apply(call);
        same(rt, errno(&reply), None, *call);
        same(rt, list.act(call)?, reply, *call);
    }
    Ok((engine, list))
}

/// The longest hole of the tree with this root word; 0 where there is no root, and none where a gap word is wrong.
fn hole_of(width: Width, words: &[u64], root: u64) -> Option<u64> {
    if root == 0 {
        return Some(0);
    }
    let whole = Span {
        first: 0,
        last: top(width),
        word: root,
    };
    longest_hole(width, words, DEEPEST as u32, &whole)
}

/// The tree with these words, from this root word: as many nodes are reached as are live, and all of its gap words are right.
fn tree_of(
    rt: &impl Abort,
    alloc: Global,
    width: Width,
    words: &[u64],
    root: u64,
    live: u64,
) -> Result<Tree, NoMemory> {
    same(rt, hole_of(width, words, root).is_some(), true, root);
    let height = height_in(width, words, root);
    let rows = reached_in(alloc, width, words, root)?;
    same(rt, rows.len() as u64, live, root);
    Ok(Tree { root, height, rows })
}

/// The words from this root word represent the ranges of a list.
fn expect_words(
    rt: &impl Abort,
    alloc: Global,
    width: Width,
    words: &[u64],
    root: u64,
    list: &mut ListMap,
) -> Result<(), NoMemory> {
    let ranges = map_in(alloc, width, words, root)?;
    same(rt, ranges.as_slice(), list.list(alloc)?.as_slice(), root);
    Ok(())
}

/// The tree of this kind after these calls on the empty one. By the plain program its words represent the ranges of the list
/// that plays the same calls.
fn tree_after(rt: &impl Abort, alloc: Global, kind: Kind, calls: &[Call]) -> Result<Tree, NoMemory>
    requires { length calls.now < 2 ^ 32 }
{
    let (engine, mut list) = played(rt, alloc, kind, calls)?;
    let (mut rows, book) = engine.parts();
    let words = words_of(&mut rows, alloc)?;
    let (width, root) = (rows.width(), rows.root());
    expect_words(rt, alloc, width, words.as_slice(), root, &mut list)?;
    tree_of(rt, alloc, width, words.as_slice(), root, book.live())
}

/// How many of these nodes are not among those.
fn count_others(these: &[u32], those: &[u32]) -> usize {
    these.iter().filter(|row| !those.contains(row)).count()
}

/// What a call made of the old tree, which is the new one then.
fn shape_of(old: &Tree, new: &Tree) -> Shape {
    Shape {
        at_root: new.root != old.root,
        height: new.height,
        live: new.rows.len(),
        taken: count_others(new.rows.as_slice(), old.rows.as_slice()),
        gone: count_others(old.rows.as_slice(), new.rows.as_slice()),
    }
}

/// Tries each of these calls on a tree of its own of this kind, into which the stores `before` were made.
fn expect_each(
    rt: &impl Abort,
    alloc: Global,
    kind: Kind,
    before: &[Call],
    cases: &[Case],
) -> Result<(), NoMemory> {
    assert!(rt; before.len() < 1000);
    let old = tree_after(rt, alloc, kind, before)?;
    for (call, want) in cases {
        let mut calls = Vec::from_slice(alloc, before)?;
        calls.push(*call)?;
        assert!(rt; calls.len() <= 1000);
        let new = tree_after(rt, alloc, kind, calls.as_slice())?;
        same(rt, shape_of(&old, &new), *want, (kind, *call));
    }
    Ok(())
}

/// So many ranges of ten indexes, side by side.
fn tens(alloc: Global, count: u64) -> Result<Vec<Call>, NoMemory>
    requires { count < 2 ^ 32 }
{
    let mut calls = Vec::new(alloc);
    for n in 0..count {
        calls.push(call!(store 10 * n, 10 * n + 9, 1))?;
    }
    Ok(calls)
}

/// Tries the calls on trees of each of these kinds.
fn expect_all(
    rt: &impl Abort,
    alloc: Global,
    kinds: &[Kind],
    before: &[Call],
    cases: &[Case],
) -> Result<(), NoMemory> {
    for kind in kinds {
        expect_each(rt, alloc, *kind, before, cases)?;
    }
    Ok(())
}

#[test]
fn rows_are_replaced(rt: HostRuntime) -> Result<(), Fail> {
    for trial in TRIALS {
        let before = stores(rt.alloc(), trial.singles)?;
        expect_all(&rt, rt.alloc(), trial.kinds, before.as_slice(), trial.cases)?;
    }
    Ok(())
}

/// Tries the calls on trees of each of these kinds, of two full leaves without a hole, and a hole after them. The trees have
/// this many ranges of ten indexes, of which stores at these indexes make more.
fn expect_split(
    rt: &impl Abort,
    alloc: Global,
    kinds: &[Kind],
    count: u64,
    at: &[u64],
    cases: &[Case],
) -> Result<(), NoMemory>
    requires { count < 2 ^ 32 }
{
    let mut before = tens(alloc, count)?;
    for &index in at {
        before.push(call!(store index, index, 1))?;
    }
    expect_all(rt, alloc, kinds, before.as_slice(), cases)
}

#[test]
fn two_leaves_are_split_in_three(rt: HostRuntime) -> Result<(), Fail> {
    expect_split(&rt, rt.alloc(), WIDE, 30, FILLING, SPLIT)?;
    expect_split(&rt, rt.alloc(), NARROW, 60, NARROW_FILLING, NARROW_SPLIT)?;
    expect_split(&rt, rt.alloc(), NARROW, 52, NARROW_FILLING, NARROW_SPLIT)?;
    Ok(())
}
