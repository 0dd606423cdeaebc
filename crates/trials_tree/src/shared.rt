//! Trees on one thread and on two.

ghost use Rattle.std.specs.Prelude.{All, IfOk};
ghost use Rattle.std.specs.Thread.{IsSync};
ghost use Rattle.mt_tree.specs.Trees.{AreAll, IsPassOf};

use crate::asserts::{KINDS, same};
use mt_tree::{
    Done, DupError, Field, Form, Kind, MakeError, Note, Pass, Query, Range, Read, Reply, Shape,
    Shortage, Tree, Worn,
};
use std::alloc::Global;
use std::process::Abort;
use std::sync::Wait;
use std::test::Fail;
use std::thread::{Threads, join};

/// A shape of a tree of this kind.
pub fn shape_of(kind: Kind, rows: u64, passes: u32, calls: u64) -> Shape {
    Shape {
        kind,
        rows,
        passes,
        calls,
    }
}

/// Why no tree of this shape is made.
fn refused(alloc: Global, shape: Shape) -> Option<MakeError> {
    match Tree::make(alloc, shape) {
        Ok(_) => None,
        Err(why) => Some(why),
    }
}

/// A tree and its passes (handles).
pub fn made(alloc: Global, shape: Shape) -> Result<(Tree, Vec<Pass>), Fail>
    ensures { IfOk result (λ r. AreAll r.0 r.1.items) }
{
    match Tree::make(alloc, shape) {
        Ok(made) => Ok(made),
        Err(_) => Err("no tree was made".into()),
    }
}

/// The last handle that is left.
pub fn last_pass(tree: &Tree, passes: &mut Vec<Pass>) -> Result<Pass, Fail>
    requires { All (IsPassOf tree.now) passes.old.items }
    ensures rest { All (IsPassOf tree.now) passes.new.items }
    ensures pass { IfOk result (IsPassOf tree.now) }
{
    match passes.pop() {
        Some(pass) => Ok(pass),
        None => Err("a pass is missing".into()),
    }
}

/// The ranges of a tree.
pub fn listed(
    rt: &impl Wait,
    alloc: Global,
    tree: &Tree,
    pass: &mut Pass,
) -> Result<Vec<Range>, Fail>
    requires { IsPassOf tree.now pass.old }
    ensures { IsPassOf tree.now pass.new }
{
    let mut write = tree.lock(rt, pass);
    let ranges = write.list(alloc);
    write.unlock();
    Ok(ranges?)
}

const BAD_ROWS: Option<MakeError> = Some(MakeError::BadShape { field: Field::Rows });

const BAD_PASSES: Option<MakeError> = Some(MakeError::BadShape {
    field: Field::Passes,
});

const BAD_CALLS: Option<MakeError> = Some(MakeError::BadShape {
    field: Field::Calls,
});

/// Shapes, by their nodes, handles and calls, and why each is refused.
const SHAPES: &[(u64, u32, u64, Option<MakeError>)] = &[
    (3, 0, 0, BAD_ROWS),
    (65_505, 1, 1, BAD_ROWS),
    (4, 0, 0, BAD_PASSES),
    (4, 63, 1, BAD_PASSES),
    (4, 1, 0, BAD_CALLS),
    (4, 62, 1 << 62, BAD_CALLS),
    (4, 62, (1 << 62) - 1, None),
];

#[test]
fn shapes_out_of_range_are_refused(rt: HostRuntime) {
    for &(rows, passes, calls, why) in SHAPES {
        let refused = refused(rt.alloc(), shape_of(Kind::Alloc32, rows, passes, calls));
        same(&rt, refused, why, (rows, passes, calls));
    }
}

/// A tree holds the index 1 alone, with this entry.
fn expect_one_range<R: Abort + Wait>(
    rt: &R,
    alloc: Global,
    tree: &Tree,
    pass: &mut Pass,
    entry: u64,
) -> Result<(), Fail>
    requires { IsPassOf tree.now pass.old }
{
    let ranges = listed(rt, alloc, tree, pass)?;
    let range = Range {
        first: 1,
        last: 1,
        entry,
    };
    same(rt, ranges.as_slice(), &[range][..], "the end");
    Ok(())
}

/// What a store lacks where one node of four is live.
const SHORT: Shortage = Shortage {
    need: 4,
    free: 3,
    live: 1,
    held: 0,
    by: None,
};

/// What is loaded after two calls.
const LOADED: Read<Option<Range>> = Read {
    lo: 2,
    hi: 2,
    value: Some(Range {
        first: 1,
        last: 1,
        entry: 5,
    }),
};

/// So many calls were made, of which this one is the last.
fn done(call: u64, reply: Reply) -> Result<Done, Worn> {
    Ok(Done { call, reply })
}

/// A tree of this kind with four nodes runs short at its second call, which is its last.
fn expect_short<R: Abort + Wait>(rt: &R, alloc: Global, kind: Kind) -> Result<(), Fail> {
    let (tree, mut passes) = made(alloc, shape_of(kind, 4, 1, 2))?;
    let mut pass = last_pass(&tree, &mut passes)?;
    let stored = tree.store_range(rt, &mut pass, 1, 1, 5);
    same(rt, stored, done(1, Reply::Ok), "the store");
    let erased = tree.erase(rt, &mut pass, 1);
    same(rt, erased, done(2, Reply::NoNodes(SHORT)), "the erase");
    let cleared = tree.clear(rt, &mut pass);
    same(rt, cleared, Err(Worn { calls: 2 }), "the clear");
    let loaded = tree.ask(&mut pass, &Query::Load { index: 1 });
    same(rt, loaded, Ok(LOADED), "the load");
    expect_one_range(rt, alloc, &tree, &mut pass, 5)
}

#[test]
fn a_small_tree_runs_short_and_is_worn(rt: HostRuntime) -> Result<(), Fail> {
    for &kind in KINDS {
        expect_short(&rt, rt.alloc(), kind)?;
    }
    Ok(())
}

/// The greatest index of a narrow tree.
const TOP: u64 = u32::MAX as u64;

/// What is at that index.
const LAST: Option<Range> = Some(Range {
    first: TOP,
    last: TOP,
    entry: 5,
});

macro_rules! asked {
    ($($verb:ident { $($field:ident: $value:expr),* } => $want:expr;)*) => {
        &[$((Query::$verb { $($field: $value),* }, $want)),*]
    };
}

/// Queries of a narrow tree that holds its greatest index alone, from there and from above, and what they find.
const ABOVE: &[(Query, Option<Range>)] = asked! {
    Load { index: TOP } => LAST;
    Load { index: TOP + 1 } => None;
    Load { index: u64::MAX } => None;
    Find { index: TOP, max: u64::MAX } => LAST;
    Find { index: TOP + 1, max: u64::MAX } => None;
    Next { index: TOP - 1, max: u64::MAX } => LAST;
    Next { index: TOP, max: u64::MAX } => None;
    Next { index: TOP + 1, max: u64::MAX } => None;
    Prev { index: TOP, min: 0 } => None;
    Prev { index: TOP + 1, min: 0 } => LAST;
    Prev { index: u64::MAX, min: TOP } => LAST;
    Prev { index: u64::MAX, min: TOP + 1 } => None;
    Rfind { index: u64::MAX, min: TOP } => LAST;
    Rfind { index: u64::MAX, min: TOP + 1 } => None;
};

/// What a query finds under the lock.
fn found(rt: &impl Wait, tree: &Tree, pass: &mut Pass, query: &Query) -> Option<Range>
    requires { IsPassOf tree.now pass.old }
    ensures { IsPassOf tree.now pass.new }
{
    let mut write = tree.lock(rt, pass);
    let read = write.ask(query);
    write.unlock();
    read.value
}

/// A query finds this without the lock and under it.
fn expect_found<R: Abort + Wait>(
    rt: &R,
    tree: &Tree,
    pass: &mut Pass,
    query: &Query,
    want: Option<Range>,
)
    requires { IsPassOf tree.now pass.old }
    ensures { IsPassOf tree.now pass.new }
{
    let read = tree.ask(pass, query).map(|read| read.value);
    same(rt, read, Ok(want), "without the lock");
    let found = found(rt, tree, pass, query);
    same(rt, found, want, "under the lock");
}

/// The queries find what they should.
fn expect_above<R: Abort + Wait>(rt: &R, tree: &Tree, pass: &mut Pass)
    requires { IsPassOf tree.now pass.old }
    ensures { IsPassOf tree.now pass.new }
{
    for asked in ABOVE {
        expect_found(rt, tree, pass, &asked.0, asked.1);
    }
}

/// A narrow tree of this kind ends at its greatest index.
fn expect_end<R: Abort + Wait>(rt: &R, alloc: Global, kind: Kind) -> Result<(), Fail> {
    let (tree, mut passes) = made(alloc, shape_of(kind, 64, 1, 9))?;
    let mut pass = last_pass(&tree, &mut passes)?;
    let stored = tree.store_range(rt, &mut pass, TOP, TOP, 5);
    same(rt, stored, done(1, Reply::Ok), "the store");
    let stored = tree.store_range(rt, &mut pass, TOP, TOP + 1, 5);
    same(rt, stored, done(2, Reply::Invalid), "a store above");
    let erased = tree.erase(rt, &mut pass, TOP + 1);
    same(rt, erased, done(3, Reply::None), "an erase above");
    expect_above(rt, &tree, &mut pass);
    Ok(())
}

#[test]
fn a_narrow_tree_ends_at_its_greatest_index(rt: HostRuntime) -> Result<(), Fail> {
    expect_end(&rt, rt.alloc(), Kind::Range32)?;
    expect_end(&rt, rt.alloc(), Kind::Alloc32)
}

/// Stores an entry at each even index below 200.
pub fn fill(rt: &impl Wait, tree: &Tree, pass: &mut Pass)
    requires { IsPassOf tree.now pass.old }
    ensures { IsPassOf tree.now pass.new }
{
    for i in 0..100 {
        let _ = tree.store_range(rt, pass, 2 * i, 2 * i, 4096 + i);
    }
}

/// What a copy of a tree comes to. The look at the tree is let go.
fn duplicated(
    rt: &impl Wait,
    alloc: Global,
    tree: &Tree,
    pass: &mut Pass,
    shape: Shape,
) -> Result<(Tree, Vec<Pass>), DupError>
    requires { IsPassOf tree.now pass.old }
    ensures of { IsPassOf tree.now pass.new }
    ensures copy { IfOk result (λ r. AreAll r.0 r.1.items) }
{
    let (made, _look) = tree.dup(rt, alloc, pass, shape);
    made
}

/// Why no copy of this kind with this many nodes is made.
fn not_copied(
    rt: &impl Wait,
    alloc: Global,
    tree: &Tree,
    pass: &mut Pass,
    kind: Kind,
    rows: u64,
) -> Option<DupError>
    requires { IsPassOf tree.now pass.old }
    ensures { IsPassOf tree.now pass.new }
{
    match duplicated(rt, alloc, tree, pass, shape_of(kind, rows, 1, 9)) {
        Ok(_) => None,
        Err(why) => Some(why),
    }
}

/// A kind of trees, another kind, and the least number of nodes of a tree of the first kind that has an entry at each even
/// index below 200. A leaf has at most 16 items, or 32, and one hole lies between two ranges.
#[derive(Clone, Copy)]
pub struct Filled {
    pub kind: Kind,
    pub other: Kind,
    pub least: u64,
}

macro_rules! filled {
    ($($kind:ident $other:ident $least:literal),*) => {
        &[$(Filled { kind: Kind::$kind, other: Kind::$other, least: $least }),*]
    };
}

pub const FILLED: &[Filled] = filled![
    Range Alloc 14, Alloc Alloc32 14, Range32 Range 8, Alloc32 Range32 8
];

/// No copy of such a tree is made in another kind or with too few nodes.
fn expect_not_copied<R: Abort + Wait>(
    rt: &R,
    alloc: Global,
    tree: &Tree,
    pass: &mut Pass,
    filled: Filled,
)
    requires { IsPassOf tree.now pass.old }
    ensures { IsPassOf tree.now pass.new }
{
    let why = not_copied(rt, alloc, tree, pass, filled.other, 4);
    same(rt, why, Some(DupError::Invalid), 4);
    let why = not_copied(rt, alloc, tree, pass, filled.other, 3);
    let field = Field::Rows;
    same(rt, why, Some(DupError::BadShape { field }), 3);
    let (form, _look) = tree.check(rt, pass);
    let Form { rows, ranges, .. } = form;
    same(rt, (rows >= filled.least, ranges), (true, 100), rows);
    let why = not_copied(rt, alloc, tree, pass, filled.kind, 4);
    let (rows, live) = (4, rows);
    same(rt, why, Some(DupError::NoNodes { rows, live }), rows);
}

/// A copy of such a tree holds the same ranges.
fn expect_copy<R: Abort + Wait>(
    rt: &R,
    alloc: Global,
    tree: &Tree,
    pass: &mut Pass,
    kind: Kind,
) -> Result<(), Fail>
    requires { IsPassOf tree.now pass.old }
{
    let (form, _look) = tree.check(rt, pass);
    let Ok((copy, mut others)) = duplicated(rt, alloc, tree, pass, shape_of(kind, 4096, 1, 9))
    else {
        return Err("no copy was made".into());
    };
    let mut other = last_pass(&copy, &mut others)?;
    let ranges = listed(rt, alloc, tree, pass)?;
    let copied = listed(rt, alloc, &copy, &mut other)?;
    same(rt, ranges.len(), 100, "the tree");
    same(rt, copied.as_slice(), ranges.as_slice(), "the copy");
    // The calls of the copy are numbered from 1, and the tree stays.
    let cleared = copy.clear(rt, &mut other);
    same(rt, cleared, done(1, Reply::Ok), "the clear");
    let (end, _look) = tree.check(rt, pass);
    same(rt, end, form, "the end");
    Ok(())
}

/// A tree of this kind is copied, where the copy is of its kind and has nodes enough.
fn expect_copied<R: Abort + Wait>(rt: &R, alloc: Global, filled: Filled) -> Result<(), Fail> {
    let kind = filled.kind;
    let (tree, mut passes) = made(alloc, shape_of(kind, 4096, 1, 1000))?;
    let mut pass = last_pass(&tree, &mut passes)?;
    fill(rt, &tree, &mut pass);
    expect_not_copied(rt, alloc, &tree, &mut pass, filled);
    expect_copy(rt, alloc, &tree, &mut pass, kind)
}

#[test]
fn copies_open_with_the_same_ranges(rt: HostRuntime) -> Result<(), Fail> {
    for filled in FILLED {
        expect_copied(&rt, rt.alloc(), *filled)?;
    }
    Ok(())
}

/// A handle that a thread took along, and its answer there.
type Stored = (Pass, Result<Done, Worn>);

/// One call of a handle that a thread takes along.
fn storing(rt: &impl Wait, tree: &Tree, mut pass: Pass, index: u64) -> Stored
    requires { IsPassOf tree.now pass }
    ensures { IsPassOf tree.now result.0 }
{
    let stored = tree.store_range(rt, &mut pass, index, index, 7);
    (pass, stored)
}

/// A call of each handle, in two threads.
fn both<R: Threads + Wait + Sync>(rt: &R, tree: &Tree, one: Pass, two: Pass) -> (Stored, Stored)
    requires { IsPassOf tree.now one × IsPassOf tree.now two }
    ensures { IsPassOf tree.now result.0.0 × IsPassOf tree.now result.1.0 }
{
    join(
        rt,
        || -> Stored
            requires { IsSync R.row × IsPassOf tree.now one }
            ensures { IsPassOf tree.entry.now result.0 }
        { storing(rt, tree, one, 1) },
        || -> Stored
            requires { IsSync R.row × IsPassOf tree.now two }
            ensures { IsPassOf tree.entry.now result.0 }
        { storing(rt, tree, two, 5) },
    )
}

#[test]
fn two_threads_write_one_tree(rt: HostRuntime) -> Result<(), Fail> {
    let (tree, mut passes) = made(rt.alloc(), shape_of(Kind::Alloc32, 64, 2, 3))?;
    let two = last_pass(&tree, &mut passes)?;
    let one = last_pass(&tree, &mut passes)?;
    let ((mut one, of_one), (mut two, of_two)) = both(&rt, &tree, one, two);
    let first = done(1, Reply::Ok);
    let in_turn = if of_one == first {
        [of_one, of_two]
    } else {
        [of_two, of_one]
    };
    same(&rt, in_turn, [first, done(2, Reply::Ok)], "the stores");
    let note = tree.note(&mut one);
    tree.learn(&mut two, note);
    let erased = tree.erase(&rt, &mut two, 5);
    let (first, last, entry) = (5, 5, 7);
    let was = Range { first, last, entry };
    same(&rt, erased, done(3, Reply::Was(was)), "the erase");
    let cleared = tree.clear(&rt, &mut one);
    same(&rt, cleared, Err(Worn { calls: 3 }), "the clear");
    expect_one_range(&rt, rt.alloc(), &tree, &mut one, 7)
}

#[test]
fn a_tree_takes_calls_when_its_passes_were_settled(rt: HostRuntime) -> Result<(), Fail> {
    let (tree, mut passes) = made(rt.alloc(), shape_of(Kind::Range, 64, 3, 9))?;
    tree.settle(&rt, passes.as_mut_slice());
    let mut pass = last_pass(&tree, &mut passes)?;
    let stored = tree.store_range(&rt, &mut pass, 1, 1, 7);
    same(&rt, stored, done(1, Reply::Ok), "the store");
    expect_one_range(&rt, rt.alloc(), &tree, &mut pass, 7)
}

fn crosses_threads<T: Send + Sync>() {}

fn moves_between_threads<T: Send>() {}

#[test]
fn trees_are_shared_and_passes_are_moved() {
    crosses_threads::<Tree>();
    moves_between_threads::<Pass>();
    moves_between_threads::<Note>();
}
