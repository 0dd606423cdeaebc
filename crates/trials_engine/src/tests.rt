//! The tree on one thread beside a sorted list, and stories of calls.

ghost use Rattle.std.specs.Prelude.{◌≡◌, ◌<◌, ◌+◌, ◌≤◌, IfOk, length};
ghost use Rattle.mt_base.specs.Width.{most_rows};
ghost use Rattle.mt_base.specs.Limits.{most_calls};

/// A call, by its verb and its numbers. What seeks room stores the entry 1 if no other is given.
macro_rules! call {
    (store $first:expr, $last:expr, $entry:expr) => {
        Call::Store { first: $first, last: $last, entry: $entry }
    };
    (store_pre $first:expr, $last:expr, $entry:expr) => {
        Call::StorePre { first: $first, last: $last, entry: $entry }
    };
    (insert $first:expr, $last:expr, $entry:expr) => {
        Call::Insert { first: $first, last: $last, entry: $entry }
    };
    (erase $index:expr) => {
        Call::Erase { index: $index }
    };
    (alloc $size:expr, $min:expr, $max:expr) => {
        Call::Alloc { size: $size, min: $min, max: $max, entry: 1 }
    };
    (alloc $size:expr, $min:expr, $max:expr, $entry:expr) => {
        Call::Alloc { size: $size, min: $min, max: $max, entry: $entry }
    };
    (ralloc $size:expr, $min:expr, $max:expr) => {
        Call::Ralloc { size: $size, min: $min, max: $max, entry: 1 }
    };
    (ralloc $size:expr, $min:expr, $max:expr, $entry:expr) => {
        Call::Ralloc { size: $size, min: $min, max: $max, entry: $entry }
    };
    (gap $size:expr, $min:expr, $max:expr) => {
        Call::Gap { size: $size, min: $min, max: $max }
    };
    (rgap $size:expr, $min:expr, $max:expr) => {
        Call::Rgap { size: $size, min: $min, max: $max }
    };
}

macro_rules! range {
    ($first:expr, $last:expr, $entry:expr) => {
        Range { first: $first, last: $last, entry: $entry }
    };
}

mod drawn;
mod lists;
mod noted;
mod replaced;
mod shapes;
mod stories;

use crate::asserts::same;
use crate::small_trees::{TOP, TOP32};
use crate::tests::stories::{NUMBERS, STORIES, Story};
use mt_base::{Call, Kind, MOST_ROWS, NoMemory, Query, Range, Reply, errno, width_of};
use mt_engine::Engine;
use mt_free::RowBook;
use mt_list::{ListMap, Ranges};
use mt_rows::PlainRows;
use std::alloc::Global;
use std::process::Abort;
use std::test::Fail;

/// An engine of an empty tree of this kind with this many nodes in memory.
fn fresh_of(alloc: Global, kind: Kind, rows: u64) -> Result<Engine<PlainRows>, NoMemory>
    requires { rows ≤ most_rows }
    ensures { IfOk result (λ engine. engine.sheet.ended ≡ 0) }
{
    let book = RowBook::new(alloc, rows)?;
    let rows = PlainRows::of_width(alloc, width_of(kind), rows)?;
    Ok(Engine::new(rows, book, kind))
}

/// Asks each kind of query at an index, with bounds, of the engine and of the list, which answer the same.
fn expect_answers(
    rt: &impl Abort,
    engine: &mut Engine<PlainRows>,
    list: &mut ListMap,
    index: u64,
    bound: u64,
)
    ensures { engine.new.sheet.ended ≡ engine.old.sheet.ended }
{
    let queries = [
        Query::Load { index },
        Query::Find { index, max: bound },
        Query::Next { index, max: bound },
        Query::Prev { index, min: bound },
        Query::Rfind { index, min: bound },
    ];
    for query in queries {
        same(rt, engine.ask(&query), list.ask(&query), query);
    }
}

/// A walk from an index gives these ranges, and no more.
fn expect_walk(rt: &impl Abort, engine: &mut Engine<PlainRows>, index: u64, ranges: &[Range])
    ensures { engine.new.sheet.ended ≡ engine.old.sheet.ended }
{
    let mut walk = engine.walk_from(index);
    for range in ranges {
        same(rt, engine.next_range(&mut walk), Some(*range), index);
    }
    same(rt, engine.next_range(&mut walk), None, index);
    same(rt, walk.next, None, index);
}

/// Makes these calls, which are answered so.
fn expect_replies(rt: &impl Abort, engine: &mut Engine<PlainRows>, calls: &[(Call, Reply)])
    requires few { engine.old.sheet.ended + length calls.now < most_calls }
{
    for (call, want) in calls {
        same(rt, engine.apply(call), *want, *call);
    }
}

/// Makes a call on the engine and on the list. Both have to answer the same, and then to hold the same ranges, by a list and by
/// a walk.
fn expect_same(
    rt: &impl Abort,
    alloc: Global,
    engine: &mut Engine<PlainRows>,
    list: &mut ListMap,
    call: &Call,
) -> Result<(), NoMemory>
    requires { engine.old.sheet.ended < most_calls }
    ensures { engine.new.sheet.ended ≡ engine.old.sheet.ended + 1 }
{
    let reply = engine.apply(call);
    same(rt, reply, list.act(call)?, *call);
    let ranges = engine.list(alloc)?;
    same(rt, ranges.as_slice(), list.list(alloc)?.as_slice(), *call);
    expect_walk(rt, engine, 0, ranges.as_slice());
    expect_answers(rt, engine, list, 15, TOP);
    expect_answers(rt, engine, list, 30, 12);
    expect_answers(rt, engine, list, TOP32 + 1, 12);
    expect_answers(rt, engine, list, TOP, TOP32);
    Ok(())
}

/// Calls that store in, over and beside what is there, that are refused, and that reach over the last index of a narrow tree.
const CALLS: &[Call] = &[
    call!(erase 3),
    Call::Clear,
    call!(store 5, 9, 0),
    call!(store 10, 19, 5),
    call!(store 12, 13, 7),
    call!(store 12, 13, 8),
    call!(store 5, 4, 1),
    call!(store 1, 1, 2),
    call!(insert 2, 2, 0),
    call!(insert 19, 25, 9),
    call!(insert 2, 10, 9),
    call!(insert 20, 25, 9),
    call!(store 0, TOP, 4),
    call!(store TOP, TOP, 3),
    call!(store 7, 7, 0),
    call!(erase 7),
    call!(erase 8),
    call!(store 6, 6, 1),
    call!(erase TOP),
    call!(erase 6),
    call!(erase 0),
    call!(store 30, TOP32, 4),
    call!(store TOP32, TOP32, 3),
    call!(store 40, TOP32 + 1, 9),
    call!(insert TOP32 + 1, TOP32 + 1, 9),
    call!(store TOP32 + 1, TOP, 0),
    call!(erase TOP32 + 1),
    call!(erase TOP32),
];

/// So many stores at the even indexes.
fn stores(alloc: Global, count: u32) -> Result<Vec<Call>, NoMemory> {
    let mut calls = Vec::new(alloc);
    for n in 0..count {
        let index = 2 * u64::from(n);
        calls.push(call!(store index, index, 1))?;
    }
    Ok(calls)
}

/// Eighty stores at the even indexes, forty erases at every third index, and a clear.
fn stores_and_erases(alloc: Global) -> Result<Vec<Call>, NoMemory> {
    let mut calls = stores(alloc, 80)?;
    for n in 0..40_u64 {
        calls.push(call!(erase 3 * n))?;
    }
    calls.push(Call::Clear)?;
    Ok(calls)
}

/// Makes these calls on the engine and on the list.
fn expect_all_same(
    rt: &impl Abort,
    alloc: Global,
    engine: &mut Engine<PlainRows>,
    list: &mut ListMap,
    calls: &[Call],
) -> Result<(), NoMemory>
    requires few { engine.old.sheet.ended + length calls.now < most_calls }
    ensures { engine.new.sheet.ended ≤ engine.old.sheet.ended + length calls.now }
{
    for call in calls {
        expect_same(rt, alloc, engine, list, call)?;
    }
    Ok(())
}

#[test]
fn answers_as_a_list_does(rt: HostRuntime) -> Result<(), Fail> {
    let calls = stores_and_erases(rt.alloc())?;
    assert!(rt; CALLS.len() < 1000);
    assert!(rt; calls.len() < 1000);
    for kind in [Kind::Range, Kind::Range32] {
        let mut engine = fresh_of(rt.alloc(), kind, 400)?;
        let mut list = ListMap::new(rt.alloc(), kind);
        expect_all_same(&rt, rt.alloc(), &mut engine, &mut list, CALLS)?;
        expect_all_same(&rt, rt.alloc(), &mut engine, &mut list, calls.as_slice())?;
    }
    Ok(())
}

/// Makes the calls of a story on a new engine. The answers and the ranges at the end have to be those of the story.
fn expect_story(rt: &impl Abort, alloc: Global, story: &Story) -> Result<(), NoMemory> {
    assert!(rt; story.rows <= MOST_ROWS && story.calls.len() < 1000);
    let mut engine = fresh_of(alloc, story.kind, story.rows)?;
    expect_replies(rt, &mut engine, story.calls);
    same(rt, engine.list(alloc)?.as_slice(), story.ranges, "the end");
    Ok(())
}

#[test]
fn stories_come_out_as_told(rt: HostRuntime) -> Result<(), Fail> {
    for story in STORIES {
        expect_story(&rt, rt.alloc(), story)?;
    }
    Ok(())
}

/// Replies are the kernel's errors of these numbers.
#[test]
fn replies_have_numbers(rt: HostRuntime) {
    for (reply, number) in NUMBERS {
        same(&rt, errno(reply), *number, *reply);
    }
}
