//! The calls and the queries that C has.

ghost use Rattle.mt_base.specs.declared.calls.Call.TheVariants.{Store, StorePre, Insert, Erase, Alloc, Ralloc, Gap, Rgap, Clear};
ghost use Rattle.mt_base.specs.declared.calls.Query.TheVariants.{Load, Find, Next, Prev, Rfind};
ghost use Rattle.mt_c.specs.Calls.{CalledAlone, CalledWord, CalledRange, AnswersQuery, EntryTold};

use crate::calls::{ask, call, entry};
use crate::handle::TreeHandle;
use crate::told::OutRange;
use mt_base::{Call, Query};
use std::alloc::Global;

/// Stores an entry over `first` to `last`, or makes a hole there where it is 0. `old` is the entry of the first range that it met.
#[tactic(auto, using(crate::proofs::Telling::told_word))]
#[unsafe(no_mangle)]
pub extern "C" fn maple_store(
    alloc: Global,
    tree: &mut TreeHandle,
    first: u64,
    last: u64,
    entry: u64,
    old: &mut u64,
) -> u32
    ensures { CalledWord
        (Store first last entry) tree.old.kept.value tree.new.kept.value result old.new }
{
    let told = call(alloc, tree, &Call::Store { first, last, entry });
    *old = told.word;
    told.status
}

/// As `maple_store`, but it always needs the nodes of a store that changes nodes.
#[tactic(auto, using(crate::proofs::Telling::told_word))]
#[unsafe(no_mangle)]
pub extern "C" fn maple_store_pre(
    alloc: Global,
    tree: &mut TreeHandle,
    first: u64,
    last: u64,
    entry: u64,
    old: &mut u64,
) -> u32
    ensures { CalledWord
        (StorePre first last entry) tree.old.kept.value tree.new.kept.value result old.new }
{
    let told = call(alloc, tree, &Call::StorePre { first, last, entry });
    *old = told.word;
    told.status
}

/// Stores an entry over `first` to `last` where no range holds any of these indexes.
#[tactic(auto, using(crate::proofs::Telling::told_alone))]
#[unsafe(no_mangle)]
pub extern "C" fn maple_insert(
    alloc: Global,
    tree: &mut TreeHandle,
    first: u64,
    last: u64,
    entry: u64,
) -> u32
    ensures { CalledAlone (Insert first last entry) tree.old.kept.value tree.new.kept.value result }
{
    let told = call(alloc, tree, &Call::Insert { first, last, entry });
    told.status
}

/// Removes the whole range that holds an index: `was` is that range.
#[tactic(auto, using(crate::proofs::Telling::told_range))]
#[unsafe(no_mangle)]
pub extern "C" fn maple_erase(
    alloc: Global,
    tree: &mut TreeHandle,
    index: u64,
    was: &mut OutRange,
) -> u32
    ensures { CalledRange (Erase index) tree.old.kept.value tree.new.kept.value result was.new }
{
    let told = call(alloc, tree, &Call::Erase { index });
    *was = told.range;
    told.status
}

/// Stores an entry over `size` indexes at the lowest start at which they lie in one hole, from `min` to `max`.
#[tactic(auto, using(crate::proofs::Telling::told_word))]
#[unsafe(no_mangle)]
pub extern "C" fn maple_alloc(
    alloc: Global,
    tree: &mut TreeHandle,
    size: u64,
    min: u64,
    max: u64,
    entry: u64,
    start: &mut u64,
) -> u32
    ensures { CalledWord
        (Alloc size min max entry) tree.old.kept.value tree.new.kept.value result start.new }
{
    let told = call(
        alloc,
        tree,
        &Call::Alloc {
            size,
            min,
            max,
            entry,
        },
    );
    *start = told.word;
    told.status
}

/// As `maple_alloc`, at the highest start.
#[tactic(auto, using(crate::proofs::Telling::told_word))]
#[unsafe(no_mangle)]
pub extern "C" fn maple_ralloc(
    alloc: Global,
    tree: &mut TreeHandle,
    size: u64,
    min: u64,
    max: u64,
    entry: u64,
    start: &mut u64,
) -> u32
    ensures { CalledWord
        (Ralloc size min max entry) tree.old.kept.value tree.new.kept.value result start.new }
{
    let told = call(
        alloc,
        tree,
        &Call::Ralloc {
            size,
            min,
            max,
            entry,
        },
    );
    *start = told.word;
    told.status
}

/// Tells the lowest start, and stores nothing.
#[tactic(auto, using(crate::proofs::Telling::told_word))]
#[unsafe(no_mangle)]
pub extern "C" fn maple_gap(
    alloc: Global,
    tree: &mut TreeHandle,
    size: u64,
    min: u64,
    max: u64,
    start: &mut u64,
) -> u32
    ensures { CalledWord
        (Gap size min max) tree.old.kept.value tree.new.kept.value result start.new }
{
    let told = call(alloc, tree, &Call::Gap { size, min, max });
    *start = told.word;
    told.status
}

/// Tells the highest start, and stores nothing.
#[tactic(auto, using(crate::proofs::Telling::told_word))]
#[unsafe(no_mangle)]
pub extern "C" fn maple_rgap(
    alloc: Global,
    tree: &mut TreeHandle,
    size: u64,
    min: u64,
    max: u64,
    start: &mut u64,
) -> u32
    ensures { CalledWord
        (Rgap size min max) tree.old.kept.value tree.new.kept.value result start.new }
{
    let told = call(alloc, tree, &Call::Rgap { size, min, max });
    *start = told.word;
    told.status
}

/// Removes every range.
#[tactic(auto, using(crate::proofs::Telling::told_alone))]
#[unsafe(no_mangle)]
pub extern "C" fn maple_clear(alloc: Global, tree: &mut TreeHandle) -> u32
    ensures { CalledAlone Clear tree.old.kept.value tree.new.kept.value result }
{
    let told = call(alloc, tree, &Call::Clear);
    told.status
}

/// The range that holds `index`.
#[unsafe(no_mangle)]
pub extern "C" fn maple_load(
    alloc: Global,
    tree: &mut TreeHandle,
    index: u64,
    range: &mut OutRange,
) -> u32
    ensures { AnswersQuery (Load index) tree.old.kept.value tree.new.kept.value result range.new }
{
    ask(alloc, tree, &Query::Load { index }, range)
}

/// The entry at `index`, and 0 if there is none or the tree is closed.
#[unsafe(no_mangle)]
pub extern "C" fn maple_entry(alloc: Global, tree: &mut TreeHandle, index: u64) -> u64
    ensures { EntryTold index tree.old.kept.value tree.new.kept.value result }
{
    entry(alloc, tree, index)
}

/// The first range that ends at `index` or above and begins at `max` or below, where `index` is at most `max`.
#[unsafe(no_mangle)]
pub extern "C" fn maple_find(
    alloc: Global,
    tree: &mut TreeHandle,
    index: u64,
    max: u64,
    range: &mut OutRange,
) -> u32
    ensures { AnswersQuery
        (Find index max) tree.old.kept.value tree.new.kept.value result range.new }
{
    ask(alloc, tree, &Query::Find { index, max }, range)
}

/// The first range that begins above `index`, and at `max` or below.
#[unsafe(no_mangle)]
pub extern "C" fn maple_next(
    alloc: Global,
    tree: &mut TreeHandle,
    index: u64,
    max: u64,
    range: &mut OutRange,
) -> u32
    ensures { AnswersQuery
        (Next index max) tree.old.kept.value tree.new.kept.value result range.new }
{
    ask(alloc, tree, &Query::Next { index, max }, range)
}

/// The last range that ends below `index`, and at `min` or above.
#[unsafe(no_mangle)]
pub extern "C" fn maple_prev(
    alloc: Global,
    tree: &mut TreeHandle,
    index: u64,
    min: u64,
    range: &mut OutRange,
) -> u32
    ensures { AnswersQuery
        (Prev index min) tree.old.kept.value tree.new.kept.value result range.new }
{
    ask(alloc, tree, &Query::Prev { index, min }, range)
}

/// The last range that begins at `index` or below and ends at `min` or above, where `index` is at least `min`.
#[unsafe(no_mangle)]
pub extern "C" fn maple_rfind(
    alloc: Global,
    tree: &mut TreeHandle,
    index: u64,
    min: u64,
    range: &mut OutRange,
) -> u32
    ensures { AnswersQuery
        (Rfind index min) tree.old.kept.value tree.new.kept.value result range.new }
{
    ask(alloc, tree, &Query::Rfind { index, min }, range)
}
