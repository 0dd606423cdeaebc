//! The queries and the calls of a shared tree that C has.

ghost use Rattle.mt_base.specs.declared.calls.Call.TheVariants.{Store, StorePre, Insert, Erase, Alloc, Ralloc, Gap, Rgap, Clear};
ghost use Rattle.mt_base.specs.declared.calls.Query.TheVariants.{Load, Find, Next, Prev, Rfind};
ghost use Rattle.mt_c.specs.Shared.{SharedAsked, SharedLearned, SharedPaused, SharedSettled, SharedStepped, SharedSynced, SharedTried};

use crate::shared::{ask, learn, load, pause, settle, step, sync, try_call};
use crate::shared_told::{CallWindow, Outcome};
use crate::steps::OutWalk;
use crate::user_handle::UserHandle;
use mt_base::{Call, Query};
use std::alloc::Global;

/// The range that holds `index`.
#[unsafe(no_mangle)]
pub extern "C" fn maple_shared_load(
    alloc: Global,
    user: &mut UserHandle,
    index: u64,
    read: &mut CallWindow,
) -> u32
    ensures { SharedAsked (Load index) user.old user.new result read.new }
{
    load(alloc, user, index, read)
}

/// The first range that ends at `index` or above and begins at `max` or below, where `index` is at most `max`.
#[unsafe(no_mangle)]
pub extern "C" fn maple_shared_find(
    alloc: Global,
    user: &mut UserHandle,
    index: u64,
    max: u64,
    read: &mut CallWindow,
) -> u32
    ensures { SharedAsked (Find index max) user.old user.new result read.new }
{
    ask(alloc, user, &Query::Find { index, max }, read)
}

/// The first range that begins above `index`, and at `max` or below. EAGAIN: its leaf was replaced meanwhile.
#[unsafe(no_mangle)]
pub extern "C" fn maple_shared_next(
    alloc: Global,
    user: &mut UserHandle,
    index: u64,
    max: u64,
    read: &mut CallWindow,
) -> u32
    ensures { SharedAsked (Next index max) user.old user.new result read.new }
{
    ask(alloc, user, &Query::Next { index, max }, read)
}

/// The last range that ends below `index`, and at `min` or above. EAGAIN: its leaf was replaced meanwhile.
#[unsafe(no_mangle)]
pub extern "C" fn maple_shared_prev(
    alloc: Global,
    user: &mut UserHandle,
    index: u64,
    min: u64,
    read: &mut CallWindow,
) -> u32
    ensures { SharedAsked (Prev index min) user.old user.new result read.new }
{
    ask(alloc, user, &Query::Prev { index, min }, read)
}

/// The last range that begins at `index` or below and ends at `min` or above. EAGAIN: its leaf was replaced meanwhile.
#[unsafe(no_mangle)]
pub extern "C" fn maple_shared_rfind(
    alloc: Global,
    user: &mut UserHandle,
    index: u64,
    min: u64,
    read: &mut CallWindow,
) -> u32
    ensures { SharedAsked (Rfind index min) user.old user.new result read.new }
{
    ask(alloc, user, &Query::Rfind { index, min }, read)
}

/// The next range of a walk. The user keeps its leaf, in a section that is open until the walk ends or the user does something
/// else.
#[unsafe(no_mangle)]
pub extern "C" fn maple_shared_step(
    alloc: Global,
    user: &mut UserHandle,
    walk: &mut OutWalk,
    read: &mut CallWindow,
) -> u32
    ensures { SharedStepped walk.old walk.new user.old user.new result read.new }
{
    step(alloc, user, walk, read)
}

/// Gives up the walk of the user, and the leaf that it keeps.
#[unsafe(no_mangle)]
pub extern "C" fn maple_pause(alloc: Global, user: &mut UserHandle) -> u32
    ensures { SharedPaused user.old user.new result }
{
    pause(alloc, user)
}

/// If the result is 0, the user has then seen `calls` calls.
#[unsafe(no_mangle)]
pub extern "C" fn maple_learn(alloc: Global, user: &mut UserHandle, calls: u64) -> u32
    ensures { SharedLearned calls user.old user.new result }
{
    learn(alloc, user, calls)
}

/// If the result is 0, the user has then seen the whole history, of `calls` calls.
#[unsafe(no_mangle)]
pub extern "C" fn maple_sync(alloc: Global, user: &mut UserHandle, calls: &mut u64) -> u32
    ensures { SharedSynced user.old user.new result calls.new }
{
    sync(alloc, user, calls)
}

/// The user, and all whose place is free, have then seen the whole history, where it answers 0.
#[unsafe(no_mangle)]
pub extern "C" fn maple_settle(
    alloc: Global,
    user: &mut UserHandle,
    calls: &mut u64,
    places: &mut u64,
) -> u32
    ensures { SharedSettled user.old user.new result calls.new places.new }
{
    settle(alloc, user, calls, places)
}

/// Stores an entry over `first` to `last`, or makes a hole there where it is 0. `word` is the entry of the first range that it met.
#[unsafe(no_mangle)]
pub extern "C" fn maple_try_store(
    alloc: Global,
    user: &mut UserHandle,
    first: u64,
    last: u64,
    entry: u64,
    done: &mut Outcome,
) -> u32
    ensures { SharedTried (Store first last entry) user.old user.new result done.new }
{
    try_call(alloc, user, &Call::Store { first, last, entry }, done)
}

/// As `maple_try_store`, but it always needs the nodes of a store that changes nodes.
#[unsafe(no_mangle)]
pub extern "C" fn maple_try_store_pre(
    alloc: Global,
    user: &mut UserHandle,
    first: u64,
    last: u64,
    entry: u64,
    done: &mut Outcome,
) -> u32
    ensures { SharedTried (StorePre first last entry) user.old user.new result done.new }
{
    try_call(alloc, user, &Call::StorePre { first, last, entry }, done)
}

/// Stores an entry over `first` to `last` where no range holds any of these indexes.
#[unsafe(no_mangle)]
pub extern "C" fn maple_try_insert(
    alloc: Global,
    user: &mut UserHandle,
    first: u64,
    last: u64,
    entry: u64,
    done: &mut Outcome,
) -> u32
    ensures { SharedTried (Insert first last entry) user.old user.new result done.new }
{
    try_call(alloc, user, &Call::Insert { first, last, entry }, done)
}

/// Removes the whole range that holds an index, which is in `done`.
#[unsafe(no_mangle)]
pub extern "C" fn maple_try_erase(
    alloc: Global,
    user: &mut UserHandle,
    index: u64,
    done: &mut Outcome,
) -> u32
    ensures { SharedTried (Erase index) user.old user.new result done.new }
{
    try_call(alloc, user, &Call::Erase { index }, done)
}

/// Stores an entry over `size` indexes at the lowest start at which they lie in one hole, from `min` to `max`: `word` is the start.
#[unsafe(no_mangle)]
pub extern "C" fn maple_try_alloc(
    alloc: Global,
    user: &mut UserHandle,
    size: u64,
    min: u64,
    max: u64,
    entry: u64,
    done: &mut Outcome,
) -> u32
    ensures { SharedTried (Alloc size min max entry) user.old user.new result done.new }
{
    try_call(
        alloc,
        user,
        &Call::Alloc {
            size,
            min,
            max,
            entry,
        },
        done,
    )
}

/// As `maple_try_alloc`, at the highest start.
#[unsafe(no_mangle)]
pub extern "C" fn maple_try_ralloc(
    alloc: Global,
    user: &mut UserHandle,
    size: u64,
    min: u64,
    max: u64,
    entry: u64,
    done: &mut Outcome,
) -> u32
    ensures { SharedTried (Ralloc size min max entry) user.old user.new result done.new }
{
    try_call(
        alloc,
        user,
        &Call::Ralloc {
            size,
            min,
            max,
            entry,
        },
        done,
    )
}

/// Tells the lowest start, and stores nothing.
#[unsafe(no_mangle)]
pub extern "C" fn maple_try_gap(
    alloc: Global,
    user: &mut UserHandle,
    size: u64,
    min: u64,
    max: u64,
    done: &mut Outcome,
) -> u32
    ensures { SharedTried (Gap size min max) user.old user.new result done.new }
{
    try_call(alloc, user, &Call::Gap { size, min, max }, done)
}

/// Tells the highest start, and stores nothing.
#[unsafe(no_mangle)]
pub extern "C" fn maple_try_rgap(
    alloc: Global,
    user: &mut UserHandle,
    size: u64,
    min: u64,
    max: u64,
    done: &mut Outcome,
) -> u32
    ensures { SharedTried (Rgap size min max) user.old user.new result done.new }
{
    try_call(alloc, user, &Call::Rgap { size, min, max }, done)
}

/// Removes every range.
#[unsafe(no_mangle)]
pub extern "C" fn maple_try_clear(alloc: Global, user: &mut UserHandle, done: &mut Outcome) -> u32
    ensures { SharedTried Clear user.old user.new result done.new }
{
    try_call(alloc, user, &Call::Clear, done)
}
