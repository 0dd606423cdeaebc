//! Queries, steps and calls of what C keeps of a shared tree.

ghost use Rattle.mt_base.specs.declared.calls.Query.TheVariants.{Load};
ghost use Rattle.mt_c.specs.Shared.{SharedAsked, SharedLearned, SharedPaused, SharedSettled, SharedStepped, SharedSynced, SharedTried};

use crate::shared_told::{CallWindow, EINPROGRESS, Outcome, answer_told, no_outcome, seen};
use crate::steps::OutWalk;
use crate::told::no_range;
use crate::user_handle::UserHandle;
use mt_base::{Call, Query, place_behind};
use std::alloc::Global;

/// Asks one query of what C keeps.
#[tactic(auto, using(crate::proofs::Sharing::asked_open, crate::proofs::Sharing::asked_closed))]
pub fn ask(alloc: Global, user: &mut UserHandle, query: &Query, out: &mut CallWindow) -> u32
    ensures { SharedAsked query.now user.old user.new result out.new }
{
    let Some(mut whole) = user.take(alloc) else {
        *out = seen(0, 0, no_range());
        return user.refusal();
    };
    let answer = whole.ask(query);
    user.put(whole);
    let (window, status) = answer_told(answer);
    *out = window;
    status
}

/// Tells the range that an index lies in.
#[tactic(auto, using(crate::proofs::Sharing::asked_open, crate::proofs::Sharing::asked_closed))]
pub fn load(alloc: Global, user: &mut UserHandle, index: u64, out: &mut CallWindow) -> u32
    ensures { SharedAsked (Load index) user.old user.new result out.new }
{
    let Some(mut whole) = user.take(alloc) else {
        *out = seen(0, 0, no_range());
        return user.refusal();
    };
    let read = whole.load(index);
    user.put(whole);
    let (window, status) = answer_told(Ok(read));
    *out = window;
    status
}

/// Gives up the walk of what C keeps.
#[tactic(auto, using(crate::proofs::Sharing::paused_open, crate::proofs::Sharing::paused_closed))]
pub fn pause(alloc: Global, user: &mut UserHandle) -> u32
    ensures { SharedPaused user.old user.new result }
{
    let Some(mut whole) = user.take(alloc) else {
        return user.refusal();
    };
    whole.rest();
    user.put(whole);
    0
}

/// Makes one step of a walk of C's.
#[tactic(auto, using(crate::proofs::Sharing::stepped_open, crate::proofs::Sharing::stepped_closed))]
pub fn step(alloc: Global, user: &mut UserHandle, walk: &mut OutWalk, out: &mut CallWindow) -> u32
    ensures { SharedStepped walk.old walk.new user.old user.new result out.new }
{
    let Some(mut whole) = user.take(alloc) else {
        *out = seen(0, 0, no_range());
        return user.refusal();
    };
    let read = whole.step_from(walk.index());
    user.put(whole);
    *walk = OutWalk::from_index(place_behind(read.value, u64::MAX));
    let (window, status) = answer_told(Ok(read));
    *out = window;
    status
}

/// Looks how many calls have ended.
#[tactic(auto, using(crate::proofs::Sharing::learned_yes, crate::proofs::Sharing::learned_no, crate::proofs::Sharing::learned_closed))]
pub fn learn(alloc: Global, user: &mut UserHandle, calls: u64) -> u32
    ensures { SharedLearned calls user.old user.new result }
{
    let Some(mut whole) = user.take(alloc) else {
        return user.refusal();
    };
    let read = whole.entry(0);
    user.put(whole);
    if calls <= read.lo { 0 } else { EINPROGRESS }
}

/// Sees the whole history, if the tree's lock is free.
#[tactic(auto, using(crate::proofs::Sharing::synced_open, crate::proofs::Sharing::synced_closed))]
pub fn sync(alloc: Global, user: &mut UserHandle, calls: &mut u64) -> u32
    ensures { SharedSynced user.old user.new result calls.new }
{
    let Some(mut whole) = user.take(alloc) else {
        *calls = 0;
        return user.refusal();
    };
    let (told, status) = whole.sync_told();
    user.put(whole);
    *calls = told;
    status
}

/// Sees the whole history, and so do the handles in the purse, if neither that nor the tree's lock is taken.
#[tactic(auto, using(crate::proofs::Sharing::settled_open, crate::proofs::Sharing::settled_closed))]
pub fn settle(alloc: Global, user: &mut UserHandle, calls: &mut u64, passes: &mut u64) -> u32
    ensures { SharedSettled user.old user.new result calls.new passes.new }
{
    let Some(mut whole) = user.take(alloc) else {
        *calls = 0;
        *passes = 0;
        return user.refusal();
    };
    let (told, met, status) = whole.settle_told();
    user.put(whole);
    *calls = told;
    *passes = met;
    status
}

/// Makes one call of what C keeps, if the tree's lock is free.
#[tactic(auto, using(crate::proofs::Sharing::tried_open, crate::proofs::Sharing::tried_closed))]
pub fn try_call(alloc: Global, user: &mut UserHandle, call: &Call, out: &mut Outcome) -> u32
    ensures { SharedTried call.now user.old user.new result out.new }
{
    let Some(mut whole) = user.take(alloc) else {
        *out = no_outcome();
        return user.refusal();
    };
    let (outcome, status) = whole.try_told(call);
    user.put(whole);
    *out = outcome;
    status
}
