//! What C gets of a shared tree.

ghost use Rattle.std.specs.Prelude.{◌≡◌};
ghost use Rattle.mt_c.specs.Receipts.{when_settled, when_synced, when_tried, when_unchanged};
ghost use Rattle.mt_c.specs.Shared as defined;

use crate::purse::Purse;
use crate::receipts::Receipts;
use crate::told::{
    EDOM, ENOMEM, EOVERFLOW, OutRange, found_status, no_range, out_of, shortage_of, told_in_c,
};
use crate::user_acts::Settling;
use crate::user_opens::Unchanged;
use mt_base::{Holder, Range};
use mt_keep::Given;
use mt_tree::{Busy, Done, Field, Moved, Read, Tree, Worn};

/// Another user has the lock, or the leaf of a search for a neighbour was replaced: it may be tried again.
pub const EAGAIN: u32 = 11;

/// The tree has no free handle for another user, or would have too few or too many.
pub const EUSERS: u32 = 87;

/// Fewer calls have ended so far.
pub const EINPROGRESS: u32 = 115;

/// A read as C has it: `struct maple_read`, the window of the calls after which it is true, and the range that was found.
#[repr(C)]
#[derive(Clone, Copy, Debug, PartialEq, Eq)]
pub struct CallWindow {
    pub lo: u64,
    pub hi: u64,
    pub first: u64,
    pub last: u64,
    pub entry: u64,
}

/// A call as C has it: `struct maple_done`, its number in the tree's history, and what it was answered. Where nodes were short:
/// how many are needed, free, in use and held, by whose section, the places of users being numbered from 1, and when that was
/// opened.
#[repr(C)]
#[derive(Clone, Copy, Debug, PartialEq, Eq)]
pub struct Outcome {
    pub call: u64,
    pub word: u64,
    pub first: u64,
    pub last: u64,
    pub entry: u64,
    pub need: u64,
    pub free: u64,
    pub live: u64,
    pub held: u64,
    pub by: u64,
    pub epoch: u64,
}

/// A window, and a range that was found there.
pub fn seen(lo: u64, hi: u64, range: OutRange) -> CallWindow
    ensures { result ≡ defined.window lo hi range }
{
    let OutRange { first, last, entry } = range;
    CallWindow {
        lo,
        hi,
        first,
        last,
        entry,
    }
}

/// What C gets of a read.
pub fn answer_told(answer: Result<Read<Option<Range>>, Moved>) -> (CallWindow, u32)
    ensures window { result.0 ≡ defined.window_of answer }
    ensures status { result.1 ≡ defined.answer_status answer }
{
    match answer {
        Ok(read) => (
            seen(read.lo, read.hi, out_of(read.value)),
            found_status(read.value),
        ),
        Err(moved) => (seen(moved.lo, moved.begun, no_range()), EAGAIN),
    }
}

/// What C gets if no call was made.
pub fn no_outcome() -> Outcome
    ensures { result ≡ defined.no_outcome }
{
    Outcome {
        call: 0,
        word: 0,
        first: 0,
        last: 0,
        entry: 0,
        need: 0,
        free: 0,
        live: 0,
        held: 0,
        by: 0,
        epoch: 0,
    }
}

/// The place of a user whose section holds nodes back, and how many calls had ended when that was opened; zeros of none.
fn holder_told(by: Option<Holder>) -> (u64, u64)
    ensures place { result.0 ≡ defined.holder_place by }
    ensures epoch { result.1 ≡ defined.epoch_of by }
{
    match by {
        None => (0, 0),
        Some(Holder { pass, epoch }) => (pass as u64 + 1, epoch),
    }
}

/// What C gets of a call that was made.
pub fn done_told(done: Done) -> (Outcome, u32)
    ensures outcome { result.0 ≡ defined.done_outcome done }
    ensures status { result.1 ≡ defined.done_status done }
{
    let told = told_in_c(Some(done.reply));
    let OutRange { first, last, entry } = told.range;
    let shortage = shortage_of(done.reply);
    let (by, epoch) = holder_told(shortage.by);
    let outcome = Outcome {
        call: done.call,
        word: told.word,
        first,
        last,
        entry,
        need: shortage.need,
        free: shortage.free,
        live: shortage.live,
        held: shortage.held,
        by,
        epoch,
    };
    (outcome, told.status)
}

/// What C gets of a try. If the lock was found taken, the receipt is kept.
pub fn tried_told(
    tried: Result<Result<Done, Worn>, Busy>,
    receipts: &mut Receipts,
) -> (Outcome, u32)
    ensures outcome { result.0 ≡ defined.outcome_of tried }
    ensures status { result.1 ≡ defined.tried_status tried }
    ensures kept { receipts.new ≡ when_tried tried receipts.old }
{
    match tried {
        Ok(Ok(done)) => done_told(done),
        Ok(Err(_)) => (no_outcome(), EOVERFLOW),
        Err(busy) => {
            receipts.locked = Some(busy);
            (no_outcome(), EAGAIN)
        }
    }
}

/// What C gets of a look under the lock. If that was found taken, the receipt is kept.
pub fn synced_told(synced: Result<u64, Busy>, receipts: &mut Receipts) -> (u64, u32)
    ensures calls { result.0 ≡ defined.calls_in_c synced }
    ensures status { result.1 ≡ defined.synced_status synced }
    ensures kept { receipts.new ≡ when_synced synced receipts.old }
{
    match synced {
        Ok(calls) => (calls, 0),
        Err(busy) => {
            receipts.locked = Some(busy);
            (0, EAGAIN)
        }
    }
}

/// What C gets of a settling. What was found at the purse or at the lock is kept.
pub fn settled_told(
    settled: Result<(u64, u64, Given<Purse, Tree>), Settling>,
    receipts: &mut Receipts,
) -> (u64, u64, u32)
    ensures calls { result.0 ≡ (defined.settled_told settled).0 }
    ensures passes { result.1 ≡ (defined.settled_told settled).1 }
    ensures status { result.2 ≡ defined.settled_status settled }
    ensures kept { receipts.new ≡ when_settled settled receipts.old }
{
    match settled {
        Ok((calls, passes, given)) => {
            receipts.given = Some(given);
            (calls, passes, 0)
        }
        Err(Settling::Unpursed { busy }) => {
            receipts.unpursed = Some(busy);
            (0, 0, EAGAIN)
        }
        Err(Settling::Locked { busy, given }) => {
            receipts.locked = Some(busy);
            receipts.given = Some(given);
            (0, 0, EAGAIN)
        }
    }
}

/// The number that C gets for a field of a shape that is out of range.
pub fn field_status(field: Field) -> u32
    ensures { result ≡ defined.field_status field }
{
    match field {
        Field::Rows => EDOM,
        Field::Passes => EUSERS,
        Field::Calls => EOVERFLOW,
    }
}

/// The number that C gets if no user was opened, or none has left. What was found at the purse is kept.
pub fn unchanged_told(why: Unchanged, receipts: &mut Receipts) -> u32
    ensures status { result ≡ defined.unchanged_status why }
    ensures kept { receipts.new ≡ when_unchanged why receipts.old }
{
    match why {
        Unchanged::Busy { busy } => {
            receipts.unpursed = Some(busy);
            EAGAIN
        }
        Unchanged::NoPlace { given } => {
            receipts.given = Some(given);
            EUSERS
        }
        Unchanged::NoMemory { given } => {
            receipts.given = Some(given);
            ENOMEM
        }
    }
}
