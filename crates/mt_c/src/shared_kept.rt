//! Calls of a user that keep the reserve of a shared tree, so that it can always be emptied.

ghost use Rattle.std.specs.Prelude.{◌≡◌, None};
ghost use Rattle.mt_base.specs.declared.calls.Call.TheVariants.{Store, Insert, Alloc, Ralloc};
ghost use Rattle.mt_tree.specs.Trees.{IsPassOf};
ghost use Rattle.mt_c.specs.SharedKept as defined;
ghost use Rattle.mt_c.specs.SharedKept.{HasTriedKept, IsTriedKept, SharedTriedKept, when_kept};
ghost use Rattle.mt_c.specs.Users.{common_of, known_to, paused, user_tree};
ghost use Rattle.mt_c.specs.Walkers.{TriedOnce, halted, knows};

use crate::receipts::Receipts;
use crate::shared_told::{EAGAIN, Outcome, done_told, no_outcome};
use crate::told::{ENOMEM, EOVERFLOW};
use crate::user::User;
use crate::user_handle::UserHandle;
use crate::walker::Walker;
use mt_base::Call;
use mt_tree::{Busy, Kept, Look, Tree, Worn};
use std::alloc::Global;

/// What came of such a call, and the look at what the lock protected.
type Tried = Result<(Result<Kept, Worn>, Look), Busy>;

impl Walker {
    /// Makes one call that keeps the reserve, if the lock is free.
    #[tactic(auto, using(crate::proofs::SharedKeeping::kept_tried, crate::proofs::Using::tried_once))]
    fn try_act_kept(&mut self, tree: &Tree, call: &Call) -> Tried
        requires { IsPassOf tree.now self.old.pass }
        ensures of { IsPassOf tree.now self.new.pass }
        ensures tried { IsTriedKept tree.now (halted self.old) call.now result (knows self.new) }
        ensures once { TriedOnce self.old self.new }
        ensures walk { self.new.walk ≡ None }
    {
        self.pause(tree);
        tree.try_act_kept(&mut self.pass, call)
    }
}

/// What C gets of what came of such a call.
fn made_told(made: Result<Kept, Worn>) -> (Outcome, u32)
    ensures outcome { result.0 ≡ defined.made_outcome made }
    ensures status { result.1 ≡ defined.made_status made }
{
    match made {
        Ok(Kept::Made(done)) => done_told(done),
        Ok(Kept::Broken) => (no_outcome(), ENOMEM),
        Err(_) => (no_outcome(), EOVERFLOW),
    }
}

/// What C gets of a try. The look, or the receipt of finding the lock taken, is kept.
fn kept_told(tried: Tried, receipts: &mut Receipts) -> (Outcome, u32)
    ensures outcome { result.0 ≡ defined.kept_outcome tried }
    ensures status { result.1 ≡ defined.kept_status tried }
    ensures kept { receipts.new ≡ when_kept tried receipts.old }
{
    match tried {
        Ok((made, look)) => {
            receipts.looked = Some(look);
            made_told(made)
        }
        Err(busy) => {
            receipts.locked = Some(busy);
            (no_outcome(), EAGAIN)
        }
    }
}

impl User {
    /// Makes one call that keeps the reserve, if the lock is free.
    fn try_act_kept(&mut self, call: &Call) -> Tried
        ensures common { common_of self.new ≡ common_of self.old }
        ensures chair { self.new.chair ≡ self.old.chair }
        ensures receipts { self.new.receipts ≡ self.old.receipts }
        ensures tried { IsTriedKept
            (user_tree self.old) (paused self.old) call.now result (known_to self.new) }
        ensures once { TriedOnce self.old.walker self.new.walker }
        ensures walk { self.new.walker.walk ≡ None }
    {
        self.walker.try_act_kept(&self.common.tree, call)
    }

    /// Makes one call that keeps the reserve, if the lock is free. What C gets, and its number.
    #[tactic(auto, using(crate::proofs::SharedKeeping::has_tried_kept))]
    fn act_kept_told(&mut self, call: &Call) -> (Outcome, u32)
        ensures common { common_of self.new ≡ common_of self.old }
        ensures tried { HasTriedKept call.now result.1 result.0 self.old self.new }
    {
        let tried = self.try_act_kept(call);
        kept_told(tried, &mut self.receipts)
    }
}

/// Makes one call that keeps the reserve on what C keeps.
#[tactic(auto, using(crate::proofs::SharedKeeping::kept_open, crate::proofs::SharedKeeping::kept_closed))]
fn try_kept(alloc: Global, user: &mut UserHandle, call: &Call, done: &mut Outcome) -> u32
    ensures { SharedTriedKept call.now user.old user.new result done.new }
{
    let Some(mut whole) = user.take(alloc) else {
        *done = no_outcome();
        return user.refusal();
    };
    let (outcome, status) = whole.act_kept_told(call);
    user.put(whole);
    *done = outcome;
    status
}

/// As `maple_try_store`, and keeps the reserve: it is not made, and is no call of the tree, if it adds ranges, and the nodes are not
/// surely enough for those that there are then.
#[unsafe(no_mangle)]
pub extern "C" fn maple_try_store_kept(
    alloc: Global,
    user: &mut UserHandle,
    first: u64,
    last: u64,
    entry: u64,
    done: &mut Outcome,
) -> u32
    ensures { SharedTriedKept (Store first last entry) user.old user.new result done.new }
{
    try_kept(alloc, user, &Call::Store { first, last, entry }, done)
}

/// As `maple_try_insert`, and keeps the reserve for a range more.
#[unsafe(no_mangle)]
pub extern "C" fn maple_try_insert_kept(
    alloc: Global,
    user: &mut UserHandle,
    first: u64,
    last: u64,
    entry: u64,
    done: &mut Outcome,
) -> u32
    ensures { SharedTriedKept (Insert first last entry) user.old user.new result done.new }
{
    try_kept(alloc, user, &Call::Insert { first, last, entry }, done)
}

/// As `maple_try_alloc`, and keeps the reserve for a range more.
#[unsafe(no_mangle)]
pub extern "C" fn maple_try_alloc_kept(
    alloc: Global,
    user: &mut UserHandle,
    size: u64,
    min: u64,
    max: u64,
    entry: u64,
    done: &mut Outcome,
) -> u32
    ensures { SharedTriedKept (Alloc size min max entry) user.old user.new result done.new }
{
    let call = Call::Alloc {
        size,
        min,
        max,
        entry,
    };
    try_kept(alloc, user, &call, done)
}

/// As `maple_try_ralloc`, and keeps the reserve for a range more.
#[unsafe(no_mangle)]
pub extern "C" fn maple_try_ralloc_kept(
    alloc: Global,
    user: &mut UserHandle,
    size: u64,
    min: u64,
    max: u64,
    entry: u64,
    done: &mut Outcome,
) -> u32
    ensures { SharedTriedKept (Ralloc size min max entry) user.old user.new result done.new }
{
    let call = Call::Ralloc {
        size,
        min,
        max,
        entry,
    };
    try_kept(alloc, user, &call, done)
}
