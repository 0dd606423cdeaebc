//! Several calls of a user, under one lock of its tree.

ghost use Rattle.std.specs.Prelude.{◌≡◌, None, is_some};
ghost use Rattle.mt_tree.specs.Trees.{IsPassOf};
ghost use Rattle.mt_c.specs.CallLists as defined;
ghost use Rattle.mt_c.specs.CallLists.{IsTriedEach, SharedTriedEach, TriesIf};
ghost use Rattle.mt_c.specs.Users.{common_of, known_to, paused, user_tree};
ghost use Rattle.mt_c.specs.Walkers.{TriedOnce, halted, knows};

use crate::receipts::Receipts;
use crate::shared_told::{EAGAIN, Outcome, done_told};
use crate::told::{EINVAL, EOVERFLOW};
use crate::user::User;
use crate::user_handle::UserHandle;
use crate::walker::Walker;
use mt_base::Call;
use mt_tree::{Busy, Done, Request, Tree, Worn};
use std::alloc::Global;

/// A call as C asks for it, and its answer: `struct maple_call`. The verb says which call it is; the words from `first` to
/// `size` are its arguments, as far as it has them.
#[repr(C)]
#[derive(Clone, Copy, Debug, PartialEq, Eq)]
pub struct OutCall {
    pub verb: u32,
    pub status: u32,
    pub first: u64,
    pub last: u64,
    pub entry: u64,
    pub size: u64,
    pub done: Outcome,
}

impl OutCall {
    /// The call, if this verb means one.
    fn meant(&self) -> Option<Call>
        ensures { result ≡ defined.asked_call self.now }
    {
        let OutCall {
            verb,
            status: _,
            first,
            last,
            entry,
            size,
            done: _,
        } = *self;
        let (min, max) = (first, last);
        match verb {
            1 => Some(Call::Store { first, last, entry }),
            2 => Some(Call::StorePre { first, last, entry }),
            3 => Some(Call::Insert { first, last, entry }),
            4 => Some(Call::Erase { index: first }),
            5 => Some(Call::Alloc {
                size,
                min,
                max,
                entry,
            }),
            6 => Some(Call::Ralloc {
                size,
                min,
                max,
                entry,
            }),
            7 => Some(Call::Gap { size, min, max }),
            8 => Some(Call::Rgap { size, min, max }),
            9 => Some(Call::Clear),
            _ => None,
        }
    }
}

impl Request for OutCall {
    ghost asks = { defined.call_meant };

    ghost told = { defined.told_call };

    fn call(&self) -> Call {
        self.meant().unwrap_or(Call::Gap {
            size: 0,
            min: 0,
            max: 0,
        })
    }

    fn tell(&mut self, done: Done) {
        let (outcome, status) = done_told(done);
        self.done = outcome;
        self.status = status;
    }
}

/// Whether its verb means a call.
fn is_meant(call: &OutCall) -> bool
    ensures { result ≡ is_some (defined.asked_call call.now) }
{
    call.meant().is_some()
}

/// Whether each one's verb means a call.
fn are_meant(calls: &[OutCall]) -> bool
    ensures { result ≡ defined.are_meant calls.now }
{
    calls.iter().all(|call| is_meant(call))
}

impl Walker {
    /// Makes the calls, if the lock is free.
    #[tactic(auto, using(crate::proofs::CallLists::each_tried, crate::proofs::Using::tried_once))]
    fn try_each(&mut self, tree: &Tree, calls: &mut [OutCall]) -> Result<Result<(), Worn>, Busy>
        requires { IsPassOf tree.now self.old.pass }
        ensures of { IsPassOf tree.now self.new.pass }
        ensures tried { IsTriedEach tree.now
            (halted self.old) calls.old calls.new result (knows self.new) }
        ensures once { TriedOnce self.old self.new }
        ensures walk { self.new.walk ≡ None }
    {
        self.pause(tree);
        tree.try_act_each(&mut self.pass, calls)
    }
}

/// The number that C gets for them. The receipt of a lock that was found taken is kept.
fn each_told(tried: Result<Result<(), Worn>, Busy>, receipts: &mut Receipts) -> u32
    ensures status { result ≡ defined.each_status tried }
    ensures kept { receipts.new ≡ defined.when_each tried receipts.old }
{
    match tried {
        Ok(Ok(())) => 0,
        Ok(Err(_)) => EOVERFLOW,
        Err(busy) => {
            receipts.locked = Some(busy);
            EAGAIN
        }
    }
}

impl User {
    /// Makes the calls, if the lock is free.
    fn try_each(&mut self, calls: &mut [OutCall]) -> Result<Result<(), Worn>, Busy>
        ensures common { common_of self.new ≡ common_of self.old }
        ensures chair { self.new.chair ≡ self.old.chair }
        ensures receipts { self.new.receipts ≡ self.old.receipts }
        ensures tried { IsTriedEach (user_tree self.old)
            (paused self.old) calls.old calls.new result (known_to self.new) }
        ensures once { TriedOnce self.old.walker self.new.walker }
        ensures walk { self.new.walker.walk ≡ None }
    {
        self.walker.try_each(&self.common.tree, calls)
    }

    /// Makes the calls, if the lock is free and each verb means one.
    #[tactic(auto, using(crate::proofs::CallLists::each_made, crate::proofs::CallLists::none_meant))]
    fn each_told(&mut self, calls: &mut [OutCall]) -> u32
        ensures common { common_of self.new ≡ common_of self.old }
        ensures tried { TriesIf
            (defined.are_meant calls.old) calls.old calls.new result self.old self.new }
    {
        if !are_meant(calls) {
            return EINVAL;
        }
        let tried = self.try_each(calls);
        each_told(tried, &mut self.receipts)
    }
}

/// Makes these calls one after another, if the lock of the user's tree is free. Each has its answer beside it; those after a
/// call that is refused are made too.
#[tactic(auto, using(crate::proofs::CallLists::each_open, crate::proofs::CallLists::each_closed))]
#[unsafe(no_mangle)]
pub extern "C" fn maple_try_batch(
    alloc: Global,
    user: &mut UserHandle,
    calls: &mut [OutCall],
) -> u32
    ensures { SharedTriedEach calls.old calls.new user.old user.new result }
{
    let Some(mut whole) = user.take(alloc) else {
        return user.refusal();
    };
    let status = whole.each_told(calls);
    user.put(whole);
    status
}
