//! Stores of a user that return all ranges that they meet.

ghost use Rattle.std.specs.Prelude.{◌≡◌, None};
ghost use Rattle.mt_tree.specs.Trees.{IsPassOf};
ghost use Rattle.mt_c.specs.Overwrites as defined;
ghost use Rattle.mt_c.specs.Overwrites.{HasTriedOver, IsTriedOver, SharedTriedOver};
ghost use Rattle.mt_c.specs.Users.{common_of, known_to, paused, user_tree};
ghost use Rattle.mt_c.specs.Walkers.{TriedOnce, halted, knows};

use crate::shared_told::{Outcome, no_outcome, tried_told};
use crate::told::OutRange;
use crate::user::User;
use crate::user_handle::UserHandle;
use crate::walker::Walker;
use mt_tree::{Busy, Done, Tree, Worn};
use std::alloc::Global;

impl Walker {
    /// Makes a store, if the lock is free, and returns how many ranges it met too.
    #[tactic(auto, using(crate::proofs::Overwriting::over_tried, crate::proofs::Using::tried_once))]
    fn try_store_over(
        &mut self,
        tree: &Tree,
        first: u64,
        last: u64,
        entry: u64,
        met: &mut [OutRange],
    ) -> Result<(Result<Done, Worn>, u64), Busy>
        requires { IsPassOf tree.now self.old.pass }
        ensures of { IsPassOf tree.now self.new.pass }
        ensures tried { IsTriedOver tree.now
            (halted self.old) first last entry met.old met.new result (knows self.new) }
        ensures once { TriedOnce self.old self.new }
        ensures walk { self.new.walk ≡ None }
    {
        self.pause(tree);
        tree.try_store_over(&mut self.pass, first, last, entry, met)
    }
}

/// The result of a store, and how many ranges it met.
fn parted(tried: Result<(Result<Done, Worn>, u64), Busy>) -> (Result<Result<Done, Worn>, Busy>, u64)
    ensures tried { result.0 ≡ defined.tried_alone tried }
    ensures count { result.1 ≡ defined.met_count tried }
{
    match tried {
        Ok((made, count)) => (Ok(made), count),
        Err(busy) => (Err(busy), 0),
    }
}

impl User {
    /// Makes a store, if the lock is free, and returns how many ranges it met too.
    fn try_store_over(
        &mut self,
        first: u64,
        last: u64,
        entry: u64,
        met: &mut [OutRange],
    ) -> Result<(Result<Done, Worn>, u64), Busy>
        ensures common { common_of self.new ≡ common_of self.old }
        ensures chair { self.new.chair ≡ self.old.chair }
        ensures receipts { self.new.receipts ≡ self.old.receipts }
        ensures tried { IsTriedOver (user_tree self.old)
            (paused self.old) first last entry met.old met.new result (known_to self.new) }
        ensures once { TriedOnce self.old.walker self.new.walker }
        ensures walk { self.new.walker.walk ≡ None }
    {
        self.walker
            .try_store_over(&self.common.tree, first, last, entry, met)
    }

    /// Makes a store, if the lock is free. How many ranges it met, what C gets, and its number.
    #[tactic(auto, using(crate::proofs::Overwriting::has_tried_over))]
    fn store_over_told(
        &mut self,
        first: u64,
        last: u64,
        entry: u64,
        met: &mut [OutRange],
    ) -> (u64, Outcome, u32)
        ensures common { common_of self.new ≡ common_of self.old }
        ensures tried { HasTriedOver
            first last entry met.old met.new result.0 result.2 result.1 self.old self.new }
    {
        let tried = self.try_store_over(first, last, entry, met);
        let (alone, count) = parted(tried);
        let (outcome, status) = tried_told(alone, &mut self.receipts);
        (count, outcome, status)
    }
}

/// As `maple_try_store`. `met` begins with the ranges that it met, as they were before it, as far as there is room, whether it
/// was made or refused. `count` is how many they are. If the lock was found taken, there are none.
#[tactic(auto, using(crate::proofs::Overwriting::tried_over_open, crate::proofs::Overwriting::tried_over_closed))]
#[unsafe(no_mangle)]
pub extern "C" fn maple_try_store_over(
    alloc: Global,
    user: &mut UserHandle,
    first: u64,
    last: u64,
    entry: u64,
    met: &mut [OutRange],
    count: &mut u64,
    done: &mut Outcome,
) -> u32
    ensures { SharedTriedOver
        first last entry met.old met.new count.new user.old user.new result done.new }
{
    let Some(mut whole) = user.take(alloc) else {
        *count = 0;
        *done = no_outcome();
        return user.refusal();
    };
    let (told, outcome, status) = whole.store_over_told(first, last, entry, met);
    user.put(whole);
    *count = told;
    *done = outcome;
    status
}
