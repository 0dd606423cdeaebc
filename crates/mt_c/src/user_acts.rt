//! What a user of a shared tree does: its walker does it on the tree that they own together.

ghost use Rattle.std.specs.Prelude.{◌≡◌, ◌+◌, ℕ, None, Ok, IfErr};
ghost use Rattle.mt_base.specs.declared.calls.Query.TheVariants.{Load};
ghost use Rattle.mt_keep.specs.Keeping.{cuts_of};
ghost use Rattle.mt_tree.specs.Asks.{most_made};
ghost use Rattle.mt_tree.specs.Trees.{IsPassOf, Takes};
ghost use Rattle.mt_c.specs.Purses.{IsChairAtPurse};
ghost use Rattle.mt_c.specs.Users.{IsSettledUser, IsSynced, WentToSettle, common_of, cuts, known_to, paused, rested, user_tree};
ghost use Rattle.mt_c.specs.Walkers.{GaveUp, IsWalkAnswer, IsOnNoWalk, IsTried, StepsFrom, Took, TriedOnce, WentOnce, halted, knows};

use crate::purse::{Common, Purse};
use crate::user::User;
use crate::walker::Walker;
use mt_base::{Call, Query, Range};
use mt_keep::{Chair, Given};
use mt_tree::{Busy, Done, Moved, Read, Tree, Worn};

/// Why a user and the purse did not see the whole history.
#[derive(Drop)]
pub enum Settling {
    /// Another user has the purse.
    Unpursed {
        busy: mt_keep::Busy<Purse, Tree>,
    },
    /// The lock was found taken, and the purse given back as it was.
    Locked {
        busy: Busy,
        given: Given<Purse, Tree>,
    },
}

impl Common {
    /// A walker and all handles of the purse see the whole history, if neither the purse nor the lock is taken.
    #[tactic(auto, using(crate::proofs::Using::settles))]
    pub fn settle(
        &self,
        walker: &mut Walker,
        chair: &mut Chair<Purse, Tree>,
    ) -> Result<(u64, u64, Given<Purse, Tree>), Settling>
        requires of { IsPassOf self.now.tree walker.old.pass }
        requires seated { IsChairAtPurse self.now chair.old }
        ensures of { IsPassOf self.now.tree walker.new.pass }
        ensures seated { IsChairAtPurse self.now chair.new }
        ensures cuts { cuts_of chair.new ≡ cuts_of chair.old + 1 }
        ensures settled { IsSettledUser self.now
            (cuts_of chair.old) (halted walker.old) result (knows walker.new) }
        ensures went { WentToSettle result walker.old walker.new }
    {
        walker.pause(&self.tree);
        let mut taken = match self.take(chair) {
            Ok(taken) => taken,
            Err(busy) => return Err(Settling::Unpursed { busy }),
        };
        let met = walker.meet(&self.tree, taken.value.passes.as_mut_slice());
        let passes = taken.value.passes.len() as u64;
        let given = self.give(taken);
        match met {
            Ok(calls) => Ok((calls, passes, given)),
            Err(busy) => Err(Settling::Locked { busy, given }),
        }
    }
}

impl User {
    /// Closes the section of its walk, if it has one, and forgets the walk.
    pub fn pause(&mut self)
        ensures common { common_of self.new ≡ common_of self.old }
        ensures chair { self.new.chair ≡ self.old.chair }
        ensures receipts { self.new.receipts ≡ self.old.receipts }
        ensures known { known_to self.new ≡ paused self.old }
        ensures walk { self.new.walker.walk ≡ None }
        ensures took { Took 0 self.old.walker self.new.walker.pass }
    {
        self.walker.pause(&self.common.tree);
    }

    /// Closes its section, whichever is open, and forgets its walk.
    pub fn rest(&mut self)
        ensures common { common_of self.new ≡ common_of self.old }
        ensures chair { self.new.chair ≡ self.old.chair }
        ensures receipts { self.new.receipts ≡ self.old.receipts }
        ensures known { known_to self.new ≡ rested self.old }
        ensures rests { IsOnNoWalk self.new.walker }
        ensures takes { Takes 1 self.old.walker.pass self.new.walker.pass }
    {
        self.walker.rest(&self.common.tree);
    }

    /// Asks one query, without the lock.
    pub fn ask(&mut self, query: &Query) -> Result<Read<Option<Range>>, Moved>
        ensures common { common_of self.new ≡ common_of self.old }
        ensures chair { self.new.chair ≡ self.old.chair }
        ensures receipts { self.new.receipts ≡ self.old.receipts }
        ensures answer { IsWalkAnswer
            (user_tree self.old) (known_to self.old) query.now result (known_to self.new) }
        ensures rests { IsOnNoWalk self.new.walker }
        ensures took { Took (most_made query.now) self.old.walker self.new.walker.pass }
        ensures left { IfErr result (GaveUp query.now self.old.walker self.new.walker) }
    {
        self.walker.ask(&self.common.tree, query)
    }

    /// The range that an index lies in, without the lock.
    pub fn load(&mut self, index: u64) -> Read<Option<Range>>
        ensures common { common_of self.new ≡ common_of self.old }
        ensures chair { self.new.chair ≡ self.old.chair }
        ensures receipts { self.new.receipts ≡ self.old.receipts }
        ensures answer { IsWalkAnswer (user_tree self.old)
            (known_to self.old) (Load index) (Ok result) (known_to self.new) }
        ensures rests { IsOnNoWalk self.new.walker }
        ensures took { Took 170 self.old.walker self.new.walker.pass }
    {
        self.walker.load(&self.common.tree, index)
    }

    /// The first range that ends at a place or above, as `Walker::step_from` returns it: the leaf that it is in is kept.
    pub fn step_from(&mut self, place: Option<u64>) -> Read<Option<Range>>
        ensures common { common_of self.new ≡ common_of self.old }
        ensures chair { self.new.chair ≡ self.old.chair }
        ensures receipts { self.new.receipts ≡ self.old.receipts }
        ensures stepped { StepsFrom
            (user_tree self.old) self.old.walker place result self.new.walker }
    {
        self.walker.step_from(&self.common.tree, place)
    }

    /// Makes one call, if the lock is free.
    pub fn try_act(&mut self, call: &Call) -> Result<Result<Done, Worn>, Busy>
        ensures common { common_of self.new ≡ common_of self.old }
        ensures chair { self.new.chair ≡ self.old.chair }
        ensures receipts { self.new.receipts ≡ self.old.receipts }
        ensures tried { IsTried
            (user_tree self.old) (paused self.old) call.now result (known_to self.new) }
        ensures once { TriedOnce self.old.walker self.new.walker }
    {
        self.walker.try_act(&self.common.tree, call)
    }

    /// Sees the whole history, if the lock is free. Answers how many calls it has.
    #[tactic(auto, using(crate::proofs::Using::synced))]
    pub fn sync(&mut self) -> Result<u64, Busy>
        ensures common { common_of self.new ≡ common_of self.old }
        ensures chair { self.new.chair ≡ self.old.chair }
        ensures receipts { self.new.receipts ≡ self.old.receipts }
        ensures synced { IsSynced
            (user_tree self.old) (paused self.old) result (known_to self.new) }
        ensures went { WentOnce self.old.walker self.new.walker }
    {
        self.walker.meet(&self.common.tree, &mut [])
    }

    /// With all handles of the purse it sees the whole history, if neither the purse nor the lock is taken. Returns how many
    /// calls that has, and how many handles of the purse have then seen it.
    pub fn settle(&mut self) -> Result<(u64, u64, Given<Purse, Tree>), Settling>
        ensures common { common_of self.new ≡ common_of self.old }
        ensures chair { cuts self.new ≡ cuts self.old + 1 }
        ensures settled { IsSettledUser (common_of self.old)
            (cuts self.old) (paused self.old) result (known_to self.new) }
        ensures went { WentToSettle result self.old.walker self.new.walker }
        ensures receipts { self.new.receipts ≡ self.old.receipts }
    {
        self.common.settle(&mut self.walker, &mut self.chair)
    }
}
