//! What a user of a shared tree does for C: it keeps what it found at the lock and at the purse, and returns the numbers.

ghost use Rattle.std.specs.Prelude.{◌≡◌, IfErr, IfOk};
ghost use Rattle.mt_c.specs.Shared.{HasSettled, HasShared, HasSynced, HasTried, IsUnchanged, unchanged_status};
ghost use Rattle.mt_c.specs.Receipts.{when_unchanged};
ghost use Rattle.mt_c.specs.Users.{common_of};

use crate::shared_told::{Outcome, settled_told, synced_told, tried_told, unchanged_told};
use crate::user::User;
use crate::user_opens::Unchanged;
use mt_base::Call;
use std::alloc::Global;

impl User {
    /// Makes one call, if the lock is free.
    #[tactic(auto, using(crate::proofs::Sharing::has_tried))]
    pub fn try_told(&mut self, call: &Call) -> (Outcome, u32)
        ensures common { common_of self.new ≡ common_of self.old }
        ensures tried { HasTried call.now result.1 result.0 self.old self.new }
    {
        let tried = self.try_act(call);
        tried_told(tried, &mut self.receipts)
    }

    /// Sees the whole history, if the lock is free.
    #[tactic(auto, using(crate::proofs::Sharing::has_synced))]
    pub fn sync_told(&mut self) -> (u64, u32)
        ensures common { common_of self.new ≡ common_of self.old }
        ensures synced { HasSynced result.1 result.0 self.old self.new }
    {
        let synced = self.sync();
        synced_told(synced, &mut self.receipts)
    }

    /// With all handles of the purse it sees the whole history, if neither the purse nor the lock is taken.
    #[tactic(auto, using(crate::proofs::Sharing::has_settled))]
    pub fn settle_told(&mut self) -> (u64, u64, u32)
        ensures common { common_of self.new ≡ common_of self.old }
        ensures settled { HasSettled result.2 result.0 result.1 self.old self.new }
    {
        let settled = self.settle();
        settled_told(settled, &mut self.receipts)
    }

    /// No user was opened, or this one has not left. The number that C gets.
    pub fn refused(&mut self, why: Unchanged) -> u32
        ensures common { common_of self.new ≡ common_of self.old }
        ensures walker { self.new.walker ≡ self.old.walker }
        ensures chair { self.new.chair ≡ self.old.chair }
        ensures receipts { self.new.receipts ≡ when_unchanged why self.old.receipts }
        ensures status { result ≡ unchanged_status why }
    {
        unchanged_told(why, &mut self.receipts)
    }

    /// Opens another user of the same tree, with a handle of the purse.
    ///
    /// # Errors
    ///
    /// The number that C gets where none was opened.
    #[tactic(auto, using(crate::proofs::Sharing::has_shared, crate::proofs::Sharing::is_unchanged))]
    pub fn share_told(&mut self, alloc: Global) -> Result<Box<User>, u32>
        ensures common { common_of self.new ≡ common_of self.old }
        ensures walker { self.new.walker ≡ self.old.walker }
        ensures other { IfOk result (λ other. common_of other.value ≡ common_of self.old) }
        ensures pass { IfOk result (λ other. HasShared self.old self.new other.value) }
        ensures why { IfErr result (IsUnchanged self.old self.new) }
    {
        match self.share(alloc) {
            Ok((other, given)) => {
                self.receipts.given = Some(given);
                Ok(other)
            }
            Err(why) => Err(self.refused(why)),
        }
    }
}
