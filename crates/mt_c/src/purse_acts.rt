//! What is done with a purse (the pool of free handles).

ghost use Rattle.std.specs.Prelude.{◌≡◌, ◌+◌, ℕ, All, IfErr, IfOk};
ghost use Rattle.mt_keep.specs.Keeping.{cuts_of};
ghost use Rattle.mt_c.specs.Purses.{IsPurseBusy, IsChairAtPurse, HasPurse, WasGiven, known_in};
ghost use Rattle.mt_c.specs.Spares.{IsSparePass};

use crate::purse::{Common, Purse};
use mt_keep::{Busy, Chair, Given, Taken};
use mt_tree::Tree;

impl Common {
    /// Takes the purse, if no other has it.
    pub fn take(
        &self,
        chair: &mut Chair<Purse, Tree>,
    ) -> Result<Taken<Purse, Tree>, Busy<Purse, Tree>>
        requires { IsChairAtPurse self.now chair.old }
        ensures chair { IsChairAtPurse self.now chair.new }
        ensures cuts { cuts_of chair.new ≡ cuts_of chair.old + 1 }
        ensures passes { IfOk result
            (λ taken. All (IsSparePass self.now.tree) taken.value.passes.items) }
        ensures taken { IfOk result (λ taken. HasPurse self.now taken.took taken.seat) }
        ensures took { IfOk result (λ taken. taken.took.value ≡ taken.value) }
        ensures taken_cuts { IfOk result (λ taken. taken.seat.me.0.cuts ≡ cuts_of chair.new) }
        ensures busy { IfErr result (IsPurseBusy self.now (cuts_of chair.new)) }
    {
        self.purse.try_take(chair)
    }

    /// Gives the purse back.
    pub fn give(&self, taken: Taken<Purse, Tree>) -> Given<Purse, Tree>
        requires taken { HasPurse self.now taken.took taken.seat }
        requires passes { All (IsSparePass self.now.tree) taken.value.passes.items }
        ensures given { WasGiven self.now taken.seat.me.0.cuts
            (known_in taken.took.value) (known_in taken.value) result }
        ensures took { result.took ≡ taken.took }
        ensures gave { result.gave.value ≡ taken.value }
    {
        self.purse.give(taken)
    }
}
