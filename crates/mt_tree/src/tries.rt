//! A call of a tree under a lock of its own, by those that do not wait.

ghost use Rattle.std.specs.Prelude.{◌≡◌, IfOk, IfErr};
ghost use Rattle.mt_rule.specs.Tokens.{pass_in};
ghost use Rattle.mt_rule.specs.Turns.{tried};
ghost use Rattle.mt_tree.specs.Trees.{IsPassOf, TriesOnce};
ghost use Rattle.mt_tree.specs.Tries.{IsBusyOf, WasMade};

use crate::trees::Tree;
use mt_base::{Call, Done, Worn};
use mt_rule::{Busy, Pass};

impl Tree {
    /// Makes one call, any of the nine, if the lock is free, as `act` does. It does not wait.
    ///
    /// # Errors
    ///
    /// `Busy` if the one try found the lock taken. Nothing is changed, and the handle has seen no more.
    pub fn try_act(&self, pass: &mut Pass, call: &Call) -> Result<Result<Done, Worn>, Busy>
        requires { IsPassOf self.now pass.old }
        ensures of { IsPassOf self.now pass.new }
        ensures made { IfOk result (λ made. WasMade self.now (pass_in pass.old) call.now made (pass_in pass.new)) }
        ensures busy { IfErr result (IsBusyOf self.now) }
        ensures kept { IfErr result (λ _. pass.new ≡ tried pass.old) }
        ensures tries { TriesOnce pass.old pass.new }
    {
        let mut taken = self.try_take(pass)?;
        let done = taken.value.act(self, pass, call);
        self.turn.give(taken);
        Ok(done)
    }
}
