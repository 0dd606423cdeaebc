//! Several calls under one lock, one after another, by a caller that does not wait.

ghost use Rattle.std.specs.Prelude.{◌≡◌, ◌+◌, ◌-◌, ◌<◌, ◌≤◌, ℕ, Ok, Some, length, IfErr, IfOk};
ghost use Rattle.mt_base.specs.declared.calls.Call.{Call};
ghost use Rattle.mt_rule.specs.Tokens.{pass_in};
ghost use Rattle.mt_rule.specs.Turns.{tried};
ghost use Rattle.mt_tree.specs.Batches.{LacksCalls, WereMade};
ghost use Rattle.mt_base.specs.declared.outcomes.Done.{Done};
ghost use Rattle.mt_tree.specs.Trees.{limit_of, place_of, IsPassOf, Rests, TriesOnce};
ghost use Rattle.mt_tree.specs.Tries.{IsBusyOf, WasMade};

use crate::behind::WriterState;
use crate::trees::Tree;
use mt_base::{Call, Done, Worn};
use mt_rule::{Busy, Pass};

/// A call that is asked for, and a place for its answer.
pub trait Request {
    ghost asks: { Self → Call };

    ghost told: { Self → Done → Self };

    /// The call.
    fn call(&self) -> Call
        ensures { result ≡ asks self.now };

    /// Takes the answer of the call.
    fn tell(&mut self, done: Done)
        ensures { self.new ≡ told self.old done };
}

/// A request that keeps nothing else.
#[derive(Clone, Copy, Debug, PartialEq, Eq)]
pub struct Asked {
    pub call: Call,
    pub done: Option<Done>,
}

impl Request for Asked {
    ghost asks = { λ a. a.call };

    ghost told = { λ a d. record a { done = Some d } };

    fn call(&self) -> Call {
        self.call
    }

    fn tell(&mut self, done: Done) {
        self.done = Some(done);
    }
}

impl WriterState {
    /// Makes the next call, if the tree may have one more.
    fn act_next(&mut self, tree: &Tree, pass: &mut Pass, call: &Call) -> Done
        requires table { self.old.table ≡ place_of tree.now }
        requires pass { IsPassOf tree.now pass.old }
        requires room { length self.old.pen.history < limit_of tree.now }
        ensures table { self.new.table ≡ place_of tree.now }
        ensures of { IsPassOf tree.now pass.new }
        ensures rests { Rests pass.old pass.new }
        ensures number { result.call ≡ length self.old.pen.history + 1 }
        ensures count { length self.new.pen.history ≡ result.call }
        ensures made { WasMade tree.now (pass_in pass.old) call.now (Ok result) (pass_in pass.new) }
    {
        match self.act(tree, pass, call) {
            Ok(done) => done,
            Err(_) => unreachable!(),
        }
    }

    /// Makes the calls of these requests, if the tree may have that many more.
    fn act_each<A: Request>(&mut self, tree: &Tree, pass: &mut Pass, asked: &mut [A])
        requires table { self.old.table ≡ place_of tree.now }
        requires pass { IsPassOf tree.now pass.old }
        requires room { length asked.old ≤ limit_of tree.now - length self.old.pen.history }
        ensures table { self.new.table ≡ place_of tree.now }
        ensures of { IsPassOf tree.now pass.new }
        ensures rests { Rests pass.old pass.new }
        ensures made { WereMade A.asks A.told tree.now (length self.old.pen.history + 1) (pass_in pass.old) asked.old asked.new (pass_in pass.new) }
    {
        for i in 0..asked.len() {
            let call = asked[i].call();
            let done = self.act_next(tree, pass, &call);
            asked[i].tell(done);
        }
    }

    /// Makes the calls of these requests: all of them, or none if the tree may not have that many more.
    #[tactic(auto, using(crate::proofs::Batching::lacks_calls))]
    fn act_all<A: Request>(
        &mut self,
        tree: &Tree,
        pass: &mut Pass,
        asked: &mut [A],
    ) -> Result<(), Worn>
        requires table { self.old.table ≡ place_of tree.now }
        requires pass { IsPassOf tree.now pass.old }
        ensures table { self.new.table ≡ place_of tree.now }
        ensures of { IsPassOf tree.now pass.new }
        ensures rests { Rests pass.old pass.new }
        ensures made { IfOk result (λ _. (n : ℕ) × WereMade A.asks A.told tree.now n (pass_in pass.old) asked.old asked.new (pass_in pass.new)) }
        ensures worn { IfErr result (λ w. LacksCalls tree.now (pass_in pass.old) (length asked.old) w (pass_in pass.new) × (asked.new ≡ asked.old)) }
    {
        let calls = self.calls();
        if tree.shape.calls.saturating_sub(calls) < asked.len() as u64 {
            self.show(tree, pass);
            return Err(Worn { calls });
        }
        self.act_each(tree, pass, asked);
        Ok(())
    }
}

impl Tree {
    /// Makes the calls of these requests, one after another under one lock, if that is free, each as `act` does. It makes all
    /// of them, also those after a call that is refused. It does not wait.
    ///
    /// # Errors
    ///
    /// `Busy` if the lock was found taken, by the one try that was made; nothing is changed, and the handle has seen no more.
    /// `Worn` if the tree may not have that many calls beside those that the handle has then seen; nothing else is changed.
    pub fn try_act_each<A: Request>(
        &self,
        pass: &mut Pass,
        asked: &mut [A],
    ) -> Result<Result<(), Worn>, Busy>
        requires { IsPassOf self.now pass.old }
        ensures of { IsPassOf self.now pass.new }
        ensures made { IfOk result
            (λ each. IfOk each (λ _. (n : ℕ) × WereMade A.asks A.told self.now n (pass_in pass.old) asked.old asked.new (pass_in pass.new))) }
        ensures worn { IfOk result
            (λ each. IfErr each (λ w. LacksCalls self.now (pass_in pass.old) (length asked.old) w (pass_in pass.new) × (asked.new ≡ asked.old))) }
        ensures busy { IfErr result (IsBusyOf self.now) }
        ensures kept { IfErr result (λ _. (pass.new ≡ tried pass.old) × (asked.new ≡ asked.old)) }
        ensures tries { TriesOnce pass.old pass.new }
    {
        let mut taken = self.try_take(pass)?;
        let each = taken.value.act_all(self, pass, asked);
        self.turn.give(taken);
        Ok(each)
    }
}
