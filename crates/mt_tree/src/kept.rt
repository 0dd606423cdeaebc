//! Calls that keep the reserve of a tree, by a caller that does not wait.

ghost use Rattle.std.specs.Prelude.{◌≡◌, IfErr, IfOk, IfSome, length};
ghost use Rattle.mt_engine.specs.Engine.{Parts};
ghost use Rattle.mt_rows.specs.Publish.{map_by};
ghost use Rattle.mt_rule.specs.Tokens.{pass_in};
ghost use Rattle.mt_rule.specs.Turns.{tried};
ghost use Rattle.mt_tree.specs.Behind.{IsCountBehind};
ghost use Rattle.mt_tree.specs.Kept.{MadeKept, WasKept};
ghost use Rattle.mt_tree.specs.Reserve.{IsReserveVerdict};
ghost use Rattle.mt_tree.specs.Trees.{place_of, IsPassOf, Rests, TriesOnce};
ghost use Rattle.mt_tree.specs.Tries.{IsBusyOf};
ghost use Rattle.mt_tree.specs.Works.{LookedBehind};

use crate::behind::WriterState;
use crate::counts::counted;
use crate::inspects::Inspect;
use crate::receipts::Look;
use crate::reserve::{ReserveVerdict, verdict_of};
use crate::trees::Tree;
use mt_base::{Call, Done, Kind, Worn};
use mt_engine::Engine;
use mt_rows::Rows;
use mt_rule::{Busy, Pass};

/// What came of a call that keeps the reserve.
#[derive(Debug, Drop)]
pub enum Kept {
    /// It was made.
    Made(Done),
    /// It would break the reserve. It was not made, and is no call of the tree.
    Broken,
}

/// The verdict on a call, where so much is known of the number of ranges.
#[derive(Drop)]
struct VerdictOn<'a> {
    known: Option<u64>,
    call: &'a Call,
}

impl<'a> Inspect for VerdictOn<'a> {
    type Found = ReserveVerdict;

    ghost may = { λ v _ words. IfSome v.known (λ n. n ≡ length (map_by words)) };

    ghost finds = { λ v kind words verdict. (e : Parts) → e.kind ≡ kind → e.sheet.tree ≡ words → IsReserveVerdict e v.call.now verdict };

    #[tactic(auto, using(crate::proofs::Reserving::verdict_as))]
    fn inspect<R: Rows>(self, engine: Engine<R>, kind: Kind) -> (Engine<R>, ReserveVerdict) {
        verdict_of(engine, kind, self.known, self.call)
    }
}

impl WriterState {
    /// Keeps how many ranges there are, where that is known.
    fn keep(&mut self, ranges: Option<u64>)
        requires { IsCountBehind ranges self.old }
        ensures { self.new ≡ self.old }
    {
        self.ranges = ranges;
    }

    /// The verdict on a call, by what the lock protects, which is only read.
    #[tactic(auto, using(crate::proofs::Keeping::counted_looked))]
    fn judge(&mut self, tree: &Tree, pass: &mut Pass, call: &Call) -> ReserveVerdict
        requires table { self.old.table ≡ place_of tree.now }
        requires pass { IsPassOf tree.now pass.old }
        ensures looked { LookedBehind tree.now self.old self.new pass.old pass.new }
        ensures verdict { IsReserveVerdict self.old.parts call.now result }
    {
        let known = self.ranges;
        self.inspect(tree, pass, VerdictOn { known, call })
    }

    /// As `judge`. What is found of the number of ranges is kept.
    fn verdict(&mut self, tree: &Tree, pass: &mut Pass, call: &Call) -> ReserveVerdict
        requires table { self.old.table ≡ place_of tree.now }
        requires pass { IsPassOf tree.now pass.old }
        ensures looked { LookedBehind tree.now self.old self.new pass.old pass.new }
        ensures verdict { IsReserveVerdict self.new.parts call.now result }
    {
        let verdict = self.judge(tree, pass, call);
        self.keep(verdict.before);
        verdict
    }

    /// Makes one call, unless it breaks the reserve.
    fn act_by(
        &mut self,
        tree: &Tree,
        pass: &mut Pass,
        call: &Call,
        verdict: ReserveVerdict,
    ) -> Result<Kept, Worn>
        requires table { self.old.table ≡ place_of tree.now }
        requires pass { IsPassOf tree.now pass.old }
        requires verdict { IsReserveVerdict self.old.parts call.now verdict }
        ensures table { self.new.table ≡ place_of tree.now }
        ensures of { IsPassOf tree.now pass.new }
        ensures rests { Rests pass.old pass.new }
        ensures made { MadeKept tree.now (pass_in pass.old) self.old self.new call.now result (pass_in pass.new) }
    {
        if verdict.breaks {
            return Ok(Kept::Broken);
        }
        match self.act(tree, pass, call) {
            Ok(done) => {
                self.keep(counted(verdict.after, verdict.before, call, done.reply));
                Ok(Kept::Made(done))
            }
            Err(worn) => Err(worn),
        }
    }
}

impl Tree {
    /// Makes one call, unless it breaks the reserve, if the lock is free: it is not made if it may add ranges, and the nodes are
    /// not surely enough for those that there may be then. It does not wait. The receipt has what the lock protected.
    ///
    /// # Errors
    ///
    /// `Busy` if the one try found the lock taken. Nothing is changed, and the handle has seen no more.
    pub fn try_act_kept(
        &self,
        pass: &mut Pass,
        call: &Call,
    ) -> Result<(Result<Kept, Worn>, Look), Busy>
        requires { IsPassOf self.now pass.old }
        ensures of { IsPassOf self.now pass.new }
        ensures made { IfOk result (λ r. WasKept self.now (pass_in pass.old) call.now r.1 r.0 (pass_in pass.new)) }
        ensures busy { IfErr result (IsBusyOf self.now) }
        ensures kept { IfErr result (λ _. pass.new ≡ tried pass.old) }
        ensures tries { TriesOnce pass.old pass.new }
    {
        let mut taken = self.try_take(pass)?;
        let verdict = taken.value.verdict(self, pass, call);
        let took = taken.value.snapshot(self);
        let made = taken.value.act_by(self, pass, call, verdict);
        Ok((made, self.give_looked(taken, took)))
    }
}
