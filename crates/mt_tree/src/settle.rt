//! All handles of a tree see the whole history.

ghost use Rattle.std.specs.Prelude.{◌≡◌, ◌∷◌, All, map, length, flat_map, IfErr, IfOk, IsPermutation};
ghost use Rattle.std.specs.List.{range_with_len};
ghost use Rattle.mt_base.specs.Passes.{Settled};
ghost use Rattle.mt_rule.specs.Tokens.{pass_in, turn_seat};
ghost use Rattle.mt_rule.specs.Turns.{tried};
ghost use Rattle.mt_tree.specs.Behind.{after_show};
ghost use Rattle.mt_tree.specs.Meeting.{AreShown, HaveMet};
ghost use Rattle.mt_tree.specs.Trees.{place_of, seen_by, AreAll, IsPassOf};
ghost use Rattle.mt_tree.specs.Tries.{IsBusyOf, first_tried};

use crate::behind::WriterState;
use crate::trees::Tree;
use mt_rule::{Busy, Pass};
use std::sync::Wait;

impl WriterState {
    /// Each of these handles sees the whole history.
    fn show_each(&mut self, tree: &Tree, passes: &mut [Pass])
        requires table { self.old.table ≡ place_of tree.now }
        requires of { All (IsPassOf tree.now) passes.old }
        ensures state { after_show self.new ≡ after_show self.old }
        ensures of { All (IsPassOf tree.now) passes.new }
        ensures shown { AreShown tree.now self.old.pen passes.old passes.new }
        ensures turns { map turn_seat passes.new ≡ map turn_seat passes.old }
    {
        for i in 0..passes.len() {
            self.show(tree, &mut passes[i]);
        }
    }

    /// All handles see the whole history.
    fn show_all(&mut self, tree: &Tree, passes: &mut [Pass])
        requires table { self.old.table ≡ place_of tree.now }
        requires all { AreAll tree.now passes.old }
        ensures state { after_show self.new ≡ after_show self.old }
        ensures all { AreAll tree.now passes.new }
        ensures settled { Settled (seen_by tree.now (map pass_in passes.new)) (map pass_in passes.old) (map pass_in passes.new) }
        ensures turns { map turn_seat passes.new ≡ map turn_seat passes.old }
    {
        self.show_each(tree, passes);
    }

    /// A handle and others see the whole history. Returns how many calls it has.
    fn meet(&mut self, tree: &Tree, pass: &mut Pass, others: &mut [Pass]) -> u64
        requires table { self.old.table ≡ place_of tree.now }
        requires pass { IsPassOf tree.now pass.old }
        requires others { All (IsPassOf tree.now) others.old }
        ensures state { after_show self.new ≡ after_show self.old }
        ensures pass { IsPassOf tree.now pass.new }
        ensures others { All (IsPassOf tree.now) others.new }
        ensures met { HaveMet tree.now (map pass_in (pass.old ∷ others.old)) (map pass_in (pass.new ∷ others.new)) result }
        ensures turns { map turn_seat (pass.new ∷ others.new) ≡ map turn_seat (pass.old ∷ others.old) }
    {
        let calls = self.show(tree, pass);
        self.show_each(tree, others);
        calls
    }
}

impl Tree {
    /// Afterwards all handles of the tree have seen its whole history, whose calls are exactly theirs, each once.
    pub fn settle(&self, rt: &impl Wait, passes: &mut [Pass])
        requires { AreAll self.now passes.old }
        ensures all { AreAll self.now passes.new }
        ensures settled { Settled (seen_by self.now (map pass_in passes.new)) (map pass_in passes.old) (map pass_in passes.new) }
        ensures once { IsPermutation (range_with_len 1 (length (seen_by self.now (map pass_in passes.new)).records))
            (flat_map (λ q. q.mine) (map pass_in passes.new)) }
        ensures tries { map turn_seat passes.new ≡ map turn_seat (first_tried passes.old) }
    {
        let mut taken = self.take_first(rt, passes);
        taken.value.show_all(self, passes);
        self.turn.give(taken);
    }

    /// `settle`, if the lock is free. It does not wait.
    ///
    /// # Errors
    ///
    /// `Busy` if the one try found the lock taken. Nothing is changed, and no handle has seen more.
    pub fn try_settle(&self, passes: &mut [Pass]) -> Result<(), Busy>
        requires { AreAll self.now passes.old }
        ensures all { AreAll self.now passes.new }
        ensures settled { IfOk result (λ _. Settled (seen_by self.now (map pass_in passes.new)) (map pass_in passes.old) (map pass_in passes.new)) }
        ensures once { IfOk result (λ _. IsPermutation (range_with_len 1 (length (seen_by self.now (map pass_in passes.new)).records))
            (flat_map (λ q. q.mine) (map pass_in passes.new))) }
        ensures busy { IfErr result (IsBusyOf self.now) }
        ensures kept { IfErr result (λ _. passes.new ≡ first_tried passes.old) }
        ensures tries { map turn_seat passes.new ≡ map turn_seat (first_tried passes.old) }
    {
        let mut taken = self.try_first(passes)?;
        taken.value.show_all(self, passes);
        self.turn.give(taken);
        Ok(())
    }

    /// A handle of the tree meets others under its lock, if that is free. Each of them has then seen its whole history, of this
    /// many calls. It does not wait.
    ///
    /// # Errors
    ///
    /// `Busy` if the one try found the lock taken. Nothing is changed, and no handle has seen more.
    pub fn try_meet(&self, pass: &mut Pass, others: &mut [Pass]) -> Result<u64, Busy>
        requires pass { IsPassOf self.now pass.old }
        requires others { All (IsPassOf self.now) others.old }
        ensures pass { IsPassOf self.now pass.new }
        ensures others { All (IsPassOf self.now) others.new }
        ensures met { IfOk result (HaveMet self.now (map pass_in (pass.old ∷ others.old)) (map pass_in (pass.new ∷ others.new))) }
        ensures busy { IfErr result (IsBusyOf self.now) }
        ensures kept { IfErr result (λ _. (pass.new ≡ tried pass.old) × (others.new ≡ others.old)) }
        ensures tries { map turn_seat (pass.new ∷ others.new) ≡ map turn_seat (tried pass.old ∷ others.old) }
    {
        let mut taken = self.try_take(pass)?;
        let calls = taken.value.meet(self, pass, others);
        self.turn.give(taken);
        Ok(calls)
    }
}
