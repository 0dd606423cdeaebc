//! The lock of a tree, as a handle takes it.

ghost use Rattle.std.specs.Prelude.{◌≡◌, map, IfErr, IfOk};
ghost use Rattle.mt_rule.specs.Tokens.{pass_in};
ghost use Rattle.mt_rule.specs.Turns.{IsTakenOf, tried};
ghost use Rattle.mt_tree.specs.Trees.{place_of, AreAll, IsPassOf, TriesOnce};
ghost use Rattle.mt_tree.specs.Tries.{IsBusyOf, first_tried};

use crate::behind::WriterState;
use crate::trees::Tree;
use mt_rule::{Busy, Pass, Taken};
use std::sync::Wait;

impl Tree {
    /// Waits for the lock. The handle counts that it went for it, and knows what it knew.
    pub(crate) fn take(&self, rt: &impl Wait, pass: &mut Pass) -> Taken<WriterState>
        requires { IsPassOf self.now pass.old }
        ensures of { IsPassOf self.now pass.new }
        ensures known { pass_in pass.new ≡ pass_in pass.old }
        ensures tries { TriesOnce pass.old pass.new }
        ensures table { result.value.table ≡ place_of self.now }
        ensures taken { IsTakenOf self.now.turn.table.shared.table_id self.now.turn.table.shared.key result.seat }
    {
        self.turn.take(rt, pass)
    }

    /// `take`, if the lock is free. It does not wait.
    ///
    /// # Errors
    ///
    /// `Busy` where the lock was found taken.
    pub(crate) fn try_take(&self, pass: &mut Pass) -> Result<Taken<WriterState>, Busy>
        requires { IsPassOf self.now pass.old }
        ensures pass { pass.new ≡ tried pass.old }
        ensures of { IsPassOf self.now pass.new }
        ensures known { pass_in pass.new ≡ pass_in pass.old }
        ensures tries { TriesOnce pass.old pass.new }
        ensures table { IfOk result (λ taken. taken.value.table ≡ place_of self.now) }
        ensures taken { IfOk result (λ taken. IsTakenOf self.now.turn.table.shared.table_id self.now.turn.table.shared.key taken.seat) }
        ensures busy { IfErr result (IsBusyOf self.now) }
    {
        self.turn.try_take(pass)
    }

    /// Waits for the lock by the first of these handles.
    pub(crate) fn take_first(&self, rt: &impl Wait, passes: &mut [Pass]) -> Taken<WriterState>
        requires { AreAll self.now passes.old }
        ensures passes { passes.new ≡ first_tried passes.old }
        ensures all { AreAll self.now passes.new }
        ensures known { map pass_in passes.new ≡ map pass_in passes.old }
        ensures table { result.value.table ≡ place_of self.now }
        ensures taken { IsTakenOf self.now.turn.table.shared.table_id self.now.turn.table.shared.key result.seat }
    {
        self.turn.take(rt, &mut passes[0])
    }

    /// Tries for the lock by the first of these handles.
    ///
    /// # Errors
    ///
    /// `Busy` where the lock was found taken.
    pub(crate) fn try_first(&self, passes: &mut [Pass]) -> Result<Taken<WriterState>, Busy>
        requires { AreAll self.now passes.old }
        ensures passes { passes.new ≡ first_tried passes.old }
        ensures all { AreAll self.now passes.new }
        ensures known { map pass_in passes.new ≡ map pass_in passes.old }
        ensures table { IfOk result (λ taken. taken.value.table ≡ place_of self.now) }
        ensures taken { IfOk result (λ taken. IsTakenOf self.now.turn.table.shared.table_id self.now.turn.table.shared.key taken.seat) }
        ensures busy { IfErr result (IsBusyOf self.now) }
    {
        self.turn.try_take(&mut passes[0])
    }
}
