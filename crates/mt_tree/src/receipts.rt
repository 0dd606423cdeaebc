//! What is kept of a look under a tree's lock.

ghost use Rattle.std.specs.Prelude.{◌≡◌};
ghost use Rattle.mt_rule.specs.Seats.{records_of};
ghost use Rattle.mt_rule.specs.Turns.{IsTakenOf};
ghost use Rattle.mt_tree.specs.Trees.{place_of, LiesBehind};

use crate::behind::WriterState;
use crate::trees::Tree;
use mt_rule::Taken;
use std::snapshot::Snapshot;

/// The receipt of a look under the lock of a tree: what the lock protected when it was taken, and when it was given back. Only
/// such a look makes one, and it has no bytes.
#[derive(Drop)]
pub struct Look {
    pub(crate) took: Snapshot<WriterState>,
    pub(crate) left: Snapshot<WriterState>,
}

impl WriterState {
    /// What the lock now protects, as clauses see it.
    pub(crate) fn snapshot(&self, tree: &Tree) -> Snapshot<WriterState>
        requires { self.now.table ≡ place_of tree.now }
        ensures value { result.value ≡ self.now }
        ensures lies { LiesBehind tree.now (records_of self.now.pen.history) self.now }
    {
        let Some(_) = &self.tools else { unreachable!() };
        Snapshot::of(self)
    }
}

impl Tree {
    /// Gives the lock back after a look, and makes the receipt of it.
    pub(crate) fn give_looked(&self, taken: Taken<WriterState>, took: Snapshot<WriterState>) -> Look
        requires taken { IsTakenOf self.now.turn.table.shared.table_id self.now.turn.table.shared.key taken.seat }
        requires table { taken.value.table ≡ place_of self.now }
        ensures took { result.took ≡ took }
        ensures left { result.left.value ≡ taken.value }
    {
        let left = Snapshot::of(&taken.value);
        self.turn.give(taken);
        Look { took, left }
    }
}
