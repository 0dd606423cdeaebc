//! A tree.

ghost use Rattle.std.specs.Prelude.{◌≡◌, ◌≤◌, None};
ghost use Rattle.mt_base.specs.Limits.{most_calls};
ghost use Rattle.mt_rule.specs.Tokens.{identity_of};
ghost use Rattle.mt_rule.specs.Turns.{served};
ghost use Rattle.mt_pen.specs.Works.{OpensSmall};
ghost use Rattle.mt_tree.specs.Shapes.{first_bad};

use crate::behind::WriterState;
use crate::shapes::Shape;
use mt_rule::{MtTable, Turn};

/// A tree that threads share. Each thread uses it by a pass (handle) of its own, which `make` and `dup` return.
///
/// What changes the tree, `lock`, `check`, `dup` and `settle` wait for its lock. The lock spins: who finds it taken gives the
/// processor to another thread and tries again. None waits in a queue, so that no bound is known for a wait.
///
/// A handle that is dropped while its section is open, because a cursor of it was dropped or forgotten, leaves it open for
/// good: no other handle can close it. Nodes that die from then on are never free again. A call that lacks them is refused with
/// `NoNodes`, which names that handle.
#[derive(Drop)]
pub struct Tree {
    /// Never read. It keeps where the table's words are, which each load reads, out of the cache lines of what lies before the
    /// tree in memory: that may be what the lock protects, which each call writes.
    pub(crate) apart: [u64; 16],
    pub(crate) table: MtTable,
    pub(crate) turn: Turn<WriterState>,
    pub(crate) shape: Shape,
    ghost serves: { served turn.table.shared.key ≡ identity_of table },
    ghost kind: { shape.kind ≡ (identity_of table).shape.kind },
    ghost rows: { shape.rows ≡ (identity_of table).shape.rows },
    ghost passes: { shape.passes ≡ (identity_of table).shape.passes },
    ghost calls: { shape.calls ≡ (identity_of table).shape.calls },
    ghost some_pass: { 1 ≤ shape.passes },
    ghost few_calls: { shape.calls ≤ most_calls },
    ghost in_range: { first_bad shape ≡ None },
    ghost opens: { OpensSmall (identity_of table).shape },
}
