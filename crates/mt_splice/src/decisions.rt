//! How a replacement goes on at a level, decided before a node of it is written.

ghost use Rattle.std.specs.Prelude.{◌≡◌, ◌<◌, ◌≤◌, true, [], ◌∷◌, length};
ghost use Rattle.mt_layout.specs.declared.names.RowKind.TheVariants.{Leaf};
ghost use Rattle.mt_splice.specs.steps.Decisions.{IsNextDecision, item_words};

use crate::ways::{Ways, step_on};
use mt_base::{Width, top};
use mt_layout::{RowKind, Run};

/// How a replacement goes on, once it is known what the nodes of a level will hold.
#[derive(Clone, Copy, Debug, PartialEq, Eq)]
pub enum Next {
    /// The leaves should hold only one hole: nothing is left of the tree.
    Empty,
    /// One node covers every index: it becomes the root.
    Root,
    /// Several nodes replace the root: a new root holds them.
    RootAbove,
    /// One node takes the place of one node, in the slot of the node above.
    Slot,
    /// The nodes above must change too.
    Up,
}

/// How a replacement goes on at a level whose items are cut into this many nodes.
pub fn next_of(
    width: Width,
    ways: &Ways,
    run: &Run,
    depth: u32,
    kind: RowKind,
    pieces: usize,
) -> Next
    requires left { depth < length ways.now.left.items }
    requires right { depth < length ways.now.right.items }
    requires some { 1 ≤ pieces }
    ensures { IsNextDecision width ways.now.left.items ways.now.right.items depth kind run.now.items pieces result }
{
    let left = step_on(&ways.left, depth);
    let right = step_on(&ways.right, depth);
    let all = left.min == 0 && right.max == top(width);
    if all && is_one_hole(run, kind) {
        return Next::Empty;
    }
    if pieces == 1 && all {
        return Next::Root;
    }
    if depth == 0 {
        return Next::RootAbove;
    }
    if pieces == 1 && left.min == right.min {
        return Next::Slot;
    }
    Next::Up
}

/// Whether the leaves should hold only one hole.
fn is_one_hole(run: &Run, kind: RowKind) -> bool
    ensures hole { result ≡ true → (kind ≡ Leaf) × (item_words run.now.items ≡ 0 ∷ []) }
    ensures other { kind ≡ Leaf → item_words run.now.items ≡ 0 ∷ [] → result ≡ true }
{
    kind == RowKind::Leaf && run.len() == 1 && run[0].word == 0
}
