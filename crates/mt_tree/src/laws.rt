//! What the reserve of a tree is for. A law is the contract of a function that does nothing.

ghost use Rattle.std.specs.Prelude.{◌≡◌, ◌≢◌, ◌≤◌, List, length};
ghost use Rattle.mt_base.specs.Nodes.{IsShort, Limits};
ghost use Rattle.mt_base.specs.Passes.{Pass};
ghost use Rattle.mt_base.specs.declared.calls.Call.{Call};
ghost use Rattle.mt_base.specs.declared.outcomes.Done.{Done};
ghost use Rattle.mt_base.specs.declared.ranges.Range.{Range};
ghost use Rattle.mt_base.specs.declared.replies.Reply.TheVariants.{NoNodes};
ghost use Rattle.mt_base.specs.declared.replies.Shortage.{Shortage};
ghost use Rattle.mt_tree.specs.Behind.{Behind};
ghost use Rattle.mt_tree.specs.Reserve.{BreaksReserve, HasReserve};
ghost use Rattle.mt_tree.specs.RowsFor.{rows_for};
ghost use Rattle.mt_tree.specs.Trees.{WasAnsweredBy};
ghost use Rattle.mt_tree.specs.declared.trees.Tree.{Tree};

/// A tree that has its reserve lacks no nodes, whatever its map: a call is refused because nodes are short only if some are held.
pub fn a_reserve_is_enough()
    ensures { (l : Limits) (m : List Range) (s : Shortage) → rows_for (length m) ≤ l.rows → IsShort l m s → s.held ≢ 0 }
{}

/// A call of a tree that has its reserve is refused because nodes are short only while sections hold some.
pub fn only_held_nodes_are_lacking()
    ensures { (t : Tree) (q : Pass) (b b' : Behind) (call : Call) (d : Done) → WasAnsweredBy t q b b' call d → HasReserve b.parts
        → (s : Shortage) → d.reply ≡ NoNodes s → s.held ≢ 0 }
{}

/// A call that does not break the reserve leaves it, whatever comes of it. So does each call that adds no range.
pub fn a_reserve_lasts()
    ensures { (t : Tree) (q : Pass) (b b' : Behind) (call : Call) (d : Done) → WasAnsweredBy t q b b' call d → HasReserve b.parts
        → ¬ BreaksReserve b.parts call → HasReserve b'.parts }
{}
