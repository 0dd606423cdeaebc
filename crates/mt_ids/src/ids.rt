ghost use Rattle.std.specs.Prelude.{◌≡◌, ◌↔◌, ◌+◌, ◌≤◌, ◌<◌, Option, Some, None, true, false, IsTrue};
ghost use Rattle.mt_ids.specs.Allocation.{Allocation, IsAfter, IsSince};
ghost use Rattle.mt_ids.specs.Draws.{IsDrawn, position_behind};
ghost use Rattle.mt_ids.specs.Window.{new_draws};
ghost use Rattle.mt_ids.specs.Runs.{after_answer, came_to, IsBeforeLast, IsLastAnswer};

use crate::allocs::Allocs;
use mt_base::{Reply, Shortage};
use std::marker::Model;

/// What a draw returns.
#[derive(Clone, Copy, Debug, PartialEq, Eq)]
pub enum Drawn {
    /// The entry is stored at this index. `wrapped` says whether the search began again at the window's first index.
    Number { at: u64, wrapped: bool },
    /// No index of the window is free.
    Busy,
    /// The entry is reserved or 0, or the window ends above the greatest index, or the tree cannot search for room.
    Invalid,
    /// Too few nodes are free.
    NoNodes(Shortage),
    /// The tree has had all the `calls` calls that it may have, and the draw needed more.
    Worn { calls: u64 },
}

/// A window of indexes from which numbers are drawn in turn (cyclic allocation).
#[derive(Drop)]
pub struct Ids {
    lo: u64,
    hi: u64,
    at: Option<u64>,
}

/// Whether no index was free.
fn is_busy(answer: &Result<Reply, u64>) -> bool
    ensures { IsTrue result ↔ (answer.now ≡ Ok Reply.Busy) }
{
    matches!(answer, Ok(Reply::Busy))
}

impl Model for Ids {
    ghost use Rattle.std.specs.Prelude.{◌≤◌, IfSome};
    ghost use Rattle.mt_ids.specs.Window.{Draws};

    ghost Value = { Draws };

    ghost view = { λ s. record { lo = s.lo; hi = s.hi; at = s.at } };

    ghost invariant = { λ s. (s.lo ≤ s.hi) × IfSome s.at (λ n. (s.lo ≤ n) × (n ≤ s.hi)) };
}

impl Ids {
    /// A new window. The first number is sought from `lo` on.
    pub fn new(lo: u64, hi: u64) -> Ids
        requires { lo ≤ hi }
        ensures { result ≡ new_draws lo hi }
    {
        Ids {
            lo,
            hi,
            at: Some(lo),
        }
    }

    /// Moves the position to the index after a number.
    fn go_behind(&mut self, at: u64)
        requires from { self.old.lo ≤ at }
        requires to { at ≤ self.old.hi }
        ensures { self.new ≡ position_behind self.old at }
    {
        self.at = if at == self.hi { None } else { Some(at + 1) };
    }

    /// Draws the next number and stores the entry there: the lowest index that is free from the position on, or else from the
    /// window's first index on. A draw is one call, or two if no index is free from its position on. Any other result leaves
    /// the map and the position.
    pub fn draw<A: Allocs>(&mut self, tree: &mut A, entry: u64) -> Drawn
        ensures drawn { IsDrawn self.old (A.sheet tree.old) entry result self.new (A.sheet tree.new) }
        ensures rest { IsAfter (A.sheet tree.old) (A.sheet tree.new) }
        ensures stays { A.stays tree.old tree.new }
    {
        let Some(from) = self.at else {
            return self.draw_anew(tree, entry);
        };
        let answer = tree.alloc_one(from, self.hi, entry);
        if is_busy(&answer) {
            return self.draw_anew(tree, entry);
        }
        self.settle(answer, false)
    }

    /// The second call of a draw: it searches from the window's first index on, because none is free from the position on.
    fn draw_anew<A: Allocs>(&mut self, tree: &mut A, entry: u64) -> Drawn
        ensures drawn { (s : Allocation) → IsBeforeLast self.old s entry (A.sheet tree.old) → IsDrawn self.old s entry result self.new (A.sheet tree.new) }
        ensures rest { (s : Allocation) → IsSince s (A.sheet tree.old) → IsAfter s (A.sheet tree.new) }
        ensures stays { A.stays tree.old tree.new }
    {
        let answer = tree.alloc_one(self.lo, self.hi, entry);
        self.settle(answer, true)
    }

    /// What the last reply of a draw leads to.
    fn settle(&mut self, answer: Result<Reply, u64>, wrapped: bool) -> Drawn
        requires { IsLastAnswer self.old answer }
        ensures drawn { result ≡ came_to wrapped answer }
        ensures position { self.new ≡ after_answer self.old answer }
    {
        match answer {
            Ok(Reply::Start(at)) => {
                self.go_behind(at);
                Drawn::Number { at, wrapped }
            }
            Ok(Reply::Busy) => Drawn::Busy,
            Ok(Reply::NoNodes(shortage)) => Drawn::NoNodes(shortage),
            Ok(_) => Drawn::Invalid,
            Err(calls) => Drawn::Worn { calls },
        }
    }
}
