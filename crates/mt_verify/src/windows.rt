//! Whether the call numbers and the windows that a text reports are in order. This is tested before any map is made.

ghost use Rattle.std.specs.Prelude.{◌≡◌, ◌↔◌, ◌≤◌, ◌<◌, ℕ, List, All, AllPairs, IsTrue, IfSome, length, slice_index};
ghost use Rattle.mt_log.specs.Trees.{most_trees};
ghost use Rattle.mt_base.specs.Limits.{most_lanes};
ghost use Rattle.mt_told.specs.declared.told.ToldLine.{ToldLine};
ghost use Rattle.mt_told.specs.declared.told.What.{What};
ghost use Rattle.mt_verify.specs.Marked.{Admits, lane_place};
ghost use Rattle.mt_verify.specs.PrintedOrder.{EndsInTree, EndsWithin, InPrintedOrder, KeepsTo};
ghost use Rattle.mt_verify.specs.ToldCalls.{calls_told};

use crate::calls::count_calls;
use mt_told::{ToldLine, What};

/// What lines demand of those that know of them: a call's number is above `above`, if there is one, and a read's window begins
/// at `from` or above.
#[derive(Clone, Copy)]
struct Mark {
    above: Option<u64>,
    from: u64,
}

/// The greater of two numbers, of which one may be none.
fn greatest(above: Option<u64>, number: u64) -> u64
    ensures { (n : ℕ) → (result < n) ↔ (IfSome above (λ a. a < n) × (number < n)) }
{
    match above {
        Some(above) if above > number => above,
        _ => number,
    }
}

impl Mark {
    ghost use Rattle.std.specs.Prelude.{◌↔◌, IsTrue};
    ghost use Rattle.mt_told.specs.declared.told.What.{What};
    ghost use Rattle.mt_verify.specs.Marked.{Admits};
    ghost use Rattle.mt_verify.specs.PrintedOrder.{KeepsTo};

    /// Nothing is asked for.
    fn none() -> Mark
        ensures { (w : What) → Admits result w }
    {
        Mark {
            above: None,
            from: 0,
        }
    }

    /// Whether a line has what is asked for.
    fn admits(&self, what: &What) -> bool
        ensures { IsTrue result ↔ Admits self.now what.now }
    {
        match *what {
            What::Wrote { number, .. } => self.above.is_none_or(|above| above < number),
            What::Got { lo, .. } => self.from <= lo,
            What::Copied { .. } | What::Lawful { .. } => true,
        }
    }

    /// With what a line demands too.
    fn with(self, what: &What) -> Mark
        ensures { (w : What) → Admits result w ↔ (Admits self w × KeepsTo what.now w) }
    {
        match *what {
            What::Wrote { number, .. } => Mark {
                above: Some(greatest(self.above, number)),
                from: self.from.max(number),
            },
            What::Got { lo, hi, .. } => Mark {
                above: Some(greatest(self.above, hi)),
                from: self.from.max(lo),
            },
            What::Copied { .. } | What::Lawful { .. } => self,
        }
    }
}

/// The marks of each lane on each tree, of each tree, and of each tree as the phase began.
#[derive(Drop)]
struct Marks {
    lanes: [Mark; 256],
    trees: [Mark; 16],
    before: [Mark; 16],
    phase: u64,
}

/// The place of a lane on a tree among all.
fn place_of(told: &ToldLine) -> usize
    requires tree { told.now.tree < most_trees }
    requires lane { told.now.lane < most_lanes }
    ensures place { result ≡ lane_place told.now }
    ensures below { result < 256 }
{
    16 * told.tree as usize + told.lane as usize
}

impl Marks {
    ghost use Rattle.std.specs.Prelude.{◌≡◌, ◌↔◌, ◌≤◌, ◌<◌, ◌++◌, List, [], ◌∷◌, All, IsTrue};
    ghost use Rattle.mt_log.specs.Trees.{most_trees};
    ghost use Rattle.mt_base.specs.Limits.{most_lanes};
    ghost use Rattle.mt_told.specs.declared.told.ToldLine.{ToldLine};
    ghost use Rattle.mt_verify.specs.Marked.{AreMarked};
    ghost use Rattle.mt_verify.specs.PrintedOrder.{InPrintedOrder};

    /// No line was gone through.
    fn new() -> Marks
        ensures phase { result.phase ≡ 0 }
        ensures marked { AreMarked result [] }
    {
        let none = Mark::none();
        Marks {
            lanes: [none; 256],
            trees: [none; 16],
            before: [none; 16],
            phase: 0,
        }
    }

    /// The phase of the next line is this.
    fn enter(&mut self, phase: u64)
        requires { self.old.phase ≤ phase }
        ensures phase { self.new.phase ≡ phase }
        ensures marked { (told : List ToldLine) → AreMarked self.old told → AreMarked self.new told }
    {
        if self.phase < phase {
            self.before = self.trees;
            self.phase = phase;
        }
    }

    /// Whether a line of this phase keeps to those that it knows of.
    fn admit(&self, told: &ToldLine) -> bool
        requires tree { told.now.tree < most_trees }
        requires lane { told.now.lane < most_lanes }
        ensures { (earlier : List ToldLine) → AreMarked self.now earlier → self.now.phase ≡ told.now.phase → IsTrue result
            ↔ All (λ s. InPrintedOrder s told.now) earlier }
    {
        let place = place_of(told);
        self.lanes[place].admits(&told.what) && self.before[told.tree as usize].admits(&told.what)
    }

    /// A line of this phase is gone through.
    fn add(&mut self, told: &ToldLine)
        requires tree { told.now.tree < most_trees }
        requires lane { told.now.lane < most_lanes }
        ensures phase { self.new.phase ≡ self.old.phase }
        ensures marked { (earlier : List ToldLine) → AreMarked self.old earlier → self.old.phase ≡ told.now.phase
            → AreMarked self.new (earlier ++ told.now ∷ []) }
    {
        let place = place_of(told);
        let tree = told.tree as usize;
        self.lanes[place] = self.lanes[place].with(&told.what);
        self.trees[tree] = self.trees[tree].with(&told.what);
    }
}

/// Whether the call numbers and the windows are in order.
pub fn windows_keep(told: &[ToldLine]) -> bool
    requires trees { All (λ t. t.tree < most_trees) told.now }
    requires lanes { All (λ t. t.lane < most_lanes) told.now }
    requires phases { AllPairs (λ s t. s.phase ≤ t.phase) told.now }
    ensures { IsTrue result ↔ AllPairs InPrintedOrder told.now }
{
    let mut marks = Marks::new();
    for one in told {
        marks.enter(one.phase);
        if !marks.admit(one) {
            return false;
        }
        marks.add(one);
    }
    true
}

/// How many calls the text reports on each tree.
fn counts_of(told: &[ToldLine]) -> [usize; 16]
    ensures { (tree : ℕ) → tree < most_trees → slice_index result tree ≡ length (calls_told tree told.now) }
{
    let mut counts = [0; 16];
    for tree in 0..16 {
        counts[tree] = count_calls(told, tree as u32);
    }
    counts
}

/// Whether a read's window ends within `calls` calls.
fn ends_within(calls: usize, what: &What) -> bool
    ensures { IsTrue result ↔ EndsWithin calls what.now }
{
    match *what {
        What::Got { hi, .. } => hi <= calls as u64,
        What::Wrote { .. } | What::Copied { .. } | What::Lawful { .. } => true,
    }
}

/// Whether each read's window ends within the calls that the text reports on its tree.
pub fn windows_end(told: &[ToldLine]) -> bool
    requires { All (λ t. t.tree < most_trees) told.now }
    ensures { IsTrue result ↔ All (EndsInTree told.now) told.now }
{
    let counts = counts_of(told);
    for one in told {
        if !ends_within(counts[one.tree as usize], &one.what) {
            return false;
        }
    }
    true
}
