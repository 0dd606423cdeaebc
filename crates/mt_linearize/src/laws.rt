//! How the trees of a log go on from phase to phase, to a run of it. Each law is the contract of a function that does nothing.

ghost use Rattle.std.specs.Prelude.{◌≡◌, ◌<◌, ◌+◌, ℕ, List, [], ◌∷◌, ◌++◌, Some, map, slice_get, length};
ghost use Rattle.mt_base.specs.History.{last_map};
ghost use Rattle.mt_log.specs.declared.lines.Log.{Log};
ghost use Rattle.mt_log.specs.declared.transcripts.Transcript.{Transcript};
ghost use Rattle.mt_log.specs.declared.trees.KnownTree.{KnownTree};
ghost use Rattle.mt_log.specs.Run.{Step, AreDone, IsRun, steps_of, entry_of, listings_of};
ghost use Rattle.mt_log.specs.Trees.{Declared, Empty, CopyOf, trees_of};
ghost use Rattle.mt_linearize.specs.Phases.{Tracked, IsPhase, histories_of, new_tracked};
ghost use Rattle.mt_linearize.specs.Tracks.{Ran};

/// Before a log's first line there are no trees and no steps.
pub fn a_log_begins_with_no_trees()
    ensures { (passes rows : ℕ) → Ran passes rows 0 [] [] [] }
{}

/// When a phase begins, one more tree opens, either empty or with another tree's map as it is then. Its history is empty, and
/// its handles are new.
pub fn a_tree_is_declared()
    ensures empty { (passes rows phase : ℕ) (declared : List Declared) (steps : List Step) (trees : List Tracked) (known : KnownTree)
        → Ran passes rows phase declared steps trees
        → Ran passes rows phase (declared ++ record { tree = known; opening = Empty } ∷ []) steps (trees ++ new_tracked passes rows known.kind [] ∷ []) }
    ensures copy { (passes rows phase : ℕ) (declared : List Declared) (steps : List Step) (trees : List Tracked)
        (known : KnownTree) (tree : ℕ) (source : Tracked) → slice_get trees tree ≡ Some source → known.kind ≡ source.history.kind
        → Ran passes rows phase declared steps trees
        → Ran passes rows phase (declared ++ record { tree = known; opening = CopyOf tree phase } ∷ []) steps (trees
        ++ new_tracked passes rows known.kind (last_map source.history) ∷ []) }
{}

/// A phase is over: each lane's handle on each tree goes through the lane's steps, and then each tree's handles are settled.
pub fn a_phase_goes_by()
    ensures { (passes rows phase : ℕ) (declared : List Declared) (earlier steps : List Step) (before after : List Tracked) → 0 < passes
        → Ran passes rows phase declared earlier before
        → IsPhase passes phase steps before after → Ran passes rows (phase + 1) declared (earlier ++ steps) after }
{}

/// Where no phase is left, it is a run of the log.
pub fn what_ran_is_a_run()
    ensures { (passes rows phase : ℕ) (log : Log) (t : Transcript) (steps : List Step) (trees : List Tracked)
        → Ran passes rows phase (trees_of log.lines) steps trees
        → AreDone (steps_of log.lines) steps → t.version ≡ log.version → t.entries ≡ map entry_of steps
        → t.lists ≡ listings_of (trees_of log.lines) (histories_of trees) → IsRun log rows t }
{}
