//! What a batch of reads returns, by cases that can be worked out by hand. Each law is the contract of a function that does
//! nothing.

ghost use Rattle.std.specs.Prelude.{◌≡◌, ℕ, ◌*◌, ◌≤◌, List, [], ◌∷◌, Option, Some, length, map};
ghost use Rattle.mt_base.specs.declared.ranges.Range.{Range};
ghost use Rattle.mt_rule.specs.declared.views.PassPart.{PassPart};
ghost use Rattle.mt_read.specs.Leaves.{CoversEach, GoesByLeaves, WalkStand, stand};
ghost use Rattle.mt_read.specs.Many.{AreEntries, AtStore, InMap, entry_in};
ghost use Rattle.mt_read.specs.declared.cursor.KeptLeaf.{KeptLeaf};

/// In a tree that no write changes, a batch has what that many single loads return.
#[tactic(auto, using(crate::proofs::BatchLaws::quiet))]
pub fn a_batch_beside_no_write_has_what_single_loads_return()
    ensures { (m : List Range) (from to : ℕ) (indexes entries : List ℕ) → AreEntries (InMap m) from indexes entries to → entries ≡ map (entry_in m) indexes }
{}

/// If a write stores 7 at an index meanwhile, the batch may have nothing there and then 7, but not 7 and then nothing.
#[tactic(auto, using(crate::proofs::BatchLaws::goes_on, crate::proofs::BatchLaws::goes_back))]
pub fn a_batch_does_not_go_back()
    ensures on { AreEntries AtStore 0 (5 ∷ 5 ∷ []) (0 ∷ 7 ∷ []) 1 }
    ensures back { AreEntries AtStore 0 (5 ∷ 5 ∷ []) (7 ∷ 0 ∷ []) 1 → ⊥ }
{}

/// If no call has begun since the kept leaf was walked to, a batch whose places it covers stays in it, and takes at most 35
/// steps a range.
#[tactic(auto, using(crate::proofs::LeafLaws::near_each))]
pub fn a_batch_in_its_leaf_beside_no_write_is_short()
    ensures { (q : PassPart) (lo begun max : ℕ) (kept : KeptLeaf) → begun ≤ kept.lo
        → (at : Option ℕ) (marks : List ℕ) (found : List Range) (few : ℕ) (s' : WalkStand)
        → GoesByLeaves q lo begun max (stand (Some kept) at marks) found few s' → CoversEach kept max at found
        → (few ≤ 35 * length found) × (s'.leaf ≡ Some kept) × (s'.marks ≡ marks) }
{}
