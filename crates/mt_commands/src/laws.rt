//! What turns lead to. Each law (lemma) is the contract of a function that does nothing.

ghost use Rattle.std.specs.Prelude.{◌≡◌, ℕ, ◌+◌, ◌^◌, ◌<◌, ◌≤◌, [], ◌∷◌, Some, None, IsSome, length};
ghost use Rattle.mt_commands.specs.Turns.{turns};

/// After any number of turns there are no more ranges than draws.
#[tactic(auto, using(crate::proofs::FewTurns::few_ranges))]
pub fn turns_leave_few_ranges()
    ensures { (lo hi steps drops : ℕ) → hi < 2 ^ 64 → length (turns lo hi steps drops).map ≤ steps }
{}

/// The first number is the window's first index, and there is a last one.
#[tactic(auto, using(crate::proofs::FirstNumber::first_is))]
pub fn the_first_number_is_the_first_index()
    ensures { (lo hi steps drops : ℕ) → lo ≤ hi → hi < 2 ^ 64 → 1 ≤ steps
        → ((turns lo hi steps drops).tally.first ≡ Some lo) × IsSome (turns lo hi steps drops).tally.last }
{}

/// Worked turns: six draws of 5..8, each given back two draws later; and three of 5..6 that keep what they drew.
pub fn worked_turns()
    ensures first { (turns 5 8 6 2).tally.first ≡ Some 5 }
    ensures last { (turns 5 8 6 2).tally.last ≡ Some 6 }
    ensures wraps { (turns 5 8 6 2).tally.wraps ≡ 1 }
    ensures busy { (turns 5 8 6 2).tally.busy ≡ 0 }
    ensures numbers { (turns 5 8 6 2).tally.numbers ≡ Some 5 ∷ Some 6 ∷ Some 7 ∷ Some 8 ∷ Some 5 ∷ Some 6 ∷ [] }
    ensures kept { (turns 5 6 3 3).tally.last ≡ Some 6 }
    ensures unwrapped { (turns 5 6 3 3).tally.wraps ≡ 0 }
    ensures full { (turns 5 6 3 3).tally.busy ≡ 1 }
{}
