//! Numbers that threads share.

ghost use Rattle.std.specs.Prelude.{◌≡◌, ◌+◌, ℕ, Bool, MatchOption, Option, if◌then◌else◌};

/// So many numbers are shared, from 0 on.
pub const NUMBERS: u64 = 64;

/// A thread's way to the numbers that threads share.
///
/// Its meanings are how often it took a number, and how often it gave one back. And of two moments: that a number was asked for
/// and this one returned, and that this number was given back and the result is whether it was taken.
pub trait Numbers {
    ghost taken: { Self → ℕ };

    ghost given_back: { Self → ℕ };

    ghost asked: { Self → Option ℕ → Self → Type 0 };

    ghost gave: { Self → ℕ → Bool → Self → Type 0 };

    /// Takes the lowest number that is free, where one is.
    fn take(&mut self) -> Option<u64>
        ensures number { asked self.old result self.new }
        ensures taken { MatchOption result (taken self.new ≡ taken self.old) (λ _. taken self.new ≡ taken self.old + 1) }
        ensures given_back { given_back self.new ≡ given_back self.old };

    /// Gives a number back. Returns whether it was taken.
    fn give_back(&mut self, number: u64) -> bool
        ensures number { gave self.old number result self.new }
        ensures taken { taken self.new ≡ taken self.old }
        ensures given_back { given_back self.new ≡ given_back self.old + (if result then 1 else 0) };
}
