ghost use Rattle.std.specs.Prelude.{◌≡◌, ◌+◌, ◌<◌, ℕ};

/// What answers the steps of a lane, one after another.
///
/// Its meanings are `count`, the number of its steps; `awaits`, that it is ready for a step; and `did`, what answering a
/// step made of it.
pub trait Desk {
    ghost count: { Self → ℕ };

    ghost awaits: { Self → ℕ → Type 0 };

    ghost did: { Self → ℕ → Self → Type 0 };

    /// Answers the step that it awaits. It has room for every answer before the first.
    fn answer(&mut self, step: u64)
        requires below { step < count self.old }
        requires awaited { awaits self.old step }
        ensures did { did self.old step self.new }
        ensures count { count self.new ≡ count self.old }
        ensures next { step + 1 < count self.old → awaits self.new (step + 1) };
}
