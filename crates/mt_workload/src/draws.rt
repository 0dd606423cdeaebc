use mt_base::SEED_END;
use std::marker::Model;

const MULTIPLIER: u64 = 1_103_515_245;

const INCREMENT: u64 = 12_345;

/// Numbers that are drawn, one after another.
#[derive(Drop)]
pub struct Draws {
    state: u64,
}

impl Model for Draws {
    ghost use Rattle.std.specs.Prelude.{ℕ, ◌<◌};
    ghost use Rattle.mt_base.specs.Limits.{seed_end};

    ghost Value = { ℕ };

    ghost view = { λ d. d.state };

    ghost invariant = { λ d. d.state < seed_end };
}

impl Draws {
    ghost use Rattle.std.specs.Prelude.{◌≡◌, ◌<◌};
    ghost use Rattle.mt_workload.specs.Draws.{draw_below};
    ghost use Rattle.mt_base.specs.Limits.{seed_end};

    /// Draws from this number on.
    pub fn new(number: u32) -> Self
        requires { number < seed_end }
        ensures { result ≡ number }
    {
        Draws {
            state: u64::from(number),
        }
    }

    /// A number below this one.
    #[tactic(auto, using(crate::proofs::Drawn::drawn_below), unfolding(crate::specs::Draws::draw_below))]
    pub fn below(&mut self, count: u32) -> u64
        requires { 0 < count }
        ensures drawn { (result, self.new) ≡ draw_below count self.old }
        ensures below { result < count }
    {
        self.state = (MULTIPLIER * self.state + INCREMENT) % SEED_END;
        self.state * u64::from(count) / SEED_END
    }
}
