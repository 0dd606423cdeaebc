//! Worked draws. Each law is the contract of a function that does nothing.

ghost use Rattle.std.specs.Prelude.{◌≡◌};
ghost use Rattle.mt_workload.specs.Draws.{draw_below};

/// The draws of three steps from the number 1: what each gives, and the state that it leaves.
#[tactic(auto, unfolding(crate::specs::Draws::draw_below))]
pub fn worked_draws()
    ensures step { draw_below 16 1 ≡ (8, 1103527590) }
    ensures index { draw_below 4194304 1103527590 ≡ (737112, 377401575) }
    ensures second_step { draw_below 16 377401575 ≡ (4, 662824084) }
    ensures size { draw_below 509 662824084 ≡ (272, 1147902781) }
    ensures entry { draw_below 1000000 1147902781 ≡ (947627, 2035015474) }
    ensures third_step { draw_below 16 2035015474 ≡ (2, 368800899) }
    ensures third_size { draw_below 509 368800899 ≡ (357, 1508029952) }
    ensures third_entry { draw_below 1000000 1508029952 ≡ (226430, 486256185) }
{}
