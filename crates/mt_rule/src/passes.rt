//! A caller's token on a tree.

ghost use Rattle.std.specs.Prelude.{◌≡◌, ◌<◌};
ghost use Rattle.mt_base.specs.Limits.{most_passes};
ghost use Rattle.mt_rule.specs.Seats.{part_in, pass_or, views_with};

use crate::views::{TurnView, View};
use atomic_table::Badge;

/// A thread's handle on one tree. It knows the first calls of the tree's history, up to some number, and which of them are its
/// own.
#[derive(Drop)]
pub struct Pass {
    pub(crate) number: u32,
    /// Its seat at the tree's table. There is none while the handle is away.
    pub(crate) seat: Badge<View>,
    /// Its seat at the turn (the writer lock).
    pub(crate) turn: Badge<TurnView>,
    ghost whole: { seat.views ≡ views_with (part_in seat.views) },
    ghost numbered: { number ≡ (pass_or (part_in seat.views)).number },
    ghost few: { number < most_passes },
}

impl Pass {
    ghost use Rattle.std.specs.Prelude.{◌≡◌, None};
    ghost use Rattle.mt_rule.specs.Seats.{part_in};
    ghost use Rattle.mt_rule.specs.Tokens.{pass_in};

    /// The handle's number. Those of a tree are numbered from 0.
    pub fn number(&self) -> u32
        ensures { result ≡ (pass_in self.now).number }
    {
        self.number
    }

    /// A handle of no tree. It takes the place of one that is joined with the pen.
    pub fn away() -> Pass
        ensures { part_in result.seat.views ≡ None }
    {
        Pass {
            number: 0,
            seat: Badge::blank(),
            turn: Badge::blank(),
        }
    }
}
