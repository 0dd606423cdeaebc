//! Who writes.

use std::marker::Brand;

/// The table that is written. And of the handle that writes: its seat (token) at the turn, and how many steps it has made
/// without the lock. The writer's nodes are generic over this, so it is not passed to them: each entry picks it.
pub trait Writer {
    ghost table: { Identity };

    ghost turn: { Badge TurnView };

    ghost steps: { ℕ };

    ghost use Rattle.std.specs.Prelude.{ℕ};
    ghost use Rattle.atomic_table.specs.declared.badge.Badge.{Badge};
    ghost use Rattle.mt_rule.specs.declared.views.TurnView.{TurnView};
    ghost use Rattle.mt_rule.specs.Tokens.{Identity};
}

impl Writer for Brand {
    ghost use Rattle.mt_pen.specs.Writers.{no_table, no_turn};

    ghost table = { no_table };

    ghost turn = { no_turn };

    ghost steps = { 0 };
}
