//! The pen, with which the one writer at work makes its calls.

ghost use Rattle.std.specs.Prelude.{◌≡◌, ◌<◌, ◌≤◌};
ghost use Rattle.mt_base.specs.Limits.{most_calls, most_passes};
ghost use Rattle.mt_rule.specs.Seats.{HasPen, pen_of, pass_of};

use crate::passes::Pass;
use crate::rule::{JoinsPass, PartsPass, SeesAll};
use crate::table::MtTable;
use crate::views::{TurnView, View};
use atomic_table::{Badge, Seat};

/// The pen (the writer's capability) of a tree's table, alone or joined with a pass (handle). There is one.
#[derive(Drop)]
pub struct Pen {
    pub(crate) seat: Seat<(), View>,
    /// How many calls have ended.
    pub(crate) ended: u64,
    /// The joined handle's number, and its seat at the turn.
    pub(crate) number: u32,
    pub(crate) turn: Badge<TurnView>,
    ghost is_pen: { HasPen seat.me.0 },
    ghost counted: { ended ≡ (pen_of seat.me.0).ended },
    ghost numbered: { number ≡ (pass_of seat.me.0).number },
    ghost few: { number < most_passes },
    ghost countable: { ended ≤ most_calls },
}

impl Pen {
    ghost use Rattle.std.specs.Prelude.{◌≡◌, None};
    ghost use Rattle.mt_rule.specs.Seats.{HasPen, pen_of};
    ghost use Rattle.mt_rule.specs.Tokens.{pen_in};

    /// How many calls have ended.
    pub fn ended(&self) -> u64
        ensures { result ≡ (pen_in self.now).ended }
    {
        self.ended
    }

    /// The pen at the first seat of a new table.
    pub(crate) fn of_seat(seat: Seat<(), View>) -> Pen
        requires pen { HasPen seat.me.0 }
        requires alone { seat.me.0.pass ≡ None }
        requires new { (pen_of seat.me.0).ended ≡ 0 }
        ensures { result.seat ≡ seat }
    {
        Pen {
            seat,
            ended: 0,
            number: 0,
            turn: Badge::blank(),
        }
    }
}

impl MtTable {
    ghost use Rattle.std.specs.Prelude.{◌≡◌, ℕ, None, false, length};
    ghost use Rattle.mt_base.specs.Passes.{IsSound};
    ghost use Rattle.mt_life.specs.declared.views.Extent.{Extent};
    ghost use Rattle.mt_rule.specs.Rule as rule;
    ghost use Rattle.mt_rule.specs.Seats.{pen_joined};
    ghost use Rattle.mt_rule.specs.Tokens.{identity_of, tree_in, IsPassOf, pass_in, pen_in, IsPenOf, IsAlone, IsJoined};
    ghost use Rattle.mt_rule.specs.Tokens.{joined_part, joined_in, joined_turn, part_of, turn_seat, WasShown};

    /// Joins a handle with the pen. No call may be in flight. The handle has then seen the whole history, and no section word
    /// was loaded since. Returns how many calls have ended.
    pub fn join_pen(&self, pen: &mut Pen, pass: Pass) -> u64
        requires pen { IsPenOf (identity_of self.now) pen.old }
        requires alone { IsAlone pen.old }
        requires idle { (pen_in pen.old).in_flight ≡ false }
        requires pass { IsPassOf (identity_of self.now) pass }
        ensures of { IsPenOf (identity_of self.now) pen.new }
        ensures pen { pen_in pen.new ≡ pen_joined (pen_in pen.old) }
        ensures joined { IsJoined pen.new }
        ensures part { joined_part pen.new ≡ record (part_of pass) { seen = (pen_in pen.old).history; ended = (pen_in pen.old).ended } }
        ensures shown { WasShown (tree_in (identity_of self.now)) (pen_in pen.old) (pass_in pass) (joined_in pen.new) }
        ensures turn { joined_turn pen.new ≡ turn_seat pass }
        ensures count { result ≡ length (pen_in pen.old).history }
    {
        let Pass { number, seat, turn } = pass;
        self.table
            .shared
            .join_seat::<JoinsPass>(&mut pen.seat, seat.into_seat::<()>());
        pen.number = number;
        pen.turn = turn;
        self.table.shared.load::<SeesAll>(&mut pen.seat, 0)
    }

    /// Separates the joined handle from the pen. No call may be in flight. What the handle knows is one legal history.
    pub fn split_pen(&self, pen: &mut Pen) -> Pass
        requires pen { IsPenOf (identity_of self.now) pen.old }
        requires joined { IsJoined pen.old }
        requires idle { (pen_in pen.old).in_flight ≡ false }
        ensures of { IsPenOf (identity_of self.now) pen.new }
        ensures pen { pen_in pen.new ≡ pen_in pen.old }
        ensures alone { IsAlone pen.new }
        ensures pass { IsPassOf (identity_of self.now) result }
        ensures part { part_of result ≡ record (joined_part pen.old) { ended = (pen_in pen.old).ended } }
        ensures sound { IsSound (tree_in (identity_of self.now)) (pass_in result) }
        ensures known { (extents : ℕ → Extent) × rule.IsSoundPen extents (pen_in pen.new) }
        ensures turn { turn_seat result ≡ joined_turn pen.old }
    {
        let _ = self.table.shared.load::<SeesAll>(&mut pen.seat, 0);
        let seat = self.table.shared.split_seat::<PartsPass>(&mut pen.seat);
        let number = std::mem::replace(&mut pen.number, 0);
        let turn = std::mem::replace(&mut pen.turn, Badge::blank());
        Pass {
            number,
            seat: seat.into_badge(),
            turn,
        }
    }
}
