//! Walks whose handle and place the caller keeps, each as a value: a [`Cursor`](crate::Cursor) borrows both a tree and a
//! handle.

ghost use Rattle.std.specs.Prelude.{◌≡◌, ◌+◌, ◌≤◌};
ghost use Rattle.mt_rule.specs.Tokens.{IsCounted};
ghost use Rattle.mt_base.specs.Blanks.{IsBlankOf};
ghost use Rattle.mt_tree.specs.Trees.{IsPassOf};
ghost use Rattle.mt_tree.specs.Walks.{HasHalted, HasWalked, IsWalkOf};

use crate::trees::Tree;
use mt_base::{Range, Read, Steps};
use mt_read::Cursor;
use mt_rule::Pass;
use std::marker::Brand;
use std::sync::ledger::{Blank, Ledger};

impl Tree {
    /// The next range of the walk, true after some number of calls from `lo` to `hi`, as by
    /// [`Cursor::step`](crate::Cursor::step).
    pub fn step<L: Ledger>(
        &self,
        pass: &mut Pass,
        walk: &mut Cursor,
        steps: &mut Steps<L>,
    ) -> Read<Option<Range>>
        requires pass { IsPassOf self.now pass.old }
        requires walk { IsWalkOf pass.old walk.old }
        ensures of { IsPassOf self.now pass.new }
        ensures walk { IsWalkOf pass.new walk.new }
        ensures walked { HasWalked self.now pass.old walk.old result pass.new walk.new }
        ensures counted { IsCounted pass.old pass.new steps.old steps.new }
        ensures steps { steps.new ≤ steps.old + 220 }
    {
        walk.step(&self.table, pass, steps)
    }

    /// Closes the section and keeps the place alone: the next step opens a section and walks again.
    pub fn pause<L: Ledger>(&self, pass: &mut Pass, walk: &mut Cursor, steps: &mut Steps<L>)
        requires pass { IsPassOf self.now pass.old }
        ensures of { IsPassOf self.now pass.new }
        ensures walk { IsWalkOf pass.new walk.new }
        ensures halted { HasHalted pass.old walk.old pass.new walk.new }
        ensures counted { IsCounted pass.old pass.new steps.old steps.new }
        ensures steps { steps.new ≡ steps.old + 1 }
    {
        walk.pause(&self.table, pass, steps);
    }

    /// Goes on to the next range, as `step` does, in steps that nobody counts.
    pub fn advance(&self, pass: &mut Pass, walk: &mut Cursor) -> Read<Option<Range>>
        requires pass { IsPassOf self.now pass.old }
        requires walk { IsWalkOf pass.old walk.old }
        ensures of { IsPassOf self.now pass.new }
        ensures walk { IsWalkOf pass.new walk.new }
        ensures walked { HasWalked self.now pass.old walk.old result pass.new walk.new }
    {
        go_on::<Brand>(self, pass, walk, Blank::new(1))
    }

    /// Closes the section and keeps the place, as `pause` does, by a step that nobody counts.
    pub fn halt(&self, pass: &mut Pass, walk: &mut Cursor)
        requires pass { IsPassOf self.now pass.old }
        ensures of { IsPassOf self.now pass.new }
        ensures walk { IsWalkOf pass.new walk.new }
        ensures halted { HasHalted pass.old walk.old pass.new walk.new }
    {
        stand::<Brand>(self, pass, walk, Blank::new(1));
    }
}

/// Goes on by one step.
fn go_on<L: Ledger>(
    tree: &Tree,
    pass: &mut Pass,
    walk: &mut Cursor,
    blank: Blank,
) -> Read<Option<Range>>
    requires blank { IsBlankOf L.name L.parts blank.name blank.parts }
    requires pass { IsPassOf tree.now pass.old }
    requires walk { IsWalkOf pass.old walk.old }
    ensures of { IsPassOf tree.now pass.new }
    ensures walk { IsWalkOf pass.new walk.new }
    ensures walked { HasWalked tree.now pass.old walk.old result pass.new walk.new }
{
    let mut steps = Steps::<L>::new(blank);
    tree.step(pass, walk, &mut steps)
}

/// Closes the section.
fn stand<L: Ledger>(tree: &Tree, pass: &mut Pass, walk: &mut Cursor, blank: Blank)
    requires blank { IsBlankOf L.name L.parts blank.name blank.parts }
    requires pass { IsPassOf tree.now pass.old }
    ensures of { IsPassOf tree.now pass.new }
    ensures walk { IsWalkOf pass.new walk.new }
    ensures halted { HasHalted pass.old walk.old pass.new walk.new }
{
    let mut steps = Steps::<L>::new(blank);
    tree.pause(pass, walk, &mut steps);
}
