//! Walks over the ranges of a tree, without its lock.

ghost use Rattle.std.specs.Prelude.{◌≡◌, None};
ghost use Rattle.std.proofs.Props.{props};
ghost use Rattle.mt_read.specs.Cursors.{IsCursorOf};
ghost use Rattle.mt_base.specs.Places.{place_within};
ghost use Rattle.mt_rule.specs.Tokens.{part_of};
ghost use Rattle.mt_tree.specs.Cursors.{fills_prop, apart_prop, ends_prop};
ghost use Rattle.mt_tree.specs.Trees.{IsPassOf};

use crate::trees::Tree;
use mt_base::{Range, Read, Steps};
use mt_rule::Pass;
use std::sync::ledger::Ledger;

/// A walk of a pass (handle) over the ranges of a tree, from an index up to a bound, in one read-side section. It takes no
/// memory.
///
/// Nodes that die (are retired) while the section is open are not free before it is closed. So `close` a cursor that is done;
/// that returns the handle. `pause` one that should stay at its place while its thread does something else: its next step opens
/// a section again, and walks from the root. A cursor that is dropped or forgotten leaves its section open. The next read of
/// the handle opens a section of its own and closes it. If the handle is dropped too, it stays open for good.
#[derive(Drop)]
pub struct Cursor<'a> {
    pub(crate) tree: &'a Tree,
    pub(crate) pass: &'a mut Pass,
    pub(crate) walk: mt_read::Cursor,
    ghost of: { IsPassOf tree.now pass.now },
    ghost walks: { IsCursorOf (part_of pass.now) walk } by { Prim.hlevel (props, fills_prop, apart_prop, ends_prop) },
}

impl Tree {
    /// A walk over the ranges from an index up to a bound. It opens no section yet.
    pub fn cursor<'a>(&'a self, pass: &'a mut Pass, from: u64, max: u64) -> Cursor<'a>
        requires { IsPassOf self.now pass.old }
        ensures same_reference { result.pass.ghost_name ≡ pass.entry.ghost_name }
        ensures tree { result.tree.now ≡ self.now }
        ensures pass { result.pass.now ≡ pass.old }
        ensures at { result.walk.at ≡ place_within from max }
        ensures max { result.walk.max ≡ max }
        ensures leaf { result.walk.leaf ≡ None }
        ensures epoch { result.walk.epoch ≡ None }
    {
        Cursor {
            tree: self,
            pass,
            walk: mt_read::Cursor::new(from, max),
        }
    }
}

impl<'a> Cursor<'a> {
    ghost use Rattle.std.specs.Prelude.{◌≡◌, ◌+◌, ◌≤◌, None};
    ghost use Rattle.mt_rule.specs.Tokens.{pass_in, IsCounted};
    ghost use Rattle.mt_tree.specs.Trees.{IsPassOf, Takes};
    ghost use Rattle.mt_tree.specs.Walks.{HasHalted, HasWalked};

    /// Where the next step looks from. There is no place once the walk has ended.
    pub fn at(&self) -> Option<u64>
        ensures { result ≡ self.now.walk.at }
    {
        self.walk.at()
    }

    /// The next range of the walk, true after some number of calls from `lo` to `hi`. There is none if the walk has ended, or
    /// ends here. The section is open afterwards: a step opens it if it was not.
    pub fn step<L: Ledger>(&mut self, steps: &mut Steps<L>) -> Read<Option<Range>>
        ensures same_reference { self.new.pass.ghost_name ≡ self.old.pass.ghost_name }
        ensures tree { self.new.tree ≡ self.old.tree }
        ensures of { IsPassOf self.old.tree.now self.new.pass.now }
        ensures walked { HasWalked self.old.tree.now self.old.pass.now self.old.walk result self.new.pass.now self.new.walk }
        ensures counted { IsCounted self.old.pass.now self.new.pass.now steps.old steps.new }
        ensures steps { steps.new ≤ steps.old + 220 }
    {
        self.walk.step(&self.tree.table, self.pass, steps)
    }

    /// Closes the section, so that it holds no node, and keeps the place alone: the next step opens a section and walks again.
    pub fn pause<L: Ledger>(&mut self, steps: &mut Steps<L>)
        ensures same_reference { self.new.pass.ghost_name ≡ self.old.pass.ghost_name }
        ensures tree { self.new.tree ≡ self.old.tree }
        ensures of { IsPassOf self.old.tree.now self.new.pass.now }
        ensures halted { HasHalted self.old.pass.now self.old.walk self.new.pass.now self.new.walk }
        ensures counted { IsCounted self.old.pass.now self.new.pass.now steps.old steps.new }
        ensures steps { steps.new ≡ steps.old + 1 }
    {
        self.walk.pause(&self.tree.table, self.pass, steps);
    }

    /// Ends the walk, closes the section, and returns the handle.
    pub fn close<L: Ledger>(self, steps: &mut Steps<L>) -> &'a mut Pass
        ensures same_reference { result.ghost_name ≡ self.entry.pass.ghost_name }
        ensures of { IsPassOf self.entry.tree.now result.now }
        ensures closed { pass_in result.now ≡ record (pass_in self.entry.pass.now) { standing = None } }
        ensures counted { IsCounted self.entry.pass.now result.now steps.old steps.new }
        ensures takes { Takes 1 self.entry.pass.now result.now }
        ensures steps { steps.new ≡ steps.old + 1 }
    {
        let Cursor { tree, pass, walk } = self;
        walk.close(&tree.table, pass, steps);
        pass
    }
}
