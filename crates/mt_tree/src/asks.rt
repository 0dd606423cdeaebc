//! Reads without the lock whose steps nobody counts: they ask for no `Steps`.

ghost use Rattle.std.specs.Prelude.{◌≡◌, IfErr};
ghost use Rattle.mt_base.specs.Blanks.{IsBlankOf};
ghost use Rattle.mt_tree.specs.Asks.{HasSought, IsForNeighbour};
ghost use Rattle.mt_tree.specs.Trees.{IsPassOf};
ghost use Rattle.mt_tree.specs.Walks.{HasHalted, HasWalked};

use crate::cursors::Cursor;
use crate::trees::Tree;
use mt_base::{Query, Range, Read, Steps};
use mt_read::Moved;
use mt_rule::Pass;
use std::marker::Brand;
use std::sync::ledger::{Blank, Ledger};

/// Answers one query by the read of its name.
fn seek<L: Ledger>(
    tree: &Tree,
    pass: &mut Pass,
    query: &Query,
    blank: Blank,
) -> Result<Read<Option<Range>>, Moved>
    requires of { IsPassOf tree.now pass.old }
    requires blank { IsBlankOf L.name L.parts blank.name blank.parts }
    ensures of { IsPassOf tree.now pass.new }
    ensures sought { HasSought tree.now pass.old query.now result pass.new }
    ensures neighbour { IfErr result (λ _. IsForNeighbour query.now) }
{
    let mut steps = Steps::<L>::new(blank);
    match query {
        Query::Load { index } => Ok(tree.load_range(pass, *index, &mut steps)),
        Query::Find { index, max } => Ok(tree.find(pass, *index, *max, &mut steps)),
        Query::Next { index, max } => tree.next(pass, *index, *max, &mut steps),
        Query::Prev { index, min } => tree.prev(pass, *index, *min, &mut steps),
        Query::Rfind { index, min } => tree.rfind(pass, *index, *min, &mut steps),
    }
}

impl Tree {
    /// Answers one query without the lock, as the read of its name does.
    ///
    /// # Errors
    ///
    /// `Moved` if a neighbour is asked for, and the leaf of the index, which has no answer, was found marked as dead after the
    /// one beside it was read. The caller asks again, or under the lock.
    pub fn ask(&self, pass: &mut Pass, query: &Query) -> Result<Read<Option<Range>>, Moved>
        requires { IsPassOf self.now pass.old }
        ensures of { IsPassOf self.now pass.new }
        ensures sought { HasSought self.now pass.old query.now result pass.new }
        ensures neighbour { IfErr result (λ _. IsForNeighbour query.now) }
    {
        seek::<Brand>(self, pass, query, Blank::new(1))
    }
}

/// Makes one step of a cursor.
fn step<L: Ledger>(cursor: &mut Cursor<'_>, blank: Blank) -> Read<Option<Range>>
    requires blank { IsBlankOf L.name L.parts blank.name blank.parts }
    ensures same_reference { cursor.new.pass.ghost_name ≡ cursor.old.pass.ghost_name }
    ensures tree { cursor.new.tree ≡ cursor.old.tree }
    ensures of { IsPassOf cursor.old.tree.now cursor.new.pass.now }
    ensures walked { HasWalked cursor.old.tree.now cursor.old.pass.now cursor.old.walk result cursor.new.pass.now cursor.new.walk }
{
    let mut steps = Steps::<L>::new(blank);
    cursor.step(&mut steps)
}

/// Closes the section of a cursor.
fn pause<L: Ledger>(cursor: &mut Cursor<'_>, blank: Blank)
    requires blank { IsBlankOf L.name L.parts blank.name blank.parts }
    ensures same_reference { cursor.new.pass.ghost_name ≡ cursor.old.pass.ghost_name }
    ensures tree { cursor.new.tree ≡ cursor.old.tree }
    ensures of { IsPassOf cursor.old.tree.now cursor.new.pass.now }
    ensures halted { HasHalted cursor.old.pass.now cursor.old.walk cursor.new.pass.now cursor.new.walk }
{
    let mut steps = Steps::<L>::new(blank);
    cursor.pause(&mut steps);
}

impl<'a> Cursor<'a> {
    ghost use Rattle.std.specs.Prelude.{◌≡◌, None};
    ghost use Rattle.mt_rule.specs.Tokens.{pass_in};
    ghost use Rattle.mt_tree.specs.Trees.{IsPassOf, Takes};
    ghost use Rattle.mt_tree.specs.Walks.{HasHalted, HasWalked};

    /// Goes on to the next range, as `step` does.
    pub fn advance(&mut self) -> Read<Option<Range>>
        ensures same_reference { self.new.pass.ghost_name ≡ self.old.pass.ghost_name }
        ensures tree { self.new.tree ≡ self.old.tree }
        ensures of { IsPassOf self.old.tree.now self.new.pass.now }
        ensures walked { HasWalked self.old.tree.now self.old.pass.now self.old.walk result self.new.pass.now self.new.walk }
    {
        step::<Brand>(self, Blank::new(1))
    }

    /// Closes the section and keeps the place, as `pause` does.
    pub fn halt(&mut self)
        ensures same_reference { self.new.pass.ghost_name ≡ self.old.pass.ghost_name }
        ensures tree { self.new.tree ≡ self.old.tree }
        ensures of { IsPassOf self.old.tree.now self.new.pass.now }
        ensures halted { HasHalted self.old.pass.now self.old.walk self.new.pass.now self.new.walk }
    {
        pause::<Brand>(self, Blank::new(1));
    }

    /// Ends the walk and returns the handle, as `close` does.
    pub fn end(self) -> &'a mut Pass
        ensures same_reference { result.ghost_name ≡ self.entry.pass.ghost_name }
        ensures of { IsPassOf self.entry.tree.now result.now }
        ensures closed { pass_in result.now ≡ record (pass_in self.entry.pass.now) { standing = None } }
        ensures takes { Takes 1 self.entry.pass.now result.now }
    {
        let mut cursor = self;
        cursor.halt();
        let Cursor { pass, .. } = cursor;
        pass
    }
}
