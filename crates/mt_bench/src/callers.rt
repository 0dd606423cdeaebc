//! The tree that threads share, as works call it.

ghost use Rattle.std.specs.Prelude.{◌≡◌, ◌<◌, All};
ghost use Rattle.std.specs.Arc.{arc_value};
ghost use Rattle.mt_base.specs.Blanks.{IsBlankOf};
ghost use Rattle.mt_tree.specs.Trees.{IsPassOf};

use crate::trees::{TimedTree, Visit};
use mt_base::{Call, Kind, Reply, Steps};
use mt_tree::{Cursor, Form, MOST_CALLS, Pass, Shape};
use std::alloc::Global;
use std::marker::Brand;
use std::sync::ledger::{Blank, Ledger};
use std::sync::{Arc, Wait};

/// The entry at an index, or 0, in a number of steps that is counted.
fn load_counted<L: Ledger>(tree: &mt_tree::Tree, pass: &mut Pass, index: u64, blank: Blank) -> u64
    requires of { IsPassOf tree.now pass.old }
    requires blank { IsBlankOf L.name L.parts blank.name blank.parts }
    ensures { IsPassOf tree.now pass.new }
{
    let mut steps = Steps::<L>::new(blank);
    tree.load(pass, index, &mut steps).value.unwrap_or(0)
}

/// Puts the entries at these indexes, by one batch, in a number of steps that is counted.
fn load_many_counted<L: Ledger>(
    tree: &mt_tree::Tree,
    pass: &mut Pass,
    indexes: &[u64],
    entries: &mut [u64],
    blank: Blank,
)
    requires of { IsPassOf tree.now pass.old }
    requires name { blank.name ≡ L.name }
    requires parts { blank.parts ≡ L.parts }
    requires some { 0 < blank.parts }
    ensures { IsPassOf tree.now pass.new }
{
    let mut steps = Steps::<L>::new(blank);
    tree.load_many(pass, indexes, entries, &mut steps);
}

/// Takes each range that a cursor finds, until it finds none.
fn take_all<L: Ledger>(cursor: &mut Cursor<'_>, steps: &mut Steps<L>) -> Visit
    ensures same_reference { cursor.new.pass.ghost_name ≡ cursor.old.pass.ghost_name }
    ensures tree { cursor.new.tree ≡ cursor.old.tree }
{
    let mut visit = Visit::default();
    for _ in 0..u64::MAX {
        let Some(range) = cursor.step(steps).value else {
            break;
        };
        visit.take(&range);
    }
    visit
}

/// Visits all ranges in order by one cursor, in a number of steps that is counted.
fn visit_counted<L: Ledger>(tree: &mt_tree::Tree, pass: &mut Pass, blank: Blank) -> Visit
    requires of { IsPassOf tree.now pass.old }
    requires blank { IsBlankOf L.name L.parts blank.name blank.parts }
    ensures { IsPassOf tree.now pass.new }
{
    let mut steps = Steps::<L>::new(blank);
    let mut cursor = tree.cursor(pass, 0, u64::MAX);
    let visit = take_all(&mut cursor, &mut steps);
    cursor.close(&mut steps);
    visit
}

/// A shape with as many calls as there can be.
fn shape_of(kind: Kind, rows: u64, passes: u32) -> Shape {
    Shape {
        kind,
        rows,
        passes,
        calls: MOST_CALLS,
    }
}

/// A pass (handle) and its tree, which make the calls of a work.
#[derive(Drop)]
pub struct TimedCaller<'a, R> {
    rt: &'a R,
    tree: Arc<mt_tree::Tree>,
    pass: Pass,
    ghost of: { IsPassOf (arc_value tree) pass },
}

impl<'a, R> TimedCaller<'a, R> {
    /// The caller of a handle, or none if too many share the tree.
    fn new(rt: &'a R, shared: &Arc<mt_tree::Tree>, pass: Pass) -> Option<Self>
        requires { IsPassOf (arc_value shared.now) pass }
    {
        let Ok(tree) = Arc::try_clone(shared) else {
            return None;
        };
        Some(TimedCaller { rt, tree, pass })
    }

    /// A caller for each handle, or none if there is no memory.
    fn each(
        rt: &'a R,
        alloc: Global,
        shared: &Arc<mt_tree::Tree>,
        passes: Vec<Pass>,
    ) -> Option<Vec<Self>>
        requires { All (IsPassOf (arc_value shared.now)) passes.items }
    {
        let mut callers = Vec::new(alloc);
        for pass in passes {
            callers.push(TimedCaller::new(rt, shared, pass)?).ok()?;
        }
        Some(callers)
    }

    /// The callers of a tree.
    fn sharing(
        rt: &'a R,
        alloc: Global,
        tree: mt_tree::Tree,
        passes: Vec<Pass>,
    ) -> Option<Vec<Self>>
        requires { All (IsPassOf tree) passes.items }
    {
        let Ok(shared) = Arc::new(alloc, tree) else {
            return None;
        };
        TimedCaller::each(rt, alloc, &shared, passes)
    }

    /// So many callers of an empty tree of this kind with so many nodes, or none where there is no memory.
    pub fn all(rt: &'a R, alloc: Global, kind: Kind, rows: u64, passes: u32) -> Option<Vec<Self>> {
        let shape = shape_of(kind, rows, passes);
        let Ok((tree, passes)) = mt_tree::Tree::make(alloc, shape) else {
            return None;
        };
        TimedCaller::sharing(rt, alloc, tree, passes)
    }
}

impl<'a, R: Wait> TimedCaller<'a, R> {
    /// The form of the tree's words.
    pub fn check(&mut self) -> Form {
        let (form, _look) = self.tree.check(self.rt, &mut self.pass);
        form
    }

    /// A copy in `rows` nodes, or none if there was no room.
    pub fn dup(&mut self, alloc: Global, rows: u64) -> Option<mt_tree::Tree> {
        let shape = shape_of(self.tree.shape().kind, rows, 1);
        let (copied, _look) = self.tree.dup(self.rt, alloc, &mut self.pass, shape);
        Some(copied.ok()?.0)
    }

    /// An image of the tree, or none where there was no room.
    pub fn image(&mut self, alloc: Global) -> Option<Vec<u8>> {
        let (image, _look) = self.tree.image(self.rt, alloc, &mut self.pass);
        image.ok()
    }
}

impl<'a, R: Wait> TimedTree for TimedCaller<'a, R> {
    /// A tree that has as many calls as it may have answers as if the call was invalid.
    fn act(&mut self, call: &Call) -> Reply {
        match self.tree.act(self.rt, &mut self.pass, call) {
            Ok(done) => done.reply,
            Err(_) => Reply::Invalid,
        }
    }

    fn load(&mut self, index: u64) -> u64 {
        load_counted::<Brand>(&self.tree, &mut self.pass, index, Blank::new(1))
    }

    fn load_many(&mut self, indexes: &[u64], entries: &mut [u64]) {
        load_many_counted::<Brand>(&self.tree, &mut self.pass, indexes, entries, Blank::new(1));
    }

    fn visit(&mut self) -> Visit {
        visit_counted::<Brand>(&self.tree, &mut self.pass, Blank::new(1))
    }

    /// One step after the other.
    fn visit_many(&mut self) -> Visit {
        self.visit()
    }
}
