//! Trees of nodes that threads share, as a player makes them.

ghost use Rattle.std.specs.Prelude.{◌≡◌, ◌≢◌, ◌↔◌, ◌⊎◌, ◌<◌, ℕ, ◌+◌, ◌≤◌, Err, None, Some, IfOk};
ghost use Rattle.mt_base.specs.Passes as known;
ghost use Rattle.mt_base.specs.Width.{most_rows};
ghost use Rattle.mt_rows.specs.Memory.{sheet_in};
ghost use Rattle.mt_rows.specs.Publish.{map_by, IsLawfulOf};
ghost use Rattle.mt_rows.specs.Sheet.{OnlyReads};
ghost use Rattle.mt_replay.specs.Trees.{player_passes};
ghost use Rattle.mt_base.specs.Limits.{fewest_rows, most_calls};
ghost use Rattle.mt_tree.specs.Trees.{IsNew, IsPassOf, limit_of, map_seen, opened, pass_in, passes_of, steps_made};
ghost use Rattle.mt_tree.specs.declared.shapes.Field.{Field};
ghost use Rattle.mt_tree.specs.Shapes.{first_bad};
ghost use Rattle.mt_tree.specs.Zeros.{Serve};

use crate::walks::scan_by;
use mt_base::{Call, Done, Kind, MOST_ROWS, NoMemory, Query, Range, Read, Worn};
use mt_desks::{Passage, Shared};
use mt_log::Entry;
use mt_replay::Plays;
use mt_tree::{DupError, MOST_CALLS, MakeError, Pass, PlainRows, Shape, Tree, Zeros};
use std::alloc::Global;
use std::sync::Wait;

/// A tree that the lanes share. It takes as many calls as a tree may.
#[derive(Drop)]
pub struct LaneTree {
    pub tree: Tree,
    ghost calls: { limit_of tree ≡ most_calls },
}

/// What a query finds, without the lock. A neighbour is looked for under it where the leaf of the index was found marked as dead.
fn look<R: Wait>(tree: &Tree, rt: &R, pass: &mut Pass, query: &Query) -> Read<Option<Range>>
    requires { IsPassOf tree.now pass.old }
    ensures of { IsPassOf tree.now pass.new }
    ensures read { (k : ℕ) × known.Read (opened tree.now) (pass_in pass.old) result.lo result.hi k query.now result.value (pass_in pass.new) }
    ensures closed { (pass_in pass.new).standing ≡ None }
    ensures few { steps_made pass.new ≤ steps_made pass.old + 360 }
{
    match tree.ask(pass, query) {
        Ok(read) => read,
        Err(_) => ask_under_lock(tree, rt, pass, query),
    }
}

/// The answer of a query under the lock.
fn ask_under_lock(
    tree: &Tree,
    rt: &impl Wait,
    pass: &mut Pass,
    query: &Query,
) -> Read<Option<Range>>
    requires of { IsPassOf tree.now pass.old }
    ensures of { IsPassOf tree.now pass.new }
    ensures read { (k : ℕ) × known.Read (opened tree.now) (pass_in pass.old) result.lo result.hi k query.now result.value (pass_in pass.new) }
    ensures standing { (pass_in pass.new).standing ≡ (pass_in pass.old).standing }
    ensures rests { steps_made pass.new ≡ steps_made pass.old }
{
    let mut write = tree.lock(rt, pass);
    let read = write.ask(query);
    write.unlock();
    read
}

/// A copy of a tree of this shape, and its handles. What the look at the tree showed beside that is let go.
fn duplicated(
    tree: &Tree,
    rt: &impl Wait,
    alloc: Global,
    pass: &mut Pass,
    shape: Shape,
) -> Result<(Tree, Vec<Pass>), DupError>
    requires { IsPassOf tree.now pass.old }
    ensures of { IsPassOf tree.now pass.new }
    ensures pass { (pass_in pass.new ≡ pass_in pass.old) ⊎ known.Saw (opened tree.now) (pass_in pass.old) (pass_in pass.new) }
    ensures bad { (field : Field) → (result ≡ Err (DupError.BadShape field)) ↔ (first_bad shape ≡ Some field) }
    ensures invalid { (result ≡ Err DupError.Invalid) ↔ ((first_bad shape ≡ None) × (shape.kind ≢ (opened tree.now).kind)) }
    ensures enough { (told live : ℕ) → result ≡ Err (DupError.NoNodes told live) → shape.rows < (opened tree.now).rows }
    ensures new { IfOk result (λ made. IsNew shape (map_seen tree.now (pass_in pass.new)) made.0 made.1.items) }
{
    let (made, _look) = tree.dup(rt, alloc, pass, shape);
    made
}

impl LaneTree {
    ghost use Rattle.std.specs.Prelude.{map};
    ghost use Rattle.mt_replay.specs.Trees.{AreAll, IsNewTree};

    /// A tree of this kind that opens with the map of these nodes, which are only read; and its only handle. The tree has as
    /// many nodes as a tree may have.
    ///
    /// # Errors
    ///
    /// `NoMemory` where memory ran out.
    pub fn of_rows(
        alloc: Global,
        kind: Kind,
        rows: &mut PlainRows,
    ) -> Result<(LaneTree, Vec<Pass>), NoMemory>
        requires { IsLawfulOf (sheet_in rows.old).tree kind }
        ensures new { IfOk result (λ made. IsNewTree kind most_rows (map_by (sheet_in rows.old).tree) 1
            (⟦<LaneTree as Shared<Pass>>⟧.tree made.0) (map ⟦<Pass as Passage>⟧.knows made.1.items)) }
        ensures all { IfOk result (λ made. AreAll ⟦<Pass as Passage>⟧.knows ⟦<LaneTree as Shared<Pass>>⟧.serves 1 made.0 made.1.items) }
        ensures many { IfOk result (λ made. passes_of made.0.tree ≡ 1) }
        ensures rest { OnlyReads (sheet_in rows.old) (sheet_in rows.new) }
    {
        let shape = Shape {
            kind,
            rows: MOST_ROWS,
            passes: 1,
            calls: MOST_CALLS,
        };
        match Tree::of_rows(alloc, shape, kind, rows) {
            Ok((tree, passes)) => Ok((LaneTree { tree }, passes)),
            Err(DupError::NoMemory) => Err(NoMemory),
            Err(DupError::BadShape { .. }) => unreachable!(),
            Err(DupError::Invalid) => unreachable!(),
            Err(DupError::NoNodes { .. }) => unreachable!(),
        }
    }
}

impl Shared<Pass> for LaneTree {
    ghost tree = { λ t. record { history = opened t.tree; most = limit_of t.tree } };

    ghost serves = { λ t p. IsPassOf t.tree p };

    fn act<R: Wait>(&self, rt: &R, pass: &mut Pass, call: &Call) -> Result<Done, Worn> {
        self.tree.act(rt, pass, call)
    }

    fn ask<R: Wait>(&self, rt: &R, pass: &mut Pass, query: &Query) -> Read<Option<Range>> {
        look(&self.tree, rt, pass, query)
    }

    fn scan(
        &self,
        pass: &mut Pass,
        line: u64,
        index: u64,
        max: u64,
        count: u32,
        room: &mut Vec<Entry>,
    ) {
        let mut cursor = self.tree.cursor(pass, index, max);
        scan_by(self, &mut cursor, line, count, room);
    }
}

impl Plays<Pass> for LaneTree {
    type Zeros = Zeros;

    ghost many = { λ t. passes_of t.tree };

    ghost zeros_serve = { λ zeros kind rows. Serve zeros.words.items kind rows };

    fn zeros(alloc: Global, kinds: &[Kind], rows: u64) -> Result<Zeros, NoMemory> {
        Zeros::new(alloc, kinds, rows)
    }

    fn make(
        alloc: Global,
        kind: Kind,
        rows: u64,
        passes: u32,
        zeros: &Zeros,
    ) -> Result<(Self, Vec<Pass>), NoMemory> {
        let shape = Shape {
            kind,
            rows,
            passes,
            calls: MOST_CALLS,
        };
        match Tree::make_over(alloc, shape, zeros) {
            Ok((tree, passes)) => Ok((LaneTree { tree }, passes)),
            Err(MakeError::NoMemory) => Err(NoMemory),
            Err(MakeError::BadShape { .. }) => unreachable!(),
        }
    }

    fn copy<R: Wait>(
        &self,
        rt: &R,
        alloc: Global,
        pass: &mut Pass,
    ) -> Result<(Self, Vec<Pass>), NoMemory> {
        match duplicated(&self.tree, rt, alloc, pass, self.tree.shape()) {
            Ok((tree, passes)) => Ok((LaneTree { tree }, passes)),
            Err(DupError::NoMemory) => Err(NoMemory),
            Err(DupError::BadShape { .. }) => unreachable!(),
            Err(DupError::Invalid) => unreachable!(),
            Err(DupError::NoNodes { .. }) => unreachable!(),
        }
    }

    fn check<R: Wait>(&self, rt: &R, pass: &mut Pass) -> u64 {
        let (form, _look) = self.tree.check(rt, pass);
        form.ranges
    }

    fn calls<R: Wait>(&self, rt: &R, pass: &mut Pass) -> u64 {
        let mut write = self.tree.lock(rt, pass);
        let read = write.ask(&Query::Load { index: 0 });
        write.unlock();
        read.lo
    }

    fn list<R: Wait>(
        &self,
        rt: &R,
        alloc: Global,
        pass: &mut Pass,
    ) -> Result<Vec<Range>, NoMemory> {
        let mut write = self.tree.lock(rt, pass);
        let ranges = write.list(alloc);
        write.unlock();
        ranges
    }

    fn image<R: Wait>(&self, rt: &R, alloc: Global, pass: &mut Pass) -> Result<Vec<u8>, NoMemory> {
        let (image, _look) = self.tree.image(rt, alloc, pass);
        image
    }

    fn settle<R: Wait>(&self, rt: &R, passes: &mut [Pass]) {
        self.tree.settle(rt, passes);
    }
}
