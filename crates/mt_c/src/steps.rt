//! Walks by ranges, whose place the tree keeps.

ghost use Rattle.std.specs.Prelude.{◌≡◌, None, Option};
ghost use Rattle.mt_base.specs.Width.{greatest};
ghost use Rattle.mt_rows.specs.Sheet.{Rooted};
ghost use Rattle.mt_engine.specs.RangeWalks.{WalksFrom};
ghost use Rattle.mt_c.specs.Calls.{found_status, out_of};
ghost use Rattle.mt_c.specs.Walking.{IsStepped, HasSteppedOn, walk_index, walk_start, last_index_of, walk_from};

use crate::handle::TreeHandle;
use crate::own_tree::OwnTree;
use crate::told::{EBADF, ENOENT, OutRange, no_range};
use mt_base::Range;
use mt_engine::{Engine, RangeWalk};
use mt_rows::PlainRows;
use std::alloc::Global;

/// A walk as C has it: `struct maple_walk`. Zeroed it is before the first range.
#[repr(C)]
#[derive(Clone, Copy, Debug, PartialEq, Eq)]
pub struct OutWalk {
    pub next: u64,
    pub ended: u64,
}

impl OutWalk {
    /// The walk that goes on from an index, or has ended.
    pub fn from_index(index: Option<u64>) -> OutWalk
        ensures { result ≡ walk_from index }
    {
        match index {
            Some(next) => OutWalk { next, ended: 0 },
            None => OutWalk { next: 0, ended: 1 },
        }
    }

    /// The index from which it goes on.
    pub fn index(&self) -> Option<u64>
        ensures { result ≡ walk_index self.now }
    {
        if self.ended == 0 {
            Some(self.next)
        } else {
            None
        }
    }
}

/// A walk that has ended, which is one of every tree.
pub fn ended() -> RangeWalk
    ensures next { result.next ≡ None }
    ensures walk { (t : Rooted) → WalksFrom t result }
{
    RangeWalk {
        next: None,
        last: None,
    }
}

/// The place from which a walk goes on whose leaf is not known.
fn place_at(engine: &Engine<PlainRows>, index: Option<u64>) -> RangeWalk
    ensures walk { WalksFrom engine.now.sheet.tree result }
    ensures next { result.next ≡ walk_start (greatest engine.now.sheet.tree.table.width) index }
{
    match index {
        Some(index) => engine.walk_from(index),
        None => ended(),
    }
}

impl OwnTree {
    /// The tree keeps the place of an index from then on: it stays where that is the one that is kept, leaf and all.
    #[tactic(auto, using(crate::proofs::Walking::kept_start))]
    pub fn stand_at(&mut self, index: Option<u64>)
        ensures engine { self.new.engine ≡ self.old.engine }
        ensures next { self.new.place.next ≡ walk_start (last_index_of self.old) index }
        ensures kept { self.old.place.next ≡ index → self.new.place ≡ self.old.place }
    {
        if self.place.next == index {
            return;
        }
        self.place = place_at(&self.engine, index);
    }

    /// The first range that ends at an index or above; the walk then goes on after it.
    pub fn step(&mut self, index: Option<u64>) -> Option<Range>
        ensures { IsStepped self.old self.new index result }
    {
        self.stand_at(index);
        self.engine.next_range(&mut self.place)
    }

    /// The index after the range that was returned last.
    pub fn behind(&self) -> Option<u64>
        ensures { result ≡ self.now.place.next }
    {
        self.place.next
    }
}

/// Gives C what a step found, and the place after it, and the number that it gets.
pub fn tell(
    found: Option<Range>,
    behind: Option<u64>,
    range: &mut OutRange,
    walk: &mut OutWalk,
) -> u32
    ensures status { result ≡ found_status found }
    ensures range { range.new ≡ out_of found }
    ensures walk { walk.new ≡ walk_from behind }
{
    let Some(Range { first, last, entry }) = found else {
        *range = no_range();
        *walk = OutWalk::from_index(behind);
        return ENOENT;
    };
    *range = OutRange { first, last, entry };
    *walk = OutWalk::from_index(behind);
    0
}

/// Returns the next range of a walk, which goes on after it. What the tree keeps of the last walk is used if this is that one,
/// so a call between two steps does no harm.
#[tactic(auto, using(crate::proofs::Walking::stepped_open, crate::proofs::Walking::stepped_closed))]
#[unsafe(no_mangle)]
pub extern "C" fn maple_step(
    alloc: Global,
    tree: &mut TreeHandle,
    walk: &mut OutWalk,
    range: &mut OutRange,
) -> u32
    ensures { HasSteppedOn
        walk.old tree.old.kept.value tree.new.kept.value result range.new walk.new }
{
    let Some(mut whole) = tree.take(alloc) else {
        *range = no_range();
        return EBADF;
    };
    let found = whole.step(walk.index());
    let behind = whole.behind();
    tree.put(whole);
    tell(found, behind, range, walk)
}
