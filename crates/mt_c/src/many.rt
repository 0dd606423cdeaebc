//! Many look-ups and many steps of a walk in one call.

ghost use Rattle.std.specs.Prelude.{◌≡◌, length, take};
ghost use Rattle.mt_rows.specs.Publish.{map_by};
ghost use Rattle.mt_engine.specs.Batches.{PutSteps, entries_at, put_first, steps_by};
ghost use Rattle.mt_engine.specs.RangeWalks.{WalksFrom};
ghost use Rattle.mt_c.specs.Calls.{IsAsked, range_out};
ghost use Rattle.mt_c.specs.Many.{HasSteppedMany, LoadedMany, SteppedMany};

use crate::handle::TreeHandle;
use crate::own_tree::OwnTree;
use crate::steps::OutWalk;
use crate::told::{EBADF, OutRange, many_status};
use mt_engine::{Engine, RangeWalk};
use mt_rows::PlainRows;
use std::alloc::Global;

/// Puts the ranges that a walk finds next into the places, as many as there are places for, and returns how many.
fn put_steps(engine: &mut Engine<PlainRows>, walk: &mut RangeWalk, ranges: &mut [OutRange]) -> usize
    requires { WalksFrom engine.old.sheet.tree walk.old }
    ensures put { PutSteps range_out
        (steps_by engine.old.sheet.tree (length ranges.old) walk.old.next)
        ranges.old ranges.new result walk.new.next }
    ensures walk { WalksFrom engine.new.sheet.tree walk.new }
    ensures rest { IsAsked engine.old engine.new }
{
    engine.step_many(walk, ranges)
}

impl OwnTree {
    /// The entries at these indexes, as far as there are places: 0 if an index lies in a hole. The place of the last walk is kept.
    fn load_many(&mut self, indexes: &[u64], entries: &mut [u64])
        ensures entries { entries.new ≡ put_first (entries_at (map_by self.old.engine.sheet.tree)
            (take (length entries.old) indexes.now)) entries.old }
        ensures rest { IsAsked self.old.engine self.new.engine }
        ensures place { self.new.place ≡ self.old.place }
    {
        self.engine.load_many(indexes, entries);
    }

    /// Makes as many steps from an index on as there are places, and returns how many ranges they found.
    #[tactic(auto, using(crate::proofs::ManySteps::stepped_many))]
    fn step_many(&mut self, index: Option<u64>, ranges: &mut [OutRange]) -> usize
        ensures { HasSteppedMany self.old self.new index ranges.old ranges.new result }
    {
        self.stand_at(index);
        let mut here = self.place;
        let count = put_steps(&mut self.engine, &mut here, ranges);
        self.place = here;
        count
    }
}

/// Writes the entries at these indexes, as far as there are places: 0 if an index lies in a hole.
#[tactic(auto, using(crate::proofs::ManySteps::loaded_open, crate::proofs::ManySteps::loaded_closed))]
#[unsafe(no_mangle)]
pub extern "C" fn maple_load_many(
    alloc: Global,
    tree: &mut TreeHandle,
    indexes: &[u64],
    entries: &mut [u64],
) -> u32
    ensures { LoadedMany
        indexes.now tree.old.kept.value tree.new.kept.value result entries.old entries.new }
{
    let Some(mut whole) = tree.take(alloc) else {
        return EBADF;
    };
    whole.load_many(indexes, entries);
    tree.put(whole);
    0
}

/// Writes the next ranges of a walk, as many as there are places for, and how many they are. The walk goes on after them.
#[tactic(auto, using(crate::proofs::ManySteps::stepped_open, crate::proofs::ManySteps::stepped_closed))]
#[unsafe(no_mangle)]
pub extern "C" fn maple_step_many(
    alloc: Global,
    tree: &mut TreeHandle,
    walk: &mut OutWalk,
    ranges: &mut [OutRange],
    count: &mut usize,
) -> u32
    ensures { SteppedMany walk.old tree.old.kept.value
        tree.new.kept.value result ranges.old ranges.new count.new walk.new }
{
    *count = 0;
    let Some(mut whole) = tree.take(alloc) else {
        return EBADF;
    };
    let found = whole.step_many(walk.index(), ranges);
    let next = whole.behind();
    tree.put(whole);
    *walk = OutWalk::from_index(next);
    *count = found;
    many_status(found, next)
}
