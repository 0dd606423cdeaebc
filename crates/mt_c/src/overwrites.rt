//! Stores that return all ranges that they meet.

ghost use Rattle.mt_rows.specs.Publish.{map_by};
ghost use Rattle.mt_tree.specs.Overwrites.{TellsMet, ranges_met};
ghost use Rattle.mt_c.specs.Calls.{IsAsked, range_out};
ghost use Rattle.mt_c.specs.Overwrites.{StoredOver, StoresOver};

use crate::handle::TreeHandle;
use crate::own_tree::OwnTree;
use crate::told::{EBADF, OutRange, out_of, status_of, word_of};
use mt_base::{Call, Range, Reply};
use mt_tree::{RangePlace, tell_met};
use std::alloc::Global;

impl RangePlace for OutRange {
    ghost shows = { range_out };

    fn put(&mut self, range: Range) {
        *self = out_of(Some(range));
    }
}

impl OwnTree {
    /// Writes what a store over `first` to `last` meets, and returns how many ranges these are.
    fn tell_met(&mut self, first: u64, last: u64, met: &mut [OutRange]) -> u64
        ensures tells { TellsMet range_out
            (ranges_met (map_by self.old.engine.sheet.tree) first last) met.old met.new result }
        ensures rest { IsAsked self.old.engine self.new.engine }
    {
        tell_met(&mut self.engine, first, last, met)
    }

    /// Makes a store, and returns its reply and how many ranges it met.
    #[tactic(auto, using(crate::proofs::Overwriting::stores_over))]
    fn store_over(
        &mut self,
        first: u64,
        last: u64,
        entry: u64,
        met: &mut [OutRange],
    ) -> (Option<Reply>, u64)
        ensures { StoresOver first last entry met.old met.new result.1 self.old self.new result.0 }
    {
        let count = self.tell_met(first, last, met);
        let made = self.act(&Call::Store { first, last, entry });
        (made, count)
    }
}

/// As `maple_store`. `met` begins with the ranges that it met, as they were before it, as far as there is room, whatever it
/// returns. `count` is how many they are.
#[tactic(auto, using(crate::proofs::Overwriting::over_open, crate::proofs::Overwriting::over_closed))]
#[unsafe(no_mangle)]
pub extern "C" fn maple_store_over(
    alloc: Global,
    tree: &mut TreeHandle,
    first: u64,
    last: u64,
    entry: u64,
    met: &mut [OutRange],
    count: &mut u64,
    old: &mut u64,
) -> u32
    ensures { StoredOver first last entry
        met.old met.new count.new tree.old.kept.value tree.new.kept.value result old.new }
{
    let Some(mut whole) = tree.take(alloc) else {
        *count = 0;
        *old = 0;
        return EBADF;
    };
    let (made, told) = whole.store_over(first, last, entry, met);
    tree.put(whole);
    *count = told;
    *old = word_of(made);
    status_of(made)
}
