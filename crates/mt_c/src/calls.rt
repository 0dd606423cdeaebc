//! Calls and queries of what C keeps.

ghost use Rattle.mt_c.specs.Calls.{AnswersCall, AnswersQuery, EntryTold, no_told, told_in_c};

use crate::handle::TreeHandle;
use crate::own_tree::OwnTree;
use crate::told::{EBADF, OutRange, ToldCall, found_status, no_range, out_of, told_in_c};
use mt_base::{Call, Query};
use std::alloc::Global;

/// Makes one call of what C keeps.
#[tactic(auto, using(crate::proofs::Telling::called_open, crate::proofs::Telling::called_closed))]
pub fn call(alloc: Global, tree: &mut TreeHandle, call: &Call) -> ToldCall
    ensures { AnswersCall no_told
        told_in_c call.now tree.old.kept.value tree.new.kept.value result.status result }
{
    let Some(mut whole) = tree.take(alloc) else {
        return ToldCall {
            status: EBADF,
            word: 0,
            range: no_range(),
        };
    };
    let made = whole.act(call);
    tree.put(whole);
    told_in_c(made)
}

/// Asks one query of what C keeps.
#[tactic(auto, using(crate::proofs::Telling::asked_open, crate::proofs::Telling::asked_closed))]
pub fn ask(alloc: Global, tree: &mut TreeHandle, query: &Query, range: &mut OutRange) -> u32
    ensures { AnswersQuery query.now tree.old.kept.value tree.new.kept.value result range.new }
{
    let Some(mut whole) = tree.take(alloc) else {
        *range = no_range();
        return EBADF;
    };
    let found = whole.ask(query);
    tree.put(whole);
    *range = out_of(found);
    found_status(found)
}

/// Tells the entry that an index holds.
#[tactic(auto, using(crate::proofs::Telling::entry_open, crate::proofs::Telling::entry_closed))]
pub fn entry(alloc: Global, tree: &mut TreeHandle, index: u64) -> u64
    ensures { EntryTold index tree.old.kept.value tree.new.kept.value result }
{
    let Some(mut whole) = tree.take(alloc) else {
        return 0;
    };
    let found = whole.load(index);
    tree.put(whole);
    found.unwrap_or(0)
}
