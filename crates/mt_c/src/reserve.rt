//! Calls that keep a tree's reserve, by which it can always be emptied.

ghost use Rattle.std.specs.Prelude.{◌≡◌, IfSome};
ghost use Rattle.mt_base.specs.declared.calls.Call.TheVariants.{Store, Insert, Alloc, Ralloc};
ghost use Rattle.mt_tree.specs.Reserve.{IsReserveVerdict, range_count};
ghost use Rattle.mt_c.specs.Calls.{IsAsked};
ghost use Rattle.mt_c.specs.Reserve.{KeepsAlone, KeepsCall, MadeInReserve};

use crate::handle::TreeHandle;
use crate::own_tree::OwnTree;
use crate::preparing::{pre_status, pre_word};
use crate::told::EBADF;
use core::mem::replace_with;
use mt_base::{Call, Kind, Reply};
use mt_engine::Engine;
use mt_rows::PlainRows;
use mt_tree::{ReserveVerdict, verdict_of};
use std::alloc::Global;

/// The verdict on a call, by an engine of this kind that has this many ranges, if that is known.
#[tactic(auto, using(crate::proofs::Reading::asked_as))]
fn judged(
    engine: Engine<PlainRows>,
    by: (Kind, Option<u64>, Call),
) -> (Engine<PlainRows>, ReserveVerdict)
    requires kind { by.0 ≡ engine.kind }
    requires known { IfSome by.1 (λ n. n ≡ range_count engine) }
    ensures rest { IsAsked engine result.0 }
    ensures verdict { IsReserveVerdict engine by.2 result.1 }
{
    let (kind, known, call) = by;
    verdict_of(engine, kind, known, &call)
}

/// As `judged`, of an engine that stays in its place.
fn judge(
    engine: &mut Engine<PlainRows>,
    kind: Kind,
    known: Option<u64>,
    call: &Call,
) -> ReserveVerdict
    requires kind { kind ≡ engine.old.kind }
    requires known { IfSome known (λ n. n ≡ range_count engine.old) }
    ensures rest { IsAsked engine.old engine.new }
    ensures verdict { IsReserveVerdict engine.old call.now result }
{
    replace_with(engine, (kind, known, *call), judged)
}

impl OwnTree {
    /// The verdict on a call. What is found of the number of ranges is kept.
    fn verdict(&mut self, call: &Call) -> ReserveVerdict
        ensures verdict { IsReserveVerdict self.old.engine call.now result }
        ensures rest { IsAsked self.old.engine self.new.engine }
    {
        let verdict = judge(&mut self.engine, self.kind, self.ranges, call);
        self.ranges = verdict.before;
        verdict
    }

    /// Makes one call, unless it breaks the reserve: then there is none.
    #[tactic(auto, using(crate::proofs::Reserving::made_kept, crate::proofs::Reserving::not_made, crate::proofs::Reserving::after_on))]
    fn act_kept(&mut self, call: &Call) -> Option<Option<Reply>>
        ensures { MadeInReserve self.old.engine self.new.engine call.now result }
    {
        let verdict = self.verdict(call);
        if verdict.breaks {
            return None;
        }
        Some(self.act_counted(call, verdict.after))
    }
}

/// Makes one call of what C keeps, unless it breaks the reserve: the number and the word that C gets.
#[tactic(auto, using(crate::proofs::Reserving::kept_open))]
fn kept(alloc: Global, tree: &mut TreeHandle, call: &Call) -> (u32, u64)
    ensures { KeepsCall call.now tree.old.kept.value tree.new.kept.value result.0 result.1 }
{
    let Some(mut whole) = tree.take(alloc) else {
        return (EBADF, 0);
    };
    let made = whole.act_kept(call);
    tree.put(whole);
    (pre_status(made), pre_word(made))
}

/// Stores as `maple_store`, and keeps the reserve: it is not made if it adds ranges, and the nodes are not surely enough for those
/// that there are then.
#[unsafe(no_mangle)]
pub extern "C" fn maple_store_kept(
    alloc: Global,
    tree: &mut TreeHandle,
    first: u64,
    last: u64,
    entry: u64,
    old: &mut u64,
) -> u32
    ensures { KeepsCall (Store first last entry)
        tree.old.kept.value tree.new.kept.value result old.new }
{
    let (status, word) = kept(alloc, tree, &Call::Store { first, last, entry });
    *old = word;
    status
}

/// As `maple_insert`, and keeps the reserve for a range more.
#[unsafe(no_mangle)]
pub extern "C" fn maple_insert_kept(
    alloc: Global,
    tree: &mut TreeHandle,
    first: u64,
    last: u64,
    entry: u64,
) -> u32
    ensures { KeepsAlone (Insert first last entry) tree.old.kept.value tree.new.kept.value result }
{
    let (status, _word) = kept(alloc, tree, &Call::Insert { first, last, entry });
    status
}

/// As `maple_alloc`, and keeps the reserve for a range more.
#[unsafe(no_mangle)]
pub extern "C" fn maple_alloc_kept(
    alloc: Global,
    tree: &mut TreeHandle,
    size: u64,
    min: u64,
    max: u64,
    entry: u64,
    start: &mut u64,
) -> u32
    ensures { KeepsCall (Alloc size min max entry)
        tree.old.kept.value tree.new.kept.value result start.new }
{
    let call = Call::Alloc {
        size,
        min,
        max,
        entry,
    };
    let (status, word) = kept(alloc, tree, &call);
    *start = word;
    status
}

/// As `maple_ralloc`, and keeps the reserve for a range more.
#[unsafe(no_mangle)]
pub extern "C" fn maple_ralloc_kept(
    alloc: Global,
    tree: &mut TreeHandle,
    size: u64,
    min: u64,
    max: u64,
    entry: u64,
    start: &mut u64,
) -> u32
    ensures { KeepsCall (Ralloc size min max entry)
        tree.old.kept.value tree.new.kept.value result start.new }
{
    let call = Call::Ralloc {
        size,
        min,
        max,
        entry,
    };
    let (status, word) = kept(alloc, tree, &call);
    *start = word;
    status
}
