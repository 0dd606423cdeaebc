//! Whether the call numbers and the windows of a transcript are in order, which needs no map.

ghost use Rattle.std.specs.Prelude.{◌≡◌, ◌≤◌, ◌<◌, ◌+◌, ◌^◌, All, AllPairs, IfNone, IfOk, IfSome, false};
ghost use Rattle.mt_log.specs.Trees.{most_trees};
ghost use Rattle.mt_base.specs.Limits.{most_lanes};
ghost use Rattle.mt_judge.specs.Faults.{KeepsOrder, is_of_order, order_cause};
ghost use Rattle.mt_judge.specs.Orders.{IsFirstOut, IsInOrder};

use crate::causes::{Cause, FoundFault};
use crate::trees::{MOST_TREES, is_call_on};
use mt_base::NoMemory;
use mt_told::{ToldLine, What};
use mt_verify::windows_keep;
use std::alloc::Global;

/// The place of the first line that does not keep to those that it knows of, if one does not.
#[tactic(auto, using(crate::proofs::Firsts::order_of_none, crate::proofs::Firsts::first_found))]
fn first_out(told: &[ToldLine]) -> Option<usize>
    requires trees { All (λ t. t.tree < most_trees) told.now }
    requires lanes { All (λ t. t.lane < most_lanes) told.now }
    requires phases { AllPairs (λ s t. s.phase ≤ t.phase) told.now }
    ensures some { IfSome result (IsFirstOut told.now) }
    ensures fits { IfSome result (λ place. place + 1 < 2 ^ 64) }
    ensures none { IfNone result (IsInOrder told.now) }
{
    if windows_keep(told) {
        return None;
    }
    let count = told.len();
    if count == 0 {
        return None;
    }
    let mut low = 0;
    let mut last = count - 1;
    while low < last {
        let middle = low + (last - low) / 2;
        if windows_keep(&told[..middle + 1]) {
            low = middle + 1;
        } else {
            last = middle;
        }
    }
    Some(last)
}

/// What is wrong at a line that does not keep to those before it: a call's number, or where a read's window begins.
fn cause_of(told: &ToldLine) -> Cause
    ensures { result ≡ order_cause told.now.what }
{
    match told.what {
        What::Wrote { .. } => Cause::Order,
        What::Got { .. } | What::Copied { .. } | What::Lawful { .. } => Cause::Below,
    }
}

/// The first line that does not keep to those that it knows of.
#[tactic(auto, using(crate::proofs::Firsts::first_told))]
fn order_fault(told: &[ToldLine]) -> Option<FoundFault>
    requires trees { All (λ t. t.tree < most_trees) told.now }
    requires lanes { All (λ t. t.lane < most_lanes) told.now }
    requires phases { AllPairs (λ s t. s.phase ≤ t.phase) told.now }
    ensures { KeepsOrder told.now result }
{
    let place = first_out(told)?;
    Some(FoundFault::at(place, cause_of(&told[place])))
}

/// How many calls on a tree there are.
fn count_calls(told: &[ToldLine], tree: u32) -> usize {
    told.iter().filter(|one| is_call_on(one, tree)).count()
}

/// Whether a call's number is one of those that are not taken yet; it is taken then.
fn takes(taken: &mut [bool], number: u64) -> bool {
    let Some(place) = number.checked_sub(1) else {
        return false;
    };
    match taken.get_mut(place as usize) {
        Some(one) if !*one => {
            *one = true;
            true
        }
        _ => false,
    }
}

/// The first call on a tree whose number is 0, is above the number of calls, or was taken before.
fn number_fault(alloc: Global, told: &[ToldLine], tree: u32) -> Result<Option<FoundFault>, NoMemory>
    ensures { IfOk result (λ found. IfSome found (λ fault. is_of_order fault.cause ≡ false)) }
{
    let mut taken = vec![in alloc; false; count_calls(told, tree)]?;
    for (place, one) in told.iter().enumerate() {
        if one.tree == tree {
            if let What::Wrote { number, .. } = one.what {
                if !takes(&mut taken, number) {
                    return Ok(Some(FoundFault::at(place, Cause::Number)));
                }
            }
        }
    }
    Ok(None)
}

/// The first read on a tree whose window ends after the last call.
fn end_fault(told: &[ToldLine], tree: u32) -> Option<FoundFault>
    ensures { IfSome result (λ fault. is_of_order fault.cause ≡ false) }
{
    let count = count_calls(told, tree) as u64;
    for (place, one) in told.iter().enumerate() {
        if one.tree == tree {
            if let What::Got { hi, .. } = one.what {
                if hi > count {
                    return Some(FoundFault::at(place, Cause::Beyond));
                }
            }
        }
    }
    None
}

/// The earlier of two faults, the first of which may be of order and the other is not.
#[tactic(auto, using(crate::proofs::Firsts::told_earlier))]
fn or_earlier(
    told: &[ToldLine],
    found: Option<FoundFault>,
    other: Option<FoundFault>,
) -> Option<FoundFault>
    requires order { KeepsOrder told.now found }
    requires other { IfSome other (λ fault. is_of_order fault.cause ≡ false) }
    ensures { KeepsOrder told.now result }
{
    match other {
        Some(fault) => Some(fault.or_earlier(found)),
        None => found,
    }
}

/// The first line whose number or window cannot be.
pub fn window_fault(alloc: Global, told: &[ToldLine]) -> Result<Option<FoundFault>, NoMemory>
    requires trees { All (λ t. t.tree < most_trees) told.now }
    requires lanes { All (λ t. t.lane < most_lanes) told.now }
    requires phases { AllPairs (λ s t. s.phase ≤ t.phase) told.now }
    ensures { IfOk result (KeepsOrder told.now) }
{
    let mut found = order_fault(told);
    for tree in 0..MOST_TREES {
        found = or_earlier(told, found, number_fault(alloc, told, tree)?);
        found = or_earlier(told, found, end_fault(told, tree));
    }
    Ok(found)
}
