//! The edits: what a store meets is brought onto one shelf, and is changed there; a shelf that grew long is cut, and one that holds
//! nothing goes.

ghost use Rattle.std.specs.Prelude.{◌≡◌, ◌+◌, ◌≤◌, ◌<◌, ◌++◌, [], IfNone, OnErr, OnOk, OnSome, drop, length, take};
ghost use Rattle.mt_base.specs.Map.{holding, over, without};
ghost use Rattle.mt_shelves.specs.Shelves.{AllFilled, AreRising, BeginAbove, EndBelow, IsBrought, joined};

use crate::places::{place_above, place_below};
use crate::shelf::Shelf;
use crate::wholes::gathered;
use mt_base::{NoMemory, Range};
use std::alloc::Global;

/// A shelf has at most `MOST` ranges, and `HALF` once it is cut.
const MOST: usize = 512;

const HALF: usize = 256;

/// Removes the shelves from `start` up to `end`.
fn remove_all(shelves: &mut Vec<Shelf>, start: usize, end: usize)
    requires order { start ≤ end }
    requires bound { end ≤ length shelves.old.items }
    ensures { shelves.new.items ≡ take start shelves.old.items ++ drop end shelves.old.items }
{
    shelves.drain(start..end);
}

/// Brings the shelves from `start` up to `end` onto one.
#[tactic(auto, using(crate::proofs::Editing::slice_rises, crate::proofs::Editing::brought))]
fn join(shelves: &mut Vec<Shelf>, alloc: Global, start: usize, end: usize) -> Result<(), NoMemory>
    requires rising { AreRising shelves.old.items }
    requires order { start < end }
    requires bound { end ≤ length shelves.old.items }
    ensures ok { OnOk result (IsBrought shelves.old.items start end shelves.new.items) }
    ensures err { OnErr result (shelves.new.items ≡ shelves.old.items) }
{
    if end == start + 1 {
        return Ok(());
    }
    let ranges = gathered(alloc, &shelves[start..end])?;
    shelves[start] = Shelf::of(ranges);
    remove_all(shelves, start + 1, end);
    Ok(())
}

/// Cuts the last ranges off a long shelf, onto a shelf of their own after it. If memory is short the shelf stays, and the
/// result is false.
#[tactic(auto, using(crate::proofs::Editing::halved))]
fn halve(shelves: &mut Vec<Shelf>, at: usize) -> bool
    requires filled { AllFilled shelves.old.items }
    requires within { at < length shelves.old.items }
    ensures joined { joined shelves.new.items ≡ joined shelves.old.items }
    ensures filled { AllFilled shelves.new.items }
    ensures within { at < length shelves.new.items }
{
    if shelves.reserve(1).is_err() {
        return false;
    }
    let len = shelves[at].ranges().len();
    if len <= HALF {
        return false;
    }
    let Ok(rest) = shelves[at].cut(len - HALF) else {
        return false;
    };
    let Ok(()) = shelves.insert(at + 1, rest) else {
        unreachable!();
    };
    true
}

/// Cuts a shelf that grew long.
fn cut_up(shelves: &mut Vec<Shelf>, at: usize)
    requires filled { AllFilled shelves.old.items }
    requires within { at < length shelves.old.items }
    ensures joined { joined shelves.new.items ≡ joined shelves.old.items }
    ensures filled { AllFilled shelves.new.items }
{
    let len = shelves[at].ranges().len();
    if len <= MOST {
        return;
    }
    for _ in 0..(len - HALF - 1) / HALF {
        if !halve(shelves, at) {
            return;
        }
    }
}

/// Takes away a shelf that holds nothing, or cuts it where it grew long.
fn tidy(shelves: &mut Vec<Shelf>, at: usize)
    requires within { at < length shelves.old.items }
    requires front { AllFilled (take at shelves.old.items) }
    requires back { AllFilled (drop (at + 1) shelves.old.items) }
    ensures joined { joined shelves.new.items ≡ joined shelves.old.items }
    ensures filled { AllFilled shelves.new.items }
{
    if shelves[at].ranges().is_empty() {
        shelves.remove(at);
        return;
    }
    cut_up(shelves, at);
}

/// The shelves on which a store over `first` to `last` is done: those that it meets, or else one beside it, if there is any.
#[tactic(auto, using(crate::proofs::Editing::fewer_below, crate::proofs::Editing::fewer_above))]
fn site(shelves: &[Shelf], first: u64, last: u64) -> (usize, usize)
    requires { AreRising shelves.now }
    ensures order { result.0 ≤ result.1 }
    ensures bound { result.1 ≤ length shelves.now }
    ensures some { 0 < length shelves.now → result.0 < result.1 }
    ensures front { EndBelow first (joined (take result.0 shelves.now)) }
    ensures back { BeginAbove last (joined (drop result.1 shelves.now)) }
{
    let start = place_below(shelves, first);
    let end = place_above(shelves, start, last);
    if start < end {
        return (start, end);
    }
    if start > 0 {
        return (start - 1, start);
    }
    (0, shelves.len().min(1))
}

/// Stores `entry` over `first` to `last` on the shelf at a place, if all shelves before it end below, and all after it begin
/// above.
fn store_there(
    shelves: &mut Vec<Shelf>,
    at: usize,
    first: u64,
    last: u64,
    entry: u64,
) -> Result<(), NoMemory>
    requires order { first ≤ last }
    requires within { at < length shelves.old.items }
    requires rising { AreRising shelves.old.items }
    requires front { EndBelow first (joined (take at shelves.old.items)) }
    requires back { BeginAbove last (joined (drop (at + 1) shelves.old.items)) }
    ensures ok { OnOk result (joined shelves.new.items ≡ over (joined shelves.old.items) first last entry) }
    ensures err { OnErr result (shelves.new.items ≡ shelves.old.items) }
    ensures filled { AllFilled shelves.new.items }
{
    shelves[at].store(first, last, entry)?;
    tidy(shelves, at);
    Ok(())
}

/// The only range of a map goes onto a shelf of its own.
fn store_alone(
    shelves: &mut Vec<Shelf>,
    alloc: Global,
    first: u64,
    last: u64,
    entry: u64,
) -> Result<(), NoMemory>
    requires order { first ≤ last }
    requires none { shelves.old.items ≡ [] }
    ensures ok { OnOk result (joined shelves.new.items ≡ over [] first last entry) }
    ensures err { OnErr result (shelves.new.items ≡ shelves.old.items) }
    ensures filled { AllFilled shelves.new.items }
{
    if entry == 0 {
        return Ok(());
    }
    let mut ranges = Vec::new(alloc);
    ranges.push(Range { first, last, entry })?;
    shelves.push(Shelf::of(ranges))?;
    Ok(())
}

/// Stores `entry` over `first` to `last`.
///
/// # Errors
///
/// `NoMemory` where memory ran out. The ranges stay as they were then.
pub fn store(
    shelves: &mut Vec<Shelf>,
    alloc: Global,
    first: u64,
    last: u64,
    entry: u64,
) -> Result<(), NoMemory>
    requires order { first ≤ last }
    requires rising { AreRising shelves.old.items }
    ensures ok { OnOk result (joined shelves.new.items ≡ over (joined shelves.old.items) first last entry) }
    ensures err { OnErr result (joined shelves.new.items ≡ joined shelves.old.items) }
    ensures filled { AllFilled shelves.new.items }
{
    let (start, end) = site(shelves, first, last);
    if start == end {
        return store_alone(shelves, alloc, first, last, entry);
    }
    join(shelves, alloc, start, end)?;
    store_there(shelves, start, first, last, entry)
}

/// Removes the range that holds `index`, and gives it.
pub fn erase(shelves: &mut Vec<Shelf>, index: u64) -> Option<Range>
    requires { AreRising shelves.old.items }
    ensures range { result ≡ holding (joined shelves.old.items) index }
    ensures some { OnSome result (joined shelves.new.items ≡ without (joined shelves.old.items) index) }
    ensures none { IfNone result (joined shelves.new.items ≡ joined shelves.old.items) }
    ensures filled { AllFilled shelves.new.items }
{
    let at = place_below(shelves, index);
    if at == shelves.len() {
        return None;
    }
    let range = shelves[at].erase(index)?;
    tidy(shelves, at);
    Some(range)
}
