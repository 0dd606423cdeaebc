//! The calls, over any store of ranges: each is made of the trait's few methods.

ghost use Rattle.std.specs.Prelude.{◌≡◌, ◌+◌, ◌≤◌, IfOk, IfSome, OnErr};
ghost use Rattle.mt_base.specs.Call.{acted, answer, placed};
ghost use Rattle.mt_base.specs.Width.{greatest_of};

use crate::areas::{Window, reply_of};
use crate::stores::Store;
use mt_base::{Call, NoMemory, Query, Range, Reply, is_bad_area, is_invalid, is_no_area};

/// The first range that holds some index of `first` to `last`.
fn first_met<S: Store>(of: &S, first: u64, last: u64) -> Option<Range>
    ensures { result ≡ answer (S.contents of.now).ranges (Query.Find first last) }
{
    of.found(&Query::Find {
        index: first,
        max: last,
    })
}

/// Stores `entry` over `first` to `last`.
#[tactic(auto, using(mt_base::proofs::Lemmas::valid_order, mt_base::proofs::Lemmas::valid_within))]
fn store<S: Store>(to: &mut S, first: u64, last: u64, entry: u64) -> Result<Reply, NoMemory>
    ensures acts { IfOk result (λ reply. acted (S.contents to.old).kind (S.contents to.old).ranges (Call.Store first last entry)
        ≡ ((S.contents to.new).ranges, reply)) }
    ensures err { OnErr result (S.contents to.new ≡ S.contents to.old) }
    ensures kind { (S.contents to.new).kind ≡ (S.contents to.old).kind }
{
    if is_invalid(to.kind(), first, last, entry) {
        return Ok(Reply::Invalid);
    }
    let met = first_met(to, first, last);
    to.put(first, last, entry)?;
    Ok(met.map_or(Reply::Ok, |range| Reply::Over(range.entry)))
}

/// Stores `entry` over `first` to `last` where no range holds any of these indexes.
#[tactic(auto, using(mt_base::proofs::Lemmas::valid_order, mt_base::proofs::Lemmas::valid_within, mt_base::proofs::Lemmas::is_held_where_met))]
fn insert<S: Store>(to: &mut S, first: u64, last: u64, entry: u64) -> Result<Reply, NoMemory>
    ensures acts { IfOk result (λ reply. acted (S.contents to.old).kind (S.contents to.old).ranges (Call.Insert first last entry)
        ≡ ((S.contents to.new).ranges, reply)) }
    ensures err { OnErr result (S.contents to.new ≡ S.contents to.old) }
    ensures kind { (S.contents to.new).kind ≡ (S.contents to.old).kind }
{
    if is_invalid(to.kind(), first, last, entry) || entry == 0 {
        return Ok(Reply::Invalid);
    }
    if first_met(to, first, last).is_some() {
        return Ok(Reply::Exists);
    }
    to.put(first, last, entry)?;
    Ok(Reply::Ok)
}

/// Removes the range that holds `index`.
fn erase<S: Store>(of: &mut S, index: u64) -> Reply
    ensures acts { acted (S.contents of.old).kind (S.contents of.old).ranges (Call.Erase index)
        ≡ ((S.contents of.new).ranges, result) }
    ensures kind { (S.contents of.new).kind ≡ (S.contents of.old).kind }
{
    match of.take(index) {
        Some(range) => Reply::Was(range),
        None => Reply::None,
    }
}

/// Stores `entry` over `size` indexes at a start that was found.
fn place<S: Store>(to: &mut S, start: Option<u64>, size: u64, entry: u64) -> Result<Reply, NoMemory>
    requires size { 1 ≤ size }
    requires within { IfSome start (λ s. s + size ≤ greatest_of (S.contents to.old).kind + 1) }
    ensures acts { IfOk result (λ reply. placed (S.contents to.old).ranges size entry start
        ≡ ((S.contents to.new).ranges, reply)) }
    ensures err { OnErr result (S.contents to.new ≡ S.contents to.old) }
    ensures kind { (S.contents to.new).kind ≡ (S.contents to.old).kind }
{
    let Some(first) = start else {
        return Ok(Reply::Busy);
    };
    to.put(first, first + (size - 1), entry)?;
    Ok(Reply::Start(first))
}

/// Stores `entry` at the lowest start of room in the window.
#[tactic(auto, using(crate::proofs::MapsKept::low_fits))]
fn alloc<S: Store>(to: &mut S, window: Window, entry: u64) -> Result<Reply, NoMemory>
    ensures acts { IfOk result (λ reply. acted (S.contents to.old).kind (S.contents to.old).ranges (Call.Alloc window.size window.min window.max entry)
        ≡ ((S.contents to.new).ranges, reply)) }
    ensures err { OnErr result (S.contents to.new ≡ S.contents to.old) }
    ensures kind { (S.contents to.new).kind ≡ (S.contents to.old).kind }
{
    if is_bad_area(to.kind(), window.size, window.min, window.max, entry) {
        return Ok(Reply::Invalid);
    }
    let start = to.lowest_start(window);
    place(to, start, window.size, entry)
}

/// Stores `entry` at the highest start.
#[tactic(auto, using(crate::proofs::MapsKept::high_fits))]
fn ralloc<S: Store>(to: &mut S, window: Window, entry: u64) -> Result<Reply, NoMemory>
    ensures acts { IfOk result (λ reply. acted (S.contents to.old).kind (S.contents to.old).ranges (Call.Ralloc window.size window.min window.max entry)
        ≡ ((S.contents to.new).ranges, reply)) }
    ensures err { OnErr result (S.contents to.new ≡ S.contents to.old) }
    ensures kind { (S.contents to.new).kind ≡ (S.contents to.old).kind }
{
    if is_bad_area(to.kind(), window.size, window.min, window.max, entry) {
        return Ok(Reply::Invalid);
    }
    let start = to.highest_start(window);
    place(to, start, window.size, entry)
}

/// Returns the lowest start.
fn gap<S: Store>(of: &S, window: Window) -> Reply
    ensures { acted (S.contents of.now).kind (S.contents of.now).ranges (Call.Gap window.size window.min window.max) ≡ ((S.contents of.now).ranges, result) }
{
    if is_no_area(of.kind(), window.size, window.min, window.max) {
        return Reply::Invalid;
    }
    reply_of(of.lowest_start(window))
}

/// Returns the highest start.
fn rgap<S: Store>(of: &S, window: Window) -> Reply
    ensures { acted (S.contents of.now).kind (S.contents of.now).ranges (Call.Rgap window.size window.min window.max) ≡ ((S.contents of.now).ranges, result) }
{
    if is_no_area(of.kind(), window.size, window.min, window.max) {
        return Reply::Invalid;
    }
    reply_of(of.highest_start(window))
}

/// Makes one call.
///
/// # Errors
///
/// `NoMemory` where memory ran out. Nothing is changed then.
pub fn act<S: Store>(to: &mut S, call: &Call) -> Result<Reply, NoMemory>
    ensures acts { IfOk result (λ reply. acted (S.contents to.old).kind (S.contents to.old).ranges call.now
        ≡ ((S.contents to.new).ranges, reply)) }
    ensures err { OnErr result (S.contents to.new ≡ S.contents to.old) }
    ensures kind { (S.contents to.new).kind ≡ (S.contents to.old).kind }
{
    match *call {
        Call::Store { first, last, entry } | Call::StorePre { first, last, entry } => {
            store(to, first, last, entry)
        }
        Call::Insert { first, last, entry } => insert(to, first, last, entry),
        Call::Erase { index } => Ok(erase(to, index)),
        Call::Alloc {
            size,
            min,
            max,
            entry,
        } => alloc(to, Window { size, min, max }, entry),
        Call::Ralloc {
            size,
            min,
            max,
            entry,
        } => ralloc(to, Window { size, min, max }, entry),
        Call::Gap { size, min, max } => Ok(gap(to, Window { size, min, max })),
        Call::Rgap { size, min, max } => Ok(rgap(to, Window { size, min, max })),
        Call::Clear => {
            to.empty();
            Ok(Reply::Ok)
        }
    }
}
