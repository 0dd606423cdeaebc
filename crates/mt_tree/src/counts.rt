//! How many ranges a tree has, as far as that is known without a look at it.

ghost use Rattle.std.specs.Prelude.{◌≡◌, ◌+◌, ◌-◌, ◌≤◌, ℕ, None, Some, IfSome};
ghost use Rattle.mt_rows.specs.Publish.{map_by};
ghost use Rattle.mt_rows.specs.Sheet.{OnlyReads};
ghost use Rattle.mt_tree.specs.Reserve as defined;
ghost use Rattle.mt_tree.specs.Reserve.{IsChange, IsCountAfter, IsCountBy, IsCountDone, IsCountGiven};

use crate::overwrites::tell_met;
use mt_base::{Call, MOST_ROWS, Query, Range, Reply};
use mt_engine::Engine;
use mt_rows::Rows;

/// One more, where it is known.
fn one_more(before: Option<u64>) -> Option<u64>
    ensures { IsCountBy (λ k. k + 1) before result }
{
    match before {
        Some(k) if k < u64::MAX => Some(k + 1),
        _ => None,
    }
}

/// One less, where it is known.
fn one_less(before: Option<u64>) -> Option<u64>
    ensures { IsCountBy (λ k. k - 1) before result }
{
    match before {
        Some(k) if 0 < k => Some(k - 1),
        _ => None,
    }
}

/// How many there are after a call that changed what it was to change, if that is known.
fn counted_done(before: Option<u64>, call: &Call) -> Option<u64>
    ensures { IsCountDone before call.now result }
{
    match *call {
        Call::Store { .. } | Call::StorePre { .. } => None,
        Call::Insert { .. } | Call::Alloc { .. } | Call::Ralloc { .. } => one_more(before),
        Call::Erase { .. } => one_less(before),
        Call::Gap { .. } | Call::Rgap { .. } => before,
        Call::Clear => Some(0),
    }
}

/// As `counted_done`, of a call of which the number may be given.
fn counted_given(given: Option<u64>, before: Option<u64>, call: &Call) -> Option<u64>
    ensures { IsCountGiven given before call.now result }
{
    match given {
        Some(n) => Some(n),
        None => counted_done(before, call),
    }
}

/// How many there are after a call with this reply, if that is known.
pub fn counted(given: Option<u64>, before: Option<u64>, call: &Call, reply: Reply) -> Option<u64>
    ensures { IsCountAfter given before call.now reply result }
{
    match reply {
        Reply::Ok | Reply::Over(_) | Reply::Start(_) | Reply::Was(_) => {
            counted_given(given, before, call)
        }
        Reply::None | Reply::Exists | Reply::Invalid | Reply::Busy | Reply::NoNodes(_) => before,
    }
}

/// What a store changes: so many ranges are gone, and so many are there in their place.
#[derive(Clone, Copy)]
pub struct Change {
    pub gone: u64,
    pub kept: u64,
}

impl Change {
    /// How many ranges there are more.
    pub fn gain(&self) -> u64
        ensures { result ≡ self.now.kept - self.now.gone }
    {
        self.kept.saturating_sub(self.gone)
    }

    /// How many there are then, where these were there; it is not known if they are more than a tree can keep a reserve for.
    pub fn after(&self, ranges: u64) -> Option<u64>
        requires gone { self.now.gone ≤ ranges }
        requires kept { self.now.kept ≤ 3 }
        ensures { IfSome result (λ n. n + self.now.gone ≡ ranges + self.now.kept) }
    {
        if ranges > 2 * MOST_ROWS {
            return None;
        }
        Some(ranges - self.gone + self.kept)
    }

    /// As `after`, where it may be not known how many were there.
    pub fn after_known(&self, known: Option<u64>) -> Option<u64>
        requires gone { IfSome known (λ n. self.now.gone ≤ n) }
        requires kept { self.now.kept ≤ 3 }
        ensures some { (n : ℕ) → known ≡ Some n → IfSome result (λ k. k + self.now.gone ≡ n + self.now.kept) }
        ensures none { known ≡ None → result ≡ None }
    {
        match known {
            Some(ranges) => self.after(ranges),
            None => None,
        }
    }
}

/// One, if the range begins below the index.
fn part_before(index: u64, held: Option<Range>) -> u64
    ensures is { result ≡ defined.part_before index held }
    ensures one { result ≤ 1 }
{
    match held {
        Some(range) if range.first < index => 1,
        _ => 0,
    }
}

/// One, if the range ends above the index.
fn part_behind(index: u64, held: Option<Range>) -> u64
    ensures is { result ≡ defined.part_behind index held }
    ensures one { result ≤ 1 }
{
    match held {
        Some(range) if index < range.last => 1,
        _ => 0,
    }
}

/// One, if the store is of an entry.
fn part_own(entry: u64) -> u64
    ensures is { result ≡ defined.part_own entry }
    ensures one { result ≤ 1 }
{
    if entry == 0 { 0 } else { 1 }
}

/// What a store that is not invalid would change. The tree is only read.
pub fn change_of<R: Rows>(engine: &mut Engine<R>, first: u64, last: u64, entry: u64) -> Change
    requires { first ≤ last }
    ensures change { IsChange (map_by engine.old.sheet.tree) first last entry result }
    ensures rest { OnlyReads engine.old.sheet engine.new.sheet }
    ensures book { engine.new.book ≡ engine.old.book }
    ensures kind { engine.new.kind ≡ engine.old.kind }
{
    engine.lawful();
    let mut none = [Range {
        first: 0,
        last: 0,
        entry: 0,
    }];
    let gone = tell_met(engine, first, last, &mut none);
    let low = engine.ask(&Query::Load { index: first });
    let high = engine.ask(&Query::Load { index: last });
    Change {
        gone,
        kept: part_before(first, low) + part_behind(last, high) + part_own(entry),
    }
}
