//! Stores that return all ranges that they meet, by a caller that does not wait.

ghost use Rattle.std.specs.Prelude.{◌≡◌, IfErr, IfOk, filter, length, set};
ghost use Rattle.mt_base.specs.Map.{overlaps};
ghost use Rattle.mt_base.specs.declared.calls.Call.TheVariants.{Store};
ghost use Rattle.mt_rows.specs.Publish.{map_by};
ghost use Rattle.mt_rows.specs.Sheet.{OnlyReads};
ghost use Rattle.mt_rule.specs.Tokens.{pass_in};
ghost use Rattle.mt_rule.specs.Turns.{tried};
ghost use Rattle.mt_tree.specs.Behind.{behind_lock, IsAtRest};
ghost use Rattle.mt_tree.specs.Overwrites.{TellsMet, map_met, ranges_met};
ghost use Rattle.mt_tree.specs.Trees.{map_seen, place_of, IsPassOf, Rests, TriesOnce};
ghost use Rattle.mt_tree.specs.Tries.{IsBusyOf, WasMade};
ghost use Rattle.mt_tree.specs.Works.{IsWorker, LookedBehind};

use crate::behind::{Tools, WriterState};
use crate::trees::Tree;
use crate::works::{begin, end};
use mt_base::{Call, Done, Range, Width, Worn};
use mt_engine::{Engine, RangePlace};
use mt_pen::Writer;
use mt_rows::Rows;
use mt_rule::{Busy, LongRows, OfWidth, Pass, ShortRows};
use std::marker::Brand;

/// Puts a range into the place of this number, if there is one.
fn tell_at<P: RangePlace>(met: &mut [P], at: u64, range: Range)
    ensures { met.new ≡ set met.old at (P.shows range) }
{
    if at < met.len() as u64 {
        met[at as usize].put(range);
    }
}

/// Puts the ranges that end at `first` or above and begin at `last` or below into the places, as far as there are places.
/// Returns how many there are.
fn tell_from<R: Rows, P: RangePlace>(
    engine: &mut Engine<R>,
    first: u64,
    last: u64,
    met: &mut [P],
) -> u64
    ensures tells { TellsMet P.shows (filter (overlaps first last) (map_by engine.old.sheet.tree)) met.old met.new result }
    ensures rest { OnlyReads engine.old.sheet engine.new.sheet }
    ensures book { engine.new.book ≡ engine.old.book }
    ensures kind { engine.new.kind ≡ engine.old.kind }
{
    engine.lawful();
    let mut count = 0;
    let mut walk = engine.walk_from(first);
    while let Some(range) = engine.next_range(&mut walk) {
        if range.first > last {
            return count;
        }
        tell_at(met, count, range);
        count += 1;
    }
    count
}

/// Puts the ranges that hold some index of `first` to `last` into the places, as far as there are places. Returns how many
/// there are.
#[tactic(auto, using(crate::proofs::Overwriting::none_met, crate::proofs::Overwriting::some_met))]
pub fn tell_met<R: Rows, P: RangePlace>(
    engine: &mut Engine<R>,
    first: u64,
    last: u64,
    met: &mut [P],
) -> u64
    ensures tells { TellsMet P.shows (ranges_met (map_by engine.old.sheet.tree) first last) met.old met.new result }
    ensures rest { OnlyReads engine.old.sheet engine.new.sheet }
    ensures book { engine.new.book ≡ engine.old.book }
    ensures kind { engine.new.kind ≡ engine.old.kind }
{
    if first > last {
        return 0;
    }
    tell_from(engine, first, last, met)
}

/// As `tell_met`, for the nodes that the lock protects.
fn tell_at_work<W: Writer, K: OfWidth, P: RangePlace>(
    tools: &mut Option<Tools>,
    tree: &Tree,
    pass: &mut Pass,
    first: u64,
    last: u64,
    met: &mut [P],
) -> u64
    requires worker { IsWorker tree.now tools.old pass.old W.table W.turn W.steps K.wide }
    ensures rest { IsAtRest tools.new }
    ensures looked { LookedBehind tree.now (behind_lock tools.old) (behind_lock tools.new) pass.old pass.new }
    ensures tells { TellsMet P.shows (ranges_met (map_seen tree.now (pass_in pass.new)) first last) met.old met.new result }
{
    let mut engine = begin::<W, K>(tools, tree, pass);
    let count = tell_met(&mut engine, first, last, met);
    end(tools, tree, engine, pass);
    count
}

impl WriterState {
    /// Puts the ranges that hold some index of `first` to `last` into the places, as far as there are places. Returns how many
    /// there are.
    #[tactic(auto, using(crate::proofs::Keeping::counted_looked))]
    fn tell_met<P: RangePlace>(
        &mut self,
        tree: &Tree,
        pass: &mut Pass,
        first: u64,
        last: u64,
        met: &mut [P],
    ) -> u64
        requires table { self.old.table ≡ place_of tree.now }
        requires pass { IsPassOf tree.now pass.old }
        ensures looked { LookedBehind tree.now self.old self.new pass.old pass.new }
        ensures tells { TellsMet P.shows (ranges_met (map_seen tree.now (pass_in pass.new)) first last) met.old met.new result }
    {
        match tree.table.width() {
            Width::Long => {
                tell_at_work::<Brand, LongRows, P>(&mut self.tools, tree, pass, first, last, met)
            }
            Width::Short => {
                tell_at_work::<Brand, ShortRows, P>(&mut self.tools, tree, pass, first, last, met)
            }
        }
    }

    /// Makes a store, and returns how many ranges it met too.
    #[tactic(auto, using(crate::proofs::Overwriting::made_then, crate::proofs::Overwriting::tells_then))]
    fn store_over<P: RangePlace>(
        &mut self,
        tree: &Tree,
        pass: &mut Pass,
        first: u64,
        last: u64,
        entry: u64,
        met: &mut [P],
    ) -> (Result<Done, Worn>, u64)
        requires table { self.old.table ≡ place_of tree.now }
        requires pass { IsPassOf tree.now pass.old }
        ensures table { self.new.table ≡ place_of tree.now }
        ensures of { IsPassOf tree.now pass.new }
        ensures rests { Rests pass.old pass.new }
        ensures made { WasMade tree.now (pass_in pass.old) (Store first last entry) result.0 (pass_in pass.new) }
        ensures tells { TellsMet P.shows (ranges_met (map_met tree.now result.0 (pass_in pass.new)) first last) met.old met.new result.1 }
    {
        let count = self.tell_met(tree, pass, first, last, met);
        let made = self.act(tree, pass, &Call::Store { first, last, entry });
        (made, count)
    }
}

impl Tree {
    /// `store_range`, if the lock is free. The first of the places take the ranges that it met, as far as there are places,
    /// whole as they were before it and in rising order, whether it was made or refused. Returns how many they are too. It does
    /// not wait.
    ///
    /// # Errors
    ///
    /// `Busy` if the one try found the lock taken. Nothing is changed, and the handle has seen no more.
    pub fn try_store_over<P: RangePlace>(
        &self,
        pass: &mut Pass,
        first: u64,
        last: u64,
        entry: u64,
        met: &mut [P],
    ) -> Result<(Result<Done, Worn>, u64), Busy>
        requires { IsPassOf self.now pass.old }
        ensures of { IsPassOf self.now pass.new }
        ensures made { IfOk result (λ r. WasMade self.now (pass_in pass.old) (Store first last entry) r.0 (pass_in pass.new)) }
        ensures tells { IfOk result (λ r. TellsMet P.shows (ranges_met (map_met self.now r.0 (pass_in pass.new)) first last) met.old met.new r.1) }
        ensures busy { IfErr result (IsBusyOf self.now) }
        ensures kept { IfErr result (λ _. (pass.new ≡ tried pass.old) × (met.new ≡ met.old)) }
        ensures tries { TriesOnce pass.old pass.new }
    {
        let mut taken = self.try_take(pass)?;
        let told = taken.value.store_over(self, pass, first, last, entry, met);
        self.turn.give(taken);
        Ok(told)
    }
}
