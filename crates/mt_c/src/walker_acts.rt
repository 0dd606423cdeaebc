//! What a handle of a shared tree does on its walk and off it.

ghost use Rattle.std.specs.Prelude.{◌≡◌, ◌<◌, ℕ, All, IfErr, IfOk, IfSome, IsSome, None, Ok, Some, map, ◌∷◌};
ghost use Rattle.mt_base.specs.declared.calls.Query.TheVariants.{Load};
ghost use Rattle.mt_base.specs.Passes as known;
ghost use Rattle.mt_base.specs.Places.{find_at, place_behind};
ghost use Rattle.mt_read.specs.Windows.{HasRead};
ghost use Rattle.mt_tree.specs.Meeting.{HaveMet};
ghost use Rattle.mt_rule.specs.Tokens.{turn_seat};
ghost use Rattle.mt_tree.specs.Asks.{most_made};
ghost use Rattle.mt_tree.specs.Trees.{IsPassOf, Takes, opened, pass_in};
ghost use Rattle.mt_tree.specs.Tries.{IsBusyOf};
ghost use Rattle.mt_c.specs.KeptWalks.{last_index};
ghost use Rattle.mt_c.specs.Spares.{IsSparePass};
ghost use Rattle.mt_tree.specs.Walks.{HasWalked};
ghost use Rattle.mt_c.specs.Walkers.{Continues, GaveUp, IsWalkAnswer, IsOnNoWalk, IsOnAt, IsReadBy, IsStep, IsTried};
ghost use Rattle.mt_c.specs.Walkers.{KnowsAs, StepsFrom, Took, TriedOnce, WentOnce, halted, knows, stands_at};

use crate::walker::Walker;
use mt_base::{Call, Query, Range, Steps};
use mt_tree::{Busy, Done, Moved, Pass, Read, Tree, Walk, Worn};
use std::marker::Brand;
use std::sync::ledger::{Blank, Ledger};

/// The range that an index lies in, in a number of steps that is counted.
fn load_range<L: Ledger>(
    tree: &Tree,
    pass: &mut Pass,
    index: u64,
    blank: Blank,
) -> Read<Option<Range>>
    requires of { IsPassOf tree.now pass.old }
    requires name { blank.name ≡ L.name }
    requires parts { blank.parts ≡ L.parts }
    requires some { 0 < blank.parts }
    ensures of { IsPassOf tree.now pass.new }
    ensures read { (k : ℕ) × known.Read (opened tree.now)
        (pass_in pass.old) result.lo result.hi k (Load index) result.value (pass_in pass.new) }
    ensures section { HasRead result.lo result.hi (pass_in pass.old) (pass_in pass.new) }
    ensures takes { Takes 170 pass.old pass.new }
{
    let mut steps = Steps::<L>::new(blank);
    tree.load_range(pass, index, &mut steps)
}

impl Walker {
    /// A handle that is on no walk.
    pub fn new(pass: Pass) -> Walker
        ensures pass { result.pass ≡ pass }
        ensures walk { result.walk ≡ None }
    {
        Walker { pass, walk: None }
    }

    /// Closes the section of its walk and forgets the walk. It is apart from `pause`, so that a handle on no walk needs no room
    /// for one.
    #[tactic(auto, using(crate::proofs::Using::took_none, crate::proofs::Using::took_one))]
    #[inline(never)]
    fn forget(&mut self, tree: &Tree)
        requires { IsPassOf tree.now self.old.pass }
        ensures of { IsPassOf tree.now self.new.pass }
        ensures known { knows self.new ≡ halted self.old }
        ensures walk { self.new.walk ≡ None }
        ensures took { Took 0 self.old self.new.pass }
    {
        let Some(mut walk) = self.walk.take() else {
            return;
        };
        tree.halt(&mut self.pass, &mut walk);
    }

    /// Closes the section of its walk, if it has one, and forgets the walk.
    #[tactic(auto, using(crate::proofs::Using::took_none))]
    pub fn pause(&mut self, tree: &Tree)
        requires { IsPassOf tree.now self.old.pass }
        ensures of { IsPassOf tree.now self.new.pass }
        ensures known { knows self.new ≡ halted self.old }
        ensures walk { self.new.walk ≡ None }
        ensures took { Took 0 self.old self.new.pass }
    {
        if self.walk.is_some() {
            self.forget(tree);
        }
    }

    /// Closes its section, whichever is open, and forgets its walk.
    #[tactic(auto, using(crate::proofs::Using::closed_stands))]
    pub fn rest(&mut self, tree: &Tree)
        requires { IsPassOf tree.now self.old.pass }
        ensures of { IsPassOf tree.now self.new.pass }
        ensures known { knows self.new ≡ record (knows self.old) { standing = None } }
        ensures rests { IsOnNoWalk self.new }
        ensures takes { Takes 1 self.old.pass self.new.pass }
    {
        self.walk = None;
        tree.halt(&mut self.pass, &mut Walk::new(0, 0));
    }

    /// Asks one query, without the lock.
    #[tactic(auto, using(crate::proofs::Using::answer_made, crate::proofs::Using::rested, crate::proofs::Using::took_more, crate::proofs::Using::gave_up))]
    #[inline(never)]
    pub fn ask(&mut self, tree: &Tree, query: &Query) -> Result<Read<Option<Range>>, Moved>
        requires { IsPassOf tree.now self.old.pass }
        ensures of { IsPassOf tree.now self.new.pass }
        ensures answer { IsWalkAnswer tree.now (knows self.old) query.now result (knows self.new) }
        ensures rests { IsOnNoWalk self.new }
        ensures took { Took (most_made query.now) self.old self.new.pass }
        ensures left { IfErr result (GaveUp query.now self.old self.new) }
    {
        self.pause(tree);
        tree.ask(&mut self.pass, query)
    }

    /// The range that an index lies in, without the lock.
    #[tactic(auto, using(crate::proofs::Using::load_made, crate::proofs::Using::read_rests, crate::proofs::Using::took_more))]
    pub fn load(&mut self, tree: &Tree, index: u64) -> Read<Option<Range>>
        requires { IsPassOf tree.now self.old.pass }
        ensures of { IsPassOf tree.now self.new.pass }
        ensures answer { IsWalkAnswer tree.now
            (knows self.old) (Load index) (Ok result) (knows self.new) }
        ensures rests { IsOnNoWalk self.new }
        ensures took { Took 170 self.old self.new.pass }
    {
        self.pause(tree);
        load_range::<Brand>(tree, &mut self.pass, index, Blank::new(1))
    }

    /// Whether it is on a walk that is at this index.
    #[inline(always)]
    fn stands_at(&self, from: u64) -> bool
        ensures { result ≡ stands_at self.now.walk from }
    {
        let Some(walk) = &self.walk else {
            return false;
        };
        match walk.at() {
            Some(at) => at == from,
            None => false,
        }
    }

    /// Afterwards it is on a walk that is at this index: on the one that it was on, if that is there.
    #[tactic(auto, using(crate::proofs::Using::walks_from))]
    #[inline(always)]
    pub(crate) fn walk_at(&mut self, tree: &Tree, from: u64)
        requires { IsPassOf tree.now self.old.pass }
        ensures of { IsPassOf tree.now self.new.pass }
        ensures at { IsOnAt self.new.walk (Some from) }
        ensures known { KnowsAs (knows self.old) (knows self.new) }
        ensures begins { IfSome self.new.walk (Continues from self.old self.new.pass) }
        ensures took { Took 0 self.old self.new.pass }
    {
        if self.stands_at(from) {
            return;
        }
        self.pause(tree);
        self.walk = Some(Walk::new(from, u64::MAX));
    }

    /// The next range of the walk that it is on.
    #[tactic(auto, using(crate::proofs::Using::on_answer, crate::proofs::Using::on_walked, crate::proofs::Using::on_place, crate::proofs::Using::goes_on))]
    #[inline(always)]
    fn walk_on(&mut self, tree: &Tree) -> Read<Option<Range>>
        requires of { IsPassOf tree.now self.old.pass }
        requires walk { IsSome self.old.walk }
        ensures of { IsPassOf tree.now self.new.pass }
        ensures read { IfSome self.old.walk (λ walk. IsReadBy tree.now
            (knows self.old) (find_at walk.at last_index) result (knows self.new)) }
        ensures walked { IfSome self.old.walk (λ walk. IfSome self.new.walk
            (HasWalked tree.now self.old.pass walk result self.new.pass)) }
        ensures at { IsOnAt self.new.walk (place_behind result.value last_index) }
    {
        let Some(walk) = &mut self.walk else {
            unreachable!()
        };
        tree.advance(&mut self.pass, walk)
    }

    /// The first range that ends at an index or above, without the lock. The leaf that it is in is kept, and its section is
    /// open, until the walk ends or the handle is used for something else.
    #[tactic(auto, using(crate::proofs::Using::is_on))]
    #[inline(always)]
    fn step(&mut self, tree: &Tree, from: u64) -> Read<Option<Range>>
        requires { IsPassOf tree.now self.old.pass }
        ensures of { IsPassOf tree.now self.new.pass }
        ensures stepped { IsStep tree.now self.old from result self.new }
    {
        self.walk_at(tree, from);
        let read = self.walk_on(tree);
        match read.value {
            Some(_range) => {}
            None => self.pause(tree),
        }
        read
    }

    /// As `step`, from a place; where there is no place it finds nothing.
    #[inline(always)]
    pub fn step_from(&mut self, tree: &Tree, place: Option<u64>) -> Read<Option<Range>>
        requires { IsPassOf tree.now self.old.pass }
        ensures of { IsPassOf tree.now self.new.pass }
        ensures stepped { StepsFrom tree.now self.old place result self.new }
    {
        if let Some(from) = place {
            return self.step(tree, from);
        }
        let Ok(read) = self.ask(tree, &Query::Find { index: 1, max: 0 }) else {
            unreachable!()
        };
        read
    }

    /// Makes one call, if the lock is free.
    #[tactic(auto, using(crate::proofs::Using::tried_made, crate::proofs::Using::tried_once))]
    pub fn try_act(&mut self, tree: &Tree, call: &Call) -> Result<Result<Done, Worn>, Busy>
        requires { IsPassOf tree.now self.old.pass }
        ensures of { IsPassOf tree.now self.new.pass }
        ensures tried { IsTried tree.now (halted self.old) call.now result (knows self.new) }
        ensures once { TriedOnce self.old self.new }
    {
        self.pause(tree);
        tree.try_act(&mut self.pass, call)
    }

    /// With handles that no user has it sees the whole history, if the lock is free. Returns how many calls that has.
    #[tactic(auto, using(crate::proofs::Using::went_once, crate::proofs::Using::others_rest, crate::proofs::Using::kept_known))]
    pub fn meet(&mut self, tree: &Tree, others: &mut [Pass]) -> Result<u64, Busy>
        requires of { IsPassOf tree.now self.old.pass }
        requires others { All (IsSparePass tree.now) others.old }
        ensures of { IsPassOf tree.now self.new.pass }
        ensures others { All (IsSparePass tree.now) others.new }
        ensures met { IfOk result (HaveMet tree.now (halted self.old ∷ map pass_in others.old)
            (knows self.new ∷ map pass_in others.new)) }
        ensures busy { IfErr result (IsBusyOf tree.now) }
        ensures kept { IfErr result
            (λ _. (knows self.new ≡ halted self.old) × (others.new ≡ others.old)) }
        ensures went { WentOnce self.old self.new }
        ensures rest { map turn_seat others.new ≡ map turn_seat others.old }
    {
        self.pause(tree);
        tree.try_meet(&mut self.pass, others)
    }
}
