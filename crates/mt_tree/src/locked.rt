//! Several calls under one lock.

ghost use Rattle.std.specs.Prelude.{◌≡◌, ◌↔◌, ◌+◌, ◌≤◌, ◌<◌, Option, true, [], length, IsOk, IsTrue, IfOk, IfErr};
ghost use Rattle.std.specs.List.{AllByRecursion};
ghost use Rattle.atomic_table.specs.declared.shared.Seat.{Seat};
ghost use Rattle.mt_base.specs.declared.calls.Call.TheVariants.{StorePre};
ghost use Rattle.mt_base.specs.Passes as known;
ghost use Rattle.mt_base.specs.Passes.{Saw, Wrote};
ghost use Rattle.mt_engine.specs.Engine.{is_refusal};
ghost use Rattle.mt_rule.specs.declared.views.TurnView.{TurnView};
ghost use Rattle.mt_rule.specs.Tokens.{pass_in};
ghost use Rattle.mt_tree.specs.Behind.{Behind, after_show, IsReady, IsStoreReply};
ghost use Rattle.mt_tree.specs.Trees.{opened, limit_of, map_seen, passes_of, IsPassOf, IsOpen, IsShortNow};
ghost use Rattle.mt_tree.specs.Trees.{IsWorn, NamesPass, Rests, TriesOnce, WasAnsweredBy, WasPrepared};
ghost use Rattle.mt_tree.specs.Works.{LookedUnder};

use crate::behind::WriterState;
use crate::inspects::RangesOf;
use crate::trees::Tree;
use mt_base::{Call, Done, NoMemory, Query, Range, Read, Shortage, Worn};
use mt_rule::{Pass, Taken};
use std::alloc::Global;
use std::sync::Wait;

/// What is held while a tree is locked.
pub trait HoldsLock {
    /// What the lock protects.
    ghost behind: { Self → Behind };

    /// The seat (token) that has it.
    ghost seat: { Self → Seat (Option Behind) TurnView };
}

impl HoldsLock for Taken<WriterState> {
    ghost behind = { λ taken. taken.value };

    ghost seat = { λ taken. taken.seat };
}

/// A tree that a handle has locked, which has seen the whole history.
pub struct Locked<'a, K: HoldsLock> {
    pub(crate) tree: &'a Tree,
    pub(crate) pass: &'a mut Pass,
    pub(crate) taken: K,
    ghost open: { IsOpen tree.now pass.now (K.behind taken) (K.seat taken) },
}

/// A tree that a handle has locked. `unlock` gives it back.
pub type Write<'a> = Locked<'a, Taken<WriterState>>;

impl Tree {
    /// Waits for the lock. The handle has then seen the whole history, all of whose calls are of the tree's handles.
    pub fn lock<'a>(&'a self, rt: &impl Wait, pass: &'a mut Pass) -> Write<'a>
        requires { IsPassOf self.now pass.old }
        ensures same_reference { result.pass.ghost_name ≡ pass.entry.ghost_name }
        ensures tree { result.tree.now ≡ self.now }
        ensures saw { Saw (opened self.now) (pass_in pass.old) (pass_in result.pass.now) }
        ensures callers { AllByRecursion (λ r. r.pass < passes_of self.now) (pass_in result.pass.now).seen }
        ensures tries { TriesOnce pass.old result.pass.now }
    {
        let mut taken = self.take(rt, pass);
        taken.value.show(self, pass);
        Locked {
            tree: self,
            pass,
            taken,
        }
    }
}

impl<'a> Locked<'a, Taken<WriterState>> {
    /// Makes one call. A call that needs nodes first loads the section words and frees the nodes that no section holds. It is
    /// refused with `NoNodes` if too few are then free. Any other call loads no section word. A call that is refused leaves
    /// every word. Its number is the next: no call of another handle comes between.
    #[tactic(auto, using(crate::proofs::Lending::next_call, crate::proofs::Lending::none_since))]
    pub fn act(&mut self, call: &Call) -> Result<Done, Worn>
        ensures same_reference { self.new.pass.ghost_name ≡ self.old.pass.ghost_name }
        ensures tree { self.new.tree ≡ self.old.tree }
        ensures rests { Rests self.old.pass.now self.new.pass.now }
        ensures done { IfOk result (λ d. Wrote (opened self.old.tree.now)
            (pass_in self.old.pass.now) d.call call.now d.reply (pass_in self.new.pass.now) × (d.call ≤ limit_of self.old.tree.now)) }
        ensures number { IfOk result (λ d. d.call ≡ length (pass_in self.old.pass.now).seen + 1) }
        ensures callers { IfOk result (λ d. AllByRecursion (λ r. r.pass < passes_of self.old.tree.now) (pass_in self.new.pass.now).seen) }
        ensures still { IfErr result (λ w. (pass_in self.new.pass.now).seen ≡ (pass_in self.old.pass.now).seen) }
        ensures named { IfOk result (λ d. NamesPass self.old.tree.now d.reply) }
        ensures worn { IfErr result (λ w. IsWorn self.old.tree.now (pass_in self.old.pass.now) w (pass_in self.new.pass.now)
            × (self.new.taken.value ≡ after_show self.old.taken.value)) }
        ensures kept { IfOk result (λ d. is_refusal d.reply ≡ true → self.new.taken.value.parts.sheet.tree ≡ self.old.taken.value.parts.sheet.tree) }
        ensures answered { IfOk result
            (λ d. WasAnsweredBy self.old.tree.now (pass_in self.new.pass.now) self.old.taken.value self.new.taken.value call.now d) }
    {
        let taken = &mut self.taken;
        taken.value.act(self.tree, self.pass, call)
    }

    /// Answers one query. It is no call of the history.
    #[tactic(auto, using(crate::proofs::Lending::looked_under))]
    pub fn ask(&mut self, query: &Query) -> Read<Option<Range>>
        ensures same_reference { self.new.pass.ghost_name ≡ self.old.pass.ghost_name }
        ensures tree { self.new.tree ≡ self.old.tree }
        ensures looked { LookedUnder self.old.tree.now self.old.taken.value self.new.taken.value self.old.pass.now self.new.pass.now }
        ensures window { (result.lo ≡ length (pass_in self.old.pass.now).seen) × (result.hi ≡ result.lo) }
        ensures read { known.Read (opened self.old.tree.now)
            (pass_in self.old.pass.now) result.lo result.hi result.lo query.now result.value (pass_in self.new.pass.now) }
    {
        let taken = &mut self.taken;
        taken.value.ask(self.tree, self.pass, query)
    }

    /// Makes the tree ready for a store, which is then not refused because nodes are short. It frees the held nodes that died
    /// up to the least epoch at which a section is open. If too few nodes are then free, the shortage says so. It is no call of
    /// the history.
    pub fn preallocate(&mut self) -> Result<(), Shortage>
        ensures same_reference { self.new.pass.ghost_name ≡ self.old.pass.ghost_name }
        ensures tree { self.new.tree ≡ self.old.tree }
        ensures rests { Rests self.old.pass.now self.new.pass.now }
        ensures pass { pass_in self.new.pass.now ≡ pass_in self.old.pass.now }
        ensures prepared { WasPrepared self.old.tree.now self.old.taken.value self.new.taken.value }
        ensures ready { IsOk result ↔ IsReady self.new.taken.value.parts }
        ensures short { IfErr result
            (λ shortage. IsShortNow self.old.tree.now (pass_in self.old.pass.now) self.old.taken.value self.new.taken.value shortage) }
    {
        let taken = &mut self.taken;
        taken.value.preallocate(self.tree, self.pass)
    }

    /// Whether a store may be made by `store_prealloc`.
    pub fn ready(&self) -> bool
        ensures { IsTrue result ↔ IsReady self.now.taken.value.parts }
    {
        self.taken.value.ready()
    }

    /// Makes a store for which the tree is ready. It is never refused for lack of nodes, and loads no section word.
    pub fn store_prealloc(&mut self, first: u64, last: u64, entry: u64) -> Result<Done, Worn>
        requires { IsReady self.old.taken.value.parts }
        ensures same_reference { self.new.pass.ghost_name ≡ self.old.pass.ghost_name }
        ensures tree { self.new.tree ≡ self.old.tree }
        ensures rests { Rests self.old.pass.now self.new.pass.now }
        ensures done { IfOk result (λ d. Wrote (opened self.old.tree.now) (pass_in self.old.pass.now) d.call
            (StorePre first last entry) d.reply (pass_in self.new.pass.now) × (d.call ≤ limit_of self.old.tree.now)) }
        ensures named { IfOk result (λ d. NamesPass self.old.tree.now d.reply) }
        ensures stored { IfOk result (λ d. IsStoreReply d.reply) }
        ensures worn { IfErr result (λ w. IsWorn self.old.tree.now (pass_in self.old.pass.now) w (pass_in self.new.pass.now)
            × (self.new.taken.value ≡ after_show self.old.taken.value)) }
        ensures kept { IfOk result (λ d. is_refusal d.reply ≡ true → self.new.taken.value.parts.sheet.tree ≡ self.old.taken.value.parts.sheet.tree) }
        ensures unscanned { self.new.taken.value.pen.sections ≡ [] }
    {
        let taken = &mut self.taken;
        taken
            .value
            .store_prealloc(self.tree, self.pass, first, last, entry)
    }

    /// Copies the ranges out, in rising order.
    #[tactic(auto, using(crate::proofs::Lending::looked_under))]
    pub fn list(&mut self, alloc: Global) -> Result<Vec<Range>, NoMemory>
        ensures same_reference { self.new.pass.ghost_name ≡ self.old.pass.ghost_name }
        ensures tree { self.new.tree ≡ self.old.tree }
        ensures looked { LookedUnder self.old.tree.now self.old.taken.value self.new.taken.value self.old.pass.now self.new.pass.now }
        ensures items { IfOk result (λ ranges. ranges.items ≡ map_seen self.old.tree.now (pass_in self.old.pass.now)) }
    {
        let taken = &mut self.taken;
        taken
            .value
            .inspect(self.tree, self.pass, RangesOf { alloc })
    }

    /// Gives the lock back. The handle is as the last call left it.
    pub fn unlock(self)
        ensures pass { self.exit.1.0.now ≡ self.entry.pass.now }
        ensures of { IsPassOf self.entry.tree.now self.exit.1.0.now }
    {
        let Locked {
            tree,
            pass: _,
            taken,
        } = self;
        tree.turn.give(taken);
    }
}
