//! What the lock of a tree protects.

ghost use Rattle.std.specs.Prelude.{◌≡◌, ◌↔◌, ◌+◌, ◌<◌, ◌≤◌, Some, None, true, false, [], length, IsOk, IsTrue, IfOk, IfErr};
ghost use Rattle.std.specs.List.{AllByRecursion};
ghost use Rattle.mt_base.specs.declared.calls.Call.TheVariants.{StorePre};
ghost use Rattle.mt_base.specs.Passes as known;
ghost use Rattle.mt_base.specs.Passes.{Wrote};
ghost use Rattle.mt_engine.specs.Engine.{is_refusal};
ghost use Rattle.mt_rule.specs.Seats.{records_of};
ghost use Rattle.mt_rule.specs.Tokens.{pass_in, WasShown};
ghost use Rattle.mt_tree.specs.Behind.{after_show, IsReady, IsStoreReply};
ghost use Rattle.mt_tree.specs.Trees.{opened, limit_of, passes_of, place_of, Acts, IsPassOf, IsShortNow};
ghost use Rattle.mt_tree.specs.Trees.{IsWorn, NamesPass, Rests, WasAnsweredBy, WasPrepared};
ghost use Rattle.mt_tree.specs.Works.{LookedBehind};

use crate::counts::counted;
use crate::inspects::AnswerOf;
use crate::trees::Tree;
use crate::works::{act, by_width, preallocate, store_prealloc};
use mt_base::{Call, Done, Query, Range, Read, Shortage, Width, Worn};
use mt_free::RowBook;
use mt_rule::{LongRows, OfTable, Pass, Pen, ShortRows};
use std::marker::{Brand, Model};
use std::mem;

/// The pen of a tree, the book of its nodes, and how many levels it has.
#[derive(Drop)]
pub struct Tools {
    pub(crate) pen: Pen,
    pub(crate) book: RowBook,
    pub(crate) height: u64,
}

/// The state of a tree's writers: the tools with which it is written, and how many ranges the tree has, if that is known. The
/// tools are away only while a call is at work. While the lock is free, no handle is joined with the pen, and the words
/// represent the map after all calls.
#[derive(Drop)]
pub struct WriterState {
    pub(crate) tools: Option<Tools>,
    pub(crate) ranges: Option<u64>,
}

impl Model for WriterState {
    ghost use Rattle.mt_tree.specs.Behind.{Behind, behind_lock, IsAtRest, IsCountBehind};

    ghost Value = { Behind };

    ghost view = { λ s. behind_lock s.tools };

    ghost invariant = { λ s. IsAtRest s.tools × IsCountBehind s.ranges (behind_lock s.tools) };
}

impl OfTable for WriterState {
    ghost table = { λ s. s.table };
}

impl WriterState {
    /// The handle sees the whole history. Returns how many calls have ended.
    pub(crate) fn show(&mut self, tree: &Tree, pass: &mut Pass) -> u64
        requires table { self.old.table ≡ place_of tree.now }
        requires pass { IsPassOf tree.now pass.old }
        ensures state { self.new ≡ after_show self.old }
        ensures of { IsPassOf tree.now pass.new }
        ensures shown { WasShown (opened tree.now) self.old.pen (pass_in pass.old) (pass_in pass.new) }
        ensures count { result ≡ length self.old.pen.history }
        ensures shape { self.old.pen.shape ≡ (place_of tree.now).shape }
        ensures rests { Rests pass.old pass.new }
    {
        let Some(
            Tools {
                mut pen,
                book,
                height,
            },
        ) = self.tools.take()
        else {
            unreachable!()
        };
        let calls = tree
            .table
            .join_pen(&mut pen, mem::replace(pass, Pass::away()));
        *pass = tree.table.split_pen(&mut pen);
        self.tools = Some(Tools { pen, book, height });
        calls
    }

    /// How many calls have ended.
    pub(crate) fn calls(&self) -> u64
        ensures { result ≡ length self.now.pen.history }
    {
        let Some(tools) = &self.tools else {
            unreachable!()
        };
        tools.pen.ended()
    }

    /// Makes one call.
    #[tactic(auto, using(crate::proofs::Keeping::counted_after))]
    pub(crate) fn act(&mut self, tree: &Tree, pass: &mut Pass, call: &Call) -> Result<Done, Worn>
        requires table { self.old.table ≡ place_of tree.now }
        requires pass { IsPassOf tree.now pass.old }
        ensures table { self.new.table ≡ place_of tree.now }
        ensures of { IsPassOf tree.now pass.new }
        ensures rests { Rests pass.old pass.new }
        ensures seen { (pass_in pass.new).seen ≡ records_of self.new.pen.history }
        ensures done { IfOk result
            (λ d. Wrote (opened tree.now) (pass_in pass.old) d.call call.now d.reply (pass_in pass.new) × (d.call ≤ limit_of tree.now)) }
        ensures number { IfOk result (λ d. d.call ≡ length self.old.pen.history + 1) }
        ensures callers { IfOk result (λ d. AllByRecursion (λ r. r.pass < passes_of tree.now) (pass_in pass.new).seen) }
        ensures named { IfOk result (λ d. NamesPass tree.now d.reply) }
        ensures worn { IfErr result (λ w. IsWorn tree.now (pass_in pass.old) w (pass_in pass.new) × (self.new ≡ after_show self.old)) }
        ensures kept { IfOk result (λ d. is_refusal d.reply ≡ true → self.new.parts.sheet.tree ≡ self.old.parts.sheet.tree) }
        ensures acts { IfOk result (λ d. is_refusal d.reply ≡ false → Acts self.old self.new call.now d.reply) }
        ensures answered { IfOk result (λ d. WasAnsweredBy tree.now (pass_in pass.new) self.old self.new call.now d) }
    {
        let calls = self.calls();
        if calls == tree.shape.calls {
            self.show(tree, pass);
            return Err(Worn { calls });
        }
        let before = self.ranges;
        let reply = by_width!(tree, act(&mut self.tools, tree, pass, call));
        self.ranges = counted(None, before, call, reply);
        Ok(Done {
            call: calls + 1,
            reply,
        })
    }

    /// Makes a store for which nodes were found free.
    pub(crate) fn store_prealloc(
        &mut self,
        tree: &Tree,
        pass: &mut Pass,
        first: u64,
        last: u64,
        entry: u64,
    ) -> Result<Done, Worn>
        requires table { self.old.table ≡ place_of tree.now }
        requires pass { IsPassOf tree.now pass.old }
        requires ready { IsReady self.old.parts }
        ensures table { self.new.table ≡ place_of tree.now }
        ensures of { IsPassOf tree.now pass.new }
        ensures rests { Rests pass.old pass.new }
        ensures seen { (pass_in pass.new).seen ≡ records_of self.new.pen.history }
        ensures done { IfOk result (λ d. Wrote (opened tree.now) (pass_in pass.old) d.call (StorePre first last entry) d.reply (pass_in pass.new)
            × (d.call ≤ limit_of tree.now)) }
        ensures named { IfOk result (λ d. NamesPass tree.now d.reply) }
        ensures stored { IfOk result (λ d. IsStoreReply d.reply) }
        ensures worn { IfErr result (λ w. IsWorn tree.now (pass_in pass.old) w (pass_in pass.new) × (self.new ≡ after_show self.old)) }
        ensures kept { IfOk result (λ d. is_refusal d.reply ≡ true → self.new.parts.sheet.tree ≡ self.old.parts.sheet.tree) }
        ensures unscanned { self.new.pen.sections ≡ [] }
    {
        let calls = self.calls();
        if calls == tree.shape.calls {
            self.show(tree, pass);
            return Err(Worn { calls });
        }
        let reply = by_width!(
            tree,
            store_prealloc(&mut self.tools, tree, pass, first, last, entry)
        );
        self.ranges = None;
        Ok(Done {
            call: calls + 1,
            reply,
        })
    }

    /// Answers one query.
    #[tactic(auto, using(crate::proofs::Reading::asked))]
    pub(crate) fn ask(&mut self, tree: &Tree, pass: &mut Pass, query: &Query) -> Read<Option<Range>>
        requires table { self.old.table ≡ place_of tree.now }
        requires pass { IsPassOf tree.now pass.old }
        ensures looked { LookedBehind tree.now self.old self.new pass.old pass.new }
        ensures window { (result.lo ≡ length (pass_in pass.new).seen) × (result.hi ≡ result.lo) }
        ensures read { known.Read (opened tree.now) (pass_in pass.old) result.lo result.hi result.lo query.now result.value (pass_in pass.new) }
    {
        let calls = self.calls();
        let value = self.inspect(tree, pass, AnswerOf { query });
        Read {
            lo: calls,
            hi: calls,
            value,
        }
    }

    /// Makes the tree ready for a store.
    #[tactic(auto, using(crate::proofs::Keeping::counted_prepared))]
    pub(crate) fn preallocate(&mut self, tree: &Tree, pass: &mut Pass) -> Result<(), Shortage>
        requires table { self.old.table ≡ place_of tree.now }
        requires pass { IsPassOf tree.now pass.old }
        ensures prepared { WasPrepared tree.now self.old self.new }
        ensures of { IsPassOf tree.now pass.new }
        ensures rests { Rests pass.old pass.new }
        ensures seen { (pass_in pass.new).seen ≡ records_of self.new.pen.history }
        ensures saw { known.Saw (opened tree.now) (pass_in pass.old) (pass_in pass.new) }
        ensures ready { IsOk result ↔ IsReady self.new.parts }
        ensures short { IfErr result (λ shortage. IsShortNow tree.now (pass_in pass.new) self.old self.new shortage) }
    {
        by_width!(tree, preallocate(&mut self.tools, tree, pass))
    }

    /// Whether a store may be made for which nodes were found free.
    pub(crate) fn ready(&self) -> bool
        ensures { IsTrue result ↔ IsReady self.now.parts }
    {
        let Some(tools) = &self.tools else {
            unreachable!()
        };
        3 * tools.height + 1 <= tools.book.free()
    }
}
