//! How a tree uses its nodes, and since when its sections are open, for a program that cannot wait.

ghost use Rattle.std.specs.Prelude.{◌≡◌};
ghost use Rattle.mt_base.specs.Passes.{Saw};
ghost use Rattle.mt_base.specs.declared.kinds.Kind.{Kind};
ghost use Rattle.mt_engine.specs.Engine.{IsEngineState};
ghost use Rattle.mt_engine.specs.Rooms.{IsScanned};
ghost use Rattle.mt_rule.specs.Seats.{records_of};
ghost use Rattle.mt_rule.specs.Tokens.{pass_in};
ghost use Rattle.mt_tree.specs.Behind.{behind_lock, IsAtRest};
ghost use Rattle.mt_tree.specs.Looks.{IsLeastBy, IsOldest, IsStatsOf, TellsRows, WasFound};
ghost use Rattle.mt_tree.specs.Trees.{opened, place_of, IsPassOf, Rests};
ghost use Rattle.mt_tree.specs.Works.{IsWorker};

use crate::behind::{Tools, WriterState};
use crate::receipts::Look;
use crate::shapes::Stats;
use crate::trees::Tree;
use crate::works::{begin, by_width, end};
use mt_base::Width;
use mt_engine::Engine;
use mt_free::RowBook;
use mt_pen::Writer;
use mt_rows::Rows;
use mt_rule::{Busy, LongRows, OfWidth, Pass, ShortRows};
use std::marker::Brand;

/// Loads the section words, and frees the nodes that no section holds. Returns the least epoch at which a section is open.
fn clear_old<R: Rows>(rows: &mut R, book: &mut RowBook) -> u64
    requires { (kind : Kind) × IsEngineState kind (R.sheet rows.old) book.old }
    ensures scanned { (kind : Kind) → IsEngineState kind (R.sheet rows.old) book.old
        → IsScanned kind (R.sheet rows.old) (R.sheet rows.new) book.old book.new }
    ensures least { result ≡ (R.sheet rows.new).scan.least }
{
    let scan = rows.scan();
    book.reclaim(scan.least);
    scan.least
}

/// Frees the nodes under the lock that no section holds. Returns the least epoch at which a section is open.
fn oldest_at_work<W: Writer, K: OfWidth>(
    tools: &mut Option<Tools>,
    tree: &Tree,
    pass: &mut Pass,
) -> u64
    requires worker { IsWorker tree.now tools.old pass.old W.table W.turn W.steps K.wide }
    ensures rest { IsAtRest tools.new }
    ensures table { (behind_lock tools.new).table ≡ place_of tree.now }
    ensures of { IsPassOf tree.now pass.new }
    ensures rests { Rests pass.old pass.new }
    ensures seen { (pass_in pass.new).seen ≡ records_of (behind_lock tools.new).pen.history }
    ensures saw { Saw (opened tree.now) (pass_in pass.old) (pass_in pass.new) }
    ensures least { IsLeastBy tree.now (pass_in pass.new).seen (behind_lock tools.old) (behind_lock tools.new) result }
{
    let engine = begin::<W, K>(tools, tree, pass);
    let height = engine.height();
    let (mut rows, mut book) = engine.parts();
    let least = clear_old(&mut rows, &mut book);
    let engine = Engine::of_height(rows, book, tree.shape.kind, height);
    end(tools, tree, engine, pass);
    least
}

impl WriterState {
    /// Frees the nodes that no section holds. Returns the least epoch at which a section is open.
    #[tactic(auto, using(crate::proofs::Keeping::counted_least))]
    fn oldest(&mut self, tree: &Tree, pass: &mut Pass) -> u64
        requires table { self.old.table ≡ place_of tree.now }
        requires pass { IsPassOf tree.now pass.old }
        ensures table { self.new.table ≡ place_of tree.now }
        ensures of { IsPassOf tree.now pass.new }
        ensures rests { Rests pass.old pass.new }
        ensures saw { Saw (opened tree.now) (pass_in pass.old) (pass_in pass.new) }
        ensures least { IsLeastBy tree.now (pass_in pass.new).seen self.old self.new result }
    {
        by_width!(tree, oldest_at_work(&mut self.tools, tree, pass))
    }

    /// How the tree uses its nodes.
    fn stats(&self, tree: &Tree) -> Stats
        requires { self.now.table ≡ place_of tree.now }
        ensures { TellsRows self.now result }
    {
        let calls = self.calls();
        let Some(tools) = &self.tools else {
            unreachable!()
        };
        Stats {
            rows: tree.shape.rows,
            free: tools.book.free(),
            live: tools.book.live(),
            held: tools.book.held(),
            height: tools.height,
            calls,
        }
    }
}

impl Tree {
    /// How the tree uses its nodes after all that the handle has then seen, if the lock is free. It does not wait. The numbers
    /// are those of what the lock protected, which the receipt has.
    ///
    /// # Errors
    ///
    /// `Busy` if the one try found the lock taken. Nothing is changed, and the handle has seen no more.
    pub fn try_stats(&self, pass: &mut Pass) -> Result<(Stats, Look), Busy>
        requires { IsPassOf self.now pass.old }
        ensures found { WasFound IsStatsOf self.now pass.old result pass.new }
    {
        let mut taken = self.try_take(pass)?;
        let took = taken.value.snapshot(self);
        let stats = taken.value.stats(self);
        taken.value.show(self, pass);
        Ok((stats, self.give_looked(taken, took)))
    }

    /// If the lock is free: when the sections that are now open were opened, at least this many calls had ended. If none is
    /// open, it is the number of all calls. It does not wait. It frees the nodes that no section holds. The receipt has the
    /// section words that it loaded.
    ///
    /// # Errors
    ///
    /// `Busy` if the one try found the lock taken. Nothing is changed, and the handle has seen no more.
    pub fn try_oldest(&self, pass: &mut Pass) -> Result<(u64, Look), Busy>
        requires { IsPassOf self.now pass.old }
        ensures found { WasFound IsOldest self.now pass.old result pass.new }
    {
        let mut taken = self.try_take(pass)?;
        let took = taken.value.snapshot(self);
        let least = taken.value.oldest(self, pass);
        let calls = taken.value.calls();
        let look = self.give_looked(taken, took);
        Ok((least.min(calls), look))
    }
}
