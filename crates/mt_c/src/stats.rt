//! How a tree uses its nodes.

ghost use Rattle.std.specs.Prelude.{◌≡◌};
ghost use Rattle.mt_c.specs.Calls.{IsAsked};
ghost use Rattle.mt_c.specs.Stats as defined;
ghost use Rattle.mt_c.specs.Stats.{HasStats, TellsTree};

use crate::handle::TreeHandle;
use crate::own_tree::OwnTree;
use crate::told::EBADF;
use core::mem::replace_with;
use mt_base::Kind;
use mt_engine::Engine;
use mt_rows::{PlainRows, Rows};
use std::alloc::Global;

/// How a tree uses its nodes, as C has it: `struct maple_stats`.
#[repr(C)]
#[derive(Clone, Copy, Debug, PartialEq, Eq)]
pub struct OutStats {
    pub rows: u64,
    pub free: u64,
    pub live: u64,
    pub held: u64,
    pub height: u64,
    pub calls: u64,
}

/// The result if there is no tree.
pub fn no_stats() -> OutStats
    ensures { result ≡ defined.no_stats }
{
    OutStats {
        rows: 0,
        free: 0,
        live: 0,
        held: 0,
        height: 0,
        calls: 0,
    }
}

/// How an engine's tree uses its nodes, after this many calls.
#[tactic(auto, using(crate::proofs::Reading::put_together, crate::proofs::Counting::tells_tree, crate::proofs::Counting::still_high))]
fn stats_of(engine: Engine<PlainRows>, by: (Kind, u64)) -> (Engine<PlainRows>, OutStats)
    requires kind { by.0 ≡ engine.kind }
    requires calls { by.1 ≡ engine.sheet.ended }
    ensures rest { IsAsked engine result.0 }
    ensures stats { TellsTree engine result.1 }
{
    let (kind, calls) = by;
    let height = engine.height();
    let (rows, book) = engine.parts();
    let stats = OutStats {
        rows: rows.size(),
        free: book.free(),
        live: book.live(),
        held: book.held(),
        height,
        calls,
    };
    (Engine::of_height(rows, book, kind, height), stats)
}

/// As `stats_of`, of an engine that stays in its place.
fn stats_in(engine: &mut Engine<PlainRows>, by: (Kind, u64)) -> OutStats
    requires kind { by.0 ≡ engine.old.kind }
    requires calls { by.1 ≡ engine.old.sheet.ended }
    ensures rest { IsAsked engine.old engine.new }
    ensures stats { TellsTree engine.old result }
{
    replace_with(engine, by, stats_of)
}

impl OwnTree {
    /// How it uses its nodes.
    fn stats(&mut self) -> OutStats
        ensures rest { IsAsked self.old.engine self.new.engine }
        ensures stats { TellsTree self.old.engine result }
    {
        let by = (self.kind, self.calls);
        stats_in(&mut self.engine, by)
    }
}

/// Tells how a tree uses its nodes.
#[tactic(auto, using(crate::proofs::Counting::stats_open, crate::proofs::Counting::stats_closed))]
#[unsafe(no_mangle)]
pub extern "C" fn maple_stats(alloc: Global, tree: &mut TreeHandle, stats: &mut OutStats) -> u32
    ensures { HasStats tree.old.kept.value tree.new.kept.value result stats.new }
{
    let Some(mut whole) = tree.take(alloc) else {
        *stats = no_stats();
        return EBADF;
    };
    let told = whole.stats();
    tree.put(whole);
    *stats = told;
    0
}
