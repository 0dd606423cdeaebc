//! Calls at work: the tools are taken from under the lock, an engine works on the table's nodes, and they are put back.

ghost use Rattle.std.specs.Prelude.{◌≡◌, ◌↔◌, ◌+◌, ◌<◌, ◌≤◌, None, true, false, [], length, IsOk, IfErr};
ghost use Rattle.std.specs.List.{AllByRecursion};
ghost use Rattle.mt_base.specs.declared.calls.Call.TheVariants.{StorePre};
ghost use Rattle.mt_base.specs.Passes as known;
ghost use Rattle.mt_engine.specs.Engine.{is_refusal, IsApplied};
ghost use Rattle.mt_rule.specs.Seats.{records_of};
ghost use Rattle.mt_rule.specs.Tokens.{pass_in, turn_seat, WasShown};
ghost use Rattle.mt_pen.specs.Sheets.{sheet_told};
ghost use Rattle.mt_tree.specs.Behind.{behind_lock, IsAtRest, IsReady, IsStoreReply};
ghost use Rattle.mt_tree.specs.Trees.{opened, limit_of, passes_of, place_of, Acts, IsPassOf, IsShortNow};
ghost use Rattle.mt_tree.specs.Trees.{NamesPass, Rests, WasAnsweredBy, WasPrepared, steps_made};
ghost use Rattle.mt_tree.specs.Works.{AreBack, AtWork, IsSeatOf, IsWorker, records_told, shown_pass};
ghost use Rattle.mt_base.specs.Limits.{most_calls};

use crate::behind::Tools;
use crate::trees::Tree;
use mt_base::{Call, Reply, Shortage};
use mt_engine::Engine;
use mt_pen::{PenRows, Writer};
use mt_rows::Rows;
use mt_rule::{OfWidth, Pass};
use std::mem;

/// A work on the nodes of a tree, once for each width.
macro_rules! by_width {
    ($tree:expr, $work:ident($($arg:expr),*)) => {
        match $tree.table.width() {
            Width::Long => $work::<Brand, LongRows>($($arg),*),
            Width::Short => $work::<Brand, ShortRows>($($arg),*),
        }
    };
}

pub(crate) use by_width;

/// Takes the tools, for a call of the handle, which is then away: an engine works on the table's nodes.
pub(crate) fn begin<'a, W: Writer, K: OfWidth>(
    tools: &mut Option<Tools>,
    tree: &'a Tree,
    pass: &mut Pass,
) -> Engine<PenRows<'a, W, K>>
    requires worker { IsWorker tree.now tools.old pass.old W.table W.turn W.steps K.wide }
    ensures away { tools.new ≡ None }
    ensures seat { IsSeatOf tree.now W.turn }
    ensures kind { tree.now.shape.kind ≡ result.kind }
    ensures work { AtWork tree.now W.table (behind_lock tools.old) (pass_in pass.old) result }
{
    let Some(Tools { pen, book, height }) = tools.take() else {
        unreachable!()
    };
    let rows = PenRows::new(&tree.table, pen, mem::replace(pass, Pass::away()));
    Engine::of_height(rows, book, tree.shape.kind, height)
}

/// Puts the tools back, and gives the handle what it then knows.
pub(crate) fn end<W: Writer, K: OfWidth>(
    tools: &mut Option<Tools>,
    tree: &Tree,
    engine: Engine<PenRows<W, K>>,
    pass: &mut Pass,
)
    requires table { W.table ≡ place_of tree.now }
    requires turn { IsSeatOf tree.now W.turn }
    requires few { length (records_told engine.sheet.told) ≤ limit_of tree.now }
    ensures back { AreBack tree.now engine.entry tools.new pass.new }
    ensures turn { turn_seat pass.new ≡ W.turn }
    ensures counted { steps_made pass.new ≡ W.steps }
{
    let height = engine.height();
    let (rows, book) = engine.parts();
    let (pen, back) = rows.end();
    *pass = back;
    *tools = Some(Tools { pen, book, height });
}

/// Makes one call with an engine, and returns the engine. It is moved here once the handle is joined, so that the program
/// writes it down where it stays. That makes a call a thirtieth faster.
fn applied<R: Rows>(engine: Engine<R>, call: &Call) -> (Engine<R>, Reply)
    requires { engine.sheet.ended < most_calls }
    ensures applied { IsApplied engine.kind engine.sheet result.0.sheet engine.book result.0.book call.now result.1 }
    ensures kind { result.0.kind ≡ engine.kind }
{
    let mut engine = engine;
    let reply = engine.apply(call);
    (engine, reply)
}

/// Makes one call.
pub(crate) fn act<W: Writer, K: OfWidth>(
    tools: &mut Option<Tools>,
    tree: &Tree,
    pass: &mut Pass,
    call: &Call,
) -> Reply
    requires worker { IsWorker tree.now tools.old pass.old W.table W.turn W.steps K.wide }
    requires room { length (behind_lock tools.old).pen.history < limit_of tree.now }
    ensures rest { IsAtRest tools.new }
    ensures table { (behind_lock tools.new).table ≡ place_of tree.now }
    ensures of { IsPassOf tree.now pass.new }
    ensures rests { Rests pass.old pass.new }
    ensures seen { (pass_in pass.new).seen ≡ records_of (behind_lock tools.new).pen.history }
    ensures wrote { known.Wrote (opened tree.now) (pass_in pass.old) (length (behind_lock tools.old).pen.history + 1) call.now result (pass_in pass.new) }
    ensures callers { AllByRecursion (λ r. r.pass < passes_of tree.now) (pass_in pass.new).seen }
    ensures named { NamesPass tree.now result }
    ensures kept { is_refusal result ≡ true → (behind_lock tools.new).parts.sheet.tree ≡ (behind_lock tools.old).parts.sheet.tree }
    ensures acts { is_refusal result ≡ false → Acts (behind_lock tools.old) (behind_lock tools.new) call.now result }
    ensures answered { WasAnsweredBy tree.now (pass_in pass.new) (behind_lock tools.old)
        (behind_lock tools.new) call.now (record { call = length (behind_lock tools.old).pen.history + 1; reply = result }) }
{
    let engine = begin::<W, K>(tools, tree, pass);
    let (engine, reply) = applied(engine, call);
    end(tools, tree, engine, pass);
    reply
}

/// Makes a store for which nodes were found free.
pub(crate) fn store_prealloc<W: Writer, K: OfWidth>(
    tools: &mut Option<Tools>,
    tree: &Tree,
    pass: &mut Pass,
    first: u64,
    last: u64,
    entry: u64,
) -> Reply
    requires worker { IsWorker tree.now tools.old pass.old W.table W.turn W.steps K.wide }
    requires room { length (behind_lock tools.old).pen.history < limit_of tree.now }
    requires ready { IsReady (behind_lock tools.old).parts }
    ensures rest { IsAtRest tools.new }
    ensures table { (behind_lock tools.new).table ≡ place_of tree.now }
    ensures of { IsPassOf tree.now pass.new }
    ensures rests { Rests pass.old pass.new }
    ensures seen { (pass_in pass.new).seen ≡ records_of (behind_lock tools.new).pen.history }
    ensures wrote { known.Wrote (opened tree.now)
        (pass_in pass.old) (length (behind_lock tools.old).pen.history + 1) (StorePre first last entry) result (pass_in pass.new) }
    ensures named { NamesPass tree.now result }
    ensures stored { IsStoreReply result }
    ensures kept { is_refusal result ≡ true → (behind_lock tools.new).parts.sheet.tree ≡ (behind_lock tools.old).parts.sheet.tree }
    ensures unscanned { (behind_lock tools.new).pen.sections ≡ [] }
{
    let mut engine = begin::<W, K>(tools, tree, pass);
    let reply = engine.store_prealloc(first, last, entry);
    end(tools, tree, engine, pass);
    reply
}

/// Makes the tree ready for a store.
pub(crate) fn preallocate<W: Writer, K: OfWidth>(
    tools: &mut Option<Tools>,
    tree: &Tree,
    pass: &mut Pass,
) -> Result<(), Shortage>
    requires worker { IsWorker tree.now tools.old pass.old W.table W.turn W.steps K.wide }
    ensures rest { IsAtRest tools.new }
    ensures prepared { WasPrepared tree.now (behind_lock tools.old) (behind_lock tools.new) }
    ensures of { IsPassOf tree.now pass.new }
    ensures rests { Rests pass.old pass.new }
    ensures seen { (pass_in pass.new).seen ≡ records_of (behind_lock tools.new).pen.history }
    ensures saw { known.Saw (opened tree.now) (pass_in pass.old) (pass_in pass.new) }
    ensures ready { IsOk result ↔ IsReady (behind_lock tools.new).parts }
    ensures short { IfErr result (λ shortage. IsShortNow tree.now (pass_in pass.new) (behind_lock tools.old) (behind_lock tools.new) shortage) }
{
    let mut engine = begin::<W, K>(tools, tree, pass);
    let made = engine.preallocate();
    end(tools, tree, engine, pass);
    made
}
