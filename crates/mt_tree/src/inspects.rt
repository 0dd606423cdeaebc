//! What is found of the nodes that a tree's lock protects, by a work that only reads.

ghost use Rattle.std.specs.Prelude.{◌≡◌, IfOk};
ghost use Rattle.mt_base.specs.Call.{answer};
ghost use Rattle.mt_base.specs.declared.kinds.Kind.{Kind};
ghost use Rattle.mt_rows.specs.Publish.{map_by};
ghost use Rattle.mt_rows.specs.Sheet.{OnlyReads};
ghost use Rattle.mt_tree.specs.Prelude.{Rooted};
ghost use Rattle.mt_tree.specs.Behind.{behind_lock, IsAtRest};
ghost use Rattle.mt_tree.specs.Trees.{opened, place_of, IsPassOf};
ghost use Rattle.mt_tree.specs.Works.{IsWorker, LookedBehind};

use crate::behind::{Tools, WriterState};
use crate::trees::Tree;
use crate::works::{begin, end};
use mt_base::{Kind, NoMemory, Query, Range, Width};
use mt_engine::Engine;
use mt_pen::Writer;
use mt_rows::Rows;
use mt_rule::{LongRows, OfWidth, Pass, ShortRows};
use std::alloc::Global;
use std::marker::Brand;

/// Something that is found of an engine's tree, which is only read. `may` is what it asks of the words, and `finds` what is
/// found of them.
pub(crate) trait Inspect {
    type Found;

    ghost may: { Self → Kind → Rooted → Type 0 };

    ghost finds: { Self → Kind → Rooted → Self.Found → Type 0 };

    fn inspect<R: Rows>(self, engine: Engine<R>, kind: Kind) -> (Engine<R>, Self::Found)
        requires kind { kind ≡ engine.kind }
        requires may { may self kind engine.sheet.tree }
        ensures rest { OnlyReads engine.sheet result.0.sheet }
        ensures book { result.0.book ≡ engine.book }
        ensures kind { result.0.kind ≡ engine.kind }
        ensures finds { finds self kind engine.sheet.tree result.1 };
}

/// Takes the tools, finds it, and puts them back.
fn inspect_at_work<W: Writer, K: OfWidth, I: Inspect>(
    tools: &mut Option<Tools>,
    tree: &Tree,
    pass: &mut Pass,
    what: I,
) -> I::Found
    requires worker { IsWorker tree.now tools.old pass.old W.table W.turn W.steps K.wide }
    requires may { I.may what (opened tree.now).kind (behind_lock tools.old).parts.sheet.tree }
    ensures rest { IsAtRest tools.new }
    ensures looked { LookedBehind tree.now (behind_lock tools.old) (behind_lock tools.new) pass.old pass.new }
    ensures finds { I.finds what (opened tree.now).kind (behind_lock tools.old).parts.sheet.tree result }
{
    let engine = begin::<W, K>(tools, tree, pass);
    let (engine, found) = what.inspect(engine, tree.shape.kind);
    end(tools, tree, engine, pass);
    found
}

impl WriterState {
    /// Finds it of the tree's words.
    #[tactic(auto, using(crate::proofs::Keeping::counted_looked))]
    pub(crate) fn inspect<I: Inspect>(&mut self, tree: &Tree, pass: &mut Pass, what: I) -> I::Found
        requires table { self.old.table ≡ place_of tree.now }
        requires pass { IsPassOf tree.now pass.old }
        requires may { I.may what (opened tree.now).kind self.old.parts.sheet.tree }
        ensures looked { LookedBehind tree.now self.old self.new pass.old pass.new }
        ensures finds { I.finds what (opened tree.now).kind self.old.parts.sheet.tree result }
    {
        match tree.table.width() {
            Width::Long => inspect_at_work::<Brand, LongRows, I>(&mut self.tools, tree, pass, what),
            Width::Short => inspect_at_work::<Brand, ShortRows, I>(
                &mut self.tools,
                tree,
                pass,
                what,
            ),
        }
    }
}

/// All ranges of a tree.
#[derive(Drop)]
pub(crate) struct RangesOf {
    pub(crate) alloc: Global,
}

impl Inspect for RangesOf {
    type Found = Result<Vec<Range>, NoMemory>;

    ghost may = { λ _ _ _. Unit {0} };

    ghost finds = { λ _ _ words ranges. IfOk ranges (λ list. list.items ≡ map_by words) };

    fn inspect<R: Rows>(
        self,
        engine: Engine<R>,
        kind: Kind,
    ) -> (Engine<R>, Result<Vec<Range>, NoMemory>) {
        let mut engine = engine;
        let ranges = engine.list(self.alloc);
        (engine, ranges)
    }
}

/// The answer of a query.
#[derive(Drop)]
pub(crate) struct AnswerOf<'a> {
    pub(crate) query: &'a Query,
}

impl<'a> Inspect for AnswerOf<'a> {
    type Found = Option<Range>;

    ghost may = { λ _ _ _. Unit {0} };

    ghost finds = { λ a _ words range. range ≡ answer (map_by words) a.query.now };

    fn inspect<R: Rows>(self, engine: Engine<R>, kind: Kind) -> (Engine<R>, Option<Range>) {
        let mut engine = engine;
        let range = engine.ask(self.query);
        (engine, range)
    }
}
