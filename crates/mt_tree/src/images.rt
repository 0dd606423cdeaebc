//! Images of a tree's words.

ghost use Rattle.std.specs.Prelude.{◌≡◌, IfOk};
ghost use Rattle.mt_base.specs.Passes.{Saw};
ghost use Rattle.mt_image.specs.Images.{IsImageOf, IsImageOfMap};
ghost use Rattle.mt_rows.specs.Sheet.{OnlyReads};
ghost use Rattle.mt_rule.specs.Tokens.{pass_in};
ghost use Rattle.mt_tree.specs.Looks.{IsImagedBehind};
ghost use Rattle.mt_tree.specs.Trees.{opened, map_seen, IsPassOf, TriesOnce};
ghost use Rattle.mt_tree.specs.Works.{LookedUnder};

use crate::behind::WriterState;
use crate::inspects::Inspect;
use crate::locked::Locked;
use crate::receipts::Look;
use crate::trees::Tree;
use mt_base::{Kind, NoMemory};
use mt_engine::Engine;
use mt_image::write_image;
use mt_rows::Rows;
use mt_rule::{Pass, Taken};
use std::alloc::Global;
use std::sync::Wait;

/// An image of an engine's tree, which is only read.
#[tactic(auto, using(crate::proofs::Forms::lawful_as, crate::proofs::Forms::idle_as, crate::proofs::Forms::high_as))]
pub fn image_of<R: Rows>(
    engine: Engine<R>,
    by: (Global, Kind),
) -> (Engine<R>, Result<Vec<u8>, NoMemory>)
    requires { by.1 ≡ engine.kind }
    ensures rest { OnlyReads engine.sheet result.0.sheet }
    ensures book { result.0.book ≡ engine.book }
    ensures kind { result.0.kind ≡ engine.kind }
    ensures image { IfOk result.1 (λ bytes. IsImageOf engine.kind engine.sheet.tree bytes.items) }
{
    let (alloc, kind) = by;
    let height = engine.height();
    let (mut rows, book) = engine.parts();
    let image = write_image(alloc, &mut rows, kind);
    (Engine::of_height(rows, book, kind, height), image)
}

/// The image of a tree's words.
#[derive(Drop)]
pub(crate) struct ImageOf {
    pub(crate) alloc: Global,
}

impl Inspect for ImageOf {
    type Found = Result<Vec<u8>, NoMemory>;

    ghost may = { λ _ _ _. Unit {0} };

    ghost finds = { λ _ kind words image. IfOk image (λ bytes. IsImageOf kind words bytes.items) };

    fn inspect<R: Rows>(
        self,
        engine: Engine<R>,
        kind: Kind,
    ) -> (Engine<R>, Result<Vec<u8>, NoMemory>) {
        image_of(engine, (self.alloc, kind))
    }
}

impl<'a> Locked<'a, Taken<WriterState>> {
    /// The image of the tree's words: those that the lock protects, which represent the map after all calls.
    ///
    /// # Errors
    ///
    /// `NoMemory` where memory ran out.
    #[tactic(auto, using(crate::proofs::Lending::looked_under))]
    pub fn image(&mut self, alloc: Global) -> Result<Vec<u8>, NoMemory>
        ensures same_reference { self.new.pass.ghost_name ≡ self.old.pass.ghost_name }
        ensures tree { self.new.tree ≡ self.old.tree }
        ensures looked { LookedUnder self.old.tree.now self.old.taken.value self.new.taken.value self.old.pass.now self.new.pass.now }
        ensures image { IfOk result (λ bytes. IsImageOf (opened self.old.tree.now).kind self.old.taken.value.parts.sheet.tree bytes.items) }
    {
        let taken = &mut self.taken;
        taken.value.inspect(self.tree, self.pass, ImageOf { alloc })
    }
}

impl Tree {
    /// The image of the very words that the lock protected, whose map is that after all that the handle has then seen. They are
    /// copied into the order of a walk from the root, so the tree has these nodes in another order. The receipt has these words.
    ///
    /// # Errors
    ///
    /// The inner one, `NoMemory`, where memory ran out.
    pub fn image(
        &self,
        rt: &impl Wait,
        alloc: Global,
        pass: &mut Pass,
    ) -> (Result<Vec<u8>, NoMemory>, Look)
        requires { IsPassOf self.now pass.old }
        ensures of { IsPassOf self.now pass.new }
        ensures tries { TriesOnce pass.old pass.new }
        ensures saw { Saw (opened self.now) (pass_in pass.old) (pass_in pass.new) }
        ensures map { IfOk result.0 (λ bytes. IsImageOfMap (opened self.now).kind (map_seen self.now (pass_in pass.new)) bytes.items) }
        ensures image { IsImagedBehind self.now (pass_in pass.new) result }
    {
        let mut taken = self.take(rt, pass);
        let took = taken.value.snapshot(self);
        let image = taken.value.inspect(self, pass, ImageOf { alloc });
        (image, self.give_looked(taken, took))
    }
}
