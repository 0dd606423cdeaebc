//! Checks, images and copies of a tree for a program that cannot wait.

ghost use Rattle.std.specs.Prelude.{◌≡◌, ◌≢◌, ◌↔◌, ◌≤◌, Err, IfErr, IfOk, None, Some};
ghost use Rattle.mt_base.specs.Passes.{Saw};
ghost use Rattle.mt_base.specs.Width.{kind_width};
ghost use Rattle.mt_free.specs.Book.{new_book};
ghost use Rattle.mt_image.specs.Images.{IsImageOfMap};
ghost use Rattle.mt_rows.specs.Memory.{sheet_in};
ghost use Rattle.mt_rows.specs.Plain.{new_sheet};
ghost use Rattle.mt_rule.specs.Tokens.{pass_in};
ghost use Rattle.mt_rule.specs.Turns.{tried};
ghost use Rattle.mt_tree.specs.declared.shapes.Field.{Field};
ghost use Rattle.mt_tree.specs.Copies.{live_rows, IsFit, IsForRoom, IsReadyToOpen};
ghost use Rattle.mt_tree.specs.Looks.{looked_words, IsCopyLooked, IsFormBehind, IsImagedBehind, IsLookAt, WasFound};
ghost use Rattle.mt_tree.specs.Shapes.{first_bad};
ghost use Rattle.mt_tree.specs.Trees.{IsNew, IsPassOf, TriesOnce, map_seen, opened};
ghost use Rattle.mt_tree.specs.Tries.{IsBusyOf};

use crate::copies::{Copied, CopyInto, FormOf, open_copy, refusal, room};
use crate::images::ImageOf;
use crate::receipts::Look;
use crate::shapes::{DupError, Shape};
use crate::trees::Tree;
use mt_base::NoMemory;
use mt_check::Form;
use mt_free::RowBook;
use mt_rows::PlainRows;
use mt_rule::{Busy, Pass};
use std::alloc::Global;

impl Tree {
    /// `check`, if the lock is free: the form of the very words that the lock protected. It does not wait.
    ///
    /// # Errors
    ///
    /// `Busy` if the one try found the lock taken. Nothing is changed, and the handle has seen no more.
    pub fn try_check(&self, pass: &mut Pass) -> Result<(Form, Look), Busy>
        requires { IsPassOf self.now pass.old }
        ensures found { WasFound IsFormBehind self.now pass.old result pass.new }
    {
        let mut taken = self.try_take(pass)?;
        let took = taken.value.snapshot(self);
        let form = taken.value.inspect(self, pass, FormOf);
        Ok((form, self.give_looked(taken, took)))
    }

    /// `image`, if the lock is free: that of the very words that the lock protected. It does not wait.
    ///
    /// # Errors
    ///
    /// `Busy` if the one try found the lock taken. Nothing is changed, and the handle has seen no more.
    pub fn try_image(
        &self,
        alloc: Global,
        pass: &mut Pass,
    ) -> Result<(Result<Vec<u8>, NoMemory>, Look), Busy>
        requires { IsPassOf self.now pass.old }
        ensures found { WasFound IsImagedBehind self.now pass.old result pass.new }
        ensures map { IfOk result (λ r. IfOk r.0 (λ bytes. IsImageOfMap (opened self.now).kind (map_seen self.now (pass_in pass.new)) bytes.items)) }
    {
        let mut taken = self.try_take(pass)?;
        let took = taken.value.snapshot(self);
        let image = taken.value.inspect(self, pass, ImageOf { alloc });
        Ok((image, self.give_looked(taken, took)))
    }

    /// Copies the nodes into new ones. Answers how many are in use.
    fn try_copy_rows(
        &self,
        pass: &mut Pass,
        dst: PlainRows,
        own: RowBook,
    ) -> Result<(Copied, Look), Busy>
        requires pass { IsPassOf self.now pass.old }
        requires rows { sheet_in dst ≡ new_sheet (kind_width (opened self.now).kind) own.rows }
        requires book { own ≡ new_book own.rows }
        ensures of { IsPassOf self.now pass.new }
        ensures saw { IfOk result (λ _. Saw (opened self.now) (pass_in pass.old) (pass_in pass.new)) }
        ensures look { IfOk result (λ r. IsLookAt self.now (pass_in pass.new) r.1) }
        ensures live { IfOk result (λ r. r.0.live ≡ live_rows (looked_words r.1)) }
        ensures copy { IfOk result (λ r. r.0.live ≤ own.rows
            → IsReadyToOpen (opened self.now).kind own.rows (map_seen self.now (pass_in pass.new)) (sheet_in r.0.rows) r.0.book) }
        ensures busy { IfErr result (IsBusyOf self.now) }
        ensures kept { IfErr result (λ _. pass.new ≡ tried pass.old) }
        ensures tries { TriesOnce pass.old pass.new }
    {
        let mut taken = self.try_take(pass)?;
        let took = taken.value.snapshot(self);
        let copied = taken.value.inspect(self, pass, CopyInto { dst, own });
        Ok((copied, self.give_looked(taken, took)))
    }

    /// The copy's nodes and their book, if the lock is free. The shape is in range and of the tree's kind.
    fn try_copied(
        &self,
        alloc: Global,
        pass: &mut Pass,
        shape: Shape,
    ) -> Result<(Result<(Tree, Vec<Pass>), DupError>, Option<Look>), Busy>
        requires pass { IsPassOf self.now pass.old }
        requires shape { first_bad shape ≡ None }
        requires kind { shape.kind ≡ (opened self.now).kind }
        ensures of { IsPassOf self.now pass.new }
        ensures looked { IfOk result (λ r. IsCopyLooked self.now pass.old pass.new shape r.0 r.1) }
        ensures new { IfOk result (λ r. IfOk r.0 (λ made. IsNew shape (map_seen self.now (pass_in pass.new)) made.0 made.1.items)) }
        ensures room { IfOk result (λ r. IfErr r.0 IsForRoom) }
        ensures busy { IfErr result (IsBusyOf self.now) }
        ensures kept { IfErr result (λ _. pass.new ≡ tried pass.old) }
    {
        let Ok((dst, own)) = room(alloc, &shape) else {
            return Ok((Err(DupError::NoMemory), None));
        };
        let (Copied { live, rows, book }, look) = self.try_copy_rows(pass, dst, own)?;
        Ok((open_copy(alloc, shape, live, rows, book), Some(look)))
    }

    /// `dup`, if the lock is free. It does not wait. It does not go for the lock if the shape or the kind is refused, or memory
    /// ran out for the new nodes: then there is no look.
    /// Else it goes once, and the copy is refused for too few nodes exactly by those in use that the lock protected.
    ///
    /// # Errors
    ///
    /// `Busy` if the one try found the lock taken. Nothing is changed, and the handle has seen no more. The inner error is that
    /// of `dup`.
    #[tactic(auto, using(crate::proofs::Forms::bad_refused, crate::proofs::Forms::invalid_refused, crate::proofs::Forms::never_counted))]
    pub fn try_dup(
        &self,
        alloc: Global,
        pass: &mut Pass,
        shape: Shape,
    ) -> Result<(Result<(Tree, Vec<Pass>), DupError>, Option<Look>), Busy>
        requires { IsPassOf self.now pass.old }
        ensures of { IsPassOf self.now pass.new }
        ensures bad { IfOk result (λ r. (field : Field) → (r.0 ≡ Err (DupError.BadShape field)) ↔ (first_bad shape ≡ Some field)) }
        ensures invalid { IfOk result (λ r. (r.0 ≡ Err DupError.Invalid) ↔ ((first_bad shape ≡ None) × (shape.kind ≢ (opened self.now).kind))) }
        ensures looked { IfOk result (λ r. IsCopyLooked self.now pass.old pass.new shape r.0 r.1) }
        ensures new { IfOk result (λ r. IfOk r.0 (λ made. IsNew shape (map_seen self.now (pass_in pass.new)) made.0 made.1.items)) }
        ensures fit { IfErr result (λ _. IsFit shape (opened self.now).kind) }
        ensures busy { IfErr result (IsBusyOf self.now) }
        ensures kept { IfErr result (λ _. pass.new ≡ tried pass.old) }
    {
        match refusal(&shape, self.shape.kind) {
            Some(error) => Ok((Err(error), None)),
            None => self.try_copied(alloc, pass, shape),
        }
    }
}
