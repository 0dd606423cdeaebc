//! Checks and copies of a tree's words.

ghost use Rattle.std.specs.Prelude.{◌≡◌, ◌≢◌, ◌↔◌, ◌⊎◌, ◌≤◌, ℕ, List, Some, None, length, IfOk, IfErr, IsTrue};
ghost use Rattle.mt_base.specs.History.{last_map};
ghost use Rattle.mt_base.specs.Passes.{Saw, with_records};
ghost use Rattle.mt_base.specs.Width.{kind_width};
ghost use Rattle.mt_base.specs.declared.kinds.Kind.{Kind};
ghost use Rattle.mt_base.specs.declared.ranges.Range.{Range};
ghost use Rattle.mt_free.specs.Book.{new_book};
ghost use Rattle.mt_rows.specs.Memory.{sheet_in};
ghost use Rattle.mt_rows.specs.Plain.{new_sheet};
ghost use Rattle.mt_rows.specs.Publish.{map_by, tree_as, IsLawfulOf};
ghost use Rattle.mt_rows.specs.Sheet.{OnlyReads};
ghost use Rattle.mt_rows.specs.Trees.{reached_in};
ghost use Rattle.mt_check.specs.Check.{form_of};
ghost use Rattle.mt_rule.specs.Tokens.{pass_in};
ghost use Rattle.mt_tree.specs.declared.shapes.Field.{Field};
ghost use Rattle.mt_base.specs.Blanks.{IsBlankOf};
ghost use Rattle.mt_tree.specs.Behind.{IsOnlyRead};
ghost use Rattle.mt_tree.specs.Copies.{live_rows, IsForRoom, IsLiveCounted, IsReadyToOpen, IsRefusal};
ghost use Rattle.mt_tree.specs.Looks.{looked_words, IsCopyLooked, IsFormBehind, IsLookAt};
ghost use Rattle.mt_tree.specs.Shapes.{first_bad};
ghost use Rattle.mt_tree.specs.Trees.{opened, map_seen, IsPassOf, IsNew, Rests, TriesOnce};
ghost use Rattle.mt_tree.specs.Works.{LookedUnder};

use crate::behind::WriterState;
use crate::inspects::Inspect;
use crate::locked::Locked;
use crate::receipts::Look;
use crate::shapes::{DupError, Shape};
use crate::trees::Tree;
use mt_base::{Kind, NoMemory, Steps};
use mt_check::{Form, form_of};
use mt_dup::copy_rows;
use mt_engine::Engine;
use mt_free::RowBook;
use mt_rows::{PlainRows, Rows};
use mt_rule::{Pass, Taken};
use std::alloc::Global;
use std::marker::Brand;
use std::sync::Wait;
use std::sync::ledger::{Blank, Ledger};

/// Copies a tree into new nodes of its width, and plants it there. The blank is for a count of the steps, which is not used.
pub fn copy_into<R: Rows, L: Ledger>(
    blank: Blank,
    src: &mut R,
    dst: &mut PlainRows,
    book: &mut RowBook,
)
    requires blank { IsBlankOf L.name L.parts blank.name blank.parts }
    requires lawful { (kind : Kind) × IsLawfulOf (R.sheet src.old).tree kind }
    requires rows { sheet_in dst.old ≡ new_sheet (R.sheet src.old).tree.table.width book.old.rows }
    requires book { book.old ≡ new_book book.old.rows }
    requires room { live_rows (R.sheet src.old).tree ≤ book.old.rows }
    ensures copy { (kind : Kind) → IsLawfulOf (R.sheet src.old).tree kind
        → IsReadyToOpen kind book.old.rows (map_by (R.sheet src.old).tree) (sheet_in dst.new) book.new }
    ensures rest { OnlyReads (R.sheet src.old) (R.sheet src.new) }
{
    let mut steps = Steps::<L>::new(blank);
    let root = copy_rows(src, dst, book, &mut steps);
    dst.plant(root);
}

/// Copies a tree with this many nodes in use into new nodes of its width, if there are as many.
fn copy_out<R: Rows>(src: &mut R, live: u64, dst: &mut PlainRows, book: &mut RowBook)
    requires lawful { (kind : Kind) × IsLawfulOf (R.sheet src.old).tree kind }
    requires live { live ≡ live_rows (R.sheet src.old).tree }
    requires rows { sheet_in dst.old ≡ new_sheet (R.sheet src.old).tree.table.width book.old.rows }
    requires book { book.old ≡ new_book book.old.rows }
    ensures copy { live ≤ book.old.rows → (kind : Kind) → IsLawfulOf (R.sheet src.old).tree kind
        → IsReadyToOpen kind book.old.rows (map_by (R.sheet src.old).tree) (sheet_in dst.new) book.new }
    ensures rest { OnlyReads (R.sheet src.old) (R.sheet src.new) }
{
    if live <= book.rows() {
        copy_into::<R, Brand>(Blank::new(1), src, dst, book);
    }
}

/// The form of a tree's words.
#[derive(Clone, Copy)]
pub(crate) struct FormOf;

impl Inspect for FormOf {
    type Found = Form;

    ghost may = { λ _ _ _. Unit {0} };

    ghost finds = { λ _ kind words form. form ≡ form_of (tree_as kind words) };

    #[tactic(auto, using(crate::proofs::Forms::lawful_as, crate::proofs::Forms::idle_as, crate::proofs::Forms::high_as))]
    fn inspect<R: Rows>(self, engine: Engine<R>, kind: Kind) -> (Engine<R>, Form) {
        let height = engine.height();
        let (mut rows, book) = engine.parts();
        let form = form_of(&mut rows, kind);
        (Engine::of_height(rows, book, kind, height), form)
    }
}

/// New nodes, and their book, for a copy of a tree.
#[derive(Drop)]
pub(crate) struct CopyInto {
    pub(crate) dst: PlainRows,
    pub(crate) own: RowBook,
}

/// Nodes with the copy of a tree, if they are as many as it has in use, and how many it has.
#[derive(Drop)]
pub(crate) struct Copied {
    pub(crate) live: u64,
    pub(crate) rows: PlainRows,
    pub(crate) book: RowBook,
}

impl Inspect for CopyInto {
    type Found = Copied;

    ghost may = { λ c kind _. (sheet_in c.dst ≡ new_sheet (kind_width kind) c.own.rows) × (c.own ≡ new_book c.own.rows) };

    ghost finds = { λ c kind words made. (made.live ≡ live_rows words)
        × (made.live ≤ c.own.rows → IsReadyToOpen kind c.own.rows (map_by words) (sheet_in made.rows) made.book) };

    #[tactic(auto, using(crate::proofs::Forms::lawful_as, crate::proofs::Forms::idle_as, crate::proofs::Forms::high_as))]
    fn inspect<R: Rows>(self, engine: Engine<R>, kind: Kind) -> (Engine<R>, Copied) {
        let CopyInto { mut dst, mut own } = self;
        let height = engine.height();
        let (mut rows, book) = engine.parts();
        let live = book.live();
        copy_out(&mut rows, live, &mut dst, &mut own);
        let copied = Copied {
            live,
            rows: dst,
            book: own,
        };
        (Engine::of_height(rows, book, kind, height), copied)
    }
}

/// Why there is no copy of this shape of a tree of this kind, whatever its nodes.
pub(crate) fn refusal(shape: &Shape, kind: Kind) -> Option<DupError>
    ensures { IsRefusal shape.now kind result }
{
    if let Some(field) = shape.first_bad() {
        return Some(DupError::BadShape { field });
    }
    if shape.kind != kind {
        return Some(DupError::Invalid);
    }
    None
}

/// New nodes for a tree of this shape, which is in range, and their book.
pub(crate) fn room(alloc: Global, shape: &Shape) -> Result<(PlainRows, RowBook), NoMemory>
    requires { first_bad shape.now ≡ None }
    ensures rows { IfOk result (λ r. sheet_in r.0 ≡ new_sheet (kind_width shape.now.kind) shape.now.rows) }
    ensures book { IfOk result (λ r. r.1 ≡ new_book shape.now.rows) }
{
    let rows = shape.new_rows(alloc)?;
    let book = RowBook::new(alloc, shape.rows)?;
    Ok((rows, book))
}

/// Opens a tree of this shape with a copy of a tree with this many nodes in use. The copy was made if they are no more than the
/// new tree is to have.
#[tactic(auto, using(crate::proofs::Forms::copy_made, crate::proofs::Forms::copy_few, crate::proofs::Forms::copy_lacks_memory))]
pub(crate) fn open_copy(
    alloc: Global,
    shape: Shape,
    live: u64,
    rows: PlainRows,
    book: RowBook,
) -> Result<(Tree, Vec<Pass>), DupError>
    requires shape { first_bad shape ≡ None }
    requires ready { (m : List Range) × (live ≤ shape.rows → IsReadyToOpen shape.kind shape.rows m (sheet_in rows) book) }
    ensures new { (m : List Range) → (live ≤ shape.rows → IsReadyToOpen shape.kind shape.rows m (sheet_in rows) book)
        → IfOk result (λ r. IsNew shape m r.0 r.1.items) }
    ensures counted { IsLiveCounted live shape.rows result }
    ensures room { IfErr result IsForRoom }
{
    if shape.rows < live {
        return Err(DupError::NoNodes {
            rows: shape.rows,
            live,
        });
    }
    match Tree::open(alloc, shape, rows, book) {
        Ok(made) => Ok(made),
        Err(_) => Err(DupError::NoMemory),
    }
}

/// A tree of this shape, which is in range, that opens with the map of these nodes.
#[tactic(auto, using(crate::proofs::Forms::copy_lacks_memory))]
fn copied_of(
    alloc: Global,
    shape: Shape,
    rows: &mut PlainRows,
) -> Result<(Tree, Vec<Pass>), DupError>
    requires shape { first_bad shape ≡ None }
    requires lawful { IsLawfulOf (sheet_in rows.old).tree shape.kind }
    ensures new { IfOk result (λ r. IsNew shape (map_by (sheet_in rows.old).tree) r.0 r.1.items) }
    ensures counted { IsLiveCounted (live_rows (sheet_in rows.old).tree) shape.rows result }
    ensures room { IfErr result IsForRoom }
    ensures rest { OnlyReads (sheet_in rows.old) (sheet_in rows.new) }
{
    let Ok((mut copy, mut book)) = room(alloc, &shape) else {
        return Err(DupError::NoMemory);
    };
    let live = form_of(rows, shape.kind).rows;
    copy_out(rows, live, &mut copy, &mut book);
    open_copy(alloc, shape, live, copy, book)
}

impl<'a> Locked<'a, Taken<WriterState>> {
    /// The form of the tree's words: those that the lock protects, which represent the map after all calls.
    #[tactic(auto, using(crate::proofs::Lending::looked_under))]
    pub fn check(&mut self) -> Form
        ensures same_reference { self.new.pass.ghost_name ≡ self.old.pass.ghost_name }
        ensures tree { self.new.tree ≡ self.old.tree }
        ensures looked { LookedUnder self.old.tree.now self.old.taken.value self.new.taken.value self.old.pass.now self.new.pass.now }
        ensures form { result ≡ form_of (tree_as (opened self.old.tree.now).kind self.old.taken.value.parts.sheet.tree) }
    {
        let taken = &mut self.taken;
        taken.value.inspect(self.tree, self.pass, FormOf)
    }

    /// Copies the words into new nodes, where they are as many as the tree has in use. Answers how many it has.
    #[tactic(auto, using(crate::proofs::Lending::looked_under))]
    fn copy(&mut self, dst: PlainRows, own: RowBook) -> Copied
        requires rows { sheet_in dst ≡ new_sheet (kind_width (opened self.old.tree.now).kind) own.rows }
        requires book { own ≡ new_book own.rows }
        ensures same_reference { self.new.pass.ghost_name ≡ self.old.pass.ghost_name }
        ensures tree { self.new.tree ≡ self.old.tree }
        ensures looked { LookedUnder self.old.tree.now self.old.taken.value self.new.taken.value self.old.pass.now self.new.pass.now }
        ensures live { result.live ≡ live_rows self.old.taken.value.parts.sheet.tree }
        ensures copy { result.live ≤ own.rows → IsReadyToOpen (opened self.old.tree.now).kind
            own.rows (map_seen self.old.tree.now (pass_in self.old.pass.now)) (sheet_in result.rows) result.book }
    {
        let taken = &mut self.taken;
        taken
            .value
            .inspect(self.tree, self.pass, CopyInto { dst, own })
    }

    /// As `dup`, where this shape is in range and of the tree's kind: a tree that opens with the copy.
    #[tactic(auto, using(crate::proofs::Forms::copy_lacks_memory))]
    fn copied(&mut self, alloc: Global, shape: Shape) -> Result<(Tree, Vec<Pass>), DupError>
        requires shape { first_bad shape ≡ None }
        requires kind { shape.kind ≡ (opened self.old.tree.now).kind }
        ensures same_reference { self.new.pass.ghost_name ≡ self.old.pass.ghost_name }
        ensures tree { self.new.tree ≡ self.old.tree }
        ensures rests { Rests self.old.pass.now self.new.pass.now }
        ensures pass { pass_in self.new.pass.now ≡ pass_in self.old.pass.now }
        ensures behind { IsOnlyRead self.old.taken.value self.new.taken.value }
        ensures counted { IsLiveCounted (live_rows self.old.taken.value.parts.sheet.tree) shape.rows result }
        ensures new { IfOk result (λ r. IsNew shape (map_seen self.old.tree.now (pass_in self.old.pass.now)) r.0 r.1.items) }
        ensures room { IfErr result IsForRoom }
    {
        let Ok((dst, own)) = room(alloc, &shape) else {
            return Err(DupError::NoMemory);
        };
        let Copied { live, rows, book } = self.copy(dst, own);
        open_copy(alloc, shape, live, rows, book)
    }

    /// A new tree of the same kind that opens with this tree's map, as it is after all calls, and the new tree's handles. It is
    /// refused as by `Tree::dup`, and because nodes are short exactly if the words that the lock protects have more in use.
    ///
    /// # Errors
    ///
    /// `BadShape`; `Invalid` if the kind is another; `NoMemory` if there is none for the new nodes; `NoNodes` if they are too
    /// few; `NoMemory` if there is none for the new tree.
    #[tactic(auto, using(crate::proofs::Forms::bad_refused, crate::proofs::Forms::invalid_refused, crate::proofs::Forms::refused_live))]
    pub fn dup(&mut self, alloc: Global, shape: Shape) -> Result<(Tree, Vec<Pass>), DupError>
        ensures same_reference { self.new.pass.ghost_name ≡ self.old.pass.ghost_name }
        ensures tree { self.new.tree ≡ self.old.tree }
        ensures rests { Rests self.old.pass.now self.new.pass.now }
        ensures pass { pass_in self.new.pass.now ≡ pass_in self.old.pass.now }
        ensures behind { IsOnlyRead self.old.taken.value self.new.taken.value }
        ensures bad { (field : Field) → (result ≡ Err (DupError.BadShape field)) ↔ (first_bad shape ≡ Some field) }
        ensures invalid { (result ≡ Err DupError.Invalid) ↔ ((first_bad shape ≡ None) × (shape.kind ≢ (opened self.old.tree.now).kind)) }
        ensures counted { IsLiveCounted (live_rows self.old.taken.value.parts.sheet.tree) shape.rows result }
        ensures new { IfOk result (λ r. IsNew shape (map_seen self.old.tree.now (pass_in self.old.pass.now)) r.0 r.1.items) }
    {
        match refusal(&shape, self.tree.shape.kind) {
            Some(error) => Err(error),
            None => self.copied(alloc, shape),
        }
    }
}

impl Tree {
    /// The form of the very words that the lock protected, whose map is that after all that the handle has then seen. The
    /// receipt has these words.
    pub fn check(&self, rt: &impl Wait, pass: &mut Pass) -> (Form, Look)
        requires { IsPassOf self.now pass.old }
        ensures of { IsPassOf self.now pass.new }
        ensures tries { TriesOnce pass.old pass.new }
        ensures saw { Saw (opened self.now) (pass_in pass.old) (pass_in pass.new) }
        ensures form { IsFormBehind self.now (pass_in pass.new) result }
    {
        let mut taken = self.take(rt, pass);
        let took = taken.value.snapshot(self);
        let form = taken.value.inspect(self, pass, FormOf);
        (form, self.give_looked(taken, took))
    }

    /// Copies the nodes into new ones. Answers how many are in use.
    fn copy_rows(
        &self,
        rt: &impl Wait,
        pass: &mut Pass,
        dst: PlainRows,
        own: RowBook,
    ) -> (Copied, Look)
        requires pass { IsPassOf self.now pass.old }
        requires rows { sheet_in dst ≡ new_sheet (kind_width (opened self.now).kind) own.rows }
        requires book { own ≡ new_book own.rows }
        ensures of { IsPassOf self.now pass.new }
        ensures tries { TriesOnce pass.old pass.new }
        ensures saw { Saw (opened self.now) (pass_in pass.old) (pass_in pass.new) }
        ensures look { IsLookAt self.now (pass_in pass.new) result.1 }
        ensures live { result.0.live ≡ live_rows (looked_words result.1) }
        ensures copy { result.0.live ≤ own.rows
            → IsReadyToOpen (opened self.now).kind own.rows (map_seen self.now (pass_in pass.new)) (sheet_in result.0.rows) result.0.book }
    {
        let mut taken = self.take(rt, pass);
        let took = taken.value.snapshot(self);
        let copied = taken.value.inspect(self, pass, CopyInto { dst, own });
        (copied, self.give_looked(taken, took))
    }

    /// As `dup`, where this shape is in range and of the tree's kind: a tree that opens with the copy.
    fn copied(
        &self,
        rt: &impl Wait,
        alloc: Global,
        pass: &mut Pass,
        shape: Shape,
    ) -> (Result<(Tree, Vec<Pass>), DupError>, Option<Look>)
        requires pass { IsPassOf self.now pass.old }
        requires shape { first_bad shape ≡ None }
        requires kind { shape.kind ≡ (opened self.now).kind }
        ensures of { IsPassOf self.now pass.new }
        ensures looked { IsCopyLooked self.now pass.old pass.new shape result.0 result.1 }
        ensures new { IfOk result.0 (λ made. IsNew shape (map_seen self.now (pass_in pass.new)) made.0 made.1.items) }
        ensures room { IfErr result.0 IsForRoom }
    {
        let Ok((dst, own)) = room(alloc, &shape) else {
            return (Err(DupError::NoMemory), None);
        };
        let (Copied { live, rows, book }, look) = self.copy_rows(rt, pass, dst, own);
        (open_copy(alloc, shape, live, rows, book), Some(look))
    }

    /// A new tree of the same kind that opens with this tree's map, as it is after all that the handle has then seen, and the
    /// new tree's handles. A shape that is out of range is refused by its first such field, before any memory is taken. Then a
    /// shape of another kind is refused, and then one of fewer nodes than are in use. It does not go for the lock if the shape or
    /// the kind is refused, or memory ran out for the new nodes: then there is no look. Else it waits for it once, and the
    /// refusal for too few nodes is by those in use that the lock protected.
    ///
    /// # Errors
    ///
    /// `BadShape`; `Invalid` if the kind is another; `NoMemory` if there is none for the new nodes; `NoNodes` if they are too
    /// few; `NoMemory` if there is none for the new tree.
    #[tactic(auto, using(crate::proofs::Forms::bad_refused, crate::proofs::Forms::invalid_refused, crate::proofs::Forms::never_counted))]
    pub fn dup(
        &self,
        rt: &impl Wait,
        alloc: Global,
        pass: &mut Pass,
        shape: Shape,
    ) -> (Result<(Tree, Vec<Pass>), DupError>, Option<Look>)
        requires { IsPassOf self.now pass.old }
        ensures of { IsPassOf self.now pass.new }
        ensures bad { (field : Field) → (result.0 ≡ Err (DupError.BadShape field)) ↔ (first_bad shape ≡ Some field) }
        ensures invalid { (result.0 ≡ Err DupError.Invalid) ↔ ((first_bad shape ≡ None) × (shape.kind ≢ (opened self.now).kind)) }
        ensures looked { IsCopyLooked self.now pass.old pass.new shape result.0 result.1 }
        ensures new { IfOk result.0 (λ made. IsNew shape (map_seen self.now (pass_in pass.new)) made.0 made.1.items) }
    {
        match refusal(&shape, self.shape.kind) {
            Some(error) => (Err(error), None),
            None => self.copied(rt, alloc, pass, shape),
        }
    }

    /// A new tree of this kind that opens with the map of these nodes, and its handles. It is refused as a `dup` of a tree of
    /// this kind that has these nodes in use. The nodes are only read.
    ///
    /// # Errors
    ///
    /// `BadShape`; `Invalid` if the shape is of another kind; `NoMemory` if there is none for the new nodes; `NoNodes` if they
    /// are too few; `NoMemory` if there is none for the new tree.
    #[tactic(auto, using(crate::proofs::Forms::bad_refused, crate::proofs::Forms::invalid_refused, crate::proofs::Forms::refused_live))]
    pub fn of_rows(
        alloc: Global,
        shape: Shape,
        kind: Kind,
        rows: &mut PlainRows,
    ) -> Result<(Tree, Vec<Pass>), DupError>
        requires { IsLawfulOf (sheet_in rows.old).tree kind }
        ensures bad { (field : Field) → (result ≡ Err (DupError.BadShape field)) ↔ (first_bad shape ≡ Some field) }
        ensures invalid { (result ≡ Err DupError.Invalid) ↔ ((first_bad shape ≡ None) × (shape.kind ≢ kind)) }
        ensures counted { IsLiveCounted (live_rows (sheet_in rows.old).tree) shape.rows result }
        ensures new { IfOk result (λ r. IsNew shape (map_by (sheet_in rows.old).tree) r.0 r.1.items) }
        ensures rest { OnlyReads (sheet_in rows.old) (sheet_in rows.new) }
    {
        match refusal(&shape, kind) {
            Some(error) => Err(error),
            None => copied_of(alloc, shape, rows),
        }
    }
}
