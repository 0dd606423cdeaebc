//! Copies of shared trees, which are looked at under their lock where that is free.

ghost use Rattle.std.specs.Prelude.{◌≡◌, IfErr, IfOk, None, Some};
ghost use Rattle.mt_tree.specs.Trees.{IsNew, IsPassOf, opened};
ghost use Rattle.mt_c.specs.Duplicates.{HasCopied, HasMade, IsTriedCopy, SharedCopied, when_looked};
ghost use Rattle.mt_c.specs.Shared.{IsFirstUser};
ghost use Rattle.mt_c.specs.SharedMaps.{shape_for};
ghost use Rattle.mt_c.specs.Users.{common_of, user_tree};
ghost use Rattle.mt_c.specs.Walkers.{IsOnNoWalk};

use crate::receipts::Receipts;
use crate::shared_maps::status_for;
use crate::shared_told::EAGAIN;
use crate::told::ENOMEM;
use crate::user::User;
use crate::user_handle::UserHandle;
use crate::user_opens::first;
use crate::walker::Walker;
use mt_tree::{Busy, DupError, Look, NoMemory, Pass, Shape, Tree};
use std::alloc::Global;

/// The first user of a new tree of this shape.
fn new_first(alloc: Global, shape: Shape, tree: Tree, passes: Vec<Pass>) -> Result<User, NoMemory>
    requires { IsNew shape (opened tree).opening tree passes.items }
    ensures { IfOk result (IsFirstUser shape (opened tree).opening) }
{
    // it is named for the proof
    let _shape = shape;
    first(alloc, tree, passes)
}

/// The first user of a new tree of this shape, in a box.
fn boxed_first(
    alloc: Global,
    shape: Shape,
    tree: Tree,
    passes: Vec<Pass>,
) -> Result<Box<User>, NoMemory>
    requires { IsNew shape (opened tree).opening tree passes.items }
    ensures { IfOk result (λ whole. IsFirstUser shape (opened tree).opening whole.value) }
{
    let user = new_first(alloc, shape, tree, passes)?;
    match Box::new(alloc, user) {
        Ok(whole) => Ok(whole),
        Err(_) => Err(NoMemory),
    }
}

impl Walker {
    /// A tree of this shape with the map of the tree, and its handles, if the lock is free.
    #[tactic(auto, using(crate::proofs::Duplicating::tried_copy, crate::proofs::Duplicating::copy_shut))]
    fn try_dup(
        &mut self,
        tree: &Tree,
        alloc: Global,
        shape: Shape,
    ) -> Result<(Result<(Tree, Vec<Pass>), DupError>, Option<Look>), Busy>
        requires of { IsPassOf tree.now self.old.pass }
        requires kind { shape.kind ≡ (opened tree.now).kind }
        ensures of { IsPassOf tree.now self.new.pass }
        ensures tried { IsTriedCopy shape tree.now self.old result self.new }
        ensures paused { IsOnNoWalk self.new }
    {
        self.rest(tree);
        tree.try_dup(alloc, &mut self.pass, shape)
    }
}

impl Receipts {
    /// Keeps the receipt of a look, if there was one.
    fn keep(&mut self, look: Option<Look>)
        ensures { self.new ≡ when_looked look self.old }
    {
        if let Some(look) = look {
            self.looked = Some(look);
        }
    }
}

impl User {
    /// A shape of the kind of its tree.
    fn shape_of(&self, rows: u64, passes: u32, calls: u64) -> Shape
        ensures { result ≡ shape_for (opened (user_tree self.now)).kind rows passes calls }
    {
        Shape {
            kind: self.common.tree.shape().kind,
            rows,
            passes,
            calls,
        }
    }

    /// A tree of this shape with the map of its tree, and its handles, if the lock is free.
    fn try_dup(
        &mut self,
        alloc: Global,
        shape: Shape,
    ) -> Result<(Result<(Tree, Vec<Pass>), DupError>, Option<Look>), Busy>
        requires { shape.kind ≡ (opened (user_tree self.old)).kind }
        ensures common { common_of self.new ≡ common_of self.old }
        ensures chair { self.new.chair ≡ self.old.chair }
        ensures receipts { self.new.receipts ≡ self.old.receipts }
        ensures tried { IsTriedCopy shape
            (user_tree self.old) self.old.walker result self.new.walker }
        ensures paused { IsOnNoWalk self.new.walker }
    {
        self.walker.try_dup(&self.common.tree, alloc, shape)
    }

    /// A tree of this shape with the map of its tree, and its handles, if the lock is free; or the number that says why there is
    /// none. The receipt of the look, or of finding the lock taken, is kept.
    #[tactic(auto, using(crate::proofs::Duplicating::copy_taken, crate::proofs::Duplicating::copy_lacks, crate::proofs::Duplicating::copy_looked))]
    fn dup_told(&mut self, alloc: Global, shape: Shape) -> Result<(Tree, Vec<Pass>), u32>
        requires { shape.kind ≡ (opened (user_tree self.old)).kind }
        ensures common { common_of self.new ≡ common_of self.old }
        ensures chair { self.new.chair ≡ self.old.chair }
        ensures paused { IsOnNoWalk self.new.walker }
        ensures copied { IfOk result (λ r. HasMade shape r.0 r.1.items self.old self.new) }
        ensures lacks { IfErr result (λ status. HasCopied shape None status self.old self.new) }
    {
        let made = match self.try_dup(alloc, shape) {
            Ok((made, look)) => {
                self.receipts.keep(look);
                made
            }
            Err(busy) => {
                self.receipts.locked = Some(busy);
                return Err(EAGAIN);
            }
        };
        match made {
            Ok(made) => Ok(made),
            Err(why) => Err(status_for(why)),
        }
    }

    /// The first user of a copy of its tree, with this many nodes, for this many users and calls, if the lock is free; or the
    /// number that says why there is none.
    #[tactic(auto, using(crate::proofs::Duplicating::copy_short, crate::proofs::Duplicating::copy_made, crate::proofs::Duplicating::made_opening))]
    fn copy_told(
        &mut self,
        alloc: Global,
        rows: u64,
        passes: u32,
        calls: u64,
    ) -> Result<Box<User>, u32>
        ensures common { common_of self.new ≡ common_of self.old }
        ensures chair { self.new.chair ≡ self.old.chair }
        ensures paused { IsOnNoWalk self.new.walker }
        ensures copied { IfOk result (λ whole. HasCopied
            (shape_for (opened (user_tree self.old)).kind rows passes calls)
            (Some whole.value) 0 self.old self.new) }
        ensures lacks { IfErr result (λ status. HasCopied
            (shape_for (opened (user_tree self.old)).kind rows passes calls)
            None status self.old self.new) }
    {
        let shape = self.shape_of(rows, passes, calls);
        let (tree, passes) = match self.dup_told(alloc, shape) {
            Ok(made) => made,
            Err(status) => return Err(status),
        };
        match boxed_first(alloc, shape, tree, passes) {
            Ok(whole) => Ok(whole),
            Err(_) => Err(ENOMEM),
        }
    }
}

/// Opens a shared tree with the map of another, with `rows` nodes, for `users` users at a time and `calls` calls, and its first
/// user, if the other's lock is free.
#[tactic(auto, using(crate::proofs::Duplicating::copied_so))]
#[unsafe(no_mangle)]
pub extern "C" fn maple_shared_copy(
    alloc: Global,
    user: &mut UserHandle,
    copy: &mut UserHandle,
    rows: u64,
    users: u32,
    calls: u64,
) -> u32
    ensures { SharedCopied rows users calls user.old user.new copy.old copy.new result }
{
    let Some(mut whole) = user.take(alloc) else {
        return user.refusal();
    };
    if let Some(status) = copy.unopened() {
        user.put(whole);
        return status;
    }
    let made = whole.copy_told(alloc, rows, users, calls);
    user.put(whole);
    match made {
        Ok(made) => {
            copy.put(made);
            0
        }
        Err(status) => status,
    }
}
