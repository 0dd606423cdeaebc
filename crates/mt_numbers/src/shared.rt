//! The tree that keeps the numbers: a number is taken where the tree has an entry at it.

ghost use Rattle.std.specs.Prelude.{◌≡◌, All, IfOk};
ghost use Rattle.mt_base.specs.declared.kinds.Kind.TheVariants.{Alloc};
ghost use Rattle.mt_numbers.specs.Calls as defined;
ghost use Rattle.mt_numbers.specs.Calls.{given_back_by, taken_by, AskedForNumber, GaveBack, KnowsItsOwn};
ghost use Rattle.mt_tree.specs.Trees.{opened, pass_in, IsPassOf};

use crate::numbers::{NUMBERS, Numbers};
use mt_base::{Kind, MOST_ROWS, Reply};
use mt_tree::{Done, MOST_CALLS, Pass, Shape, Tree, Worn};
use std::alloc::Global;
use std::io;
use std::io::ErrorKind;
use std::sync::Wait;

/// What the tree holds at a number that is taken.
pub const TAKEN: u64 = 1;

/// A tree with no number taken, and its passes (handles). It has more nodes than the calls of all threads can need together, so
/// that no call lacks one, whatever readers hold.
pub fn make(alloc: Global, passes: u32) -> io::Result<(Tree, Vec<Pass>)>
    ensures of { IfOk result (λ r. All (IsPassOf r.0) r.1.items) }
    ensures own { IfOk result (λ r. All (λ p. KnowsItsOwn (pass_in p)) r.1.items) }
    ensures kind { IfOk result (λ r. (opened r.0).kind ≡ Alloc) }
{
    let shape = Shape {
        kind: Kind::Alloc,
        rows: MOST_ROWS,
        passes,
        calls: MOST_CALLS,
    };
    match Tree::make(alloc, shape) {
        Ok(made) => Ok(made),
        Err(_) => Err(io::Error::from(ErrorKind::OutOfMemory)),
    }
}

/// A thread's pass (handle) on the tree.
#[derive(Drop)]
pub struct Caller<'a, R> {
    rt: &'a R,
    tree: &'a Tree,
    pass: Pass,
    ghost of: { IsPassOf tree.now pass },
    ghost own: { KnowsItsOwn (pass_in pass) },
    ghost kind: { (opened tree.now).kind ≡ Alloc },
}

impl<'a, R> Caller<'a, R> {
    pub fn new(rt: &'a R, tree: &'a Tree, pass: Pass) -> Self
        requires of { IsPassOf tree.now pass }
        requires own { KnowsItsOwn (pass_in pass) }
        requires kind { (opened tree.now).kind ≡ Alloc }
    {
        Caller { rt, tree, pass }
    }
}

impl<'a, R: Wait> Numbers for Caller<'a, R> {
    ghost taken = { λ caller. taken_by (pass_in caller.pass) };

    ghost given_back = { λ caller. given_back_by (pass_in caller.pass) };

    ghost asked = { λ caller told after. AskedForNumber caller.tree.now (pass_in caller.pass) told (pass_in after.pass) };

    ghost gave = { λ caller number told after. GaveBack caller.tree.now (pass_in caller.pass) number told (pass_in after.pass) };

    fn take(&mut self) -> Option<u64> {
        let answer = self
            .tree
            .alloc_range(self.rt, &mut self.pass, 1, 0, NUMBERS - 1, TAKEN);
        started(answer)
    }

    fn give_back(&mut self, number: u64) -> bool {
        let answer = self.tree.erase(self.rt, &mut self.pass, number);
        removed(answer)
    }
}

/// The number that was taken, where one was.
fn started(answer: Result<Done, Worn>) -> Option<u64>
    ensures { result ≡ defined.started answer }
{
    match answer {
        Ok(done) => match done.reply {
            Reply::Start(number) => Some(number),
            _ => None,
        },
        Err(_) => None,
    }
}

/// Whether a number was given back.
fn removed(answer: Result<Done, Worn>) -> bool
    ensures { result ≡ defined.removed answer }
{
    match answer {
        Ok(done) => matches!(done.reply, Reply::Was(_)),
        Err(_) => false,
    }
}
