//! Images of shared trees, which are looked at under their lock where that is free.

ghost use Rattle.std.specs.Prelude.{◌≡◌};
ghost use Rattle.mt_tree.specs.Looks.{IsImagedBehind};
ghost use Rattle.mt_tree.specs.Trees.{IsPassOf};
ghost use Rattle.mt_c.specs.Looks.{HasFoundOrTaken, IsFoundIn, SharedImaged, TellsBytes, TellsMade, when_found};
ghost use Rattle.mt_c.specs.Users.{common_of, known_to, rested, user_tree};
ghost use Rattle.mt_c.specs.Walkers.{IsPaused, TriedShut, knows, shut};

use crate::receipts::Receipts;
use crate::replay::put;
use crate::shared_told::EAGAIN;
use crate::told::{ENOMEM, ERANGE};
use crate::user::User;
use crate::user_handle::UserHandle;
use crate::walker::Walker;
use mt_base::NoMemory;
use mt_tree::{Busy, Look, Tree};
use std::alloc::Global;

impl Walker {
    /// An image of the tree's words, if the lock is free.
    #[tactic(auto, using(crate::proofs::Looking::image_found, crate::proofs::Using::tried_shut))]
    fn try_image(
        &mut self,
        tree: &Tree,
        alloc: Global,
    ) -> Result<(Result<Vec<u8>, NoMemory>, Look), Busy>
        requires { IsPassOf tree.now self.old.pass }
        ensures of { IsPassOf tree.now self.new.pass }
        ensures found { IsFoundIn IsImagedBehind tree.now (shut self.old) result (knows self.new) }
        ensures once { TriedShut self.old self.new }
        ensures paused { IsPaused self.new }
    {
        self.rest(tree);
        tree.try_image(alloc, &mut self.pass)
    }
}

/// What C gets of an image: the buffer begins with it, if that has room.
#[tactic(auto, using(crate::proofs::Looking::bytes_put, crate::proofs::Looking::bytes_short))]
fn made_told(made: Result<Vec<u8>, NoMemory>, out: &mut [u8], used: &mut usize) -> u32
    ensures { TellsMade out.old out.new used.new result made }
{
    match made {
        Ok(bytes) => {
            *used = bytes.len();
            if put(&bytes, out) { 0 } else { ERANGE }
        }
        Err(NoMemory) => {
            *used = 0;
            ENOMEM
        }
    }
}

/// What C gets of an image, or of finding the lock taken. The receipt of the look is kept.
fn image_told(
    found: Result<(Result<Vec<u8>, NoMemory>, Look), Busy>,
    receipts: &mut Receipts,
    out: &mut [u8],
    used: &mut usize,
) -> u32
    ensures tells { TellsBytes out.old out.new used.new result found }
    ensures kept { receipts.new ≡ when_found found receipts.old }
{
    match found {
        Ok((made, look)) => {
            receipts.looked = Some(look);
            made_told(made, out, used)
        }
        Err(busy) => {
            receipts.locked = Some(busy);
            *used = 0;
            EAGAIN
        }
    }
}

impl User {
    /// An image of its tree's words, if the lock is free.
    fn try_image(&mut self, alloc: Global) -> Result<(Result<Vec<u8>, NoMemory>, Look), Busy>
        ensures common { common_of self.new ≡ common_of self.old }
        ensures chair { self.new.chair ≡ self.old.chair }
        ensures receipts { self.new.receipts ≡ self.old.receipts }
        ensures found { IsFoundIn IsImagedBehind
            (user_tree self.old) (rested self.old) result (known_to self.new) }
        ensures once { TriedShut self.old.walker self.new.walker }
        ensures paused { IsPaused self.new.walker }
    {
        self.walker.try_image(&self.common.tree, alloc)
    }

    /// What C gets of an image, if the lock is free.
    #[tactic(auto, using(crate::proofs::Looking::image_told))]
    fn image_told(&mut self, alloc: Global, out: &mut [u8], used: &mut usize) -> u32
        ensures common { common_of self.new ≡ common_of self.old }
        ensures found { HasFoundOrTaken IsImagedBehind
            (TellsBytes out.old out.new used.new result) self.old self.new }
    {
        let found = self.try_image(alloc);
        image_told(found, &mut self.receipts, out, used)
    }
}

/// Writes an image of a shared tree to `out`, if its lock is free. `used` is how many bytes that has, even if `out` is too
/// short for it.
#[tactic(auto, using(crate::proofs::Looking::imaged_open, crate::proofs::Looking::imaged_closed))]
#[unsafe(no_mangle)]
pub extern "C" fn maple_shared_image(
    alloc: Global,
    user: &mut UserHandle,
    out: &mut [u8],
    used: &mut usize,
) -> u32
    ensures { SharedImaged out.old out.new used.new user.old user.new result }
{
    let Some(mut whole) = user.take(alloc) else {
        *used = 0;
        return user.refusal();
    };
    let status = whole.image_told(alloc, out, used);
    user.put(whole);
    status
}
