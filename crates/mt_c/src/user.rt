//! A user of a tree that threads share.

ghost use Rattle.std.specs.Arc.{arc_value};
ghost use Rattle.mt_tree.specs.Trees.{IsPassOf};
ghost use Rattle.mt_c.specs.Purses.{IsChairAtPurse};

use crate::purse::{Common, Purse};
use crate::receipts::Receipts;
use crate::walker::Walker;
use mt_keep::Chair;
use mt_tree::Tree;
use std::sync::Arc;

/// A share of a tree, a handle of it with its walk, a chair (token) at the purse of the free handles, and what was last found
/// there and at the lock. One thread at a time uses it.
#[derive(Drop)]
pub struct User {
    pub common: Arc<Common>,
    pub walker: Walker,
    pub chair: Chair<Purse, Tree>,
    pub receipts: Receipts,
    ghost of: { IsPassOf (arc_value common).tree walker.pass },
    ghost seated: { IsChairAtPurse (arc_value common) chair },
}
