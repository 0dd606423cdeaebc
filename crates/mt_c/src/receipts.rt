//! What a user has found at the tree's lock and at the purse (the pool of free handles).

ghost use Rattle.std.specs.Prelude.{◌≡◌};
ghost use Rattle.mt_c.specs.Receipts.{no_receipts};

use crate::purse::Purse;
use mt_keep::Given;
use mt_tree::{Busy, Look, Tree};

/// What a user keeps of its last steps at the lock and at the purse. Only such a step makes one, and they have no bytes.
#[derive(Drop)]
pub struct Receipts {
    /// The tree's lock was found taken.
    pub locked: Option<Busy>,
    /// The tree was looked at under its lock.
    pub looked: Option<Look>,
    /// The purse was found taken.
    pub unpursed: Option<mt_keep::Busy<Purse, Tree>>,
    /// The purse was taken and given back.
    pub given: Option<Given<Purse, Tree>>,
}

impl Receipts {
    /// None yet.
    pub fn none() -> Receipts
        ensures { result ≡ no_receipts }
    {
        Receipts {
            locked: None,
            looked: None,
            unpursed: None,
            given: None,
        }
    }
}
