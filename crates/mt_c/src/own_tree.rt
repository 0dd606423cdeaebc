//! A tree that one thread at a time uses.

use mt_base::Kind;
use mt_engine::{Engine, RangeWalk};
use mt_rows::PlainRows;
use std::marker::Model;

/// A tree of nodes, its kind, how many calls were made of it, the place of the walk that went last there, and how many ranges it
/// has, if that is known.
#[derive(Drop)]
pub struct OwnTree {
    pub(crate) engine: Engine<PlainRows>,
    pub(crate) kind: Kind,
    pub(crate) calls: u64,
    pub(crate) place: RangeWalk,
    pub(crate) ranges: Option<u64>,
}

impl Model for OwnTree {
    ghost use Rattle.mt_c.specs.Own.{OwnTree, own_of, IsOwnTree};

    ghost Value = { OwnTree };

    ghost view = { own_of };

    ghost invariant = { IsOwnTree };
}
