//! How often nodes are read.

ghost use Rattle.std.specs.Prelude.{◌≡◌};
ghost use Rattle.mt_rows.specs.Sheet.{one_more};

use std::marker::{Model, Send};
use std::mem;
use std::snapshot::Snapshot;

/// No read, or one more than before. Only clauses see what stood before.
#[derive(Drop)]
pub(crate) enum Chain {
    Empty,
    Longer(Snapshot<Chain>),
}

/// How often nodes were read, up to 2^64 - 1. It takes no bytes when the program runs, and only `tick` raises it.
#[derive(Drop)]
pub(crate) struct Reads {
    chain: Snapshot<Chain>,
}

impl Model for Reads {
    ghost use Rattle.std.specs.Prelude.{ℕ};
    ghost use Rattle.mt_rows.specs.Reads.{length_of};

    ghost Value = { ℕ };

    ghost view = { λ r. length_of r.chain.value };
}

impl Reads {
    /// No read yet.
    pub(crate) fn new() -> Reads
        ensures { result ≡ 0 }
    {
        Reads {
            chain: Snapshot::of(&Chain::Empty),
        }
    }

    /// One read more.
    pub(crate) fn tick(&mut self)
        ensures { self.new ≡ one_more self.old }
    {
        let before = mem::replace(&mut self.chain, Snapshot::of(&Chain::Empty));
        self.chain = Snapshot::of(&Chain::Longer(before));
    }
}

/// Reads own nothing that a thread could share.
unsafe impl Send for Reads {}
