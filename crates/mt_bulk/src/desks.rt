//! The desk of a worker.

use crate::chunks::{Chunk, fill_rows};
use mt_lanes::Desk;
use mt_layout::Item;

/// The desk of a worker: a chunk of the leaves, and room for what it makes. Its one step fills the chunk's nodes.
#[derive(Drop)]
pub struct LeafDesk<'a> {
    pub chunk: Chunk<'a>,
    pub words: Vec<u64>,
    pub heads: Vec<Item>,
}

impl<'a> Desk for LeafDesk<'a> {
    ghost use Rattle.std.specs.Prelude.{◌≤◌, vec_len, vec_capacity};
    ghost use Rattle.mt_bulk.specs.Chunks.{HasFilled, IsFillable, view_of};

    ghost count = { λ _. 1 };

    ghost awaits = { λ d _. IsFillable (view_of d.chunk) (vec_len d.words) (vec_capacity d.words) (vec_len d.heads) (vec_capacity d.heads) };

    ghost did = { λ a _ b. HasFilled (view_of a.chunk) a.words.items b.words.items a.heads.items b.heads.items
        × (vec_capacity a.words ≤ vec_capacity b.words) × (vec_capacity a.heads ≤ vec_capacity b.heads) };

    fn answer(&mut self, _step: u64) {
        fill_rows(&self.chunk, &mut self.words, &mut self.heads);
    }
}
