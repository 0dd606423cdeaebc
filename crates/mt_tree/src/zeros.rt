//! What empty trees are made over.

ghost use Rattle.std.specs.Prelude.{◌≡◌, ◌≤◌, All, IfOk, map};
ghost use Rattle.mt_base.specs.Width.{columns, kind_width, most_rows};
ghost use Rattle.mt_rows.specs.Plain.{new_sheet};
ghost use Rattle.mt_rule.specs.Places.{AreOpening, table_size};
ghost use Rattle.mt_tree.specs.Zeros.{AreZero, Serve};

use mt_base::{FIRST_ROW, Kind, NoMemory, Width, cols, width_of};
use mt_rows::PlainRows;
use mt_rule::opening_words;
use std::alloc::Global;

/// Words that are all 0. Trees whose tables have no more words are made over them, in several threads at once too.
#[derive(Drop)]
pub struct Zeros {
    pub(crate) words: Vec<u64>,
    ghost zero: { AreZero words.items },
}

/// That of two widths whose nodes are longer.
fn wider(a: Width, b: Width) -> Width
    ensures first { columns a ≤ columns result }
    ensures second { columns b ≤ columns result }
{
    if cols(a) < cols(b) { b } else { a }
}

/// The width of the longest nodes that trees of these kinds have.
fn widest(kinds: &[Kind]) -> Width
    ensures { All (λ kind. columns (kind_width kind) ≤ columns result) kinds.now }
{
    let mut widest = Width::Long;
    for kind in kinds {
        widest = wider(widest, width_of(*kind));
    }
    widest
}

/// So many words of nodes of this width, with those before the first node.
fn size_of(width: Width, rows: u64) -> usize
    requires { rows ≤ most_rows }
    ensures { result ≡ table_size width rows }
{
    cols(width) as usize * (FIRST_ROW as usize + rows as usize)
}

impl Zeros {
    /// Zeros for empty trees of all these kinds, of `rows` nodes: as many words as the widest of them have.
    ///
    /// # Errors
    ///
    /// `NoMemory` where memory ran out.
    #[tactic(auto, using(crate::proofs::NoneWritten::opened_zero))]
    pub fn new(alloc: Global, kinds: &[Kind], rows: u64) -> Result<Zeros, NoMemory>
        requires { rows ≤ most_rows }
        ensures { IfOk result (λ zeros. All (λ kind. Serve zeros.words.items kind rows) kinds.now) }
    {
        let rows = PlainRows::of_width(alloc, widest(kinds), rows)?;
        let words = opening_words(rows);
        Ok(Zeros { words })
    }

    /// The words of an empty tree of this kind, of `rows` nodes.
    #[tactic(auto, using(crate::proofs::NoneWritten::zeros_open))]
    pub(crate) fn words_for(&self, kind: Kind, rows: u64) -> &[u64]
        requires few { rows ≤ most_rows }
        requires serve { Serve self.now.words.items kind rows }
        ensures { AreOpening (new_sheet (kind_width kind) rows).tree result.now }
    {
        &self.words[..size_of(width_of(kind), rows)]
    }
}
