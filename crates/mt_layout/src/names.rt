ghost use Rattle.std.specs.Prelude.{◌≡◌, ◌↔◌, ℕ, IsTrue, IsSome, IfSome, IfNone};
ghost use Rattle.mt_layout.specs.declared.names.RowKind.{RowKind};
ghost use Rattle.mt_layout.specs.Rows.{IsRowNumber, Names, name_at, row_in, named_row, named_kind, parent_at, dead_mark};

use mt_base::{FIRST_ROW, MOST_ROWS};
use std::marker::Model;

/// A node's address is its number times this, whatever the node's width.
const ROW_SIZE: u64 = 256;

/// The low bytes of names, which give the kind of the node.
const LEAF: u64 = 12;

const INNER: u64 = 20;

const GAPPED: u64 = 28;

/// What a node is: a leaf, an inner node of a range tree, or an inner node of an allocation tree, which has gaps.
#[derive(Clone, Copy, Debug, PartialEq, Eq)]
pub enum RowKind {
    Leaf,
    Inner,
    Gapped,
}

/// A node's name: its number and its kind in one word, as the kernel encodes a node.
#[derive(Clone, Copy, Debug)]
pub struct Name(u64);

impl Model for Name {
    ghost use Rattle.std.specs.Prelude.{ℕ, IsSome};
    ghost use Rattle.mt_layout.specs.Rows.{named_kind};

    ghost Value = { ℕ };

    ghost view = { λ n. n.0 };

    ghost invariant = { λ n. IsSome (named_kind n.0) };

    ghost inverse = { λ word. record { 0 = word } };
}

impl Name {
    /// The name as a word of a node.
    pub fn word(&self) -> u64
        ensures word { result ≡ self.now }
        ensures named { IsSome (named_kind result) }
    {
        self.0
    }
}

/// The name of the node with this number, as a node of this kind.
pub fn name_of(row: u32, kind: RowKind) -> Name
    requires { IsRowNumber row }
    ensures { result ≡ name_at row kind }
{
    let low_byte = match kind {
        RowKind::Leaf => LEAF,
        RowKind::Inner => INNER,
        RowKind::Gapped => GAPPED,
    };
    Name(u64::from(row) * ROW_SIZE + low_byte)
}

/// The number of the node that this word names, or none where the word is no name.
pub fn row_of(word: u64) -> Option<u32>
    ensures row { result ≡ named_row word }
    ensures name { IfSome result (λ row. (kind : RowKind) × Names word row kind) }
    ensures no_name { IfNone result ((row : ℕ) (kind : RowKind) → Names word row kind → ⊥) }
{
    kind_of(word)?;
    Some((word / ROW_SIZE) as u32)
}

/// The kind of the node that this word names, or none where the word is no name.
pub fn kind_of(word: u64) -> Option<RowKind>
    ensures kind { result ≡ named_kind word }
    ensures name { IfSome result (λ kind. Names word (row_in word) kind) }
    ensures no_name { IfNone result ((row : ℕ) (kind : RowKind) → Names word row kind → ⊥) }
{
    let row = word / ROW_SIZE;
    if row < u64::from(FIRST_ROW) || u64::from(FIRST_ROW) + MOST_ROWS <= row {
        return None;
    }
    match word % ROW_SIZE {
        LEAF => Some(RowKind::Leaf),
        INNER => Some(RowKind::Inner),
        GAPPED => Some(RowKind::Gapped),
        _ => None,
    }
}

/// The parent word of a node whose parent `row` has it in this slot.
pub fn parent_word(row: u32, slot: u32) -> u64
    ensures { result ≡ parent_at row slot }
{
    u64::from(row) * ROW_SIZE + u64::from(slot)
}

/// Whether this parent word marks the node with this number as dead.
pub fn is_dead_mark(row: u32, word: u64) -> bool
    ensures { IsTrue result ↔ (word ≡ dead_mark row) }
{
    word == u64::from(row) * ROW_SIZE
}
