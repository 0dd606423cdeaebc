//! The nodes of small trees, wide and narrow, and nodes in memory that are checked.

ghost use Rattle.std.specs.Prelude.{◌≡◌, ◌%◌, ◌/◌, ◌≤◌, IfOk, length};
ghost use Rattle.mt_base.specs.Width.{columns, kind_width, most_rows};
ghost use Rattle.mt_check.specs.Check.{form_of};
ghost use Rattle.mt_rows.specs.Memory.{sheet_in};
ghost use Rattle.mt_rows.specs.Publish.{IsLawfulOf, tree_as};
ghost use Rattle.mt_rows.specs.Sheet.{IsPlace, OnlyReads};

use mt_base::{Kind, NoMemory, Width, cols, width_of};
use mt_check::{Form, check};
use mt_layout::{RowKind, slots};
use mt_rows::{PlainRows, Rows};
use std::alloc::Global;
use std::test::Fail;

/// The last index of a wide tree.
pub const TOP: u64 = u64::MAX;

/// The hole after the last entry of a wide tree whose entries end at the index 16.
pub const LONGEST: u64 = 18_446_744_073_709_551_599;

/// The last index of a narrow tree.
pub const TOP32: u64 = 4_294_967_295;

/// The hole after the last entry of a narrow tree whose entries end at the index 36.
pub const LONGEST32: u64 = 4_294_967_259;

/// A node by its kind, its parent word, and its pivots, slots and gaps up to the last of each that is not 0.
pub type Node = (RowKind, u64, &'static [u64], &'static [u64], &'static [u64]);

/// A node that is not used.
pub const UNUSED: Node = (RowKind::Leaf, 0, &[], &[], &[]);

/// A leaf, whose only range is 10 to 19 with the entry 5.
pub const LONE: &[Node] = &[(RowKind::Leaf, 1, &[9, 19, TOP], &[0, 5], &[])];

/// An allocation tree: the node 16 over the leaves 17 and 18, with eleven ranges up to the index 16.
#[rattlefmt::skip]
pub const ELEVEN: &[Node] = &[
    (RowKind::Gapped, 1, &[11, TOP], &[4364, 4620], &[0, LONGEST]),
    (RowKind::Leaf, 4096, &[0, 1, 2, 3, 4, 11], &[4096; 6], &[]),
    (RowKind::Leaf, 4097, &[12, 13, 14, 15, 16, TOP], &[4096; 5], &[]),
];

/// A narrow leaf with the same range.
pub const LONE32: &[Node] = &[(RowKind::Leaf, 1, &[9, 19, TOP32], &[0, 5], &[])];

/// A narrow allocation tree: the node 16 over the leaves 17 and 18, with 27 ranges up to the index 36.
#[rattlefmt::skip]
pub const TWENTY_SEVEN: &[Node] = &[
    (RowKind::Gapped, 1, &[23, TOP32], &[4364, 4620], &[0, LONGEST32]),
    (RowKind::Leaf, 4096, &[0, 1, 2, 3, 4, 5, 6, 7, 8, 9, 10, 11, 12, 23], &[4096; 14], &[]),
    (RowKind::Leaf, 4097, &[24, 25, 26, 27, 28, 29, 30, 31, 32, 33, 34, 35, 36, TOP32], &[4096; 13], &[]),
];

/// Appends these words, and zeros after them up to this many.
fn push_part(words: &mut Vec<u64>, part: &[u64], count: usize) -> Result<(), NoMemory> {
    words.extend_from_slice(part)?;
    for _ in part.len()..count {
        words.push(0)?;
    }
    Ok(())
}

/// The words of these nodes: a wide leaf has a parent word, 15 pivots and 16 slots, a wide node with gaps a parent word, 9 pivots,
/// 10 slots and 10 gaps, and two words that are not used. A narrow leaf has 31 pivots and 32 slots, and a narrow node with gaps
/// 20 pivots, 21 slots and 21 gaps, and a word that is not used.
pub fn words_of(alloc: Global, width: Width, nodes: &[Node]) -> Result<Vec<u64>, NoMemory> {
    let mut words = Vec::new(alloc);
    for &(kind, parent, pivots, held, gaps) in nodes {
        let (columns, count) = (cols(width) as usize, slots(width, kind) as usize);
        words.push(parent)?;
        push_part(&mut words, pivots, count.saturating_sub(1))?;
        push_part(&mut words, held, count)?;
        push_part(
            &mut words,
            gaps,
            columns.saturating_sub(count).saturating_sub(count),
        )?;
    }
    Ok(words)
}

/// The nodes of these words, which are a well-formed tree of this kind, and its form.
pub fn checked_rows(
    alloc: Global,
    words: &[u64],
    root: u64,
    kind: Kind,
) -> Result<(PlainRows, Form), Fail>
    requires whole { length words.now % columns (kind_width kind) ≡ 0 }
    requires few { length words.now / columns (kind_width kind) ≤ most_rows }
    ensures lawful { IfOk result (λ r. IsLawfulOf (sheet_in r.0).tree kind) }
    ensures form { IfOk result (λ r. r.1 ≡ form_of (tree_as kind (sheet_in r.0).tree)) }
{
    let mut rows = PlainRows::of_words(alloc, width_of(kind), root, words)?;
    let form = check(&mut rows, root, kind)?;
    Ok((rows, form))
}

/// Appends the words of a node.
pub fn push_row(rows: &mut PlainRows, row: u32, words: &mut Vec<u64>) -> Result<(), NoMemory>
    requires { IsPlace (sheet_in rows.old).tree row 0 }
    ensures { OnlyReads (sheet_in rows.old) (sheet_in rows.new) }
{
    for col in 0..cols(rows.width()) {
        words.push(rows.load(row, col))?;
    }
    Ok(())
}
