//! Images written.

ghost use Rattle.std.specs.Prelude.{◌≡◌, ◌*◌, ◌^◌, ◌<◌, ◌≤◌, IfOk, length};
ghost use Rattle.std.specs.List.{AllByRecursion};
ghost use Rattle.mt_base.specs.Width.{columns, first_row, kind_width};
ghost use Rattle.mt_rows.specs.Publish.{IsLawfulOf};
ghost use Rattle.mt_rows.specs.Sheet.{OnlyReads};
ghost use Rattle.mt_rows.specs.Trees.{reached_in};
ghost use Rattle.mt_image.specs.Bytes.{image_of, tree_with_words};
ghost use Rattle.mt_image.specs.Images.{IsImageOf, IsOrderedCopy};

use crate::bytes::{HEAD, TEXT, code_of, push_numbers};
use mt_base::{FIRST_ROW, Kind, NoMemory, Steps, cols, width_of};
use mt_check::form_of;
use mt_dup::copy_rows;
use mt_free::RowBook;
use mt_rows::{PlainRows, Rows};
use std::alloc::Global;
use std::marker::Brand;
use std::sync::ledger::{Blank, Ledger};

/// Does nothing at run time: it shows the prover that words are numbers of 64 bits.
fn tell_fit(words: &[u64])
    ensures { AllByRecursion (λ n. n < 2 ^ 64) words.now }
{}

/// A copy of a tree in just as many nodes as it has in use, in the order of the walk: the words of the copy's table, and its
/// root word.
fn copy_in_order<R: Rows, L: Ledger>(
    blank: Blank,
    alloc: Global,
    rows: &mut R,
    live: u64,
    kind: Kind,
) -> Result<(Vec<u64>, u64), NoMemory>
    requires name { blank.name ≡ L.name }
    requires parts { blank.parts ≡ L.parts }
    requires some { 0 < blank.parts }
    requires lawful { IsLawfulOf (R.sheet rows.old).tree kind }
    requires live { live ≡ length (reached_in (R.sheet rows.old).tree.table (R.sheet rows.old).tree.root) }
    ensures copy { IfOk result (λ r. IsOrderedCopy kind (R.sheet rows.old).tree (tree_with_words kind live r.1 r.0.items)) }
    ensures rest { OnlyReads (R.sheet rows.old) (R.sheet rows.new) }
{
    let mut copy = PlainRows::of_width(alloc, width_of(kind), live)?;
    let mut book = RowBook::new(alloc, live)?;
    let mut steps = Steps::<L>::new(blank);
    let root = copy_rows(rows, &mut copy, &mut book, &mut steps);
    let words = copy.into_words();
    tell_fit(&words);
    Ok((words, root))
}

/// The image of a tree of this kind with this many nodes and this root word, whose table has these words.
fn image_bytes(
    alloc: Global,
    kind: Kind,
    rows: u64,
    root: u64,
    words: &[u64],
) -> Result<Vec<u8>, NoMemory>
    requires { columns (kind_width kind) * first_row ≤ length words.now }
    ensures { IfOk result (λ bytes. bytes.items ≡ image_of kind (tree_with_words kind rows root words.now)) }
{
    let before = cols(width_of(kind)) as usize * FIRST_ROW as usize;
    let words = &words[before..];
    let mut bytes = Vec::with_capacity(alloc, HEAD + 8 * words.len())?;
    bytes.extend_from_slice(&TEXT)?;
    push_numbers(&mut bytes, &[code_of(kind), rows, root])?;
    push_numbers(&mut bytes, words)?;
    Ok(bytes)
}

/// The image of a tree of this kind.
///
/// # Errors
///
/// `NoMemory` where memory ran out.
pub fn write_image<R: Rows>(alloc: Global, rows: &mut R, kind: Kind) -> Result<Vec<u8>, NoMemory>
    requires { IsLawfulOf (R.sheet rows.old).tree kind }
    ensures image { IfOk result (λ bytes. IsImageOf kind (R.sheet rows.old).tree bytes.items) }
    ensures rest { OnlyReads (R.sheet rows.old) (R.sheet rows.new) }
{
    let live = form_of(rows, kind).rows;
    let (words, root) = copy_in_order::<R, Brand>(Blank::new(1), alloc, rows, live, kind)?;
    image_bytes(alloc, kind, live, root, &words)
}
