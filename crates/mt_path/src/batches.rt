//! Look-ups of many indexes at once. They go down level by level, so that the loads of one run beside those of others.

ghost use Rattle.std.specs.Prelude.{◌≡◌, ◌≢◌, ◌+◌, ◌<◌, ◌≤◌, All, length};
ghost use Rattle.mt_base.specs.declared.kinds.Kind.{Kind};
ghost use Rattle.mt_base.specs.Width.{greatest};
ghost use Rattle.mt_layout.specs.Columns.{slot_column};
ghost use Rattle.mt_layout.specs.Rows.{IsRowNumber, row_in};
ghost use Rattle.mt_layout.specs.Sizes.{slots_of};
ghost use Rattle.mt_rows.specs.Publish.{IsTreeOf};
ghost use Rattle.mt_rows.specs.Sheet.{IsPlace, OnlyReads, loaded};
ghost use Rattle.mt_rows.specs.Spans.{column};
ghost use Rattle.mt_path.specs.Batches.{IsLevel, IsTreeOfWidth, word_on, words_in, words_on};

use crate::seeks::seek_groups;
use mt_base::{DEEPEST, Width};
use mt_layout::{RowKind, kind_of, slots};
use mt_rows::Rows;

/// A node's address is its number times this.
const NODE_SIZE: u64 = 256;

/// The number of a node of this name.
#[inline(always)]
fn number_of(name: u64) -> u32
    requires { IsRowNumber (row_in name) }
    ensures { result ≡ row_in name }
{
    (name / NODE_SIZE) as u32
}

/// The word in a slot of a node.
#[inline(always)]
fn word_in<R: Rows>(rows: &mut R, width: Width, kind: RowKind, number: u32, slot: u32) -> u64
    requires width { width ≡ (R.sheet rows.old).tree.table.width }
    requires row { IsPlace (R.sheet rows.old).tree number 0 }
    requires slot { slot < slots_of (R.sheet rows.old).tree.table.width kind }
    ensures word { result ≡ column (R.sheet rows.old).tree.table number (slot_column (slots_of (R.sheet rows.old).tree.table.width kind) slot) }
    ensures rest { R.sheet rows.new ≡ loaded (R.sheet rows.old) }
{
    rows.load(number, slots(width, kind) + slot)
}

/// What the way to an index leads to below a node of this name: the name of the next node, or what is in the leaf's slot.
#[inline(always)]
fn word_below<R: Rows>(
    rows: &mut R,
    width: Width,
    kind: RowKind,
    name: u64,
    index: u64,
    depth: usize,
) -> u64
    requires over { IsTreeOfWidth (R.sheet rows.old).tree width }
    requires index { index ≤ greatest (R.sheet rows.old).tree.table.width }
    requires level { IsLevel (R.sheet rows.old).tree depth kind }
    requires name { name ≡ word_on (R.sheet rows.old).tree depth index }
    ensures word { result ≡ word_on (R.sheet rows.old).tree (depth + 1) index }
    ensures rest { OnlyReads (R.sheet rows.old) (R.sheet rows.new) }
{
    let number = number_of(name);
    let slot = seek_groups(rows, width, kind, number, index);
    word_in(rows, width, kind, number, slot)
}

/// Brings the words of all ways a level down.
#[inline(always)]
fn words_below<R: Rows>(
    rows: &mut R,
    width: Width,
    kind: RowKind,
    indexes: &[u64],
    words: &mut [u64],
    depth: usize,
)
    requires over { IsTreeOfWidth (R.sheet rows.old).tree width }
    requires indexes { All (λ index. index ≤ greatest (R.sheet rows.old).tree.table.width) indexes.now }
    requires level { IsLevel (R.sheet rows.old).tree depth kind }
    requires names { words.old ≡ words_on (R.sheet rows.old).tree depth indexes.now }
    ensures words { words.new ≡ words_on (R.sheet rows.old).tree (depth + 1) indexes.now }
    ensures rest { OnlyReads (R.sheet rows.old) (R.sheet rows.new) }
{
    for i in 0..indexes.len() {
        words[i] = word_below(rows, width, kind, words[i], indexes[i], depth);
    }
}

/// Puts the words that these indexes hold, in nodes of this width.
#[inline(always)]
fn words_by<R: Rows>(rows: &mut R, width: Width, indexes: &[u64], words: &mut [u64])
    requires over { IsTreeOfWidth (R.sheet rows.old).tree width }
    requires root { (R.sheet rows.old).tree.root ≢ 0 }
    requires some { 0 < length indexes.now }
    requires indexes { All (λ index. index ≤ greatest (R.sheet rows.old).tree.table.width) indexes.now }
    requires names { words.old ≡ words_on (R.sheet rows.old).tree 0 indexes.now }
    ensures words { words.new ≡ words_in (R.sheet rows.old).tree indexes.now }
    ensures rest { OnlyReads (R.sheet rows.old) (R.sheet rows.new) }
{
    for depth in 0..DEEPEST {
        let Some(kind) = kind_of(words[0]) else {
            unreachable!();
        };
        words_below(rows, width, kind, indexes, words, depth);
        if kind == RowKind::Leaf {
            return;
        }
    }
    unreachable!()
}

/// Puts the words that these indexes hold into as many places: an entry, or 0 for a hole.
pub fn words_at<R: Rows>(rows: &mut R, indexes: &[u64], words: &mut [u64])
    requires tree { (kind : Kind) × IsTreeOf (R.sheet rows.old).tree kind }
    requires root { (R.sheet rows.old).tree.root ≢ 0 }
    requires some { 0 < length indexes.now }
    requires indexes { All (λ index. index ≤ greatest (R.sheet rows.old).tree.table.width) indexes.now }
    requires places { length words.old ≡ length indexes.now }
    ensures words { words.new ≡ words_in (R.sheet rows.old).tree indexes.now }
    ensures rest { OnlyReads (R.sheet rows.old) (R.sheet rows.new) }
{
    words.fill(rows.root());
    match rows.width() {
        Width::Long => words_by(rows, Width::Long, indexes, words),
        Width::Short => words_by(rows, Width::Short, indexes, words),
    }
}
