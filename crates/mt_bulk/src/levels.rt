//! The levels above the leaves: where their nodes end, their parent words, how many they are, their room, and their words.

ghost use Rattle.std.specs.Prelude.{◌≡◌, ◌≢◌, ◌+◌, ◌*◌, ◌<◌, ◌≤◌, ◌++◌, ℕ, List, length, map, IfOk, OnOk, ◌^◌, vec_len, vec_capacity};
ghost use Rattle.std.specs.List.{range_with_len};
ghost use Rattle.mt_base.specs.Call.{finds_room};
ghost use Rattle.mt_base.specs.Width.{kind_width};
ghost use Rattle.mt_layout.specs.declared.items.Item.{Item};
ghost use Rattle.mt_layout.specs.Rows.{parent_at};
ghost use Rattle.mt_bulk.specs.Builds.{AreLevels, HavePushed, IsLevelOf};
ghost use Rattle.mt_bulk.specs.Bulk as defined;
ghost use Rattle.mt_rows.specs.Spans.{inner_kind};
ghost use Rattle.mt_bulk.specs.Bulk.{parents_in, levels_built, rows_up};
ghost use Rattle.mt_bulk.specs.Chunks.{IsLevelToNumber};
ghost use Rattle.mt_bulk.specs.Cuts as cuts;
ghost use Rattle.mt_bulk.specs.Cuts.{cut, ends_from, inner_size};

use crate::chunks::{Chunk, fill_rows};
use mt_base::{Kind, NoMemory, width_of};
use mt_layout::{Item, name_of, parent_word, slots};
use mt_rows::inner_kind;
use std::alloc::Global;

/// How many items an inner node of a tree of this kind has at most.
pub(crate) fn inner_slots(tree: Kind) -> usize
    ensures { result ≡ defined.inner_slots (kind_width tree) (finds_room tree) }
{
    slots(width_of(tree), inner_kind(tree)) as usize
}

/// How many of `count` items the first inner node has.
fn inner_count(most: usize, count: usize) -> usize
    requires { most ≤ 64 }
    ensures { result ≡ cuts.inner_count most count }
{
    if 2 * most < count {
        most
    } else if most < count {
        (count + 1) / 2
    } else {
        count
    }
}

/// Where each inner node ends, if `count` items are cut into inner nodes.
///
/// # Errors
///
/// `NoMemory` where memory ran out.
pub(crate) fn inner_ends(alloc: Global, most: usize, count: usize) -> Result<Vec<usize>, NoMemory>
    requires two { 2 ≤ most }
    requires few { most ≤ 64 }
    ensures { IfOk result (λ ends. (items : List Item) → length items ≡ count → ends.items ≡ ends_from 0 (cut (inner_size most) items)) }
{
    let mut ends = Vec::with_capacity(alloc, count / most + 1)?;
    let mut at = 0;
    while at < count {
        at += inner_count(most, count - at);
        ends.push(at)?;
    }
    Ok(ends)
}

/// Appends the parent words of the children in the first `count` slots of a node.
fn push_parents(parents: &mut Vec<u64>, row: u32, count: u32) -> Result<(), NoMemory>
    ensures { OnOk result (parents.new.items ≡ parents.old.items ++ map (parent_at row) (range_with_len 0 count)) }
{
    for slot in 0..count {
        parents.push(parent_word(row, slot))?;
    }
    Ok(())
}

/// The parent words of these nodes, if the inner nodes above them are numbered from `next` on.
///
/// # Errors
///
/// `NoMemory` where memory ran out.
pub(crate) fn parents_above(
    alloc: Global,
    next: u32,
    most: usize,
    count: usize,
) -> Result<Vec<u64>, NoMemory>
    requires two { 2 ≤ most }
    requires few { most ≤ 64 }
    requires room { next + count < 2 ^ 32 }
    ensures { IfOk result (λ parents. (items : List Item) → length items ≡ count → parents.items ≡ parents_in next (cut (inner_size most) items)) }
{
    let mut parents = Vec::with_capacity(alloc, count)?;
    let mut row = next;
    let mut at = 0;
    while at < count {
        let size = inner_count(most, count - at);
        push_parents(&mut parents, row, size as u32)?;
        at += size;
        row += 1;
    }
    Ok(parents)
}

/// How many nodes a level of this many nodes and the levels above it have.
#[tactic(auto, using(crate::proofs::Counts::half_at_most, crate::proofs::Counts::some_rows))]
pub(crate) fn count_rows(tree: Kind, level: u64) -> u64
    requires some { 1 ≤ level }
    requires few { level ≤ 1000000000000000000 }
    ensures rows { (left : ℕ) → level ≤ left → result ≡ rows_up (kind_width tree) (finds_room tree) left level }
    ensures few { result < 2 * level }
{
    if level == 1 {
        return 1;
    }
    level + count_rows(tree, level.div_ceil(inner_slots(tree) as u64))
}

/// The parent words of the nodes of a level, after which nodes are numbered from `next` on. A node that is alone is the root.
///
/// # Errors
///
/// `NoMemory` where memory ran out.
pub(crate) fn parents_over(
    alloc: Global,
    next: u32,
    tree: Kind,
    count: usize,
) -> Result<Vec<u64>, NoMemory>
    requires room { next + count < 2 ^ 32 }
    ensures { IfOk result (λ parents. (items : List Item) → length items ≡ count → parents.items ≡ defined.parents_over tree next items) }
{
    if count == 1 {
        let root = vec![in alloc; 1; 1]?;
        return Ok(root);
    }
    parents_above(alloc, next, inner_slots(tree), count)
}

/// A level of inner nodes before its items are known: where its nodes end, the parent word of each, and room for the items that
/// they are on the level above.
#[derive(Drop)]
pub struct LevelToFill {
    pub(crate) ends: Vec<usize>,
    pub(crate) parents: Vec<u64>,
    pub(crate) heads: Vec<Item>,
}

/// The level of the inner nodes that hold `count` items; the first node has this number.
fn level_over(alloc: Global, tree: Kind, number: u32, count: usize) -> Result<LevelToFill, NoMemory>
    requires two { 2 ≤ count }
    requires room { number + 2 * count < 2 ^ 32 }
    ensures level { IfOk result (IsLevelOf tree number count) }
    ensures some { IfOk result (λ level. 1 ≤ length level.ends.items) }
    ensures half { IfOk result (λ level. 2 * length level.ends.items ≤ count) }
{
    let ends = inner_ends(alloc, inner_slots(tree), count)?;
    let parents = parents_over(alloc, number + ends.len() as u32, tree, ends.len())?;
    let heads = Vec::with_capacity(alloc, ends.len())?;
    Ok(LevelToFill {
        ends,
        parents,
        heads,
    })
}

/// Appends the levels above `count` items, up to that of one node; the first node has this number.
fn push_levels(
    alloc: Global,
    tree: Kind,
    number: u32,
    count: usize,
    levels: &mut Vec<LevelToFill>,
) -> Result<(), NoMemory>
    requires two { 2 ≤ count }
    requires room { number + 2 * count < 2 ^ 32 }
    ensures { OnOk result (HavePushed tree number count levels.old.items levels.new.items) }
{
    let level = level_over(alloc, tree, number, count)?;
    let rows = level.ends.len();
    levels.push(level)?;
    if rows == 1 {
        return Ok(());
    }
    push_levels(alloc, tree, number + rows as u32, rows, levels)
}

/// The levels above `count` items, up to that of one node; the first node has this number. One item has no level above it.
///
/// # Errors
///
/// `NoMemory` where memory ran out.
pub(crate) fn levels_over(
    alloc: Global,
    tree: Kind,
    number: u32,
    count: usize,
) -> Result<Vec<LevelToFill>, NoMemory>
    requires some { 1 ≤ count }
    requires room { number + 2 * count < 2 ^ 32 }
    ensures { IfOk result (λ levels. count ≢ 1 → AreLevels tree number count levels.items) }
{
    let mut levels = Vec::new(alloc);
    if count > 1 {
        push_levels(alloc, tree, number, count, &mut levels)?;
    }
    Ok(levels)
}

/// Appends the words of the inner nodes that hold these items, and of those above them, and answers the root word.
pub(crate) fn raise(
    tree: Kind,
    number: u32,
    items: &[Item],
    levels: &mut [LevelToFill],
    words: &mut Vec<u64>,
) -> u64
    requires level { IsLevelToNumber tree number items.now }
    requires levels { AreLevels tree number (length items.now) levels.old }
    requires room { vec_len words.old + length (levels_built tree (inner_kind tree) number items.now).words ≤ vec_capacity words.old }
    ensures root { result ≡ (levels_built tree (inner_kind tree) number items.now).root }
    ensures words { words.new.items ≡ words.old.items ++ (levels_built tree (inner_kind tree) number items.now).words }
{
    let Some((level, above)) = levels.split_first_mut() else {
        unreachable!()
    };
    let kind = inner_kind(tree);
    let chunk = Chunk {
        tree,
        kind,
        number,
        items,
        from: 0,
        ends: &level.ends,
        parents: &level.parents,
    };
    fill_rows(&chunk, words, &mut level.heads);
    let rows = level.ends.len();
    if rows == 1 {
        return name_of(number, kind).word();
    }
    raise(tree, number + rows as u32, &level.heads, above, words)
}
