//! Trees that are built at once.

ghost use Rattle.std.specs.Prelude.{◌≡◌, ◌≢◌, ◌+◌, ◌*◌, ◌≤◌, ◌++◌, ◌∷◌, ℕ, [], IfOk, IfErr, None, Some, length, vec_len, vec_capacity};
ghost use Rattle.mt_base.specs.Width.{first_row};
ghost use Rattle.mt_rows.specs.Memory.{sheet_in};
ghost use Rattle.mt_bulk.specs.Builds.{AreLaid, HasLeafFacts, AreLevels, AreLanesFrom, FirstHasRoom, IsBuilt, IsLeafLane, IsUpperOf, TookTurns};
ghost use Rattle.mt_bulk.specs.Builds.{built_of, heads_made, refusal, whole_of, words_made, words_room};
ghost use Rattle.mt_bulk.specs.Chunks.{heads_in, chunk_words};

use crate::chunks::fill_rows;
use crate::desks::LeafDesk;
use crate::errors::BulkError;
use crate::leaves::{Leaves, leaves_of};
use crate::levels::{LevelToFill, levels_over, raise};
use mt_base::{FIRST_ROW, Kind, NoMemory, Range, cols, width_of};
use mt_io::Gate;
use mt_lanes::{Lane, run_lanes};
use mt_layout::{Item, RowKind, name_of};
use mt_rows::PlainRows;
use std::alloc::Global;
use std::mem;
use std::thread::Threads;

/// The nodes of the tree that has no range: none.
#[tactic(auto, using(crate::proofs::Finished::made_is_built), unfolding(crate::specs::Builds::refusal))]
fn no_rows(alloc: Global, kind: Kind) -> Result<PlainRows, NoMemory>
    ensures { IfOk result (λ rows. IsBuilt kind [] (sheet_in rows)) }
{
    PlainRows::of_words(alloc, width_of(kind), 0, &[])
}

/// What is made after the workers are done, with all memory that it takes: the levels above the leaves, and a table for all
/// nodes.
#[derive(Drop)]
pub struct Upper {
    pub(crate) levels: Vec<LevelToFill>,
    pub(crate) table: PlainRows,
}

/// Takes the memory of the levels above the leaves, and of the table.
fn upper_of(alloc: Global, leaves: &Leaves) -> Result<Upper, NoMemory>
    requires { HasLeafFacts leaves.now }
    ensures { IfOk result (IsUpperOf leaves.now) }
{
    let count = leaves.ends.len();
    let levels = levels_over(alloc, leaves.kind, FIRST_ROW + count as u32, count)?;
    let table = PlainRows::of_width(alloc, width_of(leaves.kind), leaves.rows)?;
    Ok(Upper { levels, table })
}

/// Appends the words of the nodes above the leaves, and answers the root word.
fn raise_all(
    leaves: &Leaves,
    levels: &mut [LevelToFill],
    heads: &[Item],
    words: &mut Vec<u64>,
) -> u64
    requires leaves { HasLeafFacts leaves.now }
    requires levels { length leaves.now.ends.items ≢ 1
        → AreLevels leaves.now.kind (first_row + length leaves.now.ends.items) (length leaves.now.ends.items) levels.old }
    requires heads { heads.now ≡ heads_in (whole_of leaves.now) }
    requires words { words.old.items ≡ chunk_words (whole_of leaves.now) }
    requires room { words_room leaves.now ≤ vec_capacity words.old }
    ensures root { result ≡ (built_of leaves.now).root }
    ensures words { words.new.items ≡ (built_of leaves.now).words }
{
    let count = leaves.ends.len();
    if count == 1 {
        return name_of(FIRST_ROW, RowKind::Leaf).word();
    }
    raise(leaves.kind, FIRST_ROW + count as u32, heads, levels, words)
}

/// The nodes of the tree whose leaves have these words and are these items on the level above. It takes no memory.
fn finish(leaves: &Leaves, upper: Upper, heads: &[Item], mut words: Vec<u64>) -> PlainRows
    requires leaves { HasLeafFacts leaves.now }
    requires upper { IsUpperOf leaves.now upper }
    requires heads { heads.now ≡ heads_in (whole_of leaves.now) }
    requires words { words.items ≡ chunk_words (whole_of leaves.now) }
    requires room { words_room leaves.now ≤ vec_capacity words }
    ensures { IsBuilt leaves.now.kind leaves.now.ranges.now (sheet_in result) }
{
    let Upper {
        mut levels,
        mut table,
    } = upper;
    let root = raise_all(leaves, levels.as_mut_slice(), heads, &mut words);
    table.put_words(width_of(leaves.kind), root, &words);
    table
}

/// Room for a worker's own nodes; the first has room for all.
fn room_for(worker: u32, own: usize, all: usize) -> usize
    ensures least { own ≤ result }
    ensures most { result ≤ own + all }
    ensures first { worker ≡ 0 → all ≤ result }
{
    if worker == 0 { own.max(all) } else { own }
}

/// A lane with one step, at whose desk the leaves from a place up to another are to be filled. The first one's room is for all
/// nodes of the tree.
fn lay_lane<'a>(
    alloc: Global,
    leaves: &'a Leaves<'a>,
    worker: u32,
    from: usize,
    to: usize,
) -> Result<Lane<LeafDesk<'a>>, NoMemory>
    requires leaves { HasLeafFacts leaves.now }
    requires order { from ≤ to }
    requires inside { to ≤ length leaves.now.ends.items }
    ensures laid { IfOk result (IsLeafLane (whole_of leaves.now) from to) }
    ensures number { IfOk result (λ lane. lane.lane ≡ worker) }
    ensures room { worker ≡ 0 → IfOk result (λ lane. FirstHasRoom (words_room leaves.now) (length leaves.now.ends.items) (lane ∷ [])) }
{
    let rows = room_for(worker, to - from, leaves.rows as usize);
    let items = room_for(worker, to - from, leaves.ends.len());
    let words = Vec::with_capacity(alloc, cols(width_of(leaves.kind)) as usize * rows)?;
    let heads = Vec::with_capacity(alloc, items)?;
    let desk = LeafDesk {
        chunk: leaves.part(from, to),
        words,
        heads,
    };
    Ok(Lane {
        lane: worker,
        steps: 1,
        desk,
    })
}

/// A lane for each worker, all of about as many leaves.
#[tactic(auto, using(crate::proofs::Laying::laid_more, crate::proofs::Laying::first_room, crate::proofs::Laying::numbered_more))]
fn lay_lanes<'a>(
    alloc: Global,
    leaves: &'a Leaves<'a>,
    workers: u32,
) -> Result<Vec<Lane<LeafDesk<'a>>>, NoMemory>
    requires leaves { HasLeafFacts leaves.now }
    requires some { 1 ≤ workers }
    ensures count { IfOk result (λ lanes. length lanes.items ≡ workers) }
    ensures laid { IfOk result (λ lanes. AreLaid (whole_of leaves.now) 0 (length leaves.now.ends.items) lanes.items) }
    ensures numbered { IfOk result (λ lanes. AreLanesFrom 0 lanes.items) }
    ensures room { IfOk result (λ lanes. FirstHasRoom (words_room leaves.now) (length leaves.now.ends.items) lanes.items) }
{
    let mut lanes = Vec::with_capacity(alloc, workers as usize)?;
    let mut from = 0;
    for worker in 0..workers {
        let left = leaves.ends.len() - from;
        let to = from + left / (workers - worker) as usize;
        lanes.push_reserved(lay_lane(alloc, leaves, worker, from, to)?);
        from = to;
    }
    Ok(lanes)
}

/// Appends items, where there is room for them.
fn append<T: Copy>(all: &mut Vec<T>, more: &[T])
    requires { vec_len all.old + length more.now ≤ vec_capacity all.old }
    ensures items { all.new.items ≡ all.old.items ++ more.now }
    ensures capacity { vec_capacity all.old ≤ vec_capacity all.new }
{
    let Ok(()) = all.extend_from_slice(more) else {
        unreachable!()
    };
}

/// Appends what these workers made, in their order, if there is room.
fn append_all(lanes: &[Lane<LeafDesk<'_>>], words: &mut Vec<u64>, heads: &mut Vec<Item>)
    requires words { vec_len words.old + length (words_made lanes.now) ≤ vec_capacity words.old }
    requires heads { vec_len heads.old + length (heads_made lanes.now) ≤ vec_capacity heads.old }
    ensures words { words.new.items ≡ words.old.items ++ words_made lanes.now }
    ensures heads { heads.new.items ≡ heads.old.items ++ heads_made lanes.now }
    ensures capacity { vec_capacity words.old ≤ vec_capacity words.new }
{
    for lane in lanes {
        append(words, &lane.desk.words);
        append(heads, &lane.desk.heads);
    }
}

/// What the workers made, in their order, in the room of the first.
fn gather(alloc: Global, lanes: &mut [Lane<LeafDesk<'_>>]) -> (Vec<u64>, Vec<Item>)
    requires { FirstHasRoom (length (words_made lanes.old)) (length (heads_made lanes.old)) lanes.old }
    ensures words { result.0.items ≡ words_made lanes.old }
    ensures heads { result.1.items ≡ heads_made lanes.old }
    ensures room { (words heads : ℕ) → 1 ≤ length lanes.old → FirstHasRoom words heads lanes.old → words ≤ vec_capacity result.0 }
{
    let Some((first, others)) = lanes.split_first_mut() else {
        return (Vec::new(alloc), Vec::new(alloc));
    };
    let mut words = mem::replace(&mut first.desk.words, Vec::new(alloc));
    let mut heads = mem::replace(&mut first.desk.heads, Vec::new(alloc));
    append_all(others, &mut words, &mut heads);
    (words, heads)
}

/// Has the leaves filled by the workers of these lanes at once: their words, and the items that they are on the level above. It takes
/// no memory.
fn fill_at_once<R: Threads + Sync, G: Gate + Sync>(
    rt: &R,
    alloc: Global,
    leaves: &Leaves,
    lanes: &mut [Lane<LeafDesk<'_>>],
    gate: &G,
) -> (Vec<u64>, Vec<Item>)
    requires leaves { HasLeafFacts leaves.now }
    requires some { 1 ≤ length lanes.old }
    requires laid { AreLaid (whole_of leaves.now) 0 (length leaves.now.ends.items) lanes.old }
    requires numbered { AreLanesFrom 0 lanes.old }
    requires room { FirstHasRoom (words_room leaves.now) (length leaves.now.ends.items) lanes.old }
    ensures words { result.0.items ≡ chunk_words (whole_of leaves.now) }
    ensures heads { result.1.items ≡ heads_in (whole_of leaves.now) }
    ensures room { words_room leaves.now ≤ vec_capacity result.0 }
    ensures turns { TookTurns (G.passed gate.now) (length lanes.old) }
{
    run_lanes(rt, lanes, gate);
    gather(alloc, lanes)
}

/// The leaves, filled by the caller alone.
#[tactic(auto, using(crate::proofs::Laying::columns_grow))]
fn fill_alone(alloc: Global, leaves: &Leaves) -> Result<(Vec<u64>, Vec<Item>), NoMemory>
    requires { HasLeafFacts leaves.now }
    ensures words { IfOk result (λ r. r.0.items ≡ chunk_words (whole_of leaves.now)) }
    ensures heads { IfOk result (λ r. r.1.items ≡ heads_in (whole_of leaves.now)) }
    ensures room { IfOk result (λ r. words_room leaves.now ≤ vec_capacity r.0) }
{
    let width = width_of(leaves.kind);
    let rows = leaves.ends.len().max(leaves.rows as usize);
    let mut words = Vec::with_capacity(alloc, cols(width) as usize * rows)?;
    let mut heads = Vec::with_capacity(alloc, leaves.ends.len())?;
    fill_rows(&leaves.chunk(), &mut words, &mut heads);
    Ok((words, heads))
}

/// Builds the nodes of a tree of this kind that has exactly these ranges, by 1 to 16 workers (threads) at once.
///
/// The words are those of `bulk`, whatever the number of workers. Each worker is a lane of one step, with its two turns of the gate,
/// for which all memory is taken before the lanes start.
///
/// # Errors
///
/// `Order` and `TooMany` just where there is no such tree, and `NoMemory` where memory ran out.
#[tactic(auto, using(crate::proofs::Finished::leaves_taken))]
pub fn build<R: Threads + Sync, G: Gate + Sync>(
    rt: &R,
    alloc: Global,
    kind: Kind,
    ranges: &[Range],
    workers: u32,
    gate: &G,
) -> Result<PlainRows, BulkError>
    requires some { 1 ≤ workers }
    requires few { workers ≤ 16 }
    ensures taken { IfOk result (λ rows. refusal kind ranges.now ≡ None) }
    ensures built { IfOk result (λ rows. IsBuilt kind ranges.now (sheet_in rows)) }
    ensures turns { IfOk result (λ rows. 1 ≤ length ranges.now → TookTurns (G.passed gate.now) workers) }
    ensures err { IfErr result (λ e. e ≢ BulkError.NoMemory → refusal kind ranges.now ≡ Some e) }
{
    if ranges.is_empty() {
        return Ok(no_rows(alloc, kind)?);
    }
    let leaves = leaves_of(alloc, kind, ranges)?;
    let upper = upper_of(alloc, &leaves)?;
    let mut lanes = lay_lanes(alloc, &leaves, workers)?;
    let (words, heads) = fill_at_once(rt, alloc, &leaves, lanes.as_mut_slice(), gate);
    Ok(finish(&leaves, upper, &heads, words))
}

/// As `build`, by the caller alone.
///
/// # Errors
///
/// As `build`.
#[tactic(auto, using(crate::proofs::Finished::leaves_taken))]
pub fn build_alone(alloc: Global, kind: Kind, ranges: &[Range]) -> Result<PlainRows, BulkError>
    ensures taken { IfOk result (λ rows. refusal kind ranges.now ≡ None) }
    ensures built { IfOk result (λ rows. IsBuilt kind ranges.now (sheet_in rows)) }
    ensures err { IfErr result (λ e. e ≢ BulkError.NoMemory → refusal kind ranges.now ≡ Some e) }
{
    if ranges.is_empty() {
        return Ok(no_rows(alloc, kind)?);
    }
    let leaves = leaves_of(alloc, kind, ranges)?;
    let upper = upper_of(alloc, &leaves)?;
    let (words, heads) = fill_alone(alloc, &leaves)?;
    Ok(finish(&leaves, upper, &heads, words))
}
