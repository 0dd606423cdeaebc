//! The empty trees that the lines of a phase declare, which are made before the lines are gone through.

ghost use Rattle.std.specs.Prelude.{◌≡◌, ◌<◌, ◌≤◌, All, IfOk, length, slice_index_or, vec_len};
ghost use Rattle.mt_base.specs.Width.{most_rows};
ghost use Rattle.mt_base.specs.declared.kinds.Kind.{Kind};
ghost use Rattle.mt_replay.specs.Makes.{AreMade, IsMade, kinds_in};
ghost use Rattle.mt_replay.specs.Trees.{player_passes};
ghost use Rattle.mt_base.specs.Limits.{fewest_rows};

use crate::trees::Plays;
use mt_base::{Kind, NoMemory};
use mt_desks::Passage;
use mt_log::{Item, Line};
use std::alloc::Global;
use std::thread;
use std::thread::Threads;

/// A new tree and its handles, or that memory ran out for it.
pub(crate) type Made<P, T> = Result<(T, Vec<P>), NoMemory>;

/// The kinds of the empty trees that these lines declare, in their order.
///
/// # Errors
///
/// `NoMemory` where memory ran out.
fn kinds_of(alloc: Global, lines: &[Line]) -> Result<Vec<Kind>, NoMemory>
    ensures { IfOk result (λ kinds. kinds.items ≡ kinds_in lines.now) }
{
    let mut kinds = Vec::new(alloc);
    for line in lines {
        if let Item::Tree { kind, .. } = line.item {
            kinds.push(kind)?;
        }
    }
    Ok(kinds)
}

/// Trees of these kinds, in their order, made at once.
///
/// # Errors
///
/// `NoMemory` where memory ran out for the list.
fn make_at_once<R: Threads + Sync, P: Passage + Drop + Send, T: Plays<P> + Send>(
    rt: &R,
    alloc: Global,
    kinds: &[Kind],
    rows: u64,
    passes: u32,
    zeros: &T::Zeros,
) -> Result<Vec<Made<P, T>>, NoMemory>
    requires few_rows { fewest_rows ≤ rows }
    requires rows { rows ≤ most_rows }
    requires some_pass { 1 ≤ passes }
    requires passes { passes ≤ player_passes }
    requires zeros { All (λ kind. T.zeros_serve zeros.now kind rows) kinds.now }
    ensures count { IfOk result (λ made. vec_len made ≡ length kinds.now) }
    ensures made { IfOk result (λ made. AreMade T.tree P.knows T.serves T.many rows passes kinds.now made.items) }
{
    let make = |at: usize| -> Made<P, T>
        requires { (at < length kinds.now) × (fewest_rows ≤ rows) × (rows ≤ most_rows) × (1 ≤ passes) × (passes ≤ player_passes)
            × All (λ kind. T.zeros_serve zeros.now kind rows) kinds.now }
        ensures { (kind : Kind) → IfOk result (IsMade T.tree P.knows T.serves T.many rows passes (slice_index_or kinds.entry.now at kind)) }
    { T::make(alloc, kinds[at], rows, passes, zeros) };
    let made = thread::map_indices(rt, alloc, kinds.len(), &make)?;
    Ok(made)
}

/// Trees of these kinds, in their order. Half of those still to come are made at once. So with what their making takes, they
/// never need more memory than if they are made one by one.
///
/// # Errors
///
/// `NoMemory` where memory ran out for the list or for what trees are made over.
fn make_all<R: Threads + Sync, P: Passage + Drop + Send, T: Plays<P> + Send>(
    rt: &R,
    alloc: Global,
    kinds: &[Kind],
    rows: u64,
    passes: u32,
) -> Result<Vec<Made<P, T>>, NoMemory>
    requires few_rows { fewest_rows ≤ rows }
    requires rows { rows ≤ most_rows }
    requires some_pass { 1 ≤ passes }
    requires passes { passes ≤ player_passes }
    ensures { IfOk result (λ made. AreMade T.tree P.knows T.serves T.many rows passes kinds.now made.items) }
{
    let mut made = Vec::with_capacity(alloc, kinds.len())?;
    if kinds.is_empty() {
        return Ok(made);
    }
    let zeros = T::zeros(alloc, kinds, rows)?;
    while made.len() < kinds.len() {
        let from = made.len();
        let to = kinds.len() - (kinds.len() - from) / 2;
        let mut next = make_at_once(rt, alloc, &kinds[from..to], rows, passes, &zeros)?;
        made.append(&mut next)?;
    }
    Ok(made)
}

/// The empty trees that these lines declare, in their order.
///
/// # Errors
///
/// `NoMemory` where memory ran out for the list or for what trees are made over.
pub(crate) fn make_declared<R: Threads + Sync, P: Passage + Drop + Send, T: Plays<P> + Send>(
    rt: &R,
    alloc: Global,
    lines: &[Line],
    rows: u64,
    passes: u32,
) -> Result<Vec<Made<P, T>>, NoMemory>
    requires few_rows { fewest_rows ≤ rows }
    requires rows { rows ≤ most_rows }
    requires some_pass { 1 ≤ passes }
    requires passes { passes ≤ player_passes }
    ensures { IfOk result (λ made. AreMade T.tree P.knows T.serves T.many rows passes (kinds_in lines.now) made.items) }
{
    let kinds = kinds_of(alloc, lines)?;
    make_all(rt, alloc, kinds.as_slice(), rows, passes)
}
