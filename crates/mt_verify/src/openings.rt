//! The map with which a tree of a log opens.

ghost use Rattle.std.specs.Prelude.{◌≡◌, ◌<◌, ℕ, IfOk, length};
ghost use Rattle.mt_log.specs.Trees.{CopyOf, Empty};
ghost use Rattle.mt_verify.specs.Openings.{OpensAsMap, is_call_before};
ghost use Rattle.mt_verify.specs.ToldReads.{calls_of_phases_before};
ghost use Rattle.mt_verify.specs.GoneTrees.{gone_map};

use crate::declared::Declared;
use crate::gone::Gone;
use crate::replays::make_all_again;
use mt_base::NoMemory;
use mt_shelves::ShelfMap;
use mt_told::{ToldLine, What};
use std::alloc::Global;

/// Whether a line reports a call on a tree in a phase before this one.
fn is_call_before(told: &ToldLine, tree: u32, phase: u64) -> bool
    ensures { result ≡ is_call_before tree phase told.now }
{
    if told.tree != tree || told.phase >= phase {
        return false;
    }
    match told.what {
        What::Wrote { .. } => true,
        What::Got { .. } | What::Copied { .. } | What::Lawful { .. } => false,
    }
}

/// How many calls on a tree the text reports in phases before this one.
fn calls_before(told: &[ToldLine], tree: u32, phase: u64) -> usize
    ensures { result ≡ calls_of_phases_before told.now tree phase }
{
    told.iter()
        .filter(|one| is_call_before(one, tree, phase))
        .count()
}

/// The map of a tree that was gone through, after `calls` of its calls.
#[tactic(auto, using(crate::proofs::OpenedMaps::first_calls))]
fn map_after(alloc: Global, gone: &Gone, calls: usize) -> Result<ShelfMap, NoMemory>
    ensures kind { IfOk result (λ map. map.kind ≡ gone.now.kind) }
    ensures map { IfOk result (λ map. map.ranges ≡ gone_map gone.now calls) }
{
    let mut map = gone.opening.copied(alloc)?;
    make_all_again(&mut map, &gone.noted[..calls.min(gone.noted.len())])?;
    Ok(map)
}

/// The map with which a declared tree opens: empty, or that of the tree that it is a copy of, when its phase begins.
///
/// # Errors
///
/// `NoMemory` where memory ran out.
pub fn opening_of(
    alloc: Global,
    declared: &Declared,
    told: &[ToldLine],
    gone: &[Gone],
) -> Result<ShelfMap, NoMemory>
    requires { (tree phase : ℕ) → declared.now.opening ≡ CopyOf tree phase → tree < length gone.now }
    ensures map { IfOk result (λ map. OpensAsMap told.now gone.now declared.now map) }
    ensures empty { IfOk result (λ map. declared.now.opening ≡ Empty → map.kind ≡ declared.now.tree.kind) }
{
    let Some(source) = declared.source else {
        return Ok(ShelfMap::new(alloc, declared.kind));
    };
    let Some(tree) = gone.get(source.tree as usize) else {
        unreachable!()
    };
    map_after(alloc, tree, calls_before(told, source.tree, source.phase))
}
