//! The image of a tree that is built of its ranges.

ghost use Rattle.std.specs.Prelude.{◌≡◌, ◌≢◌, ◌≤◌, Some, None, IfOk, IfErr, length};
ghost use Rattle.mt_bulk.specs.Builds.{TookTurns, refusal};
ghost use Rattle.mt_commands.specs.Texts.{IsBulkImage};

use mt_base::{Kind, Range};
use mt_bulk::{BulkError, build};
use mt_image::write_image;
use mt_io::Gate;
use std::alloc::Global;
use std::thread::Threads;

/// The image of the tree of this kind with exactly these ranges, built by 1 to 16 workers (threads) at once.
///
/// # Errors
///
/// `Order` and `TooMany` just where there is no such tree, and `NoMemory` where memory ran out.
#[tactic(auto, using(crate::proofs::Building::bulk_image))]
pub fn built_image<R: Threads + Sync, G: Gate + Sync>(
    rt: &R,
    alloc: Global,
    kind: Kind,
    ranges: &[Range],
    workers: u32,
    gate: &G,
) -> Result<Vec<u8>, BulkError>
    requires some { 1 ≤ workers }
    requires few { workers ≤ 16 }
    ensures taken { IfOk result (λ _. refusal kind ranges.now ≡ None) }
    ensures image { IfOk result (λ image. IsBulkImage kind ranges.now image.items) }
    ensures err { IfErr result (λ e. e ≢ BulkError.NoMemory → refusal kind ranges.now ≡ Some e) }
    ensures turns { IfOk result (λ _. 1 ≤ length ranges.now → TookTurns (G.passed gate.now) workers) }
{
    let mut rows = build(rt, alloc, kind, ranges, workers, gate)?;
    Ok(write_image(alloc, &mut rows, kind)?)
}
