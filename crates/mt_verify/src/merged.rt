//! The numbers of all reads of a text, put together in its order.

ghost use Rattle.std.specs.Prelude.{◌≡◌, ◌+◌, ◌*◌, ◌<◌, ℕ, true, All, IfOk, IsTrue, Some, length, slice_get, slice_index, slice_set};
ghost use Rattle.mt_base.specs.Limits.{most_lanes};
ghost use Rattle.mt_verify.specs.ToldReads.{is_got, own_points, reads_count};
ghost use Rattle.mt_verify.specs.Going.{AreLanesDone, Lane, looks_of};
ghost use Rattle.mt_verify.specs.GoneTrees.{GoneTree, lane_looks};
ghost use Rattle.mt_verify.specs.Merging.{cell_of, points_at};

use crate::gone::Gone;
use mt_base::{MOST_LANES, NoMemory};
use mt_told::{ToldLine, What};
use std::alloc::Global;

/// Whether a line reports a read.
fn is_read(what: &What) -> bool
    ensures { result ≡ is_got what.now }
{
    match what {
        What::Got { .. } => true,
        What::Wrote { .. } | What::Copied { .. } | What::Lawful { .. } => false,
    }
}

/// The numbers of a lane's reads on a tree.
fn points_at<'a>(gone: &'a [Gone], tree: u32, lane: u32) -> &'a [u64]
    ensures { result.now ≡ points_at gone.now tree lane }
{
    let Some(one) = gone.get(tree as usize) else {
        return &[];
    };
    match one.tracks.get(lane as usize) {
        Some(track) => track.points(),
        None => &[],
    }
}

/// The number of the read that a line reports, which is the next one of its lane on its tree.
fn next_point(used: &mut [usize], gone: &[Gone], told: &ToldLine) -> u64
    requires lane { told.now.lane < most_lanes }
    requires cell { cell_of told.now.tree told.now.lane < length used.old }
    requires room { slice_index used.old (cell_of told.now.tree told.now.lane)
        < length (points_at gone.now told.now.tree told.now.lane) }
    ensures used { used.new ≡ slice_set used.old (cell_of told.now.tree told.now.lane)
        (slice_index used.old (cell_of told.now.tree told.now.lane) + 1) }
    ensures point { result ≡ slice_index (points_at gone.now told.now.tree told.now.lane)
        (slice_index used.old (cell_of told.now.tree told.now.lane)) }
{
    let cell = told.tree as usize * MOST_LANES as usize + told.lane as usize;
    let points = points_at(gone, told.tree, told.lane);
    let place = used[cell];
    used[cell] = place + 1;
    points[place]
}

/// The numbers of all reads of a text, in its order: of each lane on each tree those that its reads have.
///
/// # Errors
///
/// `NoMemory` where memory ran out.
pub fn points_of(alloc: Global, told: &[ToldLine], gone: &[Gone]) -> Result<Vec<u64>, NoMemory>
    requires trees { All (λ t. t.tree < length gone.now) told.now }
    requires lanes { All (λ t. t.lane < most_lanes) told.now }
    requires looks { (tree : ℕ) (g : GoneTree) → slice_get gone.now tree ≡ Some g
        → looks_of g.lanes ≡ lane_looks tree told.now }
    requires done { (tree : ℕ) (g : GoneTree) → slice_get gone.now tree ≡ Some g → AreLanesDone g.lanes true }
    ensures count { IfOk result (λ points. length points.items ≡ reads_count told.now) }
    ensures lanes { IfOk result (λ points. (tree lane : ℕ) (g : GoneTree) (l : Lane) → slice_get gone.now tree ≡ Some g
        → slice_get g.lanes lane ≡ Some l → own_points tree lane told.now points.items ≡ l.points) }
{
    let mut used = vec![in alloc; 0; gone.len() * MOST_LANES as usize]?;
    let mut points = Vec::new(alloc);
    for one in told {
        if is_read(&one.what) {
            points.push(next_point(&mut used, gone, one))?;
        }
    }
    Ok(points)
}
