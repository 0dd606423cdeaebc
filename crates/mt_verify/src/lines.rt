//! What a text says of one tree: its lines, and the reads of each lane.

ghost use Rattle.std.specs.Prelude.{◌≡◌, IfOk, map};
ghost use Rattle.std.specs.List.{range_with_len};
ghost use Rattle.mt_base.specs.Limits.{most_lanes};
ghost use Rattle.mt_verify.specs.Going.{AreFresh, looks_of};
ghost use Rattle.mt_verify.specs.LaneReads.{look_told};
ghost use Rattle.mt_verify.specs.OwnLines.{line_on, lines_on, look_by_lane, looks_by_lane};

use crate::lanes::Track;
use crate::looks::ToldRead;
use mt_base::{MOST_LANES, NoMemory};
use mt_told::{ToldLine, What};
use std::alloc::Global;

/// The line, if it is of this tree.
fn line_on<'t>(told: &ToldLine<'t>, tree: u32) -> Option<ToldLine<'t>>
    ensures { result ≡ line_on tree told.now }
{
    if told.tree != tree {
        return None;
    }
    Some(*told)
}

/// The lines of a tree.
pub fn lines_on<'t>(
    alloc: Global,
    told: &[ToldLine<'t>],
    tree: u32,
) -> Result<Vec<ToldLine<'t>>, NoMemory>
    ensures { IfOk result (λ own. own.items ≡ lines_on tree told.now) }
{
    Ok(
        told.iter()
            .filter_map(|one| line_on(one, tree))
            .collect(alloc)?,
    )
}

/// The read that a line reports, if it is one.
pub fn look_told(told: &ToldLine) -> Option<ToldRead>
    ensures { result ≡ look_told told.now.what }
{
    match told.what {
        What::Got {
            lo,
            hi,
            query,
            answer,
        } => Some(ToldRead {
            lo,
            hi,
            query,
            told: answer,
        }),
        What::Wrote { .. } | What::Copied { .. } | What::Lawful { .. } => None,
    }
}

/// The read that a line reports, if it is of this lane.
fn look_of(told: &ToldLine, lane: u32) -> Option<ToldRead>
    ensures { result ≡ look_by_lane lane told.now }
{
    if told.lane != lane {
        return None;
    }
    look_told(told)
}

/// The reads of a lane among these lines.
fn looks_of_lane(alloc: Global, own: &[ToldLine], lane: u32) -> Result<Vec<ToldRead>, NoMemory>
    ensures { IfOk result (λ looks. looks.items ≡ looks_by_lane own.now lane) }
{
    Ok(
        own.iter()
            .filter_map(|one| look_of(one, lane))
            .collect(alloc)?,
    )
}

/// The reads of each lane among these lines, none of which has a number.
#[tactic(auto, using(crate::proofs::NewTracks::looks_more, crate::proofs::NewTracks::fresh_more))]
pub fn tracks_of(alloc: Global, own: &[ToldLine]) -> Result<Vec<Track>, NoMemory>
    ensures looks { IfOk result
        (λ tracks. looks_of tracks.items ≡ map (looks_by_lane own.now) (range_with_len 0 most_lanes)) }
    ensures fresh { IfOk result (λ tracks. AreFresh tracks.items) }
{
    let mut tracks = Vec::with_capacity(alloc, MOST_LANES as usize)?;
    for lane in 0..MOST_LANES {
        tracks.push(Track::new(alloc, looks_of_lane(alloc, own, lane)?))?;
    }
    Ok(tracks)
}
