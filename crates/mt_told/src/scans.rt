//! The lines of a scan, whose number depends on the text.

ghost use Rattle.std.specs.Prelude.{◌≡◌, IfNone, IfOk, IfSome};
ghost use Rattle.mt_told.specs.Scans.{IsScanAt, range_told};
ghost use Rattle.mt_told.specs.Steps.{AddsTold, IsToldAt, TellsNotDone};

use crate::steps::{Deed, LinePlace, step_in_front};
use crate::told::{ToldLine, What};
use mt_base::{Range, find_at, place_after, place_within};
use mt_log::Answer;
use std::alloc::AllocError;

/// What a scan goes through: the indexes from `index` to `max`, in at most `count` steps.
#[derive(Clone, Copy)]
pub struct Stretch {
    pub index: u64,
    pub max: u64,
    pub count: u32,
}

/// The range that the line reports, if it reports one.
fn range_told(what: &What<'_>) -> Option<Range>
    ensures { result ≡ range_told what.now }
{
    match what {
        What::Got {
            answer: Answer::Range(range),
            ..
        } => Some(*range),
        _ => None,
    }
}

/// Reads the lines of a scan: at most `count`, and none after the first that reports no range. Returns the text after them, if
/// it reports a scan.
pub fn read_scan<'t>(
    told: &mut Vec<ToldLine<'t>>,
    text: &'t [u8],
    place: &LinePlace,
    scan: &Stretch,
) -> Result<Option<&'t [u8]>, AllocError>
    ensures some { IfOk result (λ found. IfSome found (λ rest. AddsTold (IsScanAt place.now scan.now)
        (IsToldAt place.now) text.now told.old.items told.new.items rest.now)) }
    ensures none { IfOk result (λ found. IfNone found (TellsNotDone (IsScanAt place.now scan.now) text.now)) }
{
    let mut at = place_within(scan.index, scan.max);
    let mut rest = text;
    for _step in 0..scan.count {
        let look = Deed::Look(find_at(at, scan.max));
        let Some((step, behind)) = step_in_front(rest, place, &look) else {
            return Ok(None);
        };
        told.push(step)?;
        rest = behind;
        let Some(range) = range_told(&step.what) else {
            return Ok(Some(rest));
        };
        at = place_after(scan.max, &range);
    }
    Ok(Some(rest))
}
