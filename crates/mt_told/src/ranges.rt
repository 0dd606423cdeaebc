//! The lines of ranges, at the front of a text.

ghost use Rattle.std.specs.Prelude.{◌≡◌, ◌++◌, ◌≤◌, ◌<◌, IfNone, IfOk, IfSome, length};
ghost use Rattle.mt_told.specs.ListingFronts.{AreRangesBefore, BeginsWithNoRange, IsRangeLineBefore};

use crate::number_before;
use mt_base::Range;
use std::alloc::{AllocError, Global};

/// The range whose line the text begins with, and the text after it.
#[tactic(auto, using(crate::proofs::RangeLines::range_or_none))]
fn range_in_front(text: &[u8]) -> Option<(Range, &[u8])>
    ensures some { IfSome result (λ found. IsRangeLineBefore text.now found.0 found.1.now) }
    ensures none { IfNone result (BeginsWithNoRange text.now) }
{
    let (first, behind) = number_before(text, b' ')?;
    let (last, behind_both) = number_before(behind, b' ')?;
    let (entry, rest) = number_before(behind_both, b'\n')?;
    Some((Range { first, last, entry }, rest))
}

/// The ranges whose lines the text begins with, at most this many, and the text after them.
#[tactic(auto, using(crate::proofs::RangeLines::one_more))]
pub fn ranges_in_front(
    alloc: Global,
    text: &[u8],
    count: u64,
) -> Result<(Vec<Range>, &[u8]), AllocError>
    ensures lines { IfOk result (λ found. AreRangesBefore text.now found.0.items found.1.now) }
    ensures few { IfOk result (λ found. length found.0.items ≤ count) }
    ensures stop { IfOk result (λ found. length found.0.items < count → BeginsWithNoRange found.1.now) }
{
    let mut ranges = Vec::new(alloc);
    let mut rest = text;
    for _line in 0..count {
        let Some((range, behind)) = range_in_front(rest) else {
            return Ok((ranges, rest));
        };
        ranges.push(range)?;
        rest = behind;
    }
    Ok((ranges, rest))
}
