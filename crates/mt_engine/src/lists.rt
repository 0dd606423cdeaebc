//! All ranges of a tree.

ghost use Rattle.std.specs.Prelude.{◌≡◌, IfOk};
ghost use Rattle.mt_base.specs.declared.kinds.Kind.{Kind};
ghost use Rattle.mt_rows.specs.Publish.{IsTreeOf, map_by};
ghost use Rattle.mt_rows.specs.Sheet.{OnlyReads};

use crate::range_walk::{RangeWalk, next_range};
use mt_base::{NoMemory, Range};
use mt_rows::Rows;
use std::alloc::Global;

/// All ranges of the map that the words represent, in rising order.
pub fn list<R: Rows>(rows: &mut R, alloc: Global) -> Result<Vec<Range>, NoMemory>
    requires tree { (kind : Kind) × IsTreeOf (R.sheet rows.old).tree kind }
    ensures items { IfOk result (λ ranges. ranges.items ≡ map_by (R.sheet rows.old).tree) }
    ensures rest { OnlyReads (R.sheet rows.old) (R.sheet rows.new) }
{
    let mut ranges = Vec::new(alloc);
    let mut walk = RangeWalk::from_index(0);
    while let Some(range) = next_range(rows, &mut walk) {
        ranges.push(range)?;
    }
    Ok(ranges)
}
