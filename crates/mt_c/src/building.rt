//! Trees that are built of ranges.

ghost use Rattle.std.specs.Prelude.{◌≡◌, None, IfOk, IfErr, map};
ghost use Rattle.mt_bulk.specs.Builds.{IsBuilt};
ghost use Rattle.mt_bulk.specs.Items.{misplaced};
ghost use Rattle.mt_rows.specs.Memory.{sheet_in};
ghost use Rattle.mt_c.specs.Building as defined;
ghost use Rattle.mt_c.specs.Building.{Builds, IsOfRanges, LacksAnyhow, LacksRanges};

use crate::copies::{fitted, used_in};
use crate::handle::TreeHandle;
use crate::opens::kind_of;
use crate::own_tree::OwnTree;
use crate::told::{EALREADY, EDOM, EINVAL, ENOMEM, OutRange};
use mt_base::{Kind, NoMemory, Range};
use mt_bulk::{BulkError, build_alone};
use mt_rows::PlainRows;
use std::alloc::Global;

/// Why no tree is built: the number that C gets, and the place of a range.
#[derive(Clone, Copy)]
pub struct BuildWhy {
    pub status: u32,
    pub at: u64,
}

impl BuildWhy {
    /// A number alone.
    pub fn alone(status: u32) -> BuildWhy
        ensures { result ≡ record { status = status; at = 0 } }
    {
        BuildWhy { status, at: 0 }
    }

    /// Why a bulk build is refused.
    fn of(why: BulkError) -> BuildWhy
        ensures { result ≡ defined.why_of why }
    {
        match why {
            BulkError::Order { at } => BuildWhy { status: EINVAL, at },
            BulkError::TooMany { .. } => BuildWhy::alone(EDOM),
            BulkError::NoMemory => BuildWhy::alone(ENOMEM),
        }
    }
}

/// A range that C has.
fn range_of(range: &OutRange) -> Range
    ensures { result ≡ defined.range_from_c range.now }
{
    let OutRange { first, last, entry } = *range;
    Range { first, last, entry }
}

/// The ranges that C has.
#[tactic(auto, using(std::proofs::lemmas::List::map_more))]
fn taken(alloc: Global, ranges: &[OutRange]) -> Result<Vec<Range>, NoMemory>
    ensures { IfOk result (λ taken. taken.items ≡ map defined.range_from_c ranges.now) }
{
    let mut taken = Vec::with_capacity(alloc, ranges.len())?;
    for range in ranges {
        taken.push(range_of(range))?;
    }
    Ok(taken)
}

/// The nodes of a tree that has just these ranges, as few as hold it.
#[tactic(auto, using(crate::proofs::RangesBuilt::order_kept, crate::proofs::RangesBuilt::why_refused))]
pub fn built(alloc: Global, kind: Kind, ranges: &[OutRange]) -> Result<PlainRows, BuildWhy>
    ensures order { IfOk result
        (λ rows. misplaced kind (map defined.range_from_c ranges.now) ≡ None) }
    ensures rows { IfOk result
        (λ rows. IsBuilt kind (map defined.range_from_c ranges.now) (sheet_in rows)) }
    ensures lacks { IfErr result (LacksAnyhow kind (map defined.range_from_c ranges.now)) }
{
    let Ok(ranges) = taken(alloc, ranges) else {
        return Err(BuildWhy::alone(ENOMEM));
    };
    match build_alone(alloc, kind, &ranges) {
        Ok(rows) => Ok(rows),
        Err(why) => Err(BuildWhy::of(why)),
    }
}

/// A tree of the kind with this code that has exactly these ranges, with `rows` nodes; or why there is none.
#[tactic(auto, using(crate::proofs::RangesBuilt::lacks_anyhow, crate::proofs::RangesBuilt::of_ranges_in, crate::proofs::RangesBuilt::ranges_lack))]
fn of_ranges(
    alloc: Global,
    code: u32,
    rows: u64,
    ranges: &[OutRange],
) -> Result<Box<OwnTree>, BuildWhy>
    ensures tree { IfOk result
        (λ whole. IsOfRanges code rows (map defined.range_from_c ranges.now) whole.value.engine) }
    ensures lacks { IfErr result
        (λ why. LacksRanges code rows (map defined.range_from_c ranges.now) why.status why.at) }
{
    let Some(kind) = kind_of(code) else {
        return Err(BuildWhy::alone(EINVAL));
    };
    let mut src = match built(alloc, kind, ranges) {
        Ok(rows) => rows,
        Err(why) => return Err(why),
    };
    let used = used_in(kind, &src);
    match fitted(alloc, kind, &mut src, used, rows) {
        Ok(whole) => Ok(whole),
        Err(status) => Err(BuildWhy::alone(status)),
    }
}

/// Opens a tree of the kind with this code that has exactly these ranges, with `rows` nodes: at least as many as it needs, and
/// at most 65,504. `at` is the place of the first range that is no range of the kind or does not begin above the end of the one
/// before, if there is one.
#[tactic(auto, using(crate::proofs::RangesBuilt::builds_busy, crate::proofs::RangesBuilt::builds_made, crate::proofs::RangesBuilt::builds_none))]
#[unsafe(no_mangle)]
pub extern "C" fn maple_build(
    alloc: Global,
    tree: &mut TreeHandle,
    kind: u32,
    rows: u64,
    ranges: &[OutRange],
    at: &mut u64,
) -> u32
    ensures { Builds kind rows (map defined.range_from_c ranges.now)
        tree.old.kept.value tree.new.kept.value result at.new }
{
    *at = 0;
    if let Some(whole) = tree.take(alloc) {
        tree.put(whole);
        return EALREADY;
    }
    match of_ranges(alloc, kind, rows, ranges) {
        Ok(whole) => {
            tree.put(whole);
            0
        }
        Err(why) => {
            *at = why.at;
            why.status
        }
    }
}
