//! The result of a search for room, and of a call that stores where it finds some.

ghost use Rattle.std.specs.Prelude.{◌≡◌, ◌+◌, ◌*◌, ◌≤◌, List, []};
ghost use Rattle.mt_base.specs.Blanks.{IsBlankOf};
ghost use Rattle.mt_base.specs.Width.{columns, greatest};
ghost use Rattle.mt_rows.specs.Publish.{IsLawfulOf, map_by};
ghost use Rattle.mt_rows.specs.Sheet.{OnlyReads, ReadsUpTo};
ghost use Rattle.mt_rows.specs.Trees.{height_in};
ghost use Rattle.mt_path.specs.declared.paths.PathStep.{PathStep};
ghost use Rattle.mt_gap.specs.Descents.{IsGapped};
ghost use Rattle.mt_engine.specs.Areas.{FindsArea, start_to, allocation, search};
ghost use Rattle.mt_engine.specs.Plans.{IsPlan, IsSearched};

use crate::plans::Plan;
use crate::store_by::{Write, store_by};
use mt_base::{Kind, Reply, Steps, is_bad_area, is_no_area};
use mt_gap::{SoughtArea, highest, highest_way, lowest, lowest_way};
use mt_path::Path;
use mt_rows::Rows;
use mt_splice::Edit;
use std::marker::Brand;
use std::sync::ledger::{Blank, Ledger};

/// Which place is sought of those that have room.
#[derive(Clone, Copy, Debug, PartialEq, Eq)]
pub enum Sought {
    Lowest,
    Highest,
}

/// What place is wanted: `size` indexes in one hole and in the window from `min` to `max`.
#[derive(Clone, Copy, Debug, PartialEq, Eq)]
pub struct Wanted {
    pub size: u64,
    pub min: u64,
    pub max: u64,
}

/// The start of the place that is sought, with a blank for a count of the steps, which is not used.
#[tactic(auto, using(mt_gap::proofs::Readings::within_steps))]
fn start_by<R: Rows, L: Ledger>(
    rows: &mut R,
    sought: Sought,
    wanted: Wanted,
    blank: Blank,
) -> Option<u64>
    requires blank { IsBlankOf L.name L.parts blank.name blank.parts }
    requires tree { IsGapped (R.sheet rows.old).tree }
    requires size { 1 ≤ wanted.size }
    ensures start { result ≡ start_to sought (greatest (R.sheet rows.old).tree.table.width) (map_by (R.sheet rows.old).tree) wanted.size wanted.min wanted.max }
    ensures reads { ReadsUpTo (3 * height_in (R.sheet rows.old).tree.table (R.sheet rows.old).tree.root * columns (R.sheet rows.old).tree.table.width + 1)
        (R.sheet rows.old) (R.sheet rows.new) }
{
    let mut steps = Steps::<L>::new(blank);
    match sought {
        Sought::Lowest => lowest(rows, wanted.size, wanted.min, wanted.max, &mut steps),
        Sought::Highest => highest(rows, wanted.size, wanted.min, wanted.max, &mut steps),
    }
}

/// The start of the place that is sought: the indexes from there are as wanted.
fn start_of<R: Rows>(rows: &mut R, sought: Sought, wanted: Wanted) -> Option<u64>
    requires tree { IsGapped (R.sheet rows.old).tree }
    requires size { 1 ≤ wanted.size }
    ensures start { result ≡ start_to sought (greatest (R.sheet rows.old).tree.table.width) (map_by (R.sheet rows.old).tree) wanted.size wanted.min wanted.max }
    ensures reads { ReadsUpTo (3 * height_in (R.sheet rows.old).tree.table (R.sheet rows.old).tree.root * columns (R.sheet rows.old).tree.table.width + 1)
        (R.sheet rows.old) (R.sheet rows.new) }
{
    start_by::<R, Brand>(rows, sought, wanted, Blank::new(1))
}

/// The place that is sought, with the path to it, by a blank for a count of the steps, which is not used.
fn area_by<R: Rows, L: Ledger>(
    rows: &mut R,
    sought: Sought,
    wanted: Wanted,
    path: &mut Path,
    blank: Blank,
) -> Option<SoughtArea>
    requires blank { IsBlankOf L.name L.parts blank.name blank.parts }
    requires tree { IsGapped (R.sheet rows.old).tree }
    requires size { 1 ≤ wanted.size }
    requires empty { path.old.items ≡ [] }
    ensures { FindsArea (R.sheet rows.old) (R.sheet rows.new) sought wanted path.new.items result }
{
    let mut steps = Steps::<L>::new(blank);
    let Wanted { size, min, max } = wanted;
    match sought {
        Sought::Lowest => lowest_way(rows, size, min, max, &mut steps, path),
        Sought::Highest => highest_way(rows, size, min, max, &mut steps, path),
    }
}

/// The place that is sought, with the way to it.
fn area_of<R: Rows>(
    rows: &mut R,
    sought: Sought,
    wanted: Wanted,
    path: &mut Path,
) -> Option<SoughtArea>
    requires tree { IsGapped (R.sheet rows.old).tree }
    requires size { 1 ≤ wanted.size }
    requires empty { path.old.items ≡ [] }
    ensures { FindsArea (R.sheet rows.old) (R.sheet rows.new) sought wanted path.new.items result }
{
    area_by::<R, Brand>(rows, sought, wanted, path, Blank::new(1))
}

/// The plan of an allocation, with the path to the place that was found.
#[inline(always)]
pub fn plan_allocation<R: Rows>(
    rows: &mut R,
    kind: Kind,
    sought: Sought,
    wanted: Wanted,
    entry: u64,
    path: &mut Path,
) -> Plan
    requires tree { IsLawfulOf (R.sheet rows.old).tree kind }
    requires empty { path.old.items ≡ [] }
    ensures plan { IsPlan kind (R.sheet rows.old).tree (allocation sought wanted.size wanted.min wanted.max entry) path.new.items result }
    ensures search { IsSearched (R.sheet rows.old) (R.sheet rows.new) (allocation sought wanted.size wanted.min wanted.max entry) result }
    ensures rest { OnlyReads (R.sheet rows.old) (R.sheet rows.new) }
{
    if is_bad_area(kind, wanted.size, wanted.min, wanted.max, entry) {
        return Plan::Nothing {
            reply: Reply::Invalid,
        };
    }
    let Some(area) = area_of(rows, sought, wanted, path) else {
        return Plan::Nothing { reply: Reply::Busy };
    };
    let edit = Edit {
        first: area.start,
        last: area.start + (wanted.size - 1),
        entry,
    };
    let by = store_by(area.here, &edit);
    Plan::Store {
        write: Write { edit, by },
        reply: Reply::Start(area.start),
    }
}

/// The plan of a search alone.
pub fn plan_search<R: Rows>(rows: &mut R, kind: Kind, sought: Sought, wanted: Wanted) -> Plan
    requires tree { IsLawfulOf (R.sheet rows.old).tree kind }
    ensures plan { (path : List PathStep) → IsPlan kind (R.sheet rows.old).tree (search sought wanted.size wanted.min wanted.max) path result }
    ensures search { IsSearched (R.sheet rows.old) (R.sheet rows.new) (search sought wanted.size wanted.min wanted.max) result }
    ensures rest { OnlyReads (R.sheet rows.old) (R.sheet rows.new) }
{
    if is_no_area(kind, wanted.size, wanted.min, wanted.max) {
        return Plan::Nothing {
            reply: Reply::Invalid,
        };
    }
    match start_of(rows, sought, wanted) {
        Some(start) => Plan::Nothing {
            reply: Reply::Start(start),
        },
        None => Plan::Nothing { reply: Reply::Busy },
    }
}
