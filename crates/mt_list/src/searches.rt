//! The queries: each is one binary search and a look at the range beside the place that it finds.

ghost use Rattle.std.specs.Prelude.{◌≡◌, ◌≤◌};
ghost use Rattle.mt_base.specs.declared.calls.Query.{Query};
ghost use Rattle.mt_base.specs.Call.{answer};
ghost use Rattle.mt_base.specs.Map.{IsMapFrom, holding};

use crate::places::{down_to, last_of, place_above, place_below, range_at, up_to};
use mt_base::{Query, Range};

/// The range that holds `index`.
#[tactic(auto, using(crate::proofs::HoldingAtPlace::holding_at_place))]
pub fn range_holding(ranges: &[Range], index: u64) -> Option<Range>
    requires { IsMapFrom 0 ranges.now }
    ensures { result ≡ holding ranges.now index }
{
    up_to(range_at(ranges, place_below(ranges, index)), index)
}

/// The first range that ends at `index` or above and begins at `max` or below, where `index` is at most `max`.
#[tactic(auto, using(crate::proofs::QueriesAtPlaces::first_from_place))]
pub fn first_from(ranges: &[Range], index: u64, max: u64) -> Option<Range>
    requires { IsMapFrom 0 ranges.now }
    ensures { result ≡ answer ranges.now (Query.Find index max) }
{
    if index > max {
        return None;
    }
    up_to(range_at(ranges, place_below(ranges, index)), max)
}

/// The first range that begins above `index`, and at `max` or below.
#[tactic(auto, using(crate::proofs::QueriesAtPlaces::first_above_place))]
pub fn first_above(ranges: &[Range], index: u64, max: u64) -> Option<Range>
    requires { IsMapFrom 0 ranges.now }
    ensures { result ≡ answer ranges.now (Query.Next index max) }
{
    up_to(range_at(ranges, place_above(ranges, index)), max)
}

/// The last range that ends below `index`, and at `min` or above.
#[tactic(auto, using(crate::proofs::QueriesAtPlaces::last_below_place))]
pub fn last_below(ranges: &[Range], index: u64, min: u64) -> Option<Range>
    requires { IsMapFrom 0 ranges.now }
    ensures { result ≡ answer ranges.now (Query.Prev index min) }
{
    down_to(last_of(&ranges[..place_below(ranges, index)]), min)
}

/// The last range that begins at `index` or below and ends at `min` or above, where `index` is at least `min`.
#[tactic(auto, using(crate::proofs::QueriesAtPlaces::last_up_to_place))]
pub fn last_up_to(ranges: &[Range], index: u64, min: u64) -> Option<Range>
    requires { IsMapFrom 0 ranges.now }
    ensures { result ≡ answer ranges.now (Query.Rfind index min) }
{
    if index < min {
        return None;
    }
    down_to(last_of(&ranges[..place_above(ranges, index)]), min)
}

/// The range that answers a query.
pub fn answered(ranges: &[Range], query: &Query) -> Option<Range>
    requires { IsMapFrom 0 ranges.now }
    ensures { result ≡ answer ranges.now query.now }
{
    match *query {
        Query::Load { index } => range_holding(ranges, index),
        Query::Find { index, max } => first_from(ranges, index, max),
        Query::Next { index, max } => first_above(ranges, index, max),
        Query::Prev { index, min } => last_below(ranges, index, min),
        Query::Rfind { index, min } => last_up_to(ranges, index, min),
    }
}
