ghost use Rattle.std.specs.Prelude.{◌≡◌, slice_get};
ghost use Rattle.mt_base.specs.Map.{IsMapFrom};
ghost use Rattle.mt_list.specs.Places.{place_below, place_above, last_of, up_to, down_to};

use mt_base::Range;

/// How many ranges end below `first`.
pub fn place_below(ranges: &[Range], first: u64) -> usize
    requires { IsMapFrom 0 ranges.now }
    ensures { result ≡ place_below ranges.now first }
{
    ranges.partition_point(|r| r.last < first)
}

/// How many ranges begin at `last` or below.
pub fn place_above(ranges: &[Range], last: u64) -> usize
    requires { IsMapFrom 0 ranges.now }
    ensures { result ≡ place_above ranges.now last }
{
    ranges.partition_point(|r| r.first <= last)
}

pub fn range_at(ranges: &[Range], place: usize) -> Option<Range>
    ensures { result ≡ slice_get ranges.now place }
{
    ranges.get(place).copied()
}

#[tactic(auto, using(crate::proofs::StoreAtPlaces::last_of_is_at_end))]
pub fn last_of(ranges: &[Range]) -> Option<Range>
    ensures { result ≡ last_of ranges.now }
{
    ranges.last().copied()
}

/// The range, where it begins at `max` or below.
pub fn up_to(range: Option<Range>, max: u64) -> Option<Range>
    ensures { result ≡ up_to max range }
{
    range.filter(|r| r.first <= max)
}

/// The range, where it ends at `min` or above.
pub fn down_to(range: Option<Range>, min: u64) -> Option<Range>
    ensures { result ≡ down_to min range }
{
    range.filter(|r| r.last >= min)
}
