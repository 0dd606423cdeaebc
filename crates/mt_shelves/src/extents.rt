//! What is kept of a shelf, so that a search can pass over it: where it begins and ends, and the length of its longest hole.

ghost use Rattle.std.specs.Prelude.{◌≡◌, ◌+◌, ◌-◌, ◌≤◌, ◌<◌};
ghost use Rattle.mt_base.specs.Map.{IsMapFrom};
ghost use Rattle.mt_shelves.specs.Shelves.{AreHolesUpTo, holes_after, holes_in};

use mt_base::Range;

/// The length of the longest hole between ranges above an index.
#[tactic(auto, using(crate::proofs::LongestHole::longest_more))]
fn longest_above(ranges: &[Range], index: u64) -> u64
    requires { IsMapFrom (index + 1) ranges.now }
    ensures { AreHolesUpTo result (holes_after (index + 1) ranges.now) }
{
    let mut longest = 0;
    let mut last = index;
    for range in ranges {
        longest = longest.max(range.first - last - 1);
        last = range.last;
    }
    longest
}

/// The length of the longest hole between these ranges.
fn longest_hole(ranges: &[Range]) -> u64
    requires { IsMapFrom 0 ranges.now }
    ensures { AreHolesUpTo result (holes_in ranges.now) }
{
    match ranges.split_first() {
        Some((range, rest)) => longest_above(rest, range.last),
        None => 0,
    }
}

/// Where ranges begin and end, both 0 if there are none, and a length that no hole between them exceeds.
#[derive(Clone, Copy, Debug)]
pub struct ShelfExtent {
    pub start: u64,
    pub end: u64,
    pub room: u64,
}

impl ShelfExtent {
    ghost use Rattle.mt_base.specs.Map.{IsMapFrom};
    ghost use Rattle.mt_shelves.specs.Shelves.{IsExtent};

    /// That of these ranges.
    #[tactic(auto, using(mt_list::proofs::StoreAtPlaces::last_of_is_at_end))]
    pub fn of(ranges: &[Range]) -> Self
        requires { IsMapFrom 0 ranges.now }
        ensures { IsExtent result ranges.now }
    {
        ShelfExtent {
            start: ranges.first().map_or(0, |range| range.first),
            end: ranges.last().map_or(0, |range| range.last),
            room: longest_hole(ranges),
        }
    }
}
