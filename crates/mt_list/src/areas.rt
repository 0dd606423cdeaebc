//! Searches for room: over the holes between the ranges, from below or from above, up to the first that has room.

ghost use Rattle.std.specs.Prelude.{◌≡◌, ◌≤◌};
ghost use Rattle.mt_base.specs.Call.{found};
ghost use Rattle.mt_base.specs.Holes.{low, high};
ghost use Rattle.mt_base.specs.Map.{IsMap};

use mt_base::{Kind, Range, Reply, top, width_of};

/// Room for `size` indexes is sought from `min` to `max`.
#[derive(Clone, Copy, Debug)]
pub struct Window {
    pub size: u64,
    pub min: u64,
    pub max: u64,
}

impl Window {
    ghost use Rattle.std.specs.Prelude.{◌≡◌, ◌+◌, ◌≤◌, option_to_list};
    ghost use Rattle.std.specs.Option.{option_map};
    ghost use Rattle.mt_base.specs.Holes.{hole_between, kept, lowest_in, highest_in};

    /// The first and the last index of the part in the window of what lies from `first` to `last`, where it has room.
    fn room_in(self, first: u64, last: u64) -> Option<(u64, u64)>
        requires { 1 ≤ self.size }
        ensures { option_to_list (option_map (λ room. record { first = room.0; last = room.1 }) result)
            ≡ kept self.size self.min self.max (hole_between first (last + 1)) }
    {
        let first = first.max(self.min);
        let last = last.min(self.max);
        if first <= last && self.size - 1 <= last - first {
            Some((first, last))
        } else {
            None
        }
    }

    /// The lowest start of room in what lies from `first` to `last`.
    pub fn lowest_in(self, first: u64, last: u64) -> Option<u64>
        requires { 1 ≤ self.size }
        ensures { result ≡ lowest_in (kept self.size self.min self.max (hole_between first (last + 1))) }
    {
        self.room_in(first, last).map(|(first, _)| first)
    }

    /// The highest start of room in what lies from `first` to `last`.
    pub fn highest_in(self, first: u64, last: u64) -> Option<u64>
        requires { 1 ≤ self.size }
        ensures { result ≡ highest_in self.size (kept self.size self.min self.max (hole_between first (last + 1))) }
    {
        let (_, last) = self.room_in(first, last)?;
        Some(last - (self.size - 1))
    }

    /// The lowest start of room in what lies from `first` up to, but without, `end`.
    pub fn lowest_below(self, first: u64, end: u64) -> Option<u64>
        requires { 1 ≤ self.size }
        ensures { result ≡ lowest_in (kept self.size self.min self.max (hole_between first end)) }
    {
        self.lowest_in(first, end.checked_sub(1)?)
    }

    /// The highest start of room in what lies above `before`, up to `last`.
    pub fn highest_above(self, before: u64, last: u64) -> Option<u64>
        requires { 1 ≤ self.size }
        ensures { result ≡ highest_in self.size (kept self.size self.min self.max (hole_between (before + 1) (last + 1))) }
    {
        self.highest_in(before.checked_add(1)?, last)
    }
}

/// The lowest start of room in the window.
pub fn lowest(kind: Kind, ranges: &[Range], window: Window) -> Option<u64>
    requires map { IsMap kind ranges.now }
    requires size { 1 ≤ window.size }
    ensures { result ≡ low kind ranges.now window.size window.min window.max }
{
    let mut first = 0;
    for range in ranges {
        if let Some(start) = window.lowest_below(first, range.first) {
            return Some(start);
        }
        first = range.last.checked_add(1)?;
    }
    window.lowest_in(first, top(width_of(kind)))
}

/// The highest start of room in the window.
pub fn highest(kind: Kind, ranges: &[Range], window: Window) -> Option<u64>
    requires map { IsMap kind ranges.now }
    requires size { 1 ≤ window.size }
    ensures { result ≡ high kind ranges.now window.size window.min window.max }
{
    let mut last = top(width_of(kind));
    let mut rest = ranges;
    while let Some((range, below)) = rest.split_last() {
        if let Some(start) = window.highest_above(range.last, last) {
            return Some(start);
        }
        last = range.first.checked_sub(1)?;
        rest = below;
    }
    window.highest_in(0, last)
}

/// What a start that was found, or none, is answered.
pub fn reply_of(start: Option<u64>) -> Reply
    ensures { result ≡ found start }
{
    match start {
        Some(start) => Reply::Start(start),
        None => Reply::Busy,
    }
}
