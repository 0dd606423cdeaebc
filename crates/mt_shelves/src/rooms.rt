//! Searches for room: over the holes before the shelves and between them, and over those on a shelf only where its longest one is
//! long enough.

ghost use Rattle.std.specs.Prelude.{◌≡◌, ◌+◌, ◌≤◌, ◌<◌, ◌++◌, SomeIff, length};
ghost use Rattle.mt_base.specs.Holes.{hole_between, high, highest_in, kept, low, lowest_in};
ghost use Rattle.mt_base.specs.Map.{IsMapFrom};
ghost use Rattle.mt_shelves.specs.Shelves.{AreShelves, shelf_end, has_room, holes_after, holes_in, joined, shelf_start};

use crate::extents::ShelfExtent;
use crate::shelf::Shelf;
use mt_base::{Kind, Range, top, width_of};
use mt_list::Window;

/// Whether ranges with this extent may have room for the window's size in it.
fn may_have_room(extent: ShelfExtent, window: Window) -> bool
    ensures { result ≡ has_room extent.start extent.end extent.room window.size window.min window.max }
{
    window.size <= extent.room && extent.start < window.max && window.min < extent.end
}

/// The lowest start of room in the holes between ranges above an index.
#[tactic(auto, using(crate::proofs::HolesOnShelves::above_at))]
fn lowest_after(ranges: &[Range], index: u64, window: Window) -> Option<u64>
    requires rise { IsMapFrom (index + 1) ranges.now }
    requires size { 1 ≤ window.size }
    ensures { result ≡ lowest_in (kept window.size window.min window.max (holes_after (index + 1) ranges.now)) }
{
    let mut last = index;
    for range in ranges {
        let Range {
            first,
            last: next,
            ..
        } = *range;
        if let Some(start) = window.lowest_below(last + 1, first) {
            return Some(start);
        }
        last = next;
    }
    None
}

/// The lowest start of room in the holes between ranges.
fn lowest_within(ranges: &[Range], window: Window) -> Option<u64>
    requires rise { IsMapFrom 0 ranges.now }
    requires size { 1 ≤ window.size }
    ensures { result ≡ lowest_in (kept window.size window.min window.max (holes_in ranges.now)) }
{
    let (range, rest) = ranges.split_first()?;
    lowest_after(rest, range.last, window)
}

/// The lowest start of room in the hole before a shelf, from `first` on, and in those on it.
fn lowest_on(shelf: &Shelf, first: u64, window: Window) -> Option<u64>
    requires { 1 ≤ window.size }
    ensures { result ≡ lowest_in (kept window.size window.min window.max (hole_between first (shelf_start shelf.now) ++ holes_in shelf.now)) }
{
    let ranges = shelf.ranges();
    let extent = shelf.extent();
    if let Some(start) = window.lowest_below(first, extent.start) {
        return Some(start);
    }
    if !may_have_room(extent, window) {
        return None;
    }
    lowest_within(ranges, window)
}

/// The lowest start of room in the window.
pub fn lowest(kind: Kind, shelves: &[Shelf], window: Window) -> Option<u64>
    requires are { AreShelves kind shelves.now }
    requires size { 1 ≤ window.size }
    ensures { result ≡ low kind (joined shelves.now) window.size window.min window.max }
{
    let mut first = 0;
    for shelf in shelves {
        if let Some(start) = lowest_on(shelf, first, window) {
            return Some(start);
        }
        first = shelf.extent().end.checked_add(1)?;
    }
    window.lowest_in(first, top(width_of(kind)))
}

/// Where ranges end, if there are any.
#[tactic(auto, using(mt_list::proofs::StoreAtPlaces::last_of_is_at_end))]
fn end_at(ranges: &[Range]) -> Option<u64>
    ensures { SomeIff result (0 < length ranges.now) (shelf_end ranges.now) }
{
    ranges.last().map(|range| range.last)
}

/// The highest start of room in the holes between ranges.
fn highest_within(ranges: &[Range], window: Window) -> Option<u64>
    requires rise { IsMapFrom 0 ranges.now }
    requires size { 1 ≤ window.size }
    ensures { result ≡ highest_in window.size (kept window.size window.min window.max (holes_in ranges.now)) }
{
    let mut rest = ranges;
    while let Some((range, below)) = rest.split_last() {
        let before = end_at(below)?;
        if let Some(start) = window.highest_above(before, range.first - 1) {
            return Some(start);
        }
        rest = below;
    }
    None
}

/// The highest start of room in the hole after a shelf, up to `last`, and in the holes on it.
fn highest_on(shelf: &Shelf, last: u64, window: Window) -> Option<u64>
    requires { 1 ≤ window.size }
    ensures { result ≡ highest_in window.size (kept window.size window.min window.max (holes_in shelf.now
        ++ hole_between (shelf_end shelf.now + 1) (last + 1))) }
{
    let ranges = shelf.ranges();
    let extent = shelf.extent();
    if let Some(start) = window.highest_above(extent.end, last) {
        return Some(start);
    }
    if !may_have_room(extent, window) {
        return None;
    }
    highest_within(ranges, window)
}

/// The highest start of room in the window.
pub fn highest(kind: Kind, shelves: &[Shelf], window: Window) -> Option<u64>
    requires are { AreShelves kind shelves.now }
    requires size { 1 ≤ window.size }
    ensures { result ≡ high kind (joined shelves.now) window.size window.min window.max }
{
    let mut last = top(width_of(kind));
    let mut end = shelves.len();
    while end > 0 {
        end -= 1;
        let shelf = &shelves[end];
        if let Some(start) = highest_on(shelf, last, window) {
            return Some(start);
        }
        last = shelf.extent().start.checked_sub(1)?;
    }
    window.highest_in(0, last)
}
