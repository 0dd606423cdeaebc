//! The works: what is done on a tree, and how often.

ghost use Rattle.std.specs.Prelude.{◌≡◌, ◌*◌};

use crate::draws::DrawnIndexes;
use crate::trees::{BATCH, TimedTree};
use mt_base::{Call, Kind, Reply, top, width_of};

/// Allocations lie below 2^48.
const HIGHEST: u64 = (1 << 48) - 1;

/// The entry that every allocation stores.
const ALLOCATED: u64 = 4096;

/// How many ranges a wide store covers, or as many as there are.
const WIDE: u32 = 1000;

/// At which end room is sought.
#[derive(Clone, Copy)]
pub enum End {
    Lowest,
    Highest,
}

/// The first index of range number `i`, which has 10, with 6 to the next range.
pub fn first_of(i: u32) -> u64
    ensures { result ≡ 16 * i }
{
    16 * u64::from(i)
}

/// The store of range number `i`.
pub fn store(tree: &mut impl TimedTree, i: u32, entry: u64) -> bool {
    store_over(tree, i, i, entry)
}

/// The store over the ranges from number `from` to number `to`.
fn store_over(tree: &mut impl TimedTree, from: u32, to: u32, entry: u64) -> bool {
    let call = Call::Store {
        first: first_of(from),
        last: first_of(to) + 9,
        entry,
    };
    matches!(tree.act(&call), Reply::Ok | Reply::Over(_))
}

/// The entry that range number `i` has first.
pub fn entry_of(i: u32) -> u64 {
    4096 + 8 * u64::from(i)
}

/// Stores the ranges of these numbers, in this order; whether each store was done.
pub fn store_all(tree: &mut impl TimedTree, order: &[u32]) -> bool {
    let mut done = true;
    for i in order {
        done &= store(tree, *i, entry_of(*i));
    }
    done
}

/// Stores ranges with other entries, `times` times.
pub fn overwrite(tree: &mut impl TimedTree, ranges: u32, times: u64) -> bool {
    let mut draws = DrawnIndexes::new(7);
    let mut done = true;
    for _ in 0..times {
        let i = draws.below(ranges);
        let entry = 4096 + 8 * u64::from(draws.below(1 << 20));
        done &= store(tree, i, entry);
    }
    done
}

/// How many wide stores cover this many ranges.
pub fn wide_stores(ranges: u32) -> u32 {
    ranges.div_ceil(WIDE)
}

/// Stores over a thousand ranges at once, until all are stored over; whether each store was done.
pub fn store_wide(tree: &mut impl TimedTree, ranges: u32) -> bool {
    let mut done = true;
    for k in 0..wide_stores(ranges) {
        let from = k.saturating_mul(WIDE);
        let to = from.saturating_add(WIDE).min(ranges).saturating_sub(1);
        done &= store_over(tree, from, to, entry_of(from));
    }
    done
}

/// Loads entries, `times` times, and sums them up.
pub fn load(tree: &mut impl TimedTree, ranges: u32, times: u64, seed: u64) -> u64 {
    let mut draws = DrawnIndexes::new(seed);
    let mut sum: u64 = 0;
    for _ in 0..times {
        let index = u64::from(draws.below(ranges.saturating_mul(16)));
        sum = sum.wrapping_add(tree.load(index));
    }
    sum
}

/// Draws indexes of the ranges, one for each place.
fn draw_all(draws: &mut DrawnIndexes, ranges: u32, indexes: &mut [u64]) {
    for index in indexes {
        *index = u64::from(draws.below(ranges.saturating_mul(16)));
    }
}

/// The sum of these entries and of what was summed up before.
fn summed(entries: &[u64], before: u64) -> u64 {
    let mut sum = before;
    for entry in entries {
        sum = sum.wrapping_add(*entry);
    }
    sum
}

/// Loads entries in batches, `times` entries, and sums them up.
pub fn load_many(tree: &mut impl TimedTree, ranges: u32, times: u64, seed: u64) -> u64 {
    let mut draws = DrawnIndexes::new(seed);
    let (mut indexes, mut entries) = ([0_u64; BATCH], [0_u64; BATCH]);
    let (mut left, mut sum) = (times, 0_u64);
    for _ in 0..times {
        let count = left.min(BATCH as u64) as usize;
        if count == 0 {
            break;
        }
        draw_all(&mut draws, ranges, &mut indexes[..count]);
        tree.load_many(&indexes[..count], &mut entries[..count]);
        sum = summed(&entries[..count], sum);
        left -= count as u64;
    }
    sum
}

/// Visits all ranges by a call of the tree until `times` ranges were visited, and sums them up: the loop stands in each caller.
macro_rules! visited_by {
    ($tree:expr, $call:ident, $times:expr) => {{
        let (mut count, mut sum) = (0_u64, 0_u64);
        for _ in 0..$times {
            if $times <= count {
                break;
            }
            let visited = $tree.$call();
            count = count.wrapping_add(visited.count);
            sum = sum.wrapping_add(visited.sum);
        }
        sum
    }};
}

/// Visits all ranges in order, in batches, until `times` ranges were visited, and sums them up.
pub fn visit_many(tree: &mut impl TimedTree, times: u64) -> u64 {
    visited_by!(tree, visit_many, times)
}

/// Visits all ranges in order, until `times` ranges were visited, and sums them up.
pub fn visit(tree: &mut impl TimedTree, times: u64) -> u64 {
    visited_by!(tree, visit, times)
}

/// The erase of range number `i`.
pub fn erase(tree: &mut impl TimedTree, i: u32) -> bool {
    let call = Call::Erase {
        index: first_of(i) + 5,
    };
    matches!(tree.act(&call), Reply::Was(_))
}

/// Erases the ranges of these numbers, in this order; whether each was there.
pub fn erase_all(tree: &mut impl TimedTree, order: &[u32]) -> bool {
    let mut done = true;
    for i in order {
        done &= erase(tree, *i);
    }
    done
}

/// The greatest index that is allocated on a tree of this kind.
pub fn highest_of(kind: Kind) -> u64 {
    HIGHEST.min(top(width_of(kind)))
}

/// Allocates `size` indexes, none above `max`, and returns where they begin.
fn allocate(tree: &mut impl TimedTree, size: u64, end: End, max: u64) -> Option<u64> {
    let (min, entry) = (0, ALLOCATED);
    let call = match end {
        End::Lowest => Call::Alloc {
            size,
            min,
            max,
            entry,
        },
        End::Highest => Call::Ralloc {
            size,
            min,
            max,
            entry,
        },
    };
    match tree.act(&call) {
        Reply::Start(start) => Some(start),
        _ => None,
    }
}

/// A size from 1 to `most`.
fn drawn_size(draws: &mut DrawnIndexes, most: u32) -> u64 {
    1 + u64::from(draws.below(most))
}

/// Allocates areas of 1 to 64 indexes, and notes where each begins; whether each was found.
pub fn allocate_all(tree: &mut impl TimedTree, end: End, highest: u64, starts: &mut [u64]) -> bool {
    let mut draws = DrawnIndexes::new(7);
    let mut done = true;
    for start in starts {
        match allocate(tree, drawn_size(&mut draws, 64), end, highest) {
            Some(found) => *start = found,
            None => done = false,
        }
    }
    done
}

/// Allocates `areas` areas of 1 to 6 indexes. Returns whether each was found.
pub fn fill_holes(tree: &mut impl TimedTree, highest: u64, areas: u32) -> bool {
    let mut draws = DrawnIndexes::new(7);
    let mut done = true;
    for _ in 0..areas {
        let size = drawn_size(&mut draws, 6);
        done &= allocate(tree, size, End::Lowest, highest).is_some();
    }
    done
}

/// Erases the area at a start and allocates one of this many indexes, whose start is noted. Returns whether both were done.
fn reallocate(tree: &mut impl TimedTree, highest: u64, start: &mut u64, size: u64) -> bool {
    let erased = matches!(tree.act(&Call::Erase { index: *start }), Reply::Was(_));
    match allocate(tree, size, End::Lowest, highest) {
        Some(found) => {
            *start = found;
            erased
        }
        None => false,
    }
}

/// Erases an area and allocates another of 1 to 64 indexes, `times` times; whether all were done.
pub fn churn(tree: &mut impl TimedTree, highest: u64, starts: &mut [u64], times: u64) -> bool {
    let mut draws = DrawnIndexes::new(8);
    let areas = u32::try_from(starts.len()).unwrap_or(u32::MAX);
    let mut done = true;
    for _ in 0..times {
        let k = draws.below(areas) as usize;
        let size = drawn_size(&mut draws, 64);
        done &= match starts.get_mut(k) {
            Some(start) => reallocate(tree, highest, start, size),
            None => false,
        };
    }
    done
}
