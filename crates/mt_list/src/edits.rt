ghost use Rattle.std.specs.Prelude.{◌≡◌, ◌≤◌, ◌+◌, ◌++◌, length, take, drop, vec_len, OnOk, OnErr, OnSome, IfNone};
ghost use Rattle.mt_base.specs.Map.{IsMapFrom, holding, over, without};

use crate::pieces::{Pieces, piece_above, piece_below, piece_stored};
use crate::places::{last_of, place_above, place_below, range_at, up_to};
use mt_base::Range;
use std::alloc::AllocError;

/// Puts `pieces` before the range at `at`. An `Err` changes nothing.
#[tactic(auto, using(crate::proofs::Replaced::inserting))]
fn insert_all(ranges: &mut Vec<Range>, at: usize, pieces: &[Range]) -> Result<(), AllocError>
    requires { at ≤ vec_len ranges.old }
    ensures ok { OnOk result (ranges.new.items ≡ take at ranges.old.items ++ (pieces.now ++ drop at ranges.old.items)) }
    ensures err { OnErr result (ranges.new.items ≡ ranges.old.items) }
{
    ranges.reserve(pieces.len())?;
    for i in 0..pieces.len() {
        let Ok(()) = ranges.insert(at + i, pieces[i]) else {
            unreachable!();
        };
    }
    Ok(())
}

/// Writes `pieces` over as many ranges, from `start` on.
fn overwrite(ranges: &mut Vec<Range>, start: usize, pieces: &[Range])
    requires { start + length pieces.now ≤ vec_len ranges.old }
    ensures { ranges.new.items ≡ take start ranges.old.items ++ (pieces.now ++ drop (start + length pieces.now) ranges.old.items) }
{
    ranges[start..start + pieces.len()].copy_from_slice(pieces);
}

/// Removes the ranges from `start` up to `end`.
#[tactic(auto, using(crate::proofs::Replaced::closing))]
fn close(ranges: &mut Vec<Range>, start: usize, end: usize)
    requires order { start ≤ end }
    requires bound { end ≤ vec_len ranges.old }
    ensures { ranges.new.items ≡ take start ranges.old.items ++ drop end ranges.old.items }
{
    if start == end {
        return;
    }
    let len = ranges.len();
    ranges.copy_within(end..len, start);
    ranges.truncate(len - (end - start));
}

/// Puts `pieces` in the place of the ranges from `start` up to `end`. An `Err` changes nothing.
///
/// It takes memory only if there are more pieces. The later ranges are then moved once for each piece more, and otherwise once.
fn replace(
    ranges: &mut Vec<Range>,
    start: usize,
    end: usize,
    pieces: &[Range],
) -> Result<(), AllocError>
    requires order { start ≤ end }
    requires bound { end ≤ vec_len ranges.old }
    ensures ok { OnOk result (ranges.new.items ≡ take start ranges.old.items ++ (pieces.now ++ drop end ranges.old.items)) }
    ensures err { OnErr result (ranges.new.items ≡ ranges.old.items) }
{
    let (front, more) = pieces.split_at(pieces.len().min(end - start));
    insert_all(ranges, end, more)?;
    overwrite(ranges, start, front);
    close(ranges, start + front.len(), end);
    Ok(())
}

/// Stores `entry` over `first` to `last`. An `Err` changes nothing.
#[tactic(auto, using(crate::proofs::StoreAtPlaces::stores))]
pub fn store(ranges: &mut Vec<Range>, first: u64, last: u64, entry: u64) -> Result<(), AllocError>
    requires order { first ≤ last }
    requires map { IsMapFrom 0 ranges.old.items }
    ensures ok { OnOk result (ranges.new.items ≡ over ranges.old.items first last entry) }
    ensures err { OnErr result (ranges.new.items ≡ ranges.old.items) }
{
    let start = place_below(ranges, first);
    let end = place_above(ranges, last);
    let below = piece_below(range_at(ranges, start), first);
    let stored = piece_stored(first, last, entry);
    let above = piece_above(last_of(&ranges[..end]), last);
    let pieces = Pieces::of(below, stored, above);
    replace(ranges, start, end, pieces.as_slice())
}

/// Removes the range that holds `index`, and gives it; each range above it moves once.
#[tactic(auto, using(crate::proofs::EraseAtPlace::erases))]
pub fn erase(ranges: &mut Vec<Range>, index: u64) -> Option<Range>
    requires { IsMapFrom 0 ranges.old.items }
    ensures range { result ≡ holding ranges.old.items index }
    ensures some { OnSome result (ranges.new.items ≡ without ranges.old.items index) }
    ensures none { IfNone result (ranges.new.items ≡ ranges.old.items) }
{
    let place = place_below(ranges, index);
    let range = up_to(range_at(ranges, place), index)?;
    ranges.remove(place);
    Some(range)
}
