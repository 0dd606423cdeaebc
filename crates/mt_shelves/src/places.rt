//! Where on the shelves an index lies.

ghost use Rattle.std.specs.Prelude.{◌≡◌, ◌≤◌, ◌<◌, [], false, drop, length, slice_index_or, take};
ghost use Rattle.mt_shelves.specs.Shelves.{AreRising, BeginAbove, EndBelow, ends_below, joined};

use crate::shelf::Shelf;

/// How many of the first shelves end below an index.
#[tactic(auto, using(crate::proofs::LyingBeside::front_ends_below))]
pub fn place_below(shelves: &[Shelf], index: u64) -> usize
    requires { AreRising shelves.now }
    ensures bound { result ≤ length shelves.now }
    ensures front { EndBelow index (joined (take result shelves.now)) }
    ensures reach { result < length shelves.now → ends_below index (slice_index_or shelves.now result []) ≡ false }
{
    let mut low = 0;
    let mut high = shelves.len();
    while low < high {
        let mid = low + (high - low) / 2;
        if shelves[mid].ends_below(index) {
            low = mid + 1;
        } else {
            high = mid;
        }
    }
    low
}

/// The first place from this one on from which all shelves begin above an index.
#[tactic(auto, using(crate::proofs::LyingBeside::back_begins_above))]
pub fn place_above(shelves: &[Shelf], from: usize, index: u64) -> usize
    requires rising { AreRising shelves.now }
    requires from { from ≤ length shelves.now }
    ensures order { from ≤ result }
    ensures bound { result ≤ length shelves.now }
    ensures back { BeginAbove index (joined (drop result shelves.now)) }
{
    let mut end = from;
    while end < shelves.len() {
        if shelves[end].begins_above(index) {
            return end;
        }
        end += 1;
    }
    end
}
