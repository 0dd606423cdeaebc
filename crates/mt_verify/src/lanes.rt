//! All lanes of a tree go through a number of its calls.

ghost use Rattle.std.specs.Prelude.{◌≡◌, ℕ, List, IfOk};
ghost use Rattle.mt_base.specs.declared.ranges.Range.{Range};
ghost use Rattle.mt_verify.specs.Going.{AreLanesDone, AreOn, HavePassed, looks_of};

use crate::looks::ToldRead;
use crate::tracks::advance;
use mt_base::NoMemory;
use mt_shelves::ShelfMap;
use std::alloc::Global;
use std::marker::Model;

/// The looks of a lane on a tree, in the order of the log, and the numbers that the first of them have.
#[derive(Drop)]
pub struct Track {
    looks: Vec<ToldRead>,
    points: Vec<u64>,
}

impl Model for Track {
    ghost use Rattle.mt_verify.specs.Going.{Lane};

    ghost Value = { Lane };

    ghost view = { λ t. record { looks = t.looks.items; points = t.points.items } };
}

impl Track {
    ghost use Rattle.std.specs.Prelude.{◌≡◌, ◌↔◌, ℕ, List, [], IfOk, IsTrue, length};
    ghost use Rattle.mt_base.specs.declared.ranges.Range.{Range};
    ghost use Rattle.mt_verify.specs.Looks.{ArePickedBelow, Passed};

    /// The lane goes through a number with this map. Returns whether it is not stuck.
    pub fn advance(&mut self, map: &mut ShelfMap, number: u64) -> Result<bool, NoMemory>
        ensures map { map.new ≡ map.old }
        ensures looks { self.new.looks ≡ self.old.looks }
        ensures passed { IfOk result (λ fine. (m : ℕ → List Range) → m number ≡ map.old.ranges
            → ArePickedBelow m number number self.old.looks self.old.points
            → Passed m number self.old.looks self.new.points fine) }
    {
        advance(map, &self.looks, &mut self.points, number)
    }

    /// These looks, none of which has a number.
    pub fn new(alloc: Global, looks: Vec<ToldRead>) -> Self
        ensures looks { result.looks ≡ looks.items }
        ensures points { result.points ≡ [] }
    {
        Track {
            looks,
            points: Vec::new(alloc),
        }
    }

    /// The numbers that the first looks have.
    pub fn points(&self) -> &[u64]
        ensures { result.now ≡ self.now.points }
    {
        &self.points
    }

    /// Whether all looks have their numbers.
    pub fn is_done(&self) -> bool
        ensures { IsTrue result ↔ (length self.now.points ≡ length self.now.looks) }
    {
        self.points.len() == self.looks.len()
    }
}

/// All lanes go through a number with this map. Returns whether none is stuck.
pub fn advance_all(map: &mut ShelfMap, tracks: &mut [Track], number: u64) -> Result<bool, NoMemory>
    ensures map { map.new ≡ map.old }
    ensures looks { looks_of tracks.new ≡ looks_of tracks.old }
    ensures passed { IfOk result (λ fine. (m : ℕ → List Range) → m number ≡ map.old.ranges → AreOn m number tracks.old
        → HavePassed m number tracks.new fine) }
{
    for i in 0..tracks.len() {
        if !tracks[i].advance(map, number)? {
            return Ok(false);
        }
    }
    Ok(true)
}

/// Whether all looks of all lanes have their numbers.
pub fn are_done(tracks: &[Track]) -> bool
    ensures { AreLanesDone tracks.now result }
{
    for track in tracks {
        if !track.is_done() {
            return false;
        }
    }
    true
}
