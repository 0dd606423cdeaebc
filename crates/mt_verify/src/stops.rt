ghost use Rattle.std.specs.Prelude.{◌≡◌, slice_get};
ghost use Rattle.mt_verify.specs.Stops.{is_at};

use mt_shelves::ShelfMap;
use mt_told::is_number;
use std::marker::Model;

/// A check or a copy of a tree in a transcript: after how many of the tree's calls, and how many ranges it then had, as
/// printed.
#[derive(Clone, Copy)]
pub struct Stop<'t> {
    pub at: u64,
    pub count: &'t [u8],
}

/// The stops of a tree, in the order of the log, and how many of them were passed.
#[derive(Drop)]
pub struct Stops<'t> {
    stops: Vec<Stop<'t>>,
    next: usize,
}

impl<'t> Model for Stops<'t> {
    ghost use Rattle.mt_verify.specs.Stops.{Passing};

    ghost Value = { Passing };

    ghost view = { λ s. record { stops = s.stops.items; next = s.next } };
}

impl<'t> Stops<'t> {
    ghost use Rattle.std.specs.Prelude.{◌≡◌, ◌+◌, ◌<◌, ℕ, List, Some, length, slice_get};
    ghost use Rattle.mt_base.specs.declared.ranges.Range.{Range};
    ghost use Rattle.mt_verify.specs.declared.stops.Stop.{Stop};
    ghost use Rattle.mt_verify.specs.Stops.{AreStopped, HasStopped, HavePassedStops, is_at};

    /// These stops, of which none was passed.
    pub fn new(stops: Vec<Stop<'t>>) -> Self
        ensures stops { result.stops ≡ stops.entry.items }
        ensures next { result.next ≡ 0 }
    {
        Stops { stops, next: 0 }
    }

    /// Whether the next stop is after `number` calls.
    fn is_next(&self, number: u64) -> bool
        ensures { result ≡ is_at number (slice_get self.now.stops self.now.next) }
    {
        match self.stops.get(self.next) {
            Some(stop) => stop.at == number,
            None => false,
        }
    }

    /// Passes the next stop with this map. Returns whether the map has as many ranges as the stop reports.
    fn stop(&mut self, map: &ShelfMap) -> bool
        requires { self.old.next < length self.old.stops }
        ensures stops { self.new.stops ≡ self.old.stops }
        ensures stopped { (s : Stop) → slice_get self.old.stops self.old.next ≡ Some s
            → HasStopped map.now.ranges s self.old self.new result }
    {
        if !is_number(map.count(), self.stops[self.next].count) {
            return false;
        }
        self.next += 1;
        true
    }

    /// Passes the stops after `number` calls with this map. Returns whether it has the number of ranges that each of them
    /// reports.
    pub fn pass(&mut self, map: &ShelfMap, number: u64) -> bool
        ensures stops { self.new.stops ≡ self.old.stops }
        ensures passed { (m : ℕ → List Range) → m number ≡ map.now.ranges → AreStopped m number self.old
            → HavePassedStops m number self.new result }
    {
        while self.is_next(number) {
            if !self.stop(map) {
                return false;
            }
        }
        true
    }
}
