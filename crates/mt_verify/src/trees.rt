//! A tree's history is gone through once, by all lanes that read it and all stops.

ghost use Rattle.std.specs.Prelude.{◌≡◌, ◌≤◌, ◌<◌, ◌^◌, ℕ, List, true, IfOk, length};
ghost use Rattle.mt_base.specs.declared.ranges.Range.{Range};
ghost use Rattle.mt_base.specs.Map.{IsMap};
ghost use Rattle.mt_verify.specs.Going.{AreAt, AreFresh, AreFreshStops, AreStopsWithin, AreWithin, HavePassedAll, IsGone, IsLastMap, looks_of};
ghost use Rattle.mt_base.specs.Width.{most_rows};

use crate::answers::agrees;
use crate::lanes::{Track, advance_all, are_done};
use crate::noted::Noted;
use crate::stops::Stops;
use mt_base::{Kind, NoMemory};
use mt_shelves::ShelfMap;

/// All lanes and stops go through a number of calls, with the map after these. Returns whether no lane is stuck and each stop
/// there reports the map's number of ranges.
fn pass_all(
    map: &mut ShelfMap,
    tracks: &mut [Track],
    stops: &mut Stops<'_>,
    number: u64,
) -> Result<bool, NoMemory>
    ensures map { map.new ≡ map.old }
    ensures looks { looks_of tracks.new ≡ looks_of tracks.old }
    ensures stops { stops.new.stops ≡ stops.old.stops }
    ensures passed { IfOk result (λ fine. (m : ℕ → List Range) → m number ≡ map.old.ranges
        → AreAt m number tracks.old stops.old → HavePassedAll m number tracks.new stops.new fine) }
{
    if !advance_all(map, tracks, number)? {
        return Ok(false);
    }
    Ok(stops.pass(map, number))
}

/// The lanes and the stops go through the tree's maps, from before the first call to after the last. Returns whether three
/// things hold. Each call was answered by the map before it, or rightly refused because nodes are short. Each stop reports how
/// many ranges the tree had. All looks have numbers, which are then the least that they can have.
///
/// # Errors
///
/// `NoMemory` where memory ran out.
pub fn go_through(
    map: &mut ShelfMap,
    kind: Kind,
    version: u32,
    rows: u64,
    noted: &[Noted<'_>],
    tracks: &mut [Track],
    stops: &mut Stops<'_>,
) -> Result<bool, NoMemory>
    requires kind { kind ≡ map.old.kind }
    requires map { IsMap map.old.kind map.old.ranges }
    requires rows { rows ≤ most_rows }
    requires opened { length map.old.ranges < 2 ^ 62 }
    requires calls { length noted.now < 2 ^ 57 }
    requires fresh { AreFresh tracks.old }
    requires fresh_stops { AreFreshStops stops.old }
    requires within { AreWithin (length noted.now) tracks.old }
    requires stops_within { AreStopsWithin (length noted.now) stops.old.stops }
    ensures looks { looks_of tracks.new ≡ looks_of tracks.old }
    ensures stops { stops.new.stops ≡ stops.old.stops }
    ensures gone { IfOk result
        (λ fine. IsGone map.old.kind version rows map.old.ranges noted.now tracks.new stops.new fine) }
    ensures map { IfOk result (λ fine. fine ≡ true → IsLastMap map.old.kind map.old.ranges noted.now map.new) }
{
    let opened = map.count() / 2 + 2;
    if !pass_all(map, tracks, stops, 0)? {
        return Ok(false);
    }
    for (i, one) in noted.iter().enumerate() {
        if !agrees(map, kind, version, rows, opened, i as u64, one)? {
            return Ok(false);
        }
        if !pass_all(map, tracks, stops, i as u64 + 1)? {
            return Ok(false);
        }
    }
    Ok(are_done(tracks))
}
