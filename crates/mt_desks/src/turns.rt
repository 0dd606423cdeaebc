//! How what the lanes were answered is put back in the order of the log.

ghost use Rattle.std.specs.Prelude.{◌≡◌, ◌++◌, ◌≤◌, length, map, slice_set, OnOk};
ghost use Rattle.mt_desks.specs.Turns.{first_entries, front_len, in_turn, rest_of, room_at};

use crate::dealing::{is_step, lane_after};
use mt_base::NoMemory;
use mt_log::{Entry, Line};

/// How many entries at the front of a room are for a line.
#[tactic(auto, using(crate::proofs::Fronts::front_more, crate::proofs::Fronts::front_stop, crate::proofs::Fronts::front_end))]
fn front_len(room: &[Entry], line: u64) -> usize
    ensures is { result ≡ front_len line room.now }
    ensures within { result ≤ length room.now }
{
    for count in 0..room.len() {
        if room[count].line != line {
            return count;
        }
    }
    room.len()
}

/// Moves the entries for a line from the front of this lane's room to the end of these. A lane without a room has none.
fn take_front(
    entries: &mut Vec<Entry>,
    rooms: &mut [&[Entry]],
    lane: usize,
    line: u64,
) -> Result<(), NoMemory>
    ensures entries { OnOk result (entries.new.items ≡ entries.old.items ++ first_entries line (room_at (map (λ r. r.now) rooms.old) lane)) }
    ensures rooms { OnOk result (map (λ r. r.now) rooms.new
        ≡ slice_set (map (λ r. r.now) rooms.old) lane (rest_of line (room_at (map (λ r. r.now) rooms.old) lane))) }
{
    if lane < rooms.len() {
        let room = rooms[lane];
        let (front, rest) = room.split_at(front_len(room, line));
        entries.extend_from_slice(front)?;
        rooms[lane] = rest;
    }
    Ok(())
}

/// Appends the answers of a phase's lanes to these entries, in the order of the log: for each line of the phase that a lane
/// does, the entries for it at the front of that lane's room. The answers of the phase's copies and checks come before them
/// all, and are not among them.
///
/// # Errors
///
/// `NoMemory` where memory ran out.
#[tactic(auto, using(crate::proofs::Fronts::turn_taken, crate::proofs::Fronts::turn_skipped))]
pub fn put_back(
    entries: &mut Vec<Entry>,
    lines: &[Line],
    rooms: &mut [&[Entry]],
) -> Result<(), NoMemory>
    ensures { OnOk result (entries.new.items ≡ entries.old.items ++ in_turn 0 lines.now (map (λ r. r.now) rooms.old)) }
{
    let mut here = 0;
    for line in lines {
        if is_step(&line.item) {
            take_front(entries, rooms, here as usize, line.number)?;
        }
        here = lane_after(here, &line.item);
    }
    Ok(())
}
