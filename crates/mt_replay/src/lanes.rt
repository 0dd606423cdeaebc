//! The lanes of a phase.

ghost use Rattle.std.specs.Prelude.{◌≡◌, ◌≢◌, ◌<◌, ◌≤◌, ◌+◌, ◌++◌, ℕ, true, false, All, [], length, map, slice_index_or, IfOk, OnOk, Vec};
ghost use Rattle.std.specs.Global.{Global};
ghost use Rattle.mt_desks.specs.Dealing.{lines_of_lane};
ghost use Rattle.mt_desks.specs.Turns.{in_turn};
ghost use Rattle.mt_lanes.specs.declared.lanes.Lane.{Lane};
ghost use Rattle.mt_desks.specs.declared.desks.LaneDesk.{LaneDesk};
ghost use Rattle.mt_replay.specs.Lanes.{AreLanesFor, AreManned, AreSettled, CanDo, HaveGoneBy, HaveRun, IsLaneFor};
ghost use Rattle.mt_replay.specs.Players.{rows_known};
ghost use Rattle.mt_replay.specs.Trees.{AreAll};
ghost use Rattle.mt_replay.specs.Turns.{PhaseTurned};

use crate::trees::Plays;
use mt_base::NoMemory;
use mt_desks::{LaneDesk, Passage, Shared, needs_of, put_back, run_phase};
use mt_io::Gate;
use mt_lanes::Lane;
use mt_log::{Entry, Line};
use std::alloc::Global;
use std::mem;
use std::sync::Wait;
use std::thread::Threads;

/// A phase of a log: how many lanes (threads) the log has, the phase's number, and its lines.
#[derive(Clone, Copy)]
pub(crate) struct Phase<'l> {
    pub(crate) lanes: u32,
    pub(crate) number: u64,
    pub(crate) lines: &'l [Line],
}

/// Settles all handles of each tree, which sit in the row beside it.
fn settle_all<R: Wait, P: Passage + Drop, T: Plays<P>>(rt: &R, trees: &[T], seats: &mut [Vec<P>])
    requires count { length seats.old ≡ length trees.now }
    requires all { (at : ℕ) (t : T) (row : Vec P Global) → at < length trees.now
        → AreAll P.knows T.serves (T.many (slice_index_or trees.now at t)) (slice_index_or trees.now at t) (slice_index_or seats.old at row).items }
    ensures all { (at : ℕ) (t : T) (row : Vec P Global) → at < length trees.now
        → AreAll P.knows T.serves (T.many (slice_index_or trees.now at t)) (slice_index_or trees.now at t) (slice_index_or seats.new at row).items }
    ensures settled { AreSettled (map T.tree trees.now) (rows_known P.knows seats.old) (rows_known P.knows seats.new) }
{
    for at in 0..trees.len() {
        trees[at].settle(rt, seats[at].as_mut_slice());
    }
}

/// A lane at its desk, which is to do its lines of this phase.
fn lay_lane<'a, R: Wait, P: Passage + Drop, T: Shared<P>>(
    alloc: Global,
    rt: &'a R,
    lane: u32,
    phase: u64,
    trees: &'a [T],
    lines: &'a [Line],
    room: Vec<Entry>,
) -> Result<Lane<LaneDesk<'a, R, P, T>>, NoMemory>
    ensures { IfOk result (λ l. IsLaneFor trees.now phase (lines_of_lane lane 0 lines.now) room.items lane l) }
{
    let needs = needs_of(lane, lines)?;
    let desk = LaneDesk::new(alloc, rt, lane, phase, trees, lines, needs.room, room)?;
    Ok(Lane {
        lane,
        steps: needs.steps,
        desk,
    })
}

/// All lanes at their desks. The first one's room is the one that it is given, with what that holds at the front.
fn lay_lanes<'a, R: Wait, P: Passage + Drop, T: Shared<P>>(
    alloc: Global,
    rt: &'a R,
    lanes: u32,
    phase: u64,
    trees: &'a [T],
    lines: &'a [Line],
    first: Vec<Entry>,
) -> Result<Vec<Lane<LaneDesk<'a, R, P, T>>>, NoMemory>
    ensures count { IfOk result (λ laid. length laid.items ≡ lanes) }
    ensures laid { IfOk result (λ laid. AreLanesFor trees.now phase lines.now first.items laid.items) }
{
    let mut laid = Vec::with_capacity(alloc, lanes as usize)?;
    let mut room = first;
    for lane in 0..lanes {
        let own = mem::replace(&mut room, Vec::new(alloc));
        laid.push_reserved(lay_lane(alloc, rt, lane, phase, trees, lines, own)?);
    }
    Ok(laid)
}

/// Appends the lanes' answers, each in its room, to these entries, in the order of the log.
fn gather<R, P: Drop, T>(
    alloc: Global,
    lines: &[Line],
    lanes: &[Lane<LaneDesk<'_, R, P, T>>],
    entries: &mut Vec<Entry>,
) -> Result<(), NoMemory>
    ensures { OnOk result (entries.new.items ≡ entries.old.items ++ in_turn 0 lines.now (map (λ l. l.desk.room.items) lanes.now)) }
{
    let mut rooms = Vec::with_capacity(alloc, lanes.len())?;
    for lane in lanes {
        rooms.push_reserved(lane.desk.room.as_slice());
    }
    put_back(entries, lines, rooms.as_mut_slice())
}

/// The room of the first lane: where it is alone, the program's own entries, which are then away.
fn first_room(alloc: Global, alone: bool, entries: &mut Vec<Entry>) -> Vec<Entry>
    ensures alone { alone ≡ true → result.items ≡ entries.old.items }
    ensures empty { alone ≡ false → result.items ≡ [] }
    ensures kept { alone ≡ false → entries.new.items ≡ entries.old.items }
{
    if alone {
        return mem::replace(entries, Vec::new(alloc));
    }
    Vec::new(alloc)
}

/// Tells what the lanes were answered: where one is alone, its room becomes the entries, and else each room is put back.
fn tell<R, P: Drop, T>(
    alloc: Global,
    lines: &[Line],
    lanes: &mut [Lane<LaneDesk<'_, R, P, T>>],
    entries: &mut Vec<Entry>,
) -> Result<(), NoMemory>
    ensures alone { OnOk result (length lanes.old ≡ 1 → (lane : Lane (LaneDesk R P T))
        → entries.new.items ≡ (slice_index_or lanes.old 0 lane).desk.room.items) }
    ensures together { OnOk result (length lanes.old ≢ 1
        → entries.new.items ≡ entries.old.items ++ in_turn 0 lines.now (map (λ l. l.desk.room.items) lanes.old)) }
{
    if lanes.len() == 1 {
        mem::swap(&mut lanes[0].desk.room, entries);
        return Ok(());
    }
    gather(alloc, lines, lanes, entries)
}

/// Makes room for the answers of several lanes after these entries. A lane that is alone has its room.
fn reserve_all<R, P: Drop, T>(
    lanes: &[Lane<LaneDesk<'_, R, P, T>>],
    entries: &mut Vec<Entry>,
) -> Result<(), NoMemory>
    ensures { OnOk result (entries.new.items ≡ entries.old.items) }
{
    if lanes.len() > 1 {
        let mut answers = 0usize;
        for lane in lanes {
            answers = answers
                .checked_add(lane.desk.room.capacity())
                .ok_or(NoMemory)?;
        }
        entries.reserve(answers)?;
    }
    Ok(())
}

/// Runs the lanes (threads) of a phase on these trees, whose passes (handles) sit in the rows beside them. Appends their
/// answers to these entries.
///
/// # Errors
///
/// `NoMemory` where memory ran out.
fn run_lanes<
    R: Threads + Wait + Sync,
    P: Passage + Drop + Send,
    T: Shared<P> + Sync,
    G: Gate + Sync,
>(
    rt: &R,
    alloc: Global,
    phase: Phase<'_>,
    trees: &[T],
    seats: &mut [Vec<P>],
    entries: &mut Vec<Entry>,
    gate: &G,
) -> Result<(), NoMemory>
    requires can { CanDo phase.lanes (length trees.now) phase.lines.now }
    requires manned { AreManned P.knows T.serves (phase.lanes + 1) trees.now seats.old }
    ensures manned { OnOk result (AreManned P.knows T.serves (phase.entry.lanes + 1) trees.now seats.new) }
    ensures run { OnOk result (HaveRun phase.entry.number phase.entry.lines.now (map T.tree trees.now) (rows_known P.knows seats.old)
        (rows_known P.knows seats.new) entries.old.items entries.new.items) }
    ensures turns { OnOk result (PhaseTurned (G.passed gate.now) phase.entry.lines.now) }
{
    let first = first_room(alloc, phase.lanes == 1, entries);
    let mut laid = lay_lanes(
        alloc,
        rt,
        phase.lanes,
        phase.number,
        trees,
        phase.lines,
        first,
    )?;
    reserve_all(laid.as_slice(), entries)?;
    run_phase(rt, seats, laid.as_mut_slice(), gate);
    tell(alloc, phase.lines, laid.as_mut_slice(), entries)
}

/// Runs the lanes of a phase on these trees, and then settles all handles of each tree.
///
/// # Errors
///
/// `NoMemory` where memory ran out.
pub(crate) fn run_and_settle<
    R: Threads + Wait + Sync,
    P: Passage + Drop + Send,
    T: Plays<P> + Sync,
    G: Gate + Sync,
>(
    rt: &R,
    alloc: Global,
    phase: Phase<'_>,
    trees: &[T],
    seats: &mut [Vec<P>],
    entries: &mut Vec<Entry>,
    gate: &G,
) -> Result<(), NoMemory>
    requires can { CanDo phase.lanes (length trees.now) phase.lines.now }
    requires many { All (λ t. T.many t ≡ phase.lanes + 1) trees.now }
    requires manned { AreManned P.knows T.serves (phase.lanes + 1) trees.now seats.old }
    ensures gone { OnOk result
        (HaveGoneBy T.tree P.knows T.serves (phase.entry.lanes + 1) phase.entry.number phase.entry.lines.now trees.now seats.old seats.new
        entries.old.items entries.new.items) }
    ensures turns { OnOk result (PhaseTurned (G.passed gate.now) phase.entry.lines.now) }
{
    run_lanes(rt, alloc, phase, trees, seats, entries, gate)?;
    settle_all(rt, trees, seats);
    Ok(())
}
