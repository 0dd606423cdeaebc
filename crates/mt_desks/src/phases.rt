//! The lanes of a phase.

ghost use Rattle.std.specs.Prelude.{◌≡◌, ◌<◌, ◌≤◌, ◌*◌, ℕ, All, length, slice_index_or, vec_len, vec_capacity, Vec};
ghost use Rattle.std.specs.Global.{Global};
ghost use Rattle.mt_lanes.specs.Lanes.{EachPlace};
ghost use Rattle.mt_desks.specs.Desks.{desk_of};
ghost use Rattle.mt_desks.specs.Passing.{AllHaveSwapped, HasSwapped};
ghost use Rattle.mt_desks.specs.Phases.{AtEach, CanPass, FromEach, IsLaid, LaneWent, pass_at};

use crate::desks::LaneDesk;
use crate::passing::swap_passes;
use crate::shared::{Passage, Shared};
use mt_io::Gate;
use mt_lanes::{Lane, run_lanes};
use std::sync::Wait;
use std::thread::Threads;

/// At each tree, this lane's handle changes places with the one at its desk.
fn swap_lane<R, P: Drop, T>(rows: &mut [Vec<P>], at: usize, lane: &mut Lane<LaneDesk<'_, R, P, T>>)
    requires rows { All (λ row. at < vec_len row) rows.old }
    requires desk { vec_len lane.old.desk.passes ≡ length rows.old }
    ensures swapped { HasSwapped (λ row. row.items) at (length rows.old) rows.old rows.new lane.old.desk.passes.items lane.new.desk.passes.items }
    ensures kept { lane.new ≡ record lane.old { desk = record lane.old.desk { passes = lane.new.desk.passes } } }
{
    swap_passes(rows, at, lane.desk.passes.as_mut_slice());
}

/// The handles of each tree change places with those at the desks, each lane's with its desk's.
fn swap_all<R, P: Drop, T>(rows: &mut [Vec<P>], lanes: &mut [Lane<LaneDesk<'_, R, P, T>>])
    requires rows { All (λ row. length lanes.old ≤ vec_len row) rows.old }
    requires desks { All (λ l. vec_len l.desk.passes ≡ length rows.old) lanes.old }
    ensures swapped { AllHaveSwapped (λ row. row.items) (λ l. l.desk.passes.items) (length lanes.old) rows.old rows.new lanes.old lanes.new }
    ensures kept { EachPlace (λ l k. k ≡ record l { desk = record l.desk { passes = k.desk.passes } }) lanes.old lanes.new }
{
    for lane in 0..lanes.len() {
        swap_lane(rows, lane, &mut lanes[lane]);
    }
}

/// Runs the lanes of a phase at once, each with its pass (handle) on each tree, and one after another if no thread can be made.
/// The rows hold each tree's handles, in order. Those after the lanes' stay as they are.
///
/// It takes no memory. Each lane's desk does its lines, each once and in order, and its handles are back in the rows.
pub fn run_phase<
    R: Threads + Wait + Sync,
    P: Passage + Drop + Send,
    T: Shared<P> + Sync,
    G: Gate + Sync,
>(rt: &R, rows: &mut [Vec<P>], lanes: &mut [Lane<LaneDesk<'_, R, P, T>>], gate: &G)
    requires rows { All (λ row. length lanes.old ≤ vec_len row) rows.old }
    requires laid { All (λ l. IsLaid l.steps (length l.desk.trees.now) l.desk.lines.all l.desk.lines.left (vec_len l.desk.passes)
        (vec_len l.desk.room) (vec_capacity l.desk.room)) lanes.old }
    requires passes { AtEach (λ lane l. CanPass P.knows T.serves (λ row. row.items) lane l.desk.trees.now rows.old) lanes.old }
    ensures went { FromEach (λ lane l k. LaneWent P.knows (λ row. row.items) lane l.steps rows.old rows.new
        (desk_of T.tree P.knows l.desk.lane l.desk.phase l.desk.trees.now l.desk.lines.all l.desk.passes.items l.desk.room.items)
        (desk_of T.tree P.knows k.desk.lane k.desk.phase k.desk.trees.now k.desk.lines.all k.desk.passes.items k.desk.room.items)) lanes.old lanes.new }
    ensures passes { AtEach (λ lane l. CanPass P.knows T.serves (λ row. row.items) lane l.desk.trees.now rows.new) lanes.old }
    ensures turns { FromEach (λ lane l k. (number : ℕ) → number < 2 * l.steps → G.passed gate.now l.lane number) lanes.old lanes.new }
    ensures count { length rows.new ≡ length rows.old }
    ensures long { (tree : ℕ) → (row : Vec P Global) → length (slice_index_or rows.new tree row).items ≡ length (slice_index_or rows.old tree row).items }
    ensures others { (tree lane : ℕ) → (row : Vec P Global) → (pass : P) → length lanes.old ≤ lane
        → pass_at (λ v. v.items) rows.new tree lane row pass ≡ pass_at (λ v. v.items) rows.old tree lane row pass }
{
    swap_all(rows, lanes);
    run_lanes(rt, lanes, gate);
    swap_all(rows, lanes);
}
