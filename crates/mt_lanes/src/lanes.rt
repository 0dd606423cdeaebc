ghost use Rattle.std.specs.Prelude.{◌≡◌, ◌⊎◌, ◌↔◌, ◌+◌, ◌<◌, ℕ, All, IsTrue};
ghost use Rattle.std.specs.Thread.{IsSync};
ghost use denote.Param.Send.{IsSend};
ghost use Rattle.mt_lanes.specs.Lanes.{AreIdle, CanRun, RanSteps, EachPlace};

use crate::desks::Desk;
use mt_io::Gate;
use std::thread::{Threads, join_mut};

/// A lane of a phase: its number, how many steps it has, and the desk that answers them.
#[derive(Drop)]
pub struct Lane<D> {
    pub lane: u32,
    pub steps: u64,
    pub desk: D,
}

/// Has each step of a lane answered, in order, between two turns of the gate.
#[tactic(auto, using(crate::proofs::Chains::chain_more))]
fn run_lane<D: Desk, G: Gate>(lane: &mut Lane<D>, gate: &G)
    requires { CanRun D.count D.awaits lane.old }
    ensures { RanSteps D.did (G.passed gate.now) lane.old lane.new }
{
    for step in 0..lane.steps {
        gate.turn(lane.lane, 2 * step);
        lane.desk.answer(step);
        gate.turn(lane.lane, 2 * step + 1);
    }
}

/// Whether none of these lanes has a step.
fn are_idle<D>(lanes: &[Lane<D>]) -> bool
    ensures { IsTrue result ↔ AreIdle lanes.now }
{
    lanes.iter().all(|lane| lane.steps == 0)
}

/// Whether a lane runs in this thread: it has no step, or no later lane has one.
fn runs_here<D>(first: &Lane<D>, others: &[Lane<D>]) -> bool
    ensures { IsTrue result ↔ ((first.now.steps ≡ 0) ⊎ AreIdle others.now) }
{
    first.steps == 0 || are_idle(others)
}

/// Runs a lane in a thread of its own, and meanwhile the later lanes.
#[cycle(lanes)]
fn run_beside<R: Threads + Sync, D: Desk + Send, G: Gate + Sync>(
    rt: &R,
    gate: &G,
    first: &mut Lane<D>,
    others: &mut [Lane<D>],
)
    requires first { CanRun D.count D.awaits first.old }
    requires others { All (CanRun D.count D.awaits) others.old }
    ensures first { RanSteps D.did (G.passed gate.now) first.old first.new }
    ensures others { EachPlace (RanSteps D.did (G.passed gate.now)) others.old others.new }
{
    let mut one = ||
        requires { IsSync G.row × CanRun D.count D.awaits first.now }
        ensures { RanSteps D.did (G.passed gate.entry.now) first.entry.now first.exit.now }
    { run_lane(first, gate) };
    let mut rest = ||
        requires { IsSync R.row × IsSync G.row × IsSend D.row × All (CanRun D.count D.awaits) others.now }
        ensures { EachPlace (RanSteps D.did (G.passed gate.entry.now)) others.entry.now others.exit.now }
    { run_lanes(rt, others, gate) };
    join_mut(rt, &mut one, &mut rest);
}

/// Runs the lanes at once, and one after another where no thread can be made.
///
/// On each lane the desk (worker) does the steps 0 to `steps - 1`, each once and in order. Step s is between the gate's turns
/// 2s and 2s + 1 of this lane. It cannot fail, and takes no memory. The last lane that has a step runs in this thread, and each
/// other lane that has one in a thread of its own.
#[cycle(lanes)]
pub fn run_lanes<R: Threads + Sync, D: Desk + Send, G: Gate + Sync>(
    rt: &R,
    lanes: &mut [Lane<D>],
    gate: &G,
)
    requires { All (CanRun D.count D.awaits) lanes.old }
    ensures { EachPlace (RanSteps D.did (G.passed gate.now)) lanes.old lanes.new }
{
    let Some((first, others)) = lanes.split_first_mut() else {
        return;
    };
    if runs_here(first, others) {
        run_lane(first, gate);
        run_lanes(rt, others, gate);
    } else {
        run_beside(rt, gate, first, others);
    }
}
