ghost use Rattle.std.specs.Prelude.{IfOk};
ghost use Rattle.mt_lanes.specs.Lanes.{CanRun};

use crate::asserts::same;
use crate::meetings::Meeting;
use mt_io::Gate;
use mt_lanes::{Desk, Lane, run_lanes};
use std::alloc::{AllocError, Global};
use std::sync::atomic::{AtomicU32, AtomicU64, Ordering};
use std::test::Fail;

/// Writes down its steps, in the order in which it was asked them.
#[derive(Drop)]
struct Journal {
    count: u64,
    asked: Vec<u64>,
}

impl Desk for Journal {
    ghost use Rattle.std.specs.Prelude.{◌≡◌, ◌≤◌, [], ◌∷◌, ◌++◌, vec_len};
    ghost use Rattle.std.specs.Vec.{vec_capacity};

    ghost count = { λ d. d.count };

    ghost awaits = { λ d step. (vec_len d.asked ≡ step) × (d.count ≤ vec_capacity d.asked) };

    ghost did = { λ before step after. after.asked.items ≡ before.asked.items ++ step ∷ [] };

    fn answer(&mut self, step: u64) {
        match self.asked.push(step) {
            Ok(()) => {}
            Err(_) => unreachable!(),
        }
    }
}

/// A lane with a journal for this many steps.
fn lane(alloc: Global, lane: u32, steps: u32) -> Result<Lane<Journal>, AllocError>
    ensures { IfOk result (λ lane. CanRun ⟦<Journal as Desk>⟧.count ⟦<Journal as Desk>⟧.awaits lane) }
{
    let desk = Journal {
        count: u64::from(steps),
        asked: Vec::with_capacity(alloc, steps as usize)?,
    };
    Ok(Lane {
        lane,
        steps: u64::from(steps),
        desk,
    })
}

#[test]
fn lanes_run_at_once(rt: HostRuntime) -> Result<(), Fail> {
    let mut lanes = [
        lane(rt.alloc(), 0, 1)?,
        lane(rt.alloc(), 1, 3)?,
        lane(rt.alloc(), 2, 2)?,
    ];
    let gate = Meeting::of(3);
    run_lanes(&rt, &mut lanes, &gate);
    same(&rt, gate.met(), (3, 0), "the lanes");
    Ok(())
}

/// How many turns were taken, and the last of them.
#[derive(Drop)]
struct Turns {
    count: AtomicU64,
    lane: AtomicU32,
    number: AtomicU64,
}

impl Gate for Turns {
    fn turn(&self, lane: u32, number: u64) {
        self.count.fetch_add(1, Ordering::SeqCst);
        self.lane.store(lane, Ordering::SeqCst);
        self.number.store(number, Ordering::SeqCst);
    }
}

impl Turns {
    fn new() -> Self {
        Turns {
            count: AtomicU64::new(0),
            lane: AtomicU32::new(0),
            number: AtomicU64::new(0),
        }
    }

    /// How many turns were taken, and of the last the lane and the number.
    fn seen(&self) -> (u64, u32, u64) {
        (
            self.count.load(Ordering::SeqCst),
            self.lane.load(Ordering::SeqCst),
            self.number.load(Ordering::SeqCst),
        )
    }
}

/// Writes down the turns that it sees at each step.
#[derive(Drop)]
struct Watcher<'a> {
    gate: &'a Turns,
    seen: [(u64, u32, u64); 3],
}

impl<'a> Desk for Watcher<'a> {
    ghost use Rattle.std.specs.Prelude.{⊤};

    ghost count = { λ _. 3 };

    ghost awaits = { λ _ _. ⊤ };

    ghost did = { λ _ _ _. ⊤ };

    fn answer(&mut self, step: u64) {
        self.seen[step as usize] = self.gate.seen();
    }
}

#[test]
fn each_step_stands_between_two_turns(rt: HostRuntime) {
    let gate = Turns::new();
    let desk = Watcher {
        gate: &gate,
        seen: [(0, 0, 0); 3],
    };
    let mut lanes = [Lane {
        lane: 7,
        steps: 3,
        desk,
    }];
    run_lanes(&rt, &mut lanes, &gate);
    let [lane] = lanes;
    let told = (lane.desk.seen, gate.seen());
    let want = ([(1, 7, 0), (3, 7, 2), (5, 7, 4)], (6, 7, 5));
    same(&rt, told, want, "the turns");
}

#[test]
fn where_there_are_no_lanes_no_turn_is_taken(rt: HostRuntime) {
    let gate = Turns::new();
    let mut none: [Lane<Journal>; 0] = [];
    run_lanes(&rt, &mut none, &gate);
    same(&rt, gate.seen(), (0, 0, 0), "the turns");
}
