//! Jobs that one thread does on a tree, and what an operation takes. There is no result if a call was not done, or there was no
//! memory.

use crate::callers::TimedCaller;
use crate::draws::shuffled;
use crate::figures::{BenchOutcome, Figure, TimedReport};
use crate::tasks::{Bench, Job, MapSize, TimedTask};
use crate::trees::{Nodes, TimedTree, rows_for};
use crate::works::{
    End, allocate_all, churn, erase_all, fill_holes, highest_of, load, load_many, overwrite,
    store_all, store_wide, visit, visit_many, wide_stores,
};
use std::alloc::Global;
use std::rt::Clock;
use std::sync::Wait;
use std::time::Instant;

/// What jobs go by: the numbers of the ranges, in rising order and in one that looks random; where the allocated areas begin;
/// and the greatest index that an area may have.
#[derive(Drop)]
pub struct Setting {
    pub ranges: u32,
    pub seq: Vec<u32>,
    pub rand: Vec<u32>,
    pub starts: Vec<u64>,
    pub highest: u64,
}

impl Setting {
    /// The setting of a task. No area was allocated yet.
    pub fn new(alloc: Global, task: TimedTask) -> Option<Self> {
        let ranges = task.ranges;
        let highest = highest_of(task.kind);
        let seq = (0..ranges).collect(alloc).ok()?;
        let rand = shuffled(alloc, ranges).ok()?;
        let starts = vec![in alloc; 0; ranges as usize].ok()?;
        Some(Setting {
            ranges,
            seq,
            rand,
            starts,
            highest,
        })
    }
}

/// The nanoseconds since a start.
pub fn nanos_since(rt: &impl Clock, start: &Instant) -> Option<u64> {
    let took = start.elapsed(rt).ok()?;
    u64::try_from(took.as_nanos()).ok()
}

/// What is done before a job, untimed.
fn before(job: Job) -> Option<Job> {
    match job {
        Job::Load
        | Job::LoadMany
        | Job::Iter
        | Job::StepMany
        | Job::Overwrite
        | Job::Wide
        | Job::Erase => Some(Job::StoreRand),
        Job::Holes => Some(Job::StoreSeq),
        Job::Churn => Some(Job::Alloc),
        _ => None,
    }
}

/// Does a job once, and gives a number that is the same each time, or 0 where a call was not done.
fn do_once(tree: &mut impl TimedTree, job: Job, times: u64, setting: &mut Setting) -> u64 {
    let (ranges, highest) = (setting.ranges, setting.highest);
    match job {
        Job::Load => load(tree, ranges, times, 7),
        Job::LoadMany => load_many(tree, ranges, times, 7),
        Job::Iter => visit(tree, times),
        Job::StepMany => visit_many(tree, times),
        Job::Overwrite => u64::from(overwrite(tree, ranges, times)),
        Job::Wide => u64::from(store_wide(tree, ranges)),
        Job::Erase => u64::from(erase_all(tree, &setting.rand)),
        Job::StoreSeq => u64::from(store_all(tree, &setting.seq)),
        Job::StoreRand => u64::from(store_all(tree, &setting.rand)),
        Job::Alloc => u64::from(allocate_all(tree, End::Lowest, highest, &mut setting.starts)),
        Job::Ralloc => u64::from(allocate_all(tree, End::Highest, highest, &mut setting.starts)),
        Job::Holes => u64::from(fill_holes(tree, highest, ranges)),
        Job::Churn => u64::from(churn(tree, highest, &mut setting.starts, times)),
        _ => 0,
    }
}

/// A round of a job: its nanoseconds, its number, and the sum of what the tree holds then.
#[derive(Clone, Copy)]
struct Round {
    nanos: u64,
    number: u64,
    held: u64,
}

/// One round on an empty tree.
fn round_on(
    rt: &impl Clock,
    tree: &mut impl TimedTree,
    job: Job,
    times: u64,
    setting: &mut Setting,
) -> Option<Round> {
    if let Some(first) = before(job) {
        do_once(tree, first, times, setting);
    }
    let start = Instant::now(rt).ok()?;
    let number = do_once(tree, job, times, setting);
    let nanos = nanos_since(rt, &start)?;
    let held = do_once(tree, Job::Iter, 1, setting);
    Some(Round {
        nanos,
        number,
        held,
    })
}

/// One round on a new tree.
fn one_round<R: Clock + Wait>(
    rt: &R,
    alloc: Global,
    task: TimedTask,
    times: u64,
    setting: &mut Setting,
) -> Option<Round> {
    if task.shared {
        let mut callers = TimedCaller::all(rt, alloc, task.kind, rows_for(task.ranges), 1)?;
        return round_on(rt, callers.first_mut()?, task.job, times, setting);
    }
    let mut tree = Nodes::new(alloc, task.kind, task.ranges).ok()?;
    round_on(rt, &mut tree, task.job, times, setting)
}

/// How many rounds of a job are timed, and how many operations each has: one round where a job is not done once for each range.
fn rounds_of(task: TimedTask, extent: MapSize) -> (u64, u64) {
    match task.job {
        Job::Load | Job::LoadMany | Job::Iter | Job::StepMany | Job::Overwrite | Job::Churn => (
            extent.rounds.min(1),
            extent.times,
        ),
        Job::Wide => (extent.rounds, u64::from(wide_stores(task.ranges))),
        _ => (extent.rounds, u64::from(task.ranges)),
    }
}

/// The nanoseconds of all rounds, each of which gives the same number.
fn nanos_of_all<R: Clock + Wait>(
    rt: &R,
    alloc: Global,
    task: TimedTask,
    times: u64,
    rounds: u64,
    setting: &mut Setting,
    number: u64,
) -> Option<u64> {
    let mut nanos: u64 = 0;
    for _ in 0..rounds {
        let round = one_round(rt, alloc, task, times, setting)?;
        if round.number != number {
            return None;
        }
        nanos = nanos.saturating_add(round.nanos);
    }
    Some(nanos)
}

/// The mean time of an operation, over all rounds but the first.
pub fn alone<R: Clock + Wait>(bench: &Bench<'_, R>) -> Option<BenchOutcome> {
    let (rt, alloc, task, extent) = (bench.rt, bench.alloc, bench.task, bench.extent);
    let mut setting = Setting::new(alloc, task)?;
    let Round { number, held, .. } = one_round(rt, alloc, task, extent.times, &mut setting)?;
    let (rounds, operations) = rounds_of(task, extent);
    let nanos = nanos_of_all(rt, alloc, task, extent.times, rounds, &mut setting, number)?;
    let report = TimedReport::One(Figure::of(nanos, operations.saturating_mul(rounds)));
    Some(BenchOutcome {
        report,
        number,
        held,
    })
}
