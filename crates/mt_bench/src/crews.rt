//! Threads at work on one shared tree, or on four of them.

use crate::callers::TimedCaller;
use crate::draws::DrawnIndexes;
use crate::figures::{BenchOutcome, Figure, TimedReport};
use crate::jobs::{Setting, nanos_since};
use crate::tasks::{Bench, Job};
use crate::trees::TimedTree;
use crate::works::{entry_of, erase, first_of, load, store, store_all};
use mt_base::MOST_ROWS;
use std::alloc::Global;
use std::rt::Clock;
use std::sync::Wait;
use std::sync::atomic::{AtomicU64, Ordering};
use std::thread;
use std::thread::Threads;
use std::time::Instant;

/// So many trees are there for lanes, whatever the number of threads.
const TREES: u64 = 4;

/// A thread's work on a tree. It loads, or where ranges are said to be stored or not, it erases and stores these.
#[derive(Drop)]
struct Worker<T> {
    tree: T,
    ranges: u32,
    stored: Vec<bool>,
    seed: u64,
    times: u64,
    /// The sum of what was loaded, or how often it wrote.
    done: u64,
}

/// Erases a range where it is stored, and else stores it; whether that was done.
fn toggle(tree: &mut impl TimedTree, i: u32, stored: &mut bool) -> bool {
    let done = if *stored {
        erase(tree, i)
    } else {
        store(tree, i, entry_of(i))
    };
    *stored ^= done;
    done
}

/// Does so with ranges that are drawn, `times` times or until no reader is at work, and returns how often.
fn toggle_all(
    tree: &mut impl TimedTree,
    stored: &mut [bool],
    seed: u64,
    times: u64,
    at_work: &AtomicU64,
) -> u64 {
    let ranges = u32::try_from(stored.len()).unwrap_or(u32::MAX);
    let mut draws = DrawnIndexes::new(seed);
    let mut writes: u64 = 0;
    for _ in 0..times {
        if at_work.load(Ordering::SeqCst) == 0 {
            break;
        }
        let i = draws.below(ranges);
        if let Some(stored) = stored.get_mut(i as usize) {
            writes = writes.wrapping_add(u64::from(toggle(tree, i, stored)));
        }
    }
    writes
}

/// The sum of what a tree holds on which these ranges are stored.
fn sum_of(stored: &[bool]) -> u64 {
    let mut sum: u64 = 0;
    let mut i: u32 = 0;
    for is_stored in stored {
        if *is_stored {
            sum = sum.wrapping_add(first_of(i)).wrapping_add(entry_of(i));
        }
        i = i.saturating_add(1);
    }
    sum
}

impl<T: TimedTree + Drop> Worker<T> {
    /// A worker that loads, or that writes if the tree has all of these ranges.
    fn new(
        alloc: Global,
        tree: T,
        ranges: u32,
        writes: bool,
        seed: u64,
        times: u64,
    ) -> Option<Self> {
        let count = if writes { ranges } else { 0 };
        let stored = vec![in alloc; true; count as usize].ok()?;
        let done = 0;
        Some(Worker {
            tree,
            ranges,
            stored,
            seed,
            times,
            done,
        })
    }

    /// Does its work. A reader says then that it is no longer at it.
    fn work(&mut self, at_work: &AtomicU64) {
        if self.stored.is_empty() {
            self.done = load(&mut self.tree, self.ranges, self.times, self.seed);
            at_work.fetch_sub(1, Ordering::SeqCst);
        } else {
            self.done = toggle_all(
                &mut self.tree,
                &mut self.stored,
                self.seed,
                self.times,
                at_work,
            );
        }
    }

    /// The sum of what was loaded, or else of what the tree holds, where that is as it is to be, and how often it wrote.
    fn sum(&mut self) -> Option<(u64, u64)> {
        if self.stored.is_empty() {
            return Some((self.done, 0));
        }
        let held = self.tree.visit().sum;
        (held == sum_of(&self.stored)).then_some((held, self.done))
    }
}

/// The workers on one tree with all ranges: the writer first, where there is one, and then the readers.
fn crew<'a, R: Wait>(
    bench: &Bench<'a, R>,
    order: &[u32],
) -> Option<Vec<Worker<TimedCaller<'a, R>>>> {
    let (alloc, task) = (bench.alloc, bench.task);
    let writers = u32::from(matches!(task.job, Job::Conc));
    let threads = task.threads.saturating_add(writers);
    let mut callers = TimedCaller::all(bench.rt, alloc, task.kind, MOST_ROWS, threads)?;
    if !store_all(callers.first_mut()?, order) {
        return None;
    }
    let mut workers = Vec::new(alloc);
    let mut seed = 100 - u64::from(writers);
    for tree in callers {
        let worker = if seed < 100 {
            Worker::new(alloc, tree, task.ranges, true, 9, u64::MAX)?
        } else {
            Worker::new(alloc, tree, task.ranges, false, seed, bench.extent.loads)?
        };
        workers.push(worker).ok()?;
        seed = seed.saturating_add(1);
    }
    Some(workers)
}

/// The workers of lanes, each on a tree of its own with all ranges.
fn lanes<'a, R: Wait>(
    bench: &Bench<'a, R>,
    order: &[u32],
) -> Option<Vec<Worker<TimedCaller<'a, R>>>> {
    let (alloc, ranges, calls) = (bench.alloc, bench.task.ranges, bench.extent.calls);
    let mut workers = Vec::new(alloc);
    for number in 0..TREES {
        let mut callers = TimedCaller::all(bench.rt, alloc, bench.task.kind, MOST_ROWS, 1)?;
        let mut tree = callers.pop()?;
        if !store_all(&mut tree, order) {
            return None;
        }
        let worker = Worker::new(alloc, tree, ranges, true, 200 + number, calls)?;
        workers.push(worker).ok()?;
    }
    Some(workers)
}

/// Has all at work at once, in as many threads, and returns the nanoseconds until all are done.
fn at_once<R: Threads + Clock + Sync, T: TimedTree + Drop + Send>(
    rt: &R,
    workers: &mut [Worker<T>],
    threads: usize,
    readers: u32,
) -> Option<u64> {
    let at_work = AtomicU64::new(u64::from(readers));
    let start = Instant::now(rt).ok()?;
    thread::for_each_mut(
        rt,
        workers,
        threads.max(1),
        &|_, worker| worker.work(&at_work),
    );
    nanos_since(rt, &start)
}

/// The sums of all, and how often they wrote.
fn sums_of<T: TimedTree + Drop>(workers: &mut [Worker<T>]) -> Option<(u64, u64)> {
    let mut all: u64 = 0;
    let mut writes: u64 = 0;
    for worker in workers {
        let (sum, done) = worker.sum()?;
        all = all.wrapping_add(sum);
        writes = writes.saturating_add(done);
    }
    Some((all, writes))
}

/// The results of readers on one tree, beside a thread that writes if the job has one.
pub fn together<R: Threads + Wait + Clock + Sync>(bench: &Bench<'_, R>) -> Option<BenchOutcome> {
    let setting = Setting::new(bench.alloc, bench.task)?;
    let mut workers = crew(bench, &setting.rand)?;
    let threads = workers.len();
    let readers = bench.task.threads;
    let nanos = at_once(bench.rt, &mut workers, threads, readers)?;
    let (sum, writes) = sums_of(&mut workers)?;
    let loads = bench.extent.loads.saturating_mul(u64::from(readers));
    let reads = Figure::of(loads.saturating_mul(1000), nanos);
    let report = TimedReport::Rates {
        readers,
        reads,
        writes: Figure::of(writes.saturating_mul(1000), nanos),
    };
    let number = if matches!(bench.task.job, Job::Conc) {
        1
    } else {
        sum
    };
    Some(BenchOutcome {
        report,
        number,
        held: 0,
    })
}

/// The results of calls on four trees, each at work in one of the threads.
pub fn apart<R: Threads + Wait + Clock + Sync>(bench: &Bench<'_, R>) -> Option<BenchOutcome> {
    let setting = Setting::new(bench.alloc, bench.task)?;
    let mut workers = lanes(bench, &setting.rand)?;
    let threads = bench.task.threads;
    let nanos = at_once(bench.rt, &mut workers, threads as usize, 1)?;
    let (held, number) = sums_of(&mut workers)?;
    let report = TimedReport::Whole {
        threads,
        ms: Figure::of(nanos, 1_000_000),
    };
    Some(BenchOutcome {
        report,
        number,
        held,
    })
}
