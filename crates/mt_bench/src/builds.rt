//! Trees that are built at once of their ranges.

use crate::figures::{BenchOutcome, Figure, TimedReport};
use crate::jobs::nanos_since;
use crate::tasks::TimedTask;
use crate::works::{entry_of, first_of};
use mt_base::Range;
use mt_bulk::build;
use mt_io::Gate;
use mt_rows::Rows;
use std::alloc::Global;
use std::rt::Clock;
use std::sync::atomic::{AtomicU64, Ordering};
use std::thread::Threads;
use std::time::Instant;

/// How often a tree is built. The least times are reported.
const BUILDS: u32 = 5;

/// Ranges in order, of 10 indexes each, with 6 to the next.
fn ranges_of(alloc: Global, count: u32) -> Option<Vec<Range>> {
    let mut ranges = Vec::new(alloc);
    for i in 0..count {
        let first = first_of(i);
        let (last, entry) = (first + 9, entry_of(i));
        ranges.push(Range { first, last, entry }).ok()?;
    }
    Some(ranges)
}

/// A gate that holds nobody, and notes how many nanoseconds after its start the first turn was taken, and the last.
#[derive(Drop)]
struct Stopwatch<'a, R> {
    rt: &'a R,
    start: Instant,
    first: AtomicU64,
    last: AtomicU64,
}

impl<'a, R: Clock> Gate for Stopwatch<'a, R> {
    fn turn(&self, _lane: u32, _number: u64) {
        if let Some(nanos) = nanos_since(self.rt, &self.start) {
            self.first.fetch_min(nanos, Ordering::SeqCst);
            self.last.fetch_max(nanos, Ordering::SeqCst);
        }
    }
}

/// The nanoseconds of a build, and of its workers alone, and how many nodes were made.
fn built<R: Threads + Clock + Sync>(
    rt: &R,
    alloc: Global,
    task: TimedTask,
    ranges: &[Range],
) -> Option<(u64, u64, u64)> {
    let watch = Stopwatch {
        rt,
        start: Instant::now(rt).ok()?,
        first: AtomicU64::new(u64::MAX),
        last: AtomicU64::new(0),
    };
    let workers = task.threads.clamp(1, 16);
    let made = build(rt, alloc, task.kind, ranges, workers, &watch);
    let whole = nanos_since(rt, &watch.start)?;
    let rows = made.ok()?.size();
    let first = watch.first.load(Ordering::SeqCst);
    let lanes = watch.last.load(Ordering::SeqCst).saturating_sub(first);
    Some((whole, lanes, rows))
}

/// The times of builds of a tree.
pub fn build_times<R: Threads + Clock + Sync>(
    rt: &R,
    alloc: Global,
    task: TimedTask,
) -> Option<BenchOutcome> {
    let ranges = ranges_of(alloc, task.ranges)?;
    let (mut whole, mut lanes, mut rows) = built(rt, alloc, task, &ranges)?;
    for _ in 1..BUILDS {
        let (once, alone, made) = built(rt, alloc, task, &ranges)?;
        whole = whole.min(once);
        lanes = lanes.min(alone);
        rows = rows.max(made);
    }
    let count = u64::from(task.ranges);
    let report = TimedReport::Built {
        workers: task.threads,
        whole: Figure::of(whole, count),
        lanes: Figure::of(lanes, count),
        rows: Figure::of(rows, count),
    };
    Some(BenchOutcome {
        report,
        number: 1,
        held: 0,
    })
}
