//! What goes over all nodes of a shared tree.

use crate::callers::TimedCaller;
use crate::figures::{BenchOutcome, Figure, TimedReport};
use crate::jobs::{Setting, nanos_since};
use crate::tasks::{Bench, Job};
use crate::trees::TimedTree;
use crate::works::store_all;
use mt_base::MOST_ROWS;
use mt_image::read_image;
use mt_rows::PlainRows;
use std::alloc::Global;
use std::rt::Clock;
use std::sync::Wait;
use std::time::Instant;

/// What a job makes of a tree.
#[derive(Drop)]
enum Made {
    Nothing,
    Copy(mt_tree::Tree),
    Image(Vec<u8>),
    Rows(PlainRows),
}

/// Does a job once on a tree that has `rows` nodes in use, and of which this is an image. A copy has a fifth more nodes than
/// that, or as many as a tree may have.
fn made_of<R: Wait>(
    caller: &mut TimedCaller<'_, R>,
    alloc: Global,
    job: Job,
    used: u64,
    image: &[u8],
) -> Option<Made> {
    Some(match job {
        Job::Dup => Made::Copy(caller.dup(
            alloc,
            used.saturating_add(used / 5).clamp(4, MOST_ROWS),
        )?),
        Job::DupMost => Made::Copy(caller.dup(alloc, MOST_ROWS)?),
        Job::Image => Made::Image(caller.image(alloc)?),
        Job::Read => Made::Rows(read_image(alloc, image).ok()?.1),
        _ => {
            caller.check();
            Made::Nothing
        }
    })
}

/// The nanoseconds in which a job is done so often, without those in which what it made is given back.
fn nanos_of_all<R: Wait + Clock>(
    rt: &R,
    caller: &mut TimedCaller<'_, R>,
    alloc: Global,
    job: Job,
    used: u64,
    rounds: u64,
) -> Option<u64> {
    let image = caller.image(alloc)?;
    let mut nanos: u64 = 0;
    for _ in 0..rounds {
        let start = Instant::now(rt).ok()?;
        let _made = made_of(caller, alloc, job, used, &image)?;
        nanos = nanos.saturating_add(nanos_since(rt, &start)?);
    }
    Some(nanos)
}

/// The result of a job on a tree with all ranges, stored in random order unless the nodes of the other order are counted.
pub fn swept<R: Wait + Clock>(bench: &Bench<'_, R>) -> Option<BenchOutcome> {
    let (rt, alloc, task) = (bench.rt, bench.alloc, bench.task);
    let setting = Setting::new(alloc, task)?;
    let mut callers = TimedCaller::all(rt, alloc, task.kind, MOST_ROWS, 1)?;
    let caller = callers.first_mut()?;
    let stored = match task.job {
        Job::NodesSeq => store_all(caller, &setting.seq),
        _ => store_all(caller, &setting.rand),
    };
    if !stored {
        return None;
    }
    let form = caller.check();
    let figure = match task.job {
        Job::NodesSeq | Job::NodesRand => Figure::of(form.rows, u64::from(task.ranges)),
        job => {
            let nanos = nanos_of_all(rt, caller, alloc, job, form.rows, bench.extent.rounds)?;
            Figure::of(nanos, bench.extent.rounds)
        }
    };
    Some(BenchOutcome {
        report: TimedReport::One(figure),
        number: form.ranges,
        held: caller.visit().sum,
    })
}
