//! Times works on a tree of N ranges. `mt_bench WORK N` prints `WORK N NANOSECONDS`, the time of one operation on one thread.
//! For `rnodes_seq` and its like it is how many nodes the tree has for each range. The first letter of a work is the kind of
//! the tree: `r` for ranges, `a` for allocation, and `n` before either for narrow nodes. The tree is the engine's. With `t`
//! before the kind it is the one that threads share, and a pass (handle) makes each call. Nodes are counted of such a tree too,
//! and checks, copies and images are of one: `rcheck`, `rdup` and `rdup_most`, `rimage` and `rread`.
//!
//! `mt_bench rreaders N READERS` has READERS threads load from one shared tree at once, 4,000,000 times each. It prints how
//! many million loads a second there were. `rconc` does too, and prints how many million writes, beside one thread that writes
//! until all loads are done.
//!
//! `mt_bench rlanes N LANES` makes 100,000 calls on each of four shared trees, in LANES threads, and prints the milliseconds of
//! them all.
//!
//! `mt_bench rbuild N WORKERS` bulk-builds a tree from its ranges by WORKERS workers. It prints the nanoseconds for each range,
//! of it all and of the workers alone, and how many nodes there are for each range.
//!
//! `mt_bench sums` times nothing. For each line of its input it does the works of its words in few rounds, and prints their
//! check sums, or that they are no works.
#![tactic(auto)]

mod builds;
mod callers;
mod crews;
mod draws;
mod figures;
mod jobs;
mod sweeps;
mod tasks;
mod trees;
mod works;

use crate::builds::build_times;
use crate::crews::{apart, together};
use crate::figures::BenchOutcome;
use crate::jobs::alone;
use crate::sweeps::swept;
use crate::tasks::{Bench, Job, MapSize, TimedTask, task_of};
use std::alloc::{AllocError, Global};
use std::process::ExitCode;
use std::rt::{Clock, Env};
use std::sync::Wait;
use std::thread::Threads;
use std::{env, io};

/// What is written where the words are no command.
const USAGE: &str =
    "usage: mt_bench [t][n][ra]{load,load_many,iter,step_many,store_seq,store_rand,overwrite,wide,erase} N, \
    [t][n]a{alloc,ralloc,holes,churn} N, [n][ra]{nodes_seq,nodes_rand,check,dup,dup_most,image,read} N, \
    [n][ra]{readers,conc} N READERS, [n][ra]lanes N LANES, [n][ra]build N WORKERS, sums";

/// The time and the check sum of a task, or none if a call was not done.
fn outcome_of<R: Threads + Wait + Clock + Sync>(
    rt: &R,
    alloc: Global,
    task: TimedTask,
    extent: MapSize,
) -> Option<BenchOutcome> {
    let bench = Bench {
        rt,
        alloc,
        task,
        extent,
    };
    match task.job {
        Job::Readers | Job::Conc => together(&bench),
        Job::Lanes => apart(&bench),
        Job::Build => build_times(rt, alloc, task),
        Job::NodesSeq
        | Job::NodesRand
        | Job::Check
        | Job::Dup
        | Job::DupMost
        | Job::Image
        | Job::Read => swept(&bench),
        _ => alone(&bench),
    }
}

/// How much is done where a task is timed.
fn timed(ranges: u32) -> MapSize {
    MapSize {
        times: 1_000_000,
        rounds: u64::from((100_000 / ranges.max(1)).max(1)),
        loads: 4_000_000,
        calls: 100_000,
    }
}

/// How much is done where it is not.
fn untimed(ranges: u32) -> MapSize {
    let times = u64::from(ranges).saturating_mul(10);
    MapSize {
        times,
        rounds: 0,
        loads: times,
        calls: times,
    }
}

/// The words of a line.
fn words_in(alloc: Global, line: &str) -> Result<Vec<String>, AllocError> {
    let mut words = Vec::new(alloc);
    for word in line.split(' ') {
        words.push(String::from_str(alloc, word)?)?;
    }
    Ok(words)
}

/// Prints the check sum of the task of a line.
fn print_sums<R: Threads + Wait + Clock + Print + Sync>(
    rt: &R,
    alloc: Global,
    line: &str,
) -> io::Result<()> {
    let words = words_in(alloc, line)?;
    let Some(task) = task_of(&words) else {
        return println!(rt; "{line} is none");
    };
    match outcome_of(rt, alloc, task, untimed(task.ranges)) {
        Some(BenchOutcome { number, held, .. }) => println!(rt;
            "{line} number {number} held {held}"
        ),
        None => println!(rt; "{line} was not done"),
    }
}

/// Prints the check sum of the task of each line of the input.
fn print_all_sums<R: Threads + Wait + Clock + Input + Print + Sync>(
    rt: &R,
    alloc: Global,
) -> io::Result<()> {
    for line in rt.lines(alloc) {
        print_sums(rt, alloc, line?.as_str())?;
    }
    Ok(())
}

/// Prints what a task takes, after its word, if it was done. Returns whether it was.
fn print_time<R: Threads + Wait + Clock + Print + Sync>(
    rt: &R,
    alloc: Global,
    word: &str,
    task: TimedTask,
) -> io::Result<bool> {
    let ranges = task.ranges;
    match outcome_of(rt, alloc, task, timed(ranges)) {
        Some(BenchOutcome { report, number, .. }) if number > 0 => {
            println!(rt; "{word} {ranges} {report}")?;
            Ok(true)
        }
        _ => Ok(false),
    }
}

fn main(rt: HostRuntime) -> io::Result<ExitCode> {
    let words: Vec<String> = env::args(&rt)?.skip(1).collect(rt.alloc())?;
    let word = words.first().map_or("", |word| word.as_str());
    if word == "sums" {
        print_all_sums(&rt, rt.alloc())?;
        return Ok(ExitCode::from(0));
    }
    let Some(task) = task_of(&words) else {
        eprintln!(rt; "{USAGE}")?;
        return Ok(ExitCode::from(2));
    };
    if print_time(&rt, rt.alloc(), word, task)? {
        return Ok(ExitCode::from(0));
    }
    eprintln!(rt; "mt_bench: a call was not done")?;
    Ok(ExitCode::from(1))
}
