//! Threads at work on the numbers of one tree, and what is printed of it.

ghost use Rattle.std.specs.Prelude.{◌≡◌, All, Some};
ghost use Rattle.mt_base.specs.declared.kinds.Kind.TheVariants.{Alloc};
ghost use Rattle.mt_numbers.specs.Calls.{KnowsItsOwn};
ghost use Rattle.mt_numbers.specs.Tallies.{thread_text};
ghost use Rattle.mt_tree.specs.Trees.{opened, pass_in, IsPassOf};

use crate::marks::Marks;
use crate::numbers::Numbers;
use crate::readers::{READS, ReadingThread};
use crate::shared::{Caller, make};
use crate::takers::{Taker, Tally};
use mt_tree::{Pass, Tree};
use std::alloc::{AllocError, Global};
use std::sync::Wait;
use std::thread::Threads;
use std::{fmt, io, thread};

/// So many threads take numbers and give them back.
const TAKERS: u32 = 4;

/// So many others look numbers up and go through those that are taken.
const READERS: u32 = 2;

/// What a thread does.
#[derive(Drop)]
pub enum Task<'a, N: Drop> {
    Take(Taker<N>),
    Read(ReadingThread<'a>),
}

impl<'a, N: Numbers + Drop> Task<'a, N> {
    pub fn take(alloc: Global, numbers: N) -> Result<Self, AllocError> {
        Ok(Task::Take(Taker::new(alloc, numbers)?))
    }

    fn work(&mut self, marks: &Marks) {
        match self {
            Task::Take(taker) => taker.work(marks),
            Task::Read(reader) => reader.work(),
        }
    }
}

impl<'a, N: Drop> Task<'a, N> {
    fn outcome(&self) -> ThreadOutcome {
        match self {
            Task::Take(taker) => ThreadOutcome::Took(taker.tally),
            Task::Read(reader) => ThreadOutcome::Read {
                faults: reader.faults,
            },
        }
    }
}

/// What came of a thread's task.
#[derive(Clone, Copy)]
pub enum ThreadOutcome {
    Took(Tally),
    Read { faults: u32 },
}

impl ThreadOutcome {
    /// How often a number was found held twice.
    fn twice(self) -> u64 {
        match self {
            ThreadOutcome::Took(tally) => tally.clashes.saturating_add(tally.lost),
            ThreadOutcome::Read { .. } => 0,
        }
    }
}

impl fmt::Display for ThreadOutcome {
    ghost output = { λ outcome. Some (thread_text outcome) };

    fn fmt<W: fmt::Write>(&self, f: &mut fmt::Formatter<W>) -> fmt::Result {
        match self {
            ThreadOutcome::Took(tally) => {
                write!(f, "took {} and gave {} back", tally.taken, tally.given_back)
            }
            ThreadOutcome::Read { faults } => {
                write!(f, "read all {READS} times and saw {faults} faults")
            }
        }
    }
}

/// Has each thread do its task, all at once.
pub fn run<R: Threads + Sync, N: Numbers + Drop + Send>(
    rt: &R,
    tasks: &mut [Task<'_, N>],
    marks: &Marks,
) {
    let threads = tasks.len().max(1);
    thread::for_each_mut(rt, tasks, threads, &|_, task| task.work(marks));
}

/// What came of each task.
pub fn outcomes_of<N: Drop>(
    alloc: Global,
    tasks: &[Task<'_, N>],
) -> Result<Vec<ThreadOutcome>, AllocError> {
    let mut outcomes = Vec::new(alloc);
    for task in tasks {
        outcomes.push(task.outcome())?;
    }
    Ok(outcomes)
}

/// The result of the threads' work, and how many numbers are taken at the end.
#[derive(Drop)]
pub struct Report {
    pub outcomes: Vec<ThreadOutcome>,
    pub left: u64,
}

impl fmt::Display for Report {
    fn fmt<W: fmt::Write>(&self, f: &mut fmt::Formatter<W>) -> fmt::Result {
        let mut twice: u64 = 0;
        let mut number: u32 = 0;
        for outcome in &self.outcomes {
            writeln!(f, "thread {number} {outcome}")?;
            twice = twice.saturating_add(outcome.twice());
            number = number.saturating_add(1);
        }
        match twice {
            0 => writeln!(f, "no number was held twice")?,
            _ => writeln!(f, "{twice} times a number was held twice")?,
        }
        writeln!(f, "{} numbers are taken in the end", self.left)
    }
}

/// The tasks of the handles: the first ones take numbers, the others read.
fn tasks_of<'a, R: Wait>(
    alloc: Global,
    rt: &'a R,
    tree: &'a Tree,
    passes: Vec<Pass>,
) -> Result<Vec<Task<'a, Caller<'a, R>>>, AllocError>
    requires of { All (IsPassOf tree.now) passes.items }
    requires own { All (λ p. KnowsItsOwn (pass_in p)) passes.items }
    requires kind { (opened tree.now).kind ≡ Alloc }
{
    let mut tasks = Vec::new(alloc);
    for pass in passes {
        let task = if tasks.len() < TAKERS as usize {
            Task::take(alloc, Caller::new(rt, tree, pass))?
        } else {
            Task::Read(ReadingThread::new(tree, pass))
        };
        tasks.push(task)?;
    }
    Ok(tasks)
}

/// Has the threads at work on one tree, and prints what came of it.
pub fn at_work<R: Threads + Wait + Print + Sync>(rt: &R, alloc: Global) -> io::Result<()> {
    let (tree, mut passes) = make(alloc, TAKERS + READERS + 1)?;
    let marks = Marks::new(alloc)?;
    let Some(mut last) = passes.pop() else {
        return Ok(());
    };
    let mut tasks = tasks_of(alloc, rt, &tree, passes)?;
    run(rt, tasks.as_mut_slice(), &marks);
    let outcomes = outcomes_of(alloc, tasks.as_slice())?;
    let (form, _look) = tree.check(rt, &mut last);
    let left = form.ranges;
    print!(rt; "{}", Report { outcomes, left })
}
