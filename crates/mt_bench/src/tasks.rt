//! What words ask for.

use mt_base::Kind;
use std::alloc::Global;

/// What is done.
#[derive(Clone, Copy)]
pub enum Job {
    StoreSeq,
    StoreRand,
    Overwrite,
    Wide,
    Load,
    LoadMany,
    Iter,
    StepMany,
    Erase,
    Alloc,
    Ralloc,
    Holes,
    Churn,
    NodesSeq,
    NodesRand,
    Check,
    Dup,
    DupMost,
    Image,
    Read,
    Readers,
    Conc,
    Lanes,
    Build,
}

/// The jobs, by their words.
const JOBS: &[(&str, Job)] = &[
    ("store_seq", Job::StoreSeq),
    ("store_rand", Job::StoreRand),
    ("overwrite", Job::Overwrite),
    ("wide", Job::Wide),
    ("load", Job::Load),
    ("load_many", Job::LoadMany),
    ("iter", Job::Iter),
    ("step_many", Job::StepMany),
    ("erase", Job::Erase),
    ("alloc", Job::Alloc),
    ("ralloc", Job::Ralloc),
    ("holes", Job::Holes),
    ("churn", Job::Churn),
    ("nodes_seq", Job::NodesSeq),
    ("nodes_rand", Job::NodesRand),
    ("check", Job::Check),
    ("dup", Job::Dup),
    ("dup_most", Job::DupMost),
    ("image", Job::Image),
    ("read", Job::Read),
    ("readers", Job::Readers),
    ("conc", Job::Conc),
    ("lanes", Job::Lanes),
    ("build", Job::Build),
];

/// The kinds of trees, by their letters.
const KINDS: &[(&str, Kind)] = &[
    ("r", Kind::Range),
    ("a", Kind::Alloc),
    ("nr", Kind::Range32),
    ("na", Kind::Alloc32),
];

/// A job on a tree of this kind, which is the engine's or one that threads share, with this many ranges, and with this many
/// threads if several do it.
#[derive(Clone, Copy)]
pub struct TimedTask {
    pub shared: bool,
    pub kind: Kind,
    pub job: Job,
    pub ranges: u32,
    pub threads: u32,
}

/// How much is done.
#[derive(Clone, Copy)]
pub struct MapSize {
    /// Jobs that do not change the number of ranges are done so often.
    pub times: u64,
    /// How often all others are done, after a first round that is not timed.
    pub rounds: u64,
    /// Each reader loads so often.
    pub loads: u64,
    /// Each of the trees of lanes is called so often.
    pub calls: u64,
}

/// A task at hand: by whom its threads run and time is told, its memory, and how much is done.
#[derive(Drop)]
pub struct Bench<'a, R> {
    pub rt: &'a R,
    pub alloc: Global,
    pub task: TimedTask,
    pub extent: MapSize,
}

/// The job of a word.
fn job_of(jobs: &[(&str, Job)], word: &str) -> Option<Job> {
    for (name, job) in jobs {
        if *name == word {
            return Some(*job);
        }
    }
    None
}

/// The kind and the job of a word that begins with the letters of a kind.
fn work_of(kinds: &[(&str, Kind)], word: &str) -> Option<(Kind, Job)> {
    for (letters, kind) in kinds {
        if let Some(rest) = word.strip_prefix(*letters) {
            return Some((*kind, job_of(JOBS, rest)?));
        }
    }
    None
}

/// The task of a word; `t` before it means a shared tree.
fn task_in(word: &str, ranges: &str, threads: &str) -> Option<TimedTask> {
    let (shared, work) = match word.strip_prefix("t") {
        Some(rest) => (true, rest),
        None => (false, word),
    };
    let (kind, job) = work_of(KINDS, work)?;
    let ranges = ranges.parse().ok()?;
    let threads = threads.parse().ok()?;
    Some(TimedTask {
        shared,
        kind,
        job,
        ranges,
        threads,
    })
}

/// The task that the words are: what is done, on how many ranges, and by how many threads where several do it.
pub fn task_of(words: &[String]) -> Option<TimedTask> {
    match words {
        [word, ranges] => task_in(word.as_str(), ranges.as_str(), "1"),
        [word, ranges, threads] => task_in(word.as_str(), ranges.as_str(), threads.as_str()),
        _ => None,
    }
}
