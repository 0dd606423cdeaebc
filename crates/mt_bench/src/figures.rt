//! What is reported of a task.

use std::fmt;

/// A number with four decimals, in ten-thousandths.
#[derive(Clone, Copy)]
pub struct Figure(pub u64);

impl Figure {
    /// This many, shared out among that many.
    pub fn of(all: u64, among: u64) -> Self {
        Figure(all.saturating_mul(10_000) / among.max(1))
    }
}

impl fmt::Display for Figure {
    fn fmt<W: fmt::Write>(&self, f: &mut fmt::Formatter<W>) -> fmt::Result {
        write!(f, "{}.{:04}", self.0 / 10_000, self.0 % 10_000)
    }
}

/// What a task took, with the number of threads if several did it.
#[derive(Clone, Copy)]
pub enum TimedReport {
    /// Nanoseconds of an operation, or the nodes for a range.
    One(Figure),
    /// Millions of loads a second of all readers together, and of writes.
    Rates {
        readers: u32,
        reads: Figure,
        writes: Figure,
    },
    /// Milliseconds from the first thread's start to the last one's end.
    Whole {
        threads: u32,
        ms: Figure,
    },
    /// Nanoseconds of a build for each range, and of its workers alone, and nodes for each range.
    Built {
        workers: u32,
        whole: Figure,
        lanes: Figure,
        rows: Figure,
    },
}

impl fmt::Display for TimedReport {
    fn fmt<W: fmt::Write>(&self, f: &mut fmt::Formatter<W>) -> fmt::Result {
        match self {
            TimedReport::One(figure) => write!(f, "{figure}"),
            TimedReport::Rates {
                readers,
                reads,
                writes,
            } => {
                write!(
                    f,
                    "readers {readers} reads_mops {reads} writes_mops {writes}"
                )
            }
            TimedReport::Whole { threads, ms } => write!(f, "lanes {threads} ms {ms}"),
            TimedReport::Built {
                workers,
                whole,
                lanes,
                rows,
            } => {
                write!(
                    f,
                    "workers {workers} ns {whole} lanes_ns {lanes} rows {rows}"
                )
            }
        }
    }
}

/// What a task took, and its check sum: a number that is the same each time, and the sum of what its trees then hold.
#[derive(Clone, Copy)]
pub struct BenchOutcome {
    pub report: TimedReport,
    pub number: u64,
    pub held: u64,
}
