//! How much a transcript reports, and how much of it says something of threads.

ghost use Rattle.std.specs.Prelude.{◌≡◌};
ghost use Rattle.mt_verify.specs.ToldReads.{is_got, is_wrote};
ghost use Rattle.mt_judge.specs.Judged.{how_many, is_overlapped, tally_of};

use mt_told::{ToldLine, What};
use std::fmt;

/// How many calls and how many reads a transcript reports, and how many of the reads met a call on their tree: their windows
/// are wider than one number of calls.
#[derive(Clone, Copy)]
pub struct ReadTally {
    pub calls: u64,
    pub reads: u64,
    pub overlapped: u64,
}

impl fmt::Display for ReadTally {
    ghost use Rattle.std.specs.Prelude.{Some};
    ghost use Rattle.mt_judge.specs.Printed.{counts_text};

    ghost output = { λ t. Some (counts_text t) };

    fn fmt<W: fmt::Write>(&self, f: &mut fmt::Formatter<W>) -> fmt::Result {
        let ReadTally {
            calls,
            reads,
            overlapped,
        } = *self;
        write!(f, "calls {calls} reads {reads} overlapped {overlapped}")
    }
}

/// Whether a line reports a call.
fn is_call(told: &ToldLine) -> bool
    ensures { result ≡ is_wrote told.now.what }
{
    matches!(told.what, What::Wrote { .. })
}

/// Whether it reports a read.
fn is_read(told: &ToldLine) -> bool
    ensures { result ≡ is_got told.now.what }
{
    matches!(told.what, What::Got { .. })
}

/// Whether it reports a read that met a call.
fn overlaps(told: &ToldLine) -> bool
    ensures { result ≡ is_overlapped told.now.what }
{
    match told.what {
        What::Got { lo, hi, .. } => lo < hi,
        What::Wrote { .. } | What::Copied { .. } | What::Lawful { .. } => false,
    }
}

/// How many of these lines report a call.
fn count_calls(told: &[ToldLine]) -> u64
    ensures { result ≡ how_many is_wrote told.now }
{
    told.iter().filter(|one| is_call(one)).count() as u64
}

/// How many report a read.
fn count_reads(told: &[ToldLine]) -> u64
    ensures { result ≡ how_many is_got told.now }
{
    told.iter().filter(|one| is_read(one)).count() as u64
}

/// How many report a read that met a call.
fn count_overlapped(told: &[ToldLine]) -> u64
    ensures { result ≡ how_many is_overlapped told.now }
{
    told.iter().filter(|one| overlaps(one)).count() as u64
}

/// How much these lines report.
pub fn tally_of(told: &[ToldLine]) -> ReadTally
    ensures { result ≡ tally_of told.now }
{
    ReadTally {
        calls: count_calls(told),
        reads: count_reads(told),
        overlapped: count_overlapped(told),
    }
}
