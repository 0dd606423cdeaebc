ghost use Rattle.std.specs.Prelude.{◌≡◌, length, sum_by};
ghost use Rattle.mt_workload.specs.Summary.{counted, told};

use mt_base::Reply;
use mt_log::{Answer, Entry, Listing, Said, Transcript};
use std::fmt;

/// The result of a run: how often each word was returned, and how many ranges there are at the end.
#[derive(Clone, Copy)]
pub struct Summary {
    pub steps: u32,
    pub ok: u64,
    pub start: u64,
    pub was: u64,
    pub none: u64,
    pub exists: u64,
    pub invalid: u64,
    pub busy: u64,
    pub nomem: u64,
    pub entry: u64,
    pub range: u64,
    /// A sum of lengths.
    pub ranges: u128,
}

impl fmt::Display for Summary {
    ghost use Rattle.std.specs.Prelude.{Some};
    ghost use Rattle.mt_workload.specs.Summary.{summary_text};

    ghost output = { λ s. Some (summary_text s) };

    fn fmt<W: fmt::Write>(&self, f: &mut fmt::Formatter<W>) -> fmt::Result {
        write!(
            f,
            "trial {} ok {} start {} was {} none {} exists {} invalid {} busy {} nomem {} entry {} range {} ranges {}",
            self.steps,
            self.ok,
            self.start,
            self.was,
            self.none,
            self.exists,
            self.invalid,
            self.busy,
            self.nomem,
            self.entry,
            self.range,
            self.ranges
        )
    }
}

impl Summary {
    ghost use Rattle.std.specs.Prelude.{◌≡◌, ◌-◌, ◌^◌, []};
    ghost use Rattle.mt_workload.specs.Counting.{AreBelow, with_one_counted};
    ghost use Rattle.mt_workload.specs.Summary.{answer_word, reply_word, said_word, told};

    /// That of no entries.
    fn new(steps: u32) -> Self
        ensures { result ≡ told steps [] }
    {
        Summary {
            steps,
            ok: 0,
            start: 0,
            was: 0,
            none: 0,
            exists: 0,
            invalid: 0,
            busy: 0,
            nomem: 0,
            entry: 0,
            range: 0,
            ranges: 0,
        }
    }

    fn add_reply(&mut self, reply: &Reply)
        requires { AreBelow (2 ^ 64 - 1) self.old }
        ensures { self.new ≡ with_one_counted (reply_word reply.now) self.old }
    {
        match reply {
            Reply::Ok | Reply::Over(_) => self.ok += 1,
            Reply::Start(_) => self.start += 1,
            Reply::Was(_) => self.was += 1,
            Reply::None => self.none += 1,
            Reply::Exists => self.exists += 1,
            Reply::Invalid => self.invalid += 1,
            Reply::Busy => self.busy += 1,
            Reply::NoNodes(_) => self.nomem += 1,
        }
    }

    fn add_answer(&mut self, answer: &Answer)
        requires { AreBelow (2 ^ 64 - 1) self.old }
        ensures { self.new ≡ with_one_counted (answer_word answer.now) self.old }
    {
        match answer {
            Answer::None => self.none += 1,
            Answer::Entry(_) => self.entry += 1,
            Answer::Range(_) => self.range += 1,
        }
    }

    /// Counts one more entry.
    fn add(&mut self, said: &Said)
        requires { AreBelow (2 ^ 64 - 1) self.old }
        ensures { self.new ≡ with_one_counted (said_word said.now) self.old }
    {
        match said {
            Said::Wrote { reply, .. } => self.add_reply(reply),
            Said::Got { value, .. } => self.add_answer(value),
            Said::Lawful { .. } | Said::Copied { .. } => {}
        }
    }
}

/// How many ranges these trees have.
fn ranges_of(lists: &[Listing]) -> u128
    ensures { result ≡ sum_by (λ l. length l.ranges) lists.now }
{
    let mut total = 0;
    for listing in lists {
        total += listing.ranges.as_slice().len() as u128;
    }
    total
}

/// The summary of these entries of a log with `steps` steps.
#[tactic(auto, using(crate::proofs::Counted::few_told, crate::proofs::Counted::told_more))]
fn told(steps: u32, entries: &[Entry]) -> Summary
    ensures { result ≡ told steps entries.now }
{
    let mut summary = Summary::new(steps);
    for entry in entries {
        summary.add(&entry.said);
    }
    summary
}

/// The summary of a transcript of a log with `steps` steps.
pub fn summarise(steps: u32, transcript: &Transcript) -> Summary
    ensures { result ≡ counted steps transcript.now }
{
    Summary {
        ranges: ranges_of(transcript.lists.as_slice()),
        ..told(steps, transcript.entries.as_slice())
    }
}
