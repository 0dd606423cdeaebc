//! What is found of a transcript.

ghost use Rattle.std.specs.Prelude.{◌≡◌, ◌≤◌, ◌⊎◌, IfOk};
ghost use Rattle.mt_base.specs.Width.{most_rows};
ghost use Rattle.mt_log.specs.LogText.{IsLog};
ghost use Rattle.mt_log.specs.Trees.{IsReadable};
ghost use Rattle.mt_told.specs.Telling.{IsToldBy, TellsNone};
ghost use Rattle.mt_verify.specs.Points.{IsVerdict};
ghost use Rattle.mt_judge.specs.Faults.{KeepsOrder};
ghost use Rattle.mt_judge.specs.Judged.{IsFound, IsJudged, KeepsOrderIn, StopsAt, TellsStop};
ghost use Rattle.mt_judge.specs.Orders.{IsInOrder};

use crate::causes::FoundFault;
use crate::forms::{Part, form_fault, part_told};
use crate::histories::history_fault;
use crate::orders::window_fault;
use crate::tallies::{ReadTally, tally_of};
use mt_base::NoMemory;
use mt_log::Log;
use mt_told::{Account, read_told};
use mt_verify::{Verdict, verify};
use std::alloc::Global;
use std::fmt;

/// Whether a transcript is that of a run of a log, and if not where it is wrong, if that was found.
#[derive(Clone, Copy)]
pub enum Found {
    Verified,
    Refused(Option<FoundFault>),
}

impl fmt::Display for Found {
    ghost use Rattle.std.specs.Prelude.{Some};
    ghost use Rattle.mt_judge.specs.Printed.{found_text};

    ghost output = { λ f. Some (found_text f) };

    fn fmt<W: fmt::Write>(&self, f: &mut fmt::Formatter<W>) -> fmt::Result {
        match self {
            Found::Verified => write!(f, "verified"),
            Found::Refused(Some(fault)) => {
                let FoundFault { line, cause } = *fault;
                write!(f, "refused: line {line}, {cause}")
            }
            Found::Refused(None) => write!(f, "refused"),
        }
    }
}

/// The findings on a transcript, and how much it reports.
#[derive(Clone, Copy)]
pub struct Judgment {
    pub found: Found,
    pub tally: ReadTally,
}

impl Judgment {
    ghost use Rattle.std.specs.Prelude.{◌≡◌};
    ghost use Rattle.mt_judge.specs.Printed.{status_of};

    /// The status that the program ends with.
    pub fn status(&self) -> u8
        ensures { result ≡ status_of self.now.found }
    {
        match self.found {
            Found::Verified => 0,
            Found::Refused(_) => 1,
        }
    }
}

impl fmt::Display for Judgment {
    ghost use Rattle.std.specs.Prelude.{Some};
    ghost use Rattle.mt_judge.specs.Printed.{judgment_text};

    ghost output = { λ j. Some (judgment_text j) };

    fn fmt<W: fmt::Write>(&self, f: &mut fmt::Formatter<W>) -> fmt::Result {
        let Judgment { found, tally } = *self;
        write!(f, "{found}\n{tally}\n")
    }
}

/// Where a transcript that reports all lines of a log is wrong, if that is found.
#[tactic(auto, using(crate::proofs::Beginnings::few_trees))]
fn fault_in(
    alloc: Global,
    log: &Log,
    rows: u64,
    text: &[u8],
    account: &Account,
) -> Result<Option<FoundFault>, NoMemory>
    requires readable { IsReadable log.now.lines }
    requires told { IsToldBy log.now text.now account.now.told.items account.now.rest.now }
    ensures { IfOk result (λ fault. IsInOrder account.now.told.items ⊎ KeepsOrder account.now.told.items fault) }
{
    match window_fault(alloc, &account.told)? {
        Some(fault) => Ok(Some(fault)),
        None => history_fault(alloc, log, rows, account),
    }
}

/// The findings on a text that reports all lines of a log, with this verdict.
fn found_in(
    alloc: Global,
    log: &Log,
    rows: u64,
    text: &[u8],
    account: &Account,
    verdict: &Verdict,
) -> Result<Found, NoMemory>
    requires readable { IsReadable log.now.lines }
    requires told { IsToldBy log.now text.now account.now.told.items account.now.rest.now }
    requires verdict { IsVerdict log.now rows text.now verdict.now }
    ensures found { IfOk result (IsFound log.now rows text.now) }
    ensures order { IfOk result (KeepsOrderIn account.now.told.items) }
{
    match verdict {
        Verdict::Yes { .. } => Ok(Found::Verified),
        Verdict::No => Ok(Found::Refused(fault_in(alloc, log, rows, text, account)?)),
    }
}

/// The findings on a text that stops to report a log, with this verdict.
fn found_behind(log: &Log, rows: u64, text: &[u8], part: &Part, verdict: &Verdict) -> Found
    requires stops { StopsAt log.now text.now part.now.count part.now.account.told.items part.now.account.rest.now }
    requires verdict { IsVerdict log.now rows text.now verdict.now }
    ensures found { IsFound log.now rows text.now result }
    ensures form { TellsStop part.now.account.told.items result }
{
    match verdict {
        Verdict::Yes { .. } => Found::Verified,
        Verdict::No => Found::Refused(Some(form_fault(log, part))),
    }
}

/// The judgment on a text that reports all lines of a log.
#[tactic(auto, using(crate::proofs::Judgments::judged_whole))]
fn judged_whole(
    alloc: Global,
    log: &Log,
    rows: u64,
    text: &[u8],
    account: &Account,
    verdict: &Verdict,
) -> Result<Judgment, NoMemory>
    requires readable { IsReadable log.now.lines }
    requires told { IsToldBy log.now text.now account.now.told.items account.now.rest.now }
    requires verdict { IsVerdict log.now rows text.now verdict.now }
    ensures { IfOk result (IsJudged log.now rows text.now) }
{
    Ok(Judgment {
        found: found_in(alloc, log, rows, text, account, verdict)?,
        tally: tally_of(&account.told),
    })
}

/// The judgment on a text that stops earlier.
#[tactic(auto, using(crate::proofs::Judgments::judged_part))]
fn judged_part(
    alloc: Global,
    log: &Log,
    rows: u64,
    text: &[u8],
    verdict: &Verdict,
) -> Result<Judgment, NoMemory>
    requires readable { IsReadable log.now.lines }
    requires none { TellsNone log.now text.now }
    requires verdict { IsVerdict log.now rows text.now verdict.now }
    ensures { IfOk result (IsJudged log.now rows text.now) }
{
    let part = part_told(alloc, log, text)?;
    Ok(Judgment {
        found: found_behind(log, rows, text, &part, verdict),
        tally: tally_of(&part.account.told),
    })
}

/// The findings on a text: whether it is that of a transcript of a run of a log over trees of `rows` nodes, where it is wrong
/// if it is none, and how much it reports.
///
/// # Errors
///
/// `NoMemory` where memory ran out.
pub fn judge(alloc: Global, log: &Log, rows: u64, text: &[u8]) -> Result<Judgment, NoMemory>
    requires log { IsLog log.now }
    requires readable { IsReadable log.now.lines }
    requires few_rows { 4 ≤ rows }
    requires rows { rows ≤ most_rows }
    ensures { IfOk result (IsJudged log.now rows text.now) }
{
    let verdict = verify(alloc, log, rows, text)?;
    match read_told(alloc, log, text)? {
        Some(account) => judged_whole(alloc, log, rows, text, &account, &verdict),
        None => judged_part(alloc, log, rows, text, &verdict),
    }
}
