//! Whether a text is that of a transcript of a run of a log.

ghost use Rattle.std.specs.Prelude.{◌≡◌, ◌+◌, ◌≤◌, ◌<◌, ◌^◌, ℕ, List, [], Some, All, AllPairs, IfNone, IfOk, IfSome, filter, length, slice_get};
ghost use Rattle.mt_base.specs.Width.{most_rows};
ghost use Rattle.mt_base.specs.History.{History};
ghost use Rattle.mt_log.specs.LogText.{IsLog};
ghost use Rattle.mt_log.specs.Run.{IsRunBy, Step};
ghost use Rattle.mt_log.specs.declared.transcripts.Transcript.{Transcript};
ghost use Rattle.mt_log.specs.Trees.{IsReadable, trees_of};
ghost use Rattle.mt_told.specs.Telling.{IsSmall, IsToldBy};
ghost use Rattle.mt_verify.specs.AllGone.{HaveGoneTo, NoneIsTold};
ghost use Rattle.mt_verify.specs.ToldReads.{is_wrote};
ghost use Rattle.mt_verify.specs.Heard.{AreReaders};
ghost use Rattle.mt_verify.specs.Points.{IsVerdict};
ghost use Rattle.mt_verify.specs.PrintedOrder.{InPrintedOrder, EndsInTree};
ghost use Rattle.mt_verify.specs.Verifying.{IsOfLog};

use crate::declared::{Declared, trees_of};
use crate::gone::{Gone, Rules, go_tree};
use crate::heard::{Readers, readers_of};
use crate::merged::points_of;
use crate::openings::opening_of;
use crate::verdicts::Verdict;
use crate::windows::{windows_end, windows_keep};
use mt_base::NoMemory;
use mt_list::Ranges;
use mt_log::{ListOf, Log};
use mt_told::{Account, listing_in_front, read_told};
use std::alloc::Global;

/// No memory holds a map of this many ranges, or this many lines.
const MOST_RANGES: u64 = 1 << 62;

const MOST_LINES: usize = 1 << 57;

/// Goes through the next declared tree, and then through its listing. Returns the text after that. Nothing if no run has these
/// lines.
fn next_tree<'t>(
    alloc: Global,
    log: &Log,
    rows: u64,
    account: &Account<'t>,
    readers: &Readers,
    declared: &Declared,
    gone: &mut Vec<Gone<'t>>,
    rest: &'t [u8],
) -> Result<Option<&'t [u8]>, NoMemory>
    requires case { IsOfLog log.now rows account.now.told.items }
    requires readers { AreReaders readers.now account.now.told.items }
    requires gone { HaveGoneTo log.now rows account.now.told.items account.now.rest.now gone.old.items rest.now }
    requires next { slice_get (trees_of log.now.lines) (length gone.old.items) ≡ Some declared.now }
    ensures count { IfOk result (λ found. IfSome found (λ left. length gone.new.items ≡ length gone.old.items + 1)) }
    ensures some { IfOk result (λ found. IfSome found (λ left. HaveGoneTo log.now rows account.now.told.items account.now.rest.now gone.new.items left.now)) }
    ensures none { IfOk result (λ found. IfNone found (NoneIsTold log.now rows account.now.told.items account.now.rest.now)) }
{
    let tree = gone.len() as u32;
    let told = &account.told;
    let rules = Rules {
        version: log.version,
        rows,
    };
    let mut map = opening_of(alloc, declared, told, gone)?;
    if map.count() >= MOST_RANGES {
        return Err(NoMemory);
    }
    let Some(one) = go_tree(alloc, rules, told, readers, tree, declared.kind, &mut map)? else {
        return Ok(None);
    };
    let ranges = map.list(alloc)?;
    let Some(left) = listing_in_front(rest, &declared.name, declared.kind, &ranges) else {
        return Ok(None);
    };
    gone.push(one)?;
    Ok(Some(left))
}

/// Goes through the trees of a log, one after another, and through their listings. Nothing if no run has these lines.
fn go_all<'t>(
    alloc: Global,
    log: &Log,
    rows: u64,
    account: &Account<'t>,
    trees: &[Declared],
) -> Result<Option<Vec<Gone<'t>>>, NoMemory>
    requires case { IsOfLog log.now rows account.now.told.items }
    requires trees { trees.now ≡ trees_of log.now.lines }
    ensures count { IfOk result (λ found. IfSome found (λ gone. length gone.items ≡ length trees.now)) }
    ensures some { IfOk result (λ found. IfSome found (λ gone. HaveGoneTo log.now rows account.now.told.items account.now.rest.now gone.items [])) }
    ensures none { IfOk result (λ found. IfNone found (NoneIsTold log.now rows account.now.told.items account.now.rest.now)) }
{
    let readers = readers_of(&account.told);
    let mut gone = Vec::new(alloc);
    let mut rest = account.rest;
    for declared in trees {
        let Some(left) = next_tree(
            alloc, log, rows, account, &readers, declared, &mut gone, rest,
        )?
        else {
            return Ok(None);
        };
        rest = left;
    }
    if !rest.is_empty() {
        return Ok(None);
    }
    Ok(Some(gone))
}

/// The verdict on what a text reports.
fn judge(
    alloc: Global,
    log: &Log,
    rows: u64,
    text: &[u8],
    account: &Account,
) -> Result<Verdict, NoMemory>
    requires log { IsReadable log.now.lines }
    requires rows { rows ≤ most_rows }
    requires told { IsToldBy log.now text.now account.now.told.items account.now.rest.now }
    requires few { length account.now.told.items < 2 ^ 57 }
    requires small { (t : Transcript) (steps : List Step) (trees : List History) → IsRunBy log.now rows t steps trees → All (λ s. IsSmall s.outcome) steps }
    ensures { IfOk result (λ verdict. IsVerdict log.now rows text.now verdict) }
{
    let told = &account.told;
    if !windows_keep(told) || !windows_end(told) {
        return Ok(Verdict::No);
    }
    let trees = trees_of(alloc, log.lines.as_slice())?;
    let Some(gone) = go_all(alloc, log, rows, account, &trees)? else {
        return Ok(Verdict::No);
    };
    let points = points_of(alloc, told, &gone)?;
    Ok(Verdict::Yes {
        points: ListOf::new(points),
    })
}

/// Whether a text is that of a transcript of a run of this log, over trees of `rows` nodes, 4 to 65,504. If it is, returns the
/// points of its reads, in order: the number of calls on its tree after which each was answered. Each point is the least that
/// the read has in any run with this text.
///
/// # Errors
///
/// `NoMemory` if memory ran out, or if the log or the text has more lines, or a map more ranges, than any memory holds (2^57
/// lines, 2^62 ranges). It says nothing of the text.
pub fn verify(alloc: Global, log: &Log, rows: u64, text: &[u8]) -> Result<Verdict, NoMemory>
    requires log { IsLog log.now }
    requires few_rows { 4 ≤ rows }
    requires rows { rows ≤ most_rows }
    ensures { IfOk result (λ verdict. IsVerdict log.now rows text.now verdict) }
{
    if log.lines.as_slice().len() >= MOST_LINES {
        return Err(NoMemory);
    }
    let Some(account) = read_told(alloc, log, text)? else {
        return Ok(Verdict::No);
    };
    if account.told.len() >= MOST_LINES {
        return Err(NoMemory);
    }
    judge(alloc, log, rows, text, &account)
}
