//! Where a text stops to report the lines of a log.

ghost use Rattle.std.specs.Prelude.{◌≡◌, ◌<◌, ◌^◌, ◌+◌, IfOk, IfNone, IfSome, length, true};
ghost use Rattle.mt_log.specs.Trees.{IsReadable};
ghost use Rattle.mt_told.specs.Telling.{IsToldBy, TellsNone};
ghost use Rattle.mt_judge.specs.Faults.{is_of_form};
ghost use Rattle.mt_judge.specs.Judged.{StopsAt, log_of_first};

use crate::causes::{Cause, FoundFault};
use mt_base::NoMemory;
use mt_log::{Item, Line, ListOf, Log};
use mt_told::{Account, behind_word, number_before, read_told};
use std::alloc::Global;

/// The log of the first lines of another.
fn first_lines(alloc: Global, log: &Log, count: usize) -> Result<Log, NoMemory>
    ensures { IfOk result (λ first. first ≡ log_of_first count log.now) }
{
    let lines = log.lines.as_slice();
    let mut items = Vec::new(alloc);
    items.extend_from_slice(&lines[..count.min(lines.len())])?;
    Ok(Log {
        version: log.version,
        lines: ListOf::new(items),
    })
}

/// What a text reports of the first lines of a log, if it reports them.
fn read_first<'t>(
    alloc: Global,
    log: &Log,
    count: usize,
    text: &'t [u8],
) -> Result<Option<Account<'t>>, NoMemory>
    requires { IsReadable log.now.lines }
    ensures some { IfOk result (λ found. IfSome found
        (λ account. IsToldBy (log_of_first count log.now) text.now account.told.items account.rest.now)) }
    ensures none { IfOk result (λ found. IfNone found (TellsNone (log_of_first count log.now) text.now)) }
{
    let first = first_lines(alloc, log, count)?;
    read_told(alloc, &first, text)
}

/// What a text reports of the lines of a log, up to the first that it does not report.
#[derive(Drop)]
pub struct Part<'t> {
    pub count: usize,
    pub account: Account<'t>,
}

/// How far a text reports a log, if it does not report it all.
#[tactic(auto, using(crate::proofs::Beginnings::stops_within, crate::proofs::Beginnings::stops_at))]
pub fn part_told<'t>(alloc: Global, log: &Log, text: &'t [u8]) -> Result<Part<'t>, NoMemory>
    requires log { IsReadable log.now.lines }
    requires none { TellsNone log.now text.now }
    ensures { IfOk result (λ s. StopsAt log.now text.now s.count s.account.told.items s.account.rest.now) }
{
    let mut count = 0;
    let mut account = Account {
        told: Vec::new(alloc),
        rest: text,
    };
    let mut above = log.lines.as_slice().len();
    'halves: while 1 < above.saturating_sub(count) {
        let middle = count + (above - count) / 2;
        match read_first(alloc, log, middle, text)? {
            Some(further) => {
                count = middle;
                account = further;
            }
            None => above = middle,
        }
    }
    Ok(Part { count, account })
}

/// The text after the line of a find that found a range, if the text begins with such a line.
fn behind_find(text: &[u8], line: u64) -> Option<&[u8]> {
    let (number, text) = number_before(text, b' ')?;
    if number != line {
        return None;
    }
    let (_, text) = number_before(text, b' ')?;
    let (_, text) = number_before(text, b' ')?;
    let text = behind_word(text, b"range ")?;
    let (_, text) = number_before(text, b' ')?;
    let (_, text) = number_before(text, b' ')?;
    let (_, text) = number_before(text, b'\n')?;
    Some(text)
}

/// Whether the next line of the text answers this line of the log, in whatever form.
fn is_answered(text: &[u8], line: u64) -> bool {
    match number_before(text, b' ') {
        Some((number, _)) => number == line,
        None => false,
    }
}

/// What is wrong with the lines at this place, which do not report this line of the log. Of a scan they may report the first
/// finds.
fn fault_of(place: usize, line: &Line, text: &[u8]) -> FoundFault
    ensures line { place + 1 < 2 ^ 64 → place < result.line }
    ensures cause { is_of_form result.cause ≡ true }
{
    let (mut at, mut rest) = (place, text);
    if let Item::Scan { count, .. } = line.item {
        'finds: for _ in 0..count {
            let Some(behind) = behind_find(rest, line.number) else {
                break;
            };
            at = at.saturating_add(1);
            rest = behind;
        }
    }
    let cause = if is_answered(rest, line.number) {
        Cause::Form
    } else {
        Cause::NoEntry
    };
    FoundFault::at(at, cause)
}

/// What is wrong where a text stops to report a log.
pub fn form_fault(log: &Log, part: &Part) -> FoundFault
    requires { part.now.count < length log.now.lines }
    ensures line { length part.now.account.told.items < result.line }
    ensures cause { is_of_form result.cause ≡ true }
{
    let line = &log.lines.as_slice()[part.count];
    let account = &part.account;
    fault_of(account.told.len(), line, account.rest)
}
