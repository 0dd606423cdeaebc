//! The text of a transcript, read along its log.

ghost use Rattle.std.specs.Prelude.{◌≡◌, ◌<◌, ◌^◌, ◌+◌, IfNone, IfOk, IfSome};
ghost use Rattle.mt_log.specs.Phases.{phase_after};
ghost use Rattle.mt_log.specs.Run.{lane_after};
ghost use Rattle.mt_log.specs.Trees.{IsReadable};
ghost use Rattle.mt_told.specs.Along.{IsLaneLineDone, IsPlacedBy};
ghost use Rattle.mt_told.specs.Steps.{AddsTold, IsStepAt, IsToldAt, TellsNotDone};
ghost use Rattle.mt_told.specs.Telling.{IsToldBy, TellsNone};

use crate::scans::{Stretch, read_scan};
use crate::steps::{Deed, LinePlace, step_in_front};
use crate::told::ToldLine;
use mt_base::NoMemory;
use mt_log::{Item, Line, Log};
use std::alloc::{AllocError, Global};

/// What a text says of the steps of a log, in order, and the rest of the text.
#[derive(Drop)]
pub struct Account<'t> {
    pub told: Vec<ToldLine<'t>>,
    pub rest: &'t [u8],
}

/// The lane and the phase of a line of a log.
#[derive(Clone, Copy)]
struct Stand {
    lane: u32,
    phase: u64,
}

impl Stand {
    /// The place of a line's steps on this tree.
    fn place(&self, line: u64, tree: u32) -> LinePlace
        ensures { result ≡ record { line = line; lane = self.now.lane; phase = self.now.phase; tree = tree } }
    {
        let Stand { lane, phase } = *self;
        LinePlace {
            line,
            lane,
            phase,
            tree,
        }
    }

    /// The place of a copy or a check of this tree, which is done by no lane.
    fn begun(&self, line: u64, tree: u32) -> LinePlace
        ensures { result ≡ record { line = line; lane = 0; phase = self.now.phase; tree = tree } }
    {
        LinePlace {
            line,
            lane: 0,
            phase: self.phase,
            tree,
        }
    }

    /// The lane and the phase of the next line.
    fn behind(&self, item: &Item) -> Stand
        requires { self.now.phase + 1 < 2 ^ 64 }
        ensures lane { result.lane ≡ lane_after self.now.lane item.now }
        ensures phase { result.phase ≡ phase_after self.now.phase item.now }
    {
        match item {
            Item::Lane { lane } => Stand {
                lane: *lane,
                phase: self.phase,
            },
            Item::Join => Stand {
                lane: 0,
                phase: self.phase + 1,
            },
            Item::Tree { .. }
            | Item::Dup { .. }
            | Item::Check { .. }
            | Item::Write { .. }
            | Item::Ask { .. }
            | Item::Scan { .. } => *self,
        }
    }
}

/// Reads the line of a deed at this place. Returns the text after it, if the text begins with such a line.
fn read_step<'t>(
    told: &mut Vec<ToldLine<'t>>,
    text: &'t [u8],
    place: &LinePlace,
    deed: &Deed,
) -> Result<Option<&'t [u8]>, AllocError>
    ensures some { IfOk result (λ found. IfSome found (λ rest. AddsTold (IsStepAt place.now deed.now)
        (IsToldAt place.now) text.now told.old.items told.new.items rest.now)) }
    ensures none { IfOk result (λ found. IfNone found (TellsNotDone (IsStepAt place.now deed.now) text.now)) }
{
    let Some((step, rest)) = step_in_front(text, place, deed) else {
        return Ok(None);
    };
    told.push(step)?;
    Ok(Some(rest))
}

/// Reads what the text says of a line of the log in this lane and phase. Returns the text after it, if it says something.
fn read_line<'t>(
    told: &mut Vec<ToldLine<'t>>,
    text: &'t [u8],
    line: &Line,
    stand: &Stand,
) -> Result<Option<&'t [u8]>, AllocError>
    ensures some { IfOk result (λ found. IfSome found (λ rest. AddsTold (IsLaneLineDone stand.now.lane stand.now.phase line.now)
        (IsPlacedBy stand.now.lane stand.now.phase line.now) text.now told.old.items told.new.items rest.now)) }
    ensures none { IfOk result (λ found. IfNone found (TellsNotDone (IsLaneLineDone stand.now.lane stand.now.phase line.now) text.now)) }
{
    let number = line.number;
    match line.item {
        Item::Tree { .. } | Item::Lane { .. } | Item::Join => Ok(Some(text)),
        Item::Dup { from, .. } => { read_step(told, text, &stand.begun(number, from), &Deed::Copy) }
        Item::Check { tree } => { read_step(told, text, &stand.begun(number, tree), &Deed::Check) }
        Item::Write { tree, call } => {
            read_step(told, text, &stand.place(number, tree), &Deed::Call(call))
        }
        Item::Ask { tree, query } => {
            read_step(told, text, &stand.place(number, tree), &Deed::Look(query))
        }
        Item::Scan {
            tree,
            index,
            max,
            count,
        } => {
            let scan = Stretch { index, max, count };
            read_scan(told, text, &stand.place(number, tree), &scan)
        }
    }
}

/// What the text of a transcript says of the steps of a log, if it reports them.
///
/// # Errors
///
/// `NoMemory` where memory ran out.
pub fn read_told<'t>(
    alloc: Global,
    log: &Log,
    text: &'t [u8],
) -> Result<Option<Account<'t>>, NoMemory>
    requires { IsReadable log.now.lines }
    ensures some { IfOk result (λ found. IfSome found (λ account. IsToldBy log.now text.now account.told.items account.rest.now)) }
    ensures none { IfOk result (λ found. IfNone found (TellsNone log.now text.now)) }
{
    let mut told = Vec::new(alloc);
    let mut stand = Stand { lane: 0, phase: 0 };
    let mut rest = text;
    for line in log.lines.as_slice() {
        let Some(behind) = read_line(&mut told, rest, line, &stand)? else {
            return Ok(None);
        };
        rest = behind;
        stand = stand.behind(&line.item);
    }
    Ok(Some(Account { told, rest }))
}
