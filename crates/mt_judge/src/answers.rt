//! What the program prints of its words and its input, and its status.

ghost use Rattle.std.specs.Prelude.{◌≤◌, IfOk, map, string_bytes};
ghost use Rattle.mt_base.specs.Width.{most_rows};
ghost use Rattle.mt_judge.specs.Answers.{IsAnswerTo};
ghost use Rattle.mt_judge.specs.Judged.{IsJudgedIn};

use crate::cuts::{cut, rows_of};
use crate::failures::JudgeFailure;
use crate::judging::{Judgment, judge};
use mt_log::read_log;
use std::alloc::Global;

/// A text to print, and the status to end with.
#[derive(Drop)]
pub struct ToldAnswer {
    pub text: String,
    pub status: u8,
}

/// The findings on these bytes: a log and the text after it, on trees of this many nodes.
fn judged(alloc: Global, rows: u64, bytes: &[u8]) -> Result<Judgment, JudgeFailure>
    requires few_rows { 4 ≤ rows }
    requires rows { rows ≤ most_rows }
    ensures { IfOk result (IsJudgedIn rows bytes.now) }
{
    let (front, text) = cut(bytes).ok_or(JudgeFailure::NoTranscript)?;
    let log = read_log(alloc, front)?;
    Ok(judge(alloc, &log, rows, text)?)
}

/// What the words ask for, of these bytes.
pub fn answer_to(alloc: Global, words: &[String], bytes: &[u8]) -> Result<ToldAnswer, JudgeFailure>
    ensures { IfOk result (IsAnswerTo (map string_bytes words.now) bytes.now) }
{
    let rows = rows_of(words).ok_or(JudgeFailure::Usage)?;
    let judgment = judged(alloc, rows, bytes)?;
    Ok(ToldAnswer {
        text: format!(in alloc; "{judgment}")?,
        status: judgment.status(),
    })
}
