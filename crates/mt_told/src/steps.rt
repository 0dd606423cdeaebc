//! The lines of a transcript that report one step.

ghost use Rattle.std.specs.Prelude.{◌≡◌, ℕ, List, IfSome, IfNone};
ghost use Rattle.mt_log.specs.declared.transcripts.Said.TheVariants as said;
ghost use Rattle.mt_told.specs.Steps.{IsStepAt, TellsNotDone, TellsNothingOf, TellsOf, TellsStepAt};

use crate::answers::answer_in_front;
use crate::fronts::{behind_number, behind_word, line_in_front, number_before};
use crate::told::{ToldLine, What};
use mt_base::{Call, Query};

/// What is done in a step: a call, a read, or a tree is copied or checked.
#[derive(Clone, Copy)]
pub enum Deed {
    Call(Call),
    Look(Query),
    Copy,
    Check,
}

/// The place of a step: its line of the log, its lane, its phase and its tree.
#[derive(Clone, Copy)]
pub struct LinePlace {
    pub line: u64,
    pub lane: u32,
    pub phase: u64,
    pub tree: u32,
}

impl LinePlace {
    ghost use Rattle.std.specs.Prelude.{◌≡◌};
    ghost use Rattle.mt_told.specs.Steps.{told_at};

    /// This result of a step at this place.
    fn tells<'t>(&self, what: What<'t>) -> ToldLine<'t>
        ensures { result ≡ told_at self.now what.entry }
    {
        ToldLine {
            line: self.line,
            lane: self.lane,
            phase: self.phase,
            tree: self.tree,
            what,
        }
    }
}

/// What a line reports of a call, after its number, and the text after the line.
fn call_in_front(text: &[u8], call: Call) -> Option<(What<'_>, &[u8])>
    ensures some { IfSome result (λ found. TellsOf (Deed.Call call) text.now found.0 found.1.now) }
    ensures none { IfNone result (TellsNothingOf (Deed.Call call) text.now) }
{
    let (number, line) = number_before(text, b' ')?;
    let (reply, rest) = line_in_front(line)?;
    let what = What::Wrote {
        number,
        call,
        reply,
    };
    Some((what, rest))
}

/// What a line reports of a read.
fn look_in_front(text: &[u8], query: Query) -> Option<(What<'_>, &[u8])>
    ensures some { IfSome result (λ found. TellsOf (Deed.Look query) text.now found.0 found.1.now) }
    ensures none { IfNone result (TellsNothingOf (Deed.Look query) text.now) }
{
    let (lo, text) = number_before(text, b' ')?;
    let (hi, text) = number_before(text, b' ')?;
    let (answer, rest) = answer_in_front(text, &query)?;
    let what = What::Got {
        lo,
        hi,
        query,
        answer,
    };
    Some((what, rest))
}

/// What a line reports of a copy.
fn copy_in_front(text: &[u8]) -> Option<(What<'_>, &[u8])>
    ensures some { IfSome result (λ found. TellsOf Deed.Copy text.now found.0 found.1.now) }
    ensures none { IfNone result (TellsNothingOf Deed.Copy text.now) }
{
    let line = behind_word(text, b"copied ")?;
    let (count, rest) = line_in_front(line)?;
    Some((What::Copied { count }, rest))
}

/// What a line reports of a check.
fn check_in_front(text: &[u8]) -> Option<(What<'_>, &[u8])>
    ensures some { IfSome result (λ found. TellsOf Deed.Check text.now found.0 found.1.now) }
    ensures none { IfNone result (TellsNothingOf Deed.Check text.now) }
{
    let line = behind_word(text, b"lawful ")?;
    let (count, rest) = line_in_front(line)?;
    Some((What::Lawful { count }, rest))
}

/// What a line reports of a deed.
pub fn what_in_front<'t>(text: &'t [u8], deed: &Deed) -> Option<(What<'t>, &'t [u8])>
    ensures some { IfSome result (λ found. TellsOf deed.now text.now found.0 found.1.now) }
    ensures none { IfNone result (TellsNothingOf deed.now text.now) }
{
    match deed {
        Deed::Call(call) => call_in_front(text, *call),
        Deed::Look(query) => look_in_front(text, *query),
        Deed::Copy => copy_in_front(text),
        Deed::Check => check_in_front(text),
    }
}

/// The line of a deed at this place, and the text after it.
pub fn step_in_front<'t>(
    text: &'t [u8],
    place: &LinePlace,
    deed: &Deed,
) -> Option<(ToldLine<'t>, &'t [u8])>
    ensures some { IfSome result (λ found. TellsStepAt place.now deed.now text.now found.0 found.1.now) }
    ensures none { IfNone result (TellsNotDone (IsStepAt place.now deed.now) text.now) }
{
    let line = behind_number(text, place.line, b' ')?;
    let (what, rest) = what_in_front(line, deed)?;
    Some((place.tells(what), rest))
}
