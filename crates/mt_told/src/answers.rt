//! The answers to queries, at the front of a text.

ghost use Rattle.std.specs.Prelude.{◌≡◌, ◌++◌, ◌∷◌, ◌<◌, ◌^◌, ℕ, List, Option, Some, IfSome, IfNone};
ghost use Rattle.mt_base.specs.declared.ranges.Range.{Range};
ghost use Rattle.mt_log.specs.Run.{shown, shown_range};
ghost use Rattle.mt_told.specs.Answers.{IsAnswerBefore, IsEntryBefore, IsFoundBefore, IsRangeBefore, answer_line, entry_line, range_line, tells_entry};
ghost use Rattle.mt_told.specs.Telling.{IsSmallRange};

use crate::fronts::{behind_word, number_before};
use mt_base::{Query, Range};
use mt_log::Answer;

/// The entry that a load returned, and the text after its line.
#[tactic(auto, using(crate::proofs::Answered::entry_before, crate::proofs::Answered::no_entry))]
fn entry_in_front(text: &[u8]) -> Option<(u64, &[u8])>
    ensures some { IfSome result (λ found. IsEntryBefore text.now found.0 found.1.now) }
    ensures none { IfNone result ((entry : ℕ) (rest : List ℕ) → entry < 2 ^ 64 → text.now ≡ entry_line entry ++ rest → ⊥) }
{
    let number = behind_word(text, b"entry ")?;
    number_before(number, b'\n')
}

/// The range that another query returned, and the text after its line.
fn range_in_front(text: &[u8]) -> Option<(Range, &[u8])>
    ensures some { IfSome result (λ found. IsRangeBefore text.now found.0 found.1.now) }
    ensures none { IfNone result ((range : Range) (rest : List ℕ) → IsSmallRange (Some range) → text.now ≡ range_line range ++ rest → ⊥) }
{
    let text = behind_word(text, b"range ")?;
    let (first, text) = number_before(text, b' ')?;
    let (last, text) = number_before(text, b' ')?;
    let (entry, text) = number_before(text, b'\n')?;
    let range = Range { first, last, entry };
    Some((range, text))
}

/// Whether a query returns the entry alone.
fn tells_entry(query: &Query) -> bool
    ensures { result ≡ tells_entry query.now }
{
    match query {
        Query::Load { .. } => true,
        Query::Find { .. } | Query::Next { .. } | Query::Prev { .. } | Query::Rfind { .. } => false,
    }
}

/// What the query returned, if it found something, and the text after its line.
fn found_in_front<'t>(text: &'t [u8], query: &Query) -> Option<(Answer, &'t [u8])>
    ensures some { IfSome result (λ found. IsFoundBefore query.now text.now found.0 found.1.now) }
    ensures none { IfNone result ((range : Range) (rest : List ℕ) → IsSmallRange (Some range)
        → text.now ≡ answer_line (shown_range query.now range) ++ rest → ⊥) }
{
    if tells_entry(query) {
        let (entry, rest) = entry_in_front(text)?;
        return Some((Answer::Entry(entry), rest));
    }
    let (range, rest) = range_in_front(text)?;
    Some((Answer::Range(range), rest))
}

/// What the query returned, and the text after its line.
pub fn answer_in_front<'t>(text: &'t [u8], query: &Query) -> Option<(Answer, &'t [u8])>
    ensures some { IfSome result (λ found. IsAnswerBefore query.now text.now found.0 found.1.now) }
    ensures none { IfNone result ((value : Option Range) (rest : List ℕ) → IsSmallRange value → text.now ≡ answer_line (shown query.now value) ++ rest → ⊥) }
{
    if let Some(rest) = behind_word(text, b"none\n") {
        return Some((Answer::None, rest));
    }
    found_in_front(text, query)
}
