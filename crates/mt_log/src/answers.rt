//! What a query is told.

ghost use Rattle.std.specs.Prelude.{◌≡◌};
ghost use Rattle.mt_log.specs.Run.{shown, shown_range};

use crate::transcripts::Answer;
use mt_base::{Query, Range};

/// What a query is told of a range: a load is told its entry alone.
fn shown_range(query: &Query, range: Range) -> Answer
    ensures { result ≡ shown_range query.now range }
{
    match query {
        Query::Load { .. } => Answer::Entry(range.entry),
        Query::Find { .. } | Query::Next { .. } | Query::Prev { .. } | Query::Rfind { .. } => {
            Answer::Range(range)
        }
    }
}

/// What a query is told of the range that was found, if any.
pub fn shown(query: &Query, found: Option<Range>) -> Answer
    ensures { result ≡ shown query.now found }
{
    match found {
        Some(range) => shown_range(query, range),
        None => Answer::None,
    }
}
