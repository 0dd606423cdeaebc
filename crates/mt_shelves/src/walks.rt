//! The queries: from the shelf at which an index lies upwards, or downwards, up to the one that answers.

ghost use Rattle.std.specs.Prelude.{◌≡◌, ◌≤◌};
ghost use Rattle.mt_base.specs.Call.{answer};
ghost use Rattle.mt_shelves.specs.Shelves.{AreRising, LooksDown, LooksUp, joined};

use crate::places::{place_above, place_below};
use crate::shelf::Shelf;
use mt_base::{Query, Range};
use mt_list::answered;

/// What a query is answered that looks upwards.
fn first_answer(shelves: &[Shelf], query: &Query, from: u64, to: u64) -> Option<Range>
    requires rising { AreRising shelves.now }
    requires up { LooksUp query.now from to }
    ensures { result ≡ answer (joined shelves.now) query.now }
{
    for at in place_below(shelves, from)..shelves.len() {
        let shelf = &shelves[at];
        let found = answered(shelf.ranges(), query);
        if found.is_some() || !shelf.ends_below(to) {
            return found;
        }
    }
    None
}

/// What a query is answered that looks downwards.
fn last_answer(shelves: &[Shelf], query: &Query, from: u64, to: u64) -> Option<Range>
    requires rising { AreRising shelves.now }
    requires down { LooksDown query.now from to }
    ensures { result ≡ answer (joined shelves.now) query.now }
{
    let mut end = place_above(shelves, place_below(shelves, from), from);
    while end > 0 {
        end -= 1;
        let shelf = &shelves[end];
        let found = answered(shelf.ranges(), query);
        if found.is_some() || !shelf.begins_above(to) {
            return found;
        }
    }
    None
}

/// The range that answers a query.
pub fn ask(shelves: &[Shelf], query: &Query) -> Option<Range>
    requires { AreRising shelves.now }
    ensures { result ≡ answer (joined shelves.now) query.now }
{
    match *query {
        Query::Load { index } => first_answer(shelves, query, index, index),
        Query::Find { index, max } | Query::Next { index, max } => {
            first_answer(shelves, query, index, max)
        }
        Query::Prev { index, min } | Query::Rfind { index, min } => {
            last_answer(shelves, query, index, min)
        }
    }
}
