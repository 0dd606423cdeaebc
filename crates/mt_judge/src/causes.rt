//! Why a transcript is of no run, and at which of its lines.

ghost use Rattle.std.specs.Prelude.{◌≡◌, ◌+◌, ◌-◌, ◌^◌, min};
ghost use Rattle.mt_judge.specs.Faults.{earlier};

use std::fmt;

/// What is wrong with a line of a transcript.
#[derive(Clone, Copy)]
pub enum Cause {
    /// It answers another line of the log than the next one, or there is no line.
    NoEntry,
    /// It has not the form in which such a line of the log is answered.
    Form,
    /// The numbers of a tree's calls are not 1 and on, each once.
    Number,
    /// A call's number is no higher than what its lane knew of.
    Order,
    /// A read's window begins below what its lane knew of.
    Below,
    /// A read's window ends after the last call.
    Beyond,
    /// A read is true after no number of calls in its window that its lane may have seen.
    Nowhere,
    /// A call is answered otherwise than by the map before it.
    Reply,
    /// A call is refused for lack of nodes that cannot have been wanting so.
    Shortage,
    /// A copy or a check reports another number of ranges.
    Count,
    /// A tree is listed otherwise than it is at the end.
    Listing,
}

impl fmt::Display for Cause {
    ghost use Rattle.std.specs.Prelude.{Some};
    ghost use Rattle.mt_judge.specs.Printed.{cause_text};

    ghost output = { λ c. Some (cause_text c) };

    fn fmt<W: fmt::Write>(&self, f: &mut fmt::Formatter<W>) -> fmt::Result {
        match self {
            Cause::NoEntry => write!(f, "no entry"),
            Cause::Form => write!(f, "form"),
            Cause::Number => write!(f, "call number"),
            Cause::Order => write!(f, "order of its lane"),
            Cause::Below => write!(f, "lo below"),
            Cause::Beyond => write!(f, "hi beyond"),
            Cause::Nowhere => write!(f, "true nowhere"),
            Cause::Reply => write!(f, "wrong reply"),
            Cause::Shortage => write!(f, "shortage"),
            Cause::Count => write!(f, "count"),
            Cause::Listing => write!(f, "listing"),
        }
    }
}

/// A line of a transcript, from 1, and what is wrong with it.
#[derive(Clone, Copy)]
pub struct FoundFault {
    pub line: u64,
    pub cause: Cause,
}

impl FoundFault {
    /// At the line at this place, counted from 0.
    pub fn at(place: usize, cause: Cause) -> FoundFault
        ensures line { result.line ≡ min (place + 1) (2 ^ 64 - 1) }
        ensures cause { result.cause ≡ cause }
    {
        FoundFault {
            line: (place as u64).saturating_add(1),
            cause,
        }
    }

    /// The one at the lower line, of which one may be none.
    pub fn or_earlier(self, other: Option<FoundFault>) -> FoundFault
        ensures { result ≡ earlier self other }
    {
        match other {
            Some(other) if other.line < self.line => other,
            _ => self,
        }
    }
}
