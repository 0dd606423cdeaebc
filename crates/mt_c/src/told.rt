//! What C gets.

ghost use Rattle.std.specs.Prelude.{◌≡◌};
ghost use Rattle.mt_c.specs.Calls as defined;

use mt_base::{Range, Reply, Shortage};

/// No range is there.
pub const ENOENT: u32 = 2;

/// A log has too many bytes.
pub const E2BIG: u32 = 7;

/// The tree is closed, or the user.
pub const EBADF: u32 = 9;

/// Too few nodes are free, or memory ran out.
pub const ENOMEM: u32 = 12;

/// No hole has room.
pub const EBUSY: u32 = 16;

/// Some index is held already.
pub const EEXIST: u32 = 17;

/// The call means nothing, or there is no such kind, or the bytes are no log.
pub const EINVAL: u32 = 22;

/// A tree would have too few or too many nodes.
pub const EDOM: u32 = 33;

/// A buffer is too short.
pub const ERANGE: u32 = 34;

/// The text is of no run.
pub const EBADMSG: u32 = 74;

/// The tree has had all its calls, or would have too few or too many.
pub const EOVERFLOW: u32 = 75;

/// A call works on the user already: this one was made in a signal handler.
pub const EDEADLK: u32 = 35;

/// What is to be opened is open.
pub const EALREADY: u32 = 114;

/// A range as C has it: `struct maple_range`.
#[repr(C)]
#[derive(Clone, Copy, Debug, PartialEq, Eq)]
pub struct OutRange {
    pub first: u64,
    pub last: u64,
    pub entry: u64,
}

/// What C gets of a call: its number, the one word of the reply, and its range.
#[derive(Clone, Copy, Debug, PartialEq, Eq)]
pub struct ToldCall {
    pub status: u32,
    pub word: u64,
    pub range: OutRange,
}

/// The result if there is no range.
pub fn no_range() -> OutRange
    ensures { result ≡ defined.no_range }
{
    OutRange {
        first: 0,
        last: 0,
        entry: 0,
    }
}

/// A range, or three zeros.
pub fn out_of(found: Option<Range>) -> OutRange
    ensures { result ≡ defined.out_of found }
{
    match found {
        None => no_range(),
        Some(Range { first, last, entry }) => OutRange { first, last, entry },
    }
}

/// The number that C gets for the answer of a query.
pub fn found_status(found: Option<Range>) -> u32
    ensures { result ≡ defined.found_status found }
{
    match found {
        None => ENOENT,
        Some(_) => 0,
    }
}

/// The number that C gets for this many ranges of a walk that then goes on from this place.
pub fn many_status(count: usize, next: Option<u64>) -> u32
    ensures { result ≡ defined.many_status count next }
{
    match next {
        None if count == 0 => ENOENT,
        _ => 0,
    }
}

/// The number that C gets for a reply, or where no call was made.
pub fn status_of(made: Option<Reply>) -> u32
    ensures { result ≡ defined.status_of made }
{
    let Some(reply) = made else {
        return EOVERFLOW;
    };
    match reply {
        Reply::Ok | Reply::Over(_) | Reply::Start(_) | Reply::Was(_) => 0,
        Reply::None => ENOENT,
        Reply::NoNodes(_) => ENOMEM,
        Reply::Busy => EBUSY,
        Reply::Exists => EEXIST,
        Reply::Invalid => EINVAL,
    }
}

/// The one word of a reply, or 0.
pub fn word_of(made: Option<Reply>) -> u64
    ensures { result ≡ defined.word_in_c made }
{
    match made {
        Some(Reply::Over(word) | Reply::Start(word)) => word,
        _ => 0,
    }
}

/// The range of a reply, or three zeros.
fn range_of(made: Option<Reply>) -> OutRange
    ensures { result ≡ defined.range_in_c made }
{
    match made {
        Some(Reply::Was(range)) => out_of(Some(range)),
        _ => no_range(),
    }
}

/// What a reply says of nodes: zeros where these were no matter.
pub fn shortage_of(reply: Reply) -> Shortage
    ensures { result ≡ defined.shortage_of reply }
{
    match reply {
        Reply::NoNodes(shortage) => shortage,
        _ => Shortage {
            need: 0,
            free: 0,
            live: 0,
            held: 0,
            by: None,
        },
    }
}

/// All that C gets of a call.
pub fn told_in_c(made: Option<Reply>) -> ToldCall
    ensures { result ≡ defined.told_in_c made }
{
    ToldCall {
        status: status_of(made),
        word: word_of(made),
        range: range_of(made),
    }
}
