ghost use Rattle.std.specs.Prelude.{◌≡◌};
ghost use Rattle.mt_base.specs.Errno.{errno_of};

use crate::ranges::Range;

/// What a [`Call`] returns.
#[derive(Clone, Copy, Debug, PartialEq, Eq)]
pub enum Reply {
    /// The call was done. A store with this reply met no range, so it overwrote nothing.
    Ok,
    /// The store was done. This is the entry of the first range that it met and overwrote.
    Over(u64),
    /// The room that was sought begins here.
    Start(u64),
    /// The erase removed this whole range.
    Was(Range),
    /// No range held the index. Nothing was changed.
    None,
    /// A range already holds one of the call's indexes. Nothing was changed.
    Exists,
    /// The arguments are invalid, and nothing was changed. The range ends before it begins or above the greatest index, or the
    /// entry is reserved, or is 0 where that is not allowed. Or room is sought in a tree that is not for allocation, for no
    /// index, or in a window that has fewer indexes, ends before it begins or ends above the greatest index.
    Invalid,
    /// No hole in the window has room for `size` indexes. Nothing was changed.
    Busy,
    /// Too few nodes are free. Nothing was changed.
    NoNodes(Shortage),
}

/// A shortage of nodes: how many the call needs, and how many are free, live and held (retired, perhaps still being read). If
/// some are held, `by` names a reader whose open section holds nodes back.
#[derive(Clone, Copy, Debug, PartialEq, Eq)]
pub struct Shortage {
    pub need: u64,
    pub free: u64,
    pub live: u64,
    pub held: u64,
    pub by: Option<Holder>,
}

/// A handle whose read-side section was found open, and the epoch at which it was.
#[derive(Clone, Copy, Debug, PartialEq, Eq)]
pub struct Holder {
    pub pass: u32,
    pub epoch: u64,
}

/// The error number of a refusal, as in the kernel: 12 (`ENOMEM`), 16 (`EBUSY`), 17 (`EEXIST`) or 22 (`EINVAL`). None for any
/// other reply.
pub fn errno(reply: &Reply) -> Option<u32>
    ensures { result ≡ errno_of reply.now }
{
    match reply {
        Reply::NoNodes(_) => Some(12),
        Reply::Busy => Some(16),
        Reply::Exists => Some(17),
        Reply::Invalid => Some(22),
        Reply::Ok | Reply::Over(_) | Reply::Start(_) | Reply::Was(_) | Reply::None => None,
    }
}
