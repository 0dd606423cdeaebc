//! What a call and a read on a tree that threads share return.

use crate::replies::Reply;
use thiserror::Error;

/// A call that was made: its number in the tree's history, and its reply.
#[derive(Clone, Copy, Debug, PartialEq, Eq)]
pub struct Done {
    pub call: u64,
    pub reply: Reply,
}

/// The tree has as many calls as it may have.
#[derive(Clone, Copy, Debug, PartialEq, Eq, Error)]
#[error("the tree has had all of its {calls} calls")]
pub struct Worn {
    pub calls: u64,
}

/// A read: its answer is that of the map after some number of calls from `lo` to `hi`.
#[derive(Clone, Copy, Debug, PartialEq, Eq)]
pub struct Read<T> {
    pub lo: u64,
    pub hi: u64,
    pub value: T,
}
