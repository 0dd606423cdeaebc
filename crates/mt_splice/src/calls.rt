//! A call in flight, and what it stores.

use mt_base::{Call, Reply};

/// A call in flight: its number, and the reply that it is to have.
#[derive(Drop)]
pub struct Event<'a> {
    pub number: u64,
    pub call: &'a Call,
    pub reply: &'a Reply,
}

/// A store of an entry, or of a hole where it is 0, over `first` to `last`.
#[derive(Clone, Copy, Debug, PartialEq, Eq)]
pub struct Edit {
    pub first: u64,
    pub last: u64,
    pub entry: u64,
}
