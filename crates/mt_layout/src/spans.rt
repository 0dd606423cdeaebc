/// Indexes from `first` to `last`, both included, and their word. In a leaf it is an entry, or 0 for a hole. In an inner node
/// it is the name of the child that covers them.
#[derive(Clone, Copy, Debug, Default, PartialEq, Eq)]
pub struct Span {
    pub first: u64,
    pub last: u64,
    pub word: u64,
}
