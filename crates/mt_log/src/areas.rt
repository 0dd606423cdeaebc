/// So many indexes of a tree, and where they may lie.
#[derive(Clone, Copy)]
pub struct Area {
    /// The tree's number.
    pub tree: u32,
    /// How many indexes.
    pub size: u64,
    /// The lowest that they may be.
    pub min: u64,
    /// The highest that they may be.
    pub max: u64,
}
