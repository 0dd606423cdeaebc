//! The numbers that bound a tree, a log and a command.

/// The least number of nodes of a tree.
pub const FEWEST_ROWS: u64 = 4;

/// The greatest number of passes (handles) of a tree.
pub const MOST_PASSES: u32 = 62;

/// The greatest number of calls of a tree.
pub const MOST_CALLS: u64 = (1 << 62) - 1;

/// The greatest number of lanes (threads) of a log.
pub const MOST_LANES: u32 = 16;

/// The greatest number of steps of a log that is made.
pub const MOST_STEPS: u64 = 100_000;

/// The numbers that a log is made of lie below this.
pub const SEED_END: u64 = 2_147_483_648;
