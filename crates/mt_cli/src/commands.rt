/// What the program is asked to do.
#[derive(Clone, Copy, Debug, PartialEq, Eq)]
pub enum Command {
    /// Runs the log that is read, with `rows` nodes for each tree.
    Replay {
        rows: u64,
    },
    /// Writes a pseudo-random log: `number` is the seed, and its steps are divided among the lanes (threads).
    Make {
        number: u32,
        steps: u32,
        lanes: u32,
    },
    /// Runs such a log of one lane, and writes how often each answer came.
    Trial {
        number: u32,
        steps: u32,
    },
    /// Judges a transcript of the log before it, with `rows` nodes for each tree.
    Verify {
        rows: u64,
    },
    /// Runs the log that is read, with `rows` nodes for each tree, and writes the image of its first tree.
    Image {
        rows: u64,
    },
    /// Writes the listing of the tree whose image is read.
    Show,
    /// Writes the image of a tree that `workers` threads build of the listing that is read.
    Bulk {
        workers: u32,
    },
    /// Draws numbers from `lo` to `hi` in turn (cyclic allocation), `steps` times, and gives each back after `drop` more draws.
    Ids {
        lo: u64,
        hi: u64,
        steps: u32,
        drop: u32,
    },
}
