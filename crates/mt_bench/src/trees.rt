//! The trees that works are done on.

ghost use Rattle.std.specs.Prelude.{◌≤◌};
ghost use Rattle.mt_base.specs.Width.{most_rows};
ghost use Rattle.mt_rows.specs.Sheet.{OnlyReads};

use mt_base::{Call, Kind, MOST_CALLS, MOST_ROWS, NoMemory, Range, Reply, width_of};
use mt_engine::Engine;
use mt_free::RowBook;
use mt_rows::PlainRows;
use std::alloc::Global;
use std::marker::Model;

/// This many loads or steps are one batch.
pub const BATCH: usize = 64;

/// What a work asks of a tree.
pub trait TimedTree {
    /// Makes a call.
    fn act(&mut self, call: &Call) -> Reply;

    /// The entry at an index, or 0.
    fn load(&mut self, index: u64) -> u64;

    /// The entries at these indexes, or 0, in as many places.
    fn load_many(&mut self, indexes: &[u64], entries: &mut [u64]);

    /// Visits all ranges in order.
    fn visit(&mut self) -> Visit;

    /// Visits all ranges in order, in batches of steps.
    fn visit_many(&mut self) -> Visit;
}

/// All ranges, visited once: how many there are, and the sum of their entries and first indexes.
#[derive(Clone, Copy, Default)]
pub struct Visit {
    pub count: u64,
    pub sum: u64,
}

impl Visit {
    /// One range more.
    pub fn take(&mut self, range: &Range) {
        self.count = self.count.wrapping_add(1);
        self.sum = self.sum.wrapping_add(range.entry).wrapping_add(range.first);
    }

    /// So many more.
    pub fn take_all(&mut self, ranges: &[Range]) {
        for range in ranges {
            self.take(range);
        }
    }
}

/// How many nodes a tree has on which one thread does a work with so many ranges: more than it uses. A table with as
/// many as there can be would take 16 MB, and its zeros would push the first nodes out of the cache.
pub fn rows_for(ranges: u32) -> u64
    ensures { result ≤ most_rows }
{
    MOST_ROWS.min(u64::from(ranges) + 128)
}

/// A tree of nodes, and how many calls were made on it.
#[derive(Drop)]
pub struct Nodes {
    engine: Engine<PlainRows>,
    calls: u64,
}

impl Model for Nodes {
    ghost use Rattle.std.specs.Prelude.{◌≡◌, ℕ};

    ghost Value = { ℕ };

    ghost view = { λ n. n.calls };

    ghost invariant = { λ n. n.engine.sheet.ended ≡ n.calls };
}

impl Nodes {
    /// An empty tree of this kind for so many ranges, or none where there is no memory.
    pub fn new(alloc: Global, kind: Kind, ranges: u32) -> Result<Self, NoMemory> {
        let size = rows_for(ranges);
        let rows = PlainRows::of_width(alloc, width_of(kind), size)?;
        let book = RowBook::new(alloc, size)?;
        Ok(Nodes {
            engine: Engine::new(rows, book, kind),
            calls: 0,
        })
    }
}

impl TimedTree for Nodes {
    fn act(&mut self, call: &Call) -> Reply {
        if self.calls >= MOST_CALLS {
            return Reply::Invalid;
        }
        self.calls += 1;
        self.engine.apply(call)
    }

    fn load(&mut self, index: u64) -> u64 {
        self.engine.load(index).unwrap_or(0)
    }

    fn load_many(&mut self, indexes: &[u64], entries: &mut [u64]) {
        self.engine.load_many(indexes, entries);
    }

    fn visit(&mut self) -> Visit {
        visit_all(&mut self.engine)
    }

    fn visit_many(&mut self) -> Visit {
        visit_by_batches(&mut self.engine)
    }
}

/// Visits all ranges of an engine's map in order.
fn visit_all(engine: &mut Engine<PlainRows>) -> Visit
    ensures { OnlyReads engine.old.sheet engine.new.sheet }
{
    let mut visit = Visit::default();
    let mut walk = engine.walk_from(0);
    for _ in 0..u64::MAX {
        let Some(range) = engine.next_range(&mut walk) else {
            break;
        };
        visit.take(&range);
    }
    visit
}

/// Visits all ranges of an engine's map in order, `BATCH` in a batch.
fn visit_by_batches(engine: &mut Engine<PlainRows>) -> Visit
    ensures { OnlyReads engine.old.sheet engine.new.sheet }
{
    let mut visit = Visit::default();
    let none = Range {
        first: 0,
        last: 0,
        entry: 0,
    };
    let mut ranges = [none; BATCH];
    let mut walk = engine.walk_from(0);
    for _ in 0..u64::MAX {
        let count = engine.step_many(&mut walk, &mut ranges);
        visit.take_all(&ranges[..count]);
        if count < BATCH {
            break;
        }
    }
    visit
}
