ghost use Rattle.std.specs.Prelude.{None};

use crate::edits::{erase, store};
use crate::rooms::{highest, lowest};
use crate::shelf::Shelf;
use crate::walks::ask;
use crate::wholes::{copied, count, gathered};
use mt_base::{Call, Kind, NoMemory, Query, Range, Reply};
use mt_list::{Ranges, Store, Window, act};
use std::alloc::Global;
use std::marker::Model;

/// The map takes at most about this many ranges: no memory holds as many.
const MOST: u64 = 1 << 61;

/// A map of ranges on shelves. Its meaning is a tree's kind and its ranges, in rising order.
#[derive(Debug, Drop)]
pub struct ShelfMap {
    alloc: Global,
    kind: Kind,
    shelves: Vec<Shelf>,
    most: u64,
}

impl Model for ShelfMap {
    ghost use Rattle.mt_list.specs.ListMap.{Contents};
    ghost use Rattle.mt_shelves.specs.Shelves.{IsShelfMap, joined};

    ghost Value = { Contents };

    ghost view = { λ m. record { kind = m.kind; ranges = joined m.shelves.items } };

    ghost invariant = { λ m. IsShelfMap m.kind m.most m.shelves.items };
}

impl ShelfMap {
    ghost use Rattle.std.specs.Prelude.{◌≡◌, [], IfOk, length};

    /// The empty map.
    pub fn new(alloc: Global, kind: Kind) -> Self
        ensures kind { result.kind ≡ kind }
        ensures empty { result.ranges ≡ [] }
    {
        ShelfMap {
            alloc,
            kind,
            shelves: Vec::new(alloc),
            most: 0,
        }
    }

    /// How many ranges there are.
    pub fn count(&self) -> u64
        ensures { result ≡ length self.now.ranges }
    {
        count(&self.shelves)
    }

    /// Another map of the same ranges.
    ///
    /// # Errors
    ///
    /// `NoMemory` where memory ran out.
    pub fn copied(&self, alloc: Global) -> Result<Self, NoMemory>
        ensures { IfOk result (λ copy. copy ≡ self.now) }
    {
        Ok(ShelfMap {
            alloc,
            kind: self.kind,
            shelves: copied(alloc, &self.shelves)?,
            most: self.most,
        })
    }
}

impl Store for ShelfMap {
    ghost contents = { λ m. m };

    fn kind(&self) -> Kind {
        self.kind
    }

    #[tactic(auto, using(crate::proofs::ShelvesKept::put_in, crate::proofs::ShelvesKept::kept_in, crate::proofs::ShelvesKept::rising_of))]
    fn put(&mut self, first: u64, last: u64, entry: u64) -> Result<(), NoMemory> {
        if self.most >= MOST {
            return Err(NoMemory);
        }
        store(&mut self.shelves, self.alloc, first, last, entry)?;
        self.most += 2;
        Ok(())
    }

    #[tactic(auto, using(crate::proofs::ShelvesKept::rising_of, crate::proofs::ShelvesKept::erased_in))]
    fn take(&mut self, index: u64) -> Option<Range> {
        erase(&mut self.shelves, index)
    }

    fn empty(&mut self) {
        self.shelves.clear();
        self.most = 0;
    }

    #[tactic(auto, using(crate::proofs::ShelvesKept::rising_of))]
    fn found(&self, query: &Query) -> Option<Range> {
        ask(&self.shelves, query)
    }

    fn lowest_start(&self, window: Window) -> Option<u64> {
        lowest(self.kind, &self.shelves, window)
    }

    fn highest_start(&self, window: Window) -> Option<u64> {
        highest(self.kind, &self.shelves, window)
    }
}

impl Ranges for ShelfMap {
    ghost map = { λ m. m.ranges };

    ghost kind = { λ m. m.kind };

    ghost used = { λ _. 0 };

    ghost limits = { λ _. None };

    fn act(&mut self, call: &Call) -> Result<Reply, NoMemory> {
        act(self, call)
    }

    fn ask(&mut self, query: &Query) -> Option<Range> {
        ask(&self.shelves, query)
    }

    fn list(&mut self, alloc: Global) -> Result<Vec<Range>, NoMemory> {
        gathered(alloc, &self.shelves)
    }
}
