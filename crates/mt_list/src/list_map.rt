ghost use Rattle.std.specs.Prelude.{None};

use crate::areas::{Window, highest, lowest};
use crate::calls::act;
use crate::edits::{erase, store};
use crate::ranges::Ranges;
use crate::searches::answered;
use crate::stores::Store;
use mt_base::{Call, Kind, NoMemory, Query, Range, Reply};
use std::alloc::Global;
use std::marker::Model;

/// A map of ranges as a sorted list. Its meaning is a tree's kind and its ranges, in rising order.
#[derive(Debug, Drop)]
pub struct ListMap {
    kind: Kind,
    ranges: Vec<Range>,
}

impl Model for ListMap {
    ghost use Rattle.mt_base.specs.Map.{IsMap};
    ghost use Rattle.mt_list.specs.ListMap.{Contents};

    ghost Value = { Contents };

    ghost view = { λ m. record { kind = m.kind; ranges = m.ranges.items } };

    ghost invariant = { λ m. IsMap m.kind m.ranges.items };
}

impl ListMap {
    ghost use Rattle.std.specs.Prelude.{◌≡◌, [], IfOk, length};

    /// The empty map.
    pub fn new(alloc: Global, kind: Kind) -> Self
        ensures kind { result.kind ≡ kind }
        ensures empty { result.ranges ≡ [] }
    {
        ListMap {
            kind,
            ranges: Vec::new(alloc),
        }
    }

    /// How many ranges there are.
    pub fn count(&self) -> u64
        ensures { result ≡ length self.now.ranges }
    {
        self.ranges.len() as u64
    }

    /// Another map of the same ranges.
    ///
    /// # Errors
    ///
    /// `NoMemory` where memory ran out.
    pub fn copied(&self, alloc: Global) -> Result<Self, NoMemory>
        ensures { IfOk result (λ copy. copy ≡ self.now) }
    {
        Ok(ListMap {
            kind: self.kind,
            ranges: Vec::from_slice(alloc, &self.ranges)?,
        })
    }
}

impl Store for ListMap {
    ghost contents = { λ m. m };

    fn kind(&self) -> Kind {
        self.kind
    }

    fn put(&mut self, first: u64, last: u64, entry: u64) -> Result<(), NoMemory> {
        store(&mut self.ranges, first, last, entry)?;
        Ok(())
    }

    fn take(&mut self, index: u64) -> Option<Range> {
        erase(&mut self.ranges, index)
    }

    fn empty(&mut self) {
        self.ranges.clear();
    }

    fn found(&self, query: &Query) -> Option<Range> {
        answered(&self.ranges, query)
    }

    fn lowest_start(&self, window: Window) -> Option<u64> {
        lowest(self.kind, &self.ranges, window)
    }

    fn highest_start(&self, window: Window) -> Option<u64> {
        highest(self.kind, &self.ranges, window)
    }
}

impl Ranges for ListMap {
    ghost map = { λ m. m.ranges };

    ghost kind = { λ m. m.kind };

    ghost used = { λ _. 0 };

    ghost limits = { λ _. None };

    fn act(&mut self, call: &Call) -> Result<Reply, NoMemory> {
        act(self, call)
    }

    fn ask(&mut self, query: &Query) -> Option<Range> {
        answered(&self.ranges, query)
    }

    fn list(&mut self, alloc: Global) -> Result<Vec<Range>, NoMemory> {
        Ok(Vec::from_slice(alloc, &self.ranges)?)
    }
}
