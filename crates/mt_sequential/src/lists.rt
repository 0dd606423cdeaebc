//! A sorted list, as a map that a plain program plays on.

use crate::maps::Plain;
use mt_base::{Kind, NoMemory};
use mt_list::ListMap;
use std::alloc::Global;

impl Plain for ListMap {
    fn empty(alloc: Global, kind: Kind, _rows: u64) -> Result<Self, NoMemory> {
        Ok(ListMap::new(alloc, kind))
    }

    fn another(&self, alloc: Global) -> Result<Self, NoMemory> {
        self.copied(alloc)
    }

    fn size(&self) -> u64 {
        self.count()
    }
}
