//! The map of a tree at hand.

use mt_base::{Call, Kind, MOST_ROWS, NoMemory, Range, Shortage};
use mt_list::Ranges;
use mt_shelves::ShelfMap;
use mt_told::{is_number, is_reply};
use mt_verify::{ToldRead, is_short, is_true, wants_rows};
use std::alloc::Global;
use std::marker::Model;

/// No memory holds this many ranges, or this many calls.
const MOST_RANGES: u64 = 1 << 61;

const MOST_ENDED: u64 = 1 << 56;

/// The map of a tree, and its kind.
#[derive(Drop)]
pub struct TreeMap {
    kind: Kind,
    map: ShelfMap,
}

impl Model for TreeMap {
    ghost use Rattle.std.specs.Prelude.{◌≡◌};
    ghost use Rattle.mt_list.specs.ListMap.{Contents};

    ghost Value = { Contents };

    ghost view = { λ t. t.map };

    ghost invariant = { λ t. t.kind ≡ t.map.kind };
}

/// How many nodes a tree has, how many of them were in use at most as it opened, and how many of its calls have ended.
#[derive(Clone, Copy)]
pub struct Room {
    pub rows: u64,
    pub opened: u64,
    pub ended: u64,
}

impl TreeMap {
    /// The empty map of a tree of this kind.
    pub fn new(alloc: Global, kind: Kind) -> Self {
        TreeMap {
            kind,
            map: ShelfMap::new(alloc, kind),
        }
    }

    /// Another map of the same ranges.
    pub fn copied(&self, alloc: Global) -> Result<Self, NoMemory> {
        Ok(TreeMap {
            kind: self.kind,
            map: self.map.copied(alloc)?,
        })
    }

    /// How many nodes the tree has in use as it opens, at most.
    pub fn rows_opened(&self) -> u64 {
        (self.map.count() / 2).min(MOST_RANGES) + 2
    }

    /// Makes a call, and returns whether these bytes are its reply.
    pub fn answers(&mut self, version: u32, call: &Call, reply: &[u8]) -> Result<bool, NoMemory> {
        let made = self.map.act(call)?;
        Ok(is_reply(version, &made, reply))
    }

    /// Whether a call may be refused for lack of nodes with these numbers.
    pub fn refuses(
        &mut self,
        room: Room,
        call: &Call,
        shortage: &Shortage,
    ) -> Result<bool, NoMemory> {
        if !wants_rows(&mut self.map, self.kind, call)? {
            return Ok(false);
        }
        let (rows, ended) = (room.rows.min(MOST_ROWS), room.ended.min(MOST_ENDED));
        let opened = room.opened.min(MOST_RANGES);
        Ok(is_short(rows, opened, ended, self.map.count(), shortage))
    }

    /// Whether a read is true of the map.
    pub fn is_true(&mut self, look: &ToldRead) -> bool {
        is_true(&mut self.map, look)
    }

    /// Whether the bytes are the number of ranges.
    pub fn has_count(&self, count: &[u8]) -> bool {
        is_number(self.map.count(), count)
    }

    /// The ranges, in rising order.
    pub fn list(&mut self, alloc: Global) -> Result<Vec<Range>, NoMemory> {
        self.map.list(alloc)
    }
}
