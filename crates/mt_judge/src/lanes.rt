//! The reads of a lane on a tree, as the lane goes through the tree's maps.

use crate::causes::{Cause, FoundFault};
use crate::maps::TreeMap;
use mt_base::{MOST_LANES, NoMemory};
use mt_told::ToldLine;
use mt_verify::{ToldRead, look_told};
use std::alloc::Global;

/// A read, and its place in the transcript.
#[derive(Clone, Copy)]
struct Read {
    place: usize,
    look: ToldRead,
}

/// The reads of a lane on a tree, how many of them were found true, and the phase of the first.
#[derive(Drop)]
pub struct LaneReads {
    number: u32,
    reads: Vec<Read>,
    next: usize,
    first: Option<u64>,
}

impl LaneReads {
    /// The reads of a lane on a tree, none of which was found true.
    fn new(
        alloc: Global,
        told: &[ToldLine],
        tree: u32,
        number: u32,
    ) -> Result<LaneReads, NoMemory> {
        let mut lane = LaneReads {
            number,
            reads: Vec::new(alloc),
            next: 0,
            first: None,
        };
        for (place, one) in told.iter().enumerate() {
            if one.tree == tree && one.lane == number {
                if let Some(look) = look_told(one) {
                    lane.reads.push(Read { place, look })?;
                    lane.first = lane.first.or(Some(one.phase));
                }
            }
        }
        Ok(lane)
    }

    /// Whether it is another lane than this one, and has read the tree by the end of a phase.
    fn may_hold(&self, lane: u32, phase: u64) -> bool {
        self.number != lane && self.first.is_some_and(|first| first <= phase)
    }

    /// The next read goes wrong, and no more of the lane are looked at.
    fn stops(&mut self, cause: Cause) -> Option<FoundFault> {
        let read = *self.reads.get(self.next)?;
        self.next = self.reads.len();
        Some(FoundFault::at(read.place, cause))
    }

    /// The lane goes through a number of calls, with the map after these. Its reads are found true, one after another, up to
    /// the first that waits for a higher number. Returns what goes wrong.
    fn pass(&mut self, map: &mut TreeMap, number: u64) -> Option<FoundFault> {
        let mut floor = 0;
        for _ in self.next..self.reads.len() {
            let look = self.reads.get(self.next)?.look;
            if look.lo < floor {
                return self.stops(Cause::Below);
            }
            if number < look.lo {
                return None;
            }
            if look.hi < number {
                return self.stops(Cause::Nowhere);
            }
            if !map.is_true(&look) {
                return None;
            }
            self.next = self.next.saturating_add(1);
            // Of what a read has seen, the one behind it misses one call at the most.
            floor = number.saturating_sub(1);
        }
        None
    }
}

/// The lanes that read a tree.
#[derive(Drop)]
pub struct Lanes {
    lanes: Vec<LaneReads>,
}

impl Lanes {
    /// The reads of a tree that the transcript reports.
    pub fn new(alloc: Global, told: &[ToldLine], tree: u32) -> Result<Lanes, NoMemory> {
        let mut lanes = Vec::new(alloc);
        for number in 0..MOST_LANES {
            lanes.push(LaneReads::new(alloc, told, tree, number)?)?;
        }
        Ok(Lanes { lanes })
    }

    /// A lane beside this one that has read the tree by the end of a phase.
    pub fn beside(&self, lane: u32, phase: u64) -> Option<u32> {
        for other in &self.lanes {
            if other.may_hold(lane, phase) {
                return Some(other.number);
            }
        }
        None
    }

    /// All lanes go through a number of calls, with the map after these. Returns the first line that goes wrong.
    pub fn pass(
        &mut self,
        map: &mut TreeMap,
        number: u64,
        found: Option<FoundFault>,
    ) -> Option<FoundFault> {
        let mut found = found;
        for i in 0..self.lanes.len() {
            if let Some(fault) = self.lanes[i].pass(map, number) {
                found = Some(fault.or_earlier(found));
            }
        }
        found
    }

    /// No number is left: a read that still waits is true nowhere.
    pub fn end(&mut self, found: Option<FoundFault>) -> Option<FoundFault> {
        let mut found = found;
        for i in 0..self.lanes.len() {
            if let Some(fault) = self.lanes[i].stops(Cause::Nowhere) {
                found = Some(fault.or_earlier(found));
            }
        }
        found
    }
}
