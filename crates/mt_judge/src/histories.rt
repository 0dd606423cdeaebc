//! The histories that a transcript reports, gone through tree by tree to find the first line that does not fit.

use crate::causes::{Cause, FoundFault};
use crate::lanes::Lanes;
use crate::listings::{listing_fault, listing_of};
use crate::maps::{Room, TreeMap};
use crate::trees::{DeclaredTree, MOST_TREES, is_call_on, trees_of};
use mt_base::{Call, Holder, NoMemory, Shortage};
use mt_log::Log;
use mt_told::{Account, ToldLine, What, behind_word};
use mt_verify::shortage_in;
use std::alloc::Global;

/// The rules of a run: the version of its log, and how many nodes a tree has.
#[derive(Clone, Copy)]
pub struct OrderRules {
    pub version: u32,
    pub rows: u64,
}

/// The first lines that were found not to fit: of calls, and of what the transcript reports of the maps that these make.
#[derive(Clone, Copy)]
struct Faults {
    calls: Option<FoundFault>,
    rest: Option<FoundFault>,
}

/// The earlier of two faults, of which either may be none.
fn earlier(one: Option<FoundFault>, other: Option<FoundFault>) -> Option<FoundFault> {
    match one {
        Some(fault) => Some(fault.or_earlier(other)),
        None => other,
    }
}

impl Faults {
    /// None was found.
    fn none() -> Faults {
        Faults {
            calls: None,
            rest: None,
        }
    }

    /// Notes that a line about a map was found not to fit.
    fn tell(&mut self, fault: FoundFault) {
        self.rest = Some(fault.or_earlier(self.rest));
    }

    /// The earlier of these and others.
    fn with(self, other: Faults) -> Faults {
        Faults {
            calls: earlier(self.calls, other.calls),
            rest: earlier(self.rest, other.rest),
        }
    }
}

/// The map of a tree as it was copied, by the line that declares the copy.
#[derive(Drop)]
struct Copy {
    line: u64,
    map: TreeMap,
}

/// The places of the calls on a tree, by their numbers.
fn calls_on(alloc: Global, told: &[ToldLine], tree: u32) -> Result<Vec<usize>, NoMemory> {
    let count = told.iter().filter(|one| is_call_on(one, tree)).count();
    let mut places = vec![in alloc; 0_usize; count]?;
    for (place, one) in told.iter().enumerate() {
        if one.tree == tree {
            if let What::Wrote { number, .. } = one.what {
                if let Some(cell) = places.get_mut((number as usize).saturating_sub(1)) {
                    *cell = place;
                }
            }
        }
    }
    Ok(places)
}

/// The places of the copies and checks of a tree, each with how many of its calls come before.
fn stops_on(alloc: Global, told: &[ToldLine], tree: u32) -> Result<Vec<(u64, usize)>, NoMemory> {
    let mut stops = Vec::new(alloc);
    let mut calls = 0_u64;
    for (place, one) in told.iter().enumerate() {
        if one.tree == tree {
            match one.what {
                What::Wrote { .. } => calls = calls.saturating_add(1),
                What::Copied { .. } | What::Lawful { .. } => stops.push((calls, place))?,
                What::Got { .. } => {}
            }
        }
    }
    Ok(stops)
}

/// The map with which a tree opens: that of its copy, or an empty one.
fn opening_of(
    alloc: Global,
    declared: &DeclaredTree,
    copies: &[Copy],
) -> Result<TreeMap, NoMemory> {
    for copy in copies {
        if copy.line == declared.line {
            return copy.map.copied(alloc);
        }
    }
    Ok(TreeMap::new(alloc, declared.kind))
}

/// The refusal of a call because nodes are short, with a lane that may have held nodes if some were held.
fn shortage_of(lanes: &Lanes, told: &ToldLine, reply: &[u8]) -> Option<Shortage> {
    let short = shortage_in(reply)?;
    if short.held == 0 {
        return Some(short);
    }
    let pass = lanes.beside(told.lane, told.phase)?;
    Some(Shortage {
        by: Some(Holder { pass, epoch: 0 }),
        ..short
    })
}

/// A tree on its way from map to map, by what the transcript reports.
#[derive(Drop)]
struct Way {
    rules: OrderRules,
    map: TreeMap,
    opened: u64,
    lanes: Lanes,
    stops: Vec<(u64, usize)>,
    passed: usize,
    faults: Faults,
}

impl Way {
    /// The way of a tree that opens with this map.
    fn new(
        alloc: Global,
        rules: OrderRules,
        told: &[ToldLine],
        tree: u32,
        map: TreeMap,
    ) -> Result<Self, NoMemory> {
        let opened = map.rows_opened();
        Ok(Way {
            rules,
            map,
            opened,
            lanes: Lanes::new(alloc, told, tree)?,
            stops: stops_on(alloc, told, tree)?,
            passed: 0,
            faults: Faults::none(),
        })
    }

    /// A copy or a check at this place is passed.
    fn stop(
        &mut self,
        alloc: Global,
        told: &ToldLine,
        place: usize,
        copies: &mut Vec<Copy>,
    ) -> Result<(), NoMemory> {
        let count = match told.what {
            What::Copied { count } => {
                let map = self.map.copied(alloc)?;
                let line = told.line;
                copies.push(Copy { line, map })?;
                count
            }
            What::Lawful { count } => count,
            What::Wrote { .. } | What::Got { .. } => return Ok(()),
        };
        if !self.map.has_count(count) {
            self.faults.tell(FoundFault::at(place, Cause::Count));
        }
        Ok(())
    }

    /// The place of the next copy or check, if it is after `number` calls. It is then passed.
    fn next_stop(&mut self, number: u64) -> Option<usize> {
        let (at, place) = *self.stops.get(self.passed)?;
        if at != number {
            return None;
        }
        self.passed = self.passed.saturating_add(1);
        Some(place)
    }

    /// The copies, the checks and the lanes go through a number of calls.
    fn pass(
        &mut self,
        alloc: Global,
        told: &[ToldLine],
        number: u64,
        copies: &mut Vec<Copy>,
    ) -> Result<(), NoMemory> {
        for _ in self.passed..self.stops.len() {
            let Some(place) = self.next_stop(number) else {
                break;
            };
            if let Some(one) = told.get(place) {
                self.stop(alloc, one, place, copies)?;
            }
        }
        self.faults.rest = self.lanes.pass(&mut self.map, number, self.faults.rest);
        Ok(())
    }

    /// What is wrong with the reply to a call that comes after `ended` calls. The call is made, unless it was refused because
    /// nodes are short.
    fn wrong(
        &mut self,
        told: &ToldLine,
        call: &Call,
        reply: &[u8],
        ended: u64,
    ) -> Result<Option<Cause>, NoMemory> {
        if behind_word(reply, b"nomem ").is_none() {
            let right = self.map.answers(self.rules.version, call, reply)?;
            return Ok((!right).then_some(Cause::Reply));
        }
        let Some(short) = shortage_of(&self.lanes, told, reply) else {
            return Ok(Some(Cause::Shortage));
        };
        let room = Room {
            rows: self.rules.rows,
            opened: self.opened,
            ended,
        };
        let right = self.map.refuses(room, call, &short)?;
        Ok((!right).then_some(Cause::Shortage))
    }

    /// Makes the call at this place, after `ended` calls, unless one went wrong.
    fn call(&mut self, told: &ToldLine, place: usize, ended: u64) -> Result<(), NoMemory> {
        if self.faults.calls.is_some() {
            return Ok(());
        }
        if let What::Wrote { call, reply, .. } = told.what {
            if let Some(cause) = self.wrong(told, &call, reply, ended)? {
                self.faults.calls = Some(FoundFault::at(place, cause));
            }
        }
        Ok(())
    }
}

/// A tree goes from map to map, and is copied on its way. Returns its last map and what did not fit: of its calls the first by
/// number, and no map after that is gone through.
fn go(
    alloc: Global,
    rules: OrderRules,
    told: &[ToldLine],
    tree: u32,
    map: TreeMap,
    copies: &mut Vec<Copy>,
) -> Result<(TreeMap, Faults), NoMemory> {
    let calls = calls_on(alloc, told, tree)?;
    let mut way = Way::new(alloc, rules, told, tree, map)?;
    way.pass(alloc, told, 0, copies)?;
    for (i, place) in calls.iter().enumerate() {
        let ended = i as u64;
        if let Some(one) = told.get(*place) {
            way.call(one, *place, ended)?;
        }
        way.pass(alloc, told, ended.saturating_add(1), copies)?;
    }
    let faults = Faults {
        calls: way.faults.calls,
        rest: way.lanes.end(way.faults.rest),
    };
    Ok((way.map, faults))
}

/// The first line that does not fit, where the calls are numbered rightly and the windows are in order: of the calls; or if they
/// all fit, of the reads, copies and checks; or of the listings.
pub fn history_fault(
    alloc: Global,
    log: &Log,
    rows: u64,
    account: &Account,
) -> Result<Option<FoundFault>, NoMemory> {
    let version = log.version;
    let rules = OrderRules { version, rows };
    let mut copies = Vec::new(alloc);
    let mut lists = Vec::new(alloc);
    let mut faults = Faults::none();
    let trees = trees_of(alloc, log.lines.as_slice())?;
    for tree in 0..MOST_TREES {
        let Some(declared) = trees.get(tree as usize) else {
            break;
        };
        let map = opening_of(alloc, declared, &copies)?;
        let (mut map, found) = go(alloc, rules, &account.told, tree, map, &mut copies)?;
        lists.push(listing_of(declared, map.list(alloc)?))?;
        faults = faults.with(found);
    }
    match faults.calls.or(faults.rest) {
        Some(fault) => Ok(Some(fault)),
        None => listing_fault(alloc, version, account, lists),
    }
}
