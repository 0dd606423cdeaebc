//! A tree of a log is gone through, from the map with which it opens.

ghost use Rattle.std.specs.Prelude.{◌≡◌, ◌<◌, ◌≤◌, ◌^◌, All, AllPairs, IfNone, IfOk, IfSome, length};
ghost use Rattle.mt_base.specs.Map.{IsMap};
ghost use Rattle.mt_base.specs.Width.{most_rows};
ghost use Rattle.mt_log.specs.Trees.{most_trees};
ghost use Rattle.mt_base.specs.Limits.{most_lanes};
ghost use Rattle.mt_verify.specs.GoneTrees.{CannotGo, IsGoneFrom};
ghost use Rattle.mt_verify.specs.Heard.{AreReaders};
ghost use Rattle.mt_verify.specs.Hearing.{AreNotedOf};
ghost use Rattle.mt_verify.specs.PrintedOrder.{EndsInTree};
ghost use Rattle.mt_verify.specs.ToldCalls.{AreCallsOf};

use crate::calls::{Numbered, calls_on};
use crate::counts::stops_of;
use crate::heard::Readers;
use crate::hearing::all_noted;
use crate::lanes::Track;
use crate::lines::{lines_on, tracks_of};
use crate::noted::Noted;
use crate::stops::Stops;
use crate::trees::go_through;
use mt_base::{Kind, NoMemory};
use mt_shelves::ShelfMap;
use mt_told::ToldLine;
use std::alloc::Global;
use std::marker::Model;

/// A tree that was gone through: the map with which it opened, its calls, and the reads of each lane with their
/// numbers.
#[derive(Drop)]
pub struct Gone<'t> {
    pub opening: ShelfMap,
    pub noted: Vec<Noted<'t>>,
    pub tracks: Vec<Track>,
}

impl<'t> Model for Gone<'t> {
    ghost use Rattle.mt_verify.specs.GoneTrees.{GoneTree};

    ghost Value = { GoneTree };

    ghost view = { λ g. record { kind = g.opening.kind; opening = g.opening.ranges; noted = g.noted.items; lanes = g.tracks.items } };
}

impl<'t> Gone<'t> {
    ghost use Rattle.std.specs.Prelude.{◌≡◌};

    /// A tree that opened so, with these calls and these reads.
    fn new(opening: ShelfMap, noted: Vec<Noted<'t>>, tracks: Vec<Track>) -> Self
        ensures { result ≡ record {
          kind = opening.kind;
          opening = opening.ranges;
          noted = noted.entry.items;
          lanes = tracks.items;
        } }
    {
        Gone {
            opening,
            noted,
            tracks,
        }
    }
}

/// What the text is judged by: the version of its log, and how many nodes a tree has.
#[derive(Clone, Copy)]
pub struct Rules {
    pub version: u32,
    pub rows: u64,
}

/// Goes through these calls of a tree, with what was heard of them, and through its reads and its numbers of ranges.
fn go_calls<'t>(
    alloc: Global,
    rules: Rules,
    told: &[ToldLine<'t>],
    tree: u32,
    kind: Kind,
    map: &mut ShelfMap,
    calls: &[Numbered<'t>],
    noted: Vec<Noted<'t>>,
) -> Result<Option<Gone<'t>>, NoMemory>
    requires kind { kind ≡ map.old.kind }
    requires map { IsMap map.old.kind map.old.ranges }
    requires rows { rules.rows ≤ most_rows }
    requires opened { length map.old.ranges < 2 ^ 62 }
    requires few { length told.now < 2 ^ 57 }
    requires phases { AllPairs (λ s t. s.phase ≤ t.phase) told.now }
    requires within { All (EndsInTree told.now) told.now }
    requires are { AreCallsOf tree told.now calls.now }
    requires heard { AreNotedOf told.now tree calls.now noted.items }
    ensures some { IfOk result
        (λ found. IfSome found (λ g. IsGoneFrom rules.version rules.rows told.now tree map.old g map.new)) }
    ensures none { IfOk result
        (λ found. IfNone found (CannotGo rules.version rules.rows told.now tree map.old.kind map.old.ranges)) }
{
    let own = lines_on(alloc, told, tree)?;
    let mut tracks = tracks_of(alloc, &own)?;
    let mut stops = Stops::new(stops_of(alloc, &own)?);
    let opening = map.copied(alloc)?;
    if !go_through(
        map,
        kind,
        rules.version,
        rules.rows,
        &noted,
        &mut tracks,
        &mut stops,
    )? {
        return Ok(None);
    }
    Ok(Some(Gone::new(opening, noted, tracks)))
}

/// Goes through the reported history of a tree that opens with this map. Returns the last map. Nothing if the tree has no such
/// history.
///
/// # Errors
///
/// `NoMemory` where memory ran out.
pub fn go_tree<'t>(
    alloc: Global,
    rules: Rules,
    told: &[ToldLine<'t>],
    readers: &Readers,
    tree: u32,
    kind: Kind,
    map: &mut ShelfMap,
) -> Result<Option<Gone<'t>>, NoMemory>
    requires kind { kind ≡ map.old.kind }
    requires map { IsMap map.old.kind map.old.ranges }
    requires rows { rules.rows ≤ most_rows }
    requires opened { length map.old.ranges < 2 ^ 62 }
    requires few { length told.now < 2 ^ 57 }
    requires tree { tree < most_trees }
    requires lanes { All (λ t. t.lane < most_lanes) told.now }
    requires phases { AllPairs (λ s t. s.phase ≤ t.phase) told.now }
    requires within { All (EndsInTree told.now) told.now }
    requires readers { AreReaders readers.now told.now }
    ensures some { IfOk result
        (λ found. IfSome found (λ g. IsGoneFrom rules.version rules.rows told.now tree map.old g map.new)) }
    ensures none { IfOk result
        (λ found. IfNone found (CannotGo rules.version rules.rows told.now tree map.old.kind map.old.ranges)) }
{
    let Some(calls) = calls_on(alloc, told, tree)? else {
        return Ok(None);
    };
    let Some(noted) = all_noted(alloc, readers, tree, &calls)? else {
        return Ok(None);
    };
    go_calls(alloc, rules, told, tree, kind, map, &calls, noted)
}
