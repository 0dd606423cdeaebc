ghost use Rattle.std.specs.Prelude.{◌≡◌, ◌<◌, ◌≤◌, ◌+◌, ◌-◌, ◌^◌, OnOk};
ghost use Rattle.mt_base.specs.Limits.{most_calls};

use crate::tests::{TOP, TOP32, expect_answers, fresh_of, same};
use mt_base::{Call, Kind, MOST_ROWS, NoMemory, Query, Reply, finds_room};
use mt_engine::Engine;
use mt_list::{ListMap, Ranges};
use mt_rows::PlainRows;
use std::alloc::Global;
use std::process::Abort;
use std::test::Fail;

/// How many indexes from 0 on are drawn, and how many of the last and right above them.
const INDEXES: u32 = 20_000;

const LAST_INDEXES: u32 = 8;

/// A stream of numbers that looks random, and is the same at each run; for a tree with this last index.
#[derive(Drop)]
struct Draws {
    state: u64,
    last: u64,
}

impl Draws {
    /// The next number, which is below `bound` where that is above 0.
    fn below(&mut self, bound: u32) -> u32 {
        self.state = self
            .state
            .wrapping_mul(6_364_136_223_846_793_005)
            .wrapping_add(1_442_695_040_888_963_407);
        let scaled = (self.state >> 32).wrapping_mul(u64::from(bound));
        (scaled >> 32) as u32
    }

    /// An index: now and then one of the last, one right above them, or one of the greatest that are asked of any tree.
    fn index(&mut self) -> u64 {
        match self.below(96) {
            0 => self
                .last
                .saturating_sub(u64::from(self.below(LAST_INDEXES))),
            1 => self
                .last
                .saturating_add(1 + u64::from(self.below(LAST_INDEXES))),
            2 => TOP - u64::from(self.below(LAST_INDEXES)),
            _ => u64::from(self.below(INDEXES)),
        }
    }

    /// The last index of a store: mostly it reaches over a few ranges, and now and then over a few leaves.
    fn last_from(&mut self, first: u64) -> u64 {
        let reach = if self.below(64) == 0 { 400 } else { 12 };
        first.saturating_add(u64::from(self.below(reach)))
    }

    /// An entry, or 0 for a hole; 2 is refused.
    fn entry(&mut self) -> u64 {
        u64::from(self.below(6))
    }

    /// A call that seeks room, mostly in a window of some ranges; room for no index is refused.
    fn search(&mut self) -> Call {
        let size = u64::from(self.below(14));
        let min = self.index();
        let max = match self.below(8) {
            0 => TOP,
            1 => self.last,
            _ => min.saturating_add(u64::from(self.below(200))),
        };
        let entry = self.entry();
        match self.below(4) {
            0 => Call::Alloc {
                size,
                min,
                max,
                entry,
            },
            1 => Call::Ralloc {
                size,
                min,
                max,
                entry,
            },
            2 => Call::Gap { size, min, max },
            _ => Call::Rgap { size, min, max },
        }
    }

    fn call(&mut self, list: &mut ListMap) -> Call {
        let first = self.index();
        let last = self.last_from(first);
        let entry = self.entry();
        match self.below(4000) {
            0 => Call::Clear,
            1..1200 => call!(store first, last, entry),
            1200..1600 => exact_store(list, first, entry),
            1600..1800 => call!(store_pre first, last, entry),
            1800..2400 => call!(insert first, last, entry),
            2400..3200 => self.search(),
            _ => call!(erase first),
        }
    }
}

/// A store over exactly the first range from an index on.
fn exact_store(list: &mut ListMap, index: u64, entry: u64) -> Call {
    match list.ask(&Query::Find { index, max: TOP }) {
        Some(range) => call!(store range.first, range.last, entry),
        None => call!(store index, index, entry),
    }
}

/// Makes a drawn call on the engine and on the list, which answer the same, and so they do each kind of query then.
fn expect_call(
    rt: &impl Abort,
    engine: &mut Engine<PlainRows>,
    list: &mut ListMap,
    draws: &mut Draws,
) -> Result<(), NoMemory>
    requires { engine.old.sheet.ended < most_calls }
    ensures { engine.new.sheet.ended ≡ engine.old.sheet.ended + 1 }
{
    let call = draws.call(list);
    let reply = engine.apply(&call);
    same(rt, reply, list.act(&call)?, call);
    let (index, bound) = (draws.index(), draws.index());
    expect_answers(rt, engine, list, index, bound);
    Ok(())
}

/// Makes a thousand such calls. After each the engine and the list have to hold the same ranges.
fn expect_calls(
    rt: &impl Abort,
    alloc: Global,
    engine: &mut Engine<PlainRows>,
    list: &mut ListMap,
    draws: &mut Draws,
) -> Result<(), NoMemory>
    requires { engine.old.sheet.ended + 1000 < 2 ^ 62 }
    ensures { OnOk result (engine.new.sheet.ended ≡ engine.old.sheet.ended + 1000) }
{
    for _ in 0..1000_u64 {
        expect_call(rt, engine, list, draws)?;
    }
    let ranges = engine.list(alloc)?;
    same(
        rt,
        ranges.as_slice(),
        list.list(alloc)?.as_slice(),
        "the end",
    );
    Ok(())
}

/// Stores a thousand ranges of ten indexes, each after a hole of ten.
fn fill(rt: &impl Abort, engine: &mut Engine<PlainRows>, list: &mut ListMap) -> Result<(), NoMemory>
    requires { engine.old.sheet.ended + 1000 < 2 ^ 62 }
    ensures { OnOk result (engine.new.sheet.ended ≡ engine.old.sheet.ended + 1000) }
{
    for n in 0..1000_u64 {
        let call = call!(store 20 * n + 10, 20 * n + 19, 1);
        same(rt, engine.apply(&call), Reply::Ok, n);
        same(rt, list.act(&call)?, Reply::Ok, n);
    }
    Ok(())
}

/// Makes so many thousand drawn calls, where at most a thousand were made before.
fn expect_thousands(
    rt: &impl Abort,
    alloc: Global,
    engine: &mut Engine<PlainRows>,
    list: &mut ListMap,
    draws: &mut Draws,
    thousands: u64,
) -> Result<(), NoMemory>
    requires few { engine.old.sheet.ended ≤ 1000 }
    requires thousands { thousands ≤ 100 }
{
    for _ in 0..thousands {
        expect_calls(rt, alloc, engine, list, draws)?;
    }
    Ok(())
}

/// A hundred thousand drawn calls on an empty tree of ranges, or ten thousand on an allocation tree with a thousand ranges: of
/// this kind, with this last index, drawn from this state on.
fn expect_drawn(
    rt: &impl Abort,
    alloc: Global,
    kind: Kind,
    last: u64,
    state: u64,
) -> Result<(), NoMemory> {
    let mut draws = Draws { state, last };
    let mut engine = fresh_of(alloc, kind, MOST_ROWS)?;
    let mut list = ListMap::new(alloc, kind);
    if finds_room(kind) {
        fill(rt, &mut engine, &mut list)?;
        return expect_thousands(rt, alloc, &mut engine, &mut list, &mut draws, 10);
    }
    expect_thousands(rt, alloc, &mut engine, &mut list, &mut draws, 100)
}

#[test]
fn a_hundred_thousand_calls_are_answered_as_by_a_list(rt: HostRuntime) -> Result<(), Fail> {
    expect_drawn(&rt, rt.alloc(), Kind::Range, TOP, 1)?;
    expect_drawn(&rt, rt.alloc(), Kind::Range32, TOP32, 4)?;
    Ok(())
}

#[test]
fn ten_thousand_calls_on_areas_are_answered_as_by_a_list(rt: HostRuntime) -> Result<(), Fail> {
    expect_drawn(&rt, rt.alloc(), Kind::Alloc, TOP, 3)?;
    expect_drawn(&rt, rt.alloc(), Kind::Alloc32, TOP32, 5)?;
    Ok(())
}
