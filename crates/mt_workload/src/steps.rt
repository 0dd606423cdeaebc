ghost use Rattle.std.specs.Prelude.{◌≡◌, ◌≤◌, ◌<◌, ◌^◌, ℕ};
ghost use Rattle.mt_base.specs.declared.calls.Call.{Call};
ghost use Rattle.mt_log.specs.declared.lines.Item.{Item};
ghost use Rattle.mt_log.specs.declared.lines.Item.TheVariants as items;
ghost use Rattle.mt_workload.specs.Made.{last_index, drawn_size, drawn_entry, area_step, store_step, index_step, step};

use crate::draws::Draws;
use mt_base::{Call, Query};
use mt_log::Item;

/// The number of the one tree.
const TREE: u32 = 0;

/// The greatest index that is asked for.
const LAST_INDEX: u64 = 4_194_303;

/// How many steps a scan has.
const SCAN_STEPS: u32 = 4;

/// The size of an area.
#[tactic(auto, unfolding(crate::specs::Made::drawn_size))]
fn size(draws: &mut Draws) -> u64
    ensures drawn { (result, draws.new) ≡ drawn_size draws.old }
    ensures least { 4 ≤ result }
    ensures most { result ≤ 512 }
{
    draws.below(509) + 4
}

#[tactic(auto, unfolding(crate::specs::Made::drawn_entry))]
fn entry(draws: &mut Draws) -> u64
    ensures drawn { (result, draws.new) ≡ drawn_entry draws.old }
{
    draws.below(1_000_000) + 4096
}

/// A size and an entry, for a step that finds room.
#[tactic(auto, unfolding(crate::specs::Made::area_step))]
fn size_and_entry(draws: &mut Draws) -> (u64, u64)
    ensures { (call : ℕ → ℕ → ℕ → ℕ → Call) → (items.Write TREE (call result.0 0 last_index result.1), draws.new) ≡ area_step call draws.old }
{
    let size = size(draws);
    let entry = entry(draws);
    (size, entry)
}

fn alloc_step(draws: &mut Draws) -> Item
    ensures { (result, draws.new) ≡ area_step Call.Alloc draws.old }
{
    let (size, entry) = size_and_entry(draws);
    let call = Call::Alloc {
        size,
        min: 0,
        max: LAST_INDEX,
        entry,
    };
    Item::Write { tree: TREE, call }
}

fn ralloc_step(draws: &mut Draws) -> Item
    ensures { (result, draws.new) ≡ area_step Call.Ralloc draws.old }
{
    let (size, entry) = size_and_entry(draws);
    let call = Call::Ralloc {
        size,
        min: 0,
        max: LAST_INDEX,
        entry,
    };
    Item::Write { tree: TREE, call }
}

#[tactic(auto, unfolding(crate::specs::Made::store_step))]
fn store_step(draws: &mut Draws) -> Item
    ensures { (result, draws.new) ≡ store_step draws.old }
{
    let first = draws.below(4_190_000);
    let size = size(draws);
    let entry = entry(draws);
    let call = Call::Store {
        first,
        last: first + size - 1,
        entry,
    };
    Item::Write { tree: TREE, call }
}

/// The index of a step at an index.
#[tactic(auto, unfolding(crate::specs::Made::index_step))]
fn index(draws: &mut Draws) -> u64
    ensures { (item : ℕ → Item) → (item result, draws.new) ≡ index_step item draws.old }
{
    draws.below(4_194_304)
}

/// A step.
#[tactic(auto, unfolding(crate::specs::Made::step, crate::specs::Made::step_by))]
pub fn step(draws: &mut Draws) -> Item
    ensures { (result, draws.new) ≡ step draws.old }
{
    match draws.below(16) {
        0..=5 => alloc_step(draws),
        6 => ralloc_step(draws),
        7 => store_step(draws),
        8..=9 => Item::Write {
            tree: TREE,
            call: Call::Erase {
                index: index(draws),
            },
        },
        10..=13 => Item::Ask {
            tree: TREE,
            query: Query::Load {
                index: index(draws),
            },
        },
        14 => Item::Ask {
            tree: TREE,
            query: Query::Find {
                index: index(draws),
                max: LAST_INDEX,
            },
        },
        _ => Item::Scan {
            tree: TREE,
            index: index(draws),
            max: LAST_INDEX,
            count: SCAN_STEPS,
        },
    }
}
