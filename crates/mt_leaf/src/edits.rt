ghost use Rattle.std.specs.Prelude.{◌≡◌, ◌↔◌, ◌≤◌, ◌<◌, ◌+◌, ◌-◌, [], fold, length, IsTrue};
ghost use Rattle.mt_layout.specs.Columns.{RiseFrom, end_of, NoGaps};
ghost use Rattle.mt_layout.specs.Sizes.{run_room, edit_room};
ghost use Rattle.mt_layout.specs.Spans.{spans_from};
ghost use Rattle.mt_leaf.specs.Cuts.{word_of};
ghost use Rattle.mt_leaf.specs.Edits.{edited, exact_slot_of};
ghost use Rattle.mt_leaf.specs.Places.{slot_reaching, slot_above, with_joined, items_below};

use crate::places::{slot_above, slot_and_first};
use mt_layout::{Item, Run};

/// The items after `entry` was stored over `first` to `last`, with holes that follow each other joined. The first item
/// begins at `min`. An entry of 0 makes a hole.
pub fn edit(items: &Run, min: u64, first: u64, last: u64, entry: u64) -> Run
    requires some { 1 ≤ length items.now.items }
    requires room { length items.now.items ≤ edit_room }
    requires rise { RiseFrom min items.now.items }
    requires order { first ≤ last }
    requires from { min ≤ first }
    requires to { last ≤ end_of 0 items.now.items }
    ensures spans { spans_from min result.items ≡ edited (spans_from min items.now.items) first last entry }
    ensures no_gaps { NoGaps items.now.items → NoGaps result.items }
{
    let mut run = Run::new();
    edit_into(items.as_slice(), min, first, last, entry, &mut run);
    run
}

/// As `edit`, in the caller's empty run.
#[tactic(auto, using(crate::proofs::EditSteps::steps, crate::proofs::Slots::slots))]
pub fn edit_into(items: &[Item], min: u64, first: u64, last: u64, entry: u64, run: &mut Run)
    requires empty { run.old.items ≡ [] }
    requires some { 1 ≤ length items.now }
    requires room { length items.now ≤ edit_room }
    requires rise { RiseFrom min items.now }
    requires order { first ≤ last }
    requires from { min ≤ first }
    requires to { last ≤ end_of 0 items.now }
    ensures spans { spans_from min run.new.items ≡ edited (spans_from min items.now) first last entry }
    ensures no_gaps { NoGaps items.now → NoGaps run.new.items }
{
    push_below(run, items, min, first);
    push_joined(
        run,
        Item {
            last,
            word: entry,
            gap: 0,
        },
    );
    push_joined_all(run, &items[slot_above(items, last)..]);
}

/// The slot whose entry has exactly the indexes `first` to `last`, and none if no entry has. The first item begins at `min`.
pub fn exact_slot(items: &Run, min: u64, first: u64, last: u64) -> Option<u32>
    requires { RiseFrom min items.now.items }
    ensures { result ≡ exact_slot_of (spans_from min items.now.items) first last }
{
    let items = items.as_slice();
    let (slot, begin) = slot_and_first(items, min, first);
    let item = items.get(slot)?;
    if begin == first && item.last == last && item.word != 0 {
        Some(slot as u32)
    } else {
        None
    }
}

/// Pushes what these items have below `first`. The first item begins at `min`.
#[tactic(auto, using(crate::proofs::EditSteps::steps))]
fn push_below(run: &mut Run, items: &[Item], min: u64, first: u64)
    requires some { 1 ≤ length items.now }
    requires rise { RiseFrom min items.now }
    requires reach { first ≤ end_of 0 items.now }
    requires room { length run.old.items + slot_reaching items.now first < run_room }
    ensures items { run.new.items ≡ fold with_joined run.old.items (items_below min items.now first) }
    ensures count { length run.new.items ≤ length run.old.items + slot_reaching items.now first + 1 }
{
    let (slot, begin) = slot_and_first(items, min, first);
    push_joined_all(run, &items[..slot]);
    if begin < first {
        push_joined(
            run,
            Item {
                last: first - 1,
                ..items[slot]
            },
        );
    }
}

/// Pushes these items, each as one with the item before where both are holes.
pub fn push_joined_all(run: &mut Run, items: &[Item])
    requires { length run.old.items + length items.now ≤ run_room }
    ensures items { run.new.items ≡ fold with_joined run.old.items items.now }
    ensures count { length run.new.items ≤ length run.old.items + length items.now }
{
    for item in items {
        push_joined(run, *item);
    }
}

/// Pushes an item, as one with the last where both are holes.
pub fn push_joined(run: &mut Run, item: Item)
    requires { length run.old.items < run_room }
    ensures items { run.new.items ≡ with_joined run.old.items item }
    ensures count { length run.new.items ≤ length run.old.items + 1 }
{
    if item.word == 0 && ends_with_hole(run) {
        let hole = run.len() - 1;
        run[hole].last = item.last;
    } else {
        run.push(item);
    }
}

fn ends_with_hole(items: &Run) -> bool
    ensures { IsTrue result ↔ (0 < length items.now.items) × (word_of items.now.items (length items.now.items - 1) ≡ 0) }
{
    items.last().is_some_and(|item| item.word == 0)
}
