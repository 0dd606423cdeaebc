ghost use Rattle.std.specs.Prelude.{◌≡◌, ◌↔◌, ◌≤◌, ◌<◌, ◌+◌, ◌-◌, ◌*◌, true, length, IsTrue};
ghost use Rattle.mt_layout.specs.Sizes.{run_room};
ghost use Rattle.mt_layout.specs.Spans.{spans_from, Apart};
ghost use Rattle.mt_leaf.specs.Cuts.{word_of, IsCut, IsCutTowards, IsEnd, IsLaterEnd, MeetAt};

use arrayvec::ArrayVec;
use mt_layout::{Item, Run};

/// Where two nodes of a level are to meet: where the first has as few items as may be, at the half, or where the last has as
/// few as may be.
#[derive(Clone, Copy, Debug, PartialEq, Eq)]
pub enum Towards {
    First,
    Middle,
    Last,
}

/// The ends of the fewest nodes that the items of a level can be cut into: `most` items in a node at most, `least` at least,
/// and no leaf but the last that ends with a hole. They are one node where `most` items or fewer are there. Two nodes meet at
/// the half.
pub fn cut(items: &Run, most: u32, least: u32, leaf: bool) -> ArrayVec<u32, 3>
    requires some { 1 ≤ length items.now.items }
    requires few { length items.now.items + 3 ≤ 3 * most }
    requires sizes { 2 * least + 2 ≤ most }
    requires apart { leaf ≡ true → Apart (spans_from 0 items.now.items) }
    ensures { IsCut leaf least most items.now.items result.items }
{
    cut_towards(items.as_slice(), most, least, leaf, Towards::Middle)
}

/// As `cut`, where two nodes meet as they are asked to: nodes that grow at one end are cut towards it, so that the others are
/// left nearly full.
pub fn cut_towards(
    items: &[Item],
    most: u32,
    least: u32,
    leaf: bool,
    towards: Towards,
) -> ArrayVec<u32, 3>
    requires some { 1 ≤ length items.now }
    requires room { length items.now ≤ run_room }
    requires few { length items.now + 3 ≤ 3 * most }
    requires sizes { 2 * least + 2 ≤ most }
    requires apart { leaf ≡ true → Apart (spans_from 0 items.now) }
    ensures cut { IsCut leaf least most items.now result.items }
    ensures place { IsCutTowards towards leaf least most items.now result.items }
{
    let count = items.len() as u32;
    let mut ends = ArrayVec::new();
    if most < count {
        let place = meeting_place(items, most, least, leaf, towards);
        if place.max(count - place) <= most {
            ends.push(place);
        } else {
            ends.push(full_end(items, (count + 2) / 3, leaf));
            ends.push(full_end(items, (2 * count + 2) / 3, leaf));
        }
    }
    ends.push(count);
    ends
}

/// Where two nodes of these items meet, if two nodes serve.
fn meeting_place(items: &[Item], most: u32, least: u32, leaf: bool, towards: Towards) -> u32
    requires room { length items.now ≤ run_room }
    requires more { most < length items.now }
    requires sizes { 2 * least + 2 ≤ most }
    requires apart { leaf ≡ true → Apart (spans_from 0 items.now) }
    ensures { MeetAt towards leaf least most items.now result }
{
    let count = items.len() as u32;
    match towards {
        Towards::First => later_end(items, least.max(count - most), leaf),
        Towards::Middle => full_end(items, (count + 1) / 2, leaf),
        Towards::Last => full_end(items, most.min(count - least), leaf),
    }
}

/// This end, or in a leaf the one before it, so that the node does not end with a hole.
fn full_end(items: &[Item], end: u32, leaf: bool) -> u32
    requires some { 2 ≤ end }
    requires inside { end < length items.now }
    requires apart { leaf ≡ true → Apart (spans_from 0 items.now) }
    ensures { IsEnd leaf items.now end result }
{
    if ends_with_hole(items, end, leaf) {
        end - 1
    } else {
        end
    }
}

/// This end, or in a leaf the next one, so that the node does not end with a hole.
fn later_end(items: &[Item], end: u32, leaf: bool) -> u32
    requires some { 1 ≤ end }
    requires inside { end < length items.now }
    requires room { length items.now ≤ run_room }
    requires apart { leaf ≡ true → Apart (spans_from 0 items.now) }
    ensures { IsLaterEnd leaf items.now end result }
{
    if ends_with_hole(items, end, leaf) {
        end + 1
    } else {
        end
    }
}

/// Whether a leaf of these items that ends there would end with a hole.
fn ends_with_hole(items: &[Item], end: u32, leaf: bool) -> bool
    requires some { 1 ≤ end }
    requires inside { end ≤ length items.now }
    ensures { IsTrue result ↔ (leaf ≡ true) × (word_of items.now (end - 1) ≡ 0) }
{
    leaf && items[end as usize - 1].word == 0
}
