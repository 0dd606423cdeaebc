//! Which lane does a line, on which tree, and how many lanes there are.

ghost use Rattle.std.specs.Prelude.{◌≡◌};
ghost use Rattle.mt_log.specs.Run.{lane_after};
ghost use Rattle.mt_desks.specs.Dealing.{is_step, lanes_in, room_for, line_tree};

use mt_log::{Item, Line};

/// The lane of the lines after a line, if the log was in this one before it.
pub fn lane_after(lane: u32, item: &Item) -> u32
    ensures { result ≡ lane_after lane item.now }
{
    match item {
        Item::Lane { lane } => *lane,
        Item::Join => 0,
        Item::Tree { .. }
        | Item::Dup { .. }
        | Item::Check { .. }
        | Item::Write { .. }
        | Item::Ask { .. }
        | Item::Scan { .. } => lane,
    }
}

/// The tree on which a lane does a line.
pub(crate) fn tree_of(item: &Item) -> u32
    ensures { result ≡ line_tree item.now }
{
    match item {
        Item::Write { tree, .. } | Item::Ask { tree, .. } | Item::Scan { tree, .. } => *tree,
        Item::Tree { .. }
        | Item::Lane { .. }
        | Item::Join
        | Item::Dup { .. }
        | Item::Check { .. } => 0,
    }
}

/// How many answers a line has at most.
pub(crate) fn room_for(item: &Item) -> u32
    ensures { result ≡ room_for item.now }
{
    match item {
        Item::Write { .. } | Item::Ask { .. } => 1,
        Item::Scan { count, .. } => *count,
        Item::Tree { .. }
        | Item::Lane { .. }
        | Item::Join
        | Item::Dup { .. }
        | Item::Check { .. } => 0,
    }
}

/// Whether a line is done by a lane: a call, a query or a scan.
pub(crate) fn is_step(item: &Item) -> bool
    ensures { result ≡ is_step item.now }
{
    item.stepped_after(false)
}

/// How many lanes a log has: one more than the greatest that does a line, and one where none does. It is no more than
/// 2^32.
#[tactic(auto, using(crate::proofs::Laning::some_lane))]
pub fn lanes_in(lines: &[Line]) -> u64
    ensures { result ≡ lanes_in 0 lines.now }
{
    let mut lanes = 1;
    let mut here = 0;
    for line in lines {
        if is_step(&line.item) {
            lanes = lanes.max(here as u64 + 1);
        }
        here = lane_after(here, &line.item);
    }
    lanes
}
