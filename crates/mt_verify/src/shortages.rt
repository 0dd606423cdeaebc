//! Whether the numbers of a refusal for lack of nodes can be those of a tree.

ghost use Rattle.std.specs.Prelude.{◌≡◌, ◌↔◌, ◌+◌, ◌-◌, ◌*◌, ◌^◌, ◌<◌, ◌≤◌, ℕ, List, IsTrue, IfSome, IfNone, length};
ghost use Rattle.mt_base.specs.declared.ranges.Range.{Range};
ghost use Rattle.mt_base.specs.Nodes.{IsShort};
ghost use Rattle.mt_verify.specs.Shortages.{shared_limits, MayStand, MayHold};
ghost use Rattle.mt_base.specs.Width.{most_rows};

use mt_base::{Holder, Shortage};

/// The levels of a tree whose calls need this many nodes.
fn levels_of(need: u64) -> Option<u64>
    ensures some { IfSome result (λ levels. (levels ≤ 9) × (need ≡ 3 * levels + 1)) }
    ensures none { IfNone result ((levels : ℕ) → levels ≤ 9 → need ≡ 3 * levels + 1 → ⊥) }
{
    if need > 28 || need % 3 != 1 {
        return None;
    }
    Some(need / 3)
}

/// The least number of ranges of a tree with this many levels.
fn least_ranges(levels: u64) -> u64
    requires { levels ≤ 9 }
    ensures { 2 ≤ levels → 2 * result ≡ 3 * 4 ^ (levels - 1) }
{
    match levels {
        0 | 1 => 0,
        2 => 6,
        3 => 24,
        4 => 96,
        5 => 384,
        6 => 1536,
        7 => 6144,
        8 => 24576,
        9 => 98304,
        _ => unreachable!(),
    }
}

/// Whether a tree with `count` ranges may have this many levels and this many live nodes.
fn may_stand(levels: u64, live: u64, count: u64) -> bool
    requires levels { levels ≤ 9 }
    requires live { live < 2 ^ 32 }
    ensures { IsTrue result ↔ MayStand levels live count }
{
    if count == 0 {
        return levels == 0 && live == 0;
    }
    if levels == 0 || live < levels {
        return false;
    }
    if levels >= 2 && count < least_ranges(levels) {
        return false;
    }
    (2 * live).saturating_sub(4) <= count
}

/// Whether a holder is named exactly if nodes are held, with the number of a call that has ended.
fn may_hold(by: &Option<Holder>, held: u64, ended: u64) -> bool
    ensures { IsTrue result ↔ MayHold by.now held ended }
{
    match by {
        None => held == 0,
        Some(holder) => held > 0 && holder.epoch <= ended,
    }
}

/// Whether the free, the live and the held nodes are all.
fn are_all(rows: u64, shortage: &Shortage) -> bool
    ensures { IsTrue result ↔ (shortage.now.free + shortage.now.live + shortage.now.held ≡ rows) }
{
    let Shortage {
        free,
        live,
        held,
        ..
    } = *shortage;
    free <= rows && live <= rows - free && held == rows - free - live
}

/// Whether nodes may be short with these numbers: in a tree of `rows` nodes that opened with at most `opened`, after `ended`
/// calls, with `count` ranges.
pub fn is_short(rows: u64, opened: u64, ended: u64, count: u64, shortage: &Shortage) -> bool
    requires rows { rows ≤ most_rows }
    requires opened { opened < 2 ^ 62 }
    requires ended { ended < 2 ^ 57 }
    ensures { (m : List Range) → length m ≡ count → IsTrue result
        ↔ IsShort (shared_limits rows opened ended) m shortage.now }
{
    let Some(levels) = levels_of(shortage.need) else {
        return false;
    };
    if !are_all(rows, shortage) || shortage.free >= shortage.need {
        return false;
    }
    if !may_stand(levels, shortage.live, count) {
        return false;
    }
    if !may_hold(&shortage.by, shortage.held, ended) {
        return false;
    }
    shortage.held + shortage.live <= opened + 28 * ended
}
