//! How many nodes are surely enough for `ranges` ranges.

ghost use Rattle.std.specs.Prelude.{◌≡◌, ◌≤◌, ◌<◌, ℕ, List, length};
ghost use Rattle.mt_base.specs.declared.ranges.Range.{Range};
ghost use Rattle.mt_base.specs.declared.replies.Shortage.{Shortage};
ghost use Rattle.mt_base.specs.Nodes.{IsShort, Limits};
ghost use Rattle.mt_base.specs.Width.{most_rows};
ghost use Rattle.mt_tree.specs.RowsFor as defined;

use mt_base::MOST_ROWS;

/// One level more, where a tree may have it.
fn level_from(most: u64, least: u64) -> u64
    ensures is { result ≡ defined.level_from most least }
    ensures one { result ≤ 1 }
{
    if least <= most { 1 } else { 0 }
}

/// How many levels a tree of `ranges` ranges may have.
fn levels_for(ranges: u64) -> u64
    requires { ranges ≤ 131008 }
    ensures is { result ≡ defined.levels_for ranges }
    ensures few { result ≤ 9 }
{
    let most = 2 * ranges + 1;
    1 + level_from(most, 12)
        + level_from(most, 48)
        + level_from(most, 192)
        + level_from(most, 768)
        + level_from(most, 3072)
        + level_from(most, 12288)
        + level_from(most, 49152)
        + level_from(most, 196_608)
}

/// How many nodes are surely enough for `ranges` ranges. A tree of that many nodes, none of which is held back, refuses no call
/// because nodes are short while it has at most that many ranges. The greatest number if a tree cannot have that many nodes.
#[tactic(auto, using(crate::proofs::RowsFor::telling))]
pub fn rows_enough(ranges: u64) -> u64
    ensures rows { result ≡ defined.rows_told ranges }
    ensures enough { (l : Limits) (m : List Range) (s : Shortage) → length m ≤ ranges → IsShort l m s → s.held ≡ 0 → l.rows < result }
{
    if ranges > 2 * MOST_ROWS {
        return u64::MAX;
    }
    let rows = ranges / 2 + 3 * levels_for(ranges) + 3;
    if rows <= MOST_ROWS { rows } else { u64::MAX }
}
