//! How many nodes are surely enough for `ranges` ranges.

ghost use Rattle.std.specs.Prelude.{◌≡◌, ◌≤◌, ◌<◌, List, length};
ghost use Rattle.mt_base.specs.declared.ranges.Range.{Range};
ghost use Rattle.mt_base.specs.declared.replies.Shortage.{Shortage};
ghost use Rattle.mt_base.specs.Nodes.{IsShort, Limits};
ghost use Rattle.mt_tree.specs.RowsFor.{rows_told};

use mt_tree::rows_enough;

/// How many nodes are surely enough for `ranges` ranges. A tree of that many nodes, none of which is held back, refuses no call
/// because nodes are short while it has at most that many ranges. The greatest number if a tree cannot have that many nodes.
#[unsafe(no_mangle)]
pub extern "C" fn maple_rows_for(ranges: u64) -> u64
    ensures rows { result ≡ rows_told ranges }
    ensures enough { (l : Limits) (m : List Range) (s : Shortage)
        → length m ≤ ranges → IsShort l m s → s.held ≡ 0 → l.rows < result }
{
    rows_enough(ranges)
}
