//! How many levels a tree has.

ghost use Rattle.std.specs.Prelude.{◌≡◌, ◌+◌, ◌*◌, false};
ghost use Rattle.mt_base.specs.declared.kinds.Kind.{Kind};
ghost use Rattle.mt_rows.specs.Publish.{IsTreeOf};
ghost use Rattle.mt_rows.specs.Sheet.{OnlyReads, ReadsUpTo};
ghost use Rattle.mt_engine.specs.Heights.{HasHeight, is_root};

use mt_path::walk;
use mt_rows::{Place, Rows};

/// Whether a place is the root word.
pub fn is_root(place: &Place) -> bool
    ensures { result ≡ is_root place.now }
{
    matches!(place, Place::Root)
}

/// The number of levels, found on the way to the first index: in each node nine pivots and three slots at most are loaded, and
/// before them the root word.
pub fn height_of<R: Rows>(rows: &mut R) -> u64
    requires tree { (kind : Kind) × IsTreeOf (R.sheet rows.old).tree kind }
    ensures height { HasHeight (R.sheet rows.old).tree result }
    ensures reads { ReadsUpTo (14 * result + 1) (R.sheet rows.old) (R.sheet rows.new) }
{
    walk(rows, 0).len() as u64
}

/// The number of levels after a store: as before, or found again where the root is new.
pub fn height_after<R: Rows>(rows: &mut R, is_new_root: bool, before: u64) -> u64
    requires tree { (kind : Kind) × IsTreeOf (R.sheet rows.old).tree kind }
    requires stays { is_new_root ≡ false → HasHeight (R.sheet rows.old).tree before }
    ensures height { HasHeight (R.sheet rows.old).tree result }
    ensures rest { OnlyReads (R.sheet rows.old) (R.sheet rows.new) }
{
    if is_new_root { height_of(rows) } else { before }
}
