//! Gap words after a replacement of nodes.

ghost use Rattle.std.specs.Prelude.{◌≡◌, ◌+◌, ◌-◌, ◌≤◌, ◌<◌, ℕ, IsTrue, length};
ghost use Rattle.mt_base.specs.declared.kinds.Kind.{Kind};
ghost use Rattle.mt_path.specs.Paths.{step_at};
ghost use Rattle.mt_layout.specs.declared.names.RowKind.TheVariants.{Gapped};
ghost use Rattle.mt_layout.specs.Sizes.{slots_of};
ghost use Rattle.mt_rows.specs.Sheet.{Rooted};
ghost use Rattle.mt_splice.specs.Splice.{TellsGapAt};
ghost use Rattle.mt_engine.specs.Mends.{MayMendAt, WasWay, IsPlaceOfLeaf, IsMendedAt};

use mt_base::{Kind, Width, finds_room};
use mt_gap::{mend_along, mend_way};
use mt_layout::{RowKind, slots};
use mt_path::{Path, walk_to};
use mt_rows::{Place, Rows};
use mt_splice::Spliced;

/// Whether a place is the slot in which a path enters its leaf, in a node with gaps.
fn is_of_leaf(width: Width, place: Place, path: &Path) -> bool
    requires slot { 2 ≤ length path.now.items → (step_at path.now.items (length path.now.items - 2)).slot < slots_of width Gapped }
    ensures { IsTrue result → IsPlaceOfLeaf width place path.now.items }
{
    let levels = path.len();
    if levels < 2 {
        return false;
    }
    let above = path[levels - 2];
    place
        == Place::Slot {
            row: above.row,
            col: slots(width, RowKind::Gapped) + above.slot,
        }
}

/// The node of a path's leaf, and 0 where the path is empty.
fn leaf_on(path: &Path) -> u32
    ensures { (level : ℕ) → level + 1 ≡ length path.now.items → (step_at path.now.items level).row ≡ result }
{
    if path.is_empty() {
        return 0;
    }
    path[path.len() - 1].row
}

/// Mends the gap words on the way to an index. The way is walked.
fn mend_walked<R: Rows>(rows: &mut R, index: u64)
    requires { (kind : Kind) × MayMendAt kind (R.sheet rows.old) index }
    ensures { (kind : Kind) → MayMendAt kind (R.sheet rows.old) index → IsMendedAt kind (R.sheet rows.old) (R.sheet rows.new) }
{
    let mut path = Path::new();
    walk_to(rows, index, &mut path);
    mend_way(rows, &path, leaf_on(&path));
}

/// Mends the gap words on the way to an index, where all others are right: along a path that led there before a replacement,
/// if only its leaf was replaced, which is not loaded. A tree without gaps has none, and no word is loaded.
pub fn mend_at<R: Rows>(rows: &mut R, kind: Kind, spliced: &Spliced, path: &Path, index: u64)
    requires may { MayMendAt kind (R.sheet rows.old) index }
    requires was { (was : Rooted) × WasWay kind was (R.sheet rows.old).tree spliced.now.place path.now.items index }
    requires told { TellsGapAt kind (R.sheet rows.old).tree spliced.now.place spliced.now.gap }
    ensures { IsMendedAt kind (R.sheet rows.old) (R.sheet rows.new) }
{
    if !finds_room(kind) {
        return;
    }
    if is_of_leaf(rows.width(), spliced.place, path) {
        mend_along(rows, path, spliced.gap);
    } else {
        mend_walked(rows, index);
    }
}
