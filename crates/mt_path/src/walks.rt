//! Walks down to the leaf of an index: from the root, or from a node of the path to another index.

ghost use Rattle.std.specs.Prelude.{◌≡◌, ◌+◌, ◌-◌, ◌<◌, ◌≤◌, ◌↔◌, ℕ, Some, IsSome, true, false, []};
ghost use Rattle.mt_base.specs.declared.kinds.Kind.{Kind};
ghost use Rattle.mt_base.specs.Width.{greatest};
ghost use Rattle.mt_layout.specs.declared.names.RowKind.{RowKind};
ghost use Rattle.mt_layout.specs.Rows.{named_kind};
ghost use Rattle.mt_rows.specs.Trees.{map_in};
ghost use Rattle.mt_rows.specs.Sheet.{ReadsUpTo};
ghost use Rattle.mt_rows.specs.Publish.{IsTreeOf};
ghost use Rattle.mt_path.specs.Paths.{path_in, loads_in, loads_on, ReadsBelow};
ghost use Rattle.mt_path.specs.Walks.{IsAtEnd, WalksTo, row_at};

use crate::paths::{Path, PathStep, pop_to};
use crate::rows::{Found, Row, child_for, find_slot, load_found, root_row};
use mt_base::{DEEPEST, Width};
use mt_layout::{RowKind, kind_of};
use mt_rows::Rows;

/// Walks down from a node on the way to an index, over nodes of this width, and appends the steps from there on.
#[inline(always)]
fn descend_by<R: Rows>(rows: &mut R, width: Width, row: Row, index: u64, path: &mut Path) -> Found
    requires width { width ≡ (R.sheet rows.old).tree.table.width }
    requires tree { (kind : Kind) × IsTreeOf (R.sheet rows.old).tree kind }
    requires way { WalksTo (R.sheet rows.old).tree index path.old.items row }
    ensures path { path.new.items ≡ path_in (R.sheet rows.old).tree.table (R.sheet rows.old).tree.root index }
    ensures end { IsAtEnd (R.sheet rows.old).tree index result }
    ensures reads { ReadsUpTo (loads_in path.new.items - loads_in path.old.items - 1) (R.sheet rows.old) (R.sheet rows.new) }
{
    let mut row = row;
    for _ in 0..DEEPEST {
        let found = find_slot(rows, width, row, index);
        path.push(found.step);
        if row.kind == RowKind::Leaf {
            return found;
        }
        row = child_for(load_found(rows, width, row.kind, found));
    }
    unreachable!()
}

/// Walks down from a node on the way to an index, and appends the steps from there on. Returns where the index is in its leaf,
/// whose slot is not loaded. The width is looked at once, and not in each node.
pub(crate) fn descend<R: Rows>(rows: &mut R, row: Row, index: u64, path: &mut Path) -> Found
    requires tree { (kind : Kind) × IsTreeOf (R.sheet rows.old).tree kind }
    requires way { WalksTo (R.sheet rows.old).tree index path.old.items row }
    ensures path { path.new.items ≡ path_in (R.sheet rows.old).tree.table (R.sheet rows.old).tree.root index }
    ensures end { IsAtEnd (R.sheet rows.old).tree index result }
    ensures reads { ReadsUpTo (loads_in path.new.items - loads_in path.old.items - 1) (R.sheet rows.old) (R.sheet rows.new) }
{
    match rows.width() {
        Width::Long => descend_by(rows, Width::Long, row, index, path),
        Width::Short => descend_by(rows, Width::Short, row, index, path),
    }
}

/// The way to an index, and the slot of the leaf that holds it. It is empty where the tree is.
pub fn walk<R: Rows>(rows: &mut R, index: u64) -> Path
    requires tree { (kind : Kind) × IsTreeOf (R.sheet rows.old).tree kind }
    requires index { index ≤ greatest (R.sheet rows.old).tree.table.width }
    ensures path { result.items ≡ path_in (R.sheet rows.old).tree.table (R.sheet rows.old).tree.root index }
    ensures empty { (result.items ≡ []) ↔ (map_in (R.sheet rows.old).tree.table (R.sheet rows.old).tree.root ≡ []) }
    ensures reads { ReadsUpTo (loads_on result.items) (R.sheet rows.old) (R.sheet rows.new) }
{
    let mut path = Path::new();
    if let Some(row) = root_row(rows) {
        descend(rows, row, index, &mut path);
    }
    path
}

/// The kind of a node of a path. Its last is a leaf. All others of a tree are of one kind, which the root's name gives.
fn kind_on<R: Rows>(rows: &mut R, is_last: bool) -> RowKind
    requires { is_last ≡ false → IsSome (named_kind (R.sheet rows.old).tree.root) }
    ensures leaf { is_last ≡ true → result ≡ RowKind.Leaf }
    ensures inner { is_last ≡ false → Some result ≡ named_kind (R.sheet rows.old).tree.root }
    ensures reads { ReadsUpTo 1 (R.sheet rows.old) (R.sheet rows.new) }
{
    if is_last {
        return RowKind::Leaf;
    }
    match kind_of(rows.root()) {
        Some(kind) => kind,
        None => unreachable!(),
    }
}

/// The node that a step of a path is in.
pub(crate) fn row_of_step<R: Rows>(rows: &mut R, step: PathStep, is_last: bool) -> Row
    requires { is_last ≡ false → IsSome (named_kind (R.sheet rows.old).tree.root) }
    ensures row { result ≡ row_at step.row result.kind step.min step.max }
    ensures leaf { is_last ≡ true → result.kind ≡ RowKind.Leaf }
    ensures inner { is_last ≡ false → Some result.kind ≡ named_kind (R.sheet rows.old).tree.root }
    ensures reads { ReadsUpTo 1 (R.sheet rows.old) (R.sheet rows.new) }
{
    let kind = kind_on(rows, is_last);
    Row {
        number: step.row,
        kind,
        min: step.min,
        max: step.max,
    }
}

/// A path goes on to another index, in place: from the deepest of its nodes that covers the index.
pub fn walk_on<R: Rows>(rows: &mut R, path: &mut Path, index: u64)
    requires tree { (kind : Kind) × IsTreeOf (R.sheet rows.old).tree kind }
    requires path { (i : ℕ) × (i ≤ greatest (R.sheet rows.old).tree.table.width)
        × (path.old.items ≡ path_in (R.sheet rows.old).tree.table (R.sheet rows.old).tree.root i) }
    requires index { index ≤ greatest (R.sheet rows.old).tree.table.width }
    ensures path { path.new.items ≡ path_in (R.sheet rows.old).tree.table (R.sheet rows.old).tree.root index }
    ensures reads { ReadsUpTo (loads_on path.new.items) (R.sheet rows.old) (R.sheet rows.new) }
    ensures near { ReadsBelow path.old.items path.new.items index (R.sheet rows.old) (R.sheet rows.new) }
{
    let levels = path.len();
    let Some(step) = pop_to(path, index) else {
        return;
    };
    let row = row_of_step(rows, step, path.len() + 1 == levels);
    descend(rows, row, index, path);
}
