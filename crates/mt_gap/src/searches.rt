//! The lowest and the highest place with room for `size` indexes.

ghost use Rattle.std.specs.Prelude.{◌≡◌, ◌≢◌, ◌↔◌, ◌+◌, ◌-◌, ◌*◌, ◌<◌, ◌≤◌, All, IsTrue, [], length, IsNone, IfSome};
ghost use Rattle.std.specs.List.{flat_map};
ghost use Rattle.std.specs.Option.{option_map};
ghost use Rattle.mt_base.specs.Holes.{low_to, high_to, lowest_in, highest_in};
ghost use Rattle.mt_base.specs.Width.{columns, greatest};
ghost use Rattle.mt_rows.specs.Publish.{map_by};
ghost use Rattle.mt_rows.specs.Sheet.{OnlyReads, ReadsUpTo};
ghost use Rattle.mt_rows.specs.Trees.{height_in};
ghost use Rattle.mt_gap.specs.declared.children.Child.{Child};
ghost use Rattle.mt_gap.specs.Below.{child_hole, leaf_hole};
ghost use Rattle.mt_gap.specs.Children.{children_in, children_below, root_child};
ghost use Rattle.mt_gap.specs.Descents.{IsGapped, LoadedUpTo, MayLoad, picked, Arrives, AreLeaves};
ghost use Rattle.mt_gap.specs.Ways.{pick_for, sought_in, sought_to, EndsInLeaf, HasFoundWay, IsAreaAt};
ghost use Rattle.mt_gap.specs.declared.ways.Side.TheVariants as sides;
ghost use Rattle.mt_path.specs.Handles.{last_step};
ghost use Rattle.mt_path.specs.Paths.{loads_at, loads_on};
ghost use Rattle.mt_gap.specs.declared.searches.SoughtArea.{SoughtArea};

use crate::children::Child;
use crate::levels::next_level;
use crate::ways::{End, Side, go_one_way};
use crate::windows::{Asked, Window, high_place, highest_of, low_place, lowest_of};
use mt_base::{DEEPEST, Steps, Width, top};
use mt_layout::{RowKind, Span, kind_of, row_of};
use mt_path::{Handle, Path, end_walk, walk_to};
use mt_rows::Rows;
use std::sync::ledger::Ledger;

/// A place with room: where it starts, and what is there; the empty tree has nothing there.
#[derive(Clone, Copy, Debug, PartialEq, Eq)]
pub struct SoughtArea {
    pub start: u64,
    pub here: Option<Handle>,
}

/// What covers every index.
fn whole(width: Width, word: u64) -> Child
    ensures { result ≡ record { span = record { first = 0; last = greatest width; word = word }; gap = 0 } }
{
    Child {
        span: Span {
            first: 0,
            last: top(width),
            word,
        },
        gap: 0,
    }
}

/// Whether these nodes of a level are leaves. If there are none they are.
fn are_leaves(asked: &[Child]) -> bool
    ensures { IsTrue result ↔ AreLeaves asked.now }
{
    match asked.first() {
        Some(row) => kind_of(row.span.word) == Some(RowKind::Leaf),
        None => true,
    }
}

/// Goes down from the root to the leaves that have the place that is sought, if there is one.
fn to_leaves<R: Rows, L: Ledger>(
    rows: &mut R,
    side: Side,
    root: Child,
    window: Window,
    steps: &mut Steps<L>,
) -> Asked
    requires tree { IsGapped (R.sheet rows.old).tree }
    requires some { (R.sheet rows.old).tree.root ≢ 0 }
    requires root { root ≡ root_child (R.sheet rows.old).tree.table (R.sheet rows.old).tree.root }
    requires size { 1 ≤ window.size }
    ensures { Arrives (R.sheet rows.old) (R.sheet rows.new)
        (pick_for side window) window (sought_in side window (R.sheet rows.old).tree) steps.old steps.new result.items }
{
    let mut asked = Asked::new();
    asked.push(root);
    for _ in 0..DEEPEST {
        if are_leaves(&asked) {
            return asked;
        }
        let mut next = Asked::new();
        next_level(rows, side, &asked, window, steps, &mut next);
        asked = next;
    }
    unreachable!()
}

/// The lowest place in a leaf of the table.
fn lowest_in_leaf<R: Rows>(rows: &mut R, leaf: Span, window: Window) -> Option<u64>
    requires row { MayLoad (R.sheet rows.old).tree leaf }
    requires size { 1 ≤ window.size }
    ensures place { result ≡ picked lowest_in window (flat_map child_hole (children_in (R.sheet rows.old).tree.table leaf)) }
    ensures reads { ReadsUpTo (columns (R.sheet rows.old).tree.table.width) (R.sheet rows.old) (R.sheet rows.new) }
{
    match (row_of(leaf.word), kind_of(leaf.word)) {
        (Some(row), Some(kind)) => lowest_of(rows, kind, row, leaf.first, leaf.last, window),
        _ => None,
    }
}

/// The lowest place in leaves side by side. Each that is loaded is a step.
#[tactic(auto, using(crate::proofs::LevelLoops::loaded_none, crate::proofs::LevelLoops::loaded_few, crate::proofs::LevelLoops::low_nowhere))]
fn lowest_in_leaves<R: Rows, L: Ledger>(
    rows: &mut R,
    leaves: &[Child],
    window: Window,
    steps: &mut Steps<L>,
) -> Option<u64>
    requires rows { All (λ (x : Child). MayLoad (R.sheet rows.old).tree x.span) leaves.now }
    requires size { 1 ≤ window.size }
    ensures place { result ≡ picked lowest_in window (flat_map child_hole (children_below (R.sheet rows.old).tree.table leaves.now)) }
    ensures loaded { LoadedUpTo (length leaves.now) (R.sheet rows.old) (R.sheet rows.new) steps.old steps.new }
{
    for leaf in leaves {
        steps.tick();
        let found = lowest_in_leaf(rows, leaf.span, window);
        if found.is_some() {
            return found;
        }
    }
    None
}

/// The highest place in a leaf of the table.
fn highest_in_leaf<R: Rows>(rows: &mut R, leaf: Span, window: Window) -> Option<u64>
    requires row { MayLoad (R.sheet rows.old).tree leaf }
    requires size { 1 ≤ window.size }
    ensures place { result ≡ picked (highest_in window.size) window (flat_map child_hole (children_in (R.sheet rows.old).tree.table leaf)) }
    ensures reads { ReadsUpTo (columns (R.sheet rows.old).tree.table.width) (R.sheet rows.old) (R.sheet rows.new) }
{
    match (row_of(leaf.word), kind_of(leaf.word)) {
        (Some(row), Some(kind)) => highest_of(rows, kind, row, leaf.first, leaf.last, window),
        _ => None,
    }
}

/// The highest place in leaves side by side. Each is a step.
#[tactic(auto, using(crate::proofs::LevelLoops::loaded_none, crate::proofs::LevelLoops::loaded_few, crate::proofs::LevelLoops::high_all))]
fn highest_in_leaves<R: Rows, L: Ledger>(
    rows: &mut R,
    leaves: &[Child],
    window: Window,
    steps: &mut Steps<L>,
) -> Option<u64>
    requires rows { All (λ (x : Child). MayLoad (R.sheet rows.old).tree x.span) leaves.now }
    requires size { 1 ≤ window.size }
    ensures place { result ≡ picked (highest_in window.size) window (flat_map child_hole (children_below (R.sheet rows.old).tree.table leaves.now)) }
    ensures loaded { LoadedUpTo (length leaves.now) (R.sheet rows.old) (R.sheet rows.new) steps.old steps.new }
{
    let mut found = None;
    for leaf in leaves {
        steps.tick();
        found = highest_in_leaf(rows, leaf.span, window).or(found);
    }
    found
}

/// The lowest start of `size` indexes that lie in one hole and in the window `lo` to `hi`, and none if no hole has room. Each
/// node that is loaded is a step. Beside their words only the root word is loaded.
pub fn lowest<R: Rows, L: Ledger>(
    rows: &mut R,
    size: u64,
    lo: u64,
    hi: u64,
    steps: &mut Steps<L>,
) -> Option<u64>
    requires tree { IsGapped (R.sheet rows.old).tree }
    requires size { 1 ≤ size }
    ensures place { let t = (R.sheet rows.old).tree in result ≡ low_to (greatest t.table.width) (map_by t) size lo hi }
    ensures steps { steps.new ≤ steps.old + 3 * height_in (R.sheet rows.old).tree.table (R.sheet rows.old).tree.root }
    ensures reads { ReadsUpTo (columns (R.sheet rows.old).tree.table.width * (steps.new - steps.old) + 1) (R.sheet rows.old) (R.sheet rows.new) }
{
    place_by_levels(rows, Side::Low, Window { size, lo, hi }, steps)
}

/// The highest start of `size` indexes that lie in one hole and in the window `lo` to `hi`, and none if no hole has room. Each
/// node that is loaded is a step. Beside their words only the root word is loaded.
pub fn highest<R: Rows, L: Ledger>(
    rows: &mut R,
    size: u64,
    lo: u64,
    hi: u64,
    steps: &mut Steps<L>,
) -> Option<u64>
    requires tree { IsGapped (R.sheet rows.old).tree }
    requires size { 1 ≤ size }
    ensures place { let t = (R.sheet rows.old).tree in result ≡ high_to (greatest t.table.width) (map_by t) size lo hi }
    ensures steps { steps.new ≤ steps.old + 3 * height_in (R.sheet rows.old).tree.table (R.sheet rows.old).tree.root }
    ensures reads { ReadsUpTo (columns (R.sheet rows.old).tree.table.width * (steps.new - steps.old) + 1) (R.sheet rows.old) (R.sheet rows.new) }
{
    place_by_levels(rows, Side::High, Window { size, lo, hi }, steps)
}

/// The place in a leaf that is sought.
fn place_in_leaf<R: Rows>(rows: &mut R, side: Side, leaf: Span, window: Window) -> Option<u64>
    requires row { MayLoad (R.sheet rows.old).tree leaf }
    requires size { 1 ≤ window.size }
    ensures place { result ≡ picked (pick_for side window) window (flat_map child_hole (children_in (R.sheet rows.old).tree.table leaf)) }
    ensures reads { ReadsUpTo (columns (R.sheet rows.old).tree.table.width) (R.sheet rows.old) (R.sheet rows.new) }
{
    match side {
        Side::Low => lowest_in_leaf(rows, leaf, window),
        Side::High => highest_in_leaf(rows, leaf, window),
    }
}

/// The place in a leaf, to which the path leads, and the end of the way there.
fn area_in_leaf<R: Rows>(
    rows: &mut R,
    side: Side,
    leaf: Span,
    window: Window,
    path: &mut Path,
) -> Option<SoughtArea>
    requires tree { IsGapped (R.sheet rows.old).tree }
    requires size { 1 ≤ window.size }
    requires leaf { EndsInLeaf side (R.sheet rows.old).tree window path.old.items leaf }
    ensures place { option_map (λ (area : SoughtArea). area.start) result ≡ sought_in side window (R.sheet rows.old).tree }
    ensures way { IfSome result (λ area. IsAreaAt (R.sheet rows.old).tree path.new.items area) }
    ensures rest { OnlyReads (R.sheet rows.old) (R.sheet rows.new) }
    ensures reads { IsNone result → ReadsUpTo (columns (R.sheet rows.old).tree.table.width) (R.sheet rows.old) (R.sheet rows.new) }
    ensures deep { IfSome result (λ _. 0 < length path.new.items) }
    ensures found { IfSome result
        (λ _. ReadsUpTo (columns (R.sheet rows.old).tree.table.width + (loads_at (last_step path.new.items) + 1)) (R.sheet rows.old) (R.sheet rows.new)) }
{
    let start = place_in_leaf(rows, side, leaf, window)?;
    let here = end_walk(rows, leaf, start, path);
    Some(SoughtArea {
        start,
        here: Some(here),
    })
}

/// The place that is sought in a span of a leaf.
fn place_for(side: Side, window: Window, span: Span) -> Option<u64>
    requires size { 1 ≤ window.size }
    ensures place { result ≡ picked (pick_for side window) window (leaf_hole span) }
{
    match side {
        Side::Low => low_place(window, span),
        Side::High => high_place(window, span),
    }
}

/// The place that is sought in leaves side by side. Each that is loaded is a step.
fn place_in_leaves<R: Rows, L: Ledger>(
    rows: &mut R,
    side: Side,
    leaves: &[Child],
    window: Window,
    steps: &mut Steps<L>,
) -> Option<u64>
    requires rows { All (λ (x : Child). MayLoad (R.sheet rows.old).tree x.span) leaves.now }
    requires size { 1 ≤ window.size }
    ensures place { result ≡ picked (pick_for side window) window (flat_map child_hole (children_below (R.sheet rows.old).tree.table leaves.now)) }
    ensures loaded { LoadedUpTo (length leaves.now) (R.sheet rows.old) (R.sheet rows.new) steps.old steps.new }
{
    match side {
        Side::Low => lowest_in_leaves(rows, leaves, window, steps),
        Side::High => highest_in_leaves(rows, leaves, window, steps),
    }
}

/// The place that is sought, by a search from level to level.
fn place_by_levels<R: Rows, L: Ledger>(
    rows: &mut R,
    side: Side,
    window: Window,
    steps: &mut Steps<L>,
) -> Option<u64>
    requires tree { IsGapped (R.sheet rows.old).tree }
    requires size { 1 ≤ window.size }
    ensures place { result ≡ sought_to side window (R.sheet rows.old).tree }
    ensures steps { steps.new ≤ steps.old + 3 * height_in (R.sheet rows.old).tree.table (R.sheet rows.old).tree.root }
    ensures reads { ReadsUpTo (columns (R.sheet rows.old).tree.table.width * (steps.new - steps.old) + 1) (R.sheet rows.old) (R.sheet rows.new) }
{
    let word = rows.root();
    let root = whole(rows.width(), word);
    if word == 0 {
        return place_for(side, window, root.span);
    }
    let leaves = to_leaves(rows, side, root, window, steps);
    place_in_leaves(rows, side, &leaves, window, steps)
}

/// The place where a search goes into more than one node of a level, and the way there, which is walked then.
#[tactic(auto, using(crate::proofs::Readings::within_steps))]
fn area_by_levels<R: Rows, L: Ledger>(
    rows: &mut R,
    side: Side,
    window: Window,
    steps: &mut Steps<L>,
    path: &mut Path,
) -> Option<SoughtArea>
    requires tree { IsGapped (R.sheet rows.old).tree }
    requires size { 1 ≤ window.size }
    ensures place { option_map (λ (area : SoughtArea). area.start) result ≡ sought_to side window (R.sheet rows.old).tree }
    ensures way { IfSome result (λ area. IsAreaAt (R.sheet rows.old).tree path.new.items area) }
    ensures rest { OnlyReads (R.sheet rows.old) (R.sheet rows.new) }
    ensures reads { IsNone result
        → ReadsUpTo (3 * height_in (R.sheet rows.old).tree.table (R.sheet rows.old).tree.root * columns (R.sheet rows.old).tree.table.width + 1)
        (R.sheet rows.old) (R.sheet rows.new) }
    ensures found { IfSome result (λ _. ReadsUpTo (3 * height_in (R.sheet rows.old).tree.table (R.sheet rows.old).tree.root
        * columns (R.sheet rows.old).tree.table.width + 1 + loads_on path.new.items) (R.sheet rows.old) (R.sheet rows.new)) }
    ensures steps { steps.new ≤ steps.old + 3 * height_in (R.sheet rows.old).tree.table (R.sheet rows.old).tree.root }
{
    let start = place_by_levels(rows, side, window, steps)?;
    path.clear();
    let here = walk_to(rows, start, path);
    Some(SoughtArea { start, here })
}

/// The place that is sought, with the path to it and what is there. If the search went into one node in each level, no node on
/// the path is walked again but the leaf.
fn way_for<R: Rows, L: Ledger>(
    rows: &mut R,
    side: Side,
    window: Window,
    steps: &mut Steps<L>,
    path: &mut Path,
) -> Option<SoughtArea>
    requires tree { IsGapped (R.sheet rows.old).tree }
    requires size { 1 ≤ window.size }
    requires empty { path.old.items ≡ [] }
    ensures place { option_map (λ (area : SoughtArea). area.start) result ≡ sought_to side window (R.sheet rows.old).tree }
    ensures goes { HasFoundWay side window (R.sheet rows.old) (R.sheet rows.new) path.new.items result steps.old steps.new }
{
    let word = rows.root();
    if word == 0 {
        return area_by_levels(rows, side, window, steps, path);
    }
    let root = whole(rows.width(), word).span;
    match go_one_way(rows, side, root, window, path) {
        End::Nowhere => None,
        End::Leaf { leaf } => area_in_leaf(rows, side, leaf, window, path),
        End::Branch => area_by_levels(rows, side, window, steps, path),
    }
}

/// The place that `lowest` finds, with the path to it and what is there. If the search went into one node in each level, no
/// node on the path is walked again but the leaf, and the words of no other node are loaded.
pub fn lowest_way<R: Rows, L: Ledger>(
    rows: &mut R,
    size: u64,
    lo: u64,
    hi: u64,
    steps: &mut Steps<L>,
    path: &mut Path,
) -> Option<SoughtArea>
    requires tree { IsGapped (R.sheet rows.old).tree }
    requires size { 1 ≤ size }
    requires empty { path.old.items ≡ [] }
    ensures place { let t = (R.sheet rows.old).tree in
        option_map (λ (area : SoughtArea). area.start) result ≡ low_to (greatest t.table.width) (map_by t) size lo hi }
    ensures goes { HasFoundWay sides.Low (record { size = size; lo = lo; hi = hi })
        (R.sheet rows.old) (R.sheet rows.new) path.new.items result steps.old steps.new }
{
    way_for(rows, Side::Low, Window { size, lo, hi }, steps, path)
}

/// The place that `highest` finds, with the path to it and what is there, as `lowest_way`.
pub fn highest_way<R: Rows, L: Ledger>(
    rows: &mut R,
    size: u64,
    lo: u64,
    hi: u64,
    steps: &mut Steps<L>,
    path: &mut Path,
) -> Option<SoughtArea>
    requires tree { IsGapped (R.sheet rows.old).tree }
    requires size { 1 ≤ size }
    requires empty { path.old.items ≡ [] }
    ensures place { let t = (R.sheet rows.old).tree in
        option_map (λ (area : SoughtArea). area.start) result ≡ high_to (greatest t.table.width) (map_by t) size lo hi }
    ensures goes { HasFoundWay sides.High (record { size = size; lo = lo; hi = hi })
        (R.sheet rows.old) (R.sheet rows.new) path.new.items result steps.old steps.new }
{
    way_for(rows, Side::High, Window { size, lo, hi }, steps, path)
}
