//! The walk through a tree: each node before its children, children from the left.

ghost use Rattle.std.specs.Prelude.{◌≡◌, ◌≢◌, ◌==◌, ◌+◌, ◌-◌, ◌^◌, ◌<◌, ◌≤◌, ℕ, true, not, max, Any, Some, OnOk};
ghost use Rattle.std.specs.Prelude.{IfErr, [], slice_get, slice_index_or, length, unwrap_or, filter};
ghost use Rattle.mt_base.specs.Width.{deepest};
ghost use Rattle.mt_layout.specs.declared.names.RowKind.TheVariants as kinds;
ghost use Rattle.mt_layout.specs.Columns.{RiseFrom, longest_hole};
ghost use Rattle.mt_layout.specs.Rows.{parent_at};
ghost use Rattle.mt_layout.specs.Spans.{spans_from};
ghost use Rattle.mt_rows.specs.Sheet.{OnlyReads};
ghost use Rattle.mt_check.specs.RowTests as tests;
ghost use Rattle.mt_check.specs.RowTests.{depth_at};
ghost use Rattle.mt_check.specs.Check.{own_faults};
ghost use Rattle.mt_check.specs.Walks.{no_item, tree_from, way_of, height_from, LeadsToDepth, depth_from, depth_known, IsEntered, IsAnswerAt};

use crate::faults::{Fault, Law};
use crate::reads::{Items, span_at};
use crate::row_laws::{check_words, row_named};
use mt_base::{DEEPEST, Kind};
use mt_layout::{Item, RowKind, Span, gap_of, parent_word};
use mt_rows::Rows;

/// A walk through a tree of this kind with this root word.
#[derive(Drop)]
pub(crate) struct Walk {
    pub(crate) kind: Kind,
    pub(crate) root: u64,
    /// The depth of the first leaf, once the walk has reached it.
    pub(crate) leaf_depth: Option<u32>,
}

/// How the walk reaches a node: how many levels there may be from it down, the node `from` whose slot names it, and what its
/// parent word should be.
#[derive(Clone, Copy)]
pub(crate) struct Visit {
    pub(crate) left: u32,
    pub(crate) from: u32,
    pub(crate) parent: u64,
    pub(crate) span: Span,
}

/// A node whose own words keep all laws. The children of a node are read into one such record, one after another, so that no
/// record is cleared or moved for each.
#[derive(Drop)]
pub(crate) struct Row {
    number: u32,
    kind: RowKind,
    items: Items,
}

/// What is below a node: how many nodes, itself counted, how many ranges, and the longest hole.
#[derive(Clone, Copy)]
pub(crate) struct Below {
    pub(crate) rows: u64,
    pub(crate) ranges: u64,
    pub(crate) longest: u64,
}

/// How many of these items are entries.
fn count_entries(items: &[Item]) -> u64
    ensures { result ≡ length (filter (λ x. not (x.word == 0)) items.now) }
{
    items.iter().filter(|item| item.word != 0).count() as u64
}

/// What is in a leaf with these items, the first of which begins at `first`.
fn leaf_below(items: &[Item], first: u64) -> Below
    requires rise { RiseFrom first items.now }
    requires entry { Any (λ x. x.word ≢ 0) items.now }
    ensures { result ≡ record { rows = 1; ranges = length (filter (λ x. not (x.word == 0)) items.now); longest = longest_hole first items.now } }
{
    Below {
        rows: 1,
        ranges: count_entries(items),
        longest: gap_of(items, first),
    }
}

impl Below {
    /// The sum with what is below one more child.
    fn plus(self, child: Below) -> Below
        requires rows { self.rows + child.rows < 2 ^ 64 }
        requires ranges { self.ranges + child.ranges < 2 ^ 64 }
        ensures { result ≡ record { rows = self.rows + child.rows; ranges = self.ranges + child.ranges; longest = max self.longest child.longest } }
    {
        Below {
            rows: self.rows + child.rows,
            ranges: self.ranges + child.ranges,
            longest: self.longest.max(child.longest),
        }
    }
}

impl Row {
    /// Room for a node.
    pub(crate) fn new() -> Row {
        Row {
            number: 0,
            kind: RowKind::Leaf,
            items: Items::new(),
        }
    }

    /// How the walk comes from this node to the child in a slot.
    fn child(&self, visit: Visit, slot: usize) -> Visit
        requires left { 0 < visit.left }
        requires slot { slot < length self.now.items.items }
        requires rise { RiseFrom visit.span.first self.now.items.items }
        ensures visit { result ≡ record { left = visit.left - 1; from = self.now.number; parent = parent_at self.now.number slot; span = result.span } }
        ensures span { Some result.span ≡ slice_get (spans_from visit.span.first self.now.items.items) slot }
    {
        let items = self.items.as_slice();
        Visit {
            left: visit.left - 1,
            from: self.number,
            parent: parent_word(self.number, slot as u32),
            span: span_at(items, visit.span.first, slot),
        }
    }

    /// Whether, in a node with gaps, the gap word of a slot is the length of the longest hole below it.
    fn tells_gap(&self, slot: usize, longest: u64) -> bool
        requires { slot < length self.now.items.items }
        ensures { result ≡ tests.tells_gap self.now.kind (slice_index_or self.now.items.items slot no_item).gap longest }
    {
        match self.kind {
            RowKind::Leaf | RowKind::Inner => true,
            RowKind::Gapped => self.items[slot].gap == longest,
        }
    }
}

impl Walk {
    /// Whether a node of this kind may be here, with this many levels left, and a leaf is as deep as the first one.
    fn has_depth(&mut self, left: u32, kind: RowKind) -> bool
        requires { left ≤ deepest }
        ensures result { result ≡ tests.has_depth (unwrap_or self.old.leaf_depth (depth_at left)) left kind }
        ensures known { self.new ≡ record self.old { leaf_depth = depth_known self.old.leaf_depth left kind } }
    {
        let depth = DEEPEST as u32 + 1 - left;
        match kind {
            RowKind::Leaf => {
                let first = self.leaf_depth.unwrap_or(depth);
                self.leaf_depth = Some(first);
                depth <= DEEPEST as u32 && depth == first
            }
            RowKind::Inner | RowKind::Gapped => depth <= DEEPEST as u32,
        }
    }

    /// Enters a node, or returns the first law that it breaks, except for that of gaps.
    fn enter<R: Rows>(&mut self, rows: &mut R, visit: Visit, row: &mut Row) -> Result<(), Fault>
        requires left { visit.left ≤ deepest }
        requires depth { let t = tree_from self.old (R.sheet rows.old).tree in
            LeadsToDepth (height_from t) (depth_from t visit.left visit.span) self.old.leaf_depth }
        ensures ok { let t = tree_from self.old (R.sheet rows.old).tree in OnOk result (IsEntered t visit row.new) }
        ensures known { OnOk result (self.new ≡ record self.old { leaf_depth = depth_known self.old.leaf_depth visit.left row.new.kind }) }
        ensures err { let t = tree_from self.old (R.sheet rows.old).tree in
            IfErr result (λ fault. slice_get (own_faults t visit.left (way_of visit) visit.span) 0 ≡ Some fault) }
        ensures walk { self.new ≡ record self.old { leaf_depth = self.new.leaf_depth } }
        ensures rest { OnlyReads (R.sheet rows.old) (R.sheet rows.new) }
    {
        let Some(named) = row_named(self.kind, rows.size(), visit.span.word) else {
            return Err(Fault {
                row: visit.from,
                law: Law::Name,
            });
        };
        if !self.has_depth(visit.left, named.kind) {
            return Err(Fault {
                row: named.row,
                law: Law::Depth,
            });
        }
        row.number = named.row;
        row.kind = named.kind;
        match check_words(
            rows,
            named,
            visit.left,
            visit.parent,
            visit.span,
            &mut row.items,
        ) {
            Ok(()) => Ok(()),
            Err(law) => Err(Fault {
                row: named.row,
                law,
            }),
        }
    }

    /// Walks through a node and what is below it. Returns the first law that is broken, or what is there.
    #[cycle(walk)]
    pub(crate) fn check_row<R: Rows>(
        &mut self,
        rows: &mut R,
        visit: Visit,
        row: &mut Row,
    ) -> Result<Below, Fault>
        requires left { visit.left ≤ deepest }
        requires depth { let t = tree_from self.old (R.sheet rows.old).tree in
            LeadsToDepth (height_from t) (depth_from t visit.left visit.span) self.old.leaf_depth }
        ensures answer { IsAnswerAt (tree_from self.old (R.sheet rows.old).tree) visit result }
        ensures depth { OnOk result (self.new.leaf_depth ≡ Some (height_from (tree_from self.old (R.sheet rows.old).tree))) }
        ensures walk { self.new ≡ record self.old { leaf_depth = self.new.leaf_depth } }
        ensures rest { OnlyReads (R.sheet rows.old) (R.sheet rows.new) }
    {
        self.enter(rows, visit, row)?;
        match row.kind {
            RowKind::Leaf => Ok(leaf_below(row.items.as_slice(), visit.span.first)),
            RowKind::Inner | RowKind::Gapped => self.check_children(rows, visit, row),
        }
    }

    /// Walks through the children of a node, and compares its gap words with the holes that are there.
    #[cycle(walk)]
    fn check_children<R: Rows>(
        &mut self,
        rows: &mut R,
        visit: Visit,
        row: &Row,
    ) -> Result<Below, Fault>
        requires left { visit.left ≤ deepest }
        requires depth { let t = tree_from self.old (R.sheet rows.old).tree in
            LeadsToDepth (height_from t) (depth_from t visit.left visit.span) self.old.leaf_depth }
        requires row { IsEntered (tree_from self.old (R.sheet rows.old).tree) visit row.now }
        requires inner { row.now.kind ≢ kinds.Leaf }
        ensures answer { IsAnswerAt (tree_from self.old (R.sheet rows.old).tree) visit result }
        ensures depth { OnOk result (self.new.leaf_depth ≡ Some (height_from (tree_from self.old (R.sheet rows.old).tree))) }
        ensures walk { self.new ≡ record self.old { leaf_depth = self.new.leaf_depth } }
        ensures rest { OnlyReads (R.sheet rows.old) (R.sheet rows.new) }
    {
        let mut below = Below {
            rows: 1,
            ranges: 0,
            longest: 0,
        };
        let mut gaps_hold = true;
        let mut room = Row::new();
        for slot in 0..row.items.len() {
            let child = self.check_row(rows, row.child(visit, slot), &mut room)?;
            gaps_hold &= row.tells_gap(slot, child.longest);
            below = below.plus(child);
        }
        if !gaps_hold {
            return Err(Fault {
                row: row.number,
                law: Law::Gaps,
            });
        }
        Ok(below)
    }
}
