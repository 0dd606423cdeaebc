//! The nodes of a tree, as they are drawn.

ghost use Rattle.std.specs.Prelude.{◌≡◌, ◌↔◌, ◌+◌, ◌^◌, ◌≤◌, ◌<◌, ◌++◌, IfOk, IsTrue};
ghost use Rattle.mt_base.specs.Width.{kind_width, deepest};
ghost use Rattle.mt_layout.specs.Sizes.{run_room, slots_of};
ghost use Rattle.mt_image.specs.Orders.{IsGood};
ghost use Rattle.mt_rows.specs.Memory.{sheet_in};
ghost use Rattle.mt_rows.specs.Spans as defined;
ghost use Rattle.mt_rows.specs.Spans.{column};
ghost use Rattle.mt_rows.specs.Trees.{height_in};
ghost use Rattle.mt_draw.specs.Trees.{nodes_of, nodes_in, table_of, gap_of_slot};

use arrayvec::ArrayVec;
use mt_base::{DEEPEST, FIRST_ROW, Kind, NoMemory, Width, cols, top, width_of};
use mt_layout::{RUN_ROOM, RowKind, Span, kind_of, row_of, slots};
use mt_rows::plain_trees::{height_in, spans_in};
use mt_rows::{PlainRows, Rows};
use std::alloc::Global;

/// A node: the indexes that it covers with the word that leads to it, its number and kind, and how many nodes are above it.
#[derive(Clone, Copy)]
pub struct Node {
    pub span: Span,
    pub row: u32,
    pub kind: RowKind,
    pub depth: u32,
}

impl Node {
    /// Whether its slots hold entries.
    pub fn is_leaf(&self) -> bool
        ensures { IsTrue result ↔ (self.now.kind ≡ RowKind.Leaf) }
    {
        self.kind == RowKind::Leaf
    }
}

/// What is in the slots of a node, from the first to the last that is used.
pub type Spans = ArrayVec<Span, RUN_ROOM>;

/// How many of these are holes.
pub fn count_holes(spans: &[Span]) -> usize {
    spans.iter().filter(|span| span.word == 0).count()
}

/// A tree, its nodes in the order of a walk: each before its children, children from the left. They are numbered so.
#[derive(Drop)]
pub struct DrawnTree {
    pub kind: Kind,
    pub root: u64,
    pub height: u32,
    pub nodes: Vec<Node>,
    words: Vec<u64>,
}

/// Appends the nodes that are reached from a word, at most this many levels deep.
#[tactic(auto, using(crate::proofs::Walks::nodes_of_leaf, crate::proofs::Walks::nodes_of_inner))]
fn push_nodes(
    width: Width,
    words: &[u64],
    levels: u32,
    depth: u32,
    span: &Span,
    nodes: &mut Vec<Node>,
) -> Result<(), NoMemory>
    requires { depth + levels ≤ deepest }
    ensures { IfOk result (λ _. nodes.new.items ≡ nodes.old.items ++ nodes_of (record { width = width; words = words.now }) levels depth span.now) }
{
    let (Some(row), Some(kind)) = (row_of(span.word), kind_of(span.word)) else {
        return Ok(());
    };
    if levels == 0 {
        return Ok(());
    }
    nodes.push(Node {
        span: *span,
        row,
        kind,
        depth,
    })?;
    match kind {
        RowKind::Leaf => Ok(()),
        _ => {
            let spans = spans_in(width, words, span);
            for child in spans.as_slice() {
                push_nodes(width, words, levels - 1, depth + 1, child, nodes)?;
            }
            Ok(())
        }
    }
}

impl DrawnTree {
    /// The tree of this kind whose nodes these are.
    pub fn of(alloc: Global, kind: Kind, mut rows: PlainRows) -> Result<DrawnTree, NoMemory>
        requires good { IsGood kind (sheet_in rows).tree }
        ensures kind { IfOk result (λ tree. tree.kind ≡ kind) }
        ensures table { IfOk result (λ tree. table_of tree ≡ (sheet_in rows).tree.table) }
        ensures root { IfOk result (λ tree. tree.root ≡ (sheet_in rows).tree.root) }
        ensures height { IfOk result (λ tree. tree.height ≡ height_in (table_of tree) tree.root) }
        ensures nodes { IfOk result (λ tree. tree.nodes.items ≡ nodes_in (table_of tree) tree.root) }
    {
        let width = width_of(kind);
        let root = rows.root();
        let words = rows.into_words();
        let height = height_in(width, &words, root);
        let mut nodes = Vec::new(alloc);
        let all = Span {
            first: 0,
            last: top(width),
            word: root,
        };
        push_nodes(width, &words, DEEPEST as u32, 0, &all, &mut nodes)?;
        Ok(DrawnTree {
            kind,
            root,
            height,
            nodes,
            words,
        })
    }

    /// How wide its words are.
    pub fn width(&self) -> Width
        ensures { result ≡ kind_width self.now.kind }
    {
        width_of(self.kind)
    }

    /// How many slots a node has.
    pub fn slots(&self, node: &Node) -> usize
        ensures { result ≡ slots_of (kind_width self.now.kind) node.now.kind }
    {
        slots(self.width(), node.kind) as usize
    }

    /// What is in the slots of a node.
    pub fn spans(&self, node: &Node) -> Spans
        ensures { result.items ≡ defined.spans_in (table_of self.now) node.now.span }
    {
        spans_in(self.width(), &self.words, &node.span)
    }

    /// A column of a node.
    fn column(&self, row: u32, col: usize) -> u64
        requires { col < 2 ^ 32 }
        ensures { result ≡ column (table_of self.now) row col }
    {
        let base = cols(self.width()) as usize * row as usize;
        self.words.get(base + col).copied().unwrap_or(0)
    }

    /// The parent word of a node.
    pub fn parent(&self, node: &Node) -> u64
        ensures { result ≡ column (table_of self.now) node.now.row 0 }
    {
        self.column(node.row, 0)
    }

    /// The longest hole below a slot, by the node's gap word, and 0 in a node without gaps.
    pub fn gap(&self, node: &Node, slot: usize) -> u64
        requires { slot ≤ run_room }
        ensures { result ≡ gap_of_slot (table_of self.now) node.now slot }
    {
        match node.kind {
            RowKind::Gapped => self.column(node.row, 2 * self.slots(node) + slot),
            RowKind::Leaf | RowKind::Inner => 0,
        }
    }

    /// The place among all of the node that a word leads to.
    pub fn place_of(&self, word: u64) -> usize {
        row_of(word).unwrap_or(0).saturating_sub(FIRST_ROW) as usize
    }

    /// How many of its leaves' slots are holes, or how many are not.
    pub fn count(&self, holes: bool) -> usize {
        let mut count: usize = 0;
        for node in &self.nodes {
            if node.is_leaf() {
                let spans = self.spans(node);
                let found = count_holes(spans.as_slice());
                let others = spans.as_slice().len().saturating_sub(found);
                count = count.saturating_add(if holes { found } else { others });
            }
        }
        count
    }
}
