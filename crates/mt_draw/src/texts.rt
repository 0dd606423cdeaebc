//! The nodes in the form in which the kernel's `mt_dump` prints them, with decimal indexes.

ghost use Rattle.std.specs.Prelude.{◌≡◌, ◌≤◌, Some};
ghost use Rattle.mt_layout.specs.Sizes.{run_room};
ghost use Rattle.mt_draw.specs.Texts as defined;
ghost use Rattle.mt_draw.specs.Trees.{table_of};

use crate::trees::{DrawnTree, Node, Spans};
use mt_base::{Width, finds_room};
use mt_layout::{RowKind, Span, parent_word};
use std::fmt;

/// A word as the kernel prints a pointer: of 64 bits, or of 32 where the tree is narrow.
#[derive(Clone, Copy)]
struct Pointer(Width, u64);

impl fmt::Display for Pointer {
    ghost output = { λ p. Some (defined.pointer_text p.0 p.1) };

    fn fmt<W: fmt::Write>(&self, f: &mut fmt::Formatter<W>) -> fmt::Result {
        let word = self.1;
        match self.0 {
            Width::Long => write!(f, "{word:016x}"),
            Width::Short => write!(f, "{word:08x}"),
        }
    }
}

/// Two spaces for each node above.
#[derive(Clone, Copy)]
struct Indent(u32);

impl fmt::Display for Indent {
    ghost output = { λ d. Some (defined.indent_text d.0) };

    fn fmt<W: fmt::Write>(&self, f: &mut fmt::Formatter<W>) -> fmt::Result {
        for _i in 0..self.0 {
            write!(f, "  ")?;
        }
        Ok(())
    }
}

/// The indexes of a node or an entry.
#[derive(Clone, Copy)]
struct Indexes(Span);

impl fmt::Display for Indexes {
    ghost output = { λ x. Some (defined.indexes_text x.0) };

    fn fmt<W: fmt::Write>(&self, f: &mut fmt::Formatter<W>) -> fmt::Result {
        let (first, last) = (self.0.first, self.0.last);
        if first == last {
            write!(f, "{first}")
        } else {
            write!(f, "{first}-{last}")
        }
    }
}

/// An entry: an odd word is a value, as the kernel has it, and any other a pointer.
#[derive(Clone, Copy)]
struct Entry(Width, u64);

impl fmt::Display for Entry {
    ghost output = { λ e. Some (defined.word_text e.0 e.1) };

    fn fmt<W: fmt::Write>(&self, f: &mut fmt::Formatter<W>) -> fmt::Result {
        let (pointer, value) = (Pointer(self.0, self.1), self.1 / 2);
        if self.1 % 2 == 1 {
            write!(f, "value {value} (0x{value:x}) [{pointer}]")
        } else {
            write!(f, "{pointer}")
        }
    }
}

/// The number by which the kernel knows a kind of nodes.
fn type_of(kind: RowKind) -> u32
    ensures { result ≡ defined.type_of kind }
{
    match kind {
        RowKind::Leaf => 1,
        RowKind::Inner => 2,
        RowKind::Gapped => 3,
    }
}

/// The gap words of a node, of which each slot has one.
#[derive(Clone, Copy)]
struct Gaps<'a> {
    tree: &'a DrawnTree,
    node: &'a Node,
}

impl<'a> fmt::Display for Gaps<'a> {
    ghost output = { λ g. Some (defined.gaps_text (table_of g.tree.now) g.node.now) };

    fn fmt<W: fmt::Write>(&self, f: &mut fmt::Formatter<W>) -> fmt::Result {
        for i in 0..self.tree.slots(self.node) {
            let gap = self.tree.gap(self.node, i);
            write!(f, "{gap} ")?;
        }
        Ok(())
    }
}

/// What is in the slot of this number, and zeros if no slot is used.
fn slot_at(spans: &Spans, slot: usize) -> Span
    ensures { result ≡ defined.slot_at spans.now.items slot }
{
    spans.get(slot).copied().unwrap_or_default()
}

/// The slots of a node but the last, each with its pivot.
#[derive(Clone, Copy)]
struct Pairs<'a> {
    tree: &'a DrawnTree,
    node: &'a Node,
}

impl<'a> fmt::Display for Pairs<'a> {
    ghost output = { λ p. Some (defined.pairs_text (table_of p.tree.now) p.node.now) };

    fn fmt<W: fmt::Write>(&self, f: &mut fmt::Formatter<W>) -> fmt::Result {
        let (width, spans) = (self.tree.width(), self.tree.spans(self.node));
        for i in 0..self.tree.slots(self.node) - 1 {
            let span = slot_at(&spans, i);
            let (pointer, pivot) = (Pointer(width, span.word), span.last);
            write!(f, "{pointer} {pivot} ")?;
        }
        Ok(())
    }
}

/// The number of the last slot among those with the longest gap.
#[tactic(auto, using(crate::proofs::Loops::fold_grows))]
fn longest_at(tree: &DrawnTree, node: &Node, used: usize) -> usize
    requires { used ≤ run_room }
    ensures { result ≡ defined.longest_slot (table_of tree.now) node.now used }
{
    let mut best = 0;
    for slot in 0..used {
        if tree.gap(node, best) <= tree.gap(node, slot) {
            best = slot;
        }
    }
    best
}

/// The numbers of the last slot that is used, and of the one with the longest gap.
#[derive(Clone, Copy)]
struct Meta {
    end: usize,
    longest: usize,
}

impl fmt::Display for Meta {
    ghost output = { λ m. Some (defined.meta_text m.end m.longest) };

    fn fmt<W: fmt::Write>(&self, f: &mut fmt::Formatter<W>) -> fmt::Result {
        let (end, longest) = (self.end, self.longest);
        write!(f, "| {end:02X} {longest:02X}| ")
    }
}

/// What comes before the slots of a node with gaps, and nothing in any other.
#[derive(Clone, Copy)]
struct Heads<'a> {
    tree: &'a DrawnTree,
    node: &'a Node,
}

impl<'a> fmt::Display for Heads<'a> {
    ghost output = { λ h. Some (defined.heads_text (table_of h.tree.now) h.node.now) };

    fn fmt<W: fmt::Write>(&self, f: &mut fmt::Formatter<W>) -> fmt::Result {
        let Heads { tree, node } = *self;
        match node.kind {
            RowKind::Leaf | RowKind::Inner => Ok(()),
            RowKind::Gapped => {
                let used = tree.spans(node).as_slice().len();
                let (end, longest) = (used.saturating_sub(1), longest_at(tree, node, used));
                let (gaps, meta) = (Gaps { tree, node }, Meta { end, longest });
                write!(f, "{gaps}{meta}")
            }
        }
    }
}

/// The columns of a node as words, as the kernel orders them.
#[derive(Clone, Copy)]
struct Contents<'a> {
    tree: &'a DrawnTree,
    node: &'a Node,
}

impl<'a> fmt::Display for Contents<'a> {
    ghost output = { λ c. Some (defined.contents_text (table_of c.tree.now) c.node.now) };

    fn fmt<W: fmt::Write>(&self, f: &mut fmt::Formatter<W>) -> fmt::Result {
        let Contents { tree, node } = *self;
        let (heads, pairs) = (Heads { tree, node }, Pairs { tree, node });
        let spans = tree.spans(node);
        let last = Pointer(tree.width(), slot_at(&spans, tree.slots(node) - 1).word);
        write!(f, "{heads}{pairs}{last}")
    }
}

/// What is in the slots of a leaf, a line for each, and nothing of an inner node.
#[derive(Clone, Copy)]
struct Entries<'a> {
    tree: &'a DrawnTree,
    node: &'a Node,
}

impl<'a> fmt::Display for Entries<'a> {
    ghost output = { λ e. Some (defined.entries_text (table_of e.tree.now) e.node.now) };

    fn fmt<W: fmt::Write>(&self, f: &mut fmt::Formatter<W>) -> fmt::Result {
        if !self.node.is_leaf() {
            return Ok(());
        }
        let (width, indent) = (self.tree.width(), Indent(self.node.depth.saturating_add(1)));
        let spans = self.tree.spans(self.node);
        for span in spans.as_slice() {
            let (indexes, entry) = (Indexes(*span), Entry(width, span.word));
            writeln!(f, "{indent}{indexes}: {entry}")?;
        }
        Ok(())
    }
}

/// What a node's line begins with.
#[derive(Clone, Copy)]
struct Title<'a> {
    tree: &'a DrawnTree,
    node: &'a Node,
}

impl<'a> fmt::Display for Title<'a> {
    ghost output = { λ t. Some (defined.title_text (table_of t.tree.now) t.node.now) };

    fn fmt<W: fmt::Write>(&self, f: &mut fmt::Formatter<W>) -> fmt::Result {
        let Title { tree, node } = *self;
        let (depth, number, width) = (node.depth, type_of(node.kind), tree.width());
        let (indent, indexes) = (Indent(depth), Indexes(node.span));
        let address = Pointer(width, parent_word(node.row, 0));
        let parent = Pointer(width, tree.parent(node));
        write!(f, "{indent}{indexes}: node {address}")?;
        write!(f, " depth {depth} type {number} parent {parent} contents: ")
    }
}

/// The lines of a node.
#[derive(Clone, Copy)]
struct Row<'a> {
    tree: &'a DrawnTree,
    node: &'a Node,
}

impl<'a> fmt::Display for Row<'a> {
    ghost output = { λ r. Some (defined.row_text (table_of r.tree.now) r.node.now) };

    fn fmt<W: fmt::Write>(&self, f: &mut fmt::Formatter<W>) -> fmt::Result {
        let Row { tree, node } = *self;
        let (title, contents) = (Title { tree, node }, Contents { tree, node });
        let entries = Entries { tree, node };
        write!(f, "{title}{contents}\n{entries}")
    }
}

/// All nodes of a tree.
#[derive(Clone, Copy)]
struct Rows<'a>(&'a DrawnTree);

impl<'a> fmt::Display for Rows<'a> {
    ghost output = { λ r. Some (defined.rows_text (table_of r.0.now) r.0.now.nodes.items) };

    fn fmt<W: fmt::Write>(&self, f: &mut fmt::Formatter<W>) -> fmt::Result {
        let tree = self.0;
        for node in tree.nodes.as_slice() {
            let row = Row { tree, node };
            write!(f, "{row}")?;
        }
        Ok(())
    }
}

/// The kernel's flags: whether the tree finds room, and its height.
fn flags_of(tree: &DrawnTree) -> u64
    ensures { result ≡ defined.flags_of tree.now.kind tree.now.height }
{
    let height = 4 * u64::from(tree.height);
    if finds_room(tree.kind) {
        height + 1
    } else {
        height
    }
}

/// The first line.
#[derive(Clone, Copy)]
struct Head<'a>(&'a DrawnTree);

impl<'a> fmt::Display for Head<'a> {
    ghost output = { λ h. Some (defined.dump_head h.0.now.kind h.0.now.height h.0.now.root) };

    fn fmt<W: fmt::Write>(&self, f: &mut fmt::Formatter<W>) -> fmt::Result {
        let (tree, height, flags) = (self.0, self.0.height, flags_of(self.0));
        let (itself, root) = (Pointer(tree.width(), 0), Pointer(tree.width(), tree.root));
        write!(f, "maple_tree({itself}) flags {flags:X}")?;
        writeln!(f, ", height {height} root {root}")
    }
}

/// A tree as `mt_dump` prints it.
#[derive(Clone, Copy)]
pub struct Dump<'a> {
    pub tree: &'a DrawnTree,
}

impl<'a> fmt::Display for Dump<'a> {
    ghost output = { λ d. Some (defined.tree_text d.tree.now) };

    fn fmt<W: fmt::Write>(&self, f: &mut fmt::Formatter<W>) -> fmt::Result {
        let (head, rows) = (Head(self.tree), Rows(self.tree));
        if self.tree.nodes.is_empty() {
            writeln!(f, "{head}(empty)")
        } else {
            write!(f, "{head}{rows}")
        }
    }
}
