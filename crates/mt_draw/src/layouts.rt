//! Where the boxes of nodes are: the root at the left, children to the right of their parent, the first beside it.

use crate::shapes::{Frame, Indexes, Px};
use crate::trees::{DrawnTree, Node};
use mt_layout::{RowKind, Span, row_of};
use std::alloc::{AllocError, Global};

/// The height of a line of text.
pub const LINE: Px = Px(18);

/// The height of a box above its first item.
pub const TITLE: Px = Px(42);

/// The room left of an item's text, for the slot's number.
pub const MARGIN: Px = Px(34);

/// The room above the boxes.
const TOP: Px = Px(60);

/// The room around a picture.
pub const BORDER: Px = Px(20);

/// The room between two boxes, one above the other.
const BETWEEN: Px = Px(14);

/// The room for the lines from one level to the next.
pub const ACROSS: Px = Px(80);

/// The width of the narrowest box.
const TITLE_WIDTH: Px = Px(200);

/// The place of a level.
#[derive(Clone, Copy, Default)]
struct Column {
    x: Px,
    width: Px,
}

/// The places of all boxes, in the order of the nodes.
#[derive(Drop)]
pub struct PictureLayout {
    pub frames: Vec<Frame>,
    pub width: Px,
    pub height: Px,
}

/// The width of what is in a slot of a node.
fn width_of_word(node: &Node, gap: u64, span: &Span) -> Px {
    let child = Px::of_text(4) + Px::of_number(u64::from(row_of(span.word).unwrap_or(0)));
    match node.kind {
        RowKind::Leaf => Px::of_number(span.word).max(Px::of_text(4)),
        RowKind::Inner => child,
        RowKind::Gapped => child + Px::of_text(6) + Px::of_number(gap),
    }
}

/// The width of a node's box: that of its title, or of its widest line.
fn width_of_box(tree: &DrawnTree, node: &Node) -> Px {
    let mut width = TITLE_WIDTH.max(Indexes::of(tree.kind, &node.span).width() + Px(16));
    for (slot, span) in tree.spans(node).as_slice().iter().enumerate() {
        let indexes = Indexes::of(tree.kind, span).width();
        let word = width_of_word(node, tree.gap(node, slot), span);
        width = width.max(MARGIN + indexes + Px(24) + word + Px(8));
    }
    width
}

/// The levels, each as wide as its widest box.
fn columns_of(alloc: Global, tree: &DrawnTree) -> Result<Vec<Column>, AllocError> {
    let mut columns = vec![in alloc; Column::default(); tree.height as usize]?;
    for node in &tree.nodes {
        if let Some(column) = columns.get_mut(node.depth as usize) {
            column.width = column.width.max(width_of_box(tree, node));
        }
    }
    let mut x = BORDER;
    for column in columns.as_mut_slice() {
        column.x = x;
        x = x + column.width + ACROSS;
    }
    Ok(columns)
}

/// The boxes of these levels. Leaves are one below the other, and each other node is beside its first child.
fn frames_of(
    alloc: Global,
    tree: &DrawnTree,
    columns: &[Column],
) -> Result<Vec<Frame>, AllocError> {
    let mut frames = Vec::new(alloc);
    let mut y = TOP;
    for node in &tree.nodes {
        let column = columns
            .get(node.depth as usize)
            .copied()
            .unwrap_or_default();
        let height = TITLE + LINE.times(tree.spans(node).as_slice().len()) + Px(4);
        frames.push(Frame {
            x: column.x,
            y,
            width: column.width,
            height,
        })?;
        if node.is_leaf() {
            y = y + height + BETWEEN;
        }
    }
    Ok(frames)
}

impl PictureLayout {
    /// The boxes of a tree's nodes.
    pub fn of(alloc: Global, tree: &DrawnTree) -> Result<PictureLayout, AllocError> {
        let columns = columns_of(alloc, tree)?;
        let frames = frames_of(alloc, tree, columns.as_slice())?;
        let mut width = Px(620);
        let mut height = TOP;
        for frame in &frames {
            width = width.max(frame.x + frame.width + BORDER);
            height = height.max(frame.y + frame.height + BORDER);
        }
        Ok(PictureLayout {
            frames,
            width,
            height,
        })
    }
}
