//! The ranges along a line, which goes on in the next column where one is full.

use crate::boxes::Sizes;
use crate::layouts::BORDER;
use crate::shapes::{Frame, Indexes, PictureHead, Point, Px};
use crate::trees::DrawnTree;
use mt_base::Kind;
use mt_layout::Span;
use std::alloc::{AllocError, Global};
use std::fmt;

/// What is said of the picture.
const NOTE: &str =
    "A block is a range with its entry, or hatched a hole with its length, and two pixels higher for each doubling of its length.";

/// The height of a block of one index, and how much it grows where the length doubles.
const LEAST: Px = Px(18);

const DOUBLING: Px = Px(2);

/// The room above the columns, and where they end.
const TOP: Px = Px(60);

const BOTTOM: Px = Px(1060);

/// The room from one column to the next.
const ACROSS: Px = Px(24);

/// A range or a hole, and its place.
#[derive(Clone, Copy)]
struct Block {
    span: Span,
    x: Px,
    y: Px,
    height: Px,
}

/// The ranges of a tree along a line.
#[derive(Drop)]
pub struct AddressMap<'a> {
    tree: &'a DrawnTree,
    blocks: Vec<Block>,
    /// The width of a column.
    width: Px,
    /// Where the picture ends.
    right: Px,
    bottom: Px,
}

/// How many indexes a span covers.
fn length_of(span: &Span) -> u64 {
    span.last.saturating_sub(span.first).saturating_add(1)
}

/// The height of a span's block.
fn height_of(span: &Span) -> Px {
    LEAST + DOUBLING.times(length_of(span).max(1).ilog2() as usize)
}

/// What is written of a span beside its indexes.
#[derive(Clone, Copy)]
struct Content(Span);

impl Content {
    fn width(&self) -> Px {
        if self.0.word == 0 {
            Px::of_text(8) + Px::of_number(length_of(&self.0))
        } else {
            Px::of_number(self.0.word)
        }
    }
}

impl fmt::Display for Content {
    fn fmt<W: fmt::Write>(&self, f: &mut fmt::Formatter<W>) -> fmt::Result {
        let (word, length) = (self.0.word, length_of(&self.0));
        if word == 0 {
            write!(f, "hole of {length}")
        } else {
            write!(f, "{word}")
        }
    }
}

/// The width of the widest of all blocks.
fn width_of(tree: &DrawnTree) -> Px {
    let mut width = Px(200);
    for node in &tree.nodes {
        if node.is_leaf() {
            for span in tree.spans(node).as_slice() {
                let indexes = Indexes::of(tree.kind, span).width();
                width = width.max(indexes + Px(36) + Content(*span).width());
            }
        }
    }
    width
}

impl<'a> AddressMap<'a> {
    /// The ranges of a tree along a line.
    pub fn of(alloc: Global, tree: &'a DrawnTree) -> Result<Self, AllocError> {
        let width = width_of(tree);
        let mut map = AddressMap {
            tree,
            blocks: Vec::new(alloc),
            width,
            right: BORDER + width,
            bottom: TOP,
        };
        let (mut x, mut y) = (BORDER, TOP);
        for node in &tree.nodes {
            if node.is_leaf() {
                for span in tree.spans(node).as_slice() {
                    let height = height_of(span);
                    if BOTTOM < y + height {
                        x = x + width + ACROSS;
                        y = TOP;
                    }
                    let span = *span;
                    map.blocks.push(Block { span, x, y, height })?;
                    y = y + height;
                    map.right = x + width;
                    map.bottom = map.bottom.max(y);
                }
            }
        }
        Ok(map)
    }
}

/// A block of a map of this kind, so wide.
#[derive(Clone, Copy)]
struct Drawn<'a> {
    kind: Kind,
    block: &'a Block,
    width: Px,
}

impl<'a> Drawn<'a> {
    fn frame(&self) -> Frame {
        let Block { x, y, height, .. } = *self.block;
        let width = self.width;
        Frame {
            x,
            y,
            width,
            height,
        }
    }

    /// Writes its texts.
    fn write_texts<W: fmt::Write>(&self, f: &mut fmt::Formatter<W>) -> fmt::Result {
        let (x, y, span) = (self.block.x, self.block.y + Px(13), self.block.span);
        let (left, right) = (Point(x + Px(8), y), Point(x + self.width - Px(8), y));
        let (indexes, content) = (Indexes::of(self.kind, &span), Content(span));
        writeln!(f, "<text {left}>{indexes}</text>")?;
        writeln!(f, "<text {right} text-anchor='end'>{content}</text>")
    }
}

impl<'a> fmt::Display for Drawn<'a> {
    fn fmt<W: fmt::Write>(&self, f: &mut fmt::Formatter<W>) -> fmt::Result {
        let frame = self.frame();
        let (class, fill) = if self.block.span.word == 0 {
            ("hole", "url(#hole)")
        } else {
            ("range", "#d5e8d4")
        };
        writeln!(f, "<g class='{class}'>")?;
        writeln!(f, "<rect {frame} fill='{fill}' stroke='#9a9a9a'/>")?;
        self.write_texts(f)?;
        writeln!(f, "</g>")
    }
}

impl<'a> fmt::Display for AddressMap<'a> {
    fn fmt<W: fmt::Write>(&self, f: &mut fmt::Formatter<W>) -> fmt::Result {
        let head = PictureHead {
            width: (self.right + BORDER).max(Px(960)),
            height: self.bottom + BORDER,
            note: NOTE,
        };
        let (sizes, kind, width) = (Sizes(self.tree), self.tree.kind, self.width);
        writeln!(f, "{head}{sizes}")?;
        for block in &self.blocks {
            let drawn = Drawn { kind, block, width };
            write!(f, "{drawn}")?;
        }
        writeln!(f, "</svg>")
    }
}
