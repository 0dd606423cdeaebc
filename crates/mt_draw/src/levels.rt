//! The map of a tree's levels, for trees with too many nodes for boxes.

use crate::boxes::Sizes;
use crate::layouts::BORDER;
use crate::shapes::{Frame, Index, Indexes, PictureHead, Point, Px};
use crate::trees::{DrawnTree, Node, count_holes};
use std::alloc::{AllocError, Global};
use std::fmt;

/// What is said of the picture.
const NOTE: &str =
    "A level is a column, and a row a bar as high as the leaves below it, lowest indexes at the top. Blue: its slots in use; amber: holes; grey: free slots.";

/// The width of a level's bars.
const BAR: Px = Px(230);

/// The room from one level to the next.
const ACROSS: Px = Px(16);

/// The room above the bars.
const TOP: Px = Px(96);

/// The room that a line of text takes.
const LINE: Px = Px(14);

/// The height of a leaf, if that gives no more than the greatest height of all bars.
const LEAF: Px = Px(3);

const MOST: Px = Px(12_000);

/// The height of a leaf in units, whatever a unit is in pixels.
const UNITS: Px = Px(10);

/// How many leaves come before a node, and how many are below it.
#[derive(Clone, Copy, Default)]
struct Extent {
    before: usize,
    leaves: usize,
}

/// How many nodes a level has, how many of their slots are used, and of how many.
#[derive(Clone, Copy, Default)]
struct Tally {
    rows: usize,
    used: usize,
    slots: usize,
}

/// The map of a tree's levels.
#[derive(Drop)]
pub struct Levels<'a> {
    tree: &'a DrawnTree,
    extents: Vec<Extent>,
    tallies: Vec<Tally>,
    leaves: usize,
    height: Px,
}

/// Counts the leaves below the node at this place, where those of its children are counted.
fn gather(extents: &mut [Extent], tree: &DrawnTree, node: &Node, place: usize) {
    if node.is_leaf() {
        return;
    }
    let mut leaves: usize = 0;
    for span in tree.spans(node).as_slice() {
        let below = extents
            .get(tree.place_of(span.word))
            .map_or(0, |extent| extent.leaves);
        leaves = leaves.saturating_add(below);
    }
    if let Some(extent) = extents.get_mut(place) {
        extent.leaves = leaves;
    }
}

/// The leaves before and below each node, and how many there are.
fn extents_of(alloc: Global, tree: &DrawnTree) -> Result<(Vec<Extent>, usize), AllocError> {
    let mut extents = Vec::new(alloc);
    let mut before: usize = 0;
    for node in &tree.nodes {
        let leaves = usize::from(node.is_leaf());
        extents.push(Extent { before, leaves })?;
        before = before.saturating_add(leaves);
    }
    for (place, node) in tree.nodes.iter().enumerate().rev() {
        gather(extents.as_mut_slice(), tree, node, place);
    }
    Ok((extents, before))
}

/// The tally of each level.
fn tallies_of(alloc: Global, tree: &DrawnTree) -> Result<Vec<Tally>, AllocError> {
    let mut tallies = vec![in alloc; Tally::default(); tree.height as usize]?;
    for node in &tree.nodes {
        if let Some(tally) = tallies.get_mut(node.depth as usize) {
            tally.rows = tally.rows.saturating_add(1);
            tally.used = tally.used.saturating_add(tree.spans(node).as_slice().len());
            tally.slots = tally.slots.saturating_add(tree.slots(node));
        }
    }
    Ok(tallies)
}

impl<'a> Levels<'a> {
    /// The map of a tree's levels.
    pub fn of(alloc: Global, tree: &'a DrawnTree) -> Result<Self, AllocError> {
        let (extents, leaves) = extents_of(alloc, tree)?;
        Ok(Levels {
            tree,
            extents,
            tallies: tallies_of(alloc, tree)?,
            leaves,
            height: LEAF.times(leaves).min(MOST),
        })
    }

    /// Where the bars of a level begin.
    fn left(&self, depth: usize) -> Px {
        BORDER + (BAR + ACROSS).times(depth)
    }

    /// How many pixels high this many leaves are.
    fn height_of(&self, leaves: usize) -> Px {
        self.height.part(leaves, self.leaves)
    }

    /// Writes the tally of a level.
    fn write_tally<W: fmt::Write>(
        &self,
        f: &mut fmt::Formatter<W>,
        depth: usize,
        tally: &Tally,
    ) -> fmt::Result {
        let (x, rows, used, slots) = (self.left(depth), tally.rows, tally.used, tally.slots);
        let (upper, lower) = (Point(x, Px(70)), Point(x, Px(86)));
        writeln!(
            f,
            "<text {upper} font-weight='bold'>level {depth}: rows {rows}</text>"
        )?;
        writeln!(
            f,
            "<text {lower} font-size='11'>slots in use {used} of {slots}</text>"
        )
    }

    /// Writes the tallies of the levels.
    fn write_tallies<W: fmt::Write>(&self, f: &mut fmt::Formatter<W>) -> fmt::Result {
        for (depth, tally) in self.tallies.iter().enumerate() {
            self.write_tally(f, depth, tally)?;
        }
        Ok(())
    }

    /// Writes the bars, in units of height.
    fn write_bars<W: fmt::Write>(&self, f: &mut fmt::Formatter<W>) -> fmt::Result {
        for (node, extent) in self.tree.nodes.iter().zip(self.extents.iter()) {
            let frame = Frame {
                x: self.left(node.depth as usize),
                y: UNITS.times(extent.before),
                width: BAR,
                height: UNITS.times(extent.leaves) - Px(1),
            };
            let bar = Bar::of(self.tree, node, frame);
            write!(f, "{bar}")?;
        }
        Ok(())
    }

    /// Writes the picture of the bars, so wide.
    fn write_picture<W: fmt::Write>(&self, f: &mut fmt::Formatter<W>, width: Px) -> fmt::Result {
        let (height, units) = (self.height, UNITS.times(self.leaves));
        write!(f, "<svg y='{TOP}' width='{width}' height='{height}' ")?;
        writeln!(
            f,
            "viewBox='0 0 {width} {units}' preserveAspectRatio='none'>"
        )?;
        self.write_bars(f)?;
        writeln!(f, "</svg>")
    }

    /// The place of a text at this distance from the left end of a node's bar, of which this is the upper end.
    fn place_of(&self, node: &Node, upper: Px, across: Px) -> Point {
        let x = self.left(node.depth as usize) + across;
        Point(x, TOP + upper + Px(11))
    }

    /// Writes the first index of a leaf beside its bar.
    fn write_beside<W: fmt::Write>(
        &self,
        f: &mut fmt::Formatter<W>,
        node: &Node,
        upper: Px,
    ) -> fmt::Result {
        let at = self.place_of(node, upper, BAR + Px(6));
        let first = Index(self.tree.kind, node.span.first);
        writeln!(f, "<text {at} fill='#777'>{first}</text>")
    }

    /// Writes the indexes of an inner node into its bar.
    fn write_within<W: fmt::Write>(
        &self,
        f: &mut fmt::Formatter<W>,
        node: &Node,
        upper: Px,
    ) -> fmt::Result {
        let at = self.place_of(node, upper, Px(4));
        let indexes = Indexes::of(self.tree.kind, &node.span);
        writeln!(f, "<text {at}>{indexes}</text>")
    }

    /// Writes the indexes of the nodes, where there is room for a text.
    fn write_indexes<W: fmt::Write>(&self, f: &mut fmt::Formatter<W>) -> fmt::Result {
        let mut free = Px(0);
        for (node, extent) in self.tree.nodes.iter().zip(self.extents.iter()) {
            let upper = self.height_of(extent.before);
            if node.is_leaf() && free <= upper {
                free = upper + LINE;
                self.write_beside(f, node, upper)?;
            }
            if !node.is_leaf() && LINE <= self.height_of(extent.leaves) {
                self.write_within(f, node, upper)?;
            }
        }
        Ok(())
    }
}

/// A node as a bar, and how much of its width is for ranges or children, and for holes.
#[derive(Clone, Copy)]
struct Bar {
    row: u32,
    frame: Frame,
    blue: Px,
    amber: Px,
}

impl Bar {
    /// The bar of a node in this frame.
    fn of(tree: &DrawnTree, node: &Node, frame: Frame) -> Bar {
        let (spans, slots) = (tree.spans(node), tree.slots(node));
        let holes = count_holes(spans.as_slice());
        let others = spans.as_slice().len().saturating_sub(holes);
        Bar {
            row: node.row,
            frame,
            blue: frame.width.part(others, slots),
            amber: frame.width.part(holes, slots),
        }
    }
}

impl fmt::Display for Bar {
    fn fmt<W: fmt::Write>(&self, f: &mut fmt::Formatter<W>) -> fmt::Result {
        let Bar {
            row,
            frame,
            blue,
            amber,
        } = *self;
        let used = Frame {
            width: blue,
            ..frame
        };
        writeln!(
            f,
            "<rect class='row' id='row{row}' {frame} fill='#e8e8e8'/>"
        )?;
        writeln!(f, "<rect {used} fill='#a9c4ec'/>")?;
        if amber == Px(0) {
            return Ok(());
        }
        let holes = Frame {
            x: frame.x + blue,
            width: amber,
            ..frame
        };
        writeln!(f, "<rect {holes} fill='#f2c879'/>")
    }
}

impl<'a> fmt::Display for Levels<'a> {
    fn fmt<W: fmt::Write>(&self, f: &mut fmt::Formatter<W>) -> fmt::Result {
        let (sizes, right) = (Sizes(self.tree), self.left(self.tallies.len()));
        let head = PictureHead {
            width: (right + Px(160)).max(Px(1100)),
            height: TOP + self.height + BORDER,
            note: NOTE,
        };
        writeln!(f, "{head}{sizes}")?;
        self.write_tallies(f)?;
        self.write_picture(f, right)?;
        self.write_indexes(f)?;
        writeln!(f, "</svg>")
    }
}
