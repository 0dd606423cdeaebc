//! The picture of a tree's nodes, each as a box with its slots.

ghost use Rattle.std.specs.Prelude.{◌≡◌};
ghost use Rattle.mt_draw.specs.Marks.{mark_of};

use crate::layouts::{ACROSS, LINE, MARGIN, PictureLayout, TITLE};
use crate::shapes::{Frame, Index, Indexes, PictureHead, Point, Px};
use crate::trees::{DrawnTree, Node};
use mt_layout::{RowKind, Span, row_of};
use std::fmt;

/// What is said of the picture.
const NOTE: &str =
    "A box is a row, and a line a slot, which ends with its pivot (bold). Holes are hatched.";

/// The picture of a tree's nodes.
#[derive(Clone, Copy)]
pub struct Boxes<'a> {
    pub tree: &'a DrawnTree,
    pub layout: &'a PictureLayout,
}

/// What is said of a tree: its kind and how many nodes, levels, ranges and holes it has.
#[derive(Clone, Copy)]
pub struct Sizes<'a>(pub &'a DrawnTree);

impl<'a> fmt::Display for Sizes<'a> {
    fn fmt<W: fmt::Write>(&self, f: &mut fmt::Formatter<W>) -> fmt::Result {
        let (kind, rows, levels) = (self.0.kind, self.0.nodes.len(), self.0.height);
        let (ranges, holes) = (self.0.count(false), self.0.count(true));
        write!(
            f,
            "<text x='20' y='24' font-size='14' font-weight='bold'>{kind} tree: rows {rows}, levels {levels}, ranges {ranges}, holes {holes}</text>"
        )
    }
}

/// What a slot is drawn as.
#[derive(Clone, Copy)]
enum Mark {
    /// Indexes without an entry.
    Hole,
    Range,
    /// A node below.
    Child,
}

/// What a slot with this word is, in a node of this kind.
fn mark_of(kind: RowKind, word: u64) -> Mark
    ensures { result ≡ mark_of kind word }
{
    match kind {
        RowKind::Leaf if word == 0 => Mark::Hole,
        RowKind::Leaf => Mark::Range,
        RowKind::Inner | RowKind::Gapped => Mark::Child,
    }
}

impl fmt::Display for Mark {
    fn fmt<W: fmt::Write>(&self, f: &mut fmt::Formatter<W>) -> fmt::Result {
        match self {
            Mark::Hole => write!(f, "hole"),
            Mark::Range => write!(f, "range"),
            Mark::Child => write!(f, "child"),
        }
    }
}

/// A kind of nodes, in a word, and the colours of such a box.
#[derive(Clone, Copy)]
struct BoxStyle {
    name: &'static str,
    title: &'static str,
    line: &'static str,
}

fn style_of(kind: RowKind) -> BoxStyle {
    match kind {
        RowKind::Leaf => BoxStyle {
            name: "leaf",
            title: "#d5e8d4",
            line: "#6c9a5f",
        },
        RowKind::Inner | RowKind::Gapped => BoxStyle {
            name: "inner",
            title: "#dae8fc",
            line: "#6c8ebf",
        },
    }
}

/// The indexes of a slot. Where they end with a pivot, that is bold.
#[derive(Clone, Copy)]
struct Ends(Indexes, bool);

impl fmt::Display for Ends {
    fn fmt<W: fmt::Write>(&self, f: &mut fmt::Formatter<W>) -> fmt::Result {
        let Ends(indexes, has_pivot) = *self;
        let (first, last) = (indexes.first, indexes.last);
        if !has_pivot {
            return write!(f, "{indexes}");
        }
        if first.1 != last.1 {
            write!(f, "{first}..")?;
        }
        write!(f, "<tspan font-weight='bold'>{last}</tspan>")
    }
}

/// What is in a slot of a node of this kind, beside its indexes.
#[derive(Clone, Copy)]
struct Content {
    kind: RowKind,
    word: u64,
    gap: u64,
}

impl fmt::Display for Content {
    fn fmt<W: fmt::Write>(&self, f: &mut fmt::Formatter<W>) -> fmt::Result {
        let (word, gap, row) = (self.word, self.gap, row_of(self.word).unwrap_or(0));
        match mark_of(self.kind, word) {
            Mark::Hole => write!(f, "hole"),
            Mark::Range => write!(f, "{word}"),
            Mark::Child if self.kind == RowKind::Gapped => write!(f, "gap {gap}, row {row}"),
            Mark::Child => write!(f, "row {row}"),
        }
    }
}

/// The line of a slot in a box.
#[derive(Clone, Copy)]
struct Line<'a> {
    tree: &'a DrawnTree,
    node: &'a Node,
    slot: usize,
    span: Span,
    gap: u64,
    frame: Frame,
}

impl<'a> Line<'a> {
    /// Its indexes. Each slot has a pivot but the last that there may be.
    fn ends(&self) -> Ends {
        let has_pivot = self.slot < self.tree.slots(self.node).saturating_sub(1);
        Ends(Indexes::of(self.tree.kind, &self.span), has_pivot)
    }

    /// What is written beside them.
    fn content(&self) -> Content {
        let (kind, word, gap) = (self.node.kind, self.span.word, self.gap);
        Content { kind, word, gap }
    }

    /// Writes its texts.
    fn write_texts<W: fmt::Write>(&self, f: &mut fmt::Formatter<W>, y: Px) -> fmt::Result {
        let (slot, ends, content) = (self.slot, self.ends(), self.content());
        let (x, right) = (self.frame.x, self.frame.x + self.frame.width);
        let near = Point(x + Px(24), y);
        let (text, far) = (Point(x + MARGIN, y), Point(right - Px(8), y));
        writeln!(
            f,
            "<text {near} font-size='10' fill='#999' text-anchor='end'>{slot}</text>"
        )?;
        writeln!(f, "<text {text}>{ends}</text>")?;
        writeln!(f, "<text {far} text-anchor='end'>{content}</text>")
    }
}

impl<'a> fmt::Display for Line<'a> {
    fn fmt<W: fmt::Write>(&self, f: &mut fmt::Formatter<W>) -> fmt::Result {
        let (frame, mark) = (self.frame, mark_of(self.node.kind, self.span.word));
        let top = frame.y + TITLE + LINE.times(self.slot);
        writeln!(f, "<g class='{mark}'>")?;
        if matches!(mark, Mark::Hole) {
            let within = Frame {
                x: frame.x + Px(1),
                y: top,
                width: frame.width - Px(2),
                height: LINE,
            };
            writeln!(f, "<rect {within} fill='url(#hole)'/>")?;
        }
        self.write_texts(f, top + Px(13))?;
        writeln!(f, "</g>")
    }
}

/// The box of a node.
#[derive(Clone, Copy)]
struct Row<'a> {
    tree: &'a DrawnTree,
    node: &'a Node,
    frame: Frame,
}

impl<'a> Row<'a> {
    /// Writes the box.
    fn write_box<W: fmt::Write>(&self, f: &mut fmt::Formatter<W>) -> fmt::Result {
        let (frame, look) = (self.frame, style_of(self.node.kind));
        let (title, line) = (look.title, look.line);
        let head = Frame {
            height: TITLE,
            ..frame
        };
        writeln!(f, "<rect {frame} fill='#fff' stroke='{line}'/>")?;
        writeln!(f, "<rect {head} fill='{title}' stroke='{line}'/>")
    }

    /// Writes its name, and how many of its slots are used.
    fn write_name<W: fmt::Write>(&self, f: &mut fmt::Formatter<W>, used: usize) -> fmt::Result {
        let (frame, row, name) = (self.frame, self.node.row, style_of(self.node.kind).name);
        let (right, y) = (frame.x + frame.width, frame.y + Px(16));
        let (near, far) = (Point(frame.x + Px(8), y), Point(right - Px(8), y));
        let all = self.tree.slots(self.node);
        writeln!(
            f,
            "<text {near}><tspan font-weight='bold'>row {row}</tspan> {name}</text>"
        )?;
        writeln!(
            f,
            "<text {far} fill='#777' text-anchor='end'>{used} of {all}</text>"
        )
    }

    /// Writes the box and what is above its slots, of which this many are used.
    fn write_title<W: fmt::Write>(&self, f: &mut fmt::Formatter<W>, used: usize) -> fmt::Result {
        let at = Point(self.frame.x + Px(8), self.frame.y + Px(34));
        let indexes = Indexes::of(self.tree.kind, &self.node.span);
        self.write_box(f)?;
        self.write_name(f, used)?;
        writeln!(f, "<text {at}>{indexes}</text>")
    }
}

impl<'a> fmt::Display for Row<'a> {
    fn fmt<W: fmt::Write>(&self, f: &mut fmt::Formatter<W>) -> fmt::Result {
        let Row { tree, node, frame } = *self;
        let (row, spans) = (node.row, tree.spans(node));
        writeln!(f, "<g class='row' id='row{row}'>")?;
        self.write_title(f, spans.as_slice().len())?;
        for (slot, span) in spans.as_slice().iter().enumerate() {
            let (gap, span) = (tree.gap(node, slot), *span);
            let line = Line {
                tree,
                node,
                slot,
                span,
                gap,
                frame,
            };
            write!(f, "{line}")?;
        }
        writeln!(f, "</g>")
    }
}

/// The line from a slot to the box below it. The more slots come before it, the nearer to its own box it goes down, so that no
/// two lines cross.
#[derive(Clone, Copy)]
struct Link {
    from: Frame,
    slot: usize,
    to: Frame,
}

impl fmt::Display for Link {
    fn fmt<W: fmt::Write>(&self, f: &mut fmt::Formatter<W>) -> fmt::Result {
        let Link { from, slot, to } = *self;
        let (x, y) = (
            from.x + from.width,
            from.y + TITLE + LINE.times(slot) + LINE.half(),
        );
        let lane = x + (ACROSS - Px(8)) - Px(2).times(slot);
        let (end, level) = (to.x, to.y + TITLE.half());
        writeln!(
            f,
            "<path class='link' d='M{x} {y}H{lane}V{level}H{end}' fill='none' stroke='#999'/>"
        )
    }
}

impl<'a> Boxes<'a> {
    /// Writes the lines from the slots of a node in this frame.
    fn write_links<W: fmt::Write>(
        &self,
        f: &mut fmt::Formatter<W>,
        node: &Node,
        from: Frame,
    ) -> fmt::Result {
        if node.is_leaf() {
            return Ok(());
        }
        for (slot, span) in self.tree.spans(node).as_slice().iter().enumerate() {
            if let Some(to) = self.layout.frames.get(self.tree.place_of(span.word)) {
                let link = Link {
                    from,
                    slot,
                    to: *to,
                };
                write!(f, "{link}")?;
            }
        }
        Ok(())
    }
}

impl<'a> fmt::Display for Boxes<'a> {
    fn fmt<W: fmt::Write>(&self, f: &mut fmt::Formatter<W>) -> fmt::Result {
        let Boxes { tree, layout } = *self;
        let (width, height, note) = (layout.width, layout.height, NOTE);
        let (head, sizes) = (
            PictureHead {
                width,
                height,
                note,
            },
            Sizes(tree),
        );
        writeln!(f, "{head}{sizes}")?;
        for (node, frame) in tree.nodes.iter().zip(layout.frames.iter()) {
            self.write_links(f, node, *frame)?;
        }
        for (node, frame) in tree.nodes.iter().zip(layout.frames.iter()) {
            let frame = *frame;
            let row = Row { tree, node, frame };
            write!(f, "{row}")?;
        }
        writeln!(f, "</svg>")
    }
}
