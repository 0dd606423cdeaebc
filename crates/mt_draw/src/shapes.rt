//! What pictures are made of.

use itoa::Buffer;
use mt_base::{Kind, top, width_of};
use mt_layout::Span;
use std::fmt;
use std::ops::{Add, Sub};

/// A length in pixels. Sums end at the greatest one, and differences at none.
#[derive(Clone, Copy, Default, PartialEq, Eq, PartialOrd, Ord)]
pub struct Px(pub u64);

impl Px {
    /// So many of these.
    pub fn times(self, count: usize) -> Px {
        Px(self.0.saturating_mul(count as u64))
    }

    /// So many parts of this, of all.
    pub fn part(self, parts: usize, all: usize) -> Px {
        Px(self.times(parts).0 / (all as u64).max(1))
    }

    /// Half as much.
    pub fn half(self) -> Px {
        Px(self.0 / 2)
    }

    /// The width of a text of this many letters.
    pub fn of_text(letters: usize) -> Px {
        Px((letters as u64).saturating_mul(29) / 4)
    }

    /// The width of a number.
    pub fn of_number(number: u64) -> Px {
        Px::of_text(Buffer::new().format(number).len())
    }
}

impl Add for Px {
    type Output = Px;

    fn add(self, other: Px) -> Px {
        Px(self.0.saturating_add(other.0))
    }
}

impl Sub for Px {
    type Output = Px;

    fn sub(self, other: Px) -> Px {
        Px(self.0.saturating_sub(other.0))
    }
}

impl fmt::Display for Px {
    fn fmt<W: fmt::Write>(&self, f: &mut fmt::Formatter<W>) -> fmt::Result {
        let pixels = self.0;
        write!(f, "{pixels}")
    }
}

/// The place of a text.
#[derive(Clone, Copy)]
pub struct Point(pub Px, pub Px);

impl fmt::Display for Point {
    fn fmt<W: fmt::Write>(&self, f: &mut fmt::Formatter<W>) -> fmt::Result {
        let (x, y) = (self.0, self.1);
        write!(f, "x='{x}' y='{y}'")
    }
}

/// The place of a rectangle.
#[derive(Clone, Copy)]
pub struct Frame {
    pub x: Px,
    pub y: Px,
    pub width: Px,
    pub height: Px,
}

impl fmt::Display for Frame {
    fn fmt<W: fmt::Write>(&self, f: &mut fmt::Formatter<W>) -> fmt::Result {
        let (at, width, height) = (Point(self.x, self.y), self.width, self.height);
        write!(f, "{at} width='{width}' height='{height}'")
    }
}

/// An index of a tree of this kind. The greatest is `max`.
#[derive(Clone, Copy)]
pub struct Index(pub Kind, pub u64);

impl Index {
    fn is_top(self) -> bool {
        self.1 == top(width_of(self.0))
    }

    fn width(self) -> Px {
        if self.is_top() {
            Px::of_text(3)
        } else {
            Px::of_number(self.1)
        }
    }
}

impl fmt::Display for Index {
    fn fmt<W: fmt::Write>(&self, f: &mut fmt::Formatter<W>) -> fmt::Result {
        let index = self.1;
        if self.is_top() {
            write!(f, "max")
        } else {
            write!(f, "{index}")
        }
    }
}

/// The indexes from a first to a last one.
#[derive(Clone, Copy)]
pub struct Indexes {
    pub first: Index,
    pub last: Index,
}

impl Indexes {
    /// The indexes of a span in a tree of this kind.
    pub fn of(kind: Kind, span: &Span) -> Indexes {
        let (first, last) = (Index(kind, span.first), Index(kind, span.last));
        Indexes { first, last }
    }

    /// The width of their text.
    pub fn width(&self) -> Px {
        if self.first.1 == self.last.1 {
            self.last.width()
        } else {
            self.first.width() + Px::of_text(2) + self.last.width()
        }
    }
}

impl fmt::Display for Indexes {
    fn fmt<W: fmt::Write>(&self, f: &mut fmt::Formatter<W>) -> fmt::Result {
        let (first, last) = (self.first, self.last);
        if first.1 == last.1 {
            write!(f, "{last}")
        } else {
            write!(f, "{first}..{last}")
        }
    }
}

/// The head of a picture of this size: its name and a line that explains it.
#[derive(Clone, Copy)]
pub struct PictureHead<'a> {
    pub width: Px,
    pub height: Px,
    pub note: &'a str,
}

impl<'a> fmt::Display for PictureHead<'a> {
    fn fmt<W: fmt::Write>(&self, f: &mut fmt::Formatter<W>) -> fmt::Result {
        let (width, height, note) = (self.width, self.height, self.note);
        writeln!(
            f,
            "<svg xmlns='http://www.w3.org/2000/svg' width='{width}' height='{height}' viewBox='0 0 {width} {height}' \
             font-family='DejaVu Sans Mono, Menlo, Consolas, monospace' font-size='12' fill='#222'>"
        )?;
        writeln!(
            f,
            "<defs><pattern id='hole' width='6' height='6' patternUnits='userSpaceOnUse'>\
             <rect width='6' height='6' fill='#f3f3f3'/><path d='M0 6L6 0' stroke='#cfcfcf'/></pattern></defs>"
        )?;
        writeln!(f, "<rect width='{width}' height='{height}' fill='#fff'/>")?;
        writeln!(
            f,
            "<text x='20' y='42' font-size='11' fill='#777'>{note}</text>"
        )
    }
}
