//! How wide nodes are, as those keep it who look for columns.

ghost use Rattle.std.specs.Prelude.{◌≡◌, ◌+◌, ◌*◌, ◌<◌};
ghost use Rattle.mt_base.specs.Width.{columns, first_row, most_rows};

use mt_base::{Width, cols};
use std::marker::Model;

/// A width of nodes. How many words a node has is computed once, so that finding a column takes no look at the width.
#[derive(Clone, Copy, Debug)]
pub struct RowWidth {
    width: Width,
    cols: usize,
}

impl Model for RowWidth {
    ghost use Rattle.std.specs.Prelude.{◌≡◌};
    ghost use Rattle.mt_base.specs.Width.{columns};
    ghost use Rattle.mt_base.specs.declared.widths.Width.{Width};

    ghost Value = { Width };

    ghost view = { λ r. r.width };

    ghost invariant = { λ r. r.cols ≡ columns r.width };

    ghost inverse = { λ width. record { width = width; cols = columns width } };
}

impl RowWidth {
    /// Nodes of this width.
    pub fn of_width(width: Width) -> RowWidth
        ensures { result ≡ width }
    {
        RowWidth {
            width,
            cols: cols(width) as usize,
        }
    }

    /// The width.
    pub fn width(&self) -> Width
        ensures { result ≡ self.now }
    {
        self.width
    }

    /// How many words a node has.
    pub fn cols(&self) -> usize
        ensures { result ≡ columns self.now }
    {
        self.cols
    }

    /// The place of the word in this column of this node.
    pub fn place_of(&self, row: u32, col: u32) -> usize
        requires row { row < first_row + most_rows }
        requires column { col < columns self.now }
        ensures { result ≡ columns self.now * row + col }
    {
        self.cols * row as usize + col as usize
    }
}
