//! Where nodes are.

ghost use Rattle.std.specs.Prelude.{◌≡◌};
ghost use Rattle.mt_rule.specs.Places.{column_at};

use mt_base::{Width, cols};

/// A node of a table: its number, and where its columns begin among the table's words. That is computed once, so that the load
/// of a column only has to add.
#[derive(Clone, Copy, Debug)]
pub struct RowAt {
    pub number: u32,
    pub base: usize,
}

impl RowAt {
    /// A node of this width.
    pub fn of_width(width: Width, number: u32) -> RowAt
        ensures number { result.number ≡ number }
        ensures base { result.base ≡ column_at width number 0 }
    {
        RowAt {
            number,
            base: cols(width) as usize * number as usize,
        }
    }
}
