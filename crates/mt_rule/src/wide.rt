//! Widths of nodes as types, so that a program has the steps of its pens once for each width.

ghost use Rattle.mt_base.specs.declared.widths.Width.{Width};

use mt_base::Width;

/// How wide the nodes of a table are, picked by a type. So the place of a column is computed without a look at the table.
pub trait OfWidth {
    ghost use Rattle.std.specs.Prelude.{◌≡◌};

    ghost wide: { Width };

    /// The width.
    fn width() -> Width
        ensures { result ≡ wide };
}

/// Nodes of words for 64-bit indexes.
pub struct LongRows;

impl OfWidth for LongRows {
    ghost use Rattle.mt_base.specs.declared.widths.Width.TheVariants.{Long};

    ghost wide = { Long };

    fn width() -> Width {
        Width::Long
    }
}

/// Nodes of words for 32-bit indexes.
pub struct ShortRows;

impl OfWidth for ShortRows {
    ghost use Rattle.mt_base.specs.declared.widths.Width.TheVariants.{Short};

    ghost wide = { Short };

    fn width() -> Width {
        Width::Short
    }
}
