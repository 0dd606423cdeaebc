use std::fmt;

/// What a tree is for.
#[derive(Clone, Copy, Debug, PartialEq, Eq)]
pub enum Kind {
    /// The caller says where ranges are stored.
    Range,
    /// The tree can also find room for a range (its nodes keep gap words).
    Alloc,
    /// The caller says where ranges are stored. Indexes have 32 bits.
    Range32,
    /// The tree can also find room for a range. Indexes have 32 bits.
    Alloc32,
}

impl fmt::Display for Kind {
    ghost use Rattle.std.specs.Prelude.{Some};
    ghost use Rattle.mt_base.specs.Text.{kind_text};

    ghost output = { λ k. Some (kind_text k) };

    fn fmt<W: fmt::Write>(&self, f: &mut fmt::Formatter<W>) -> fmt::Result {
        match self {
            Kind::Range => write!(f, "range"),
            Kind::Alloc => write!(f, "alloc"),
            Kind::Range32 => write!(f, "range32"),
            Kind::Alloc32 => write!(f, "alloc32"),
        }
    }
}
