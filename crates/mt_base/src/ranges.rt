use std::fmt;

/// The indexes from `first` to `last`, both included, and the entry that they hold.
#[derive(Clone, Copy, Debug, PartialEq, Eq)]
pub struct Range {
    pub first: u64,
    pub last: u64,
    pub entry: u64,
}

impl fmt::Display for Range {
    ghost use Rattle.std.specs.Prelude.{Some};
    ghost use Rattle.mt_base.specs.Text.{range_text};

    ghost output = { λ r. Some (range_text r) };

    fn fmt<W: fmt::Write>(&self, f: &mut fmt::Formatter<W>) -> fmt::Result {
        let Range { first, last, entry } = *self;
        write!(f, "{first} {last} {entry}")
    }
}
