//! What is left of a range that was found, by the bounds that a read is given.

ghost use Rattle.std.specs.Prelude.{◌≡◌};
ghost use Rattle.mt_read.specs.Answers.{not_below, within};

use mt_base::Range;

/// The range, where the index is not above `max` and the range does not begin above it.
pub fn within(range: Option<Range>, index: u64, max: u64) -> Option<Range>
    ensures { result ≡ within index max range }
{
    range.filter(|r| index <= max && r.first <= max)
}

/// The range, where the index is not below `min` and the range does not end below it.
pub fn not_below(range: Option<Range>, index: u64, min: u64) -> Option<Range>
    ensures { result ≡ not_below index min range }
{
    range.filter(|r| min <= index && min <= r.last)
}
