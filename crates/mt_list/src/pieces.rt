//! What replaces the ranges that a store touches.

ghost use Rattle.std.specs.Prelude.{◌≡◌, option_to_list};
ghost use Rattle.mt_base.specs.Map.{part_stored};
ghost use Rattle.mt_list.specs.Places.{piece_below, piece_above};

use mt_base::Range;
use std::marker::Model;

/// What fills the places of no range.
const BLANK: Range = Range {
    first: 0,
    last: 0,
    entry: 0,
};

/// At most three ranges, in order. They take no memory.
#[derive(Drop)]
pub struct Pieces {
    ranges: [Range; 3],
    count: usize,
}

impl Model for Pieces {
    ghost use Rattle.std.specs.Prelude.{◌≤◌, List, take};
    ghost use Rattle.mt_base.specs.declared.ranges.Range.{Range};

    ghost Value = { List Range };

    ghost view = { λ p. take p.count p.ranges };

    ghost invariant = { λ p. p.count ≤ 3 };
}

impl Pieces {
    ghost use Rattle.std.specs.Prelude.{◌≡◌, ◌<◌, ◌≤◌, ◌+◌, ◌++◌, length, option_to_list};

    /// The ranges that there are.
    pub fn of(below: Option<Range>, stored: Option<Range>, above: Option<Range>) -> Self
        ensures { result ≡ option_to_list below ++ (option_to_list stored ++ option_to_list above) }
    {
        let mut pieces = Pieces {
            ranges: [BLANK; 3],
            count: 0,
        };
        pieces.push(below);
        pieces.push(stored);
        pieces.push(above);
        pieces
    }

    fn push(&mut self, piece: Option<Range>)
        requires { length self.old < 3 }
        ensures added { self.new ≡ self.old ++ option_to_list piece }
        ensures long { length self.new ≤ length self.old + 1 }
    {
        if let Some(range) = piece {
            self.ranges[self.count] = range;
            self.count += 1;
        }
    }

    pub fn as_slice(&self) -> &[Range]
        ensures { result.now ≡ self.now }
    {
        &self.ranges[..self.count]
    }
}

/// What a range keeps below `first`.
pub fn piece_below(range: Option<Range>, first: u64) -> Option<Range>
    ensures { option_to_list result ≡ piece_below first range }
{
    let range = range?;
    if range.first < first {
        Some(Range {
            last: range.last.min(first - 1),
            ..range
        })
    } else {
        None
    }
}

/// What a range keeps above `last`.
pub fn piece_above(range: Option<Range>, last: u64) -> Option<Range>
    ensures { option_to_list result ≡ piece_above last range }
{
    let range = range?;
    if last < range.last {
        Some(Range {
            first: range.first.max(last + 1),
            ..range
        })
    } else {
        None
    }
}

/// What a store puts in, which is nothing where `entry` is 0.
pub fn piece_stored(first: u64, last: u64, entry: u64) -> Option<Range>
    ensures { option_to_list result ≡ part_stored first last entry }
{
    if entry == 0 {
        None
    } else {
        Some(Range { first, last, entry })
    }
}
