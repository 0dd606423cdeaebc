//! Places for ranges, as a caller has them.

ghost use Rattle.std.specs.Prelude.{◌≡◌, ◌<◌, length, slice_set};
ghost use Rattle.mt_base.specs.declared.ranges.Range.{Range};

use mt_base::Range;

/// A place for a range.
pub trait RangePlace {
    ghost shows: { Range → Self };

    /// Takes a range.
    fn put(&mut self, range: Range)
        ensures { self.new ≡ shows range };
}

impl RangePlace for Range {
    ghost shows = { λ r. r };

    fn put(&mut self, range: Range) {
        *self = range;
    }
}

/// Puts a range into the place of this number.
#[inline(always)]
pub(crate) fn put_at<P: RangePlace>(places: &mut [P], at: usize, range: Range)
    requires { at < length places.old }
    ensures { places.new ≡ slice_set places.old at (P.shows range) }
{
    places[at].put(range);
}
