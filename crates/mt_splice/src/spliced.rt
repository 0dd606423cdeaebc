//! The result of a replacement.

ghost use Rattle.std.specs.Prelude.{◌≡◌};
ghost use Rattle.mt_rows.specs.declared.rows.Place.TheVariants.{Root};
ghost use Rattle.mt_rows.specs.Sheet.{Rooted};
ghost use Rattle.mt_base.specs.declared.kinds.Kind.{Kind};
ghost use Rattle.mt_splice.specs.Splice.{TellsGapAt};

use mt_rows::Place;

/// Where a replacement was published, and the longest hole below the node that was published there in the slot of a node with
/// gaps. There is no node above the root: there it is 0.
#[derive(Clone, Copy, Debug, PartialEq, Eq)]
pub struct Spliced {
    pub place: Place,
    pub gap: u64,
}

/// A replacement that was published at this place, which is the root word.
pub fn at_root(place: Place) -> Spliced
    requires root { place ≡ Root }
    ensures place { result.place ≡ place }
    ensures told { (kind : Kind) (t : Rooted) → TellsGapAt kind t result.place result.gap }
{
    Spliced { place, gap: 0 }
}
