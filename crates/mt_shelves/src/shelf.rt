//! A shelf: some ranges of a map, in rising order, and the longest hole between them.

use crate::extents::ShelfExtent;
use mt_base::{NoMemory, Range};
use std::alloc::Global;
use std::marker::Model;

/// Some ranges of a map. Its meaning is these ranges.
#[derive(Debug, Drop)]
pub struct Shelf {
    ranges: Vec<Range>,
    extent: ShelfExtent,
}

impl Model for Shelf {
    ghost use Rattle.std.specs.Prelude.{List};
    ghost use Rattle.mt_base.specs.declared.ranges.Range.{Range};
    ghost use Rattle.mt_base.specs.Map.{IsMapFrom};
    ghost use Rattle.mt_shelves.specs.Shelves.{IsExtent};

    ghost Value = { List Range };

    ghost view = { λ s. s.ranges.items };

    ghost invariant = { λ s. IsMapFrom 0 s.ranges.items × IsExtent s.extent s.ranges.items };
}

impl Shelf {
    ghost use Rattle.std.specs.Prelude.{◌≡◌, ◌++◌, ◌≤◌, ◌<◌, [], IfOk, OnOk, OnErr, OnSome, IfNone, drop, length, take};
    ghost use Rattle.mt_base.specs.Map.{IsMapFrom, holding, over, without};
    ghost use Rattle.mt_shelves.specs.Shelves.{IsExtent, begins_above, ends_below};

    /// These ranges.
    pub fn of(ranges: Vec<Range>) -> Self
        requires { IsMapFrom 0 ranges.items }
        ensures { result ≡ ranges.items }
    {
        let extent = ShelfExtent::of(&ranges);
        Shelf { ranges, extent }
    }

    /// Its ranges.
    pub fn ranges(&self) -> &[Range]
        ensures ranges { result.now ≡ self.now }
        ensures rise { IsMapFrom 0 self.now }
    {
        &self.ranges
    }

    /// Whether its last range ends below an index.
    #[tactic(auto, using(mt_list::proofs::StoreAtPlaces::last_of_is_at_end))]
    pub fn ends_below(&self, index: u64) -> bool
        ensures { result ≡ ends_below index self.now }
    {
        match self.ranges.last() {
            Some(range) => range.last < index,
            None => true,
        }
    }

    /// Whether its first range begins above an index.
    pub fn begins_above(&self, index: u64) -> bool
        ensures { result ≡ begins_above index self.now }
    {
        match self.ranges.first() {
            Some(range) => index < range.first,
            None => true,
        }
    }

    /// Where it begins and ends, and the length of its longest hole.
    pub fn extent(&self) -> ShelfExtent
        ensures { IsExtent result self.now }
    {
        self.extent
    }

    /// Stores `entry` over `first` to `last` here.
    ///
    /// # Errors
    ///
    /// `NoMemory` where memory ran out. Nothing is changed then.
    #[tactic(auto, using(mt_base::proofs::StoredOrder::over_rises))]
    pub fn store(&mut self, first: u64, last: u64, entry: u64) -> Result<(), NoMemory>
        requires { first ≤ last }
        ensures ok { OnOk result (self.new ≡ over self.old first last entry) }
        ensures err { OnErr result (self.new ≡ self.old) }
    {
        mt_list::store(&mut self.ranges, first, last, entry)?;
        self.extent = ShelfExtent::of(&self.ranges);
        Ok(())
    }

    /// Removes the range that holds `index`, and gives it.
    #[tactic(auto, using(crate::proofs::MapParts::without_rises))]
    pub fn erase(&mut self, index: u64) -> Option<Range>
        ensures range { result ≡ holding self.old index }
        ensures some { OnSome result (self.new ≡ without self.old index) }
        ensures none { IfNone result (self.new ≡ self.old) }
    {
        let range = mt_list::erase(&mut self.ranges, index)?;
        self.extent = ShelfExtent::of(&self.ranges);
        Some(range)
    }

    /// Keeps its first ranges, and gives the others.
    ///
    /// # Errors
    ///
    /// `NoMemory` where memory ran out. Nothing is changed then.
    #[tactic(auto, using(crate::proofs::MapParts::take_rises, crate::proofs::MapParts::drop_rises))]
    pub fn cut(&mut self, at: usize) -> Result<Shelf, NoMemory>
        requires { at ≤ length self.old }
        ensures kept { OnOk result (self.new ≡ take at self.old) }
        ensures rest { IfOk result (λ rest. rest ≡ drop at self.old) }
        ensures err { OnErr result (self.new ≡ self.old) }
    {
        let rest = self.ranges.split_off(at)?;
        self.extent = ShelfExtent::of(&self.ranges);
        Ok(Shelf::of(rest))
    }
}
