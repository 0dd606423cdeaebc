//! The maps that a plain program plays on.

ghost use Rattle.std.specs.Prelude.{◌≡◌, ◌≤◌, ℕ, [], length, IfOk};
ghost use Rattle.mt_base.specs.Width.{most_rows};
ghost use Rattle.mt_sequential.specs.Playing.{IsNewMap, IsCopyOf};

use mt_base::{Kind, NoMemory};
use mt_list::Ranges;
use std::alloc::Global;

/// A map of ranges that can be made empty, copied and counted.
pub trait Plain: Ranges + Drop + Sized {
    /// An empty map of this kind, of `rows` nodes.
    ///
    /// # Errors
    ///
    /// `NoMemory` where memory ran out.
    fn empty(alloc: Global, kind: Kind, rows: u64) -> Result<Self, NoMemory>
        requires { rows ≤ most_rows }
        ensures { IfOk result (λ m. IsNewMap rows kind [] (record { kind = Self.kind m; ranges = Self.map m; used = Self.used m; limits = Self.limits m })) };

    /// A copy of the map, of which no call was made.
    ///
    /// # Errors
    ///
    /// `NoMemory` where memory ran out.
    fn another(&self, alloc: Global) -> Result<Self, NoMemory>
        ensures kind { IfOk result (λ copy. Self.kind copy ≡ Self.kind self.now) }
        ensures copy { IfOk result (λ copy. IsCopyOf
            (record { kind = Self.kind self.now; ranges = Self.map self.now; used = Self.used self.now; limits = Self.limits self.now })
            (record { kind = Self.kind copy; ranges = Self.map copy; used = Self.used copy; limits = Self.limits copy })) };

    /// How many ranges the map has.
    fn size(&self) -> u64
        ensures { result ≡ length (Self.map self.now) };
}
