ghost use Rattle.std.specs.Prelude.{◌≡◌, ◌≤◌, [], Option, OnOk, OnErr, OnSome, IfNone};
ghost use Rattle.mt_base.specs.Call.{answer};
ghost use Rattle.mt_base.specs.Holes.{high, low};
ghost use Rattle.mt_base.specs.Map.{IsMap, holding, over, without};
ghost use Rattle.mt_base.specs.Width.{greatest_of};
ghost use Rattle.mt_list.specs.ListMap.{Contents};

use crate::areas::Window;
use mt_base::{Kind, NoMemory, Query, Range};

/// A place that keeps ranges in rising order, of a kind: its methods are what every call is made of.
pub trait Store {
    ghost contents: { Self → Contents };

    /// The kind. The ranges are a map of this kind.
    fn kind(&self) -> Kind
        ensures kind { result ≡ (contents self.now).kind }
        ensures is { IsMap (contents self.now).kind (contents self.now).ranges };

    /// Puts `entry` over `first` to `last`.
    ///
    /// # Errors
    ///
    /// `NoMemory` where memory ran out. Nothing is changed then.
    fn put(&mut self, first: u64, last: u64, entry: u64) -> Result<(), NoMemory>
        requires order { first ≤ last }
        requires within { last ≤ greatest_of (contents self.old).kind }
        ensures ok { OnOk result ((contents self.new).ranges ≡ over (contents self.old).ranges first last entry) }
        ensures err { OnErr result (contents self.new ≡ contents self.old) }
        ensures kind { (contents self.new).kind ≡ (contents self.old).kind };

    /// Takes out the range that holds `index`, and returns it.
    fn take(&mut self, index: u64) -> Option<Range>
        ensures range { result ≡ holding (contents self.old).ranges index }
        ensures some { OnSome result ((contents self.new).ranges ≡ without (contents self.old).ranges index) }
        ensures none { IfNone result ((contents self.new).ranges ≡ (contents self.old).ranges) }
        ensures kind { (contents self.new).kind ≡ (contents self.old).kind };

    /// Takes out every range.
    fn empty(&mut self)
        ensures none { (contents self.new).ranges ≡ [] }
        ensures kind { (contents self.new).kind ≡ (contents self.old).kind };

    /// The range that answers a query.
    fn found(&self, query: &Query) -> Option<Range>
        ensures { result ≡ answer (contents self.now).ranges query.now };

    /// The lowest start of room in the window.
    fn lowest_start(&self, window: Window) -> Option<u64>
        requires { 1 ≤ window.size }
        ensures { result ≡ low (contents self.now).kind (contents self.now).ranges window.size window.min window.max };

    /// The highest start of room in the window.
    fn highest_start(&self, window: Window) -> Option<u64>
        requires { 1 ≤ window.size }
        ensures { result ≡ high (contents self.now).kind (contents self.now).ranges window.size window.min window.max };
}
