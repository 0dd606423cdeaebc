//! The trees of a player.

ghost use Rattle.std.specs.Prelude.{◌≡◌, ◌⊎◌, ◌≤◌, ℕ, [], All, length, map, IfOk};
ghost use Rattle.mt_base.specs.declared.kinds.Kind.{Kind};
ghost use Rattle.mt_base.specs.Width.{most_rows};
ghost use Rattle.mt_base.specs.Passes.{Saw, Settled};
ghost use Rattle.mt_image.specs.Images.{IsImageOfMap};
ghost use Rattle.mt_replay.specs.Trees.{AreAll, IsNewTree, map_seen, player_passes, seen_by};
ghost use Rattle.mt_base.specs.Limits.{fewest_rows};

use mt_base::{Kind, NoMemory, Range};
use mt_desks::{Passage, Shared};
use std::alloc::Global;
use std::sync::Wait;

/// A shared tree that a player makes, copies, checks, lists, writes as an image and settles.
///
/// Its meanings are `many`, the number of its handles; and `zeros_serve`, that a tree of this kind, with this many nodes, can
/// be made over some `Zeros`. It takes 2^62 - 1 calls.
pub trait Plays<P: Passage>: Shared<P> + Drop + Sized {
    /// What new trees are made over.
    type Zeros: Drop + Sync;

    ghost many: { Self → ℕ };

    ghost zeros_serve: { Self.Zeros → Kind → ℕ → Type 0 };

    /// The zeros that trees of all these kinds, of `rows` nodes, are made over.
    ///
    /// # Errors
    ///
    /// `NoMemory` where memory ran out.
    fn zeros(alloc: Global, kinds: &[Kind], rows: u64) -> Result<Self::Zeros, NoMemory>
        requires { rows ≤ most_rows }
        ensures { IfOk result (λ zeros. All (λ kind. zeros_serve zeros kind rows) kinds.now) };

    /// A tree of this kind with `rows` nodes that opens empty, and its handles, numbered from 0.
    ///
    /// # Errors
    ///
    /// `NoMemory` where memory ran out.
    fn make(
        alloc: Global,
        kind: Kind,
        rows: u64,
        passes: u32,
        zeros: &Self::Zeros,
    ) -> Result<(Self, Vec<P>), NoMemory>
        requires few_rows { fewest_rows ≤ rows }
        requires rows { rows ≤ most_rows }
        requires some_pass { 1 ≤ passes }
        requires passes { passes ≤ player_passes }
        requires zeros { zeros_serve zeros.now kind rows }
        ensures new { IfOk result (λ made. IsNewTree kind rows [] passes (Self.tree made.0) (map P.knows made.1.items)) }
        ensures all { IfOk result (λ made. AreAll P.knows Self.serves passes made.0 made.1.items) }
        ensures many { IfOk result (λ made. Self.many made.0 ≡ passes) };

    /// A copy of the tree as it is after all that the handle has then seen, and the copy's handles. The copy has had no call,
    /// and has as many nodes and handles as the tree.
    ///
    /// # Errors
    ///
    /// `NoMemory` where memory ran out.
    fn copy<R: Wait>(&self, rt: &R, alloc: Global, pass: &mut P) -> Result<(Self, Vec<P>), NoMemory>
        requires of { Self.serves self.now pass.old }
        ensures of { Self.serves self.now pass.new }
        ensures pass { (P.knows pass.new ≡ P.knows pass.old) ⊎ Saw (Self.tree self.now).history (P.knows pass.old) (P.knows pass.new) }
        ensures new { IfOk result (λ made. IsNewTree (Self.tree self.now).history.kind (Self.tree self.now).history.rows
            (map_seen (Self.tree self.now) (P.knows pass.new)) (Self.many self.now) (Self.tree made.0) (map P.knows made.1.items)) }
        ensures all { IfOk result (λ made. AreAll P.knows Self.serves (Self.many self.now) made.0 made.1.items) }
        ensures many { IfOk result (λ made. Self.many made.0 ≡ Self.many self.now) };

    /// Checks the tree, and returns how many ranges it has after all that the handle has then seen.
    fn check<R: Wait>(&self, rt: &R, pass: &mut P) -> u64
        requires of { Self.serves self.now pass.old }
        ensures of { Self.serves self.now pass.new }
        ensures saw { Saw (Self.tree self.now).history (P.knows pass.old) (P.knows pass.new) }
        ensures count { result ≡ length (map_seen (Self.tree self.now) (P.knows pass.new)) };

    /// How many calls the tree has had, all of which the handle has then seen.
    fn calls<R: Wait>(&self, rt: &R, pass: &mut P) -> u64
        requires of { Self.serves self.now pass.old }
        ensures of { Self.serves self.now pass.new }
        ensures saw { Saw (Self.tree self.now).history (P.knows pass.old) (P.knows pass.new) }
        ensures calls { result ≡ length (P.knows pass.new).seen };

    /// The ranges of the tree after all that the handle has then seen, in rising order.
    ///
    /// # Errors
    ///
    /// `NoMemory` where memory ran out.
    fn list<R: Wait>(&self, rt: &R, alloc: Global, pass: &mut P) -> Result<Vec<Range>, NoMemory>
        requires of { Self.serves self.now pass.old }
        ensures of { Self.serves self.now pass.new }
        ensures saw { Saw (Self.tree self.now).history (P.knows pass.old) (P.knows pass.new) }
        ensures ranges { IfOk result (λ ranges. ranges.items ≡ map_seen (Self.tree self.now) (P.knows pass.new)) };

    /// An image of the map of the tree after all that the handle has then seen.
    ///
    /// # Errors
    ///
    /// `NoMemory` where memory ran out.
    fn image<R: Wait>(&self, rt: &R, alloc: Global, pass: &mut P) -> Result<Vec<u8>, NoMemory>
        requires of { Self.serves self.now pass.old }
        ensures of { Self.serves self.now pass.new }
        ensures saw { Saw (Self.tree self.now).history (P.knows pass.old) (P.knows pass.new) }
        ensures image { IfOk result (λ bytes. IsImageOfMap (Self.tree self.now).history.kind (map_seen (Self.tree self.now) (P.knows pass.new)) bytes.items) };

    /// Afterwards all handles of the tree have seen its whole history, whose calls are exactly theirs.
    fn settle<R: Wait>(&self, rt: &R, passes: &mut [P])
        requires { AreAll P.knows Self.serves (Self.many self.now) self.now passes.old }
        ensures all { AreAll P.knows Self.serves (Self.many self.now) self.now passes.new }
        ensures settled { Settled (seen_by (Self.tree self.now).history (map P.knows passes.new)) (map P.knows passes.old) (map P.knows passes.new) };
}
