//! A tree on one thread.

ghost use Rattle.std.specs.Prelude.{◌≡◌, ◌↔◌, ◌+◌, ◌*◌, ◌^◌, ◌<◌, ◌≤◌, Some, IsTrue, IsOk, IfOk, IfErr};
ghost use Rattle.std.specs.Prelude.{IfSome, OnOk, OnErr, length, min, option_map, take};
ghost use Rattle.mt_base.specs.declared.calls.Call.TheVariants.{StorePre};
ghost use Rattle.mt_base.specs.declared.calls.Query.TheVariants.{Load};
ghost use Rattle.mt_base.specs.Call.{answer};
ghost use Rattle.mt_base.specs.Nodes.{IsMade, one_call_more};
ghost use Rattle.mt_base.specs.Width.{greatest};
ghost use Rattle.mt_rows.specs.Publish.{IsLawfulOf, map_by};
ghost use Rattle.mt_rows.specs.Sheet.{OnlyReads, ReadsUpTo, limits_of};
ghost use Rattle.mt_rows.specs.Trees.{height_in};
ghost use Rattle.mt_engine.specs.Batches.{PutSteps, entries_at, put_first, steps_by};
ghost use Rattle.mt_engine.specs.Engine.{IsIdle, IsApplied, LoadsItsWay};
ghost use Rattle.mt_engine.specs.Heights.{HasHeight};
ghost use Rattle.mt_engine.specs.Prepared.{IsPrestored};
ghost use Rattle.mt_engine.specs.Rooms.{HasRoom, IsScanned, IsShortOf};
ghost use Rattle.mt_engine.specs.RangeWalks.{found_from, index_behind, index_in, StepsWithin, WalksFrom};
ghost use Rattle.mt_base.specs.Limits.{most_calls};

use crate::heights::height_of;
use crate::places::RangePlace;
use crate::prepared::store_prepared;
use crate::range_walk::{RangeWalk, next_range, walk_from};
use crate::rooms::{has_room, make_room};
use crate::{batches, calls, lists, queries};
use mt_base::{Call, Kind, NoMemory, Query, Range, Reply, Shortage};
use mt_free::RowBook;
use mt_list::Ranges;
use mt_rows::Rows;
use mt_splice::Edit;
use std::alloc::Global;
use std::marker::Model;

/// A tree on one thread: its nodes, the book of them, its kind, and how many levels it has. Its meaning is what the nodes and
/// the book mean. Between two calls the words are well-formed and the book is of these nodes.
#[derive(Drop)]
pub struct Engine<R: Rows> {
    rows: R,
    book: RowBook,
    kind: Kind,
    height: u64,
}

impl<R: Rows> Model for Engine<R> {
    ghost use Rattle.mt_engine.specs.Engine.{Parts};
    ghost use Rattle.mt_engine.specs.Heights.{IsMeasured};

    ghost Value = { Parts };

    ghost view = { λ e. record { sheet = R.sheet e.rows; book = e.book; kind = e.kind } };

    ghost invariant = { λ e. IsMeasured e.kind (R.sheet e.rows) e.book e.height };
}

impl<R: Rows> Engine<R> {
    /// An engine over nodes that are between two calls, with the book of them. The height of the tree is found by a way down.
    pub fn new(rows: R, book: RowBook, kind: Kind) -> Self
        requires { IsIdle kind (R.sheet rows) book }
        ensures sheet { ReadsUpTo (14 * height_in (R.sheet rows).tree.table (R.sheet rows).tree.root + 1) (R.sheet rows) result.sheet }
        ensures book { result.book ≡ book }
        ensures kind { result.kind ≡ kind }
    {
        let mut rows = rows;
        let height = height_of(&mut rows);
        Engine {
            rows,
            book,
            kind,
            height,
        }
    }

    /// An engine for a tree whose number of levels is known. It loads nothing.
    pub fn of_height(rows: R, book: RowBook, kind: Kind, height: u64) -> Self
        requires idle { IsIdle kind (R.sheet rows) book }
        requires height { HasHeight (R.sheet rows).tree height }
        ensures sheet { result.sheet ≡ R.sheet rows }
        ensures book { result.book ≡ book }
        ensures kind { result.kind ≡ kind }
    {
        Engine {
            rows,
            book,
            kind,
            height,
        }
    }

    /// How many levels the tree has.
    pub fn height(&self) -> u64
        ensures { HasHeight self.now.sheet.tree result }
    {
        self.height
    }

    /// Its words are well-formed for a tree of its kind. This does nothing.
    pub fn lawful(&self)
        ensures { IsLawfulOf self.now.sheet.tree self.now.kind }
    {
        let _height = self.height;
    }

    /// The nodes and the book, from which an engine of the same kind can be made again.
    pub fn parts(self) -> (R, RowBook)
        ensures rows { R.sheet result.0 ≡ self.sheet }
        ensures book { result.1 ≡ self.book }
        ensures idle { IsIdle self.kind (R.sheet result.0) result.1 }
    {
        (self.rows, self.book)
    }

    /// Makes one call: it does what the call says and answers so, or it answers that too few nodes are free, and leaves every
    /// word.
    pub fn apply(&mut self, call: &Call) -> Reply
        requires { self.old.sheet.ended < most_calls }
        ensures applied { IsApplied self.old.kind self.old.sheet self.new.sheet self.old.book self.new.book call.now result }
        ensures kind { self.new.kind ≡ self.old.kind }
    {
        calls::apply(
            &mut self.rows,
            &mut self.book,
            self.kind,
            &mut self.height,
            call,
        )
    }

    /// Whether a store may be made by `store_prealloc`: three nodes for each level, and one, are free. Only `apply` and
    /// `store_prealloc` take nodes.
    pub fn ready(&self) -> bool
        ensures { IsTrue result ↔ HasRoom self.now.sheet.tree self.now.book }
    {
        has_room(&self.book, self.height)
    }

    /// Makes the engine ready for a store: scans, and frees the nodes that no section holds. If fewer than three nodes for each
    /// level and one are then free, the shortage says so. All else stays, and no call is made.
    ///
    /// # Errors
    ///
    /// The shortage, where too few nodes are free.
    pub fn preallocate(&mut self) -> Result<(), Shortage>
        requires { self.old.sheet.ended < 2 ^ 64 }
        ensures scanned { IsScanned self.old.kind self.old.sheet self.new.sheet self.old.book self.new.book }
        ensures ready { IsOk result ↔ HasRoom self.new.sheet.tree self.new.book }
        ensures short { IfErr result (λ shortage. IsShortOf self.new.sheet self.new.book shortage) }
        ensures kind { self.new.kind ≡ self.old.kind }
    {
        make_room(&mut self.rows, &mut self.book, self.height)
    }

    /// Makes one store for which it is ready: it does what a `StorePre` says and answers so. It makes no scan, and is never
    /// refused for lack of nodes.
    pub fn store_prealloc(&mut self, first: u64, last: u64, entry: u64) -> Reply
        requires ready { HasRoom self.old.sheet.tree self.old.book }
        requires few { self.old.sheet.ended < most_calls }
        ensures stored { IsPrestored self.old.kind self.old.sheet self.new.sheet self.old.book self.new.book (StorePre first last entry) result }
        ensures kind { self.new.kind ≡ self.old.kind }
    {
        store_prepared(
            &mut self.rows,
            &mut self.book,
            self.kind,
            &mut self.height,
            Edit { first, last, entry },
        )
    }

    /// Answers one query. There is no answer if no range fits it.
    pub fn ask(&mut self, query: &Query) -> Option<Range>
        ensures answer { result ≡ answer (map_by self.old.sheet.tree) query.now }
        ensures rest { OnlyReads self.old.sheet self.new.sheet }
        ensures book { self.new.book ≡ self.old.book }
        ensures kind { self.new.kind ≡ self.old.kind }
    {
        queries::ask(&mut self.rows, query)
    }

    /// The entry that an index holds. There is none if it lies in a hole. It costs less than to ask for the range.
    pub fn load(&mut self, index: u64) -> Option<u64>
        ensures entry { result ≡ option_map (λ r. r.entry) (answer (map_by self.old.sheet.tree) (Load index)) }
        ensures rest { OnlyReads self.old.sheet self.new.sheet }
        ensures reads { LoadsItsWay index self.old.sheet self.new.sheet }
        ensures book { self.new.book ≡ self.old.book }
        ensures kind { self.new.kind ≡ self.old.kind }
    {
        queries::entry_at(&mut self.rows, index)
    }

    /// Puts the entries at these indexes into the places, as many as there are places for, and returns how many: 0 if an index
    /// lies in a hole. The other places are unchanged.
    pub fn load_many(&mut self, indexes: &[u64], entries: &mut [u64]) -> usize
        ensures entries { entries.new ≡ put_first (entries_at (map_by self.old.sheet.tree) (take (length entries.old) indexes.now)) entries.old }
        ensures count { result ≡ min (length indexes.now) (length entries.old) }
        ensures rest { OnlyReads self.old.sheet self.new.sheet }
        ensures book { self.new.book ≡ self.old.book }
        ensures kind { self.new.kind ≡ self.old.kind }
    {
        batches::load_many(&mut self.rows, indexes, entries)
    }

    /// Puts what one call of `next_range` for each place finds, and returns how many ranges these are: fewer only if the map
    /// has no more, and then the walk has ended. The other places are unchanged. With no place the walk stays.
    pub fn step_many<P: RangePlace>(&mut self, walk: &mut RangeWalk, ranges: &mut [P]) -> usize
        requires { WalksFrom self.old.sheet.tree walk.old }
        ensures put { PutSteps P.shows (steps_by self.old.sheet.tree (length ranges.old) walk.old.next)
            ranges.old ranges.new result walk.new.next }
        ensures walk { WalksFrom self.new.sheet.tree walk.new }
        ensures rest { OnlyReads self.old.sheet self.new.sheet }
        ensures book { self.new.book ≡ self.old.book }
        ensures kind { self.new.kind ≡ self.old.kind }
    {
        batches::step_many(&mut self.rows, walk, ranges)
    }

    /// A walk over the ranges from an index on. There is none if the index is above the greatest one. It loads nothing.
    pub fn walk_from(&self, index: u64) -> RangeWalk
        ensures walk { WalksFrom self.now.sheet.tree result }
        ensures next { result.next ≡ index_in (greatest self.now.sheet.tree.table.width) index }
    {
        walk_from(&self.rows, index)
    }

    /// The first range at a walk's index or above; the walk then goes on after it. The walk is one of the tree as it is. There
    /// is none if no range ends there or above.
    #[inline(always)]
    pub fn next_range(&mut self, walk: &mut RangeWalk) -> Option<Range>
        requires { WalksFrom self.old.sheet.tree walk.old }
        ensures range { result ≡ found_from (map_by self.old.sheet.tree) (greatest self.old.sheet.tree.table.width) walk.old.next }
        ensures next { walk.new.next ≡ index_behind (greatest self.old.sheet.tree.table.width) result }
        ensures walk { WalksFrom self.new.sheet.tree walk.new }

        // The engine is only read, and within a leaf no way from the root is loaded.
        ensures near { IfSome result (λ _. StepsWithin walk.old self.old.sheet self.new.sheet) }
        ensures rest { OnlyReads self.old.sheet self.new.sheet }
        ensures book { self.new.book ≡ self.old.book }
        ensures kind { self.new.kind ≡ self.old.kind }
    {
        next_range(&mut self.rows, walk)
    }

    /// Copies the ranges out, in rising order.
    ///
    /// # Errors
    ///
    /// `NoMemory` where memory ran out.
    pub fn list(&mut self, alloc: Global) -> Result<Vec<Range>, NoMemory>
        ensures items { IfOk result (λ ranges. ranges.items ≡ map_by self.old.sheet.tree) }
        ensures rest { OnlyReads self.old.sheet self.new.sheet }
        ensures book { self.new.book ≡ self.old.book }
        ensures kind { self.new.kind ≡ self.old.kind }
    {
        lists::list(&mut self.rows, alloc)
    }
}

impl<R: Rows> Ranges for Engine<R> {
    ghost map = { λ e. map_by e.sheet.tree };

    ghost kind = { λ e. e.kind };

    ghost used = { λ e. e.sheet.ended };

    ghost limits = { λ e. Some (limits_of e.sheet) };

    #[tactic(auto, using(crate::proofs::Moments::limits_by))]
    fn act(&mut self, call: &Call) -> Result<Reply, NoMemory>
        // As of all maps.
        requires { self.old.sheet.ended < most_calls }
        ensures acts { IfOk result
            (λ reply. IsMade self.old.kind (Some (limits_of self.old.sheet)) (map_by self.old.sheet.tree) call.now (map_by self.new.sheet.tree) reply) }
        ensures err { OnErr result (map_by self.new.sheet.tree ≡ map_by self.old.sheet.tree) }
        ensures kind { self.new.kind ≡ self.old.kind }
        ensures used { self.new.sheet.ended ≤ self.old.sheet.ended + 1 }
        ensures ended { OnOk result (Some (limits_of self.new.sheet) ≡ one_call_more (Some (limits_of self.old.sheet))) }
        ensures not_ended { OnErr result (Some (limits_of self.new.sheet) ≡ Some (limits_of self.old.sheet)) }

        // It wants no memory, and does what `apply` does.
        ensures ok { IsOk result }
        ensures applied { IfOk result (λ reply. IsApplied self.old.kind self.old.sheet self.new.sheet self.old.book self.new.book call.now reply) }
    {
        Ok(self.apply(call))
    }

    fn ask(&mut self, query: &Query) -> Option<Range> {
        Engine::ask(self, query)
    }

    fn list(&mut self, alloc: Global) -> Result<Vec<Range>, NoMemory> {
        Engine::list(self, alloc)
    }
}
