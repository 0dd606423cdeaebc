//! A player of a log: its trees between two phases, and the answers so far.

ghost use Rattle.std.specs.Prelude.{◌≡◌, ◌+◌, ◌<◌, ◌≤◌, ◌∷◌, ◌++◌, ℕ, [], List, drop, length, map, IfOk, OnOk};
ghost use Rattle.std.specs.Vec.Iter.{into_iter_items};
ghost use Rattle.mt_base.specs.Width.{most_rows};
ghost use Rattle.mt_log.specs.declared.lines.Line.{Line};
ghost use Rattle.mt_log.specs.Run.{Step, listings_of};
ghost use Rattle.mt_log.specs.Trees.{AreNamedFrom, Declared, NamesBelow, count_after};
ghost use Rattle.mt_linearize.specs.Lines.{phase_behind};
ghost use Rattle.mt_linearize.specs.Phases.{histories_of};
ghost use Rattle.mt_desks.specs.Dealing.{IsOnePhase};
ghost use Rattle.mt_replay.specs.Makes.{BeginAs, declared_kind};
ghost use Rattle.mt_replay.specs.Trees.{AreAll, player_passes};
ghost use Rattle.mt_base.specs.Limits.{fewest_rows};
ghost use Rattle.mt_replay.specs.Players.{BeginsPhase, Checks, Copies, HasImage, HasRanges, IsBetweenPhases, IsBegun, IsCopyIn, IsPlayedBy};
ghost use Rattle.mt_replay.specs.Players.{OpensTree, rows_known, player_state};

use crate::counts::{Counted, count_again};
use crate::makes::{Made, make_declared};
use crate::rows::{copy_settled, count_settled, image_settled, list_settled};
use crate::trees::Plays;
use mt_base::{Kind, NoMemory, Range};
use mt_desks::Passage;
use mt_log::{Entry, Item, KnownTree, Line, ListOf, Listing, Said, Word};
use std::alloc::Global;
use std::sync::Wait;
use std::thread::Threads;
use std::vec::IntoIter;

/// The declared trees, each with `rows` nodes, all its handles and its ranges as they were counted last; and the answers.
#[derive(Drop)]
pub(crate) struct Player<P: Drop, T: Drop> {
    pub(crate) rows: u64,
    pub(crate) passes: u32,
    pub(crate) known: Vec<KnownTree>,
    pub(crate) trees: Vec<T>,
    pub(crate) seats: Vec<Vec<P>>,
    pub(crate) counts: Vec<Counted>,
    pub(crate) entries: Vec<Entry>,
}

impl<P: Passage + Drop + Send, T: Plays<P> + Send> Player<P, T> {
    /// A player of no tree, whose trees will have this many nodes and handles.
    pub(crate) fn new(alloc: Global, rows: u64, passes: u32) -> Self
        requires few_rows { fewest_rows ≤ rows }
        requires rows { rows ≤ most_rows }
        requires some_pass { 1 ≤ passes }
        requires passes { passes ≤ player_passes }
        ensures rest { IsBetweenPhases T.tree P.knows T.serves T.many result }
        ensures played { IsPlayedBy 0 [] (player_state T.tree P.knows result) [] }
        ensures none { result.trees.items ≡ [] }
        ensures rows_are { result.rows ≡ rows }
        ensures passes_are { result.passes ≡ passes }
    {
        Player {
            rows,
            passes,
            known: Vec::new(alloc),
            trees: Vec::new(alloc),
            seats: Vec::new(alloc),
            counts: Vec::new(alloc),
            entries: Vec::new(alloc),
        }
    }

    /// Adds a new tree of this name, which has had no call. It has `ranges` ranges.
    fn push(&mut self, known: KnownTree, tree: T, row: Vec<P>, ranges: u64) -> Result<(), NoMemory>
        ensures kept { OnOk result (self.new
            ≡ record self.old { known = self.new.known; trees = self.new.trees; seats = self.new.seats; counts = self.new.counts }) }
        ensures known { OnOk result (self.new.known.items ≡ self.old.known.items ++ known ∷ []) }
        ensures trees { OnOk result (self.new.trees.items ≡ self.old.trees.items ++ tree ∷ []) }
        ensures seats { OnOk result (self.new.seats.items ≡ self.old.seats.items ++ row ∷ []) }
        ensures counts { OnOk result (self.new.counts.items ≡ self.old.counts.items ++ record { calls = 0; ranges = ranges } ∷ []) }
    {
        self.known.push(known)?;
        self.trees.push(tree)?;
        self.seats.push(row)?;
        self.counts.push(Counted { calls: 0, ranges })?;
        Ok(())
    }

    /// Declares an empty tree, which is the first of those made for this phase that are left.
    fn open(
        &mut self,
        name: Word,
        kind: Kind,
        made: &mut IntoIter<Made<P, T>>,
    ) -> Result<(), NoMemory>
        requires rest { IsBetweenPhases T.tree P.knows T.serves T.many self.old }
        requires made { BeginAs T.tree P.knows T.serves T.many self.old.rows self.old.passes (kind ∷ []) (into_iter_items made.old) }
        ensures rest { OnOk result (IsBetweenPhases T.tree P.knows T.serves T.many self.new) }
        ensures opens { OnOk result (OpensTree (player_state T.tree P.knows self.old) (player_state T.tree P.knows self.new) name kind) }
        ensures count { OnOk result (length self.new.trees.items ≡ length self.old.trees.items + 1) }
        ensures left { into_iter_items made.new ≡ drop 1 (into_iter_items made.old) }
    {
        let Some(made) = made.next() else {
            unreachable!()
        };
        let (tree, row) = made?;
        self.push(KnownTree { name, kind }, tree, row, 0)?;
        Ok(())
    }

    /// A copy of the tree of this number, and the copy's handles.
    fn copy_of<R: Wait>(
        &mut self,
        rt: &R,
        alloc: Global,
        number: usize,
    ) -> Result<(T, Vec<P>), NoMemory>
        requires rest { IsBetweenPhases T.tree P.knows T.serves T.many self.old }
        requires declared { number < length self.old.trees.items }
        ensures rest { IsBetweenPhases T.tree P.knows T.serves T.many self.new }
        ensures kept { self.new ≡ record self.old { seats = self.new.seats } }
        ensures stays { rows_known P.knows self.new.seats.items ≡ rows_known P.knows self.old.seats.items }
        ensures new { IfOk result (λ made. IsCopyIn (player_state T.tree P.knows self.old) number (T.tree made.0) (map P.knows made.1.items)) }
        ensures all { IfOk result (λ made. AreAll P.knows T.serves self.old.passes made.0 made.1.items) }
        ensures many { IfOk result (λ made. T.many made.0 ≡ self.old.passes) }
    {
        copy_settled(rt, alloc, &self.trees[number], &mut self.seats[number])
    }

    /// How many ranges the tree of this number has, which is checked where it has had calls since they were counted.
    fn count_of<R: Wait>(&mut self, rt: &R, number: usize) -> u64
        requires rest { IsBetweenPhases T.tree P.knows T.serves T.many self.old }
        requires declared { number < length self.old.trees.items }
        ensures rest { IsBetweenPhases T.tree P.knows T.serves T.many self.new }
        ensures kept { self.new ≡ record self.old { seats = self.new.seats; counts = self.new.counts } }
        ensures stays { rows_known P.knows self.new.seats.items ≡ rows_known P.knows self.old.seats.items }
        ensures count { HasRanges (player_state T.tree P.knows self.old) number (λ ranges. result ≡ length ranges) }
    {
        count_again(
            rt,
            &self.trees[number],
            &mut self.seats[number],
            &mut self.counts[number],
        )
    }

    /// The ranges of the tree of this number, in rising order.
    fn ranges_of<R: Wait>(
        &mut self,
        rt: &R,
        alloc: Global,
        number: usize,
    ) -> Result<Vec<Range>, NoMemory>
        requires rest { IsBetweenPhases T.tree P.knows T.serves T.many self.old }
        requires declared { number < length self.old.trees.items }
        ensures rest { IsBetweenPhases T.tree P.knows T.serves T.many self.new }
        ensures kept { self.new ≡ record self.old { seats = self.new.seats } }
        ensures stays { rows_known P.knows self.new.seats.items ≡ rows_known P.knows self.old.seats.items }
        ensures ranges { IfOk result (λ v. HasRanges (player_state T.tree P.knows self.old) number (λ ranges. v.items ≡ ranges)) }
    {
        list_settled(rt, alloc, &self.trees[number], &mut self.seats[number])
    }

    /// An image of the tree of this number.
    ///
    /// # Errors
    ///
    /// `NoMemory` where memory ran out.
    pub(crate) fn image_of<R: Wait>(
        &mut self,
        rt: &R,
        alloc: Global,
        number: usize,
    ) -> Result<Vec<u8>, NoMemory>
        requires rest { IsBetweenPhases T.tree P.knows T.serves T.many self.old }
        requires declared { number < length self.old.trees.items }
        ensures { IfOk result (λ bytes. HasImage (player_state T.tree P.knows self.old) number bytes.items) }
    {
        image_settled(rt, alloc, &self.trees[number], &mut self.seats[number])
    }

    /// Declares a copy of a tree, and returns how many ranges it has.
    fn copy<R: Wait>(
        &mut self,
        rt: &R,
        alloc: Global,
        line: u64,
        from: usize,
        name: Word,
    ) -> Result<(), NoMemory>
        requires rest { IsBetweenPhases T.tree P.knows T.serves T.many self.old }
        requires declared { from < length self.old.trees.items }
        ensures rest { OnOk result (IsBetweenPhases T.tree P.knows T.serves T.many self.new) }
        ensures copies { OnOk result (Copies (player_state T.tree P.knows self.old) (player_state T.tree P.knows self.new) line from name) }
        ensures count { OnOk result (length self.new.trees.items ≡ length self.old.trees.items + 1) }
    {
        let known = self.known[from].renamed(name);
        let (tree, mut row) = self.copy_of(rt, alloc, from)?;
        let count = count_settled(rt, &tree, &mut row);
        self.push(known, tree, row, count)?;
        let said = Said::Copied { count };
        self.entries.push(Entry { line, said })?;
        Ok(())
    }

    /// Checks a tree, and returns how many ranges it has.
    fn check<R: Wait>(&mut self, rt: &R, line: u64, tree: usize) -> Result<(), NoMemory>
        requires rest { IsBetweenPhases T.tree P.knows T.serves T.many self.old }
        requires declared { tree < length self.old.trees.items }
        ensures rest { OnOk result (IsBetweenPhases T.tree P.knows T.serves T.many self.new) }
        ensures checks { OnOk result (Checks (player_state T.tree P.knows self.old) (player_state T.tree P.knows self.new) line tree) }
        ensures count { OnOk result (length self.new.trees.items ≡ length self.old.trees.items) }
    {
        let count = self.count_of(rt, tree);
        let said = Said::Lawful { count };
        self.entries.push(Entry { line, said })?;
        Ok(())
    }

    /// Does a line that declares, copies or checks a tree. Other lines make nothing here.
    fn declare<R: Wait>(
        &mut self,
        rt: &R,
        alloc: Global,
        line: &Line,
        made: &mut IntoIter<Made<P, T>>,
    ) -> Result<(), NoMemory>
        requires rest { IsBetweenPhases T.tree P.knows T.serves T.many self.old }
        requires named { NamesBelow (length self.old.trees.items) line.now.item }
        requires made { BeginAs T.tree P.knows T.serves T.many self.old.rows self.old.passes (declared_kind line.now.item) (into_iter_items made.old) }
        ensures rest { OnOk result (IsBetweenPhases T.tree P.knows T.serves T.many self.new) }
        ensures begins { OnOk result (BeginsPhase (player_state T.tree P.knows self.old) (player_state T.tree P.knows self.new) line.now.number line.now.item) }
        ensures count { OnOk result (length self.new.trees.items ≡ count_after (length self.old.trees.items) line.now.item) }
        ensures left { into_iter_items made.new ≡ drop (length (declared_kind line.now.item)) (into_iter_items made.old) }
    {
        match line.item {
            Item::Tree { name, kind } => self.open(name, kind, made),
            Item::Dup { from, name } => self.copy(rt, alloc, line.number, from as usize, name),
            Item::Check { tree } => self.check(rt, line.number, tree as usize),
            Item::Lane { .. }
            | Item::Join
            | Item::Write { .. }
            | Item::Ask { .. }
            | Item::Scan { .. } => Ok(()),
        }
    }

    /// Begins a phase: declares, copies and checks trees as its lines ask for, before its lanes start.
    ///
    /// # Errors
    ///
    /// `NoMemory` where memory ran out.
    pub(crate) fn begin<R: Threads + Wait + Sync>(
        &mut self,
        rt: &R,
        alloc: Global,
        lines: &[Line],
    ) -> Result<(), NoMemory>
        requires rest { IsBetweenPhases T.tree P.knows T.serves T.many self.old }
        requires named { AreNamedFrom (length self.old.trees.items) lines.now }
        ensures rest { OnOk result (IsBetweenPhases T.tree P.knows T.serves T.many self.new) }
        ensures begun { OnOk result ((phase : ℕ) (front : List Line) (steps : List Step) → phase_behind 0 front ≡ phase → IsOnePhase lines.now
            → IsPlayedBy phase front (player_state T.tree P.knows self.old) steps
            → IsBegun phase front lines.now (player_state T.tree P.knows self.new) steps) }
        ensures rows { OnOk result (self.new.rows ≡ self.old.rows) }
        ensures passes { OnOk result (self.new.passes ≡ self.old.passes) }
    {
        let mut made = make_declared(rt, alloc, lines, self.rows, self.passes)?.into_iter();
        for line in lines {
            self.declare(rt, alloc, line, &mut made)?;
        }
        Ok(())
    }

    /// Lists the trees in the order in which they were declared.
    ///
    /// # Errors
    ///
    /// `NoMemory` where memory ran out.
    pub(crate) fn list<R: Wait>(&mut self, rt: &R, alloc: Global) -> Result<Vec<Listing>, NoMemory>
        requires { IsBetweenPhases T.tree P.knows T.serves T.many self.old }
        ensures lists { IfOk result (λ lists. (declared : List Declared) → self.old.known.items ≡ map (λ d. d.tree) declared
            → lists.items ≡ listings_of declared (histories_of (player_state T.tree P.knows self.old).trees)) }
        ensures entries { self.new.entries ≡ self.old.entries }
    {
        let mut lists = Vec::new(alloc);
        for at in 0..self.trees.len() {
            let ranges = self.ranges_of(rt, alloc, at)?;
            let known = self.known[at];
            lists.push(Listing {
                name: known.name,
                kind: known.kind,
                ranges: ListOf::new(ranges),
            })?;
        }
        Ok(lists)
    }
}
