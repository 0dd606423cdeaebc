//! One thread plays the lines of a log over the trees that they declare.

ghost use Rattle.std.specs.Prelude.{◌≡◌, ◌<◌, ◌≤◌, ℕ, All, [], map, length, IfOk};
ghost use Rattle.mt_base.specs.Width.{most_rows};
ghost use Rattle.mt_log.specs.Run.{IsRun};
ghost use Rattle.mt_log.specs.Trees.{IsReadable};
ghost use Rattle.mt_sequential.specs.Playing.{IsPlayed, listing_of};
ghost use Rattle.mt_base.specs.Limits.{most_calls};

use crate::maps::Plain;
use mt_base::{Call, Kind, NoMemory, Query, Range, find_at, place_after, place_within};
use mt_log::{Entry, Item, Line, ListOf, Listing, Log, Said, Transcript, Word, shown};
use std::alloc::Global;
use std::marker::Model;

/// A tree that was declared, and how many calls were made of it.
#[derive(Drop)]
struct Played<M: Plain> {
    name: Word,
    kind: Kind,
    map: M,
    calls: u64,
}

impl<M: Plain> Model for Played<M> {
    ghost use Rattle.std.specs.Prelude.{◌≡◌};
    ghost use Rattle.mt_sequential.specs.Playing.{TreeState};

    ghost Value = { TreeState };

    ghost view = { λ t. record {
      name = t.name;
      kind = t.kind;
      map = record { kind = M.kind t.map; ranges = M.map t.map; used = M.used t.map; limits = M.limits t.map };
      calls = t.calls;
    } };

    ghost invariant = { λ t. t.kind ≡ M.kind t.map };
}

impl<M: Plain> Played<M> {
    ghost use Rattle.std.specs.Prelude.{◌≡◌, ◌∷◌, ◌++◌, ◌+◌, ◌<◌, ◌≤◌, [], ℕ, length, IfOk, OnOk};
    ghost use Rattle.mt_base.specs.Call.{answer};
    ghost use Rattle.mt_base.specs.declared.replies.Reply.{Reply};
    ghost use Rattle.mt_base.specs.History.{History};
    ghost use Rattle.mt_base.specs.Width.{most_rows};
    ghost use Rattle.mt_base.specs.Places.{place_within};
    ghost use Rattle.mt_log.specs.declared.transcripts.Said.TheVariants.{Wrote};
    ghost use Rattle.mt_linearize.specs.OneThread.{MayLimit};
    ghost use Rattle.mt_sequential.specs.Playing.{Declares, IsCalled, read_entry, scan_entries, listing_of};
    ghost use Rattle.mt_base.specs.Limits.{most_calls};

    /// A new tree of this name and kind.
    fn new(alloc: Global, name: Word, kind: Kind, rows: u64) -> Result<Self, NoMemory>
        requires { rows ≤ most_rows }
        ensures { IfOk result (λ t. Declares rows name kind [] t) }
    {
        Ok(Played {
            name,
            kind,
            map: M::empty(alloc, kind, rows)?,
            calls: 0,
        })
    }

    /// A copy of the tree under another name, of which no call was made.
    fn copy(&self, alloc: Global, name: Word) -> Result<Self, NoMemory>
        ensures { IfOk result (λ copy. (h : History) → MayLimit h self.now.map.limits → Declares h.rows name self.now.kind self.now.map.ranges copy) }
    {
        Ok(Played {
            name,
            kind: self.kind,
            map: self.map.another(alloc)?,
            calls: 0,
        })
    }

    /// How many ranges the tree has.
    fn size(&self) -> u64
        ensures { result ≡ length self.now.map.ranges }
    {
        self.map.size()
    }

    /// Makes a call, and writes its number and reply to the transcript.
    fn call(&mut self, line: u64, call: &Call, entries: &mut Vec<Entry>) -> Result<(), NoMemory>
        requires used { self.old.map.used < most_calls }
        requires calls { self.old.calls < u64.MAX }
        ensures { OnOk result ((reply : Reply) × IsCalled self.old self.new call.now reply
            × (entries.new.items ≡ entries.old.items ++ record { line = line; said = Wrote (self.old.calls + 1) reply } ∷ [])) }
    {
        let reply = self.map.act(call)?;
        self.calls += 1;
        let said = Said::Wrote {
            call: self.calls,
            reply,
        };
        entries.push(Entry { line, said })?;
        Ok(())
    }

    /// Writes the answer of the map as it is to the transcript, and returns it. Both ends of the window are the number of calls
    /// so far.
    fn ask(
        &mut self,
        line: u64,
        query: &Query,
        entries: &mut Vec<Entry>,
    ) -> Result<Option<Range>, NoMemory>
        ensures value { IfOk result (λ value. value ≡ answer self.old.map.ranges query.now) }
        ensures kept { self.new ≡ self.old }
        ensures told { OnOk result (entries.new.items ≡ entries.old.items ++ read_entry line self.old query.now ∷ []) }
    {
        let found = self.map.ask(query);
        let value = shown(query, found);
        let said = Said::Got {
            lo: self.calls,
            hi: self.calls,
            value,
        };
        entries.push(Entry { line, said })?;
        Ok(found)
    }

    /// Finds range after range from `index` to `max`, and writes each step by itself: at most `count`, and none after the first
    /// that finds nothing.
    fn scan(
        &mut self,
        line: u64,
        index: u64,
        max: u64,
        count: u32,
        entries: &mut Vec<Entry>,
    ) -> Result<(), NoMemory>
        ensures kept { self.new ≡ self.old }
        ensures told { OnOk result (entries.new.items ≡ entries.old.items ++ scan_entries line self.old max count (place_within index max)) }
    {
        let mut at = place_within(index, max);
        for _step in 0..count {
            match self.ask(line, &find_at(at, max), entries)? {
                Some(range) => at = place_after(max, &range),
                None => return Ok(()),
            }
        }
        Ok(())
    }

    /// The tree as it is listed.
    fn listing(&mut self, alloc: Global) -> Result<Listing, NoMemory>
        ensures listing { IfOk result (λ l. l ≡ listing_of self.old) }
        ensures kept { self.new ≡ self.old }
    {
        let ranges = ListOf::new(self.map.list(alloc)?);
        Ok(Listing {
            name: self.name,
            kind: self.kind,
            ranges,
        })
    }
}

/// The trees that were declared so far, each of so many rows, and what their calls and reads were answered.
#[derive(Drop)]
struct Player<M: Plain> {
    rows: u64,
    trees: Vec<Played<M>>,
    entries: Vec<Entry>,
}

impl<M: Plain> Model for Player<M> {
    ghost use Rattle.mt_sequential.specs.Playing.{PlayerState};

    ghost Value = { PlayerState };

    ghost view = { λ p. record { rows = p.rows; trees = p.trees.items; entries = p.entries.items } };
}

impl<M: Plain> Player<M> {
    ghost use Rattle.std.specs.Prelude.{◌≡◌, ◌∷◌, ◌++◌, ◌+◌, ◌-◌, ◌<◌, ◌≤◌, [], ℕ, All, length, OnOk};
    ghost use Rattle.mt_base.specs.Limits.{most_calls};
    ghost use Rattle.mt_base.specs.Width.{most_rows};
    ghost use Rattle.mt_log.specs.Trees.{NamesBelow};
    ghost use Rattle.mt_sequential.specs.Playing.{Does, Copies, Checks, IsCalledWithin};

    /// Does what a line asks for.
    fn line(&mut self, alloc: Global, line: &Line) -> Result<(), NoMemory>
        requires rows { self.old.rows ≤ most_rows }
        requires named { NamesBelow (length self.old.trees) line.now.item }
        requires calls { All (IsCalledWithin (most_calls - 1)) self.old.trees }
        ensures does { OnOk result (Does self.old.rows self.old self.new line.now.number line.now.item) }
        ensures rows { self.new.rows ≡ self.old.rows }
    {
        match line.item {
            Item::Tree { name, kind } => {
                let tree = Played::new(alloc, name, kind, self.rows)?;
                self.trees.push(tree)?;
            }
            Item::Lane { .. } | Item::Join => {}
            Item::Dup { from, name } => self.copy(alloc, line.number, from as usize, name)?,
            Item::Check { tree } => self.check(line.number, tree as usize)?,
            Item::Write { tree, call } => {
                self.trees[tree as usize].call(line.number, &call, &mut self.entries)?
            }
            Item::Ask { tree, query } => {
                self.trees[tree as usize].ask(line.number, &query, &mut self.entries)?;
            }
            Item::Scan {
                tree,
                index,
                max,
                count,
            } => self.trees[tree as usize].scan(line.number, index, max, count, &mut self.entries)?,
        }
        Ok(())
    }

    /// Declares a copy of a tree, and reports how many ranges it has.
    fn copy(&mut self, alloc: Global, line: u64, from: usize, name: Word) -> Result<(), NoMemory>
        requires { from < length self.old.trees }
        ensures copies { OnOk result (Copies self.old self.new line from name) }
        ensures rows { self.new.rows ≡ self.old.rows }
    {
        let tree = &self.trees[from];
        let count = tree.size();
        let copy = tree.copy(alloc, name)?;
        self.trees.push(copy)?;
        let said = Said::Copied { count };
        self.entries.push(Entry { line, said })?;
        Ok(())
    }

    /// Tells how many ranges a tree has.
    fn check(&mut self, line: u64, tree: usize) -> Result<(), NoMemory>
        requires { tree < length self.old.trees }
        ensures checks { OnOk result (Checks self.old self.new line tree) }
        ensures rows { self.new.rows ≡ self.old.rows }
    {
        let count = self.trees[tree].size();
        let said = Said::Lawful { count };
        self.entries.push(Entry { line, said })?;
        Ok(())
    }
}

/// Plays the lines in order, over trees of `rows` nodes.
fn play_lines<M: Plain>(alloc: Global, lines: &[Line], rows: u64) -> Result<Player<M>, NoMemory>
    requires rows { rows ≤ most_rows }
    requires readable { IsReadable lines.now }
    requires count { length lines.now < most_calls }
    ensures { IfOk result (λ p. IsPlayed rows lines.now p) }
{
    let mut player = Player {
        rows,
        trees: Vec::new(alloc),
        entries: Vec::with_capacity(alloc, lines.len())?,
    };
    for line in lines {
        player.line(alloc, line)?;
    }
    Ok(player)
}

/// Lists the trees in the order in which they were declared.
fn list_trees<M: Plain>(alloc: Global, trees: &mut [Played<M>]) -> Result<Vec<Listing>, NoMemory>
    ensures { IfOk result (λ v. v.items ≡ map listing_of trees.old) }
{
    let mut lists = Vec::new(alloc);
    for at in 0..trees.len() {
        lists.push(trees[at].listing(alloc)?)?;
    }
    Ok(lists)
}

/// Plays the lines of a log in order over trees of `rows` nodes, and lists the trees.
///
/// # Errors
///
/// `NoMemory` where memory ran out.
pub fn play<M: Plain>(alloc: Global, log: &Log, rows: u64) -> Result<Transcript, NoMemory>
    requires rows { rows ≤ most_rows }
    requires readable { IsReadable log.now.lines }
    requires count { length log.now.lines < most_calls }
    ensures { IfOk result (λ t. IsRun log.now rows t) }
{
    let mut player = play_lines::<M>(alloc, log.lines.as_slice(), rows)?;
    let lists = list_trees(alloc, &mut player.trees)?;
    Ok(Transcript {
        version: log.version,
        entries: ListOf::new(player.entries),
        lists: ListOf::new(lists),
    })
}
