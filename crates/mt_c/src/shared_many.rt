//! Reads of a shared tree that return an entry alone, many entries, or many ranges.

ghost use Rattle.std.specs.Prelude.{◌≡◌, ◌+◌, ◌*◌, ◌<◌, ◌≤◌, ◌++◌, Some, IfSome, IsSome, length, map, take, drop};
ghost use Rattle.mt_tree.specs.Many.{HasLoadedMany, HasPutMany};
ghost use Rattle.mt_tree.specs.Trees.{IsPassOf, Takes, pass_in};
ghost use Rattle.mt_tree.specs.Walks.{IsWalkOf};
ghost use Rattle.mt_c.specs.Calls.{range_out};
ghost use Rattle.mt_c.specs.SharedMany as defined;
ghost use Rattle.mt_c.specs.SharedMany.{HasWalkedOut, SharedEntry, SharedLoadedMany, SharedSteppedMany, no_times};
ghost use Rattle.mt_c.specs.Users.{common_of, known_to, paused, user_tree};
ghost use Rattle.mt_c.specs.Walkers.{IsEntry, IsOnNoWalk, Took, halted, knows};

use crate::steps::OutWalk;
use crate::told::{OutRange, many_status, out_of};
use crate::user::User;
use crate::user_handle::UserHandle;
use crate::walker::Walker;
use mt_base::{Query, Range, Steps};
use mt_tree::{Pass, Read, Tree, Walk};
use std::alloc::Global;
use std::marker::Brand;
use std::sync::ledger::{Blank, Ledger};

/// A version interval as C has it: `struct maple_window`.
#[repr(C)]
#[derive(Clone, Copy, Debug, PartialEq, Eq)]
pub struct OutWindow {
    pub lo: u64,
    pub hi: u64,
}

impl OutWindow {
    /// The window of no read.
    fn none() -> OutWindow
        ensures { result ≡ no_times }
    {
        OutWindow { lo: 0, hi: 0 }
    }
}

/// One call finds at most this many ranges.
const MOST_FOUND: usize = 32;

/// The entry that an index holds, or 0, in a counted number of steps.
#[tactic(auto, using(crate::proofs::SharingMany::is_entry))]
fn load_entry<L: Ledger>(tree: &Tree, pass: &mut Pass, index: u64, blank: Blank) -> Read<u64>
    requires of { IsPassOf tree.now pass.old }
    requires name { blank.name ≡ L.name }
    requires parts { blank.parts ≡ L.parts }
    requires some { 0 < blank.parts }
    ensures of { IsPassOf tree.now pass.new }
    ensures entry { IsEntry tree.now (pass_in pass.old) index result (pass_in pass.new) }
    ensures takes { Takes 95 pass.old pass.new }
{
    let mut steps = Steps::<L>::new(blank);
    let read = tree.load(pass, index, &mut steps);
    Read {
        lo: read.lo,
        hi: read.hi,
        value: read.value.unwrap_or(0),
    }
}

/// The entries that these indexes hold.
fn load_entries<L: Ledger>(
    tree: &Tree,
    pass: &mut Pass,
    indexes: &[u64],
    entries: &mut [u64],
    blank: Blank,
) -> Read<usize>
    requires of { IsPassOf tree.now pass.old }
    requires name { blank.name ≡ L.name }
    requires parts { blank.parts ≡ L.parts }
    requires some { 0 < blank.parts }
    ensures of { IsPassOf tree.now pass.new }
    ensures loaded { HasLoadedMany tree.now
        (pass_in pass.old) indexes.now entries.old result entries.new (pass_in pass.new) }
    ensures takes { Takes (91 * result.value + 4) pass.old pass.new }
{
    let mut steps = Steps::<L>::new(blank);
    tree.load_many(pass, indexes, entries, &mut steps)
}

/// The next ranges of a walk.
fn step_ranges<L: Ledger>(
    tree: &Tree,
    pass: &mut Pass,
    walk: &mut Walk,
    ranges: &mut [Range],
    blank: Blank,
) -> Read<usize>
    requires of { IsPassOf tree.now pass.old }
    requires walk { IsWalkOf pass.old walk.old }
    requires name { blank.name ≡ L.name }
    requires parts { blank.parts ≡ L.parts }
    requires some { 0 < blank.parts }
    ensures of { IsPassOf tree.now pass.new }
    ensures walk { IsWalkOf pass.new walk.new }
    ensures walked { HasPutMany
        tree.now pass.old walk.old ranges.old result ranges.new pass.new walk.new }
{
    let mut steps = Steps::<L>::new(blank);
    tree.step_many(pass, walk, ranges, &mut steps)
}

/// Puts the first `count` of these ranges into the places of C.
fn put_ranges(found: &[Range], count: usize, ranges: &mut [OutRange])
    requires found { count ≤ length found.now }
    requires room { count ≤ length ranges.old }
    ensures { ranges.new ≡ map range_out (take count found.now) ++ drop count ranges.old }
{
    for i in 0..count {
        ranges[i] = out_of(Some(found[i]));
    }
}

impl Walker {
    /// The entry that an index holds, or 0, without the lock.
    #[tactic(auto, using(crate::proofs::SharingMany::entry_halted, crate::proofs::SharingMany::entry_rests, crate::proofs::Using::took_more))]
    fn entry(&mut self, tree: &Tree, index: u64) -> Read<u64>
        requires { IsPassOf tree.now self.old.pass }
        ensures of { IsPassOf tree.now self.new.pass }
        ensures entry { IsEntry tree.now (halted self.old) index result (knows self.new) }
        ensures rests { IsOnNoWalk self.new }
        ensures took { Took 95 self.old self.new.pass }
    {
        self.pause(tree);
        load_entry::<Brand>(tree, &mut self.pass, index, Blank::new(1))
    }

    /// The entries that these indexes hold, 0 for an index in a hole, without the lock.
    #[tactic(auto, using(crate::proofs::SharingMany::loaded_halted, crate::proofs::SharingMany::loaded_rests, crate::proofs::Using::took_more))]
    fn load_many(&mut self, tree: &Tree, indexes: &[u64], entries: &mut [u64]) -> Read<usize>
        requires { IsPassOf tree.now self.old.pass }
        ensures of { IsPassOf tree.now self.new.pass }
        ensures loaded { HasLoadedMany tree.now
            (halted self.old) indexes.now entries.old result entries.new (knows self.new) }
        ensures rests { IsOnNoWalk self.new }
        ensures took { Took (91 * result.value + 4) self.old self.new.pass }
    {
        self.pause(tree);
        load_entries::<Brand>(tree, &mut self.pass, indexes, entries, Blank::new(1))
    }

    /// The next ranges of the walk that it is on.
    #[tactic(auto, using(crate::proofs::SharingMany::on_many, crate::proofs::SharingMany::goes_many))]
    fn walk_many(&mut self, tree: &Tree, ranges: &mut [Range]) -> Read<usize>
        requires of { IsPassOf tree.now self.old.pass }
        requires walk { IsSome self.old.walk }
        ensures of { IsPassOf tree.now self.new.pass }
        ensures walk { IsSome self.new.walk }
        ensures walked { IfSome self.old.walk (λ walk. IfSome self.new.walk
            (HasPutMany tree.now self.old.pass walk ranges.old result ranges.new self.new.pass)) }
    {
        let Some(walk) = &mut self.walk else {
            unreachable!()
        };
        step_ranges::<Brand>(tree, &mut self.pass, walk, ranges, Blank::new(1))
    }

    /// The next ranges of the walk that it is on, as many as there are places for, and at most `MOST_FOUND`.
    #[tactic(auto, using(crate::proofs::SharingMany::many_fit, crate::proofs::SharingMany::many_room))]
    fn walk_out(&mut self, tree: &Tree, ranges: &mut [OutRange]) -> Read<usize>
        requires of { IsPassOf tree.now self.old.pass }
        requires walk { IsSome self.old.walk }
        ensures of { IsPassOf tree.now self.new.pass }
        ensures walk { IsSome self.new.walk }
        ensures walked { IfSome self.old.walk (λ walk. IfSome self.new.walk
            (HasWalkedOut tree.now self.old.pass walk ranges.old ranges.new result self.new.pass)) }
    {
        let mut found = [Range {
            first: 0,
            last: 0,
            entry: 0,
        }; MOST_FOUND];
        let part = &mut found[..ranges.len().min(MOST_FOUND)];
        let read = self.walk_many(tree, part);
        put_ranges(part, read.value, ranges);
        read
    }

    /// Where the walk that it is on goes on.
    fn place(&self) -> Option<u64>
        ensures { result ≡ defined.cursor_place self.now.walk }
    {
        match &self.walk {
            Some(walk) => walk.at(),
            None => None,
        }
    }

    /// The ranges from an index on, as many as there are places for, and at most `MOST_FOUND`. The leaf of the last is kept,
    /// with its section, unless the walk has ended.
    fn step_many(
        &mut self,
        tree: &Tree,
        from: u64,
        ranges: &mut [OutRange],
    ) -> (Read<usize>, Option<u64>)
        requires { IsPassOf tree.now self.old.pass }
        ensures of { IsPassOf tree.now self.new.pass }
        ensures stepped { defined.PutsMany tree.now self.old
            (Some from) ranges.old ranges.new result.0 result.1 self.new }
    {
        self.walk_at(tree, from);
        let read = self.walk_out(tree, ranges);
        let place = self.place();
        if place.is_none() {
            self.pause(tree);
        }
        (read, place)
    }

    /// The ranges from a place on. If there is no place, it finds nothing.
    fn step_many_from(
        &mut self,
        tree: &Tree,
        place: Option<u64>,
        ranges: &mut [OutRange],
    ) -> (Read<usize>, Option<u64>)
        requires { IsPassOf tree.now self.old.pass }
        ensures of { IsPassOf tree.now self.new.pass }
        ensures stepped { defined.PutsMany
            tree.now self.old place ranges.old ranges.new result.0 result.1 self.new }
    {
        if let Some(from) = place {
            return self.step_many(tree, from, ranges);
        }
        let Ok(read) = self.ask(tree, &Query::Find { index: 1, max: 0 }) else {
            unreachable!()
        };
        let none = Read {
            lo: read.lo,
            hi: read.hi,
            value: 0,
        };
        (none, None)
    }
}

impl User {
    /// The entry that an index holds, or 0, without the lock.
    pub fn entry(&mut self, index: u64) -> Read<u64>
        ensures common { common_of self.new ≡ common_of self.old }
        ensures chair { self.new.chair ≡ self.old.chair }
        ensures receipts { self.new.receipts ≡ self.old.receipts }
        ensures entry { IsEntry
            (user_tree self.old) (paused self.old) index result (known_to self.new) }
        ensures rests { IsOnNoWalk self.new.walker }
        ensures took { Took 95 self.old.walker self.new.walker.pass }
    {
        self.walker.entry(&self.common.tree, index)
    }

    /// The entries that these indexes hold, without the lock.
    fn load_many(&mut self, indexes: &[u64], entries: &mut [u64]) -> Read<usize>
        ensures common { common_of self.new ≡ common_of self.old }
        ensures chair { self.new.chair ≡ self.old.chair }
        ensures receipts { self.new.receipts ≡ self.old.receipts }
        ensures loaded { HasLoadedMany (user_tree self.old)
            (paused self.old) indexes.now entries.old result entries.new (known_to self.new) }
        ensures rests { IsOnNoWalk self.new.walker }
        ensures took { Took (91 * result.value + 4) self.old.walker self.new.walker.pass }
    {
        self.walker.load_many(&self.common.tree, indexes, entries)
    }

    /// The ranges from a place on, as `Walker::step_many_from` finds them.
    fn step_many_from(
        &mut self,
        place: Option<u64>,
        ranges: &mut [OutRange],
    ) -> (Read<usize>, Option<u64>)
        ensures common { common_of self.new ≡ common_of self.old }
        ensures chair { self.new.chair ≡ self.old.chair }
        ensures receipts { self.new.receipts ≡ self.old.receipts }
        ensures stepped { defined.PutsMany (user_tree self.old)
            self.old.walker place ranges.old ranges.new result.0 result.1 self.new.walker }
    {
        self.walker.step_many_from(&self.common.tree, place, ranges)
    }
}

/// The entry that `index` holds, and 0 if there is none. `window` is the version interval that it is from.
#[tactic(auto, using(crate::proofs::SharingMany::entry_open, crate::proofs::SharingMany::entry_closed))]
#[unsafe(no_mangle)]
pub extern "C" fn maple_shared_entry(
    alloc: Global,
    user: &mut UserHandle,
    index: u64,
    window: &mut OutWindow,
) -> u64
    ensures { SharedEntry index user.old user.new result window.new }
{
    let Some(mut whole) = user.take(alloc) else {
        *window = OutWindow::none();
        return 0;
    };
    let Read { lo, hi, value } = whole.entry(index);
    user.put(whole);
    *window = OutWindow { lo, hi };
    value
}

/// The entries that these indexes hold, 0 if there is none, as many as there are places for: all from versions in one window.
#[tactic(auto, using(crate::proofs::SharingMany::loaded_open, crate::proofs::SharingMany::loaded_closed))]
#[unsafe(no_mangle)]
pub extern "C" fn maple_shared_load_many(
    alloc: Global,
    user: &mut UserHandle,
    indexes: &[u64],
    entries: &mut [u64],
    window: &mut OutWindow,
) -> u32
    ensures { SharedLoadedMany
        indexes.now entries.old entries.new user.old user.new result window.new }
{
    let Some(mut whole) = user.take(alloc) else {
        *window = OutWindow::none();
        return user.refusal();
    };
    let Read { lo, hi, value: _ } = whole.load_many(indexes, entries);
    user.put(whole);
    *window = OutWindow { lo, hi };
    0
}

/// The next ranges of a walk, as many as there are places for, and at most 32: all from versions in one window. The user keeps
/// the last one's leaf, in a section that is open until the walk ends or the user does something else.
#[tactic(auto, using(crate::proofs::SharingMany::stepped_open, crate::proofs::SharingMany::stepped_closed))]
#[unsafe(no_mangle)]
pub extern "C" fn maple_shared_step_many(
    alloc: Global,
    user: &mut UserHandle,
    walk: &mut OutWalk,
    ranges: &mut [OutRange],
    count: &mut u64,
    window: &mut OutWindow,
) -> u32
    ensures { SharedSteppedMany walk.old
        walk.new ranges.old ranges.new user.old user.new result count.new window.new }
{
    let Some(mut whole) = user.take(alloc) else {
        *window = OutWindow::none();
        *count = 0;
        return user.refusal();
    };
    let (read, place) = whole.step_many_from(walk.index(), ranges);
    user.put(whole);
    *walk = OutWalk::from_index(place);
    *count = read.value as u64;
    *window = OutWindow {
        lo: read.lo,
        hi: read.hi,
    };
    many_status(read.value, place)
}
