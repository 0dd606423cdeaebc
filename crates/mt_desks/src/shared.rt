//! What a lane does on a tree that several share.

ghost use Rattle.std.specs.Prelude.{◌≡◌, ◌+◌, ◌≤◌, ℕ, ◌*◌, None, length, vec_len, vec_capacity, IfOk, IfErr};
ghost use Rattle.mt_base.specs.Passes as known;
ghost use Rattle.mt_base.specs.Passes.{Pass, Wrote, Saw};
ghost use Rattle.mt_log.specs.declared.lines.Item.TheVariants.{Scan};
ghost use Rattle.mt_base.specs.Places.{place_within};
ghost use Rattle.mt_desks.specs.Desks.{SharedTree};
ghost use Rattle.mt_desks.specs.Scans.{IsScanDone};
ghost use Rattle.mt_desks.specs.Walks.{OpensOnce};

use mt_base::{Call, Done, Query, Range, Read, Worn};
use mt_log::Entry;
use std::sync::Wait;

/// A caller's token on a tree that several share.
///
/// Its meanings are `knows`, what it knows of the tree's history; and `steps`, how many steps it has made there without the lock.
pub trait Passage {
    ghost knows: { Self → Pass };

    ghost steps: { Self → ℕ };

    /// The handle's number. Those of a tree are numbered from 0.
    fn number(&self) -> u32
        ensures { result ≡ (knows self.now).number };

    /// A handle of no tree. It is in the place of one that is handed out.
    fn away() -> Self;
}

/// A tree that several threads share, each with a handle of its own.
///
/// Its meanings are `tree`, its history and how many calls it takes; and `serves`, that a handle is one of this tree's. No call
/// takes memory. `Wait` is needed for the lock alone.
pub trait Shared<P: Passage> {
    ghost tree: { Self → SharedTree };

    ghost serves: { Self → P → Type 0 };

    /// Makes a call, by no step without the lock.
    ///
    /// # Errors
    ///
    /// `Worn` if the tree has had as many calls as it takes. The handle has then seen them all.
    fn act<R: Wait>(&self, rt: &R, pass: &mut P, call: &Call) -> Result<Done, Worn>
        requires of { serves self.now pass.old }
        requires closed { (P.knows pass.old).standing ≡ None }
        ensures of { serves self.now pass.new }
        ensures rests { P.steps pass.new ≡ P.steps pass.old }
        ensures wrote { IfOk result (λ done. Wrote (tree self.now).history (P.knows pass.old) done.call call.now done.reply (P.knows pass.new)) }
        ensures worn { IfErr result (λ _. Saw (tree self.now).history (P.knows pass.old) (P.knows pass.new)
            × (length (P.knows pass.new).seen ≡ (tree self.now).most)) };

    /// Makes a read, in few steps without the lock. It leaves no section open.
    fn ask<R: Wait>(&self, rt: &R, pass: &mut P, query: &Query) -> Read<Option<Range>>
        requires of { serves self.now pass.old }
        requires closed { (P.knows pass.old).standing ≡ None }
        ensures of { serves self.now pass.new }
        ensures closed { (P.knows pass.new).standing ≡ None }
        ensures few { P.steps pass.new ≤ P.steps pass.old + 360 }
        ensures read { (k : ℕ) × known.Read (tree self.now).history (P.knows pass.old) result.lo result.hi k query.now result.value (P.knows pass.new) };

    /// Makes a scan from an index up to a bound: finds, each after the range of the one before, at most `count`, and none after
    /// the first that finds nothing. Each answer follows what the room holds. All finds are made in one section, which is then
    /// closed.
    fn scan(&self, pass: &mut P, line: u64, index: u64, max: u64, count: u32, room: &mut Vec<Entry>)
        requires of { serves self.now pass.old }
        requires closed { (P.knows pass.old).standing ≡ None }
        requires room { vec_len room.old + count ≤ vec_capacity room.old }
        ensures of { serves self.now pass.new }
        ensures closed { (P.knows pass.new).standing ≡ None }
        ensures scanned { (lane phase number : ℕ) → IsScanDone
            (record { line = line; lane = lane; phase = phase; item = Scan number index max count }) number max count
            (place_within index max) (tree self.now).history (P.knows pass.old) (P.knows pass.new) room.old.items room.new.items }
        ensures once { OpensOnce (P.knows pass.old) (P.knows pass.new) }
        ensures few { P.steps pass.new ≤ P.steps pass.old + (220 * count + 1) }
        ensures len { vec_len room.new ≤ vec_len room.old + count }
        ensures capacity { vec_capacity room.new ≡ vec_capacity room.old };
}
