//! A read of a lane, and a scan, which is one walk.

ghost use Rattle.std.specs.Prelude.{◌≡◌, ℕ, ◌+◌, ◌*◌, ◌<◌, ◌≤◌, None, Option, vec_len, vec_capacity};
ghost use Rattle.mt_base.specs.Passes.{Pass};
ghost use Rattle.mt_log.specs.declared.lines.Item.{Item};
ghost use Rattle.mt_log.specs.Run.{shown};
ghost use Rattle.mt_base.specs.Places.{find_at, place_behind};
ghost use Rattle.mt_desks.specs.Scans.{IsLooked, IsScanDone, KeepsOne};
ghost use Rattle.mt_desks.specs.Walks.{OpensOnce};

use crate::shared::{Passage, Shared};
use crate::walks::Walks;
use mt_base::{Query, Range};
use mt_log::{Answer, Entry, Said, shown};
use std::sync::Wait;

/// What a find of a scan is told, wherever it looks from.
fn found(value: Option<Range>) -> Answer
    ensures { (at : Option ℕ) (max : ℕ) → result ≡ shown (find_at at max) value }
{
    match value {
        Some(range) => Answer::Range(range),
        None => Answer::None,
    }
}

/// Asks one query, and puts its answer into the room.
pub(crate) fn look<R: Wait, P: Passage, T: Shared<P>>(
    rt: &R,
    tree: &T,
    pass: &mut P,
    line: u64,
    query: &Query,
    room: &mut Vec<Entry>,
) -> Option<Range>
    requires of { T.serves tree.now pass.old }
    requires closed { (P.knows pass.old).standing ≡ None }
    requires room { vec_len room.old < vec_capacity room.old }
    ensures of { T.serves tree.now pass.new }
    ensures closed { (P.knows pass.new).standing ≡ None }
    ensures looked { IsLooked line (T.tree tree.now).history query.now result (P.knows pass.old) (P.knows pass.new) room.old.items room.new.items }
    ensures few { P.steps pass.new ≤ P.steps pass.old + 360 }
    ensures len { vec_len room.new ≡ vec_len room.old + 1 }
    ensures capacity { vec_capacity room.new ≡ vec_capacity room.old }
{
    let read = tree.ask(rt, pass, query);
    let said = Said::Got {
        lo: read.lo,
        hi: read.hi,
        value: shown(query, read.value),
    };
    room.push_reserved(Entry { line, said });
    read.value
}

/// Makes one step of a walk, puts its answer into the room, and returns it.
fn look_on<T, W: Walks<T>>(walk: &mut W, line: u64, room: &mut Vec<Entry>) -> Option<Range>
    requires own { W.own walk.old }
    requires room { vec_len room.old < vec_capacity room.old }
    ensures own { W.own walk.new }
    ensures on { (tree : T) → W.on walk.old tree → W.on walk.new tree }
    ensures is { W.walk walk.new ≡ record (W.walk walk.old) {
      pass = (W.walk walk.new).pass;
      steps = (W.walk walk.new).steps;
      at = place_behind result (W.walk walk.old).max;
    } }
    ensures looked { IsLooked line (W.walk walk.old).history (find_at (W.walk walk.old).at (W.walk walk.old).max) result
        (W.walk walk.old).pass (W.walk walk.new).pass room.old.items room.new.items }
    ensures few { (W.walk walk.new).steps ≤ (W.walk walk.old).steps + 220 }
    ensures once { (p : Pass) → KeepsOne p (W.walk walk.old) → KeepsOne p (W.walk walk.new) }
    ensures len { vec_len room.new ≡ vec_len room.old + 1 }
    ensures capacity { vec_capacity room.new ≡ vec_capacity room.old }
{
    let read = walk.step();
    let said = Said::Got {
        lo: read.lo,
        hi: read.hi,
        value: found(read.value),
    };
    room.push_reserved(Entry { line, said });
    read.value
}

/// Makes at most `count` steps of a walk, and none after the first that finds nothing.
fn read_on<T, W: Walks<T>>(walk: &mut W, line: u64, count: u32, room: &mut Vec<Entry>)
    requires own { W.own walk.old }
    requires room { vec_len room.old + count ≤ vec_capacity room.old }
    ensures own { W.own walk.new }
    ensures on { (tree : T) → W.on walk.old tree → W.on walk.new tree }
    ensures is { W.walk walk.new ≡ record (W.walk walk.old) { pass = (W.walk walk.new).pass; steps = (W.walk walk.new).steps; at = (W.walk walk.new).at } }
    ensures scanned { (lane phase number : ℕ) (item : Item) → IsScanDone
        (record { line = line; lane = lane; phase = phase; item = item }) number (W.walk walk.old).max count (W.walk walk.old).at
        (W.walk walk.old).history (W.walk walk.old).pass (W.walk walk.new).pass room.old.items room.new.items }
    ensures few { (W.walk walk.new).steps ≤ (W.walk walk.old).steps + 220 * count }
    ensures once { OpensOnce (W.walk walk.old).pass (W.walk walk.new).pass }
    ensures len { vec_len room.new ≤ vec_len room.old + count }
    ensures capacity { vec_capacity room.new ≡ vec_capacity room.old }
{
    for _read in 0..count {
        match look_on(walk, line, room) {
            Some(_range) => {}
            None => return,
        }
    }
}

/// Makes a scan by a walk, of at most `count` steps. Puts the answers after what the room holds, and closes the walk's section.
pub fn scan<T, W: Walks<T>>(walk: &mut W, line: u64, count: u32, room: &mut Vec<Entry>)
    requires own { W.own walk.old }
    requires room { vec_len room.old + count ≤ vec_capacity room.old }
    ensures own { W.own walk.new }
    ensures on { (tree : T) → W.on walk.old tree → W.on walk.new tree }
    ensures is { W.walk walk.new ≡ record (W.walk walk.old) { pass = (W.walk walk.new).pass; steps = (W.walk walk.new).steps; at = (W.walk walk.new).at } }
    ensures closed { (W.walk walk.new).pass.standing ≡ None }
    ensures scanned { (lane phase number : ℕ) (item : Item) → IsScanDone
        (record { line = line; lane = lane; phase = phase; item = item }) number (W.walk walk.old).max count (W.walk walk.old).at
        (W.walk walk.old).history (W.walk walk.old).pass (W.walk walk.new).pass room.old.items room.new.items }
    ensures few { (W.walk walk.new).steps ≤ (W.walk walk.old).steps + (220 * count + 1) }
    ensures once { OpensOnce (W.walk walk.old).pass (W.walk walk.new).pass }
    ensures len { vec_len room.new ≤ vec_len room.old + count }
    ensures capacity { vec_capacity room.new ≡ vec_capacity room.old }
{
    read_on(walk, line, count, room);
    walk.close();
}
