//! A desk over the tree that threads share, which reads while another thread holds the tree's lock.

ghost use Rattle.std.specs.Prelude.{◌≡◌, ◌≤◌, ◌^◌, None, All, IfOk, length, vec_len, vec_capacity};
ghost use Rattle.std.specs.Thread.{IsSync};
ghost use Rattle.mt_desks.specs.Dealing.{lines_of_lane};
ghost use Rattle.mt_desks.specs.Desks.{AreLines};
ghost use Rattle.mt_desks.specs.Phases.{CanPass, IsLaid};
ghost use Rattle.mt_log.specs.declared.lines.Item.TheVariants as items;
ghost use Rattle.mt_tree.specs.Trees.{IsPassOf, pass_in};

use crate::asserts::same;
use mt_base::{Kind, NoMemory, Query};
use mt_commands::LaneTree;
use mt_desks::{LaneDesk, needs_of, run_phase};
use mt_io::NoGate;
use mt_lanes::Lane;
use mt_log::{Answer, Entry, Item, Line, Said};
use mt_replay::Plays;
use mt_tree::Pass;
use std::alloc::Global;
use std::sync::Wait;
use std::sync::atomic::{AtomicBool, Ordering};
use std::test::Fail;
use std::thread::{Threads, join};
use std::{mem, slice};

/// So many turns of its loop a thread waits for the other.
const TURNS: u64 = 200_000_000;

/// A tree of ranges, and two passes (handles) on it.
#[tactic(auto, using(crate::proofs::Closed::new_are_closed))]
fn tree_and_passes(alloc: Global) -> Result<(LaneTree, Vec<Pass>), Fail>
    ensures of { IfOk result (λ r. All (IsPassOf r.0.tree) r.1.items) }
    ensures closed { IfOk result (λ r. All (λ p. (pass_in p).standing ≡ None) r.1.items) }
{
    let zeros = LaneTree::zeros(alloc, &[Kind::Range], 64)?;
    match LaneTree::make(alloc, Kind::Range, 64, 2, &zeros) {
        Ok(made) => Ok(made),
        Err(_) => Err("no tree was made".into()),
    }
}

/// The last handle that is left.
fn last_pass(tree: &LaneTree, passes: &mut Vec<Pass>) -> Result<Pass, Fail>
    requires all_of { All (IsPassOf tree.now.tree) passes.old.items }
    requires all_closed { All (λ p. (pass_in p).standing ≡ None) passes.old.items }
    ensures rest_of { All (IsPassOf tree.now.tree) passes.new.items }
    ensures rest_closed { All (λ p. (pass_in p).standing ≡ None) passes.new.items }
    ensures of { IfOk result (IsPassOf tree.now.tree) }
    ensures closed { IfOk result (λ p. (pass_in p).standing ≡ None) }
{
    match passes.pop() {
        Some(pass) => Ok(pass),
        None => Err("a pass is missing".into()),
    }
}

/// Stores a range at each of the first 40 even indexes, each with an entry of its own.
fn fill(rt: &impl Wait, tree: &LaneTree, pass: &mut Pass)
    requires { IsPassOf tree.now.tree pass.old }
    ensures { IsPassOf tree.now.tree pass.new }
{
    for n in 0..40 {
        let _ = tree.tree.store_range(rt, pass, 2 * n, 2 * n, 4096 + n);
    }
}

/// A line that asks a query of the first tree.
fn ask(number: u64, query: Query) -> Line
    ensures { result ≡ record { number = number; item = items.Ask 0 query } }
{
    Line {
        number,
        item: Item::Ask { tree: 0, query },
    }
}

/// A line that scans the first tree.
fn scan(number: u64, index: u64, max: u64) -> Line
    ensures { result ≡ record { number = number; item = items.Scan 0 index max 3 } }
{
    let (tree, count) = (0, 3);
    Line {
        number,
        item: Item::Scan {
            tree,
            index,
            max,
            count,
        },
    }
}

/// The first lane, with a desk over the trees, which is to do its lines of a phase.
fn laid<'a, R: Wait>(
    alloc: Global,
    rt: &'a R,
    trees: &'a [LaneTree],
    lines: &'a [Line],
) -> Result<Lane<LaneDesk<'a, R, Pass, LaneTree>>, NoMemory>
    requires lines { AreLines (length trees.now) (lines_of_lane 0 0 lines.now) }
    requires few { length (lines_of_lane 0 0 lines.now) ≤ 2 ^ 63 }
    ensures laid { IfOk result (λ l. IsLaid l.steps (length l.desk.trees.now) l.desk.lines.all l.desk.lines.left (vec_len l.desk.passes)
        (vec_len l.desk.room) (vec_capacity l.desk.room)) }
    ensures trees { IfOk result (λ l. l.desk.trees.now ≡ trees.now) }
{
    let needs = needs_of(0, lines)?;
    let desk = LaneDesk::new(alloc, rt, 0, 0, trees, lines, needs.room, Vec::new(alloc))?;
    Ok(Lane {
        lane: 0,
        steps: needs.steps,
        desk,
    })
}

/// Waits for a sign, for at most this many turns. Returns whether the sign was given.
fn waited(sign: &AtomicBool) -> bool {
    for _ in 0..TURNS {
        if sign.load(Ordering::SeqCst) {
            return true;
        }
    }
    false
}

/// What a desk answers to these lines once the lock is held. It gives a sign when all are answered.
fn answers_to<'a, R: Threads + Wait + Sync>(
    alloc: Global,
    rt: &'a R,
    trees: &'a [LaneTree],
    lines: &'a [Line],
    rows: &mut [Vec<Pass>],
    held: &AtomicBool,
    answered: &AtomicBool,
) -> Result<Vec<Entry>, NoMemory>
    requires lines { AreLines (length trees.now) (lines_of_lane 0 0 lines.now) }
    requires few { length (lines_of_lane 0 0 lines.now) ≤ 2 ^ 63 }
    requires some { All (λ row. 1 ≤ vec_len row) rows.old }
    requires can { CanPass pass_in (λ t p. IsPassOf t.tree p) (λ row. row.items) 0 trees.now rows.old }
{
    let mut lanes = [laid(alloc, rt, trees, lines)?];
    if waited(held) {
        run_phase(rt, rows, &mut lanes, &NoGate);
        answered.store(true, Ordering::SeqCst);
    }
    Ok(mem::replace(&mut lanes[0].desk.room, Vec::new(alloc)))
}

/// What a desk answers to a line of each kind that reads.
fn answers<R: Threads + Wait + Sync>(
    alloc: Global,
    rt: &R,
    tree: &LaneTree,
    pass: Pass,
    held: &AtomicBool,
    answered: &AtomicBool,
) -> Result<Vec<Entry>, NoMemory>
    requires of { IsPassOf tree.now.tree pass }
    requires closed { (pass_in pass).standing ≡ None }
{
    let max = u64::MAX;
    let lines = [
        ask(3, Query::Load { index: 10 }),
        ask(4, Query::Find { index: 11, max }),
        scan(5, 13, max),
        ask(6, Query::Next { index: 30, max }),
        ask(7, Query::Prev { index: 30, min: 0 }),
        ask(8, Query::Rfind { index: 31, min: 0 }),
    ];
    let mut row = Vec::with_capacity(alloc, 1)?;
    row.push_reserved(pass);
    let mut rows = [row];
    let trees = slice::from_ref(tree);
    answers_to(alloc, rt, trees, &lines, &mut rows, held, answered)
}

/// Holds the tree's lock until the desk has answered, or for this many turns. Returns whether the desk has answered by then.
fn hold(
    rt: &impl Wait,
    tree: &LaneTree,
    own: &mut Pass,
    held: &AtomicBool,
    answered: &AtomicBool,
) -> bool
    requires { IsPassOf tree.now.tree own.old }
{
    let write = tree.tree.lock(rt, own);
    held.store(true, Ordering::SeqCst);
    let in_time = waited(answered);
    write.unlock();
    in_time
}

/// What a desk answers in a second thread while this one holds the tree's lock, and whether it has answered by then.
fn answers_beside_the_lock<R: Threads + Wait + Sync>(
    alloc: Global,
    rt: &R,
    tree: &LaneTree,
    mut own: Pass,
    pass: Pass,
) -> (Result<Vec<Entry>, NoMemory>, bool)
    requires own { IsPassOf tree.now.tree own }
    requires of { IsPassOf tree.now.tree pass }
    requires closed { (pass_in pass).standing ≡ None }
{
    let held = AtomicBool::new(false);
    let answered = AtomicBool::new(false);
    join(
        rt,
        || -> Result<Vec<Entry>, NoMemory>
            requires { IsSync R.row × IsPassOf tree.now.tree pass × ((pass_in pass).standing ≡ None) }
        { answers(alloc, rt, tree, pass, &held, &answered) },
        || -> bool
            requires { IsPassOf tree.now.tree own }
        { hold(rt, tree, &mut own, &held, &answered) },
    )
}

/// The line of an entry, its window, and the entry that it reports, or the first index of the range that it reports.
fn told(entry: &Entry) -> Option<[u64; 4]> {
    match entry.said {
        Said::Got {
            lo,
            hi,
            value: Answer::Entry(found),
        } => Some([entry.line, lo, hi, found]),
        Said::Got {
            lo,
            hi,
            value: Answer::Range(range),
        } => Some([entry.line, lo, hi, range.first]),
        _ => None,
    }
}

#[test]
fn a_desk_reads_while_another_thread_holds_the_lock(rt: HostRuntime) -> Result<(), Fail> {
    let alloc = rt.alloc();
    let (tree, mut passes) = tree_and_passes(alloc)?;
    let mut own = last_pass(&tree, &mut passes)?;
    let pass = last_pass(&tree, &mut passes)?;
    fill(&rt, &tree, &mut own);
    let (entries, in_time) = answers_beside_the_lock(alloc, &rt, &tree, own, pass);
    same(&rt, in_time, true, "no read waits for the lock");
    let entries = entries?;
    let want = [
        [3, 40, 40, 4101],
        [4, 40, 40, 12],
        [5, 40, 40, 14],
        [5, 40, 40, 16],
        [5, 40, 40, 18],
        [6, 40, 40, 32],
        [7, 40, 40, 28],
        [8, 40, 40, 30],
    ];
    let told: Vec<Option<[u64; 4]>> = entries.iter().map(told).collect(alloc)?;
    let want = want.map(Some);
    same(&rt, told.as_slice(), want.as_slice(), "the answers");
    Ok(())
}
