//! Draws by turns on one tree.

ghost use Rattle.std.specs.Prelude.{◌≡◌, ◌+◌, ◌*◌, ◌^◌, ◌<◌, ◌≤◌, false, None, [], ◌∷◌, IfOk, length, string_bytes};
ghost use Rattle.mt_base.specs.declared.calls.Call.TheVariants.{Erase};
ghost use Rattle.mt_base.specs.declared.kinds.Kind.TheVariants as kinds;
ghost use Rattle.mt_base.specs.Call.{acted};
ghost use Rattle.mt_base.specs.Entry.{reserved};
ghost use Rattle.mt_ids.specs.Draws.{drawn};
ghost use Rattle.mt_ids.specs.Window.{new_draws};
ghost use Rattle.mt_tree.specs.Calls.{HasCalled};
ghost use Rattle.mt_base.specs.Limits.{most_calls, most_steps};
ghost use Rattle.mt_tree.specs.Trees.{IsPassOf, map_seen, pass_in};
ghost use Rattle.mt_commands.specs.Only.{HasOnePass, IsFew, IsOnlyPass, found_in, turns_at};
ghost use Rattle.mt_commands.specs.Turns.{draws_behind, map_behind};
ghost use Rattle.mt_commands.specs.Turns as spec;

use crate::tallies::{Line, Tally};
use mt_base::{Call, Kind, MOST_ROWS, NoMemory};
use mt_ids::{Drawn, Ids};
use mt_tree::{MOST_CALLS, MakeError, Pass, Shape, Tree, Write};
use std::alloc::Global;
use std::sync::Wait;

/// Draws the next number under the lock.
fn draw(write: &mut Write<'_>, ids: &mut Ids, entry: u64) -> Drawn
    requires only { HasOnePass write.old.tree.now }
    requires shut { (pass_in write.old.pass.now).standing ≡ None }
    requires few { length (map_seen write.old.tree.now (pass_in write.old.pass.now)) ≤ 100001 }
    requires calls { length (pass_in write.old.pass.now).seen + 2 ≤ most_calls }
    requires entry { (1 ≤ entry) × (reserved entry ≡ false) }
    requires window { ids.old.hi < 2 ^ 64 }
    ensures same_reference { write.new.pass.ghost_name ≡ write.old.pass.ghost_name }
    ensures tree { write.new.tree ≡ write.old.tree }
    ensures drawn { found_in result ≡ drawn kinds.Alloc (map_seen write.old.tree.now (pass_in write.old.pass.now)) ids.old }
    ensures map { map_seen write.old.tree.now (pass_in write.new.pass.now)
        ≡ map_behind entry (map_seen write.old.tree.now (pass_in write.old.pass.now)) (found_in result) }
    ensures draws { ids.new ≡ draws_behind ids.old (found_in result) }
    ensures called { HasCalled (pass_in write.old.pass.now) (pass_in write.new.pass.now) }
    ensures calls { length (pass_in write.new.pass.now).seen ≤ length (pass_in write.old.pass.now).seen + 2 }
{
    ids.draw(write, entry)
}

/// Gives a number back under the lock.
fn give_back(write: &mut Write<'_>, number: u64)
    requires only { HasOnePass write.old.tree.now }
    requires shut { (pass_in write.old.pass.now).standing ≡ None }
    requires few { length (map_seen write.old.tree.now (pass_in write.old.pass.now)) ≤ 100001 }
    requires calls { length (pass_in write.old.pass.now).seen + 1 ≤ most_calls }
    ensures same_reference { write.new.pass.ghost_name ≡ write.old.pass.ghost_name }
    ensures tree { write.new.tree ≡ write.old.tree }
    ensures map { map_seen write.old.tree.now (pass_in write.new.pass.now)
        ≡ (acted kinds.Alloc (map_seen write.old.tree.now (pass_in write.old.pass.now)) (Erase number)).0 }
    ensures called { HasCalled (pass_in write.old.pass.now) (pass_in write.new.pass.now) }
    ensures calls { length (pass_in write.new.pass.now).seen ≤ length (pass_in write.old.pass.now).seen + 1 }
{
    let _ = write.act(&Call::Erase { index: number });
}

/// One turn under the lock: draws a number, and gives back the one that is due.
fn turn_under(write: &mut Write<'_>, ids: &mut Ids, tally: &mut Tally, n: u64, drops: u32)
    requires only { HasOnePass write.old.tree.now }
    requires pass { IsOnlyPass (pass_in write.old.pass.now) }
    requires few { IsFew (map_seen write.old.tree.now (pass_in write.old.pass.now)) most_steps }
    requires calls { length (pass_in write.old.pass.now).seen + 3 ≤ most_calls }
    requires room { 1 ≤ tally.old.room }
    requires turn { (1 ≤ n) × (n ≤ most_steps) }
    requires window { ids.old.hi < 2 ^ 64 }
    ensures same_reference { write.new.pass.ghost_name ≡ write.old.pass.ghost_name }
    ensures tree { write.new.tree ≡ write.old.tree }
    ensures pass { IsOnlyPass (pass_in write.new.pass.now) }
    ensures calls { length (pass_in write.new.pass.now).seen ≤ length (pass_in write.old.pass.now).seen + 3 }
    ensures room { tally.new.room + 1 ≡ tally.old.room }
    ensures turned { turns_at write.old.tree.now (pass_in write.new.pass.now) ids.new tally.new.tally
        ≡ spec.turn drops (turns_at write.old.tree.now (pass_in write.old.pass.now) ids.old tally.old.tally) n }
{
    let drawn = draw(write, ids, 4096 + n);
    tally.note(&drawn);
    if let Some(number) = tally.due(drops) {
        give_back(write, number);
    }
}

/// One turn, under a lock of its own.
fn turn<R: Wait>(
    rt: &R,
    tree: &Tree,
    pass: &mut Pass,
    ids: &mut Ids,
    tally: &mut Tally,
    n: u64,
    drops: u32,
)
    requires only { HasOnePass tree.now }
    requires of { IsPassOf tree.now pass.old }
    requires pass { IsOnlyPass (pass_in pass.old) }
    requires few { IsFew (map_seen tree.now (pass_in pass.old)) most_steps }
    requires calls { length (pass_in pass.old).seen + 3 ≤ most_calls }
    requires room { 1 ≤ tally.old.room }
    requires turn { (1 ≤ n) × (n ≤ most_steps) }
    requires window { ids.old.hi < 2 ^ 64 }
    ensures of { IsPassOf tree.now pass.new }
    ensures pass { IsOnlyPass (pass_in pass.new) }
    ensures calls { length (pass_in pass.new).seen ≤ length (pass_in pass.old).seen + 3 }
    ensures room { tally.new.room + 1 ≡ tally.old.room }
    ensures turned { turns_at tree.now (pass_in pass.new) ids.new tally.new.tally
        ≡ spec.turn drops (turns_at tree.now (pass_in pass.old) ids.old tally.old.tally) n }
{
    let mut write = tree.lock(rt, pass);
    turn_under(&mut write, ids, tally, n, drops);
    write.unlock();
}

/// All turns on a tree that was just made.
fn run<R: Wait>(
    rt: &R,
    tree: &Tree,
    pass: &mut Pass,
    ids: &mut Ids,
    tally: &mut Tally,
    steps: u32,
    drops: u32,
)
    requires only { HasOnePass tree.now }
    requires of { IsPassOf tree.now pass.old }
    requires pass { IsOnlyPass (pass_in pass.old) }
    requires empty { (pass_in pass.old).seen ≡ [] }
    requires room { steps ≤ tally.old.room }
    requires steps { steps ≤ most_steps }
    requires window { (ids.old ≡ new_draws ids.old.lo ids.old.hi) × (ids.old.hi < 2 ^ 64) }
    requires tally { tally.old.tally ≡ spec.no_tally }
    ensures { tally.new.tally ≡ (spec.turns ids.old.lo ids.old.hi steps drops).tally }
{
    for i in 0..u64::from(steps) {
        turn(rt, tree, pass, ids, tally, i + 1, drops);
    }
}

/// The only one of these handles.
fn only(passes: Vec<Pass>) -> Pass
    requires { length passes.items ≡ 1 }
    ensures { passes.items ≡ result ∷ [] }
{
    let mut passes = passes;
    match passes.pop() {
        Some(pass) => pass,
        None => unreachable!(),
    }
}

/// An allocation tree with as many nodes and calls as a tree may have, and its only handle.
#[tactic(auto, using(crate::proofs::Running::made_new))]
fn make(alloc: Global) -> Result<(Tree, Pass), NoMemory>
    ensures only { IfOk result (λ made. HasOnePass made.0) }
    ensures of { IfOk result (λ made. IsPassOf made.0 made.1) }
    ensures pass { IfOk result (λ made. IsOnlyPass (pass_in made.1)) }
    ensures empty { IfOk result (λ made. (pass_in made.1).seen ≡ []) }
{
    let shape = Shape {
        kind: Kind::Alloc,
        rows: MOST_ROWS,
        passes: 1,
        calls: MOST_CALLS,
    };
    match Tree::make(alloc, shape) {
        Ok((tree, passes)) => Ok((tree, only(passes))),
        Err(MakeError::NoMemory) => Err(NoMemory),
        Err(MakeError::BadShape { .. }) => unreachable!(),
    }
}

/// The line of `steps` draws from `lo` to `hi`, each given back after `drops` more draws.
///
/// # Errors
///
/// `NoMemory` where memory ran out.
pub fn ids_text<R: Wait>(
    rt: &R,
    alloc: Global,
    lo: u64,
    hi: u64,
    steps: u32,
    drops: u32,
) -> Result<String, NoMemory>
    requires window { lo ≤ hi }
    requires steps { steps ≤ most_steps }
    ensures { IfOk result (λ text. spec.IsIdsText lo hi steps drops (string_bytes text)) }
{
    let (tree, mut pass) = make(alloc)?;
    let mut ids = Ids::new(lo, hi);
    let mut tally = Tally::new(alloc, steps)?;
    run(rt, &tree, &mut pass, &mut ids, &mut tally, steps, drops);
    let mut text = String::new(alloc);
    text.writeln(Line {
        steps,
        tally: &tally,
    })?;
    Ok(text)
}
