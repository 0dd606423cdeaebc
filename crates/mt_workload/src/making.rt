ghost use Rattle.std.specs.Prelude.{◌≡◌, ◌≤◌, ◌<◌, ◌+◌, ◌++◌, ◌∷◌, IfOk, OnOk, codes, length};
ghost use Rattle.mt_log.specs.LogText.{IsLog};
ghost use Rattle.mt_log.specs.Trees.{IsReadable};
ghost use Rattle.mt_base.specs.Limits.{most_lanes, most_steps, seed_end};
ghost use Rattle.mt_log.specs.declared.lines.Item.TheVariants as items;
ghost use Rattle.mt_workload.specs.Made.{steps, steps_of_lane, lanes_from, made};

use crate::draws::Draws;
use crate::made_lines::MadeLines;
use crate::steps::step;
use mt_base::{Kind, NoMemory};
use mt_log::{Item, Line, ListOf, Log, Word};
use std::alloc::{AllocError, Global};

/// Adds `count` steps.
fn push_steps(lines: &mut MadeLines, draws: &mut Draws, count: u32) -> Result<(), AllocError>
    ensures lines { OnOk result (lines.new ≡ lines.old ++ (steps count draws.old).0) }
    ensures drawn { OnOk result (draws.new ≡ (steps count draws.old).1) }
{
    for _step in 0..count {
        lines.push(step(draws))?;
    }
    Ok(())
}

/// How many steps a lane has, if `steps` are divided among `lanes`.
#[tactic(auto, unfolding(crate::specs::Made::steps_of_lane))]
fn steps_of_lane(steps: u32, lanes: u32, lane: u32) -> u32
    requires { 1 ≤ lanes }
    ensures { result ≡ steps_of_lane steps lanes lane }
{
    let share = steps / lanes;
    if lane < steps % lanes {
        share + 1
    } else {
        share
    }
}

/// Adds a lane's line and its steps.
fn push_lane(
    lines: &mut MadeLines,
    draws: &mut Draws,
    lane: u32,
    count: u32,
) -> Result<(), AllocError>
    ensures lines { OnOk result (lines.new ≡ lines.old ++ items.Lane lane ∷ (steps count draws.old).0) }
    ensures drawn { OnOk result (draws.new ≡ (steps count draws.old).1) }
{
    lines.push(Item::Lane { lane })?;
    push_steps(lines, draws, count)
}

/// The declaration of the one tree.
fn tree() -> Item
    ensures { result ≡ items.Tree (codes "a") Kind.Alloc }
{
    Item::Tree {
        name: Word::new(b"a".as_slice()).unwrap(),
        kind: Kind::Alloc,
    }
}

/// Adds lanes, with this many steps in all.
fn push_lanes(
    lines: &mut MadeLines,
    draws: &mut Draws,
    steps: u32,
    lanes: u32,
) -> Result<(), AllocError>
    requires { 1 ≤ lanes }
    ensures { OnOk result (lines.new ≡ lines.old ++ (lanes_from (steps_of_lane steps lanes) 0 lanes draws.old).0) }
{
    for lane in 0..lanes {
        push_lane(lines, draws, lane, steps_of_lane(steps, lanes, lane))?;
    }
    Ok(())
}

/// The lines of the log that is made from this number (seed).
#[tactic(auto, unfolding(crate::specs::Made::made))]
fn made_lines(alloc: Global, number: u32, steps: u32, lanes: u32) -> Result<ListOf<Line>, NoMemory>
    requires number { number < seed_end }
    requires steps { steps ≤ most_steps }
    requires lanes { 1 ≤ lanes }
    requires few_lanes { lanes ≤ most_lanes }
    ensures { IfOk result (λ lines. lines ≡ (made number steps lanes).lines) }
{
    let mut draws = Draws::new(number);
    let mut lines = MadeLines::new(alloc, (steps + lanes + 1) as usize)?;
    lines.push(tree())?;
    push_lanes(&mut lines, &mut draws, steps, lanes)?;
    Ok(lines.into_lines())
}

/// The log that is made from this number (seed): `steps` steps on one tree, divided among `lanes` lanes (threads). It can be
/// printed, and played.
///
/// # Errors
///
/// `NoMemory` where memory ran out.
#[tactic(auto, using(crate::proofs::MadeLogs::made_is_readable, crate::proofs::MadeLogs::made_long), unfolding(crate::specs::Made::made))]
pub fn made_log(alloc: Global, number: u32, steps: u32, lanes: u32) -> Result<Log, NoMemory>
    requires number { number < seed_end }
    requires steps { steps ≤ most_steps }
    requires lanes { 1 ≤ lanes }
    requires few_lanes { lanes ≤ most_lanes }
    ensures made { IfOk result (λ log. log ≡ made number steps lanes) }
    ensures log { IfOk result IsLog }
    ensures readable { IfOk result (λ log. IsReadable log.lines) }
    ensures count { IfOk result (λ log. length log.lines ≡ 1 + lanes + steps) }
{
    let lines = made_lines(alloc, number, steps, lanes)?;
    Ok(Log { version: 1, lines })
}
