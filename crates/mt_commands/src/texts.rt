//! The texts that the program prints: of a run of a log, of a log that is made from a number (seed), and of the result of a run
//! of that.

ghost use Rattle.std.specs.Prelude.{◌≡◌, ◌≢◌, ◌≤◌, ◌<◌, [], IfOk, length, string_bytes};
ghost use Rattle.mt_base.specs.Width.{most_rows};
ghost use Rattle.mt_log.specs.Run.{IsRun, TellsRun};
ghost use Rattle.mt_log.specs.Trees.{IsReadable, trees_of};
ghost use Rattle.mt_base.specs.Limits.{fewest_rows, most_calls, most_lanes, most_steps, seed_end};
ghost use Rattle.mt_workload.specs.Made.{made};
ghost use Rattle.mt_workload.specs.Summary.{counted};
ghost use Rattle.mt_log.specs.declared.transcripts.Transcript.{Transcript};
ghost use Rattle.mt_replay.specs.Images.{IsImageOfRun};
ghost use Rattle.mt_replay.specs.Turns.{AllTurned};
ghost use Rattle.mt_commands.specs.Texts.{IsMadeText, IsTrialText, IsTurnedTrial};

use crate::trees::LaneTree;
use mt_base::{MOST_ROWS, NoMemory};
use mt_io::Gate;
use mt_log::{Log, Transcript, print_log, render};
use mt_replay::{play, play_image};
use mt_tree::Pass;
use mt_workload::{Summary, made_log, summarise};
use std::alloc::Global;
use std::sync::Wait;
use std::thread::Threads;

/// The answers to the lines of a log, over trees of `rows` nodes. Their memory is given back.
fn played<R: Threads + Wait + Sync, G: Gate + Sync>(
    rt: &R,
    alloc: Global,
    log: Log,
    rows: u64,
    gate: &G,
) -> Result<Transcript, NoMemory>
    requires few_rows { fewest_rows ≤ rows }
    requires rows { rows ≤ most_rows }
    requires readable { IsReadable log.lines }
    requires count { length log.lines < most_calls }
    ensures run { IfOk result (λ t. IsRun log rows t) }
    ensures turns { IfOk result (λ t. AllTurned (G.passed gate.now) log.lines) }
{
    play::<R, Pass, LaneTree, G>(rt, alloc, &log, rows, gate)
}

/// The text of what the lines of a log were answered.
///
/// # Errors
///
/// `NoMemory` where memory ran out.
pub fn answers<R: Threads + Wait + Sync, G: Gate + Sync>(
    rt: &R,
    alloc: Global,
    log: Log,
    rows: u64,
    gate: &G,
) -> Result<Vec<u8>, NoMemory>
    requires few_rows { fewest_rows ≤ rows }
    requires rows { rows ≤ most_rows }
    requires readable { IsReadable log.lines }
    requires count { length log.lines < most_calls }
    ensures text { IfOk result (λ text. TellsRun rows log text.items) }
    ensures turns { IfOk result (λ text. AllTurned (G.passed gate.now) log.lines) }
{
    let transcript = played(rt, alloc, log, rows, gate)?;
    render(alloc, &transcript)
}

/// An image of the first tree of a run of a log that declares one, over trees of `rows` nodes.
///
/// # Errors
///
/// `NoMemory` where memory ran out.
pub fn image_of_run<R: Threads + Wait + Sync, G: Gate + Sync>(
    rt: &R,
    alloc: Global,
    log: Log,
    rows: u64,
    gate: &G,
) -> Result<Vec<u8>, NoMemory>
    requires few_rows { fewest_rows ≤ rows }
    requires rows { rows ≤ most_rows }
    requires readable { IsReadable log.lines }
    requires count { length log.lines < most_calls }
    requires tree { trees_of log.lines ≢ [] }
    ensures image { IfOk result (λ bytes. IsImageOfRun rows log bytes.items) }
    ensures turns { IfOk result (λ bytes. AllTurned (G.passed gate.now) log.lines) }
{
    play_image::<R, Pass, LaneTree, G>(rt, alloc, &log, rows, gate)
}

/// The text of the log that is made from a number (seed).
///
/// # Errors
///
/// `NoMemory` where memory ran out.
pub fn made_text(alloc: Global, number: u32, steps: u32, lanes: u32) -> Result<Vec<u8>, NoMemory>
    requires number { number < seed_end }
    requires steps { steps ≤ most_steps }
    requires lanes { 1 ≤ lanes }
    requires few_lanes { lanes ≤ most_lanes }
    ensures { IfOk result (λ text. IsMadeText number steps lanes text.items) }
{
    let log = made_log(alloc, number, steps, lanes)?;
    print_log(alloc, &log)
}

/// The result of a run of the log that is made from a number (seed) for one lane.
fn tried<R: Threads + Wait + Sync, G: Gate + Sync>(
    rt: &R,
    alloc: Global,
    number: u32,
    steps: u32,
    gate: &G,
) -> Result<Summary, NoMemory>
    requires number { number < seed_end }
    requires steps { steps ≤ most_steps }
    ensures summary { IfOk result (λ summary. (t : Transcript) × IsRun (made number steps 1) most_rows t × (summary ≡ counted steps t)) }
    ensures turns { IfOk result (λ summary. IsTurnedTrial (G.passed gate.now) number steps) }
{
    let log = made_log(alloc, number, steps, 1)?;
    let transcript = played(rt, alloc, log, MOST_ROWS, gate)?;
    Ok(summarise(steps, &transcript))
}

/// The line that sums up a run, on a tree of 65,504 nodes, of the log of one lane and `steps` steps that is made from this
/// number (seed).
///
/// # Errors
///
/// `NoMemory` where memory ran out.
pub fn trial_text<R: Threads + Wait + Sync, G: Gate + Sync>(
    rt: &R,
    alloc: Global,
    number: u32,
    steps: u32,
    gate: &G,
) -> Result<String, NoMemory>
    requires number { number < seed_end }
    requires steps { steps ≤ most_steps }
    ensures text { IfOk result (λ text. IsTrialText number steps (string_bytes text)) }
    ensures turns { IfOk result (λ text. IsTurnedTrial (G.passed gate.now) number steps) }
{
    let summary = tried(rt, alloc, number, steps, gate)?;
    let mut text = String::new(alloc);
    text.writeln(summary)?;
    Ok(text)
}
