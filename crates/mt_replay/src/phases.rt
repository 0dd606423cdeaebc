//! A log is played phase by phase.

ghost use Rattle.std.specs.Prelude.{◌≡◌, ◌≢◌, ◌<◌, ◌≤◌, ◌+◌, ◌++◌, ℕ, true, List, [], length, take, slice_index_or, slice_range, IfOk, OnOk};
ghost use Rattle.mt_base.specs.Width.{most_rows};
ghost use Rattle.mt_log.specs.declared.lines.Line.{Line};
ghost use Rattle.mt_log.specs.Run.{IsRun, Step};
ghost use Rattle.mt_log.specs.Trees.{IsReadable, trees_of};
ghost use Rattle.mt_base.specs.Limits.{fewest_rows, most_calls, most_lanes};
ghost use Rattle.mt_desks.specs.Dealing.{is_join, lanes_in};
ghost use Rattle.mt_replay.specs.Images.{IsImageOfRun};
ghost use Rattle.mt_replay.specs.Lanes.{CanDo, IsPhaseBehind};
ghost use Rattle.mt_replay.specs.Phases.{NoJoinBetween};
ghost use Rattle.mt_replay.specs.Players.{IsBetweenPhases, IsBegun, IsPlayed, player_state};
ghost use Rattle.mt_replay.specs.Turns.{AllTurned, PhaseTurned};

use crate::lanes::{Phase, run_and_settle};
use crate::players::Player;
use crate::trees::Plays;
use mt_base::NoMemory;
use mt_desks::{Passage, lanes_in};
use mt_io::Gate;
use mt_log::{Item, Line, ListOf, Log, Transcript};
use std::alloc::Global;
use std::sync::Wait;
use std::thread::Threads;

/// The place of a phase in a log: how many lanes (threads) the log has, the phase's number, and where its lines begin and end.
#[derive(Clone, Copy)]
struct PhasePlace {
    lanes: u32,
    number: u64,
    from: usize,
    to: usize,
}

/// Runs the lanes of a phase that has begun, and settles all trees.
fn play_lanes<
    R: Threads + Wait + Sync,
    P: Passage + Drop + Send,
    T: Plays<P> + Send + Sync,
    G: Gate + Sync,
>(
    player: &mut Player<P, T>,
    rt: &R,
    alloc: Global,
    phase: Phase<'_>,
    gate: &G,
) -> Result<(), NoMemory>
    requires rest { IsBetweenPhases T.tree P.knows T.serves T.many player.old }
    requires passes { player.old.passes ≡ phase.lanes + 1 }
    requires can { CanDo phase.lanes (length player.old.trees.items) phase.lines.now }
    ensures rest { OnOk result (IsBetweenPhases T.tree P.knows T.serves T.many player.new) }
    ensures played { OnOk result ((front : List Line) (steps : List Step) → IsPhaseBehind phase.entry.lanes phase.entry.number front phase.entry.lines.now
        → IsBegun phase.entry.number front phase.entry.lines.now (player_state T.tree P.knows player.old) steps
        → IsPlayed (phase.entry.number + 1) (front ++ phase.entry.lines.now) (player_state T.tree P.knows player.new)) }
    ensures rows { OnOk result (player.new.rows ≡ player.old.rows) }
    ensures passes { OnOk result (player.new.passes ≡ player.old.passes) }
    ensures turns { OnOk result (PhaseTurned (G.passed gate.now) phase.entry.lines.now) }
{
    run_and_settle(
        rt,
        alloc,
        phase,
        player.trees.as_slice(),
        player.seats.as_mut_slice(),
        &mut player.entries,
        gate,
    )
}

/// Plays the lines of a phase, from one place of the log to another: what the program itself is asked, and then the
/// lanes.
fn play_phase<
    R: Threads + Wait + Sync,
    P: Passage + Drop + Send,
    T: Plays<P> + Send + Sync,
    G: Gate + Sync,
>(
    player: &mut Player<P, T>,
    rt: &R,
    alloc: Global,
    log: &[Line],
    place: PhasePlace,
    gate: &G,
) -> Result<(), NoMemory>
    requires within { (place.from ≤ place.to) × (place.to ≤ length log.now) }
    requires rest { IsBetweenPhases T.tree P.knows T.serves T.many player.old }
    requires passes { player.old.passes ≡ place.lanes + 1 }
    requires lanes { (1 ≤ place.lanes) × (place.lanes ≤ most_lanes) }
    requires ready { IsPhaseBehind place.lanes place.number (take place.from log.now) (slice_range log.now place.from place.to) }
    requires played { IsPlayed place.number (take place.from log.now) (player_state T.tree P.knows player.old) }
    ensures rest { OnOk result (IsBetweenPhases T.tree P.knows T.serves T.many player.new) }
    ensures passes { OnOk result (player.new.passes ≡ player.old.passes) }
    ensures rows { OnOk result (player.new.rows ≡ player.old.rows) }
    ensures played { OnOk result (IsPlayed (place.number + 1) (take place.to log.now) (player_state T.tree P.knows player.new)) }
    ensures turns { OnOk result (PhaseTurned (G.passed gate.now) (slice_range log.now place.from place.to)) }
{
    let lines = &log[place.from..place.to];
    player.begin(rt, alloc, lines)?;
    let phase = Phase {
        lanes: place.lanes,
        number: place.number,
        lines,
    };
    play_lanes(player, rt, alloc, phase, gate)
}

/// Whether a line ends a phase.
fn is_join(item: &Item) -> bool
    ensures { result ≡ is_join item.now }
{
    match item {
        Item::Join => true,
        Item::Tree { .. }
        | Item::Lane { .. }
        | Item::Dup { .. }
        | Item::Check { .. }
        | Item::Write { .. }
        | Item::Ask { .. }
        | Item::Scan { .. } => false,
    }
}

/// Where the phase ends that begins at this place: at a line that says so, or at the end of the log.
fn phase_end(log: &[Line], from: usize) -> usize
    requires { from ≤ length log.now }
    ensures from { from ≤ result }
    ensures within { result ≤ length log.now }
    ensures none { NoJoinBetween log.now from result }
    ensures join { result < length log.now → (line : Line) → is_join (slice_index_or log.now result line).item ≡ true }
{
    for at in from..log.len() {
        if is_join(&log[at].item) {
            return at;
        }
    }
    log.len()
}

/// Plays the lines of a log, phase by phase.
#[tactic(auto, using(crate::proofs::Turning::last_turned, crate::proofs::Turning::none_left))]
fn play_lines<
    R: Threads + Wait + Sync,
    P: Passage + Drop + Send,
    T: Plays<P> + Send + Sync,
    G: Gate + Sync,
>(
    player: &mut Player<P, T>,
    rt: &R,
    alloc: Global,
    lanes: u32,
    log: &[Line],
    gate: &G,
) -> Result<(), NoMemory>
    requires rest { IsBetweenPhases T.tree P.knows T.serves T.many player.old }
    requires passes { player.old.passes ≡ lanes + 1 }
    requires lanes { (1 ≤ lanes) × (lanes ≤ most_lanes) }
    requires all_lanes { lanes_in 0 log.now ≤ lanes }
    requires readable { IsReadable log.now }
    requires count { length log.now < most_calls }
    requires none { IsPlayed 0 [] (player_state T.tree P.knows player.old) }
    ensures rest { OnOk result (IsBetweenPhases T.tree P.knows T.serves T.many player.new) }
    ensures rows { OnOk result (player.new.rows ≡ player.old.rows) }
    ensures played { OnOk result ((phase : ℕ) × IsPlayed phase log.now (player_state T.tree P.knows player.new)) }
    ensures turns { OnOk result (AllTurned (G.passed gate.now) log.now) }
{
    let mut from = 0;
    let mut phase = 0;
    while from < log.len() {
        let to = phase_end(log, from);
        let place = PhasePlace {
            lanes,
            number: phase,
            from,
            to,
        };
        play_phase(player, rt, alloc, log, place, gate)?;
        if to == log.len() {
            return Ok(());
        }
        from = to + 1;
        phase += 1;
    }
    Ok(())
}

/// How many lanes a log has.
fn lanes_of(lines: &[Line]) -> u32
    requires { IsReadable lines.now }
    ensures is { result ≡ lanes_in 0 lines.now }
    ensures some { 1 ≤ result }
    ensures few { result ≤ most_lanes }
{
    lanes_in(lines) as u32
}

/// A player after all lines of a log, on shared trees of `rows` nodes: phase by phase, the lanes of a phase at once.
fn played<
    R: Threads + Wait + Sync,
    P: Passage + Drop + Send,
    T: Plays<P> + Send + Sync,
    G: Gate + Sync,
>(rt: &R, alloc: Global, log: &Log, rows: u64, gate: &G) -> Result<Player<P, T>, NoMemory>
    requires few_rows { fewest_rows ≤ rows }
    requires rows { rows ≤ most_rows }
    requires readable { IsReadable log.now.lines }
    requires count { length log.now.lines < most_calls }
    ensures rest { IfOk result (IsBetweenPhases T.tree P.knows T.serves T.many) }
    ensures rows { IfOk result (λ player. player.rows ≡ rows) }
    ensures played { IfOk result (λ player. (phase : ℕ) × IsPlayed phase log.now.lines (player_state T.tree P.knows player)) }
    ensures turns { IfOk result (λ player. AllTurned (G.passed gate.now) log.now.lines) }
{
    let lines = log.lines.as_slice();
    let lanes = lanes_of(lines);
    let mut player = Player::<P, T>::new(alloc, rows, lanes + 1);
    play_lines(&mut player, rt, alloc, lanes, lines, gate)?;
    Ok(player)
}

/// Plays the lines of a log on shared trees of `rows` nodes, phase by phase, the lanes (threads) of a phase at once, and lists
/// the trees.
///
/// # Errors
///
/// `NoMemory` where memory ran out.
pub fn play<
    R: Threads + Wait + Sync,
    P: Passage + Drop + Send,
    T: Plays<P> + Send + Sync,
    G: Gate + Sync,
>(rt: &R, alloc: Global, log: &Log, rows: u64, gate: &G) -> Result<Transcript, NoMemory>
    requires few_rows { fewest_rows ≤ rows }
    requires rows { rows ≤ most_rows }
    requires readable { IsReadable log.now.lines }
    requires count { length log.now.lines < most_calls }
    ensures run { IfOk result (λ t. IsRun log.now rows t) }
    ensures turns { IfOk result (λ t. AllTurned (G.passed gate.now) log.now.lines) }
{
    let mut player = played::<R, P, T, G>(rt, alloc, log, rows, gate)?;
    let lists = player.list(rt, alloc)?;
    Ok(Transcript {
        version: log.version,
        entries: ListOf::new(player.entries),
        lists: ListOf::new(lists),
    })
}

/// Plays the lines of a log that declares a tree as `play` does. Writes an image of the first tree instead of the list of them
/// all.
///
/// # Errors
///
/// `NoMemory` where memory ran out.
pub fn play_image<
    R: Threads + Wait + Sync,
    P: Passage + Drop + Send,
    T: Plays<P> + Send + Sync,
    G: Gate + Sync,
>(rt: &R, alloc: Global, log: &Log, rows: u64, gate: &G) -> Result<Vec<u8>, NoMemory>
    requires few_rows { fewest_rows ≤ rows }
    requires rows { rows ≤ most_rows }
    requires readable { IsReadable log.now.lines }
    requires count { length log.now.lines < most_calls }
    requires tree { trees_of log.now.lines ≢ [] }
    ensures image { IfOk result (λ bytes. IsImageOfRun rows log.now bytes.items) }
    ensures turns { IfOk result (λ bytes. AllTurned (G.passed gate.now) log.now.lines) }
{
    let mut player = played::<R, P, T, G>(rt, alloc, log, rows, gate)?;
    player.image_of(rt, alloc, 0)
}
