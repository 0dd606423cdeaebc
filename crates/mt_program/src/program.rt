ghost use Rattle.std.specs.Prelude.{◌≡◌, ◌≢◌, ◌⊎◌, ◌<◌, ◌≤◌, ◌^◌, ℕ, List, Some, None, Err, true, false, IfOk, IfErr, IfSome, OnOk, length, map, string_bytes};
ghost use Rattle.std.specs.Io.KnownBytes.{IsAtEnd};
ghost use Rattle.mt_base.specs.Width.{most_rows};
ghost use Rattle.mt_image.specs.declared.errors.ImageError.{ImageError};
ghost use Rattle.mt_image.specs.Reading.{image_in};
ghost use Rattle.mt_io.specs.Faults.{Rose};
ghost use Rattle.mt_log.specs.Fault.{ReadsAs};
ghost use Rattle.mt_log.specs.Reading.{log_of};
ghost use Rattle.mt_log.specs.Trees.{IsReadable};
ghost use Rattle.mt_base.specs.Limits.{fewest_rows, most_lanes, most_steps, seed_end};
ghost use Rattle.mt_cli.specs.Commands.{IsWithin, command_of};
ghost use Rattle.mt_program.specs.Causes.{FailsOn, EndsMaking, EndsPrint, EndsReading, HasEnded, streams};
ghost use Rattle.mt_program.specs.Command.{input_limit, longest, reads};
ghost use Rattle.mt_program.specs.Ending.{ReadsNoFurther, ReadsTooMany, ReadsWithin, status_of};
ghost use Rattle.mt_commands.specs.Turns.{IsIdsText};
ghost use Rattle.mt_commands.specs.Texts.{IsImageListing, IsMadeText, IsTrialText, IsTurnedTrial};
ghost use Rattle.mt_program.specs.Headline.{IsBuiltImage, IsImageOfLog, IsOutput, IsTextOfRun, IsVerifiedText, WritesOutput, WritesPart};
ghost use Rattle.mt_program.specs.Turns.{HasTurned, HaveTurned, IsBuiltBy, IsTurnedLog};
ghost use Rattle.mt_program.specs.Verdicts.{IsBadLog, IsDue, IsNoImage, AreBytesRefused, AreBytesTaken, IsTreeless, IsUnbuilt, IsUnverified};
ghost use Rattle.mt_program.specs.Verdicts.{RefusesBytes, TellsStatus};

use crate::failures::{Failure, Unbuilt, report};
use crate::limits::limit_of;
use crate::parts::{cut, line_behind};
use crate::streams::{read_input, write_output};
use crate::treeless::declares_tree;
use crate::verified::verified_text;
use mt_bulk::BulkError;
use mt_cli::{Command, read_words};
use mt_commands::{
    answers, built_image, ids_text, image_listing, image_of_run, made_text, trial_text,
};
use mt_io::{Gate, Sink, Source};
use mt_log::{Log, LogError, read_log};
use mt_told::read_listing;
use mt_verify::{Verdict, calls_of, verify};
use std::alloc::Global;
use std::sync::Wait;
use std::thread::Threads;

/// Prints a text.
fn print<O: Sink>(out: &mut O, text: &[u8]) -> Result<(), Failure>
    ensures ends { EndsPrint text.now result (O.written out.old) (O.written out.new) (O.faults out.old) (O.faults out.new) }
    ensures out_quiet { OnOk result (O.faults out.new ≡ O.faults out.old) }
    ensures out_in_time { O.faults out.old ≡ 0 → O.late out.old ≡ 0 → O.late out.new ≡ 0 }
{
    write_output(out, text).map_err(|_| Failure::WriteFault)
}

/// The log that an input is, whose memory is given back.
fn log_in(alloc: Global, input: Vec<u8>) -> Result<Log, LogError>
    ensures log { ReadsAs (λ log. log) result (log_of input.items) }
    ensures readable { IfOk result (λ log. IsReadable log.lines) }
    ensures count { IfOk result (λ log. length log.lines ≤ length input.items) }
{
    read_log(alloc, &input)
}

/// The text of the answers to the lines of a log, over trees of `rows` nodes.
fn replayed<R: Threads + Wait + Sync, G: Gate + Sync>(
    rt: &R,
    alloc: Global,
    rows: u64,
    input: Vec<u8>,
    gate: &G,
) -> Result<Vec<u8>, Failure>
    requires few_rows { fewest_rows ≤ rows }
    requires rows { rows ≤ most_rows }
    requires count { length input.items < 2 ^ 32 }
    ensures fine { IfOk result (λ text. IsTextOfRun rows input.items text.items) }
    ensures fails { IfErr result (FailsOn IsBadLog input.items) }
    ensures turns { IfOk result (λ _. IsTurnedLog (G.passed gate.now) input.items) }
{
    let log = log_in(alloc, input)?;
    Ok(answers(rt, alloc, log, rows, gate)?)
}

/// An image of the first tree of a run of a log, over trees of `rows` nodes.
fn imaged<R: Threads + Wait + Sync, G: Gate + Sync>(
    rt: &R,
    alloc: Global,
    rows: u64,
    input: Vec<u8>,
    gate: &G,
) -> Result<Vec<u8>, Failure>
    requires few_rows { fewest_rows ≤ rows }
    requires rows { rows ≤ most_rows }
    requires count { length input.items < 2 ^ 32 }
    ensures fine { IfOk result (λ image. IsImageOfLog rows input.items image.items) }
    ensures fails { IfErr result (FailsOn IsTreeless input.items) }
    ensures turns { IfOk result (λ _. IsTurnedLog (G.passed gate.now) input.items) }
{
    let line = line_behind(&input);
    let log = log_in(alloc, input)?;
    if !declares_tree(log.lines.as_slice()) {
        return Err(Failure::NoTree { line });
    }
    Ok(image_of_run(rt, alloc, log, rows, gate)?)
}

/// The listing of the tree whose image the bytes are.
fn listed<R: Wait>(rt: &R, alloc: Global, bytes: &[u8]) -> Result<Vec<u8>, Failure>
    ensures fine { IfOk result (λ text. IsImageListing bytes.now text.items) }
    ensures fails { IfErr result (FailsOn IsNoImage bytes.now) }
{
    Ok(image_listing(rt, alloc, bytes)?)
}

/// An image of a tree with exactly the ranges of the listing that the bytes are, built by `workers` threads at once.
#[tactic(auto, using(crate::proofs::Places::building))]
fn built<R: Threads + Wait + Sync, G: Gate + Sync>(
    rt: &R,
    alloc: Global,
    workers: u32,
    bytes: &[u8],
    gate: &G,
) -> Result<Vec<u8>, Failure>
    requires some { 1 ≤ workers }
    requires few { workers ≤ 16 }
    requires count { length bytes.now < 2 ^ 32 }
    ensures fine { IfOk result (λ image. IsBuiltImage bytes.now image.items) }
    ensures fails { IfErr result (FailsOn IsUnbuilt bytes.now) }
    ensures turns { IfOk result (λ _. IsBuiltBy (G.passed gate.now) workers bytes.now) }
{
    let listing = read_listing(alloc, bytes)?;
    let ranges = listing.ranges.as_slice();
    match built_image(rt, alloc, listing.kind, ranges, workers, gate) {
        Ok(image) => Ok(image),
        Err(BulkError::Order { at }) => Err(Failure::NotBuilt {
            line: at + 2,
            why: Unbuilt::Order,
        }),
        Err(BulkError::TooMany { .. }) => Err(Failure::NotBuilt {
            line: 1,
            why: Unbuilt::Rows,
        }),
        Err(BulkError::NoMemory) => Err(Failure::NoMemory),
    }
}

/// How many calls and reads a transcript reports, in print. The bytes are a log, the line that cuts, and the text of a
/// transcript of a run of the log over trees of `rows` nodes.
fn verified(alloc: Global, rows: u64, bytes: &[u8]) -> Result<Vec<u8>, Failure>
    requires few_rows { fewest_rows ≤ rows }
    requires rows { rows ≤ most_rows }
    requires count { length bytes.now < 2 ^ 32 }
    ensures fine { IfOk result (λ text. IsVerifiedText rows bytes.now text.items) }
    ensures fails { IfErr result (FailsOn (IsUnverified rows) bytes.now) }
{
    let Some((front, text)) = cut(bytes) else {
        let line = line_behind(bytes);
        return Err(Failure::NoTranscript { line });
    };
    let log = read_log(alloc, front)?;
    match verify(alloc, &log, rows, text)? {
        Verdict::Yes { points } => Ok(verified_text(alloc, calls_of(&log), points.count())?),
        Verdict::No => Err(Failure::Refused),
    }
}

/// What a command that reads prints of its input, if it takes it.
fn output_of<R: Threads + Wait + Sync, G: Gate + Sync>(
    rt: &R,
    alloc: Global,
    command: &Command,
    input: Vec<u8>,
    gate: &G,
) -> Result<Vec<u8>, Failure>
    requires reads { reads (Some command.now) ≡ true }
    requires within { IsWithin command.now }
    requires count { length input.items < 2 ^ 32 }
    ensures fine { IfOk result (λ text. IsOutput command.now input.items text.items) }
    ensures fails { IfErr result (FailsOn (RefusesBytes command.now) input.items) }
    ensures turns { IfOk result (λ _. HasTurned (G.passed gate.now) command.now input.items) }
{
    match *command {
        Command::Replay { rows } => replayed(rt, alloc, rows, input, gate),
        Command::Verify { rows } => verified(alloc, rows, &input),
        Command::Image { rows } => imaged(rt, alloc, rows, input, gate),
        Command::Show => listed(rt, alloc, &input),
        Command::Bulk { workers } => built(rt, alloc, workers, &input, gate),
        Command::Make { .. } | Command::Trial { .. } | Command::Ids { .. } => unreachable!(),
    }
}

/// Reads the input of a command, and prints what the command prints of it.
fn answer<R: Threads + Wait + Sync, S: Source, O: Sink, G: Gate + Sync>(
    rt: &R,
    alloc: Global,
    command: &Command,
    src: &mut S,
    out: &mut O,
    gate: &G,
) -> Result<(), Failure>
    requires reads { reads (Some command.now) ≡ true }
    requires within { IsWithin command.now }
    ensures ends { EndsReading command.now result (streams (S.left src.old) (S.faults src.old) (O.written out.old) (O.faults out.old))
        (streams (S.left src.new) (S.faults src.new) (O.written out.new) (O.faults out.new)) }
    ensures reach { ReadsNoFurther (input_limit command.now) (S.left src.old) (S.left src.new) }
    ensures turns { OnOk result (HaveTurned (G.passed gate.now) (Some command.now) (S.left src.old)) }
    ensures out_kept { IfErr result (λ e. e ≢ Failure.WriteFault → out.new ≡ out.old) }
    ensures src_quiet { result ≢ Err Failure.ReadFault → S.faults src.new ≡ S.faults src.old }
    ensures out_quiet { OnOk result (O.faults out.new ≡ O.faults out.old) }
    ensures src_in_time { S.faults src.old ≡ 0 → S.late src.old ≡ 0 → S.late src.new ≡ 0 }
    ensures out_in_time { O.faults out.old ≡ 0 → O.late out.old ≡ 0 → O.late out.new ≡ 0 }
{
    let input = read_input(alloc, src, limit_of(command))?;
    let text = output_of(rt, alloc, command, input, gate)?;
    print(out, &text)
}

/// Prints the log that is made from a number (seed).
fn make<O: Sink>(
    alloc: Global,
    number: u32,
    steps: u32,
    lanes: u32,
    out: &mut O,
) -> Result<(), Failure>
    requires number { number < seed_end }
    requires steps { steps ≤ most_steps }
    requires lanes { 1 ≤ lanes }
    requires few_lanes { lanes ≤ most_lanes }
    ensures ends { EndsMaking (IsMadeText number steps lanes) result (O.written out.old) (O.written out.new) (O.faults out.old) (O.faults out.new) }
    ensures out_kept { IfErr result (λ e. e ≢ Failure.WriteFault → out.new ≡ out.old) }
    ensures out_quiet { OnOk result (O.faults out.new ≡ O.faults out.old) }
    ensures out_in_time { O.faults out.old ≡ 0 → O.late out.old ≡ 0 → O.late out.new ≡ 0 }
{
    let text = made_text(alloc, number, steps, lanes)?;
    print(out, &text)
}

/// Plays the lines of a log that is made from a number (seed), and prints the result.
fn trial<R: Threads + Wait + Sync, O: Sink, G: Gate + Sync>(
    rt: &R,
    alloc: Global,
    number: u32,
    steps: u32,
    out: &mut O,
    gate: &G,
) -> Result<(), Failure>
    requires number { number < seed_end }
    requires steps { steps ≤ most_steps }
    ensures ends { EndsMaking (IsTrialText number steps) result (O.written out.old) (O.written out.new) (O.faults out.old) (O.faults out.new) }
    ensures turns { OnOk result (IsTurnedTrial (G.passed gate.now) number steps) }
    ensures out_kept { IfErr result (λ e. e ≢ Failure.WriteFault → out.new ≡ out.old) }
    ensures out_quiet { OnOk result (O.faults out.new ≡ O.faults out.old) }
    ensures out_in_time { O.faults out.old ≡ 0 → O.late out.old ≡ 0 → O.late out.new ≡ 0 }
{
    let text = trial_text(rt, alloc, number, steps, gate)?;
    print(out, text.as_str().as_bytes())
}

/// Draws numbers in turn (cyclic allocation), and prints the result.
fn cycle<R: Threads + Wait + Sync, O: Sink>(
    rt: &R,
    alloc: Global,
    window: (u64, u64),
    steps: u32,
    drops: u32,
    out: &mut O,
) -> Result<(), Failure>
    requires window { window.0 ≤ window.1 }
    requires steps { steps ≤ most_steps }
    ensures ends { EndsMaking (IsIdsText window.0 window.1 steps drops) result (O.written out.old) (O.written out.new) (O.faults out.old) (O.faults out.new) }
    ensures out_kept { IfErr result (λ e. e ≢ Failure.WriteFault → out.new ≡ out.old) }
    ensures out_quiet { OnOk result (O.faults out.new ≡ O.faults out.old) }
    ensures out_in_time { O.faults out.old ≡ 0 → O.late out.old ≡ 0 → O.late out.new ≡ 0 }
{
    let (lo, hi) = window;
    let text = ids_text(rt, alloc, lo, hi, steps, drops)?;
    print(out, text.as_str().as_bytes())
}

/// Does what the words say.
fn run<R: Threads + Wait + Sync, S: Source, O: Sink, G: Gate + Sync>(
    rt: &R,
    alloc: Global,
    words: &[String],
    src: &mut S,
    out: &mut O,
    gate: &G,
) -> Result<(), Failure>
    ensures ends { HasEnded (command_of (map string_bytes words.now)) result
        (streams (S.left src.old) (S.faults src.old) (O.written out.old) (O.faults out.old))
        (streams (S.left src.new) (S.faults src.new) (O.written out.new) (O.faults out.new)) }
    ensures reach { ReadsNoFurther (longest (command_of (map string_bytes words.now))) (S.left src.old) (S.left src.new) }
    ensures unread { reads (command_of (map string_bytes words.now)) ≡ false → src.new ≡ src.old }
    ensures turns { OnOk result (HaveTurned (G.passed gate.now) (command_of (map string_bytes words.now)) (S.left src.old)) }
    ensures out_kept { IfErr result (λ e. e ≢ Failure.WriteFault → out.new ≡ out.old) }
    ensures src_quiet { result ≢ Err Failure.ReadFault → S.faults src.new ≡ S.faults src.old }
    ensures out_quiet { OnOk result (O.faults out.new ≡ O.faults out.old) }
    ensures src_in_time { S.faults src.old ≡ 0 → S.late src.old ≡ 0 → S.late src.new ≡ 0 }
    ensures out_in_time { O.faults out.old ≡ 0 → O.late out.old ≡ 0 → O.late out.new ≡ 0 }
{
    match read_words(alloc, words)? {
        Some(Command::Replay { rows }) => answer(
            rt,
            alloc,
            &Command::Replay { rows },
            src,
            out,
            gate,
        ),
        Some(
            Command::Make {
                number,
                steps,
                lanes,
            },
        ) => make(alloc, number, steps, lanes, out),
        Some(Command::Trial { number, steps }) => trial(rt, alloc, number, steps, out, gate),
        Some(Command::Verify { rows }) => answer(
            rt,
            alloc,
            &Command::Verify { rows },
            src,
            out,
            gate,
        ),
        Some(Command::Image { rows }) => answer(
            rt,
            alloc,
            &Command::Image { rows },
            src,
            out,
            gate,
        ),
        Some(Command::Show) => answer(rt, alloc, &Command::Show, src, out, gate),
        Some(Command::Bulk { workers }) => answer(
            rt,
            alloc,
            &Command::Bulk { workers },
            src,
            out,
            gate,
        ),
        Some(
            Command::Ids {
                lo,
                hi,
                steps,
                drop,
            },
        ) => cycle(rt, alloc, (lo, hi), steps, drop, out),
        None => Err(Failure::Usage),
    }
}

/// Does what the words after the program's name say, and gives the status to end with.
///
/// 0: done. 1: the input is no log, or has no transcript, or no tree, or no tree is built of it. 2: the words are no command.
/// 3: a fault of reading. 4: a fault of writing. 5: lack of memory. 6: the input is longer than 8,388,608 bytes, or 67,108,864
/// with a transcript or where it is to be an image. 7: the transcript is refused. 8: the image is refused. At every status but
/// 0 a line on `err` says so.
pub fn mtreplay<R: Threads + Wait + Sync, S: Source, O: Sink, E: Sink, G: Gate + Sync>(
    rt: &R,
    alloc: Global,
    words: &[String],
    src: &mut S,
    out: &mut O,
    err: &mut E,
    gate: &G,
) -> u8
    // What is printed is what the command prints: the text of a run of the log that was read, or an image of its first tree, the
    // log that is made of a number, what a run of that came to, how much the transcript tells that was read, which is one of a
    // run, the listing of the tree whose image was read, or an image of a tree with the ranges of the listing that was read.
    ensures prints { (command : Command) → command_of (map string_bytes words.now) ≡ Some command → result ≡ 0
        → WritesOutput command (S.left src.old) (O.written out.old) (O.written out.new) }

    // Each step of a log was done by a lane that took both its turns of the gate, and each of the workers whose number is said took
    // its own.
    ensures turns { result ≡ 0 → HaveTurned (G.passed gate.now) (command_of (map string_bytes words.now)) (S.left src.old) }

    // Each status has its cause.
    ensures taken { result ≡ 0 → AreBytesTaken (command_of (map string_bytes words.now)) (S.left src.old) }
    ensures refused { result ≡ 1 → (failure : Failure)
        × AreBytesRefused (command_of (map string_bytes words.now)) (S.left src.old) failure × (result ≡ status_of failure) }
    ensures usage { result ≡ 2 → command_of (map string_bytes words.now) ≡ None }
    ensures read_fault { result ≡ 3 → Rose (S.faults src.old) (S.faults src.new) }
    ensures write_fault { result ≡ 4 → Rose (O.faults out.old) (O.faults out.new) }
    ensures taken_too { result ≡ 4 → AreBytesTaken (command_of (map string_bytes words.now)) (S.left src.old) }
    ensures part { (command : Command) → command_of (map string_bytes words.now) ≡ Some command → result ≡ 4
        → WritesPart command (S.left src.old) (O.written out.old) (O.written out.new) }
    ensures too_long { result ≡ 6 → ReadsTooMany (longest (command_of (map string_bytes words.now))) (S.left src.old) (S.left src.new) }
    ensures refused_too { result ≡ 7 → (rows : ℕ) × (command_of (map string_bytes words.now) ≡ Some (Command.Verify rows))
        × IfSome (S.left src.old) (λ bytes. IsUnverified rows bytes Failure.Refused) }
    ensures refused_image { result ≡ 8 → (error : ImageError) × (command_of (map string_bytes words.now) ≡ Some Command.Show)
        × IfSome (S.left src.old) (λ bytes. image_in bytes ≡ Err error) }
    ensures within { result ≤ 8 }
    ensures of_reading { reads (command_of (map string_bytes words.now)) ≡ false → (result ≢ 1) × (result ≢ 3) × (result ≢ 6) × (result ≢ 7) × (result ≢ 8) }

    // And it comes where its cause is, unless memory runs out.
    ensures usage_too { command_of (map string_bytes words.now) ≡ None → (result ≡ 2) ⊎ (result ≡ 5) }
    ensures complete { (command : Command) → command_of (map string_bytes words.now) ≡ Some command → reads (Some command) ≡ true
        → (bytes : List ℕ) → S.left src.old ≡ Some bytes → ¬ Rose (S.faults src.old) (S.faults src.new) → ¬ Rose (O.faults out.old) (O.faults out.new)
        → IsDue command bytes result ⊎ (result ≡ 5) }
    ensures complete_too { (command : Command) → command_of (map string_bytes words.now) ≡ Some command → reads (Some command) ≡ false
        → ¬ Rose (O.faults out.old) (O.faults out.new) → (result ≡ 0) ⊎ (result ≡ 5) }

    // A fault of a stream is told by its status.
    ensures src_quiet { result ≢ 3 → S.faults src.new ≡ S.faults src.old }
    ensures out_quiet { result ≢ 4 → O.faults out.new ≡ O.faults out.old }

    // The input is read to its end, and no further than an input may reach, and by the commands alone that ask for one.
    ensures at_end { reads (command_of (map string_bytes words.now)) ≡ true → result < 2 → IsAtEnd (S.left src.new) }
    ensures at_end_too { reads (command_of (map string_bytes words.now)) ≡ true → (result ≡ 4) ⊎ (7 ≤ result) → IsAtEnd (S.left src.new) }
    ensures reach { ReadsNoFurther (longest (command_of (map string_bytes words.now))) (S.left src.old) (S.left src.new) }
    ensures limit { result ≢ 5 → result ≢ 6 → ReadsWithin (longest (command_of (map string_bytes words.now))) (S.left src.old) (S.left src.new) }
    ensures unread { reads (command_of (map string_bytes words.now)) ≡ false → src.new ≡ src.old }

    // Nothing is printed but what the command prints, or its first part, and on `err` the text of the status.
    ensures out_kept { result ≢ 0 → result ≢ 4 → out.new ≡ out.old }
    ensures err_kept { result ≡ 0 → err.new ≡ err.old }
    ensures told { result ≢ 0 → TellsStatus (command_of (map string_bytes words.now)) (S.left src.old) result (E.written err.old)
        (E.written err.new) (E.faults err.old) (E.faults err.new) }

    // After a fault no further call is made on that object.
    ensures src_in_time { S.faults src.old ≡ 0 → S.late src.old ≡ 0 → S.late src.new ≡ 0 }
    ensures out_in_time { O.faults out.old ≡ 0 → O.late out.old ≡ 0 → O.late out.new ≡ 0 }
    ensures err_in_time { E.faults err.old ≡ 0 → E.late err.old ≡ 0 → E.late err.new ≡ 0 }
{
    match run(rt, alloc, words, src, out, gate) {
        Ok(()) => 0,
        Err(failure) => {
            report(err, &failure);
            failure.status()
        }
    }
}
