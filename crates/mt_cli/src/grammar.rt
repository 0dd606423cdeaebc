//! What `clap` knows of the words, and what its matches say.

ghost use Rattle.std.specs.Prelude.{◌≡◌, IfOk, false, option_map};
ghost use Rattle.clap.specs.Words.{app_of, first_of, found_of, new_app, rows_of, rule_of, subcommand_rows_of, with_rule};
ghost use Rattle.mt_cli.specs.Commands.{bulk_with, ids_with, make_with, trial_with};
ghost use Rattle.mt_cli.specs.Grammar.{bulk_app, bulk_in, command_in, command_met, grammar, ids_app, ids_in, make_app, make_in, option_rule};
ghost use Rattle.mt_cli.specs.Grammar.{rows_app, rows_given, show_app, trial_app, trial_in, word_rule};

use crate::commands::Command;
use crate::numbers::number_in;
use clap::{Arg, ArgMatches};
use mt_base::{FEWEST_ROWS, MOST_LANES, MOST_ROWS, MOST_STEPS, SEED_END};
use std::alloc::{AllocError, Global};

/// The most workers of a build.
const MOST_WORKERS: u64 = 16;

/// The greatest index.
const MOST_INDEX: u64 = 18_446_744_073_709_551_615;

/// An option with a value, which may be there.
fn option_arg<'a>(alloc: Global, name: &'a str) -> Arg<'a>
    ensures rule { rule_of result ≡ option_rule name.now }
    ensures local { result.global ≡ false }
{
    Arg::new(alloc, name).long(name)
}

/// A word, and perhaps a number of nodes.
fn rows_words<'a>(alloc: Global, verb: &'a str) -> Result<clap::Command<'a>, AllocError>
    ensures { IfOk result (λ c. app_of c ≡ rows_app verb.now) }
{
    clap::Command::new(alloc, verb).arg(option_arg(alloc, "rows"))
}

/// A word that has to be there.
fn word_arg<'a>(alloc: Global, name: &'a str) -> Arg<'a>
    ensures rule { rule_of result ≡ word_rule name.now }
    ensures local { result.global ≡ false }
{
    Arg::new(alloc, name).required(true)
}

/// These words, and one more that has to be there.
fn with_word<'a>(
    alloc: Global,
    words: clap::Command<'a>,
    name: &'a str,
) -> Result<clap::Command<'a>, AllocError>
    ensures { IfOk result (λ c. app_of c ≡ with_rule (app_of words.entry) (word_rule name.now)) }
{
    words.arg(word_arg(alloc, name))
}

/// A word, and two more that have to be there.
fn two_words<'a>(
    alloc: Global,
    verb: &'a str,
    one: &'a str,
    two: &'a str,
) -> Result<clap::Command<'a>, AllocError>
    ensures { IfOk result (λ c. app_of c ≡ with_rule (with_rule (new_app verb.now) (word_rule one.now)) (word_rule two.now)) }
{
    let words = with_word(alloc, clap::Command::new(alloc, verb), one)?;
    with_word(alloc, words, two)
}

fn make_words<'a>(alloc: Global) -> Result<clap::Command<'a>, AllocError>
    ensures { IfOk result (λ c. app_of c ≡ make_app) }
{
    let words = two_words(alloc, "make", "number", "steps")?;
    with_word(alloc, words, "lanes")
}

fn trial_words<'a>(alloc: Global) -> Result<clap::Command<'a>, AllocError>
    ensures { IfOk result (λ c. app_of c ≡ trial_app) }
{
    two_words(alloc, "trial", "number", "steps")
}

fn show_words<'a>(alloc: Global) -> Result<clap::Command<'a>, AllocError>
    ensures { IfOk result (λ c. app_of c ≡ show_app) }
{
    Ok(clap::Command::new(alloc, "show"))
}

fn bulk_words<'a>(alloc: Global) -> Result<clap::Command<'a>, AllocError>
    ensures { IfOk result (λ c. app_of c ≡ bulk_app) }
{
    with_word(alloc, clap::Command::new(alloc, "bulk"), "workers")
}

fn ids_words<'a>(alloc: Global) -> Result<clap::Command<'a>, AllocError>
    ensures { IfOk result (λ c. app_of c ≡ ids_app) }
{
    let words = two_words(alloc, "ids", "lo", "hi")?;
    let words = with_word(alloc, words, "steps")?;
    with_word(alloc, words, "drop")
}

/// The commands, as `clap` takes them.
pub fn grammar<'a>(alloc: Global) -> Result<clap::Command<'a>, AllocError>
    ensures { IfOk result (λ c. app_of c ≡ grammar) }
{
    clap::Command::new(alloc, "mtreplay")
        .no_binary_name(true)
        .disable_help_flag(true)
        .disable_help_subcommand(true)
        .subcommand(rows_words(alloc, "replay")?)?
        .subcommand(make_words(alloc)?)?
        .subcommand(trial_words(alloc)?)?
        .subcommand(rows_words(alloc, "verify")?)?
        .subcommand(rows_words(alloc, "image")?)?
        .subcommand(show_words(alloc)?)?
        .subcommand(bulk_words(alloc)?)?
        .subcommand(ids_words(alloc)?)
}

/// The word that was given for this name.
fn word_of<'a>(matches: &ArgMatches<'a>, name: &str) -> Option<&'a str>
    ensures { option_map (λ word. word.now) result ≡ first_of name.now (rows_of (found_of matches.now)) }
{
    matches.get_str(name)
}

/// How many nodes the words say, or all that there may be.
fn rows_in(matches: &ArgMatches) -> Option<u64>
    ensures { result ≡ rows_given (rows_of (found_of matches.now)) }
{
    match word_of(matches, "rows") {
        Some(word) => number_in(word, FEWEST_ROWS, MOST_ROWS),
        None => Some(MOST_ROWS),
    }
}

fn replay_in(matches: &ArgMatches) -> Option<Command>
    ensures { result ≡ option_map Command.Replay (rows_given (rows_of (found_of matches.now))) }
{
    let rows = rows_in(matches)?;
    Some(Command::Replay { rows })
}

fn verify_in(matches: &ArgMatches) -> Option<Command>
    ensures { result ≡ option_map Command.Verify (rows_given (rows_of (found_of matches.now))) }
{
    let rows = rows_in(matches)?;
    Some(Command::Verify { rows })
}

fn image_in(matches: &ArgMatches) -> Option<Command>
    ensures { result ≡ option_map Command.Image (rows_given (rows_of (found_of matches.now))) }
{
    let rows = rows_in(matches)?;
    Some(Command::Image { rows })
}

fn make_with(number: &str, steps: &str, lanes: &str) -> Option<Command>
    ensures { result ≡ make_with number.now steps.now lanes.now }
{
    let number = number_in(number, 0, SEED_END - 1)? as u32;
    let steps = number_in(steps, 1, MOST_STEPS)? as u32;
    let lanes = number_in(lanes, 1, MOST_LANES as u64)? as u32;
    Some(Command::Make {
        number,
        steps,
        lanes,
    })
}

fn make_in(matches: &ArgMatches) -> Option<Command>
    ensures { result ≡ make_in (rows_of (found_of matches.now)) }
{
    let number = word_of(matches, "number")?;
    let steps = word_of(matches, "steps")?;
    let lanes = word_of(matches, "lanes")?;
    make_with(number, steps, lanes)
}

fn trial_with(number: &str, steps: &str) -> Option<Command>
    ensures { result ≡ trial_with number.now steps.now }
{
    let number = number_in(number, 0, SEED_END - 1)? as u32;
    let steps = number_in(steps, 1, MOST_STEPS)? as u32;
    Some(Command::Trial { number, steps })
}

fn trial_in(matches: &ArgMatches) -> Option<Command>
    ensures { result ≡ trial_in (rows_of (found_of matches.now)) }
{
    let number = word_of(matches, "number")?;
    let steps = word_of(matches, "steps")?;
    trial_with(number, steps)
}

fn bulk_with(workers: &str) -> Option<Command>
    ensures { result ≡ bulk_with workers.now }
{
    let workers = number_in(workers, 1, MOST_WORKERS)? as u32;
    Some(Command::Bulk { workers })
}

fn bulk_in(matches: &ArgMatches) -> Option<Command>
    ensures { result ≡ bulk_in (rows_of (found_of matches.now)) }
{
    let workers = word_of(matches, "workers")?;
    bulk_with(workers)
}

fn ids_with(lo: &str, hi: &str, steps: &str, drops: &str) -> Option<Command>
    ensures { result ≡ ids_with lo.now hi.now steps.now drops.now }
{
    let lo = number_in(lo, 0, MOST_INDEX)?;
    let hi = number_in(hi, lo, MOST_INDEX)?;
    let steps = number_in(steps, 1, MOST_STEPS)? as u32;
    let drop = number_in(drops, 1, steps as u64)? as u32;
    Some(Command::Ids {
        lo,
        hi,
        steps,
        drop,
    })
}

fn ids_in(matches: &ArgMatches) -> Option<Command>
    ensures { result ≡ ids_in (rows_of (found_of matches.now)) }
{
    let lo = word_of(matches, "lo")?;
    let hi = word_of(matches, "hi")?;
    let steps = word_of(matches, "steps")?;
    let drops = word_of(matches, "drop")?;
    ids_with(lo, hi, steps, drops)
}

fn command_in(name: &str, matches: &ArgMatches) -> Option<Command>
    ensures { result ≡ command_in name.now (rows_of (found_of matches.now)) }
{
    match name {
        "replay" => replay_in(matches),
        "make" => make_in(matches),
        "trial" => trial_in(matches),
        "verify" => verify_in(matches),
        "image" => image_in(matches),
        "show" => Some(Command::Show),
        "bulk" => bulk_in(matches),
        "ids" => ids_in(matches),
        _ => None,
    }
}

/// The command that the matches are.
pub fn command_met(matches: &ArgMatches) -> Option<Command>
    ensures { result ≡ command_met (subcommand_rows_of matches.now) }
{
    let (name, inner) = matches.subcommand()?;
    command_in(name, inner)
}
