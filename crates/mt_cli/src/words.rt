ghost use Rattle.std.specs.Prelude.{◌≡◌, IfOk, IfSome, map, string_bytes};
ghost use Rattle.std.specs.List.{list_any};
ghost use Rattle.mt_cli.specs.Commands.{IsWithin, command_of};
ghost use Rattle.mt_cli.specs.Grammar.{is_end_of_options};

use crate::commands::Command;
use crate::grammar::{command_met, grammar};
use clap::error::ErrorKind;
use mt_base::NoMemory;
use std::alloc::Global;

/// Whether a word is `--`, which `clap` takes for the end of the options and leaves out.
fn is_end_of_options(word: &String) -> bool
    ensures { result ≡ is_end_of_options (string_bytes word.now) }
{
    word.as_str() == "--"
}

fn ends_options(words: &[String]) -> bool
    ensures { result ≡ list_any (λ word. is_end_of_options (string_bytes word)) words.now }
{
    words.iter().any(is_end_of_options)
}

/// The command that the words are, and none where they are no command.
///
/// # Errors
///
/// `NoMemory` where memory ran out.
pub fn read_words(alloc: Global, words: &[String]) -> Result<Option<Command>, NoMemory>
    ensures command { IfOk result (λ command. command ≡ command_of (map string_bytes words.now)) }
    ensures within { IfOk result (λ command. IfSome command IsWithin) }
{
    if ends_options(words) {
        return Ok(None);
    }
    match grammar(alloc)?.try_get_matches_from(words) {
        Ok(matches) => Ok(command_met(&matches)),
        Err(error) => match error.kind() {
            ErrorKind::OutOfMemory => Err(NoMemory),
            _ => Ok(None),
        },
    }
}
