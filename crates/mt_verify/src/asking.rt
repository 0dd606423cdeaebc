ghost use Rattle.std.specs.Prelude.{◌≡◌, ℕ, length};
ghost use Rattle.std.specs.List.{filter};
ghost use Rattle.mt_log.specs.declared.transcripts.Transcript.{Transcript};
ghost use Rattle.mt_log.specs.Run.{IsRun};
ghost use Rattle.mt_verify.specs.Tellings.{asks_call, count_of_calls};

use mt_log::{Item, Line, Log};

/// Whether a line asks for a call.
fn asks_call(line: &Line) -> bool
    ensures { result ≡ asks_call line.now.item }
{
    matches!(line.item, Item::Write { .. })
}

/// How many lines ask for a call.
fn asking(lines: &[Line]) -> u64
    ensures { result ≡ length (filter (λ line. asks_call line.item) lines.now) }
{
    lines.iter().filter(|line| asks_call(line)).count() as u64
}

/// How many calls a log asks for. Every transcript of a run of it reports that many.
pub fn calls_of(log: &Log) -> u64
    ensures { (rows : ℕ) (t : Transcript) → IsRun log.now rows t → count_of_calls t ≡ result }
{
    asking(log.lines.as_slice())
}
