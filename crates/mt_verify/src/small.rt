//! The numbers of a run are of 64 bits.

ghost use Rattle.std.specs.Prelude.{◌<◌, ◌^◌, ℕ, List, All, length};
ghost use Rattle.mt_base.specs.History.{History};
ghost use Rattle.mt_log.specs.LogText.{IsLog};
ghost use Rattle.mt_log.specs.Run.{IsRunBy, Step};
ghost use Rattle.mt_log.specs.declared.lines.Log.{Log};
ghost use Rattle.mt_log.specs.declared.transcripts.Transcript.{Transcript};
ghost use Rattle.mt_told.specs.Telling.{IsSmall};

/// The numbers that a run's text has, and those that it leaves out, are of 64 bits, if the log can be read and is no longer
/// than a list can be.
pub fn the_numbers_of_a_run_are_small()
    ensures { (log : Log) (rows : ℕ) (t : Transcript) (steps : List Step) (trees : List History) → IsLog log
        → length log.lines < 2 ^ 63 → IsRunBy log rows t steps trees
        → All (λ s. IsSmall s.outcome) steps }
{}
