ghost use Rattle.std.specs.Prelude.{◌≡◌, IfOk};
ghost use Rattle.mt_program.specs.Headline.{verified_text};

use mt_base::NoMemory;
use std::alloc::Global;

/// The line with how many calls and how many reads a transcript reports.
pub fn verified_text(alloc: Global, calls: u64, reads: u64) -> Result<Vec<u8>, NoMemory>
    ensures { IfOk result (λ text. text.items ≡ verified_text calls reads) }
{
    Ok(format!(in alloc; "verified {calls} {reads}\n")?.into_bytes())
}
