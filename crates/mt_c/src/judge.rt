//! A transcript judged for C.

ghost use Rattle.std.specs.Prelude.{◌≡◌, ◌≢◌, ◌⊎◌, ◌≤◌, length, IsErr, IfOk, IfErr};
ghost use Rattle.mt_log.specs.Reading.{log_of};
ghost use Rattle.mt_c.specs.Batch.{HaveRows, IsNoRun, IsUnfit, IsVerified, most_bytes};

use crate::replay::unfit;
use crate::told::{EBADMSG, EINVAL, ENOMEM};
use mt_log::{LogError, read_log};
use mt_verify::{Verdict, calls_of, verify};
use std::alloc::Global;

/// How many calls and how many reads a transcript reports; or the number that says why it is none.
#[tactic(auto, using(crate::proofs::Batches::no_run_so))]
fn counted(alloc: Global, log: &[u8], text: &[u8], rows: u64) -> Result<(u64, u64), u32>
    requires rows { HaveRows rows }
    requires bytes { length log.now ≤ most_bytes }
    ensures ok { IfOk result (λ counts. IsVerified rows log.now text.now counts.0 counts.1) }
    ensures err { IfErr result (λ status. ((status ≡ 74) × IsNoRun rows log.now text.now)
        ⊎ ((status ≡ 22) × IsErr (log_of log.now)) ⊎ (status ≡ 12)) }
{
    let log = match read_log(alloc, log) {
        Ok(log) => log,
        Err(LogError::Bad { .. }) => return Err(EINVAL),
        Err(LogError::NoMemory) => return Err(ENOMEM),
    };
    let Ok(verdict) = verify(alloc, &log, rows, text) else {
        return Err(ENOMEM);
    };
    match verdict {
        Verdict::Yes { points } => Ok((calls_of(&log), points.count())),
        Verdict::No => Err(EBADMSG),
    }
}

/// Whether a text is that of a transcript of a run of a log over trees of `rows` nodes, 4 to 65,504; and if it is, how many
/// calls and how many reads it reports. It judges the transcript alone: the run may be of many threads.
#[unsafe(no_mangle)]
pub extern "C" fn maple_verify(
    alloc: Global,
    log: &[u8],
    text: &[u8],
    rows: u64,
    calls: &mut u64,
    reads: &mut u64,
) -> u32
    ensures within { (result ≡ 0)
        ⊎ (result ≡ 12) ⊎ (result ≡ 22) ⊎ (result ≡ 74) ⊎ IsUnfit rows log.now result }
    ensures verified { result ≡ 0 → IsVerified rows log.now text.now calls.new reads.new }
    ensures refused { result ≡ 74 → IsNoRun rows log.now text.now }
    ensures bad_log { result ≡ 22 → IsErr (log_of log.now) }
    ensures uncounted { result ≢ 0 → (calls.new ≡ 0) × (reads.new ≡ 0) }
{
    *calls = 0;
    *reads = 0;
    if let Some(status) = unfit(log, rows) {
        return status;
    }
    match counted(alloc, log, text, rows) {
        Ok(counts) => {
            *calls = counts.0;
            *reads = counts.1;
            0
        }
        Err(status) => status,
    }
}
