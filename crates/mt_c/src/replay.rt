//! A log played for C: bytes in, bytes out.

ghost use Rattle.std.specs.Prelude.{◌≡◌, ◌≢◌, ◌⊎◌, ◌<◌, ◌≤◌, ◌++◌, None, length, drop, true, false, IsErr, IfOk, IfErr, IfSome};
ghost use Rattle.mt_base.specs.Width.{most_rows};
ghost use Rattle.mt_log.specs.Reading.{log_of};
ghost use Rattle.mt_c.specs.Batch.{HaveRows, IsBufferShort, IsTextOfRun, IsUnfit, WritesText, most_bytes};

use crate::told::{E2BIG, EDOM, EINVAL, ENOMEM, ERANGE};
use mt_base::MOST_ROWS;
use mt_list::ListMap;
use mt_log::{LogError, read_log, render};
use mt_sequential::play;
use std::alloc::Global;

/// The greatest number of bytes of a log.
const MOST_BYTES: usize = 0xffff_ffff;

/// The number for nodes that are too few or too many, or for too many bytes of a log.
pub fn unfit(log: &[u8], rows: u64) -> Option<u32>
    ensures some { IfSome result (λ status. IsUnfit rows log.now status) }
    ensures none { result ≡ None → HaveRows rows × (length log.now ≤ most_bytes) }
{
    if !(4..=MOST_ROWS).contains(&rows) {
        return Some(EDOM);
    }
    if log.len() > MOST_BYTES {
        return Some(E2BIG);
    }
    None
}

/// The text of a run of a log.
fn text(alloc: Global, log: &[u8], rows: u64) -> Result<Vec<u8>, u32>
    requires rows { rows ≤ most_rows }
    requires bytes { length log.now ≤ most_bytes }
    ensures ok { IfOk result (λ text. IsTextOfRun rows log.now text.items) }
    ensures err { IfErr result
        (λ status. ((status ≡ 22) × IsErr (log_of log.now)) ⊎ (status ≡ 12)) }
{
    let log = match read_log(alloc, log) {
        Ok(log) => log,
        Err(LogError::Bad { .. }) => return Err(EINVAL),
        Err(LogError::NoMemory) => return Err(ENOMEM),
    };
    let Ok(transcript) = play::<ListMap>(alloc, &log, rows) else {
        return Err(ENOMEM);
    };
    match render(alloc, &transcript) {
        Ok(text) => Ok(text),
        Err(_) => Err(ENOMEM),
    }
}

/// Writes a text at the front of a buffer, where it has room.
pub fn put(text: &[u8], out: &mut [u8]) -> bool
    ensures written { result ≡ true → out.new ≡ text.now ++ drop (length text.now) out.old }
    ensures room { result ≡ true → length text.now ≤ length out.old }
    ensures short { result ≡ false → length out.old < length text.now }
    ensures kept { result ≡ false → out.new ≡ out.old }
{
    if text.len() > out.len() {
        return false;
    }
    let (front, _) = out.split_at_mut(text.len());
    front.copy_from_slice(text);
    true
}

/// Plays a log on one thread, on sorted lists, over trees of `rows` nodes, 4 to 65,504, and writes the text of the transcript
/// to `out`. `used` is how many bytes that has, even if `out` is too short for it.
#[tactic(auto, using(crate::proofs::Batches::writes, crate::proofs::Batches::is_short))]
#[unsafe(no_mangle)]
pub extern "C" fn maple_replay(
    alloc: Global,
    log: &[u8],
    rows: u64,
    out: &mut [u8],
    used: &mut usize,
) -> u32
    ensures within { (result ≡ 0)
        ⊎ (result ≡ 12) ⊎ (result ≡ 22) ⊎ (result ≡ 34) ⊎ IsUnfit rows log.now result }
    ensures writes { result ≡ 0 → WritesText rows log.now out.old out.new used.new }
    ensures short { result ≡ 34 → IsBufferShort rows log.now out.old used.new }
    ensures bad_log { result ≡ 22 → IsErr (log_of log.now) }
    ensures kept { result ≢ 0 → out.new ≡ out.old }
    ensures unused { result ≢ 0 → result ≢ 34 → used.new ≡ 0 }
{
    *used = 0;
    if let Some(status) = unfit(log, rows) {
        return status;
    }
    match text(alloc, log, rows) {
        Ok(text) => {
            *used = text.len();
            if put(&text, out) { 0 } else { ERANGE }
        }
        Err(status) => status,
    }
}
