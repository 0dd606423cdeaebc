//! All shelves at once.

ghost use Rattle.std.specs.Prelude.{◌≡◌, ◌<◌, ◌^◌, IfOk, length};
ghost use Rattle.mt_shelves.specs.Shelves.{joined};

use crate::shelf::Shelf;
use mt_base::{NoMemory, Range};
use std::alloc::Global;

/// The ranges of all shelves.
///
/// # Errors
///
/// `NoMemory` where memory ran out.
pub fn gathered(alloc: Global, shelves: &[Shelf]) -> Result<Vec<Range>, NoMemory>
    ensures { IfOk result (λ all. all.items ≡ joined shelves.now) }
{
    let mut all = Vec::new(alloc);
    for shelf in shelves {
        all.extend_from_slice(shelf.ranges())?;
    }
    Ok(all)
}

/// How many ranges all shelves have.
#[tactic(auto, using(crate::proofs::ShelvesKept::fewer_so_far, crate::proofs::ShelvesKept::one_more_shelf))]
pub fn count(shelves: &[Shelf]) -> u64
    requires { length (joined shelves.now) < 2 ^ 62 }
    ensures { result ≡ length (joined shelves.now) }
{
    let mut count = 0;
    for shelf in shelves {
        count += shelf.ranges().len() as u64;
    }
    count
}

/// Other shelves with the same ranges.
///
/// # Errors
///
/// `NoMemory` where memory ran out.
pub fn copied(alloc: Global, shelves: &[Shelf]) -> Result<Vec<Shelf>, NoMemory>
    ensures { IfOk result (λ all. all.items ≡ shelves.now) }
{
    let mut all = Vec::with_capacity(alloc, shelves.len())?;
    for shelf in shelves {
        all.push(Shelf::of(Vec::from_slice(alloc, shelf.ranges())?))?;
    }
    Ok(all)
}
