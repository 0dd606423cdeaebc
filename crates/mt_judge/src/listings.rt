//! The listings of trees at the end of a transcript.

use crate::causes::{Cause, FoundFault};
use crate::trees::DeclaredTree;
use mt_base::{NoMemory, Range};
use mt_log::{ListOf, Listing, Transcript, render};
use mt_told::Account;
use std::alloc::Global;

/// A tree as it is listed at the end.
pub fn listing_of(declared: &DeclaredTree, ranges: Vec<Range>) -> Listing {
    Listing {
        name: declared.name,
        kind: declared.kind,
        ranges: ListOf::new(ranges),
    }
}

/// How many lines two texts begin with both.
fn lines_alike(text: &[u8], other: &[u8]) -> usize {
    let mut lines = 0_usize;
    for (byte, same) in text.iter().zip(other.iter()) {
        if byte != same {
            return lines;
        }
        if *byte == b'\n' {
            lines = lines.saturating_add(1);
        }
    }
    lines
}

/// The first line after the steps that is not as these trees are listed.
pub fn listing_fault(
    alloc: Global,
    version: u32,
    account: &Account,
    lists: Vec<Listing>,
) -> Result<Option<FoundFault>, NoMemory> {
    let listed = Transcript {
        version,
        entries: ListOf::new(Vec::new(alloc)),
        lists: ListOf::new(lists),
    };
    let text = render(alloc, &listed)?;
    if text.as_slice() == account.rest {
        return Ok(None);
    }
    let place = account
        .told
        .len()
        .saturating_add(lines_alike(&text, account.rest));
    Ok(Some(FoundFault::at(place, Cause::Listing)))
}
