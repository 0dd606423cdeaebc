ghost use Rattle.std.specs.Prelude.{◌≡◌, IfErr, IfOk};
ghost use Rattle.mt_log.specs.Text.{listing_text};
ghost use Rattle.mt_told.specs.Listings.{IsInForm, IsRefusedListing};

use crate::errors::ListingError;
use crate::heads::head_in_front;
use crate::ranges::ranges_in_front;
use mt_log::{ListOf, Listing};
use std::alloc::Global;

/// The listing that the text is.
///
/// # Errors
///
/// `Bad` where the text is no listing, with the line at which that shows; `NoMemory` where memory ran out.
#[tactic(auto, using(crate::proofs::Bad::no_head, crate::proofs::Bad::no_more, crate::proofs::Bad::in_form))]
pub fn read_listing(alloc: Global, text: &[u8]) -> Result<Listing, ListingError>
    ensures listing { IfOk result (λ l. IsInForm l) }
    ensures text { IfOk result (λ l. text.now ≡ listing_text l) }
    ensures refused { IfErr result (IsRefusedListing text.now) }
{
    let Some((head, lines)) = head_in_front(text) else {
        return Err(ListingError::Bad { line: 1 });
    };
    let (ranges, rest) = ranges_in_front(alloc, lines, head.count)?;
    let found = ranges.len() as u64;
    if found < head.count || !rest.is_empty() {
        return Err(ListingError::Bad { line: found + 2 });
    }
    Ok(Listing {
        name: head.name,
        kind: head.kind,
        ranges: ListOf::new(ranges),
    })
}
