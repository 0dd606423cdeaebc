//! Texts that are listings, and others.

use crate::asserts::same;
use mt_log::Listing;
use mt_told::{ListingError, read_listing};
use std::alloc::{AllocError, Global};
use std::test::Fail;

/// Texts, in which a slash means LF, and the line at which each shows that it is no listing.
const TEXTS: &str = "\
tree a range 0/ -> listing
tree a alloc 1/10 19 5/ -> listing
tree a range32 1/10 19 5/ -> listing
tree a alloc32 2/10 19 5/20 20 1/ -> listing
tree abcdefghijklmno_ range 1/0 18446744073709551615 18446744073709551615/ -> listing
tree 0 range 3/5 1 0/5 1 0/0 0 2/ -> listing
 -> line 1
t -> line 1
tree -> line 1
tree a r -> line 1
tree a range32 -> line 1
tree a range 0 -> line 1
tree a range 1/ -> line 2
tree a range 1/1 -> line 2
tree a range 1/10 19 5 -> line 2
tree a range 2/10 19 5/ -> line 3
tree a range 2/10 19 5/20 -> line 3
tree a range 18446744073709551615/ -> line 2
tree a range 18446744073709551615/1 2 3/ -> line 3
/ -> line 1
x -> line 1
/tree a range 0/ -> line 1
 tree a range 0/ -> line 1
tree A range 0/ -> line 1
tree abcdefghijklmnopq range 0/ -> line 1
tree abcdefghijklmnopq -> line 1
tree  range 0/ -> line 1
tree a  range 0/ -> line 1
tree a range64 0/ -> line 1
tree a Range 0/ -> line 1
tree a ranges -> line 1
tree a range 0 / -> line 1
tree a range 00/ -> line 1
tree a range 00 -> line 1
tree a range 01/1 1 1/ -> line 1
tree a range 18446744073709551616/ -> line 1
tree a range 18446744073709551616 -> line 1
tree a range +1/1 1 1/ -> line 1
tree a range -1/ -> line 1
tree a range 0x1/1 1 1/ -> line 1
tree a range max/ -> line 1
tree a range/ -> line 1
# a listing/tree a range 0/ -> line 1
mtlog 1/tree a range/ -> line 1
tree a range 0// -> line 2
tree a range 0/1 1 1/ -> line 2
tree a range 0/tree b range 0/ -> line 2
tree a range 1/1 1 1// -> line 3
tree a range 1/1 1 1/2 -> line 3
tree a range 1/1 1 1/2 2 2/3 3 3/ -> line 3
tree a range 2/1 1 1//2 2 1/ -> line 3
tree a range 2/01 1 1/2 2 1/ -> line 2
tree a range 2/1 1 1/2 2 18446744073709551616/ -> line 3
tree a range 2/1 1 1/2 2 18446744073709551616 -> line 3
tree a range 1/01 -> line 2
tree a range 1/1 1/ -> line 2
tree a range 1/1 1 1 1/ -> line 2
tree a range 1/1 1 1 / -> line 2
tree a range 1/1 1 1\r/ -> line 2
tree a range 1/ 1 1 1/ -> line 2
tree a range 1/1  1 1/ -> line 2
tree a range 1/1,1,1/ -> line 2
tree a range 1/1 1 x/ -> line 2
tree a range 3/1 1 1/# more/2 2 1/3 3 1/ -> line 3";

/// The text of a case.
fn text_of(alloc: Global, case: &str) -> Result<Vec<u8>, AllocError> {
    let mut text = Vec::new(alloc);
    for byte in case.bytes() {
        text.push(if byte == b'/' { b'\n' } else { byte })?;
    }
    Ok(text)
}

/// A listing, as a case.
fn push_listing(case: &mut String, listing: &Listing) -> Result<(), AllocError> {
    let ranges = listing.ranges.as_slice();
    let (name, kind, count) = (listing.name, listing.kind, ranges.len());
    write!(case, "tree {name} {kind} {count}/")?;
    for range in ranges {
        write!(case, "{} {} {}/", range.first, range.last, range.entry)?;
    }
    Ok(())
}

/// What a text is read as: a listing, as a case, or a line.
fn outcome(alloc: Global, text: &[u8]) -> Result<String, AllocError> {
    let mut words = String::new(alloc);
    match read_listing(alloc, text) {
        Ok(listing) => push_listing(&mut words, &listing)?,
        Err(ListingError::Bad { line }) => write!(words, "line {line}")?,
        Err(ListingError::NoMemory) => words.push_str("no memory")?,
    }
    Ok(words)
}

#[test]
fn listings_are_read_and_other_texts_refused(rt: HostRuntime) -> Result<(), Fail> {
    for row in TEXTS.lines() {
        let (case, told) = row.split_once(" -> ").unwrap_or((row, "an arrow"));
        let want = if told == "listing" { case } else { told };
        let text = text_of(rt.alloc(), case)?;
        same(&rt, outcome(rt.alloc(), &text)?.as_str(), want, row);
    }
    Ok(())
}
