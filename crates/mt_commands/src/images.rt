//! The listing of a tree of which an image is read.

ghost use Rattle.std.specs.Prelude.{◌≡◌, ◌≢◌, Err, IfOk, IfErr, codes};
ghost use Rattle.mt_image.specs.Reading.{image_in};
ghost use Rattle.mt_log.specs.Text.{listing_text};
ghost use Rattle.mt_rows.specs.Memory.{sheet_in};
ghost use Rattle.mt_rows.specs.Publish.{map_by, IsLawfulOf};
ghost use Rattle.mt_commands.specs.Texts.{IsImageListing};

use crate::trees::LaneTree;
use mt_base::{Kind, NoMemory, Range};
use mt_image::{ImageError, read_image};
use mt_log::{ListOf, Listing, Transcript, Word, render};
use mt_replay::list_settled;
use mt_tree::PlainRows;
use std::alloc::Global;
use std::sync::Wait;

/// The name of the tree that is made from an image.
fn image_name() -> Word
    ensures { result ≡ codes "image" }
{
    match Word::new(b"image") {
        Some(name) => name,
        None => unreachable!(),
    }
}

/// The ranges of a tree that is made from these nodes, which are only read.
fn ranges_in<R: Wait>(
    rt: &R,
    alloc: Global,
    kind: Kind,
    rows: &mut PlainRows,
) -> Result<Vec<Range>, NoMemory>
    requires { IsLawfulOf (sheet_in rows.old).tree kind }
    ensures { IfOk result (λ ranges. ranges.items ≡ map_by (sheet_in rows.old).tree) }
{
    let (tree, mut row) = LaneTree::of_rows(alloc, kind, rows)?;
    list_settled(rt, alloc, &tree, &mut row)
}

/// The text of the listing of a tree of this kind with these ranges, under the name of an image.
fn listing(alloc: Global, kind: Kind, ranges: Vec<Range>) -> Result<Vec<u8>, NoMemory>
    ensures { IfOk result (λ text. text.items ≡ listing_text (record { name = codes "image"; kind = kind; ranges = ranges.items })) }
{
    let mut lists = Vec::new(alloc);
    lists.push(Listing {
        name: image_name(),
        kind,
        ranges: ListOf::new(ranges),
    })?;
    let alone = Transcript {
        version: 1,
        entries: ListOf::new(Vec::new(alloc)),
        lists: ListOf::new(lists),
    };
    render(alloc, &alone)
}

/// The text of the listing of the tree whose image the bytes are, under the name `image`.
///
/// # Errors
///
/// The first reason why the bytes are no image, or no memory.
pub fn image_listing<R: Wait>(rt: &R, alloc: Global, bytes: &[u8]) -> Result<Vec<u8>, ImageError>
    ensures ok { IfOk result (λ text. IsImageListing bytes.now text.items) }
    ensures err { IfErr result (λ e. e ≢ ImageError.NoMemory → image_in bytes.now ≡ Err e) }
{
    let (kind, mut rows) = read_image(alloc, bytes)?;
    let ranges = ranges_in(rt, alloc, kind, &mut rows)?;
    Ok(listing(alloc, kind, ranges)?)
}
