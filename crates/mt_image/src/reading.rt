//! Images read back.

ghost use Rattle.std.specs.Prelude.{◌≡◌, ◌≢◌, ◌↔◌, ◌+◌, ◌*◌, ◌/◌, ◌%◌, ◌-◌, ◌++◌, ◌≤◌, ◌<◌, ◌^◌, IfOk, IfErr};
ghost use Rattle.std.specs.Prelude.{IsTrue, Err, Ok, Some, codes, drop, length, replicate, slice_get, take};
ghost use Rattle.std.specs.Str.{bytes_eq};
ghost use Rattle.mt_base.specs.Width.{columns, first_row, kind_width, most_rows};
ghost use Rattle.mt_check.specs.Check.{checked};
ghost use Rattle.mt_rows.specs.Memory.{sheet_in};
ghost use Rattle.mt_rows.specs.OfWords.{IsMadeOf};
ghost use Rattle.mt_rows.specs.Publish.{tree_as, IsLawfulOf};
ghost use Rattle.mt_rows.specs.Sheet.{OnlyReads};
ghost use Rattle.mt_image.specs.Orders.{stray_from};
ghost use Rattle.mt_image.specs.Reading as defined;
ghost use Rattle.mt_image.specs.Reading.{HoldImage, behind_head, image_in, lawful, image_length, numbers_from, image_words};

use crate::bytes::{HEAD, TEXT, code_of, number_at, read_numbers};
use crate::errors::ImageError;
use mt_base::{FIRST_ROW, Kind, MOST_ROWS, NoMemory, cols, width_of};
use mt_check::check;
use mt_rows::plain_trees::reached_in;
use mt_rows::{PlainRows, Rows};
use std::alloc::Global;

/// In the order of their numbers.
const KINDS: &[Kind] = &[Kind::Range, Kind::Alloc, Kind::Range32, Kind::Alloc32];

/// The kind of this number.
#[tactic(auto, unfolding(crate::specs::Reading::kind_numbered))]
fn kind_numbered(number: u64) -> Option<Kind>
    ensures { result ≡ defined.kind_numbered number }
{
    KINDS.iter().copied().find(|kind| code_of(*kind) == number)
}

/// How many bytes an image of this many nodes has.
fn length_for(kind: Kind, rows: u64) -> u64
    requires { rows ≤ most_rows }
    ensures { result ≡ image_length kind rows }
{
    HEAD as u64 + 8 * (rows * cols(width_of(kind)) as u64)
}

/// Whether an image of this kind has few enough nodes, and the length of that many.
fn check_length(bytes: &[u8], kind: Kind) -> Result<(), ImageError>
    requires { 32 ≤ length bytes.now }
    ensures ok { IfOk result (λ _. defined.image_of_kind bytes.now (Some kind) ≡ behind_head bytes.now kind) }
    ensures rows { IfOk result (λ _. defined.number_at bytes.now 16 ≤ most_rows) }
    ensures long { IfOk result (λ _. length bytes.now ≡ image_length kind (defined.number_at bytes.now 16)) }
    ensures err { IfErr result (λ e. defined.image_of_kind bytes.now (Some kind) ≡ Err e) }
{
    let rows = number_at(bytes, 16);
    if MOST_ROWS < rows {
        return Err(ImageError::Head { at: 16 });
    }
    let want = length_for(kind, rows);
    let got = bytes.len() as u64;
    if got == want {
        Ok(())
    } else {
        Err(ImageError::Length { want, got })
    }
}

/// Whether the walk reaches this node, counted from the first, at its place.
fn is_at_place(walk: &[u32], at: u32) -> bool
    requires { at < most_rows }
    ensures { IsTrue result ↔ (slice_get walk.now at ≡ Some (first_row + at)) }
{
    match walk.get(at as usize) {
        Some(row) => *row == FIRST_ROW + at,
        None => false,
    }
}

/// The least of these nodes that is not at its place in a walk.
#[tactic(auto, using(crate::proofs::StrayLoop::at_place, crate::proofs::StrayLoop::off_place, crate::proofs::StrayLoop::all_at_place))]
fn first_stray(walk: &[u32], rows: u32) -> Option<u32>
    requires { rows ≤ most_rows }
    ensures { result ≡ stray_from first_row rows walk.now }
{
    for at in 0..rows {
        if !is_at_place(walk, at) {
            return Some(FIRST_ROW + at);
        }
    }
    None
}

/// The words of a table: first zeros, and then numbers of an image.
fn table_words(
    alloc: Global,
    bytes: &[u8],
    before: usize,
    count: usize,
) -> Result<Vec<u64>, NoMemory>
    requires inside { 32 + 8 * count ≤ length bytes.now }
    requires room { length bytes.now < 2 ^ 32 }
    requires few { before < 2 ^ 32 }
    ensures { IfOk result (λ words. words.items ≡ replicate before 0 ++ numbers_from bytes.now 32 count) }
{
    let mut words = vec![in alloc; 0; before]?;
    let numbers = read_numbers(alloc, bytes, HEAD, count)?;
    words.extend_from_slice(&numbers)?;
    Ok(words)
}

/// Whether these bytes begin with the text of an image.
fn has_text(bytes: &[u8]) -> bool
    requires { 8 ≤ length bytes.now }
    ensures { result ≡ bytes_eq (take 8 bytes.now) (codes "mtimage1") }
{
    bytes[..8] == TEXT[..]
}

/// The kind of an image whose head and length are right.
#[tactic(auto, unfolding(crate::specs::Reading::image_in))]
fn read_head(bytes: &[u8]) -> Result<Kind, ImageError>
    ensures ok { IfOk result (λ kind. image_in bytes.now ≡ behind_head bytes.now kind) }
    ensures rows { IfOk result (λ kind. defined.number_at bytes.now 16 ≤ most_rows) }
    ensures long { IfOk result (λ kind. length bytes.now ≡ image_length kind (defined.number_at bytes.now 16)) }
    ensures err { IfErr result (λ e. image_in bytes.now ≡ Err e) }
{
    if bytes.len() < HEAD {
        return Err(ImageError::Length {
            want: HEAD as u64,
            got: bytes.len() as u64,
        });
    }
    if !has_text(bytes) {
        return Err(ImageError::Head { at: 0 });
    }
    let Some(kind) = kind_numbered(number_at(bytes, 8)) else {
        return Err(ImageError::Head { at: 8 });
    };
    check_length(bytes, kind)?;
    Ok(kind)
}

/// The words of the table of an image of this kind.
#[tactic(auto, using(crate::proofs::Sizes::words_inside, crate::proofs::Sizes::few_words, crate::proofs::Sizes::short))]
fn read_words(alloc: Global, bytes: &[u8], kind: Kind) -> Result<Vec<u64>, NoMemory>
    requires rows { defined.number_at bytes.now 16 ≤ most_rows }
    requires long { length bytes.now ≡ image_length kind (defined.number_at bytes.now 16) }
    ensures { IfOk result (λ words. words.items ≡ image_words bytes.now kind) }
{
    let columns = cols(width_of(kind)) as usize;
    let rows = number_at(bytes, 16) as usize;
    table_words(alloc, bytes, columns * FIRST_ROW as usize, rows * columns)
}

/// The nodes of an image of this kind, whose words these are.
fn make_rows(alloc: Global, kind: Kind, root: u64, words: &[u64]) -> Result<PlainRows, NoMemory>
    requires size { columns (kind_width kind) * first_row ≤ length words.now }
    requires whole { length (drop (columns (kind_width kind) * first_row) words.now) % columns (kind_width kind) ≡ 0 }
    requires few { length (drop (columns (kind_width kind) * first_row) words.now) / columns (kind_width kind) ≤ most_rows }
    ensures { IfOk result (λ p. IsMadeOf (kind_width kind) root (drop (columns (kind_width kind) * first_row) words.now) (sheet_in p)) }
{
    let width = width_of(kind);
    let before = cols(width) as usize * FIRST_ROW as usize;
    PlainRows::of_words(alloc, width, root, &words[before..])
}

/// Whether the words of the nodes are well-formed, and the nodes in the order of the walk.
#[tactic(auto, using(crate::proofs::Judged::told_fault, crate::proofs::Judged::told_walk))]
fn check_rows(
    alloc: Global,
    kind: Kind,
    rows: &mut PlainRows,
    words: &[u64],
) -> Result<(), ImageError>
    requires width { (sheet_in rows.old).tree.table.width ≡ kind_width kind }
    requires words { (sheet_in rows.old).tree.table.words ≡ words.now }
    ensures ok { IfOk result (λ _. lawful (record { kind = kind; tree = (sheet_in rows.old).tree }) (checked (tree_as kind (sheet_in rows.old).tree))
        ≡ Ok (record { kind = kind; tree = (sheet_in rows.old).tree })) }
    ensures laws { IfOk result (λ _. IsLawfulOf (sheet_in rows.old).tree kind) }
    ensures err { IfErr result (λ e. e ≢ ImageError.NoMemory
        → lawful (record { kind = kind; tree = (sheet_in rows.old).tree }) (checked (tree_as kind (sheet_in rows.old).tree)) ≡ Err e) }
    ensures rest { OnlyReads (sheet_in rows.old) (sheet_in rows.new) }
{
    let root = rows.root();
    check(rows, root, kind)?;
    let walk = reached_in(alloc, width_of(kind), words, root)?;
    match first_stray(&walk, rows.size() as u32) {
        Some(row) => Err(ImageError::Stray { row }),
        None => Ok(()),
    }
}

/// The kind and the nodes of an image. No call of the nodes was begun, and those that the walk reaches are live.
///
/// # Errors
///
/// The first reason why the bytes are no image, or no memory.
#[tactic(auto, using(crate::proofs::Assembled::words_size))]
pub fn read_image(alloc: Global, bytes: &[u8]) -> Result<(Kind, PlainRows), ImageError>
    ensures ok { IfOk result (λ r. image_in bytes.now ≡ Ok (record { kind = r.0; tree = (sheet_in r.1).tree })) }
    ensures laws { IfOk result (λ r. IsLawfulOf (sheet_in r.1).tree r.0) }
    ensures made { IfOk result (λ r. HoldImage bytes.now r.0 (sheet_in r.1)) }
    ensures err { IfErr result (λ e. e ≢ ImageError.NoMemory → image_in bytes.now ≡ Err e) }
{
    let kind = read_head(bytes)?;
    let words = read_words(alloc, bytes, kind)?;
    let mut rows = make_rows(alloc, kind, number_at(bytes, 24), &words)?;
    check_rows(alloc, kind, &mut rows, &words)?;
    Ok((kind, rows))
}
