//! Images of small trees, written, read and refused. The answers to changed bytes are those that `bench/images.py changes`
//! prints.

use crate::asserts::same;
use crate::copies::{CASES, Case, TWO_LEAVES, first_words};
use crate::small_trees::{LONE, Node, checked_rows, words_of};
use mt_base::{Kind, NoMemory, Width, cols, width_of};
use mt_check::{Law, form_of};
use mt_image::{ImageError, read_image, write_image};
use std::alloc::Global;
use std::process::Abort;
use std::test::Fail;

/// The kind and the number of ranges of an image, or why the bytes are none.
type Answer = Result<(Kind, u64), ImageError>;

/// The text of an image, and then these numbers.
fn image(alloc: Global, head: [u64; 3], words: &[u64]) -> Result<Vec<u8>, NoMemory> {
    let mut bytes = Vec::new(alloc);
    bytes.extend_from_slice(b"mtimage1")?;
    for number in &head {
        bytes.extend_from_slice(&number.to_le_bytes())?;
    }
    for word in words {
        bytes.extend_from_slice(&word.to_le_bytes())?;
    }
    Ok(bytes)
}

/// The image of the tree of one leaf, with this number of nodes.
fn lone_image(alloc: Global, rows: u64) -> Result<Vec<u8>, NoMemory> {
    let words = words_of(alloc, Width::Long, LONE)?;
    image(alloc, [0, rows, 4108], &words)
}

/// What these bytes are read as.
fn answer(alloc: Global, bytes: &[u8]) -> Answer {
    let (kind, mut rows) = read_image(alloc, bytes)?;
    let form = form_of(&mut rows, kind);
    Ok((kind, form.ranges))
}

/// The number of a kind in an image.
fn number_of(kind: Kind) -> u64 {
    match kind {
        Kind::Range => 0,
        Kind::Alloc => 1,
        Kind::Range32 => 2,
        Kind::Alloc32 => 3,
    }
}

/// The image of a case's tree.
fn written(rt: &impl Abort, alloc: Global, case: &Case) -> Result<Vec<u8>, Fail> {
    let words = words_of(alloc, width_of(case.kind), case.nodes)?;
    let columns = cols(width_of(case.kind)) as usize;
    assert!(rt; words.len() % columns == 0 && words.len() / columns <= 4);
    let (mut rows, _) = checked_rows(alloc, &words, case.root, case.kind)?;
    Ok(write_image(alloc, &mut rows, case.kind)?)
}

/// The kind of the tree that these bytes are an image of, and the words of its first nodes.
fn read(alloc: Global, bytes: &[u8], count: u32) -> Result<(Kind, Vec<u64>), Fail> {
    let (kind, mut rows) = read_image(alloc, bytes)?;
    Ok((kind, first_words(alloc, &mut rows, count)?))
}

/// The image of a case's tree has its nodes in order, and it is read so.
fn expect_image(rt: &impl Abort, alloc: Global, case: &Case) -> Result<(), Fail> {
    let bytes = written(rt, alloc, case)?;
    let head = [number_of(case.kind), u64::from(case.rows), case.copy];
    let copied = words_of(alloc, width_of(case.kind), case.copied)?;
    let want = image(alloc, head, &copied)?;
    same(rt, bytes.as_slice(), want.as_slice(), case.root);
    let (kind, words) = read(alloc, &want, case.rows)?;
    same(
        rt,
        (kind, words.as_slice()),
        (case.kind, copied.as_slice()),
        case.root,
    );
    Ok(())
}

#[test]
fn images_are_written_and_read(rt: HostRuntime) -> Result<(), Fail> {
    for case in &CASES {
        expect_image(&rt, rt.alloc(), case)?;
    }
    Ok(())
}

/// The answer to each change of a byte from one place up to, but without, another: the byte is greater by one.
#[rattlefmt::skip]
const CHANGED: [(usize, usize, Answer); 16] = [
    (0, 8, Err(ImageError::Head { at: 0 })),
    (8, 9, Ok((Kind::Alloc, 1))),
    (9, 16, Err(ImageError::Head { at: 8 })),
    (16, 17, Err(ImageError::Length { want: 544, got: 288 })),
    (17, 18, Err(ImageError::Length { want: 65_824, got: 288 })),
    (18, 24, Err(ImageError::Head { at: 16 })),
    (24, 32, Err(ImageError::Broken { row: 0, law: Law::Name })),
    (32, 40, Err(ImageError::Broken { row: 16, law: Law::Parent })),
    (40, 41, Ok((Kind::Range, 1))),
    (41, 48, Err(ImageError::Broken { row: 16, law: Law::Pivots })),
    (48, 56, Ok((Kind::Range, 1))),
    (56, 160, Err(ImageError::Broken { row: 16, law: Law::Pivots })),
    (160, 168, Ok((Kind::Range, 2))),
    (168, 169, Err(ImageError::Broken { row: 16, law: Law::Entries })),
    (169, 176, Ok((Kind::Range, 1))),
    (176, 184, Ok((Kind::Range, 2))),
];

/// The answer to a byte that is greater by one, which it is not any longer then.
fn expect_changed(
    rt: &impl Abort,
    alloc: Global,
    bytes: &mut [u8],
    at: usize,
    want: Answer,
) -> Result<(), Fail> {
    let Some(byte) = bytes.get_mut(at) else {
        return Err(Fail::new("no such byte"));
    };
    let old = *byte;
    *byte = old.wrapping_add(1);
    same(rt, answer(alloc, bytes), want, at);
    if let Some(byte) = bytes.get_mut(at) {
        *byte = old;
    }
    Ok(())
}

#[test]
fn changed_bytes_are_refused_or_read(rt: HostRuntime) -> Result<(), Fail> {
    let mut bytes = lone_image(rt.alloc(), 1)?;
    for (from, to, want) in &CHANGED {
        for at in *from..*to {
            expect_changed(&rt, rt.alloc(), &mut bytes, at, *want)?;
        }
    }
    for at in 184..288 {
        let want = Err(ImageError::Broken {
            row: 16,
            law: Law::Pivots,
        });
        expect_changed(&rt, rt.alloc(), &mut bytes, at, want)?;
    }
    Ok(())
}

/// An image that is cut after this many bytes.
fn expect_cut(rt: &impl Abort, alloc: Global, bytes: &[u8], got: usize) {
    assert!(rt; got <= bytes.len());
    let want = ImageError::Length {
        want: if got < 32 { 32 } else { 288 },
        got: got as u64,
    };
    same(rt, answer(alloc, &bytes[..got]), Err(want), got);
}

#[test]
fn cut_images_are_refused(rt: HostRuntime) -> Result<(), Fail> {
    let bytes = lone_image(rt.alloc(), 1)?;
    for got in 0..288 {
        expect_cut(&rt, rt.alloc(), &bytes, got);
    }
    Ok(())
}

/// The numbers of an image, of nodes that are wide, and the answer to them.
struct ToldImage {
    head: [u64; 3],
    nodes: &'static [Node],
    want: Answer,
}

#[rattlefmt::skip]
const TOLD: [ToldImage; 6] = [
    ToldImage { head: [0, 0, 0], nodes: &[], want: Ok((Kind::Range, 0)) },
    ToldImage { head: [0, 0, 4108], nodes: &[], want: Err(ImageError::Broken { row: 0, law: Law::Name }) },
    ToldImage { head: [4, 1, 4108], nodes: LONE, want: Err(ImageError::Head { at: 8 }) },
    ToldImage { head: [0, 65_505, 4108], nodes: LONE, want: Err(ImageError::Head { at: 16 }) },
    ToldImage { head: [2, 1, 4108], nodes: LONE, want: Err(ImageError::Length { want: 544, got: 288 }) },
    ToldImage { head: [1, 4, 4892], nodes: TWO_LEAVES, want: Err(ImageError::Stray { row: 16 }) },
];

#[test]
fn images_of_other_trees_are_refused(rt: HostRuntime) -> Result<(), Fail> {
    for told in &TOLD {
        let words = words_of(rt.alloc(), Width::Long, told.nodes)?;
        let bytes = image(rt.alloc(), told.head, &words)?;
        same(&rt, answer(rt.alloc(), &bytes), told.want, told.head[2]);
    }
    Ok(())
}

/// A node that no walk reaches, whatever its words.
#[test]
fn rows_that_are_not_reached_are_stray(rt: HostRuntime) -> Result<(), Fail> {
    let mut bytes = lone_image(rt.alloc(), 2)?;
    for _ in 0..32 {
        bytes.extend_from_slice(&9_u64.to_le_bytes())?;
    }
    let want = Err(ImageError::Stray { row: 17 });
    same(&rt, answer(rt.alloc(), &bytes), want, 17);
    Ok(())
}
