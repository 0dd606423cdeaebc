//! A walk that goes on while ranges are stored.

ghost use Rattle.mt_base.specs.Blanks.{IsBlankOf};
ghost use Rattle.mt_tree.specs.Trees.{IsPassOf};

use crate::asserts::{KINDS, same};
use crate::readers::{read, store_range};
use crate::shared::{last_pass, made, shape_of};
use mt_base::{Kind, Reply, Steps};
use mt_tree::{Pass, Tree};
use std::alloc::Global;
use std::marker::Brand;
use std::process::Abort;
use std::sync::Wait;
use std::sync::ledger::{Blank, Ledger};
use std::test::Fail;

/// A walk of one handle, between whose steps another handle stores.
fn walk<R: Wait + Abort, L: Ledger>(
    rt: &R,
    blank: Blank,
    tree: &Tree,
    writer: &mut Pass,
    reader: &mut Pass,
)
    requires blank { IsBlankOf L.name L.parts blank.name blank.parts }
    requires passes { IsPassOf tree.now writer.old × IsPassOf tree.now reader.old }
{
    let mut steps = Steps::<L>::new(blank);
    store_range(rt, tree, writer, 0, 9, 1, 1, Reply::Ok);
    store_range(rt, tree, writer, 20, 29, 5, 2, Reply::Ok);
    let mut cursor = tree.cursor(reader, 0, u64::MAX);
    same(rt, cursor.step(&mut steps), read(2, Some((0, 9, 1))), 2);
    store_range(rt, tree, writer, 12, 12, 3, 3, Reply::Ok);
    same(rt, cursor.step(&mut steps), read(3, Some((12, 12, 3))), 3);
    store_range(rt, tree, writer, 20, 29, 4, 4, Reply::Over(5));
    same(rt, cursor.step(&mut steps), read(4, Some((20, 29, 4))), 4);
    same(rt, cursor.step(&mut steps), read(4, None), 4);
    cursor.close(&mut steps);
}

/// A walk over a tree of this kind, whose bound is above the greatest index of a narrow one.
fn walk_over<R: Wait + Abort>(rt: &R, alloc: Global, kind: Kind) -> Result<(), Fail> {
    let (tree, mut passes) = made(alloc, shape_of(kind, 64, 2, 9))?;
    let mut reader = last_pass(&tree, &mut passes)?;
    let mut writer = last_pass(&tree, &mut passes)?;
    walk::<R, Brand>(rt, Blank::new(1), &tree, &mut writer, &mut reader);
    Ok(())
}

#[test]
fn a_walk_finds_what_is_stored_ahead_of_it(rt: HostRuntime) -> Result<(), Fail> {
    for &kind in KINDS {
        walk_over(&rt, rt.alloc(), kind)?;
    }
    Ok(())
}

/// The greatest index of a wide tree, and of a narrow one.
const WIDE: u64 = u64::MAX;

const NARROW: u64 = u32::MAX as u64;

/// Walks over a tree of this kind that holds its greatest index alone: that index, the walk's bounds, and what its first step
/// finds.
type End = (Kind, u64, u64, u64, Option<(u64, u64, u64)>);

const ENDS: &[End] = &[
    (Kind::Range, WIDE, 0, WIDE, Some((WIDE, WIDE, 5))),
    (Kind::Alloc, WIDE, WIDE, WIDE, Some((WIDE, WIDE, 5))),
    (Kind::Range32, NARROW, 0, NARROW, Some((NARROW, NARROW, 5))),
    (
        Kind::Range32,
        NARROW,
        0,
        NARROW + 1,
        Some((NARROW, NARROW, 5)),
    ),
    (Kind::Range32, NARROW, NARROW + 1, WIDE, None),
    (
        Kind::Alloc32,
        NARROW,
        NARROW,
        WIDE,
        Some((NARROW, NARROW, 5)),
    ),
    (Kind::Alloc32, NARROW, WIDE, WIDE, None),
];

/// A walk to the greatest index of a tree. It has ended then, and finds nothing that is stored later.
fn walk_to_the_end<R: Wait + Abort, L: Ledger>(
    rt: &R,
    blank: Blank,
    tree: &Tree,
    writer: &mut Pass,
    reader: &mut Pass,
    end: End,
)
    requires blank { IsBlankOf L.name L.parts blank.name blank.parts }
    requires passes { IsPassOf tree.now writer.old × IsPassOf tree.now reader.old }
{
    let (_, top, from, max, found) = end;
    let mut steps = Steps::<L>::new(blank);
    store_range(rt, tree, writer, top, top, 5, 1, Reply::Ok);
    let mut cursor = tree.cursor(reader, from, max);
    same(rt, cursor.step(&mut steps), read(1, found), 1);
    same(rt, cursor.step(&mut steps), read(1, None), 1);
    store_range(rt, tree, writer, top, top, 7, 2, Reply::Over(5));
    same(rt, cursor.step(&mut steps), read(2, None), 2);
    cursor.close(&mut steps);
}

/// A walk to the greatest index of a tree of this kind.
fn end_walk<R: Wait + Abort>(rt: &R, alloc: Global, end: End) -> Result<(), Fail> {
    let (tree, mut passes) = made(alloc, shape_of(end.0, 64, 2, 9))?;
    let mut reader = last_pass(&tree, &mut passes)?;
    let mut writer = last_pass(&tree, &mut passes)?;
    walk_to_the_end::<R, Brand>(rt, Blank::new(1), &tree, &mut writer, &mut reader, end);
    Ok(())
}

#[test]
fn a_walk_ends_at_the_greatest_index(rt: HostRuntime) -> Result<(), Fail> {
    for &end in ENDS {
        end_walk(&rt, rt.alloc(), end)?;
    }
    Ok(())
}
