//! The nodes that an open section of a cursor holds.

ghost use Rattle.mt_base.specs.Blanks.{IsBlankOf};
ghost use Rattle.mt_tree.specs.Trees.{IsPassOf};

use crate::asserts::{KINDS, same};
use crate::readers::{read, store, store_range};
use crate::shared::{last_pass, made, shape_of};
use mt_base::{Holder, Kind, Reply, Shortage, Steps};
use mt_tree::{Pass, Read, Tree};
use std::alloc::Global;
use std::marker::Brand;
use std::process::Abort;
use std::sync::Wait;
use std::sync::ledger::{Blank, Ledger};
use std::test::Fail;

/// Too few of eight nodes are free: four are held by the section that this handle opened at this epoch.
fn held_by(pass: u32, epoch: u64) -> Shortage {
    Shortage {
        need: 4,
        free: 3,
        live: 1,
        held: 4,
        by: Some(Holder { pass, epoch }),
    }
}

/// Whether the tree is ready for a store that needs nodes.
fn prepared(rt: &impl Wait, tree: &Tree, pass: &mut Pass) -> Result<(), Shortage>
    requires { IsPassOf tree.now pass.old }
    ensures { IsPassOf tree.now pass.new }
{
    let mut write = tree.lock(rt, pass);
    let ready = write.preallocate();
    write.unlock();
    ready
}

/// A tree of eight nodes is filled beside a cursor of handle 1 that has stepped once, until a store lacks nodes.
fn fill<R: Wait + Abort>(rt: &R, tree: &Tree, writer: &mut Pass)
    requires { IsPassOf tree.now writer.old }
    ensures { IsPassOf tree.now writer.new }
{
    store(rt, tree, writer, 20, 2, Reply::Ok);
    store(rt, tree, writer, 30, 3, Reply::Ok);
    store(rt, tree, writer, 40, 4, Reply::Ok);
    store(rt, tree, writer, 50, 5, Reply::Ok);
    store(rt, tree, writer, 60, 6, Reply::NoNodes(held_by(1, 1)));
}

/// The first step of a walk, whose cursor is dropped and not closed.
fn step_once<R: Abort, L: Ledger>(rt: &R, tree: &Tree, pass: &mut Pass, steps: &mut Steps<L>)
    requires { IsPassOf tree.now pass.old }
    ensures { IsPassOf tree.now pass.new }
{
    let mut cursor = tree.cursor(pass, 0, u64::MAX);
    same(rt, cursor.step(steps), read(1, Some((10, 10, 5))), 1);
}

/// A cursor that is dropped and not closed holds the nodes until its handle reads again.
fn drop_the_cursor<R: Wait + Abort, L: Ledger>(
    rt: &R,
    tree: &Tree,
    writer: &mut Pass,
    reader: &mut Pass,
    steps: &mut Steps<L>,
)
    requires { IsPassOf tree.now writer.old × IsPassOf tree.now reader.old }
{
    step_once(rt, tree, reader, steps);
    fill(rt, tree, writer);
    let (lo, hi, value) = (6, 6, Some(5));
    let loaded = tree.load(reader, 10, steps);
    same(rt, loaded, Read { lo, hi, value }, "the load");
    store(rt, tree, writer, 60, 7, Reply::Ok);
}

/// While the nodes are held, an entry is changed in its place, and the tree is not ready for more: the first of the two comes
/// first or second.
fn change_the_entry<R: Wait + Abort>(rt: &R, tree: &Tree, writer: &mut Pass, store_first: bool)
    requires { IsPassOf tree.now writer.old }
{
    if store_first {
        store_range(rt, tree, writer, 10, 10, 7, 7, Reply::Over(5));
    }
    same(rt, prepared(rt, tree, writer), Err(held_by(1, 1)), "more");
    if !store_first {
        store_range(rt, tree, writer, 10, 10, 7, 7, Reply::Over(5));
    }
}

/// What becomes of a cursor that holds the nodes: it is closed, or dropped, or kept while an entry is changed, before the tree
/// is asked for more or after that.
#[derive(Clone, Copy, PartialEq)]
enum Until {
    Closed,
    Dropped,
    StoredFirst,
    StoredLast,
}

/// A cursor holds the nodes until it is closed, or until its handle reads again.
fn hold<R: Wait + Abort, L: Ledger>(
    rt: &R,
    blank: Blank,
    tree: &Tree,
    writer: &mut Pass,
    reader: &mut Pass,
    held: Until,
)
    requires blank { IsBlankOf L.name L.parts blank.name blank.parts }
    requires passes { IsPassOf tree.now writer.old × IsPassOf tree.now reader.old }
{
    let mut steps = Steps::<L>::new(blank);
    store_range(rt, tree, writer, 10, 10, 5, 1, Reply::Ok);
    if held == Until::Dropped {
        drop_the_cursor(rt, tree, writer, reader, &mut steps);
        return;
    }
    let mut cursor = tree.cursor(reader, 0, u64::MAX);
    same(rt, cursor.step(&mut steps), read(1, Some((10, 10, 5))), 1);
    fill(rt, tree, writer);
    if held == Until::Closed {
        cursor.close(&mut steps);
        store(rt, tree, writer, 60, 7, Reply::Ok);
        return;
    }
    change_the_entry(rt, tree, writer, held == Until::StoredFirst);
    cursor.close(&mut steps);
}

/// Two cursors, of which the older one holds the nodes, and then the younger.
fn close_the_older_cursor<R: Wait + Abort, L: Ledger>(
    rt: &R,
    blank: Blank,
    tree: &Tree,
    writer: &mut Pass,
    younger: &mut Pass,
    older: &mut Pass,
)
    requires blank { IsBlankOf L.name L.parts blank.name blank.parts }
    requires passes { IsPassOf tree.now writer.old × IsPassOf tree.now younger.old × IsPassOf tree.now older.old }
{
    let mut steps = Steps::<L>::new(blank);
    store(rt, tree, writer, 10, 1, Reply::Ok);
    let mut two = tree.cursor(older, 0, u64::MAX);
    same(rt, two.step(&mut steps), read(1, Some((10, 10, 9))), 1);
    store(rt, tree, writer, 20, 2, Reply::Ok);
    let mut one = tree.cursor(younger, 0, u64::MAX);
    same(rt, one.step(&mut steps), read(2, Some((10, 10, 9))), 2);
    store(rt, tree, writer, 30, 3, Reply::Ok);
    store(rt, tree, writer, 40, 4, Reply::Ok);
    store(rt, tree, writer, 50, 5, Reply::Ok);
    store(rt, tree, writer, 60, 6, Reply::NoNodes(held_by(2, 1)));
    two.close(&mut steps);
    store(rt, tree, writer, 60, 7, Reply::Ok);
    store(rt, tree, writer, 70, 8, Reply::NoNodes(held_by(1, 2)));
    one.close(&mut steps);
}

/// The nodes of a tree of this kind are held by one cursor.
fn hold_by_one<R: Wait + Abort>(
    rt: &R,
    alloc: Global,
    kind: Kind,
    held: Until,
) -> Result<(), Fail> {
    let (tree, mut passes) = made(alloc, shape_of(kind, 8, 2, 9))?;
    let mut reader = last_pass(&tree, &mut passes)?;
    let mut writer = last_pass(&tree, &mut passes)?;
    hold::<R, Brand>(rt, Blank::new(1), &tree, &mut writer, &mut reader, held);
    Ok(())
}

#[test]
fn rows_are_held_by_an_open_section(rt: HostRuntime) -> Result<(), Fail> {
    for &kind in KINDS {
        hold_by_one(&rt, rt.alloc(), kind, Until::Closed)?;
        hold_by_one(&rt, rt.alloc(), kind, Until::Dropped)?;
        hold_by_one(&rt, rt.alloc(), kind, Until::StoredFirst)?;
        hold_by_one(&rt, rt.alloc(), kind, Until::StoredLast)?;
    }
    Ok(())
}

/// The nodes of a tree of this kind are held by two cursors.
fn hold_by_two<R: Wait + Abort>(rt: &R, alloc: Global, kind: Kind) -> Result<(), Fail> {
    let (tree, mut passes) = made(alloc, shape_of(kind, 8, 3, 9))?;
    let mut older = last_pass(&tree, &mut passes)?;
    let mut younger = last_pass(&tree, &mut passes)?;
    let mut writer = last_pass(&tree, &mut passes)?;
    close_the_older_cursor::<R, Brand>(
        rt,
        Blank::new(1),
        &tree,
        &mut writer,
        &mut younger,
        &mut older,
    );
    Ok(())
}

#[test]
fn rows_are_held_by_the_oldest_open_section(rt: HostRuntime) -> Result<(), Fail> {
    for &kind in KINDS {
        hold_by_two(&rt, rt.alloc(), kind)?;
    }
    Ok(())
}
