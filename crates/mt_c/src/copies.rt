//! Trees that open with a copy of nodes.

ghost use Rattle.std.specs.Prelude.{◌≡◌, ◌↔◌, ◌≤◌, false, IfOk, IfErr, IsTrue};
ghost use Rattle.mt_rows.specs.Memory.{sheet_in};
ghost use Rattle.mt_rows.specs.Publish.{IsLawfulOf, map_by};
ghost use Rattle.mt_rows.specs.Sheet.{OnlyReads};
ghost use Rattle.mt_tree.specs.Copies.{live_rows};
ghost use Rattle.mt_c.specs.Calls.{IsAsked};
ghost use Rattle.mt_c.specs.Copying.{Copied, FitsRows, IsCopyInRows, IsOpenedWith, LacksTree};

use crate::handle::TreeHandle;
use crate::own_tree::OwnTree;
use crate::told::{EALREADY, EBADF, EDOM, ENOMEM};
use core::mem::replace_with;
use mt_base::{Kind, MOST_ROWS, NoMemory, width_of};
use mt_engine::Engine;
use mt_free::RowBook;
use mt_rows::{PlainRows, Rows};
use mt_tree::copy_into;
use std::alloc::Global;
use std::marker::Brand;
use std::sync::ledger::Blank;

/// How many nodes a copy is to have, of a tree of which kind.
#[derive(Drop)]
struct Wanted {
    alloc: Global,
    kind: Kind,
    rows: u64,
}

/// An engine of this kind, with so many nodes, with a copy of well-formed nodes.
fn engine_with(wanted: &Wanted, src: &mut PlainRows) -> Result<Engine<PlainRows>, NoMemory>
    requires lawful { IsLawfulOf (sheet_in src.old).tree wanted.now.kind }
    requires fits { FitsRows (live_rows (sheet_in src.old).tree) wanted.now.rows }
    ensures engine { IfOk result
        (IsOpenedWith wanted.now.kind wanted.now.rows (map_by (sheet_in src.old).tree)) }
    ensures alone { IfOk result (λ engine. engine.sheet.shared ≡ false) }
    ensures rest { OnlyReads (sheet_in src.old) (sheet_in src.new) }
{
    let mut book = RowBook::new(wanted.alloc, wanted.rows)?;
    let mut dst = PlainRows::of_width(wanted.alloc, width_of(wanted.kind), wanted.rows)?;
    copy_into::<PlainRows, Brand>(Blank::new(1), src, &mut dst, &mut book);
    Ok(Engine::new(dst, book, wanted.kind))
}

/// A tree of this kind, with so many nodes, with a copy of well-formed nodes.
fn copied(wanted: &Wanted, src: &mut PlainRows) -> Result<Box<OwnTree>, NoMemory>
    requires lawful { IsLawfulOf (sheet_in src.old).tree wanted.now.kind }
    requires fits { FitsRows (live_rows (sheet_in src.old).tree) wanted.now.rows }
    ensures tree { IfOk result (λ whole. IsOpenedWith wanted.now.kind wanted.now.rows
        (map_by (sheet_in src.old).tree) whole.value.engine) }
    ensures rest { OnlyReads (sheet_in src.old) (sheet_in src.new) }
{
    let engine = engine_with(wanted, src)?;
    Ok(Box::new(wanted.alloc, OwnTree::begun(engine, wanted.kind))?)
}

/// How many nodes there are: as many as are used at least.
pub fn used_in(kind: Kind, rows: &PlainRows) -> u64
    requires { IsLawfulOf (sheet_in rows.now).tree kind }
    ensures size { result ≡ (sheet_in rows.now).tree.rows }
    ensures used { live_rows (sheet_in rows.now).tree ≤ result }
{
    // it is named for the proof
    let _kind = kind;
    rows.size()
}

/// Whether `rows` nodes are enough for those in use, and no more than a tree may have.
fn fits(used: u64, rows: u64) -> bool
    ensures { IsTrue result ↔ FitsRows used rows }
{
    (used..=MOST_ROWS).contains(&rows)
}

/// A copy with `rows` nodes if they fit; or the number that says why there is none.
pub fn fitted(
    alloc: Global,
    kind: Kind,
    src: &mut PlainRows,
    used: u64,
    rows: u64,
) -> Result<Box<OwnTree>, u32>
    requires lawful { IsLawfulOf (sheet_in src.old).tree kind }
    requires used { live_rows (sheet_in src.old).tree ≤ used }
    ensures fits { IfOk result (λ _. FitsRows used rows) }
    ensures tree { IfOk result
        (λ whole. IsOpenedWith kind rows (map_by (sheet_in src.old).tree) whole.value.engine) }
    ensures lacks { IfErr result (LacksTree used rows) }
    ensures rest { OnlyReads (sheet_in src.old) (sheet_in src.new) }
{
    if !fits(used, rows) {
        return Err(EDOM);
    }
    let wanted = Wanted { alloc, kind, rows };
    match copied(&wanted, src) {
        Ok(whole) => Ok(whole),
        Err(NoMemory) => Err(ENOMEM),
    }
}

/// A copy of a tree, which is only read.
#[tactic(auto, using(crate::proofs::Reading::put_together, crate::proofs::Copying::copy_in, crate::proofs::Copying::lacks_in))]
fn copy_of(
    engine: Engine<PlainRows>,
    wanted: Wanted,
) -> (Engine<PlainRows>, Result<Box<OwnTree>, u32>)
    requires { wanted.kind ≡ engine.kind }
    ensures rest { IsAsked engine result.0 }
    ensures copy { IfOk result.1 (λ whole. IsCopyInRows wanted.rows engine whole.value.engine) }
    ensures lacks { IfErr result.1 (LacksTree (live_rows engine.sheet.tree) wanted.rows) }
{
    let height = engine.height();
    let (mut src, book) = engine.parts();
    let made = fitted(
        wanted.alloc,
        wanted.kind,
        &mut src,
        book.live(),
        wanted.rows,
    );
    (Engine::of_height(src, book, wanted.kind, height), made)
}

/// A copy of an engine's tree, which is only read.
fn copy_in(engine: &mut Engine<PlainRows>, wanted: Wanted) -> Result<Box<OwnTree>, u32>
    requires { wanted.kind ≡ engine.old.kind }
    ensures rest { IsAsked engine.old engine.new }
    ensures copy { IfOk result (λ whole. IsCopyInRows wanted.rows engine.old whole.value.engine) }
    ensures lacks { IfErr result (LacksTree (live_rows engine.old.sheet.tree) wanted.rows) }
{
    replace_with(engine, wanted, copy_of)
}

impl OwnTree {
    /// A copy with `rows` nodes; or the number that says why there is none.
    fn copy(&mut self, alloc: Global, rows: u64) -> Result<Box<OwnTree>, u32>
        ensures rest { IsAsked self.old.engine self.new.engine }
        ensures copy { IfOk result (λ whole. IsCopyInRows rows self.old.engine whole.value.engine) }
        ensures lacks { IfErr result (LacksTree (live_rows self.old.engine.sheet.tree) rows) }
    {
        let wanted = Wanted {
            alloc,
            kind: self.kind,
            rows,
        };
        copy_in(&mut self.engine, wanted)
    }
}

/// Opens a tree with the map of another, with `rows` nodes: at least as many as that has in use, and at most 65,504.
#[tactic(auto, using(crate::proofs::Copying::copied_closed, crate::proofs::Copying::copied_busy))]
#[unsafe(no_mangle)]
pub extern "C" fn maple_copy(
    alloc: Global,
    tree: &mut TreeHandle,
    copy: &mut TreeHandle,
    rows: u64,
) -> u32
    ensures { Copied rows tree.old.kept.value
        tree.new.kept.value copy.old.kept.value copy.new.kept.value result }
{
    let Some(mut whole) = tree.take(alloc) else {
        return EBADF;
    };
    if let Some(there) = copy.take(alloc) {
        tree.put(whole);
        copy.put(there);
        return EALREADY;
    }
    let made = whole.copy(alloc, rows);
    tree.put(whole);
    match made {
        Ok(made) => {
            copy.put(made);
            0
        }
        Err(status) => status,
    }
}
