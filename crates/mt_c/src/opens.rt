//! Opening and closing.

ghost use Rattle.std.specs.Prelude.{◌≡◌, ◌≢◌, ◌≤◌, None, IfOk, MatchOption};
ghost use Rattle.mt_base.specs.declared.kinds.Kind.{Kind};
ghost use Rattle.mt_image.specs.Bytes.{kind_code};
ghost use Rattle.mt_base.specs.Width.{most_rows};
ghost use Rattle.mt_c.specs.Opening.{IsNewEngine, Opened, OpenedNew};

use crate::handle::TreeHandle;
use crate::own_tree::OwnTree;
use crate::told::{EALREADY, EDOM, EINVAL, ENOMEM};
use mt_base::{Kind, MOST_ROWS, NoMemory};
use std::alloc::Global;

/// The kind of a code.
#[tactic(auto, using(crate::proofs::KindCodes::no_kind))]
pub fn kind_of(code: u32) -> Option<Kind>
    ensures { MatchOption result
        ((kind : Kind) → kind_code kind ≢ code) (λ kind. kind_code kind ≡ code) }
{
    match code {
        0 => Some(Kind::Range),
        1 => Some(Kind::Alloc),
        2 => Some(Kind::Range32),
        3 => Some(Kind::Alloc32),
        _ => None,
    }
}

/// The box of an empty tree of this kind, with `rows` nodes.
fn boxed(alloc: Global, kind: Kind, rows: u64) -> Result<Box<OwnTree>, NoMemory>
    requires { rows ≤ most_rows }
    ensures { IfOk result (λ whole. IsNewEngine kind rows whole.value.engine) }
{
    Ok(Box::new(alloc, OwnTree::new(alloc, kind, rows)?)?)
}

/// What an open of a closed tree makes, and the number that C gets.
fn opened(alloc: Global, code: u32, rows: u64) -> (TreeHandle, u32)
    ensures { OpenedNew code rows result.0.kept.value result.1 }
{
    let Some(kind) = kind_of(code) else {
        return (TreeHandle::closed(), EINVAL);
    };
    if rows > MOST_ROWS {
        return (TreeHandle::closed(), EDOM);
    }
    match boxed(alloc, kind, rows) {
        Ok(whole) => (TreeHandle::of(whole), 0),
        Err(NoMemory) => (TreeHandle::closed(), ENOMEM),
    }
}

/// Opens an empty tree of the kind with this code, with `rows` nodes, at most 65,504.
#[unsafe(no_mangle)]
pub extern "C" fn maple_open(alloc: Global, tree: &mut TreeHandle, kind: u32, rows: u64) -> u32
    ensures { Opened kind rows tree.old.kept.value tree.new.kept.value result }
{
    if let Some(whole) = tree.take(alloc) {
        tree.put(whole);
        return EALREADY;
    }
    let (made, status) = opened(alloc, kind, rows);
    tree.set(made);
    status
}

/// Closes a tree: its memory is given back. One that is closed stays so.
#[unsafe(no_mangle)]
pub extern "C" fn maple_close(alloc: Global, tree: &mut TreeHandle)
    ensures { tree.new.kept.value ≡ None }
{
    drop(tree.take(alloc));
}
