//! Shared trees that open with a map.

ghost use Rattle.std.specs.Prelude.{◌≡◌, ◌≢◌, Err, IfErr, IfOk};
ghost use Rattle.mt_rows.specs.Memory.{sheet_in};
ghost use Rattle.mt_rows.specs.Publish.{IsLawfulOf, map_by};
ghost use Rattle.mt_rows.specs.Sheet.{OnlyReads};
ghost use Rattle.mt_c.specs.Calls.{IsAsked};
ghost use Rattle.mt_c.specs.SharedMaps as defined;
ghost use Rattle.mt_c.specs.SharedMaps.{IsFirstWith, LacksWith, SharedOfTree, shape_for};

use crate::handle::TreeHandle;
use crate::own_tree::OwnTree;
use crate::shared_told::field_status;
use crate::told::{EBADF, EDOM, EINVAL, ENOMEM};
use crate::user::User;
use crate::user_handle::UserHandle;
use crate::user_opens::first;
use core::mem::replace_with;
use mt_engine::Engine;
use mt_rows::PlainRows;
use mt_tree::{DupError, Shape, Tree};
use std::alloc::Global;

/// A shape of these parts, in this order.
macro_rules! shape_by {
    ($kind:expr, $rows:expr, $passes:expr, $calls:expr) => {
        Shape {
            kind: $kind,
            rows: $rows,
            passes: $passes,
            calls: $calls,
        }
    };
}

pub(crate) use shape_by;

/// The number that C gets where no tree is made.
pub fn status_for(why: DupError) -> u32
    ensures { result ≡ defined.dup_status why }
{
    match why {
        DupError::BadShape { field } => field_status(field),
        DupError::Invalid => EINVAL,
        DupError::NoNodes { .. } => EDOM,
        DupError::NoMemory => ENOMEM,
    }
}

/// The first user of a tree of this shape that opens with the map of these nodes; or the number that says why there is none.
#[tactic(auto, using(crate::proofs::SharedMaps::lacks_with, crate::proofs::SharedMaps::lacks_memory, crate::proofs::SharedMaps::good_shape))]
fn first_with(alloc: Global, shape: Shape, rows: &mut PlainRows) -> Result<User, u32>
    requires { IsLawfulOf (sheet_in rows.old).tree shape.kind }
    ensures user { IfOk result (IsFirstWith shape (map_by (sheet_in rows.old).tree)) }
    ensures lacks { IfErr result (LacksWith shape (sheet_in rows.old).tree) }
    ensures rest { OnlyReads (sheet_in rows.old) (sheet_in rows.new) }
{
    let (tree, passes) = match Tree::of_rows(alloc, shape, shape.kind, rows) {
        Ok(made) => made,
        Err(why) => return Err(status_for(why)),
    };
    match first(alloc, tree, passes) {
        Ok(user) => Ok(user),
        Err(_) => Err(ENOMEM),
    }
}

/// What `first_with` makes, in a box.
#[tactic(auto, using(crate::proofs::SharedMaps::lacks_memory))]
pub fn boxed_with(alloc: Global, shape: Shape, rows: &mut PlainRows) -> Result<Box<User>, u32>
    requires { IsLawfulOf (sheet_in rows.old).tree shape.kind }
    ensures user { IfOk result
        (λ whole. IsFirstWith shape (map_by (sheet_in rows.old).tree) whole.value) }
    ensures lacks { IfErr result (LacksWith shape (sheet_in rows.old).tree) }
    ensures rest { OnlyReads (sheet_in rows.old) (sheet_in rows.new) }
{
    let user = match first_with(alloc, shape, rows) {
        Ok(user) => user,
        Err(status) => return Err(status),
    };
    match Box::new(alloc, user) {
        Ok(whole) => Ok(whole),
        Err(_) => Err(ENOMEM),
    }
}

/// As `boxed_with`, with the map of an engine's tree, which is only read.
#[tactic(auto, using(crate::proofs::Reading::put_together))]
fn first_of(
    engine: Engine<PlainRows>,
    by: (Global, Shape),
) -> (Engine<PlainRows>, Result<Box<User>, u32>)
    requires { by.1.kind ≡ engine.kind }
    ensures rest { IsAsked engine result.0 }
    ensures user { IfOk result.1
        (λ whole. IsFirstWith by.1 (map_by engine.sheet.tree) whole.value) }
    ensures lacks { IfErr result.1 (LacksWith by.1 engine.sheet.tree) }
{
    let (alloc, shape) = by;
    let height = engine.height();
    let (mut rows, book) = engine.parts();
    let made = boxed_with(alloc, shape, &mut rows);
    (Engine::of_height(rows, book, shape.kind, height), made)
}

/// As `first_of`, of an engine that stays in its place.
fn first_in(engine: &mut Engine<PlainRows>, by: (Global, Shape)) -> Result<Box<User>, u32>
    requires { by.1.kind ≡ engine.old.kind }
    ensures rest { IsAsked engine.old engine.new }
    ensures user { IfOk result
        (λ whole. IsFirstWith by.1 (map_by engine.old.sheet.tree) whole.value) }
    ensures lacks { IfErr result (LacksWith by.1 engine.old.sheet.tree) }
{
    replace_with(engine, by, first_of)
}

impl OwnTree {
    /// The first user of a shared tree with its map, with this many nodes, for this many users and calls; or the number that
    /// says why there is none.
    fn share(&mut self, alloc: Global, rows: u64, passes: u32, calls: u64) -> Result<Box<User>, u32>
        ensures rest { IsAsked self.old.engine self.new.engine }
        ensures user { IfOk result
            (λ whole. IsFirstWith (shape_for self.old.engine.kind rows passes calls)
            (map_by self.old.engine.sheet.tree) whole.value) }
        ensures lacks { IfErr result (LacksWith
            (shape_for self.old.engine.kind rows passes calls) self.old.engine.sheet.tree) }
    {
        let shape = shape_by!(self.kind, rows, passes, calls);
        first_in(&mut self.engine, (alloc, shape))
    }
}

/// Opens a shared tree with the map of a tree of one thread, with `rows` nodes, for `users` users at a time and `calls` calls,
/// and its first user.
#[tactic(auto, using(crate::proofs::SharedMaps::of_tree))]
#[unsafe(no_mangle)]
pub extern "C" fn maple_shared_of_tree(
    alloc: Global,
    tree: &mut TreeHandle,
    user: &mut UserHandle,
    rows: u64,
    users: u32,
    calls: u64,
) -> u32
    ensures { SharedOfTree
        rows users calls tree.old.kept.value tree.new.kept.value user.old user.new result }
{
    let Some(mut whole) = tree.take(alloc) else {
        return EBADF;
    };
    if let Some(status) = user.unopened() {
        tree.put(whole);
        return status;
    }
    let made = whole.share(alloc, rows, users, calls);
    tree.put(whole);
    match made {
        Ok(made) => {
            user.put(made);
            0
        }
        Err(status) => status,
    }
}
