//! Opening, sharing and closing users of a shared tree.

ghost use Rattle.std.specs.Prelude.{◌≡◌, [], Err, None, Some, IfOk};
ghost use Rattle.mt_tree.specs.Shapes.{first_bad};
ghost use Rattle.mt_tree.specs.declared.shapes.Field.{Field};
ghost use Rattle.mt_tree.specs.declared.shapes.MakeError.TheVariants as make_error;
ghost use Rattle.mt_c.specs.Shared.{IsFirstUser, IsLeftClosed, SharedClosed, SharedLeft, SharedNew, SharedOpened, SharedWith};

use crate::opens::kind_of;
use crate::shared_maps::shape_by;
use crate::shared_told::field_status;
use crate::told::{EINVAL, ENOMEM};
use crate::user::User;
use crate::user_handle::UserHandle;
use mt_tree::{MakeError, Shape};
use std::alloc::Global;

/// The box of the first user of a new tree.
fn boxed(alloc: Global, shape: Shape) -> Result<Box<User>, MakeError>
    ensures bad { (field : Field)
        → result ≡ Err (make_error.BadShape field) → first_bad shape ≡ Some field }
    ensures short { result ≡ Err make_error.NoMemory → first_bad shape ≡ None }
    ensures first { IfOk result
        (λ whole. (first_bad shape ≡ None) × IsFirstUser shape [] whole.value) }
{
    let user = User::open(alloc, shape)?;
    match Box::new(alloc, user) {
        Ok(whole) => Ok(whole),
        Err(_) => Err(MakeError::NoMemory),
    }
}

/// What an open of a closed user makes, and the number that C gets.
#[tactic(auto, using(crate::proofs::Sharing::new_handle))]
fn opened(alloc: Global, code: u32, rows: u64, passes: u32, calls: u64) -> (UserHandle, u32)
    ensures new { SharedNew code rows passes calls result.0.kept.value result.1 }
    ensures left { IsLeftClosed result.0 }
{
    let Some(kind) = kind_of(code) else {
        return (UserHandle::closed(), EINVAL);
    };
    let shape = shape_by!(kind, rows, passes, calls);
    match boxed(alloc, shape) {
        Ok(whole) => (UserHandle::of(whole), 0),
        Err(MakeError::BadShape { field }) => (UserHandle::closed(), field_status(field)),
        Err(MakeError::NoMemory) => (UserHandle::closed(), ENOMEM),
    }
}

/// Opens an empty tree of the kind with this code, and its first user.
#[tactic(auto, using(crate::proofs::Sharing::opened_busy, crate::proofs::Sharing::opened_new))]
#[unsafe(no_mangle)]
pub extern "C" fn maple_shared_open(
    alloc: Global,
    user: &mut UserHandle,
    kind: u32,
    rows: u64,
    users: u32,
    calls: u64,
) -> u32
    ensures { SharedOpened kind rows users calls user.old user.new result }
{
    if let Some(status) = user.unopened() {
        return status;
    }
    let (made, status) = opened(alloc, kind, rows, users, calls);
    user.set(made);
    status
}

/// Opens another user of the same tree.
#[tactic(auto, using(crate::proofs::Sharing::with_other))]
#[unsafe(no_mangle)]
pub extern "C" fn maple_share(alloc: Global, user: &mut UserHandle, other: &mut UserHandle) -> u32
    ensures { SharedWith user.old user.new other.old other.new result }
{
    let Some(mut whole) = user.take(alloc) else {
        return user.refusal();
    };
    if let Some(status) = other.unopened() {
        user.put(whole);
        return status;
    }
    let made = whole.share_told(alloc);
    user.put(whole);
    match made {
        Ok(made) => {
            other.put(made);
            0
        }
        Err(status) => status,
    }
}

/// Closes a user, and leaves its place to users to come.
#[tactic(auto, using(crate::proofs::Sharing::left_closed, crate::proofs::Sharing::left_done, crate::proofs::Sharing::left_open))]
#[unsafe(no_mangle)]
pub extern "C" fn maple_leave(alloc: Global, user: &mut UserHandle) -> u32
    ensures { SharedLeft user.old user.new result }
{
    let Some(whole) = user.take(alloc) else {
        return user.refusal();
    };
    match User::leave(whole) {
        Ok(_) => {
            user.close();
            0
        }
        Err((mut whole, why)) => {
            let status = whole.refused(why);
            user.put(whole);
            status
        }
    }
}

/// Closes a user, whose place in the tree is then lost. The last one gives the tree's memory back.
#[tactic(auto, using(crate::proofs::Sharing::shut_none, crate::proofs::Sharing::shut_open))]
#[unsafe(no_mangle)]
pub extern "C" fn maple_shared_close(alloc: Global, user: &mut UserHandle)
    ensures { SharedClosed user.old user.new }
{
    if let Some(mut whole) = user.take(alloc) {
        // a section that is open would hold nodes back for good
        whole.rest();
        user.close();
    }
}
