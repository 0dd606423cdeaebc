//! Which place of a shared tree a user has.

ghost use Rattle.mt_c.specs.Places.{SharedPlaced};

use crate::user_handle::UserHandle;
use std::alloc::Global;

/// Returns the place that a user has, from 1: the number by which a call that lacks nodes names who holds them back.
#[tactic(auto, using(crate::proofs::Placing::placed_open, crate::proofs::Placing::placed_closed))]
#[unsafe(no_mangle)]
pub extern "C" fn maple_place(alloc: Global, user: &mut UserHandle, place: &mut u64) -> u32
    ensures { SharedPlaced user.old user.new result place.new }
{
    let Some(whole) = user.take(alloc) else {
        *place = 0;
        return user.refusal();
    };
    *place = whole.walker.pass.number() as u64 + 1;
    user.put(whole);
    0
}
