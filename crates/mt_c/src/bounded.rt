//! Steps of walks that look no further than an index.

ghost use Rattle.std.specs.Prelude.{◌≡◌, None};
ghost use Rattle.mt_tree.specs.Trees.{IsPassOf};
ghost use Rattle.mt_c.specs.Bounded as defined;
ghost use Rattle.mt_list.specs.Places as places;
ghost use Rattle.mt_c.specs.Bounded.{SharedSteppedTo, SteppedTo, StepsTo};
ghost use Rattle.mt_c.specs.Users.{common_of, user_tree};

use crate::handle::TreeHandle;
use crate::shared_told::{CallWindow, answer_told, seen};
use crate::steps::{OutWalk, tell};
use crate::told::{EBADF, OutRange, no_range};
use crate::user::User;
use crate::user_handle::UserHandle;
use crate::walker::Walker;
use mt_base::{Range, place_behind};
use mt_tree::{Read, Tree};
use std::alloc::Global;

/// The range, where it begins at `max` or below.
fn up_to(found: Option<Range>, max: u64) -> Option<Range>
    ensures { result ≡ places.up_to max found }
{
    match found {
        Some(range) if range.first <= max => Some(range),
        _ => None,
    }
}

/// The index, where it is `max` or below.
fn place_to(index: Option<u64>, max: u64) -> Option<u64>
    ensures { result ≡ defined.place_to max index }
{
    match index {
        Some(index) if index <= max => Some(index),
        _ => None,
    }
}

impl Walker {
    /// One step of a walk, of which a range that begins above `max` is not returned. If the walk has ended, no section is open.
    #[tactic(auto, using(crate::proofs::Bounds::steps_on, crate::proofs::Bounds::steps_off))]
    fn step_to(&mut self, tree: &Tree, place: Option<u64>, max: u64) -> Read<Option<Range>>
        requires { IsPassOf tree.now self.old.pass }
        ensures of { IsPassOf tree.now self.new.pass }
        ensures stepped { StepsTo tree.now self.old max
            (defined.place_to max place) result self.new }
    {
        let found = self.step_from(tree, place_to(place, max));
        let value = up_to(found.value, max);
        let Some(_at) = place_behind(value, max) else {
            self.rest(tree);
            return Read {
                lo: found.lo,
                hi: found.hi,
                value,
            };
        };
        Read {
            lo: found.lo,
            hi: found.hi,
            value,
        }
    }
}

impl User {
    /// As `step_to` of its walker.
    fn step_to(&mut self, place: Option<u64>, max: u64) -> Read<Option<Range>>
        ensures common { common_of self.new ≡ common_of self.old }
        ensures chair { self.new.chair ≡ self.old.chair }
        ensures receipts { self.new.receipts ≡ self.old.receipts }
        ensures stepped { StepsTo (user_tree self.old) self.old.walker max
            (defined.place_to max place) result self.new.walker }
    {
        self.walker.step_to(&self.common.tree, place, max)
    }
}

/// Returns the next range of a walk, if it begins at `max` or below. The walk goes on after it.
#[tactic(auto, using(crate::proofs::Bounds::stepped_open, crate::proofs::Bounds::stepped_closed))]
#[unsafe(no_mangle)]
pub extern "C" fn maple_step_to(
    alloc: Global,
    tree: &mut TreeHandle,
    walk: &mut OutWalk,
    max: u64,
    range: &mut OutRange,
) -> u32
    ensures { SteppedTo max
        walk.old tree.old.kept.value tree.new.kept.value result range.new walk.new }
{
    let Some(mut whole) = tree.take(alloc) else {
        *range = no_range();
        return EBADF;
    };
    let place = place_to(walk.index(), max);
    let found = whole.step(place);
    let behind = whole.behind();
    tree.put(whole);
    let value = up_to(found, max);
    let goes = place_to(behind, max);
    tell(value, goes, range, walk)
}

/// Tells the next range of a walk, where it begins at `max` or below. Where the walk has ended the user keeps no leaf.
#[tactic(auto, using(crate::proofs::Bounds::shared_open, crate::proofs::Bounds::shared_closed))]
#[unsafe(no_mangle)]
pub extern "C" fn maple_shared_step_to(
    alloc: Global,
    user: &mut UserHandle,
    walk: &mut OutWalk,
    max: u64,
    read: &mut CallWindow,
) -> u32
    ensures { SharedSteppedTo max walk.old walk.new user.old user.new result read.new }
{
    let Some(mut whole) = user.take(alloc) else {
        *read = seen(0, 0, no_range());
        return user.refusal();
    };
    let found = whole.step_to(walk.index(), max);
    user.put(whole);
    *walk = OutWalk::from_index(place_behind(found.value, max));
    let (window, status) = answer_told(Ok(found));
    *read = window;
    status
}
