//! Shared trees that open with the map of an image, or of ranges.

ghost use Rattle.std.specs.Prelude.{◌≡◌, IfErr, IfOk, map};
ghost use Rattle.mt_c.specs.Building as building;
ghost use Rattle.mt_c.specs.SharedImages.{IsFirstOfImage, IsFirstOfRanges, LacksFirstOfImage, LacksFirstOfRanges, OpensUser, SharedBuilds};

use crate::building::{BuildWhy, built};
use crate::images::status_for;
use crate::opens::kind_of;
use crate::shared_maps::{boxed_with, shape_by};
use crate::told::{EINVAL, OutRange};
use crate::user::User;
use crate::user_handle::UserHandle;
use mt_image::read_image;
use mt_tree::Shape;
use std::alloc::Global;

/// The first user of a tree with the map of an image, with this many nodes, for this many users and calls; or the number that
/// says why there is none.
#[tactic(auto, using(crate::proofs::SharedImages::no_image, crate::proofs::SharedImages::of_image, crate::proofs::SharedImages::image_lacks))]
fn of_image(
    alloc: Global,
    bytes: &[u8],
    rows: u64,
    passes: u32,
    calls: u64,
) -> Result<Box<User>, u32>
    ensures user { IfOk result (λ whole. IsFirstOfImage bytes.now rows passes calls whole.value) }
    ensures lacks { IfErr result (LacksFirstOfImage bytes.now rows passes calls) }
{
    let (kind, mut src) = match read_image(alloc, bytes) {
        Ok(read) => read,
        Err(why) => return Err(status_for(why)),
    };
    let shape = shape_by!(kind, rows, passes, calls);
    match boxed_with(alloc, shape, &mut src) {
        Ok(whole) => Ok(whole),
        Err(status) => Err(status),
    }
}

/// The first user of a tree of the kind with this code that has exactly these ranges; or why there is none.
#[tactic(auto, using(crate::proofs::SharedImages::first_of_ranges))]
fn of_ranges(
    alloc: Global,
    code: u32,
    rows: u64,
    passes: u32,
    calls: u64,
    ranges: &[OutRange],
) -> Result<Box<User>, BuildWhy>
    ensures user { IfOk result (λ whole. IsFirstOfRanges code rows passes calls
        (map building.range_from_c ranges.now) whole.value) }
    ensures lacks { IfErr result (λ why. LacksFirstOfRanges code rows passes calls
        (map building.range_from_c ranges.now) why.status why.at) }
{
    let Some(kind) = kind_of(code) else {
        return Err(BuildWhy::alone(EINVAL));
    };
    let mut src = match built(alloc, kind, ranges) {
        Ok(rows) => rows,
        Err(why) => return Err(why),
    };
    let shape = shape_by!(kind, rows, passes, calls);
    match boxed_with(alloc, shape, &mut src) {
        Ok(whole) => Ok(whole),
        Err(status) => Err(BuildWhy::alone(status)),
    }
}

/// Opens a shared tree with the map of an image, with `rows` nodes, for `users` users at a time and `calls` calls, and its
/// first user.
#[tactic(auto, using(crate::proofs::SharedImages::opens_busy, crate::proofs::SharedImages::opens_made, crate::proofs::SharedImages::opens_none))]
#[unsafe(no_mangle)]
pub extern "C" fn maple_shared_open_image(
    alloc: Global,
    user: &mut UserHandle,
    bytes: &[u8],
    rows: u64,
    users: u32,
    calls: u64,
) -> u32
    ensures { OpensUser (IsFirstOfImage bytes.now rows users calls)
        (LacksFirstOfImage bytes.now rows users calls) user.old user.new result }
{
    if let Some(status) = user.unopened() {
        return status;
    }
    match of_image(alloc, bytes, rows, users, calls) {
        Ok(whole) => {
            user.put(whole);
            0
        }
        Err(status) => status,
    }
}

/// Opens a shared tree of the kind with this code that has exactly these ranges, with `rows` nodes, for `users` users at a time
/// and `calls` calls, and its first user. `at` is the place of the first range that is no range of the kind or does not begin
/// above the end of the one before, if there is one.
#[tactic(auto, using(crate::proofs::SharedImages::builds_busy, crate::proofs::SharedImages::builds_made, crate::proofs::SharedImages::builds_none))]
#[unsafe(no_mangle)]
pub extern "C" fn maple_shared_build(
    alloc: Global,
    user: &mut UserHandle,
    kind: u32,
    ranges: &[OutRange],
    rows: u64,
    users: u32,
    calls: u64,
    at: &mut u64,
) -> u32
    ensures { SharedBuilds kind rows users calls
        (map building.range_from_c ranges.now) user.old user.new result at.new }
{
    *at = 0;
    if let Some(status) = user.unopened() {
        return status;
    }
    match of_ranges(alloc, kind, rows, users, calls, ranges) {
        Ok(whole) => {
            user.put(whole);
            0
        }
        Err(why) => {
            *at = why.at;
            why.status
        }
    }
}
