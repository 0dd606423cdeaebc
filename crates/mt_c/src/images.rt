//! Images of trees, written and opened.

ghost use Rattle.std.specs.Prelude.{◌≡◌, ◌≢◌, ◌⊎◌, IfOk, IfErr};
ghost use Rattle.mt_image.specs.Images.{IsImageOf};
ghost use Rattle.mt_image.specs.declared.errors.ImageError.TheVariants as errors;
ghost use Rattle.mt_c.specs.Calls.{IsAsked};
ghost use Rattle.mt_c.specs.Copying.{OpensHandle};
ghost use Rattle.mt_c.specs.Images.{Imaged, IsOfImage, LacksImage};

use crate::copies::{fitted, used_in};
use crate::handle::TreeHandle;
use crate::own_tree::OwnTree;
use crate::replay::put;
use crate::told::{EALREADY, EBADF, EBADMSG, ENOMEM, ERANGE};
use core::mem::replace_with;
use mt_base::{Kind, NoMemory};
use mt_engine::Engine;
use mt_image::{ImageError, read_image};
use mt_rows::PlainRows;
use std::alloc::Global;

/// An image of a tree, which is only read.
fn image_of(
    engine: Engine<PlainRows>,
    by: (Global, Kind),
) -> (Engine<PlainRows>, Result<Vec<u8>, NoMemory>)
    requires { by.1 ≡ engine.kind }
    ensures rest { IsAsked engine result.0 }
    ensures image { IfOk result.1 (λ bytes. IsImageOf engine.kind engine.sheet.tree bytes.items) }
{
    mt_tree::image_of::<PlainRows>(engine, by)
}

/// As `image_of`, of an engine that stays in its place.
fn image_in(engine: &mut Engine<PlainRows>, by: (Global, Kind)) -> Result<Vec<u8>, NoMemory>
    requires { by.1 ≡ engine.old.kind }
    ensures rest { IsAsked engine.old engine.new }
    ensures image { IfOk result
        (λ bytes. IsImageOf engine.old.kind engine.old.sheet.tree bytes.items) }
{
    replace_with(engine, by, image_of)
}

impl OwnTree {
    /// An image of its words.
    fn image(&mut self, alloc: Global) -> Result<Vec<u8>, NoMemory>
        ensures rest { IsAsked self.old.engine self.new.engine }
        ensures image { IfOk result
            (λ bytes. IsImageOf self.old.engine.kind self.old.engine.sheet.tree bytes.items) }
    {
        image_in(&mut self.engine, (alloc, self.kind))
    }
}

/// The number for bytes of which no image is read.
pub fn status_for(why: ImageError) -> u32
    ensures { ((result ≡ 74) × (why ≢ errors.NoMemory)) ⊎ (result ≡ 12) }
{
    match why {
        ImageError::NoMemory => ENOMEM,
        ImageError::Length { .. }
        | ImageError::Head { .. }
        | ImageError::Broken { .. }
        | ImageError::Stray { .. } => EBADMSG,
    }
}

/// A tree with the map of an image, with `rows` nodes; or the number that says why there is none.
#[tactic(auto, using(crate::proofs::ImagesOpened::no_image, crate::proofs::ImagesOpened::of_image_in, crate::proofs::ImagesOpened::image_lacks))]
fn of_image(alloc: Global, bytes: &[u8], rows: u64) -> Result<Box<OwnTree>, u32>
    ensures tree { IfOk result (λ whole. IsOfImage bytes.now rows whole.value.engine) }
    ensures lacks { IfErr result (LacksImage bytes.now rows) }
{
    let (kind, mut src) = match read_image(alloc, bytes) {
        Ok(read) => read,
        Err(why) => return Err(status_for(why)),
    };
    let used = used_in(kind, &src);
    fitted(alloc, kind, &mut src, used, rows)
}

/// Writes the image of a tree to `out`. `used` is how many bytes that has, even if `out` is too short for it.
#[tactic(auto, using(crate::proofs::ImagesOpened::imaged_so))]
#[unsafe(no_mangle)]
pub extern "C" fn maple_image(
    alloc: Global,
    tree: &mut TreeHandle,
    out: &mut [u8],
    used: &mut usize,
) -> u32
    ensures { Imaged tree.old.kept.value tree.new.kept.value out.old out.new used.new result }
{
    *used = 0;
    let Some(mut whole) = tree.take(alloc) else {
        return EBADF;
    };
    let image = whole.image(alloc);
    tree.put(whole);
    match image {
        Ok(bytes) => {
            *used = bytes.len();
            if put(&bytes, out) { 0 } else { ERANGE }
        }
        Err(NoMemory) => ENOMEM,
    }
}

/// Opens a tree with the map of an image, with `rows` nodes: at least as many as the image has, and at most 65,504.
#[tactic(auto, using(crate::proofs::Copying::image_busy, crate::proofs::Copying::image_opened, crate::proofs::Copying::image_none))]
#[unsafe(no_mangle)]
pub extern "C" fn maple_open_image(
    alloc: Global,
    tree: &mut TreeHandle,
    bytes: &[u8],
    rows: u64,
) -> u32
    ensures { OpensHandle (IsOfImage bytes.now rows)
        (LacksImage bytes.now rows) tree.old.kept.value tree.new.kept.value result }
{
    if let Some(whole) = tree.take(alloc) {
        tree.put(whole);
        return EALREADY;
    }
    match of_image(alloc, bytes, rows) {
        Ok(whole) => {
            tree.put(whole);
            0
        }
        Err(status) => status,
    }
}
