//! What a locked tree shows of its words.

ghost use Rattle.std.specs.Prelude.{IfOk};
ghost use Rattle.mt_tree.specs.Trees.{AreAll, IsPassOf};

use crate::asserts::same;
use crate::shared::{FILLED, Filled, fill, last_pass, listed, made, shape_of};
use mt_tree::{DupError, Form, Pass, Shape, Tree};
use std::alloc::Global;
use std::process::Abort;
use std::sync::Wait;
use std::test::Fail;

/// The form and the image of a tree, by one lock.
fn told(
    rt: &impl Wait,
    alloc: Global,
    tree: &Tree,
    pass: &mut Pass,
) -> Result<(Form, Vec<u8>), Fail>
    requires { IsPassOf tree.now pass.old }
    ensures { IsPassOf tree.now pass.new }
{
    let mut write = tree.lock(rt, pass);
    let form = write.check();
    let image = write.image(alloc);
    write.unlock();
    Ok((form, image?))
}

/// A copy of a tree that is locked, and its passes (handles).
fn copied(
    rt: &impl Wait,
    alloc: Global,
    tree: &Tree,
    pass: &mut Pass,
    shape: Shape,
) -> Result<(Tree, Vec<Pass>), DupError>
    requires { IsPassOf tree.now pass.old }
    ensures of { IsPassOf tree.now pass.new }
    ensures copy { IfOk result (λ r. AreAll r.0 r.1.items) }
{
    let mut write = tree.lock(rt, pass);
    let copied = write.dup(alloc, shape);
    write.unlock();
    copied
}

/// It holds these ranges, or none is made for lack of nodes.
fn expect_copied<R: Abort + Wait>(
    rt: &R,
    alloc: Global,
    tree: &Tree,
    pass: &mut Pass,
    filled: Filled,
    live: u64,
) -> Result<(), Fail>
    requires { IsPassOf tree.now pass.old }
{
    let ranges = listed(rt, alloc, tree, pass)?;
    match copied(rt, alloc, tree, pass, shape_of(filled.kind, 4, 1, 9)) {
        Ok(_) => return Err("a copy was made".into()),
        Err(why) => same(rt, why, DupError::NoNodes { rows: 4, live }, "four rows"),
    }
    let Ok((copy, mut others)) = copied(rt, alloc, tree, pass, shape_of(filled.kind, 4096, 1, 9))
    else {
        return Err("no copy was made".into());
    };
    let mut other = last_pass(&copy, &mut others)?;
    let same_ranges = listed(rt, alloc, &copy, &mut other)?;
    same(rt, same_ranges.as_slice(), ranges.as_slice(), "the copy");
    Ok(())
}

/// A tree that is locked shows the same words as one that is not.
fn expect_told<R: Abort + Wait>(rt: &R, alloc: Global, filled: Filled) -> Result<(), Fail> {
    let (tree, mut passes) = made(alloc, shape_of(filled.kind, 4096, 1, 1000))?;
    let mut pass = last_pass(&tree, &mut passes)?;
    fill(rt, &tree, &mut pass);
    let (form, image) = told(rt, alloc, &tree, &mut pass)?;
    let (same_form, _look) = tree.check(rt, &mut pass);
    same(rt, same_form, form, "the form");
    let (same_image, _look) = tree.image(rt, alloc, &mut pass);
    let same_image = same_image?;
    same(rt, same_image.as_slice(), image.as_slice(), "the image");
    expect_copied(rt, alloc, &tree, &mut pass, filled, form.rows)
}

#[test]
fn a_locked_tree_tells_of_its_words(rt: HostRuntime) -> Result<(), Fail> {
    for filled in FILLED {
        expect_told(&rt, rt.alloc(), *filled)?;
    }
    Ok(())
}
