//! Images of shared trees, and trees that are made of them.

ghost use Rattle.mt_rows.specs.Memory.{sheet_in};
ghost use Rattle.mt_rows.specs.Publish.{IsLawfulOf};

use crate::asserts::same;
use crate::shared::{FILLED, Filled, fill, last_pass, listed, made, shape_of};
use mt_image::read_image;
use mt_rows::PlainRows;
use mt_tree::{DupError, Field, Kind, Tree};
use std::alloc::Global;
use std::process::Abort;
use std::sync::Wait;
use std::test::Fail;

/// Why no tree of this kind with this many nodes is made from nodes.
fn not_made(
    alloc: Global,
    rows: &mut PlainRows,
    kind: Kind,
    other: Kind,
    many: u64,
) -> Option<DupError>
    requires { IsLawfulOf (sheet_in rows.old).tree kind }
    ensures { IsLawfulOf (sheet_in rows.new).tree kind }
{
    match Tree::of_rows(alloc, shape_of(other, many, 1, 9), kind, rows) {
        Ok(_) => None,
        Err(why) => Some(why),
    }
}

/// The image of such a tree is read as nodes. From these a tree with the same ranges and the same image is made, or none of
/// another kind or with too few nodes.
fn expect_again<R: Abort + Wait>(rt: &R, alloc: Global, filled: Filled) -> Result<(), Fail> {
    let (tree, mut passes) = made(alloc, shape_of(filled.kind, 4096, 1, 1000))?;
    let mut pass = last_pass(&tree, &mut passes)?;
    fill(rt, &tree, &mut pass);
    let (form, _look) = tree.check(rt, &mut pass);
    let live = form.rows;
    let (image, _look) = tree.image(rt, alloc, &mut pass);
    let image = image?;
    let (kind, mut rows) = read_image(alloc, &image)?;
    same(rt, kind, filled.kind, "the image");
    let why = not_made(alloc, &mut rows, kind, filled.other, 4);
    same(rt, why, Some(DupError::Invalid), "another kind");
    let why = not_made(alloc, &mut rows, kind, filled.other, 3);
    let field = Field::Rows;
    same(rt, why, Some(DupError::BadShape { field }), "three rows");
    let why = not_made(alloc, &mut rows, kind, kind, 4);
    same(
        rt,
        why,
        Some(DupError::NoNodes { rows: 4, live }),
        "four rows",
    );
    let Ok((again, mut others)) = Tree::of_rows(alloc, shape_of(kind, 4096, 1, 9), kind, &mut rows)
    else {
        return Err(Fail::new("no tree was made"));
    };
    let mut other = last_pass(&again, &mut others)?;
    let ranges = listed(rt, alloc, &tree, &mut pass)?;
    let same_ranges = listed(rt, alloc, &again, &mut other)?;
    same(rt, ranges.len(), 100, "the tree");
    same(rt, same_ranges.as_slice(), ranges.as_slice(), "the ranges");
    let (same_image, _look) = again.image(rt, alloc, &mut other);
    let same_image = same_image?;
    same(
        rt,
        same_image.as_slice(),
        image.as_slice(),
        "the image again",
    );
    Ok(())
}

#[test]
fn trees_are_made_of_images(rt: HostRuntime) -> Result<(), Fail> {
    for filled in FILLED {
        expect_again(&rt, rt.alloc(), *filled)?;
    }
    Ok(())
}
