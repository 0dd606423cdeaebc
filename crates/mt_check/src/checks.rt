//! The check of a whole tree.

ghost use Rattle.std.specs.Prelude.{◌≡◌, ◌↔◌, IsOk};
ghost use Rattle.mt_base.specs.Width.{kind_width};
ghost use Rattle.mt_rows.specs.declared.rows.Place.TheVariants.{Root};
ghost use Rattle.mt_rows.specs.Publish.{tree_as, with_published, IsLawfulOf};
ghost use Rattle.mt_rows.specs.Sheet.{OnlyReads};
ghost use Rattle.mt_check.specs.Check as defined;
ghost use Rattle.mt_check.specs.Check.{checked};

use crate::faults::{Fault, Form};
use crate::walks::{Row, Visit, Walk};
use mt_base::{DEEPEST, Kind, top};
use mt_layout::Span;
use mt_rows::Rows;

/// The parent word of a root.
const NO_PARENT: u64 = 1;

/// Whether the words with this root word are well-formed (well-formed) for a tree of this kind. Returns the tree's form, or the
/// first fault in the order of a walk from the root: each node before its children, children from the left. Each node is read
/// once.
///
/// # Errors
///
/// The first fault, if the words are not well-formed.
pub fn check<R: Rows>(rows: &mut R, root: u64, kind: Kind) -> Result<Form, Fault>
    requires { (R.sheet rows.old).tree.table.width ≡ kind_width kind }
    ensures lawful { IsOk result ↔ IsLawfulOf (with_published (R.sheet rows.old).tree Root root) kind }
    ensures answer { result ≡ checked (tree_as kind (with_published (R.sheet rows.old).tree Root root)) }
    ensures rest { OnlyReads (R.sheet rows.old) (R.sheet rows.new) }
{
    if root == 0 {
        return Ok(Form {
            height: 0,
            rows: 0,
            ranges: 0,
        });
    }
    let mut walk = Walk {
        kind,
        root,
        leaf_depth: None,
    };
    let visit = Visit {
        left: DEEPEST as u32,
        from: 0,
        parent: NO_PARENT,
        span: Span {
            first: 0,
            last: top(rows.width()),
            word: root,
        },
    };
    let below = walk.check_row(rows, visit, &mut Row::new())?;
    Ok(Form {
        height: walk.leaf_depth.unwrap_or(0),
        rows: below.rows,
        ranges: below.ranges,
    })
}

/// The form of well-formed words.
pub fn form_of<R: Rows>(rows: &mut R, kind: Kind) -> Form
    requires { IsLawfulOf (R.sheet rows.old).tree kind }
    ensures form { result ≡ defined.form_of (tree_as kind (R.sheet rows.old).tree) }
    ensures rest { OnlyReads (R.sheet rows.old) (R.sheet rows.new) }
{
    let root = rows.root();
    let Ok(form) = check(rows, root, kind) else {
        unreachable!()
    };
    form
}
