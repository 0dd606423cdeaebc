//! Parent words of nodes that have moved.

ghost use Rattle.mt_splice.specs.steps.Writes.{AreChildren, AreTended};

use mt_layout::{RowKind, parent_word, row_of, slots};
use mt_rows::Rows;

/// Writes the parent words of the children in the first slots of an inner node.
#[tactic(auto, using(crate::proofs::Tending::tends))]
pub fn tend_children<R: Rows>(rows: &mut R, kind: RowKind, row: u32, count: u32)
    requires { AreChildren (R.sheet rows.old) kind row count }
    ensures { AreTended (R.sheet rows.old) (R.sheet rows.new) kind row count }
{
    let slots = slots(rows.width(), kind);
    for slot in 0..count {
        let word = rows.load(row, slots + slot);
        let Some(child) = row_of(word) else {
            unreachable!()
        };
        rows.tend(child, 0, parent_word(row, slot));
    }
}
