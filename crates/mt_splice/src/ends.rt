//! The end of a replacement: one word is published, and the children of nodes that are new are tended.

ghost use Rattle.std.specs.Prelude.{◌≡◌, ℕ, length};
ghost use Rattle.mt_rows.specs.declared.rows.Place.TheVariants.{Slot};
ghost use Rattle.mt_rows.specs.Publish.{with_published};
ghost use Rattle.mt_rows.specs.Spans.{inner_of};
ghost use Rattle.mt_splice.specs.Splice.{IsSpliced, TellsBelow, TellsGapAt};
ghost use Rattle.mt_splice.specs.steps.Ends.{AreTendedTo, IsReadyToPublish, MayTendTop, with_top};

use crate::begun::Begun;
use crate::calls::Event;
use crate::climbing::Top;
use crate::tends::tend_children;
use crate::writes::NewRow;
use mt_free::RowBook;
use mt_layout::{RowKind, parent_word, slots};
use mt_rows::{Place, Rows};

/// Writes the parent words of the children of these inner rows.
#[tactic(auto, using(crate::proofs::EndTending::children_still))]
fn tend_rows<R: Rows>(rows: &mut R, kind: RowKind, new_inner_rows: &[NewRow])
    requires { AreTendedTo (R.sheet rows.old) (R.sheet rows.old) kind new_inner_rows.now 0 }
    ensures { AreTendedTo (R.sheet rows.old) (R.sheet rows.new) kind new_inner_rows.now (length new_inner_rows.now) }
{
    for new in new_inner_rows {
        tend_children(rows, kind, new.row, new.count);
    }
}

/// Writes the parent word of the row that was published in a slot of a row of this kind.
fn tend_top<R: Rows>(rows: &mut R, kind: RowKind, top: &Top)
    requires { MayTendTop (R.sheet rows.old) kind top.now.place top.now.row }
    ensures { R.sheet rows.new ≡ with_top (R.sheet rows.old) kind top.now.place top.now.row }
{
    let Place::Slot { row, col } = top.place else {
        return;
    };
    let slots = slots(rows.width(), kind);
    rows.tend(top.row, 0, parent_word(row, col - slots));
}

/// Publishes the replacement by one store, and writes the parent words of all nodes that have another parent then. The tree's
/// inner nodes are of this kind, and the book is as it is then.
#[inline(always)]
pub fn publish_at<R: Rows, B: Begun>(
    rows: &mut R,
    book: &RowBook,
    kind: RowKind,
    top: &Top,
    inner: &[NewRow],
    event: &Event<'_>,
)
    requires kind { kind ≡ inner_of B.start.tree.gapped }
    requires end { IsReadyToPublish B.before B.start (R.sheet rows.old) book.now inner.now top.now event.now.call.now event.now.reply.now }
    ensures spliced { IsSpliced B.before.kind B.before.sheet
        (R.sheet rows.new) B.before.book book.now B.before.number event.now.call.now event.now.reply.now top.now.place B.start.first B.start.last }
    ensures told { (row col gap : ℕ) → top.now.place ≡ Slot row col
        → TellsBelow B.before.kind (with_published (R.sheet rows.old).tree top.now.place top.now.word) top.now.word gap
        → TellsGapAt B.before.kind (R.sheet rows.new).tree top.now.place gap }
{
    rows.publish(top.place, top.word, event.call, event.reply);
    tend_rows(rows, kind, inner);
    tend_top(rows, kind, top);
}
