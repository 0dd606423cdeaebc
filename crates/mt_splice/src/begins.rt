//! The first leaf of an empty tree.

ghost use Rattle.std.specs.Prelude.{◌≡◌, [], List};
ghost use Rattle.mt_rows.specs.declared.rows.Place.TheVariants.{Root};
ghost use Rattle.mt_rows.specs.Spans.{inner_of};
ghost use Rattle.mt_splice.specs.steps.Entries.{IsFirstStore};
ghost use Rattle.mt_splice.specs.Splice.{IsSpliced};

use crate::begun::Begun;
use crate::calls::Event;
use crate::climbing::Top;
use crate::drafting::draft_piece;
use crate::ends::publish_at;
use crate::ways::Level;
use crate::writes::NewRows;
use mt_free::RowBook;
use mt_layout::{Item, RowKind};
use mt_rows::{Place, Rows};

/// Drafts the items in one leaf, and publishes it as the root of the empty tree, whose inner nodes are to be of the kind
/// `above`.
pub fn begin_tree<R: Rows, B: Begun>(
    rows: &mut R,
    book: &mut RowBook,
    above: RowKind,
    items: &[Item],
    event: &Event<'_>,
) -> Place
    requires kind { above ≡ inner_of B.start.tree.gapped }
    requires first { IsFirstStore B.before B.start (R.sheet rows.old) book.old items.now event.now.call.now event.now.reply.now }
    ensures spliced { IsSpliced B.before.kind B.before.sheet
        (R.sheet rows.new) B.before.book book.new B.before.number event.now.call.now event.now.reply.now result B.start.first B.start.last }
    ensures root { result ≡ Root }
{
    let mut made = NewRows::new();
    let kind = RowKind::Leaf;
    let level = Level { kind, above };
    let leaf = draft_piece(rows, book, level, 0, items, &mut made);
    let (place, word, gap, row) = (Place::Root, leaf.item.word, 0, leaf.row);
    let top = Top {
        place,
        word,
        gap,
        row,
    };
    publish_at::<R, B>(rows, book, above, &top, made.as_slice(), event);
    place
}
