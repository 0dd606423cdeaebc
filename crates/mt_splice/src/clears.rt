//! The end of a whole tree.

ghost use Rattle.std.specs.Prelude.{◌≡◌, []};
ghost use Rattle.mt_base.specs.Width.{greatest};
ghost use Rattle.mt_rows.specs.declared.rows.Place.TheVariants.{Root};
ghost use Rattle.mt_rows.specs.Publish.{map_by};
ghost use Rattle.mt_splice.specs.steps.Entries.{IsBegunBy};
ghost use Rattle.mt_splice.specs.Splice.{MayClear, IsSpliced};

use crate::begun::Begun;
use crate::calls::Event;
use crate::climbing::{Top, new_climb, push_above};
use crate::replacing::publish_climbed;
use mt_base::{Kind, top};
use mt_free::RowBook;
use mt_path::{copy_into, walk, walk_on};
use mt_rows::{Place, Rows, inner_kind};
use std::marker::Brand;

/// Empties the tree, with a name for what it begins with.
fn clear_as<R: Rows, B: Begun>(rows: &mut R, book: &mut RowBook, kind: Kind, event: &Event<'_>)
    requires begun { IsBegunBy B.before B.start kind
        (R.sheet rows.old) book.old event.now.number event.now.call.now 0 (greatest (R.sheet rows.old).tree.table.width) }
    requires may { MayClear kind (R.sheet rows.old) book.old event.now.number event.now.call.now event.now.reply.now }
    ensures spliced { IsSpliced B.before.kind B.before.sheet
        (R.sheet rows.new) B.before.book book.new B.before.number event.now.call.now event.now.reply.now Root B.start.first B.start.last }
    ensures none_taken { book.new.free ≡ book.old.free }
{
    let left = walk(rows, 0);
    let mut climb = new_climb(inner_kind(kind));
    copy_into(&left, &mut climb.ways.left);
    copy_into(&left, &mut climb.ways.right);
    let last = top(rows.width());
    walk_on(rows, &mut climb.ways.right, last);
    let depth = climb.ways.left.len() as u32 - 1;
    push_above(&mut climb.windows, &climb.ways, depth + 1);
    let place = Place::Root;
    let (word, gap, row) = (0, 0, 0);
    let top = Top {
        place,
        word,
        gap,
        row,
    };
    publish_climbed::<R, B>(rows, book, &climb, top, depth, event);
}

/// Empties a tree: publishes 0 at the root word, by one store, and retires every node with the call's number. It takes no node.
pub fn clear<R: Rows>(rows: &mut R, book: &mut RowBook, kind: Kind, event: &Event<'_>)
    requires { MayClear kind (R.sheet rows.old) book.old event.now.number event.now.call.now event.now.reply.now }
    ensures spliced { IsSpliced kind (R.sheet rows.old) (R.sheet rows.new)
        book.old book.new event.now.number event.now.call.now event.now.reply.now Root 0 (greatest (R.sheet rows.old).tree.table.width) }
    ensures none_taken { book.new.free ≡ book.old.free }
    ensures root { (R.sheet rows.new).tree.root ≡ 0 }
    ensures map { map_by (R.sheet rows.new).tree ≡ [] }
{
    clear_as::<R, Brand>(rows, book, kind, event);
}
