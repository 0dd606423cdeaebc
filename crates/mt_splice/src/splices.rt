//! The entries: stores that replace nodes.

ghost use Rattle.std.specs.Prelude.{◌≡◌, []};
ghost use Rattle.mt_rows.specs.Spans.{inner_kind};
ghost use Rattle.mt_path.specs.Handles.{last_step};
ghost use Rattle.mt_splice.specs.steps.Entries.{IsBegunBy};
ghost use Rattle.mt_splice.specs.Splice.{MaySplice, MayReplace, IsSpliced, TellsGapAt};

use crate::begins::begin_tree;
use crate::begun::Begun;
use crate::calls::{Edit, Event};
use crate::climbing::{Climb, new_climb};
use crate::leaves::fill_leaves;
use crate::reads::push_all;
use crate::replacing::replace;
use crate::spliced::{Spliced, at_root};
use mt_base::{Call, Kind, Reply};
use mt_free::RowBook;
use mt_layout::Run;
use mt_leaf::Towards;
use mt_path::{Path, copy_into, go_on};
use mt_rows::{Place, Rows, inner_kind};
use std::marker::Brand;

/// Replaces the leaves of a climb, where what it begins with has a name.
fn splice_as<R: Rows, B: Begun>(
    rows: &mut R,
    book: &mut RowBook,
    kind: Kind,
    climb: &mut Climb,
    event: &Event<'_>,
) -> Spliced
    requires begun { IsBegunBy B.before B.start kind (R.sheet rows.old) book.old event.now.number event.now.call.now
        (last_step climb.old.ways.left.items).min (last_step climb.old.ways.right.items).max }
    requires may { MaySplice kind (R.sheet rows.old) book.old climb.old.ways.left.items
        climb.old.ways.right.items climb.old.gathered.run.items event.now.number event.now.call.now event.now.reply.now }
    requires inner { climb.old.inner ≡ inner_kind kind }
    requires windows { climb.old.windows.items ≡ [] }
    requires made { climb.old.made.items ≡ [] }
    ensures spliced { IsSpliced B.before.kind B.before.sheet
        (R.sheet rows.new) B.before.book book.new B.before.number event.now.call.now event.now.reply.now result.place B.start.first B.start.last }
    ensures told { TellsGapAt B.before.kind (R.sheet rows.new).tree result.place result.gap }
{
    if climb.ways.left.is_empty() {
        let items = climb.gathered.run.as_slice();
        return at_root(begin_tree::<R, B>(rows, book, climb.inner, items, event));
    }
    replace::<R, B>(rows, book, climb, event)
}

/// Replaces the leaves from a climb's left path to its right path by nodes of what is gathered, and all nodes above that must
/// change, and publishes that by one store. Returns the place, and the longest hole below the node there. The climb is used up.
fn splice_climb<R: Rows>(
    rows: &mut R,
    book: &mut RowBook,
    kind: Kind,
    climb: &mut Climb,
    event: &Event<'_>,
) -> Spliced
    requires may { MaySplice kind (R.sheet rows.old) book.old climb.old.ways.left.items
        climb.old.ways.right.items climb.old.gathered.run.items event.now.number event.now.call.now event.now.reply.now }
    requires inner { climb.old.inner ≡ inner_kind kind }
    requires windows { climb.old.windows.items ≡ [] }
    requires made { climb.old.made.items ≡ [] }
    ensures spliced { IsSpliced kind (R.sheet rows.old) (R.sheet rows.new) book.old book.new event.now.number event.now.call.now
        event.now.reply.now result.place (last_step climb.old.ways.left.items).min (last_step climb.old.ways.right.items).max }
    ensures told { TellsGapAt kind (R.sheet rows.new).tree result.place result.gap }
{
    splice_as::<R, Brand>(rows, book, kind, climb, event)
}

/// Replaces the leaves from the left path to the right path by nodes of these items, and all nodes above that must change
/// (copy-on-write), and publishes that by one store. Returns the place. The nodes that it replaces are retired with the call's
/// number.
pub fn splice<R: Rows>(
    rows: &mut R,
    book: &mut RowBook,
    kind: Kind,
    left: &Path,
    right: &Path,
    items: &Run,
    number: u64,
    call: &Call,
    reply: &Reply,
) -> Place
    requires { MaySplice kind (R.sheet rows.old) book.old left.now.items right.now.items items.now.items number call.now reply.now }
    ensures { IsSpliced kind (R.sheet rows.old) (R.sheet rows.new) book.old book.new number call.now reply.now result
        (last_step left.now.items).min (last_step right.now.items).max }
{
    let mut climb = new_climb(inner_kind(kind));
    copy_into(left, &mut climb.ways.left);
    copy_into(right, &mut climb.ways.right);
    push_all(&mut climb.gathered.run, items.as_slice());
    climb.gathered.towards = Towards::Middle;
    let event = Event {
        number,
        call,
        reply,
    };
    splice_climb(rows, book, kind, &mut climb, &event).place
}

/// Carries out a store by new nodes; `left` is the path to its first index. The leaves at both ends are read and replaced.
/// Returns the place of the one store that publishes (the linearization point), and the longest hole below the node there.
pub fn replace_range<R: Rows>(
    rows: &mut R,
    book: &mut RowBook,
    kind: Kind,
    left: &Path,
    edit: &Edit,
    event: &Event<'_>,
) -> Spliced
    requires { MayReplace kind (R.sheet rows.old)
        book.old left.now.items edit.now.first edit.now.last edit.now.entry event.now.number event.now.call.now event.now.reply.now }
    ensures spliced { IsSpliced kind (R.sheet rows.old)
        (R.sheet rows.new) book.old book.new event.now.number event.now.call.now event.now.reply.now result.place edit.now.first edit.now.last }
    ensures told { TellsGapAt kind (R.sheet rows.new).tree result.place result.gap }
{
    let mut climb = new_climb(inner_kind(kind));
    copy_into(left, &mut climb.ways.left);
    copy_into(left, &mut climb.ways.right);
    go_on(rows, &mut climb.ways.right, edit.last);
    fill_leaves(rows, &climb.ways, &mut climb.gathered, edit);
    splice_climb(rows, book, kind, &mut climb, event)
}
