//! A replacement: its nodes are read and drafted, the old ones buried, and one word published.

ghost use Rattle.std.specs.Prelude.{◌≡◌, ◌-◌, length};
ghost use Rattle.mt_layout.specs.declared.names.RowKind.TheVariants.{Leaf};
ghost use Rattle.mt_splice.specs.Splice.{IsSpliced, TellsGapAt};
ghost use Rattle.mt_splice.specs.steps.Climbing.{HasClimbed, IsClimbing};
ghost use Rattle.mt_splice.specs.steps.Replacing.{IsAnswer};

use crate::begun::Begun;
use crate::burying::bury;
use crate::calls::Event;
use crate::climbing::{Climb, Top, climb_up};
use crate::ends::publish_at;
use crate::spliced::Spliced;
use mt_free::RowBook;
use mt_rows::Rows;

/// Buries the nodes of a climb's windows, the lowest of which is on this level, and publishes its word.
pub fn publish_climbed<R: Rows, B: Begun>(
    rows: &mut R,
    book: &mut RowBook,
    climb: &Climb,
    top: Top,
    depth: u32,
    event: &Event<'_>,
) -> Spliced
    requires climbed { HasClimbed B.before B.start (R.sheet rows.old) book.old climb.now top }
    requires leaves { depth ≡ B.start.height }
    requires number { event.now.number ≡ B.before.number }
    requires answer { IsAnswer B.before B.start event.now.call.now event.now.reply.now }
    ensures spliced { IsSpliced B.before.kind B.before.sheet
        (R.sheet rows.new) B.before.book book.new B.before.number event.now.call.now event.now.reply.now result.place B.start.first B.start.last }
    ensures place { result.place ≡ top.place }
    ensures told { TellsGapAt B.before.kind (R.sheet rows.new).tree result.place result.gap }
    ensures none_taken { book.new.free ≡ book.old.free }
{
    bury(rows, book, climb.windows.as_slice(), depth, event.number);
    publish_at::<R, B>(rows, book, climb.inner, &top, climb.made.as_slice(), event);
    Spliced {
        place: top.place,
        gap: top.gap,
    }
}

/// Replaces the nodes of a level and of those above it that must change, and publishes that by one store.
pub fn replace<R: Rows, B: Begun>(
    rows: &mut R,
    book: &mut RowBook,
    climb: &mut Climb,
    event: &Event<'_>,
) -> Spliced
    requires level { IsClimbing B.before B.start (R.sheet rows.old) book.old Leaf (length climb.old.ways.left.items - 1) climb.old }
    requires number { event.now.number ≡ B.before.number }
    requires answer { IsAnswer B.before B.start event.now.call.now event.now.reply.now }
    ensures spliced { IsSpliced B.before.kind B.before.sheet
        (R.sheet rows.new) B.before.book book.new B.before.number event.now.call.now event.now.reply.now result.place B.start.first B.start.last }
    ensures told { TellsGapAt B.before.kind (R.sheet rows.new).tree result.place result.gap }
{
    let depth = climb.ways.left.len() as u32 - 1;
    let top = climb_up::<R, B>(rows, book, climb);
    publish_climbed::<R, B>(rows, book, climb, top, depth, event)
}
