//! Stores for which nodes were found free beforehand.

ghost use Rattle.std.specs.Prelude.{◌≡◌, ◌+◌, ◌<◌, true};
ghost use Rattle.mt_base.specs.declared.calls.Call.TheVariants.{StorePre};
ghost use Rattle.mt_engine.specs.Engine.{IsInCall, is_refusal};
ghost use Rattle.mt_engine.specs.Heights.{HasHeight, IsMeasured};
ghost use Rattle.mt_engine.specs.Prepared.{IsPrestored};
ghost use Rattle.mt_engine.specs.Rooms.{HasRoom};
ghost use Rattle.mt_engine.specs.Stores.{IsDoneByStore};
ghost use Rattle.mt_base.specs.Limits.{most_calls};

use crate::heights::height_after;
use crate::plans::{Plan, plan_store};
use crate::stores::store_at_hand;
use mt_base::{Call, Kind, Reply};
use mt_free::RowBook;
use mt_path::Path;
use mt_rows::Rows;
use mt_splice::{Edit, Event};

/// Carries out the store of this number, which was begun, with nodes that are free, and gives the reply that it may end with.
fn perform_prepared<R: Rows>(
    rows: &mut R,
    book: &mut RowBook,
    kind: Kind,
    height: &mut u64,
    number: u64,
    edit: Edit,
) -> Reply
    requires in_call { IsInCall kind (R.sheet rows.old) book.old }
    requires number { number ≡ (R.sheet rows.old).ended + 1 }
    requires room { HasRoom (R.sheet rows.old).tree book.old }
    requires height { HasHeight (R.sheet rows.old).tree height.old }
    ensures stored { IsDoneByStore kind (R.sheet rows.old) (R.sheet rows.new) book.old book.new (StorePre edit.first edit.last edit.entry) result }
    ensures kept { is_refusal result ≡ true → (R.sheet rows.new).tree ≡ (R.sheet rows.old).tree }
    ensures height { HasHeight (R.sheet rows.new).tree height.new }
{
    let Edit { first, last, entry } = edit;
    let call = &Call::StorePre { first, last, entry };
    let mut path = Path::new();
    match plan_store(rows, kind, edit, &mut path) {
        Plan::Store { write, reply } => {
            let event = Event {
                number,
                call,
                reply: &reply,
            };
            let is_new_root = store_at_hand(rows, book, kind, &path, &write, &event);
            *height = height_after(rows, is_new_root, *height);
            reply
        }
        Plan::Nothing { reply } => reply,
        Plan::Empty => unreachable!(),
    }
}

/// Makes one store for which nodes were found free: it does what the call says and answers so. It makes no scan.
pub fn store_prepared<R: Rows>(
    rows: &mut R,
    book: &mut RowBook,
    kind: Kind,
    height: &mut u64,
    edit: Edit,
) -> Reply
    requires measured { IsMeasured kind (R.sheet rows.old) book.old height.old }
    requires room { HasRoom (R.sheet rows.old).tree book.old }
    requires few { (R.sheet rows.old).ended < most_calls }
    ensures stored { IsPrestored kind (R.sheet rows.old) (R.sheet rows.new) book.old book.new (StorePre edit.first edit.last edit.entry) result }
    ensures measured { IsMeasured kind (R.sheet rows.new) book.new height.new }
{
    let number = rows.begin();
    let reply = perform_prepared(rows, book, kind, height, number, edit);
    let Edit { first, last, entry } = edit;
    rows.finish(&Call::StorePre { first, last, entry }, &reply);
    reply
}
