//! The calls that write, each by one publishing store at most.

ghost use Rattle.std.specs.Prelude.{◌≡◌, ◌+◌, ◌<◌};
ghost use Rattle.mt_engine.specs.Engine.{IsInCall, EndsAnswered, IsApplied, OnlySearches, OnlySought, StoresExactly};
ghost use Rattle.mt_engine.specs.Heights.{HasHeight, IsMeasured};
ghost use Rattle.mt_base.specs.Limits.{most_calls};

use crate::heights::height_after;
use crate::plans::{Plan, plan_of};
use crate::stores::store;
use mt_base::{Call, Kind, Reply};
use mt_free::RowBook;
use mt_path::Path;
use mt_rows::Rows;
use mt_splice::{Event, clear};

/// Carries out the call of this number, which was begun, and gives the reply that it may end with.
fn perform<R: Rows>(
    rows: &mut R,
    book: &mut RowBook,
    kind: Kind,
    height: &mut u64,
    number: u64,
    call: &Call,
) -> Reply
    requires in_call { IsInCall kind (R.sheet rows.old) book.old }
    requires number { number ≡ (R.sheet rows.old).ended + 1 }
    requires few { (R.sheet rows.old).ended < most_calls }
    requires height { HasHeight (R.sheet rows.old).tree height.old }
    requires unscanned { (R.sheet rows.old).scans ≡ 0 }
    ensures height { HasHeight (R.sheet rows.new).tree height.new }
    ensures answered { EndsAnswered kind (R.sheet rows.old) (R.sheet rows.new) book.old book.new call.now result }
    ensures search { OnlySearches call.now result → OnlySought (R.sheet rows.old) (R.sheet rows.new) book.old book.new }
    ensures exact { StoresExactly (R.sheet rows.old) (R.sheet rows.new) book.old book.new call.now result }
{
    let mut path = Path::new();
    match plan_of(rows, kind, call, &mut path) {
        Plan::Nothing { reply } => reply,
        Plan::Empty => {
            let reply = &Reply::Ok;
            let event = Event {
                number,
                call,
                reply,
            };
            clear(rows, book, kind, &event);
            *height = 0;
            Reply::Ok
        }
        Plan::Store { write, reply } => {
            let event = Event {
                number,
                call,
                reply: &reply,
            };
            match store(rows, book, kind, &path, &write, &event) {
                Ok(is_new_root) => {
                    *height = height_after(rows, is_new_root, *height);
                    reply
                }
                Err(shortage) => Reply::NoNodes(shortage),
            }
        }
    }
}

/// Makes one call on a tree of this kind: it does what the call says and answers so, or it refuses for lack of nodes and leaves
/// every word.
pub fn apply<R: Rows>(
    rows: &mut R,
    book: &mut RowBook,
    kind: Kind,
    height: &mut u64,
    call: &Call,
) -> Reply
    requires measured { IsMeasured kind (R.sheet rows.old) book.old height.old }
    requires few { (R.sheet rows.old).ended < most_calls }
    ensures applied { IsApplied kind (R.sheet rows.old) (R.sheet rows.new) book.old book.new call.now result }
    ensures measured { IsMeasured kind (R.sheet rows.new) book.new height.new }
{
    let number = rows.begin();
    let reply = perform(rows, book, kind, height, number, call);
    rows.finish(call, &reply);
    reply
}
