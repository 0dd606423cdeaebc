//! Stores into a tree: by no word, by one word, or by new nodes.

ghost use Rattle.std.specs.Prelude.{◌≡◌, ◌≢◌, ◌+◌, ◌<◌, IfOk, IfErr, false, true};
ghost use Rattle.mt_base.specs.declared.kinds.Kind.{Kind};
ghost use Rattle.mt_base.specs.declared.calls.Call.TheVariants.{Store};
ghost use Rattle.mt_base.specs.declared.replies.Reply.TheVariants.{NoNodes};
ghost use Rattle.mt_base.specs.Nodes.{is_exact_store};
ghost use Rattle.mt_layout.specs.declared.names.RowKind.TheVariants.{Leaf};
ghost use Rattle.mt_layout.specs.Columns.{slot_column};
ghost use Rattle.mt_layout.specs.Sizes.{slots_of};
ghost use Rattle.mt_rows.specs.declared.rows.Place.TheVariants.{Slot};
ghost use Rattle.mt_rows.specs.Publish.{IsTreeOf, map_by};
ghost use Rattle.mt_path.specs.Handles.{IsHandleOf};
ghost use Rattle.mt_engine.specs.Engine.{IsInCall, EndsAnswered, ChangesEntry};
ghost use Rattle.mt_engine.specs.Heights.{SameHeight};
ghost use Rattle.mt_engine.specs.Plans.{IsStorePlan};
ghost use Rattle.mt_engine.specs.Stores.{HasRoomFor, IsDoneByStore, wants_by};
ghost use Rattle.mt_base.specs.Limits.{most_calls};

use crate::heights::is_root;
use crate::mends::mend_at;
use crate::rooms::make_room;
use crate::store_by::{StoreBy, Write};
use mt_base::{Call, Kind, Shortage};
use mt_free::RowBook;
use mt_layout::{RowKind, slots};
use mt_path::{Handle, Path};
use mt_rows::{Place, Rows};
use mt_splice::{Event, replace_range};

/// Where the word of a leaf's slot is published.
fn place_of<R: Rows>(rows: &R, at: &Handle) -> Place
    requires tree { (kind : Kind) × IsTreeOf (R.sheet rows.now).tree kind }
    requires at { IsHandleOf (R.sheet rows.now).tree at.now }
    ensures { result ≡ Slot at.now.leaf.row (slot_column (slots_of (R.sheet rows.now).tree.table.width Leaf) at.now.leaf.slot) }
{
    Place::Slot {
        row: at.leaf.row,
        col: slots(rows.width(), RowKind::Leaf) + at.leaf.slot,
    }
}

/// Whether a call asks for nodes if its store is carried out so.
fn wants_by(call: &Call, by: &StoreBy) -> bool
    ensures { result ≡ wants_by call.now by.now }
{
    match call {
        Call::StorePre { .. } => true,
        _ => matches!(by, StoreBy::NewRows),
    }
}

/// Carries out a store, to whose first index the path leads. It stores no word if that leaves the map, one word if it is over
/// exactly one range, and else new nodes, which are at hand. It makes no scan. It returns whether the root is new, and so
/// whether the tree may have another height.
pub fn store_at_hand<R: Rows>(
    rows: &mut R,
    book: &mut RowBook,
    kind: Kind,
    path: &Path,
    write: &Write,
    event: &Event<'_>,
) -> bool
    requires in_call { IsInCall kind (R.sheet rows.old) book.old }
    requires number { event.now.number ≡ (R.sheet rows.old).ended + 1 }
    requires plan { IsStorePlan kind (R.sheet rows.old).tree event.now.call.now path.now.items write.now event.now.reply.now }
    requires room { HasRoomFor kind (R.sheet rows.old) book.old event.now.call.now }
    ensures stored { IsDoneByStore kind (R.sheet rows.old) (R.sheet rows.new) book.old book.new event.now.call.now event.now.reply.now }
    ensures exact { let edit = write.now.edit in is_exact_store (map_by (R.sheet rows.old).tree) edit.first edit.last edit.entry ≡ true → ChangesEntry
        (R.sheet rows.old).tree (R.sheet rows.new).tree (R.sheet rows.old).lives (R.sheet rows.new).lives book.old book.new edit.first edit.entry }
    ensures height { result ≡ false → SameHeight (R.sheet rows.old).tree (R.sheet rows.new).tree }
{
    match write.by {
        StoreBy::NoWord => false,
        StoreBy::OneWord { at } => {
            let place = place_of(rows, &at);
            rows.publish(place, write.edit.entry, event.call, event.reply);
            false
        }
        StoreBy::NewRows => {
            let spliced = replace_range(rows, book, kind, path, &write.edit, event);
            mend_at(rows, kind, &spliced, path, write.edit.first);
            is_root(&spliced.place)
        }
    }
}

/// Carries out a store, after freeing nodes if the call needs some. Returns the shortage if too few are free.
pub fn store<R: Rows>(
    rows: &mut R,
    book: &mut RowBook,
    kind: Kind,
    path: &Path,
    write: &Write,
    event: &Event<'_>,
) -> Result<bool, Shortage>
    requires in_call { IsInCall kind (R.sheet rows.old) book.old }
    requires number { event.now.number ≡ (R.sheet rows.old).ended + 1 }
    requires few { (R.sheet rows.old).ended < most_calls }
    requires unscanned { (R.sheet rows.old).scans ≡ 0 }
    requires plan { IsStorePlan kind (R.sheet rows.old).tree event.now.call.now path.now.items write.now event.now.reply.now }
    ensures done { IfOk result (λ _. EndsAnswered kind (R.sheet rows.old) (R.sheet rows.new) book.old book.new event.now.call.now event.now.reply.now) }
    ensures exact { let edit = write.now.edit in IfOk result (λ _. event.now.call.now ≡ Store edit.first edit.last edit.entry
        → is_exact_store (map_by (R.sheet rows.old).tree) edit.first edit.last edit.entry ≡ true → ChangesEntry (R.sheet rows.old).tree
        (R.sheet rows.new).tree (R.sheet rows.old).lives (R.sheet rows.new).lives book.old book.new edit.first edit.entry) }
    ensures height { IfOk result (λ is_new_root. is_new_root ≡ false → SameHeight (R.sheet rows.old).tree (R.sheet rows.new).tree) }
    ensures short { IfErr result (λ shortage. EndsAnswered kind (R.sheet rows.old) (R.sheet rows.new) book.old book.new event.now.call.now (NoNodes shortage)) }
{
    if wants_by(event.call, &write.by) {
        make_room(rows, book, path.len() as u64)?;
    }
    Ok(store_at_hand(rows, book, kind, path, write, event))
}
