//! The plan of a call on the tree as it is.

ghost use Rattle.std.specs.Prelude.{◌≡◌, ℕ, List, [], true, IfSome};
ghost use Rattle.mt_base.specs.declared.kinds.Kind.{Kind};
ghost use Rattle.mt_base.specs.declared.calls.Call.TheVariants.{Store, StorePre, Insert, Erase, Clear};
ghost use Rattle.mt_base.specs.declared.replies.Reply.{Reply};
ghost use Rattle.mt_base.specs.Call.{replied};
ghost use Rattle.mt_rows.specs.Publish.{IsTreeOf, IsLawfulOf};
ghost use Rattle.mt_rows.specs.Sheet.{OnlyReads};
ghost use Rattle.mt_path.specs.declared.paths.PathStep.{PathStep};
ghost use Rattle.mt_path.specs.Handles.{IsHandleOf};
ghost use Rattle.mt_engine.specs.Engine.{is_refusal};
ghost use Rattle.mt_engine.specs.Plans.{IsMet, IsPlan, IsSearched, is_range_met};

use crate::areas::{Sought, Wanted, plan_allocation, plan_search};
use crate::queries::{nearest_from, range_in, top_of};
use crate::store_by::{Write, store_by};
use mt_base::{Call, Kind, Range, Reply, is_invalid};
use mt_path::{Handle, Path, walk_to};
use mt_rows::Rows;
use mt_splice::Edit;

/// What a call is to do to a tree.
#[derive(Clone, Copy, Debug, PartialEq, Eq)]
pub enum Plan {
    /// Nothing: it is answered, and the map stays as it is.
    Nothing { reply: Reply },
    /// A store, and what it is answered.
    Store { write: Write, reply: Reply },
    /// The end of all ranges, of which there are some.
    Empty,
}

/// Whether a range holds an index from that of a slot up to `last`: it is in the slot, or right after the hole there.
fn is_taken(here: &Option<Handle>, last: u64) -> bool
    ensures { result ≡ is_range_met here.now last }
{
    match here {
        Some(handle) => handle.span.word != 0 || handle.span.last < last,
        None => false,
    }
}

/// The first range that holds an index from that of a slot up to `last`. If a hole reaches `last`, the slot alone shows that
/// there is none.
fn met<R: Rows>(rows: &mut R, here: &Option<Handle>, last: u64) -> Option<Range>
    requires tree { (kind : Kind) × IsTreeOf (R.sheet rows.old).tree kind }
    requires here { IfSome here.now (IsHandleOf (R.sheet rows.old).tree) }
    ensures met { IsMet (R.sheet rows.old).tree here.now last result }
    ensures rest { OnlyReads (R.sheet rows.old) (R.sheet rows.new) }
{
    let Some(handle) = here else {
        return None;
    };
    if !is_taken(here, last) {
        return None;
    }
    nearest_from(rows, handle)
}

/// What a store is answered that meets this range first, or none.
fn replied(met: Option<Range>) -> Reply
    ensures { result ≡ replied met }
{
    met.map_or(Reply::Ok, |range| Reply::Over(range.entry))
}

/// The plan of a store, with the path to its first index.
#[inline(always)]
pub fn plan_store<R: Rows>(rows: &mut R, kind: Kind, edit: Edit, path: &mut Path) -> Plan
    requires tree { IsTreeOf (R.sheet rows.old).tree kind }
    requires empty { path.old.items ≡ [] }
    ensures plan { IsPlan kind (R.sheet rows.old).tree (Store edit.first edit.last edit.entry) path.new.items result }
    ensures at_hand { IsPlan kind (R.sheet rows.old).tree (StorePre edit.first edit.last edit.entry) path.new.items result }
    ensures refused { (reply : Reply) → result ≡ Plan.Nothing reply → is_refusal reply ≡ true }
    ensures rest { OnlyReads (R.sheet rows.old) (R.sheet rows.new) }
{
    if is_invalid(kind, edit.first, edit.last, edit.entry) {
        return Plan::Nothing {
            reply: Reply::Invalid,
        };
    }
    let here = walk_to(rows, edit.first, path);
    let met = met(rows, &here, edit.last);
    let by = store_by(here, &edit);
    Plan::Store {
        write: Write { edit, by },
        reply: replied(met),
    }
}

/// The plan of an insert, with the path to its first index.
fn plan_insert<R: Rows>(rows: &mut R, kind: Kind, edit: Edit, path: &mut Path) -> Plan
    requires tree { IsTreeOf (R.sheet rows.old).tree kind }
    requires empty { path.old.items ≡ [] }
    ensures plan { IsPlan kind (R.sheet rows.old).tree (Insert edit.first edit.last edit.entry) path.new.items result }
    ensures rest { OnlyReads (R.sheet rows.old) (R.sheet rows.new) }
{
    if is_invalid(kind, edit.first, edit.last, edit.entry) || edit.entry == 0 {
        return Plan::Nothing {
            reply: Reply::Invalid,
        };
    }
    let here = walk_to(rows, edit.first, path);
    if is_taken(&here, edit.last) {
        return Plan::Nothing {
            reply: Reply::Exists,
        };
    }
    let by = store_by(here, &edit);
    Plan::Store {
        write: Write { edit, by },
        reply: Reply::Ok,
    }
}

/// The plan of an erase, with the path to its index: a hole over the whole range that holds it, to whose first index the path
/// leads as well.
fn plan_erase<R: Rows>(rows: &mut R, kind: Kind, index: u64, path: &mut Path) -> Plan
    requires tree { IsTreeOf (R.sheet rows.old).tree kind }
    requires empty { path.old.items ≡ [] }
    ensures plan { IsPlan kind (R.sheet rows.old).tree (Erase index) path.new.items result }
    ensures rest { OnlyReads (R.sheet rows.old) (R.sheet rows.new) }
{
    if index > top_of(rows) {
        return Plan::Nothing { reply: Reply::None };
    }
    let Some(handle) = walk_to(rows, index, path) else {
        return Plan::Nothing { reply: Reply::None };
    };
    let span = handle.span;
    if span.word == 0 {
        return Plan::Nothing { reply: Reply::None };
    }
    let edit = Edit {
        first: span.first,
        last: span.last,
        entry: 0,
    };
    let by = store_by(Some(handle), &edit);
    Plan::Store {
        write: Write { edit, by },
        reply: Reply::Was(range_in(span)),
    }
}

/// The plan of a clear.
fn plan_clear<R: Rows>(rows: &mut R) -> Plan
    ensures plan { (kind : Kind) (path : List PathStep) → IsPlan kind (R.sheet rows.old).tree Clear path result }
    ensures rest { OnlyReads (R.sheet rows.old) (R.sheet rows.new) }
{
    if rows.root() == 0 {
        return Plan::Nothing { reply: Reply::Ok };
    }
    Plan::Empty
}

/// The plan of a call. If that is a store, the path to its first index is left in `path`.
pub fn plan_of<R: Rows>(rows: &mut R, kind: Kind, call: &Call, path: &mut Path) -> Plan
    requires tree { IsLawfulOf (R.sheet rows.old).tree kind }
    requires empty { path.old.items ≡ [] }
    ensures plan { IsPlan kind (R.sheet rows.old).tree call.now path.new.items result }
    ensures search { IsSearched (R.sheet rows.old) (R.sheet rows.new) call.now result }
    ensures refused { (first last entry : ℕ) (reply : Reply) → call.now ≡ Store first last entry → result ≡ Plan.Nothing reply → is_refusal reply ≡ true }
    ensures rest { OnlyReads (R.sheet rows.old) (R.sheet rows.new) }
{
    match *call {
        Call::Store { first, last, entry } => {
            plan_store(rows, kind, Edit { first, last, entry }, path)
        }
        Call::StorePre { first, last, entry } => {
            plan_store(rows, kind, Edit { first, last, entry }, path)
        }
        Call::Insert { first, last, entry } => {
            plan_insert(rows, kind, Edit { first, last, entry }, path)
        }
        Call::Erase { index } => plan_erase(rows, kind, index, path),
        Call::Alloc {
            size,
            min,
            max,
            entry,
        } => {
            let wanted = Wanted { size, min, max };
            plan_allocation(rows, kind, Sought::Lowest, wanted, entry, path)
        }
        Call::Ralloc {
            size,
            min,
            max,
            entry,
        } => {
            let wanted = Wanted { size, min, max };
            plan_allocation(rows, kind, Sought::Highest, wanted, entry, path)
        }
        Call::Gap { size, min, max } => {
            let wanted = Wanted { size, min, max };
            plan_search(rows, kind, Sought::Lowest, wanted)
        }
        Call::Rgap { size, min, max } => {
            let wanted = Wanted { size, min, max };
            plan_search(rows, kind, Sought::Highest, wanted)
        }
        Call::Clear => plan_clear(rows),
    }
}
