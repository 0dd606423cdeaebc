//! Whether a call breaks a tree's reserve, by which the tree can always be emptied.

ghost use Rattle.std.specs.Prelude.{◌≡◌, ◌↔◌, ◌+◌, ◌<◌, ◌≤◌, None, false, IfSome, IsTrue, length};
ghost use Rattle.mt_base.specs.Width.{most_rows};
ghost use Rattle.mt_base.specs.declared.calls.Call.TheVariants.{Store};
ghost use Rattle.mt_rows.specs.Publish.{map_by, IsLawfulOf};
ghost use Rattle.mt_rows.specs.Sheet.{OnlyReads};
ghost use Rattle.mt_tree.specs.Reserve.{TellsChange, IsGain, IsReserveVerdict, range_count};
ghost use Rattle.mt_tree.specs.RowsFor.{rows_for};

use crate::counts::{Change, change_of};
use crate::rows_for::rows_enough;
use mt_base::{Call, Kind, MOST_ROWS, is_invalid};
use mt_check::form_of;
use mt_engine::Engine;
use mt_rows::Rows;

/// What is found before a call: whether it breaks the reserve, and how many ranges there are, and will be if it is made, where
/// these numbers are known.
#[derive(Clone, Copy)]
pub struct ReserveVerdict {
    pub breaks: bool,
    pub before: Option<u64>,
    pub after: Option<u64>,
}

impl ReserveVerdict {
    /// That on a call that adds no range.
    fn never(known: Option<u64>) -> Self
        ensures { result ≡ record { breaks = false; before = known; after = None } }
    {
        ReserveVerdict {
            breaks: false,
            before: known,
            after: None,
        }
    }
}

/// Whether so many nodes are surely enough for these ranges and so many more. It is the one policy of the reserve.
#[tactic(auto, using(crate::proofs::Reserving::no_room, crate::proofs::Reserving::told_room))]
pub fn is_reserve(rows: u64, ranges: u64, gain: u64) -> bool
    requires rows { rows ≤ most_rows }
    requires gain { gain ≤ 3 }
    ensures { IsTrue result ↔ (rows_for (ranges + gain) ≤ rows) }
{
    if ranges > 2 * MOST_ROWS {
        return false;
    }
    rows_enough(ranges + gain) <= rows
}

/// How many ranges a tree has. They are counted where their number is not known.
#[tactic(auto, using(crate::proofs::Reserving::counted_form))]
fn ranges_in<R: Rows>(rows: &mut R, kind: Kind, known: Option<u64>) -> u64
    requires lawful { IsLawfulOf (R.sheet rows.old).tree kind }
    requires known { IfSome known (λ n. n ≡ length (map_by (R.sheet rows.old).tree)) }
    ensures count { result ≡ length (map_by (R.sheet rows.old).tree) }
    ensures rest { OnlyReads (R.sheet rows.old) (R.sheet rows.new) }
{
    match known {
        Some(ranges) => ranges,
        None => form_of(rows, kind).ranges,
    }
}

/// Whether a tree lacks the nodes for its reserve with so many ranges more, and how many it has. It is only read.
#[tactic(auto, using(crate::proofs::Forms::lawful_as, crate::proofs::Forms::idle_as, crate::proofs::Forms::high_as))]
fn lacks_room<R: Rows>(
    engine: Engine<R>,
    kind: Kind,
    known: Option<u64>,
    gain: u64,
) -> (Engine<R>, bool, u64)
    requires kind { kind ≡ engine.kind }
    requires known { IfSome known (λ n. n ≡ range_count engine) }
    requires gain { gain ≤ 3 }
    ensures rest { OnlyReads engine.sheet result.0.sheet }
    ensures book { result.0.book ≡ engine.book }
    ensures kind { result.0.kind ≡ engine.kind }
    ensures lacks { IsTrue result.1 ↔ (engine.sheet.tree.rows < rows_for (range_count engine + gain)) }
    ensures ranges { result.2 ≡ range_count engine }
{
    let height = engine.height();
    let (mut rows, book) = engine.parts();
    let size = rows.size();
    let ranges = ranges_in(&mut rows, kind, known);
    let engine = Engine::of_height(rows, book, kind, height);
    (engine, !is_reserve(size, ranges, gain), ranges)
}

/// The verdict on an insert or an allocation, which may add one range. The tree is only read.
fn add_verdict<R: Rows>(
    engine: Engine<R>,
    kind: Kind,
    known: Option<u64>,
    call: &Call,
) -> (Engine<R>, ReserveVerdict)
    requires kind { kind ≡ engine.kind }
    requires known { IfSome known (λ n. n ≡ range_count engine) }
    requires gain { IsGain engine call.now 1 }
    ensures rest { OnlyReads engine.sheet result.0.sheet }
    ensures book { result.0.book ≡ engine.book }
    ensures kind { result.0.kind ≡ engine.kind }
    ensures verdict { IsReserveVerdict engine call.now result.1 }
{
    let (engine, breaks, ranges) = lacks_room(engine, kind, known, 1);
    let verdict = ReserveVerdict {
        breaks,
        before: Some(ranges),
        after: None,
    };
    (engine, verdict)
}

/// The verdict on a store that changes so much. The tree is only read.
#[tactic(auto, using(crate::proofs::Reserving::change_gain, crate::proofs::Reserving::change_gone))]
fn change_verdict<R: Rows>(
    engine: Engine<R>,
    kind: Kind,
    known: Option<u64>,
    call: &Call,
    change: Change,
) -> (Engine<R>, ReserveVerdict)
    requires kind { kind ≡ engine.kind }
    requires known { IfSome known (λ n. n ≡ range_count engine) }
    requires change { TellsChange engine call.now change }
    ensures rest { OnlyReads engine.sheet result.0.sheet }
    ensures book { result.0.book ≡ engine.book }
    ensures kind { result.0.kind ≡ engine.kind }
    ensures verdict { IsReserveVerdict engine call.now result.1 }
{
    let gain = change.gain();
    if gain == 0 {
        let verdict = ReserveVerdict {
            breaks: false,
            before: known,
            after: change.after_known(known),
        };
        return (engine, verdict);
    }
    let (engine, breaks, ranges) = lacks_room(engine, kind, known, gain);
    let verdict = ReserveVerdict {
        breaks,
        before: Some(ranges),
        after: change.after(ranges),
    };
    (engine, verdict)
}

/// The verdict on a store. The tree is only read.
#[tactic(auto, using(crate::proofs::Reserving::invalid_verdict, crate::proofs::Reserving::valid_first))]
fn store_verdict<R: Rows>(
    engine: Engine<R>,
    kind: Kind,
    known: Option<u64>,
    first: u64,
    last: u64,
    entry: u64,
) -> (Engine<R>, ReserveVerdict)
    requires kind { kind ≡ engine.kind }
    requires known { IfSome known (λ n. n ≡ range_count engine) }
    ensures rest { OnlyReads engine.sheet result.0.sheet }
    ensures book { result.0.book ≡ engine.book }
    ensures kind { result.0.kind ≡ engine.kind }
    ensures verdict { IsReserveVerdict engine (Store first last entry) result.1 }
{
    if is_invalid(kind, first, last, entry) {
        return (engine, ReserveVerdict::never(known));
    }
    let mut engine = engine;
    let change = change_of(&mut engine, first, last, entry);
    let call = Call::Store { first, last, entry };
    change_verdict(engine, kind, known, &call, change)
}

/// Whether a call breaks the reserve, and what is then known of the number of ranges. The tree is only read.
#[tactic(auto, using(crate::proofs::Reserving::pre_verdict, crate::proofs::Reserving::never, crate::proofs::Reserving::one_gain))]
pub fn verdict_of<R: Rows>(
    engine: Engine<R>,
    kind: Kind,
    known: Option<u64>,
    call: &Call,
) -> (Engine<R>, ReserveVerdict)
    requires kind { kind ≡ engine.kind }
    requires known { IfSome known (λ n. n ≡ range_count engine) }
    ensures rest { OnlyReads engine.sheet result.0.sheet }
    ensures book { result.0.book ≡ engine.book }
    ensures kind { result.0.kind ≡ engine.kind }
    ensures verdict { IsReserveVerdict engine call.now result.1 }
{
    match *call {
        Call::Store { first, last, entry } | Call::StorePre { first, last, entry } => {
            store_verdict(engine, kind, known, first, last, entry)
        }
        Call::Insert { .. } | Call::Alloc { .. } | Call::Ralloc { .. } => {
            add_verdict(engine, kind, known, call)
        }
        Call::Erase { .. } | Call::Gap { .. } | Call::Rgap { .. } | Call::Clear => {
            (engine, ReserveVerdict::never(known))
        }
    }
}
