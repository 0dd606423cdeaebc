//! Whether a call needs nodes, by the map before it.

ghost use Rattle.std.specs.Prelude.{◌≡◌, ◌≤◌, false, not, is_some, IfOk};
ghost use Rattle.mt_base.specs.Call.{is_no_area};
ghost use Rattle.mt_base.specs.Holes.{low, high};
ghost use Rattle.mt_base.specs.Map.{is_held};
ghost use Rattle.mt_base.specs.Nodes.{is_exactly};
ghost use Rattle.mt_verify.specs.Wanting.{is_start, store_wants, wants};

use mt_base::{Call, Kind, NoMemory, Query, Range, Reply, is_bad_area, is_invalid};
use mt_list::Ranges;
use mt_shelves::ShelfMap;

/// Whether a range holds some index of `first` to `last`.
#[tactic(auto, using(crate::proofs::Asked::met_is))]
fn is_met(map: &mut ShelfMap, first: u64, last: u64) -> bool
    requires { first ≤ last }
    ensures map { map.new ≡ map.old }
    ensures met { result ≡ is_held map.old.ranges first last }
{
    map.ask(&Query::Find {
        index: first,
        max: last,
    })
    .is_some()
}

/// Whether the range is of exactly these indexes.
fn is_exactly(first: u64, last: u64, range: &Option<Range>) -> bool
    ensures { result ≡ is_exactly first last range.now }
{
    match range {
        Some(range) => range.first == first && range.last == last,
        None => false,
    }
}

/// Whether a valid store needs nodes.
fn store_wants(map: &mut ShelfMap, first: u64, last: u64, entry: u64) -> bool
    requires { first ≤ last }
    ensures map { map.new ≡ map.old }
    ensures wants { result ≡ store_wants map.old.ranges first last entry }
{
    if entry == 0 {
        return is_met(map, first, last);
    }
    let held = map.ask(&Query::Load { index: first });
    !is_exactly(first, last, &held)
}

/// Whether a start was found.
fn is_start(reply: &Reply) -> bool
    ensures { result ≡ is_start reply.now }
{
    matches!(reply, Reply::Start(_))
}

/// Whether a search of a window from below, or from above, finds room: the map answers as it does to a caller.
#[tactic(auto, using(crate::proofs::Asked::start_is))]
fn has_low(map: &mut ShelfMap, kind: Kind, size: u64, min: u64, max: u64) -> Result<bool, NoMemory>
    requires kind { kind ≡ map.old.kind }
    requires area { is_no_area kind size min max ≡ false }
    ensures kind { map.new.kind ≡ map.old.kind }
    ensures map { map.new.ranges ≡ map.old.ranges }
    ensures room { IfOk result (λ yes. yes ≡ is_some (low kind map.old.ranges size min max)) }
{
    let reply = map.act(&Call::Gap { size, min, max })?;
    Ok(is_start(&reply))
}

/// As `has_low`, from above.
#[tactic(auto, using(crate::proofs::Asked::start_is))]
fn has_high(map: &mut ShelfMap, kind: Kind, size: u64, min: u64, max: u64) -> Result<bool, NoMemory>
    requires kind { kind ≡ map.old.kind }
    requires area { is_no_area kind size min max ≡ false }
    ensures kind { map.new.kind ≡ map.old.kind }
    ensures map { map.new.ranges ≡ map.old.ranges }
    ensures room { IfOk result (λ yes. yes ≡ is_some (high kind map.old.ranges size min max)) }
{
    let reply = map.act(&Call::Rgap { size, min, max })?;
    Ok(is_start(&reply))
}

/// Whether a call needs nodes. The map is read and not changed.
#[tactic(auto, using(mt_base::proofs::CallsKeepOrder::valid_order))]
pub fn wants_rows(map: &mut ShelfMap, kind: Kind, call: &Call) -> Result<bool, NoMemory>
    requires { kind ≡ map.old.kind }
    ensures kind { map.new.kind ≡ map.old.kind }
    ensures map { map.new.ranges ≡ map.old.ranges }
    ensures wants { IfOk result (λ yes. yes ≡ wants kind map.old.ranges call.now) }
{
    match *call {
        Call::Store { first, last, entry } => {
            Ok(!is_invalid(kind, first, last, entry) && store_wants(map, first, last, entry))
        }
        Call::StorePre { first, last, entry } => Ok(!is_invalid(kind, first, last, entry)),
        Call::Insert { first, last, entry } => {
            Ok(!is_invalid(kind, first, last, entry) && entry != 0 && !is_met(map, first, last))
        }
        Call::Erase { index } => Ok(map.ask(&Query::Load { index }).is_some()),
        Call::Alloc {
            size,
            min,
            max,
            entry,
        } => {
            if is_bad_area(kind, size, min, max, entry) {
                return Ok(false);
            }
            has_low(map, kind, size, min, max)
        }
        Call::Ralloc {
            size,
            min,
            max,
            entry,
        } => {
            if is_bad_area(kind, size, min, max, entry) {
                return Ok(false);
            }
            has_high(map, kind, size, min, max)
        }
        Call::Gap { .. } | Call::Rgap { .. } | Call::Clear => Ok(false),
    }
}
