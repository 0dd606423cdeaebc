//! Whether a call was answered by the map before it, or rightly refused for lack of nodes.

ghost use Rattle.std.specs.Prelude.{◌≡◌, ◌↔◌, ◌≤◌, ◌<◌, ◌^◌, IfOk, IsTrue, OnOk};
ghost use Rattle.mt_base.specs.Call.{acted};
ghost use Rattle.mt_base.specs.Map.{IsMap};
ghost use Rattle.mt_base.specs.Nodes.{IsRefused};
ghost use Rattle.mt_log.specs.Text.{reply_text};
ghost use Rattle.mt_verify.specs.Going.{IsAnsweredAt};
ghost use Rattle.mt_verify.specs.Histories.{map_after_noted};
ghost use Rattle.mt_verify.specs.Shortages.{shared_limits};
ghost use Rattle.mt_base.specs.Width.{most_rows};

use crate::noted::{Heard, Noted};
use crate::shortages::is_short;
use crate::wants::wants_rows;
use mt_base::{Call, Kind, NoMemory, Reply, Shortage};
use mt_list::Ranges;
use mt_shelves::ShelfMap;
use mt_told::is_reply;

/// Makes the call. Returns whether its reply prints as these bytes.
fn is_answer(map: &mut ShelfMap, version: u32, call: &Call, bytes: &[u8]) -> Result<bool, NoMemory>
    ensures kind { map.new.kind ≡ map.old.kind }
    ensures map { OnOk result (map.new.ranges ≡ (acted map.old.kind map.old.ranges call.now).0) }
    ensures same { IfOk result (λ same. IsTrue same
        ↔ (reply_text version (acted map.old.kind map.old.ranges call.now).1 ≡ bytes.now)) }
{
    let reply = map.act(call)?;
    Ok(is_reply(version, &reply, bytes))
}

/// Whether the call may be refused because nodes are short, with these numbers, after `ended` calls on a tree that opened with
/// at most `opened` nodes.
fn is_refused(
    map: &mut ShelfMap,
    kind: Kind,
    rows: u64,
    opened: u64,
    ended: u64,
    call: &Call,
    shortage: &Shortage,
) -> Result<bool, NoMemory>
    requires kind { kind ≡ map.old.kind }
    requires map { IsMap map.old.kind map.old.ranges }
    requires rows { rows ≤ most_rows }
    requires opened { opened < 2 ^ 62 }
    requires ended { ended < 2 ^ 57 }
    ensures kind { map.new.kind ≡ map.old.kind }
    ensures map { map.new.ranges ≡ map.old.ranges }
    ensures refused { IfOk result (λ yes. IsTrue yes
        ↔ IsRefused map.old.kind (shared_limits rows opened ended) map.old.ranges call.now (Reply.NoNodes shortage.now)) }
{
    if !wants_rows(map, kind, call)? {
        return Ok(false);
    }
    Ok(is_short(rows, opened, ended, map.count(), shortage))
}

/// Makes a call, unless it was refused because nodes are short. Returns whether it was answered or refused rightly.
pub fn agrees(
    map: &mut ShelfMap,
    kind: Kind,
    version: u32,
    rows: u64,
    opened: u64,
    ended: u64,
    noted: &Noted<'_>,
) -> Result<bool, NoMemory>
    requires kind { kind ≡ map.old.kind }
    requires map { IsMap map.old.kind map.old.ranges }
    requires rows { rows ≤ most_rows }
    requires opened { opened < 2 ^ 62 }
    requires ended { ended < 2 ^ 57 }
    ensures kind { map.new.kind ≡ map.old.kind }
    ensures map { OnOk result (map.new.ranges ≡ map_after_noted map.old.kind map.old.ranges noted.now) }
    ensures same { IfOk result (λ same. IsTrue same
        ↔ IsAnsweredAt map.old.kind version rows opened ended map.old.ranges noted.now) }
{
    match noted.heard {
        Heard::Reply(bytes) => is_answer(map, version, &noted.call, bytes),
        Heard::Short(shortage) => is_refused(
            map,
            kind,
            rows,
            opened,
            ended,
            &noted.call,
            &shortage,
        ),
    }
}
