//! The map of a tree after some of its calls, for the trees that are its copies.

ghost use Rattle.std.specs.Prelude.{◌≡◌, ◌≤◌, IfOk, length, OnOk};
ghost use Rattle.mt_base.specs.Map.{IsMap};
ghost use Rattle.mt_verify.specs.Histories.{map_after_noted, map_of_noted};

use crate::noted::{Heard, Noted};
use mt_base::NoMemory;
use mt_list::Ranges;
use mt_shelves::ShelfMap;

/// Makes a call again, unless it was refused for lack of nodes.
fn make_again(map: &mut ShelfMap, noted: &Noted) -> Result<(), NoMemory>
    ensures kind { map.new.kind ≡ map.old.kind }
    ensures map { OnOk result (map.new.ranges ≡ map_after_noted map.old.kind map.old.ranges noted.now) }
{
    if let Heard::Reply(_) = noted.heard {
        map.act(&noted.call)?;
    }
    Ok(())
}

/// Makes these calls again, one after another.
///
/// # Errors
///
/// `NoMemory` where memory ran out.
pub fn make_all_again(map: &mut ShelfMap, noted: &[Noted]) -> Result<(), NoMemory>
    ensures kind { map.new.kind ≡ map.old.kind }
    ensures map { OnOk result (map.new.ranges ≡ map_of_noted map.old.kind map.old.ranges noted.now (length noted.now)) }
{
    for one in noted {
        make_again(map, one)?;
    }
    Ok(())
}
