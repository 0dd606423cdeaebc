//! Scans of a lane, each by one cursor of its tree.

ghost use Rattle.std.specs.Prelude.{◌≡◌, ℕ, ◌+◌, ◌*◌, ◌≤◌, None, vec_len, vec_capacity};
ghost use Rattle.mt_log.specs.declared.lines.Item.{Item};
ghost use Rattle.mt_tree.specs.Asks.{OwnsSection};
ghost use Rattle.mt_tree.specs.Trees.{opened, pass_in, steps_made};
ghost use Rattle.mt_desks.specs.Scans.{IsScanDone};
ghost use Rattle.mt_desks.specs.Walks.{OpensOnce};
ghost use Rattle.mt_commands.specs.Walks.{walk_of};

use crate::trees::LaneTree;
use mt_base::{Range, Read};
use mt_desks::{Walks, scan};
use mt_log::Entry;
use mt_tree::Cursor;

impl<'a> Walks<LaneTree> for Cursor<'a> {
    ghost walk = { walk_of };

    ghost on = { λ c t. c.tree.now ≡ t.tree };

    ghost own = { λ c. OwnsSection c };

    fn step(&mut self) -> Read<Option<Range>> {
        self.advance()
    }

    fn close(&mut self) {
        self.halt();
    }
}

/// Makes a scan by a cursor of this tree.
pub(crate) fn scan_by(
    tree: &LaneTree,
    cursor: &mut Cursor<'_>,
    line: u64,
    count: u32,
    room: &mut Vec<Entry>,
)
    requires tree { cursor.old.tree.now ≡ tree.now.tree }
    requires own { OwnsSection cursor.old }
    requires room { vec_len room.old + count ≤ vec_capacity room.old }
    ensures same_reference { cursor.new.pass.ghost_name ≡ cursor.old.pass.ghost_name }
    ensures tree { cursor.new.tree.now ≡ tree.now.tree }
    ensures closed { (pass_in cursor.new.pass.now).standing ≡ None }
    ensures scanned { (lane phase number : ℕ) (item : Item) → IsScanDone
        (record { line = line; lane = lane; phase = phase; item = item }) number cursor.old.walk.max count cursor.old.walk.at
        (opened cursor.old.tree.now) (pass_in cursor.old.pass.now) (pass_in cursor.new.pass.now) room.old.items room.new.items }
    ensures once { OpensOnce (pass_in cursor.old.pass.now) (pass_in cursor.new.pass.now) }
    ensures few { steps_made cursor.new.pass.now ≤ steps_made cursor.old.pass.now + (220 * count + 1) }
    ensures len { vec_len room.new ≤ vec_len room.old + count }
    ensures capacity { vec_capacity room.new ≡ vec_capacity room.old }
{
    scan::<LaneTree, Cursor<'_>>(cursor, line, count, room);
}
