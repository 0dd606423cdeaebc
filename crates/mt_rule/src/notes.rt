//! How a pass (handle) passes on what it has seen to another.

ghost use Rattle.std.specs.Prelude.{◌≡◌, []};
ghost use Rattle.mt_rule.specs.Seats.{HasNote};

use crate::passes::Pass;
use crate::rule::{CopiesSeen, JoinsNote, Learns};
use crate::table::MtTable;
use crate::views::View;
use atomic_table::{Badge, Seat};

/// A copy of what a handle has seen of its tree's history.
#[derive(Drop)]
pub struct Note {
    pub(crate) seat: Seat<(), View>,
    ghost is_note: { HasNote seat.me.0 },
    ghost bare: { seat.me.1 ≡ [] },
}

impl MtTable {
    ghost use Rattle.std.specs.Prelude.{◌≡◌};
    ghost use Rattle.mt_base.specs.Passes.{Learned};
    ghost use Rattle.mt_rule.specs.Tokens.{identity_of, tree_in, IsPassOf, IsNoteOf, pass_in, note_in, turn_seat};

    /// Copies what the handle has seen.
    pub fn split_note(&self, pass: &mut Pass) -> Note
        requires pass { IsPassOf (identity_of self.now) pass.old }
        ensures pass { pass.new ≡ pass.old }
        ensures of { IsNoteOf (identity_of self.now) result }
        ensures note { note_in result ≡ (pass_in pass.old).seen }
    {
        let badge = std::mem::replace(&mut pass.seat, Badge::blank());
        let mut seat = badge.into_seat::<()>();
        let note = self.table.shared.split_seat::<CopiesSeen>(&mut seat);
        pass.seat = seat.into_badge();
        Note { seat: note }
    }

    /// Afterwards the handle has seen the longer of what it had seen and what the note holds. Each of these begins it.
    pub fn join_note(&self, pass: &mut Pass, note: Note)
        requires pass { IsPassOf (identity_of self.now) pass.old }
        requires note { IsNoteOf (identity_of self.now) note }
        ensures of { IsPassOf (identity_of self.now) pass.new }
        ensures learned { Learned (tree_in (identity_of self.now)) (pass_in pass.old) (note_in note) (pass_in pass.new) }
        ensures turn { turn_seat pass.new ≡ turn_seat pass.old }
    {
        let Note { seat: told } = note;
        let badge = std::mem::replace(&mut pass.seat, Badge::blank());
        let mut seat = badge.into_seat::<()>();
        self.table.shared.join_seat::<JoinsNote>(&mut seat, told);
        self.table.shared.load::<Learns>(&mut seat, 0);
        pass.seat = seat.into_badge();
    }
}
