//! The lines of a phase that a lane does, one after another. No list of them is kept.

ghost use Rattle.std.specs.Prelude.{◌≡◌, ◌∷◌, ◌≤◌, ◌^◌, [], IfOk, IfErr, IfSome, IfNone, length};
ghost use Rattle.mt_desks.specs.Dealing.{lines_of_lane, room_of};

use crate::dealing::{is_step, lane_after, room_for};
use mt_base::NoMemory;
use mt_log::Line;
use std::marker::Model;

/// What a lane needs in a phase: how many lines it does, and how many answers they have at most.
#[derive(Clone, Copy, Debug, PartialEq, Eq)]
pub struct Needs {
    pub steps: u64,
    pub room: usize,
}

/// What a lane needs in a phase of these lines. The phase begins in lane 0.
///
/// # Errors
///
/// `NoMemory` where the answers are more than any memory holds.
pub fn needs_of(lane: u32, lines: &[Line]) -> Result<Needs, NoMemory>
    ensures steps { IfOk result (λ needs. needs.steps ≡ length (lines_of_lane lane 0 lines.now)) }
    ensures room { IfOk result (λ needs. needs.room ≡ room_of (lines_of_lane lane 0 lines.now)) }
    ensures err { IfErr result (λ _. 2 ^ 64 ≤ room_of (lines_of_lane lane 0 lines.now)) }
{
    let mut steps = 0;
    let mut room = 0usize;
    let mut here = 0;
    for line in lines {
        if is_step(&line.item) && here == lane {
            steps += 1;
            room = room
                .checked_add(room_for(&line.item) as usize)
                .ok_or(NoMemory)?;
        }
        here = lane_after(here, &line.item);
    }
    Ok(Needs { steps, room })
}

/// The next line that a lane does, if the log is in the lane `here`; and how the log goes on after that line.
fn next_of_lane<'a>(lane: u32, here: u32, lines: &'a [Line]) -> Option<(&'a Line, u32, &'a [Line])>
    ensures some { IfSome result (λ next. lines_of_lane lane here lines.now ≡ next.0.now ∷ lines_of_lane lane next.1 next.2.now) }
    ensures none { IfNone result (lines_of_lane lane here lines.now ≡ []) }
{
    let mut here = here;
    let mut rest = lines;
    while let Some((line, others)) = rest.split_first() {
        let at = here;
        here = lane_after(at, &line.item);
        rest = others;
        if is_step(&line.item) && at == lane {
            return Some((line, here, rest));
        }
    }
    None
}

/// The lines of a phase that a lane does: all, and those that were not taken yet.
#[derive(Drop)]
pub struct OwnLines<'a> {
    lane: u32,
    lines: &'a [Line],
    here: u32,
    rest: &'a [Line],
}

impl<'a> Model for OwnLines<'a> {
    ghost use Rattle.mt_desks.specs.Dealing.{Owned, lines_of_lane};

    ghost Value = { Owned };

    ghost view = { λ o. record { all = lines_of_lane o.lane 0 o.lines.now; left = lines_of_lane o.lane o.here o.rest.now } };
}

impl<'a> OwnLines<'a> {
    ghost use Rattle.std.specs.Prelude.{◌≡◌, ◌∷◌, [], IfSome, IfNone};
    ghost use Rattle.mt_desks.specs.Dealing.{lines_of_lane};

    /// The lines of a phase that this lane does, none of which was taken. The phase begins in lane 0.
    pub fn new(lane: u32, lines: &'a [Line]) -> Self
        ensures all { result.all ≡ lines_of_lane lane 0 lines.now }
        ensures left { result.left ≡ result.all }
    {
        OwnLines {
            lane,
            lines,
            here: 0,
            rest: lines,
        }
    }

    /// Takes the next line.
    pub fn next(&mut self) -> Option<&'a Line>
        ensures some { IfSome result (λ line. self.old.left ≡ line.now ∷ self.new.left) }
        ensures none { IfNone result (self.old.left ≡ []) }
        ensures all { self.new.all ≡ self.old.all }
    {
        let _ = self.lines;
        let (line, here, rest) = next_of_lane(self.lane, self.here, self.rest)?;
        self.here = here;
        self.rest = rest;
        Some(line)
    }
}
