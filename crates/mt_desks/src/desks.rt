//! A lane's desk over trees that several share.

ghost use Rattle.std.specs.Prelude.{◌≡◌, ℕ, true, None, ◌+◌, ◌<◌, ◌≤◌, length, map, vec_len, vec_capacity};
ghost use Rattle.mt_log.specs.declared.lines.Item.TheVariants as items;
ghost use Rattle.mt_log.specs.Trees.{NamesBelow};
ghost use Rattle.mt_desks.specs.Dealing.{asked_of, is_step, room_for, steps_for, line_tree};
ghost use Rattle.mt_desks.specs.Desks.{IsDoneOn, IsLineDone, IsManned};

use crate::dealing::tree_of;
use crate::own_lines::OwnLines;
use crate::scans::look;
use crate::shared::{Passage, Shared};
use mt_base::{Call, NoMemory};
use mt_lanes::Desk;
use mt_log::{Entry, Item, Line, Said};
use std::alloc::Global;
use std::sync::Wait;

/// Makes a call, and puts its number and reply into the room.
fn write<R: Wait, P: Passage, T: Shared<P>>(
    rt: &R,
    tree: &T,
    pass: &mut P,
    line: u64,
    call: &Call,
    room: &mut Vec<Entry>,
)
    requires of { T.serves tree.now pass.old }
    requires closed { (P.knows pass.old).standing ≡ None }
    requires room { vec_len room.old < vec_capacity room.old }
    ensures of { T.serves tree.now pass.new }
    ensures closed { (P.knows pass.new).standing ≡ None }
    ensures done { (lane phase number : ℕ) → IsDoneOn (T.tree tree.now) number
        (record { line = line; lane = lane; phase = phase; item = items.Write number call.now }) (P.knows pass.old)
        (P.knows pass.new) room.old.items room.new.items }
    ensures rests { P.steps pass.new ≡ P.steps pass.old }
    ensures len { vec_len room.new ≤ vec_len room.old + 1 }
    ensures capacity { vec_capacity room.new ≡ vec_capacity room.old }
{
    if let Ok(done) = tree.act(rt, pass, call) {
        let said = Said::Wrote {
            call: done.call,
            reply: done.reply,
        };
        room.push_reserved(Entry { line, said });
    }
}

/// Does a line by the handle on its tree, and puts the outcome after what the room holds.
fn answer_on<R: Wait, P: Passage, T: Shared<P>>(
    rt: &R,
    tree: &T,
    pass: &mut P,
    line: &Line,
    room: &mut Vec<Entry>,
)
    requires step { is_step line.now.item ≡ true }
    requires of { T.serves tree.now pass.old }
    requires closed { (P.knows pass.old).standing ≡ None }
    requires room { vec_len room.old + room_for line.now.item ≤ vec_capacity room.old }
    ensures of { T.serves tree.now pass.new }
    ensures closed { (P.knows pass.new).standing ≡ None }
    ensures done { (lane phase : ℕ) → IsDoneOn (T.tree tree.now) (line_tree line.now.item) (asked_of lane phase line.now) (P.knows pass.old)
        (P.knows pass.new) room.old.items room.new.items }
    ensures few { P.steps pass.new ≤ P.steps pass.old + steps_for line.now.item }
    ensures len { vec_len room.new ≤ vec_len room.old + room_for line.now.item }
    ensures capacity { vec_capacity room.new ≡ vec_capacity room.old }
{
    match line.item {
        Item::Write { call, .. } => write(rt, tree, pass, line.number, &call, room),
        Item::Ask { query, .. } => {
            look(rt, tree, pass, line.number, &query, room);
        }
        Item::Scan {
            index,
            max,
            count,
            ..
        } => tree.scan(pass, line.number, index, max, count, room),
        Item::Tree { .. }
        | Item::Lane { .. }
        | Item::Join
        | Item::Dup { .. }
        | Item::Check { .. } => {}
    }
}

/// Does a line by the handle on its tree, among all trees.
fn answer_line<R: Wait, P: Passage, T: Shared<P>>(
    rt: &R,
    trees: &[T],
    line: &Line,
    passes: &mut [P],
    room: &mut Vec<Entry>,
)
    requires named { NamesBelow (length trees.now) line.now.item }
    requires step { is_step line.now.item ≡ true }
    requires manned { IsManned P.knows T.serves trees.now passes.old }
    requires room { vec_len room.old + room_for line.now.item ≤ vec_capacity room.old }
    ensures manned { IsManned P.knows T.serves trees.now passes.new }
    ensures done { (lane phase : ℕ)
        → IsLineDone (map T.tree trees.now) (asked_of lane phase line.now) (map P.knows passes.old) (map P.knows passes.new) room.old.items room.new.items }
    ensures len { vec_len room.new ≤ vec_len room.old + room_for line.now.item }
    ensures capacity { vec_capacity room.new ≡ vec_capacity room.old }
{
    let at = tree_of(&line.item) as usize;
    answer_on(rt, &trees[at], &mut passes[at], line, room);
}

/// A lane's desk (worker) in a phase: its own lines, its pass (handle) on each tree, and the room for all its answers.
#[derive(Drop)]
pub struct LaneDesk<'a, R, P: Drop, T> {
    pub rt: &'a R,
    pub lane: u32,
    pub phase: u64,
    pub trees: &'a [T],
    pub lines: OwnLines<'a>,
    pub passes: Vec<P>,
    pub room: Vec<Entry>,
}

impl<'a, R: Wait, P: Passage + Drop, T: Shared<P>> Desk for LaneDesk<'a, R, P, T> {
    ghost use Rattle.std.specs.Prelude.{◌≡◌, length, vec_len, vec_capacity};
    ghost use Rattle.mt_desks.specs.Desks.{IsDeskReady, DeskDid, StillManned, desk_of};

    ghost count = { λ d. length d.lines.all };

    ghost awaits = { λ d s. IsDeskReady P.knows T.serves d.trees.now d.lines.all d.lines.left s d.passes.items (vec_len d.room) (vec_capacity d.room) };

    ghost did = { λ a s b. DeskDid (desk_of T.tree P.knows a.lane a.phase a.trees.now a.lines.all a.passes.items a.room.items) s
        (desk_of T.tree P.knows b.lane b.phase b.trees.now b.lines.all b.passes.items b.room.items)
        × StillManned P.knows T.serves a.trees.now b.trees.now b.passes.items };

    fn answer(&mut self, _step: u64) {
        let Some(line) = self.lines.next() else {
            unreachable!()
        };
        answer_line(
            self.rt,
            self.trees,
            line,
            self.passes.as_mut_slice(),
            &mut self.room,
        );
    }
}

impl<'a, R: Wait, P: Passage + Drop, T: Shared<P>> LaneDesk<'a, R, P, T> {
    ghost use Rattle.std.specs.Prelude.{◌≡◌, ◌≤◌, ◌+◌, IfOk, length, vec_len, vec_capacity};
    ghost use Rattle.mt_desks.specs.Dealing.{lines_of_lane};

    /// A desk for the lines of a phase that this lane does. It takes all its memory here. Its room is the one that it is given:
    /// with what that holds at the front, and with place for `count` more answers. Its handles are away.
    ///
    /// # Errors
    ///
    /// `NoMemory` where memory ran out.
    pub fn new(
        alloc: Global,
        rt: &'a R,
        lane: u32,
        phase: u64,
        trees: &'a [T],
        lines: &'a [Line],
        more: usize,
        mut room: Vec<Entry>,
    ) -> Result<Self, NoMemory>
        ensures lane { IfOk result (λ d. d.lane ≡ lane) }
        ensures phase { IfOk result (λ d. d.phase ≡ phase) }
        ensures trees { IfOk result (λ d. d.trees.now ≡ trees.now) }
        ensures lines { IfOk result (λ d. d.lines.all ≡ lines_of_lane lane 0 lines.now) }
        ensures left { IfOk result (λ d. d.lines.left ≡ d.lines.all) }
        ensures passes { IfOk result (λ d. vec_len d.passes ≡ length trees.now) }
        ensures told { IfOk result (λ d. d.room.items ≡ room.items) }
        ensures roomy { IfOk result (λ d. vec_len d.room + more ≤ vec_capacity d.room) }
    {
        let mut passes = Vec::with_capacity(alloc, trees.len())?;
        for _tree in 0..trees.len() {
            passes.push_reserved(P::away());
        }
        room.reserve(more)?;
        Ok(LaneDesk {
            rt,
            lane,
            phase,
            trees,
            lines: OwnLines::new(lane, lines),
            passes,
            room,
        })
    }
}
