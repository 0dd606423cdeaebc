//! What the seats of a tree's table, and of its turn, know. These are ghost, except for `TableStart`: no value of theirs is
//! made at run time.

use crate::table::MtTable;
use mt_base::{Call, Holder, Kind, Range, Reply};
use mt_life::Held;
use mt_rows::{Life, PlainRows};
use std::collections::LinkedList;
use std::snapshot::Snapshot;

/// What a table gets when it is made.
#[derive(Drop)]
pub struct TableStart {
    pub kind: Kind,
    pub passes: u32,
    pub calls: u64,
    /// The nodes as the tree opens.
    pub rows: Snapshot<PlainRows>,
}

/// What a table gets when it is made, as plain data.
pub struct Shape {
    pub kind: Kind,
    pub rows: u64,
    pub passes: u32,
    /// How many calls the tree may have.
    pub calls: u64,
    /// The map that the tree opens with, where its leaves begin, and how many nodes it has in use.
    pub opening: LinkedList<Range>,
    pub cuts: LinkedList<u64>,
    pub opened: u64,
}

/// A moment of a tree's history: who made the call, what it was, what it was answered, and where the leaves of the tree
/// begin after it.
pub struct Moment {
    pub pass: u32,
    pub call: Call,
    pub reply: Reply,
    pub cuts: LinkedList<u64>,
}

/// What a seat of a tree's table knows, in parts.
pub struct View {
    pub pen: Option<PenPart>,
    pub pass: Option<PassPart>,
    pub note: Option<NotePart>,
}

/// What the pen knows.
pub struct PenPart {
    pub shape: Shape,
    /// How many handles have been dealt.
    pub dealt: u32,
    pub history: LinkedList<Moment>,
    /// How many calls have ended.
    pub ended: u64,
    /// Whether a call was begun that has not ended, and whether it has published.
    pub in_flight: bool,
    pub published: bool,
    /// The root word, and the columns of all nodes, at their places in the table.
    pub root: u64,
    pub words: LinkedList<u64>,
    /// By the node's number: its life, and whether the call in flight has buried it.
    pub lives: LinkedList<Life>,
    pub buried: LinkedList<bool>,
    /// By the handle's number: a node that died by a call up to this one is out of the handle's reach.
    pub cleared: LinkedList<u64>,
    /// The sections that were found open.
    pub loaded: LinkedList<Holder>,
    /// The section words that were loaded since a handle was joined or a call began, in their order.
    pub sections: LinkedList<SectionWord>,
}

/// A section word that was loaded: whose it is, and what it was.
pub struct SectionWord {
    pub pass: u32,
    pub word: u64,
}

/// What a handle knows.
pub struct PassPart {
    pub shape: Shape,
    pub number: u32,
    /// The first moments of the history.
    pub seen: LinkedList<Moment>,
    /// The numbers of its own calls there.
    pub mine: LinkedList<u64>,
    /// The epochs at which it opened sections.
    pub opened: LinkedList<u64>,
    /// The epoch of the section that is open.
    pub standing: Option<u64>,
    /// The greatest number of calls that it knows to have begun.
    pub begun: u64,
    /// The greatest number of calls that it knows to have ended.
    pub ended: u64,
    /// The number of ended calls that it loaded last.
    pub epoch: u64,
    /// How many calls the history had when its section loaded the root word first.
    pub floor: Option<u64>,
    /// A number of calls that have begun, as a dead mark shows.
    pub risen: u64,
    /// The nodes whose parent word it loaded as their dead mark, the last one first.
    pub marks: LinkedList<u32>,
    /// The nodes that its section has reached, the last one first.
    pub held: LinkedList<Held>,
    /// How many steps it has made without the lock.
    pub steps: u64,
}

/// What a note holds.
pub struct NotePart {
    pub seen: LinkedList<Moment>,
}

/// What a seat at the turn knows.
pub struct TurnView {
    /// Whether it holds the value, and whether it has held it.
    pub holds: bool,
    pub held: bool,
    /// Whether it has found the value away.
    pub met: bool,
    /// How often its handle has gone for the value.
    pub tries: u64,
    /// The table that the turn serves.
    pub of: Snapshot<MtTable>,
}
