//! What has become of the rows of a tree, of which only clauses know.

ghost use Rattle.std.specs.Prelude.{◌≡◌, replicate, slice_set};
ghost use Rattle.mt_rows.specs.Fates.{changed, opened_with, table_of, with_reached};

use crate::words::Words;
use mt_base::Width;
use std::marker::{Model, Send};
use std::mem;
use std::snapshot::Snapshot;

/// What has become of a row.
#[derive(Clone, Copy)]
pub(crate) enum Fate {
    New,
    Draft,
    Live,
    /// The call of this number buried it. The row is dead once that call has published.
    Buried(u64),
}

/// What changes fates.
#[derive(Drop)]
pub(crate) enum Change {
    /// A row comes to this fate.
    Becomes {
        row: u32,
        fate: Fate,
    },
    /// The rows are live that are reached from a root word.
    Enlivens {
        width: Width,
        words: Snapshot<Words>,
        root: u64,
    },
    /// Before the first call the rows that are reached are live.
    Opens {
        width: Width,
        words: Snapshot<Words>,
        root: u64,
    },
}

/// So many rows of which none was used, or what a change has made of them. Only clauses see what stood before.
#[derive(Drop)]
pub(crate) enum Course {
    Unused(usize),
    Changed(Snapshot<Course>, Change),
}

/// What has become of each row. It takes no bytes when the program runs.
#[derive(Drop)]
pub(crate) struct Fates {
    course: Snapshot<Course>,
}

impl Model for Fates {
    ghost use Rattle.mt_rows.specs.Fates.{Fated, fates_of};

    ghost Value = { Fated };

    ghost view = { λ f. fates_of f.course.value };
}

impl Fates {
    /// So many rows of which none was used.
    pub(crate) fn new(rows: usize) -> Fates
        ensures { result ≡ record { items = replicate rows Fate.New; opened = 0 } }
    {
        Fates {
            course: Snapshot::of(&Course::Unused(rows)),
        }
    }

    /// Notes a change.
    fn note(&mut self, change: Change)
        ensures { self.new ≡ changed change self.old }
    {
        let before = mem::replace(&mut self.course, Snapshot::of(&Course::Unused(0)));
        self.course = Snapshot::of(&Course::Changed(before, change));
    }

    /// A row comes to a fate. Where there is no such row nothing changes.
    pub(crate) fn turn(&mut self, row: u32, fate: Fate)
        ensures { self.new ≡ record self.old { items = slice_set self.old.items row fate } }
    {
        self.note(Change::Becomes { row, fate });
    }

    /// The rows are live that are reached from a root word.
    pub(crate) fn enliven(&mut self, width: Width, words: &Words, root: u64)
        ensures { self.new ≡ with_reached (table_of width words.now) root self.old }
    {
        self.note(Change::Enlivens {
            width,
            words: Snapshot::of(words),
            root,
        });
    }

    /// Before the first call the rows that are reached are live, and so many are live then.
    pub(crate) fn open(&mut self, width: Width, words: &Words, root: u64)
        ensures { self.new ≡ opened_with (table_of width words.now) root self.old }
    {
        self.note(Change::Opens {
            width,
            words: Snapshot::of(words),
            root,
        });
    }
}

/// Fates own nothing that a thread could share.
unsafe impl Send for Fates {}
