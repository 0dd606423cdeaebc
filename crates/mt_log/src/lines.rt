use crate::lists::ListOf;
use crate::names::Word;
use crate::trees::{KnownTree, Trees};
use mt_base::{Call, Kind, Query};

/// What a line of a log says. Trees are numbered from 0 in the order of their lines, copies among them.
#[derive(Clone, Copy)]
pub enum Item {
    Tree {
        name: Word,
        kind: Kind,
    },
    Lane {
        lane: u32,
    },
    Join,
    Dup {
        from: u32,
        name: Word,
    },
    Check {
        tree: u32,
    },
    Write {
        tree: u32,
        call: Call,
    },
    Ask {
        tree: u32,
        query: Query,
    },
    Scan {
        tree: u32,
        index: u64,
        max: u64,
        count: u32,
    },
}

impl Item {
    ghost use Rattle.std.specs.Prelude.{◌≡◌};
    ghost use Rattle.mt_log.specs.Phases.{stepped_after};
    ghost use Rattle.mt_log.specs.Reading.{scan_steps_of};
    ghost use Rattle.mt_log.specs.Trees.{tree_declared_by};

    /// The tree that it declares, where these are known before it.
    pub fn declares(&self, trees: &Trees) -> Option<KnownTree>
        ensures { result ≡ tree_declared_by trees.now self.now }
    {
        match self {
            Item::Tree { name, kind } => Some(KnownTree {
                name: *name,
                kind: *kind,
            }),
            Item::Dup { from, name } => Some(trees.get(*from as usize)?.renamed(*name)),
            Item::Lane { .. }
            | Item::Join
            | Item::Check { .. }
            | Item::Write { .. }
            | Item::Ask { .. }
            | Item::Scan { .. } => None,
        }
    }

    /// Whether a step of its phase comes before the next line, given whether one comes before this line.
    pub fn stepped_after(&self, stepped: bool) -> bool
        ensures { result ≡ stepped_after stepped self.now }
    {
        match self {
            Item::Join => false,
            Item::Write { .. } | Item::Ask { .. } | Item::Scan { .. } => true,
            Item::Tree { .. } | Item::Lane { .. } | Item::Dup { .. } | Item::Check { .. } =>
                stepped,
        }
    }

    /// How many steps it has by its count, where it is a scan.
    pub fn scan_steps(&self) -> u32
        ensures { result ≡ scan_steps_of self.now }
    {
        match self {
            Item::Scan { count, .. } => *count,
            Item::Tree { .. }
            | Item::Lane { .. }
            | Item::Join
            | Item::Dup { .. }
            | Item::Check { .. }
            | Item::Write { .. }
            | Item::Ask { .. } => 0,
        }
    }
}

/// A line of a log, by its number from 1.
#[derive(Clone, Copy)]
pub struct Line {
    pub number: u64,
    pub item: Item,
}

/// A log: the lines that say something, in order.
#[derive(Drop)]
pub struct Log {
    pub version: u32,
    pub lines: ListOf<Line>,
}
