//! A thread that looks numbers up and goes through those that are taken, without a lock.

ghost use Rattle.mt_tree.specs.Trees.{IsPassOf};
ghost use Rattle.std.specs.Prelude.{◌≡◌, ◌<◌, ◌≤◌};

use crate::numbers::NUMBERS;
use crate::shared::TAKEN;
use mt_base::Steps;
use mt_tree::{Cursor, Pass, Tree};
use std::marker::Brand;
use std::sync::ledger::{Blank, Ledger};

/// A reader looks each number up and goes through all that are taken, so often.
pub const READS: u32 = 50;

/// A thread that reads, by a handle of the tree, and how often it saw what cannot be.
#[derive(Drop)]
pub struct ReadingThread<'a> {
    tree: &'a Tree,
    pass: Pass,
    pub faults: u32,
    ghost of: { IsPassOf tree.now pass },
}

/// Whether each number that a cursor finds is taken, and above the one before.
fn rises<L: Ledger>(cursor: &mut Cursor<'_>, steps: &mut Steps<L>) -> bool
    ensures same_reference { cursor.new.pass.ghost_name ≡ cursor.old.pass.ghost_name }
    ensures tree { cursor.new.tree ≡ cursor.old.tree }
{
    let mut least = 0;
    for _number in 0..NUMBERS {
        let Some(range) = cursor.step(steps).value else {
            return true;
        };
        if range.first < least || range.entry != TAKEN {
            return false;
        }
        least = range.last.saturating_add(1);
    }
    true
}

impl<'a> ReadingThread<'a> {
    pub fn new(tree: &'a Tree, pass: Pass) -> Self
        requires { IsPassOf tree.now pass }
    {
        ReadingThread {
            tree,
            pass,
            faults: 0,
        }
    }

    /// Looks each number up. Returns whether each was free or taken.
    fn look_up<L: Ledger>(&mut self, steps: &mut Steps<L>) -> bool {
        for number in 0..NUMBERS {
            let entry = self.tree.load(&mut self.pass, number, steps).value;
            if entry.is_some_and(|entry| entry != TAKEN) {
                return false;
            }
        }
        true
    }

    /// Goes through all numbers that are taken. Returns whether each is above the one before.
    fn walk<L: Ledger>(&mut self, steps: &mut Steps<L>) -> bool {
        let mut cursor = self.tree.cursor(&mut self.pass, 0, NUMBERS - 1);
        let rising = rises(&mut cursor, steps);
        cursor.pause(steps);
        rising
    }

    /// Does both `ROUNDS` times, and returns how often something was seen that cannot be.
    fn count_faults<L: Ledger>(&mut self, blank: Blank) -> u32
        requires name { blank.name ≡ L.name }
        requires parts { blank.parts ≡ L.parts }
        requires some { 0 < blank.parts }
        ensures { result ≤ READS }
    {
        let mut steps = Steps::<L>::new(blank);
        let mut faults = 0;
        for _read in 0..READS {
            if !self.look_up(&mut steps) || !self.walk(&mut steps) {
                faults += 1;
            }
        }
        faults
    }

    /// Reads so often.
    pub fn work(&mut self)
        ensures { self.new.faults ≤ READS }
    {
        self.faults = self.count_faults::<Brand>(Blank::new(1));
    }
}
