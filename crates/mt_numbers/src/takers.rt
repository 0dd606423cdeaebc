//! A thread that takes numbers and gives them back.

ghost use Rattle.mt_numbers.specs.declared.takers.TheConstants.{HELD};
ghost use Rattle.mt_numbers.specs.Tallies.{Balances, IsTallied};
ghost use Rattle.std.specs.Prelude.{◌≡◌, ◌+◌, ◌-◌, ◌≤◌, ◌*◌, ◌<◌, ◌^◌, [], ◌++◌, vec_len, vec_capacity};

use crate::marks::Marks;
use crate::numbers::Numbers;
use std::alloc::{AllocError, Global};

/// How many numbers a taker holds at once.
const HELD: usize = 5;

/// How often it takes that many and gives them back.
const ROUNDS: u32 = 50;

/// It counts so far.
const MOST: u64 = 1 << 60;

/// What came of a taker's work: how many numbers it took, how many of these it gave back, and how many were not taken when it
/// did; and how often a number was marked as another one's.
#[derive(Clone, Copy, Default)]
pub struct Tally {
    pub taken: u64,
    pub given_back: u64,
    pub lost: u64,
    pub clashes: u64,
}

/// A thread that takes numbers, with what it holds and what came of its work.
#[derive(Drop)]
pub struct Taker<N: Drop> {
    numbers: N,
    held: Vec<u64>,
    pub tally: Tally,
    ghost room: { HELD ≤ vec_capacity held },
    ghost few: { vec_len held ≤ HELD },
    ghost balances: { Balances (vec_len held) tally },
}

impl<N: Numbers + Drop> Taker<N> {
    /// A taker that has not worked yet.
    pub fn new(alloc: Global, numbers: N) -> Result<Self, AllocError> {
        Ok(Taker {
            held: Vec::with_capacity(alloc, HELD)?,
            numbers,
            tally: Tally::default(),
        })
    }

    /// Takes a number, where one is free, and marks it as held.
    fn take(&mut self, marks: &Marks)
        requires room { vec_len self.old.held < HELD }
        requires few { self.old.tally.taken < MOST }
        ensures held { vec_len self.new.held ≤ vec_len self.old.held + 1 }
        ensures taken { self.new.tally.taken ≤ self.old.tally.taken + 1 }
        ensures told { IsTallied N.taken N.given_back self.old.tally self.new.tally self.old.numbers self.new.numbers }
    {
        let Some(number) = self.numbers.take() else {
            return;
        };
        if !marks.turn(number, true) {
            self.tally.clashes += 1;
        }
        self.tally.taken += 1;
        self.held.push_reserved(number);
    }

    /// Marks the last number that it holds as free, and gives it back.
    fn give_back(&mut self, marks: &Marks)
        requires few { self.old.tally.taken ≤ MOST }
        ensures held { vec_len self.new.held ≡ vec_len self.old.held - 1 }
        ensures taken { self.new.tally.taken ≡ self.old.tally.taken }
        ensures told { IsTallied N.taken N.given_back self.old.tally self.new.tally self.old.numbers self.new.numbers }
    {
        let Some(number) = self.held.pop() else {
            return;
        };
        if !marks.turn(number, false) {
            self.tally.clashes += 1;
        }
        if self.numbers.give_back(number) {
            self.tally.given_back += 1;
        } else {
            self.tally.lost += 1;
        }
    }

    /// Takes as many numbers as it holds at once.
    fn take_all(&mut self, marks: &Marks)
        requires none { vec_len self.old.held ≡ 0 }
        requires few { self.old.tally.taken + HELD ≤ MOST }
        ensures taken { self.new.tally.taken ≤ self.old.tally.taken + HELD }
        ensures told { IsTallied N.taken N.given_back self.old.tally self.new.tally self.old.numbers self.new.numbers }
    {
        for _taken in 0..HELD {
            self.take(marks);
        }
    }

    /// Gives back all that it holds.
    fn give_all_back(&mut self, marks: &Marks)
        requires few { self.old.tally.taken ≤ MOST }
        ensures none { vec_len self.new.held ≡ 0 }
        ensures taken { self.new.tally.taken ≡ self.old.tally.taken }
        ensures told { IsTallied N.taken N.given_back self.old.tally self.new.tally self.old.numbers self.new.numbers }
    {
        for _given in 0..HELD {
            self.give_back(marks);
        }
    }

    /// Takes numbers and gives them back, `ROUNDS` times. The tally has the result.
    pub fn work(&mut self, marks: &Marks)
        ensures all_back { self.new.tally.taken ≡ self.new.tally.given_back + self.new.tally.lost }
        ensures most { self.new.tally.taken ≤ ROUNDS * HELD }
        ensures taken { N.taken self.new.numbers ≡ N.taken self.old.numbers + self.new.tally.taken }
        ensures given_back { N.given_back self.new.numbers ≡ N.given_back self.old.numbers + self.new.tally.given_back }
    {
        self.held.clear();
        self.tally = Tally::default();
        for _round in 0..ROUNDS {
            self.take_all(marks);
            self.give_all_back(marks);
        }
    }
}
