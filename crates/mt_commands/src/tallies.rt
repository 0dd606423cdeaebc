//! What was drawn so far.

use mt_base::NoMemory;
use mt_ids::Drawn;
use std::alloc::Global;
use std::fmt;
use std::marker::Model;

/// The number of each draw so far, if it gave one, and their tally.
#[derive(Drop)]
pub(crate) struct Tally {
    numbers: Vec<Option<u64>>,
    first: Option<u64>,
    last: Option<u64>,
    wraps: u64,
    busy: u64,
}

impl Model for Tally {
    ghost use Rattle.std.specs.Prelude.{◌-◌, ◌≤◌, length, vec_len, vec_capacity};
    ghost use Rattle.mt_commands.specs.Turns.{Kept};

    ghost Value = { Kept };

    ghost view = { λ t. record {
      tally = record { numbers = t.numbers.items; first = t.first; last = t.last; wraps = t.wraps; busy = t.busy };
      room = vec_capacity t.numbers - vec_len t.numbers;
    } };

    ghost invariant = { λ t. (t.wraps ≤ vec_len t.numbers) × (t.busy ≤ vec_len t.numbers) };
}

impl Tally {
    ghost use Rattle.std.specs.Prelude.{◌≡◌, ◌+◌, ◌≤◌, IfOk};
    ghost use Rattle.mt_commands.specs.Only.{found_in};
    ghost use Rattle.mt_commands.specs.Turns.{number_due, no_tally, tallied};

    /// The tally of no draw, with room for `steps` draws.
    pub(crate) fn new(alloc: Global, steps: u32) -> Result<Self, NoMemory>
        ensures none { IfOk result (λ t. t.tally ≡ no_tally) }
        ensures room { IfOk result (λ t. steps ≤ t.room) }
    {
        Ok(Tally {
            numbers: Vec::with_capacity(alloc, steps as usize)?,
            first: None,
            last: None,
            wraps: 0,
            busy: 0,
        })
    }

    /// Notes what a draw gave.
    pub(crate) fn note(&mut self, drawn: &Drawn)
        requires { 1 ≤ self.old.room }
        ensures tally { self.new.tally ≡ tallied self.old.tally (found_in drawn.now) }
        ensures room { self.new.room + 1 ≡ self.old.room }
    {
        let Drawn::Number { at, wrapped } = *drawn else {
            self.numbers.push_reserved(None);
            self.busy += 1;
            return;
        };
        self.numbers.push_reserved(Some(at));
        self.first = self.first.or(Some(at));
        self.last = Some(at);
        self.wraps += u64::from(wrapped);
    }

    /// The number that is to be given back now.
    pub(crate) fn due(&self, drops: u32) -> Option<u64>
        ensures { result ≡ number_due drops self.now.tally.numbers }
    {
        let drops = drops as usize;
        let count = self.numbers.len();
        if drops < count {
            self.numbers[count - drops - 1]
        } else {
            None
        }
    }
}

/// A tally of `steps` draws, in print.
#[derive(Clone, Copy)]
pub(crate) struct Line<'a> {
    pub(crate) steps: u32,
    pub(crate) tally: &'a Tally,
}

impl<'a> fmt::Display for Line<'a> {
    ghost use Rattle.std.specs.Prelude.{Some};
    ghost use Rattle.mt_commands.specs.Turns.{tally_text};

    ghost output = { λ l. Some (tally_text l.steps l.tally.now.tally) };

    fn fmt<W: fmt::Write>(&self, f: &mut fmt::Formatter<W>) -> fmt::Result {
        let tally = self.tally;
        write!(
            f,
            "ids {} first {} last {} wraps {} busy {}",
            self.steps,
            tally.first.unwrap_or(0),
            tally.last.unwrap_or(0),
            tally.wraps,
            tally.busy
        )
    }
}
