//! Numbers of which each is handed out twice, and the report of the work on them.

ghost use Rattle.std.specs.Prelude.{⊤};

use crate::crews::{Report, Task, outcomes_of, run};
use crate::marks::Marks;
use crate::numbers::{NUMBERS, Numbers};
use std::alloc::Global;
use std::io;
use std::thread::Threads;

/// Numbers that are handed out twice each, one after the other.
#[derive(Drop)]
struct Twice {
    taken: u64,
    given_back: u64,
}

impl Numbers for Twice {
    ghost taken = { λ numbers. numbers.taken };

    ghost given_back = { λ numbers. numbers.given_back };

    ghost asked = { λ _ _ _. ⊤ };

    ghost gave = { λ _ _ _ _. ⊤ };

    fn take(&mut self) -> Option<u64> {
        let number = self.taken / 2 % NUMBERS;
        self.taken = self.taken.checked_add(1)?;
        Some(number)
    }

    fn give_back(&mut self, _number: u64) -> bool {
        match self.given_back.checked_add(1) {
            Some(given_back) => {
                self.given_back = given_back;
                true
            }
            None => false,
        }
    }
}

/// Has one thread work on such numbers, and prints the result: the marks show each number that was held twice.
pub fn work_on_twice<R: Threads + Print + Sync>(rt: &R, alloc: Global) -> io::Result<()> {
    let numbers = Twice {
        taken: 0,
        given_back: 0,
    };
    let mut tasks = Vec::new(alloc);
    tasks.push(Task::take(alloc, numbers)?)?;
    run(rt, tasks.as_mut_slice(), &Marks::new(alloc)?);
    let outcomes = outcomes_of(alloc, tasks.as_slice())?;
    print!(rt;
        "of numbers that are handed out twice:\n{}",
        Report { outcomes, left: 0 }
    )
}
