use mt_io::Gate;
use std::sync::atomic::{AtomicU64, Ordering};

/// Where lanes or workers meet: each is held in its turn 1 until all have reached theirs.
#[derive(Drop)]
pub struct Meeting {
    all: u64,
    come: AtomicU64,
    missed: AtomicU64,
}

impl Meeting {
    /// A meeting of this many.
    pub fn of(all: u64) -> Self {
        Meeting {
            all,
            come: AtomicU64::new(0),
            missed: AtomicU64::new(0),
        }
    }

    /// How many have come, and how many have missed the others.
    pub fn met(&self) -> (u64, u64) {
        (
            self.come.load(Ordering::SeqCst),
            self.missed.load(Ordering::SeqCst),
        )
    }
}

impl Gate for Meeting {
    fn turn(&self, _lane: u32, number: u64) {
        if number != 1 {
            return;
        }
        self.come.fetch_add(1, Ordering::SeqCst);
        for _ in 0..200_000_000u64 {
            if self.come.load(Ordering::SeqCst) == self.all {
                return;
            }
        }
        self.missed.fetch_add(1, Ordering::SeqCst);
    }
}
