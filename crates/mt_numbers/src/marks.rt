//! A table in which the threads themselves mark the numbers that they hold.

use crate::numbers::NUMBERS;
use std::alloc::{AllocError, Global};
use std::sync::atomic::{AtomicBool, Ordering};

/// Which numbers are held.
#[derive(Drop)]
pub struct Marks {
    held: Vec<AtomicBool>,
}

impl Marks {
    /// No number is held.
    pub fn new(alloc: Global) -> Result<Self, AllocError> {
        let mut held = Vec::new(alloc);
        for _ in 0..NUMBERS {
            held.push(AtomicBool::new(false))?;
        }
        Ok(Marks { held })
    }

    /// Marks a number as held, or as free. Returns whether the number is one of the table, and was marked otherwise.
    pub fn turn(&self, number: u64, held: bool) -> bool {
        self.held
            .get(number as usize)
            .is_some_and(|mark| mark.swap(held, Ordering::SeqCst) != held)
    }
}
