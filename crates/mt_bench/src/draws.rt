//! Random numbers that are the same on every machine.

use std::alloc::{AllocError, Global};

/// A stream of numbers: its state is 64 bits wide, and at first the seed.
#[derive(Clone, Copy)]
pub struct DrawnIndexes {
    state: u64,
}

impl DrawnIndexes {
    pub fn new(seed: u64) -> Self {
        DrawnIndexes { state: seed }
    }

    /// The next number, which is below `bound` where that is above 0.
    pub fn below(&mut self, bound: u32) -> u32 {
        self.state = self
            .state
            .wrapping_mul(6_364_136_223_846_793_005)
            .wrapping_add(1_442_695_040_888_963_407);
        let scaled = (self.state >> 32).wrapping_mul(u64::from(bound));
        (scaled >> 32) as u32
    }
}

/// The numbers below `count`, in an order that looks random.
pub fn shuffled(alloc: Global, count: u32) -> Result<Vec<u32>, AllocError> {
    let mut order: Vec<u32> = (0..count).collect(alloc)?;
    let mut draws = DrawnIndexes::new(42);
    for k in (1..order.len()).rev() {
        let bound = u32::try_from(k + 1).unwrap_or(u32::MAX);
        let other = draws.below(bound) as usize;
        order.swap(k, other.min(k));
    }
    Ok(order)
}
