ghost use Rattle.std.specs.Prelude.{◌≡◌, ◌≤◌, ◌<◌, ⊤, ℕ, List, length, IfOk};
ghost use Rattle.std.specs.declared.option.Option.{Option};
ghost use Rattle.std.specs.Io.KnownBytes.{ReadConsumes, WriteAppends};
ghost use Rattle.mt_io.specs.Faults.{HasCause, CountsLate};

/// A read or a write failed.
#[derive(Clone, Copy, Debug, PartialEq, Eq)]
pub struct Failed;

/// Where bytes come from.
///
/// Its meanings are the bytes `left`, if it reveals them; the number of `faults` so far; and `late`, which rises only at a call
/// after a fault.
pub trait Source {
    ghost left: { Self → Option (List ℕ) };

    ghost faults: { Self → ℕ };

    ghost late: { Self → ℕ };

    /// Reads the next bytes. None come only at the end, or where there is no room.
    ///
    /// # Errors
    ///
    /// `Failed` comes only where `faults` rose in this call, and takes nothing.
    fn read(&mut self, buf: &mut [u8]) -> Result<usize, Failed>
        ensures bound { IfOk result (λ n. n ≤ length buf.new) }
        ensures bytes { ReadConsumes (left self.old) (left self.new) result buf.new }
        ensures cause { HasCause (faults self.old) (faults self.new) result }
        ensures late { CountsLate (faults self.old) (late self.old) (late self.new) };
}

/// Where bytes go.
///
/// Its meanings are the bytes `written`, if it reveals them; the number of `faults` so far; and `late`, as for a [`Source`].
pub trait Sink {
    ghost written: { Self → Option (List ℕ) };

    ghost faults: { Self → ℕ };

    ghost late: { Self → ℕ };

    /// Appends the first bytes of the piece, at least one where there is one.
    ///
    /// # Errors
    ///
    /// `Failed` comes only where `faults` rose in this call, and appends nothing.
    fn write(&mut self, piece: &[u8]) -> Result<usize, Failed>
        ensures bound { IfOk result (λ n. n ≤ length piece.now) }
        ensures some { IfOk result (λ n. 0 < length piece.now → 0 < n) }
        ensures bytes { WriteAppends (written self.old) (written self.new) result piece.now }
        ensures cause { HasCause (faults self.old) (faults self.new) result }
        ensures late { CountsLate (faults self.old) (late self.old) (late self.new) };
}

/// Where a lane can be held between its steps.
///
/// A lane calls `turn(lane, 2s)` before its step s and `turn(lane, 2s + 1)` after it, s counted from 0 in the phase.
///
/// Its meaning is `passed`, that a lane came through a turn. A gate need not say more of it; a function over any gate can
/// show it only by taking the turn, and so can promise which turns it took.
pub trait Gate {
    ghost passed: { Self → ℕ → ℕ → Type 0 } = { λ _ _ _. ⊤ };

    /// Waits until the lane (thread) may pass this turn.
    fn turn(&self, lane: u32, number: u64)
        ensures { passed self.now lane number };
}

/// Holds nobody.
#[derive(Clone, Copy, Debug)]
pub struct NoGate;

impl Gate for NoGate {
    fn turn(&self, _lane: u32, _number: u64) {}
}
