ghost use Rattle.std.specs.Prelude.{◌≡◌};
ghost use Rattle.mt_io.specs.Faults.{CountsLate, Rose};
ghost use Rattle.mt_io.specs.Memory.{one_more, late_after};

use crate::traits::Failed;

/// How many faults there were, and how many calls came after one. A count stays at its last value.
#[derive(Clone, Copy, Debug, PartialEq, Eq)]
pub struct Counts {
    pub faults: u64,
    pub late: u64,
}

impl Counts {
    pub fn new() -> Self
        ensures { result ≡ record { faults = 0; late = 0 } }
    {
        Counts { faults: 0, late: 0 }
    }

    /// Counts a call that begins.
    pub fn begin(&mut self)
        ensures faults { self.new.faults ≡ self.old.faults }
        ensures late { self.new.late ≡ late_after self.old.faults self.old.late }
        ensures rises { CountsLate self.old.faults self.old.late self.new.late }
    {
        if self.faults > 0 {
            self.late = self.late.saturating_add(1);
        }
    }

    /// Counts a fault.
    pub fn fail(&mut self) -> Failed
        ensures faults { self.new.faults ≡ one_more self.old.faults }
        ensures late { self.new.late ≡ self.old.late }
        ensures rose { Rose self.old.faults self.new.faults }
    {
        self.faults = self.faults.saturating_add(1);
        Failed
    }
}
