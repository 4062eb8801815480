//! Whether answers that are kept are found again.

/// So many may be missed before answers are looked for only now and then.
const PATIENCE: u64 = 64;

/// One that is found makes up for so many that are missed.
const WORTH: u64 = 4;

/// Then one in so many is looked for.
const RARELY: u64 = 16;

/// How often answers were looked for, and missed.
#[derive(Clone, Copy)]
pub struct Reuse {
    looked_for: u64,
    missed: u64,
    found: u64,
    counted: u64,
    passed_over: u64,
    patience: u64,
}

impl Reuse {
    pub fn new() -> Reuse {
        Reuse {
            looked_for: 0,
            missed: 0,
            found: 0,
            counted: 0,
            passed_over: 0,
            patience: PATIENCE,
        }
    }

    /// Whether an answer is passed over, which isn't looked for then.
    pub fn rests(&mut self) -> bool {
        self.settle();
        if self.patience > 0 {
            return false;
        }
        self.passed_over = self.passed_over.wrapping_add(1);
        self.passed_over % RARELY != 0
    }

    /// Counts that an answer is looked for.
    pub fn ask(&mut self) {
        self.looked_for = self.looked_for.wrapping_add(1);
    }

    /// Counts that it wasn't there.
    pub fn miss(&mut self) {
        self.missed = self.missed.wrapping_add(1);
    }

    /// What was looked for and not missed was found.
    fn settle(&mut self) {
        let found = self.looked_for.saturating_sub(self.missed);
        let gained = found.saturating_sub(self.found).saturating_mul(WORTH);
        let lost = self.missed.saturating_sub(self.counted);
        let patience = self.patience.saturating_add(gained).saturating_sub(lost);
        self.patience = if patience > PATIENCE {
            PATIENCE
        } else {
            patience
        };
        self.found = found;
        self.counted = self.missed;
    }
}
