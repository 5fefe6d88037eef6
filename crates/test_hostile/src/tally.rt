//! How much was tried.

/// How much was tried.
#[derive(Clone, Copy)]
pub(crate) struct Tally {
    pub(crate) cases: u64,
    /// How many calls of the device failed, and how many growths were refused.
    pub(crate) failed: u64,
    pub(crate) refused: u64,
    pub(crate) openings: u64,
    /// How many images of drawn lives had tables.
    pub(crate) tables: u64,
}

impl Tally {
    pub(crate) const NONE: Tally = Tally {
        cases: 0,
        failed: 0,
        refused: 0,
        openings: 0,
        tables: 0,
    };

    /// What was tried in both.
    pub(crate) fn and(self, other: Tally) -> Tally {
        Tally {
            cases: self.cases.wrapping_add(other.cases),
            failed: self.failed.wrapping_add(other.failed),
            refused: self.refused.wrapping_add(other.refused),
            openings: self.openings.wrapping_add(other.openings),
            tables: self.tables.wrapping_add(other.tables),
        }
    }

    pub(crate) fn count_case(&mut self) {
        self.cases = self.cases.wrapping_add(1);
    }

    pub(crate) fn count_failed(&mut self, met: bool) {
        self.failed = self.failed.wrapping_add(met.into());
    }

    pub(crate) fn count_refused(&mut self, met: bool) {
        self.refused = self.refused.wrapping_add(met.into());
    }

    pub(crate) fn count_tables(&mut self, tables: usize) {
        self.tables = self.tables.wrapping_add((tables > 0).into());
    }

    /// Counts random stores, each as a case.
    pub(crate) fn count_stores(&mut self, led: &test_random_stores::Tally) {
        self.cases = self.cases.wrapping_add(led.stores);
        self.failed = self.failed.wrapping_add(led.stops);
        self.openings = self.openings.wrapping_add(led.openings);
    }

    pub(crate) fn count_opening(&mut self) {
        self.openings = self.openings.wrapping_add(1);
    }
}
