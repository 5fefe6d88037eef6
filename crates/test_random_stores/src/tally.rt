//! What came of all stores.

use crate::trouble::Trouble;
use std::alloc::Global;

/// What came of a store: how often it was full, how often a call that failed stopped it, and how often it was opened on a
/// device that had a store.
#[derive(Clone, Copy)]
pub(crate) struct Course {
    pub refusals: u64,
    pub stops: u64,
    pub openings: u64,
}

impl Course {
    /// It was full this number of times.
    pub fn of(refusals: u64) -> Course {
        Course {
            refusals,
            stops: 0,
            openings: 0,
        }
    }

    /// It was opened once more.
    pub fn and_opening(self) -> Course {
        let Course {
            refusals,
            stops,
            openings,
        } = self;
        Course {
            refusals,
            stops,
            openings: openings.wrapping_add(1),
        }
    }

    /// It was full once more.
    pub fn count_refusal(&mut self) {
        self.refusals = self.refusals.saturating_add(1);
    }

    /// A call that failed stopped it once more.
    pub fn count_stop(&mut self) {
        self.stops = self.stops.wrapping_add(1);
    }
}

/// What came of all stores.
pub struct Tally {
    /// How many there were.
    pub stores: u64,
    /// How often one was full, as a put was refused with `NoSpace`.
    pub refusals: u64,
    /// How often a call of a device that failed stopped one.
    pub stops: u64,
    /// How often one was opened again, synced before or after a crash.
    pub openings: u64,
    /// How many went wrong.
    pub wedged: u64,
    /// The stores that went wrong, each by its seed, as far as memory goes.
    pub troubles: Vec<(u64, Trouble)>,
}

impl Drop for Tally {
    fn drop(self) {
        let Tally {
            stores: _,
            refusals: _,
            stops: _,
            openings: _,
            wedged: _,
            troubles: _,
        } = self;
    }
}

impl Tally {
    /// No store yet.
    pub fn new(alloc: Global) -> Tally {
        Tally {
            stores: 0,
            refusals: 0,
            stops: 0,
            openings: 0,
            wedged: 0,
            troubles: Vec::new(alloc),
        }
    }

    /// Counts a store.
    pub(crate) fn count(&mut self, store: u64, went: Result<Course, Trouble>) {
        self.stores = self.stores.saturating_add(1);
        match went {
            Ok(course) => {
                self.refusals = self.refusals.saturating_add(course.refusals);
                self.stops = self.stops.saturating_add(course.stops);
                self.openings = self.openings.saturating_add(course.openings);
            }
            Err(trouble) => {
                self.wedged = self.wedged.saturating_add(1);
                let _ = self.troubles.push((store, trouble));
            }
        }
    }

    /// What holds of all stores.
    pub fn told(&self) -> &'static str {
        if self.wedged > 0 {
            return "a store was stuck, or had other rows";
        }
        if self.refusals < self.stores {
            return "few stores were full: none was stuck, and none had other rows";
        }
        if self.stops == 0 {
            return "stores were full: none was stuck, and none had other rows";
        }
        "stores were full and stopped: none was stuck, and none had other rows"
    }
}
