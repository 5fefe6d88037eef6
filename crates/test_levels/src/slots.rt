//! Slots that a job holds, or none.

use lsm_levels::HeldJobs;

/// Who holds slots.
#[derive(Clone, Copy, Drop)]
pub enum Slots {
    /// Nobody.
    Free,
    /// A flush.
    Flush,
    /// A merge of a level, which takes in one table.
    Merge { level: u8, table: u64 },
    /// A merge of the tables 90 and 91 of level 1.
    Several,
    /// A rewrite of the table 90 of level 2.
    Rewrite,
}

impl HeldJobs for Slots {
    ghost use Rattle.test_levels.specs.Jobs.{jobs_of};

    ghost jobs = { jobs_of };

    fn has_flush(&self) -> bool {
        matches!(self, Slots::Flush)
    }

    fn has_level_0(&self) -> bool {
        match self {
            Slots::Free | Slots::Flush | Slots::Several | Slots::Rewrite => false,
            Slots::Merge { level, table: _ } => *level == 0,
        }
    }

    fn has_merge(&self) -> bool {
        match self {
            Slots::Free | Slots::Flush => false,
            Slots::Merge { level: _, table: _ } | Slots::Several | Slots::Rewrite => true,
        }
    }

    fn has_several(&self) -> bool {
        matches!(self, Slots::Several | Slots::Rewrite)
    }

    fn takes_in(&self, number: u64) -> bool {
        match self {
            Slots::Free | Slots::Flush => false,
            Slots::Merge { level: _, table } => *table == number,
            Slots::Several => number == 90 || number == 91,
            Slots::Rewrite => number == 90,
        }
    }
}
