//! Which job of a plain machine is taken.

use crate::plain::table::{Table, Upper};
use crate::plain::working::{MOST_JOBS, Working};
use lsm_store::Choice;

/// How many runs of level 0 make a merge come next.
const MERGED_RUNS: usize = 4;

/// The job that is taken: a flush, or the merge or the rewrite of some tables.
#[derive(Clone, Copy)]
pub(crate) enum Next {
    Flush,
    Merge(Upper),
}

impl Working {
    /// Whether a job is held whose outputs come below this level, or a flush.
    fn holds(&self, level: Option<usize>) -> bool {
        for job in self.jobs.iter() {
            if job.level == level {
                return true;
            }
        }
        false
    }

    fn holds_merge(&self) -> bool {
        for job in self.jobs.iter() {
            if job.level.is_some() {
                return true;
            }
        }
        false
    }

    /// Whether a rewrite, or a merge of several tables of a level from 1 on, is held.
    fn holds_several(&self) -> bool {
        for job in self.jobs.iter() {
            if job.is_several {
                return true;
            }
        }
        false
    }

    /// Whether no job takes a table in.
    fn is_free(&self, table: u64) -> bool {
        for job in self.jobs.iter() {
            if self.takes_in(job.number, table) {
                return false;
            }
        }
        true
    }

    /// Whether no job takes in a table that a merge takes in.
    fn can_merge(&self, upper: Upper) -> bool {
        for table in self.tables.iter() {
            if upper.takes_in(*table) && !self.is_free(table.number) {
                return false;
            }
        }
        true
    }

    /// Whether a job is a rewrite, or a merge of several tables of a level from 1 on.
    pub(crate) fn is_several(&self, upper: Upper) -> bool {
        let mut count = 0_usize;
        for table in self.tables.iter() {
            if upper.has(*table) {
                count = count.wrapping_add(1);
            }
        }
        upper.is_rewrite || (upper.level > 0 && count > 1)
    }

    /// Whether a merge may run along with the held jobs: no other merge runs with a rewrite, or with one of several tables.
    fn may_stand(&self, upper: Upper) -> bool {
        !self.holds_several() && (!self.is_several(upper) || !self.holds_merge())
    }

    /// The merge or the rewrite of some tables, if it can be taken.
    fn merge_of(&self, upper: Upper) -> Option<Next> {
        if self.jobs.len() >= MOST_JOBS || !self.may_stand(upper) || !self.can_merge(upper) {
            return None;
        }
        Some(Next::Merge(upper))
    }

    /// The `count` oldest runs of level 0, if there are that many.
    fn oldest(&self, count: usize) -> Option<Upper> {
        let newer = self.runs().checked_sub(count)?;
        let mut begun = 0_usize;
        let mut oldest: Option<Upper> = None;
        for table in self.tables.iter() {
            begun = begun.wrapping_add(table.begins_run().into());
            if table.level == 0 && begun > newer {
                oldest = match oldest {
                    Some(upper) => Some(upper.and(*table)),
                    None => Some(table.alone()),
                };
            }
        }
        oldest
    }

    /// The merge of the `count` oldest runs, if it can be taken.
    fn merge_of_runs(&self, count: usize) -> Option<Next> {
        if self.holds(Some(0)) {
            return None;
        }
        let upper = self.oldest(count)?;
        self.merge_of(upper)
    }

    /// The table of a number.
    fn table(&self, number: u64) -> Option<Table> {
        for table in self.tables.iter() {
            if table.number == number {
                return Some(*table);
            }
        }
        None
    }

    /// The tables of a level from 1 on, from that of one number to that of another, if there are both in this order.
    fn neighbours(&self, first: u64, last: u64) -> Option<Upper> {
        let first = self.table(first)?;
        let last = self.table(last)?;
        if first.level == 0 || first.level != last.level || last.hull.ends_before(first.hull) {
            return None;
        }
        Some(Upper::from(first, last))
    }

    /// The merge of neighbours of a level from 1 to 3, if it can be taken.
    fn merge_of_tables(&self, first: u64, last: u64) -> Option<Next> {
        let upper = self.neighbours(first, last)?;
        if upper.level > 3 {
            return None;
        }
        self.merge_of(upper)
    }

    /// The rewrite of neighbours of a level from 1 on, if it can be taken.
    fn rewrite_of(&self, first: u64, last: u64) -> Option<Next> {
        let upper = self.neighbours(first, last)?;
        self.merge_of(upper.rewritten())
    }

    /// Of the tables of a level that are mostly deletes and can be merged the least-numbered.
    fn next_of_deletes(&self, level: usize) -> Option<Table> {
        let mut least = None;
        for table in self.tables.iter() {
            let is_wanted = table.level == level && table.is_mostly_deletes;
            if is_wanted && self.can_merge(table.alone()) && table.is_less(least) {
                least = Some(*table);
            }
        }
        least
    }

    /// The merge that comes next. With so few blocks no level is over its limit.
    fn next_merge(&self) -> Option<Next> {
        if self.runs() >= MERGED_RUNS {
            if let Some(next) = self.merge_of_runs(1) {
                return Some(next);
            }
        }
        for level in 1..4_usize {
            if let Some(table) = self.next_of_deletes(level) {
                return Some(Next::Merge(table.alone()));
            }
        }
        None
    }

    /// Whether a job comes next.
    pub(crate) fn has_next(&self) -> bool {
        self.next().is_some()
    }

    /// The job that comes next: while a rewrite or a merge of several tables is held, only a flush.
    pub(crate) fn next(&self) -> Option<Next> {
        if self.jobs.len() >= MOST_JOBS {
            return None;
        }
        if self.base < self.sealed_to && !self.holds(None) {
            return Some(Next::Flush);
        }
        if self.holds_several() {
            return None;
        }
        self.next_merge()
    }

    /// The job of a choice, if there is one.
    pub(crate) fn chosen(&self, choice: Choice) -> Option<Next> {
        match choice {
            Choice::OldestRuns { count } => self.merge_of_runs(count),
            Choice::Tables { first, last } => self.merge_of_tables(first, last),
            Choice::Rewrite { first, last } => self.rewrite_of(first, last),
        }
    }
}
