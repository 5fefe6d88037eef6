// When the state refuses an install, and how many tables it would leave.
ghost use Rattle.std.specs.Prelude.{◌≡◌, ◌≤◌, ◌+◌, ◌-◌, ◌^◌, ◌&&◌, nat_le, nat_lt, length};
ghost use Rattle.lsm_codec.specs.Answers.{Passes};
ghost use Rattle.lsm_jobs.specs.Installing.{job_told, outputs_told};
ghost use Rattle.lsm_levels.specs.Levels.{all_tables, places};
ghost use Rattle.lsm_levels.specs.Pick.{inputs, is_flush};
ghost use Rattle.lsm_store.specs.Memory.{AreConsistent, state_of, work_of};
ghost use Rattle.lsm_machine.specs.Work.{Install};
ghost use Rattle.lsm_machine.specs.WorkRefusals.{work_refusal};

use crate::memory::Memory;
use lsm_codec::LAST_NUMBER;
use lsm_device::Refusal;
use lsm_jobs::Written;
use lsm_levels::{Levels, Run};
use std::alloc::Allocator;

/// How many runs level 0 may have.
const MOST_RUNS: usize = 12;

/// How many tables may live.
const MOST_TABLES: usize = 1_024;

// How many tables there are in runs.
fn count_tables<A: Allocator>(runs: &[Run<A>]) -> usize
    requires { length (all_tables runs.now) ≤ 2 ^ 63 + 1 }
    ensures { result ≡ length (all_tables runs.now) }
{
    let mut count = 0;
    for run in runs {
        count += run.tables().len();
    }
    count
}

/// How many tables live.
pub(crate) fn count_live<A: Allocator>(levels: &Levels<A>) -> usize
    requires { length (all_tables (places levels.now)) ≤ 2 ^ 63 + 1 }
    ensures { result ≡ length (all_tables (places levels.now)) }
{
    count_tables(levels.runs()) + count_tables(levels.deeper())
}

// Whether a job is a flush.
pub(crate) fn is_flush<A: Allocator>(written: &Written<'_, A>) -> bool
    ensures { result ≡ is_flush (job_told written.now) }
{
    match written {
        Written::Flush { .. } => true,
        Written::Merge { .. } => false,
    }
}

// Whether an install would put too many runs into level 0, which has `runs`.
fn has_too_many_runs<A: Allocator>(runs: usize, written: &Written<'_, A>) -> bool
    ensures { result ≡ (is_flush (job_told written.now) && nat_le 12 runs) }
{
    is_flush(written) && runs >= MOST_RUNS
}

// How many tables are live after an install, where `live` are before.
fn live_after<A: Allocator>(live: usize, written: &Written<'_, A>) -> usize
    requires most { live + length (outputs_told written.now) ≤ 2 ^ 63 + 1 }
    requires taken_in { length (inputs (job_told written.now)) ≤ live }
    ensures { result ≡ (live + length (outputs_told written.now)) - length
        (inputs (job_told written.now)) }
{
    match written {
        Written::Flush { outputs } => live + outputs.len(),
        Written::Merge {
            upper,
            lower,
            outputs,
            ..
        } => live + outputs.len() - (upper.len() + lower.len()),
    }
}

// Whether these are too many.
fn has_too_many_tables<A: Allocator>(live: usize, written: &Written<'_, A>) -> bool
    requires most { live + length (outputs_told written.now) ≤ 2 ^ 63 + 1 }
    requires taken_in { length (inputs (job_told written.now)) ≤ live }
    ensures { result ≡ nat_lt 1024
        ((live + length (outputs_told written.now)) - length (inputs (job_told written.now))) }
{
    live_after(live, written) > MOST_TABLES
}

impl<A: Allocator> Memory<A> {
    /// Whether the state refuses an install.
    pub(crate) fn check_install(&self, job: u64) -> Result<(), Refusal>
        requires { AreConsistent self.now }
        ensures { Passes
            (work_refusal (record { state = state_of self.now; work = work_of self.now })
            (Install job)) result }
    {
        self.check_running()?;
        let runs = self.levels.runs().len();
        let written = self.jobs.written(job)?;
        if has_too_many_runs(runs, &written) {
            return Err(Refusal::TooManyRuns);
        }
        let live = count_live(&self.levels);
        if has_too_many_tables(live, &written) {
            return Err(Refusal::TooManyTables);
        }
        if self.regions.generation == LAST_NUMBER {
            return Err(Refusal::Exhausted);
        }
        Ok(())
    }
}
