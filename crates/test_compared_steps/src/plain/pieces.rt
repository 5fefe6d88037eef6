//! Pieces of work on the jobs of a plain machine.

use crate::plain::keeping::{Input, Version, part_of};
use crate::plain::step::{Answer, Division};
use crate::plain::table::{Hull, Place, Table, put};
use crate::plain::working::{Built, Job, Output, Row, Share, Stage, Working, add_all, owned};
use lsm_device::Refusal;
use std::alloc::Global;

/// How many blocks a piece of work reads or writes.
const PIECE: u64 = 8;

/// With this number of runs of level 0 no flush is installed.
const MOST_RUNS: usize = 12;

/// The numbers of a job.
fn shared(alloc: Global, shares: &[Share], job: u64) -> Result<Vec<u64>, Refusal> {
    let mut numbers = Vec::new(alloc);
    for share in shares {
        if share.job == job {
            numbers.push(share.number)?;
        }
    }
    Ok(numbers)
}

/// Of versions those whose keys a range has.
fn within(alloc: Global, versions: &[Version], hull: Hull) -> Result<Vec<Version>, Refusal> {
    let mut found = Vec::new(alloc);
    for version in versions {
        if hull.has(version.key) {
            found.push(*version)?;
        }
    }
    Ok(found)
}

/// The tables of versions that are divided, under the numbers from one on, which is that of their run.
fn divided(
    alloc: Global,
    versions: &[Version],
    division: Division,
    place: Place,
) -> Result<Vec<Table>, Refusal> {
    let mut tables = Vec::new(alloc);
    let mut number = place.run;
    for part in 0..3_u8 {
        let part = part_of(alloc, versions, division, part)?;
        if !part.is_empty() {
            tables.push(Table::of(number, place, &part))?;
            number = number.wrapping_add(1);
        }
    }
    Ok(tables)
}

impl Working {
    fn job(&self, number: u64) -> Result<Job, Refusal> {
        for job in self.jobs.iter() {
            if job.number == number {
                return Ok(*job);
            }
        }
        Err(Refusal::NoSuchJob)
    }

    /// A held job is as this one now.
    fn set_job(&mut self, job: Job) {
        for held in self.jobs.iter_mut() {
            if held.number == job.number {
                *held = job;
            }
        }
    }

    /// A job is held no more.
    fn end(&mut self, alloc: Global, number: u64) -> Result<(), Refusal> {
        let mut jobs = Vec::new(alloc);
        for job in self.jobs.iter() {
            if job.number != number {
                jobs.push(*job)?;
            }
        }
        let mut taken_in = Vec::new(alloc);
        for share in self.taken_in.iter() {
            if share.job != number {
                taken_in.push(*share)?;
            }
        }
        let mut outputs = Vec::new(alloc);
        for output in self.outputs.iter() {
            if output.job != number {
                outputs.push(*output)?;
            }
        }
        self.jobs = jobs;
        self.taken_in = taken_in;
        self.outputs = outputs;
        Ok(())
    }

    pub(crate) fn read(&mut self, number: u64) -> Result<Answer, Refusal> {
        let mut job = self.job(number)?;
        let Stage::Reading(left) = job.stage else {
            return Err(Refusal::WrongState);
        };
        let left = left.saturating_sub(PIECE);
        job.stage = if left == 0 {
            Stage::Frozen
        } else {
            Stage::Reading(left)
        };
        self.set_job(job);
        Ok(Answer::Left(left))
    }

    fn input(&self, alloc: Global, job: Job) -> Result<Input, Refusal> {
        Ok(Input {
            versions: owned(alloc, &self.inputs, job.number)?,
            starts: shared(alloc, &self.starts, job.number)?,
            cuts: shared(alloc, &self.cuts, job.number)?,
            bottom: job.bottom,
        })
    }

    /// A job whose input is whole, and no result of which was accepted.
    fn frozen(&self, number: u64) -> Result<Job, Refusal> {
        let job = self.job(number)?;
        match job.stage {
            Stage::Frozen => Ok(job),
            _ => Err(Refusal::WrongState),
        }
    }

    /// What an accept for a job is answered of a result that was not built.
    pub(crate) fn foreign(&self, number: u64) -> Result<Answer, Refusal> {
        let _frozen = self.frozen(number)?;
        Err(Refusal::ForeignResult)
    }

    pub(crate) fn build(
        &mut self,
        alloc: Global,
        number: u64,
        division: Division,
    ) -> Result<Answer, Refusal> {
        let job = self.frozen(number)?;
        let input = self.input(alloc, job)?;
        let kept = input.kept(alloc)?;
        let tables = divided(alloc, &kept, division, self.next_place(job))?;
        self.built = Some(Built {
            input,
            kept,
            division,
        });
        Ok(Answer::Built(tables.len()))
    }

    /// Whether a result was built.
    pub(crate) fn has_result(&self) -> bool {
        self.built.is_some()
    }

    /// Where the outputs of a job come to stand that are numbered now.
    fn next_place(&self, job: Job) -> Place {
        let level = match job.level {
            Some(above) => above.wrapping_add(1),
            None => 0,
        };
        Place {
            level,
            run: self.next_table,
        }
    }

    /// The tables of what a job keeps by the result that was built last.
    fn result_of(&self, alloc: Global, job: Job) -> Result<Vec<Table>, Refusal> {
        let input = self.input(alloc, job)?;
        match &self.built {
            Some(built) if input.is_same(&built.input) => {
                divided(alloc, &built.kept, built.division, self.next_place(job))
            }
            _ => Err(Refusal::ForeignResult),
        }
    }

    /// The versions that tables of the result have that was built last.
    fn versions_of(&self, alloc: Global, tables: &[Table]) -> Result<Vec<Row>, Refusal> {
        let mut rows = Vec::new(alloc);
        if let Some(built) = &self.built {
            for table in tables {
                let versions = within(alloc, &built.kept, table.hull)?;
                add_all(&mut rows, table.number, &versions)?;
            }
        }
        Ok(rows)
    }

    pub(crate) fn accept(&mut self, alloc: Global, number: u64) -> Result<Answer, Refusal> {
        let mut job = self.frozen(number)?;
        let tables = self.result_of(alloc, job)?;
        let made = self.versions_of(alloc, &tables)?;
        self.made.extend_from_slice(&made)?;
        let mut blocks = 0_u64;
        for table in tables.iter() {
            self.outputs.push(Output {
                job: number,
                table: *table,
            })?;
            blocks = blocks.wrapping_add(table.blocks());
        }
        self.next_table = self.next_table.wrapping_add(tables.len() as u64);
        job.stage = Stage::Writing(blocks);
        self.set_job(job);
        Ok(Answer::Done)
    }

    pub(crate) fn write(&mut self, number: u64) -> Result<Answer, Refusal> {
        let mut job = self.job(number)?;
        let Stage::Writing(left) = job.stage else {
            return Err(Refusal::WrongState);
        };
        let left = left.saturating_sub(PIECE);
        job.stage = Stage::Writing(left);
        self.set_job(job);
        Ok(Answer::Left(left))
    }

    /// The tables that a job doesn't take in, and its outputs.
    fn tables_after(&self, alloc: Global, job: Job) -> Result<Vec<Table>, Refusal> {
        let mut tables = Vec::new(alloc);
        for table in self.tables.iter() {
            if !self.takes_in(job.number, table.number) {
                tables.push(*table)?;
            }
        }
        for output in self.outputs.iter() {
            if output.job == job.number {
                put(&mut tables, output.table)?;
            }
        }
        Ok(tables)
    }

    /// The versions of these tables.
    fn rows_after(&self, alloc: Global, job: Job) -> Result<Vec<Row>, Refusal> {
        let mut rows = Vec::new(alloc);
        for row in self.rows.iter() {
            if !self.takes_in(job.number, row.owner) {
                rows.push(*row)?;
            }
        }
        for output in self.outputs.iter() {
            if output.job == job.number {
                let versions = owned(alloc, &self.made, output.table.number)?;
                add_all(&mut rows, output.table.number, &versions)?;
            }
        }
        Ok(rows)
    }

    /// Whether a job is a flush for whose run level 0 has no place.
    pub(crate) fn lacks_place(&self, number: u64) -> bool {
        match self.job(number) {
            Ok(job) => job.level.is_none() && self.runs() >= MOST_RUNS,
            Err(_) => false,
        }
    }

    /// Puts a job's outputs in the place of what it took in. Returns whether it was a flush.
    pub(crate) fn install(&mut self, alloc: Global, number: u64) -> Result<bool, Refusal> {
        let job = self.job(number)?;
        let Stage::Writing(0) = job.stage else {
            return Err(Refusal::WrongState);
        };
        if self.lacks_place(number) {
            return Err(Refusal::TooManyRuns);
        }
        let is_flush = job.level.is_none();
        self.rows = self.rows_after(alloc, job)?;
        self.tables = self.tables_after(alloc, job)?;
        self.end(alloc, number)?;
        if is_flush {
            self.base = self.sealed_to;
        }
        Ok(is_flush)
    }

    pub(crate) fn drop_job(&mut self, alloc: Global, number: u64) -> Result<Answer, Refusal> {
        let _dropped = self.job(number)?;
        self.end(alloc, number)?;
        Ok(Answer::Done)
    }
}
