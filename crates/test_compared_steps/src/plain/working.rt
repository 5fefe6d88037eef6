//! Tables and jobs of a plain machine.

use crate::plain::batches::Batches;
use crate::plain::choosing::Next;
use crate::plain::keeping::{Input, Version, versions_of};
use crate::plain::step::{Answer, Division, TablesTold};
use crate::plain::table::{Hull, Table, Upper};
use lsm_device::Refusal;
use lsm_store::Choice;
use std::alloc::Global;

/// How many jobs there are at most.
pub(crate) const MOST_JOBS: usize = 4;

/// How far a job is.
#[derive(Clone, Copy)]
pub(crate) enum Stage {
    /// This number of blocks is left to read.
    Reading(u64),
    Frozen,
    /// This number of blocks is left to write.
    Writing(u64),
}

/// A job: its slot, the level above that of its outputs where it is a merge, and whether it is a rewrite or a merge of several
/// tables of a level from 1 on.
#[derive(Clone, Copy)]
pub(crate) struct Job {
    pub(crate) number: u64,
    pub(crate) slot: usize,
    pub(crate) level: Option<usize>,
    pub(crate) is_several: bool,
    pub(crate) bottom: bool,
    pub(crate) stage: Stage,
}

/// A table that is written for a job.
#[derive(Clone, Copy)]
pub(crate) struct Output {
    pub(crate) job: u64,
    pub(crate) table: Table,
}

/// A result: what it was built of, what it keeps of that, and where it is divided.
#[derive(Drop)]
pub(crate) struct Built {
    pub(crate) input: Input,
    pub(crate) kept: Vec<Version>,
    pub(crate) division: Division,
}

/// A version of a table or of what a job takes in.
#[derive(Clone, Copy)]
pub(crate) struct Row {
    pub(crate) owner: u64,
    pub(crate) version: Version,
}

/// A table that a job takes in, or a count whose map it keeps, or how many versions stand before a run of its input.
#[derive(Clone, Copy)]
pub(crate) struct Share {
    pub(crate) job: u64,
    pub(crate) number: u64,
}

/// The tables, level by level, of level 0 the newer first and of the others by their keys; the jobs, the result that was built last,
/// and which batches are in tables and which wait for a flush. While a store is open no number is given twice, so what belonged to a
/// table or a job that is gone may stay.
pub(crate) struct Working {
    pub(crate) tables: Vec<Table>,
    pub(crate) rows: Vec<Row>,
    pub(crate) jobs: Vec<Job>,
    pub(crate) outputs: Vec<Output>,
    /// The versions of outputs.
    pub(crate) made: Vec<Row>,
    pub(crate) taken_in: Vec<Share>,
    pub(crate) inputs: Vec<Row>,
    pub(crate) starts: Vec<Share>,
    pub(crate) cuts: Vec<Share>,
    pub(crate) built: Option<Built>,
    pub(crate) next_job: u64,
    pub(crate) next_table: u64,
    /// The number of the next table as the last root tells it, which the next opening goes on with.
    pub(crate) next_told: u64,
    /// The batches up to this number are in tables.
    pub(crate) base: u64,
    /// Those up to this number are in tables or sealed.
    pub(crate) sealed_to: u64,
}

impl Drop for Working {
    fn drop(self) {
        let Working {
            tables: _,
            rows: _,
            jobs: _,
            outputs: _,
            made: _,
            taken_in: _,
            inputs: _,
            starts: _,
            cuts: _,
            built: _,
            next_job: _,
            next_table: _,
            next_told: _,
            base: _,
            sealed_to: _,
        } = self;
    }
}

/// Adds versions of an owner.
pub(crate) fn add_all(
    rows: &mut Vec<Row>,
    owner: u64,
    versions: &[Version],
) -> Result<(), Refusal> {
    for version in versions {
        rows.push(Row {
            owner,
            version: *version,
        })?;
    }
    Ok(())
}

/// The versions of an owner.
pub(crate) fn owned(alloc: Global, rows: &[Row], owner: u64) -> Result<Vec<Version>, Refusal> {
    let mut versions = Vec::new(alloc);
    for row in rows {
        if row.owner == owner {
            versions.push(row.version)?;
        }
    }
    Ok(versions)
}

/// Whether a table goes on with the run of the one before it, if there is one.
fn goes_on(before: Option<Table>, table: Table) -> bool {
    match before {
        Some(before) => before.hull.ends_before(table.hull),
        None => false,
    }
}

impl Working {
    /// Neither a table nor a job; `base` batches are in tables.
    fn begun(alloc: Global, next_table: u64, base: u64, sealed_to: u64) -> Working {
        Working {
            tables: Vec::new(alloc),
            rows: Vec::new(alloc),
            jobs: Vec::new(alloc),
            outputs: Vec::new(alloc),
            made: Vec::new(alloc),
            taken_in: Vec::new(alloc),
            inputs: Vec::new(alloc),
            starts: Vec::new(alloc),
            cuts: Vec::new(alloc),
            built: None,
            next_job: 1,
            next_table,
            next_told: next_table,
            base,
            sealed_to,
        }
    }

    /// Neither a table nor a job.
    pub(crate) fn new(alloc: Global) -> Working {
        Working::begun(alloc, 1, 0, 0)
    }

    /// What an opening finds, of `count` batches: the tables, and no job.
    pub(crate) fn reopened(&self, alloc: Global, count: u64) -> Result<Working, Refusal> {
        let mut working = Working::begun(alloc, self.next_told, self.base, count);
        working.tables.extend_from_slice(&self.tables)?;
        working.rows.extend_from_slice(&self.rows)?;
        Ok(working)
    }

    /// The newest table stays in level 0, the next is of level 1, and so on.
    pub(crate) fn spread(&mut self) {
        let mut level = 0_usize;
        for table in self.tables.iter_mut() {
            table.level = level;
            level = level.wrapping_add(1);
        }
    }

    /// How many tables there are.
    pub(crate) fn tables(&self) -> usize {
        self.tables.len()
    }

    /// How many runs level 0 has.
    pub(crate) fn runs(&self) -> usize {
        let mut runs = 0_usize;
        for table in self.tables.iter() {
            runs = runs.wrapping_add(table.begins_run().into());
        }
        runs
    }

    /// The number of the table at a place of a level, if there is one.
    pub(crate) fn table_at(&self, level: usize, place: usize) -> Option<u64> {
        let mut found = 0_usize;
        for table in self.tables.iter() {
            if table.level == level {
                if found == place {
                    return Some(table.number);
                }
                found = found.wrapping_add(1);
            }
        }
        None
    }

    /// How many tables a level has.
    pub(crate) fn tables_in(&self, level: usize) -> usize {
        let mut tables = 0_usize;
        for table in self.tables.iter() {
            tables = tables.wrapping_add((table.level == level).into());
        }
        tables
    }

    /// The tables of all levels.
    pub(crate) fn told(&self) -> TablesTold {
        let mut told = TablesTold::NONE;
        for table in self.tables.iter() {
            told = told.and(table.told());
        }
        told
    }

    /// How many blocks the tables and the placed outputs take.
    pub(crate) fn blocks(&self) -> u64 {
        let mut blocks = 0_u64;
        for table in self.tables.iter() {
            blocks = blocks.wrapping_add(table.blocks());
        }
        for output in self.outputs.iter() {
            blocks = blocks.wrapping_add(output.table.blocks());
        }
        blocks
    }

    /// The job that a slot holds.
    pub(crate) fn job_in(&self, slot: usize) -> Option<Job> {
        for job in self.jobs.iter() {
            if job.slot == slot {
                return Some(*job);
            }
        }
        None
    }

    /// Whether a job takes a table in.
    pub(crate) fn takes_in(&self, job: u64, table: u64) -> bool {
        for share in self.taken_in.iter() {
            if share.job == job && share.number == table {
                return true;
            }
        }
        false
    }

    /// The first slot that holds no job.
    fn free_slot(&self) -> usize {
        for slot in 0..MOST_JOBS {
            if self.job_in(slot).is_none() {
                return slot;
            }
        }
        MOST_JOBS
    }

    /// The job of the next number takes in the tables of a merge. Returns the range of their keys, and their data blocks.
    fn gather(&mut self, upper: Upper) -> Result<(Hull, u64), Refusal> {
        let mut hull = Hull::EMPTY;
        let mut blocks = 0_u64;
        for table in self.tables.iter() {
            if upper.takes_in(*table) {
                self.taken_in.push(Share {
                    job: self.next_job,
                    number: table.number,
                })?;
                hull = hull.and(table.hull);
                blocks = blocks.wrapping_add(table.data_blocks);
            }
        }
        Ok((hull, blocks))
    }

    /// The tables that a job takes in, level by level.
    fn tables_of(&self, alloc: Global, job: u64) -> Result<Vec<Table>, Refusal> {
        let mut tables = Vec::new(alloc);
        for table in self.tables.iter() {
            if self.takes_in(job, table.number) {
                tables.push(*table)?;
            }
        }
        Ok(tables)
    }

    /// The job of the next number takes in the versions of its tables, one after another. A run of them goes on while the next table
    /// begins after the one before.
    fn gather_versions(&mut self, alloc: Global) -> Result<(), Refusal> {
        let job = self.next_job;
        let tables = self.tables_of(alloc, job)?;
        let mut before = None;
        let mut number = 0_u64;
        for table in tables.iter() {
            if !goes_on(before, *table) {
                self.starts.push(Share { job, number })?;
            }
            let versions = owned(alloc, &self.rows, table.number)?;
            add_all(&mut self.inputs, job, &versions)?;
            number = number.wrapping_add(versions.len() as u64);
            before = Some(*table);
        }
        Ok(())
    }

    /// Whether no table below the output of a merge of a level has a key of a range.
    fn is_bottom(&self, level: usize, hull: Hull) -> bool {
        for table in self.tables.iter() {
            if table.level > level.wrapping_add(1) && table.hull.meets(hull) {
                return false;
            }
        }
        true
    }

    fn merge(&mut self, alloc: Global, upper: Upper) -> Result<Job, Refusal> {
        let is_several = self.is_several(upper);
        let (hull, blocks) = self.gather(upper)?;
        self.gather_versions(alloc)?;
        Ok(Job {
            number: self.next_job,
            slot: self.free_slot(),
            level: Some(upper.above()),
            is_several,
            bottom: self.is_bottom(upper.above(), hull),
            stage: Stage::Reading(blocks),
        })
    }

    fn flush(&mut self, alloc: Global, batches: &Batches) -> Result<Job, Refusal> {
        let job = self.next_job;
        let versions = versions_of(alloc, batches, self.base, self.sealed_to)?;
        self.starts.push(Share { job, number: 0 })?;
        add_all(&mut self.inputs, job, &versions)?;
        Ok(Job {
            number: job,
            slot: self.free_slot(),
            level: None,
            is_several: false,
            bottom: false,
            stage: Stage::Frozen,
        })
    }

    fn add_cuts(&mut self, alloc: Global, batches: &Batches) -> Result<(), Refusal> {
        let cuts = batches.cuts(alloc)?;
        for cut in cuts.iter() {
            self.cuts.push(Share {
                job: self.next_job,
                number: *cut,
            })?;
        }
        Ok(())
    }

    /// Takes the job of a choice, or with no choice the next one.
    pub(crate) fn take(
        &mut self,
        alloc: Global,
        batches: &Batches,
        asked: Option<Choice>,
    ) -> Result<Answer, Refusal> {
        let taken = match asked {
            Some(choice) => self.chosen(choice),
            None => self.next(),
        };
        let Some(next) = taken else {
            return Ok(Answer::Taken(None));
        };
        let job = match next {
            Next::Flush => self.flush(alloc, batches)?,
            Next::Merge(upper) => self.merge(alloc, upper)?,
        };
        self.add_cuts(alloc, batches)?;
        self.jobs.push(job)?;
        self.next_job = self.next_job.wrapping_add(1);
        Ok(Answer::Taken(Some((job.number, job.level))))
    }
}
