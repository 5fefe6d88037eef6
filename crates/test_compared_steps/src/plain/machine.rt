//! The machine: what it answers, and what a crash may leave of it.

use crate::plain::batches::{Batches, Map, rows_of, sectors_of, value_in};
use crate::plain::step::{Answer, Change, Condition, Division, RowsTold, Step, TablesTold, told};
use crate::plain::turns::{is_put_off, piece_in};
use crate::plain::working::{MOST_JOBS, Working};
use lsm_device::Refusal;
use lsm_store::{At, Stat};
use std::alloc::Global;

/// The sectors of a log region.
pub const LOG_SECTORS: u16 = 128;

/// The blocks of the data area of a device of 8,192 sectors.
const BLOCKS: u64 = 959;

/// The regions of the log.
const REGIONS: u64 = 3;

/// The open log: the number of its first batch, and how many sectors are used.
#[derive(Clone, Copy)]
struct Log {
    first: u64,
    used: u32,
}

/// A store as it is told of.
pub struct Machine {
    alloc: Global,
    batches: Batches,
    working: Working,
    log: Option<Log>,
    /// How many closed regions hold batches that are in no table.
    closed: u64,
    generation: u64,
    stopped: bool,
}

impl Drop for Machine {
    fn drop(self) {
        let Machine {
            alloc: _,
            batches: _,
            working: _,
            log: _,
            closed: _,
            generation: _,
            stopped: _,
        } = self;
    }
}

impl Machine {
    /// The store that the first opening finds on a formatted device.
    pub fn new(alloc: Global) -> Machine {
        Machine {
            alloc,
            batches: Batches::new(alloc),
            working: Working::new(alloc),
            log: Some(Log { first: 1, used: 0 }),
            closed: 0,
            generation: 2,
            stopped: false,
        }
    }

    /// How many regions give batches, where `count` batches are kept.
    fn closed_after(&self, count: u64) -> u64 {
        match self.log {
            Some(log) if count >= log.first => self.closed.wrapping_add(1),
            _ => self.closed,
        }
    }

    /// The store that an opening finds where nothing was lost.
    pub fn reopened(&self) -> Result<Machine, Refusal> {
        self.left(self.batches.count())
    }

    /// The store that an opening finds after a crash that kept `count` batches, and the last root.
    pub fn left(&self, count: u64) -> Result<Machine, Refusal> {
        let closed = self.closed_after(count);
        let first = count.wrapping_add(1);
        let log = if closed < REGIONS {
            Some(Log { first, used: 0 })
        } else {
            None
        };
        Ok(Machine {
            alloc: self.alloc,
            batches: self.batches.kept(self.alloc, count)?,
            working: self.working.reopened(self.alloc, count)?,
            log,
            closed,
            generation: self.generation.wrapping_add(1),
            stopped: false,
        })
    }

    /// The tables of level 0 are spread over all levels.
    pub fn spread(&mut self) {
        self.working.spread();
    }

    /// The tables of all levels, level by level.
    pub fn tables(&self) -> TablesTold {
        self.working.told()
    }

    /// How many tables a level has.
    pub fn tables_in(&self, level: usize) -> usize {
        self.working.tables_in(level)
    }

    /// The number of the table at a place of a level, counted by keys, and in level 0 from the newest run on.
    pub fn table_at(&self, level: usize, place: usize) -> Option<u64> {
        self.working.table_at(level, place)
    }

    /// How many batches there are, and how many of them are synced.
    pub fn counts(&self) -> (u64, u64) {
        (self.batches.count(), self.batches.synced)
    }

    /// The log after a batch, if it has room.
    fn log_behind(&self, change: Change) -> Result<Log, Refusal> {
        let Some(log) = self.log else {
            return Err(Refusal::LogFull);
        };
        let used = log.used.wrapping_add(sectors_of(change));
        if used > u32::from(LOG_SECTORS) {
            return Err(Refusal::LogFull);
        }
        let first = log.first;
        Ok(Log { first, used })
    }

    fn commit(&mut self, change: Change) -> Result<Answer, Refusal> {
        self.log = Some(self.log_behind(change)?);
        Ok(Answer::Number(self.batches.add(change)?))
    }

    fn commit_if(
        &mut self,
        first: Condition,
        second: Condition,
        change: Change,
    ) -> Result<Answer, Refusal> {
        let log = self.log_behind(change)?;
        let map = self.batches.map(self.batches.count());
        if value_in(&map, first.key) != first.value {
            return Err(Refusal::GuardFailed(0));
        }
        if value_in(&map, second.key) != second.value {
            return Err(Refusal::GuardFailed(1));
        }
        self.log = Some(log);
        Ok(Answer::Number(self.batches.add(change)?))
    }

    fn sync_to(&mut self, number: u64) -> Result<Answer, Refusal> {
        if number > self.batches.count() {
            return Err(Refusal::NoSuchBatch);
        }
        if number > self.batches.synced {
            self.batches.sync();
        }
        Ok(Answer::Done)
    }

    /// The map that is asked.
    fn map(&self, at: At) -> Result<Map, Refusal> {
        let count = match at {
            At::Now => self.batches.count(),
            At::Snap(number) => self.batches.count_at(number)?,
        };
        Ok(self.batches.map(count))
    }

    fn get(&self, at: At, key: u8) -> Result<Answer, Refusal> {
        let map = self.map(at)?;
        Ok(Answer::Found(value_in(&map, key)))
    }

    fn scan(&self, at: At, from: u8, limit: u64) -> Result<Answer, Refusal> {
        if limit < 1 || limit > 64 {
            return Err(Refusal::BadLimit);
        }
        let map = self.map(at)?;
        Ok(Answer::Rows(rows_of(&map, from, limit)))
    }

    fn release(&mut self, number: u64) -> Result<Answer, Refusal> {
        self.batches.release(number)?;
        Ok(Answer::Done)
    }

    /// A new root stands.
    fn advance(&mut self) {
        self.generation = self.generation.wrapping_add(1);
        self.working.next_told = self.working.next_table;
        self.batches.sync();
    }

    fn rotate(&mut self) -> Result<Answer, Refusal> {
        if self.closed > 0 {
            return Err(Refusal::SealedWaiting);
        }
        if let Some(log) = self.log {
            if log.used == 0 {
                return Err(Refusal::NothingToRotate);
            }
            self.closed = 1;
        }
        let count = self.batches.count();
        self.working.sealed_to = count;
        let first = count.wrapping_add(1);
        self.log = Some(Log { first, used: 0 });
        self.advance();
        Ok(Answer::Done)
    }

    fn room(&self) -> u32 {
        match self.log {
            Some(log) => u32::from(LOG_SECTORS).saturating_sub(log.used),
            None => 0,
        }
    }

    fn stat(&self) -> Stat {
        let free = BLOCKS.saturating_sub(self.working.blocks());
        Stat {
            generation: self.generation,
            batches: self.batches.count(),
            room: self.room(),
            waiting: self.closed > 0,
            runs: self.working.runs(),
            tables: self.working.tables(),
            free_blocks: u32::try_from(free).unwrap_or(0),
        }
    }

    fn install(&mut self, job: u64) -> Result<Answer, Refusal> {
        if self.working.install(self.alloc, job)? {
            self.closed = 0;
        }
        self.advance();
        Ok(Answer::Done)
    }

    fn call(&mut self, step: Step) -> Result<Answer, Refusal> {
        match step {
            Step::Commit(change) => self.commit(change),
            Step::CommitIf(first, second, change) => self.commit_if(first, second, change),
            Step::Sync => {
                self.batches.sync();
                Ok(Answer::Done)
            }
            Step::SyncTo(number) => self.sync_to(number),
            Step::Get(at, key) => self.get(at, key),
            Step::Scan(at, from, limit) => self.scan(at, from, limit),
            Step::Snapshot => Ok(Answer::Number(self.batches.mark()?)),
            Step::Release(number) => self.release(number),
            Step::Rotate => self.rotate(),
            Step::Room => Ok(Answer::Number(self.room().into())),
            Step::Stat => Ok(Answer::Numbers(self.stat())),
            _ => self.work(step),
        }
    }

    fn work(&mut self, step: Step) -> Result<Answer, Refusal> {
        match step {
            Step::Take => self.working.take(self.alloc, &self.batches, None),
            Step::TakeOf(choice) => self.working.take(self.alloc, &self.batches, Some(choice)),
            Step::Read(job) => self.working.read(job),
            Step::Build(job, _) => self.working.build(self.alloc, job, Division::NONE),
            Step::Divide(job, division) => self.working.build(self.alloc, job, division),
            Step::Accept(job) => self.working.accept(self.alloc, job),
            Step::Write(job) => self.working.write(job),
            Step::Install(job) => self.install(job),
            Step::Drop(job) => self.working.drop_job(self.alloc, job),
            _ => Ok(Answer::NoResult),
        }
    }

    /// Makes a step, and answers it.
    pub fn answer(&mut self, step: Step) -> Answer {
        if matches!(step, Step::Accept(_)) && !self.working.has_result() {
            return Answer::NoResult;
        }
        if self.stopped {
            return Answer::Refused(Refusal::Stopped);
        }
        told(self.call(step))
    }

    /// A write or a sync of a step met a fault: nothing more is known to be synced, and a commit's batch may stand or not. It
    /// answers what the step answers without the fault.
    pub fn stop(&mut self, step: Step) -> Answer {
        let synced = self.batches.synced;
        let answer = self.answer(step);
        self.batches.synced = synced;
        self.stopped = true;
        answer
    }

    /// What is answered to an accept for a job of a result that was not built.
    pub fn foreign(&self, job: u64) -> Answer {
        if self.stopped {
            return Answer::Refused(Refusal::Stopped);
        }
        told(self.working.foreign(job))
    }

    /// Whether a write or a sync met a fault.
    pub fn is_stopped(&self) -> bool {
        self.stopped
    }

    /// What a client's turn finds in the slot `behind` places after that of its number. There are four.
    pub fn piece_of(&self, client: u32, behind: usize) -> Option<Step> {
        if self.stopped || behind >= MOST_JOBS {
            return None;
        }
        let first = client as usize;
        piece_in(&self.working, first.wrapping_add(behind) % MOST_JOBS)
    }

    /// Whether a turn passes over this piece of work: level 0 has no place for the run of a flush.
    pub fn is_put_off(&self, step: Step) -> bool {
        is_put_off(&self.working, step)
    }

    /// The piece of work that comes next for a client, which asks the slots in turn.
    pub fn turn_of(&self, client: u32) -> Option<Step> {
        for behind in 0..MOST_JOBS {
            match self.piece_of(client, behind) {
                Some(step) if !self.is_put_off(step) => return Some(step),
                _ => {}
            }
        }
        None
    }

    /// Whether a step makes no call of the device but reads.
    pub fn only_reads(&self, step: Step) -> bool {
        step.is_read() || self.is_denied(step)
    }

    /// Whether one of a step's guards is false.
    fn is_denied(&self, step: Step) -> bool {
        let Step::CommitIf(first, second, _) = step else {
            return false;
        };
        let map = self.batches.map(self.batches.count());
        value_in(&map, first.key) != first.value || value_in(&map, second.key) != second.value
    }

    /// Whether an opening that finds this generation tells that the last root is lost: a write or a sync of it met a fault.
    pub fn has_lost_root(&self, generation: u64) -> bool {
        self.stopped && generation == self.generation
    }

    /// The number of the snapshot at a place among those that live, if there is one.
    pub fn snapshot_at(&self, place: usize) -> Option<u64> {
        self.batches.live(place)
    }

    /// Whether a crash may leave `count` batches: all that are synced, and no more than there are.
    pub fn may_leave(&self, count: u64) -> bool {
        self.batches.synced <= count && count <= self.batches.count()
    }

    /// All rows of the map after `count` batches.
    pub fn rows_after(&self, count: u64) -> RowsTold {
        rows_of(&self.batches.map(count), 0, 64)
    }
}
