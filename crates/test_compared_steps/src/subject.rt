//! A store on a device in memory, whose calls tell the prover nothing.

use crate::disk::Disk;
use crate::plain::{
    Answer, Change, Condition, Division, Operation, RowsTold, Step, TablesTold, Value, told,
};
use crate::tables::told_tables;
use lsm_codec::{Batch, Guard, Key, Op};
use lsm_device::{MemDevice, Refusal};
use lsm_lives::{Reply, Step as Asked, replay};
use lsm_merge::{Built, Input, build, build_divided};
use lsm_store::{At, Choice, Page, Store, TakenJob};
use std::alloc::{AllocError, Allocator, Global};
use std::sync::Arc;
use std::thread::Threads;

/// How many blocks the cache keeps.
const CACHE: u32 = 256;

/// A store, and the result that was built last of a job of it.
pub struct Subject<A: Allocator, B: Allocator = Global> {
    alloc: A,
    store: Store<MemDevice<B>, A>,
    result: Option<Built<A>>,
}

// One call at each exit, in the place of all that a store is made of.
impl<A: Allocator, B: Allocator> Drop for Subject<A, B> {
    fn drop(self) {
        let Subject {
            alloc: _,
            store: _,
            result: _,
        } = self;
    }
}

/// The only byte, or 0.
fn only(bytes: &[u8]) -> u8 {
    match bytes {
        [byte] => *byte,
        _ => 0,
    }
}

/// What a value says: its byte and its length, or a length that no value has where its bytes are not equal.
pub(crate) fn value_of(bytes: &[u8]) -> Value {
    let byte = bytes.first().copied().unwrap_or(0);
    for other in bytes {
        if *other != byte {
            return Value {
                byte,
                length: u16::MAX,
            };
        }
    }
    let length = u16::try_from(bytes.len()).unwrap_or(u16::MAX);
    Value { byte, length }
}

pub(crate) fn told_page<A: Allocator>(page: &Page<A>) -> Answer {
    let mut rows = RowsTold::NONE;
    for place in 0..page.rows().len() {
        if let Some(row) = page.rows().get(place) {
            rows = rows.and(only(row.key), value_of(row.value));
        }
    }
    if let Some(key) = page.next_key() {
        rows.next = Some(only(key));
    }
    Answer::Rows(rows)
}

pub(crate) fn told_taken(taken: Option<TakenJob>) -> Answer {
    match taken {
        Some(job) => Answer::Taken(Some((job.number, job.level))),
        None => Answer::Taken(None),
    }
}

/// The bytes of a value.
fn bytes_of<A: Allocator>(alloc: A, value: Value) -> Result<Vec<u8, A>, AllocError> {
    let bytes = vec![in alloc; value.byte; usize::from(value.length)]?;
    Ok(bytes)
}

fn operation_of<A: Allocator + Clone>(alloc: A, operation: Operation) -> Result<Op<A>, Refusal> {
    match operation.value {
        Some(value) => {
            let bytes = bytes_of(alloc.clone()?, value)?;
            Op::put(alloc, &[operation.key], &bytes)
        }
        None => Op::delete(alloc, &[operation.key]),
    }
}

fn add_to<A: Allocator + Clone>(
    alloc: &A,
    batch: &mut Batch<A>,
    operation: Operation,
) -> Result<(), Refusal> {
    match operation.value {
        Some(value) => {
            let bytes = bytes_of(alloc.clone()?, value)?;
            batch.put(&[operation.key], &bytes)
        }
        None => batch.delete(&[operation.key]),
    }
}

/// The batch that makes a change.
pub(crate) fn batch_of<A: Allocator + Clone>(
    alloc: &A,
    change: Change,
) -> Result<Batch<A>, Refusal> {
    let Some(first) = change.operation(0) else {
        return Err(Refusal::BadKey);
    };
    let op = operation_of(alloc.clone()?, first)?;
    let mut batch = Batch::new(alloc.clone()?, op)?;
    for place in 1..=u8::MAX {
        match change.operation(place) {
            Some(operation) => add_to(alloc, &mut batch, operation)?,
            None => return Ok(batch),
        }
    }
    Ok(batch)
}

fn guard_of<A: Allocator + Clone>(alloc: &A, condition: Condition) -> Result<Guard<A>, Refusal> {
    match condition.value {
        Some(value) => {
            let bytes = bytes_of(alloc.clone()?, value)?;
            Guard::holds(alloc.clone()?, &[condition.key], &bytes)
        }
        None => Guard::absent(alloc.clone()?, &[condition.key]),
    }
}

/// The guards that ask for both.
pub(crate) fn guards_of<A: Allocator + Clone>(
    alloc: &A,
    first: Condition,
    second: Condition,
) -> Result<Vec<Guard<A>, A>, Refusal> {
    let mut guards = Vec::new(alloc.clone()?);
    guards.push(guard_of(alloc, first)?)?;
    guards.push(guard_of(alloc, second)?)?;
    Ok(guards)
}

/// Opens the store on a device.
pub fn open<A: Allocator + Clone, B: Allocator>(
    alloc: A,
    own: A,
    disk: Disk<B>,
) -> Result<Subject<A, B>, (Refusal, Disk<B>)> {
    match Store::open(alloc, disk.into_device(), CACHE) {
        Ok(store) => Ok(Subject::of(own, store)),
        Err((refusal, device)) => Err((refusal, Disk { device })),
    }
}

impl<A: Allocator + Clone, B: Allocator> Subject<A, B> {
    fn commit(&mut self, change: Change) -> Result<Answer, Refusal> {
        let batch = batch_of(&self.alloc, change)?;
        Ok(Answer::Number(self.store.commit(&batch)?))
    }

    fn commit_if(
        &mut self,
        (first, second): (Condition, Condition),
        change: Change,
    ) -> Result<Answer, Refusal> {
        let guards = guards_of(&self.alloc, first, second)?;
        let batch = batch_of(&self.alloc, change)?;
        Ok(Answer::Number(self.store.commit_if(&guards, &batch)?))
    }

    fn get(&mut self, at: At, key: u8) -> Result<Answer, Refusal> {
        match self.store.get(at, &[key])? {
            Some(value) => Ok(Answer::Found(Some(value_of(&value)))),
            None => Ok(Answer::Found(None)),
        }
    }

    fn scan(&mut self, at: At, from: u8, limit: u64) -> Result<Answer, Refusal> {
        let page = self.store.scan(at, &[from], None, limit)?;
        Ok(told_page(&page))
    }

    fn sync(&mut self) -> Result<Answer, Refusal> {
        self.store.sync()?;
        Ok(Answer::Done)
    }

    fn sync_to(&mut self, number: u64) -> Result<Answer, Refusal> {
        self.store.sync_to(number)?;
        Ok(Answer::Done)
    }

    fn snapshot(&mut self) -> Result<Answer, Refusal> {
        Ok(Answer::Number(self.store.snapshot()?))
    }

    fn release(&mut self, number: u64) -> Result<Answer, Refusal> {
        self.store.release(number)?;
        Ok(Answer::Done)
    }

    fn rotate(&mut self) -> Result<Answer, Refusal> {
        self.store.rotate()?;
        Ok(Answer::Done)
    }

    fn room(&self) -> Result<Answer, Refusal> {
        Ok(Answer::Number(self.store.log_room()?.into()))
    }

    fn stat(&self) -> Result<Answer, Refusal> {
        Ok(Answer::Numbers(self.store.stat()?))
    }

    fn take_of(&mut self, choice: Choice) -> Result<Answer, Refusal> {
        Ok(told_taken(self.store.job_take_of(choice)?))
    }

    fn read(&mut self, job: u64) -> Result<Answer, Refusal> {
        let left = self.store.job_read(job)?;
        Ok(Answer::Left(left as u64))
    }

    fn accept(&mut self, job: u64) -> Result<Answer, Refusal> {
        let Some(built) = &self.result else {
            return Ok(Answer::NoResult);
        };
        self.store.job_accept(job, built)?;
        Ok(Answer::Done)
    }

    fn write(&mut self, job: u64) -> Result<Answer, Refusal> {
        Ok(Answer::Left(self.store.job_write(job)?.into()))
    }

    fn install(&mut self, job: u64) -> Result<Answer, Refusal> {
        self.store.job_install(job)?;
        Ok(Answer::Done)
    }

    fn drop_job(&mut self, job: u64) -> Result<Answer, Refusal> {
        self.store.job_drop(job)?;
        Ok(Answer::Done)
    }

    /// What a piece of work answers that builds nothing.
    fn worked(&mut self, step: Step) -> Result<Answer, Refusal> {
        match step {
            Step::Take => Ok(told_taken(self.store.job_take()?)),
            Step::TakeOf(choice) => self.take_of(choice),
            Step::Read(job) => self.read(job),
            Step::Accept(job) => self.accept(job),
            Step::Write(job) => self.write(job),
            Step::Install(job) => self.install(job),
            Step::Drop(job) => self.drop_job(job),
            _ => Ok(Answer::NoResult),
        }
    }

    /// What a step answers that builds nothing.
    fn made(&mut self, step: Step) -> Result<Answer, Refusal> {
        match step {
            Step::Commit(change) => self.commit(change),
            Step::CommitIf(first, second, change) => self.commit_if((first, second), change),
            Step::Sync => self.sync(),
            Step::SyncTo(number) => self.sync_to(number),
            Step::Get(at, key) => self.get(at, key),
            Step::Scan(at, from, limit) => self.scan(at, from, limit),
            Step::Snapshot => self.snapshot(),
            Step::Release(number) => self.release(number),
            Step::Rotate => self.rotate(),
            Step::Room => self.room(),
            Step::Stat => self.stat(),
            _ => self.worked(step),
        }
    }

    /// What a step answers. No result is built.
    pub fn answer_alone(&mut self, step: Step) -> Answer {
        told(self.made(step))
    }

    /// How many batches there are, and how many of them are synced, also of a stopped store.
    pub fn counts(&self) -> (u64, u64) {
        (self.store.batch_count(), self.store.synced_count())
    }

    /// The tables of all levels, also of a stopped store.
    pub fn tables(&self) -> TablesTold {
        told_tables(self.store.levels())
    }

    /// How many calls the device has had.
    pub fn calls(&self) -> u64 {
        let changes = self.store.writes().wrapping_add(self.store.syncs());
        self.store.reads().wrapping_add(changes)
    }

    /// Lets the call of the device with this number fail, counted from 0.
    pub fn fail(&mut self, n: u64, kept: bool) {
        self.store.fail(n, kept);
    }

    /// A store without a result.
    pub fn of(alloc: A, store: Store<MemDevice<B>, A>) -> Subject<A, B> {
        Subject {
            alloc,
            store,
            result: None,
        }
    }

    /// The store.
    pub fn into_parts(self) -> (A, Store<MemDevice<B>, A>) {
        let Subject {
            alloc,
            store,
            result: _,
        } = self;
        (alloc, store)
    }

    /// The device.
    pub fn into_disk(self) -> Disk<B> {
        let Subject {
            alloc: _,
            store,
            result: _,
        } = self;
        Disk {
            device: store.into_device(),
        }
    }
}

/// The result of a merge.
fn merged<R: Threads + Sync, A: Allocator + Clone + Send + Sync>(
    rt: &R,
    alloc: &A,
    input: Arc<Input<A>, A>,
    parts: u8,
) -> Result<Built<A>, Refusal> {
    let built = build(rt, alloc.clone()?, input, parts)?;
    Ok(built)
}

/// In how many parts a result is built that is divided at keys.
const DIVIDED_PARTS: u8 = 2;

/// The result of a merge that is divided at keys.
fn divided<R: Threads + Sync, A: Allocator + Clone + Send + Sync>(
    rt: &R,
    alloc: &A,
    input: Arc<Input<A>, A>,
    division: Division,
) -> Result<Built<A>, Refusal> {
    let mut keys = Vec::new(alloc.clone()?);
    keys.push(Key::from_slice(alloc.clone()?, &[division.first])?)?;
    keys.push(Key::from_slice(alloc.clone()?, &[division.second])?)?;
    let built = build_divided(rt, alloc.clone()?, input, DIVIDED_PARTS, keys)?;
    Ok(built)
}

impl<A: Allocator + Clone + Send + Sync, B: Allocator> Subject<A, B> {
    fn result_of<R: Threads + Sync>(
        &self,
        rt: &R,
        job: u64,
        parts: u8,
    ) -> Result<Built<A>, Refusal> {
        let input = self.store.job_input(job)?;
        merged(rt, &self.alloc, input, parts)
    }

    fn build<R: Threads + Sync>(&mut self, rt: &R, job: u64, parts: u8) -> Result<Answer, Refusal> {
        let built = self.result_of(rt, job, parts)?;
        Ok(self.keep(built))
    }

    fn divide<R: Threads + Sync>(
        &mut self,
        rt: &R,
        job: u64,
        division: Division,
    ) -> Result<Answer, Refusal> {
        let input = self.store.job_input(job)?;
        let built = divided(rt, &self.alloc, input, division)?;
        Ok(self.keep(built))
    }

    /// A result was built.
    fn keep(&mut self, built: Built<A>) -> Answer {
        let tables = built.images().len();
        self.result = Some(built);
        Answer::Built(tables)
    }

    /// What a replay of these steps replies.
    pub fn replay<R: Threads + Sync>(
        &mut self,
        rt: &R,
        steps: &[Asked<A>],
    ) -> Result<Vec<Reply<A>, A>, Refusal> {
        let alloc = self.alloc.clone()?;
        let replies = replay(rt, alloc, &mut self.store, steps)?;
        Ok(replies)
    }

    /// What a step answers.
    pub fn answer<R: Threads + Sync>(&mut self, rt: &R, step: Step) -> Answer {
        match step {
            Step::Build(job, parts) => told(self.build(rt, job, parts)),
            Step::Divide(job, division) => told(self.divide(rt, job, division)),
            _ => self.answer_alone(step),
        }
    }
}
