//! A store on a device in memory, whose calls tell the prover nothing, so that it has nothing to carry from one line of a test to the
//! next.

use lsm_codec::{Batch, Guard, Key, Op};
use lsm_device::{MemDevice, Refusal};
use lsm_open::format;
use lsm_policy::Policy;
use lsm_store::{At, Choice, Page, Store};
use lsm_upkeep::{Walk, compact, compact_all, keep_up, settle};
use std::alloc::Global;
use std::process::Abort;

/// The blocks of a cache that has room for all.
pub(crate) const CACHE: u32 = 256;

/// A store. Keys are single bytes where a call doesn't say otherwise.
pub(crate) struct Subject {
    alloc: Global,
    store: Store<MemDevice>,
}

// One call at each exit of a test, in the place of all that a store is made of.
impl Drop for Subject {
    fn drop(self) {
        let Subject { alloc: _, store: _ } = self;
    }
}

/// The store on a formatted device, with log regions of so many sectors and a cache of so many blocks.
pub(crate) fn begun_with<R: Abort>(rt: &R, alloc: Global, log_sectors: u16, cache: u32) -> Subject {
    let device = MemDevice::new(alloc, 8_192).expect(rt, "a device");
    match format(alloc, device, log_sectors) {
        Ok(device) => Subject::open(rt, alloc, device, cache),
        Err((refusal, _)) => rt.panic(refusal.name()),
    }
}

/// The store on a formatted device, with log regions of 128 sectors.
pub(crate) fn begun<R: Abort>(rt: &R, alloc: Global) -> Subject {
    begun_with(rt, alloc, 128, CACHE)
}

/// Keys of one byte each.
fn keys_of<R: Abort>(rt: &R, alloc: Global, bytes: &[u8]) -> Vec<Key> {
    let mut keys = Vec::new(alloc);
    for byte in bytes {
        let key = Key::from_slice(alloc, &[*byte]).expect(rt, "memory");
        keys.push(key).expect(rt, "memory");
    }
    keys
}

impl Subject {
    fn open<R: Abort>(rt: &R, alloc: Global, device: MemDevice, cache: u32) -> Subject {
        match Store::open(alloc, device, cache) {
            Ok(store) => Subject { alloc, store },
            Err((refusal, _)) => rt.panic(refusal.name()),
        }
    }

    /// The store after a crash that keeps these of the writes that pend.
    pub(crate) fn crashed<R: Abort>(self, rt: &R, keep: &[bool]) -> Subject {
        let Subject { alloc, store } = self;
        Subject::open(rt, alloc, store.into_device().crash(keep), CACHE)
    }

    fn batch<R: Abort>(&self, rt: &R, key: &[u8], value: &[u8]) -> Batch {
        let op = Op::put(self.alloc, key, value).expect(rt, "an operation");
        Batch::new(self.alloc, op).expect(rt, "a batch")
    }

    /// Puts a value under a key of any bytes.
    pub(crate) fn put<R: Abort>(
        &mut self,
        rt: &R,
        key: &[u8],
        value: &[u8],
    ) -> Result<u64, Refusal> {
        let batch = self.batch(rt, key, value);
        self.store.commit(&batch)
    }

    /// Deletes a key of any bytes.
    pub(crate) fn delete<R: Abort>(&mut self, rt: &R, key: &[u8]) -> Result<u64, Refusal> {
        let op = Op::delete(self.alloc, key).expect(rt, "an operation");
        let batch = Batch::new(self.alloc, op).expect(rt, "a batch");
        self.store.commit(&batch)
    }

    /// Puts a value where the key has this one, or with none has none. It tells how many sectors were read for that, too.
    pub(crate) fn put_if<R: Abort>(
        &mut self,
        rt: &R,
        key: u8,
        wanted: Option<u8>,
        value: u8,
    ) -> (Result<u64, Refusal>, u64) {
        let guard = match wanted {
            Some(wanted) => Guard::holds(self.alloc, &[key], &[wanted]),
            None => Guard::absent(self.alloc, &[key]),
        };
        let guards = [guard.expect(rt, "a guard")];
        let batch = self.batch(rt, &[key], &[value]);
        let before = self.store.reads();
        let answer = self.store.commit_if(&guards, &batch);
        (answer, self.store.reads().wrapping_sub(before))
    }

    /// The first byte of a key's value, and how many sectors were read for it.
    pub(crate) fn look_up<R: Abort>(&mut self, rt: &R, at: At, key: u8) -> (Option<u8>, u64) {
        let before = self.store.reads();
        let value = self.store.get(at, &[key]).expect(rt, "a value");
        let first = value.and_then(|value| value.first().copied());
        (first, self.store.reads().wrapping_sub(before))
    }

    /// How many rows a page from a key on has, and how many sectors were read for it.
    pub(crate) fn page<R: Abort>(&mut self, rt: &R, from: &[u8], limit: u64) -> (usize, u64) {
        let before = self.store.reads();
        let page = self
            .store
            .scan(At::Now, from, None, limit)
            .expect(rt, "a page");
        (page.rows().len(), self.store.reads().wrapping_sub(before))
    }

    /// Closes the log, so that what was put waits for a flush.
    pub(crate) fn rotate<R: Abort>(&mut self, rt: &R) {
        self.store.rotate().expect(rt, "a rotation");
    }

    /// Puts 61 = 31, or 62 = 32, and so on, and closes the log.
    pub(crate) fn put_and_rotate<R: Abort>(&mut self, rt: &R, key: u8) {
        self.put(rt, &[key], &[key ^ 0x50]).expect(rt, "a batch");
        self.rotate(rt);
    }

    pub(crate) fn snapshot<R: Abort>(&mut self, rt: &R) -> At {
        At::Snap(self.store.snapshot().expect(rt, "a snapshot"))
    }

    /// Lets the call of the device with this number fail, counted from now on. A write that fails is kept, or not.
    pub(crate) fn fail(&mut self, n: u64, kept: bool) {
        self.store.fail(n, kept);
    }

    /// Whether there are so many batches, and just their keys, where batch 1 put 61 = 31, batch 2 62 = 32, and so on.
    pub(crate) fn has_just<R: Abort>(&mut self, rt: &R, batches: u8) -> bool {
        for n in 1..=15_u8 {
            let (found, _) = self.look_up(rt, At::Now, 0x60 | n);
            let wanted = if n <= batches { Some(0x30 | n) } else { None };
            if found != wanted {
                return false;
            }
        }
        self.store.batch_count() == u64::from(batches)
    }

    /// How many runs level 0 has, and how many tables each of levels 1 to 4.
    pub(crate) fn shape(&self) -> [usize; 5] {
        let levels = self.store.levels();
        let mut shape = [levels.runs().len(), 0, 0, 0, 0];
        for (count, run) in shape.iter_mut().skip(1).zip(levels.deeper()) {
            *count = run.tables().len();
        }
        shape
    }

    /// How many tables the store tells that it has.
    pub(crate) fn tables<R: Abort>(&self, rt: &R) -> usize {
        self.store.stat().expect(rt, "numbers").tables
    }

    /// The entries of the memtable, those that wait for a flush, if some do, and the generation.
    pub(crate) fn numbers(&self) -> (u64, Option<u64>, u64) {
        let waiting = match self.store.sealed_size() {
            Some(size) => Some(size.entries),
            None => None,
        };
        (
            self.store.memtable_size().entries,
            waiting,
            self.store.generation(),
        )
    }

    /// Whether the store is stopped, and whether a flush waits.
    pub(crate) fn stands_still(&self) -> (bool, bool) {
        (self.store.is_stopped(), self.store.is_waiting())
    }

    /// The numbers of the first and of the last table of a level from 1 to 4, of which it has one at least.
    pub(crate) fn ends<R: Abort>(&self, rt: &R, level: usize) -> (u64, u64) {
        let run = self.store.levels().deeper().get(level.wrapping_sub(1));
        let tables = run.expect(rt, "a level").tables();
        let first = tables.first().expect(rt, "a table").number();
        (first, tables.last().expect(rt, "a table").number())
    }

    /// Writes tables of a level anew in their own place, from that of one number to that of another, divided at these keys. They have,
    /// and become, at most eight blocks. It tells the level above theirs, none where no job is given.
    pub(crate) fn rewrite<R: Abort>(
        &mut self,
        rt: &R,
        first: u64,
        last: u64,
        keys: &[u8],
    ) -> Option<usize> {
        let choice = Choice::Rewrite { first, last };
        let taken = self.store.job_take_of(choice).expect(rt, "an answer")?;
        let job = taken.number;
        let unread = self.store.job_read(job).expect(rt, "a read");
        let divisions = keys_of(rt, self.alloc, keys);
        self.store.job_merge(job, divisions).expect(rt, "room");
        let unwritten = self.store.job_write(job).expect(rt, "a write");
        assert!(rt; (unread, unwritten) == (0, 0), "{job}: blocks are left");
        self.store.job_install(job).expect(rt, "an install");
        taken.level
    }

    pub(crate) fn settle(&mut self) {
        settle(self.alloc, &mut self.store);
    }

    pub(crate) fn compact(&mut self, policy: &Policy) {
        compact(self.alloc, &mut self.store, policy);
    }

    pub(crate) fn compact_all(&mut self) -> bool {
        compact_all(self.alloc, &mut self.store)
    }

    pub(crate) fn keep_up(&mut self, policy: &Policy) {
        keep_up(self.alloc, &mut self.store, policy);
    }

    /// A walk from a key on.
    pub(crate) fn walk<R: Abort>(&self, rt: &R, at: At, from: &[u8]) -> Walk {
        Walk::new(self.alloc, at, from).expect(rt, "a walk")
    }

    /// The next page of a walk.
    pub(crate) fn next_page<R: Abort>(&mut self, rt: &R, walk: &mut Walk) -> Option<Page> {
        walk.next_page(self.alloc, &mut self.store)
            .expect(rt, "a page")
    }
}
