//! A store whose calls tell the prover nothing, so that it has nothing to carry from one line of a test to the next.

use corwaphi::{Db, Options, Pages, RangeRows};
use lsm_codec::{Batch, Guard, Op};
use lsm_device::{Device, MemDevice, Refusal};
use lsm_open::format;
use lsm_store::{At, Page};
use std::alloc::Global;
use std::process::Abort;

/// A store.
pub(crate) struct Subject<D: Device> {
    alloc: Global,
    db: Db<D>,
}

// One call at each exit of a test, in the place of all that a store is made of.
impl<D: Device + Drop> Drop for Subject<D> {
    fn drop(self) {
        let Subject { alloc: _, db: _ } = self;
    }
}

/// An empty store on a device in memory of 8,192 sectors, with log regions of 128.
pub(crate) fn begun<R: AllocGlobal + Abort>(rt: &R) -> Subject<MemDevice> {
    begun_in(rt, 8_192, 128)
}

/// An empty store on a device in memory of so many sectors, with log regions of so many.
pub(crate) fn begun_in<R: AllocGlobal + Abort>(
    rt: &R,
    sectors: u32,
    log_sectors: u16,
) -> Subject<MemDevice> {
    let device = MemDevice::new(rt.alloc(), sectors).expect(rt, "a device");
    match format(rt.alloc(), device, log_sectors) {
        Ok(device) => opened(rt, device),
        Err((refusal, _)) => rt.panic(refusal.name()),
    }
}

/// The store on a device.
pub(crate) fn opened<R: AllocGlobal + Abort, D: Device + Drop>(rt: &R, device: D) -> Subject<D> {
    match Db::on(rt, device, Options::default()) {
        Ok(db) => Subject {
            alloc: rt.alloc(),
            db,
        },
        Err(refused) => rt.panic(refused.refusal.name()),
    }
}

impl<D: Device> Subject<D> {
    pub(crate) fn of(alloc: Global, db: Db<D>) -> Subject<D> {
        Subject { alloc, db }
    }

    pub(crate) fn into_db(self) -> Db<D> {
        let Subject { alloc: _, db } = self;
        db
    }

    pub(crate) fn into_device(self) -> D {
        let Subject { alloc: _, db } = self;
        db.into_device()
    }

    pub(crate) fn put(&mut self, key: &[u8], value: &[u8]) -> Result<u64, Refusal> {
        self.db.put(key, value)
    }

    pub(crate) fn delete(&mut self, key: &[u8]) -> Result<u64, Refusal> {
        self.db.delete(key)
    }

    fn batch<R: Abort>(&self, rt: &R, key: &[u8], value: &[u8]) -> Batch {
        let op = Op::put(self.alloc, key, value).expect(rt, "an operation");
        Batch::new(self.alloc, op).expect(rt, "a batch")
    }

    /// Puts a value under a key and deletes another one, by one batch.
    pub(crate) fn put_and_delete<R: Abort>(
        &mut self,
        rt: &R,
        key: &[u8],
        value: &[u8],
        deleted: &[u8],
    ) -> Result<u64, Refusal> {
        let mut batch = self.batch(rt, key, value);
        batch.delete(deleted).expect(rt, "a batch");
        self.db.write(&batch)
    }

    /// Puts a value where the key has this one, or with none has none.
    pub(crate) fn put_if<R: Abort>(
        &mut self,
        rt: &R,
        key: &[u8],
        wanted: Option<&[u8]>,
        value: &[u8],
    ) -> Result<u64, Refusal> {
        let guard = match wanted {
            Some(wanted) => Guard::holds(self.alloc, key, wanted),
            None => Guard::absent(self.alloc, key),
        };
        let guards = [guard.expect(rt, "a guard")];
        let batch = self.batch(rt, key, value);
        self.db.write_if(&guards, &batch)
    }

    /// Whether a key has just this value, or with none has none.
    pub(crate) fn has<R: Abort>(&mut self, rt: &R, key: &[u8], wanted: Option<&[u8]>) -> bool {
        is_value(self.db.get(key).expect(rt, "a value"), wanted)
    }

    pub(crate) fn had<R: Abort>(
        &mut self,
        rt: &R,
        snapshot: u64,
        key: &[u8],
        wanted: Option<&[u8]>,
    ) -> bool {
        is_value(self.db.get_at(snapshot, key).expect(rt, "a value"), wanted)
    }

    pub(crate) fn snapshot<R: Abort>(&mut self, rt: &R) -> u64 {
        self.db.snapshot().expect(rt, "a snapshot")
    }

    pub(crate) fn release(&mut self, snapshot: u64) -> Result<(), Refusal> {
        self.db.release(snapshot)
    }

    pub(crate) fn sync(&mut self) -> Result<(), Refusal> {
        self.db.sync()
    }

    pub(crate) fn sync_to(&mut self, number: u64) -> Result<(), Refusal> {
        self.db.sync_to(number)
    }

    pub(crate) fn compact(&mut self) -> bool {
        self.db.compact()
    }

    /// How many batches there are, and how many tables.
    pub(crate) fn counts<R: Abort>(&self, rt: &R) -> (u64, u64) {
        let stat = self.db.stat().expect(rt, "numbers");
        (stat.batches, stat.tables as u64)
    }

    /// How many runs level 0 has.
    pub(crate) fn runs<R: Abort>(&self, rt: &R) -> usize {
        self.db.stat().expect(rt, "numbers").runs
    }

    /// How many rows the present map has in a range, 64 at most.
    pub(crate) fn page<R: Abort>(&mut self, rt: &R, from: &[u8], to: Option<&[u8]>) -> usize {
        let page = self.db.page(At::Now, from, to, 64).expect(rt, "a page");
        page.rows().len()
    }

    pub(crate) fn rows_at(
        &mut self,
        at: At,
        from: &[u8],
        to: Option<&[u8]>,
    ) -> Result<RangeRows<'_, D>, Refusal> {
        self.db.rows_at(at, from, to)
    }

    pub(crate) fn rows_with_prefix(&mut self, prefix: &[u8]) -> Result<RangeRows<'_, D>, Refusal> {
        self.db.rows_with_prefix(prefix)
    }

    pub(crate) fn pages<R: Abort>(&mut self, rt: &R, from: &[u8], to: Option<&[u8]>) -> Pages {
        self.db.pages(from, to).expect(rt, "pages")
    }

    pub(crate) fn next_page<R: Abort>(&mut self, rt: &R, pages: &mut Pages) -> Option<Page> {
        pages.next_page(&mut self.db).expect(rt, "a page")
    }

    pub(crate) fn end(&mut self, pages: Pages) {
        pages.end(&mut self.db);
    }
}

fn is_value(found: Option<Vec<u8>>, wanted: Option<&[u8]>) -> bool {
    match (&found, wanted) {
        (Some(found), Some(wanted)) => found.as_slice() == wanted,
        (None, None) => true,
        _ => false,
    }
}
