//! What is measured: a store, and a file for its raw calls.

use crate::clients::{Task, Times, shared_by};
use crate::clock::{now, since};
use crate::raw::Raw;
use crate::settling::{Upkeep, Written, settle};
use crate::sizes::{CACHE, LOG_SECTORS};
use lsm_device::{Device, Refusal};
use lsm_open::format;
use lsm_store::{Stat, Store};
use std::alloc::Global;
use std::rt::Clock;
use std::sync::Wait;
use std::thread::Threads;

/// A store on a device, and the file for its raw calls where there is one. There is no store once an opening or a session was
/// refused.
pub(crate) struct Subject<D: Device> {
    pub(crate) store: Option<Store<D>>,
    pub(crate) raw: Option<Raw>,
}

// One call at each exit of a caller, in the place of the drops of all that a store is made of.
impl<D: Device + Drop> Drop for Subject<D> {
    fn drop(self) {
        let Subject { store: _, raw: _ } = self;
    }
}

/// Opens the store on a device, with a cache of `cache` blocks.
fn opened<D: Device + Drop>(alloc: Global, device: D, cache: u32) -> Result<Store<D>, Refusal> {
    match Store::open(alloc, device, cache) {
        Ok(store) => Ok(store),
        Err((refusal, _)) => Err(refusal),
    }
}

/// An empty store on a device.
fn fresh<D: Device + Drop>(alloc: Global, device: D) -> Result<Store<D>, Refusal> {
    match format(alloc, device, LOG_SECTORS) {
        Ok(device) => opened(alloc, device, CACHE),
        Err((refusal, _)) => Err(refusal),
    }
}

impl<D: Device + Drop> Subject<D> {
    /// An empty store on a device, with such a file.
    pub(crate) fn on(alloc: Global, device: D, raw: Option<Raw>) -> Result<Subject<D>, Refusal> {
        let store = Some(fresh(alloc, device)?);
        Ok(Subject { store, raw })
    }

    /// The numbers of the store.
    pub(crate) fn stat(&self) -> Result<Stat, Refusal> {
        match &self.store {
            Some(store) => store.stat(),
            None => Err(Refusal::Stopped),
        }
    }

    /// Makes all batches durable.
    fn sync(&mut self) -> Result<(), Refusal> {
        match &mut self.store {
            Some(store) => store.sync(),
            None => Err(Refusal::Stopped),
        }
    }

    /// Closes the store, and gives its device.
    fn closed(&mut self) -> Result<D, Refusal> {
        match self.store.take() {
            Some(store) => Ok(store.into_device()),
            None => Err(Refusal::Stopped),
        }
    }

    /// Makes an empty store of the device.
    pub(crate) fn renew(&mut self, alloc: Global) -> Result<(), Refusal> {
        let device = self.closed()?;
        self.store = Some(fresh(alloc, device)?);
        Ok(())
    }

    /// Syncs the store, closes it, and opens it again with an empty cache of `cache` blocks. Returns the nanoseconds of the
    /// opening.
    pub(crate) fn reopen<R: Clock>(
        &mut self,
        rt: &R,
        alloc: Global,
        cache: u32,
    ) -> Result<u64, Refusal> {
        self.sync()?;
        let device = self.closed()?;
        let start = now(rt);
        self.store = Some(opened(alloc, device, cache)?);
        Ok(since(rt, start))
    }
}

impl<D: Device + Drop + Send> Subject<D> {
    fn settle<R: Threads + Sync>(
        &mut self,
        rt: &R,
        alloc: Global,
        upkeep: Upkeep,
    ) -> Result<(), Refusal> {
        match &mut self.store {
            Some(store) => settle(rt, alloc, store, upkeep, &mut Written::NOTHING),
            None => Err(Refusal::Stopped),
        }
    }

    /// Settles the store, and lets clients share it. Returns what was measured of the session.
    pub(crate) fn share<R: Threads + Wait + Clock + Sync>(
        &mut self,
        rt: &R,
        alloc: Global,
        upkeep: Upkeep,
        task: Task,
    ) -> Result<Times, Refusal> {
        self.settle(rt, alloc, upkeep)?;
        match self.store.take() {
            Some(store) => {
                let (store, times) = shared_by(rt, alloc, store, task)?;
                self.store = Some(store);
                Ok(times)
            }
            None => Err(Refusal::Stopped),
        }
    }
}
