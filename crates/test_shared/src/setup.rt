//! Stores that the tests begin with, and what is left of a session.

use lsm_codec::{Batch, Op};
use lsm_device::{MemDevice, Refusal};
use lsm_open::format;
use lsm_shared::prepare;
use lsm_store::Store;
use lsm_trail::{Opened, Trail};
use std::alloc::Global;
use std::process::Abort;

/// The store of a device.
pub fn opened<R: Abort>(rt: &R, alloc: Global, device: MemDevice) -> Store<MemDevice> {
    // With room for 256 blocks in its cache.
    match Store::open(alloc, device, 256) {
        Ok(store) => store,
        Err((refusal, _)) => rt.panic(refusal.name()),
    }
}

/// An empty store of so many sectors.
pub fn empty<R: Abort>(rt: &R, alloc: Global, sectors: u32, log_sectors: u16) -> Store<MemDevice> {
    let device = MemDevice::new(alloc, sectors).expect(rt, "a device");
    match format(alloc, device, log_sectors) {
        Ok(device) => opened(rt, alloc, device),
        Err((refusal, _)) => rt.panic(refusal.name()),
    }
}

/// A small one.
pub fn small<R: Abort>(rt: &R, alloc: Global) -> Store<MemDevice> {
    empty(rt, alloc, 8_192, 128)
}

/// A session of a store with so many clients and so many places in its trail, which has no name yet.
pub fn prepared<R: Abort>(
    rt: &R,
    alloc: Global,
    store: Store<MemDevice>,
    (clients, places): (u32, u32),
) -> Opened<MemDevice> {
    match prepare(alloc, store, clients, places) {
        Ok(opened) => opened,
        Err((refusal, _)) => rt.panic(refusal.name()),
    }
}

/// A batch of one put.
pub fn put(alloc: Global, key: &[u8], value: &[u8]) -> Result<Batch, Refusal> {
    Batch::new(alloc, Op::put(alloc, key, value)?)
}

/// What is left of a session.
pub struct Left {
    pub store: Store<MemDevice>,
    pub trail: Trail,
}

// One call at each exit of a caller, in the place of the drops of both fields.
impl Drop for Left {
    fn drop(self) {
        let Left { store: _, trail: _ } = self;
    }
}

impl Left {
    /// The store, and the trail.
    pub fn into_parts(self) -> (Store<MemDevice>, Trail) {
        let Left { store, trail } = self;
        (store, trail)
    }
}
